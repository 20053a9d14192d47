//! What the parts of all bodies give to the lists of the facts.

ghost use Rattle.std.specs.Prelude.{IfOk, OnOk, map};
ghost use Rattle.flow_facts.specs.Gathered.{IsPartAdded, ArePartsAdded, AreGathered};
ghost use Rattle.flow_facts.specs.Words.{program_of, IsFormed, part_seen, parts_seen, body_seen, numbers_seen};

use crate::Tried;
use crate::given::Given;
use crate::lists::{
    PlacedCall, add_accesses, add_calls, add_casts, add_flows, add_loads, add_news, add_stores,
    add_supers, add_tests,
};
use crate::spots::add_marks;
use crate::stages::Unordered;
use crate::ties::add_ties;
use fact_model::TestInfo;
use flow_rules::{Body, Mark, Part};
use std::mem::drop;

/// The lists that the parts of bodies give.
#[derive(Drop)]
pub struct Lists {
    pub unordered: Unordered,
    pub calls: Vec<PlacedCall>,
    pub tests: Vec<TestInfo>,
    pub marks: Vec<Mark>,
}

/// Adds what a part of a method's body gives. The slot is the method's.
fn add_part(given: &Given, m: u64, slot: Option<u32>, part: &Part, lists: &mut Lists) -> Tried<()>
    requires { IsFormed (program_of given.now.program.now) }
    ensures { OnOk result (IsPartAdded (numbers_seen given.now.numbering.now) (program_of given.now.program.now) m slot
        (part_seen part.now) lists.old lists.new) }
{
    let n = given.numbering;
    made!(add_news(n, m, part, &mut lists.unordered.news));
    made!(add_flows(n, m, part, &mut lists.unordered.flows));
    made!(add_loads(n, part, &mut lists.unordered.loads));
    made!(add_stores(n, part, &mut lists.unordered.stores));
    made!(add_calls(given, part, &mut lists.calls));
    made!(add_casts(n, part, &mut lists.unordered.casts));
    made!(add_tests(n, part, &mut lists.tests));
    made!(add_marks(given, part, &mut lists.marks));
    made!(add_accesses(n, part, &mut lists.unordered.accesses));
    made!(add_supers(n, m, part, &mut lists.unordered.supers));
    add_ties(given.program, n, m, slot, part, &mut lists.unordered.ties)
}

/// Adds what the parts of a method's body give. The slot is the method's.
fn add_parts(
    given: &Given,
    m: u64,
    slot: Option<u32>,
    parts: &Vec<Part>,
    lists: &mut Lists,
) -> Tried<()>
    requires { IsFormed (program_of given.now.program.now) }
    ensures { OnOk result (ArePartsAdded (numbers_seen given.now.numbering.now) (program_of given.now.program.now) m slot
        (parts_seen parts.now.items) lists.old lists.new) }
{
    for part in parts {
        made!(add_part(given, m, slot, part, lists));
    }
    Ok(())
}

/// What the parts of all bodies give.
pub fn gather(given: &Given, bodies: &Vec<Body>) -> Tried<Lists>
    requires { IsFormed (program_of given.now.program.now) }
    ensures { IfOk result (λ l. AreGathered (numbers_seen given.now.numbering.now) (program_of given.now.program.now)
        (map body_seen bodies.now.items) l) }
{
    let alloc = given.alloc;
    let unordered = Unordered {
        news: Vec::new(alloc),
        flows: Vec::new(alloc),
        loads: Vec::new(alloc),
        stores: Vec::new(alloc),
        casts: Vec::new(alloc),
        accesses: Vec::new(alloc),
        supers: Vec::new(alloc),
        ties: Vec::new(alloc),
    };
    let mut lists = Lists {
        unordered,
        calls: Vec::new(alloc),
        tests: Vec::new(alloc),
        marks: Vec::new(alloc),
    };
    for body in bodies {
        made!(
            add_parts(given, body.number, body.slot, &body.parts, &mut lists);
            lists
        );
    }
    Ok(lists)
}
