//! The facts over what is numbered.

ghost use Rattle.std.specs.Prelude.{◌≡◌, ◌<◌, List, IfOk, length, map};
ghost use Rattle.flow_rules.specs.Facts.{AreNamesOf, IsFactsOf, call_seen, fixed_names};
ghost use Rattle.flow_rules.specs.Lists.{Numbers};
ghost use Rattle.flow_rules.specs.Numbered as numbered;
ghost use Rattle.flow_rules.specs.Numbered.{sites_of};
ghost use Rattle.flow_rules.specs.Ordered.{by_place};
ghost use Rattle.flow_facts.specs.Gathered.{AreGathered};
ghost use Rattle.flow_facts.specs.Said.{AreFactTables, AreTexts, AreOrderedLists, IsSaid};
ghost use Rattle.flow_facts.specs.Seen.{calls_seen};
ghost use Rattle.flow_facts.specs.Stages.{IsNumbered};
ghost use Rattle.flow_facts.specs.Fixed.{fixed_seen};
ghost use Rattle.flow_facts.specs.Words.{Plain, program_of, IsFormed, body_seen, numbers_seen};

use crate::Tried;
use crate::fixed::{FixedName, makers_of, makes_of};
use crate::gathering::{Lists, gather};
use crate::given::Given;
use crate::infos::{body_infos, column_infos, point_rows, row_infos, site_infos};
use crate::lists::PlacedCall;
use crate::names::{class_infos, variables, words};
use crate::ordered::by_place;
use crate::spots::spots_of;
use crate::stages::{Numbered, Tables, Texts};
use fact_model::{CallInfo, Facts, Spot};
use flow_rules::Site;
use java_core::Program;
use std::alloc::Global;
use std::mem::{drop, replace};

/// The calls without their places.
fn without_places(alloc: Global, calls: Vec<PlacedCall>) -> Tried<Vec<CallInfo>>
    ensures value { IfOk result (λ v. v.items ≡ map (λ c. c.call) calls.items) }
{
    calls.into_iter().map(|placed| placed.call).collect(alloc)
}

/// The calls by their place.
fn calls_in_order(alloc: Global, calls: Vec<PlacedCall>) -> Tried<Vec<CallInfo>>
    ensures value { IfOk result (λ v. map call_seen v.items ≡ map (λ c. c.item) (by_place (λ c. c.place.at) (calls_seen calls.items))) }
{
    let placed = made!(by_place(calls));
    without_places(alloc, placed)
}

/// Says what each row, column, site and flow point is, and each body.
fn list_tables(
    alloc: Global,
    program: &Program,
    fixed: &[FixedName],
    numbered: &Numbered,
) -> Tried<Tables>
    requires few { length numbered.now.columns.items < 4294967295 }
    requires fixed { map fixed_seen fixed.now ≡ fixed_names (program_of program.now) }
    ensures { IfOk result (λ t. AreFactTables (program_of program.now) numbered.now t) }
{
    let given = Given {
        alloc,
        program,
        numbering: &numbered.numbering,
    };
    let rows = made!(row_infos(&given, &numbered.rows));
    let columns = made!(column_infos(alloc, program, fixed, &numbered.columns); rows);
    let sites = made!(site_infos(alloc, &numbered.sites); rows, columns);
    let points = made!(point_rows(alloc, &numbered.points); rows, columns, sites);
    let bodies = made!(
        body_infos(&given, &numbered.columns);
        rows, columns, sites, points
    );
    Ok(Tables {
        rows,
        columns,
        sites,
        points,
        bodies,
    })
}

/// Lists the classes, the names of the text and those that are fixed for constructors.
fn list_texts(alloc: Global, program: &Program, sites: &Vec<Site>) -> Tried<Texts>
    requires formed { IsFormed (program_of program.now) }
    requires sites { sites.now.items ≡ sites_of (program_of program.now) }
    requires few { length sites.now.items < 4294967295 }
    ensures { IfOk result (λ t. AreTexts (program_of program.now) t) }
{
    let classes = made!(class_infos(alloc, program));
    let named = made!(words(alloc, program, sites); classes);
    let variables = made!(variables(alloc, program); classes, named);
    let makes = made!(
        makes_of(alloc, named.fixed.as_slice());
        classes, named, variables
    );
    let makers = made!(
        makers_of(alloc, named.fixed.as_slice());
        classes, named, variables, makes
    );
    Ok(Texts {
        classes,
        words: named.words,
        variables,
        fixed: named.fixed,
        makers,
        makes,
    })
}

/// Puts the tests and the marks in the order of their places, and takes the calls out by theirs.
fn put_in_order(alloc: Global, lists: &mut Lists) -> Tried<Vec<CallInfo>>
    ensures { (N : Numbers) (P : Plain) (bs : List numbered.BodyParts) → AreGathered N P bs lists.old
        → IfOk result (λ calls. AreOrderedLists N P bs lists.new calls.items) }
{
    let calls = replace(&mut lists.calls, Vec::new(alloc));
    let tests = replace(&mut lists.tests, Vec::new(alloc));
    let marks = replace(&mut lists.marks, Vec::new(alloc));
    let calls = made!(calls_in_order(alloc, calls); tests, marks);
    let tests = made!(by_place(tests); calls, marks);
    let marks = made!(by_place(marks); calls, tests);
    lists.tests = tests;
    lists.marks = marks;
    Ok(calls)
}

/// What is said of what is numbered, the names of the text, and the lists that the bodies give.
#[derive(Drop)]
pub struct Said {
    pub tables: Tables,
    pub texts: Texts,
    pub lists: Lists,
    pub calls: Vec<CallInfo>,
    pub spots: Vec<Spot>,
}

/// Says all of what is numbered.
fn say(alloc: Global, program: &Program, numbered: &Numbered) -> Tried<Said>
    requires formed { IsFormed (program_of program.now) }
    requires numbered { IsNumbered (program_of program.now) numbered.now }
    ensures { IfOk result (λ s. IsSaid (program_of program.now) numbered.now s) }
{
    let texts = made!(list_texts(alloc, program, &numbered.sites));
    let tables = made!(
        list_tables(alloc, program, texts.fixed.as_slice(), numbered);
        texts
    );
    let given = Given {
        alloc,
        program,
        numbering: &numbered.numbering,
    };
    let mut lists = made!(gather(&given, &numbered.bodies); tables, texts);
    let calls = made!(put_in_order(alloc, &mut lists); tables, texts, lists);
    let spots = made!(spots_of(alloc, &lists.marks); tables, texts, lists, calls);
    Ok(Said {
        tables,
        texts,
        lists,
        calls,
        spots,
    })
}

/// The facts of what is numbered and said.
#[tactic(none)]
fn assemble(numbered: Numbered, said: Said) -> Facts
    ensures { (P : Plain) → IsNumbered P numbered → IsSaid P numbered said → IsFactsOf P result × AreNamesOf P result }
{
    let (tables, texts, lists) = (said.tables, said.texts, said.lists);
    let unordered = lists.unordered;
    Facts {
        rows: tables.rows,
        columns: tables.columns,
        sites: tables.sites,
        classes: texts.classes,
        points: tables.points,
        cells: numbered.cells,
        news: unordered.news,
        flows: unordered.flows,
        loads: unordered.loads,
        stores: unordered.stores,
        bodies: tables.bodies,
        calls: said.calls,
        casts: unordered.casts,
        accesses: unordered.accesses,
        supers: unordered.supers,
        ties: unordered.ties,
        tests: lists.tests,
        words: texts.words,
        vars: texts.variables,
        makers: texts.makers,
        makes: texts.makes,
        spots: said.spots,
    }
}

/// The facts over what is numbered in a program.
#[tactic(none)]
pub fn facts_over(alloc: Global, program: &Program, numbered: Numbered) -> Tried<Facts>
    requires formed { IsFormed (program_of program.now) }
    requires numbered { IsNumbered (program_of program.now) numbered }
    ensures ok { IfOk result (λ f. IsFactsOf (program_of program.now) f) }
    ensures names { IfOk result (λ f. AreNamesOf (program_of program.now) f) }
{
    let said = made!(say(alloc, program, &numbered); numbered);
    Ok(assemble(numbered, said))
}
