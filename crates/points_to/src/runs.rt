//! Runs: each site in a base is in the `this` of its body. A site is gone over once for the bases of one slot.

ghost use Rattle.std.specs.Prelude.{◌≡◌, ◌<◌, Bool, List, length, All, IfOk, OnOk};
ghost use Rattle.points_to.specs.Work.{IsRun, IsRunClosed};
ghost use Rattle.points_to.specs.Rounds.{HasSite, IsRunAt, AreBegun};
ghost use Rattle.points_to.specs.Words.{OnFalse, IsStep, InRange, node_count, AreSound, InNode, IsSolverInput};

use crate::found::Given;
use crate::queue::Queue;
use crate::reads::next_site;
use crate::targets::list_targets;
use crate::work::{Member, Run, put};
use fact_model::Facts;
use kaba_bits::{BitRow, row_at};
use std::alloc::{AllocError, Global};

/// Sites that are in the `this` of their bodies for a slot.
#[derive(Drop)]
pub struct Begun {
    slot: u32,
    sites: BitRow,
}

/// None, for the first slot. An error comes only for want of memory.
pub fn none_begun(alloc: Global, facts: &Facts) -> Result<Begun, AllocError>
    requires { InRange facts.now }
    ensures width { IfOk result (λ b. length b.sites ≡ length facts.now.sites.items) }
    ensures begun { IfOk result (λ b. (sets : List (List Bool)) → AreBegun facts.now sets b) }
{
    Ok(Begun {
        slot: 0,
        sites: BitRow::new(alloc, facts.sites.len() as u32)?,
    })
}

/// One site into each of these sets, and whether it is new in one.
fn put_all(facts: &Facts, sets: &mut [BitRow], grown: &mut Queue, list: &[usize], o: u32) -> bool
    requires sets { AreSound facts.now sets.old }
    requires site { o < length facts.now.sites.items }
    requires list { All (λ n. n < node_count facts.now) list.now }
    requires holds { All (λ n. InNode facts.now n o) list.now }
    ensures sets { AreSound facts.now sets.new }
    ensures step { IsStep sets.old sets.new result }
    ensures closed { OnFalse result (All (HasSite o sets.new) list.now) }
{
    let mut grew = false;
    for n in list {
        grew |= put(facts, sets, grown, *n, o);
    }
    grew
}

/// One site of a base, and whether anything was new. An error comes only for want of memory.
fn run_site(
    given: &Given,
    sets: &mut [BitRow],
    grown: &mut Queue,
    list: &mut Vec<usize>,
    x: Run,
    o: u32,
) -> Result<bool, AllocError>
    requires given { IsSolverInput given.now }
    requires sets { AreSound given.now.facts.now sets.old }
    requires run { IsRun given.now.facts.now x }
    requires site { o < length given.now.facts.now.sites.items }
    requires holds { InNode given.now.facts.now x.base o }
    ensures sets { OnOk result (AreSound given.now.facts.now sets.new) }
    ensures step { IfOk result (IsStep sets.old sets.new) }
    ensures closed { IfOk result (λ grew. OnFalse grew (IsRunAt given.now.facts.now sets.new x.slot o)) }
{
    list_targets(given, list, Member::This(x.slot), o)?;
    Ok(put_all(given.facts, sets, grown, list, o))
}

/// Begins anew for another slot.
fn turn_to(facts: &Facts, begun: &mut Begun, slot: u32)
    requires width { length begun.old.sites ≡ length facts.now.sites.items }
    ensures width { length begun.new.sites ≡ length facts.now.sites.items }
    ensures slot { begun.new.slot ≡ slot }
    ensures begun { (sets : List (List Bool)) → AreBegun facts.now sets begun.old → AreBegun facts.now sets begun.new }
{
    let _ = facts;
    if begun.slot != slot {
        begun.slot = slot;
        begun.sites.clear();
    }
}

/// Each site of a base that was not gone over, and whether anything was new. An error comes only for want of memory.
pub fn close_run(
    given: &Given,
    bases: &[BitRow],
    sets: &mut [BitRow],
    grown: &mut Queue,
    begun: &mut Begun,
    list: &mut Vec<usize>,
    x: Run,
) -> Result<bool, AllocError>
    requires given { IsSolverInput given.now }
    requires bases { AreSound given.now.facts.now bases.now }
    requires sets { AreSound given.now.facts.now sets.old }
    requires width { length begun.old.sites ≡ length given.now.facts.now.sites.items }
    requires run { IsRun given.now.facts.now x }
    ensures sets { OnOk result (AreSound given.now.facts.now sets.new) }
    ensures width { OnOk result (length begun.new.sites ≡ length given.now.facts.now.sites.items) }
    ensures step { IfOk result (IsStep sets.old sets.new) }
    ensures closed { IfOk result (λ grew. OnFalse grew (AreBegun given.now.facts.now sets.old begun.old → AreBegun given.now.facts.now sets.new begun.new × IsRunClosed given.now.facts.now bases.now sets.new x)) }
{
    turn_to(given.facts, begun, x.slot);
    let set = row_at(bases, x.base as usize);
    let width = given.facts.sites.len() as u32;
    let mut grew = false;
    let mut at = 0;
    'scan: while at < width {
        match next_site(given.facts, set, &begun.sites, at) {
            Some(o) => {
                let more = run_site(given, sets, grown, list, x, o)?;
                begun.sites.set(o);
                grew |= more;
                at = o + 1;
            }
            None => return Ok(grew),
        }
    }
    Ok(grew)
}
