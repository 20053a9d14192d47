//! One turn over everything that the facts ask for, until nothing is new: this shows that nothing was left out.

ghost use Rattle.std.specs.Prelude.{All, IfOk, OnOk};
ghost use Rattle.points_to.specs.Work.{IsEdge, IsSiteTold, IsReadIn, IsWrite, IsRun, IsEdgeClosed, IsSiteShown, IsReadClosed, IsWriteClosed, IsRunClosed};
ghost use Rattle.points_to.specs.Closed.{AreSetsClosed};
ghost use Rattle.points_to.specs.Words.{OnFalse, IsStep, AreSound, IsSolverInput};

use crate::found::Given;
use crate::queue::Queue;
use crate::reads::{gather, no_union, turn_to};
use crate::runs::{close_run, none_begun};
use crate::work::{Edge, Read, Run, Told, Write, include_row, pass, show};
use crate::writes::{flush, nothing_pending, take_write};
use fact_model::Facts;
use kaba_bits::{BitRow, copy_rows, row_at};
use std::alloc::AllocError;

/// Each inclusion of a list. An error comes only for want of memory.
fn close_edges(
    given: &Given,
    sets: &mut [BitRow],
    grown: &mut Queue,
    edges: &[Edge],
) -> Result<bool, AllocError>
    requires given { IsSolverInput given.now }
    requires sets { AreSound given.now.facts.now sets.old }
    requires edges { All (IsEdge given.now.facts.now) edges.now }
    ensures sets { OnOk result (AreSound given.now.facts.now sets.new) }
    ensures step { IfOk result (IsStep sets.old sets.new) }
    ensures closed { IfOk result (λ grew. OnFalse grew (All (IsEdgeClosed given.now.facts.now sets.new) edges.now)) }
{
    let mut grew = false;
    for x in edges {
        let more = pass(
            given.alloc,
            given.facts,
            &given.index.below,
            sets,
            grown,
            *x,
        )?;
        grew |= more;
    }
    Ok(grew)
}

/// Each site of a list.
pub fn close_told(facts: &Facts, sets: &mut [BitRow], grown: &mut Queue, told: &[Told]) -> bool
    requires sets { AreSound facts.now sets.old }
    requires told { All (IsSiteTold facts.now) told.now }
    ensures sets { AreSound facts.now sets.new }
    ensures step { IsStep sets.old sets.new result }
    ensures closed { OnFalse result (All (IsSiteShown sets.new) told.now) }
{
    let mut grew = false;
    for x in told {
        grew |= show(facts, sets, grown, *x);
    }
    grew
}

/// Each read, and whether anything was new. An error comes only for want of memory.
pub fn close_reads(
    given: &Given,
    bases: &[BitRow],
    sets: &mut [BitRow],
    grown: &mut Queue,
    reads: &[Read],
) -> Result<bool, AllocError>
    requires given { IsSolverInput given.now }
    requires bases { AreSound given.now.facts.now bases.now }
    requires sets { AreSound given.now.facts.now sets.old }
    requires reads { All (IsReadIn given.now.facts.now) reads.now }
    ensures sets { OnOk result (AreSound given.now.facts.now sets.new) }
    ensures step { IfOk result (IsStep sets.old sets.new) }
    ensures closed { IfOk result (λ grew. OnFalse grew (All (IsReadClosed given.now.facts.now bases.now sets.new) reads.now)) }
{
    let mut union = no_union(given.alloc, given.facts)?;
    let mut list = Vec::new(given.alloc);
    let mut grew = false;
    for x in reads {
        let set = row_at(bases, x.base as usize);
        turn_to(given.facts, &mut union, x.member, set);
        gather(given, sets, &mut union, &mut list, set)?;
        grew |= include_row(given.facts, sets, grown, &union.held, x.into as usize);
    }
    Ok(grew)
}

/// Each write, and whether anything was new. An error comes only for want of memory.
pub fn close_writes(
    given: &Given,
    bases: &[BitRow],
    sets: &mut [BitRow],
    grown: &mut Queue,
    writes: &[Write],
) -> Result<bool, AllocError>
    requires given { IsSolverInput given.now }
    requires bases { AreSound given.now.facts.now bases.now }
    requires sets { AreSound given.now.facts.now sets.old }
    requires writes { All (IsWrite given.now.facts.now) writes.now }
    ensures sets { OnOk result (AreSound given.now.facts.now sets.new) }
    ensures step { IfOk result (IsStep sets.old sets.new) }
    ensures closed { IfOk result (λ grew. OnFalse grew (All (IsWriteClosed given.now.facts.now bases.now sets.new) writes.now)) }
{
    let mut pending = nothing_pending(given.alloc, given.facts)?;
    let mut list = Vec::new(given.alloc);
    let mut grew = false;
    for x in writes {
        let more = take_write(given, bases, sets, grown, &mut pending, &mut list, *x)?;
        grew |= more;
    }
    let last = flush(given, sets, grown, &pending, &mut list)?;
    Ok(grew | last)
}

/// Each run, and whether anything was new. An error comes only for want of memory.
pub fn close_runs(
    given: &Given,
    bases: &[BitRow],
    sets: &mut [BitRow],
    grown: &mut Queue,
    runs: &[Run],
) -> Result<bool, AllocError>
    requires given { IsSolverInput given.now }
    requires bases { AreSound given.now.facts.now bases.now }
    requires sets { AreSound given.now.facts.now sets.old }
    requires runs { All (IsRun given.now.facts.now) runs.now }
    ensures sets { OnOk result (AreSound given.now.facts.now sets.new) }
    ensures step { IfOk result (IsStep sets.old sets.new) }
    ensures closed { IfOk result (λ grew. OnFalse grew (All (IsRunClosed given.now.facts.now bases.now sets.new) runs.now)) }
{
    let mut begun = none_begun(given.alloc, given.facts)?;
    let mut list = Vec::new(given.alloc);
    let mut grew = false;
    for x in runs {
        let more = close_run(given, bases, sets, grown, &mut begun, &mut list, *x)?;
        grew |= more;
    }
    Ok(grew)
}

/// Everything once, and whether anything was new. An error comes only for want of memory.
pub fn close_all(given: &Given, sets: &mut [BitRow], grown: &mut Queue) -> Result<bool, AllocError>
    requires given { IsSolverInput given.now }
    requires sets { AreSound given.now.facts.now sets.old }
    ensures sets { OnOk result (AreSound given.now.facts.now sets.new) }
    ensures step { IfOk result (IsStep sets.old sets.new) }
    ensures closed { IfOk result (λ grew. OnFalse grew (AreSetsClosed given.now.facts.now sets.new)) }
{
    let found = given.found;
    let told = close_told(given.facts, sets, grown, &found.told);
    let edges = close_edges(given, sets, grown, &found.edges)?;
    let bases = copy_rows(given.alloc, sets)?;
    let reads = close_reads(given, &bases, sets, grown, &found.members.reads)?;
    let writes = close_writes(given, &bases, sets, grown, &found.members.writes)?;
    let runs = close_runs(given, &bases, sets, grown, &found.members.runs)?;
    Ok(told | edges | reads | writes | runs)
}
