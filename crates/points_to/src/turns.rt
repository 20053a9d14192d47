//! Sets by a worklist: what grew is passed along the inclusions, and when no more passes there, the reads, writes and runs that
//! it concerns are gone over once.

ghost use Rattle.std.specs.Prelude.{All, Contains, IfOk, IfSome, OnOk};
ghost use Rattle.points_to.specs.Words.{InRange, AreSound, IsSolverInput};

use crate::closing::{close_reads, close_runs, close_told, close_writes};
use crate::found::Given;
use crate::index::numbers_at;
use crate::news::{Bases, load_news, load_whole, no_bases};
use crate::queue::{Queue, take};
use crate::uses::{Due, Uses, clear, concerns, is_nothing, nothing_due, uses_of, wake};
use crate::work::{Read, Write, pass};
use fact_model::Facts;
use kaba_bits::BitRow;
use std::alloc::{AllocError, Global};

/// The item of a number.
fn item_at<X: Copy>(list: &[X], k: usize) -> Option<X>
    ensures { IfSome result (Contains list.now) }
{
    if k < list.len() { Some(list[k]) } else { None }
}

/// What is in a set along each inclusion that begins there. An error comes only for want of memory.
fn pass_all(
    given: &Given,
    sets: &mut [BitRow],
    grown: &mut Queue,
    list: &[usize],
) -> Result<(), AllocError>
    requires given { IsSolverInput given.now }
    requires sets { AreSound given.now.facts.now sets.old }
    ensures { OnOk result (AreSound given.now.facts.now sets.new) }
{
    for i in list {
        if let Some(edge) = item_at(&given.found.edges, *i) {
            pass(
                given.alloc,
                given.facts,
                &given.index.below,
                sets,
                grown,
                edge,
            )?;
        }
    }
    Ok(())
}

/// Passes on what grew, until nothing passes any more, and notes what else it concerns. An error comes only for want of memory.
fn flow(
    given: &Given,
    uses: &Uses,
    sets: &mut [BitRow],
    grown: &mut Queue,
    due: &mut Due,
) -> Result<(), AllocError>
    requires given { IsSolverInput given.now }
    requires sets { AreSound given.now.facts.now sets.old }
    ensures { OnOk result (AreSound given.now.facts.now sets.new) }
{
    for _turn in 0..u64::MAX {
        match take(grown) {
            Some(n) => {
                wake(given.alloc, given.index, uses, due, sets, n)?;
                let list = numbers_at(&uses.edges, n);
                pass_all(given, sets, grown, list)?;
            }
            None => return Ok(()),
        }
    }
    Ok(())
}

/// The items of these numbers. An error comes only for want of memory.
fn items_of<X: Copy>(alloc: Global, from: &[X], due: &BitRow) -> Result<Vec<X>, AllocError>
    ensures { IfOk result (λ v. All (Contains from.now) v.items) }
{
    let numbers = due.rising(alloc)?;
    let mut list = Vec::new(alloc);
    for k in &numbers {
        if let Some(x) = item_at(from, *k as usize) {
            list.push(x)?;
        }
    }
    Ok(list)
}

/// Those reads whose base has a site with a member that grew. An error comes only for want of memory.
fn concerned(
    alloc: Global,
    sets: &[BitRow],
    due: &Due,
    reads: &[Read],
) -> Result<Vec<Read>, AllocError>
    ensures { IfOk result (λ v. All (Contains reads.now) v.items) }
{
    let mut list = Vec::new(alloc);
    for x in reads {
        if concerns(due, sets, *x) {
            list.push(*x)?;
        }
    }
    Ok(list)
}

/// What is new in the bases that grew. An error comes only for want of memory.
fn load_bases(
    alloc: Global,
    facts: &Facts,
    sets: &[BitRow],
    bases: &mut Bases,
    due: &BitRow,
) -> Result<(), AllocError>
    requires facts { InRange facts.now }
    requires sets { AreSound facts.now sets.now }
    requires now { AreSound facts.now bases.old.now.items }
    ensures { OnOk result (AreSound facts.now bases.new.now.items) }
{
    let numbers = due.rising(alloc)?;
    for p in &numbers {
        load_news(facts, sets, bases, *p as usize);
    }
    Ok(())
}

/// What is asked for the sites of a base.
trait HasBase: Copy {
    /// The number of the base.
    fn base(self) -> u32;
}

impl HasBase for Read {
    fn base(self) -> u32 {
        self.base
    }
}

impl HasBase for Write {
    fn base(self) -> u32 {
        self.base
    }
}

/// All that is in the base of each item.
fn load_all<X: HasBase>(facts: &Facts, sets: &[BitRow], bases: &mut Bases, items: &[X])
    requires facts { InRange facts.now }
    requires sets { AreSound facts.now sets.now }
    requires now { AreSound facts.now bases.old.now.items }
    ensures { AreSound facts.now bases.new.now.items }
{
    for x in items {
        load_whole(facts, sets, bases, x.base() as usize);
    }
}

/// What has to be gone over: the reads, writes and runs of bases that grew, for what is new there, and then the reads of members that grew, and
/// the writes of values that did, for all of their bases. An error comes only for want of memory.
fn turn(
    given: &Given,
    bases: &mut Bases,
    sets: &mut [BitRow],
    grown: &mut Queue,
    due: &mut Due,
) -> Result<(), AllocError>
    requires given { IsSolverInput given.now }
    requires now { AreSound given.now.facts.now bases.old.now.items }
    requires sets { AreSound given.now.facts.now sets.old }
    ensures now { OnOk result (AreSound given.now.facts.now bases.new.now.items) }
    ensures sets { OnOk result (AreSound given.now.facts.now sets.new) }
{
    let (alloc, facts, found) = (given.alloc, given.facts, given.found);
    load_bases(alloc, facts, sets, bases, &due.bases)?;
    let reads = items_of(alloc, &found.members.reads, &due.reads)?;
    let writes = items_of(alloc, &found.members.writes, &due.writes)?;
    let runs = items_of(alloc, &found.members.runs, &due.runs)?;
    close_reads(given, &bases.now, sets, grown, &reads)?;
    close_writes(given, &bases.now, sets, grown, &writes)?;
    close_runs(given, &bases.now, sets, grown, &runs)?;
    let listed = items_of(alloc, &found.members.reads, &due.whole_reads)?;
    let grown_reads = concerned(alloc, sets, due, &listed)?;
    let grown_writes = items_of(alloc, &found.members.writes, &due.whole_writes)?;
    load_all(facts, sets, bases, &grown_reads);
    load_all(facts, sets, bases, &grown_writes);
    close_reads(given, &bases.now, sets, grown, &grown_reads)?;
    close_writes(given, &bases.now, sets, grown, &grown_writes)?;
    clear(due);
    Ok(())
}

/// The sets, as far as the worklist finds them: turns, until nothing has to be gone over. An error comes only for want of memory.
pub fn grow(given: &Given, sets: &mut [BitRow], grown: &mut Queue) -> Result<(), AllocError>
    requires given { IsSolverInput given.now }
    requires sets { AreSound given.now.facts.now sets.old }
    ensures { OnOk result (AreSound given.now.facts.now sets.new) }
{
    close_told(given.facts, sets, grown, &given.found.told);
    let uses = uses_of(given.alloc, given.facts, given.found)?;
    let mut due = nothing_due(given.alloc, given.facts, given.found, &uses)?;
    let mut bases = no_bases(given.alloc, given.facts)?;
    for _turn in 0..u64::MAX {
        flow(given, &uses, sets, grown, &mut due)?;
        if is_nothing(&due) {
            return Ok(());
        }
        turn(given, &mut bases, sets, grown, &mut due)?;
    }
    Ok(())
}
