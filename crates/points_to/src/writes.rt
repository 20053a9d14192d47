//! Writes: into a member of the sites of a base. Values that are written into the same member of the same sites are put together first.

ghost use Rattle.std.specs.Prelude.{◌≡◌, ℕ, ◌<◌, true, length, All, Some, IfOk, OnOk};
ghost use Rattle.std.specs.Bool.{OnTrue};
ghost use Rattle.points_to.specs.Work.{IsWrite, AreTargets, wanted};
ghost use Rattle.points_to.specs.declared.work.Write.{Write};
ghost use Rattle.points_to.specs.Rounds.{IsPending, IsFlushedAt, IsFlushed, IsPended, IsDone, HasRow};
ghost use Rattle.points_to.specs.Words.{OnFalse, bit, row, IsStep, InRange, node_count, AreSound, InNode, IsSolverInput};

use crate::found::Given;
use crate::queue::Queue;
use crate::reads::is_same_member;
use crate::targets::list_targets;
use crate::work::{Member, Write, fit, include_row, site_at};
use fact_model::Facts;
use kaba_base::ClassId;
use kaba_bits::{BitRow, row_at};
use std::alloc::{AllocError, Global};

/// Values that are to be written into a member of these sites.
#[derive(Drop)]
pub struct Pending {
    member: Member,
    sites: BitRow,
    values: BitRow,
}

/// Nothing to be written. An error comes only for want of memory.
pub fn nothing_pending(alloc: Global, facts: &Facts) -> Result<Pending, AllocError>
    requires { InRange facts.now }
    ensures { IfOk result (IsPending facts.now) }
{
    let width = facts.sites.len() as u32;
    Ok(Pending {
        member: Member::Field(None),
        sites: BitRow::new(alloc, width)?,
        values: BitRow::new(alloc, width)?,
    })
}

/// The class that a value written must have: for an element that of the array.
fn wanted(facts: &Facts, member: Member, o: u32) -> Option<ClassId>
    requires { o < length facts.now.sites.items }
    ensures { result ≡ wanted facts.now member o }
{
    match member {
        Member::Field(None) => Some(site_at(facts, o).class),
        _ => None,
    }
}

/// A row of sites into each of these sets, and whether one grew.
fn include_all(
    facts: &Facts,
    sets: &mut [BitRow],
    grown: &mut Queue,
    extra: &BitRow,
    list: &[usize],
) -> bool
    requires sets { AreSound facts.now sets.old }
    requires width { length extra.now ≡ length facts.now.sites.items }
    requires list { All (λ n. n < node_count facts.now) list.now }
    requires holds { All (λ n. (s : ℕ) → bit extra.now s ≡ true → InNode facts.now n s) list.now }
    ensures sets { AreSound facts.now sets.new }
    ensures step { IsStep sets.old sets.new result }
    ensures closed { OnFalse result (All (HasRow extra.now sets.new) list.now) }
{
    let mut grew = false;
    for n in list {
        grew |= include_row(facts, sets, grown, extra, *n);
    }
    grew
}

/// What fits of the values into the sets of a member of a site, and whether one grew. Where a class is named, a value fits whose class is at
/// or below it. An error comes only for want of memory.
fn write_into(
    given: &Given,
    sets: &mut [BitRow],
    grown: &mut Queue,
    pending: &Pending,
    list: &[usize],
    o: u32,
) -> Result<bool, AllocError>
    requires given { IsSolverInput given.now }
    requires sets { AreSound given.now.facts.now sets.old }
    requires pending { IsPending given.now.facts.now pending.now }
    requires site { bit pending.now.sites o ≡ true }
    requires list { AreTargets given.now.facts.now pending.now.member o list.now }
    ensures sets { OnOk result (AreSound given.now.facts.now sets.new) }
    ensures step { IfOk result (IsStep sets.old sets.new) }
    ensures closed { IfOk result (λ grew. OnFalse grew (IsFlushedAt given.now.facts.now sets.new pending.now o)) }
{
    match wanted(given.facts, pending.member, o) {
        Some(class) => {
            let row = fit(
                given.alloc,
                given.facts,
                &given.index.below,
                &pending.values,
                class,
            )?;
            Ok(include_all(given.facts, sets, grown, &row, list))
        }
        None => Ok(include_all(given.facts, sets, grown, &pending.values, list)),
    }
}

/// The values into the member of each site, and whether anything was new. An error comes only for want of memory.
pub fn flush(
    given: &Given,
    sets: &mut [BitRow],
    grown: &mut Queue,
    pending: &Pending,
    list: &mut Vec<usize>,
) -> Result<bool, AllocError>
    requires given { IsSolverInput given.now }
    requires sets { AreSound given.now.facts.now sets.old }
    requires pending { IsPending given.now.facts.now pending.now }
    ensures sets { OnOk result (AreSound given.now.facts.now sets.new) }
    ensures step { IfOk result (IsStep sets.old sets.new) }
    ensures closed { IfOk result (λ grew. OnFalse grew (IsFlushed given.now.facts.now sets.new pending.now)) }
{
    let width = given.facts.sites.len() as u32;
    let mut grew = false;
    let mut at = 0;
    'scan: while at < width {
        match pending.sites.next(at) {
            Some(o) => {
                list_targets(given, list, pending.member, o)?;
                let more = write_into(given, sets, grown, pending, list, o)?;
                grew |= more;
                at = o + 1;
            }
            None => return Ok(grew),
        }
    }
    Ok(grew)
}

/// Whether two sets of one width are one.
pub fn is_same_set(a: &BitRow, b: &BitRow) -> bool
    requires { length a.now ≡ length b.now }
    ensures { OnTrue result (a.now ≡ b.now) }
{
    let within = a.is_subset(b);
    if !within {
        return false;
    }
    let back = b.is_subset(a);
    back
}

/// Whether a write is into the same member of the same sites.
fn is_alike(facts: &Facts, bases: &[BitRow], pending: &Pending, x: Write) -> bool
    requires bases { AreSound facts.now bases.now }
    requires pending { IsPending facts.now pending.now }
    requires write { IsWrite facts.now x }
    ensures { OnTrue result ((pending.now.member ≡ x.member) × (pending.now.sites ≡ row bases.now x.base)) }
{
    let _ = facts;
    let alike = is_same_member(pending.member, x.member);
    if !alike {
        return false;
    }
    let same = is_same_set(&pending.sites, row_at(bases, x.base as usize));
    same
}

/// A write in place of what was pending. An error comes only for want of memory.
fn begin_write(
    alloc: Global,
    facts: &Facts,
    bases: &[BitRow],
    sets: &[BitRow],
    x: Write,
) -> Result<Pending, AllocError>
    requires bases { AreSound facts.now bases.now }
    requires sets { AreSound facts.now sets.now }
    requires write { IsWrite facts.now x }
    ensures pending { IfOk result (IsPending facts.now) }
    ensures here { IfOk result (λ p. IsPended bases.now sets.now p x) }
{
    let _ = facts;
    Ok(Pending {
        member: x.member,
        sites: row_at(bases, x.base as usize).copy(alloc)?,
        values: row_at(sets, x.value as usize).copy(alloc)?,
    })
}

/// A write into the same member of the same sites is pending too.
fn put_beside(facts: &Facts, bases: &[BitRow], sets: &[BitRow], pending: &mut Pending, x: Write)
    requires bases { AreSound facts.now bases.now }
    requires sets { AreSound facts.now sets.now }
    requires pending { IsPending facts.now pending.old }
    requires write { IsWrite facts.now x }
    requires member { pending.old.member ≡ x.member }
    requires sites { pending.old.sites ≡ row bases.now x.base }
    ensures pending { IsPending facts.now pending.new }
    ensures kept { (y : Write) → IsDone facts.now bases.now sets.now pending.old y → IsDone facts.now bases.now sets.now pending.new y }
    ensures here { IsDone facts.now bases.now sets.now pending.new x }
{
    let _ = facts;
    let _ = bases;
    pending.values.or_into(row_at(sets, x.value as usize));
}

/// A write is pending too, or else what was pending is written first; and whether anything was new. An error comes only for want of memory.
pub fn take_write(
    given: &Given,
    bases: &[BitRow],
    sets: &mut [BitRow],
    grown: &mut Queue,
    pending: &mut Pending,
    list: &mut Vec<usize>,
    x: Write,
) -> Result<bool, AllocError>
    requires given { IsSolverInput given.now }
    requires bases { AreSound given.now.facts.now bases.now }
    requires sets { AreSound given.now.facts.now sets.old }
    requires pending { IsPending given.now.facts.now pending.old }
    requires write { IsWrite given.now.facts.now x }
    ensures sets { OnOk result (AreSound given.now.facts.now sets.new) }
    ensures pending { OnOk result (IsPending given.now.facts.now pending.new) }
    ensures step { IfOk result (IsStep sets.old sets.new) }
    ensures kept { IfOk result (λ grew. OnFalse grew ((y : Write) → IsDone given.now.facts.now bases.now sets.old pending.old y → IsDone given.now.facts.now bases.now sets.new pending.new y)) }
    ensures here { IfOk result (λ grew. OnFalse grew (IsDone given.now.facts.now bases.now sets.new pending.new x)) }
{
    let alike = is_alike(given.facts, bases, pending, x);
    if alike {
        put_beside(given.facts, bases, sets, pending, x);
        return Ok(false);
    }
    let grew = flush(given, sets, grown, pending, list)?;
    let next = begin_write(given.alloc, given.facts, bases, sets, x)?;
    *pending = next;
    Ok(grew)
}
