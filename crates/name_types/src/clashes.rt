//! Where methods of one name meet, and the main method.
#![tactic(auto)]

ghost use Rattle.std.specs.Prelude.{◌≡◌, ℕ, ◌+◌, ◌&&◌, ◌||◌, not, nat_lt, List, map, position, slice_get, Some, Ok, IfOk};
ghost use Rattle.name_laws.specs.Answers.{GivesValue, unless};
ghost use Rattle.name_laws.specs.Tables.{is_above};
ghost use Rattle.name_laws.specs.Members.{meet, same_slot, clash_of, clash_step, clashes_of, main_of};
ghost use Rattle.name_types.specs.Clashes.{clash_at, clash_among};
ghost use Rattle.name_tables.specs.Spots.{AreSpots, spots_of};
ghost use Rattle.name_types.specs.Marks.{AreTested};

use crate::marks::{is_suspect, suspects_of};
use java_core::Hierarchy;
use name_laws::Heading;
use name_rules::Refusal;
use name_tables::{Spots, after, number_at};
use std::alloc::{AllocError, Global};

fn same_slot(a: Option<u32>, b: Option<u32>) -> bool
    ensures { result ≡ same_slot a b }
{
    match a {
        None => false,
        Some(a) => match b {
            None => false,
            Some(b) => a == b,
        },
    }
}

/// Whether one of the types is at or above the other.
fn are_related(rows: &Hierarchy, a: u32, b: u32) -> bool
    ensures { result ≡ is_above rows.now a b || is_above rows.now b a }
{
    rows.is_above(a, b) || rows.is_above(b, a)
}

/// Whether one of two methods of one name is private, and their types are related.
fn is_reused(rows: &Hierarchy, a: &Heading, b: &Heading) -> bool
    ensures { result ≡ (a.now.is_private || b.now.is_private) && (is_above rows.now a.now.owner b.now.owner || is_above rows.now b.now.owner a.now.owner) }
{
    (a.is_private || b.is_private) && are_related(rows, a.owner, b.owner)
}

/// Whether two methods of one name are not of one slot, and some type has both.
fn is_overload(rows: &Hierarchy, a: &Heading, b: &Heading) -> bool
    ensures { result ≡ not (same_slot a.now.slot b.now.slot) && meet rows.now a.now.owner b.now.owner }
{
    !same_slot(a.slot, b.slot) && rows.meet(a.owner, b.owner)
}

/// Why the second of two methods of one name cannot stand.
fn clash_of(
    alloc: Global,
    rows: &Hierarchy,
    a: &Heading,
    b: &Heading,
) -> Result<Option<Refusal>, AllocError>
    ensures { IfOk result (λ r. r ≡ clash_of rows.now a.now b.now) }
{
    if is_reused(rows, a, b) {
        return Ok(Some(Refusal::PrivateReused(b.name.copy(alloc)?, b.place)));
    }
    if is_overload(rows, a, b) {
        return Ok(Some(Refusal::Overload(b.name.copy(alloc)?, b.place)));
    }
    Ok(None)
}

/// Why the method `b` cannot stand after the method of a number, which has its name.
fn clash_at(
    alloc: Global,
    rows: &Hierarchy,
    all: &Vec<Heading>,
    at: u32,
    b: &Heading,
) -> Result<Option<Refusal>, AllocError>
    ensures { IfOk result (λ r. r ≡ clash_at rows.now b.now (slice_get all.now.items at)) }
{
    match all.get(at as usize) {
        Some(a) => clash_of(alloc, rows, a, b),
        None => Ok(None),
    }
}

fn is_before(at: u32, k: u32) -> bool
    ensures { result ≡ nat_lt at k }
{
    at < k
}

/// Why the method `b` of number `k` cannot stand after those of the list that stand before it.
fn clash_among(
    alloc: Global,
    rows: &Hierarchy,
    all: &Vec<Heading>,
    list: &[u32],
    k: u32,
    b: &Heading,
) -> Result<Option<Refusal>, AllocError>
    ensures { IfOk result (λ r. r ≡ clash_among rows.now all.now.items k b.now list.now) }
{
    for at in list {
        if !is_before(*at, k) {
            return Ok(None);
        }
        if let Some(refusal) = clash_at(alloc, rows, all, *at, b)? {
            return Ok(Some(refusal));
        }
    }
    Ok(None)
}

/// The number after `k`, unless there is a clash.
fn after_unless(clash: Option<Refusal>, k: u32) -> Result<u32, Refusal>
    ensures gives { GivesValue (λ n. n) result (unless clash (Ok (k + 1))) }
    ensures next { IfOk result (λ n. n ≡ k + 1) }
{
    match clash {
        Some(refusal) => Err(refusal),
        None => after(k),
    }
}

/// The method `b` of number `k` clashes with none of those before it; they are gone through where it is suspected.
fn clash_step(
    alloc: Global,
    rows: &Hierarchy,
    spots: &Spots,
    all: &Vec<Heading>,
    suspects: &[bool],
    k: u32,
    b: &Heading,
) -> Result<u32, Refusal>
    requires spots { AreSpots (map (λ h. h.name) all.now.items) spots.now }
    requires tested { (n : List ℕ) → AreTested rows.now all.now.items (spots_of spots.now n) suspects.now }
    requires stands { slice_get all.now.items k ≡ Some b.now }
    ensures gives { GivesValue (λ n. n) result (clash_step rows.now all.now.items k b.now) }
    ensures next { IfOk result (λ n. n ≡ k + 1) }
{
    if is_suspect(suspects, k) {
        let clash = clash_among(alloc, rows, all, spots.at(&b.name), k, b)?;
        return after_unless(clash, k);
    }
    after(k)
}

/// `Overload` or `PrivateReused` where a method clashes with one before it, of so many types.
pub fn clashes_of(
    alloc: Global,
    rows: &Hierarchy,
    count: u32,
    spots: &Spots,
    all: &Vec<Heading>,
) -> Result<u32, Refusal>
    requires { AreSpots (map (λ h. h.name) all.now.items) spots.now }
    ensures { GivesValue (λ n. n) result (clashes_of rows.now all.now.items) }
{
    let suspects = suspects_of(alloc, rows, count, spots, all)?;
    let mut k = 0;
    for b in all {
        k = clash_step(alloc, rows, spots, all, suspects.as_slice(), k, b)?;
    }
    Ok(k)
}

fn main_from(all: &Vec<Heading>) -> Option<usize>
    ensures { result ≡ position (λ h. h.is_main) all.now.items }
{
    for (i, heading) in all.iter().enumerate() {
        if heading.is_main {
            return Some(i);
        }
    }
    None
}

/// The main method; `NoMain` where there is none.
pub fn main_of(all: &Vec<Heading>) -> Result<u32, Refusal>
    ensures { GivesValue (λ k. k) result (main_of all.now.items) }
{
    match main_from(all) {
        Some(main) => number_at(main),
        None => Err(Refusal::NoMain),
    }
}
