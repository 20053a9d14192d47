//! Which methods may clash with one of their name that stands before them: the types at or below each are marked, name by name.
#![tactic(auto)]

ghost use Rattle.std.specs.Prelude.{◌≡◌, ◌≢◌, ℕ, ◌+◌, ◌≤◌, ◌==◌, ◌||◌, true, List, length, map, set, slice_get, Some, IfOk, OnOk, if◌then◌else◌};
ghost use Rattle.name_tables.specs.Spots.{AreSpots, spots_of};
ghost use Rattle.name_types.specs.Marks.{mark_of, mark_at, merged, may_join, Marked, MarkedFrom, is_suspect, HaveTested, HaveTestedFrom, HaveTestedAt, TestedNext, mark_in, begins_from, AreTested};

use java_core::Hierarchy;
use name_laws::Heading;
use name_tables::Spots;
use std::alloc::{AllocError, Global};

/// The mark of a type that nothing has reached.
const NOTHING: u64 = 0;

/// The mark of a method that may meet no other of its name, and of a type that two have reached which may not meet.
const LONE: u64 = 1;

/// The mark of a method: those of one slot have one mark, a private or a static one has `LONE`.
fn mark_of(method: &Heading) -> u64
    ensures { result ≡ mark_of method.now }
{
    if method.is_private {
        return LONE;
    }
    match method.slot {
        Some(slot) => slot as u64 + 2,
        None => LONE,
    }
}

/// The mark of a type; `LONE` where there is none of the number.
fn mark_at(marks: &[u64], at: usize) -> u64
    ensures { result ≡ mark_at marks.now at }
{
    match marks.get(at) {
        Some(mark) => *mark,
        None => LONE,
    }
}

/// The mark of a type that had another.
fn merged(was: u64, mark: u64) -> u64
    ensures { result ≡ merged was mark }
{
    if was == NOTHING || was == mark {
        mark
    } else {
        LONE
    }
}

/// Whether a method of a mark may reach a type of another.
fn may_join(was: u64, mark: u64) -> bool
    ensures { result ≡ may_join was mark }
{
    was == NOTHING || (was == mark && mark != LONE)
}

/// Another mark for a type, if there is one of the number.
fn write(marks: &mut [u64], at: usize, mark: u64)
    ensures { marks.new ≡ set marks.old at mark }
{
    if at < marks.len() {
        marks[at] = mark;
    }
}

/// Marks a type; whether a method of the mark may reach it.
fn reach(marks: &mut [u64], at: usize, mark: u64) -> bool
    ensures after { marks.new ≡ set marks.old at (merged (mark_at marks.old at) mark) }
    ensures joins { result ≡ may_join (mark_at marks.old at) mark }
{
    let was = mark_at(marks, at);
    write(marks, at, merged(was, mark));
    may_join(was, mark)
}

/// The same for a type below the owner; the owner itself is marked already.
fn reach_other(marks: &mut [u64], at: u32, owner: u32, mark: u64) -> bool
    ensures after { marks.new ≡ (if at == owner then marks.old else set marks.old at (merged (mark_at marks.old at) mark)) }
    ensures joins { result ≡ ((at == owner) || may_join (mark_at marks.old at) mark) }
{
    if at == owner {
        return true;
    }
    reach(marks, at as usize, mark)
}

/// Marks the types at or below an owner; whether a method of the mark may reach them all.
fn reach_below(rows: &Hierarchy, marks: &mut [u64], owner: u32, mark: u64) -> bool
    requires { length marks.old ≤ 4294967295 }
    ensures { Marked rows.now owner mark marks.old marks.new result }
{
    let mut quiet = reach(marks, owner as usize, mark);
    let mut from = 0;
    'down: while let Some(at) = rows.next_below(owner, from) {
        if at as usize >= marks.len() {
            return false;
        }
        quiet = quiet & reach_other(marks, at, owner, mark);
        from = at + 1;
    }
    quiet
}

/// Marks the types at or below the owner of the method of a number.
fn reach_from(rows: &Hierarchy, marks: &mut [u64], all: &Vec<Heading>, at: u32) -> bool
    requires { length marks.old ≤ 4294967295 }
    ensures { MarkedFrom rows.now (slice_get all.now.items at) marks.old marks.new result }
{
    match all.get(at as usize) {
        Some(method) => reach_below(rows, marks, method.owner, mark_of(method)),
        None => true,
    }
}

/// The method of a number is one that may clash, unless it is quiet.
fn suspect(suspects: &mut [bool], at: u32, quiet: bool)
    ensures { suspects.new ≡ (if quiet then suspects.old else set suspects.old at true) }
{
    if !quiet && (at as usize) < suspects.len() {
        suspects[at as usize] = true;
    }
}

/// Whether the method of a number is one that may clash.
pub fn is_suspect(suspects: &[bool], at: u32) -> bool
    ensures { result ≡ is_suspect suspects.now at }
{
    match suspects.get(at as usize) {
        Some(is) => *is,
        None => true,
    }
}

/// The number at a place of a list.
fn number_in(list: &[u32], place: usize) -> Option<u32>
    ensures { result ≡ slice_get list.now place }
{
    match list.get(place) {
        Some(number) => Some(*number),
        None => None,
    }
}

/// Finds whether the one at a place of a list may clash with one before it in the list; those before are marked.
fn test_next(
    rows: &Hierarchy,
    marks: &mut [u64],
    all: &Vec<Heading>,
    list: &[u32],
    place: usize,
    suspects: &mut [bool],
)
    requires { length marks.old ≤ 4294967295 }
    ensures { TestedNext rows.now all.now.items (slice_get list.now place) marks.old marks.new suspects.old suspects.new }
{
    if let Some(at) = number_in(list, place) {
        let quiet = reach_from(rows, marks, all, at);
        suspect(suspects, at, quiet);
    }
}

/// Finds those of a list that may clash with one before them in it.
fn test_all(
    rows: &Hierarchy,
    marks: &mut [u64],
    all: &Vec<Heading>,
    list: &[u32],
    suspects: &mut [bool],
)
    requires { length marks.old ≤ 4294967295 }
    ensures { HaveTested rows.now all.now.items list.now suspects.old suspects.new }
{
    for place in 0..list.len() {
        test_next(rows, marks, all, list, place, suspects);
    }
}

/// The mark of the method of a number.
fn mark_in(all: &Vec<Heading>, at: u32) -> u64
    ensures { result ≡ mark_in all.now.items at }
{
    match all.get(at as usize) {
        Some(method) => mark_of(method),
        None => LONE,
    }
}

/// Whether all of a list have a mark.
fn have_mark(all: &Vec<Heading>, list: &[u32], mark: u64) -> bool
    ensures { result ≡ true → (p i : ℕ) → slice_get list.now p ≡ Some i → mark_in all.now.items i ≡ mark }
{
    for at in list {
        if mark_in(all, *at) != mark {
            return false;
        }
    }
    true
}

/// Whether the methods of a list are of one slot, and none of them is private.
fn are_alike(all: &Vec<Heading>, list: &[u32]) -> bool
    ensures { result ≡ true → (m : ℕ) × (m ≢ 1) × ((p i : ℕ) → slice_get list.now p ≡ Some i → mark_in all.now.items i ≡ m) }
{
    match list.get(0) {
        Some(first) => {
            let mark = mark_in(all, *first);
            mark != LONE && have_mark(all, list, mark)
        }
        None => false,
    }
}

/// Finds those of a list that may clash with one before them in it; `AllocError` where memory is short.
fn test_name(
    alloc: Global,
    rows: &Hierarchy,
    count: u32,
    all: &Vec<Heading>,
    list: &[u32],
    suspects: &mut [bool],
) -> Result<(), AllocError>
    ensures { OnOk result (HaveTested rows.now all.now.items list.now suspects.old suspects.new) }
{
    if list.len() < 2 {
        return Ok(());
    }
    if are_alike(all, list) {
        return Ok(());
    }
    let mut marks = vec![in alloc; 0u64; count as usize]?;
    test_all(rows, marks.as_mut_slice(), all, list, suspects);
    Ok(())
}

/// Whether a list begins with a number or a later one.
fn begins_from(list: &[u32], at: usize) -> bool
    ensures { result ≡ begins_from list.now at }
{
    match list.get(0) {
        Some(first) => *first as usize >= at,
        None => false,
    }
}

/// The same, where the list begins with a number or a later one.
fn test_from(
    alloc: Global,
    rows: &Hierarchy,
    count: u32,
    all: &Vec<Heading>,
    list: &[u32],
    at: usize,
    suspects: &mut [bool],
) -> Result<(), AllocError>
    ensures { OnOk result (HaveTestedFrom rows.now all.now.items list.now at suspects.old suspects.new) }
{
    if !begins_from(list, at) {
        return Ok(());
    }
    test_name(alloc, rows, count, all, list, suspects)
}

/// The same for the methods of the name of one, where they begin with it or a later one.
fn test_at(
    alloc: Global,
    rows: &Hierarchy,
    count: u32,
    spots: &Spots,
    all: &Vec<Heading>,
    at: usize,
    suspects: &mut [bool],
) -> Result<(), AllocError>
    ensures { OnOk result (HaveTestedAt rows.now all.now.items spots.now (slice_get all.now.items at) at suspects.old suspects.new) }
{
    match all.get(at) {
        Some(method) => test_from(
            alloc,
            rows,
            count,
            all,
            spots.at(&method.name),
            at,
            suspects,
        ),
        None => Ok(()),
    }
}

/// For each method whether it may clash with one of its name that stands before it, of so many types; `AllocError` where memory is short.
pub fn suspects_of(
    alloc: Global,
    rows: &Hierarchy,
    count: u32,
    spots: &Spots,
    all: &Vec<Heading>,
) -> Result<Vec<bool>, AllocError>
    requires { AreSpots (map (λ h. h.name) all.now.items) spots.now }
    ensures { IfOk result (λ v. (n : List ℕ) → AreTested rows.now all.now.items (spots_of spots.now n) v.items) }
{
    let mut suspects = vec![in alloc; false; all.len()]?;
    for k in 0..all.len() {
        test_at(alloc, rows, count, spots, all, k, suspects.as_mut_slice())?;
    }
    Ok(suspects)
}
