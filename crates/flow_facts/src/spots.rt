//! The spots of the text: its casts and its calls through a receiver.

ghost use Rattle.std.specs.Prelude.{◌≡◌, ◌<◌, ◌↔◌, ◌++◌, IfOk, IsTrue, OnOk, Option, Some};
ghost use Rattle.flow_rules.specs.Spots.{is_cast_row, is_maker_slot, marks_of, mark_number, calls_after, tests_after, mark_spot, numbered_spots};
ghost use Rattle.flow_facts.specs.Words.{program_of, part_seen, numbers_seen};

use crate::Tried;
use crate::by_number::slot_by_number;
use crate::given::Given;
use crate::lists::{point_at, row_at};
use fact_model::{Spot, SpotKind};
use flow_rules::{Mark, Part, RowItem};
use java_core::Program;
use kaba_base::put;
use std::alloc::{AllocError, Global};
use std::mem::drop;

/// Whether a row is that of a cast.
fn is_cast_row(row: Option<RowItem>) -> bool
    ensures { result ≡ is_cast_row row }
{
    matches!(row, Some(RowItem::Cast(_)))
}

/// Whether a slot is that of a constructor, whose name alone begins with `<`.
fn is_maker_slot(program: &Program, slot: u32) -> bool
    ensures value { result ≡ is_maker_slot (program_of program.now) (Some slot) }
{
    match slot_by_number(program, slot as u64) {
        Some(slot) => slot.name.as_str().starts_with('<'),
        None => false,
    }
}

/// Adds the calls and the tests, each with whether it has a spot.
pub fn add_marks(given: &Given, part: &Part, marks: &mut Vec<Mark>) -> Tried<()>
    ensures value { OnOk result (marks.new.items ≡ marks.old.items ++ marks_of (program_of given.now.program.now)
        (numbers_seen given.now.numbering.now) (part_seen part.now)) }
{
    let n = given.numbering;
    let (kind, is_spot, place) = match part {
        Part::Call(place, base, Some(slot), _, _, _) => {
            let Some(_) = point_at(n, base) else {
                return Ok(());
            };
            (SpotKind::Call, !is_maker_slot(given.program, *slot), *place)
        }
        Part::New(place, _, own, Some(_), _, _) => {
            let Some(_) = point_at(n, own) else {
                return Ok(());
            };
            (SpotKind::Call, false, *place)
        }
        Part::Test(place, operand, own) => {
            let (Some(_), Some(_), Some(_)) = (point_at(n, operand), row_at(n, own), own.ty) else {
                return Ok(());
            };
            (SpotKind::Cast, is_cast_row(own.row), *place)
        }
        _ => return Ok(()),
    };
    put(
        marks,
        Mark {
            kind,
            is_spot,
            place,
        },
    )
}

/// Adds the spot of a call or a test of this number, where there is one.
fn add_spot(mark: Mark, at: u32, spots: &mut Vec<Spot>) -> Tried<()>
    ensures value { OnOk result (spots.new.items ≡ spots.old.items ++ mark_spot mark at) }
{
    if mark.is_spot {
        let (kind, place) = (mark.kind, mark.place);
        put(spots, Spot { kind, at, place })
    } else {
        Ok(())
    }
}

/// The number that a call or a test has, and how many calls and tests there are after it.
#[derive(Clone, Copy)]
struct Count {
    at: u32,
    calls: u32,
    tests: u32,
}

/// Counts a call or a test more.
fn counted(kind: SpotKind, calls: u32, tests: u32) -> Count
    requires calls { calls < 4294967295 }
    requires tests { tests < 4294967295 }
    ensures at { result.at ≡ mark_number kind calls tests }
    ensures calls { result.calls ≡ calls_after kind calls }
    ensures tests { result.tests ≡ tests_after kind tests }
{
    match kind {
        SpotKind::Call => {
            let at = calls;
            let calls = calls + 1;
            Count { at, calls, tests }
        }
        SpotKind::Cast => {
            let at = tests;
            let tests = tests + 1;
            Count { at, calls, tests }
        }
    }
}

/// Whether a call and a test more can be counted.
fn has_room(calls: u32, tests: u32) -> bool
    ensures { IsTrue result ↔ (calls < 4294967295) × (tests < 4294967295) }
{
    calls < u32::MAX && tests < u32::MAX
}

/// The spots among calls and tests in the order of their places. An error comes for want of memory, and where there
/// are 4,294,967,295 calls or tests or more.
pub fn spots_of(alloc: Global, marks: &Vec<Mark>) -> Tried<Vec<Spot>>
    ensures value { IfOk result (λ v. v.items ≡ numbered_spots 0 0 marks.now.items) }
{
    let mut spots = Vec::new(alloc);
    let mut calls: u32 = 0;
    let mut tests: u32 = 0;
    for mark in marks {
        if !has_room(calls, tests) {
            drop(spots);
            return Err(AllocError);
        }
        let count = counted(mark.kind, calls, tests);
        made!(add_spot(*mark, count.at, &mut spots); spots);
        calls = count.calls;
        tests = count.tests;
    }
    Ok(spots)
}
