//! The body that an object of a class runs for a slot, by chains of columns that are made once.

ghost use Rattle.std.specs.Prelude.{◌≡◌, ◌==◌, ◌&&◌, ℕ, ◌+◌, ◌<◌, ◌↔◌, length, IfOk, IsTrue, None, Some, slice_index_or, slice_set};
ghost use Rattle.std.specs.Option.{option_map};
ghost use Rattle.fact_model.specs.Items.{column_at, column_class, column_kind, column_slot};
ghost use Rattle.fact_model.specs.Classes.{finds, finds_within, own_body, is_slot};
ghost use Rattle.fact_model.specs.InRange.{InRange, IsClass};
ghost use Rattle.fact_model.specs.declared.facts.ColKind.TheVariants.{Def};
ghost use Rattle.points_to.specs.Chains.{bucket, column_bucket, AreChained, AreBodies};

use fact_model::{ColKind, ColumnInfo, Facts, class_at};
use kaba_base::{ClassId, ColId};
use std::alloc::{AllocError, Global};

/// The bodies by a number for their class and slot: for each number the first, and for each column the next of the same number, by their columns.
#[derive(Drop)]
pub struct Bodies {
    pub first: Vec<Option<u32>>,
    pub next: Vec<Option<u32>>,
}

/// One column.
fn column_at(facts: &Facts, c: u32) -> &ColumnInfo
    requires { c < length facts.now.columns.items }
    ensures { result.now ≡ column_at facts.now c }
{
    &facts.columns[c as usize]
}

/// Whether a column is a body.
fn is_def(facts: &Facts, c: u32) -> bool
    requires { c < length facts.now.columns.items }
    ensures { IsTrue result ↔ (column_kind facts.now c ≡ Def) }
{
    column_at(facts, c).kind == ColKind::Def
}

/// A number for a class and a slot, of as many as there are columns, and one more.
fn bucket(facts: &Facts, class: u32, slot: u32) -> usize
    requires { InRange facts.now }
    ensures value { result ≡ bucket (length facts.now.columns.items) class slot }
    ensures below { result < length facts.now.columns.items + 1 }
{
    let count = facts.columns.len() as u64 + 1;
    ((class as u64 * 31 + slot as u64) % count) as usize
}

/// The number for the class and the slot of a column.
fn bucket_of(facts: &Facts, c: u32) -> usize
    requires facts { InRange facts.now }
    requires column { c < length facts.now.columns.items }
    ensures value { result ≡ column_bucket facts.now c }
    ensures below { result < length facts.now.columns.items + 1 }
{
    let column = column_at(facts, c);
    match column.slot {
        Some(slot) => bucket(facts, column.class.0, slot),
        None => bucket(facts, column.class.0, 0),
    }
}

/// Whether a column is of a class and a slot.
fn is_own(facts: &Facts, c: u32, class: u32, slot: u32) -> bool
    requires { c < length facts.now.columns.items }
    ensures { result ≡ (column_class facts.now c == class) && is_slot (column_slot facts.now c) slot }
{
    let column = column_at(facts, c);
    match column.slot {
        Some(own) => column.class.0 == class && own == slot,
        None => false,
    }
}

/// One column at the front of its chain.
fn chain(facts: &Facts, first: &mut [Option<u32>], next: &mut [Option<u32>], c: u32)
    requires facts { InRange facts.now }
    requires column { c < length facts.now.columns.items }
    requires chained { AreChained facts.now first.old next.old (c + 1) }
    ensures chained { AreChained facts.now first.new next.new c }
{
    let at = bucket_of(facts, c);
    next[c as usize] = first[at];
    if is_def(facts, c) {
        first[at] = Some(c);
    }
}

/// Every column, the last first.
fn chain_all(facts: &Facts, first: &mut [Option<u32>], next: &mut [Option<u32>])
    requires facts { InRange facts.now }
    requires chained { AreChained facts.now first.old next.old (length facts.now.columns.items) }
    ensures chained { AreChained facts.now first.new next.new 0 }
{
    let count = facts.columns.len() as u32;
    for k in 0..count {
        chain(facts, first, next, count - 1 - k);
    }
}

/// The chains of the facts. An error comes only for want of memory.
pub fn bodies_of(alloc: Global, facts: &Facts) -> Result<Bodies, AllocError>
    requires { InRange facts.now }
    ensures { IfOk result (λ b. AreBodies facts.now b) }
{
    let mut first = vec![in alloc; None; facts.columns.len() + 1]?;
    let mut next = vec![in alloc; None; facts.columns.len()]?;
    chain_all(facts, &mut first, &mut next);
    Ok(Bodies { first, next })
}

/// The first body of a number.
fn first_of(bodies: &Bodies, at: usize) -> Option<u32>
    requires { at < length bodies.now.first.items }
    ensures { result ≡ slice_index_or bodies.now.first.items at None }
{
    bodies.first[at]
}

/// The next body of the number of a body.
fn next_of(bodies: &Bodies, d: u32) -> Option<u32>
    requires { d < length bodies.now.next.items }
    ensures { result ≡ slice_index_or bodies.now.next.items d None }
{
    bodies.next[d as usize]
}

/// The body of a slot that a class itself has.
fn own_body(facts: &Facts, bodies: &Bodies, class: ClassId, slot: u32) -> Option<ColId>
    requires facts { InRange facts.now }
    requires bodies { AreBodies facts.now bodies.now }
    requires class { IsClass facts.now class }
    ensures { option_map (λ d. d.0) result ≡ own_body facts.now class.0 slot }
{
    let mut at = first_of(bodies, bucket(facts, class.0, slot));
    'walk: loop {
        match at {
            Some(d) => {
                if is_own(facts, d, class.0, slot) {
                    return Some(ColId(d));
                }
                at = next_of(bodies, d);
            }
            None => return None,
        }
    }
}

/// The nearest body within so many steps along the superclasses.
fn finds_within(
    facts: &Facts,
    bodies: &Bodies,
    class: ClassId,
    slot: u32,
    left: usize,
) -> Option<ColId>
    requires facts { InRange facts.now }
    requires bodies { AreBodies facts.now bodies.now }
    requires class { IsClass facts.now class }
    ensures { option_map (λ d. d.0) result ≡ finds_within facts.now left class.0 slot }
{
    if let Some(own) = own_body(facts, bodies, class, slot) {
        return Some(own);
    }
    if left == 0 {
        return None;
    }
    match class_at(facts, class).parent {
        Some(parent) => finds_within(facts, bodies, parent, slot, left - 1),
        None => None,
    }
}

/// The body that an object of a class runs for a slot: what `fact_model::finds` gives.
pub fn find_body(facts: &Facts, bodies: &Bodies, class: ClassId, slot: u32) -> Option<ColId>
    requires facts { InRange facts.now }
    requires bodies { AreBodies facts.now bodies.now }
    requires class { IsClass facts.now class }
    ensures { option_map (λ d. d.0) result ≡ finds facts.now class.0 slot }
{
    finds_within(facts, bodies, class, slot, facts.classes.len())
}
