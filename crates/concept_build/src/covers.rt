//! The upper covers of a concept: the least of the closures of its extent with one more row.

ghost use Rattle.std.specs.Prelude.{◌≡◌, ℕ, ◌<◌, ◌↔◌, length, All, Contains, IfOk, IsTrue};
ghost use Rattle.kaba_bits.specs.Sets.{row, ListsBelow};
ghost use Rattle.fact_model.specs.Concepts.{IsUpperCover, IsStrictSubset};
ghost use Rattle.concept_build.specs.Given.{IsBuilderInput};
ghost use Rattle.concept_build.specs.Lists.{extents_of, IsClosure, AreCandidates, IsLeast};

use crate::Tried;
use crate::counts::Counts;
use crate::item::{Item, common_columns, item_at};
use crate::near::near_rows;
use crate::places::place_of_columns;
use indexmap::IndexSet;
use kaba_bits::{BitRow, row_at};
use std::alloc::Global;

/// What is given for each concept: the table with what is counted of it, all its concepts, and where each stands.
#[derive(Clone, Copy)]
pub struct Given<'a> {
    pub alloc: Global,
    pub table: &'a [BitRow],
    pub counts: &'a Counts,
    pub items: &'a [Item],
    pub places: &'a IndexSet<Vec<u32>>,
    pub width: u32,
}

/// The numbers of the upper covers of a concept, rising.
pub fn above(given: &Given, k: usize) -> Tried<Vec<u32>>
    requires given { IsBuilderInput given.now }
    requires k { k < length given.now.items.now }
    ensures { IfOk result (λ v. ListsBelow (IsUpperCover (extents_of given.now.items.now) k) (length given.now.items.now) v.items) }
{
    let numbers = candidates(given, k)?;
    let above = least(given.alloc, given.items, &numbers)?;
    Ok(above)
}

/// The closures with rows that the extent lacks: for each such row one of them is within its closure.
fn candidates(given: &Given, k: usize) -> Tried<Vec<u32>>
    requires given { IsBuilderInput given.now }
    requires k { k < length given.now.items.now }
    ensures { IfOk result (λ v. AreCandidates (extents_of given.now.items.now) k (length given.now.table.now) v.items) }
{
    let near = near_rows(
        given.alloc,
        given.table,
        given.counts,
        item_at(given.items, k),
    )?;
    let mut numbers = Vec::new(given.alloc);
    for q in &near {
        let at = closure_at(given, k, *q as usize)?;
        numbers.push(at as u32)?;
    }
    Ok(numbers)
}

/// The number of the least extent with the rows of the extent at `k`, and with the row `q`: that of the
/// columns that the concept at `k` and the row have in common.
fn closure_at(given: &Given, k: usize, q: usize) -> Tried<usize>
    requires given { IsBuilderInput given.now }
    requires k { k < length given.now.items.now }
    requires q { q < length given.now.table.now }
    ensures { IfOk result (λ i. IsClosure (extents_of given.now.items.now) k q i) }
{
    let columns = common_columns(given.alloc, item_at(given.items, k), row_at(given.table, q))?;
    match place_of_columns(given.places, &columns) {
        Some(at) => Ok(at),
        None => unreachable!(),
    }
}

/// The numbers of a list that have no other strictly within, each once and rising.
fn least(alloc: Global, items: &[Item], numbers: &[u32]) -> Tried<Vec<u32>>
    requires widths { (i j : ℕ) → i < length items.now → j < length items.now → length (row (extents_of items.now) i) ≡ length (row (extents_of items.now) j) }
    requires numbers { All (λ i. i < length items.now) numbers.now }
    ensures { IfOk result (λ v. ListsBelow (λ j. Contains numbers.now j × IsLeast (extents_of items.now) numbers.now j) (length items.now) v.items) }
{
    let mut above = Vec::new(alloc);
    for j in numbers {
        if is_least(items, numbers, *j as usize) {
            above.push(*j)?;
        }
    }
    above.sort()?;
    above.dedup();
    Ok(above)
}

/// Whether no extent of the list is strictly within that at `j`.
fn is_least(items: &[Item], numbers: &[u32], j: usize) -> bool
    requires j { j < length items.now }
    requires widths { (i j : ℕ) → i < length items.now → j < length items.now → length (row (extents_of items.now) i) ≡ length (row (extents_of items.now) j) }
    requires numbers { All (λ i. i < length items.now) numbers.now }
    ensures { IsTrue result ↔ IsLeast (extents_of items.now) numbers.now j }
{
    for i in numbers {
        if is_within(items, *i as usize, j) {
            return false;
        }
    }
    true
}

/// Whether one extent is strictly within another.
fn is_within(items: &[Item], i: usize, j: usize) -> bool
    requires i { i < length items.now }
    requires j { j < length items.now }
    requires widths { length (row (extents_of items.now) i) ≡ length (row (extents_of items.now) j) }
    ensures { IsTrue result ↔ IsStrictSubset (row (extents_of items.now) i) (row (extents_of items.now) j) }
{
    item_at(items, i).is_within(item_at(items, j))
}
