//! What is told of a table once: how many columns each row has, the rows of each column and how many they are,
//! and one row of each set of columns, with the columns of those.

ghost use Rattle.std.specs.Prelude.{◌≡◌, ℕ, ◌<◌, ◌≤◌, ◌^◌, length, map, All, IfOk};
ghost use Rattle.std.specs.List.Sorted.{IsPermutation};
ghost use Rattle.kaba_bits.specs.Sets.{row, size, rising, HasWidth};
ghost use Rattle.concept_build.specs.Tables.{AreColumnSets, AreExamples, IsCounted, listed_rows};
ghost use Rattle.concept_build.specs.Lists.{lists_of};

use crate::Tried;
use crate::columns::{Columns, columns_in};
use crate::places::is_new;
use indexmap::IndexSet;
use kaba_bits::{BitRow, row_at};
use std::alloc::Global;

/// The sizes of the rows, the rows of each column and how many they are, one row of each set of columns,
/// and the columns of those.
#[derive(Drop)]
pub struct Counts {
    pub rows: Vec<u32>,
    pub columns: Vec<u32>,
    pub extents: Columns,
    pub examples: Vec<u32>,
    pub shares: Columns,
}

/// Counts a table.
pub fn counts_of(alloc: Global, table: &[BitRow], width: u32) -> Tried<Counts>
    requires rows { length table.now < 2 ^ 32 }
    requires widths { HasWidth width table.now }
    ensures { IfOk result (λ c. IsCounted table.now width c) }
{
    let rows = sizes_of(alloc, table)?;
    let extents = extents_of(alloc, table, width)?;
    let columns = sizes_of(alloc, &extents.sets)?;
    let examples = examples_of(alloc, table, &rows, width)?;
    let shares = columns_in(alloc, table, &examples, width)?;
    Ok(Counts {
        rows,
        columns,
        extents,
        examples,
        shares,
    })
}

/// How many numbers each set has.
fn sizes_of(alloc: Global, sets: &[BitRow]) -> Tried<Vec<u32>>
    ensures { IfOk result (λ v. v.items ≡ map size sets.now) }
{
    let mut sizes = Vec::new(alloc);
    for r in 0..sets.len() {
        sizes.push(row_at(sets, r).count())?;
    }
    Ok(sizes)
}

/// The columns of all rows.
fn extents_of(alloc: Global, table: &[BitRow], width: u32) -> Tried<Columns>
    requires rows { length table.now < 2 ^ 32 }
    requires widths { HasWidth width table.now }
    ensures { IfOk result (AreColumnSets table.now width) }
{
    let rows = every_row(alloc, table)?;
    let extents = columns_in(alloc, table, &rows, width)?;
    Ok(extents)
}

/// The numbers of all rows, rising.
fn every_row(alloc: Global, table: &[BitRow]) -> Tried<Vec<u32>>
    requires { length table.now < 2 ^ 32 }
    ensures below { IfOk result (λ v. All (λ q. q < length table.now) v.items) }
    ensures all { IfOk result (λ v. listed_rows table.now v.items ≡ table.now) }
{
    let mut rows = Vec::new(alloc);
    for r in 0..table.len() {
        rows.push(r as u32)?;
    }
    Ok(rows)
}

/// One row of each set of columns, those of most columns first, since with those the covers are found
/// with the fewest comparisons.
fn examples_of(alloc: Global, table: &[BitRow], sizes: &[u32], width: u32) -> Tried<Vec<u32>>
    requires rows { length table.now < 2 ^ 32 }
    requires widths { HasWidth width table.now }
    ensures examples { IfOk result (λ v. AreExamples table.now v.items) }
    ensures few { IfOk result (λ v. length v.items ≤ length table.now) }
{
    let mut examples = distinct_rows(alloc, table, width)?;
    examples.sort_by_key(|r| u32::MAX - sizes.get(*r as usize).copied().unwrap_or(0))?;
    Ok(examples)
}

/// The first row of each set of columns.
fn distinct_rows(alloc: Global, table: &[BitRow], width: u32) -> Tried<Vec<u32>>
    requires rows { length table.now < 2 ^ 32 }
    requires widths { HasWidth width table.now }
    ensures examples { IfOk result (λ v. AreExamples table.now v.items) }
    ensures few { IfOk result (λ v. length v.items ≤ length table.now) }
{
    let mut known = IndexSet::new(alloc);
    let mut examples = Vec::new(alloc);
    for r in 0..table.len() {
        if is_new(&mut known, row_at(table, r).rising(alloc)?)? {
            examples.push(r as u32)?;
        }
    }
    Ok(examples)
}
