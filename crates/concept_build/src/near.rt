//! The rows by which an extent grows least: for each row that it lacks, one that has all that the row has
//! of the intent.

ghost use Rattle.std.specs.Prelude.{◌≡◌, ℕ, ◌<◌, true, false, length, All, Contains, IfOk, OnOk, ◌⊎◌};
ghost use Rattle.std.specs.Bool.{OnTrue, MatchBool};
ghost use Rattle.kaba_bits.specs.Sets.{bit, row, HasWidth};
ghost use Rattle.fact_model.specs.Concepts.{IsExtent};
ghost use Rattle.concept_build.specs.Tables.{IsCounted, AreNear, HasNear, IsMissed};
ghost use Rattle.concept_build.specs.Places.{ArePassed};

use crate::Tried;
use crate::counts::Counts;
use crate::item::{Item, common_columns};
use kaba_bits::{BitRow, row_at};
use std::alloc::Global;

/// Rows that the extent of a concept lacks: each other one has no more of the intent than one of these.
/// Those that have no column that a row found misses are passed over at once, word by word.
pub fn near_rows(alloc: Global, table: &[BitRow], counts: &Counts, item: &Item) -> Tried<Vec<u32>>
    requires widths { HasWidth (length item.now.1) table.now }
    requires extent { IsExtent table.now item.now.0 item.now.1 }
    requires counts { IsCounted table.now (length item.now.1) counts.now }
    ensures { IfOk result (λ v. AreNear table.now item.now.0 item.now.1 v.items) }
{
    let mut near = Vec::new(alloc);
    let mut wide = Vec::new(alloc);
    let mut left = counts.shares.all.copy(alloc)?;
    let mut at = 0;
    while let Some(p) = left.next(at) {
        let q = counts.examples[p as usize];
        if is_news(alloc, table, item, &wide, q)? {
            near.push(q)?;
            pass_over(alloc, table, counts, item, q, &mut wide, &mut left)?;
        }
        at = p + 1;
    }
    Ok(near)
}

/// Whether an extent lacks a row that has some column of the intent that each row of a list lacks.
fn is_news(alloc: Global, table: &[BitRow], item: &Item, wide: &[u32], q: u32) -> Tried<bool>
    requires widths { HasWidth (length item.now.1) table.now }
    requires rows { length item.now.0 ≡ length table.now }
    requires wide { All (λ m. m < length table.now) wide.now }
    requires q { q < length table.now }
    ensures { IfOk result (λ b. MatchBool b (bit item.now.0 q ≡ false) (bit item.now.0 q ≡ false → HasNear table.now item.now.1 wide.now q)) }
{
    if item.extent().has(q) {
        return Ok(false);
    }
    if wide.is_empty() {
        return Ok(true);
    }
    let columns = common_columns(alloc, item, row_at(table, q as usize))?;
    Ok(!is_below(table, &columns, wide))
}

/// Whether some row of a list has all of some columns.
fn is_below(table: &[BitRow], columns: &[u32], rows: &[u32]) -> bool
    requires rows { All (λ q. q < length table.now) rows.now }
    requires columns { (q : ℕ) → q < length table.now → All (λ c. c < length (row table.now q)) columns.now }
    ensures { OnTrue result ((q : ℕ) × Contains rows.now q × All (λ c. bit (row table.now q) c ≡ true) columns.now) }
{
    for q in rows {
        if has_listed(row_at(table, *q as usize), columns) {
            return true;
        }
    }
    false
}

/// Whether a row has all columns of a list.
fn has_listed(row: &BitRow, columns: &[u32]) -> bool
    requires { All (λ c. c < length row.now) columns.now }
    ensures { OnTrue result (All (λ c. bit row.now c ≡ true) columns.now) }
{
    for c in columns {
        if !row.has(*c) {
            return false;
        }
    }
    true
}

/// From how many columns on that a row surely misses it is kept for later comparisons.
const MANY: usize = 64;

/// Takes the rows that have no more of the intent than the row `q` from those left, or keeps `q` for later
/// comparisons, where it misses many columns.
fn pass_over(
    alloc: Global,
    table: &[BitRow],
    counts: &Counts,
    item: &Item,
    q: u32,
    wide: &mut Vec<u32>,
    left: &mut BitRow,
) -> Tried<()>
    requires widths { HasWidth (length item.now.1) table.now }
    requires counts { IsCounted table.now (length item.now.1) counts.now }
    requires left { length left.old ≡ length counts.now.examples.items }
    requires q { q < length table.now }
    ensures wide { OnOk result ((m : ℕ) → Contains wide.new.items m → Contains wide.old.items m ⊎ (m ≡ q)) }
    ensures len { OnOk result (length left.new ≡ length left.old) }
    ensures passed { OnOk result (ArePassed table.now counts.now.examples.items item.now.1 (row table.now q) left.old left.new) }
{
    if item.columns().len() >= counts.rows[q as usize] as usize + MANY {
        wide.push(q)?;
        return Ok(());
    }
    let missed = missed_columns(alloc, item, row_at(table, q as usize))?;
    keep_some(alloc, &counts.shares.sets, &missed, left)?;
    Ok(())
}

/// Keeps those that are in some of the sets of a list.
fn keep_some(alloc: Global, sets: &[BitRow], listed: &[u32], left: &mut BitRow) -> Tried<()>
    requires listed { All (λ c. c < length sets.now) listed.now }
    requires widths { HasWidth (length left.old) sets.now }
    ensures len { OnOk result (length left.new ≡ length left.old) }
    ensures passed { OnOk result ((p : ℕ) → bit left.old p ≡ true → bit left.new p ≡ false → All (λ c. bit (row sets.now c) p ≡ false) listed.now) }
{
    let mut some = BitRow::new(alloc, left.width())?;
    for c in listed {
        some.or_into(row_at(sets, *c as usize));
    }
    left.and_into(&some);
    Ok(())
}

/// The columns of an intent that a row lacks, rising.
fn missed_columns(alloc: Global, item: &Item, row: &BitRow) -> Tried<Vec<u32>>
    requires { length item.now.1 ≡ length row.now }
    ensures missed { IfOk result (λ v. IsMissed item.now.1 row.now v.items) }
    ensures below { IfOk result (λ v. All (λ c. c < length row.now) v.items) }
{
    let mut missed = Vec::new(alloc);
    for c in item.columns() {
        if !row.has(*c) {
            missed.push(*c)?;
        }
    }
    Ok(missed)
}
