//! For each column the set of the rows that have it, made once of a list of rows.

ghost use Rattle.std.specs.Prelude.{◌≡◌, ◌≢◌, ℕ, ◌<◌, ◌^◌, false, length, All, IfOk};
ghost use Rattle.kaba_bits.specs.Sets.{bit, row, HasWidth};
ghost use Rattle.concept_build.specs.Tables.{AreColumnSets, listed_rows};

use crate::Tried;
use kaba_bits::{BitRow, empty_rows, row_at, set_at};
use std::alloc::Global;

/// For each column the places in a list of rows at which it is had, and the set of all places.
#[derive(Drop)]
pub struct Columns {
    pub sets: Vec<BitRow>,
    pub all: BitRow,
}

/// The columns of a list of rows of a table.
pub fn columns_in(alloc: Global, table: &[BitRow], rows: &[u32], width: u32) -> Tried<Columns>
    requires small { length rows.now < 2 ^ 32 }
    requires widths { HasWidth width table.now }
    requires rows { All (λ q. q < length table.now) rows.now }
    ensures { IfOk result (AreColumnSets (listed_rows table.now rows.now) width) }
{
    let mut sets = empty_rows(alloc, width as usize, rows.len() as u32)?;
    for p in 0..rows.len() {
        add_place(&mut sets, row_at(table, rows[p] as usize), p as u32);
    }
    let all = BitRow::full(alloc, rows.len() as u32)?;
    Ok(Columns { sets, all })
}

/// Adds a place, at which no column was had, to the columns of a row.
fn add_place(sets: &mut [BitRow], columns: &BitRow, p: u32)
    requires len { length sets.old ≡ length columns.now }
    requires small { length columns.now < 2 ^ 32 }
    requires widths { (c : ℕ) → c < length sets.old → p < length (row sets.old c) }
    requires fresh { (c : ℕ) → bit (row sets.old c) p ≡ false }
    ensures len { length sets.new ≡ length sets.old }
    ensures widths { (c : ℕ) → length (row sets.new c) ≡ length (row sets.old c) }
    ensures others { (c i : ℕ) → i ≢ p → bit (row sets.new c) i ≡ bit (row sets.old c) i }
    ensures added { (c : ℕ) → bit (row sets.new c) p ≡ bit columns.now c }
{
    let mut at = 0;
    while let Some(c) = columns.next(at) {
        set_at(sets, c as usize, p);
        at = c + 1;
    }
}
