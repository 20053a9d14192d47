//! The rows and the columns that stand at a concept, seen by how many they are.

ghost use Rattle.std.specs.Prelude.{◌≡◌, ℕ, ◌<◌, ◌^◌, ◌↔◌, length, map, IfOk, IsTrue, slice_index_or};
ghost use Rattle.kaba_bits.specs.Sets.{size, HasWidth, ListsBelow};
ghost use Rattle.fact_model.specs.Concepts.{IsConcept, RowStands, ColumnStands};
ghost use Rattle.concept_build.specs.Tables.{column};

use crate::Tried;
use crate::item::Item;
use kaba_base::{ColId, RowId};
use kaba_bits::BitRow;
use std::alloc::Global;

/// The rows whose columns are exactly the intent, rising.
pub fn rows_at(
    alloc: Global,
    table: &[BitRow],
    sizes: &[u32],
    item: &Item,
    width: u32,
) -> Tried<Vec<RowId>>
    requires rows { length table.now < 2 ^ 32 }
    requires widths { HasWidth width table.now }
    requires sizes { sizes.now ≡ map size table.now }
    requires concept { IsConcept table.now width item.now.0 item.now.1 }
    ensures { IfOk result (λ v. ListsBelow (RowStands table.now item.now.1) (length table.now) (map (λ r. r.0) v.items)) }
{
    let mut rows = Vec::new(alloc);
    let extent = item.extent();
    let mut at = 0;
    while let Some(r) = extent.next(at) {
        if row_stands(table, sizes, item, r as usize, width) {
            rows.push(RowId(r))?;
        }
        at = r + 1;
    }
    Ok(rows)
}

/// Whether the columns of a row are exactly the intent: it has all of them, and as many.
fn row_stands(table: &[BitRow], sizes: &[u32], item: &Item, r: usize, width: u32) -> bool
    requires r { r < length table.now }
    requires small { length table.now < 2 ^ 32 }
    requires widths { HasWidth width table.now }
    requires sizes { sizes.now ≡ map size table.now }
    requires concept { IsConcept table.now width item.now.0 item.now.1 }
    ensures { IsTrue result ↔ RowStands table.now item.now.1 r }
{
    item.extent().has(r as u32) && sizes[r] as usize == item.columns().len()
}

/// The columns that exactly the rows of the extent have, rising. A column that no row has is left out.
pub fn columns_at(
    alloc: Global,
    table: &[BitRow],
    sizes: &[u32],
    item: &Item,
    width: u32,
) -> Tried<Vec<ColId>>
    requires len { length sizes.now ≡ width }
    requires sizes { (c d : ℕ) → c < width → slice_index_or sizes.now c d ≡ size (column table.now c) }
    requires concept { IsConcept table.now width item.now.0 item.now.1 }
    ensures { IfOk result (λ v. ListsBelow (ColumnStands table.now item.now.0) width (map (λ c. c.0) v.items)) }
{
    let mut columns = Vec::new(alloc);
    let intent = item.intent();
    let mut at = 0;
    while let Some(c) = intent.next(at) {
        if column_stands(table, sizes, item, c, width) {
            columns.push(ColId(c))?;
        }
        at = c + 1;
    }
    Ok(columns)
}

/// Whether some row has a column, and exactly the rows of the extent do: it is one of the intent, and
/// as many rows have it.
fn column_stands(table: &[BitRow], sizes: &[u32], item: &Item, c: u32, width: u32) -> bool
    requires c { c < width }
    requires len { length sizes.now ≡ width }
    requires sizes { (c d : ℕ) → c < width → slice_index_or sizes.now c d ≡ size (column table.now c) }
    requires concept { IsConcept table.now width item.now.0 item.now.1 }
    ensures { IsTrue result ↔ ColumnStands table.now item.now.0 c }
{
    item.intent().has(c) && is_all_of(sizes[c as usize], item.rows())
}

/// Whether `n` rows are some, and as many as `all`.
fn is_all_of(n: u32, all: u32) -> bool
    ensures { IsTrue result ↔ ((0 < n) × (n ≡ all)) }
{
    n > 0 && n == all
}
