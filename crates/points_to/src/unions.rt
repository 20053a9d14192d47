//! The set of each row: the union over its points and cells.

ghost use Rattle.std.specs.Prelude.{◌≡◌, ℕ, ◌<◌, true, length, IfOk};
ghost use Rattle.kaba_bits.specs.Sets.{bit, row, IsSubset};
ghost use Rattle.fact_model.specs.Items.{cell_at, point_row};
ghost use Rattle.fact_model.specs.InRange.{InRange};
ghost use Rattle.fact_model.specs.Flowing.{IsInRow};
ghost use Rattle.points_to.specs.Sound.{ArePoints, AreCells, AreUnions};
ghost use Rattle.points_to.specs.Closed.{PointsJoined, CellsJoined, Grow};

use crate::index::cell_at;
use fact_model::Facts;
use kaba_bits::{BitRow, empty_rows, join_with, row_at};
use std::alloc::{AllocError, Global};

/// The set of each row. An error comes only for want of memory.
pub fn unions(
    alloc: Global,
    facts: &Facts,
    points: &[BitRow],
    cells: &[BitRow],
) -> Result<Vec<BitRow>, AllocError>
    requires facts { InRange facts.now }
    requires points { ArePoints facts.now points.now }
    requires cells { AreCells facts.now cells.now }
    ensures unions { IfOk result (λ v. AreUnions facts.now v.items) }
    ensures points { IfOk result (λ v. PointsJoined facts.now points.now v.items (length facts.now.points.items)) }
    ensures cells { IfOk result (λ v. CellsJoined facts.now cells.now v.items (length facts.now.cells.items)) }
{
    let mut rows = empty_rows(alloc, facts.rows.len(), facts.sites.len() as u32)?;
    join_points(facts, points, &mut rows);
    join_cells(facts, cells, &mut rows);
    Ok(rows)
}

/// Every point into its row.
fn join_points(facts: &Facts, points: &[BitRow], rows: &mut [BitRow])
    requires facts { InRange facts.now }
    requires points { ArePoints facts.now points.now }
    requires unions { AreUnions facts.now rows.old }
    ensures unions { AreUnions facts.now rows.new }
    ensures joined { PointsJoined facts.now points.now rows.new (length facts.now.points.items) }
{
    for p in 0..facts.points.len() {
        join_set(facts, rows, point_row(facts, p), row_at(points, p));
    }
}

/// Every cell into its row.
fn join_cells(facts: &Facts, cells: &[BitRow], rows: &mut [BitRow])
    requires facts { InRange facts.now }
    requires cells { AreCells facts.now cells.now }
    requires unions { AreUnions facts.now rows.old }
    ensures unions { AreUnions facts.now rows.new }
    ensures grows { Grow rows.old rows.new }
    ensures joined { CellsJoined facts.now cells.now rows.new (length facts.now.cells.items) }
{
    for c in 0..facts.cells.len() {
        let row = cell_at(facts, c).row;
        join_set(facts, rows, row.0 as usize, row_at(cells, c));
    }
}

/// A set of sites into a row.
fn join_set(facts: &Facts, rows: &mut [BitRow], r: usize, extra: &BitRow)
    requires unions { AreUnions facts.now rows.old }
    requires row { r < length facts.now.rows.items }
    requires width { length extra.now ≡ length facts.now.sites.items }
    requires holds { (s : ℕ) → bit extra.now s ≡ true → IsInRow facts.now r s }
    ensures unions { AreUnions facts.now rows.new }
    ensures grows { Grow rows.old rows.new }
    ensures here { IsSubset extra.now (row rows.new r) }
{
    join_with(rows, r, extra);
}

/// The row of a point.
fn point_row(facts: &Facts, p: usize) -> usize
    requires { p < length facts.now.points.items }
    ensures { result ≡ point_row facts.now p }
{
    facts.points[p].0 as usize
}
