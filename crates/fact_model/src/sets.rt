//! Points-to sets, the table, and its concept lattice.

ghost use Rattle.std.specs.Prelude.{◌≡◌, ℕ, ◌<◌, length};
ghost use Rattle.kaba_bits.specs.Sets.{bit, row};

use kaba_base::{ColId, RowId, SiteId};
use kaba_bits::BitRow;

/// The points-to sets of points, of cells and of rows. Their width is the count of sites.
#[derive(Drop)]
pub struct PointsTo {
    pub points: Vec<BitRow>,
    pub cells: Vec<BitRow>,
    /// For each row the union over its points and cells.
    pub rows: Vec<BitRow>,
}

impl PointsTo {
    /// Whether a site is in a point.
    pub fn has(&self, point: u32, s: SiteId) -> bool
        requires point { point < length self.now.points.items }
        requires site { s.0 < length (row self.now.points.items point) }
        ensures { result ≡ bit (row self.now.points.items point) s.0 }
    {
        self.points[point as usize].has(s.0)
    }

    /// Whether a site is in a cell.
    pub fn cell_has(&self, cell: u32, s: SiteId) -> bool
        requires cell { cell < length self.now.cells.items }
        requires site { s.0 < length (row self.now.cells.items cell) }
        ensures { result ≡ bit (row self.now.cells.items cell) s.0 }
    {
        self.cells[cell as usize].has(s.0)
    }

    /// Whether a site is in the set of a row.
    pub fn row_has(&self, r: RowId, s: SiteId) -> bool
        requires row { r.0 < length self.now.rows.items }
        requires site { s.0 < length (row self.now.rows.items r.0) }
        ensures { result ≡ bit (row self.now.rows.items r.0) s.0 }
    {
        self.rows[r.0 as usize].has(s.0)
    }
}

/// The table: for each row the set of its columns. Each row has the width, which is the count of columns.
#[derive(Drop)]
pub struct Table {
    pub width: u32,
    pub rows: Vec<BitRow>,
}

impl Table {
    /// Whether a row has a column.
    pub fn has(&self, r: RowId, c: ColId) -> bool
        requires row { r.0 < length self.now.rows.items }
        requires column { c.0 < length (row self.now.rows.items r.0) }
        ensures { result ≡ bit (row self.now.rows.items r.0) c.0 }
    {
        self.rows[r.0 as usize].has(c.0)
    }

    /// The columns of a row.
    pub fn row(&self, r: RowId) -> &BitRow
        requires { r.0 < length self.now.rows.items }
        ensures { result.now ≡ row self.now.rows.items r.0 }
    {
        &self.rows[r.0 as usize]
    }
}

/// A concept: a set of rows and a set of columns, each the set of all that are common to the other.
#[derive(Drop)]
pub struct Concept {
    pub extent: BitRow,
    pub intent: BitRow,
    /// The numbers of its upper covers, rising.
    pub above: Vec<u32>,
    /// The rows whose columns are exactly the intent, rising.
    pub rows: Vec<RowId>,
    /// The columns that exactly the rows of the extent have, rising. One that no row has stands nowhere.
    pub columns: Vec<ColId>,
}

/// The concept lattice: every concept once, by falling size of extent and then by intent.
#[derive(Drop)]
pub struct Lattice {
    pub concepts: Vec<Concept>,
}
