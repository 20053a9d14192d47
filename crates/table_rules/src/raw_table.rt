//! The entries of the rules without premises: T1, T2, T3, T4, T7 and T11.

ghost use Rattle.std.specs.Prelude.{◌≡◌, ℕ, ◌<◌, true, length, All, Contains, Some, IfOk};
ghost use Rattle.fact_model.specs.Items.{site_class, site_row, IsColumn};
ghost use Rattle.fact_model.specs.Classes.{finds};
ghost use Rattle.points_to.specs.Chains.{AreBodies};
ghost use Rattle.table_rules.specs.Marks.{IsRawPair, IsBegun, IsMarking, IsThisMarked, IsNeedMarked, IsCallMarked, IsMarkMarkedAt, IsMarkMarked, IsTestMarked, IsArrayMarked, AreMarked};
ghost use Rattle.table_rules.specs.Words.{bit, row, InRange, AreSets, IsRawEntry, IsRawTable, AreRaw, RowMarked};

use crate::columns::{is_mark, site_at, this_of};
use crate::marks::mark;
use fact_model::{AccessInfo, CallInfo, ColKind, Facts, PointsTo, SuperInfo, Table, TestInfo};
use kaba_base::{ClassId, ColId, RowId};
use kaba_bits::{BitRow, empty_rows, row_at};
use points_to::{Bodies, bodies_of, find_body};
use std::alloc::{AllocError, Global};

/// The table with exactly the entries of T1, T2, T3, T4, T7 and T11. The sets are those of the facts. An error comes
/// only for want of memory.
pub fn raw(alloc: Global, facts: &Facts, pt: &PointsTo) -> Result<Table, AllocError>
    requires facts { InRange facts.now }
    requires sets { AreSets facts.now pt.now }
    ensures table { IfOk result (λ t. IsRawTable facts.now t) }
{
    let width = facts.columns.len() as u32;
    let bodies = bodies_of(alloc, facts)?;
    let mut rows = empty_rows(alloc, facts.rows.len(), width)?;
    mark_all(facts, &bodies, pt, &mut rows);
    Ok(Table { width, rows })
}

/// Each rule for every fact of its list.
fn mark_all(facts: &Facts, bodies: &Bodies, pt: &PointsTo, rows: &mut [BitRow])
    requires given { IsBegun facts.now rows.old }
    requires bodies { AreBodies facts.now bodies.now }
    requires sets { AreSets facts.now pt.now }
    ensures rows { AreRaw facts.now rows.new }
    ensures marked { AreMarked facts.now pt.now.points.items rows.new }
{
    mark_entries(facts, rows, &facts.accesses);
    mark_calls(facts, bodies, pt, rows);
    mark_these(facts, rows);
    mark_entries(facts, rows, &facts.supers);
    mark_tests(facts, rows);
    mark_arrays(facts, rows);
}

/// An item of the facts that names an entry, by its row and its column.
trait NamesEntry: Copy {
    ghost row_of: { Self → ℕ };

    ghost column_of: { Self → ℕ };

    /// The row and the column.
    fn entry(self) -> (RowId, ColId)
        ensures row { result.0.0 ≡ row_of self }
        ensures column { result.1.0 ≡ column_of self };
}

impl NamesEntry for AccessInfo {
    ghost row_of = { λ x. x.row.0 };

    ghost column_of = { λ x. x.column.0 };

    fn entry(self) -> (RowId, ColId) {
        (self.row, self.column)
    }
}

impl NamesEntry for SuperInfo {
    ghost row_of = { λ x. x.row.0 };

    ghost column_of = { λ x. x.column.0 };

    fn entry(self) -> (RowId, ColId) {
        (self.row, self.column)
    }
}

/// T1, T2 and T7: the row that types a base has the field, or the method's declaration, and the `this` of each super call
/// has the body that runs.
fn mark_entries<T: NamesEntry>(facts: &Facts, rows: &mut [BitRow], items: &Vec<T>)
    requires given { IsBegun facts.now rows.old }
    requires entries { All (λ x. IsRawPair facts.now (T.row_of x) (T.column_of x)) items.now.items }
    ensures step { IsMarking facts.now rows.old rows.new }
    ensures marked { All (λ x. RowMarked rows.new (T.row_of x) (T.column_of x)) items.now.items }
{
    for x in items {
        let (row, column) = x.entry();
        mark(facts, rows, row.0, column.0);
    }
}

/// T3: the row of each site in a receiver has the body found for its class.
fn mark_calls(facts: &Facts, bodies: &Bodies, pt: &PointsTo, rows: &mut [BitRow])
    requires given { IsBegun facts.now rows.old }
    requires bodies { AreBodies facts.now bodies.now }
    requires sets { AreSets facts.now pt.now }
    ensures step { IsMarking facts.now rows.old rows.new }
    ensures marked { All (IsCallMarked facts.now pt.now.points.items rows.new) facts.now.calls.items }
{
    for call in &facts.calls {
        mark_call(facts, bodies, pt, rows, call);
    }
}

/// One call, for every site.
fn mark_call(facts: &Facts, bodies: &Bodies, pt: &PointsTo, rows: &mut [BitRow], call: &CallInfo)
    requires given { IsBegun facts.now rows.old }
    requires bodies { AreBodies facts.now bodies.now }
    requires sets { AreSets facts.now pt.now }
    requires call { Contains facts.now.calls.items call.now }
    ensures step { IsMarking facts.now rows.old rows.new }
    ensures marked { IsCallMarked facts.now pt.now.points.items rows.new call.now }
{
    for o in 0..facts.sites.len() as u32 {
        mark_need(facts, bodies, pt, rows, call, o);
    }
}

/// One call, for one site.
fn mark_need(
    facts: &Facts,
    bodies: &Bodies,
    pt: &PointsTo,
    rows: &mut [BitRow],
    call: &CallInfo,
    o: u32,
)
    requires given { IsBegun facts.now rows.old }
    requires bodies { AreBodies facts.now bodies.now }
    requires sets { AreSets facts.now pt.now }
    requires call { Contains facts.now.calls.items call.now }
    requires site { o < length facts.now.sites.items }
    ensures step { IsMarking facts.now rows.old rows.new }
    ensures marked { IsNeedMarked facts.now pt.now.points.items call.now rows.new o }
{
    if !row_at(&pt.points, call.receiver as usize).has(o) {
        return;
    }
    let site = site_at(facts, o);
    if let Some(d) = find_body(facts, bodies, site.class, call.slot) {
        mark(facts, rows, site.row.0, d.0);
    }
}

/// T4: each `this` has its body.
fn mark_these(facts: &Facts, rows: &mut [BitRow])
    requires given { IsBegun facts.now rows.old }
    ensures step { IsMarking facts.now rows.old rows.new }
    ensures marked { (v : ℕ) → v < length facts.now.rows.items → IsThisMarked facts.now rows.new v }
{
    for v in 0..facts.rows.len() {
        if let Some(d) = this_of(facts, v) {
            mark(facts, rows, v as u32, d.0);
        }
    }
}

/// T11: each cast and instanceof has the mark of its class.
fn mark_tests(facts: &Facts, rows: &mut [BitRow])
    requires given { IsBegun facts.now rows.old }
    ensures step { IsMarking facts.now rows.old rows.new }
    ensures marked { All (IsTestMarked facts.now rows.new) facts.now.tests.items }
{
    for x in &facts.tests {
        mark_test(facts, rows, *x);
    }
}

/// One test.
fn mark_test(facts: &Facts, rows: &mut [BitRow], x: TestInfo)
    requires given { IsBegun facts.now rows.old }
    requires test { Contains facts.now.tests.items x }
    ensures step { IsMarking facts.now rows.old rows.new }
    ensures marked { IsTestMarked facts.now rows.new x }
{
    mark_type(facts, rows, x.target.0, x.class);
}

/// T11: each array site has the mark of its base.
fn mark_arrays(facts: &Facts, rows: &mut [BitRow])
    requires given { IsBegun facts.now rows.old }
    ensures step { IsMarking facts.now rows.old rows.new }
    ensures marked { (s : ℕ) → s < length facts.now.sites.items → IsArrayMarked facts.now rows.new s }
{
    for s in 0..facts.sites.len() as u32 {
        mark_array(facts, rows, s);
    }
}

/// One site, where it is that of an array.
fn mark_array(facts: &Facts, rows: &mut [BitRow], s: u32)
    requires given { IsBegun facts.now rows.old }
    requires site { s < length facts.now.sites.items }
    ensures step { IsMarking facts.now rows.old rows.new }
    ensures marked { IsArrayMarked facts.now rows.new s }
{
    let site = site_at(facts, s);
    if site.dim > 0 {
        mark_type(facts, rows, site.row.0, site.class);
    }
}

/// One row with the mark of a class.
fn mark_type(facts: &Facts, rows: &mut [BitRow], r: u32, class: ClassId)
    requires given { IsBegun facts.now rows.old }
    requires row { r < length facts.now.rows.items }
    requires entries { (c : ℕ) → IsColumn facts.now ColKind.Is class.0 c → IsRawEntry facts.now r c }
    ensures step { IsMarking facts.now rows.old rows.new }
    ensures marked { IsMarkMarked facts.now rows.new r class.0 }
{
    for c in 0..facts.columns.len() as u32 {
        mark_if_type(facts, rows, r, class, c);
    }
}

/// One row with one column, where that is the mark of a class.
fn mark_if_type(facts: &Facts, rows: &mut [BitRow], r: u32, class: ClassId, c: u32)
    requires given { IsBegun facts.now rows.old }
    requires row { r < length facts.now.rows.items }
    requires column { c < length facts.now.columns.items }
    requires entries { (k : ℕ) → IsColumn facts.now ColKind.Is class.0 k → IsRawEntry facts.now r k }
    ensures step { IsMarking facts.now rows.old rows.new }
    ensures marked { IsMarkMarkedAt facts.now r class.0 rows.new c }
{
    if is_mark(facts, class, c) {
        mark(facts, rows, r, c);
    }
}
