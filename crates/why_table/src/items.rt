//! What the numbers of the facts name, for any number, and small tests of claims and columns.

ghost use Rattle.std.specs.Prelude.{◌≡◌, ◌==◌, ◌&&◌, Some};
ghost use Rattle.std.specs.Option.{option_map};
ghost use Rattle.fact_model.specs.InRange.{InRange};
ghost use Rattle.fact_model.specs.Items.{site_at, row_this, column_kind, column_class, column_slot};
ghost use Rattle.fact_model.specs.Classes.{below, finds};
ghost use Rattle.fact_model.specs.Flowing.{point_at};
ghost use Rattle.why_table.specs.Tests.{is_same, number_of, site_of, row_of, column_of, is_fld, is_dcl, is_is, is_same_column, is_same_slot, is_cell, is_found, fits, is_mark, is_this};

use crate::trail::Claim;
use fact_model::{ColKind, Facts, SiteInfo};
use kaba_base::{ClassId, ColId, RowId, SiteId};

/// Whether two claims are one.
pub fn is_same(a: Claim, b: Claim) -> bool
    ensures { result ≡ is_same a b }
{
    match (a, b) {
        (Claim::InPoint(p, s), Claim::InPoint(q, t)) => p == q && s.0 == t.0,
        (Claim::InCell(p, s), Claim::InCell(q, t)) => p == q && s.0 == t.0,
        (Claim::Entry(p, s), Claim::Entry(q, t)) => p.0 == q.0 && s.0 == t.0,
        _ => false,
    }
}

/// The point or the cell of a claim; 0 for an entry.
pub fn number_of(claim: Claim) -> u32
    ensures { result ≡ number_of claim }
{
    match claim {
        Claim::InPoint(p, _) => p,
        Claim::InCell(c, _) => c,
        Claim::Entry(_, _) => 0,
    }
}

/// The site of a claim; 0 for an entry.
pub fn site_of(claim: Claim) -> SiteId
    ensures { result ≡ site_of claim }
{
    match claim {
        Claim::InPoint(_, s) => s,
        Claim::InCell(_, s) => s,
        Claim::Entry(_, _) => SiteId(0),
    }
}

/// The row of an entry; 0 for other claims.
pub fn row_of(claim: Claim) -> RowId
    ensures { result ≡ row_of claim }
{
    match claim {
        Claim::Entry(r, _) => r,
        _ => RowId(0),
    }
}

/// The column of an entry; 0 for other claims.
pub fn column_of(claim: Claim) -> ColId
    ensures { result ≡ column_of claim }
{
    match claim {
        Claim::Entry(_, c) => c,
        _ => ColId(0),
    }
}

/// Whether a column is one that is there.
pub fn is_same_column(a: Option<ColId>, b: Option<ColId>) -> bool
    ensures { result ≡ is_same_column a b }
{
    match (a, b) {
        (None, None) => true,
        (Some(x), Some(y)) => x.0 == y.0,
        _ => false,
    }
}

/// Whether two slots are one or both none.
pub fn is_same_slot(a: Option<u32>, b: Option<u32>) -> bool
    ensures { result ≡ is_same_slot a b }
{
    match (a, b) {
        (None, None) => true,
        (Some(x), Some(y)) => x == y,
        _ => false,
    }
}

/// Whether a kind is that of a field.
pub fn is_fld(kind: ColKind) -> bool
    ensures { result ≡ is_fld kind }
{
    matches!(kind, ColKind::Fld)
}

/// Whether a kind is that of a declaration.
pub fn is_dcl(kind: ColKind) -> bool
    ensures { result ≡ is_dcl kind }
{
    matches!(kind, ColKind::Dcl)
}

/// Whether a kind is that of a mark.
pub fn is_is(kind: ColKind) -> bool
    ensures { result ≡ is_is kind }
{
    matches!(kind, ColKind::Is)
}

/// The site of a number.
pub fn site_at(facts: &Facts, s: SiteId) -> SiteInfo
    ensures { result ≡ site_at facts.now s.0 }
{
    match facts.sites.get(s.0 as usize) {
        Some(site) => *site,
        None => SiteInfo {
            row: RowId(0),
            class: ClassId(0),
            dim: 0,
        },
    }
}

/// The body whose `this` a row is.
pub fn row_this(facts: &Facts, r: RowId) -> Option<ColId>
    ensures { result ≡ row_this facts.now r.0 }
{
    match facts.rows.get(r.0 as usize) {
        Some(row) => row.this_of,
        None => None,
    }
}

/// What a column stands for.
pub fn column_kind(facts: &Facts, c: ColId) -> ColKind
    ensures { result ≡ column_kind facts.now c.0 }
{
    match facts.columns.get(c.0 as usize) {
        Some(column) => column.kind,
        None => ColKind::Is,
    }
}

/// The class that a column belongs to.
pub fn column_class(facts: &Facts, c: ColId) -> ClassId
    ensures { result.0 ≡ column_class facts.now c.0 }
{
    match facts.columns.get(c.0 as usize) {
        Some(column) => column.class,
        None => ClassId(0),
    }
}

/// The slot of a column.
pub fn column_slot(facts: &Facts, c: ColId) -> Option<u32>
    ensures { result ≡ column_slot facts.now c.0 }
{
    match facts.columns.get(c.0 as usize) {
        Some(column) => column.slot,
        None => None,
    }
}

/// The point of an argument or of a parameter, if there is one.
pub fn point_at(points: &[Option<u32>], k: usize) -> Option<u32>
    ensures { result ≡ point_at points.now k }
{
    match points.get(k) {
        Some(point) => *point,
        None => None,
    }
}

/// Whether a class is at or below another, for any numbers.
pub fn is_below(facts: &Facts, a: ClassId, b: ClassId) -> bool
    requires { InRange facts.now }
    ensures { result ≡ below facts.now a.0 b.0 }
{
    if (a.0 as usize) < facts.classes.len() {
        fact_model::below(facts, a, b)
    } else {
        a.0 == b.0
    }
}

/// The body that an object of a class runs for a slot, for any numbers.
pub fn find_body(facts: &Facts, class: ClassId, slot: u32) -> Option<ColId>
    requires { InRange facts.now }
    ensures { option_map (λ d. d.0) result ≡ finds facts.now class.0 slot }
{
    if (class.0 as usize) < facts.classes.len() {
        fact_model::finds(facts, class, slot)
    } else {
        None
    }
}

/// Whether an object of a site runs a body for a slot.
pub fn is_found(facts: &Facts, o: SiteId, slot: u32, d: ColId) -> bool
    requires { InRange facts.now }
    ensures { result ≡ is_found facts.now o slot d }
{
    match find_body(facts, site_at(facts, o).class, slot) {
        Some(body) => body.0 == d.0,
        None => false,
    }
}

/// Whether `c` is the cell of a site at a column.
pub fn is_cell(facts: &Facts, c: u32, o: SiteId, column: Option<ColId>) -> bool
    ensures { result ≡ is_cell facts.now c o column }
{
    match facts.cells.get(c as usize) {
        Some(cell) => cell.site.0 == o.0 && is_same_column(cell.column, column),
        None => false,
    }
}

/// Whether a site fits into what a store writes of another.
pub fn fits(facts: &Facts, column: Option<ColId>, s: SiteId, o: SiteId) -> bool
    requires { InRange facts.now }
    ensures { result ≡ fits facts.now column s o }
{
    match column {
        None => is_below(facts, site_at(facts, s).class, site_at(facts, o).class),
        Some(_) => true,
    }
}

/// Whether a column is the mark of a class.
pub fn is_mark(facts: &Facts, class: ClassId, c: ColId) -> bool
    ensures { result ≡ is_mark facts.now class.0 c }
{
    match facts.columns.get(c.0 as usize) {
        Some(column) => is_is(column.kind) && column.class.0 == class.0,
        None => false,
    }
}

/// Whether a row is the `this` of a body.
pub fn is_this(facts: &Facts, v: RowId, d: ColId) -> bool
    ensures { result ≡ is_this facts.now v d }
{
    is_same_column(row_this(facts, v), Some(d))
}
