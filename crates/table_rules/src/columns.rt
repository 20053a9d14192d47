//! Tests of columns, rows and sites.

ghost use Rattle.std.specs.Prelude.{◌≡◌, ℕ, ◌<◌, ◌↔◌, ◌⊎◌, true, length, IsTrue};
ghost use Rattle.fact_model.specs.Items.{column_slot, row_at, site_at, IsColumn};
ghost use Rattle.fact_model.specs.Classes.{IsStrictSubclass};
ghost use Rattle.fact_model.specs.declared.facts.ColKind.TheVariants.{Dcl, Def, Is};
ghost use Rattle.table_rules.specs.Words.{bit, row, column_at, row_this, InRange, IsDeclaredBy, Hides, IsAboveRow, IsMethodColumn};

use fact_model::{ColKind, ColumnInfo, Facts, SiteInfo};
use kaba_base::{ClassId, ColId};
use kaba_bits::BitRow;
use points_to::is_below;

/// One column.
fn column_at(facts: &Facts, c: u32) -> &ColumnInfo
    requires { c < length facts.now.columns.items }
    ensures { result.now ≡ column_at facts.now c }
{
    &facts.columns[c as usize]
}

/// One site.
pub fn site_at(facts: &Facts, s: u32) -> SiteInfo
    requires { s < length facts.now.sites.items }
    ensures { result ≡ site_at facts.now s }
{
    facts.sites[s as usize]
}

/// The body whose `this` a row is.
pub fn this_of(facts: &Facts, r: usize) -> Option<ColId>
    requires { r < length facts.now.rows.items }
    ensures { result ≡ row_this facts.now r }
{
    facts.rows[r].this_of
}

/// Whether two kinds are one.
fn is_same_kind(a: ColKind, b: ColKind) -> bool
    ensures { IsTrue result ↔ (a ≡ b) }
{
    a == b
}

/// Whether two slots are one.
fn is_same_slot(a: Option<u32>, b: Option<u32>) -> bool
    ensures { IsTrue result ↔ (a ≡ b) }
{
    a == b
}

/// Whether two classes are one.
fn is_same_class(a: ClassId, b: ClassId) -> bool
    ensures { IsTrue result ↔ (a.0 ≡ b.0) }
{
    a.0 == b.0
}

/// Whether a kind is that of a method's declaration or body.
fn is_member(kind: ColKind) -> bool
    ensures { IsTrue result ↔ ((kind ≡ ColKind.Def) ⊎ (kind ≡ ColKind.Dcl)) }
{
    is_same_kind(kind, ColKind::Def) || is_same_kind(kind, ColKind::Dcl)
}

/// Whether a column is that of a method's declaration or body.
pub fn is_method(facts: &Facts, c: u32) -> bool
    requires { c < length facts.now.columns.items }
    ensures { IsTrue result ↔ IsMethodColumn facts.now c }
{
    is_member(column_at(facts, c).kind)
}

/// The slot of a column.
pub fn slot_of(facts: &Facts, c: u32) -> Option<u32>
    requires { c < length facts.now.columns.items }
    ensures { result ≡ column_slot facts.now c }
{
    column_at(facts, c).slot
}

/// Whether a column is the mark of a class.
pub fn is_mark(facts: &Facts, class: ClassId, c: u32) -> bool
    requires { c < length facts.now.columns.items }
    ensures { IsTrue result ↔ IsColumn facts.now ColKind.Is class.0 c }
{
    let column = column_at(facts, c);
    is_same_kind(column.kind, ColKind::Is) && is_same_class(column.class, class)
}

/// Whether a class is strictly below another; the row has what is at or above the one.
fn is_strictly_below(facts: &Facts, above: &BitRow, a: ClassId, b: ClassId) -> bool
    requires facts { InRange facts.now }
    requires above { IsAboveRow facts.now a.0 above.now }
    ensures { IsTrue result ↔ IsStrictSubclass facts.now a.0 b.0 }
{
    !is_same_class(a, b) && is_below(facts, above, a, b)
}

/// Whether the column `c` declares the method whose body `d` is, in the same class.
pub fn is_declared_by(facts: &Facts, d: u32, c: u32) -> bool
    requires body { d < length facts.now.columns.items }
    requires declaration { c < length facts.now.columns.items }
    ensures { IsTrue result ↔ IsDeclaredBy facts.now d c }
{
    let body = column_at(facts, d);
    let other = column_at(facts, c);
    is_same_kind(body.kind, ColKind::Def)
        && is_same_kind(other.kind, ColKind::Dcl)
        && is_same_class(body.class, other.class)
        && is_same_slot(body.slot, other.slot)
}

/// Whether the column `d` hides the column `c`: members of one kind and slot, the class of `d` strictly below. The row has the classes
/// at or above that of `d`.
pub fn hides(facts: &Facts, above: &BitRow, d: u32, c: u32) -> bool
    requires facts { InRange facts.now }
    requires above { IsAboveRow facts.now (column_at facts.now d).class.0 above.now }
    requires lower { d < length facts.now.columns.items }
    requires upper { c < length facts.now.columns.items }
    ensures { IsTrue result ↔ Hides facts.now d c }
{
    let lower = column_at(facts, d);
    let upper = column_at(facts, c);
    is_member(lower.kind)
        && is_same_kind(lower.kind, upper.kind)
        && is_same_slot(lower.slot, upper.slot)
        && is_strictly_below(facts, above, lower.class, upper.class)
}
