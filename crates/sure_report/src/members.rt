//! Members that no run reaches.

ghost use Rattle.std.specs.Prelude.{◌≡◌, ◌↔◌, ℕ, ◌<◌, IfOk, IsTrue, true, All, length, map};
ghost use Rattle.kaba_bits.specs.Sets.{ListsBelow, bit, row};
ghost use Rattle.fact_model.specs.InRange.{InRange, IsCol, IsPoint, IsRow};
ghost use Rattle.fact_model.specs.Flowing.{AreSets};
ghost use Rattle.sure_report.specs.Found.{IsBodyLeft, IsAccessLeft};
ghost use Rattle.sure_report.specs.Report.{IsDead};

use fact_model::{AccessInfo, BodyInfo, ColKind, Facts, PointsTo};
use kaba_base::ColId;
use kaba_bits::BitRow;
use std::alloc::{AllocError, Global};

/// The columns of the bodies and fields that no run reaches, rising.
pub fn dead_members(alloc: Global, facts: &Facts, pt: &PointsTo) -> Result<Vec<ColId>, AllocError>
    requires facts { InRange facts.now }
    requires sets { AreSets facts.now pt.now }
    ensures { IfOk result (λ v. ListsBelow (IsDead facts.now pt.now) (length facts.now.columns.items) (map (λ c. c.0) v.items)) }
{
    let mut dead = Vec::new(alloc);
    for c in 0..facts.columns.len() as u32 {
        if is_dead(facts, pt, ColId(c)) {
            dead.push(ColId(c))?;
        }
    }
    Ok(dead)
}

/// Whether no run reaches the member of a column.
fn is_dead(facts: &Facts, pt: &PointsTo, c: ColId) -> bool
    requires facts { InRange facts.now }
    requires sets { AreSets facts.now pt.now }
    requires column { IsCol facts.now c }
    ensures { IsTrue result ↔ IsDead facts.now pt.now c.0 }
{
    match facts.columns[c.0 as usize].kind {
        ColKind::Def => has_no_this(facts, pt, c),
        ColKind::Fld => has_no_access(facts, pt, c),
        ColKind::Dcl => false,
        ColKind::Is => false,
    }
}

/// Whether the body of a column has a `this` with an empty set.
fn has_no_this(facts: &Facts, pt: &PointsTo, c: ColId) -> bool
    requires facts { InRange facts.now }
    requires sets { AreSets facts.now pt.now }
    ensures { IsTrue result ↔ All (IsBodyLeft pt.now c.0) facts.now.bodies.items }
{
    for b in &facts.bodies {
        if !is_body_left(facts, pt, c, b) {
            return false;
        }
    }
    true
}

/// Whether a body is not of a column, or its `this` has an empty set.
fn is_body_left(facts: &Facts, pt: &PointsTo, c: ColId, b: &BodyInfo) -> bool
    requires sets { AreSets facts.now pt.now }
    requires this { IsPoint facts.now b.now.this }
    ensures { IsTrue result ↔ IsBodyLeft pt.now c.0 b.now }
{
    if b.column.0 == c.0 {
        is_left(&pt.points, b.this)
    } else {
        true
    }
}

/// Whether no row that accesses the field of a column has a site in its set.
fn has_no_access(facts: &Facts, pt: &PointsTo, c: ColId) -> bool
    requires facts { InRange facts.now }
    requires sets { AreSets facts.now pt.now }
    ensures { IsTrue result ↔ All (IsAccessLeft pt.now c.0) facts.now.accesses.items }
{
    for a in &facts.accesses {
        if !is_access_left(facts, pt, c, a) {
            return false;
        }
    }
    true
}

/// Whether an access is not of a column, or its row has an empty set.
fn is_access_left(facts: &Facts, pt: &PointsTo, c: ColId, a: &AccessInfo) -> bool
    requires sets { AreSets facts.now pt.now }
    requires row { IsRow facts.now a.now.row }
    ensures { IsTrue result ↔ IsAccessLeft pt.now c.0 a.now }
{
    if a.column.0 == c.0 {
        is_left(&pt.rows, a.row.0)
    } else {
        true
    }
}

/// Whether no number is in a set of a family.
fn is_left(sets: &Vec<BitRow>, k: u32) -> bool
    requires { k < length sets.now.items }
    ensures { IsTrue result ↔ ((s : ℕ) → bit (row sets.now.items k) s ≡ true → ⊥) }
{
    is_empty_set(&sets[k as usize])
}

/// Whether no number is in a set.
fn is_empty_set(set: &BitRow) -> bool
    ensures { IsTrue result ↔ ((s : ℕ) → bit set.now s ≡ true → ⊥) }
{
    set.is_empty()
}
