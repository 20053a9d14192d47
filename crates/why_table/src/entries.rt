//! The tests of the rules T1 to T11 of the table (after Snelting and Tip, 2000).

ghost use Rattle.std.specs.Prelude.{◌≡◌};
ghost use Rattle.fact_model.specs.InRange.{InRange};
ghost use Rattle.why_table.specs.Tests.{is_declared_by, are_alike, hides, is_point_row, is_cell_row, is_place, is_access, is_accessed, test_t1, test_t2, is_need, has_need, test_t3, test_t4, test_t5, test_t6, test_t7, is_tie, test_t8, test_t9, test_t10, is_test, is_array, has_test, has_array, test_t11};

use crate::items::{
    column_class, column_kind, column_of, column_slot, is_below, is_dcl, is_fld, is_found, is_mark,
    is_same, is_same_slot, is_this, row_of, site_at, site_of,
};
use crate::trail::Claim;
use fact_model::{AccessInfo, CallInfo, Facts, SiteInfo, TestInfo, TieInfo, is_def};
use kaba_base::{ColId, RowId};

/// Whether a column declares the method whose body another is, in the same class.
fn is_declared_by(facts: &Facts, d: ColId, c: ColId) -> bool
    ensures { result ≡ is_declared_by facts.now d c }
{
    is_def(column_kind(facts, d))
        && is_dcl(column_kind(facts, c))
        && column_class(facts, d).0 == column_class(facts, c).0
        && is_same_slot(column_slot(facts, d), column_slot(facts, c))
}

/// Whether two columns are both bodies or both declarations.
fn are_alike(facts: &Facts, d: ColId, c: ColId) -> bool
    ensures { result ≡ are_alike facts.now d c }
{
    let lower = column_kind(facts, d);
    let upper = column_kind(facts, c);
    (is_def(lower) && is_def(upper)) || (is_dcl(lower) && is_dcl(upper))
}

/// Whether a column hides another: of one kind and slot, the class of the one strictly below that of the other.
fn hides(facts: &Facts, d: ColId, c: ColId) -> bool
    requires { InRange facts.now }
    ensures { result ≡ hides facts.now d c }
{
    let lower = column_class(facts, d);
    let upper = column_class(facts, c);
    are_alike(facts, d, c)
        && is_same_slot(column_slot(facts, d), column_slot(facts, c))
        && lower.0 != upper.0
        && is_below(facts, lower, upper)
}

/// Whether a row is that of a point.
fn is_point_row(facts: &Facts, p: u32, v: RowId) -> bool
    ensures { result ≡ is_point_row facts.now p v }
{
    match facts.points.get(p as usize) {
        Some(row) => row.0 == v.0,
        None => false,
    }
}

/// Whether a row is that of a cell.
fn is_cell_row(facts: &Facts, c: u32, v: RowId) -> bool
    ensures { result ≡ is_cell_row facts.now c v }
{
    match facts.cells.get(c as usize) {
        Some(cell) => cell.row.0 == v.0,
        None => false,
    }
}

/// Whether a row is that of the point or of the cell of a claim.
fn is_place(facts: &Facts, p: Claim, v: RowId) -> bool
    ensures { result ≡ is_place facts.now p v }
{
    match p {
        Claim::InPoint(k, _) => is_point_row(facts, k, v),
        Claim::InCell(k, _) => is_cell_row(facts, k, v),
        Claim::Entry(_, _) => false,
    }
}

/// Whether an access is the claim's.
fn is_access(claim: Claim, x: &AccessInfo) -> bool
    ensures { result ≡ is_access claim x.now }
{
    is_same(claim, Claim::Entry(x.row, x.column))
}

/// Whether some access is the claim's.
fn is_accessed(facts: &Facts, claim: Claim) -> bool
    ensures { result ≡ is_accessed facts.now claim }
{
    facts.accesses.iter().any(|x| is_access(claim, x))
}

/// T1: the access of a field.
pub fn test_t1(facts: &Facts, claim: Claim) -> bool
    ensures { result ≡ test_t1 facts.now claim }
{
    is_fld(column_kind(facts, column_of(claim))) && is_accessed(facts, claim)
}

/// T2: the declaration of a method that is called.
pub fn test_t2(facts: &Facts, claim: Claim) -> bool
    ensures { result ≡ test_t2 facts.now claim }
{
    is_dcl(column_kind(facts, column_of(claim))) && is_accessed(facts, claim)
}

/// Whether a call runs the claim's body on the site of its receiver.
fn is_need(facts: &Facts, p: Claim, claim: Claim, call: &CallInfo) -> bool
    requires { InRange facts.now }
    ensures { result ≡ is_need facts.now p claim call.now }
{
    is_same(p, Claim::InPoint(call.receiver, site_of(p)))
        && is_found(facts, site_of(p), call.slot, column_of(claim))
}

/// Whether some call does.
fn has_need(facts: &Facts, p: Claim, claim: Claim) -> bool
    requires { InRange facts.now }
    ensures { result ≡ has_need facts.now p claim }
{
    facts
        .calls
        .iter()
        .any(|call| is_need(facts, p, claim, call))
}

/// T3: the body that a site in the receiver of a call runs.
pub fn test_t3(facts: &Facts, p: Claim, claim: Claim) -> bool
    requires { InRange facts.now }
    ensures { result ≡ test_t3 facts.now p claim }
{
    is_same(
        claim,
        Claim::Entry(site_at(facts, site_of(p)).row, column_of(claim)),
    ) && has_need(facts, p, claim)
}

/// T4: the body of a method, for its `this`.
pub fn test_t4(facts: &Facts, claim: Claim) -> bool
    ensures { result ≡ test_t4 facts.now claim }
{
    let r = row_of(claim);
    let c = column_of(claim);
    is_same(claim, Claim::Entry(r, c)) && is_this(facts, r, c)
}

/// T5: the declaration of a body.
pub fn test_t5(facts: &Facts, p: Claim, claim: Claim) -> bool
    ensures { result ≡ test_t5 facts.now p claim }
{
    let r = row_of(claim);
    let d = column_of(p);
    let c = column_of(claim);
    is_same(p, Claim::Entry(r, d))
        && is_same(claim, Claim::Entry(r, c))
        && is_declared_by(facts, d, c)
}

/// T6: the columns of the `this` of a body.
pub fn test_t6(facts: &Facts, p: Claim, q: Claim, claim: Claim) -> bool
    ensures { result ≡ test_t6 facts.now p q claim }
{
    let r = row_of(claim);
    let v = row_of(q);
    let d = column_of(p);
    let c = column_of(claim);
    is_same(p, Claim::Entry(r, d))
        && is_same(q, Claim::Entry(v, c))
        && is_same(claim, Claim::Entry(r, c))
        && is_this(facts, v, d)
}

/// T7: the body that a super call runs.
pub fn test_t7(facts: &Facts, claim: Claim) -> bool
    ensures { result ≡ test_t7 facts.now claim }
{
    facts
        .supers
        .iter()
        .any(|x| is_same(claim, Claim::Entry(x.row, x.column)))
}

/// Whether a tie gives the claim.
fn is_tie(p: Claim, claim: Claim, x: &TieInfo) -> bool
    ensures { result ≡ is_tie p claim x.now }
{
    let c = column_of(claim);
    is_same(p, Claim::Entry(x.upper, c)) && is_same(claim, Claim::Entry(x.lower, c))
}

/// T8: the columns of the upper row of a tie.
pub fn test_t8(facts: &Facts, p: Claim, claim: Claim) -> bool
    ensures { result ≡ test_t8 facts.now p claim }
{
    facts.ties.iter().any(|x| is_tie(p, claim, x))
}

/// T9: the columns of a row, for a site in one of its points or cells.
pub fn test_t9(facts: &Facts, p: Claim, q: Claim, claim: Claim) -> bool
    ensures { result ≡ test_t9 facts.now p q claim }
{
    let v = row_of(q);
    let c = column_of(claim);
    is_same(q, Claim::Entry(v, c))
        && is_same(claim, Claim::Entry(site_at(facts, site_of(p)).row, c))
        && is_place(facts, p, v)
}

/// T10: the member that another one hides.
pub fn test_t10(facts: &Facts, p: Claim, q: Claim, r: Claim, claim: Claim) -> bool
    requires { InRange facts.now }
    ensures { result ≡ test_t10 facts.now p q r claim }
{
    let v = row_of(p);
    let d = column_of(r);
    let c = column_of(claim);
    is_same(p, Claim::Entry(v, d))
        && is_same(q, Claim::Entry(v, c))
        && is_same(r, Claim::Entry(row_of(claim), d))
        && is_same(claim, Claim::Entry(row_of(claim), c))
        && hides(facts, d, c)
}

/// Whether a tested type has the claim's mark.
fn is_test(facts: &Facts, claim: Claim, x: &TestInfo) -> bool
    ensures { result ≡ is_test facts.now claim x.now }
{
    let c = column_of(claim);
    is_same(claim, Claim::Entry(x.target, c)) && is_mark(facts, x.class, c)
}

/// Whether the base of an array site has the claim's mark.
fn is_array(facts: &Facts, claim: Claim, s: &SiteInfo) -> bool
    ensures { result ≡ is_array facts.now claim s.now }
{
    let c = column_of(claim);
    is_same(claim, Claim::Entry(s.row, c)) && 0 < s.dim && is_mark(facts, s.class, c)
}

/// Whether some tested type has it.
fn has_test(facts: &Facts, claim: Claim) -> bool
    ensures { result ≡ has_test facts.now claim }
{
    facts.tests.iter().any(|x| is_test(facts, claim, x))
}

/// Whether the base of some array site has it.
fn has_array(facts: &Facts, claim: Claim) -> bool
    ensures { result ≡ has_array facts.now claim }
{
    facts.sites.iter().any(|s| is_array(facts, claim, s))
}

/// T11: the mark of a tested type or of an array's base.
pub fn test_t11(facts: &Facts, claim: Claim) -> bool
    ensures { result ≡ test_t11 facts.now claim }
{
    has_test(facts, claim) || has_array(facts, claim)
}
