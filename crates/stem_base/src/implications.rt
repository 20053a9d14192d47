//! Implications, and the least set closed under them.

ghost use Rattle.std.specs.Prelude.{◌≡◌, ◌<◌, All, length, slice_index_or};
ghost use Rattle.std.specs.Bool.{OnTrue, OnFalse};
ghost use Rattle.kaba_bits.specs.Sets.{IsSubset};
ghost use Rattle.stem_base.specs.Lectic.{AddsNoneBelow, AddsBelow};
ghost use Rattle.stem_base.specs.Base.{Respects, IsClosedUnder, sides_of, all_sides};
ghost use Rattle.stem_base.specs.declared.implications.Implication.{Implication};
ghost use Rattle.stem_base.specs.Saturate.{IsWide, IsWithinClosed, ClosesInPart, IsSaturated};

use kaba_bits::BitRow;

/// Where all of `left` is, all of `right` is.
#[derive(Drop)]
pub struct Implication {
    pub left: BitRow,
    pub right: BitRow,
}

/// Adds what one implication wants of a set, and answers whether that grew.
fn apply(x: &Implication, set: &mut BitRow) -> bool
    requires { IsWide (length set.old) x.now }
    ensures { ClosesInPart (λ Y. Respects Y (sides_of x.now)) set.old set.new result }
{
    if x.left.is_subset(set) {
        return set.or_into(&x.right);
    }
    false
}

/// The same of each implication of a list.
fn round(base: &[Implication], set: &mut BitRow) -> bool
    requires { All (IsWide (length set.old)) base.now }
    ensures { ClosesInPart (IsClosedUnder (all_sides base.now)) set.old set.new result }
{
    let mut grew = false;
    for x in base {
        grew |= apply(x, set);
    }
    grew
}

/// Makes a set the least one that holds it and is closed under the implications.
pub fn saturate(base: &Vec<Implication>, set: &mut BitRow)
    requires { All (IsWide (length set.old)) base.now.items }
    ensures { IsSaturated (all_sides base.now.items) set.old set.new }
{
    while round(base, set) {}
}

/// Whether a set has a number below `i` that another of the same width lacks.
fn is_past(set: &BitRow, a: &BitRow, i: u32) -> bool
    requires { length set.now ≡ length a.now }
    ensures past { OnTrue result (AddsBelow a.now i set.now) }
    ensures none { OnFalse result (AddsNoneBelow a.now i set.now) }
{
    match set.next_beyond(a, 0) {
        Some(k) => k < i,
        None => false,
    }
}

/// One of the implications.
fn implication_at(base: &[Implication], k: usize) -> &Implication
    requires { k < length base.now }
    ensures { (d : Implication) → result.now ≡ slice_index_or base.now k d }
{
    &base[k]
}

/// Adds what the implications want of a set, the last one first, and answers whether that grew. It ends as soon as the
/// set has a number below `i` that another lacks.
fn round_within(base: &[Implication], a: &BitRow, i: u32, set: &mut BitRow) -> bool
    requires sides { All (IsWide (length set.old)) base.now }
    requires width { length set.old ≡ length a.now }
    ensures { ClosesInPart (IsClosedUnder (all_sides base.now)) set.old set.new result }
{
    let mut grew = false;
    let mut k = base.len();
    while k > 0 {
        k -= 1;
        if apply(implication_at(base, k), set) {
            grew = true;
            if is_past(set, a, i) {
                return true;
            }
        }
    }
    grew
}

/// Makes a set the least one that holds it and is closed under the implications, and answers whether that has no number
/// below `i` that another set lacks. The newest implications, which tell most, come first; as soon as there is such a
/// number, the set is left as it then is.
pub fn closes_within(base: &Vec<Implication>, a: &BitRow, i: u32, set: &mut BitRow) -> bool
    requires sides { All (IsWide (length set.old)) base.now.items }
    requires width { length set.old ≡ length a.now }
    requires start { AddsNoneBelow a.now i set.old }
    ensures width { length set.new ≡ length set.old }
    ensures holds { IsSubset set.old set.new }
    ensures least { IsWithinClosed (IsClosedUnder (all_sides base.now.items)) set.old set.new }
    ensures closed { OnTrue result (IsClosedUnder (all_sides base.now.items) set.new) }
    ensures within { OnTrue result (AddsNoneBelow a.now i set.new) }
    ensures past { OnFalse result (AddsBelow a.now i set.new) }
{
    while round_within(base, a, i, set) {
        if is_past(set, a, i) {
            return false;
        }
    }
    true
}
