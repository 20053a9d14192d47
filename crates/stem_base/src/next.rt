//! The lectically next set that is closed under implications.

ghost use Rattle.std.specs.Prelude.{◌≡◌, ℕ, ◌<◌, ◌≤◌, false, length, All};
ghost use Rattle.std.specs.Bool.{OnTrue, OnFalse};
ghost use Rattle.kaba_bits.specs.Sets.{bit, IsSubset};
ghost use Rattle.stem_base.specs.Base.{IsClosedUnder, all_sides};
ghost use Rattle.stem_base.specs.Lectic.{IsStartBelow, IsTry, AddsNoneBelow, FailsAt, FailFrom, IsStepTo};
ghost use Rattle.stem_base.specs.Saturate.{IsWide};

use crate::implications::{Implication, closes_within};
use kaba_bits::BitRow;

/// Makes `x` the least closed set with the numbers of `a` below `i`, which are in `start`, and with `i`, and answers
/// whether that adds no number below `i`. Where it adds one, `x` is some part of it.
fn tried(base: &Vec<Implication>, a: &BitRow, start: &BitRow, i: u32, x: &mut BitRow) -> bool
    requires width { length x.old ≡ length a.now }
    requires sides { All (IsWide (length a.now)) base.now.items }
    requires start { IsStartBelow a.now i start.now }
    requires i { i < length a.now }
    requires lacks { bit a.now i ≡ false }
    ensures width { length x.new ≡ length a.now }
    ensures made { OnTrue result (IsTry (length a.now) a.now (all_sides base.now.items) i x.new) }
    ensures pass { OnTrue result (AddsNoneBelow a.now i x.new) }
    ensures fails { OnFalse result (FailsAt (length a.now) a.now (all_sides base.now.items) i) }
{
    x.clear();
    x.or_into(start);
    x.set(i);
    closes_within(base, a, i, x)
}

/// Makes `x` the next set after `a`, if there is one. `start` is `a` before and spoilt after.
pub fn next_set(base: &Vec<Implication>, a: &BitRow, start: &mut BitRow, x: &mut BitRow) -> bool
    requires width { length x.old ≡ length a.now }
    requires sides { All (IsWide (length a.now)) base.now.items }
    requires start { start.old ≡ a.now }
    ensures next { OnTrue result (IsStepTo (length a.now) a.now (all_sides base.now.items) x.new) }
    ensures none { OnFalse result (FailFrom (length a.now) a.now (all_sides base.now.items) 0) }
{
    let mut i = a.width();
    while i > 0 {
        i -= 1;
        start.remove(i);
        if !a.has(i) && tried(base, a, start, i, x) {
            return true;
        }
    }
    false
}
