//! For each node of an order a set with those at or below it, which may have others.

ghost use Rattle.std.specs.Prelude.{◌≡◌, ℕ, ◌<◌, true, length, IfOk, All};
ghost use Rattle.kaba_bits.specs.Sets.{bit, HasWidth};
ghost use Rattle.kaba_order.specs.Orders.{any_has};
ghost use Rattle.kaba_order.specs.Lower.{AreLower, HaveGained};

use kaba_base::NodeId;
use kaba_bits::{BitRow, empty_rows, join_with, row_at, set_at};
use std::alloc::{AllocError, Global};

/// Adds a number to the set at a place, if there is one.
pub fn add_at(lower: &mut [BitRow], a: u32, b: u32)
    requires a { a < length lower.old }
    requires widths { HasWidth (length lower.old) lower.old }
    ensures { HaveGained (λ x y. (x ≡ a) × (y ≡ b)) lower.old lower.new }
{
    if (b as usize) < lower.len() {
        set_at(lower, b as usize, a);
    }
}

/// Adds a number to the sets at the places of which another has the numbers.
#[tactic(auto, using(crate::proofs::LowerLemmas::scan_next, crate::proofs::LowerLemmas::scan_all))]
pub fn add_number(lower: &mut [BitRow], above: &BitRow, a: u32)
    requires a { a < length lower.old }
    requires widths { HasWidth (length lower.old) lower.old }
    ensures { HaveGained (λ x y. (x ≡ a) × (bit above.now y ≡ true)) lower.old lower.new }
{
    let _width = above.width();
    let mut at = 0;
    'scan: while let Some(b) = above.next(at) {
        add_at(lower, a, b);
        at = b + 1;
    }
}

/// Adds a set to those at the places of which another has the numbers.
#[tactic(auto, using(crate::proofs::LowerLemmas::scan_all))]
pub fn add_set(lower: &mut [BitRow], above: &BitRow, low: &BitRow)
    requires above { length above.now ≡ length lower.old }
    requires low { length low.now ≡ length lower.old }
    requires widths { HasWidth (length lower.old) lower.old }
    ensures { HaveGained (λ x y. (bit low.now x ≡ true) × (bit above.now y ≡ true)) lower.old lower.new }
{
    let _width = above.width();
    let mut at = 0;
    'scan: while let Some(b) = above.next(at) {
        join_with(lower, b as usize, low);
        at = b + 1;
    }
}

/// Adds the number of each row to the sets at the places of which it has the numbers.
fn add_rows(lower: &mut [BitRow], le: &[BitRow], count: u32)
    requires count { length le.now ≡ count }
    requires len { length lower.old ≡ count }
    requires widths { HasWidth (length lower.old) lower.old }
    ensures { AreLower le.now lower.new }
{
    for a in 0..count {
        add_number(lower, row_at(le, a as usize), a);
    }
}

/// Such sets for some rows. An error comes only for want of memory.
pub fn lower_of(alloc: Global, le: &[BitRow], count: u32) -> Result<Vec<BitRow>, AllocError>
    requires count { length le.now ≡ count }
    ensures { IfOk result (λ v. AreLower le.now v.items) }
{
    let mut lower = empty_rows(alloc, count as usize, count)?;
    add_rows(&mut lower, le, count);
    Ok(lower)
}

/// All that the sets of some nodes have. An error comes only for want of memory.
#[tactic(auto, unfolding(crate::specs::Orders::any_has))]
pub fn all_lower(
    alloc: Global,
    lower: &[BitRow],
    set: &[NodeId],
    count: u32,
) -> Result<BitRow, AllocError>
    requires count { length lower.now ≡ count }
    requires set { All (λ s. s.0 < length lower.now) set.now }
    requires widths { HasWidth (length lower.now) lower.now }
    ensures width { IfOk result (λ low. length low ≡ count) }
    ensures bits { IfOk result (λ low. (x : ℕ) → bit low x ≡ any_has lower.now set.now x) }
{
    let mut low = BitRow::new(alloc, count)?;
    for s in set {
        low.or_into(row_at(lower, s.0 as usize));
    }
    Ok(low)
}
