//! The steps on the rows of an order.

ghost use Rattle.std.specs.Prelude.{◌≡◌, ℕ, ◌<◌, ◌&&◌, ◌||◌, ◌==◌, not, true, length, IfOk};
ghost use Rattle.kaba_bits.specs.Sets.{bit, row, HasWidth};

use kaba_bits::{BitRow, join};
use std::alloc::{AllocError, Global};

/// Rows in which each number has itself alone.
pub fn diagonal(alloc: Global, count: u32) -> Result<Vec<BitRow>, AllocError>
    ensures len { IfOk result (λ v. length v.items ≡ count) }
    ensures widths { IfOk result (λ v. HasWidth count v.items) }
    ensures bits { IfOk result (λ v. (a b : ℕ) → a < count → bit (row v.items a) b ≡ (a == b)) }
{
    let mut rows = Vec::new(alloc);
    for a in 0..count {
        let mut row = BitRow::new(alloc, count)?;
        row.set(a);
        rows.push(row)?;
    }
    Ok(rows)
}

/// Adds the row `p` to each row of which a set has the number.
pub fn spread(le: &mut [BitRow], low: &BitRow, p: u32)
    requires p { p < length le.old }
    requires width { length low.now ≡ length le.old }
    requires widths { HasWidth (length le.old) le.old }
    ensures len { length le.new ≡ length le.old }
    ensures widths { HasWidth (length le.old) le.new }
    ensures rows { (a b : ℕ) → bit (row le.new a) b ≡ (bit (row le.old a) b || (bit low.now a && bit (row le.old p) b)) }
{
    let _width = low.width();
    let mut at = 0;
    'scan: while let Some(a) = low.next(at) {
        join(le, p as usize, a as usize);
        at = a + 1;
    }
}

/// Takes `n` out of each row of which a set has the number. The set has those of all rows with `n`.
fn forget(le: &mut [BitRow], low: &BitRow, n: u32)
    requires n { n < length le.old }
    requires width { length low.now ≡ length le.old }
    requires low { (a : ℕ) → bit (row le.old a) n ≡ true → bit low.now a ≡ true }
    requires widths { HasWidth (length le.old) le.old }
    ensures len { length le.new ≡ length le.old }
    ensures widths { HasWidth (length le.old) le.new }
    ensures rows { (a b : ℕ) → bit (row le.new a) b ≡ (bit (row le.old a) b && not (b == n)) }
{
    let _width = low.width();
    let mut at = 0;
    'scan: while let Some(a) = low.next(at) {
        let row = &mut le[a as usize];
        row.remove(n);
        at = a + 1;
    }
}

/// Takes `n` out of each row of which a set has the number, and all out of its own. The set has those of all rows with `n`.
pub fn drop_from(le: &mut [BitRow], low: &BitRow, n: u32)
    requires n { n < length le.old }
    requires width { length low.now ≡ length le.old }
    requires low { (a : ℕ) → bit (row le.old a) n ≡ true → bit low.now a ≡ true }
    requires widths { HasWidth (length le.old) le.old }
    ensures len { length le.new ≡ length le.old }
    ensures widths { HasWidth (length le.old) le.new }
    ensures rows { (a b : ℕ) → bit (row le.new a) b ≡ (bit (row le.old a) b && not (a == n) && not (b == n)) }
{
    forget(le, low, n);
    let row = &mut le[n as usize];
    row.clear();
}

/// Adds the numbers of one set that are not in another to a third one of the same width.
pub fn add_missing(set: &mut BitRow, row: &BitRow, other: &BitRow)
    requires row { length row.now ≡ length set.old }
    requires other { length other.now ≡ length set.old }
    ensures width { length set.new ≡ length set.old }
    ensures bits { (b : ℕ) → bit set.new b ≡ (bit set.old b || (bit row.now b && not (bit other.now b))) }
{
    let _width = row.width();
    let mut at = 0;
    'scan: while let Some(b) = row.next_beyond(other, at) {
        set.set(b);
        at = b + 1;
    }
}
