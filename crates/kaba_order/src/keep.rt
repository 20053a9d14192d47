//! What of an order a join of nodes changes, kept and put back.

ghost use Rattle.std.specs.Prelude.{◌≡◌, ℕ, ◌<◌, ◌==◌, ◌&&◌, ◌||◌, not, true, length, All, IfOk};
ghost use Rattle.kaba_bits.specs.Sets.{bit, row, HasWidth};
ghost use Rattle.kaba_order.specs.Lower.{AreLower};
ghost use Rattle.kaba_order.specs.Orders.{has_any};
ghost use Rattle.kaba_order.specs.Written.{written};
ghost use Rattle.kaba_order.specs.Formers.{rows_at};

use crate::lower::{add_number, all_lower};
use crate::merge::has_some;
use kaba_base::NodeId;
use kaba_bits::{BitRow, row_at};
use std::alloc::{AllocError, Global};

/// What of an order was before nodes were joined: its live nodes, and the rows of the nodes at or below those.
#[derive(Drop)]
pub struct Former {
    /// The live nodes.
    pub live: BitRow,
    /// Rows with the numbers of their nodes.
    pub rows: Vec<(u32, BitRow)>,
}

/// Takes the number of a row out of a set, if the row has no node of a list.
fn keep_low(le: &[BitRow], set: &[NodeId], k: u32, low: &mut BitRow)
    requires row { k < length le.now }
    requires width { length low.old ≡ length le.now }
    requires set { All (λ s. s.0 < length le.now) set.now }
    requires widths { HasWidth (length le.now) le.now }
    ensures width { length low.new ≡ length low.old }
    ensures bits { (x : ℕ) → bit low.new x ≡ (bit low.old x && (not (x == k) || has_any (row le.now k) set.now)) }
{
    if !has_some(row_at(le, k as usize), set) {
        low.remove(k);
    }
}

/// Takes out of a set the numbers of the rows that have no node of a list. The set has those of all rows that have one.
#[tactic(auto, using(crate::proofs::LowerLemmas::kept_next, crate::proofs::LowerLemmas::kept_all))]
fn keep_lows(le: &[BitRow], set: &[NodeId], low: &mut BitRow)
    requires width { length low.old ≡ length le.now }
    requires set { All (λ s. s.0 < length le.now) set.now }
    requires widths { HasWidth (length le.now) le.now }
    requires low { (k : ℕ) → has_any (row le.now k) set.now ≡ true → bit low.old k ≡ true }
    ensures width { length low.new ≡ length low.old }
    ensures rows { (k : ℕ) → bit low.new k ≡ has_any (row le.now k) set.now }
{
    let _width = low.width();
    let mut at = 0;
    'scan: while let Some(k) = low.next(at) {
        keep_low(le, set, k, low);
        at = k + 1;
    }
}

/// The numbers of the rows that have some node of a list, by sets that have for each node those of all rows with it. An
/// error comes only for want of memory.
#[tactic(auto, using(crate::proofs::LowerLemmas::lower_some))]
pub fn rows_with(
    alloc: Global,
    le: &[BitRow],
    lower: &[BitRow],
    set: &[NodeId],
    count: u32,
) -> Result<BitRow, AllocError>
    requires count { length le.now ≡ count }
    requires set { All (λ s. s.0 < length le.now) set.now }
    requires widths { HasWidth (length le.now) le.now }
    requires lower { AreLower le.now lower.now }
    ensures width { IfOk result (λ low. length low ≡ length le.now) }
    ensures rows { IfOk result (λ low. (k : ℕ) → bit low k ≡ has_any (row le.now k) set.now) }
{
    let mut low = all_lower(alloc, lower, set, count)?;
    keep_lows(le, set, &mut low);
    Ok(low)
}

/// The rows of which a set has the numbers, with these. An error comes only for want of memory.
pub fn rows_at(alloc: Global, le: &[BitRow], low: &BitRow) -> Result<Vec<(u32, BitRow)>, AllocError>
    requires width { length low.now ≡ length le.now }
    ensures { IfOk result (λ v. v.items ≡ rows_at le.now low.now) }
{
    let _width = low.width();
    let mut rows = Vec::new(alloc);
    let mut at = 0;
    'scan: while let Some(k) = low.next(at) {
        rows.push((k, row_at(le, k as usize).copy(alloc)?))?;
        at = k + 1;
    }
    Ok(rows)
}

/// Puts rows back in their places, the last first, and the number of each into the sets at the places of which it has the
/// numbers.
pub fn put_rows(le: &mut [BitRow], lower: &mut [BitRow], rows: Vec<(u32, BitRow)>)
    requires fits { All (λ x. x.0 < length le.old) rows.items }
    requires lower { AreLower le.old lower.old }
    ensures le { le.new ≡ written le.old rows.items }
    ensures lower { AreLower le.new lower.new }
{
    let mut left = rows;
    'back: while let Some((k, row)) = left.pop() {
        add_number(lower, &row, k);
        le[k as usize] = row;
    }
}
