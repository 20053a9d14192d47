//! Making one node of several.

ghost use Rattle.std.specs.Prelude.{◌≡◌, ◌≢◌, ℕ, ◌<◌, ◌&&◌, ◌||◌, ◌==◌, true, length, All};
ghost use Rattle.kaba_bits.specs.Sets.{bit, row, HasWidth};
ghost use Rattle.kaba_order.specs.Lower.{AreLower};
ghost use Rattle.kaba_order.specs.Orders.{is_among, has_any, any_has, stays, AreAsWide, IsLeastOf};

use crate::lower::add_set;
use crate::rows::{drop_from, spread};
use kaba_base::NodeId;
use kaba_bits::{BitRow, join, row_at};

/// Whether a number is that of a node of the list.
pub fn is_among(set: &[NodeId], x: u32) -> bool
    ensures { result ≡ is_among set.now x }
{
    for s in set {
        if x == s.0 {
            return true;
        }
    }
    false
}

/// The least node of a list.
pub fn least_of(set: &[NodeId]) -> NodeId
    requires { 0 < length set.now }
    ensures { IsLeastOf set.now result.0 }
{
    let mut least = set[0];
    for s in set {
        if s.0 < least.0 {
            least = *s;
        }
    }
    least
}

/// Whether a row has some node of the list.
#[tactic(auto, unfolding(crate::specs::Orders::has_any))]
pub fn has_some(row: &BitRow, set: &[NodeId]) -> bool
    requires { All (λ s. s.0 < length row.now) set.now }
    ensures { result ≡ has_any row.now set.now }
{
    for s in set {
        if row.has(s.0) {
            return true;
        }
    }
    false
}

/// Whether the row of some node of the list has a number.
#[tactic(auto, unfolding(crate::specs::Orders::any_has))]
pub fn some_has(le: &[BitRow], set: &[NodeId], x: u32) -> bool
    requires set { All (λ s. s.0 < length le.now) set.now }
    requires x { x < length le.now }
    requires widths { HasWidth (length le.now) le.now }
    ensures { result ≡ any_has le.now set.now x }
{
    for s in set {
        if row_at(le, s.0 as usize).has(x) {
            return true;
        }
    }
    false
}

/// Adds the rows of a list to the row `m`.
#[tactic(auto, unfolding(crate::specs::Orders::any_has))]
fn gather(le: &mut [BitRow], set: &[NodeId], m: u32)
    requires m { m < length le.old }
    requires set { All (λ s. s.0 < length le.old) set.now }
    requires widths { HasWidth (length le.old) le.old }
    ensures size { AreAsWide le.old le.new }
    ensures others { (k : ℕ) → k ≢ m → row le.new k ≡ row le.old k }
    ensures gathered { (b : ℕ) → bit (row le.new m) b ≡ (bit (row le.old m) b || any_has le.old set.now b) }
{
    for s in set {
        join(le, s.0 as usize, m as usize);
    }
}

/// Takes the nodes of a list out, but for `m`. A set has the numbers of all rows with one of them.
#[tactic(auto, using(crate::proofs::ListLemmas::stays_same, crate::proofs::ListLemmas::stays_less))]
fn drop_others(le: &mut [BitRow], set: &[NodeId], low: &BitRow, m: u32)
    requires set { All (λ s. s.0 < length le.old) set.now }
    requires width { length low.now ≡ length le.old }
    requires low { (a : ℕ) → has_any (row le.old a) set.now ≡ true → bit low.now a ≡ true }
    requires widths { HasWidth (length le.old) le.old }
    ensures size { AreAsWide le.old le.new }
    ensures rows { (a b : ℕ) → bit (row le.new a) b ≡ (bit (row le.old a) b && stays set.now m a && stays set.now m b) }
{
    for s in set {
        if s.0 != m {
            drop_from(le, low, s.0);
        }
    }
}

/// Takes the nodes of a list out of a set, but for `m`.
pub fn keep_one(live: &mut BitRow, set: &[NodeId], m: u32)
    requires { All (λ s. s.0 < length live.old) set.now }
    ensures len { length live.new ≡ length live.old }
    ensures bits { (a : ℕ) → bit live.new a ≡ (bit live.old a && stays set.now m a) }
{
    for s in set {
        if s.0 != m {
            live.remove(s.0);
        }
    }
}

/// Makes the node `m` of a list stand for all of it, in the closed order. A set has the numbers of the rows with some
/// node of the list.
pub fn merge_rows(le: &mut [BitRow], lower: &mut [BitRow], set: &[NodeId], low: &BitRow, m: u32)
    requires m { m < length le.old }
    requires among { is_among set.now m ≡ true }
    requires reflexive { bit (row le.old m) m ≡ true }
    requires set { All (λ s. s.0 < length le.old) set.now }
    requires width { length low.now ≡ length le.old }
    requires low { (a : ℕ) → bit low.now a ≡ has_any (row le.old a) set.now }
    requires widths { HasWidth (length le.old) le.old }
    requires lower { AreLower le.old lower.old }
    ensures size { AreAsWide le.old le.new }
    ensures lower { AreLower le.new lower.new }
    ensures rows { (a b : ℕ) → bit (row le.new a) b ≡ ((bit (row le.old a) b || (has_any (row le.old a) set.now && any_has le.old set.now b)) && stays set.now m a && stays set.now m b) }
{
    gather(le, set, m);
    add_set(lower, row_at(le, m as usize), low);
    spread(le, low, m);
    drop_others(le, set, low, m);
}
