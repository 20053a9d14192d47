//! Exchanging nodes and pairs of an order.

ghost use Rattle.std.specs.Prelude.{◌≡◌, ℕ, ◌<◌, ◌&&◌, ◌==◌, not, length, slice_set, All};
ghost use Rattle.kaba_bits.specs.Sets.{bit, row, HasWidth};
ghost use Rattle.kaba_order.specs.Orders.{AreAsWide};
ghost use Rattle.kaba_order.specs.Lower.{AreLower};
ghost use Rattle.kaba_order.specs.Flips.{flip_where, is_flipped, names_node, names_pair};

use crate::lower::add_at;
use kaba_base::NodeId;
use kaba_bits::BitRow;

/// Puts a number into a set, or takes it out where it is in.
fn flip_bit(set: &mut BitRow, i: u32)
    requires { i < length set.old }
    ensures { set.new ≡ slice_set set.old i (not (bit set.old i)) }
{
    if set.has(i) {
        set.remove(i);
    } else {
        set.set(i);
    }
}

/// Exchanges one pair.
fn flip_pair(le: &mut [BitRow], a: u32, b: u32)
    requires a { a < length le.old }
    requires b { b < length le.old }
    requires widths { HasWidth (length le.old) le.old }
    ensures size { AreAsWide le.old le.new }
    ensures rows { (k i : ℕ) → bit (row le.new k) i ≡ flip_where ((k == a) && (i == b)) (bit (row le.old k) i) }
{
    let row = &mut le[a as usize];
    flip_bit(row, b);
}

/// Exchanges one pair, and adds the first to the set of the second.
fn flip_both(le: &mut [BitRow], lower: &mut [BitRow], a: u32, b: u32)
    requires a { a < length le.old }
    requires b { b < length le.old }
    requires widths { HasWidth (length le.old) le.old }
    requires lower { AreLower le.old lower.old }
    ensures size { AreAsWide le.old le.new }
    ensures lower { AreLower le.new lower.new }
    ensures rows { (k i : ℕ) → bit (row le.new k) i ≡ flip_where ((k == a) && (i == b)) (bit (row le.old k) i) }
{
    flip_pair(le, a, b);
    add_at(lower, a, b);
}

/// Exchanges the nodes of a list, live for dead.
pub fn flip_live(live: &mut BitRow, nodes: &[NodeId])
    requires { All (λ n. n.0 < length live.old) nodes.now }
    ensures len { length live.new ≡ length live.old }
    ensures bits { (a : ℕ) → bit live.new a ≡ flip_where (is_flipped (names_node a) nodes.now) (bit live.old a) }
{
    for n in nodes {
        flip_bit(live, n.0);
    }
}

/// Exchanges the relation of each node of a list to itself.
fn flip_own(le: &mut [BitRow], lower: &mut [BitRow], nodes: &[NodeId])
    requires nodes { All (λ n. n.0 < length le.old) nodes.now }
    requires widths { HasWidth (length le.old) le.old }
    requires lower { AreLower le.old lower.old }
    ensures size { AreAsWide le.old le.new }
    ensures lower { AreLower le.new lower.new }
    ensures rows { (a b : ℕ) → bit (row le.new a) b ≡ flip_where ((a == b) && is_flipped (names_node a) nodes.now) (bit (row le.old a) b) }
{
    for n in nodes {
        flip_both(le, lower, n.0, n.0);
    }
}

/// Exchanges the pairs of a list.
fn flip_pairs(le: &mut [BitRow], lower: &mut [BitRow], pairs: &[(NodeId, NodeId)])
    requires pairs { All (λ p. (p.0.0 < length le.old) × (p.1.0 < length le.old)) pairs.now }
    requires widths { HasWidth (length le.old) le.old }
    requires lower { AreLower le.old lower.old }
    ensures size { AreAsWide le.old le.new }
    ensures lower { AreLower le.new lower.new }
    ensures rows { (a b : ℕ) → bit (row le.new a) b ≡ flip_where (is_flipped (names_pair a b) pairs.now) (bit (row le.old a) b) }
{
    for p in pairs {
        flip_both(le, lower, p.0.0, p.1.0);
    }
}

/// Exchanges the pairs of a list, and the relation of each node of another to itself.
pub fn flip_rows(
    le: &mut [BitRow],
    lower: &mut [BitRow],
    nodes: &[NodeId],
    pairs: &[(NodeId, NodeId)],
)
    requires nodes { All (λ n. n.0 < length le.old) nodes.now }
    requires pairs { All (λ p. (p.0.0 < length le.old) × (p.1.0 < length le.old)) pairs.now }
    requires widths { HasWidth (length le.old) le.old }
    requires lower { AreLower le.old lower.old }
    ensures size { AreAsWide le.old le.new }
    ensures lower { AreLower le.new lower.new }
    ensures rows { (a b : ℕ) → bit (row le.new a) b ≡ flip_where ((a == b) && is_flipped (names_node a) nodes.now) (flip_where (is_flipped (names_pair a b) pairs.now) (bit (row le.old a) b)) }
{
    flip_pairs(le, lower, pairs);
    flip_own(le, lower, nodes);
}
