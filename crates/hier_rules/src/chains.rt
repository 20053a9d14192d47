//! B9: the class nodes at or above each class node form a chain.

ghost use Rattle.std.specs.Prelude.{◌≡◌, ℕ, ◌<◌, ◌&&◌, not, true, false, length, None, IfOk};
ghost use Rattle.std.specs.Bool.{OnTrue};
ghost use Rattle.hier_rules.specs.Words.{bit, first_below, is_le, InRange};
ghost use Rattle.hier_model.specs.Hierarchies.{IsHierarchyOf};
ghost use Rattle.hier_rules.specs.Instances.{of_three};
ghost use Rattle.hier_rules.specs.Obligations.{unchained, first_unchained};
ghost use Rattle.hier_rules.specs.Chains.{HasClassNodes, AreChained, AreKnown, AreOrdered, IsAbove, AreWide, is_over, first_unchained_at};

use crate::broken::{Broken, Nodes, Rule};
use crate::kept::KnownNodes;
use crate::places::{is_le, node_count};
use fact_model::Facts;
use hier_model::Hier;
use kaba_base::NodeId;
use kaba_bits::BitRow;
use std::alloc::{AllocError, Global};

/// An instance at three nodes.
fn of_three(rule: Rule, n: u32, x: u32, y: u32) -> Broken
    ensures { result ≡ of_three rule n x y }
{
    Broken {
        rule,
        nodes: Nodes::Three(NodeId(n), NodeId(x), NodeId(y)),
        row: None,
        column: None,
    }
}

/// The class nodes of a hierarchy of facts.
#[derive(Clone, Copy)]
struct ClassNodes<'a> {
    facts: &'a Facts,
    hier: &'a Hier,
    classes: &'a BitRow,
}

/// The class nodes strictly above a node: all of them, some that are ordered with each other, and the others.
#[derive(Drop)]
struct Above {
    over: BitRow,
    ordered: BitRow,
    rest: BitRow,
}

/// Whether a class node is at or below another.
fn class_le(nodes: &ClassNodes, a: u32, b: u32) -> bool
    requires nodes { HasClassNodes nodes.now }
    requires lower { bit nodes.now.classes.now a ≡ true }
    requires upper { bit nodes.now.classes.now b ≡ true }
    ensures { result ≡ is_le nodes.now.hier.now.order a b }
{
    is_le(nodes.hier, a, b)
}

/// Makes a set that of the class nodes strictly above a node, if it is a class node, and else empty.
fn fill_over(nodes: &ClassNodes, n: u32, over: &mut BitRow)
    requires nodes { HasClassNodes nodes.now }
    requires node { n < length nodes.now.hier.now.order.live }
    requires width { length over.old ≡ length nodes.now.hier.now.order.live }
    ensures width { length over.new ≡ length nodes.now.hier.now.order.live }
    ensures exact { (x : ℕ) → bit over.new x ≡ is_over nodes.now.facts.now nodes.now.hier.now n x }
{
    over.clear();
    if !nodes.classes.has(n) {
        return;
    }
    over.or_into(nodes.hier.order().above(NodeId(n)));
    over.and_into(nodes.classes);
    over.remove(n);
}

/// One of the nodes of a set of class nodes, of which one is given: that which is at or below all others, if there is one.
fn lowest(nodes: &ClassNodes, set: &BitRow, first: u32) -> u32
    requires nodes { HasClassNodes nodes.now }
    requires classes { (x : ℕ) → bit set.now x ≡ true → bit nodes.now.classes.now x ≡ true }
    requires first { bit set.now first ≡ true }
    ensures { bit set.now result ≡ true }
{
    let _width = set.width();
    let mut low = first;
    let mut at = 0;
    'scan: while let Some(x) = set.next(at) {
        if class_le(nodes, x, low) {
            low = x;
        }
        at = x + 1;
    }
    low
}

/// Whether a node is known to be chained by the lowest class node strictly above it.
fn is_chained(nodes: &ClassNodes, over: &BitRow, n: u32, chained: &BitRow) -> bool
    requires nodes { HasClassNodes nodes.now }
    requires width { length over.now ≡ length nodes.now.hier.now.order.live }
    requires over { (x : ℕ) → bit over.now x ≡ is_over nodes.now.facts.now nodes.now.hier.now n x }
    requires chained { AreChained nodes.now.facts.now nodes.now.hier.now chained.now }
    ensures { OnTrue result (first_unchained_at nodes.now.facts.now nodes.now.hier.now n ≡ None) }
{
    match over.next(0) {
        None => true,
        Some(first) => {
            let low = lowest(nodes, over, first);
            chained.has(low) && over.is_subset(nodes.hier.order().above(NodeId(low)))
        }
    }
}

/// Makes a set that of the class nodes strictly above a node that are at or above one of them which is known to be chained,
/// the lowest that is found: they are ordered with each other.
fn fill_ordered(nodes: &ClassNodes, over: &BitRow, n: u32, chained: &BitRow, ordered: &mut BitRow)
    requires nodes { HasClassNodes nodes.now }
    requires width { length over.now ≡ length nodes.now.hier.now.order.live }
    requires over { (x : ℕ) → bit over.now x ≡ is_over nodes.now.facts.now nodes.now.hier.now n x }
    requires chained { AreChained nodes.now.facts.now nodes.now.hier.now chained.now }
    requires same { length ordered.old ≡ length over.now }
    ensures width { length ordered.new ≡ length over.now }
    ensures ordered { AreOrdered nodes.now.hier.now ordered.new }
{
    ordered.clear();
    ordered.or_into(over);
    ordered.and_into(chained);
    let Some(first) = ordered.next(0) else {
        return;
    };
    let low = lowest(nodes, ordered, first);
    ordered.clear();
    ordered.or_into(nodes.hier.order().above(NodeId(low)));
    ordered.and_into(over);
}

/// Makes a set that of the numbers of one set that are not in another.
fn fill_rest(over: &BitRow, ordered: &BitRow, rest: &mut BitRow)
    requires ordered { length ordered.now ≡ length over.now }
    requires same { length rest.old ≡ length over.now }
    ensures width { length rest.new ≡ length over.now }
    ensures bits { (x : ℕ) → bit rest.new x ≡ (bit over.now x && not (bit ordered.now x)) }
{
    let _width = over.width();
    rest.clear();
    let mut at = 0;
    'scan: while let Some(x) = over.next_beyond(ordered, at) {
        rest.set(x);
        at = x + 1;
    }
}

/// The first class node of a set that is after a class node above a node, and not ordered with it, where none outside of the
/// set is. Only those are asked of that are not above it.
fn first_unchained_with(nodes: &ClassNodes, set: &BitRow, n: u32, x: u32) -> Option<Broken>
    requires nodes { HasClassNodes nodes.now }
    requires width { length set.now ≡ length nodes.now.hier.now.order.live }
    requires first { is_over nodes.now.facts.now nodes.now.hier.now n x ≡ true }
    requires each { (z : ℕ) → bit set.now z ≡ true → is_over nodes.now.facts.now nodes.now.hier.now n z ≡ true }
    requires others { (z : ℕ) → bit set.now z ≡ false → unchained nodes.now.facts.now nodes.now.hier.now n x z ≡ None }
    ensures { result ≡ first_below (length nodes.now.hier.now.order.live) (unchained nodes.now.facts.now nodes.now.hier.now n x) }
{
    let _width = set.width();
    let up = nodes.hier.order().above(NodeId(x));
    let mut at = x + 1;
    'scan: while let Some(y) = set.next_beyond(up, at) {
        if !class_le(nodes, y, x) {
            return Some(of_three(Rule::B9, n, x, y));
        }
        at = y + 1;
    }
    None
}

/// The first two class nodes strictly above a node that are not ordered.
fn first_unchained_over(nodes: &ClassNodes, above: &Above, n: u32) -> Option<Broken>
    requires nodes { HasClassNodes nodes.now }
    requires above { IsAbove nodes.now n above.now }
    ensures { result ≡ first_unchained_at nodes.now.facts.now nodes.now.hier.now n }
{
    let _width = above.over.width();
    let mut at = 0;
    'scan: while let Some(x) = above.over.next(at) {
        if let Some(found) = first_unchained_of(nodes, above, n, x) {
            return Some(found);
        }
        at = x + 1;
    }
    None
}

/// The first class node strictly above a node that is after another of them, and not ordered with it: of those that are
/// ordered with each other another need not be asked of.
fn first_unchained_of(nodes: &ClassNodes, above: &Above, n: u32, x: u32) -> Option<Broken>
    requires nodes { HasClassNodes nodes.now }
    requires above { IsAbove nodes.now n above.now }
    requires first { bit above.now.over x ≡ true }
    ensures { result ≡ first_below (length nodes.now.hier.now.order.live) (unchained nodes.now.facts.now nodes.now.hier.now n x) }
{
    if above.ordered.has(x) {
        return first_unchained_with(nodes, &above.rest, n, x);
    }
    first_unchained_with(nodes, &above.over, n, x)
}

/// The same for all, at once where the node is known to be chained by the lowest class node strictly above it.
fn first_unchained_at(
    nodes: &ClassNodes,
    above: &mut Above,
    n: u32,
    chained: &BitRow,
) -> Option<Broken>
    requires nodes { HasClassNodes nodes.now }
    requires widths { AreWide (length nodes.now.hier.now.order.live) above.old }
    requires over { (x : ℕ) → bit above.old.over x ≡ is_over nodes.now.facts.now nodes.now.hier.now n x }
    requires chained { AreChained nodes.now.facts.now nodes.now.hier.now chained.now }
    ensures first { result ≡ first_unchained_at nodes.now.facts.now nodes.now.hier.now n }
    ensures widths { AreWide (length nodes.now.hier.now.order.live) above.new }
    ensures over { above.new.over ≡ above.old.over }
{
    if is_chained(nodes, &above.over, n, chained) {
        return None;
    }
    fill_ordered(nodes, &above.over, n, chained, &mut above.ordered);
    fill_rest(&above.over, &above.ordered, &mut above.rest);
    first_unchained_over(nodes, above, n)
}

/// Adds a chained node, and the class nodes strictly above it.
fn add_chained(nodes: &ClassNodes, over: &BitRow, n: u32, chained: &mut BitRow)
    requires nodes { HasClassNodes nodes.now }
    requires node { n < length nodes.now.hier.now.order.live }
    requires width { length over.now ≡ length nodes.now.hier.now.order.live }
    requires over { (x : ℕ) → bit over.now x ≡ is_over nodes.now.facts.now nodes.now.hier.now n x }
    requires chain { first_unchained_at nodes.now.facts.now nodes.now.hier.now n ≡ None }
    requires chained { AreChained nodes.now.facts.now nodes.now.hier.now chained.old }
    ensures { AreChained nodes.now.facts.now nodes.now.hier.now chained.new }
{
    chained.or_into(over);
    chained.set(n);
}

/// The first two class nodes at or above a node that are not ordered; where there are none, the node joins the chained ones.
fn first_unchained_above(
    nodes: &ClassNodes,
    n: u32,
    above: &mut Above,
    chained: &mut BitRow,
) -> Option<Broken>
    requires nodes { HasClassNodes nodes.now }
    requires node { n < length nodes.now.hier.now.order.live }
    requires widths { AreWide (length nodes.now.hier.now.order.live) above.old }
    requires chained { AreChained nodes.now.facts.now nodes.now.hier.now chained.old }
    ensures first { result ≡ first_unchained_at nodes.now.facts.now nodes.now.hier.now n }
    ensures widths { AreWide (length nodes.now.hier.now.order.live) above.new }
    ensures chained { AreChained nodes.now.facts.now nodes.now.hier.now chained.new }
{
    if chained.has(n) {
        return None;
    }
    fill_over(nodes, n, &mut above.over);
    if let Some(found) = first_unchained_at(nodes, above, n, chained) {
        return Some(found);
    }
    add_chained(nodes, &above.over, n, chained);
    None
}

/// The first instance against B9. An error comes only for want of memory. The time is in proportion to a 64th of the square
/// of the number of nodes, to the number of columns and sites, and to that of the pairs of class nodes of which one is
/// above the other.
pub fn first_unchained(
    alloc: Global,
    facts: &Facts,
    hier: &Hier,
) -> Result<Option<Broken>, AllocError>
    requires facts { InRange facts.now }
    requires hier { IsHierarchyOf facts.now hier.now }
    ensures { IfOk result (λ b. b ≡ first_unchained facts.now hier.now) }
{
    let mut known = KnownNodes::new(alloc, node_count(hier))?;
    first_unchained_beyond(alloc, facts, hier, &mut known)
}

/// The same where some nodes are known to be chained, and of all but the unasked ones whether they are class nodes. What is
/// known gains what is found, and is right also where an error comes. Only for the other nodes is there a search: the time of
/// each is in proportion to a 64th of the number of nodes, and to the number of class nodes above it, where the lowest of
/// these is known to be chained, and else to that times the number of those that are not at or above one that is.
pub fn first_unchained_beyond(
    alloc: Global,
    facts: &Facts,
    hier: &Hier,
    known: &mut KnownNodes,
) -> Result<Option<Broken>, AllocError>
    requires facts { InRange facts.now }
    requires hier { IsHierarchyOf facts.now hier.now }
    requires known { AreKnown facts.now hier.now known.old }
    ensures first { IfOk result (λ b. b ≡ first_unchained facts.now hier.now) }
    ensures known { AreKnown facts.now hier.now known.new }
{
    hier.mark_class_nodes(alloc, facts, &known.unasked, &mut known.classes)?;
    known.unasked.clear();
    let nodes = ClassNodes {
        facts,
        hier,
        classes: &known.classes,
    };
    first_unchained_among(alloc, &nodes, &mut known.chained)
}

/// The same by all class nodes.
#[tactic(auto, using(kaba_bits::proofs::FirstLemmas::first_below_found))]
fn first_unchained_among(
    alloc: Global,
    nodes: &ClassNodes,
    chained: &mut BitRow,
) -> Result<Option<Broken>, AllocError>
    requires nodes { HasClassNodes nodes.now }
    requires chained { AreChained nodes.now.facts.now nodes.now.hier.now chained.old }
    ensures first { IfOk result (λ b. b ≡ first_unchained nodes.now.facts.now nodes.now.hier.now) }
    ensures chained { AreChained nodes.now.facts.now nodes.now.hier.now chained.new }
{
    let mut above = Above {
        over: BitRow::new(alloc, node_count(nodes.hier))?,
        ordered: BitRow::new(alloc, node_count(nodes.hier))?,
        rest: BitRow::new(alloc, node_count(nodes.hier))?,
    };
    first_found_below!(n < node_count(nodes.hier); first_unchained_above(nodes, n, &mut above, chained))
}
