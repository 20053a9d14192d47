//! What is known of the nodes of a hierarchy, and what a join leaves of it.

ghost use Rattle.std.specs.Prelude.{◌≡◌, ℕ, ◌<◌, true, false, length, All, IfOk};
ghost use Rattle.kaba_bits.specs.Sets.{IsEmpty};
ghost use Rattle.kaba_order.specs.Formers.{AreBelow};
ghost use Rattle.hier_rules.specs.Words.{bit, InRange, NamesSome};
ghost use Rattle.kaba_order.specs.Orders.{is_among};
ghost use Rattle.fact_model.specs.declared.facts.Facts.{Facts};
ghost use Rattle.hier_model.specs.Hierarchies.{IsHierarchyOf};
ghost use Rattle.hier_model.specs.Places.{JoinsNodes, joined_nodes};
ghost use Rattle.hier_rules.specs.Chains.{AreKnown, WereKnown};

use hier_model::{Edit, Hier};
use kaba_base::NodeId;
use kaba_bits::BitRow;
use std::alloc::{AllocError, Global};

/// What is known of the nodes of a hierarchy.
#[derive(Drop)]
pub struct KnownNodes {
    /// Some nodes that are chained: the class nodes at or above each of them form a chain.
    pub chained: BitRow,
    /// The class nodes, but for those that are not asked yet.
    pub classes: BitRow,
    /// The nodes that are still to be asked whether they are class nodes.
    pub unasked: BitRow,
}

impl KnownNodes {
    /// What is known at first of as many nodes: nothing. An error comes only for want of memory.
    pub fn new(alloc: Global, count: u32) -> Result<KnownNodes, AllocError>
        ensures chained { IfOk result (λ k. (length k.chained ≡ count) × IsEmpty k.chained) }
        ensures classes { IfOk result (λ k. (length k.classes ≡ count) × IsEmpty k.classes) }
        ensures unasked { IfOk result (λ k. (length k.unasked ≡ count) × ((n : ℕ) → n < count → bit k.unasked n ≡ true)) }
    {
        let chained = BitRow::new(alloc, count)?;
        let classes = BitRow::new(alloc, count)?;
        let unasked = BitRow::full(alloc, count)?;
        Ok(KnownNodes {
            chained,
            classes,
            unasked,
        })
    }
}

/// Takes the numbers of one set out of another of the same width.
fn remove_all(set: &mut BitRow, low: &BitRow)
    requires { length low.now ≡ length set.old }
    ensures width { length set.new ≡ length set.old }
    ensures was { (x : ℕ) → bit set.new x ≡ true → bit set.old x ≡ true }
    ensures left { (x : ℕ) → bit set.new x ≡ true → bit low.now x ≡ false }
{
    let _width = low.width();
    let mut at = 0;
    'scan: while let Some(n) = low.next(at) {
        set.remove(n);
        at = n + 1;
    }
}

/// Adds the nodes of a list to a set.
fn add_all(nodes: &[NodeId], set: &mut BitRow)
    requires { All (λ s. s.0 < length set.old) nodes.now }
    ensures width { length set.new ≡ length set.old }
    ensures off { (x : ℕ) → bit set.new x ≡ false → (bit set.old x ≡ false) × (is_among nodes.now x ≡ false) }
{
    for n in nodes {
        set.set(n.0);
    }
}

/// Takes what a join, which was made, may have changed out of what was known before it: what is known of the nodes at or
/// below the joined ones, which are given, and of the joined ones. The time is in proportion to the number of these nodes,
/// and to a 64th of that of all.
pub fn keep_known(hier: &Hier, edit: &Edit, low: &BitRow, known: &mut KnownNodes)
    requires some { NamesSome edit.now }
    requires join { JoinsNodes edit.now }
    requires low { AreBelow hier.now.order (joined_nodes edit.now) low.now }
    requires known { (F : Facts) × InRange F × IsHierarchyOf F hier.now × WereKnown F hier.now edit.now known.old }
    ensures { (F : Facts) → InRange F → IsHierarchyOf F hier.now → WereKnown F hier.now edit.now known.old → AreKnown F hier.now known.new }
{
    remove_all(&mut known.chained, low);
    known.unasked.or_into(low);
    match edit {
        Edit::Merge(set) => add_all(set, &mut known.unasked),
        Edit::Under(_, _) => {}
        Edit::Move(_, _) | Edit::TypeName(_, _) => unreachable!(),
        Edit::MemberName(_, _) | Edit::Drop(_) => unreachable!(),
    }
}
