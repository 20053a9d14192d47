//! What an edit makes of the order of the nodes.

ghost use Rattle.std.specs.Prelude.{◌≡◌, ◌<◌, ◌==◌, ◌&&◌, ◌⊎◌, ◌∷◌, [], not, true, false, length, IfOk, IfErr, OnOk, OnErr, All, Some, None};
ghost use Rattle.kaba_order.specs.Formers.{AreBelow, IsFormerOf};
ghost use Rattle.kaba_order.specs.Orders.{is_le, is_live, IsPartialOrder};
ghost use Rattle.hier_model.specs.Edits.{merged_order, under_order, dropped_order, least_of, first_between, first_unknown, fault_of};
ghost use Rattle.hier_model.specs.declared.edits.ChangeFault.TheVariants.{Memory, Cycle};

use crate::ChangeFault;
use kaba_base::NodeId;
use kaba_order::{Joined, Order, OrderFault};
use std::alloc::{AllocError, Global};

/// The first of some nodes that is not live.
pub fn first_unknown(order: &Order, nodes: &[NodeId]) -> Option<NodeId>
    ensures { result ≡ first_unknown order.now nodes.now }
{
    for n in nodes {
        if !order.is_live(*n) {
            return Some(*n);
        }
    }
    None
}

/// Makes the nodes of a list one, the least of them, and gives the nodes at or below it and what of the order was before.
/// `Cycle` comes exactly where a node outside lies strictly between two of them, and holds the least such.
pub fn merge_order(
    alloc: Global,
    order: &mut Order,
    set: &Vec<NodeId>,
) -> Result<Joined, ChangeFault>
    requires order { IsPartialOrder order.old }
    requires some { 0 < length set.now.items }
    requires live { All (λ s. is_live order.old s.0 ≡ true) set.now.items }
    ensures order { OnOk result (order.new ≡ merged_order order.old set.now.items (least_of order.old set.now.items)) }
    ensures low { IfOk result (λ j. AreBelow order.new set.now.items j.low) }
    ensures former { IfOk result (λ j. IsFormerOf order.old order.new j.former) }
    ensures none { OnOk result (first_between order.old set.now.items ≡ None) }
    ensures fault { IfErr result (λ e. (e ≡ Memory) ⊎ ((x : NodeId) × (e ≡ Cycle x) × (first_between order.old set.now.items ≡ Some x))) }
    ensures kept { OnErr result (order.new ≡ order.old) }
{
    match order.merge_set(alloc, set) {
        Ok(merged) => Ok(merged.joined),
        Err(fault) => Err(fault_of(fault)),
    }
}

/// The same fault of an edit.
fn fault_of(fault: OrderFault) -> ChangeFault
    ensures { result ≡ fault_of fault }
{
    match fault {
        OrderFault::Cycle(x) => ChangeFault::Cycle(x),
        OrderFault::Memory => ChangeFault::Memory,
    }
}

/// Puts a node below another, and gives the nodes at or below it and what of the order was before. `Cycle` comes exactly
/// where the other is strictly below it.
pub fn put_under(
    alloc: Global,
    order: &mut Order,
    n: NodeId,
    p: NodeId,
) -> Result<Joined, ChangeFault>
    requires n { is_live order.old n.0 ≡ true }
    requires p { is_live order.old p.0 ≡ true }
    ensures order { OnOk result (order.new ≡ under_order order.old n.0 p.0) }
    ensures low { IfOk result (λ j. AreBelow order.new (n ∷ []) j.low) }
    ensures former { IfOk result (λ j. IsFormerOf order.old order.new j.former) }
    ensures none { OnOk result ((is_le order.old p.0 n.0 && not (p.0 == n.0)) ≡ false) }
    ensures fault { IfErr result (λ e. (e ≡ Memory) ⊎ ((e ≡ Cycle n) × ((is_le order.old p.0 n.0 && not (p.0 == n.0)) ≡ true))) }
    ensures kept { OnErr result (order.new ≡ order.old) }
{
    match order.put_under(alloc, n, p) {
        Ok(joined) => Ok(joined),
        Err(fault) => Err(fault_of(fault)),
    }
}

/// The order without a node.
pub fn dropped_order(alloc: Global, order: &Order, n: NodeId) -> Result<Order, AllocError>
    requires order { IsPartialOrder order.now }
    requires n { is_live order.now n.0 ≡ true }
    ensures { IfOk result (λ o. o ≡ dropped_order order.now n.0) }
{
    let mut dropped = order.copy(alloc)?;
    dropped.drop_node(n);
    Ok(dropped)
}
