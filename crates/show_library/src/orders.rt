//! An order of five nodes, and what becomes of it.

ghost use Rattle.std.specs.Prelude.{◌≡◌, true};
ghost use Rattle.kaba_order.specs.Orders.{is_live};

use kaba_base::NodeId;
use kaba_order::{Order, OrderFault};
use std::alloc::{AllocError, Global};

/// The pairs of live nodes of which the first is strictly below the second.
fn add_pairs(text: &mut String, order: &Order) -> Result<(), AllocError> {
    text.push_str("pairs:")?;
    for a in 0..order.count() {
        for b in 0..order.count() {
            let (n, p) = (NodeId(a), NodeId(b));
            if a != b && order.is_live(n) && order.is_live(p) && order.le(n, p) {
                write!(text, " {a}<{b}")?;
            }
        }
    }
    text.push('\n')
}

/// Why an order stays as it is.
fn add_fault(text: &mut String, fault: OrderFault) -> Result<(), AllocError> {
    match fault {
        OrderFault::Cycle(x) => write!(text, "cycle {}\n", x.0),
        OrderFault::Memory => text.push_str("memory\n"),
    }
}

/// A change of an order, by two of its nodes.
#[derive(Clone, Copy)]
enum Change {
    /// The first below the second.
    Under,
    /// One node made of both.
    Union,
}

/// The line of a change, which is made where both nodes are live.
fn add_change(
    alloc: Global,
    text: &mut String,
    order: &mut Order,
    change: Change,
    a: u32,
    b: u32,
) -> Result<(), AllocError> {
    match change {
        Change::Under => write!(text, "{a} under {b}: ")?,
        Change::Union => write!(text, "union of {a} and {b}: ")?,
    }
    if !order.is_live(NodeId(a)) || !order.is_live(NodeId(b)) {
        return text.push_str("not live\n");
    }
    match change {
        Change::Under => match order.put_under(alloc, NodeId(a), NodeId(b)) {
            Ok(_) => text.push_str("ok\n"),
            Err(fault) => add_fault(text, fault),
        },
        Change::Union => {
            let set = [NodeId(a), NodeId(b)].to_vec(alloc)?;
            match order.merge_set(alloc, &set) {
                Ok(merged) => write!(text, "{}\n", merged.node.0),
                Err(fault) => add_fault(text, fault),
            }
        }
    }
}

/// The upper covers of a node, where it is live.
fn add_covers(alloc: Global, text: &mut String, order: &Order, n: u32) -> Result<(), AllocError> {
    write!(text, "covers of {n}:")?;
    if order.is_live(NodeId(n)) {
        for b in &order.covers(alloc, NodeId(n))? {
            write!(text, " {}", b.0)?;
        }
    }
    text.push('\n')
}

/// The order in which 0 is below 1, 1 below 3, and 0 below 2, and then changed.
pub fn add_orders(alloc: Global, text: &mut String) -> Result<(), AllocError> {
    let mut order = Order::discrete(alloc, 5)?;
    for (n, p) in [(1, 3), (0, 1), (0, 2), (3, 0)] {
        add_change(alloc, text, &mut order, Change::Under, n, p)?;
    }
    add_pairs(text, &order)?;
    add_covers(alloc, text, &order, 0)?;
    add_change(alloc, text, &mut order, Change::Union, 3, 0)?;
    let mut copy = order.copy(alloc)?;
    add_change(alloc, text, &mut copy, Change::Union, 2, 1)?;
    add_pairs(text, &copy)?;
    if copy.is_live(NodeId(1)) {
        copy.drop_node(NodeId(1));
    }
    add_change(alloc, text, &mut copy, Change::Under, 1, 4)?;
    add_pairs(text, &copy)?;
    add_pairs(text, &order)
}
