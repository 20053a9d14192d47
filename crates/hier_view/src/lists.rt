//! The nodes of a hierarchy, and what stands at each.

ghost use Rattle.std.specs.Prelude.{◌≡◌, ◌<◌, true, length, IfOk, All};
ghost use Rattle.kaba_order.specs.Beyond.{IsBeyond};
ghost use Rattle.kaba_order.specs.Orders.{is_live, IsPartialOrder};
ghost use Rattle.fact_model.specs.InRange.{InRange};
ghost use Rattle.hier_model.specs.Hierarchies.{IsHierarchyOf, is_at, stands_at, place_of_row};
ghost use Rattle.hier_model.specs.Covers.{is_cover};
ghost use Rattle.hier_view.specs.Text.{those_below, live_nodes, covers_of, columns_at, rows_at};

use fact_model::Facts;
use hier_model::Hier;
use kaba_base::{ColId, NodeId, RowId};
use kaba_bits::BitRow;
use kaba_order::Order;
use std::alloc::{AllocError, Global};

/// The live nodes.
pub fn live_nodes(alloc: Global, hier: &Hier) -> Result<Vec<u32>, AllocError>
    ensures nodes { IfOk result (λ v. v.items ≡ live_nodes hier.now) }
    ensures live { IfOk result (λ v. All (λ n. is_live hier.now.order n ≡ true) v.items) }
{
    let order = hier.order();
    let mut nodes = Vec::new(alloc);
    for n in 0..order.count() {
        if order.is_live(NodeId(n)) {
            nodes.push(n)?;
        }
    }
    Ok(nodes)
}

/// Whether a node is an upper cover of another, by the nodes that are none since another lies between.
fn is_upper_cover(order: &Order, beyond: &BitRow, a: u32, b: u32) -> bool
    requires order { IsPartialOrder order.now }
    requires lower { is_live order.now a ≡ true }
    requires upper { b < length order.now.live }
    requires width { length beyond.now ≡ length order.now.live }
    requires beyond { IsBeyond order.now a (length order.now.live) beyond.now }
    ensures { result ≡ is_cover order.now a b }
{
    order.is_cover(beyond, NodeId(a), NodeId(b))
}

/// The upper covers of a node.
pub fn covers(alloc: Global, hier: &Hier, n: NodeId) -> Result<Vec<u32>, AllocError>
    requires order { IsPartialOrder hier.now.order }
    requires node { is_live hier.now.order n.0 ≡ true }
    ensures { IfOk result (λ v. v.items ≡ covers_of hier.now n.0) }
{
    let order = hier.order();
    let beyond = order.beyond(alloc, n)?;
    covers_by(alloc, order, &beyond, n)
}

/// The same, by the nodes that are none since another lies between.
fn covers_by(
    alloc: Global,
    order: &Order,
    beyond: &BitRow,
    n: NodeId,
) -> Result<Vec<u32>, AllocError>
    requires order { IsPartialOrder order.now }
    requires node { is_live order.now n.0 ≡ true }
    requires width { length beyond.now ≡ length order.now.live }
    requires beyond { IsBeyond order.now n.0 (length order.now.live) beyond.now }
    ensures { IfOk result (λ v. v.items ≡ those_below (length order.now.live) (is_cover order.now n.0)) }
{
    let mut above = Vec::new(alloc);
    for b in 0..order.count() {
        if is_upper_cover(order, beyond, n.0, b) {
            above.push(b)?;
        }
    }
    Ok(above)
}

/// Whether a place is a node.
fn is_at(n: u32, place: Option<NodeId>) -> bool
    ensures { result ≡ is_at n place }
{
    match place {
        Some(p) => p.0 == n,
        None => false,
    }
}

/// The columns that stand at a node.
pub fn columns_at(
    alloc: Global,
    facts: &Facts,
    hier: &Hier,
    n: NodeId,
) -> Result<Vec<u32>, AllocError>
    requires range { InRange facts.now }
    requires hierarchy { IsHierarchyOf facts.now hier.now }
    ensures columns { IfOk result (λ v. v.items ≡ columns_at facts.now hier.now n.0) }
    ensures within { IfOk result (λ v. All (λ c. c < length facts.now.columns.items) v.items) }
{
    let mut columns = Vec::new(alloc);
    for c in 0..facts.columns.len() as u32 {
        if is_at(n.0, hier.place_of_column(ColId(c))) {
            columns.push(c)?;
        }
    }
    Ok(columns)
}

/// The rows that stand at a node.
pub fn rows_at(alloc: Global, facts: &Facts, hier: &Hier, n: NodeId) -> Result<Vec<u32>, AllocError>
    requires range { InRange facts.now }
    requires hierarchy { IsHierarchyOf facts.now hier.now }
    ensures { IfOk result (λ v. v.items ≡ rows_at facts.now hier.now n.0) }
{
    let mut rows = Vec::new(alloc);
    for r in 0..facts.rows.len() as u32 {
        if hier.place_of_row(RowId(r)).0 == n.0 {
            rows.push(r)?;
        }
    }
    Ok(rows)
}
