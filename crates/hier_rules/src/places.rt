//! Where rows and columns stand, and what is offered.

ghost use Rattle.std.specs.Prelude.{◌≡◌, ◌<◌, true, length, IfSome};
ghost use Rattle.hier_rules.specs.Words.{is_le, is_live, IsObligationInput};
ghost use Rattle.hier_model.specs.Hierarchies.{place_of_column, place_of_row, is_offered, is_at, stands_at};
ghost use Rattle.hier_rules.specs.Obligations.{is_below, row_le, column_le, is_above};

use fact_model::{Facts, PointsTo};
use hier_model::Hier;
use kaba_base::{ColId, NodeId, RowId};
use kaba_order::Order;

/// What the obligations are asked of: facts, their sets, and a hierarchy.
#[derive(Clone, Copy)]
pub struct Asked<'a> {
    pub facts: &'a Facts,
    pub pt: &'a PointsTo,
    pub hier: &'a Hier,
}

/// The number of nodes, live or not.
pub fn node_count(hier: &Hier) -> u32
    ensures { result ≡ length hier.now.order.live }
{
    hier.order().count()
}

/// Whether a node is live.
pub fn is_live(hier: &Hier, n: u32) -> bool
    ensures { result ≡ is_live hier.now.order n }
{
    hier.order().is_live(NodeId(n))
}

/// Whether a live node is at or below another.
pub fn is_le(hier: &Hier, a: u32, b: u32) -> bool
    requires a { is_live hier.now.order a ≡ true }
    requires b { is_live hier.now.order b ≡ true }
    ensures { result ≡ is_le hier.now.order a b }
{
    hier.order().le(NodeId(a), NodeId(b))
}

/// The node where a row stands.
pub fn place_of_row(asked: &Asked, r: u32) -> NodeId
    requires asked { IsObligationInput asked.now }
    requires row { r < length asked.now.facts.now.rows.items }
    ensures place { result.0 ≡ place_of_row asked.now.hier.now r }
    ensures live { is_live asked.now.hier.now.order result.0 ≡ true }
{
    asked.hier.place_of_row(RowId(r))
}

/// The node where a column stands, if it stands anywhere.
pub fn place_of_column(asked: &Asked, c: u32) -> Option<NodeId>
    requires asked { IsObligationInput asked.now }
    requires column { c < length asked.now.facts.now.columns.items }
    ensures place { result ≡ place_of_column asked.now.hier.now c }
    ensures live { IfSome result (λ p. is_live asked.now.hier.now.order p.0 ≡ true) }
{
    asked.hier.place_of_column(ColId(c))
}

/// Whether a row stands at or below another.
pub fn row_le(asked: &Asked, r: u32, v: u32) -> bool
    requires asked { IsObligationInput asked.now }
    requires lower { r < length asked.now.facts.now.rows.items }
    requires upper { v < length asked.now.facts.now.rows.items }
    ensures { result ≡ row_le asked.now.hier.now r v }
{
    asked
        .hier
        .order()
        .le(place_of_row(asked, r), place_of_row(asked, v))
}

/// Whether one place is at or below another.
fn is_below(order: &Order, place: Option<NodeId>, other: Option<NodeId>) -> bool
    requires place { IfSome place (λ p. is_live order.now p.0 ≡ true) }
    requires other { IfSome other (λ p. is_live order.now p.0 ≡ true) }
    ensures { result ≡ is_below order.now place other }
{
    match (place, other) {
        (Some(p), Some(q)) => order.le(p, q),
        (_, _) => false,
    }
}

/// Whether a column stands at or below another.
pub fn column_le(asked: &Asked, c: u32, d: u32) -> bool
    requires asked { IsObligationInput asked.now }
    requires lower { c < length asked.now.facts.now.columns.items }
    requires upper { d < length asked.now.facts.now.columns.items }
    ensures { result ≡ column_le asked.now.hier.now c d }
{
    is_below(
        asked.hier.order(),
        place_of_column(asked, c),
        place_of_column(asked, d),
    )
}

/// Whether a column stands at a live node or above it.
pub fn is_offered(asked: &Asked, n: NodeId, c: u32) -> bool
    requires asked { IsObligationInput asked.now }
    requires node { is_live asked.now.hier.now.order n.0 ≡ true }
    requires column { c < length asked.now.facts.now.columns.items }
    ensures { result ≡ is_offered asked.now.hier.now n.0 c }
{
    asked.hier.offers(n, ColId(c))
}

/// Whether a column stands strictly above a live node.
pub fn is_above(asked: &Asked, n: NodeId, c: u32) -> bool
    requires asked { IsObligationInput asked.now }
    requires node { is_live asked.now.hier.now.order n.0 ≡ true }
    requires column { c < length asked.now.facts.now.columns.items }
    ensures { result ≡ is_above asked.now.hier.now n.0 c }
{
    match place_of_column(asked, c) {
        Some(p) => asked.hier.order().le(n, p) && n.0 != p.0,
        None => false,
    }
}

/// Whether a place is a node.
fn is_at(n: u32, place: Option<NodeId>) -> bool
    ensures { result ≡ is_at n place }
{
    match place {
        Some(p) => p.0 == n,
        None => false,
    }
}

/// Whether a column stands at a node.
pub fn stands_at(asked: &Asked, n: u32, c: u32) -> bool
    requires asked { IsObligationInput asked.now }
    requires column { c < length asked.now.facts.now.columns.items }
    ensures { result ≡ stands_at asked.now.hier.now n c }
{
    is_at(n, place_of_column(asked, c))
}
