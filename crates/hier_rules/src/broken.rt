//! What is broken.

use kaba_base::{ColId, NodeId, RowId};

/// The obligations of a hierarchy.
#[derive(Clone, Copy)]
pub enum Rule {
    /// The order is a partial order.
    B1,
    /// Each row is offered all its columns.
    B2,
    /// The rows of a tie, and the sites in the set of a row, stand in the order that this asks.
    B3,
    /// An object runs the body that it ran.
    B4,
    /// A super call runs the body that it ran.
    B5,
    /// No node has two bodies of one slot.
    B6,
    /// A cast, an `instanceof` and a store into an array have the outcomes that they had.
    B7,
    /// Names are identifiers, and apart from each other.
    B8,
    /// The class nodes at or above a class node form a chain.
    B9,
}

/// The nodes of an instance, in the order in which it names them.
#[derive(Clone, Copy)]
pub enum Nodes {
    One(NodeId),
    Two(NodeId, NodeId),
    Three(NodeId, NodeId, NodeId),
}

/// An instance against an obligation: the nodes, and the row and the column where there is one.
#[derive(Clone, Copy)]
pub struct Broken {
    pub rule: Rule,
    pub nodes: Nodes,
    pub row: Option<RowId>,
    pub column: Option<ColId>,
}
