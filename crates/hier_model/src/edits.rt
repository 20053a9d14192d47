//! Edits and acts, and why an edit makes no hierarchy.

use kaba_base::{ColId, Name, NodeId};
use std::alloc::AllocError;

/// An edit of a hierarchy (after Streckenbach and Snelting, 2004).
#[derive(Drop)]
pub enum Edit {
    /// Make one node of a list: the least of them and its name, with all columns and rows.
    Merge(Vec<NodeId>),
    /// Put a node below another.
    Under(NodeId, NodeId),
    /// Let a column stand at another node; with a body goes its `this`.
    Move(ColId, NodeId),
    /// Give the type of a node a name.
    TypeName(NodeId, Name),
    /// Give a member a name, and with a method its whole slot.
    MemberName(ColId, Name),
    /// Take out a node where nothing stands.
    Drop(NodeId),
}

/// What a script asks for: an edit, or to take back the last one that was made.
#[derive(Drop)]
pub enum Act {
    /// An edit.
    Edit(Edit),
    /// Take back the last edit that was made and not taken back.
    Undo,
}

/// Why an edit makes no hierarchy.
#[derive(Clone, Copy)]
pub enum ChangeFault {
    /// No live node has this number.
    UnknownNode(NodeId),
    /// No column of this number stands anywhere, or it is a mark, which has no name.
    UnknownMember(ColId),
    /// A column or a row stands at the node.
    NotEmpty(NodeId),
    /// The order would not be one: the node lies strictly between two of a merge, or is strictly above
    /// the one that it is put under.
    Cycle(NodeId),
    /// No memory is left.
    Memory,
}

impl From<AllocError> for ChangeFault {
    ghost use Rattle.std.specs.Prelude.{◌≡◌};
    ghost use Rattle.hier_model.specs.declared.edits.ChangeFault.{ChangeFault};

    ghost from_gives = { λ _ e. e ≡ ChangeFault.Memory };

    fn from(_e: AllocError) -> ChangeFault {
        ChangeFault::Memory
    }
}
