//! The steps that bring the class nodes of a hierarchy into a tree, as definitions.
//!
//! A tree of classes is always found where a script only drops nodes and gives fresh names: a law, and its lemmas.
#![tactic(auto)]

ghost use Rattle.hier_tree.specs.Trees.{OneGrowth};
ghost use Rattle.hier_tree.specs.Laws.{TreeIsFound};

use kaba_base::NodeId;

/// A conflict: a class node, and two class nodes at or above it that are not ordered. A class of
/// Java extends one class, so that the class nodes at or above each one have to form a chain.
#[derive(Clone, Copy)]
pub struct Conflict {
    /// The class node below both.
    pub lower: NodeId,
    /// The one with the lesser number.
    pub first: NodeId,
    /// The other.
    pub second: NodeId,
}

/// The steps towards a tree are fixed by the hierarchy: two logs that meet the definition are equal,
/// and so are their ends, with the hierarchy that each leaves.
pub fn one_tree()
    ensures { OneGrowth }
{}

/// For facts in order in which all types are classes, with their sets, their closed table and its lattice: the
/// steps towards a tree from the lattice's hierarchy, after accepted drops and fresh renames, end at a tree and
/// not at a conflict whose tries are all refused (after Streckenbach and Snelting, 2004, who search for one).
pub fn tree_is_found()
    ensures { TreeIsFound }
{}
