//! The class nodes of a hierarchy, brought into a tree by edits: step by step, each the first try of
//! the first conflict that is accepted (after Streckenbach and Snelting, 2004).
#![tactic(auto)]

mod attempts;
mod conflicts;
mod given;
mod steps;
mod trees;
mod tries;

pub use hier_tree::Conflict;
pub use steps::TreeStep;
pub use trees::{NoTree, TreeFault, make_tree};
