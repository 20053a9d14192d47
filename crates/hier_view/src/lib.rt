//! The text of a class hierarchy.
#![tactic(auto)]

mod edits;
mod lines;
mod lists;

pub use edits::add_edit;
pub use lines::show_hierarchy;
pub use lists::live_nodes;
