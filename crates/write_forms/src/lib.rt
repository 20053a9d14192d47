//! How names, types and the single forms of an expression are written for a class hierarchy (after
//! Streckenbach and Snelting, 2004): types are named by the nodes of their rows, members by their
//! columns. Parts of a form are given as they are written already; `write_bodies` walks over the
//! old expressions and statements.
#![tactic(auto)]

pub mod forms;
mod given;
mod holders;
mod makes;
mod names;
mod numbers;

pub use given::Source;
pub use holders::{static_call, static_field, variable_name};
pub use makes::{make_name, make_names, makers_local, makers_name};
pub use names::{field_name, infix_mark, method_name, modifier, prefix_mark, row_name, row_type};
pub use numbers::{Numbering, result_row, variable_row};
