//! The table of rows against columns (after Snelting and Tip, 2000): the entries of the rules without premises, and
//! the least table that holds them and is closed under the others.
#![tactic(auto)]

mod above;
mod asked;
mod closing;
mod columns;
mod groups;
mod index;
mod lists;
mod marks;
mod order;
mod raw_table;
mod sites;
mod state;
mod turns;

pub use closing::close;
pub use raw_table::raw;
use std::alloc::AllocError;

/// What was made, or that memory was short.
type Tried<T> = Result<T, AllocError>;
