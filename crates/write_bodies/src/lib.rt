//! How the bodies of a program are written for a class hierarchy (after Streckenbach and Snelting,
//! 2004): the forms are those of the old bodies, types are named by the nodes of their rows, and
//! members by their columns. Expressions and statements are here; declarations follow.
#![tactic(auto)]

mod exprs;
mod stmts;
mod within;

pub use exprs::expr;
pub use stmts::body;
pub use within::Within;
