//! What a run asks of the classes of a program, each found once.
#![tactic(auto)]

mod classes;
mod objects;
mod rows;

pub use classes::Classes;
pub use objects::layout;
