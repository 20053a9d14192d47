//! What a tree declares: its classes and interfaces, their fields, methods and slots, and whether some of them cannot stand together.
#![tactic(auto)]

mod clashes;
mod classes;
mod keys;
mod marks;
mod members;
mod slots;
mod writers;

pub use clashes::{clashes_of, main_of};
pub use classes::{above_of, classes_of, known_of, loops_of};
pub use members::{Draft, members_of};
