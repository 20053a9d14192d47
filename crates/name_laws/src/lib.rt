//! What comes of a tree: the program to which the rules of names take it step by step, or the first of its faults; and that
//! this is the program to which it resolves, formed, or a condition that holds of it.
//!
//! The crate has definitions, the laws on them, and the types that they speak of. `java_resolve` finds what they say.
#![tactic(auto)]

mod parts;

pub use parts::{Flags, Heading};
