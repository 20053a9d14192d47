//! The values of a run, what the operators make of them, and the heap: strings and cells
//! (Java Language Specification, chapters 4, 5 and 15, the subset's part).
#![tactic(auto)]

mod heap;
mod numbers;
mod packed;
mod pairs;
mod printing;
mod values;

pub use heap::{CellKind, Heap};
pub use java_core::{Fault, Op};
pub use numbers::{arith, cast_number, compare, negate};
pub use printing::{equals, join, print, text_of};
pub use values::{Value, convert, default_of, same_value};
