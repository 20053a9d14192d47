//! What the walk over a body is given.

use java_core::{Code, Program};
use std::alloc::Global;

/// The body that is walked, by its number in its program.
#[derive(Clone, Copy)]
pub struct Enclosing<'a> {
    pub alloc: Global,
    pub program: &'a Program,
    pub number: u64,
    pub code: Code<'a>,
}
