//! What the lists of the facts are made from.

use crate::numbering::Numbering;
use java_core::Program;
use std::alloc::Global;

/// The program whose facts are said, and the numbers of its rows, columns, sites and flow points.
#[derive(Clone, Copy)]
pub struct Given<'a> {
    pub alloc: Global,
    pub program: &'a Program,
    pub numbering: &'a Numbering,
}
