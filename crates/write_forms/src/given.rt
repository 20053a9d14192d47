//! What is written of.

use crate::numbers::Numbering;
use fact_model::MakerNames;
use hier_model::Hier;
use java_core::Program;
use std::alloc::Global;

/// What names and types are written of: the old program, the numbers of its items, the names that are fixed for the
/// methods that make objects, and a hierarchy of the items. What is written stands in the memory of `alloc`.
#[derive(Clone, Copy)]
pub struct Source<'a> {
    pub alloc: Global,
    pub program: &'a Program,
    pub numbering: &'a Numbering,
    pub makers: &'a Option<MakerNames>,
    pub hier: &'a Hier,
}
