//! What tries are made for.

use fact_model::{Facts, PointsTo};
use hier_rules::{ClashPair, JoinIndex};
use std::alloc::Global;

/// What tries are made for: facts and their sets, and what is found of these and of the names of members once, since no
/// join changes it. What a try makes stands in the memory of `alloc`.
#[derive(Clone, Copy)]
pub struct Given<'a> {
    pub alloc: Global,
    pub facts: &'a Facts,
    pub sets: &'a PointsTo,
    pub index: &'a JoinIndex,
    pub clashes: &'a Vec<ClashPair>,
}
