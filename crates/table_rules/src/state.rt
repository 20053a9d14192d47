//! What the table is closed by, and what the worklist works on.

use crate::index::Index;
use crate::lists::Lists;
use fact_model::{Facts, PointsTo};
use kaba_bits::BitRow;

/// The facts, their points-to sets and their index.
#[derive(Drop)]
pub struct Given<'a> {
    pub facts: &'a Facts,
    pub pt: &'a PointsTo,
    pub index: &'a Index,
}

/// For each column what it is known to ask for, a set of columns to work with, the rows of the table so far, and what waits.
#[derive(Drop)]
pub struct State {
    pub asked: Vec<BitRow>,
    pub both: BitRow,
    pub rows: Vec<BitRow>,
    pub lists: Lists,
}
