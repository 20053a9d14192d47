//! The code of all bodies of a program.

use crate::ops::Instr;
use java_heap::Value;

/// Where the code of a body begins, which of its parameters are an `int`, and the values of its locals
/// past the parameters.
#[derive(Drop)]
pub struct Entry {
    pub pc: u32,
    pub ints: Vec<bool>,
    pub rest: Vec<Value>,
}

/// The code of all bodies, and by the numbers of the methods where each body begins: a method without a
/// body has no entry.
#[derive(Drop)]
pub struct Image {
    pub code: Vec<Instr>,
    pub entries: Vec<Option<Entry>>,
}
