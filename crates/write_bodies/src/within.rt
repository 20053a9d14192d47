//! The body that is written.

use java_core::Code;
use write_forms::Source;

/// The body that is written, by its number, and what it is written of.
#[derive(Clone, Copy)]
pub struct Within<'a> {
    pub source: &'a Source<'a>,
    pub number: u64,
    pub code: Code<'a>,
}
