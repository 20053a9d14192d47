//! The layout of each form of the grammar.

use java_again::again;
use std::alloc::{AllocError, Global};

/// The program of the text, written again in the project's layout; `none` where the text is no program.
pub fn add_again(alloc: Global, text: &mut String, program: &Vec<u8>) -> Result<(), AllocError> {
    if program.len() >= 4_294_967_295 {
        return text.push_str("too long\n");
    }
    match again(alloc, program)? {
        Some(written) => {
            let shown = String::from_utf8_lossy(alloc, written.as_slice())?;
            text.push_str(&shown)
        }
        None => text.push_str("none\n"),
    }
}
