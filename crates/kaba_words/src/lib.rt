//! The words of the command line, the commands that they say, and numbers in words.
#![tactic(auto)]

mod words;

pub use words::{Command, WordsFault, number, read_words};
