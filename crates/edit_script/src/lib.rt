//! Scripts of edits, one a line: `merge n1 n2 ..`, `under n p`, `move c n`, `type n NAME`, `member c NAME`,
//! `drop n`; and `undo`, which takes the last edit back.
#![tactic(auto)]

mod edits;
mod lines;
mod words;

pub use lines::{Line, ScriptFault, read_script};
