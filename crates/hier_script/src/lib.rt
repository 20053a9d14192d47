//! Scripts on a hierarchy: the hierarchy after the edits of a script, and a line for each that was refused.
#![tactic(auto)]

mod edits;
mod refusals;
mod scripts;

pub use refusals::broken_text;
pub use scripts::{Edited, Scripted, run_script};
