//! The interpreter: runs a resolved program that the rules of types accept.
//!
//! The bodies are compiled once to linear code, and a machine runs that, so that neither deep calls
//! nor long loops take stack of the machine that runs it.
#![tactic(auto)]

mod runs;

pub use runs::{End, Outcome, one_outcome, run};
