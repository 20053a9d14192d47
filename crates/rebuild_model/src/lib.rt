//! When a program is another one over a new class hierarchy: the rebuild relation.
//!
//! The crate has definitions alone. `specs/Matches.antt` says when a body is another with new names and
//! types, form by form; `specs/Rebuilds.antt` says which types and members the new program has.
#![tactic(auto)]
