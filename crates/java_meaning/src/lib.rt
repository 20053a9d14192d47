//! What a resolved program does: the step meaning, its laws, and that no typed program goes wrong.
//!
//! The crate has definitions and lemmas alone. `specs/Meaning.antt` gives, by recursion on the steps
//! that are left and on the tree, the output and the end of each run; `specs/Languages.antt` gives
//! what a run asks of a program. The interpreter's contract and the theorems on rewritten programs
//! speak of it.
#![tactic(auto)]
