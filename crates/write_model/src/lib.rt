//! The tree that is written of a program and a class hierarchy: its types, their members, and the bodies.
//!
//! The crate has definitions alone. `specs/Bodies.antt` says how each form of a body is written;
//! `specs/Members.antt` which members a type has; `specs/Written.antt` which types there are.
#![tactic(auto)]
