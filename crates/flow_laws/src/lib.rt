//! Points-to sets cover each run: whatever a run of a typed program holds or meets comes from a creation
//! whose site is in the set that the facts give it (Andersen, 1994).
//!
//! The crate has definitions and lemmas alone. `specs/cover/Covers.antt` states the theorem: for each family of
//! sets that the inclusions of a program's facts close, the run that is watched by the sets never escapes,
//! and is the run of the program. `specs/cover/Families.antt` says when what a body does stays in a family of
//! sets. The proof has three parts: a run whose bodies stay in the sets never escapes (`proofs/cover/Cover.antt`);
//! the bodies stay in closed sets where each part of them is kinded (`proofs/cover/Included.antt`); and each
//! part of a typed and formed program is (`proofs/cover/Covered.antt`). `proofs/cover/Programs.antt` has the whole.
//!
//! The facts of a typed program are in order: each list has what the table and the start of the hierarchy rest on.
//!
//! The crate has definitions and lemmas alone. `proofs/order/Order.antt` joins the sentences.
#![tactic(auto)]
