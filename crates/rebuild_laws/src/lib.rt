//! What is found in a program that rebuilds another one: each field, method and body that a node offers.
//!
//! The crate has definitions and lemmas alone. `specs/looks/Known.antt` has what is known of the two programs and the
//! hierarchy; the lemmas of `proofs/looks/` say what the look-ups of the new program find.
//!
//! What is known where no obligation of a hierarchy is broken: the halves of the obligations as laws, and what
//! the look-ups in a program that rebuilds another rest on.
//!
//! The crate has lemmas alone.
//!
//! A program that rebuilds a typed one over another hierarchy is typed, and offers each row its columns.
//!
//! Code is written only in laws. `proofs/types/Retyped.antt` says what types keep when their classes become those of
//! rows; `proofs/types/Walk.antt` and `proofs/types/Statements.antt` that a copy of a typed body is typed, where what its parts
//! ask is there; `proofs/types/Served.antt` that it is, where the hierarchy breaks no obligation; `proofs/types/Typed.antt` has
//! the whole program, and `proofs/types/Rows.antt` the rows.
//!
//! Two languages whose runs are the same: forms that correspond, objects that keep the same fields.
//!
//! The crate has definitions and lemmas alone. `specs/twins/Twins.antt` says when a body of one language
//! is the twin of a body of the other, form by form, and what ties the two languages;
//! `proofs/twins/SameRun.antt` has the theorem, by induction on the depth of calls and loops and on the trees;
//! `proofs/twins/Calls.antt` has its calls and creations, also that of a class with a constructor beside the call of a
//! method that makes the object (`proofs/twins/MadeCode.antt`), and `proofs/twins/TrySame.antt` and
//! `proofs/twins/TryMake.antt` two small programs each that meet what it asks.
//!
//! A program that rebuilds another over its hierarchy has the same run: it prints the same, ends
//! the same way, and takes as many steps.
//!
//! Code is written only in the law. `proofs/runs/Ties.antt` says what the parts of a body ask for this,
//! and `proofs/runs/Walk.antt` and `proofs/runs/Statements.antt` that a copy of a body whose parts have it
//! is the body's twin (crate `rebuild_laws`), `proofs/runs/Makes.antt` so for a creation of a class with a
//! constructor; `proofs/runs/Tied.antt`, `proofs/runs/Outcomes.antt` and
//! `proofs/runs/Creations.antt` that they have it where the hierarchy breaks no obligation;
//! `proofs/runs/Rebuilt.antt` has the two programs, and `proofs/runs/Whole.antt` the law.
//!
//! Two programs that are one but for places, order, modifiers and `this.` have the same run.
//!
//! `proofs/one/Found.antt` says what the look-ups of the two find, `proofs/one/Statics.antt` what types expressions have,
//! `proofs/one/Laid.antt` what new objects hold, `proofs/one/Twin.antt` that their bodies are twins;
//! `proofs/one/Seen.antt` has the watched run of the first, and `proofs/one/Whole.antt` the law.
#![tactic(auto)]

ghost use Rattle.rebuild_laws.specs.types.Laws.{WrittenIsTyped, RowsAreOffered};
ghost use Rattle.rebuild_laws.specs.runs.Same.{OneRunsTheSame, RebuiltRunsTheSame};

/// A formed program that rebuilds a typed one over a hierarchy that breaks no obligation is typed, where its
/// methods are public and what fills in for a body gives the default of its result (after Streckenbach and
/// Snelting, 2004, who write such programs).
pub fn written_is_typed()
    ensures { WrittenIsTyped }
{}

/// And each row finds its columns in the type of its node: its fields under their names, a slot for each
/// declaration, its bodies and the types of its marks there or above (after Snelting and Tip, 2000).
pub fn rows_are_offered()
    ensures { RowsAreOffered }
{}

/// Any formed program that rebuilds a typed one over a hierarchy that breaks no obligation has its
/// run: for all words and every bound on the steps it ends the same way, with the same output and
/// as many steps left (after Snelting and Tip, 2000, who ask of a changed hierarchy that the
/// program behaves as before). That it is typed is not asked: no run of it comes where no rule is.
pub fn same_run()
    ensures { RebuiltRunsTheSame }
{}

/// Two formed programs that are one but for places, modifiers without meaning, `this.` written or left away, and the
/// order of types and members have the same run, where the first is typed: for all words and every bound on the steps
/// they end the same way, with the same output and as many steps left.
pub fn one_run()
    ensures { OneRunsTheSame }
{}
