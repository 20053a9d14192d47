//! What is sure of every run by the points-to sets of a program's facts is so in each run.
//!
//! The crate has definitions and lemmas, and one call without a body whose contract is the law. `specs/Events.antt` says
//! what a run meets: it is read off the record that a run may keep, so the run itself is as before. A run under the
//! watch of the typed sets never escapes (`flow_laws`), nor one under the watch of the shapes of the static types
//! (`proofs/Shaped.antt`); each object that it looks at thus has a site, which is in the set of its spot
//! (`proofs/Meeting.antt`), each cast and call has its spot in the facts (`proofs/OwnSpots.antt`), and the report is read
//! off those sets (`proofs/Sure.antt`).
#![tactic(auto)]

ghost use Rattle.sure_laws.specs.Laws.{IsRunRecorded, RunsMeetInSets, ReportsAreTrue};

/// The record of a run changes nothing of the run. For all words and every bound, what the run of a typed program meets
/// has its site in the set of its operand, receiver, `this` or base, for every family of sets that the inclusions of its
/// facts close; and it is as the report on its facts and their points-to sets says: each cast of an object and each call
/// of a method through a receiver has its spot, no object fails a cast that is sure, no body runs at a call that runs
/// none, only the one at a call that runs one, and no dead body is entered, that of a constructor neither, and no dead
/// field touched.
pub fn sure_of_runs()
    ensures recorded { IsRunRecorded }
    ensures met { RunsMeetInSets }
    ensures reports { ReportsAreTrue }
{}
