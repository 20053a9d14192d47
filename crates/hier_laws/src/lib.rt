//! The obligations of a hierarchy over small records of truth-valued functions, and that the start meets
//! them: definitions and lemmas only, free of lists and of the program.
//!
//! The hierarchy that a concept lattice proposes meets its obligations: a law, and its lemmas.
#![tactic(auto)]

ghost use Rattle.hier_laws.specs.Laws.{StartMeets};

/// For facts in order with their sets, their closed table and its lattice, the hierarchy of the lattice
/// meets the obligations B2 to B8 (its order is a partial order: B1).
pub fn start_meets()
    ensures { StartMeets }
{}
