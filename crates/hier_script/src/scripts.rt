//! A script on the hierarchy of a program.
#![tactic(auto)]

ghost use Rattle.std.specs.Prelude.{◌<◌, IfOk, length};
ghost use Rattle.hier_rules.specs.Words.{InRange, InOrder, IsTable, IsLatticeOf, AreSets, start_from};
ghost use Rattle.hier_script.specs.Answers.{IsScripted};

use crate::edits::run_edits;
use edit_script::{ScriptFault, read_script};
use fact_model::{Facts, Lattice, PointsTo, Table};
use hier_model::{Hier, start};
use std::alloc::{AllocError, Global};

/// What a script makes of a hierarchy.
#[derive(Drop)]
pub struct Edited {
    /// The hierarchy after it.
    pub hier: Hier,
    /// The lines of the edits that were refused.
    pub refusals: Vec<u8>,
}

/// What a script comes to.
#[derive(Drop)]
pub enum Scripted {
    /// The line of this number is the first that is no edit.
    BadLine(u32),
    /// There are more edits than there may be.
    TooManyEdits,
    Edited(Edited),
}

/// Runs a script on the hierarchy at which a program starts: the one of its table's lattice.
///
/// The script is read whole before an edit is applied. The hierarchy after it meets the obligations B1 to B8.
/// `AllocError` comes where memory is short.
pub fn run_script(
    alloc: Global,
    facts: &Facts,
    sets: &PointsTo,
    table: &Table,
    lattice: &Lattice,
    script: &Vec<u8>,
) -> Result<Scripted, AllocError>
    requires range { InRange facts.now }
    requires order { InOrder facts.now }
    requires table { IsTable facts.now table.now }
    requires lattice { IsLatticeOf table.now lattice.now }
    requires sets { AreSets facts.now sets.now }
    requires few { length lattice.now.concepts.items < 4294967295 }
    requires small { length script.now.items < 4294967295 }
    ensures scripted { IfOk result (IsScripted facts.now sets.now (start_from facts.now table.now lattice.now) script.now.items) }
{
    match read_script(alloc, script) {
        Ok(lines) => {
            let mut hier = start(alloc, facts, table, lattice)?;
            let refusals = run_edits(alloc, &mut hier, facts, sets, &lines)?;
            Ok(Scripted::Edited(Edited { hier, refusals }))
        }
        Err(ScriptFault::BadLine(number)) => Ok(Scripted::BadLine(number)),
        Err(ScriptFault::TooManyEdits) => Ok(Scripted::TooManyEdits),
        Err(ScriptFault::Memory) => Err(AllocError),
    }
}
