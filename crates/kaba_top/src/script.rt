//! A script on the hierarchy at which a program starts.
#![tactic(auto)]

ghost use Rattle.std.specs.Prelude.{◌≡◌, ◌≤◌, IfOk, length};
ghost use Rattle.kaba_top.specs.Words.{InRange, InOrder, IsTable, AreSets, Says, edit_status, IsTask};
ghost use Rattle.fact_model.specs.Concepts.{IsLatticeOf};
ghost use Rattle.kaba_top.specs.ScriptAnswers.{bad_script, too_many_edits};
ghost use Rattle.kaba_top.specs.Proposals.{IsProposed};

use crate::Tried;
use crate::analysis::too_many_concepts;
use crate::reply::Reply;
use concept_build::{LatticeFault, concepts};
use fact_model::{Facts, Lattice, PointsTo, Table};
use hier_script::{Edited, Scripted, run_script};
use points_to::solve;
use std::alloc::{AllocError, Global};
use table_rules::{close, raw};

/// What is asked for of a program: a script, and how many concepts there may be.
#[derive(Clone, Copy)]
pub struct Task<'a> {
    pub script: &'a Vec<u8>,
    pub bound: u32,
}

/// The hierarchy after a script, and what it was found by.
#[derive(Drop)]
pub struct Proposal {
    /// The points-to sets of the facts.
    pub sets: PointsTo,
    /// Their closed table.
    pub table: Table,
    /// The table's lattice.
    pub lattice: Lattice,
    /// The hierarchy of the lattice after the edits, and the lines of those that were refused.
    pub edited: Edited,
}

/// What a script comes to: a hierarchy, or the reply that it was not run.
#[derive(Drop)]
pub enum Proposed {
    Edited(Proposal),
    Refused(Reply),
}

/// The status of a script that was run, with these lines of refused edits.
pub fn edit_status(refusals: &[u8]) -> u8
    ensures { result ≡ edit_status refusals.now }
{
    if refusals.is_empty() { 0 } else { 4 }
}

/// The reply that a line is no edit.
fn bad_script(alloc: Global, line: u32) -> Tried<Reply>
    ensures { IfOk result (λ reply. Says 69 (bad_script line) reply.status reply.out.items reply.err.items) }
{
    let text = format!(in alloc; "bad script: line {line}")?;
    Reply::line(alloc, 69, text.as_bytes())
}

/// The reply that there are more edits than there may be.
fn too_many_edits(alloc: Global) -> Tried<Reply>
    ensures { IfOk result (λ reply. Says 67 too_many_edits reply.status reply.out.items reply.err.items) }
{
    Reply::line(alloc, 67, b"too large: edits 4096")
}

/// Runs the script on the hierarchy of the lattice.
fn run_over(
    alloc: Global,
    facts: &Facts,
    sets: PointsTo,
    table: Table,
    lattice: Lattice,
    task: &Task,
) -> Tried<Proposed>
    requires range { InRange facts.now }
    requires order { InOrder facts.now }
    requires sets { AreSets facts.now sets }
    requires table { IsTable facts.now table }
    requires lattice { IsLatticeOf table lattice }
    requires within { length lattice.concepts.items ≤ task.now.bound }
    requires task { IsTask task.now }
    ensures proposed { IfOk result (IsProposed task.now.bound task.now.script.now.items facts.now) }
{
    match run_script(alloc, facts, &sets, &table, &lattice, task.script)? {
        Scripted::Edited(edited) => Ok(Proposed::Edited(Proposal {
            sets,
            table,
            lattice,
            edited,
        })),
        Scripted::BadLine(line) => Ok(Proposed::Refused(bad_script(alloc, line)?)),
        Scripted::TooManyEdits => Ok(Proposed::Refused(too_many_edits(alloc)?)),
    }
}

/// The hierarchy after the script, or the reply with how many concepts or edits are allowed, or with the line
/// that is no edit.
pub fn propose(alloc: Global, facts: &Facts, task: &Task) -> Tried<Proposed>
    requires range { InRange facts.now }
    requires order { InOrder facts.now }
    requires task { IsTask task.now }
    ensures proposed { IfOk result (IsProposed task.now.bound task.now.script.now.items facts.now) }
{
    let sets = solve(alloc, facts)?;
    let raw = raw(alloc, facts, &sets)?;
    let table = close(alloc, facts, &sets, raw)?;
    match concepts(alloc, &table, task.bound) {
        Ok(lattice) => run_over(alloc, facts, sets, table, lattice, task),
        Err(LatticeFault::TooManyConcepts(_)) => {
            Ok(Proposed::Refused(too_many_concepts(alloc, task.bound)?))
        }
        Err(LatticeFault::Memory) => Err(AllocError),
    }
}
