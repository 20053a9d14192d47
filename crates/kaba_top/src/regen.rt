//! The command `regen`.
#![tactic(auto)]

ghost use Rattle.std.specs.Prelude.{◌≡◌, ◌≤◌, ◌++◌, [], IfOk, length};
ghost use Rattle.kaba_top.specs.Words.{MeetsEdit, program_of, Table, IsTable, AreSets, IsHierarchyOf, log_text, no_tree_text, AreProgramFacts, HasText, GivesReply, line, most_bytes, AnalysisAnswers, edit_status, IsTask};
ghost use Rattle.kaba_top.specs.RegenAnswers.{RegenOf};
ghost use Rattle.kaba_top.specs.Answers.{RegenAnswers};
ghost use Rattle.kaba_top.specs.Proposals.{IsWrittenOver};

use crate::Tried;
use crate::analysis::{Analysed, analyse};
use crate::log::{log_text, no_tree_text};
use crate::reading::{Reading, read_program};
use crate::reply::Reply;
use crate::script::{Proposed, Task, edit_status, propose};
use fact_model::{Facts, PointsTo};
use hier_model::Hier;
use java_core::Checked;
use java_write::write_java;
use std::alloc::{AllocError, Global};
use tree_merge::{NoTree, TreeFault, TreeStep, make_tree};

/// What a hierarchy comes to.
#[derive(Drop)]
pub enum Regenerated {
    /// The hierarchy whose class nodes are a tree, the steps that led to it, and the text of its program.
    Written {
        hier: Hier,
        log: Vec<TreeStep>,
        text: Vec<u8>,
    },
    /// A conflict, where there is no tree.
    Stuck(NoTree),
}

/// Brings the class nodes of a hierarchy into a tree, and writes the program of it.
pub fn regenerate(
    alloc: Global,
    program: &Checked,
    facts: &Facts,
    sets: &PointsTo,
    hier: Hier,
) -> Tried<Regenerated>
    requires text { HasText program.now }
    requires facts { AreProgramFacts (program_of program.now) facts.now }
    requires sets { AreSets facts.now sets.now }
    requires table { (t : Table) × IsTable facts.now t }
    requires hierarchy { IsHierarchyOf facts.now hier }
    requires meets { MeetsEdit facts.now sets.now hier }
    ensures regenerated { IfOk result (IsWrittenOver program.now facts.now sets.now hier) }
{
    let mut made = hier;
    match make_tree(alloc, &mut made, facts, sets) {
        Ok(log) => {
            let mut text = Vec::new(alloc);
            write_java(alloc, program, facts, &made, &mut text)?;
            Ok(Regenerated::Written {
                hier: made,
                log,
                text,
            })
        }
        Err(TreeFault::NoTree(fault)) => Ok(Regenerated::Stuck(fault)),
        Err(TreeFault::Memory) => Err(AllocError),
    }
}

/// The lines of the refused edits, and then those of a log.
fn told(alloc: Global, refusals: Vec<u8>, log: &[TreeStep]) -> Tried<Vec<u8>>
    ensures { IfOk result (λ lines. lines.items ≡ refusals.items ++ log_text log.now) }
{
    let mut lines = refusals;
    let text = log_text(alloc, log)?;
    lines.extend_from_slice(text.as_bytes())?;
    Ok(lines)
}

/// The reply with a program that was written, and the lines of the refused edits and of the log.
fn written_reply(
    alloc: Global,
    refusals: Vec<u8>,
    log: &Vec<TreeStep>,
    text: Vec<u8>,
) -> Tried<Reply>
    ensures { IfOk result (λ reply. GivesReply (edit_status refusals.items) text.items (refusals.items ++ log_text log.now.items) reply.status
        reply.out.items reply.err.items) }
{
    let status = edit_status(&refusals);
    let err = told(alloc, refusals, log)?;
    Ok(Reply {
        status,
        out: text,
        err,
    })
}

/// The reply that there is no tree.
pub fn stuck(alloc: Global, refusals: Vec<u8>, fault: &NoTree) -> Tried<Reply>
    ensures { IfOk result (λ reply. GivesReply 5 []
        (refusals.items ++ (log_text fault.now.log.items ++ line (no_tree_text fault.now))) reply.status
        reply.out.items reply.err.items) }
{
    let mut err = told(alloc, refusals, &fault.log)?;
    let text = no_tree_text(alloc, fault)?;
    let last = Reply::line(alloc, 5, text.as_bytes())?;
    err.extend_from_slice(&last.err)?;
    Ok(Reply {
        status: 5,
        out: Vec::new(alloc),
        err,
    })
}

/// The reply with the program that is written of the hierarchy after the script, or the reply that there is none.
fn regen_reply(alloc: Global, program: &Checked, facts: &Facts, task: &Task) -> Tried<Reply>
    requires text { HasText program.now }
    requires facts { AreProgramFacts (program_of program.now) facts.now }
    requires task { IsTask task.now }
    ensures { IfOk result (λ reply. RegenOf task.now.bound task.now.script.now.items program.now facts.now reply.status reply.out.items reply.err.items) }
{
    let proposal = match propose(alloc, facts, task)? {
        Proposed::Edited(proposal) => proposal,
        Proposed::Refused(reply) => return Ok(reply),
    };
    let edited = proposal.edited;
    match regenerate(alloc, program, facts, &proposal.sets, edited.hier)? {
        Regenerated::Written { log, text, .. } => written_reply(alloc, edited.refusals, &log, text),
        Regenerated::Stuck(fault) => stuck(alloc, edited.refusals, &fault),
    }
}

/// The reply of `regen` for a program of a text.
fn regen_program(alloc: Global, program: &Checked, task: &Task) -> Tried<Reply>
    requires text { HasText program.now }
    requires task { IsTask task.now }
    ensures { IfOk result (λ reply. AnalysisAnswers (RegenOf task.now.bound task.now.script.now.items program.now) program.now reply.status
        reply.out.items reply.err.items) }
{
    match analyse(alloc, program)? {
        Analysed::Found(facts) => regen_reply(alloc, program, &facts, task),
        Analysed::Refused(reply) => Ok(reply),
    }
}

/// The reply of `regen` for the bytes of its file and of its script.
pub fn regen_text(alloc: Global, bytes: &Vec<u8>, task: &Task) -> Tried<Reply>
    requires small { length bytes.now.items ≤ most_bytes }
    requires task { IsTask task.now }
    ensures answers { IfOk result (λ reply. RegenAnswers task.now.bound bytes.now.items task.now.script.now.items reply.status reply.out.items
        reply.err.items) }
{
    match read_program(alloc, bytes)? {
        Reading::Typed(program) => regen_program(alloc, &program, task),
        Reading::Refused(reply) => Ok(reply),
    }
}
