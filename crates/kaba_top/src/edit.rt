//! The command `edit`.
#![tactic(auto)]

ghost use Rattle.std.specs.Prelude.{◌≤◌, IfOk, length};
ghost use Rattle.kaba_top.specs.Words.{InRange, InOrder, IsHierarchyOf, GivesReply, most_bytes, TextAnswers, AnalysisAnswers, edit_status, IsTask};
ghost use Rattle.hier_view.specs.Text.{hierarchy_text};
ghost use Rattle.kaba_top.specs.EditAnswers.{EditOf};

use crate::Tried;
use crate::analysis::{Analysed, analyse};
use crate::reading::{Reading, read_program};
use crate::reply::Reply;
use crate::script::{Proposed, Task, edit_status, propose};
use fact_model::Facts;
use hier_script::Edited;
use hier_view::show_hierarchy;
use java_core::Checked;
use std::alloc::Global;

/// The reply with the hierarchy after a script.
fn show(alloc: Global, facts: &Facts, edited: Edited) -> Tried<Reply>
    requires range { InRange facts.now }
    requires hierarchy { IsHierarchyOf facts.now edited.hier }
    ensures { IfOk result (λ reply. GivesReply (edit_status edited.refusals.items)
        (hierarchy_text facts.now edited.hier) edited.refusals.items reply.status reply.out.items
        reply.err.items) }
{
    let mut out = Vec::new(alloc);
    show_hierarchy(alloc, facts, &edited.hier, &mut out)?;
    Ok(Reply {
        status: edit_status(&edited.refusals),
        out,
        err: edited.refusals,
    })
}

/// The reply with the hierarchy after the script, or the reply that it was not run.
fn edit_reply(alloc: Global, facts: &Facts, task: &Task) -> Tried<Reply>
    requires range { InRange facts.now }
    requires order { InOrder facts.now }
    requires task { IsTask task.now }
    ensures { IfOk result (λ reply. EditOf task.now.bound task.now.script.now.items facts.now reply.status reply.out.items reply.err.items) }
{
    match propose(alloc, facts, task)? {
        Proposed::Edited(proposal) => show(alloc, facts, proposal.edited),
        Proposed::Refused(reply) => Ok(reply),
    }
}

/// The reply of `edit` for a program.
fn edit_program(alloc: Global, program: &Checked, task: &Task) -> Tried<Reply>
    requires { IsTask task.now }
    ensures { IfOk result (λ reply. AnalysisAnswers (EditOf task.now.bound task.now.script.now.items) program.now reply.status reply.out.items
        reply.err.items) }
{
    match analyse(alloc, program)? {
        Analysed::Found(facts) => edit_reply(alloc, &facts, task),
        Analysed::Refused(reply) => Ok(reply),
    }
}

/// The reply of `edit` for the bytes of its file and of its script.
pub fn edit_text(alloc: Global, bytes: &Vec<u8>, task: &Task) -> Tried<Reply>
    requires small { length bytes.now.items ≤ most_bytes }
    requires task { IsTask task.now }
    ensures answers { IfOk result (λ reply. TextAnswers (AnalysisAnswers (EditOf task.now.bound task.now.script.now.items)) bytes.now.items
        reply.status reply.out.items reply.err.items) }
{
    match read_program(alloc, bytes)? {
        Reading::Typed(program) => edit_program(alloc, &program, task),
        Reading::Refused(reply) => Ok(reply),
    }
}
