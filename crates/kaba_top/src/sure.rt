//! The command `sure`.
#![tactic(auto)]

ghost use Rattle.std.specs.Prelude.{◌≡◌, ◌≤◌, IfOk, length};
ghost use Rattle.sure_report.specs.Report.{AreSpotsInRange};
ghost use Rattle.sure_report.specs.Text.{sure_text};
ghost use Rattle.kaba_top.specs.Words.{InRange, most_bytes, TextAnswers, AnalysisAnswers};
ghost use Rattle.kaba_top.specs.SureAnswers.{SureOf};

use crate::Tried;
use crate::analysis::{Analysed, analyse};
use crate::reading::{Reading, read_program};
use crate::reply::Reply;
use fact_model::Facts;
use java_core::Checked;
use points_to::solve;
use std::alloc::Global;
use sure_report::{Sure, report, show_sure};

/// The text of a report.
fn show(alloc: Global, facts: &Facts, sure: &Sure) -> Tried<Vec<u8>>
    ensures { IfOk result (λ out. out.items ≡ sure_text facts.now sure.now) }
{
    let mut out = Vec::new(alloc);
    show_sure(alloc, facts, sure, &mut out)?;
    Ok(out)
}

/// The reply with what is sure of every run by the points-to sets of the facts.
fn sure_reply(alloc: Global, facts: &Facts) -> Tried<Reply>
    requires facts { InRange facts.now }
    requires spots { AreSpotsInRange facts.now }
    ensures { IfOk result (λ reply. SureOf facts.now reply.status reply.out.items reply.err.items) }
{
    let sets = solve(alloc, facts)?;
    let sure = report(alloc, facts, &sets)?;
    Ok(Reply {
        status: 0,
        out: show(alloc, facts, &sure)?,
        err: Vec::new(alloc),
    })
}

/// The reply of `sure` for a program.
fn sure_program(alloc: Global, program: &Checked) -> Tried<Reply>
    ensures { IfOk result (λ reply. AnalysisAnswers SureOf program.now reply.status reply.out.items reply.err.items) }
{
    match analyse(alloc, program)? {
        Analysed::Found(facts) => sure_reply(alloc, &facts),
        Analysed::Refused(reply) => Ok(reply),
    }
}

/// The reply of `sure` for the bytes of its file.
pub fn sure_text(alloc: Global, bytes: &Vec<u8>) -> Tried<Reply>
    requires small { length bytes.now.items ≤ most_bytes }
    ensures answers { IfOk result (λ reply. TextAnswers (AnalysisAnswers SureOf) bytes.now.items reply.status reply.out.items reply.err.items) }
{
    match read_program(alloc, bytes)? {
        Reading::Typed(program) => sure_program(alloc, &program),
        Reading::Refused(reply) => Ok(reply),
    }
}
