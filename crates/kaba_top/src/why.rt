//! The command `why`.
#![tactic(auto)]

ghost use Rattle.std.specs.Prelude.{◌≡◌, ◌≤◌, IfOk, length};
ghost use Rattle.kaba_top.specs.Words.{InRange, InOrder, Says, most_bytes, TextAnswers, AnalysisAnswers};
ghost use Rattle.why_table.specs.Text.{trail_text};
ghost use Rattle.kaba_top.specs.WhyAnswers.{no_entry, WhyOf};

use crate::Tried;
use crate::analysis::{Analysed, analyse};
use crate::reading::{Reading, read_program};
use crate::reply::Reply;
use fact_model::Facts;
use java_core::Checked;
use kaba_base::{ColId, RowId};
use points_to::solve;
use std::alloc::{AllocError, Global};
use table_rules::{close, raw};
use why_table::{Trail, WhyFault, find_trail, show_trail};

/// An entry that is asked for: a row and a column of these numbers, whether they are there or not.
#[derive(Clone, Copy)]
pub struct Asked {
    pub row: u32,
    pub column: u32,
}

/// The text of a trail.
fn show(alloc: Global, trail: &Trail) -> Tried<Vec<u8>>
    ensures { IfOk result (λ out. out.items ≡ trail_text trail.now.steps.items) }
{
    let mut out = Vec::new(alloc);
    show_trail(alloc, trail, &mut out)?;
    Ok(out)
}

/// The reply that there is no such entry.
fn absent(alloc: Global, asked: Asked) -> Tried<Reply>
    ensures { IfOk result (λ reply. Says 71 (no_entry asked.row asked.column) reply.status reply.out.items reply.err.items) }
{
    let row = asked.row;
    let column = asked.column;
    let text = format!(in alloc; "no entry r{row} c{column}")?;
    Reply::line(alloc, 71, text.as_bytes())
}

/// The reply with a trail to the entry, or that there is none.
fn why_reply(alloc: Global, facts: &Facts, asked: Asked) -> Tried<Reply>
    requires facts { InRange facts.now }
    requires order { InOrder facts.now }
    ensures { IfOk result (λ reply. WhyOf asked.row asked.column facts.now reply.status reply.out.items reply.err.items) }
{
    let sets = solve(alloc, facts)?;
    let raw = raw(alloc, facts, &sets)?;
    let table = close(alloc, facts, &sets, raw)?;
    match find_trail(
        alloc,
        facts,
        &sets,
        &table,
        RowId(asked.row),
        ColId(asked.column),
    ) {
        Ok(trail) => Ok(Reply {
            status: 0,
            out: show(alloc, &trail)?,
            err: Vec::new(alloc),
        }),
        Err(WhyFault::NoEntry) => absent(alloc, asked),
        Err(WhyFault::Memory) => Err(AllocError),
    }
}

/// The reply of `why` for a program.
fn why_program(alloc: Global, program: &Checked, asked: Asked) -> Tried<Reply>
    ensures { IfOk result (λ reply. AnalysisAnswers (WhyOf asked.row asked.column) program.now reply.status reply.out.items reply.err.items) }
{
    match analyse(alloc, program)? {
        Analysed::Found(facts) => why_reply(alloc, &facts, asked),
        Analysed::Refused(reply) => Ok(reply),
    }
}

/// The reply of `why` for the bytes of its file.
pub fn why_text(alloc: Global, bytes: &Vec<u8>, asked: Asked) -> Tried<Reply>
    requires small { length bytes.now.items ≤ most_bytes }
    ensures answers { IfOk result (λ reply. TextAnswers (AnalysisAnswers (WhyOf asked.row asked.column)) bytes.now.items reply.status reply.out.items reply.err.items) }
{
    match read_program(alloc, bytes)? {
        Reading::Typed(program) => why_program(alloc, &program, asked),
        Reading::Refused(reply) => Ok(reply),
    }
}
