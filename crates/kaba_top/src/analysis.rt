//! The commands `table` and `lattice`.
#![tactic(auto)]

ghost use Rattle.std.specs.Prelude.{◌≡◌, ◌≤◌, IfOk, length};
ghost use Rattle.kaba_top.specs.Words.{InRange, IsTable, Says, most_bytes, TextAnswers, AnalysisAnswers};
ghost use Rattle.kaba_top.specs.TextFacts.{shown};
ghost use Rattle.kaba_top.specs.FactsAnswers.{TableOf, LatticeOf, too_many_concepts};
ghost use Rattle.kaba_top.specs.Analyses.{IsAnalysisOf};

use crate::Tried;
use crate::cause_words::{Cause, cause_text};
use crate::reading::{Reading, read_program};
use crate::reply::Reply;
use concept_build::{LatticeFault, concepts};
use fact_model::{Facts, Lattice, Table};
use flow_program::{FactsFault, facts};
use java_core::Checked;
use lattice_view::{show_json, show_table, show_text};
use points_to::solve;
use std::alloc::{AllocError, Global};
use table_rules::{close, raw};

/// What a program is to the analysis: its facts, or the reply that it has none.
#[derive(Drop)]
pub enum Analysed {
    Found(Facts),
    Refused(Reply),
}

/// The facts of a program, or the reply that it has none.
pub fn analyse(alloc: Global, program: &Checked) -> Tried<Analysed>
    ensures { IfOk result (λ analysed. IsAnalysisOf program.now analysed) }
{
    match facts(alloc, program) {
        Ok(facts) => Ok(Analysed::Found(facts)),
        Err(FactsFault::TooMany(what, _)) => {
            let limit = cause_text(Cause::Limit(what));
            let text = format!(in alloc; "too large: {limit}")?;
            Ok(Analysed::Refused(Reply::line(alloc, 67, text.as_bytes())?))
        }
        Err(FactsFault::Memory) => Err(AllocError),
    }
}

/// The closed table of the facts.
pub fn table_of(alloc: Global, facts: &Facts) -> Tried<Table>
    requires facts { InRange facts.now }
    ensures { IfOk result (λ table. IsTable facts.now table) }
{
    let sets = solve(alloc, facts)?;
    let raw = raw(alloc, facts, &sets)?;
    close(alloc, facts, &sets, raw)
}

/// The reply with the text of the table.
fn table_reply(alloc: Global, facts: &Facts) -> Tried<Reply>
    requires facts { InRange facts.now }
    ensures { IfOk result (λ reply. TableOf facts.now reply.status reply.out.items reply.err.items) }
{
    let table = table_of(alloc, facts)?;
    let mut out = Vec::new(alloc);
    show_table(alloc, facts, &table, &mut out)?;
    Ok(Reply {
        status: 0,
        out,
        err: Vec::new(alloc),
    })
}

/// The text of a lattice, or its JSON.
fn show(alloc: Global, json: bool, facts: &Facts, lattice: &Lattice) -> Tried<Vec<u8>>
    ensures { IfOk result (λ out. out.items ≡ shown json facts.now lattice.now) }
{
    let mut out = Vec::new(alloc);
    if json {
        show_json(alloc, facts, lattice, &mut out)?;
    } else {
        show_text(alloc, lattice, &mut out)?;
    }
    Ok(out)
}

/// The reply that there are more concepts than are allowed.
pub fn too_many_concepts(alloc: Global, bound: u32) -> Tried<Reply>
    ensures { IfOk result (λ reply. Says 68 (too_many_concepts bound) reply.status reply.out.items reply.err.items) }
{
    let text = format!(in alloc; "too many concepts: more than {bound}")?;
    Reply::line(alloc, 68, text.as_bytes())
}

/// The reply with the lattice, or with how many concepts are allowed.
fn lattice_reply(alloc: Global, facts: &Facts, json: bool, bound: u32) -> Tried<Reply>
    requires facts { InRange facts.now }
    ensures { IfOk result (λ reply. LatticeOf json bound facts.now reply.status reply.out.items reply.err.items) }
{
    let table = table_of(alloc, facts)?;
    match concepts(alloc, &table, bound) {
        Ok(lattice) => Ok(Reply {
            status: 0,
            out: show(alloc, json, facts, &lattice)?,
            err: Vec::new(alloc),
        }),
        Err(LatticeFault::TooManyConcepts(_)) => too_many_concepts(alloc, bound),
        Err(LatticeFault::Memory) => Err(AllocError),
    }
}

/// The reply of `table` for a program.
fn table_program(alloc: Global, program: &Checked) -> Tried<Reply>
    ensures { IfOk result (λ reply. AnalysisAnswers TableOf program.now reply.status reply.out.items reply.err.items) }
{
    match analyse(alloc, program)? {
        Analysed::Found(facts) => table_reply(alloc, &facts),
        Analysed::Refused(reply) => Ok(reply),
    }
}

/// The reply of `lattice` for a program.
fn lattice_program(alloc: Global, program: &Checked, json: bool, bound: u32) -> Tried<Reply>
    ensures { IfOk result (λ reply. AnalysisAnswers (LatticeOf json bound) program.now reply.status reply.out.items reply.err.items) }
{
    match analyse(alloc, program)? {
        Analysed::Found(facts) => lattice_reply(alloc, &facts, json, bound),
        Analysed::Refused(reply) => Ok(reply),
    }
}

/// The reply of `table` for the bytes of its file.
pub fn table_text(alloc: Global, bytes: &Vec<u8>) -> Tried<Reply>
    requires small { length bytes.now.items ≤ most_bytes }
    ensures answers { IfOk result (λ reply. TextAnswers (AnalysisAnswers TableOf) bytes.now.items reply.status reply.out.items reply.err.items) }
{
    match read_program(alloc, bytes)? {
        Reading::Typed(program) => table_program(alloc, &program),
        Reading::Refused(reply) => Ok(reply),
    }
}

/// The reply of `lattice` for the bytes of its file.
pub fn lattice_text(alloc: Global, bytes: &Vec<u8>, json: bool, bound: u32) -> Tried<Reply>
    requires small { length bytes.now.items ≤ most_bytes }
    ensures answers { IfOk result (λ reply. TextAnswers (AnalysisAnswers (LatticeOf json bound)) bytes.now.items reply.status reply.out.items reply.err.items) }
{
    match read_program(alloc, bytes)? {
        Reading::Typed(program) => lattice_program(alloc, &program, json, bound),
        Reading::Refused(reply) => Ok(reply),
    }
}
