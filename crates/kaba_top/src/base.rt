//! The command `base`.
#![tactic(auto)]

ghost use Rattle.std.specs.Prelude.{◌≡◌, ◌≤◌, IfOk, length};
ghost use Rattle.kaba_bits.specs.Sets.{HasWidth};
ghost use Rattle.kaba_top.specs.Words.{InRange, most_bytes, TextAnswers, AnalysisAnswers};
ghost use Rattle.stem_base.specs.Base.{all_sides};
ghost use Rattle.stem_base.specs.Text.{base_text};
ghost use Rattle.kaba_top.specs.BaseAnswers.{StemsOf, BaseOf};

use crate::Tried;
use crate::analysis::{Analysed, analyse, table_of, too_many_concepts};
use crate::reading::{Reading, read_program};
use crate::reply::Reply;
use concept_build::{LatticeFault, concepts};
use fact_model::{Facts, Table};
use java_core::Checked;
use std::alloc::{AllocError, Global};
use std::mem::drop;
use stem_base::{BaseFault, Implication, show_base, stem};

/// The text of a base.
fn show(alloc: Global, base: &Vec<Implication>) -> Tried<Vec<u8>>
    ensures { IfOk result (λ out. out.items ≡ base_text (all_sides base.now.items)) }
{
    let mut out = Vec::new(alloc);
    show_base(alloc, base, &mut out)?;
    Ok(out)
}

/// The reply with the base of a table, or that it has too many implications.
fn stems_reply(alloc: Global, table: &Table) -> Tried<Reply>
    requires { HasWidth table.now.width table.now.rows.items }
    ensures { IfOk result (λ reply. StemsOf table.now reply.status reply.out.items reply.err.items) }
{
    match stem(alloc, table, 4096) {
        Ok(base) => Ok(Reply {
            status: 0,
            out: show(alloc, &base)?,
            err: Vec::new(alloc),
        }),
        Err(BaseFault::TooManyImplications(_)) => {
            Reply::line(alloc, 67, b"too large: implications 4096")
        }
        Err(BaseFault::Memory) => Err(AllocError),
    }
}

/// The reply with the base, or that there are too many concepts or implications. The concepts are counted first: where
/// they are few, the closed sets that the base is found by are few.
fn base_reply(alloc: Global, facts: &Facts) -> Tried<Reply>
    requires facts { InRange facts.now }
    ensures { IfOk result (λ reply. BaseOf facts.now reply.status reply.out.items reply.err.items) }
{
    let table = table_of(alloc, facts)?;
    match concepts(alloc, &table, 4096) {
        Ok(lattice) => {
            drop(lattice);
            stems_reply(alloc, &table)
        }
        Err(LatticeFault::TooManyConcepts(_)) => too_many_concepts(alloc, 4096),
        Err(LatticeFault::Memory) => Err(AllocError),
    }
}

/// The reply of `base` for a program.
fn base_program(alloc: Global, program: &Checked) -> Tried<Reply>
    ensures { IfOk result (λ reply. AnalysisAnswers BaseOf program.now reply.status reply.out.items reply.err.items) }
{
    match analyse(alloc, program)? {
        Analysed::Found(facts) => base_reply(alloc, &facts),
        Analysed::Refused(reply) => Ok(reply),
    }
}

/// The reply of `base` for the bytes of its file.
pub fn base_text(alloc: Global, bytes: &Vec<u8>) -> Tried<Reply>
    requires small { length bytes.now.items ≤ most_bytes }
    ensures answers { IfOk result (λ reply. TextAnswers (AnalysisAnswers BaseOf) bytes.now.items reply.status reply.out.items reply.err.items) }
{
    match read_program(alloc, bytes)? {
        Reading::Typed(program) => base_program(alloc, &program),
        Reading::Refused(reply) => Ok(reply),
    }
}
