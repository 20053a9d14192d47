//! The command `make`.
#![tactic(auto)]

ghost use Rattle.std.specs.Prelude.{◌≡◌, ◌++◌, ℕ, ◌<◌, ◌≤◌, IfOk, OnOk, string_bytes};
ghost use Rattle.java_core.specs.declared.Program.{Program};
ghost use Rattle.kaba_top.specs.Words.{program_of, end_of, HasText, AreProgramFacts, AnalysisAnswers};
ghost use Rattle.kaba_words.specs.Commands.{most_samples};
ghost use Rattle.kaba_top.specs.TextPrograms.{IsTypedText};
ghost use Rattle.kaba_top.specs.Fresh.{DeclaresNoInterface};
ghost use Rattle.kaba_top.specs.MakeAnswers.{MakeAnswers, MadeOf, MadeTextAnswers, RunGives, SampleAnswers, WrittenGives, count_line, counts_of, sample_text, summary};
ghost use Rattle.kaba_top.specs.Readings.{IsMadeReading};

use crate::Tried;
use crate::analysis::{Analysed, analyse};
use crate::reading::{Reading, read_program};
use crate::regen::{Regenerated, regenerate};
use crate::reply::Reply;
use crate::run::ran;
use crate::script::{Proposed, Task, propose};
use fact_model::{Facts, Lattice};
use hier_model::Hier;
use hier_view::live_nodes;
use java_core::Checked;
use java_print::print;
use java_run::{End, Outcome, run};
use kaba_work::sample;
use std::alloc::Global;
use tree_merge::TreeStep;

/// How much there is of what the work on a program comes to.
#[derive(Drop)]
pub struct Counts {
    /// The rows of the table.
    pub rows: usize,
    /// Its columns.
    pub columns: usize,
    /// The concepts of its lattice.
    pub concepts: usize,
    /// The types of the hierarchy that is a tree.
    pub types: usize,
    /// The steps that led to it.
    pub tree: usize,
}

/// The text of the sample of this number.
fn sample_text(alloc: Global, number: u32) -> Tried<Vec<u8>>
    requires some { 0 < number }
    requires most { number ≤ most_samples }
    ensures { IfOk result (λ text. text.items ≡ sample_text number) }
{
    let tree = sample(alloc, number)?;
    let mut text = Vec::new(alloc);
    print(alloc, &tree, &mut text)?;
    Ok(text)
}

/// The program of a text that no file holds, or the reply that it has none.
fn read_made(alloc: Global, text: &Vec<u8>) -> Tried<Reading>
    ensures reading { IfOk result (λ reading. IsMadeReading text.now.items reading) }
{
    if text.len() > 1_048_576 {
        let reply = Reply::line(alloc, 67, b"too large: file 1048576")?;
        return Ok(Reading::Refused(reply));
    }
    read_program(alloc, text)
}

/// The counts of an analysis and of a tree.
fn counts_of(
    alloc: Global,
    facts: &Facts,
    lattice: &Lattice,
    hier: &Hier,
    log: &Vec<TreeStep>,
) -> Tried<Counts>
    ensures { IfOk result (λ counts. counts ≡ counts_of facts.now lattice.now hier.now log.now.items) }
{
    let types = live_nodes(alloc, hier)?;
    Ok(Counts {
        rows: facts.rows.len(),
        columns: facts.columns.len(),
        concepts: lattice.concepts.len(),
        types: types.len(),
        tree: log.len(),
    })
}

/// Adds the line of a count.
fn add_count(text: &mut String, word: &str, count: usize) -> Tried<()>
    ensures { OnOk result (string_bytes text.new ≡ string_bytes text.old ++ count_line word.now count) }
{
    write!(text, "{word} {count}\n")?;
    Ok(())
}

/// The lines of all counts.
fn summary(alloc: Global, counts: &Counts, steps: u32, bytes: usize) -> Tried<String>
    ensures { IfOk result (λ text. string_bytes text ≡ summary counts.now steps bytes) }
{
    let mut text = String::new(alloc);
    add_count(&mut text, "rows", counts.rows)?;
    add_count(&mut text, "columns", counts.columns)?;
    add_count(&mut text, "concepts", counts.concepts)?;
    add_count(&mut text, "types", counts.types)?;
    add_count(&mut text, "tree", counts.tree)?;
    add_count(&mut text, "steps", steps as usize)?;
    add_count(&mut text, "bytes", bytes)?;
    Ok(text)
}

/// The reply to the run of a written program.
fn counted(alloc: Global, counts: &Counts, outcome: Outcome) -> Tried<Reply>
    ensures { IfOk result (λ reply. RunGives counts.now (end_of outcome.end) outcome.used outcome.out.items reply.status reply.out.items reply.err.items) }
{
    match outcome.end {
        End::Ended => {
            let text = summary(alloc, counts, outcome.used, outcome.out.len())?;
            Ok(Reply {
                status: 0,
                out: Vec::from_slice(alloc, text.as_bytes())?,
                err: Vec::new(alloc),
            })
        }
        End::Fault(_) => ran(alloc, outcome),
        End::Going => ran(alloc, outcome),
    }
}

/// Runs a written program without words, and gives the reply to that.
fn run_written(alloc: Global, counts: &Counts, program: &Checked) -> Tried<Reply>
    ensures { IfOk result (λ reply. WrittenGives counts.now program.now reply.status reply.out.items reply.err.items) }
{
    let words = Vec::new(alloc);
    let outcome = run(alloc, program, &words, 1_000_000)?;
    counted(alloc, counts, outcome)
}

/// The reply of `make` for the text of a written program.
fn made_text(alloc: Global, counts: &Counts, text: &Vec<u8>) -> Tried<Reply>
    ensures { IfOk result (λ reply. MadeTextAnswers (WrittenGives counts.now) text.now.items reply.status reply.out.items reply.err.items) }
{
    match read_made(alloc, text)? {
        Reading::Typed(program) => run_written(alloc, counts, &program),
        Reading::Refused(reply) => Ok(reply),
    }
}

/// The reply of `make` for the facts of its program.
fn made_facts(alloc: Global, program: &Checked, facts: &Facts) -> Tried<Reply>
    requires text { HasText program.now }
    requires facts { AreProgramFacts (program_of program.now) facts.now }
    requires classes { DeclaresNoInterface program.now }
    ensures { IfOk result (λ reply. MadeOf program.now facts.now reply.status reply.out.items reply.err.items) }
{
    let script = Vec::new(alloc);
    let task = Task {
        script: &script,
        bound: 4096,
    };
    let proposal = match propose(alloc, facts, &task)? {
        Proposed::Edited(proposal) => proposal,
        Proposed::Refused(reply) => return Ok(reply),
    };
    let edited = proposal.edited;
    match regenerate(alloc, program, facts, &proposal.sets, edited.hier)? {
        Regenerated::Written { hier, log, text } => {
            let counts = counts_of(alloc, facts, &proposal.lattice, &hier, &log)?;
            made_text(alloc, &counts, &text)
        }
        Regenerated::Stuck(_) => unreachable!(),
    }
}

/// The reply of `make` for the program of its sample.
fn made_program(alloc: Global, program: &Checked) -> Tried<Reply>
    requires text { HasText program.now }
    requires classes { DeclaresNoInterface program.now }
    ensures { IfOk result (λ reply. AnalysisAnswers (MadeOf program.now) program.now reply.status reply.out.items reply.err.items) }
{
    match analyse(alloc, program)? {
        Analysed::Found(facts) => made_facts(alloc, program, &facts),
        Analysed::Refused(reply) => Ok(reply),
    }
}

/// The reply of `make` for the text of its sample.
fn made_sample(alloc: Global, text: &Vec<u8>) -> Tried<Reply>
    requires classes { (program : Program) → IsTypedText text.now.items (program_of program) → DeclaresNoInterface program }
    ensures { IfOk result (λ reply. SampleAnswers text.now.items reply.status reply.out.items reply.err.items) }
{
    match read_made(alloc, text)? {
        Reading::Typed(program) => made_program(alloc, &program),
        Reading::Refused(reply) => Ok(reply),
    }
}

/// The reply of `make` for its number: the text of the sample, or the counts of what comes of it.
pub fn make_reply(alloc: Global, prints: bool, number: u32) -> Tried<Reply>
    requires some { 0 < number }
    requires most { number ≤ most_samples }
    ensures answers { IfOk result (λ reply. MakeAnswers prints number reply.status reply.out.items reply.err.items) }
{
    let text = sample_text(alloc, number)?;
    if prints {
        return Ok(Reply {
            status: 0,
            out: text,
            err: Vec::new(alloc),
        });
    }
    made_sample(alloc, &text)
}
