//! Runs.

ghost use Rattle.std.specs.Prelude.{◌≡◌, ◌≢◌, ℕ, List, Some, map, string_bytes, IfOk};
ghost use Rattle.std.specs.Option.{option_map};
ghost use Rattle.java_core.specs.Programs.{Plain, program_of};
ghost use Rattle.java_core.specs.Formed.{IsFormed};
ghost use Rattle.java_core.specs.Typing.{IsTyped};
ghost use Rattle.run_code.specs.Fits.{FitsProgram};
ghost use Rattle.run_code.specs.Seen.{entry_of, tables_of};
ghost use Rattle.run_state.specs.Run.{end_of};
ghost use Rattle.java_run.specs.Outcomes.{IsOutcomeOf};
ghost use Rattle.java_run.specs.Outcomes as outcomes;

use java_core::{Checked, Fault, Program};
use run_classes::Classes;
use run_code::{Entry, Image, Tried};
use run_compile::compile;
use run_machine::go;
use run_state::{Ending, start};
use std::alloc::Global;

/// How a run of a program ends.
#[derive(Clone, Copy)]
pub enum End {
    /// By itself.
    Ended,
    /// In a fault.
    Fault(Fault),
    /// It would go on: no step was left.
    Going,
}

/// What a run printed, how it ended, and the steps that it took.
#[derive(Drop)]
pub struct Outcome {
    /// What was printed, as bytes.
    pub out: Vec<u8>,
    /// How it ended.
    pub end: End,
    /// How many steps it took.
    pub used: u32,
}

/// Where the code of a method begins.
fn entry_at(image: &Image, method: u32) -> Option<&Entry>
    ensures { option_map (λ e. entry_of e.now) result ≡ (tables_of image.now).entry method }
{
    match image.entries.get(method as usize) {
        Some(Some(entry)) => Some(entry),
        Some(None) => None,
        None => None,
    }
}

/// Where the code of the method that a run begins with begins.
fn main_entry<'a>(p: &Program, image: &'a Image) -> &'a Entry
    requires formed { IsFormed (program_of p.now) }
    requires fits { FitsProgram (program_of p.now) (tables_of image.now) }
    ensures { (tables_of image.now).entry p.now.main.0 ≡ Some (entry_of result.now) }
{
    match entry_at(image, p.main.0) {
        Some(entry) => entry,
        None => unreachable!(),
    }
}

/// How a run ends that is not stuck.
fn end_seen(ending: Ending) -> End
    requires { ending ≢ Ending.Stuck }
    ensures { outcomes.end_of result ≡ end_of ending }
{
    match ending {
        Ending::Done => End::Ended,
        Ending::Faulty(fault) => End::Fault(fault),
        Ending::Unfinished => End::Going,
        Ending::Stuck => unreachable!(),
    }
}

/// Runs a program that is formed and typed.
fn run_program(alloc: Global, p: &Program, words: &Vec<String>, bound: u32) -> Tried<Outcome>
    requires formed { IsFormed (program_of p.now) }
    requires typed { IsTyped (program_of p.now) }
    ensures outcome { IfOk result (λ o. IsOutcomeOf (program_of p.now) (map string_bytes words.now.items) bound o) }
    ensures going { IfOk result (λ o. o.end ≡ End.Going → o.used ≡ bound) }
{
    let image = compile(alloc, p)?;
    let classes = Classes::new(alloc, p)?;
    let entry = main_entry(p, &image);
    let first = start(alloc, p, classes, entry, words, bound)?;
    let (ending, last) = go(&image, first)?;
    Ok(Outcome {
        out: last.out,
        end: end_seen(ending),
        used: bound - last.left,
    })
}

/// Runs a program on words with a bound on its steps: a step is a turn of a loop, a call of a method
/// of the program, or a creation. It gives what was printed, how the run ended, and its steps: all of
/// the bound where it goes on. The bodies are compiled once, before the first step. It gives an error
/// where there is no memory left.
pub fn run(alloc: Global, program: &Checked, words: &Vec<String>, bound: u32) -> Tried<Outcome>
    ensures outcome { IfOk result (λ o. IsOutcomeOf (program_of program.now) (map string_bytes words.now.items) bound o) }
    ensures going { IfOk result (λ o. o.end ≡ End.Going → o.used ≡ bound) }
{
    run_program(alloc, program.program(), words, bound)
}

/// A program has one outcome on words with a bound: two that it may have are the same.
pub fn one_outcome()
    ensures out { (P : Plain) (words : List (List ℕ)) (bound : ℕ) (a b : Outcome) → IsOutcomeOf P words bound a → IsOutcomeOf P words bound b
        → a.out.items ≡ b.out.items }
    ensures end { (P : Plain) (words : List (List ℕ)) (bound : ℕ) (a b : Outcome) → IsOutcomeOf P words bound a → IsOutcomeOf P words bound b → a.end ≡ b.end }
    ensures used { (P : Plain) (words : List (List ℕ)) (bound : ℕ) (a b : Outcome) → IsOutcomeOf P words bound a → IsOutcomeOf P words bound b
        → a.used ≡ b.used }
{}
