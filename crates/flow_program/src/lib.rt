//! The facts of a checked program: in range and in order, and their points-to sets cover each run.
//!
//! `flow_facts` reads the facts off the text. What stands above them (the sets, the table, the hierarchy)
//! asks more of facts than that they are the text's: a program that is typed gives them with all of it.
#![tactic(auto)]

ghost use Rattle.std.specs.Prelude.{◌≡◌, ◌≢◌, ◌<◌, ◌↔◌, IfErr, IfOk, IsTrue, length};
ghost use Rattle.java_core.specs.Programs.{Plain, program_of};
ghost use Rattle.flow_rules.specs.Facts.{IsFactsRefusal, IsWithinLimits};
ghost use Rattle.flow_program.specs.Known.{AreProgramFacts};
ghost use Rattle.flow_program.specs.Same.{AreSameFacts};

use fact_model::Facts;
pub use flow_facts::{Counted, FactsFault};
use java_core::Checked;
use std::alloc::Global;

/// How many calls and tests there are less than: what a number of 32 bits and one more can tell apart.
const MOST: usize = 4294967295;

/// Whether the calls and the tests of the facts can be numbered.
fn are_numbered(facts: &Facts) -> bool
    ensures { IsTrue result ↔ (length facts.now.calls.items < 4294967295) × (length facts.now.tests.items < 4294967295) }
{
    facts.calls.len() < MOST && facts.tests.len() < MOST
}

/// The facts of a program (Andersen, 1994, for the points-to sets; Snelting and Tip, 2000, for the table).
///
/// They are in range and in order, and each family of sets that their inclusions close covers each run of
/// the program, their points-to sets among them: what a run meets has its site in the set of its operand, receiver,
/// `this` or base. A `TooMany` tells of what there is more than its limit:
/// first of the rows, then of the columns, the sites, and the flow points with the cells. `Memory` comes
/// where memory is short, and where the calls or the `instanceof`s and casts are 4,294,967,295 or more.
pub fn facts(alloc: Global, program: &Checked) -> Result<Facts, FactsFault>
    ensures ok { IfOk result (λ f. AreProgramFacts (program_of program.now) f) }
    ensures refused { IfErr result (λ e. IsFactsRefusal (program_of program.now) e) }
{
    let plain = program.program();
    match flow_facts::facts(alloc, plain) {
        Err(fault) => Err(fault),
        Ok(facts) => {
            if are_numbered(&facts) {
                Ok(facts)
            } else {
                Err(FactsFault::Memory)
            }
        }
    }
}

/// A program has one answer, the order of what is read as a set and want of memory aside: two lists of facts that it
/// may have are the same, so are two faults, and it has not both.
pub fn one_answer()
    ensures facts { (P : Plain) (F G : Facts) → AreProgramFacts P F → AreProgramFacts P G → AreSameFacts F G }
    ensures faults { (P : Plain) (e f : FactsFault) → IsFactsRefusal P e → IsFactsRefusal P f
        → e ≢ FactsFault.Memory → f ≢ FactsFault.Memory → e ≡ f }
    ensures apart { (P : Plain) (e : FactsFault) → IsWithinLimits P → IsFactsRefusal P e → e ≡ FactsFault.Memory }
{}
