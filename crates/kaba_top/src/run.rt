//! The command `run`.
#![tactic(auto)]

ghost use Rattle.std.specs.Prelude.{◌≡◌, ◌≤◌, IfOk, length};
ghost use Rattle.kaba_top.specs.Words.{program_of, end_of, texts, most_bytes, TextAnswers};
ghost use Rattle.kaba_top.specs.RunAnswers.{EndGives, RunAnswers};

use crate::Tried;
use crate::cause_words::{Cause, cause_text};
use crate::reading::{Reading, read_program};
use crate::reply::Reply;
use java_core::Checked;
use java_run::{End, Outcome, run};
use std::alloc::Global;

/// The reply to a run.
pub fn ran(alloc: Global, outcome: Outcome) -> Tried<Reply>
    ensures { IfOk result (λ reply. EndGives (end_of outcome.end) outcome.out.items reply.status reply.out.items reply.err.items) }
{
    match outcome.end {
        End::Ended => Ok(Reply {
            status: 0,
            out: outcome.out,
            err: Vec::new(alloc),
        }),
        End::Fault(fault) => {
            let word = cause_text(Cause::Fault(fault));
            let text = format!(in alloc; "fault {word}")?;
            Reply::with_line(alloc, 10, outcome.out, text.as_bytes())
        }
        End::Going => Reply::with_line(alloc, 11, outcome.out, b"going"),
    }
}

/// The reply to the run of a program.
fn run_program(alloc: Global, program: &Checked, words: &Vec<String>, steps: u32) -> Tried<Reply>
    ensures { IfOk result (λ reply. RunAnswers steps (texts words.now.items) program.now reply.status reply.out.items reply.err.items) }
{
    ran(alloc, run(alloc, program, words, steps)?)
}

/// The reply of `run` for the bytes of its file.
pub fn run_text(alloc: Global, bytes: &Vec<u8>, steps: u32, words: &Vec<String>) -> Tried<Reply>
    requires small { length bytes.now.items ≤ most_bytes }
    ensures answers { IfOk result (λ reply. TextAnswers (RunAnswers steps (texts words.now.items))
        bytes.now.items reply.status reply.out.items reply.err.items) }
{
    match read_program(alloc, bytes)? {
        Reading::Typed(program) => run_program(alloc, &program, words, steps),
        Reading::Refused(reply) => Ok(reply),
    }
}
