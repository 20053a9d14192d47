//! The commands of Kaba, from the words of the command line to the bytes written.
#![tactic(auto)]

ghost use Rattle.std.specs.Prelude.{◌≡◌, ◌≢◌, ◌⊎◌};
ghost use Rattle.kaba_top.specs.Words.{Rose, texts};
ghost use Rattle.kaba_top.specs.Answers.{Gave, WasCut};
ghost use Rattle.kaba_top.specs.Promise.{Kept};

mod about;
mod analysis;
mod answer;
mod base;
mod cause_words;
mod edit;
mod fetching;
mod laws;
mod log;
mod make;
mod reading;
mod regen;
mod reply;
mod run;
mod same;
mod script;
mod sure;
mod why;

use crate::answer::answer;
pub use crate::laws::one_answer;
use crate::reply::deliver;
use kaba_base::{Shelf, Sink};
pub use kaba_words::{Command, WordsFault, read_words};
use std::alloc::{AllocError, Global};

/// What was made, or that memory was short.
type Tried<T> = Result<T, AllocError>;

/// Does what the words after the program's name ask for, and answers the exit status.
///
/// The whole texts for `out` and `err` are made before the first byte is written; `out` is
/// written first. The status is 70 where memory is short, and then nothing is written; it is 74
/// where a write failed, and then each sink holds a front of its bytes. Any other status comes
/// with its whole bytes.
pub fn kaba<F: Shelf, O: Sink, E: Sink>(
    alloc: Global,
    words: &Vec<String>,
    shelf: &mut F,
    out: &mut O,
    err: &mut E,
) -> u8
    ensures gave { result ≢ 70 → result ≢ 74
        → Gave (F.files shelf.old) (F.faults shelf.old) (F.faults shelf.new) (texts words.now.items) result
        (O.taken out.old) (O.taken out.new) (E.taken err.old) (E.taken err.new) }
    ensures cut { result ≡ 74 → WasCut (F.files shelf.old) (F.faults shelf.old) (F.faults shelf.new)
        (texts words.now.items) (O.taken out.old) (O.taken out.new) (E.taken err.old) (E.taken err.new) }
    ensures promise { (result ≡ 0) ⊎ ((result ≡ 4) ⊎ (result ≡ 5)) → Kept (F.files shelf.old) (texts words.now.items) result
        (O.taken out.old) (O.taken out.new) (E.taken err.old) (E.taken err.new) }
    ensures memory_out { result ≡ 70 → O.taken out.new ≡ O.taken out.old }
    ensures memory_err { result ≡ 70 → E.taken err.new ≡ E.taken err.old }
    ensures cannot_write { result ≡ 74 → Rose (O.faults out.old) (O.faults out.new) ⊎ Rose (E.faults err.old) (E.faults err.new) }
{
    match answer(alloc, words, shelf) {
        Ok(reply) => match deliver(&reply, out, err) {
            Ok(()) => reply.status,
            Err(_) => 74,
        },
        Err(_) => 70,
    }
}
