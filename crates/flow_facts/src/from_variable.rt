//! What the parameters and the locals of a method give to a list.

ghost use Rattle.std.specs.Prelude.{◌≡◌, ℕ, ◌+◌, ◌<◌, ◌^◌, ◌++◌, List, OnOk, length, map};
ghost use Rattle.java_core.specs.Programs.{PlainMethod, PlainLocal, local_seen};
ghost use Rattle.flow_facts.specs.Words.{Plain, program_of, code_seen, each};

use crate::Tried;
use crate::enclosing::Enclosing;
use java_core::Local;

/// What a parameter or a local of a method may give, by its number.
pub trait FromVariable: Sized {
    ghost given: { Plain → ℕ → PlainMethod → ℕ → PlainLocal → List Self };

    /// Adds what it gives.
    fn add(of: &Enclosing, number: usize, local: &Local, list: &mut Vec<Self>) -> Tried<()>
        ensures value { OnOk result (list.new.items ≡ list.old.items
            ++ given (program_of of.now.program.now) of.now.number (code_seen of.now.code) number (local_seen local.now)) };
}

/// Adds what parameters or locals give, the first of which has the number `first`.
fn add_from_those<T: FromVariable + Drop>(
    of: &Enclosing,
    locals: &Vec<Local>,
    first: usize,
    list: &mut Vec<T>,
) -> Tried<()>
    requires { first + length locals.now.items < 2 ^ 64 }
    ensures value { OnOk result (list.new.items ≡ list.old.items
        ++ each (T.given (program_of of.now.program.now) of.now.number (code_seen of.now.code)) first (map local_seen locals.now.items)) }
{
    let mut number = first;
    for local in locals {
        made!(T::add(of, number, local, list));
        number += 1;
    }
    Ok(())
}

/// Adds what the parameters and then the locals of a method give.
pub fn add_from_variables<T: FromVariable + Drop>(of: &Enclosing, list: &mut Vec<T>) -> Tried<()>
    ensures value { OnOk result (list.new.items ≡ list.old.items
        ++ each (T.given (program_of of.now.program.now) of.now.number (code_seen of.now.code)) 0
        (code_seen of.now.code).params
        ++ each (T.given (program_of of.now.program.now) of.now.number (code_seen of.now.code))
        (length (code_seen of.now.code).params) (code_seen of.now.code).locals) }
{
    made!(add_from_those(of, of.code.params, 0, list));
    let count = of.code.params.len();
    add_from_those(of, of.code.locals, count, list)
}
