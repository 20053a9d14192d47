//! Whether two programs are one but for places, modifiers without meaning, `this.` written or left away, and the order of
//! types and members; and where they part.
#![tactic(auto)]

ghost use Rattle.std.specs.Prelude.{◌≡◌, ◌↔◌, is_none, is_ok, None, IfOk};
ghost use Rattle.java_core.specs.Programs.{program_of};
ghost use Rattle.rebuild_model.specs.OnePrograms.{AreOne};

mod bodies;
mod guesses;
mod matched;
mod members;
mod names;

use java_core::Program;
use kaba_base::Place;
use std::alloc::{AllocError, Global};

/// In what two programs part.
#[derive(Clone, Copy)]
pub enum What {
    /// A type that one of them alone has, or its head.
    Type,
    /// A field that one of them alone has, or its type.
    Field,
    /// A method that one of them alone has, or its head.
    Method,
    /// A parameter or a local.
    Variable,
    /// The method that a run begins with.
    Main,
    /// A statement.
    Statement,
    /// An expression.
    Expression,
    /// A literal.
    Literal,
    /// An operator.
    Operator,
    /// A call.
    Call,
    /// A creation.
    Creation,
    /// A cast.
    Cast,
    /// A test of a class.
    Test,
}

/// Where two programs part: a place in each, and in what.
#[derive(Clone, Copy)]
pub struct Parting {
    pub first: Place,
    pub second: Place,
    pub what: What,
}

/// That two parts are one, or where they part.
type Agreed = Result<(), Parting>;

/// Where two parts part, if they are not one.
fn parted(agreed: Agreed) -> Option<Parting>
    ensures { is_none result ≡ is_ok agreed }
{
    match agreed {
        Ok(()) => None,
        Err(parting) => Some(parting),
    }
}

/// Where two programs first part, in the order of the first; nowhere exactly where they are one. `AllocError` where memory is short.
pub fn same(alloc: Global, first: &Program, second: &Program) -> Result<Option<Parting>, AllocError>
    ensures exact { IfOk result (λ parting. (parting ≡ None) ↔ AreOne (program_of first.now) (program_of second.now)) }
{
    let guesses = guesses::guess_all(alloc, first, second)?;
    Ok(parted(matched::programs(first, second, &guesses)))
}
