//! Sample programs, of any number of classes up to a hundred: a chain of classes, each with a method that calls the
//! one above, and a main class that makes an object of each and prints what its method gives.
//!
//! `specs/Sample.antt` has the tree of a sample, `specs/Program.antt` the program that it is.
#![tactic(auto)]

ghost use Rattle.kaba_work.specs.Laws.{SampleResolves, SampleHasProgram, SampleIsTyped};

mod classes;
mod names;
mod steps;

pub use classes::sample;

/// A sample is a typed program: none of the conditions for which a text's names are refused holds of it, it resolves
/// to its program, and whatever program it resolves to is typed.
pub fn sample_is_typed()
    ensures resolves { SampleResolves }
    ensures program { SampleHasProgram }
    ensures typed { SampleIsTyped }
{}
