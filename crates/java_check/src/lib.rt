//! The rules of types of a resolved program (Java Language Specification, chapters 8, 14 and 15, the subset's part).
#![tactic(auto)]

mod by_number;
mod callees;
mod classes;
mod expressions;
mod nearest;
mod programs;
mod slots;
mod statements;
mod tables;
mod types;

pub use java_core::{Checked, Program};
pub use kaba_base::Place;
pub use programs::check;
use thiserror::Error;

/// A rule of types.
#[derive(Clone, Copy, Debug)]
pub enum Kind {
    /// What an operator, an index, a size or a print takes.
    Operand,
    /// A test is boolean.
    Condition,
    /// What is assigned, or an initial value, fits the variable.
    Assign,
    /// The arguments are as many as the parameters, and each fits its own; where there is no constructor, there are none.
    Arguments,
    /// What is returned fits the result.
    Return,
    /// What a cast or an `instanceof` takes.
    Cast,
    /// The field or the method is there.
    NoMember,
    /// Objects are made of classes that are not abstract.
    AbstractNew,
    /// A class of which objects are made has a body for each slot that it offers.
    MissingBody,
    /// A method for a slot of an interface is public.
    NotPublic,
}

/// Why a program is not typed.
#[derive(Clone, Copy, Debug, Error)]
pub enum CheckFault {
    /// A rule fails at a place.
    #[error("ill typed on line {}", .1.line)]
    IllTyped(Kind, Place),
    /// Memory is short.
    #[error("out of memory")]
    Memory,
}

/// What is given, or the first rule that fails.
type Answered<T> = Result<T, CheckFault>;
