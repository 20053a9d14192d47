//! Linear code for the bodies of a program: what a machine does, one thing after the other, in place of trees.
//! The machine that runs it comes to what the program's meaning says.
#![tactic(auto)]

ghost use Rattle.run_code.specs.Fits.{MachineRuns};

mod image;
mod ops;

pub use image::{Entry, Image};
pub use ops::{Calc, Destination, Effect, Frame, Instr, Jump, Operand, Test};
use std::alloc::AllocError;

/// What a call gives, where there is memory for it.
pub type Tried<T> = Result<T, AllocError>;

/// Where the code of all bodies of a formed program stands, the machine comes to what the meaning of the
/// program says: for all words and every bound on the steps it ends the same way, with the same output and
/// as many steps left. Where no rule of the meaning says how a run goes on, it says nothing.
pub fn machine_runs()
    ensures runs { MachineRuns }
{}
