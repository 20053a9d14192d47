//! The machine that runs linear code.
//!
//! Each thing that the machine does is one function on its state, and a run does one thing after the other.
#![tactic(auto)]

/// The run ends so.
macro_rules! stop {
    ($machine:ident, $ending:expr) => {{
        $machine.ending = $ending;
        Ok(Turn::Stopped)
    }};
}

/// An operator of ints.
macro_rules! int {
    ($op:ident) => {
        BinOp::Int(Op::$op)
    };
}

/// The place of the next thing.
macro_rules! behind {
    ($from:ident) => {
        Place {
            pc: $from.pc + 1,
            left: $from.left,
        }
    };
}

/// The place once a step has been taken.
macro_rules! paid {
    ($from:ident) => {
        Place {
            pc: $from.pc,
            left: $from.left - 1,
        }
    };
}

mod asking;
mod bodies;
mod calcs;
mod calls;
mod effects;
mod jumps;
mod moves;
mod quick;
mod runs;
mod string_calls;

pub use runs::go;
