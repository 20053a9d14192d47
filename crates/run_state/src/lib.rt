//! The state of a run of linear code: its slots, its calls that wait, its heap and what it has printed.
//!
//! All bodies share one list of slots. What an operation finds, makes or writes is told in one of a few forms, and a
//! move carries it into the state.
#![tactic(auto)]

/// The run ends so.
macro_rules! stop {
    ($machine:ident, $ending:expr) => {{
        $machine.ending = $ending;
        Ok(Turn::Stopped)
    }};
}

mod arrays;
mod casts;
mod cells;
mod counts;
mod machine;
mod operations;
mod slots;
mod stack;
mod starts;
mod texts;

pub use arrays::{make, new_array, write_element, write_there};
pub use casts::{cast_value, has_class};
pub use cells::{element, length_of, loaded, save_there, saved};
pub use counts::int_of;
pub use machine::{
    Back, Ending, Found, Kept, Machine, Made, Turn, Verdict, answer, as_int, go_back, keep,
    new_string, next, pass, settle,
};
pub use operations::{on_ints, operate, unary_value};
pub use slots::Slots;
pub use stack::Stack;
pub use starts::start;
