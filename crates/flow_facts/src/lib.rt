//! The facts of a program: its rows, columns, sites and flow points, each numbered by its place, and what the text says of them.
#![tactic(auto)]

/// What a call made; where it made nothing, what is held is let go, and the function ends with the call's error,
/// or with the error of the named type that comes from it. It is proved in less time than `?`, which asks how an error
/// comes from itself.
macro_rules! made {
    ($call:expr) => {
        match $call {
            Ok(made) => made,
            Err(fault) => return Err(fault),
        }
    };
    ($call:expr => $fault:ident; $($held:ident),*) => {
        match $call {
            Ok(made) => made,
            Err(fault) => {
                $(drop($held);)*
                return Err($fault::from(fault));
            }
        }
    };
    ($call:expr; $($held:ident),*) => {
        match $call {
            Ok(made) => made,
            Err(fault) => {
                $(drop($held);)*
                return Err(fault);
            }
        }
    };
}

mod assembled;
mod bodies;
mod by_number;
mod cells;
mod enclosing;
mod expr_rows;
mod fixed;
mod from_part;
mod from_variable;
mod gathering;
mod given;
mod infos;
mod labels;
mod lists;
mod makers;
mod names;
mod numbering;
mod operands;
mod ordered;
mod points;
mod spots;
mod stages;
mod survey;
mod ties;
mod top;
mod types;
mod walk;

use std::alloc::AllocError;

/// What was made, or that memory was short.
type Tried<T> = Result<T, AllocError>;

pub use expr_rows::row_of;
pub use flow_rules::{
    Column, ColumnItem, Counted, FactsFault, ObjectType, PointItem, Row, RowItem, Site,
};
pub use numbering::Numbering;
pub use operands::variable_row;
pub use survey::result_row;
pub use top::{facts, numbering_of};
