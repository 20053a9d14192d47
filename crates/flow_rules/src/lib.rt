//! What the facts of a program are: its rows, columns, sites and flow points, each numbered by its place, and the lists
//! of what the text says of them (Andersen, 1994, for the sets; Snelting and Tip, 2000, for the table).
//!
//! The crate has the types of the items, how they are numbered, and definitions. `specs/Facts.antt` says which facts a
//! program has; `flow_facts` finds them.
#![tactic(auto)]

mod faults;
mod items;
mod numbers;
mod variables;

pub use faults::{Counted, FactsFault};
pub use items::{
    Body, Column, ColumnItem, Mark, ObjectType, Operand, Outline, Part, Point, PointAt, PointItem,
    Row, RowItem, Site,
};
pub use numbers::{number_among, number_of_column, number_of_row};
pub use variables::variable_at;
