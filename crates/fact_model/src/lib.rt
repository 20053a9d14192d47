//! The facts of a program, and what the analysis makes of them: points-to sets, the table and its concept lattice.
#![tactic(auto)]

mod classes;
mod facts;
mod free_names;
mod laws;
mod sets;

pub use classes::{below, class_at, finds, is_def, is_slot};
pub use facts::{
    AccessInfo, BodyInfo, CallInfo, CastInfo, CellInfo, ClassInfo, ColKind, ColumnInfo, Facts,
    FlowInfo, LoadInfo, MakeInfo, MakerNames, NewInfo, RowInfo, SiteInfo, Spot, SpotKind,
    StoreInfo, SuperInfo, TestInfo, TieInfo,
};
pub use free_names::free_name;
pub use laws::{classes_are_chains, sets_are_closed, table_is_closed};
pub use sets::{Concept, Lattice, PointsTo, Table};
