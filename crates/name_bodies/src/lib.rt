//! The bodies of methods, each name in them resolved by what is declared.
#![tactic(auto)]

mod bodies;
mod declarations;
mod exprs;
mod locals;
mod make;
mod makers;
mod meanings;
mod met;
mod stmts;
mod tables;

pub use bodies::methods_of;
pub use declarations::Tables;
pub use met::blocks_of_names;
use name_rules::Refusal;

/// What a step gives, or why the tree is refused.
type Named<T> = Result<T, Refusal>;
