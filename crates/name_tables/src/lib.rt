//! The tables of names: types by name, members by class and name, and what is in scope; and what modifiers and parameters say.
//!
//! What is declared has its place in its list as its number. Each look-up gives what going over the list gives.
#![tactic(auto)]

mod declarations;
mod flags;
mod names;
mod numbers;
mod owned;
mod parameters;
mod scope;
mod spots;

pub use declarations::Declared;
pub use flags::flags_of;
pub use names::{Types, asked, is_text, names_type, type_of};
pub use numbers::{after, number_at};
pub use owned::Owned;
pub use parameters::{params_in, params_of, result_of};
pub use scope::Scope;
pub use spots::Spots;
