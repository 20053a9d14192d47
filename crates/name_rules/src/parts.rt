//! What the rules of names speak of beside trees and programs.

use kaba_base::Name;

/// What modifiers stand before.
#[derive(Clone, Copy)]
pub enum Kind {
    Class,
    Interface,
    Field,
    Method,
    /// A method of an interface.
    Head,
    /// A constructor.
    Maker,
}

/// Where a body stands: its class, and whether its method is static.
#[derive(Clone, Copy)]
pub struct Here {
    pub owner: u32,
    pub is_static: bool,
}

/// A parameter or local in scope.
#[derive(Drop)]
pub struct Bound {
    pub name: Name,
    pub number: u32,
}
