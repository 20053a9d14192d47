//! What the steps of resolution keep of a declaration.

use kaba_base::{Name, Place};

/// Which modifiers stand before something.
#[derive(Clone, Copy)]
pub struct Flags {
    pub is_public: bool,
    pub is_protected: bool,
    pub is_private: bool,
    pub is_abstract: bool,
    pub is_static: bool,
    pub is_final: bool,
}

/// A method as the bodies and the other methods know it.
#[derive(Drop)]
pub struct Heading {
    pub owner: u32,
    pub name: Name,
    pub is_static: bool,
    pub is_private: bool,
    /// Whether it is `static void main(String[] ..)`.
    pub is_main: bool,
    pub slot: Option<u32>,
    pub place: Place,
}
