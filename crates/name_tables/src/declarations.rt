//! The fields and the methods that are declared.
#![tactic(auto)]

use crate::owned::Owned;
use crate::spots::Spots;
use java_core::Field;
use name_laws::Heading;

/// Fields and methods without their bodies, in the order of the text, and tables by which they are found.
#[derive(Drop)]
pub struct Declared {
    pub fields: Vec<Field>,
    pub headings: Vec<Heading>,
    /// Where the fields of each class stand.
    pub own_fields: Owned,
    /// Where the methods of each class stand.
    pub own_methods: Owned,
    /// Where the methods of each name stand.
    pub method_spots: Spots,
}
