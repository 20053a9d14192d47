//! All declarations.
#![tactic(auto)]

ghost use Rattle.std.specs.Prelude.{◌≡◌, true};
ghost use Rattle.java_core.specs.Tables.{AreFieldTables};
ghost use Rattle.name_tables.specs.Declarations.{AreDeclarationsListed};
ghost use Rattle.name_bodies.specs.Met.{AreBlocksOf};

use java_core::{FieldTables, Hierarchy};
use kaba_base::ClassId;
use kaba_bits::BitRow;
use name_rules::Here;
use name_tables::{Declared, Types};
use std::alloc::Global;

/// All declarations, without the bodies of methods. The number of each is its place in its list.
#[derive(Drop)]
pub struct Tables {
    pub known: Types,
    /// The superclass of each class; that of an interface is `Object`.
    pub parents: Vec<Option<ClassId>>,
    /// Which types are at or above which.
    pub above: Hierarchy,
    pub declared: Declared,
    /// Which classes meet methods of the names that many have.
    pub blocks: Vec<Vec<BitRow>>,
    /// Which fields are nearest above a class.
    pub field_tables: FieldTables,
    ghost found: { AreDeclarationsListed declared },
    ghost blocks_found: { AreBlocksOf above declared.headings.items declared.method_spots blocks.items },
    ghost above_found: { AreFieldTables parents.items declared.fields.items field_tables },
}

/// Where a part of a body stands: what is declared, the class and kind of the body, and whether a loop is about the part.
/// What is made stands in the memory of `alloc`.
#[derive(Drop)]
pub struct Enclosing<'a> {
    pub alloc: Global,
    pub tables: &'a Tables,
    pub here: Here,
    pub inside: bool,
}

/// The same in a loop.
pub fn in_loop<'a>(within: &Enclosing<'a>) -> Enclosing<'a>
    ensures { result ≡ record within.now { inside = true } }
{
    Enclosing {
        alloc: within.alloc,
        tables: within.tables,
        here: within.here,
        inside: true,
    }
}
