//! What every part of Kaba stands on: ids, places, names, lists, and the world outside.
#![tactic(auto)]

/// What a call made; where it made nothing, what is held is let go, and the function ends with the call's error,
/// or with the error of the named type that comes from it. It is proved in less time than `?`, which asks how an error
/// comes from itself.
#[macro_export]
macro_rules! made {
    ($call:expr) => {
        match $call {
            Ok(made) => made,
            Err(fault) => return Err(fault),
        }
    };
    ($call:expr => $fault:ident; $($held:ident),*) => {
        match $call {
            Ok(made) => made,
            Err(fault) => {
                $(drop($held);)*
                return Err($fault::from(fault));
            }
        }
    };
    ($call:expr; $($held:ident),*) => {
        match $call {
            Ok(made) => made,
            Err(fault) => {
                $(drop($held);)*
                return Err(fault);
            }
        }
    };
}

mod files;
mod lists;
mod memory;
mod names;
mod outside;
mod reading;
mod words;

pub use files::{FileShelf, StdSink};
pub use lists::{listed, put};
pub use memory::{MemShelf, MemSink};
pub use names::Name;
pub use outside::{Failed, Fetch, Shelf, Sink};
pub use reading::{ReadFault, read_file, write_all};
pub use words::{
    KEYWORDS, Keyword, continues_identifier, is_identifier, keyword_of, starts_identifier,
};

/// The number of a row of the table: a variable, a creation site or a tested type.
#[derive(Clone, Copy, PartialEq, Eq)]
pub struct RowId(pub u32);

/// The number of a column of the table: a member, or the mark of a tested type.
#[derive(Clone, Copy, PartialEq, Eq)]
pub struct ColId(pub u32);

/// The number of a creation site.
#[derive(Clone, Copy, PartialEq, Eq)]
pub struct SiteId(pub u32);

/// The number of a node of the hierarchy.
#[derive(Clone, Copy, PartialEq, Eq)]
pub struct NodeId(pub u32);

/// The number of a field or of a method of a program.
#[derive(Clone, Copy, PartialEq, Eq)]
pub struct MemberId(pub u32);

/// The number of a class or of an interface of a program; 0 is `Object`.
#[derive(Clone, Copy, PartialEq, Eq, Hash)]
pub struct ClassId(pub u32);

/// A place in a text.
#[derive(Clone, Copy, Debug, PartialEq, Eq)]
pub struct Place {
    /// The number of bytes before it.
    pub at: u32,
    /// Its line: one more than the number of line feeds before it.
    pub line: u32,
}
