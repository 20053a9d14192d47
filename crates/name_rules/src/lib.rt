//! What names mean: which program a tree is, and which condition refuses it (Java Language Specification, 6.3 to 6.5).
//!
//! The crate has the types of what is refused and definitions alone. `specs/Resolves.antt` says which program a tree is,
//! `specs/Conditions.antt` what refuses it; `java_resolve` finds both.
#![tactic(auto)]

mod parts;

use kaba_base::{Name, Place};
pub use parts::{Bound, Here, Kind};
use std::alloc::{AllocError, AllocFailed};

/// What the language leaves out.
#[derive(Clone, Copy)]
pub enum Form {
    /// A modifier that stands twice or does not fit.
    Modifier,
    /// A body that is missing or not allowed.
    Body,
    /// `this`, `super` or an instance member by its simple name in a static method.
    ThisInStatic,
    /// `break` or `continue` outside a loop.
    BreakOutside,
}

/// Why a tree is no program: the name or form, and the place at which the rule is broken.
#[derive(Drop)]
pub enum Refusal {
    /// No class, variable, static member or method has the name.
    Unknown(Name, Place),
    /// The name is there already.
    Twice(Name, Place),
    /// The class is its own ancestor.
    Loop(Name, Place),
    /// Methods of this name that are not all of one slot, or a static one and another, meet in a class.
    Overload(Name, Place),
    /// The name of a type names a variable, or a class stands for an interface or the reverse.
    TwoKinds(Name, Place),
    /// A private method's name stands again in an ancestor or a descendant.
    PrivateReused(Name, Place),
    /// No class has a `static void main(String[] ..)`.
    NoMain,
    /// A form that the language leaves out.
    NotInProfile(Form, Place),
    /// Memory is short, or the numbers of a program are used up.
    Memory,
}

impl From<AllocError> for Refusal {
    ghost use Rattle.std.specs.Prelude.{◌≡◌};
    ghost use Rattle.name_rules.specs.declared.Refusal.TheVariants.{Memory};

    ghost from_gives = { λ _ refusal. refusal ≡ Memory };

    fn from(_error: AllocError) -> Refusal {
        Refusal::Memory
    }
}

impl<T: Drop> From<AllocFailed<T>> for Refusal {
    ghost use Rattle.std.specs.Prelude.{◌≡◌};
    ghost use Rattle.name_rules.specs.declared.Refusal.TheVariants.{Memory};

    ghost from_gives = { λ _ refusal. refusal ≡ Memory };

    fn from(_error: AllocFailed<T>) -> Refusal {
        Refusal::Memory
    }
}
