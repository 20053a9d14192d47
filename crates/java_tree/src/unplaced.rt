//! Parts of a tree that was read from no text.
#![tactic(auto)]

ghost use Rattle.std.specs.Prelude.{◌≡◌};
ghost use Rattle.java_tree.specs.Places.{nowhere, id_nowhere};

use crate::Id;
use kaba_base::{Name, Place};

/// The place of what was read from no text: byte 0 of line 0.
pub fn nowhere() -> Place
    ensures { result ≡ nowhere }
{
    Place { at: 0, line: 0 }
}

/// A name that was read from no text.
pub fn id(name: Name) -> Id
    ensures { result ≡ id_nowhere name }
{
    Id {
        name,
        place: nowhere(),
    }
}
