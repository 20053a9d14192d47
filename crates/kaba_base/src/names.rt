//! Names.
#![tactic(auto)]

ghost use Rattle.std.specs.Prelude.{◌≡◌, ◌↔◌, IfOk, IsTrue, string_bytes};
ghost use Rattle.std.specs.Str.{chars, encode_utf8_all};

use std::alloc::{AllocError, Global};
use std::marker::Model;

/// A name of a program: a text, seen as the list of its characters.
#[derive(Drop)]
pub struct Name {
    text: String,
}

impl Model for Name {
    ghost use Rattle.std.specs.Prelude.{ℕ, List, string_bytes};
    ghost use Rattle.std.specs.Str.{chars};

    ghost Value = { List ℕ };

    ghost view = { λ name. chars (string_bytes name.text) };
}

impl Name {
    /// The name with this text, or `AllocError` where memory is short.
    pub fn new(alloc: Global, text: &str) -> Result<Name, AllocError>
        ensures value { IfOk result (λ name. name ≡ chars text.now) }
    {
        Ok(Name {
            text: String::from_str(alloc, text)?,
        })
    }

    /// The name's text.
    pub fn as_str(&self) -> &str
        ensures value { result.now ≡ encode_utf8_all self.now }
    {
        self.text.as_str()
    }

    /// The same name once more, or `AllocError` where memory is short.
    pub fn copy(&self, alloc: Global) -> Result<Name, AllocError>
        ensures value { IfOk result (λ name. name ≡ self.now) }
    {
        Name::new(alloc, self.text.as_str())
    }

    /// Whether the two names have the same characters.
    pub fn same(&self, other: &Name) -> bool
        ensures value { IsTrue result ↔ (self.now ≡ other.now) }
    {
        self.text.as_str() == other.text.as_str()
    }
}
