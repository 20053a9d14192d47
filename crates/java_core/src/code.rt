//! What a walk over a body is given.

ghost use Rattle.std.specs.Prelude.{◌≡◌};
ghost use Rattle.java_core.specs.Programs.{method_seen, code_seen};

use crate::{Local, Method, RStmt, Ty};
use kaba_base::{ClassId, Name, Place};

/// A body, its variables and its heading, borrowed of what has them.
#[derive(Clone, Copy)]
pub struct Code<'a> {
    pub owner: ClassId,
    pub name: &'a Name,
    pub is_static: bool,
    pub is_public: bool,
    /// The slot of an instance method.
    pub slot: Option<u32>,
    pub params: &'a Vec<Local>,
    pub locals: &'a Vec<Local>,
    /// What it gives back; `None` is `void`.
    pub result: Option<Ty>,
    pub body: Option<&'a Vec<RStmt>>,
    pub place: Place,
}

impl Method {
    /// Its body with all that a walk over it asks.
    pub fn code(&self) -> Code<'_>
        ensures value { code_seen result ≡ method_seen self.now }
    {
        Code {
            owner: self.owner,
            name: &self.name,
            is_static: self.is_static,
            is_public: self.is_public,
            slot: self.slot,
            params: &self.params,
            locals: &self.locals,
            result: self.result,
            body: self.body.as_ref(),
            place: self.place,
        }
    }
}
