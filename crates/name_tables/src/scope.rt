//! The parameters and locals in scope.
#![tactic(auto)]

ghost use Rattle.std.specs.Prelude.{◌≡◌, None, [], OnOk};
ghost use Rattle.name_rules.specs.Meanings.{local_of};
ghost use Rattle.name_rules.specs.Resolves.{bound};
ghost use Rattle.name_tables.specs.Scopes.{own_bounds, bounds_in};

use indexmap::IndexMap;
use kaba_base::Name;
use std::alloc::{AllocError, Global};
use std::marker::Model;

/// What a block declares, found by name in the order of the text, and the block around it.
#[derive(Drop)]
struct Block<'a> {
    own: IndexMap<String, u32>,
    outer: Option<&'a Block<'a>>,
}

impl<'a> Block<'a> {
    /// The number of the parameter or local that the block itself declares under a name.
    fn own_number(&self, name: &Name) -> Option<u32>
        ensures { result ≡ local_of name.now (own_bounds self.now) }
    {
        self.own.get(name.as_str()).copied()
    }

    /// The number of the parameter or local in scope under a name.
    fn number_of(&self, name: &Name) -> Option<u32>
        ensures { result ≡ local_of name.now (bounds_in self.now) }
    {
        match self.outer {
            Some(outer) => match outer.number_of(name) {
                Some(number) => Some(number),
                None => self.own_number(name),
            },
            None => self.own_number(name),
        }
    }
}

/// The parameters and locals in scope, found by name.
#[derive(Drop)]
pub struct Scope<'a> {
    block: Block<'a>,
}

impl<'a> Model for Scope<'a> {
    ghost use Rattle.std.specs.Prelude.{List};
    ghost use Rattle.name_rules.specs.declared.parts.Bound.{Bound};
    ghost use Rattle.name_tables.specs.Scopes.{bounds_in};

    ghost Value = { List Bound };

    ghost view = { λ scope. bounds_in scope.block };
}

impl<'a> Scope<'a> {
    /// Nothing in scope.
    pub fn new(alloc: Global) -> Scope<'a>
        ensures value { result ≡ [] }
    {
        Scope {
            block: Block {
                own: IndexMap::new(alloc),
                outer: None,
            },
        }
    }

    /// What is in scope at the start of a block. What the block declares leaves the scope with it.
    pub fn within(alloc: Global, outer: &'a Scope<'a>) -> Scope<'a>
        ensures value { result ≡ outer.now }
    {
        Scope {
            block: Block {
                own: IndexMap::new(alloc),
                outer: Some(&outer.block),
            },
        }
    }

    /// The number of the parameter or local in scope under a name.
    pub fn number_of(&self, name: &Name) -> Option<u32>
        ensures value { result ≡ local_of name.now self.now }
    {
        self.block.number_of(name)
    }

    /// One more, whose name is not in scope; `AllocError` where memory is short.
    pub fn add(&mut self, alloc: Global, name: &Name, number: u32) -> Result<(), AllocError>
        requires fresh { local_of name.now self.old ≡ None }
        ensures value { OnOk result (self.new ≡ bound self.old name.now number) }
    {
        let text = String::from_str(alloc, name.as_str())?;
        self.block.own.insert(text, number)?;
        Ok(())
    }
}
