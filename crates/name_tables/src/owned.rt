//! Where a class's own members stand.
#![tactic(auto)]

ghost use Rattle.std.specs.Prelude.{◌≡◌, ◌&&◌, ◌==◌, ℕ, List, [], None, Some, nat_eq, cond, OnOk};
ghost use Rattle.std.specs.Option.{option_map_or};
ghost use Rattle.std.specs.Str.{bytes_eq};
ghost use Rattle.indexmap.specs.IndexMap.{get};
ghost use Rattle.java_core.specs.Classes.{first_or};
ghost use Rattle.name_tables.specs.Owned.{AreNamesOwned, owned_in};

use indexmap::IndexMap;
use kaba_base::Name;
use std::alloc::{AllocError, Global};

/// For each name and each class the number of the member that has it in the class.
#[derive(Drop)]
pub struct Owned {
    numbers: IndexMap<String, IndexMap<u32, u32>>,
}

impl Owned {
    /// Of no member.
    pub fn new(alloc: Global) -> Owned
        ensures { AreNamesOwned (λ _ _. None) result }
    {
        Owned {
            numbers: IndexMap::new(alloc),
        }
    }

    /// The number of the member of a class that has a name.
    pub fn at(&self, class: u32, name: &Name) -> Option<u32>
        ensures { result ≡ owned_in self.now class name.now }
    {
        match self.numbers.get(name.as_str()) {
            Some(numbers) => numbers.get(&class).copied(),
            None => None,
        }
    }

    /// The numbers of the members that have a name, by their classes.
    pub fn named(&self, name: &Name) -> Option<&IndexMap<u32, u32>>
        ensures { (c : ℕ) → option_map_or (λ m. get nat_eq m.now c) result None ≡ owned_in self.now c name.now }
    {
        self.numbers.get(name.as_str())
    }

    /// The numbers of a name, which has none from then on.
    fn taken(&mut self, alloc: Global, name: &Name) -> IndexMap<u32, u32>
        ensures taken { (c : ℕ) → get nat_eq result c ≡ owned_in self.old c name.now }
        ensures rest { (c : ℕ) (n : List ℕ) → owned_in self.new c n ≡ cond (bytes_eq name.now n) None (owned_in self.old c n) }
    {
        match self.numbers.swap_remove(name.as_str()) {
            Some(numbers) => numbers,
            None => IndexMap::new(alloc),
        }
    }

    /// One number more, under this class and this name; `AllocError` where memory is short.
    fn put(&mut self, alloc: Global, class: u32, name: &Name, number: u32) -> Result<(), AllocError>
        ensures { OnOk result ((c : ℕ) (n : List ℕ) → owned_in self.new c n
            ≡ cond ((class == c) && bytes_eq name.now n) (Some number) (owned_in self.old c n)) }
    {
        let mut numbers = self.taken(alloc, name);
        numbers.insert(class, number)?;
        let text = String::from_str(alloc, name.as_str())?;
        self.numbers.insert(text, numbers)?;
        Ok(())
    }
    /// One member more, of this class, this name and this number: of those of one class and name the first is found.
    /// `AllocError` where memory is short.
    pub fn note(
        &mut self,
        alloc: Global,
        class: u32,
        name: &Name,
        number: u32,
    ) -> Result<(), AllocError>
        ensures { OnOk result ((c : ℕ) (n : List ℕ) → owned_in self.new c n
            ≡ first_or (owned_in self.old c n) (cond ((class == c) && bytes_eq name.now n) (Some number) None)) }
    {
        if self.at(class, name).is_some() {
            return Ok(());
        }
        self.put(alloc, class, name, number)
    }
}
