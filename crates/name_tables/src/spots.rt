//! Where the members of a name stand.
#![tactic(auto)]

ghost use Rattle.std.specs.Prelude.{◌≡◌, ℕ, List, ◌++◌, ◌∷◌, [], cond, OnOk};
ghost use Rattle.std.specs.Str.{bytes_eq};
ghost use Rattle.name_tables.specs.Spots.{AreSpots, spots_of};

use indexmap::IndexMap;
use kaba_base::Name;
use std::alloc::{AllocError, Global};

/// For each name the numbers of the members that have it, in rising order.
#[derive(Drop)]
pub struct Spots {
    places: IndexMap<String, Vec<u32>>,
}

impl Spots {
    /// Of no member.
    pub fn new(alloc: Global) -> Spots
        ensures { AreSpots [] result }
    {
        Spots {
            places: IndexMap::new(alloc),
        }
    }

    /// The numbers of the members of a name.
    pub fn at(&self, name: &Name) -> &[u32]
        ensures { result.now ≡ spots_of self.now name.now }
    {
        match self.places.get(name.as_str()) {
            Some(list) => list.as_slice(),
            None => &[],
        }
    }

    /// The numbers of the members of a name, which has none from then on.
    fn taken(&mut self, alloc: Global, name: &Name) -> Vec<u32>
        ensures taken { result.items ≡ spots_of self.old name.now }
        ensures rest { (n : List ℕ) → spots_of self.new n ≡ cond (bytes_eq name.now n) [] (spots_of self.old n) }
    {
        match self.places.swap_remove(name.as_str()) {
            Some(list) => list,
            None => Vec::new(alloc),
        }
    }

    /// One member more, of this name and this number; `AllocError` where memory is short.
    pub fn note(&mut self, alloc: Global, name: &Name, number: u32) -> Result<(), AllocError>
        ensures { OnOk result ((n : List ℕ) → spots_of self.new n ≡ cond (bytes_eq name.now n) (spots_of self.old n ++ number ∷ []) (spots_of self.old n)) }
    {
        let mut list = self.taken(alloc, name);
        list.push(number)?;
        let text = String::from_str(alloc, name.as_str())?;
        self.places.insert(text, list)?;
        Ok(())
    }
}
