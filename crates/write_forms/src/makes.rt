//! The methods that make the objects of classes with a constructor: their names, by site.

ghost use Rattle.std.specs.Prelude.{◌≡◌, ℕ, [], length, get_or, IfOk};
ghost use Rattle.std.specs.Option.{option_map};
ghost use Rattle.fact_model.specs.InRange.{InRange};
ghost use Rattle.write_model.specs.Names as written;
ghost use Rattle.write_forms.specs.Makes.{AreMakeNames};
ghost use Rattle.write_forms.specs.Renamed.{make_at};
ghost use Rattle.write_forms.specs.Sources.{old_program, renaming, IsSource};

use crate::given::Source;
use crate::names::no_name;
use crate::numbers::Numbering;
use fact_model::Facts;
use flow_rules::number_among;
use kaba_base::Name;
use std::alloc::{AllocError, Global};

/// So many names without characters.
fn no_names(alloc: Global, count: usize) -> Result<Vec<Name>, AllocError>
    ensures count { IfOk result (λ v. length v.items ≡ count) }
    ensures empty { IfOk result (λ v. (s : ℕ) → get_or v.items s [] ≡ []) }
{
    let mut names = Vec::new(alloc);
    for _site in 0..count {
        names.push(no_name(alloc)?)?;
    }
    Ok(names)
}

/// The names of the methods that make the objects of the sites of facts, by site; where there is none, a name without
/// characters. `AllocError` where memory is short; no other error.
pub fn make_names(alloc: Global, facts: &Facts) -> Result<Vec<Name>, AllocError>
    requires { InRange facts.now }
    ensures { IfOk result (λ v. AreMakeNames facts.now 0 v.items) }
{
    let mut names = no_names(alloc, facts.sites.len())?;
    for i in (0..facts.makes.len()).rev() {
        let make = &facts.makes[i];
        let name = make.name.copy(alloc)?;
        names[make.site.0 as usize] = name;
    }
    Ok(names)
}

/// The name of the class of the methods that make objects.
pub fn makers_name(source: &Source) -> Result<Name, AllocError>
    requires { IsSource source.now }
    ensures { IfOk result (λ n. n ≡ written.makers_name (old_program source.now)) }
{
    match source.makers {
        Some(makers) => makers.holder.copy(source.alloc),
        None => no_name(source.alloc),
    }
}

/// The name of the local of each of these methods.
pub fn makers_local(source: &Source) -> Result<Name, AllocError>
    requires { IsSource source.now }
    ensures { IfOk result (λ n. n ≡ written.makers_local (old_program source.now)) }
{
    match source.makers {
        Some(makers) => makers.local.copy(source.alloc),
        None => no_name(source.alloc),
    }
}

/// The name of the method that makes the objects of a creation, by its site; `None` where it is no site.
fn make_of(numbering: &Numbering, number: u64) -> Option<&Name>
    ensures value { option_map (λ n. n.now) result ≡ make_at numbering.now number }
{
    match number_among(&numbering.sites, number) {
        Some(site) => numbering.makes.get(site as usize),
        None => None,
    }
}

/// The name of the method that makes the objects of a creation.
pub fn make_name(source: &Source, number: u64) -> Result<Name, AllocError>
    ensures { IfOk result (λ n. n ≡ (renaming source.now).make_name number) }
{
    match make_of(source.numbering, number) {
        Some(name) => name.copy(source.alloc),
        None => no_name(source.alloc),
    }
}
