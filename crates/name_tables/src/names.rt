//! The names of types, and what they mean.
#![tactic(auto)]

ghost use Rattle.std.specs.Prelude.{◌≡◌, ◌||◌, ◌∷◌, [], IfOk, Ok, slice_get};
ghost use Rattle.std.specs.Option.{option_map_or};
ghost use Rattle.std.specs.Str.{bytes_eq, chars};
ghost use Rattle.name_laws.specs.Answers.{GivesValue};
ghost use Rattle.name_laws.specs.Names.{is_apart, number_of, names_type, asked, type_of};
ghost use Rattle.name_laws.specs.Names as spec;
ghost use Rattle.name_laws.specs.Classes.{object_known, know_named, is_face};
ghost use Rattle.name_laws.specs.Members.{is_class_of};

use indexmap::IndexMap;
use java_core::{Ty, TyBase};
use java_tree::{TypeBase, TypeName};
use kaba_base::{ClassId, Name, Place};
use name_rules::Refusal;
use std::alloc::{AllocError, Global};
use std::marker::Model;

/// The classes and interfaces, found by name and numbered in the order of the text, `Object` first.
#[derive(Drop)]
pub struct Types {
    /// Whether each is an interface.
    kinds: IndexMap<String, bool>,
}

impl Model for Types {
    ghost use Rattle.std.specs.Prelude.{List, map};
    ghost use Rattle.name_laws.specs.Known.{KnownClass};
    ghost use Rattle.name_tables.specs.Known.{known_seen};

    ghost Value = { List KnownClass };

    ghost view = { λ types. map known_seen types.kinds.entries };
}

impl Types {
    /// `Object` alone, or `AllocError` where memory is short.
    pub fn new(alloc: Global) -> Result<Types, Refusal>
        ensures value { GivesValue (λ types. types) result (Ok (object_known ∷ [])) }
    {
        let mut kinds = IndexMap::new(alloc);
        kinds.insert(String::from_str(alloc, "Object")?, false)?;
        Ok(Types { kinds })
    }

    /// One type more; `Twice` where there is one of its name.
    pub fn add(
        &mut self,
        alloc: Global,
        name: &Name,
        is_interface: bool,
        place: Place,
    ) -> Result<(), Refusal>
        ensures value { GivesValue (λ _. self.new) result (know_named self.old name.now is_interface place) }
    {
        let apart = is_apart(alloc, name)?;
        if apart | self.number_of(name).is_some() {
            return Err(Refusal::Twice(name.copy(alloc)?, place));
        }
        let text = String::from_str(alloc, name.as_str())?;
        self.kinds.insert(text, is_interface)?;
        Ok(())
    }

    /// The number of the class or interface of this name.
    pub fn number_of(&self, name: &Name) -> Option<usize>
        ensures value { result ≡ number_of self.now name.now }
    {
        self.kinds.get_index_of(name.as_str())
    }

    /// Whether the type of this number is an interface.
    pub fn is_interface(&self, class: u32) -> bool
        ensures value { result ≡ is_face self.now class }
    {
        match self.kinds.get_index(class as usize) {
            Some((_, is_interface)) => *is_interface,
            None => false,
        }
    }

    /// Whether the type of this number has this name.
    pub fn is_named(&self, alloc: Global, class: u32, name: &Name) -> Result<bool, AllocError>
        ensures value { IfOk result (λ told. told ≡ is_class_of self.now class name.now) }
    {
        match self.kinds.get_index(class as usize) {
            Some((text, _)) => is_text(alloc, name, text.as_str()),
            None => Ok(false),
        }
    }

    /// The name of the type of this number; of no type it is empty.
    pub fn name_of(&self, alloc: Global, class: u32) -> Result<Name, AllocError>
        ensures value { IfOk result (λ name. name ≡ option_map_or (λ k. k.name) (slice_get self.now class) []) }
    {
        match self.kinds.get_index(class as usize) {
            Some((text, _)) => Name::new(alloc, text.as_str()),
            None => Name::new(alloc, ""),
        }
    }
}

/// Whether the names have the same characters.
pub fn is_same(a: &Name, b: &Name) -> bool
    ensures { result ≡ bytes_eq a.now b.now }
{
    a.same(b)
}

/// Whether the name has this text.
pub fn is_text(alloc: Global, name: &Name, text: &str) -> Result<bool, AllocError>
    ensures { IfOk result (λ told. told ≡ bytes_eq (chars text.now) name.now) }
{
    let wanted = Name::new(alloc, text)?;
    Ok(is_same(&wanted, name))
}

/// Whether the name is `String` or `System`, which name no class.
pub fn is_apart(alloc: Global, name: &Name) -> Result<bool, AllocError>
    ensures { IfOk result (λ told. told ≡ is_apart name.now) }
{
    let string = is_text(alloc, name, "String")?;
    let system = is_text(alloc, name, "System")?;
    Ok(string | system)
}

/// Whether no variable can have this name, since it is that of a type.
pub fn names_type(alloc: Global, known: &Types, name: &Name) -> Result<bool, AllocError>
    ensures { IfOk result (λ told. told ≡ names_type known.now name.now) }
{
    let apart = is_apart(alloc, name)?;
    Ok(known.number_of(name).is_some() | apart)
}

/// The number of the class or interface of this name; `Unknown` where there is none.
pub fn asked(alloc: Global, known: &Types, name: &Name, place: Place) -> Result<u32, Refusal>
    ensures { GivesValue (λ k. k) result (asked known.now name.now place) }
{
    match known.number_of(name) {
        Some(number) => match u32::try_from(number) {
            Ok(number) => Ok(number),
            Err(_) => Err(Refusal::Memory),
        },
        None => Err(Refusal::Unknown(name.copy(alloc)?, place)),
    }
}

fn base_named(alloc: Global, known: &Types, name: &Name, place: Place) -> Result<TyBase, Refusal>
    ensures { GivesValue (λ b. b) result (spec.base_named known.now name.now place) }
{
    if is_text(alloc, name, "String")? {
        return Ok(TyBase::Str);
    }
    Ok(TyBase::Class(ClassId(asked(alloc, known, name, place)?)))
}

fn base_of(alloc: Global, known: &Types, base: &TypeBase, place: Place) -> Result<TyBase, Refusal>
    ensures { GivesValue (λ b. b) result (spec.base_of known.now base.now place) }
{
    match base {
        TypeBase::Int => Ok(TyBase::Int),
        TypeBase::Boolean => Ok(TyBase::Boolean),
        TypeBase::Char => Ok(TyBase::Char),
        TypeBase::Named(name) => base_named(alloc, known, name, place),
    }
}

/// The type that a type's name means; `Unknown` where there is no such class.
pub fn type_of(alloc: Global, known: &Types, ty: &TypeName) -> Result<Ty, Refusal>
    ensures { GivesValue (λ t. t) result (type_of known.now ty.now) }
{
    let base = base_of(alloc, known, &ty.base, ty.place)?;
    Ok(Ty { base, dim: ty.dim })
}
