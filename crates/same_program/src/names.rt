//! Classes, types, fields and methods of two programs by their names.
#![tactic(auto)]

ghost use Rattle.std.specs.Prelude.{◌≡◌, ◌&&◌, slice_get, is_ok};
ghost use Rattle.std.specs.Option.{option_map};
ghost use Rattle.std.specs.Str.{bytes_eq};
ghost use Rattle.java_core.specs.Programs.{program_of, class_seen, field_seen, method_seen};
ghost use Rattle.rebuild_model.specs.OneBodies.{class_name, field_name};
ghost use Rattle.same_program.specs.Same.{both_named, is_named, one_class, one_base, one_type, one_field, one_method};

use crate::{Agreed, Parting, What};
use java_core::{Class, Field, Method, Program, Ty, TyBase};
use kaba_base::{ClassId, MemberId, Name, Place};

/// That a test holds, or that two programs part there.
pub(crate) fn told(holds: bool, first: Place, second: Place, what: What) -> Agreed
    ensures { is_ok result ≡ holds }
{
    if holds {
        Ok(())
    } else {
        Err(Parting {
            first,
            second,
            what,
        })
    }
}

/// That both hold, or where the first that does not parts.
pub(crate) fn both(first: Agreed, second: Agreed) -> Agreed
    ensures { is_ok result ≡ (is_ok first && is_ok second) }
{
    match first {
        Ok(()) => second,
        Err(parting) => Err(parting),
    }
}

/// Whether two names have the same characters.
pub(crate) fn same_names(a: &Name, b: &Name) -> bool
    ensures { result ≡ bytes_eq a.now b.now }
{
    a.same(b)
}

/// A class by its number.
pub(crate) fn class_by_number(p: &Program, class: ClassId) -> Option<&Class>
    ensures { option_map (λ k. class_seen k.now) result ≡ slice_get (program_of p.now).classes class.0 }
{
    p.classes.get(class.0 as usize)
}

/// A field by its number.
pub(crate) fn field_by_number(p: &Program, field: MemberId) -> Option<&Field>
    ensures { option_map (λ k. field_seen k.now) result ≡ slice_get (program_of p.now).fields field.0 }
{
    p.fields.get(field.0 as usize)
}

/// A method by its number.
pub(crate) fn method_by_number(p: &Program, method: MemberId) -> Option<&Method>
    ensures { option_map (λ k. method_seen k.now) result ≡ slice_get (program_of p.now).methods method.0 }
{
    p.methods.get(method.0 as usize)
}

/// The name of a class.
fn class_name(p: &Program, class: ClassId) -> Option<&Name>
    ensures { option_map (λ x. x.now) result ≡ class_name (program_of p.now) class.0 }
{
    match class_by_number(p, class) {
        Some(class) => Some(&class.name),
        None => None,
    }
}

/// Whether a field has a name.
pub(crate) fn has_name(p: &Program, field: MemberId, name: &Name) -> bool
    ensures { result ≡ is_named (field_name (program_of p.now) field.0) name.now }
{
    match field_by_number(p, field) {
        Some(field) => same_names(&field.name, name),
        None => false,
    }
}

/// Whether a class of the first program and one of the second have one name.
pub(crate) fn same_class(p: &Program, q: &Program, a: ClassId, b: ClassId) -> bool
    ensures { result ≡ one_class (program_of p.now) (program_of q.now) a.0 b.0 }
{
    match class_name(p, a) {
        Some(name) => match class_name(q, b) {
            Some(other) => same_names(name, other),
            None => false,
        },
        None => false,
    }
}

/// Whether two bases of types are one.
fn same_base(p: &Program, q: &Program, a: TyBase, b: TyBase) -> bool
    ensures { result ≡ one_base (program_of p.now) (program_of q.now) a b }
{
    match a {
        TyBase::Int => matches!(b, TyBase::Int),
        TyBase::Boolean => matches!(b, TyBase::Boolean),
        TyBase::Char => matches!(b, TyBase::Char),
        TyBase::Str => matches!(b, TyBase::Str),
        TyBase::Class(class) => match b {
            TyBase::Class(other) => same_class(p, q, class, other),
            _ => false,
        },
    }
}

/// Whether two types are one.
pub(crate) fn same_type(p: &Program, q: &Program, a: Ty, b: Ty) -> bool
    ensures { result ≡ one_type (program_of p.now) (program_of q.now) a b }
{
    same_base(p, q, a.base, b.base) && a.dim == b.dim
}

/// Whether two fields have one name, in classes of one name.
pub(crate) fn same_field(p: &Program, q: &Program, a: MemberId, b: MemberId) -> bool
    ensures { result ≡ one_field (program_of p.now) (program_of q.now) a.0 b.0 }
{
    match field_by_number(p, a) {
        Some(field) => match field_by_number(q, b) {
            Some(other) => {
                same_class(p, q, field.owner, other.owner) && same_names(&field.name, &other.name)
            }
            None => false,
        },
        None => false,
    }
}

/// Whether two methods have one name, in classes of one name.
pub(crate) fn same_method(p: &Program, q: &Program, a: MemberId, b: MemberId) -> bool
    ensures { result ≡ one_method (program_of p.now) (program_of q.now) a.0 b.0 }
{
    match method_by_number(p, a) {
        Some(method) => match method_by_number(q, b) {
            Some(other) => {
                same_class(p, q, method.owner, other.owner) && same_names(&method.name, &other.name)
            }
            None => false,
        },
        None => false,
    }
}
