//! The types that a row can have, and the look-ups of members by them.

ghost use Rattle.std.specs.Prelude.{◌≡◌, Option, Some, None, slice_get, option_and_then};
ghost use Rattle.std.specs.Option.{option_map};
ghost use Rattle.flow_rules.specs.Operands.{object_of, object_if, object_class, object_field, call_slot, call_declaration};
ghost use Rattle.flow_rules.specs.Types.{field_object, slot_object, method_object, variable_object, element_object};
ghost use Rattle.flow_facts.specs.Words.{program_of, code_seen, IsFormed};

use crate::by_number::{field_by_number, method_by_number, slot_by_number};
use flow_rules::ObjectType;
use java_core::{Code, Program, Ty, TyBase, declaration_of, member_field};
use kaba_base::{ClassId, MemberId, Name};

/// The type, where a row can have it.
pub fn object_of(ty: Ty) -> Option<ObjectType>
    ensures value { result ≡ object_of ty }
{
    match ty.base {
        TyBase::Class(class) => Some(ObjectType { class, dim: ty.dim }),
        TyBase::Int | TyBase::Boolean | TyBase::Char | TyBase::Str => None,
    }
}

/// The same of a type that may be missing.
pub fn object_if(ty: Option<Ty>) -> Option<ObjectType>
    ensures value { result ≡ object_if ty }
{
    match ty {
        Some(ty) => object_of(ty),
        None => None,
    }
}

/// The type of a field.
pub fn field_object(program: &Program, field: u32) -> Option<ObjectType>
    ensures value { result ≡ field_object (program_of program.now) field }
{
    let member = field_by_number(program, field as u64)?;
    object_of(member.ty)
}

/// What a method of the slot gives back.
pub fn slot_object(program: &Program, slot: u32) -> Option<ObjectType>
    ensures value { result ≡ slot_object (program_of program.now) slot }
{
    let slot = slot_by_number(program, slot as u64)?;
    object_if(slot.result)
}

/// What a method gives back.
pub fn method_object(program: &Program, method: u32) -> Option<ObjectType>
    ensures value { result ≡ method_object (program_of program.now) method }
{
    let member = method_by_number(program, method as u64)?;
    object_if(member.result)
}

/// The type of an array's elements.
pub fn element_object(ty: Option<ObjectType>) -> Option<ObjectType>
    ensures value { result ≡ element_object ty }
{
    match ty {
        Some(ty) if ty.dim > 0 => Some(ObjectType {
            class: ty.class,
            dim: ty.dim - 1,
        }),
        _ => None,
    }
}

/// The class of an object; an array has none.
pub fn object_class(ty: Option<ObjectType>) -> Option<ClassId>
    ensures value { option_map (λ c. c.0) result ≡ object_class ty }
{
    match ty {
        Some(ty) if ty.dim == 0 => Some(ty.class),
        _ => None,
    }
}

/// The instance field that a type has under a name.
pub fn object_field(program: &Program, ty: Option<ObjectType>, name: &Name) -> Option<u32>
    requires { IsFormed (program_of program.now) }
    ensures value { result ≡ object_field (program_of program.now) ty name.now }
{
    let class = object_class(ty)?;
    number_of(member_field(program, class, name))
}

/// The declaration of a method that a call of the name on the type finds.
pub fn call_declaration(program: &Program, ty: Option<ObjectType>, name: &Name) -> Option<u32>
    requires { IsFormed (program_of program.now) }
    ensures value { result ≡ call_declaration (program_of program.now) ty name.now }
{
    let class = object_class(ty)?;
    number_of(declaration_of(program, class, name))
}

/// The number of a member.
pub fn number_of(member: Option<MemberId>) -> Option<u32>
    ensures value { result ≡ option_map (λ d. d.0) member }
{
    match member {
        Some(member) => Some(member.0),
        None => None,
    }
}

/// The type of a parameter or a local of a body.
pub fn variable_object(code: &Code, local: u32) -> Option<ObjectType>
    ensures value { result ≡ variable_object (code_seen code.now) local }
{
    let at = local as usize;
    let count = code.params.len();
    if at < count {
        return object_of(code.params[at].ty);
    }
    match code.locals.get(at - count) {
        Some(local) => object_of(local.ty),
        None => None,
    }
}
