//! What a name means where it stands in a body.
#![tactic(auto)]

ghost use Rattle.std.specs.Prelude.{◌≡◌, ℕ, Ok, suc, option_and_then};
ghost use Rattle.java_tree.specs.Syntax.{expr_of};
ghost use Rattle.java_core.specs.Trees as core;
ghost use Rattle.name_laws.specs.Answers.{GivesValue};
ghost use Rattle.name_bodies.specs.Members.{member_found};
ghost use Rattle.name_bodies.specs.Views.{table_at, receiver_of};
ghost use Rattle.name_laws.specs.Expressions.{cast_type, cast_base, name_meaning, is_variable, class_before, is_static_field, is_static_method, static_field_of, static_method_of, call_meaning};
ghost use Rattle.name_laws.specs.Expressions as spec;

use crate::Named;
use crate::declarations::Enclosing;
use crate::tables::{method_met, nearest_field, own_field, own_method};
use java_core::{RExpr, Ty, TyBase};
use java_tree::{Expr, Id, TypeBase, TypeName};
use kaba_base::{ClassId, MemberId, Name, Place};
use name_rules::{Form, Here, Refusal};
use name_tables::{Scope, asked};

/// What a call is on: an object, `this`, its superclass's part, or nothing where it is of a static method.
#[derive(Drop)]
pub enum Callee {
    Object(Box<RExpr>),
    This,
    Super,
    Static(u32),
}

fn cast_base(within: &Enclosing, base: &TypeBase, place: Place) -> Named<TyBase>
    ensures { GivesValue (λ b. b) result (cast_base (table_at within.now) base.now place) }
{
    match base {
        TypeBase::Int => Ok(TyBase::Int),
        TypeBase::Boolean => Ok(TyBase::Boolean),
        TypeBase::Char => Ok(TyBase::Char),
        TypeBase::Named(name) => {
            let class = asked(within.alloc, &within.tables.known, name, place)?;
            Ok(TyBase::Class(ClassId(class)))
        }
    }
}

/// The type of a cast.
pub fn cast_type(within: &Enclosing, ty: &TypeName) -> Named<Ty>
    ensures { GivesValue (λ t. t) result (cast_type (table_at within.now) ty.now) }
{
    let base = cast_base(within, &ty.base, ty.place)?;
    Ok(Ty { base, dim: ty.dim })
}

/// The number of a field or method.
fn id_of(number: usize) -> Named<u32>
    ensures { GivesValue (λ k. k) result (Ok number) }
{
    match u32::try_from(number) {
        Ok(number) => Ok(number),
        Err(_) => Err(Refusal::Memory),
    }
}

/// A field by its simple name.
fn field_use(within: &Enclosing, name: &Name, place: Place, found: Option<usize>) -> Named<RExpr>
    ensures { GivesValue (λ e. core.expr_of e) result (spec.field_named (table_at within.now) within.now.here name.now place found) }
{
    let Some(number) = found else {
        return Err(Refusal::Unknown(name.copy(within.alloc)?, place));
    };
    let Some(field) = within.tables.declared.fields.get(number) else {
        return Err(Refusal::Unknown(name.copy(within.alloc)?, place));
    };
    let is_own = field.owner.0 == within.here.owner;
    if field.is_static & !is_own {
        return Err(Refusal::Unknown(name.copy(within.alloc)?, place));
    }
    if !field.is_static & within.here.is_static {
        return Err(Refusal::NotInProfile(Form::ThisInStatic, place));
    }
    let number = MemberId(id_of(number)?);
    if field.is_static {
        Ok(RExpr::Static {
            field: number,
            place,
        })
    } else {
        Ok(RExpr::Own {
            field: number,
            place,
        })
    }
}

/// What a simple name means.
#[tactic(auto, unfolding(name_laws::specs::Expressions::name_meaning))]
pub fn name_meaning(within: &Enclosing, scope: &Scope, name: &Name, place: Place) -> Named<RExpr>
    ensures { GivesValue (λ e. core.expr_of e) result (name_meaning (table_at within.now) within.now.here scope.now name.now place) }
{
    match scope.number_of(name) {
        Some(local) => Ok(RExpr::Local { local, place }),
        None => {
            let found = nearest_field(within.tables, within.here.owner, name);
            field_use(within, name, place, found)
        }
    }
}

/// Whether the name is that of a local, a parameter or a field.
#[tactic(auto, unfolding(name_laws::specs::Expressions::is_variable))]
fn is_variable(within: &Enclosing, scope: &Scope, name: &Name) -> bool
    ensures { result ≡ is_variable (table_at within.now) within.now.here scope.now name.now }
{
    let local = scope.number_of(name).is_some();
    let field = nearest_field(within.tables, within.here.owner, name).is_some();
    local | field
}

/// The name before a dot that is no variable.
pub fn class_before(within: &Enclosing, scope: &Scope, base: &Expr) -> Named<Option<Id>>
    ensures { GivesValue (λ c. c) result (Ok (class_before (table_at within.now) within.now.here scope.now (expr_of base.now))) }
{
    match base {
        Expr::Name { name, place } => {
            if is_variable(within, scope, name) {
                Ok(None)
            } else {
                Ok(Some(Id {
                    name: name.copy(within.alloc)?,
                    place: *place,
                }))
            }
        }
        _ => Ok(None),
    }
}

/// Whether a field that was found is static.
fn static_field(within: &Enclosing, found: Option<usize>) -> Option<bool>
    ensures { result ≡ option_and_then (is_static_field (table_at within.now)) found }
{
    let field = within.tables.declared.fields.get(found?)?;
    Some(field.is_static)
}

/// Whether a method that was found is static.
fn static_method(within: &Enclosing, found: Option<usize>) -> Option<bool>
    ensures { result ≡ option_and_then (is_static_method (table_at within.now)) found }
{
    let method = within.tables.declared.headings.get(found?)?;
    Some(method.is_static)
}

/// A member of a name that was found, where it is static.
fn static_member(
    within: &Enclosing,
    name: &Name,
    place: Place,
    found: Option<usize>,
    is_static: Option<bool>,
) -> Named<u32>
    ensures { GivesValue (λ k. k) result (member_found name.now place found is_static) }
{
    match is_static {
        Some(true) => match found {
            Some(number) => id_of(number),
            None => Err(Refusal::Unknown(name.copy(within.alloc)?, place)),
        },
        _ => Err(Refusal::Unknown(name.copy(within.alloc)?, place)),
    }
}

/// The static field of a class itself.
pub fn static_field_of(within: &Enclosing, class: &Id, name: &Name, place: Place) -> Named<u32>
    ensures { GivesValue (λ k. k) result (static_field_of (table_at within.now) class.now name.now place) }
{
    let owner = asked(within.alloc, &within.tables.known, &class.name, class.place)?;
    let found = own_field(within.tables, owner, name);
    static_member(within, name, place, found, static_field(within, found))
}

/// The static method of a class itself.
pub fn static_method_of(within: &Enclosing, class: &Id, name: &Name, place: Place) -> Named<u32>
    ensures { GivesValue (λ k. k) result (static_method_of (table_at within.now) class.now name.now place) }
{
    let owner = asked(within.alloc, &within.tables.known, &class.name, class.place)?;
    let found = own_method(within.tables, owner, name);
    static_member(within, name, place, found, static_method(within, found))
}

fn method_use(within: &Enclosing, name: &Name, place: Place, found: Option<usize>) -> Named<Callee>
    ensures { GivesValue (λ c. receiver_of c) result (spec.method_named (table_at within.now) within.now.here name.now place found) }
{
    let Some(number) = found else {
        return Err(Refusal::Unknown(name.copy(within.alloc)?, place));
    };
    let Some(method) = within.tables.declared.headings.get(number) else {
        return Err(Refusal::Unknown(name.copy(within.alloc)?, place));
    };
    if method.is_static {
        if method.owner == within.here.owner {
            Ok(Callee::Static(id_of(number)?))
        } else {
            Err(Refusal::Unknown(name.copy(within.alloc)?, place))
        }
    } else if within.here.is_static {
        Err(Refusal::NotInProfile(Form::ThisInStatic, place))
    } else {
        Ok(Callee::This)
    }
}

/// What a call by a simple name is on.
#[tactic(auto, unfolding(name_laws::specs::Expressions::call_meaning))]
pub fn call_meaning(within: &Enclosing, name: &Name, place: Place) -> Named<Callee>
    ensures { GivesValue (λ c. receiver_of c) result (call_meaning (table_at within.now) within.now.here name.now place) }
{
    let found = method_met(within.tables, within.here.owner, name);
    method_use(within, name, place, found)
}

/// The next number of a creation, a cast or an `instanceof`.
pub fn next(number: &mut u32) -> Named<u32>
    ensures { GivesValue {A = ℕ} {B = ℕ × ℕ} (λ k. (k, number.new)) result (Ok (number.old, suc number.old)) }
{
    let own = *number;
    if own == u32::MAX {
        return Err(Refusal::Memory);
    }
    *number = own + 1;
    Ok(own)
}
