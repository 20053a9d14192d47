//! What code is made for.

ghost use Rattle.std.specs.Prelude.{◌≡◌, slice_get, Option};
ghost use Rattle.std.specs.Option.{option_map};
ghost use Rattle.run_compile.specs.Words.{Place, expr_of, base_seen, field_in, static, slot_in, place_of, is_int, plain, env, IsScopeReady};
ghost use Rattle.java_core.specs.Classes.{lookup, super_method};
ghost use Rattle.java_core.specs.Makers.{maker_slot};
ghost use Rattle.java_core.specs.Types.{field_type};

use java_core::{
    Code, Program, RExpr, Static, Ty, TyBase, field_in, field_type, lookup, maker_slot, plain_type,
    slot_in, static_of, super_method,
};
use kaba_base::{ClassId, MemberId, Name};
use std::alloc::Global;

/// A program, the places of its fields by their numbers, and the body that is compiled.
#[derive(Clone, Copy)]
pub struct Scope<'a> {
    pub alloc: Global,
    pub program: &'a Program,
    pub places: &'a Vec<u32>,
    pub number: MemberId,
    pub code: Code<'a>,
}

/// Where code is made: what it is made for, and the first slot for values that wait.
#[derive(Clone, Copy)]
pub struct Site<'a> {
    pub scope: &'a Scope<'a>,
    pub at: u32,
}

/// Whether a char that flows in becomes an `int`.
pub fn is_int(ty: Option<Ty>) -> bool
    ensures { result ≡ is_int ty }
{
    match ty {
        Some(ty) => ty.base == TyBase::Int && ty.dim == 0,
        None => false,
    }
}

/// The type of a parameter or a local.
#[tactic(auto, unfolding(crate::specs::Scopes::env))]
pub fn local_type(scope: &Scope, local: u32) -> Option<Ty>
    ensures { result ≡ slice_get (env scope.now).locals local }
{
    java_core::local_type(&scope.code, local)
}

/// Whether a parameter or a local is an `int`.
pub fn is_int_local(scope: &Scope, local: u32) -> bool
    ensures { result ≡ is_int (slice_get (env scope.now).locals local) }
{
    is_int(local_type(scope, local))
}

/// Whether what the body gives back is an `int`.
#[tactic(auto, unfolding(crate::specs::Scopes::env))]
pub fn gives_int(scope: &Scope) -> bool
    ensures { result ≡ is_int (env scope.now).result }
{
    is_int(scope.code.result)
}

/// Whether a field is an `int`.
#[tactic(auto, unfolding(crate::specs::Scopes::plain))]
pub fn is_int_field(scope: &Scope, field: MemberId) -> bool
    ensures { result ≡ is_int (field_type (plain scope.now) field.0) }
{
    is_int(field_type(scope.program, field))
}

/// The place of a field in the objects of its class.
pub fn place_of(scope: &Scope, field: MemberId) -> u32
    requires { IsScopeReady scope.now }
    ensures { result ≡ place_of (plain scope.now) field.0 }
{
    match scope.places.get(field.0 as usize) {
        Some(place) => *place,
        None => 0,
    }
}

/// The field that the object of an expression has under a name.
#[tactic(auto, unfolding(crate::specs::Scopes::plain, crate::specs::Scopes::env))]
pub fn field_of(scope: &Scope, e: &RExpr, name: &Name) -> Option<MemberId>
    requires { IsScopeReady scope.now }
    ensures { option_map (λ d. d.0) result ≡ field_in (plain scope.now) (static (plain scope.now) (env scope.now) (expr_of e.now)) name.now }
{
    field_in(
        scope.program,
        static_of(scope.program, &scope.code, e),
        name,
    )
}

/// The slot that a call of a name on a receiver calls.
#[tactic(auto, unfolding(crate::specs::Scopes::plain, crate::specs::Scopes::env))]
pub fn slot_of(scope: &Scope, base: &Option<Box<RExpr>>, name: &Name) -> Option<u32>
    requires { IsScopeReady scope.now }
    ensures { (p : Place) → result ≡ slot_in (plain scope.now) (env scope.now) (base_seen base.now p) name.now }
{
    match base {
        Some(base) => slot_in(
            scope.program,
            static_of(scope.program, &scope.code, base),
            name,
        ),
        None => slot_in(
            scope.program,
            Static::Value(plain_type(TyBase::Class(scope.code.owner))),
            name,
        ),
    }
}

/// The method that the superclass has under a name.
#[tactic(auto, unfolding(crate::specs::Scopes::plain, crate::specs::Scopes::env))]
pub fn super_of(scope: &Scope, name: &Name) -> Option<u32>
    requires { IsScopeReady scope.now }
    ensures { result ≡ super_method (plain scope.now) (env scope.now).self name.now }
{
    match super_method(scope.program, scope.code.owner, name) {
        Some(method) => Some(method.0),
        None => None,
    }
}

/// The slot of the constructor of a class.
#[tactic(auto, unfolding(crate::specs::Scopes::plain))]
pub fn maker_in(scope: &Scope, class: ClassId) -> Option<u32>
    requires { IsScopeReady scope.now }
    ensures { result ≡ maker_slot (plain scope.now) class.0 }
{
    maker_slot(scope.program, class)
}

/// The method that an object of a class runs for a slot.
#[tactic(auto, unfolding(crate::specs::Scopes::plain))]
pub fn method_in(scope: &Scope, class: ClassId, slot: u32) -> Option<u32>
    requires { IsScopeReady scope.now }
    ensures { result ≡ lookup (plain scope.now) class.0 slot }
{
    match lookup(scope.program, class, slot) {
        Some(method) => Some(method.0),
        None => None,
    }
}
