//! What a call calls, and its signature.

ghost use Rattle.std.specs.Prelude.{◌≡◌, ℕ, List, Option, Some, None, map, slice_get, option_and_then, if◌then◌else◌};
ghost use Rattle.std.specs.Option.{option_map};
ghost use Rattle.std.specs.Str.{bytes_eq, encode_utf8_all};
ghost use Rattle.java_core.specs.Programs.{Plain, program_of, local_seen};
ghost use Rattle.java_core.specs.Classes as classes;
ghost use Rattle.java_core.specs.Formed.{IsFormed};
ghost use Rattle.java_core.specs.Types as types;
ghost use Rattle.java_core.specs.Statics.{static_seen as seen, string_seen, given_of};
ghost use Rattle.java_check.specs.Callees.{signature_of};

use crate::by_number::method_by_number;
use java_core::{
    Program, Static, StringMethod, Ty, TyBase, class_of, given_of, is_string, plain_type, slot_of,
    string_method, string_result, type_at,
};
use kaba_base::{ClassId, MemberId, Name};

/// What a call calls.
#[derive(Clone, Copy)]
pub(crate) enum Callee {
    /// A method of `String`.
    Text(StringMethod),
    /// The instance methods of a slot.
    Slot(u32),
    /// One method.
    Method(MemberId),
}

/// What a call of a name on an expression calls: a method of `String`, or the slot that the class offers.
#[tactic(auto, unfolding(java_core::specs::Types::call_signature))]
pub(crate) fn called(p: &Program, given: Static, name: &Name) -> Option<Callee>
    requires { IsFormed (program_of p.now) }
    ensures { option_map (signature_of (program_of p.now)) result ≡ types.call_signature (program_of p.now) (seen given) name.now }
{
    if is_string(given) {
        return text_called(name);
    }
    match class_of(given) {
        Some(class) => offered(p, class, name),
        None => None,
    }
}

/// What a call of a name on a `String` calls.
fn text_called(name: &Name) -> Option<Callee>
    ensures { (P : Plain) → option_map (signature_of P) result ≡ option_map types.signature_of_string (types.string_method name.now) }
{
    match string_method(name) {
        Some(method) => Some(Callee::Text(method)),
        None => None,
    }
}

/// The slot that a class offers under a name.
fn offered(p: &Program, class: ClassId, name: &Name) -> Option<Callee>
    requires { IsFormed (program_of p.now) }
    ensures { option_map (signature_of (program_of p.now)) result
        ≡ option_and_then (types.signature_of_slot (program_of p.now)) (classes.slot_of (program_of p.now) class.0 name.now) }
{
    match slot_of(p, class, name) {
        Some(slot) if p.slots.get(slot as usize).is_some() => Some(Callee::Slot(slot)),
        _ => None,
    }
}

/// A method that is called, where it is there.
pub(crate) fn method_called(p: &Program, method: MemberId) -> Option<Callee>
    ensures { option_map (signature_of (program_of p.now)) result ≡ types.signature_of_method (program_of p.now) method.0 }
{
    match method_by_number(p, method.0 as usize) {
        Some(_) => Some(Callee::Method(method)),
        None => None,
    }
}

/// The type of a parameter.
pub(crate) fn param_at(p: &Program, callee: Callee, at: usize) -> Option<Ty>
    ensures { result ≡ slice_get (signature_of (program_of p.now) callee).params at }
{
    match callee {
        Callee::Text(method) => string_param(method, at),
        Callee::Slot(slot) => slot_param(p, slot, at),
        Callee::Method(method) => method_param(p, method, at),
    }
}

/// The type of a parameter of a method of `String`.
fn string_param(method: StringMethod, at: usize) -> Option<Ty>
    ensures { result ≡ slice_get (types.string_params (string_seen method)) at }
{
    match (method, at) {
        (StringMethod::CharAt, 0) => Some(plain_type(TyBase::Int)),
        (StringMethod::Equals, 0) => Some(plain_type(TyBase::Str)),
        _ => None,
    }
}

/// The type of a parameter of a slot.
fn slot_param(p: &Program, slot: u32, at: usize) -> Option<Ty>
    ensures { result ≡ slice_get (signature_of (program_of p.now) (Callee.Slot slot)).params at }
{
    match p.slots.get(slot as usize) {
        Some(slot) => slot.params.get(at).copied(),
        None => None,
    }
}

/// The type of a parameter of a method.
fn method_param(p: &Program, method: MemberId, at: usize) -> Option<Ty>
    ensures { result ≡ slice_get (signature_of (program_of p.now) (Callee.Method method)).params at }
{
    match method_by_number(p, method.0 as usize) {
        Some(method) => type_at(&method.params, at),
        None => None,
    }
}

/// What a call gives.
pub(crate) fn result_of(p: &Program, callee: Callee) -> Static
    ensures { result ≡ given_of (signature_of (program_of p.now) callee).result }
{
    match callee {
        Callee::Text(method) => Static::Value(string_result(method)),
        Callee::Slot(slot) => slot_result(p, slot),
        Callee::Method(method) => method_result(p, method),
    }
}

/// What a call of a slot gives.
fn slot_result(p: &Program, slot: u32) -> Static
    ensures { result ≡ given_of (signature_of (program_of p.now) (Callee.Slot slot)).result }
{
    match p.slots.get(slot as usize) {
        Some(slot) => given_of(slot.result),
        None => Static::Nothing,
    }
}

/// What a call of a method gives.
fn method_result(p: &Program, method: MemberId) -> Static
    ensures { result ≡ given_of (signature_of (program_of p.now) (Callee.Method method)).result }
{
    match method_by_number(p, method.0 as usize) {
        Some(method) => given_of(method.result),
        None => Static::Nothing,
    }
}
