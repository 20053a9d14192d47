//! The static type of an expression, step by step (Java Language Specification, chapter 15).

ghost use Rattle.std.specs.Prelude.{◌≡◌, ◌++◌, ℕ, List, Option, map, slice_get, option_and_then};
ghost use Rattle.std.specs.Str.{bytes_eq, encode_utf8_all};
ghost use Rattle.std.specs.Option.{option_map};
ghost use Rattle.java_core.specs.Trees.{expr_of};
ghost use Rattle.java_core.specs.Programs.{program_of, local_seen, code_seen};
ghost use Rattle.java_core.specs.Formed.{IsFormed};
ghost use Rattle.java_core.specs.Classes.{slot_of};
ghost use Rattle.java_core.specs.Types as types;
ghost use Rattle.java_core.specs.Types.{types_of, signature_of_method, call_signature, super_signature};
ghost use Rattle.java_core.specs.Statics.{static_seen, static_in, string_seen, given_of};

use crate::{
    BinOp, Code, Local, Op, Program, RExpr, Ty, TyBase, UnOp, member_field, slot_of, super_method,
};
use kaba_base::{ClassId, MemberId, Name};

/// What an expression gives.
#[derive(Clone, Copy)]
pub enum Static {
    /// A value of the type.
    Value(Ty),
    /// `null`.
    Null,
    /// Nothing: a call of a void method, or what no rule allows.
    Nothing,
}

/// A method of `String`.
#[derive(Clone, Copy)]
pub enum StringMethod {
    /// `length()`
    Length,
    /// `charAt(int)`
    CharAt,
    /// `equals(String)`
    Equals,
}

/// A type without brackets.
pub fn plain_type(base: TyBase) -> Ty
    ensures value { result ≡ types.plain_type base }
{
    Ty { base, dim: 0 }
}

/// A value of the type, where there is one.
pub fn given_of(ty: Option<Ty>) -> Static
    ensures value { result ≡ given_of ty }
    ensures seen { static_seen result ≡ types.or_nothing ty }
{
    match ty {
        Some(ty) => Static::Value(ty),
        None => Static::Nothing,
    }
}

/// A value of a type without brackets.
fn plain(base: TyBase) -> Static
    ensures { static_seen result ≡ types.a_value (types.plain_type base) }
{
    Static::Value(plain_type(base))
}

/// The type of one of several parameters or locals, by its place among them.
pub fn type_at(variables: &[Local], at: usize) -> Option<Ty>
    ensures value { result ≡ slice_get (types_of (map local_seen variables.now)) at }
{
    match variables.get(at) {
        Some(variable) => Some(variable.ty),
        None => None,
    }
}

/// The type of a parameter or a local of a body, by its number: the parameters first, then the locals.
pub fn local_type(code: &Code, local: u32) -> Option<Ty>
    ensures value { result ≡ slice_get (types_of ((code_seen code.now).params ++ (code_seen code.now).locals)) local }
{
    let at = local as usize;
    let count = code.params.len();
    if at < count {
        type_at(code.params, at)
    } else {
        type_at(code.locals, at - count)
    }
}

/// The type of a field.
pub fn field_type(p: &Program, field: MemberId) -> Option<Ty>
    ensures value { result ≡ types.field_type (program_of p.now) field.0 }
{
    match p.fields.get(field.0 as usize) {
        Some(field) => Some(field.ty),
        None => None,
    }
}

/// The class of the object that an expression gives; what is no object has none.
pub fn class_of(found: Static) -> Option<ClassId>
    ensures value { option_map (λ d. d.0) result ≡ types.class_of (static_seen found) }
{
    match found {
        Static::Value(ty) => class_in(ty),
        Static::Null | Static::Nothing => None,
    }
}

/// The class of an object of the type; a type of no object has none.
pub fn class_in(ty: Ty) -> Option<ClassId>
    ensures value { option_map (λ d. d.0) result ≡ types.class_in ty.base ty.dim }
{
    match (ty.base, ty.dim) {
        (TyBase::Class(class), 0) => Some(class),
        _ => None,
    }
}

/// The type of the elements of an array of the type; a type of no array has none.
pub fn element_in(ty: Ty) -> Option<Ty>
    ensures value { result ≡ types.element_in ty.base ty.dim }
{
    if ty.dim == 0 {
        None
    } else {
        Some(Ty {
            base: ty.base,
            dim: ty.dim - 1,
        })
    }
}

/// The type of the elements of the array that an expression gives; what is no array has none.
pub fn element_of(found: Static) -> Option<Ty>
    ensures value { result ≡ types.element_of (static_seen found) }
{
    match found {
        Static::Value(ty) => element_in(ty),
        Static::Null | Static::Nothing => None,
    }
}

/// Whether an expression gives a `String`.
pub fn is_string(found: Static) -> bool
    ensures value { result ≡ types.is_string (static_seen found) }
{
    match found {
        Static::Value(ty) => ty.base == TyBase::Str && ty.dim == 0,
        Static::Null | Static::Nothing => false,
    }
}

/// Whether a name is this word.
fn is_word(name: &Name, word: &str) -> bool
    ensures { (w : List ℕ) → encode_utf8_all w ≡ word.now → result ≡ bytes_eq name.now w }
{
    name.as_str() == word
}

/// Whether a name is `length`.
pub fn is_length(name: &Name) -> bool
    ensures value { result ≡ types.is_length name.now }
{
    is_word(name, "length")
}

/// The method of `String` that has the name.
pub fn string_method(name: &Name) -> Option<StringMethod>
    ensures value { option_map string_seen result ≡ types.string_method name.now }
{
    if is_word(name, "length") {
        return Some(StringMethod::Length);
    }
    if is_word(name, "charAt") {
        return Some(StringMethod::CharAt);
    }
    if is_word(name, "equals") {
        return Some(StringMethod::Equals);
    }
    None
}

/// What a method of `String` gives.
pub fn string_result(method: StringMethod) -> Ty
    ensures value { result ≡ types.string_result (string_seen method) }
{
    match method {
        StringMethod::Length => plain_type(TyBase::Int),
        StringMethod::CharAt => plain_type(TyBase::Char),
        StringMethod::Equals => plain_type(TyBase::Boolean),
    }
}

/// The instance field that the object of an expression has under a name.
#[tactic(auto, unfolding(crate::specs::Types::field_in))]
pub fn field_in(p: &Program, found: Static, name: &Name) -> Option<MemberId>
    requires { IsFormed (program_of p.now) }
    ensures value { option_map (λ d. d.0) result ≡ types.field_in (program_of p.now) (static_seen found) name.now }
{
    match class_of(found) {
        Some(class) => member_field(p, class, name),
        None => None,
    }
}

/// The type of the instance field that the object of an expression has under a name.
pub fn value_type(p: &Program, found: Static, name: &Name) -> Option<Ty>
    requires { IsFormed (program_of p.now) }
    ensures value { result ≡ types.value_type (program_of p.now) (static_seen found) name.now }
{
    match field_in(p, found, name) {
        Some(field) => field_type(p, field),
        None => None,
    }
}

/// What an access to a name gives: the length of an array, or a field's value.
#[tactic(auto, unfolding(crate::specs::Types::access_type))]
pub fn access_type(p: &Program, found: Static, name: &Name) -> Option<Ty>
    requires { IsFormed (program_of p.now) }
    ensures value { result ≡ types.access_type (program_of p.now) (static_seen found) name.now }
{
    match element_of(found) {
        Some(_) => {
            if is_length(name) {
                Some(plain_type(TyBase::Int))
            } else {
                None
            }
        }
        None => value_type(p, found, name),
    }
}

/// The slot that a call of a name on the object of an expression calls.
pub fn slot_in(p: &Program, found: Static, name: &Name) -> Option<u32>
    requires { IsFormed (program_of p.now) }
    ensures value { result ≡ option_and_then (λ c. slot_of (program_of p.now) c name.now) (types.class_of (static_seen found)) }
{
    match class_of(found) {
        Some(class) => slot_of(p, class, name),
        None => None,
    }
}

/// What a call of a name gives.
#[tactic(auto, unfolding(crate::specs::Types::call_signature))]
fn call_result(p: &Program, found: Static, name: &Name) -> Static
    requires { IsFormed (program_of p.now) }
    ensures { static_seen result ≡ types.result_of (call_signature (program_of p.now) (static_seen found) name.now) }
{
    if is_string(found) {
        return match string_method(name) {
            Some(method) => Static::Value(string_result(method)),
            None => Static::Nothing,
        };
    }
    match slot_in(p, found, name) {
        Some(slot) => match p.slots.get(slot as usize) {
            Some(slot) => given_of(slot.result),
            None => Static::Nothing,
        },
        None => Static::Nothing,
    }
}

/// What a method gives.
fn method_result(p: &Program, method: MemberId) -> Static
    ensures { static_seen result ≡ types.result_of (signature_of_method (program_of p.now) method.0) }
{
    match p.methods.get(method.0 as usize) {
        Some(method) => given_of(method.result),
        None => Static::Nothing,
    }
}

/// What `super.name(..)` in a class gives.
#[tactic(auto, unfolding(crate::specs::Types::super_signature))]
fn super_result(p: &Program, class: ClassId, name: &Name) -> Static
    requires { IsFormed (program_of p.now) }
    ensures { static_seen result ≡ types.result_of (super_signature (program_of p.now) class.0 name.now) }
{
    match super_method(p, class, name) {
        Some(method) => method_result(p, method),
        None => Static::Nothing,
    }
}

/// What a binary operator gives.
pub fn binary_type(op: BinOp, left: Static, right: Static) -> Ty
    ensures value { result ≡ types.binary_type op (static_seen left) (static_seen right) }
{
    match op {
        BinOp::Int(Op::Plus) if is_string(left) || is_string(right) => plain_type(TyBase::Str),
        BinOp::Int(_) => plain_type(TyBase::Int),
        BinOp::Same
        | BinOp::Differs
        | BinOp::Less
        | BinOp::Greater
        | BinOp::AtMost
        | BinOp::AtLeast
        | BinOp::Both
        | BinOp::Either => plain_type(TyBase::Boolean),
    }
}

/// What a prefix operator gives.
pub fn unary_type(op: UnOp) -> Ty
    ensures value { result ≡ types.unary_type op }
{
    match op {
        UnOp::Not => plain_type(TyBase::Boolean),
        UnOp::Plus | UnOp::Minus | UnOp::Flip => plain_type(TyBase::Int),
    }
}

/// The static type of an expression in a body.
pub fn static_of(p: &Program, code: &Code, e: &RExpr) -> Static
    requires { IsFormed (program_of p.now) }
    ensures value { (b : ℕ) → static_seen result ≡ static_in p.now b code.now (expr_of e.now) }
{
    match e {
        RExpr::Int { .. } => plain(TyBase::Int),
        RExpr::Char { .. } => plain(TyBase::Char),
        RExpr::Str { .. } => plain(TyBase::Str),
        RExpr::Bool { .. } => plain(TyBase::Boolean),
        RExpr::Null { .. } => Static::Null,
        RExpr::This { .. } => plain(TyBase::Class(code.owner)),
        RExpr::Local { local, .. } => given_of(local_type(code, *local)),
        RExpr::Static { field, .. } => given_of(field_type(p, *field)),
        RExpr::Own { field, .. } => given_of(field_type(p, *field)),
        RExpr::Field { base, name, .. } => {
            given_of(access_type(p, static_of(p, code, base), name))
        }
        RExpr::Index { base, .. } => given_of(element_of(static_of(p, code, base))),
        RExpr::Call { base, name, .. } => match base {
            Some(base) => call_result(p, static_of(p, code, base), name),
            None => call_result(p, plain(TyBase::Class(code.owner)), name),
        },
        RExpr::StaticCall { method, .. } => method_result(p, *method),
        RExpr::SuperCall { name, .. } => super_result(p, code.owner, name),
        RExpr::New { class, .. } => plain(TyBase::Class(*class)),
        RExpr::NewArray { ty, .. } => Static::Value(*ty),
        RExpr::Cast { ty, .. } => Static::Value(*ty),
        RExpr::InstanceOf { .. } => plain(TyBase::Boolean),
        RExpr::Unary { op, .. } => Static::Value(unary_type(*op)),
        RExpr::Binary {
            op,
            left,
            right,
            ..
        } => Static::Value(binary_type(*op, static_of(p, code, left), static_of(p, code, right))),
    }
}
