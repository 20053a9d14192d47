//! What an expression gives, or the first rule that fails in it.

ghost use Rattle.std.specs.Prelude.{◌≡◌, ◌&&◌, ◌++◌, map, Some, slice_get};
ghost use Rattle.std.specs.Option.{option_map, is_some};
ghost use Rattle.kaba_base.specs.declared.Place.{Place};
ghost use Rattle.java_core.specs.Trees.{at_place, expr_of, exprs, base_seen};
ghost use Rattle.java_core.specs.Programs.{program_of, local_seen};
ghost use Rattle.java_core.specs.Classes as classes;
ghost use Rattle.java_core.specs.Formed.{IsFormed};
ghost use Rattle.java_core.specs.Makers.{maker_of};
ghost use Rattle.java_core.specs.Types as types;
ghost use Rattle.java_core.specs.Typing as typing;
ghost use Rattle.java_core.specs.Statics.{static_seen as seen, given_of};
ghost use Rattle.java_check.specs.Callees.{signature_of};
ghost use Rattle.java_check.specs.Outcome.{env_in, answer, args_answer, none_called, call_answer, super_answer, made_params, create_answer, member_answer, and_then, asked};

use crate::by_number::{class_by_number, code_by_number, method_by_number};
use crate::callees::{Callee, called, method_called, param_at, result_of};
use crate::types::{are_related, can_cast, fits, is_numeric, takes_one, takes_two};
use crate::{Answered, CheckFault, Kind};
use java_core::{
    BinOp, Program, RExpr, Static, Ty, TyBase, UnOp, access_type, binary_type, class_of,
    element_of, field_type, given_of, maker_of, plain_type, super_method, unary_type,
};
use kaba_base::{ClassId, MemberId, Name, Place};

/// A rule that must hold.
pub(crate) fn ask(holds: bool, kind: Kind, place: Place) -> Answered<()>
    ensures { result ≡ asked holds kind (at_place place) (tt {0}) }
{
    if holds {
        Ok(())
    } else {
        Err(CheckFault::IllTyped(kind, place))
    }
}

/// The class that holds the body.
fn self_class(p: &Program, body: MemberId) -> ClassId
    ensures { result.0 ≡ (env_in (program_of p.now) body.0).self }
{
    match code_by_number(p, body) {
        Some(code) => code.owner,
        None => ClassId(0),
    }
}

/// The type of `this` in the body.
fn self_type(p: &Program, body: MemberId) -> Ty
    ensures { result ≡ types.class_type (env_in (program_of p.now) body.0).self }
{
    plain_type(TyBase::Class(self_class(p, body)))
}

/// The type of a parameter or a local of the body.
pub(crate) fn local_type(p: &Program, body: MemberId, local: u32) -> Option<Ty>
    ensures { result ≡ slice_get (env_in (program_of p.now) body.0).locals local }
{
    match code_by_number(p, body) {
        Some(code) => java_core::local_type(&code, local),
        None => None,
    }
}

/// Whether objects of the class can be made.
pub(crate) fn is_concrete(p: &Program, class: ClassId) -> bool
    ensures { result ≡ classes.is_concrete (program_of p.now) class.0 }
{
    match class_by_number(p, class.0 as usize) {
        Some(class) => !class.is_interface && !class.is_abstract,
        None => false,
    }
}

/// Whether a method has a body.
pub(crate) fn has_body(p: &Program, method: MemberId) -> bool
    ensures { result ≡ classes.has_body (program_of p.now) method.0 }
{
    match method_by_number(p, method.0 as usize) {
        Some(method) => method.body.is_some(),
        None => false,
    }
}

/// What an expression gives, or the first rule that fails in it.
#[cycle(expressions)]
pub(crate) fn type_of(p: &Program, body: MemberId, e: &RExpr) -> Answered<Static>
    requires { IsFormed (program_of p.now) }
    ensures { result ≡ answer (program_of p.now) (env_in (program_of p.now) body.0) (expr_of e.now) }
{
    match e {
        RExpr::Int { .. } => Ok(Static::Value(plain_type(TyBase::Int))),
        RExpr::Char { .. } => Ok(Static::Value(plain_type(TyBase::Char))),
        RExpr::Str { .. } => Ok(Static::Value(plain_type(TyBase::Str))),
        RExpr::Bool { .. } => Ok(Static::Value(plain_type(TyBase::Boolean))),
        RExpr::Null { .. } => Ok(Static::Null),
        RExpr::This { .. } => Ok(Static::Value(self_type(p, body))),
        RExpr::Local { local, .. } => Ok(given_of(local_type(p, body, *local))),
        RExpr::Static { field, .. } => Ok(given_of(field_type(p, *field))),
        RExpr::Own { field, .. } => Ok(given_of(field_type(p, *field))),
        RExpr::Field { base, name, place } => access(p, type_of(p, body, base)?, name, *place),
        RExpr::Index { base, at, place } => {
            element(type_of(p, body, base)?, type_of(p, body, at)?, *place)
        }
        RExpr::Call {
            base,
            name,
            args,
            place,
        } => match type_of_base(p, body, base) {
            Ok(given) => type_of_call(
                p,
                body,
                called(p, given, name),
                none_called(name),
                args,
                *place,
            ),
            Err(fault) => Err(fault),
        },
        RExpr::StaticCall {
            method,
            args,
            place,
        } => type_of_call(
            p,
            body,
            method_called(p, *method),
            Kind::NoMember,
            args,
            *place,
        ),
        RExpr::SuperCall { name, args, place } => type_of_super(p, body, name, args, *place),
        RExpr::New {
            class,
            args,
            place,
            ..
        } => creation(p, body, *class, args, *place),
        RExpr::NewArray {
            ty,
            size,
            place,
            ..
        } => array(type_of(p, body, size)?, *ty, *place),
        RExpr::Cast {
            ty,
            value,
            place,
            ..
        } => cast(p, type_of(p, body, value)?, *ty, *place),
        RExpr::InstanceOf {
            value,
            class,
            place,
            ..
        } => { instance(p, type_of(p, body, value)?, *class, *place) }
        RExpr::Unary { op, value, place } => unary(*op, type_of(p, body, value)?, *place),
        RExpr::Binary {
            op,
            left,
            right,
            place,
        } => {
            binary(
                p,
                *op,
                type_of(p, body, left)?,
                type_of(p, body, right)?,
                *place,
            )
        }
    }
}

/// What the receiver of a call gives; where none is written, it is `this`.
#[cycle(expressions)]
fn type_of_base(p: &Program, body: MemberId, base: &Option<Box<RExpr>>) -> Answered<Static>
    requires { IsFormed (program_of p.now) }
    ensures { (place : Place) → result ≡ answer (program_of p.now) (env_in (program_of p.now) body.0) (base_seen base.now place) }
{
    match base {
        Some(base) => type_of(p, body, base),
        None => Ok(Static::Value(self_type(p, body))),
    }
}

/// What a call gives, where it calls something; else a rule fails.
#[cycle(expressions)]
fn type_of_call(
    p: &Program,
    body: MemberId,
    callee: Option<Callee>,
    none: Kind,
    args: &Vec<RExpr>,
    place: Place,
) -> Answered<Static>
    requires { IsFormed (program_of p.now) }
    ensures { result ≡ call_answer none (option_map (signature_of (program_of p.now)) callee)
        (args_answer (program_of p.now) (env_in (program_of p.now) body.0) (exprs args.now.items) (at_place place)) (at_place place) }
{
    match callee {
        Some(callee) => {
            check_args(p, body, callee, args, place)?;
            Ok(result_of(p, callee))
        }
        None => Err(CheckFault::IllTyped(none, place)),
    }
}

/// The rule that a call of a name breaks where it calls nothing.
fn none_called(name: &Name) -> Kind
    ensures { result ≡ none_called name.now }
{
    if name.as_str().starts_with('<') {
        Kind::Arguments
    } else {
        Kind::NoMember
    }
}

/// What a call of the superclass's method gives.
#[cycle(expressions)]
fn type_of_super(
    p: &Program,
    body: MemberId,
    name: &Name,
    args: &Vec<RExpr>,
    place: Place,
) -> Answered<Static>
    requires { IsFormed (program_of p.now) }
    ensures { result ≡ super_answer (program_of p.now) (classes.super_method (program_of p.now) (env_in (program_of p.now) body.0).self name.now)
        (args_answer (program_of p.now) (env_in (program_of p.now) body.0) (exprs args.now.items) (at_place place)) (at_place place) }
{
    match super_method(p, self_class(p, body), name) {
        Some(method) if has_body(p, method) => {
            type_of_call(
                p,
                body,
                method_called(p, method),
                Kind::NoMember,
                args,
                place,
            )
        }
        _ => Err(CheckFault::IllTyped(Kind::MissingBody, place)),
    }
}

/// Whether the arguments are as many as the parameters, and each fits its own.
#[cycle(expressions)]
fn check_args(
    p: &Program,
    body: MemberId,
    callee: Callee,
    args: &[RExpr],
    place: Place,
) -> Answered<()>
    requires { IsFormed (program_of p.now) }
    ensures { result ≡ args_answer (program_of p.now) (env_in (program_of p.now) body.0)
        (exprs args.now) (at_place place) (signature_of (program_of p.now) callee).params }
{
    for (i, arg) in args.iter().enumerate() {
        let Some(ty) = param_at(p, callee, i) else {
            return Err(CheckFault::IllTyped(Kind::Arguments, place));
        };
        if let Err(fault) = check_arg(p, body, arg, ty, place) {
            return Err(fault);
        }
    }
    match param_at(p, callee, args.len()) {
        None => Ok(()),
        Some(_) => Err(CheckFault::IllTyped(Kind::Arguments, place)),
    }
}

/// Whether an argument fits its parameter.
#[cycle(expressions)]
fn check_arg(p: &Program, body: MemberId, arg: &RExpr, ty: Ty, place: Place) -> Answered<()>
    requires { IsFormed (program_of p.now) }
    ensures { result ≡ and_then (answer (program_of p.now) (env_in (program_of p.now) body.0) (expr_of arg.now))
        (λ s. asked (types.fits (program_of p.now) (seen s) ty) Kind.Arguments (at_place place) (tt {0})) }
{
    ask(fits(p, type_of(p, body, arg)?, ty), Kind::Arguments, place)
}

/// What a creation gives.
#[cycle(expressions)]
fn creation(
    p: &Program,
    body: MemberId,
    class: ClassId,
    args: &Vec<RExpr>,
    place: Place,
) -> Answered<Static>
    requires { IsFormed (program_of p.now) }
    ensures { result ≡ create_answer (classes.is_concrete (program_of p.now) class.0)
        (args_answer (program_of p.now) (env_in (program_of p.now) body.0) (exprs args.now.items) (at_place place)
        (made_params (program_of p.now) (maker_of (program_of p.now) class.0))) class.0 (at_place place) }
{
    ask(is_concrete(p, class), Kind::AbstractNew, place)?;
    check_made(p, body, maker_of(p, class), args, place)?;
    Ok(Static::Value(plain_type(TyBase::Class(class))))
}

/// Whether the arguments of a creation fit the constructor; where there is none, there are no arguments.
#[cycle(expressions)]
fn check_made(
    p: &Program,
    body: MemberId,
    maker: Option<MemberId>,
    args: &[RExpr],
    place: Place,
) -> Answered<()>
    requires { IsFormed (program_of p.now) }
    ensures { result ≡ args_answer (program_of p.now) (env_in (program_of p.now) body.0)
        (exprs args.now) (at_place place) (made_params (program_of p.now) (option_map (λ m. m.0) maker)) }
{
    match maker {
        Some(maker) => check_args(p, body, Callee::Method(maker), args, place),
        None => ask(args.is_empty(), Kind::Arguments, place),
    }
}

/// What a field access gives.
fn access(p: &Program, given: Static, name: &Name, place: Place) -> Answered<Static>
    requires { IsFormed (program_of p.now) }
    ensures { result ≡ member_answer (types.access_type (program_of p.now) (seen given) name.now) (at_place place) }
{
    match access_type(p, given, name) {
        Some(ty) => Ok(Static::Value(ty)),
        None => Err(CheckFault::IllTyped(Kind::NoMember, place)),
    }
}

/// What an index gives.
pub(crate) fn element(base: Static, index: Static, place: Place) -> Answered<Static>
    ensures { result ≡ asked (is_some (types.element_of (seen base)) && types.is_numeric (seen index))
        Kind.Operand (at_place place) (given_of (types.element_of (seen base))) }
{
    let element = element_of(base);
    ask(element.is_some() && is_numeric(index), Kind::Operand, place)?;
    Ok(given_of(element))
}

/// What the creation of an array gives.
fn array(size: Static, ty: Ty, place: Place) -> Answered<Static>
    ensures { result ≡ asked (types.is_numeric (seen size)) Kind.Operand (at_place place) (Static.Value ty) }
{
    ask(is_numeric(size), Kind::Operand, place)?;
    Ok(Static::Value(ty))
}

/// What a cast gives.
fn cast(p: &Program, given: Static, ty: Ty, place: Place) -> Answered<Static>
    requires { IsFormed (program_of p.now) }
    ensures { result ≡ asked (typing.can_cast (program_of p.now) (seen given) ty) Kind.Cast (at_place place) (Static.Value ty) }
{
    ask(can_cast(p, given, ty), Kind::Cast, place)?;
    Ok(Static::Value(ty))
}

/// What an `instanceof` gives.
fn instance(p: &Program, given: Static, class: ClassId, place: Place) -> Answered<Static>
    requires { IsFormed (program_of p.now) }
    ensures { result ≡ asked (typing.are_related (program_of p.now) (types.class_of (seen given))
        (Some class.0)) Kind.Cast (at_place place) (Static.Value (types.plain_type TyBase.Boolean)) }
{
    ask(
        are_related(p, class_of(given), Some(class)),
        Kind::Cast,
        place,
    )?;
    Ok(Static::Value(plain_type(TyBase::Boolean)))
}

/// What a prefix operator gives.
fn unary(op: UnOp, given: Static, place: Place) -> Answered<Static>
    ensures { result ≡ asked (typing.takes_one op (seen given)) Kind.Operand (at_place place) (Static.Value (types.unary_type op)) }
{
    ask(takes_one(op, given), Kind::Operand, place)?;
    Ok(Static::Value(unary_type(op)))
}

/// What a binary operator gives.
fn binary(p: &Program, op: BinOp, left: Static, right: Static, place: Place) -> Answered<Static>
    requires { IsFormed (program_of p.now) }
    ensures { result ≡ asked (typing.takes_two (program_of p.now) op (seen left) (seen right))
        Kind.Operand (at_place place) (Static.Value (types.binary_type op (seen left) (seen right))) }
{
    ask(takes_two(p, op, left, right), Kind::Operand, place)?;
    Ok(Static::Value(binary_type(op, left, right)))
}
