//! Which types fit where.

ghost use Rattle.std.specs.Prelude.{◌≡◌, ℕ, Option};
ghost use Rattle.std.specs.Option.{option_map};
ghost use Rattle.java_core.specs.Programs.{program_of};
ghost use Rattle.java_core.specs.Formed.{IsFormed};
ghost use Rattle.java_core.specs.Types as types;
ghost use Rattle.java_core.specs.Typing as typing;
ghost use Rattle.java_core.specs.Statics.{static_seen as seen};

use java_core::{
    BinOp, Op, Program, Static, Ty, TyBase, UnOp, class_in, class_of, is_string, is_subtype,
};
use kaba_base::ClassId;

/// Whether two types without brackets are the same.
fn is_base(a: TyBase, b: TyBase) -> bool
    ensures { result ≡ types.is_base a b }
{
    match (a, b) {
        (TyBase::Int, TyBase::Int)
        | (TyBase::Boolean, TyBase::Boolean)
        | (TyBase::Char, TyBase::Char)
        | (TyBase::Str, TyBase::Str) => true,
        (TyBase::Class(c), TyBase::Class(d)) => c == d,
        _ => false,
    }
}

/// Whether it is a value of this type, without brackets.
fn is_only(base: TyBase, given: Static) -> bool
    ensures { result ≡ types.is_only base (seen given) }
{
    match given {
        Static::Value(ty) => is_base(ty.base, base) && ty.dim == 0,
        Static::Null | Static::Nothing => false,
    }
}

/// Whether it is an `int` or a `char`.
pub(crate) fn is_numeric(given: Static) -> bool
    ensures { result ≡ types.is_numeric (seen given) }
{
    is_only(TyBase::Int, given) || is_only(TyBase::Char, given)
}

/// Whether it is a `boolean`.
pub(crate) fn is_boolean(given: Static) -> bool
    ensures { result ≡ types.is_boolean (seen given) }
{
    is_only(TyBase::Boolean, given)
}

/// Whether it can be printed, and joined to a string.
pub(crate) fn is_printable(given: Static) -> bool
    ensures { result ≡ types.is_printable (seen given) }
{
    is_numeric(given) || is_boolean(given) || is_string(given)
}

/// Whether it is a type of objects or arrays.
fn is_object(ty: Ty) -> bool
    ensures { result ≡ types.is_object ty }
{
    ty.dim != 0 || matches!(ty.base, TyBase::Class(_))
}

/// Whether `null` fits: a class, an array or `String`.
fn is_reference(ty: Ty) -> bool
    ensures { result ≡ types.is_reference ty }
{
    is_object(ty) || is_base(ty.base, TyBase::Str)
}

/// Whether a type without brackets is a subtype of another.
fn is_sub_base(p: &Program, a: TyBase, b: TyBase) -> bool
    requires { IsFormed (program_of p.now) }
    ensures { result ≡ types.is_sub_base (program_of p.now) a b }
{
    match (a, b) {
        (TyBase::Class(c), TyBase::Class(d)) => is_subtype(p, c, d),
        _ => is_base(a, b),
    }
}

/// Whether a type is a subtype of another; of arrays of one dimension as their bases (Java Language Specification, 4.10.3).
fn is_below(p: &Program, a: Ty, b: Ty) -> bool
    requires { IsFormed (program_of p.now) }
    ensures { result ≡ types.is_subtype (program_of p.now) a b }
{
    a.dim == b.dim && is_sub_base(p, a.base, b.base)
}

/// Whether it can be assigned to a variable of the type (Java Language Specification, 5.2).
pub(crate) fn fits(p: &Program, given: Static, ty: Ty) -> bool
    requires { IsFormed (program_of p.now) }
    ensures { result ≡ types.fits (program_of p.now) (seen given) ty }
{
    match given {
        Static::Value(own) => {
            is_below(p, own, ty)
                || (is_only(TyBase::Char, given) && is_only(TyBase::Int, Static::Value(ty)))
        }
        Static::Null => is_reference(ty),
        Static::Nothing => false,
    }
}

/// Whether it can be assigned to a target.
pub(crate) fn fits_in(p: &Program, given: Static, target: Static) -> bool
    requires { IsFormed (program_of p.now) }
    ensures { result ≡ types.fits_in (program_of p.now) (seen given) (seen target) }
{
    match target {
        Static::Value(ty) => fits(p, given, ty),
        Static::Null | Static::Nothing => false,
    }
}

/// Whether `==` and `!=` compare the two (Java Language Specification, 15.21).
fn are_comparable(p: &Program, a: Static, b: Static) -> bool
    requires { IsFormed (program_of p.now) }
    ensures { result ≡ types.are_comparable (program_of p.now) (seen a) (seen b) }
{
    match (a, b) {
        (Static::Value(s), Static::Value(t)) => {
            (is_numeric(a) && is_numeric(b))
                || (is_boolean(a) && is_boolean(b))
                || (is_object(s) && is_object(t) && (is_below(p, s, t) || is_below(p, t, s)))
        }
        (Static::Value(ty), Static::Null) | (Static::Null, Static::Value(ty)) => is_reference(ty),
        (Static::Null, Static::Null) => true,
        _ => false,
    }
}

/// Whether a prefix operator takes it.
pub(crate) fn takes_one(op: UnOp, given: Static) -> bool
    ensures { result ≡ typing.takes_one op (seen given) }
{
    match op {
        UnOp::Not => is_boolean(given),
        UnOp::Plus | UnOp::Minus | UnOp::Flip => is_numeric(given),
    }
}

/// Whether `+` joins the two as strings.
fn joins(a: Static, b: Static) -> bool
    ensures { result ≡ typing.joins (seen a) (seen b) }
{
    (is_string(a) && is_printable(b)) || (is_printable(a) && is_string(b))
}

/// Whether a binary operator takes the two (Java Language Specification, 15.17 to 15.24).
pub(crate) fn takes_two(p: &Program, op: BinOp, a: Static, b: Static) -> bool
    requires { IsFormed (program_of p.now) }
    ensures { result ≡ typing.takes_two (program_of p.now) op (seen a) (seen b) }
{
    match op {
        BinOp::Int(op) => (is_numeric(a) && is_numeric(b))
            || (matches!(op, Op::Plus) && joins(a, b)),
        BinOp::Same | BinOp::Differs => are_comparable(p, a, b),
        BinOp::Less | BinOp::Greater | BinOp::AtMost | BinOp::AtLeast => {
            is_numeric(a) && is_numeric(b)
        }
        BinOp::Both | BinOp::Either => is_boolean(a) && is_boolean(b),
    }
}

/// Whether one of two classes is at or above the other.
pub(crate) fn are_related(p: &Program, a: Option<ClassId>, b: Option<ClassId>) -> bool
    requires { IsFormed (program_of p.now) }
    ensures { result ≡ typing.are_related (program_of p.now) (option_map (λ c. c.0) a) (option_map (λ c. c.0) b) }
{
    match (a, b) {
        (Some(c), Some(d)) => is_subtype(p, c, d) || is_subtype(p, d, c),
        _ => false,
    }
}

/// Whether it can be cast to the type (Java Language Specification, 5.5).
pub(crate) fn can_cast(p: &Program, given: Static, ty: Ty) -> bool
    requires { IsFormed (program_of p.now) }
    ensures { result ≡ typing.can_cast (program_of p.now) (seen given) ty }
{
    (is_numeric(Static::Value(ty)) && is_numeric(given))
        || are_related(p, class_of(given), class_in(ty))
}
