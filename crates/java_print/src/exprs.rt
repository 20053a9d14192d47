//! The text of an expression.
#![tactic(auto)]

ghost use Rattle.std.specs.Prelude.{◌≡◌, OnOk, List, ◌∷◌, Bool, suc, true, false, IsTrue};
ghost use Rattle.java_tree.specs.Syntax.{expr_of, exprs};
ghost use Rattle.java_print.specs.Items.{Item, Space};
ghost use Rattle.java_print.specs.Layout.{rank, sign_of, same_sign, is_plus_or_minus, is_named, fits, fits_sign, fits_cast, mark_then, key_then, word_then, comma, bool_items, base_items, dims_items, more_dims_items, in_round, expr_items, args_items, type_items, called_items, field_items, index_items, new_array_items, cast_items, test_items, binary_items};
ghost use Rattle.java_print.specs.Adds.{Adds, Puts, space_then, key_space_then, square_then, dot_call};

use crate::put::{
    put_char_literal, put_int, put_key, put_margin, put_mark, put_name, put_string_literal,
};
use java_lex::Mark;
use java_tree::{Expr, Id, TypeBase, TypeName, level_of};
use kaba_base::{Keyword, Name};
use std::alloc::AllocError;

/// How tightly an expression binds: 13 needs no brackets anywhere.
fn rank(e: &Expr) -> u32
    ensures value { result ≡ rank (expr_of e.now) }
{
    match e {
        Expr::Int { value, .. } => { if *value < 0 { 0 } else { 13 } }
        Expr::NewArray { .. } => 12,
        Expr::Cast { .. } | Expr::Unary { .. } => 11,
        Expr::InstanceOf { .. } => 7,
        Expr::Binary { mark, .. } => level_of(*mark),
        Expr::Char { .. }
        | Expr::Str { .. }
        | Expr::Bool { .. }
        | Expr::Null { .. }
        | Expr::This { .. }
        | Expr::Name { .. }
        | Expr::Field { .. }
        | Expr::Index { .. }
        | Expr::Call { .. }
        | Expr::SuperCall { .. }
        | Expr::New { .. } => 13,
    }
}

/// The prefix operator that an expression begins with.
fn sign_of(e: &Expr) -> Option<Mark>
    ensures value { result ≡ sign_of (expr_of e.now) }
{
    match e {
        Expr::Unary { mark, .. } => Some(*mark),
        _ => None,
    }
}

/// Whether an expression binds at least so tightly.
fn fits(level: u32, e: &Expr) -> bool
    ensures value { result ≡ fits level (expr_of e.now) }
{
    level <= rank(e)
}

/// Whether both are a plus or both a minus.
fn same_sign(mark: Mark, sign: Option<Mark>) -> bool
    ensures value { result ≡ same_sign mark sign }
{
    match sign {
        Some(Mark::Plus) => mark == Mark::Plus,
        Some(Mark::Minus) => mark == Mark::Minus,
        _ => false,
    }
}

/// Whether it is a plus or a minus.
fn is_plus_or_minus(sign: Option<Mark>) -> bool
    ensures value { result ≡ is_plus_or_minus sign }
{
    match sign {
        Some(Mark::Plus) => true,
        Some(Mark::Minus) => true,
        _ => false,
    }
}

/// Whether the type is that of a class or an interface.
fn is_named(base: &TypeBase) -> bool
    ensures value { result ≡ is_named base.now }
{
    match base {
        TypeBase::Named(_) => true,
        TypeBase::Int => false,
        TypeBase::Boolean => false,
        TypeBase::Char => false,
    }
}

/// Whether an expression stands without brackets behind a prefix operator.
fn fits_sign(mark: Mark, e: &Expr) -> bool
    ensures value { result ≡ fits_sign mark (expr_of e.now) }
{
    fits(11, e) & !same_sign(mark, sign_of(e))
}

/// Whether an expression stands without brackets behind a cast to this type.
fn fits_cast(base: &TypeBase, e: &Expr) -> bool
    ensures value { result ≡ fits_cast base.now (expr_of e.now) }
{
    fits(11, e) & !(is_named(base) & is_plus_or_minus(sign_of(e)))
}

/// Adds one space.
pub fn put_space(into: &mut Vec<u8>) -> Result<(), AllocError>
    ensures value { OnOk result (Puts into.old.items into.new.items space_then) }
{
    put_margin(into, 1)
}

/// Adds a keyword and one space.
pub fn put_key_space(into: &mut Vec<u8>, key: Keyword) -> Result<(), AllocError>
    ensures value { OnOk result (Puts into.old.items into.new.items (key_space_then key)) }
{
    put_key(into, key)?;
    put_space(into)
}

/// Adds a literal of `true` or `false`.
fn put_bool(into: &mut Vec<u8>, value: bool) -> Result<(), AllocError>
    ensures value { OnOk result (Puts into.old.items into.new.items (bool_items value)) }
{
    if value {
        put_key(into, Keyword::True)
    } else {
        put_key(into, Keyword::False)
    }
}

/// Adds a type without brackets.
pub fn put_base(into: &mut Vec<u8>, base: &TypeBase) -> Result<(), AllocError>
    ensures value { OnOk result (Puts into.old.items into.new.items (base_items base.now)) }
{
    match base {
        TypeBase::Int => put_key(into, Keyword::Int),
        TypeBase::Boolean => put_key(into, Keyword::Boolean),
        TypeBase::Char => put_key(into, Keyword::Char),
        TypeBase::Named(name) => put_name(into, name),
    }
}

/// Adds pairs of square brackets.
fn put_dims(into: &mut Vec<u8>, count: u32) -> Result<(), AllocError>
    ensures value { OnOk result (Puts into.old.items into.new.items (dims_items count)) }
{
    for _ in 0..count {
        put_mark(into, Mark::OpenSquare)?;
        put_mark(into, Mark::CloseSquare)?;
    }
    Ok(())
}

/// Adds the pairs of square brackets behind the size of a new array.
fn put_more_dims(into: &mut Vec<u8>, count: u32) -> Result<(), AllocError>
    ensures value { OnOk result (Puts into.old.items into.new.items (more_dims_items count)) }
{
    if count == 0 {
        Ok(())
    } else {
        put_dims(into, count - 1)
    }
}

/// Adds a type.
pub fn put_type(into: &mut Vec<u8>, ty: &TypeName) -> Result<(), AllocError>
    ensures value { OnOk result (Puts into.old.items into.new.items (type_items ty.now)) }
{
    put_base(into, &ty.base)?;
    put_dims(into, ty.dim)
}

/// Adds a comma and a space, where something stands before.
pub fn put_comma(into: &mut Vec<u8>, more: bool) -> Result<(), AllocError>
    ensures value { OnOk result (Puts into.old.items into.new.items (comma more)) }
{
    if more {
        put_mark(into, Mark::Comma)?;
        put_space(into)?;
    }
    Ok(())
}

/// Adds an expression.
#[cycle(printing)]
pub fn put_expr(into: &mut Vec<u8>, e: &Expr) -> Result<(), AllocError>
    ensures value { OnOk result (Puts into.old.items into.new.items (expr_items (expr_of e.now))) }
{
    match e {
        Expr::Int { value, .. } => put_int(into, *value),
        Expr::Char { value, .. } => put_char_literal(into, *value),
        Expr::Str { units, .. } => put_string_literal(into, units),
        Expr::Bool { value, .. } => put_bool(into, *value),
        Expr::Null { .. } => put_key(into, Keyword::Null),
        Expr::This { .. } => put_key(into, Keyword::This),
        Expr::Name { name, .. } => put_name(into, name),
        Expr::Field { base, name, .. } => put_field(into, base, name),
        Expr::Index { base, at, .. } => put_index(into, base, at),
        Expr::Call {
            base,
            name,
            args,
            ..
        } => match base {
            None => put_call(into, name, args.as_slice()),
            Some(base) => put_call_on(into, base, name, args.as_slice()),
        },
        Expr::SuperCall { name, args, .. } => put_super_call(into, name, args.as_slice()),
        Expr::New { class, args, .. } => put_new(into, &class.name, args.as_slice()),
        Expr::NewArray { ty, size, .. } => put_new_array(into, ty, size),
        Expr::Cast { ty, value, .. } => put_cast(into, ty, value),
        Expr::InstanceOf { value, class, .. } => put_instance_of(into, value, &class.name),
        Expr::Unary { mark, value, .. } => put_unary(into, *mark, value),
        Expr::Binary {
            mark,
            left,
            right,
            ..
        } => put_binary(into, *mark, left, right),
    }
}

/// Adds an operand, in round brackets where it does not stand bare.
#[cycle(printing)]
fn put_operand(into: &mut Vec<u8>, e: &Expr, bare: bool) -> Result<(), AllocError>
    ensures value { OnOk result (Puts into.old.items into.new.items (in_round bare (expr_items (expr_of e.now)))) }
{
    if bare {
        put_expr(into, e)
    } else {
        put_mark(into, Mark::OpenRound)?;
        put_expr(into, e)?;
        put_mark(into, Mark::CloseRound)
    }
}

/// Adds an expression in square brackets.
#[cycle(printing)]
fn put_square(into: &mut Vec<u8>, e: &Expr) -> Result<(), AllocError>
    ensures value { OnOk result (Puts into.old.items into.new.items (square_then (expr_items (expr_of e.now)))) }
{
    put_mark(into, Mark::OpenSquare)?;
    put_expr(into, e)?;
    put_mark(into, Mark::CloseSquare)
}

/// Adds arguments and the bracket that closes them.
#[cycle(printing)]
pub fn put_args(into: &mut Vec<u8>, args: &[Expr]) -> Result<(), AllocError>
    ensures value { OnOk result (Puts into.old.items into.new.items (args_items false (exprs args.now))) }
{
    for (i, arg) in args.iter().enumerate() {
        put_comma(into, i > 0)?;
        put_expr(into, arg)?;
    }
    put_mark(into, Mark::CloseRound)
}

/// Adds a field of an object.
#[cycle(printing)]
fn put_field(into: &mut Vec<u8>, base: &Expr, name: &Name) -> Result<(), AllocError>
    ensures value { OnOk result ((r : List Item) → Adds into.old.items into.new.items (field_items (expr_of base.now) name.now r) r) }
{
    put_operand(into, base, fits(12, base))?;
    put_mark(into, Mark::Dot)?;
    put_name(into, name)
}

/// Adds an element of an array.
#[cycle(printing)]
fn put_index(into: &mut Vec<u8>, base: &Expr, at: &Expr) -> Result<(), AllocError>
    ensures value { OnOk result ((r : List Item) → Adds into.old.items into.new.items (index_items (expr_of base.now) (expr_of at.now) r) r) }
{
    put_operand(into, base, fits(13, base))?;
    put_square(into, at)
}

/// Adds a call of a name.
#[cycle(printing)]
fn put_call(into: &mut Vec<u8>, name: &Name, args: &[Expr]) -> Result<(), AllocError>
    ensures value { OnOk result (Puts into.old.items into.new.items (called_items name.now (exprs args.now))) }
{
    put_name(into, name)?;
    put_mark(into, Mark::OpenRound)?;
    put_args(into, args)
}

/// Adds a dot and a call of a name.
#[cycle(printing)]
fn put_dot_call(into: &mut Vec<u8>, name: &Name, args: &[Expr]) -> Result<(), AllocError>
    ensures value { OnOk result (Puts into.old.items into.new.items (dot_call name.now (exprs args.now))) }
{
    put_mark(into, Mark::Dot)?;
    put_call(into, name, args)
}

/// Adds a call upon an object.
#[cycle(printing)]
fn put_call_on(
    into: &mut Vec<u8>,
    base: &Expr,
    name: &Name,
    args: &[Expr],
) -> Result<(), AllocError>
    ensures value { OnOk result ((r : List Item) → Adds into.old.items into.new.items (in_round (fits 12 (expr_of base.now)) (expr_items (expr_of base.now)) (mark_then Mark.Dot (called_items name.now (exprs args.now) r))) r) }
{
    put_operand(into, base, fits(12, base))?;
    put_dot_call(into, name, args)
}

/// Adds a call of the method above.
#[cycle(printing)]
fn put_super_call(into: &mut Vec<u8>, name: &Name, args: &[Expr]) -> Result<(), AllocError>
    ensures value { OnOk result ((r : List Item) → Adds into.old.items into.new.items (key_then Keyword.Super (mark_then Mark.Dot (called_items name.now (exprs args.now) r))) r) }
{
    put_key(into, Keyword::Super)?;
    put_dot_call(into, name, args)
}

/// Adds the creation of an object.
#[cycle(printing)]
fn put_new(into: &mut Vec<u8>, class: &Name, args: &[Expr]) -> Result<(), AllocError>
    ensures value { OnOk result ((r : List Item) → Adds into.old.items into.new.items (key_then Keyword.New (Space ∷ called_items class.now (exprs args.now) r)) r) }
{
    put_key_space(into, Keyword::New)?;
    put_call(into, class, args)
}

/// Adds the creation of an array.
#[cycle(printing)]
fn put_new_array(into: &mut Vec<u8>, ty: &TypeName, size: &Expr) -> Result<(), AllocError>
    ensures value { OnOk result ((r : List Item) → Adds into.old.items into.new.items (new_array_items ty.now (expr_of size.now) r) r) }
{
    put_key_space(into, Keyword::New)?;
    put_base(into, &ty.base)?;
    put_square(into, size)?;
    put_more_dims(into, ty.dim)
}

/// Adds a cast.
#[cycle(printing)]
fn put_cast(into: &mut Vec<u8>, ty: &TypeName, value: &Expr) -> Result<(), AllocError>
    ensures value { OnOk result ((r : List Item) → Adds into.old.items into.new.items (cast_items ty.now (expr_of value.now) r) r) }
{
    put_mark(into, Mark::OpenRound)?;
    put_base(into, &ty.base)?;
    put_mark(into, Mark::CloseRound)?;
    put_space(into)?;
    put_operand(into, value, fits_cast(&ty.base, value))
}

/// Adds a test of an object's class.
#[cycle(printing)]
fn put_instance_of(into: &mut Vec<u8>, value: &Expr, class: &Name) -> Result<(), AllocError>
    ensures value { OnOk result ((r : List Item) → Adds into.old.items into.new.items (test_items (expr_of value.now) class.now r) r) }
{
    put_operand(into, value, fits(7, value))?;
    put_space(into)?;
    put_key_space(into, Keyword::InstanceOf)?;
    put_name(into, class)
}

/// Adds a prefix operator and its operand.
#[cycle(printing)]
fn put_unary(into: &mut Vec<u8>, mark: Mark, value: &Expr) -> Result<(), AllocError>
    ensures value { OnOk result ((r : List Item) → Adds into.old.items into.new.items (mark_then mark (in_round (fits_sign mark (expr_of value.now)) (expr_items (expr_of value.now)) r)) r) }
{
    put_mark(into, mark)?;
    put_operand(into, value, fits_sign(mark, value))
}

/// Adds a binary operator between its operands.
#[cycle(printing)]
fn put_binary(into: &mut Vec<u8>, mark: Mark, left: &Expr, right: &Expr) -> Result<(), AllocError>
    ensures value { OnOk result ((r : List Item) → Adds into.old.items into.new.items (binary_items mark (expr_of left.now) (expr_of right.now) r) r) }
{
    put_operand(into, left, fits(level_of(mark), left))?;
    put_space(into)?;
    put_mark(into, mark)?;
    put_space(into)?;
    put_operand(into, right, fits(level_of(mark) + 1, right))
}
