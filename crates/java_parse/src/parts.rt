//! Parts of expressions and statements that are made of tokens and of trees that are read.
#![tactic(auto)]

ghost use Rattle.std.specs.Prelude.{◌≡◌, IfOk, if◌then◌else◌};
ghost use Rattle.java_tree.specs.Syntax.{NameRef, FieldOf, CallOf, CallOn, SuperCallOf, NewOf, NewArrayOf, CastOf, InstanceOfClass, WhileOf, ForOf, expr_of, exprs, stmt_of, stmts, value_of, step_seen};
ghost use Rattle.java_tree.specs.Statements.{as_body};
ghost use Rattle.java_parse.specs.Seen.{base_seen, literal_seen};

use java_lex::Units;
use java_tree::build::{
    call, call_on, cast, field, for_loop, instance_of, new_array, new_object, super_call,
    while_loop,
};
use java_tree::{Arm, Expr, Id, Stmt, TypeBase, TypeName};
use kaba_base::{Name, Place, made};
use std::alloc::{AllocError, Global};
use std::mem::drop;

/// A type without brackets, as a token has it.
#[derive(Clone, Copy)]
pub enum Base<'a> {
    Int,
    Boolean,
    Char,
    Named(&'a Name),
}

/// A literal or `this`, as a token has it.
#[derive(Clone, Copy)]
pub enum Literal<'a> {
    Int(i32),
    Char(u16),
    Str(&'a Units),
    Bool(bool),
    Null,
    This,
}

/// What stands in the round brackets of a `for`.
#[derive(Drop)]
pub struct ForHead {
    pub first: Option<Stmt>,
    pub test: Option<Expr>,
    pub step: Option<Stmt>,
}

/// The type without brackets. `AllocError` where memory is short.
pub fn base_of(alloc: Global, base: Base<'_>) -> Result<TypeBase, AllocError>
    ensures value { IfOk result (λ b. b ≡ base_seen base.entry) }
{
    match base {
        Base::Int => Ok(TypeBase::Int),
        Base::Boolean => Ok(TypeBase::Boolean),
        Base::Char => Ok(TypeBase::Char),
        Base::Named(found) => {
            let name = found.copy(alloc)?;
            Ok(TypeBase::Named(name))
        }
    }
}

/// The literal or `this`. `AllocError` where memory is short.
pub fn literal_of(alloc: Global, literal: Literal<'_>, place: Place) -> Result<Expr, AllocError>
    ensures value { IfOk result (λ e. expr_of e ≡ literal_seen literal.entry place) }
{
    match literal {
        Literal::Int(value) => Ok(Expr::Int { value, place }),
        Literal::Char(value) => Ok(Expr::Char { value, place }),
        Literal::Str(found) => {
            let units = found.copy(alloc)?;
            Ok(Expr::Str { units, place })
        }
        Literal::Bool(value) => Ok(Expr::Bool { value, place }),
        Literal::Null => Ok(Expr::Null { place }),
        Literal::This => Ok(Expr::This { place }),
    }
}

/// The name as an expression. `AllocError` where memory is short.
pub fn name_of(alloc: Global, found: &Name, place: Place) -> Result<Expr, AllocError>
    ensures value { IfOk result (λ e. expr_of e ≡ NameRef found.now place) }
{
    let name = found.copy(alloc)?;
    Ok(Expr::Name { name, place })
}

/// A field. `AllocError` where memory is short.
pub fn field_of(alloc: Global, base: Expr, found: &Name, place: Place) -> Result<Expr, AllocError>
    ensures value { IfOk result (λ e. expr_of e ≡ FieldOf (expr_of base) found.now place) }
{
    let name = made!(found.copy(alloc); base);
    field(alloc, base, name, place)
}

/// A call without a base, of the method above where it follows `super`. `AllocError` where memory is short.
pub fn call_of(
    alloc: Global,
    above: bool,
    found: &Name,
    args: Vec<Expr>,
    place: Place,
) -> Result<Expr, AllocError>
    ensures value { IfOk result (λ e. expr_of e ≡ (if above then SuperCallOf else CallOf) found.now (exprs args.items) place) }
{
    let name = made!(found.copy(alloc); args);
    if above {
        Ok(super_call(name, args, place))
    } else {
        Ok(call(name, args, place))
    }
}

/// A call with a base. `AllocError` where memory is short.
pub fn call_on_of(
    alloc: Global,
    base: Expr,
    found: &Name,
    args: Vec<Expr>,
    place: Place,
) -> Result<Expr, AllocError>
    ensures value { IfOk result (λ e. expr_of e ≡ CallOn (expr_of base) found.now (exprs args.items) place) }
{
    let name = made!(found.copy(alloc); base, args);
    call_on(alloc, base, name, args, place)
}

/// A new object of the class of this name, which stands `at` there. `AllocError` where memory is short.
pub fn new_object_of(
    alloc: Global,
    found: &Name,
    at: Place,
    args: Vec<Expr>,
    place: Place,
) -> Result<Expr, AllocError>
    ensures value { IfOk result (λ e. expr_of e ≡ NewOf (record { name = found.now; place = at }) (exprs args.items) place) }
{
    let name = made!(found.copy(alloc); args);
    Ok(new_object(Id { name, place: at }, args, place))
}

/// A new array, whose type stands `at` there. `AllocError` where memory is short.
pub fn new_array_of(
    alloc: Global,
    base: Base<'_>,
    at: Place,
    dim: u32,
    size: Expr,
    place: Place,
) -> Result<Expr, AllocError>
    ensures value { IfOk result (λ e. expr_of e ≡ NewArrayOf (record { base = base_seen base.entry; dim = dim; place = at }) (expr_of size) place) }
{
    let base = made!(base_of(alloc, base); size);
    let ty = TypeName {
        base,
        dim,
        place: at,
    };
    new_array(alloc, ty, size, place)
}

/// A cast to the type that stands `at` there. `AllocError` where memory is short.
pub fn cast_of(
    alloc: Global,
    base: Base<'_>,
    at: Place,
    value: Expr,
    place: Place,
) -> Result<Expr, AllocError>
    ensures value { IfOk result (λ e. expr_of e ≡ CastOf (record { base = base_seen base.entry; dim = 0; place = at }) (expr_of value) place) }
{
    let base = made!(base_of(alloc, base); value);
    let ty = TypeName {
        base,
        dim: 0,
        place: at,
    };
    cast(alloc, ty, value, place)
}

/// A test for the class of this name, which stands `at` there. `AllocError` where memory is short.
pub fn instance_of_named(
    alloc: Global,
    value: Expr,
    found: &Name,
    at: Place,
    place: Place,
) -> Result<Expr, AllocError>
    ensures value { IfOk result (λ e. expr_of e ≡ InstanceOfClass (expr_of value) (record { name = found.now; place = at }) place) }
{
    let name = made!(found.copy(alloc); value);
    instance_of(alloc, value, Id { name, place: at }, place)
}

/// The list of a block; another statement is a list of one. `AllocError` where memory is short.
pub fn body_of(alloc: Global, stmt: Stmt) -> Result<Vec<Stmt>, AllocError>
    ensures value { IfOk result (λ v. stmts v.items ≡ as_body (stmt_of stmt)) }
{
    match stmt {
        Stmt::Block { items, .. } => Ok(items),
        other => {
            let mut all = Vec::new(alloc);
            all.push(other)?;
            Ok(all)
        }
    }
}

/// A `while` with this statement. `AllocError` where memory is short.
pub fn while_of(alloc: Global, test: Expr, stmt: Stmt, place: Place) -> Result<Stmt, AllocError>
    ensures value { IfOk result (λ s. stmt_of s ≡ WhileOf (expr_of test) (as_body (stmt_of stmt)) place) }
{
    let body = made!(body_of(alloc, stmt); test);
    Ok(while_loop(test, body, place))
}

/// A `for` with this statement. `AllocError` where memory is short.
pub fn for_of(alloc: Global, head: ForHead, stmt: Stmt, place: Place) -> Result<Stmt, AllocError>
    ensures value { IfOk result (λ s. stmt_of s ≡ ForOf (step_seen head.first) (value_of head.test) (step_seen head.step) (as_body (stmt_of stmt)) place) }
{
    let body = made!(body_of(alloc, stmt); head);
    for_loop(alloc, head.first, head.test, head.step, body, place)
}

/// An arm of an `if` with this statement. `AllocError` where memory is short.
pub fn arm_of(alloc: Global, test: Expr, stmt: Stmt) -> Result<Arm, AllocError>
    ensures test { IfOk result (λ a. expr_of a.test ≡ expr_of test) }
    ensures body { IfOk result (λ a. stmts a.body.items ≡ as_body (stmt_of stmt)) }
{
    let body = made!(body_of(alloc, stmt); test);
    Ok(Arm { test, body })
}
