//! Trees from their parts. Each function gives the tree that its variant names; those that take
//! an allocator answer `AllocError` where memory is short.
#![tactic(auto)]

ghost use Rattle.std.specs.Prelude.{◌≡◌, IfOk};
ghost use Rattle.java_tree.specs.Syntax.{expr_of, exprs, stmt_of, stmts, value_of, arms_seen, else_seen, step_seen, FieldOf, IndexOf, CallOf, CallOn, SuperCallOf, NewOf, NewArrayOf, CastOf, InstanceOfClass, UnaryOf, BinaryOf, LocalOf, BlockOf, IfOf, WhileOf, ForOf};

use crate::{Arm, Expr, Id, Stmt, TypeName};
use java_lex::Mark;
use kaba_base::{Name, Place, made};
use std::alloc::{AllocError, Global};
use std::mem::drop;

/// `base.name`
pub fn field(alloc: Global, base: Expr, name: Name, place: Place) -> Result<Expr, AllocError>
    ensures value { IfOk result (λ e. expr_of e ≡ FieldOf (expr_of base) name place) }
{
    let base = Box::new(alloc, base)?;
    Ok(Expr::Field { base, name, place })
}

/// `base[at]`
pub fn index(alloc: Global, base: Expr, at: Expr, place: Place) -> Result<Expr, AllocError>
    ensures value { IfOk result (λ e. expr_of e ≡ IndexOf (expr_of base) (expr_of at) place) }
{
    let base = made!(Box::new(alloc, base) => AllocError; at);
    let at = made!(Box::new(alloc, at) => AllocError; base);
    Ok(Expr::Index { base, at, place })
}

/// `name(args)`
#[tactic(auto, using(crate::proofs::Rows::exprs_vec))]
pub fn call(name: Name, args: Vec<Expr>, place: Place) -> Expr
    ensures value { expr_of result ≡ CallOf name (exprs args.items) place }
{
    Expr::Call {
        base: None,
        name,
        args,
        place,
    }
}

/// `base.name(args)`
#[tactic(auto, using(crate::proofs::Rows::exprs_vec))]
pub fn call_on(
    alloc: Global,
    base: Expr,
    name: Name,
    args: Vec<Expr>,
    place: Place,
) -> Result<Expr, AllocError>
    ensures value { IfOk result (λ e. expr_of e ≡ CallOn (expr_of base) name (exprs args.items) place) }
{
    let base = Some(Box::new(alloc, base)?);
    Ok(Expr::Call {
        base,
        name,
        args,
        place,
    })
}

/// `super.name(args)`
#[tactic(auto, using(crate::proofs::Rows::exprs_vec))]
pub fn super_call(name: Name, args: Vec<Expr>, place: Place) -> Expr
    ensures value { expr_of result ≡ SuperCallOf name (exprs args.items) place }
{
    Expr::SuperCall { name, args, place }
}

/// `new class(args)`
#[tactic(auto, using(crate::proofs::Rows::exprs_vec))]
pub fn new_object(class: Id, args: Vec<Expr>, place: Place) -> Expr
    ensures value { expr_of result ≡ NewOf class (exprs args.items) place }
{
    Expr::New { class, args, place }
}

/// `new ty`, with the size of its first dimension
pub fn new_array(alloc: Global, ty: TypeName, size: Expr, place: Place) -> Result<Expr, AllocError>
    ensures value { IfOk result (λ e. expr_of e ≡ NewArrayOf ty (expr_of size) place) }
{
    let size = Box::new(alloc, size)?;
    Ok(Expr::NewArray { ty, size, place })
}

/// `(ty) value`
pub fn cast(alloc: Global, ty: TypeName, value: Expr, place: Place) -> Result<Expr, AllocError>
    ensures value { IfOk result (λ e. expr_of e ≡ CastOf ty (expr_of value) place) }
{
    let value = Box::new(alloc, value)?;
    Ok(Expr::Cast { ty, value, place })
}

/// `value instanceof class`
pub fn instance_of(alloc: Global, value: Expr, class: Id, place: Place) -> Result<Expr, AllocError>
    ensures value { IfOk result (λ e. expr_of e ≡ InstanceOfClass (expr_of value) class place) }
{
    let value = Box::new(alloc, value)?;
    Ok(Expr::InstanceOf {
        value,
        class,
        place,
    })
}

/// A prefix operator before `value`
pub fn unary(alloc: Global, mark: Mark, value: Expr, place: Place) -> Result<Expr, AllocError>
    ensures value { IfOk result (λ e. expr_of e ≡ UnaryOf mark (expr_of value) place) }
{
    let value = Box::new(alloc, value)?;
    Ok(Expr::Unary { mark, value, place })
}

/// A binary operator between `left` and `right`
pub fn binary(
    alloc: Global,
    mark: Mark,
    left: Expr,
    right: Expr,
    place: Place,
) -> Result<Expr, AllocError>
    ensures value { IfOk result (λ e. expr_of e ≡ BinaryOf mark (expr_of left) (expr_of right) place) }
{
    let left = made!(Box::new(alloc, left) => AllocError; right);
    let right = made!(Box::new(alloc, right) => AllocError; left);
    Ok(Expr::Binary {
        mark,
        left,
        right,
        place,
    })
}

/// The declaration of a local
pub fn local(is_final: bool, ty: TypeName, name: Name, value: Option<Expr>, place: Place) -> Stmt
    ensures value { stmt_of result ≡ LocalOf is_final ty name (value_of value) place }
{
    Stmt::Local {
        is_final,
        ty,
        name,
        value,
        place,
    }
}

/// `{ items }`
#[tactic(auto, using(crate::proofs::Rows::stmts_vec))]
pub fn block(items: Vec<Stmt>, place: Place) -> Stmt
    ensures value { stmt_of result ≡ BlockOf (stmts items.items) place }
{
    Stmt::Block { items, place }
}

/// An `if` with its arms
#[tactic(auto, using(crate::proofs::Rows::arms_vec, crate::proofs::Rows::stmts_vec))]
pub fn choice(arms: Vec<Arm>, other: Option<Vec<Stmt>>, place: Place) -> Stmt
    ensures value { stmt_of result ≡ IfOf (arms_seen arms.items) (else_seen other) place }
{
    Stmt::If { arms, other, place }
}

/// `while (test) body`
#[tactic(auto, using(crate::proofs::Rows::stmts_vec))]
pub fn while_loop(test: Expr, body: Vec<Stmt>, place: Place) -> Stmt
    ensures value { stmt_of result ≡ WhileOf (expr_of test) (stmts body.items) place }
{
    Stmt::While { test, body, place }
}

/// `for (first; test; step) body`
#[tactic(auto, using(crate::proofs::Rows::stmts_vec))]
pub fn for_loop(
    alloc: Global,
    first: Option<Stmt>,
    test: Option<Expr>,
    step: Option<Stmt>,
    body: Vec<Stmt>,
    place: Place,
) -> Result<Stmt, AllocError>
    ensures value { IfOk result (λ s. stmt_of s ≡ ForOf (step_seen first) (value_of test) (step_seen step) (stmts body.items) place) }
{
    let first = match first {
        None => None,
        Some(stmt) => Some(made!(Box::new(alloc, stmt) => AllocError; test, step, body)),
    };
    let step = match step {
        None => None,
        Some(stmt) => Some(made!(Box::new(alloc, stmt) => AllocError; first, test, body)),
    };
    Ok(Stmt::For {
        first,
        test,
        step,
        body,
        place,
    })
}
