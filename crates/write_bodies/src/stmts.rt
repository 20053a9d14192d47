//! Statements as they are written.

ghost use Rattle.std.specs.Prelude.{◌≡◌, IfOk, OnOk};
ghost use Rattle.java_tree.specs.Syntax.{stmt_of, stmts, value_of, arms_seen, else_seen};
ghost use Rattle.java_tree.specs.Syntax.{step_seen, expr_of};
ghost use Rattle.java_core.specs.Trees as core;
ghost use Rattle.java_core.specs.Trees.{no_other};
ghost use Rattle.write_model.specs.Bodies.{scope_after, scope_after_part};
ghost use Rattle.write_forms.specs.Renamed.{IsFitting};
ghost use Rattle.write_forms.specs.Sources.{IsSource};
ghost use Rattle.write_bodies.specs.Written as written;

use crate::exprs::expr;
use crate::within::Within;
use flow_rules::variable_at;
use java_core::{RArm, RExpr, RStmt};
use java_tree::unplaced::nowhere;
use java_tree::{Arm, Expr, Stmt, build};
use kaba_base::made;
use std::alloc::{AllocError, Global};
use std::mem::drop;
use write_forms::{row_type, variable_row};

/// The locals in scope once more.
fn copy_scope(alloc: Global, scope: &Vec<u32>) -> Result<Vec<u32>, AllocError>
    ensures { IfOk result (λ v. v.items ≡ scope.now.items) }
{
    Vec::from_slice(alloc, scope.as_slice())
}

/// An expression that may be left out.
fn value(
    within: &Within,
    scope: &Vec<u32>,
    tree: &Option<RExpr>,
) -> Result<Option<Expr>, AllocError>
    requires { IsSource within.now.source.now }
    ensures value { IfOk result (λ e. value_of e ≡ written.expression_if within.now scope.now.items (core.value_of tree.now)) }
{
    match tree {
        None => Ok(None),
        Some(tree) => {
            let value = expr(within, scope, tree)?;
            Ok(Some(value))
        }
    }
}

/// What is assigned to; a form to which nothing can be assigned is written `null`.
fn target(within: &Within, scope: &Vec<u32>, tree: &RExpr) -> Result<Expr, AllocError>
    requires { IsSource within.now.source.now }
    ensures value { IfOk result (λ e. expr_of e ≡ written.target within.now scope.now.items (core.target_of tree.now)) }
{
    match tree {
        RExpr::Local { .. } => expr(within, scope, tree),
        RExpr::Static { .. } => expr(within, scope, tree),
        RExpr::Own { .. } => expr(within, scope, tree),
        RExpr::Field { .. } => expr(within, scope, tree),
        RExpr::Index { .. } => expr(within, scope, tree),
        _ => Ok(Expr::Null { place: nowhere() }),
    }
}

/// The declaration of a local with this first value.
fn declaration(within: &Within, local: u32, value: Option<Expr>) -> Result<Stmt, AllocError>
    requires { IsFitting within.now.source.now.numbering.now within.now.source.now.hier.now }
    ensures value { IfOk result (λ s. stmt_of s ≡ written.declared within.now local (value_of value)) }
{
    let Some(variable) = variable_at(&within.code, local as u64) else {
        drop(value);
        return Ok(build::block(Vec::new(within.source.alloc), nowhere()));
    };
    let row = variable_row(within.number, &within.code, local as u64);
    let ty = made!(row_type(within.source, row, variable.ty); value);
    let name = made!(variable.name.copy(within.source.alloc); value, ty);
    Ok(Stmt::Local {
        is_final: false,
        ty,
        name,
        value,
        place: nowhere(),
    })
}

/// A statement of the method. A local that it declares comes into scope.
#[cycle(stmts)]
fn stmt(within: &Within, scope: &mut Vec<u32>, tree: &RStmt) -> Result<Stmt, AllocError>
    requires { IsSource within.now.source.now }
    ensures value { IfOk result (λ s. stmt_of s ≡ written.statement within.now scope.old.items (core.stmt_of tree.now)) }
    ensures scope { OnOk result (scope.new.items ≡ scope_after scope.old.items (core.stmt_of tree.now)) }
{
    match tree {
        RStmt::Local {
            local,
            value: first,
            ..
        } => {
            scope.push(*local)?;
            let first = value(within, scope, first)?;
            declaration(within, *local, first)
        }
        RStmt::Block { items, .. } => {
            let items = body(within, scope, items)?;
            Ok(build::block(items, nowhere()))
        }
        RStmt::Assign {
            target: to,
            value: given,
            ..
        } => {
            let target = target(within, scope, to)?;
            let value = made!(expr(within, scope, given); target);
            let place = nowhere();
            Ok(Stmt::Assign {
                target,
                value,
                place,
            })
        }
        RStmt::Do { call, .. } => Ok(Stmt::Do {
            call: expr(within, scope, call)?,
            place: nowhere(),
        }),
        RStmt::Print {
            newline,
            value: shown,
            ..
        } => Ok(Stmt::Print {
            newline: *newline,
            value: value(within, scope, shown)?,
            place: nowhere(),
        }),
        RStmt::If { arms, other, .. } => {
            let arms = all_arms(within, scope, arms)?;
            let other = made!(otherwise(within, scope, other); arms);
            Ok(build::choice(arms, other, nowhere()))
        }
        RStmt::While {
            test,
            body: run,
            ..
        } => {
            let test = expr(within, scope, test)?;
            let run = made!(body(within, scope, run); test);
            Ok(build::while_loop(test, run, nowhere()))
        }
        RStmt::For {
            first,
            test,
            step,
            body: run,
            ..
        } => {
            let mut inner = copy_scope(within.source.alloc, scope)?;
            let first = made!(part(within, &mut inner, first); inner);
            let test = made!(value(within, &inner, test); inner, first);
            let step = made!(last(within, &inner, step); inner, first, test);
            let run = made!(body(within, &inner, run); inner, first, test, step);
            build::for_loop(within.source.alloc, first, test, step, run, nowhere())
        }
        RStmt::Return { value: given, .. } => Ok(Stmt::Return {
            value: value(within, scope, given)?,
            place: nowhere(),
        }),
        RStmt::Break { .. } => Ok(Stmt::Break { place: nowhere() }),
        RStmt::Continue { .. } => Ok(Stmt::Continue { place: nowhere() }),
    }
}

/// The first part of a `for`: what it declares comes into scope.
#[cycle(stmts)]
fn part(
    within: &Within,
    scope: &mut Vec<u32>,
    tree: &Option<Box<RStmt>>,
) -> Result<Option<Stmt>, AllocError>
    requires { IsSource within.now.source.now }
    ensures value { IfOk result (λ s. step_seen s ≡ written.part within.now scope.old.items (core.step_seen tree.now)) }
    ensures scope { OnOk result (scope.new.items ≡ scope_after_part scope.old.items (core.step_seen tree.now)) }
{
    match tree {
        None => Ok(None),
        Some(tree) => {
            let part = stmt(within, scope, tree)?;
            Ok(Some(part))
        }
    }
}

/// The last part of a `for`.
#[cycle(stmts)]
fn last(
    within: &Within,
    scope: &Vec<u32>,
    tree: &Option<Box<RStmt>>,
) -> Result<Option<Stmt>, AllocError>
    requires { IsSource within.now.source.now }
    ensures value { IfOk result (λ s. step_seen s ≡ written.part within.now scope.now.items (core.step_seen tree.now)) }
{
    let mut inner = copy_scope(within.source.alloc, scope)?;
    part(within, &mut inner, tree)
}

/// An `else`, which may have no statements; none where there is none.
#[cycle(stmts)]
fn otherwise(
    within: &Within,
    scope: &Vec<u32>,
    tree: &Option<Vec<RStmt>>,
) -> Result<Option<Vec<Stmt>>, AllocError>
    requires { IsSource within.now.source.now }
    ensures value { IfOk result (λ o. else_seen o ≡ written.otherwise within.now scope.now.items (core.else_seen tree.now)) }
{
    match tree {
        Some(list) => {
            let other = body(within, scope, list)?;
            Ok(Some(other))
        }
        None => Ok(None),
    }
}

/// The arms of an `if`.
#[cycle(stmts)]
fn all_arms(within: &Within, scope: &Vec<u32>, list: &Vec<RArm>) -> Result<Vec<Arm>, AllocError>
    requires { IsSource within.now.source.now }
    ensures value { IfOk result (λ v. arms_seen v.items ≡ written.arms within.now scope.now.items (core.arms_seen list.now.items no_other)) }
{
    let mut done = Vec::new(within.source.alloc);
    for one in list {
        let test = made!(expr(within, scope, &one.test); done);
        let run = made!(body(within, scope, &one.body); done, test);
        made!(done.push(Arm { test, body: run }) => AllocError; done);
    }
    Ok(done)
}

/// Statements one after the other, as they are written for the hierarchy: in the method, with the parameters and locals of the numbers in `scope`, from 0, in
/// scope; what they declare leaves the scope at the end (after Streckenbach and Snelting, 2004).
/// Each place is zero. `AllocError` where memory is short; no other error.
#[cycle(stmts)]
pub fn body(within: &Within, scope: &Vec<u32>, list: &Vec<RStmt>) -> Result<Vec<Stmt>, AllocError>
    requires { IsSource within.now.source.now }
    ensures value { IfOk result (λ v. stmts v.items ≡ written.statements within.now scope.now.items (core.stmts list.now.items)) }
{
    let mut inner = copy_scope(within.source.alloc, scope)?;
    let mut done = Vec::new(within.source.alloc);
    for one in list {
        let written = made!(stmt(within, &mut inner, one); inner, done);
        made!(done.push(written) => AllocError; inner, done);
    }
    Ok(done)
}
