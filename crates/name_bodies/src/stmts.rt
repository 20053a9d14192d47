//! The names of statements.
#![tactic(auto)]

ghost use Rattle.std.specs.Prelude.{true, false, Option, List};
ghost use Rattle.std.specs.declared.vec.Vec.{Vec};
ghost use Rattle.std.specs.declared.boxed.Box.{Box};
ghost use Rattle.std.specs.declared.alloc.Global.{Global};
ghost use Rattle.java_tree.specs.Syntax.{expr_of, stmt_of, stmts, arms_seen, else_seen, boxed_step, AssignOf, BlockOf, WhileOf};
ghost use Rattle.java_core.specs.Trees as core;
ghost use Rattle.java_core.specs.Trees.{at_place, Ex, St, Sts, IfArms, no_st, no_other, choose, loop};
ghost use Rattle.java_core.specs.declared.RExpr.{RExpr};
ghost use Rattle.java_core.specs.declared.RStmt.{RStmt};
ghost use Rattle.java_core.specs.declared.RArm.{RArm};
ghost use Rattle.name_rules.specs.declared.parts.Bound.{Bound};
ghost use Rattle.name_laws.specs.Answers.{GivesValue};
ghost use Rattle.name_laws.specs.Statements.{LocalsState, kept, ending, walk_arm, walk_st, walk_sts, walk_arms, walk_else, walk_optional};
ghost use Rattle.name_bodies.specs.Views.{table_at, state_of};

use crate::declarations::{Enclosing, in_loop};
use crate::locals::{Body, declaration, part, value};
use crate::{Named, make};
use java_core::{RArm, RExpr, RStmt};
use java_tree::{Arm, Expr, Stmt};
use kaba_base::{Place, made};
use name_rules::{Form, Refusal};
use name_tables::Scope;

/// A statement.
#[cycle(stmts)]
fn stmt(within: &Enclosing, scope: &mut Scope, body: &mut Body, tree: &Stmt) -> Named<RStmt>
    ensures given { GivesValue {A = RStmt} {B = St × List Bound × LocalsState}
        (λ s. (core.stmt_of s, scope.new, state_of body.new)) result
        (walk_st (table_at within.now) within.now.here within.now.inside scope.old (state_of body.old) (stmt_of tree.now)) }
{
    match tree {
        Stmt::Local {
            ty,
            name,
            value,
            place,
            ..
        } => declaration(within, scope, body, ty, name, value, *place),
        Stmt::Block { items, place } => { block(within, scope, body, items, *place) }
        Stmt::Assign {
            target,
            value,
            place,
        } => assign(within, scope, body, target, value, *place),
        Stmt::Do { call, place } => {
            let call = part(within, scope, body, call)?;
            Ok(RStmt::Do {
                call,
                place: *place,
            })
        }
        Stmt::Print {
            newline,
            value: shown,
            place,
        } => {
            let value = value(within, scope, body, shown)?;
            Ok(RStmt::Print {
                newline: *newline,
                value,
                place: *place,
            })
        }
        Stmt::If {
            arms: list,
            other,
            place,
        } => {
            match arms(within, scope, body, list) {
                Ok(done) => { choice(within, scope, body, done, other, *place) }
                Err(refusal) => Err(refusal),
            }
        }
        Stmt::While {
            test,
            body: run,
            place,
        } => while_loop(within, scope, body, test, run, *place),
        Stmt::For {
            first,
            test,
            step,
            body: run,
            place,
        } => {
            let mut inner = Scope::within(within.alloc, &*scope);
            let first = optional(within, &mut inner, body, first)?;
            let test = value(within, &inner, body, test)?;
            match optional(within, &mut inner, body, step) {
                Ok(last) => { for_body(within, &inner, body, first, test, last, run, *place) }
                Err(refusal) => {
                    drop(first);
                    drop(test);
                    drop(inner);
                    Err(refusal)
                }
            }
        }
        Stmt::Return {
            value: given,
            place,
        } => {
            let value = value(within, scope, body, given)?;
            Ok(RStmt::Return {
                value,
                place: *place,
            })
        }
        Stmt::Break { place } => {
            if !within.inside {
                return Err(Refusal::NotInProfile(Form::BreakOutside, *place));
            }
            Ok(RStmt::Break { place: *place })
        }
        Stmt::Continue { place } => {
            if !within.inside {
                return Err(Refusal::NotInProfile(Form::BreakOutside, *place));
            }
            Ok(RStmt::Continue { place: *place })
        }
    }
}

/// An assignment.
#[tactic(auto, using(crate::proofs::StatementRows::target_shown))]
fn assign(
    within: &Enclosing,
    scope: &Scope,
    body: &mut Body,
    target: &Expr,
    value: &Expr,
    place: Place,
) -> Named<RStmt>
    ensures given { GivesValue {A = RStmt} {B = St × List Bound × LocalsState}
        (λ s. (core.stmt_of s, scope.now, state_of body.new)) result
        (walk_st (table_at within.now) within.now.here true scope.now (state_of body.old)
        (AssignOf (expr_of target.now) (expr_of value.now) place)) }
{
    let target = part(within, scope, body, target)?;
    let value = made!(part(within, scope, body, value); target);
    Ok(RStmt::Assign {
        target,
        value,
        place,
    })
}

/// `{ items }`
#[cycle(stmts)]
fn block(
    within: &Enclosing,
    scope: &Scope,
    body: &mut Body,
    items: &Vec<Stmt>,
    place: Place,
) -> Named<RStmt>
    ensures given { GivesValue {A = RStmt} {B = St × List Bound × LocalsState}
        (λ s. (core.stmt_of s, scope.now, state_of body.new)) result
        (walk_st (table_at within.now) within.now.here within.now.inside scope.now (state_of body.old)
        (BlockOf (stmts items.now.items) place)) }
{
    let items = statements(within, scope, body, items)?;
    Ok(make::block(items, place))
}

/// An `if` with these arms.
#[cycle(stmts)]
#[tactic(auto, using(crate::proofs::StatementRows::arms_ending))]
fn choice(
    within: &Enclosing,
    scope: &Scope,
    body: &mut Body,
    arms: Vec<RArm>,
    other: &Option<Vec<Stmt>>,
    place: Place,
) -> Named<RStmt>
    ensures given { GivesValue {A = RStmt} {B = St × List Bound × LocalsState}
        (λ s. (core.stmt_of s, scope.now, state_of body.new)) result
        (kept (walk_else (table_at within.now) within.now.here within.now.inside scope.now (state_of body.old)
        (else_seen other.now)) scope.now
        (λ o. choose (at_place place) (ending (core.arms_seen arms.items no_other) o))) }
{
    let other = made!(otherwise(within, scope, body, other); arms);
    Ok(make::choose(arms, other, place))
}

/// A `while`.
#[cycle(stmts)]
fn while_loop(
    within: &Enclosing,
    scope: &Scope,
    body: &mut Body,
    test: &Expr,
    run: &Vec<Stmt>,
    place: Place,
) -> Named<RStmt>
    ensures given { GivesValue {A = RStmt} {B = St × List Bound × LocalsState}
        (λ s. (core.stmt_of s, scope.now, state_of body.new)) result
        (walk_st (table_at within.now) within.now.here true scope.now (state_of body.old)
        (WhileOf (expr_of test.now) (stmts run.now.items) place)) }
{
    let test = part(within, scope, body, test)?;
    let run = made!(statements(&in_loop(within), scope, body, run); test);
    Ok(make::while_loop(test, run, place))
}

/// A `for` with this head; the scope of its first part ends with it.
#[cycle(stmts)]
fn for_body(
    within: &Enclosing,
    inner: &Scope,
    body: &mut Body,
    first: Option<Box<RStmt>>,
    test: Option<RExpr>,
    step: Option<Box<RStmt>>,
    run: &Vec<Stmt>,
    place: Place,
) -> Named<RStmt>
    ensures given { (outer : List Bound) → GivesValue {A = RStmt} {B = St × List Bound × LocalsState}
        (λ s. (core.stmt_of s, outer, state_of body.new)) result
        (kept (walk_sts (table_at within.now) within.now.here true no_st inner.now (state_of body.old)
        (stmts run.now.items)) outer (loop (at_place place) false (core.step_seen first)
        (core.value_of test) (core.step_seen step))) }
{
    let run = made!(statements(&in_loop(within), inner, body, run); first, test, step);
    Ok(make::for_loop(first, test, step, run, place))
}

/// The first or the last part of a `for`.
#[cycle(stmts)]
fn optional(
    within: &Enclosing,
    scope: &mut Scope,
    body: &mut Body,
    tree: &Option<Box<Stmt>>,
) -> Named<Option<Box<RStmt>>>
    ensures given { GivesValue {A = Option (Box RStmt Global)} {B = Sts × List Bound × LocalsState}
        (λ s. (core.step_seen s, scope.new, state_of body.new)) result
        (walk_optional (table_at within.now) within.now.here within.now.inside scope.old (state_of body.old)
        (boxed_step tree.now)) }
{
    match tree {
        None => Ok(None),
        Some(tree) => {
            let stmt = stmt(within, scope, body, tree)?;
            Ok(Some(Box::new(within.alloc, stmt)?))
        }
    }
}

/// An `else`.
#[cycle(stmts)]
fn otherwise(
    within: &Enclosing,
    scope: &Scope,
    body: &mut Body,
    tree: &Option<Vec<Stmt>>,
) -> Named<Option<Vec<RStmt>>>
    ensures given { GivesValue {A = Option (Vec RStmt Global)} {B = IfArms × LocalsState}
        (λ o. (core.else_seen o, state_of body.new)) result
        (walk_else (table_at within.now) within.now.here within.now.inside scope.now (state_of body.old)
        (else_seen tree.now)) }
{
    match tree {
        None => Ok(None),
        Some(list) => Ok(Some(statements(within, scope, body, list)?)),
    }
}

/// An arm of an `if`.
#[cycle(stmts)]
fn arm(within: &Enclosing, scope: &Scope, body: &mut Body, tree: &Arm) -> Named<RArm>
    ensures given { GivesValue {A = RArm} {B = Ex × Sts × LocalsState}
        (λ a. (core.expr_of a.test, core.stmts a.body.items, state_of body.new)) result
        (walk_arm (table_at within.now) within.now.here within.now.inside scope.now (state_of body.old)
        (expr_of tree.now.test) (stmts tree.now.body.items)) }
{
    let test = part(within, scope, body, &tree.test)?;
    let run = made!(statements(within, scope, body, &tree.body); test);
    Ok(RArm { test, body: run })
}

/// The arms of an `if`.
#[cycle(stmts)]
fn arms(within: &Enclosing, scope: &Scope, body: &mut Body, list: &Vec<Arm>) -> Named<Vec<RArm>>
    ensures given { GivesValue {A = Vec RArm Global} {B = IfArms × LocalsState}
        (λ v. (core.arms_seen v.items no_other, state_of body.new)) result
        (walk_arms (table_at within.now) within.now.here within.now.inside no_other scope.now (state_of body.old)
        (arms_seen list.now.items)) }
{
    let mut done = Vec::new(within.alloc);
    for one in list {
        match arm(within, scope, body, one) {
            Ok(arm) => done.push(arm)?,
            Err(refusal) => return Err(refusal),
        }
    }
    Ok(done)
}

/// Statements one after the other: their locals leave the scope at the end.
#[cycle(stmts)]
pub fn statements(
    within: &Enclosing,
    scope: &Scope,
    body: &mut Body,
    list: &Vec<Stmt>,
) -> Named<Vec<RStmt>>
    ensures given { GivesValue {A = Vec RStmt Global} {B = Sts × LocalsState}
        (λ v. (core.stmts v.items, state_of body.new)) result
        (walk_sts (table_at within.now) within.now.here within.now.inside no_st scope.now (state_of body.old)
        (stmts list.now.items)) }
{
    behind(within, scope, body, Vec::new(within.alloc), list)
}

/// The same, behind others.
#[cycle(stmts)]
pub fn behind(
    within: &Enclosing,
    scope: &Scope,
    body: &mut Body,
    before: Vec<RStmt>,
    list: &Vec<Stmt>,
) -> Named<Vec<RStmt>>
    ensures given { GivesValue {A = Vec RStmt Global} {B = Sts × LocalsState}
        (λ v. (core.stmts v.items, state_of body.new)) result
        (walk_sts (table_at within.now) within.now.here within.now.inside (core.stmts before.items) scope.now (state_of body.old)
        (stmts list.now.items)) }
{
    let mut inner = Scope::within(within.alloc, &*scope);
    let mut done = before;
    for one in list {
        done.push(stmt(within, &mut inner, body, one)?)?;
    }
    Ok(done)
}
