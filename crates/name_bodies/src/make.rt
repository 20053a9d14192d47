//! Resolved trees from their parts.
#![tactic(auto, using(java_core::proofs::Rows::exprs_vec, java_core::proofs::Rows::stmts_vec, java_core::proofs::Rows::arms_vec))]

ghost use Rattle.std.specs.Prelude.{◌≡◌, ℕ, List, Some, true, false};
ghost use Rattle.java_core.specs.Makers.{maker_name, call_above};
ghost use Rattle.java_core.specs.Trees.{at_place, expr_of, exprs, stmt_of, stmts, arms_seen, else_seen, step_seen, value_of, no_st, block, choose, loop, create};
ghost use Rattle.name_laws.specs.Expressions.{called_on};
ghost use Rattle.name_bodies.specs.Views.{receiver_of};

use crate::meanings::Callee;
use java_core::{RArm, RExpr, RStmt};
use kaba_base::{ClassId, MemberId, Name, Place};

/// A call on this.
pub fn call(on: Callee, name: Name, args: Vec<RExpr>, place: Place) -> RExpr
    ensures { expr_of result ≡ called_on (receiver_of on) name (exprs args.items) place }
{
    match on {
        Callee::Object(base) => RExpr::Call {
            base: Some(base),
            name,
            args,
            place,
        },
        Callee::This => RExpr::Call {
            base: None,
            name,
            args,
            place,
        },
        Callee::Super => RExpr::SuperCall { name, args, place },
        Callee::Static(method) => RExpr::StaticCall {
            method: MemberId(method),
            args,
            place,
        },
    }
}

/// `new class(args)`
pub fn create(number: u32, class: u32, args: Vec<RExpr>, place: Place) -> RExpr
    ensures { expr_of result ≡ create (at_place place) number class (exprs args.items) }
{
    RExpr::New {
        number,
        class: ClassId(class),
        args,
        place,
    }
}

/// The call of the constructor of this name on the object that is being made: what `super(args);` is.
pub fn call_above(name: Name, args: Vec<RExpr>, place: Place) -> RStmt
    ensures { (x : List ℕ) → name ≡ maker_name x → stmt_of result ≡ call_above (at_place place) x (exprs args.items) }
{
    RStmt::Do {
        call: RExpr::Call {
            base: None,
            name,
            args,
            place,
        },
        place,
    }
}

/// `{ items }`
pub fn block(items: Vec<RStmt>, place: Place) -> RStmt
    ensures { stmt_of result ≡ block (at_place place) (stmts items.items) }
{
    RStmt::Block { items, place }
}

/// An `if`.
pub fn choose(arms: Vec<RArm>, other: Option<Vec<RStmt>>, place: Place) -> RStmt
    ensures { stmt_of result ≡ choose (at_place place) (arms_seen arms.items (else_seen other)) }
{
    RStmt::If { arms, other, place }
}

/// A `while`.
pub fn while_loop(test: RExpr, body: Vec<RStmt>, place: Place) -> RStmt
    ensures { stmt_of result ≡ loop (at_place place) true no_st (Some (expr_of test)) no_st (stmts body.items) }
{
    RStmt::While { test, body, place }
}

/// A `for`.
pub fn for_loop(
    first: Option<Box<RStmt>>,
    test: Option<RExpr>,
    step: Option<Box<RStmt>>,
    body: Vec<RStmt>,
    place: Place,
) -> RStmt
    ensures { stmt_of result ≡ loop (at_place place) false (step_seen first)
        (value_of test) (step_seen step) (stmts body.items) }
{
    RStmt::For {
        first,
        test,
        step,
        body,
        place,
    }
}
