//! The first rule that fails in a statement.

ghost use Rattle.std.specs.Prelude.{◌≡◌, ◌&&◌, Some, option_and_then};
ghost use Rattle.std.specs.Option.{is_some};
ghost use Rattle.java_core.specs.Trees.{at_place, expr_of, value_of, target_of, stmt_of, stmts, arms_seen, else_seen, step_seen};
ghost use Rattle.java_core.specs.Programs.{program_of};
ghost use Rattle.java_core.specs.Formed.{IsFormed};
ghost use Rattle.java_core.specs.Types as types;
ghost use Rattle.java_core.specs.Statics.{static_seen as seen, given_of};
ghost use Rattle.java_check.specs.Fails.{tag_of};
ghost use Rattle.java_check.specs.Outcome.{env_in, answer, and_then, asked};
ghost use Rattle.java_check.specs.StatementOutcome.{field_answer, target_answer, condition_answer, test_answer, assign_answer, return_answer, st_answer, sts_answer, arms_answer};

use crate::by_number::code_by_number;
use crate::expressions::{ask, local_type, type_of};
use crate::types::{fits, fits_in, is_boolean, is_printable};
use crate::{Answered, CheckFault, Kind};
use java_core::{Program, RArm, RExpr, RStmt, Static, Ty, field_in, field_type, given_of};
use kaba_base::{MemberId, Name, Place};

/// The place of an expression.
fn place_of(e: &RExpr) -> Place
    ensures { result ≡ (tag_of (expr_of e.now)).place }
{
    match e {
        RExpr::Int { place, .. } => *place,
        RExpr::Char { place, .. } => *place,
        RExpr::Str { place, .. } => *place,
        RExpr::Bool { place, .. } => *place,
        RExpr::Null { place } => *place,
        RExpr::This { place } => *place,
        RExpr::Local { place, .. } => *place,
        RExpr::Static { place, .. } => *place,
        RExpr::Own { place, .. } => *place,
        RExpr::Field { place, .. } => *place,
        RExpr::Index { place, .. } => *place,
        RExpr::Call { place, .. } => *place,
        RExpr::StaticCall { place, .. } => *place,
        RExpr::SuperCall { place, .. } => *place,
        RExpr::New { place, .. } => *place,
        RExpr::NewArray { place, .. } => *place,
        RExpr::Cast { place, .. } => *place,
        RExpr::InstanceOf { place, .. } => *place,
        RExpr::Unary { place, .. } => *place,
        RExpr::Binary { place, .. } => *place,
    }
}

/// The type of the variable that an assignment changes.
fn target_type(p: &Program, body: MemberId, target: &RExpr, place: Place) -> Answered<Static>
    requires { IsFormed (program_of p.now) }
    ensures { result ≡ target_answer (program_of p.now) (env_in (program_of p.now) body.0) (at_place place) (target_of target.now) }
{
    match target {
        RExpr::Local { .. } | RExpr::Static { .. } | RExpr::Own { .. } | RExpr::Index { .. } => {
            type_of(p, body, target)
        }
        RExpr::Field { base, name, place } => stored(p, type_of(p, body, base)?, name, *place),
        _ => Err(CheckFault::IllTyped(Kind::Assign, place)),
    }
}

/// The type of the field that an object has under a name.
fn stored(p: &Program, given: Static, name: &Name, place: Place) -> Answered<Static>
    requires { IsFormed (program_of p.now) }
    ensures { result ≡ field_answer (program_of p.now) (env_in (program_of p.now) 0)
        (types.field_in (program_of p.now) (seen given) name.now) (at_place place) }
{
    match field_in(p, given, name) {
        Some(field) => Ok(given_of(field_type(p, field))),
        None => Err(CheckFault::IllTyped(Kind::NoMember, place)),
    }
}

/// Whether a value fits a variable.
fn check_value(
    p: &Program,
    body: MemberId,
    value: &RExpr,
    target: Static,
    place: Place,
) -> Answered<()>
    requires { IsFormed (program_of p.now) }
    ensures { result ≡ assign_answer (program_of p.now) (env_in (program_of p.now) body.0)
        (answer (program_of p.now) (env_in (program_of p.now) body.0) (expr_of value.now)) (seen target) (at_place place) }
{
    ask(
        fits_in(p, type_of(p, body, value)?, target),
        Kind::Assign,
        place,
    )
}

/// Whether a test is boolean.
fn check_condition(p: &Program, body: MemberId, test: &RExpr) -> Answered<()>
    requires { IsFormed (program_of p.now) }
    ensures { result ≡ condition_answer (program_of p.now) (env_in (program_of p.now) body.0) (expr_of test.now) }
{
    ask(
        is_boolean(type_of(p, body, test)?),
        Kind::Condition,
        place_of(test),
    )
}

/// Whether the test of a loop is boolean.
fn check_test(p: &Program, body: MemberId, test: &Option<RExpr>) -> Answered<()>
    requires { IsFormed (program_of p.now) }
    ensures { result ≡ test_answer (program_of p.now) (env_in (program_of p.now) body.0) (value_of test.now) }
{
    match test {
        Some(test) => check_condition(p, body, test),
        None => Ok(()),
    }
}

/// What the body gives back.
fn result_type(p: &Program, body: MemberId) -> Option<Ty>
    ensures { result ≡ (env_in (program_of p.now) body.0).result }
{
    match code_by_number(p, body) {
        Some(code) => code.result,
        None => None,
    }
}

/// Whether a value is what the method gives back.
fn check_result(p: &Program, body: MemberId, given: Static, place: Place) -> Answered<()>
    requires { IsFormed (program_of p.now) }
    ensures { result ≡ return_answer (program_of p.now) (env_in (program_of p.now) 0) (env_in (program_of p.now) body.0).result given (at_place place) }
{
    match result_type(p, body) {
        Some(ty) => ask(fits(p, given, ty), Kind::Return, place),
        None => Err(CheckFault::IllTyped(Kind::Return, place)),
    }
}

/// The first rule that fails in a statement.
#[cycle(statements)]
fn check_stmt(p: &Program, body: MemberId, s: &RStmt) -> Answered<()>
    requires { IsFormed (program_of p.now) }
    ensures { result ≡ st_answer (program_of p.now) (env_in (program_of p.now) body.0) (stmt_of s.now) }
{
    match s {
        RStmt::Local { value: None, .. } => Ok(()),
        RStmt::Local {
            local,
            value: Some(value),
            place,
        } => {
            check_value(
                p,
                body,
                value,
                given_of(local_type(p, body, *local)),
                *place,
            )
        }
        RStmt::Block { items, .. } => check_stmts(p, body, items),
        RStmt::Assign {
            target,
            value,
            place,
        } => {
            check_value(
                p,
                body,
                value,
                target_type(p, body, target, *place)?,
                *place,
            )
        }
        RStmt::Do { call, .. } => {
            type_of(p, body, call)?;
            Ok(())
        }
        RStmt::Print { value: None, .. } => Ok(()),
        RStmt::Print {
            value: Some(value),
            place,
            ..
        } => {
            ask(
                is_printable(type_of(p, body, value)?),
                Kind::Operand,
                *place,
            )
        }
        RStmt::If { arms, other, .. } => check_arms(p, body, arms, other),
        RStmt::While {
            test,
            body: items,
            ..
        } => match check_condition(p, body, test) {
            Ok(()) => check_stmts(p, body, items),
            Err(fault) => Err(fault),
        },
        RStmt::For {
            first,
            test,
            step,
            body: items,
            ..
        } => {
            if let Err(fault) = check_step(p, body, first) {
                return Err(fault);
            }
            if let Err(fault) = check_test(p, body, test) {
                return Err(fault);
            }
            if let Err(fault) = check_step(p, body, step) {
                return Err(fault);
            }
            check_stmts(p, body, items)
        }
        RStmt::Return { value: None, place } => {
            ask(result_type(p, body).is_none(), Kind::Return, *place)
        }
        RStmt::Return {
            value: Some(value),
            place,
        } => { check_result(p, body, type_of(p, body, value)?, *place) }
        RStmt::Break { .. } => Ok(()),
        RStmt::Continue { .. } => Ok(()),
    }
}

/// The first rule that fails in a list of statements.
#[cycle(statements)]
pub(crate) fn check_stmts(p: &Program, body: MemberId, list: &[RStmt]) -> Answered<()>
    requires { IsFormed (program_of p.now) }
    ensures { result ≡ sts_answer (program_of p.now) (env_in (program_of p.now) body.0) (stmts list.now) }
{
    for s in list {
        if let Err(fault) = check_stmt(p, body, s) {
            return Err(fault);
        }
    }
    Ok(())
}

/// The first rule that fails in the first or the last part of a `for`.
#[cycle(statements)]
fn check_step(p: &Program, body: MemberId, step: &Option<Box<RStmt>>) -> Answered<()>
    requires { IsFormed (program_of p.now) }
    ensures { result ≡ sts_answer (program_of p.now) (env_in (program_of p.now) body.0) (step_seen step.now) }
{
    match step {
        Some(step) => {
            check_stmt(p, body, step)?;
            Ok(())
        }
        None => Ok(()),
    }
}

/// The first rule that fails in the arms of an `if`.
#[cycle(statements)]
fn check_arms(
    p: &Program,
    body: MemberId,
    arms: &[RArm],
    other: &Option<Vec<RStmt>>,
) -> Answered<()>
    requires { IsFormed (program_of p.now) }
    ensures { result ≡ arms_answer (program_of p.now) (env_in (program_of p.now) body.0) (arms_seen arms.now (else_seen other.now)) }
{
    for arm in arms {
        if let Err(fault) = check_condition(p, body, &arm.test) {
            return Err(fault);
        }
        if let Err(fault) = check_stmts(p, body, &arm.body) {
            return Err(fault);
        }
    }
    match other {
        Some(list) => check_stmts(p, body, list),
        None => Ok(()),
    }
}
