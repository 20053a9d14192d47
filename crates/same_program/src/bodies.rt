//! Two bodies, form by form: that they are one, or where they first part.
#![tactic(auto)]

ghost use Rattle.std.specs.Prelude.{◌≡◌, ◌&&◌, ◌≤◌, false, is_ok};
ghost use Rattle.java_core.specs.Trees.{expr_of, exprs, value_of, base_seen, target_of, stmt_of, stmts, step_seen, arms_seen, no_other};
ghost use Rattle.std.specs.Str.{bytes_eq};
ghost use Rattle.java_core.specs.Programs.{program_of};
ghost use Rattle.same_program.specs.Same.{is_this, is_target, one_unary, one_op, one_binary, one_ex, one_all, one_if, one_target, one_st, one_sts, one_arms};

use crate::names::{
    both, has_name, same_class, same_field, same_method, same_names, same_type, told,
};
use crate::{Agreed, Parting, What};
use java_core::{BinOp, Op, Program, RArm, RExpr, RStmt, UnOp};
use java_lex::Units;
use kaba_base::Place;

/// What is said where the other tree has this form too; else they part.
macro_rules! form {
    ($a:ident, $b:ident, $what:expr, $form:pat => $agreed:expr) => {
        match $b {
            $form => $agreed,
            _ => apart($a, $b, $what),
        }
    };
}

/// The same of statements.
macro_rules! statement {
    ($a:ident, $b:ident, $form:pat => $agreed:expr) => {
        match $b {
            $form => $agreed,
            _ => statements_apart($a, $b),
        }
    };
}

fn same_units(a: &Units, b: &Units) -> bool
    ensures { result ≡ bytes_eq a.now b.now }
{
    a.same(b)
}

/// The place of an expression.
fn place_of(e: &RExpr) -> Place {
    match e {
        RExpr::Int { place, .. } => *place,
        RExpr::Char { place, .. } => *place,
        RExpr::Str { place, .. } => *place,
        RExpr::Bool { place, .. } => *place,
        RExpr::Null { place } => *place,
        RExpr::This { place } => *place,
        RExpr::Local { place, .. } => *place,
        RExpr::Static { place, .. } => *place,
        RExpr::Own { place, .. } => *place,
        RExpr::Field { place, .. } => *place,
        RExpr::Index { place, .. } => *place,
        RExpr::Call { place, .. } => *place,
        RExpr::StaticCall { place, .. } => *place,
        RExpr::SuperCall { place, .. } => *place,
        RExpr::New { place, .. } => *place,
        RExpr::NewArray { place, .. } => *place,
        RExpr::Cast { place, .. } => *place,
        RExpr::InstanceOf { place, .. } => *place,
        RExpr::Unary { place, .. } => *place,
        RExpr::Binary { place, .. } => *place,
    }
}

/// The place of a statement.
fn place_of_statement(s: &RStmt) -> Place {
    match s {
        RStmt::Local { place, .. } => *place,
        RStmt::Block { place, .. } => *place,
        RStmt::Assign { place, .. } => *place,
        RStmt::Do { place, .. } => *place,
        RStmt::Print { place, .. } => *place,
        RStmt::If { place, .. } => *place,
        RStmt::While { place, .. } => *place,
        RStmt::For { place, .. } => *place,
        RStmt::Return { place, .. } => *place,
        RStmt::Break { place } => *place,
        RStmt::Continue { place } => *place,
    }
}

/// That two expressions part.
fn apart(a: &RExpr, b: &RExpr, what: What) -> Agreed
    ensures { is_ok result ≡ false }
{
    Err(Parting {
        first: place_of(a),
        second: place_of(b),
        what,
    })
}

/// That two statements part.
fn statements_apart(a: &RStmt, b: &RStmt) -> Agreed
    ensures { is_ok result ≡ false }
{
    Err(Parting {
        first: place_of_statement(a),
        second: place_of_statement(b),
        what: What::Statement,
    })
}

/// Whether an expression is `this`.
fn is_this(e: &RExpr) -> bool
    ensures { result ≡ is_this (expr_of e.now) }
{
    matches!(e, RExpr::This { .. })
}

fn same_unary(a: UnOp, b: UnOp) -> bool
    ensures { result ≡ one_unary a b }
{
    a == b
}

fn same_binary(a: BinOp, b: BinOp) -> bool
    ensures { result ≡ one_binary a b }
{
    a == b
}

/// That two expressions are one.
#[cycle(exprs)]
#[tactic(auto, using(crate::proofs::Seen::forms))]
fn expr(p: &Program, q: &Program, a: &RExpr, b: &RExpr) -> Agreed
    ensures { is_ok result ≡ one_ex (program_of p.now) (program_of q.now) (expr_of a.now) (expr_of b.now) }
{
    match a {
        RExpr::Int { value, place } =>
            form!(a, b, What::Literal, RExpr::Int { value: other, place: there } =>
            told(*value == *other, *place, *there, What::Literal)),
        RExpr::Char { value, place } =>
            form!(a, b, What::Literal, RExpr::Char { value: other, place: there } =>
            told(*value == *other, *place, *there, What::Literal)),
        RExpr::Str { units, place } =>
            form!(a, b, What::Literal, RExpr::Str { units: others, place: there } =>
            told(same_units(units, others), *place, *there, What::Literal)),
        RExpr::Bool { value, place } =>
            form!(a, b, What::Literal, RExpr::Bool { value: other, place: there } =>
            told(*value == *other, *place, *there, What::Literal)),
        RExpr::Null { .. } => form!(a, b, What::Literal, RExpr::Null { .. } => Ok(())),
        RExpr::This { .. } => form!(a, b, What::Expression, RExpr::This { .. } => Ok(())),
        RExpr::Local { local, place } =>
            form!(a, b, What::Variable, RExpr::Local { local: other, place: there } =>
            told(*local == *other, *place, *there, What::Variable)),
        RExpr::Static { field, place } =>
            form!(a, b, What::Field, RExpr::Static { field: other, place: there } =>
            told(same_field(p, q, *field, *other), *place, *there, What::Field)),
        RExpr::Own { field, place } => match b {
            RExpr::Own {
                field: other,
                place: there,
            } => told(
                same_field(p, q, *field, *other),
                *place,
                *there,
                What::Field,
            ),
            RExpr::Field {
                base: root,
                name: other,
                place: there,
            } => told(
                is_this(root) && has_name(p, *field, other),
                *place,
                *there,
                What::Field,
            ),
            _ => apart(a, b, What::Field),
        },
        RExpr::Field { base, name, place } => match b {
            RExpr::Own {
                field: other,
                place: there,
            } => told(
                is_this(base) && has_name(q, *other, name),
                *place,
                *there,
                What::Field,
            ),
            RExpr::Field {
                base: root,
                name: other,
                place: there,
            } => both(
                told(same_names(name, other), *place, *there, What::Field),
                expr(p, q, base, root),
            ),
            _ => apart(a, b, What::Field),
        },
        RExpr::Index { base, at, .. } =>
            form!(a, b, What::Expression, RExpr::Index { base: root, at: there, .. } =>
            both(expr(p, q, base, root), expr(p, q, at, there))),
        RExpr::Call {
            base,
            name,
            args,
            place,
        } =>
            form!(a, b, What::Call, RExpr::Call { base: root, name: other, args: others, place: there } => both(
                told(same_names(name, other), *place, *there, What::Call),
                both(receivers(p, q, base, root, *place, *there), arguments(p, q, args, others, *place, *there)),
            )),
        RExpr::StaticCall {
            method,
            args,
            place,
        } =>
            form!(a, b, What::Call, RExpr::StaticCall { method: other, args: others, place: there } => both(
                told(same_method(p, q, *method, *other), *place, *there, What::Call),
                arguments(p, q, args, others, *place, *there),
            )),
        RExpr::SuperCall { name, args, place } =>
            form!(a, b, What::Call, RExpr::SuperCall { name: other, args: others, place: there } => both(
                told(same_names(name, other), *place, *there, What::Call),
                arguments(p, q, args, others, *place, *there),
            )),
        RExpr::New {
            class,
            args,
            place,
            ..
        } =>
            form!(a, b, What::Creation, RExpr::New { class: other, args: others, place: there, .. } => both(
                told(same_class(p, q, *class, *other), *place, *there, What::Creation),
                arguments(p, q, args, others, *place, *there),
            )),
        RExpr::NewArray {
            ty,
            size,
            place,
            ..
        } =>
            form!(a, b, What::Creation, RExpr::NewArray { ty: other, size: count, place: there, .. } => both(
                told(same_type(p, q, *ty, *other), *place, *there, What::Creation),
                expr(p, q, size, count),
            )),
        RExpr::Cast {
            ty,
            value,
            place,
            ..
        } =>
            form!(a, b, What::Cast, RExpr::Cast { ty: other, value: content, place: there, .. } => both(
                told(same_type(p, q, *ty, *other), *place, *there, What::Cast),
                expr(p, q, value, content),
            )),
        RExpr::InstanceOf {
            value,
            class,
            place,
            ..
        } =>
            form!(a, b, What::Test, RExpr::InstanceOf { value: content, class: other, place: there, .. } => both(
                told(same_class(p, q, *class, *other), *place, *there, What::Test),
                expr(p, q, value, content),
            )),
        RExpr::Unary { op, value, place } =>
            form!(a, b, What::Operator, RExpr::Unary { op: other, value: content, place: there } => both(
                told(same_unary(*op, *other), *place, *there, What::Operator),
                expr(p, q, value, content),
            )),
        RExpr::Binary {
            op,
            left,
            right,
            place,
        } =>
            form!(a, b, What::Operator, RExpr::Binary { op: other, left: first, right: second, place: there } => both(
                told(same_binary(*op, *other), *place, *there, What::Operator),
                both(expr(p, q, left, first), expr(p, q, right, second)),
            )),
    }
}

/// That the receivers of two calls are one; a call without one is on `this`.
#[cycle(exprs)]
#[tactic(auto, using(crate::proofs::Seen::forms))]
fn receivers(
    p: &Program,
    q: &Program,
    a: &Option<Box<RExpr>>,
    b: &Option<Box<RExpr>>,
    first: Place,
    second: Place,
) -> Agreed
    ensures { is_ok result ≡ one_ex (program_of p.now) (program_of q.now) (base_seen a.now first) (base_seen b.now second) }
{
    match a {
        None => match b {
            None => Ok(()),
            Some(root) => told(is_this(root), first, second, What::Call),
        },
        Some(base) => match b {
            None => told(is_this(base), first, second, What::Call),
            Some(root) => expr(p, q, base, root),
        },
    }
}

/// That the arguments of two calls are as many, and one, one by one.
#[cycle(exprs)]
#[tactic(auto, using(crate::proofs::Seen::forms))]
fn arguments(
    p: &Program,
    q: &Program,
    a: &Vec<RExpr>,
    b: &Vec<RExpr>,
    first: Place,
    second: Place,
) -> Agreed
    ensures { is_ok result ≡ one_all (program_of p.now) (program_of q.now) (exprs a.now.items) (exprs b.now.items) }
{
    if a.len() != b.len() {
        return told(false, first, second, What::Call);
    }
    for i in 0..a.len() {
        let agreed = expr(p, q, &a[i], &b[i]);
        if agreed.is_err() {
            return agreed;
        }
    }
    Ok(())
}

/// That two expressions that may be left out are one.
fn values(
    p: &Program,
    q: &Program,
    a: &Option<RExpr>,
    b: &Option<RExpr>,
    first: Place,
    second: Place,
) -> Agreed
    ensures { is_ok result ≡ one_if (program_of p.now) (program_of q.now) (value_of a.now) (value_of b.now) }
{
    match a {
        None => match b {
            None => Ok(()),
            Some(_) => told(false, first, second, What::Expression),
        },
        Some(value) => match b {
            None => told(false, first, second, What::Expression),
            Some(other) => expr(p, q, value, other),
        },
    }
}

/// Whether an expression is one that can be assigned to.
fn is_target(e: &RExpr) -> bool
    ensures { result ≡ is_target (target_of e.now) }
{
    match e {
        RExpr::Local { .. } => true,
        RExpr::Static { .. } => true,
        RExpr::Own { .. } => true,
        RExpr::Field { .. } => true,
        RExpr::Index { .. } => true,
        _ => false,
    }
}

/// That what two assignments change is one.
#[tactic(auto, using(crate::proofs::Seen::targets))]
fn targets(p: &Program, q: &Program, a: &RExpr, b: &RExpr) -> Agreed
    ensures { is_ok result ≡ one_target (program_of p.now) (program_of q.now) (target_of a.now) (target_of b.now) }
{
    if is_target(a) {
        expr(p, q, a, b)
    } else {
        apart(a, b, What::Statement)
    }
}

/// The lesser of two numbers.
fn least(a: usize, b: usize) -> usize
    ensures first { result ≤ a }
    ensures second { result ≤ b }
    ensures equal { a ≡ b → result ≡ a }
{
    if a < b { a } else { b }
}

/// The place of a statement of a list, or that of what the list is in.
fn place_in(list: &Vec<RStmt>, at: usize, around: Place) -> Place {
    match list.get(at) {
        Some(statement) => place_of_statement(statement),
        None => around,
    }
}

/// That two statements are one.
#[cycle(statements)]
#[tactic(auto, using(crate::proofs::Seen::statements))]
fn statement(p: &Program, q: &Program, a: &RStmt, b: &RStmt) -> Agreed
    ensures { is_ok result ≡ one_st (program_of p.now) (program_of q.now) (stmt_of a.now) (stmt_of b.now) }
{
    match a {
        RStmt::Local {
            local,
            value,
            place,
        } => statement!(a, b, RStmt::Local { local: other, value: content, place: there } => both(
                told(*local == *other, *place, *there, What::Variable),
                values(p, q, value, content, *place, *there),
            )),
        RStmt::Block { items, place } =>
            statement!(a, b, RStmt::Block { items: others, place: there } =>
            statements(p, q, items, others, *place, *there)),
        RStmt::Assign { target, value, .. } =>
            statement!(a, b, RStmt::Assign { target: other, value: content, .. } =>
                both(targets(p, q, target, other), expr(p, q, value, content))),
        RStmt::Do { call, .. } =>
            statement!(a, b, RStmt::Do { call: other, .. } => expr(p, q, call, other)),
        RStmt::Print {
            newline,
            value,
            place,
        } => statement!(a, b, RStmt::Print { newline: other, value: content, place: there } => both(
                told(*newline == *other, *place, *there, What::Call),
                values(p, q, value, content, *place, *there),
            )),
        RStmt::If { arms, other, place } =>
            statement!(a, b, RStmt::If { arms: others, other: last, place: there } => match other {
                None => match last {
                    None => branches(p, q, arms, others, *place, *there),
                    Some(_rest) => statements_apart(a, b),
                },
                Some(body) => match last {
                    None => statements_apart(a, b),
                    Some(rest) => both(
                        branches(p, q, arms, others, *place, *there),
                        statements(p, q, body, rest, *place, *there),
                    ),
                },
            }),
        RStmt::While { test, body, place } =>
            statement!(a, b, RStmt::While { test: other, body: others, place: there } =>
                both(expr(p, q, test, other), statements(p, q, body, others, *place, *there))),
        RStmt::For {
            first,
            test,
            step,
            body,
            place,
        } =>
            statement!(a, b, RStmt::For { first: start, test: other, step: next, body: others, place: there } => both(
                steps(p, q, first, start, *place, *there),
                both(
                    values(p, q, test, other, *place, *there),
                    both(
                        steps(p, q, step, next, *place, *there),
                        statements(p, q, body, others, *place, *there),
                    ),
                ),
            )),
        RStmt::Return { value, place } =>
            statement!(a, b, RStmt::Return { value: content, place: there } =>
            values(p, q, value, content, *place, *there)),
        RStmt::Break { .. } => statement!(a, b, RStmt::Break { .. } => Ok(())),
        RStmt::Continue { .. } => statement!(a, b, RStmt::Continue { .. } => Ok(())),
    }
}

/// That the first or last parts of two `for`s are one.
#[cycle(statements)]
#[tactic(auto, using(crate::proofs::Seen::statements))]
fn steps(
    p: &Program,
    q: &Program,
    a: &Option<Box<RStmt>>,
    b: &Option<Box<RStmt>>,
    first: Place,
    second: Place,
) -> Agreed
    ensures { is_ok result ≡ one_sts (program_of p.now) (program_of q.now) (step_seen a.now) (step_seen b.now) }
{
    match a {
        None => match b {
            None => Ok(()),
            Some(_) => told(false, first, second, What::Statement),
        },
        Some(step) => match b {
            None => told(false, first, second, What::Statement),
            Some(other) => statement(p, q, step, other),
        },
    }
}

/// That two lists of statements are one, one by one.
#[cycle(statements)]
#[tactic(auto, using(crate::proofs::Seen::statements))]
pub(crate) fn statements(
    p: &Program,
    q: &Program,
    a: &Vec<RStmt>,
    b: &Vec<RStmt>,
    first: Place,
    second: Place,
) -> Agreed
    ensures { is_ok result ≡ one_sts (program_of p.now) (program_of q.now) (stmts a.now.items) (stmts b.now.items) }
{
    let shared = least(a.len(), b.len());
    for i in 0..shared {
        let agreed = statement(p, q, &a[i], &b[i]);
        if agreed.is_err() {
            return agreed;
        }
    }
    told(
        a.len() == b.len(),
        place_in(a, shared, first),
        place_in(b, shared, second),
        What::Statement,
    )
}

/// That the arms of two `if`s are as many and one, one by one, their `else`s aside.
#[cycle(statements)]
#[tactic(auto, using(crate::proofs::Seen::statements))]
fn branches(
    p: &Program,
    q: &Program,
    a: &Vec<RArm>,
    b: &Vec<RArm>,
    first: Place,
    second: Place,
) -> Agreed
    ensures { is_ok result ≡ one_arms (program_of p.now) (program_of q.now) (arms_seen a.now.items no_other) (arms_seen b.now.items no_other) }
{
    if a.len() != b.len() {
        return told(false, first, second, What::Statement);
    }
    for i in 0..a.len() {
        let agreed = branch(p, q, &a[i], &b[i]);
        if agreed.is_err() {
            return agreed;
        }
    }
    Ok(())
}

/// That two arms of an `if` are one.
#[cycle(statements)]
#[tactic(auto, using(crate::proofs::Seen::statements))]
fn branch(p: &Program, q: &Program, a: &RArm, b: &RArm) -> Agreed
    ensures { is_ok result ≡ (one_ex (program_of p.now) (program_of q.now) (expr_of a.now.test) (expr_of b.now.test)
        && one_sts (program_of p.now) (program_of q.now) (stmts a.now.body.items) (stmts b.now.body.items)) }
{
    both(
        expr(p, q, &a.test, &b.test),
        statements(p, q, &a.body, &b.body, place_of(&a.test), place_of(&b.test)),
    )
}
