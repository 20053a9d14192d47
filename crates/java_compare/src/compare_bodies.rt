//! Equality of names, types, expressions and statements, places aside.
#![tactic(auto, using(crate::proofs::Sameness::seen))]

ghost use Rattle.std.specs.Prelude.{◌≡◌};
ghost use Rattle.std.specs.Str.{bytes_eq};
ghost use Rattle.java_tree.specs.Syntax.{value_of, expr_of, exprs, stmt_of, stmts, arms_seen, boxed_step};
ghost use Rattle.java_compare.specs.Same.{same_id, same_base, same_type, same_expr, same_exprs, same_value, same_stmt, same_stmts, same_arm, same_arms, same_step};

use java_lex::Units;
use java_tree::{Arm, Expr, Id, Stmt, TypeBase, TypeName};
use kaba_base::Name;

/// Whether two names have the same characters.
pub fn equal_names(a: &Name, b: &Name) -> bool
    ensures value { result ≡ bytes_eq a.now b.now }
{
    a.same(b)
}

fn equal_units(a: &Units, b: &Units) -> bool
    ensures value { result ≡ bytes_eq a.now b.now }
{
    a.same(b)
}

/// Whether two names are equal, places aside.
pub fn equal_ids(a: &Id, b: &Id) -> bool
    ensures value { result ≡ same_id a.now b.now }
{
    equal_names(&a.name, &b.name)
}

fn equal_bases(a: &TypeBase, b: &TypeBase) -> bool
    ensures value { result ≡ same_base a.now b.now }
{
    match a {
        TypeBase::Int => matches!(b, TypeBase::Int),
        TypeBase::Boolean => matches!(b, TypeBase::Boolean),
        TypeBase::Char => matches!(b, TypeBase::Char),
        TypeBase::Named(name) => same_form!(b, TypeBase::Named(other) => equal_names(name, other)),
    }
}

/// Whether two types are equal, places aside.
pub fn equal_types(a: &TypeName, b: &TypeName) -> bool
    ensures value { result ≡ same_type a.now b.now }
{
    equal_bases(&a.base, &b.base) && a.dim == b.dim
}

#[cycle(exprs)]
fn equal_exprs(a: &Expr, b: &Expr) -> bool
    ensures value { result ≡ same_expr (expr_of a.now) (expr_of b.now) }
{
    match a {
        Expr::Int { value, .. } =>
            same_form!(b, Expr::Int { value: other, .. } => *value == *other),
        Expr::Char { value, .. } =>
            same_form!(b, Expr::Char { value: other, .. } => *value == *other),
        Expr::Str { units, .. } =>
            same_form!(b, Expr::Str { units: others, .. } => equal_units(units, others)),
        Expr::Bool { value, .. } =>
            same_form!(b, Expr::Bool { value: other, .. } => *value == *other),
        Expr::Null { .. } => matches!(b, Expr::Null { .. }),
        Expr::This { .. } => matches!(b, Expr::This { .. }),
        Expr::Name { name, .. } =>
            same_form!(b, Expr::Name { name: other, .. } => equal_names(name, other)),
        Expr::Field { base, name, .. } =>
            same_form!(b, Expr::Field { base: root, name: other, .. } => equal_names(name, other) && equal_exprs(base, root)),
        Expr::Index { base, at, .. } =>
            same_form!(b, Expr::Index { base: root, at: place, .. } => equal_exprs(base, root) && equal_exprs(at, place)),
        Expr::Call {
            base,
            name,
            args,
            ..
        } => same_form!(b, Expr::Call { base: root, name: other, args: others, .. } => match base {
            None => same_form!(root, None => equal_names(name, other) && equal_args(args, others)),
            Some(base) => same_form!(root, Some(root) => equal_names(name, other)
                && equal_exprs(base, root)
                && equal_args(args, others)),
        }),
        Expr::SuperCall { name, args, .. } =>
            same_form!(b, Expr::SuperCall { name: other, args: others, .. } =>
                equal_names(name, other) && equal_args(args, others)),
        Expr::New { class, args, .. } =>
            same_form!(b, Expr::New { class: other, args: others, .. } => equal_ids(class, other) && equal_args(args, others)),
        Expr::NewArray { ty, size, .. } =>
            same_form!(b, Expr::NewArray { ty: other, size: count, .. } => equal_types(ty, other) && equal_exprs(size, count)),
        Expr::Cast { ty, value, .. } =>
            same_form!(b, Expr::Cast { ty: other, value: content, .. } => equal_types(ty, other) && equal_exprs(value, content)),
        Expr::InstanceOf { value, class, .. } =>
            same_form!(b, Expr::InstanceOf { value: content, class: other, .. } =>
                equal_ids(class, other) && equal_exprs(value, content)),
        Expr::Unary { mark, value, .. } =>
            same_form!(b, Expr::Unary { mark: other, value: content, .. } => *mark == *other && equal_exprs(value, content)),
        Expr::Binary {
            mark,
            left,
            right,
            ..
        } => same_form!(b, Expr::Binary { mark: other, left: first, right: second, .. } =>
                *mark == *other && equal_exprs(left, first) && equal_exprs(right, second)),
    }
}

/// Whether two lists of expressions are equal, places aside.
#[cycle(exprs)]
pub fn equal_args(a: &[Expr], b: &[Expr]) -> bool
    ensures value { result ≡ same_exprs (exprs a.now) (exprs b.now) }
{
    all_equal!(a, b, equal_exprs)
}

fn equal_values(a: &Option<Expr>, b: &Option<Expr>) -> bool
    ensures value { result ≡ same_value (value_of a.now) (value_of b.now) }
{
    may_equal!(a, b, equal_exprs)
}

#[cycle(stmts)]
fn equal_stmts(a: &Stmt, b: &Stmt) -> bool
    ensures value { result ≡ same_stmt (stmt_of a.now) (stmt_of b.now) }
{
    match a {
        Stmt::Local {
            is_final,
            ty,
            name,
            value,
            ..
        } =>
            same_form!(b, Stmt::Local { is_final: fixed, ty: kind, name: other, value: content, .. } =>
                *is_final == *fixed && equal_types(ty, kind) && equal_names(name, other) && equal_values(value, content)),
        Stmt::Block { items, .. } =>
            same_form!(b, Stmt::Block { items: others, .. } => equal_bodies(items, others)),
        Stmt::Assign { target, value, .. } =>
            same_form!(b, Stmt::Assign { target: other, value: content, .. } =>
                equal_exprs(target, other) && equal_exprs(value, content)),
        Stmt::Do { call, .. } =>
            same_form!(b, Stmt::Do { call: other, .. } => equal_exprs(call, other)),
        Stmt::Print { newline, value, .. } =>
            same_form!(b, Stmt::Print { newline: other, value: content, .. } =>
                *newline == *other && equal_values(value, content)),
        Stmt::If { arms, other, .. } =>
            same_form!(b, Stmt::If { arms: others, other: last, .. } => match other {
            None => same_form!(last, None => equal_arms(arms, others)),
            Some(body) => same_form!(last, Some(rest) => equal_arms(arms, others) && equal_bodies(body, rest)),
        }),
        Stmt::While { test, body, .. } =>
            same_form!(b, Stmt::While { test: other, body: others, .. } =>
                equal_exprs(test, other) && equal_bodies(body, others)),
        Stmt::For {
            first,
            test,
            step,
            body,
            ..
        } => same_form!(b, Stmt::For { first: start, test: other, step: next, body: others, .. } =>
                equal_steps(first, start) && equal_values(test, other) && equal_steps(step, next) && equal_bodies(body, others)),
        Stmt::Return { value, .. } =>
            same_form!(b, Stmt::Return { value: content, .. } => equal_values(value, content)),
        Stmt::Break { .. } => matches!(b, Stmt::Break { .. }),
        Stmt::Continue { .. } => matches!(b, Stmt::Continue { .. }),
    }
}

#[cycle(stmts)]
fn equal_steps(a: &Option<Box<Stmt>>, b: &Option<Box<Stmt>>) -> bool
    ensures value { result ≡ same_step (boxed_step a.now) (boxed_step b.now) }
{
    may_equal!(a, b, equal_stmts)
}

/// Whether two lists of statements are equal, places aside.
#[cycle(stmts)]
pub fn equal_bodies(a: &[Stmt], b: &[Stmt]) -> bool
    ensures value { result ≡ same_stmts (stmts a.now) (stmts b.now) }
{
    all_equal!(a, b, equal_stmts)
}

#[cycle(stmts)]
fn equal_arms(a: &[Arm], b: &[Arm]) -> bool
    ensures value { result ≡ same_arms (arms_seen a.now) (arms_seen b.now) }
{
    all_equal!(a, b, equal_branches)
}

#[cycle(stmts)]
fn equal_branches(a: &Arm, b: &Arm) -> bool
    ensures value { result ≡ same_arm a.now b.now }
{
    equal_exprs(&a.test, &b.test) && equal_bodies(&a.body, &b.body)
}
