//! The size of a tree.
#![tactic(auto, using(crate::proofs::Sizes::sizes))]

ghost use Rattle.std.specs.Prelude.{◌≡◌, ◌<◌, ◌^◌, ◌*◌, ◌+◌};
ghost use Rattle.java_tree.specs.Syntax.{value_of, boxed_step, up_seen, expr_of, exprs, stmt_of, stmts, arms_seen, member_of, members, decl_of, decls, tree_of};
ghost use Rattle.java_tree.specs.Arms.{arm_size};
ghost use Rattle.java_tree.specs.Size.{value_size, step_size, up_size, expr_size, exprs_size, stmt_size, stmts_size, arms_size, member_size, members_size, decl_size, tree_size};

use java_tree::{Arm, Decl, Expr, Member, Stmt, Tree};

#[cycle(exprs)]
fn expr_count(expr: &Expr) -> u64
    requires room { expr_size (expr_of expr.now) < 2 ^ 64 }
    ensures value { result ≡ expr_size (expr_of expr.now) }
{
    match expr {
        Expr::Int { .. }
        | Expr::Char { .. }
        | Expr::Str { .. }
        | Expr::Bool { .. }
        | Expr::Null { .. }
        | Expr::This { .. }
        | Expr::Name { .. } => 1,
        Expr::Field { base, .. } => expr_count(base) + 1,
        Expr::Index { base, at, .. } => expr_count(base) + expr_count(at) + 1,
        Expr::Call { base, args, .. } => match base {
            None => exprs_count(args) + 1,
            Some(base) => expr_count(base) + exprs_count(args) + 1,
        },
        Expr::SuperCall { args, .. } => exprs_count(args) + 1,
        Expr::New { args, .. } => exprs_count(args) + 1,
        Expr::NewArray { size, .. } => expr_count(size) + 1,
        Expr::Cast { value, .. } => expr_count(value) + 1,
        Expr::InstanceOf { value, .. } => expr_count(value) + 1,
        Expr::Unary { value, .. } => expr_count(value) + 1,
        Expr::Binary { left, right, .. } => expr_count(left) + expr_count(right) + 1,
    }
}

#[cycle(exprs)]
fn exprs_count(list: &[Expr]) -> u64
    requires room { exprs_size (exprs list.now) < 2 ^ 64 }
    ensures value { result ≡ exprs_size (exprs list.now) }
{
    sum!(list, expr_count)
}

fn value_count(value: &Option<Expr>) -> u64
    requires room { value_size (value_of value.now) < 2 ^ 64 }
    ensures value { result ≡ value_size (value_of value.now) }
{
    count_if!(value, expr_count)
}

#[cycle(stmts)]
fn stmt_count(stmt: &Stmt) -> u64
    requires room { stmt_size (stmt_of stmt.now) < 2 ^ 64 }
    ensures value { result ≡ stmt_size (stmt_of stmt.now) }
{
    stmt_parts(stmt) + 1
}

// What the parts of a statement count.
#[cycle(stmts)]
fn stmt_parts(stmt: &Stmt) -> u64
    requires room { stmt_size (stmt_of stmt.now) < 2 ^ 64 }
    ensures value { result + 1 ≡ stmt_size (stmt_of stmt.now) }
{
    match stmt {
        Stmt::Local { value, .. } => value_count(value),
        Stmt::Block { items, .. } => stmts_count(items),
        Stmt::Assign { target, value, .. } => expr_count(target) + expr_count(value),
        Stmt::Do { call, .. } => expr_count(call),
        Stmt::Print { value, .. } => value_count(value),
        Stmt::If { arms, other, .. } => match other {
            None => arms_count(arms),
            Some(other) => arms_count(arms) + stmts_count(other),
        },
        Stmt::While { test, body, .. } => expr_count(test) + stmts_count(body),
        Stmt::For {
            first,
            test,
            step,
            body,
            ..
        } => { step_count(first) + value_count(test) + step_count(step) + stmts_count(body) }
        Stmt::Return { value, .. } => value_count(value),
        Stmt::Break { .. } | Stmt::Continue { .. } => 0,
    }
}

#[cycle(stmts)]
fn step_count(step: &Option<Box<Stmt>>) -> u64
    requires room { step_size (boxed_step step.now) < 2 ^ 64 }
    ensures value { result ≡ step_size (boxed_step step.now) }
{
    count_if!(step, stmt_count)
}

#[cycle(stmts)]
fn stmts_count(list: &[Stmt]) -> u64
    requires room { stmts_size (stmts list.now) < 2 ^ 64 }
    ensures value { result ≡ stmts_size (stmts list.now) }
{
    sum!(list, stmt_count)
}

#[cycle(stmts)]
fn arms_count(list: &[Arm]) -> u64
    requires room { arms_size (arms_seen list.now) < 2 ^ 64 }
    ensures value { result ≡ arms_size (arms_seen list.now) }
{
    sum!(list, arm_count)
}

#[cycle(stmts)]
fn arm_count(arm: &Arm) -> u64
    requires room { arm_size arm.now < 2 ^ 64 }
    ensures value { result ≡ arm_size arm.now }
{
    expr_count(&arm.test) + stmts_count(&arm.body)
}

fn up_count(up: &Option<Vec<Expr>>) -> u64
    requires room { up_size (up_seen up.now) < 2 ^ 64 }
    ensures value { result ≡ up_size (up_seen up.now) }
{
    count_if!(up, exprs_count)
}

fn member_count(member: &Member) -> u64
    requires room { member_size (member_of member.now) < 2 ^ 64 }
    ensures value { result ≡ member_size (member_of member.now) }
{
    match member {
        Member::Field { .. } => 1,
        Member::Method { body, .. } => match body {
            None => 1,
            Some(body) => stmts_count(body) + 1,
        },
        Member::Maker { up, body, .. } => up_count(up) + stmts_count(body) + 1,
    }
}

fn members_count(list: &[Member]) -> u64
    requires room { members_size (members list.now) < 2 ^ 64 }
    ensures value { result ≡ members_size (members list.now) }
{
    sum!(list, member_count)
}

fn decl_count(decl: &Decl) -> u64
    requires room { decl_size (decl_of decl.now) < 2 ^ 64 }
    ensures value { result ≡ decl_size (decl_of decl.now) }
{
    match decl {
        Decl::Class { members, .. } => members_count(members) + 1,
        Decl::Interface { heads, .. } => heads.len() as u64 + 1,
    }
}

/// How many declarations, members, statements and expressions a tree has. It asks a tree of which
/// this count is at most 18,446,744,073,709,551,615.
pub fn size(tree: &Tree) -> u64
    requires room { tree_size (tree_of tree.now) < 2 ^ 64 }
    ensures value { result ≡ tree_size (tree_of tree.now) }
{
    sum!(&tree.decls, decl_count)
}
