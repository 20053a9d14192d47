//! The text of a statement.
#![tactic(auto)]

ghost use Rattle.std.specs.Prelude.{◌≡◌, ◌+◌, OnOk, IfOk, List, false};
ghost use Rattle.java_tree.specs.Syntax.{expr_of, value_of, stmt_of, stmts, arms_seen, else_seen};
ghost use Rattle.java_print.specs.Items.{Item};
ghost use Rattle.java_print.specs.Layout.{else_then, open_body, close_body, stmts_items, condition_items, body_block, block_items, while_items, arm_items, for_items, if_items, else_items, arms_items, bare_items};
ghost use Rattle.java_print.specs.Adds.{Adds, Puts, tested_items, whole_body};
ghost use Rattle.java_tree.specs.Syntax.{boxed_step};

use crate::exprs::{put_expr, put_key_space, put_space};
use crate::put::{put_end, put_key, put_margin, put_mark};
use crate::simple::{put_for_head, put_jump, put_line, put_return};
use java_lex::Mark;
use java_tree::{Arm, Expr, Stmt};
use kaba_base::Keyword;
use std::alloc::AllocError;

/// Adds the brace that opens a body, and the end of its line.
pub fn put_open_body(into: &mut Vec<u8>) -> Result<(), AllocError>
    ensures value { OnOk result (Puts into.old.items into.new.items open_body) }
{
    put_space(into)?;
    put_mark(into, Mark::OpenBrace)?;
    put_end(into)
}

/// Adds the brace that closes a body.
pub fn put_close_body(into: &mut Vec<u8>, margin: usize) -> Result<(), AllocError>
    ensures value { OnOk result (Puts into.old.items into.new.items (close_body margin)) }
{
    put_margin(into, margin)?;
    put_mark(into, Mark::CloseBrace)
}

/// Adds a condition in its brackets.
fn put_condition(into: &mut Vec<u8>, test: &Expr) -> Result<(), AllocError>
    ensures value { OnOk result (Puts into.old.items into.new.items (condition_items (expr_of test.now))) }
{
    put_space(into)?;
    put_mark(into, Mark::OpenRound)?;
    put_expr(into, test)?;
    put_mark(into, Mark::CloseRound)
}

/// Adds a keyword and a condition in its brackets.
fn put_tested(into: &mut Vec<u8>, key: Keyword, test: &Expr) -> Result<(), AllocError>
    ensures value { OnOk result (Puts into.old.items into.new.items (tested_items key (expr_of test.now))) }
{
    put_key(into, key)?;
    put_condition(into, test)
}

/// Adds ` else `, where an arm stands before.
fn put_else(into: &mut Vec<u8>, more: bool) -> Result<(), AllocError>
    ensures value { OnOk result (Puts into.old.items into.new.items (else_then more)) }
{
    if more {
        put_space(into)?;
        put_key_space(into, Keyword::Else)
    } else {
        Ok(())
    }
}

/// The margin of the next level. A margin that is no number would take more than all memory.
fn one_deeper(margin: usize) -> Result<usize, AllocError>
    ensures value { IfOk result (λ d. d ≡ margin + 2) }
{
    if margin < usize::MAX - 2 {
        Ok(margin + 2)
    } else {
        Err(AllocError)
    }
}

/// Adds statements behind a margin.
#[cycle(statements)]
pub fn put_stmts(into: &mut Vec<u8>, margin: usize, body: &[Stmt]) -> Result<(), AllocError>
    ensures value { OnOk result (Puts into.old.items into.new.items (stmts_items margin (stmts body.now))) }
{
    for s in body {
        put_margin(into, margin)?;
        put_stmt(into, margin, s)?;
    }
    Ok(())
}

/// Adds a statement behind its margin.
#[cycle(statements)]
fn put_stmt(into: &mut Vec<u8>, margin: usize, s: &Stmt) -> Result<(), AllocError>
    ensures value { OnOk result ((r : List Item) → Adds into.old.items into.new.items (bare_items margin (stmt_of s.now) r) r) }
{
    match s {
        Stmt::Local { .. } => put_line(into, s),
        Stmt::Assign { .. } => put_line(into, s),
        Stmt::Do { .. } => put_line(into, s),
        Stmt::Print { .. } => put_line(into, s),
        Stmt::Block { items, .. } => put_block(into, margin, items.as_slice()),
        Stmt::If { arms, other, .. } => put_if(into, margin, arms.as_slice(), other),
        Stmt::While { test, body, .. } => put_while(into, margin, test, body.as_slice()),
        Stmt::For {
            first,
            test,
            step,
            body,
            ..
        } => { put_for(into, margin, first, test, step, body.as_slice()) }
        Stmt::Return { value, .. } => put_return(into, value),
        Stmt::Break { .. } => put_jump(into, Keyword::Break),
        Stmt::Continue { .. } => put_jump(into, Keyword::Continue),
    }
}

/// Adds a body in its braces, without the end of its last line.
#[cycle(statements)]
pub fn put_body(into: &mut Vec<u8>, margin: usize, body: &[Stmt]) -> Result<(), AllocError>
    ensures value { OnOk result (Puts into.old.items into.new.items (body_block margin (stmts body.now))) }
{
    let deeper = one_deeper(margin)?;
    put_open_body(into)?;
    put_stmts(into, deeper, body)?;
    put_close_body(into, margin)
}

/// Adds a body in its braces, with the end of its last line.
#[cycle(statements)]
pub fn put_whole_body(into: &mut Vec<u8>, margin: usize, body: &[Stmt]) -> Result<(), AllocError>
    ensures value { OnOk result (Puts into.old.items into.new.items (whole_body margin (stmts body.now))) }
{
    put_body(into, margin, body)?;
    put_end(into)
}

/// Adds a block that stands as a statement.
#[cycle(statements)]
fn put_block(into: &mut Vec<u8>, margin: usize, body: &[Stmt]) -> Result<(), AllocError>
    ensures value { OnOk result (Puts into.old.items into.new.items (block_items margin (stmts body.now))) }
{
    let deeper = one_deeper(margin)?;
    put_mark(into, Mark::OpenBrace)?;
    put_end(into)?;
    put_stmts(into, deeper, body)?;
    put_close_body(into, margin)?;
    put_end(into)
}

/// Adds a `while`.
#[cycle(statements)]
fn put_while(
    into: &mut Vec<u8>,
    margin: usize,
    test: &Expr,
    body: &[Stmt],
) -> Result<(), AllocError>
    ensures value { OnOk result (Puts into.old.items into.new.items (while_items margin (expr_of test.now) (stmts body.now))) }
{
    put_tested(into, Keyword::While, test)?;
    put_whole_body(into, margin, body)
}

/// Adds a `for`.
#[cycle(statements)]
fn put_for(
    into: &mut Vec<u8>,
    margin: usize,
    first: &Option<Box<Stmt>>,
    test: &Option<Expr>,
    step: &Option<Box<Stmt>>,
    body: &[Stmt],
) -> Result<(), AllocError>
    ensures value { OnOk result (Puts into.old.items into.new.items (for_items margin (boxed_step first.now) (value_of test.now) (boxed_step step.now) (stmts body.now))) }
{
    put_for_head(into, first, test, step)?;
    put_whole_body(into, margin, body)
}

/// Adds an `if` with all its arms.
#[cycle(statements)]
fn put_if(
    into: &mut Vec<u8>,
    margin: usize,
    arms: &[Arm],
    other: &Option<Vec<Stmt>>,
) -> Result<(), AllocError>
    ensures value { OnOk result (Puts into.old.items into.new.items (if_items margin (arms_seen arms.now) (else_seen other.now))) }
{
    put_arms(into, margin, arms)?;
    put_other(into, margin, other)
}

/// Adds the arms of an `if`.
#[cycle(statements)]
fn put_arms(into: &mut Vec<u8>, margin: usize, arms: &[Arm]) -> Result<(), AllocError>
    ensures value { OnOk result (Puts into.old.items into.new.items (arms_items margin false (arms_seen arms.now))) }
{
    for (i, arm) in arms.iter().enumerate() {
        put_else(into, i > 0)?;
        put_arm(into, margin, &arm.test, arm.body.as_slice())?;
    }
    Ok(())
}

/// Adds an arm of an `if`.
#[cycle(statements)]
fn put_arm(into: &mut Vec<u8>, margin: usize, test: &Expr, body: &[Stmt]) -> Result<(), AllocError>
    ensures value { OnOk result (Puts into.old.items into.new.items (arm_items margin (expr_of test.now) (stmts body.now))) }
{
    put_tested(into, Keyword::If, test)?;
    put_body(into, margin, body)
}

/// Adds what follows the arms of an `if`.
#[cycle(statements)]
fn put_other(into: &mut Vec<u8>, margin: usize, other: &Option<Vec<Stmt>>) -> Result<(), AllocError>
    ensures value { OnOk result (Puts into.old.items into.new.items (else_items margin (else_seen other.now))) }
{
    match other {
        None => put_end(into),
        Some(body) => {
            put_space(into)?;
            put_key(into, Keyword::Else)?;
            put_whole_body(into, margin, body.as_slice())
        }
    }
}
