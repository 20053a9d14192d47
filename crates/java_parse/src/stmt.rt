//! Statements.
#![tactic(auto, using(crate::proofs::StatementSteps::statement_steps))]

ghost use Rattle.std.specs.Prelude.{◌≡◌, ◌+◌, ◌^◌, ◌<◌, ◌≤◌, length, IfOk, List};
ghost use Rattle.std.specs.declared.vec.Vec.{Vec};
ghost use Rattle.std.specs.declared.alloc.Global.{Global};
ghost use Rattle.java_lex.specs.declared.Token.{Token};
ghost use Rattle.java_lex.specs.declared.Mark.TheVariants as marks;
ghost use Rattle.java_tree.specs.declared.Stmt.{Stmt};
ghost use Rattle.java_tree.specs.Syntax.{expr_of, stmt_of, stmts, value_of, step_seen, no_statements, no_arms};
ghost use Rattle.java_tree.specs.Nesting.{next_is};
ghost use Rattle.java_tree.specs.Statements.{is_word};
ghost use Rattle.java_tree.specs.Tokens.{first_place};
ghost use Rattle.java_parse.specs.Front.{done, stepped};
ghost use Rattle.java_parse.specs.Want.{NInit, NLocal, NValue, NAct, NActRest, NTested, NItem, NItems, NStmt, NForHead, NFirst, NStep, NBranches};
ghost use Rattle.java_parse.specs.Reading.{Reads};
ghost use Rattle.java_parse.specs.Seen.{before, seen, seen_branches, seen_steps};

use crate::acts::{calls, compound_assignment, finished, steps_of, targets};
use crate::expr::{expr, post, type_at};
use crate::front::{final_at, key_at, mark_at, word_at};
use crate::opening::{Begin, begin_of, begins_local, compound_at, named_by, stepping_at};
use crate::parts::{ForHead, arm_of, body_of, for_of, while_of};
use crate::{End, Stop};
use java_lex::{Mark, Token};
use java_tree::build::{block, choice};
use java_tree::{Arm, Expr, Stmt, build};
use kaba_base::{Keyword, made};
use std::alloc::Global;
use std::mem::drop;

// The statement, where a semicolon is next.
fn ended<'a>(whole: Stmt, tokens: &'a [Token]) -> Result<(Stmt, &'a [Token]), Stop<'a>>
    ensures value { seen stmt_of result ≡ before marks.Semi (stmt_of whole) tokens.now }
    ensures shorter { IfOk result (λ x. length x.1.now < length tokens.now) }
{
    match mark_at(Mark::Semi, tokens) {
        Some((_, rest)) => Ok((whole, rest)),
        None => {
            drop(whole);
            Err(Stop::At(tokens))
        }
    }
}

// The value behind an `=`, if that is next.
fn init(alloc: Global, tokens: &[Token]) -> Result<(Option<Expr>, &[Token]), Stop<'_>>
    requires room { length tokens.now < 2 ^ 32 }
    ensures reads { Reads NInit tokens.now (seen value_of result) }
    ensures shorter { IfOk result (λ x. length x.1.now ≤ length tokens.now) }
{
    let Some((_, inner)) = mark_at(Mark::Assign, tokens) else {
        return Ok((None, tokens));
    };
    some!(expr(alloc, 1, inner))
}

// The declaration of a local, without its semicolon.
fn local(alloc: Global, tokens: &[Token]) -> Result<(Stmt, &[Token]), Stop<'_>>
    requires room { length tokens.now < 2 ^ 32 }
    ensures reads { Reads NLocal tokens.now (seen stmt_of result) }
    ensures shorter { IfOk result (λ x. length x.1.now < length tokens.now) }
{
    let (is_final, rest) = final_at(tokens);
    let (ty, rest) = type_at(alloc, rest)?;
    found!((found, place, behind) = word_at(rest), rest; ty);
    let (value, rest) = match init(alloc, behind) {
        Ok(read) => read,
        Err(stop) => {
            drop(ty);
            return Err(stop);
        }
    };
    let Ok(name) = found.copy(alloc) else {
        drop(ty);
        drop(value);
        return Err(Stop::Memory);
    };
    Ok((build::local(is_final, ty, name, value, place), rest))
}

// An expression, if no semicolon is next.
fn value(alloc: Global, tokens: &[Token]) -> Result<(Option<Expr>, &[Token]), Stop<'_>>
    requires room { length tokens.now < 2 ^ 32 }
    ensures reads { Reads NValue tokens.now (seen value_of result) }
    ensures shorter { IfOk result (λ x. length x.1.now ≤ length tokens.now) }
{
    unless!(Mark::Semi, tokens, expr(alloc, 1, tokens))
}

// What may stand before a semicolon, or steps a `for`.
fn act(alloc: Global, tokens: &[Token]) -> Result<(Stmt, &[Token]), Stop<'_>>
    requires room { length tokens.now < 2 ^ 32 }
    ensures reads { Reads NAct tokens.now (seen stmt_of result) }
    ensures shorter { IfOk result (λ x. length x.1.now < length tokens.now) }
{
    if let Some((operator, at, inner)) = stepping_at(tokens) {
        found!((found, place, rest) = word_at(inner), inner);
        let whole = steps_of(alloc, operator, found, place, at)?;
        return Ok((whole, rest));
    }
    let ((first, end), rest) = post(alloc, tokens)?;
    act_rest(alloc, tokens, first, end, rest)
}

// What follows the expression that an act begins with; `start` are the tokens from its first on.
fn act_rest<'a>(
    alloc: Global,
    start: &[Token],
    first: Expr,
    end: End,
    tokens: &'a [Token],
) -> Result<(Stmt, &'a [Token]), Stop<'a>>
    requires room { length tokens.now < 2 ^ 32 }
    ensures reads { Reads (NActRest (next_is is_word start.now) (first_place start.now) (expr_of first) end) tokens.now (seen stmt_of result) }
    ensures shorter { IfOk result (λ x. length x.1.now ≤ length tokens.now) }
{
    if let Some((place, inner)) = mark_at(Mark::Assign, tokens) {
        if !targets(end) {
            drop(first);
            return Err(Stop::At(tokens));
        }
        let (value, rest) = made!(expr(alloc, 1, inner); first);
        return Ok((
            Stmt::Assign {
                target: first,
                value,
                place,
            },
            rest,
        ));
    }
    if let Some((operator, at, inner)) = compound_at(tokens) {
        found!((found, place) = named_by(end, &first), tokens; first);
        let (value, rest) = made!(expr(alloc, 1, inner); first);
        let made = compound_assignment(alloc, operator, found, place, value, at);
        drop(first);
        let whole = made?;
        return Ok((whole, rest));
    }
    if let Some((operator, at, rest)) = stepping_at(tokens) {
        found!((found, place) = named_by(end, &first), tokens; first);
        let made = steps_of(alloc, operator, found, place, at);
        drop(first);
        let whole = made?;
        return Ok((whole, rest));
    }
    if !calls(end) {
        drop(first);
        return Err(Stop::At(tokens));
    }
    Ok((finished(start, first), tokens))
}

// A test in round brackets.
fn tested(alloc: Global, tokens: &[Token]) -> Result<(Expr, &[Token]), Stop<'_>>
    requires room { length tokens.now < 2 ^ 32 }
    ensures reads { Reads NTested tokens.now (seen expr_of result) }
    ensures shorter { IfOk result (λ x. length x.1.now < length tokens.now) }
{
    found!((_, inner) = mark_at(Mark::OpenRound, tokens), tokens);
    let (test, behind) = expr(alloc, 1, inner)?;
    found!((_, rest) = mark_at(Mark::CloseRound, behind), behind; test);
    Ok((test, rest))
}

// What a `for` begins with, if no semicolon is next.
fn first_step(alloc: Global, tokens: &[Token]) -> Result<(Option<Stmt>, &[Token]), Stop<'_>>
    requires room { length tokens.now < 2 ^ 32 }
    ensures reads { Reads NFirst tokens.now (seen step_seen result) }
    ensures shorter { IfOk result (λ x. length x.1.now ≤ length tokens.now) }
{
    if let Some(_) = mark_at(Mark::Semi, tokens) {
        return Ok((None, tokens));
    }
    if begins_local(tokens) {
        return some!(local(alloc, tokens));
    }
    some!(act(alloc, tokens))
}

// What a `for` goes on with, if no closing bracket is next.
fn next_step(alloc: Global, tokens: &[Token]) -> Result<(Option<Stmt>, &[Token]), Stop<'_>>
    requires room { length tokens.now < 2 ^ 32 }
    ensures reads { Reads NStep tokens.now (seen step_seen result) }
    ensures shorter { IfOk result (λ x. length x.1.now ≤ length tokens.now) }
{
    unless!(Mark::CloseRound, tokens, act(alloc, tokens))
}

// What stands in the round brackets of a `for`.
fn for_head(alloc: Global, tokens: &[Token]) -> Result<(ForHead, &[Token]), Stop<'_>>
    requires room { length tokens.now < 2 ^ 32 }
    ensures reads { Reads NForHead tokens.now (seen seen_steps result) }
    ensures shorter { IfOk result (λ x. length x.1.now < length tokens.now) }
{
    found!((_, inner) = mark_at(Mark::OpenRound, tokens), tokens);
    let (first, rest) = first_step(alloc, inner)?;
    found!((_, middle) = mark_at(Mark::Semi, rest), rest; first);
    let (test, rest) = made!(value(alloc, middle); first);
    found!((_, last) = mark_at(Mark::Semi, rest), rest; first, test);
    let (step, rest) = made!(next_step(alloc, last); first, test);
    found!((_, end) = mark_at(Mark::CloseRound, rest), rest; first, test, step);
    Ok((ForHead { first, test, step }, end))
}

#[cycle(stmts)]
fn item(alloc: Global, tokens: &[Token]) -> Result<(Stmt, &[Token]), Stop<'_>>
    requires room { length tokens.now < 2 ^ 32 }
    ensures reads { Reads NItem tokens.now (seen stmt_of result) }
    ensures shorter { IfOk result (λ x. length x.1.now < length tokens.now) }
{
    if !begins_local(tokens) {
        return stmt(alloc, tokens);
    }
    let (whole, rest) = local(alloc, tokens)?;
    ended(whole, rest)
}

/// The items behind an opening brace, and what follows the closing one.
#[cycle(stmts)]
pub fn items(alloc: Global, tokens: &[Token]) -> Result<(Vec<Stmt>, &[Token]), Stop<'_>>
    requires room { length tokens.now < 2 ^ 32 }
    ensures reads { Reads (NItems no_statements) tokens.now (seen (λ (v : Vec Stmt Global). stmts v.items) result) }
    ensures shorter { IfOk result (λ x. length x.1.now < length tokens.now) }
{
    in_braces!(alloc, tokens, item)
}

#[cycle(stmts)]
fn stmt(alloc: Global, tokens: &[Token]) -> Result<(Stmt, &[Token]), Stop<'_>>
    requires room { length tokens.now < 2 ^ 32 }
    ensures reads { Reads NStmt tokens.now (seen stmt_of result) }
    ensures shorter { IfOk result (λ x. length x.1.now < length tokens.now) }
{
    match begin_of(tokens) {
        Begin::Block(place, inner) => {
            let (all, rest) = items(alloc, inner)?;
            Ok((block(all, place), rest))
        }
        Begin::Empty(place, rest) => Ok((block(Vec::new(alloc), place), rest)),
        Begin::If(place, inner) => {
            let ((arms, other), rest) = branches(alloc, inner)?;
            Ok((choice(arms, other, place), rest))
        }
        Begin::While(place, inner) => {
            let (test, behind) = tested(alloc, inner)?;
            let (body, rest) = made!(stmt(alloc, behind); test);
            let whole = while_of(alloc, test, body, place)?;
            Ok((whole, rest))
        }
        Begin::For(place, inner) => {
            let (head, behind) = for_head(alloc, inner)?;
            let (body, rest) = made!(stmt(alloc, behind); head);
            let whole = for_of(alloc, head, body, place)?;
            Ok((whole, rest))
        }
        Begin::Return(place, inner) => {
            let (value, rest) = value(alloc, inner)?;
            ended(Stmt::Return { value, place }, rest)
        }
        Begin::Break(place, rest) => ended(Stmt::Break { place }, rest),
        Begin::Continue(place, rest) => ended(Stmt::Continue { place }, rest),
        Begin::Other => {
            let (whole, rest) = act(alloc, tokens)?;
            ended(whole, rest)
        }
    }
}

// What follows an `if`.
#[cycle(stmts)]
fn branches(
    alloc: Global,
    tokens: &[Token],
) -> Result<((Vec<Arm>, Option<Vec<Stmt>>), &[Token]), Stop<'_>>
    requires room { length tokens.now < 2 ^ 32 }
    ensures reads { Reads (NBranches no_arms) tokens.now (seen seen_branches result) }
    ensures shorter { IfOk result (λ x. length x.1.now < length tokens.now) }
{
    let mut arms = Vec::new(alloc);
    let mut rest = tokens;
    'arms: loop {
        let (test, behind) = tested(alloc, rest)?;
        let (whole, after) = match stmt(alloc, behind) {
            Ok(read) => read,
            Err(stop) => {
                drop(test);
                return Err(stop);
            }
        };
        let next = arm_of(alloc, test, whole)?;
        arms.push(next)?;
        let Some((_, more)) = key_at(Keyword::Else, after) else {
            return Ok(((arms, None), after));
        };
        let Some((_, again)) = key_at(Keyword::If, more) else {
            let (whole, end) = stmt(alloc, more)?;
            let other = body_of(alloc, whole)?;
            return Ok(((arms, Some(other)), end));
        };
        rest = again;
    }
}
