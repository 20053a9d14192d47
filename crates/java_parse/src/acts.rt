//! The statements that calls and steps are.
#![tactic(auto)]

ghost use Rattle.std.specs.Prelude.{◌≡◌, ◌↔◌, ◌<◌, ◌-◌, IfOk, IsSome, Bool, true, false, List, Option, Some, None, vec_len, slice_index_or};
ghost use Rattle.java_tree.specs.declared.Expr.{Expr};
ghost use Rattle.java_lex.specs.declared.Token.{Token};
ghost use Rattle.std.specs.Option.{option_map};
ghost use Rattle.java_tree.specs.Syntax.{Expression, AssignOf, BinaryOf, NameRef, expr_of, stmt_of, value_of};
ghost use Rattle.java_tree.specs.Statements.{printed_by, is_word};
ghost use Rattle.java_tree.specs.Nesting.{next_is};
ghost use Rattle.java_parse.specs.Prints.{print_kind};
ghost use Rattle.java_tree.specs.Tokens.{first_place};
ghost use Rattle.java_parse.specs.Front.{done, stepped, is_target, is_call};

use crate::End;
use crate::parts::name_of;
use java_lex::{Mark, Token, TokenKind};
use java_tree::build::binary;
use java_tree::{Expr, Stmt, is_text, output_call};
use kaba_base::{Name, Place, made};
use std::alloc::{AllocError, Global};
use std::mem::drop;

/// Whether what ends so may be assigned to.
pub fn targets(end: End) -> bool
    ensures value { result ≡ is_target end }
{
    match end {
        End::Name | End::Target => true,
        _ => false,
    }
}

/// Whether what ends so is a statement before a semicolon.
pub fn calls(end: End) -> bool
    ensures value { result ≡ is_call end }
{
    match end {
        End::Call | End::New => true,
        _ => false,
    }
}

/// The statement that a compound assignment is, at a name. `AllocError` where memory is short.
pub fn compound_assignment(
    alloc: Global,
    operator: Mark,
    found: &Name,
    place: Place,
    value: Expr,
    at: Place,
) -> Result<Stmt, AllocError>
    ensures value { IfOk result (λ s. stmt_of s ≡ AssignOf (NameRef found.now place) (BinaryOf operator (NameRef found.now place) (expr_of value) at) at) }
{
    let left = made!(name_of(alloc, found, place); value);
    let value = binary(alloc, operator, left, value, at)?;
    let target = made!(name_of(alloc, found, place); value);
    Ok(Stmt::Assign {
        target,
        value,
        place: at,
    })
}

/// The statement that `++` or `--` is, at a name. `AllocError` where memory is short.
pub fn steps_of(
    alloc: Global,
    operator: Mark,
    found: &Name,
    place: Place,
    at: Place,
) -> Result<Stmt, AllocError>
    ensures value { IfOk result (λ s. stmt_of s ≡ stepped operator found.now place at) }
{
    let one = Expr::Int {
        value: 1,
        place: at,
    };
    let whole = compound_assignment(alloc, operator, found, place, one, at)?;
    Ok(whole)
}

// Whether a call of this name with so many arguments ends the line that it prints.
fn prints_line(name: &Name, count: usize) -> Option<bool>
    ensures value { result ≡ print_kind name.now count }
{
    if count < 2 && is_text(name, "println") {
        return Some(true);
    }
    if count < 2 && count > 0 && is_text(name, "print") {
        return Some(false);
    }
    None
}

// Whether what a call prints ends the line, where it prints.
fn prints(call: &Expr) -> Option<bool>
    ensures value { result ≡ option_map (λ (x : Bool × Option Expression). x.0) (printed_by (expr_of call.now)) }
{
    match output_call(call) {
        Some((name, args)) => prints_line(name, args.len()),
        None => None,
    }
}

// The last expression of a list.
fn last_of(list: Vec<Expr>) -> Option<Expr>
    ensures last { (d : Expr) → 0 < vec_len list → result ≡ Some (slice_index_or list.items (vec_len list - 1) d) }
    ensures variant { IsSome result ↔ (0 < vec_len list) }
{
    let mut list = list;
    list.pop()
}

// The argument of a call that prints.
fn argument_of(call: Expr) -> Option<Expr>
    ensures value { (l : Bool) (v : Option Expression) → printed_by (expr_of call) ≡ Some (l, v) → value_of result ≡ v }
{
    match call {
        Expr::Call {
            base: _base,
            name: _name,
            args,
            ..
        } => last_of(args),
        other => {
            drop(other);
            None
        }
    }
}

// Whether a word is at the front.
fn begins_word(tokens: &[Token]) -> bool
    ensures value { result ≡ next_is is_word tokens.now }
{
    if let [first, ..] = tokens {
        return matches!(first.kind, TokenKind::Word(_));
    }
    false
}

// The place of the first token.
fn place_of(tokens: &[Token]) -> Place
    ensures value { result ≡ first_place tokens.now }
{
    if let [first, ..] = tokens {
        return first.place;
    }
    Place { at: 0, line: 0 }
}

/// The statement that a call is; `start` are the tokens from its first on.
pub fn finished(start: &[Token], call: Expr) -> Stmt
    ensures value { stmt_of result ≡ done (next_is is_word start.now) (first_place start.now) (expr_of call) }
{
    let place = place_of(start);
    if begins_word(start) {
        if let Some(newline) = prints(&call) {
            let value = argument_of(call);
            return Stmt::Print {
                newline,
                value,
                place,
            };
        }
    }
    Stmt::Do { call, place }
}
