//! Types and expressions.
#![tactic(auto, using(crate::proofs::ExpressionSteps::expression_steps))]

ghost use Rattle.std.specs.Prelude.{◌≡◌, ◌+◌, ◌^◌, ◌<◌, ◌≤◌, length, IfOk};
ghost use Rattle.std.specs.declared.vec.Vec.{Vec};
ghost use Rattle.std.specs.declared.alloc.Global.{Global};
ghost use Rattle.java_tree.specs.declared.Expr.{Expr};
ghost use Rattle.java_tree.specs.declared.TypeName.{TypeName};
ghost use Rattle.java_tree.specs.Syntax.{expr_of, exprs};
ghost use Rattle.java_parse.specs.Want.{NExpr, NMore, NPrefixed, NPost, NAtom, NSuper, NNew, NSized, NDims, NType, NTail, NArgs};
ghost use Rattle.java_parse.specs.Reading.{Reads};
ghost use Rattle.java_parse.specs.Seen.{base_seen, seen, seen_post};

use crate::front::{
    base_at, cast_at, cast_opened_at, index_at, instance_at, key_at, least_at, literal_at, mark_at,
    operator_at, sign_at, word_at,
};
use crate::parts::{
    Base, base_of, call_of, call_on_of, cast_of, field_of, instance_of_named, literal_of, name_of,
    new_array_of, new_object_of,
};
use crate::{End, Stop};
use java_lex::{Mark, Token};
use java_tree::build::{binary, index, unary};
use java_tree::{Expr, TypeName, level_of};
use kaba_base::{Keyword, Place, made};
use std::alloc::Global;
use std::mem::drop;

// The pairs of square brackets at the front, counted from `first` on.
#[tactic(auto, using(crate::proofs::ExpressionSteps::expression_steps))]
#[cycle(dims)]
fn dims(first: u32, tokens: &[Token]) -> Result<(u32, &[Token]), Stop<'_>>
    requires { first + length tokens.now < 2 ^ 32 }
    ensures reads { Reads (NDims first) tokens.now (seen (λ (d : _). d) result) }
    ensures shorter { IfOk result (λ x. length x.1.now ≤ length tokens.now) }
{
    let Some((_, inner)) = mark_at(Mark::OpenSquare, tokens) else {
        return Ok((first, tokens));
    };
    found!((_, rest) = mark_at(Mark::CloseSquare, inner), inner);
    dims(first + 1, rest)
}

/// The type at the front.
pub fn type_at(alloc: Global, tokens: &[Token]) -> Result<(TypeName, &[Token]), Stop<'_>>
    requires { length tokens.now < 2 ^ 32 }
    ensures reads { Reads NType tokens.now (seen (λ (t : TypeName). t) result) }
    ensures shorter { IfOk result (λ x. length x.1.now < length tokens.now) }
{
    found!((base, place, rest) = base_at(tokens), tokens);
    let (dim, rest) = dims(0, rest)?;
    let base = base_of(alloc, base)?;
    Ok((TypeName { base, dim, place }, rest))
}

/// The expression at the front whose operators bind at least so tightly.
#[cycle(reading)]
pub fn expr(alloc: Global, at_least: u32, tokens: &[Token]) -> Result<(Expr, &[Token]), Stop<'_>>
    requires level { at_least ≤ 11 }
    requires room { length tokens.now < 2 ^ 32 }
    ensures reads { Reads (NExpr at_least) tokens.now (seen expr_of result) }
    ensures shorter { IfOk result (λ x. length x.1.now < length tokens.now) }
{
    let (first, rest) = prefixed(alloc, tokens)?;
    more(alloc, at_least, 11, first, rest)
}

// What follows an expression whose operators bind at least so tightly: operators within these bounds.
#[cycle(reading)]
fn more(
    alloc: Global,
    at_least: u32,
    at_most: u32,
    left: Expr,
    tokens: &[Token],
) -> Result<(Expr, &[Token]), Stop<'_>>
    requires level { at_least ≤ 11 }
    requires room { length tokens.now < 2 ^ 32 }
    ensures reads { Reads (NMore at_least at_most (expr_of left)) tokens.now (seen expr_of result) }
    ensures shorter { IfOk result (λ x. length x.1.now ≤ length tokens.now) }
{
    if let Some((mark, place, rest)) = operator_at(at_least, at_most, tokens) {
        let level = level_of(mark);
        let (right, rest) = match expr(alloc, level + 1, rest) {
            Ok(read) => read,
            Err(stop) => {
                drop(left);
                return Err(stop);
            }
        };
        let whole = binary(alloc, mark, left, right, place)?;
        return more(alloc, at_least, level, whole, rest);
    }
    let Some((place, rest)) = instance_at(at_least, at_most, tokens) else {
        return Ok((left, tokens));
    };
    found!((found, at, rest) = word_at(rest), rest; left);
    let whole = instance_of_named(alloc, left, found, at, place)?;
    more(alloc, at_least, 7, whole, rest)
}

#[cycle(reading)]
fn prefixed(alloc: Global, tokens: &[Token]) -> Result<(Expr, &[Token]), Stop<'_>>
    requires room { length tokens.now < 2 ^ 32 }
    ensures reads { Reads NPrefixed tokens.now (seen expr_of result) }
    ensures shorter { IfOk result (λ x. length x.1.now < length tokens.now) }
{
    if let Some((place, rest)) = least_at(tokens) {
        return Ok((
            Expr::Int {
                value: i32::MIN,
                place,
            },
            rest,
        ));
    }
    if let Some((mark, place, rest)) = sign_at(tokens) {
        let (value, rest) = prefixed(alloc, rest)?;
        let whole = unary(alloc, mark, value, place)?;
        return Ok((whole, rest));
    }
    if let Some((base, at, place, behind)) = cast_opened_at(tokens) {
        found!((_, rest) = mark_at(Mark::CloseRound, behind), behind);
        let (value, rest) = prefixed(alloc, rest)?;
        let whole = cast_of(alloc, base, at, value, place)?;
        return Ok((whole, rest));
    }
    if let Some((base, at, place, rest)) = cast_at(tokens) {
        let (value, rest) = match prefixed(alloc, rest) {
            Ok(read) => read,
            Err(stop) => return Err(stop),
        };
        let whole = cast_of(alloc, base, at, value, place)?;
        return Ok((whole, rest));
    }
    let ((whole, _), rest) = post(alloc, tokens)?;
    Ok((whole, rest))
}

/// The expression without operators at the front, and how it ends.
#[cycle(reading)]
pub fn post(alloc: Global, tokens: &[Token]) -> Result<((Expr, End), &[Token]), Stop<'_>>
    requires room { length tokens.now < 2 ^ 32 }
    ensures reads { Reads NPost tokens.now (seen seen_post result) }
    ensures shorter { IfOk result (λ x. length x.1.now < length tokens.now) }
{
    let ((first, end), rest) = atom(alloc, tokens)?;
    tail(alloc, first, end, rest)
}

#[cycle(reading)]
fn atom(alloc: Global, tokens: &[Token]) -> Result<((Expr, End), &[Token]), Stop<'_>>
    requires room { length tokens.now < 2 ^ 32 }
    ensures reads { Reads NAtom tokens.now (seen seen_post result) }
    ensures shorter { IfOk result (λ x. length x.1.now < length tokens.now) }
{
    if let Some((literal, place, rest)) = literal_at(tokens) {
        let whole = literal_of(alloc, literal, place)?;
        return Ok(((whole, End::Other), rest));
    }
    if let Some((found, place, rest)) = word_at(tokens) {
        let Some((_, inner)) = mark_at(Mark::OpenRound, rest) else {
            let whole = name_of(alloc, found, place)?;
            return Ok(((whole, End::Name), rest));
        };
        let (args, rest) = args(alloc, inner)?;
        let whole = call_of(alloc, false, found, args, place)?;
        return Ok(((whole, End::Call), rest));
    }
    if let Some((_, inner)) = mark_at(Mark::OpenRound, tokens) {
        let (whole, behind) = expr(alloc, 1, inner)?;
        found!((_, rest) = mark_at(Mark::CloseRound, behind), behind; whole);
        return Ok(((whole, End::Other), rest));
    }
    if let Some((place, rest)) = key_at(Keyword::New, tokens) {
        return created(alloc, place, rest);
    }
    found!((_, rest) = key_at(Keyword::Super, tokens), tokens);
    above(alloc, rest)
}

// What follows `super`.
#[cycle(reading)]
fn above(alloc: Global, tokens: &[Token]) -> Result<((Expr, End), &[Token]), Stop<'_>>
    requires room { length tokens.now < 2 ^ 32 }
    ensures reads { Reads NSuper tokens.now (seen seen_post result) }
    ensures shorter { IfOk result (λ x. length x.1.now < length tokens.now) }
{
    found!((_, dotted) = mark_at(Mark::Dot, tokens), tokens);
    found!((found, place, behind) = word_at(dotted), dotted);
    found!((_, inner) = mark_at(Mark::OpenRound, behind), behind);
    let (args, rest) = args(alloc, inner)?;
    let whole = call_of(alloc, true, found, args, place)?;
    Ok(((whole, End::Call), rest))
}

// What follows `new`, which stands at this place.
#[cycle(reading)]
fn created(
    alloc: Global,
    place: Place,
    tokens: &[Token],
) -> Result<((Expr, End), &[Token]), Stop<'_>>
    requires room { length tokens.now < 2 ^ 32 }
    ensures reads { Reads (NNew place) tokens.now (seen seen_post result) }
    ensures shorter { IfOk result (λ x. length x.1.now < length tokens.now) }
{
    let Some((found, at, behind)) = word_at(tokens) else {
        found!((base, at, rest) = base_at(tokens), tokens);
        return sized(alloc, place, base, at, rest);
    };
    let Some((_, inner)) = mark_at(Mark::OpenRound, behind) else {
        return sized(alloc, place, Base::Named(found), at, behind);
    };
    let (args, rest) = args(alloc, inner)?;
    let whole = new_object_of(alloc, found, at, args, place)?;
    Ok(((whole, End::New), rest))
}

// The size and the further brackets of a new array.
#[cycle(reading)]
fn sized<'a>(
    alloc: Global,
    place: Place,
    base: Base<'_>,
    at: Place,
    tokens: &'a [Token],
) -> Result<((Expr, End), &'a [Token]), Stop<'a>>
    requires room { length tokens.now < 2 ^ 32 }
    ensures reads { Reads (NSized place (base_seen base.entry) at) tokens.now (seen seen_post result) }
    ensures shorter { IfOk result (λ x. length x.1.now < length tokens.now) }
{
    found!((_, inner) = mark_at(Mark::OpenSquare, tokens), tokens);
    let (size, behind) = expr(alloc, 1, inner)?;
    found!((_, rest) = mark_at(Mark::CloseSquare, behind), behind; size);
    let (dim, rest) = made!(dims(1, rest); size);
    let whole = new_array_of(alloc, base, at, dim, size, place)?;
    Ok(((whole, End::Array), rest))
}

// What follows an expression without operators: fields, calls and indices.
#[cycle(reading)]
fn tail(
    alloc: Global,
    base: Expr,
    end: End,
    tokens: &[Token],
) -> Result<((Expr, End), &[Token]), Stop<'_>>
    requires room { length tokens.now < 2 ^ 32 }
    ensures reads { Reads (NTail (expr_of base) end) tokens.now (seen seen_post result) }
    ensures shorter { IfOk result (λ x. length x.1.now ≤ length tokens.now) }
{
    if let Some((_, dotted)) = mark_at(Mark::Dot, tokens) {
        found!((found, place, behind) = word_at(dotted), dotted; base);
        let Some((_, inner)) = mark_at(Mark::OpenRound, behind) else {
            let whole = field_of(alloc, base, found, place)?;
            return tail(alloc, whole, End::Target, behind);
        };
        let (args, rest) = made!(args(alloc, inner); base);
        let whole = call_on_of(alloc, base, found, args, place)?;
        return tail(alloc, whole, End::Call, rest);
    }
    let Some((place, inner)) = index_at(end, tokens) else {
        return Ok(((base, end), tokens));
    };
    let (at, behind) = made!(expr(alloc, 1, inner); base);
    found!((_, rest) = mark_at(Mark::CloseSquare, behind), behind; base, at);
    let whole = index(alloc, base, at, place)?;
    tail(alloc, whole, End::Target, rest)
}

/// The arguments behind an opening bracket, and what follows the closing one.
#[cycle(reading)]
pub fn args(alloc: Global, tokens: &[Token]) -> Result<(Vec<Expr>, &[Token]), Stop<'_>>
    requires room { length tokens.now < 2 ^ 32 }
    ensures reads { Reads NArgs tokens.now (seen (λ (v : Vec Expr Global). exprs v.items) result) }
    ensures shorter { IfOk result (λ x. length x.1.now < length tokens.now) }
{
    in_round!(alloc, tokens, expr, 1)
}
