//! Declarations and programs.
#![tactic(auto, using(crate::proofs::DeclarationSteps::declaration_steps))]

ghost use Rattle.std.specs.Prelude.{◌≡◌, ◌+◌, ◌^◌, ◌<◌, ◌≤◌, length, IfOk, List, [], Option};
ghost use Rattle.std.specs.declared.vec.Vec.{Vec};
ghost use Rattle.std.specs.declared.alloc.Global.{Global};
ghost use Rattle.java_lex.specs.declared.Token.{Token};
ghost use Rattle.java_tree.specs.declared.Id.{Id};
ghost use Rattle.java_tree.specs.declared.Modifier.{Modifier};
ghost use Rattle.java_tree.specs.declared.TypeName.{TypeName};
ghost use Rattle.java_tree.specs.declared.Param.{Param};
ghost use Rattle.java_tree.specs.declared.Head.{Head};
ghost use Rattle.java_tree.specs.declared.Member.{Member};
ghost use Rattle.java_tree.specs.declared.Decl.{Decl};
ghost use Rattle.java_tree.specs.Syntax.{body_seen, head_of, heads, member_of, members, decl_of, decls};
ghost use Rattle.java_parse.specs.Want.{NMods, NIds, NParent, NList, NParam, NParams, NResult, NHead, NBody, NMember, NTyped, NMethod, NMaker, NMakerBody, NMembers, NHeads, NClass, NInterface, NDecl, NDecls};
ghost use Rattle.java_parse.specs.Reading.{Reads};
ghost use Rattle.java_parse.specs.Seen.{seen, seen_maker_body};

use crate::Stop;
use crate::expr::{args, type_at};
use crate::front::{final_at, key_at, maker_at, mark_at, modifier_at, up_at, word_at};
use crate::stmt::items;
use java_lex::{Mark, Token};
use java_tree::{Decl, Expr, Head, Id, Member, Modifier, Param, Stmt, TypeName};
use kaba_base::{Keyword, Name, Place, made};
use std::alloc::Global;
use std::mem::drop;

// The modifiers at the front.
fn modifiers(alloc: Global, tokens: &[Token]) -> Result<(Vec<Modifier>, &[Token]), Stop<'_>>
    ensures reads { Reads (NMods []) tokens.now (seen (λ (v : Vec Modifier Global). v.items) result) }
    ensures shorter { IfOk result (λ x. length x.1.now ≤ length tokens.now) }
{
    let mut all = Vec::new(alloc);
    let mut rest = tokens;
    'more: loop {
        let Some((next, after)) = modifier_at(rest) else {
            return Ok((all, rest));
        };
        all.push(next)?;
        rest = after;
    }
}

// The names at the front, with commas between them.
fn names(alloc: Global, tokens: &[Token]) -> Result<(Vec<Id>, &[Token]), Stop<'_>>
    ensures reads { Reads (NIds []) tokens.now (seen (λ (v : Vec Id Global). v.items) result) }
    ensures shorter { IfOk result (λ x. length x.1.now < length tokens.now) }
{
    let mut all = Vec::new(alloc);
    let mut rest = tokens;
    'more: loop {
        found!((found, place, behind) = word_at(rest), rest);
        let name = found.copy(alloc)?;
        all.push(Id { name, place })?;
        let Some((_, after)) = mark_at(Mark::Comma, behind) else {
            return Ok((all, behind));
        };
        rest = after;
    }
}

// The superclass, if there is one.
fn parent(alloc: Global, tokens: &[Token]) -> Result<(Option<Id>, &[Token]), Stop<'_>>
    ensures reads { Reads NParent tokens.now (seen (λ (o : Option Id). o) result) }
    ensures shorter { IfOk result (λ x. length x.1.now ≤ length tokens.now) }
{
    let Some((_, inner)) = key_at(Keyword::Extends, tokens) else {
        return Ok((None, tokens));
    };
    found!((found, place, rest) = word_at(inner), inner);
    let name = found.copy(alloc)?;
    Ok((Some(Id { name, place }), rest))
}

// The names behind a keyword, if that is next.
fn listed(alloc: Global, word: Keyword, tokens: &[Token]) -> Result<(Vec<Id>, &[Token]), Stop<'_>>
    ensures reads { Reads (NList word) tokens.now (seen (λ (v : Vec Id Global). v.items) result) }
    ensures shorter { IfOk result (λ x. length x.1.now ≤ length tokens.now) }
{
    let Some((_, inner)) = key_at(word, tokens) else {
        return Ok((Vec::new(alloc), tokens));
    };
    names(alloc, inner)
}

fn param(alloc: Global, tokens: &[Token]) -> Result<(Param, &[Token]), Stop<'_>>
    requires room { length tokens.now < 2 ^ 32 }
    ensures reads { Reads NParam tokens.now (seen (λ (q : Param). q) result) }
    ensures shorter { IfOk result (λ x. length x.1.now < length tokens.now) }
{
    let (is_final, rest) = final_at(tokens);
    let (ty, rest) = type_at(alloc, rest)?;
    found!((found, place, behind) = word_at(rest), rest; ty);
    copied!(name = found.copy(alloc); ty);
    Ok((
        Param {
            is_final,
            ty,
            name,
            place,
        },
        behind,
    ))
}

// The parameters behind an opening bracket, and what follows the closing one.
fn params(alloc: Global, tokens: &[Token]) -> Result<(Vec<Param>, &[Token]), Stop<'_>>
    requires room { length tokens.now < 2 ^ 32 }
    ensures reads { Reads NParams tokens.now (seen (λ (v : Vec Param Global). v.items) result) }
    ensures shorter { IfOk result (λ x. length x.1.now < length tokens.now) }
{
    in_round!(alloc, tokens, param)
}

// The type of a method's result; `void` is none.
fn result_type(alloc: Global, tokens: &[Token]) -> Result<(Option<TypeName>, &[Token]), Stop<'_>>
    requires room { length tokens.now < 2 ^ 32 }
    ensures reads { Reads NResult tokens.now (seen (λ (o : Option TypeName). o) result) }
    ensures shorter { IfOk result (λ x. length x.1.now < length tokens.now) }
{
    match key_at(Keyword::Void, tokens) {
        Some((_, rest)) => Ok((None, rest)),
        None => some!(type_at(alloc, tokens)),
    }
}

// A method up to its body.
fn head(alloc: Global, tokens: &[Token]) -> Result<(Head, &[Token]), Stop<'_>>
    requires room { length tokens.now < 2 ^ 32 }
    ensures reads { Reads NHead tokens.now (seen head_of result) }
    ensures shorter { IfOk result (λ x. length x.1.now < length tokens.now) }
{
    let (mods, rest) = modifiers(alloc, tokens)?;
    begun!((ty, found, place, behind) = alloc, rest);
    found!((_, inner) = mark_at(Mark::OpenRound, behind), behind; ty);
    let (params, rest) = made!(params(alloc, inner); ty);
    copied!(name = found.copy(alloc); ty);
    Ok((
        Head {
            mods,
            result: ty,
            name,
            params,
            place,
        },
        rest,
    ))
}

// A method's body; a semicolon is none.
fn body(alloc: Global, tokens: &[Token]) -> Result<(Option<Vec<Stmt>>, &[Token]), Stop<'_>>
    requires room { length tokens.now < 2 ^ 32 }
    ensures reads { Reads NBody tokens.now (seen body_seen result) }
    ensures shorter { IfOk result (λ x. length x.1.now < length tokens.now) }
{
    if let Some((_, rest)) = mark_at(Mark::Semi, tokens) {
        return Ok((None, rest));
    }
    found!((_, inner) = mark_at(Mark::OpenBrace, tokens), tokens);
    some!(items(alloc, inner))
}

fn member(alloc: Global, tokens: &[Token]) -> Result<(Member, &[Token]), Stop<'_>>
    requires room { length tokens.now < 2 ^ 32 }
    ensures reads { Reads NMember tokens.now (seen member_of result) }
    ensures shorter { IfOk result (λ x. length x.1.now < length tokens.now) }
{
    let (mods, rest) = modifiers(alloc, tokens)?;
    if let Some((found, place, inner)) = maker_at(rest) {
        let name = found.copy(alloc)?;
        return maker(alloc, mods, name, place, inner);
    }
    typed(alloc, mods, rest)
}

// A field or a method behind its modifiers.
fn typed(
    alloc: Global,
    mods: Vec<Modifier>,
    tokens: &[Token],
) -> Result<(Member, &[Token]), Stop<'_>>
    requires room { length tokens.now < 2 ^ 32 }
    ensures reads { Reads (NTyped mods.items) tokens.now (seen member_of result) }
    ensures shorter { IfOk result (λ x. length x.1.now < length tokens.now) }
{
    begun!((ty, found, place, behind) = alloc, tokens);
    copied!(name = found.copy(alloc); ty);
    if let Some((_, inner)) = mark_at(Mark::OpenRound, behind) {
        return method(alloc, mods, ty, name, place, inner);
    }
    let Some(ty) = ty else {
        return Err(Stop::At(behind));
    };
    found!((_, end) = mark_at(Mark::Semi, behind), behind; ty);
    Ok((
        Member::Field {
            mods,
            ty,
            name,
            place,
        },
        end,
    ))
}

// The parameters and the body of a method.
fn method(
    alloc: Global,
    mods: Vec<Modifier>,
    ty: Option<TypeName>,
    name: Name,
    place: Place,
    tokens: &[Token],
) -> Result<(Member, &[Token]), Stop<'_>>
    requires room { length tokens.now < 2 ^ 32 }
    ensures reads { Reads (NMethod mods.items ty name place) tokens.now (seen member_of result) }
    ensures shorter { IfOk result (λ x. length x.1.now < length tokens.now) }
{
    let (params, rest) = made!(params(alloc, tokens); ty);
    let (body, rest) = made!(body(alloc, rest); ty);
    let head = Head {
        mods,
        result: ty,
        name,
        params,
        place,
    };
    Ok((Member::Method { head, body, place }, rest))
}

// The parameters and the body of a constructor.
fn maker(
    alloc: Global,
    mods: Vec<Modifier>,
    name: Name,
    place: Place,
    tokens: &[Token],
) -> Result<(Member, &[Token]), Stop<'_>>
    requires room { length tokens.now < 2 ^ 32 }
    ensures reads { Reads (NMaker mods.items name place) tokens.now (seen member_of result) }
    ensures shorter { IfOk result (λ x. length x.1.now < length tokens.now) }
{
    let (params, rest) = params(alloc, tokens)?;
    found!((_, inner) = mark_at(Mark::OpenBrace, rest), rest);
    let ((up, body), end) = maker_body(alloc, inner)?;
    Ok((
        Member::Maker {
            mods,
            name,
            params,
            up,
            body,
            place,
        },
        end,
    ))
}

// The body of a constructor behind its opening brace, and what follows the closing one: the arguments
// of `super`, where that stands first with a bracket behind it, and the statements.
fn maker_body(
    alloc: Global,
    tokens: &[Token],
) -> Result<((Option<Vec<Expr>>, Vec<Stmt>), &[Token]), Stop<'_>>
    requires room { length tokens.now < 2 ^ 32 }
    ensures reads { Reads NMakerBody tokens.now (seen seen_maker_body result) }
    ensures shorter { IfOk result (λ x. length x.1.now < length tokens.now) }
{
    let Some((_, inner)) = up_at(tokens) else {
        let (body, end) = items(alloc, tokens)?;
        return Ok(((None, body), end));
    };
    let (args, rest) = args(alloc, inner)?;
    found!((_, after) = mark_at(Mark::Semi, rest), rest);
    let (body, end) = items(alloc, after)?;
    Ok(((Some(args), body), end))
}

// The members behind an opening brace, and what follows the closing one.
fn all_members(alloc: Global, tokens: &[Token]) -> Result<(Vec<Member>, &[Token]), Stop<'_>>
    requires room { length tokens.now < 2 ^ 32 }
    ensures reads { Reads (NMembers []) tokens.now (seen (λ (v : Vec Member Global). members v.items) result) }
    ensures shorter { IfOk result (λ x. length x.1.now < length tokens.now) }
{
    in_braces!(alloc, tokens, member)
}

// The heads behind an opening brace, and what follows the closing one.
fn all_heads(alloc: Global, tokens: &[Token]) -> Result<(Vec<Head>, &[Token]), Stop<'_>>
    requires room { length tokens.now < 2 ^ 32 }
    ensures reads { Reads (NHeads []) tokens.now (seen (λ (v : Vec Head Global). heads v.items) result) }
    ensures shorter { IfOk result (λ x. length x.1.now < length tokens.now) }
{
    let mut all = Vec::new(alloc);
    let mut rest = tokens;
    'more: loop {
        if let Some((_, end)) = mark_at(Mark::CloseBrace, rest) {
            return Ok((all, end));
        }
        let (next, behind) = head(alloc, rest)?;
        found!((_, after) = mark_at(Mark::Semi, behind), behind; next);
        all.push(next)?;
        rest = after;
    }
}

// What follows `class`.
fn class(alloc: Global, mods: Vec<Modifier>, tokens: &[Token]) -> Result<(Decl, &[Token]), Stop<'_>>
    requires room { length tokens.now < 2 ^ 32 }
    ensures reads { Reads (NClass mods.items) tokens.now (seen decl_of result) }
    ensures shorter { IfOk result (λ x. length x.1.now < length tokens.now) }
{
    found!((found, place, behind) = word_at(tokens), tokens);
    let name = found.copy(alloc)?;
    let (parent, rest) = parent(alloc, behind)?;
    let (faces, rest) = made!(listed(alloc, Keyword::Implements, rest); parent);
    found!((_, inner) = mark_at(Mark::OpenBrace, rest), rest; parent);
    let (members, rest) = made!(all_members(alloc, inner); parent);
    Ok((
        Decl::Class {
            mods,
            name,
            parent,
            faces,
            members,
            place,
        },
        rest,
    ))
}

// What follows `interface`.
fn interface(
    alloc: Global,
    mods: Vec<Modifier>,
    tokens: &[Token],
) -> Result<(Decl, &[Token]), Stop<'_>>
    requires room { length tokens.now < 2 ^ 32 }
    ensures reads { Reads (NInterface mods.items) tokens.now (seen decl_of result) }
    ensures shorter { IfOk result (λ x. length x.1.now < length tokens.now) }
{
    found!((found, place, behind) = word_at(tokens), tokens);
    let name = found.copy(alloc)?;
    let (parents, rest) = listed(alloc, Keyword::Extends, behind)?;
    found!((_, inner) = mark_at(Mark::OpenBrace, rest), rest);
    let (heads, rest) = all_heads(alloc, inner)?;
    Ok((
        Decl::Interface {
            mods,
            name,
            parents,
            heads,
            place,
        },
        rest,
    ))
}

fn decl(alloc: Global, tokens: &[Token]) -> Result<(Decl, &[Token]), Stop<'_>>
    requires room { length tokens.now < 2 ^ 32 }
    ensures reads { Reads NDecl tokens.now (seen decl_of result) }
    ensures shorter { IfOk result (λ x. length x.1.now < length tokens.now) }
{
    let (mods, rest) = modifiers(alloc, tokens)?;
    if let Some((_, inner)) = key_at(Keyword::Class, rest) {
        return class(alloc, mods, inner);
    }
    found!((_, inner) = key_at(Keyword::Interface, rest), rest);
    interface(alloc, mods, inner)
}

/// All declarations, up to the end of the tokens.
pub fn all_decls(alloc: Global, tokens: &[Token]) -> Result<(Vec<Decl>, &[Token]), Stop<'_>>
    requires room { length tokens.now < 2 ^ 32 }
    ensures reads { Reads (NDecls []) tokens.now (seen (λ (v : Vec Decl Global). decls v.items) result) }
{
    let mut all = Vec::new(alloc);
    let mut rest = tokens;
    'more: loop {
        if rest.is_empty() {
            return Ok((all, rest));
        }
        let (next, after) = decl(alloc, rest)?;
        all.push(next)?;
        rest = after;
    }
}
