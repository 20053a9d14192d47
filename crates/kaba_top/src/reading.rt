//! From the bytes of a file to its typed program, or to the reply that it has none.
#![tactic(auto)]

ghost use Rattle.std.specs.Prelude.{◌≡◌, ◌≤◌, IfOk, length};
ghost use Rattle.kaba_top.specs.Words.{program_of, Says, most_bytes};
ghost use Rattle.java_tree.specs.Syntax.{tree_of};
ghost use Rattle.java_tree.specs.Formed.{IsFormedTree};
ghost use Rattle.java_core.specs.Formed.{IsFormed};
ghost use Rattle.kaba_top.specs.Reading.{refused, at_byte, at_token, on_name, on_what, lex_text, naming_text, typing_text, last_line, line_of, IsOfText, IsOfTree};
ghost use Rattle.kaba_top.specs.Readings.{IsProgramReading, IsReadingOfProgram, IsReadingOfTree};

use crate::Tried;
use crate::cause_words::{Cause, cause_text};
use crate::reply::Reply;
use java_check::{CheckFault, Kind, check};
use java_core::{Checked, Program};
use java_lex::{LexFault, Token, lex};
use java_parse::{ParseFault, parse};
use java_resolve::{Refusal, resolve};
use java_tree::Tree;
use kaba_base::{Name, Place};
use std::alloc::{AllocError, Global};

/// What a text is: a typed program, or one that is refused with this reply.
#[derive(Drop)]
pub enum Reading {
    Typed(Checked),
    Refused(Reply),
}

/// `KIND at BYTE line L`
fn at_byte(alloc: Global, kind: &str, place: Place) -> Tried<Reply>
    ensures { IfOk result (λ reply. Says 65 (refused (at_byte kind.now place)) reply.status reply.out.items reply.err.items) }
{
    let byte = place.at;
    let line = place.line;
    let text = format!(in alloc; "refused: {kind} at {byte} line {line}")?;
    Reply::line(alloc, 65, text.as_bytes())
}

/// `KIND at token K line L`
fn at_token(alloc: Global, kind: &str, token: u32, line: u32) -> Tried<Reply>
    ensures { IfOk result (λ reply. Says 65 (refused (at_token kind.now token line)) reply.status reply.out.items reply.err.items) }
{
    let text = format!(in alloc; "refused: {kind} at token {token} line {line}")?;
    Reply::line(alloc, 65, text.as_bytes())
}

/// `KIND NAME line L`
fn on_name(alloc: Global, kind: &str, name: &Name, place: Place) -> Tried<Reply>
    ensures { IfOk result (λ reply. Says 65 (refused (on_name kind.now name.now place)) reply.status reply.out.items reply.err.items) }
{
    let line = place.line;
    let text = name.as_str();
    let text = format!(in alloc; "refused: {kind} {text} line {line}")?;
    Reply::line(alloc, 65, text.as_bytes())
}

/// `KIND WHAT line L`
fn on_what(alloc: Global, kind: &str, what: &str, place: Place) -> Tried<Reply>
    ensures { IfOk result (λ reply. Says 65 (refused (on_what kind.now what.now place)) reply.status reply.out.items reply.err.items) }
{
    let line = place.line;
    let text = format!(in alloc; "refused: {kind} {what} line {line}")?;
    Reply::line(alloc, 65, text.as_bytes())
}

/// The reply to a text that has no tokens; `AllocError` where memory is short.
fn not_lexed(alloc: Global, fault: LexFault) -> Tried<Reply>
    ensures { IfOk result (λ reply. IsOfText fault × Says 65 (refused (lex_text fault)) reply.status reply.out.items reply.err.items) }
{
    match fault {
        LexFault::BadByte(place) => at_byte(alloc, "BadByte", place),
        LexFault::OpenComment(place) => at_byte(alloc, "OpenComment", place),
        LexFault::OpenString(place) => at_byte(alloc, "OpenString", place),
        LexFault::BigLiteral(place) => at_byte(alloc, "BigLiteral", place),
        LexFault::Memory => Err(AllocError),
    }
}

/// The line of the text's last byte, 1 where there is none.
fn last_line(bytes: &[u8]) -> u32
    requires small { length bytes.now ≤ most_bytes }
    ensures { result ≡ last_line bytes.now }
{
    let before = bytes.len().saturating_sub(1);
    1 + bytes[..before].iter().filter(|b| **b == 10).count() as u32
}

/// The line of the token, or of the text's last byte where tokens ended.
fn line_of(bytes: &Vec<u8>, token: u32, tokens: &Vec<Token>) -> u32
    requires small { length bytes.now.items ≤ most_bytes }
    ensures { result ≡ line_of bytes.now.items token tokens.now.items }
{
    match tokens.get(token as usize) {
        Some(token) => token.place.line,
        None => last_line(bytes.as_slice()),
    }
}

/// The reply to tokens that are no program.
fn not_parsed(
    alloc: Global,
    bytes: &Vec<u8>,
    tokens: &Vec<Token>,
    kind: &str,
    token: u32,
) -> Tried<Reply>
    requires small { length bytes.now.items ≤ most_bytes }
    ensures { IfOk result (λ reply. Says 65
        (refused (at_token kind.now token (line_of bytes.now.items token tokens.now.items))) reply.status
        reply.out.items reply.err.items) }
{
    at_token(alloc, kind, token, line_of(bytes, token, tokens))
}

/// The reply to a tree whose names are refused; `AllocError` where memory is short.
fn not_resolved(alloc: Global, refusal: &Refusal) -> Tried<Reply>
    ensures { IfOk result (λ reply. IsOfTree refusal.now × Says 65 (refused (naming_text refusal.now)) reply.status reply.out.items reply.err.items) }
{
    match refusal {
        Refusal::Unknown(name, place) => on_name(alloc, "Unknown", name, *place),
        Refusal::Twice(name, place) => on_name(alloc, "Twice", name, *place),
        Refusal::Loop(name, place) => on_name(alloc, "Loop", name, *place),
        Refusal::Overload(name, place) => on_name(alloc, "Overload", name, *place),
        Refusal::TwoKinds(name, place) => on_name(alloc, "TwoKinds", name, *place),
        Refusal::PrivateReused(name, place) => on_name(alloc, "PrivateReused", name, *place),
        Refusal::NoMain => Reply::line(alloc, 65, b"refused: NoMain"),
        Refusal::NotInProfile(form, place) => {
            on_what(
                alloc,
                "NotInProfile",
                cause_text(Cause::Form(*form)),
                *place,
            )
        }
        Refusal::Memory => Err(AllocError),
    }
}

/// The reply to a program that is not typed.
fn not_typed(alloc: Global, kind: Kind, place: Place) -> Tried<Reply>
    ensures { IfOk result (λ reply. Says 65 (refused (typing_text kind place)) reply.status reply.out.items reply.err.items) }
{
    on_what(alloc, "IllTyped", cause_text(Cause::Rule(kind)), place)
}

/// The program where it is typed, or the reply that it is not.
fn type_program(alloc: Global, program: Program) -> Tried<Reading>
    requires formed { IsFormed (program_of program) }
    ensures reading { IfOk result (λ reading. IsReadingOfProgram program reading) }
{
    match check(alloc, program) {
        Ok(checked) => Ok(Reading::Typed(checked)),
        Err(CheckFault::IllTyped(kind, place)) => {
            Ok(Reading::Refused(not_typed(alloc, kind, place)?))
        }
        Err(CheckFault::Memory) => Err(AllocError),
    }
}

/// The typed program of a tree, or the reply that there is none.
fn type_tree(alloc: Global, tree: &Tree) -> Tried<Reading>
    requires given { IsFormedTree (tree_of tree.now) }
    ensures reading { IfOk result (λ reading. IsReadingOfTree (tree_of tree.now) reading) }
{
    match resolve(alloc, tree) {
        Ok(program) => type_program(alloc, program),
        Err(refusal) => Ok(Reading::Refused(not_resolved(alloc, &refusal)?)),
    }
}

/// The typed program of the bytes of a file, or the reply that there is none.
pub fn read_program(alloc: Global, bytes: &Vec<u8>) -> Tried<Reading>
    requires small { length bytes.now.items ≤ most_bytes }
    ensures reading { IfOk result (λ reading. IsProgramReading bytes.now.items reading) }
{
    let tokens = match lex(alloc, bytes) {
        Ok(tokens) => tokens,
        Err(fault) => return Ok(Reading::Refused(not_lexed(alloc, fault)?)),
    };
    match parse(alloc, &tokens) {
        Ok(tree) => { type_tree(alloc, &tree) }
        Err(ParseFault::TooDeep(token)) => {
            let reply = not_parsed(alloc, bytes, &tokens, "TooDeep", token)?;
            Ok(Reading::Refused(reply))
        }
        Err(ParseFault::NotAProgram(token)) => {
            let reply = not_parsed(alloc, bytes, &tokens, "NotAProgram", token)?;
            Ok(Reading::Refused(reply))
        }
        Err(ParseFault::Memory) => Err(AllocError),
    }
}
