//! The tokens of a text.
#![tactic(auto)]

ghost use Rattle.std.specs.Prelude.{◌≡◌, ℕ, ◌+◌, ◌^◌, ◌<◌, ◌≤◌, ◌++◌, ◌∷◌, [], ◌==◌, length, IfErr, IfOk, OnOk, vec_len, count_by};
ghost use Rattle.std.specs.Str.{encode_utf8_all, chars};
ghost use Rattle.std.specs.Char.{len_utf8};
ghost use Rattle.java_lex.specs.Lexing.{lexed, moved, past, fault_at, start, width, byte_place, GivesTokens, tokens_of};
ghost use Rattle.java_lex.specs.Piece.{piece_at, reach};
ghost use Rattle.java_lex.specs.declared.LexFault.TheVariants.{Memory};

use crate::scan::{FaultKind, Piece, first_piece};
use crate::{LexFault, Place, Token};
use std::alloc::Global;

/// The fault at its place.
fn fault_at(kind: FaultKind, place: Place) -> LexFault
    ensures { result ≡ fault_at kind place }
{
    match kind {
        FaultKind::BadByte => LexFault::BadByte(place),
        FaultKind::OpenComment => LexFault::OpenComment(place),
        FaultKind::OpenString => LexFault::OpenString(place),
        FaultKind::BigLiteral => LexFault::BigLiteral(place),
    }
}

/// The place behind the character.
fn past(place: Place, c: char) -> Place
    requires at { place.at + len_utf8 c < 2 ^ 32 }
    requires line { place.line < 4294967295 }
    ensures { result ≡ past place c }
{
    Place {
        at: place.at + c.len_utf8() as u32,
        line: if c == '\n' {
            place.line + 1
        } else {
            place.line
        },
    }
}

/// The place behind the characters.
#[tactic(auto, using(crate::proofs::Reading::moved_step, crate::proofs::Reading::width_step))]
fn moved(place: Place, chars: &[char]) -> Place
    requires fits { place.at + width chars.now < 4294967295 }
    requires line { place.line ≤ place.at + 1 }
    ensures value { result ≡ moved place chars.now }
    ensures at { result.at ≡ place.at + width chars.now }
    ensures line { result.line ≤ result.at + 1 }
{
    let mut now = place;
    for c in chars {
        now = past(now, *c);
    }
    now
}

/// The tokens of the characters.
fn read(alloc: Global, chars: &[char]) -> Result<Vec<Token>, LexFault>
    requires { width chars.now < 4294967295 }
    ensures { GivesTokens result (lexed chars.now 0 start) }
{
    let mut tokens = Vec::new(alloc);
    let mut rest = chars;
    let mut place = Place { at: 0, line: 1 };
    while !rest.is_empty() {
        match next(alloc, rest)? {
            Piece::Gap(n) => {
                place = moved(place, &rest[..n + 1]);
                rest = &rest[n + 1..];
            }
            Piece::Part(kind, n) => {
                add(&mut tokens, Token { kind, place })?;
                place = moved(place, &rest[..n + 1]);
                rest = &rest[n + 1..];
            }
            Piece::Fault(kind, n) => {
                return Err(fault_at(kind, moved(place, &rest[..n])));
            }
        }
    }
    Ok(tokens)
}

/// One token more.
fn add(tokens: &mut Vec<Token>, token: Token) -> Result<(), LexFault>
    ensures added { OnOk result (tokens.new.items ≡ tokens.old.items ++ token ∷ []) }
    ensures memory { IfErr result (λ fault. fault ≡ Memory) }
{
    match tokens.push(token) {
        Ok(()) => Ok(()),
        Err(_) => Err(LexFault::Memory),
    }
}

/// What the characters begin with.
fn next(alloc: Global, rest: &[char]) -> Result<Piece, LexFault>
    requires { 0 < length rest.now }
    ensures value { IfOk result (λ p. p ≡ piece_at rest.now) }
    ensures within { IfOk result (λ p. reach p < length rest.now) }
    ensures memory { IfErr result (λ fault. fault ≡ Memory) }
{
    match rest {
        [first, more @ ..] => match first_piece(alloc, *first, more, rest) {
            Ok(piece) => Ok(piece),
            Err(_) => Err(LexFault::Memory),
        },
        [] => Ok(Piece::Gap(0)),
    }
}

/// The place of the byte that `n` bytes stand before.
fn byte_place(bytes: &[u8], n: usize) -> Place
    requires small { length bytes.now < 4294967295 }
    requires within { n ≤ length bytes.now }
    ensures { result ≡ byte_place bytes.now n }
{
    let lines = bytes[..n].iter().filter(|b| **b == 10).count();
    Place {
        at: n as u32,
        line: 1 + lines as u32,
    }
}

/// The tokens of the bytes.
pub fn lex(alloc: Global, bytes: &Vec<u8>) -> Result<Vec<Token>, LexFault>
    requires small { vec_len bytes.now < 4294967295 }
    ensures value { GivesTokens result (tokens_of bytes.now.items) }
{
    match str::from_utf8(bytes.as_slice()) {
        Ok(text) => lex_text(alloc, text),
        Err(error) => Err(LexFault::BadByte(byte_place(bytes.as_slice(), error.valid_up_to()))),
    }
}

/// The tokens of the text.
fn lex_text(alloc: Global, text: &str) -> Result<Vec<Token>, LexFault>
    requires { length text.now < 4294967295 }
    ensures { GivesTokens result (lexed (chars text.now) 0 start) }
{
    let chars = decoded(alloc, text)?;
    read(alloc, chars.as_slice())
}

/// The characters of the text.
fn decoded(alloc: Global, text: &str) -> Result<Vec<char>, LexFault>
    ensures value { IfOk result (λ v. v.items ≡ chars text.now) }
    ensures memory { IfErr result (λ fault. fault ≡ Memory) }
{
    match text.chars().collect(alloc) {
        Ok(chars) => Ok(chars),
        Err(_) => Err(LexFault::Memory),
    }
}
