//! What a text begins with.
#![tactic(auto)]

ghost use Rattle.std.specs.Prelude.{◌≡◌, ◌+◌, ◌<◌, ◌≤◌, ◌++◌, ◌∷◌, length, IfOk, OnOk, IfSome, IsTrue, drop, ◌-◌};
ghost use Rattle.std.specs.List.{prefix_len};
ghost use Rattle.std.specs.Char.{is_ascii_digit};
ghost use Rattle.std.specs.Char.Escape.{encode_utf16};
ghost use Rattle.std.specs.Str.Parse.{digits_value_after};
ghost use Rattle.java_lex.specs.Chars.{is_blank, is_line_end, in_line, is_front};
ghost use Rattle.kaba_base.specs.Words.{is_part, first_that, next_is};
ghost use Rattle.java_lex.specs.Spelling.{mark_of, mark_text, NoneLonger};
ghost use Rattle.java_lex.specs.Piece.{escaped, quoted, piece_of, more_digits, reach, capped, char_piece, comment_end, quoted_reach, comment_piece, string_piece, word_piece, number_in, mark_piece, number_kind};

use crate::{MARKS, Mark, Name, TokenKind, Units};
use kaba_base::{continues_identifier, keyword_of, starts_identifier};
use std::alloc::{AllocError, Global};

/// How many characters there are before the first that fails the test.
macro_rules! leading {
    ($rest:ident, |$c:ident| $passes:expr) => {
        $rest.iter().copied().take_while(|$c| $passes).count()
    };
}

/// Why a piece is no token.
#[derive(Clone, Copy)]
pub enum FaultKind {
    /// No token and no space begins so.
    BadByte,
    /// A comment that is not closed.
    OpenComment,
    /// A string that is not closed on its line.
    OpenString,
    /// A number above 2,147,483,648.
    BigLiteral,
}

/// What a text begins with.
#[derive(Drop)]
pub enum Piece {
    /// Space or a comment, with the count of its characters after the first.
    Gap(usize),
    /// A token, with the count of its characters after the first.
    Part(TokenKind, usize),
    /// A fault, with the count of the characters before its place.
    Fault(FaultKind, usize),
}

/// What follows an opening double quote.
#[derive(Drop)]
pub enum Quoted {
    /// The units of the string, and the count of characters to the closing quote.
    Closed(Units, usize),
    /// Nothing closes it before the line ends.
    Open,
    /// A backslash that begins no escape, with the count of the characters before it.
    Wrong(usize),
}

/// Whether the character is white space.
fn is_blank(c: char) -> bool
    ensures { result ≡ is_blank c }
{
    c == ' ' || c == '\t' || c == '\x0c' || c == '\r' || c == '\n'
}

/// Whether the character ends a line: CR or LF.
fn is_line_end(c: char) -> bool
    ensures { result ≡ is_line_end c }
{
    c == '\n' || c == '\r'
}

/// How many characters of an identifier there are.
fn parts(rest: &[char]) -> usize
    ensures value { result ≡ prefix_len is_part rest.now }
    ensures within { result ≤ length rest.now }
{
    leading!(rest, |c| continues_identifier(*c))
}

/// How many digits there are.
fn digits(rest: &[char]) -> usize
    ensures value { result ≡ prefix_len is_ascii_digit rest.now }
    ensures within { result ≤ length rest.now }
{
    leading!(rest, |c| c.is_ascii_digit())
}

/// How many characters there are before the end of the line.
fn line_len(rest: &[char]) -> usize
    ensures value { result ≡ prefix_len in_line rest.now }
    ensures within { result ≤ length rest.now }
{
    leading!(rest, |c| !is_line_end(*c))
}

/// Whether the characters begin with this ASCII text.
fn begins(rest: &[char], text: &[u8]) -> bool
    ensures value { result ≡ is_front text.now rest.now }
    ensures within { IsTrue result → length text.now ≤ length rest.now }
{
    match text {
        [] => true,
        [b, text @ ..] => match rest {
            [] => false,
            [c, rest @ ..] => *c == char::from(*b) && begins(rest, text),
        },
    }
}

/// The first of these marks that the characters begin with.
fn mark_in(marks: &[Mark], rest: &[char]) -> Option<Mark>
    ensures value { result ≡ first_that (λ m. is_front (mark_text m) rest.now) marks.now }
    ensures within { IfSome result (λ m. length (mark_text m) ≤ length rest.now) }
{
    match marks {
        [] => None,
        [mark, marks @ ..] => {
            if begins(rest, mark.text().as_bytes()) {
                Some(*mark)
            } else {
                mark_in(marks, rest)
            }
        }
    }
}

/// The longest mark that the characters begin with.
fn mark_of(rest: &[char]) -> Option<Mark>
    ensures value { result ≡ mark_of rest.now }
    ensures longest { IfSome result (λ m. NoneLonger rest.now m MARKS) }
    ensures within { IfSome result (λ m. length (mark_text m) ≤ length rest.now) }
{
    mark_in(&MARKS, rest)
}

/// The unit that the letter of an escape stands for.
fn escaped(d: char) -> Option<u16>
    ensures { result ≡ escaped d }
{
    match d {
        'b' => Some(8),
        't' => Some(9),
        'n' => Some(10),
        'f' => Some(12),
        'r' => Some(13),
        '"' => Some(34),
        '\'' => Some(39),
        '\\' => Some(92),
        _ => None,
    }
}

/// Adds the one or two units of the character.
fn push_units(units: &mut Vec<u16>, c: char) -> Result<(), AllocError>
    ensures { OnOk result (units.new.items ≡ units.old.items ++ encode_utf16 c) }
{
    let mut pair = [0u16; 2];
    units.extend_from_slice(c.encode_utf16(&mut pair))
}

/// What follows an opening double quote.
fn string_body(alloc: Global, chars: &[char]) -> Result<Quoted, AllocError>
    ensures value { IfOk result (λ q. q ≡ quoted chars.now) }
    ensures within { IfOk result (λ q. quoted_reach q ≤ length chars.now) }
{
    let mut units = Vec::new(alloc);
    let mut at = 0;
    let mut rest = chars;
    loop {
        let [c, after @ ..] = rest else {
            return Ok(Quoted::Open);
        };
        if *c == '"' {
            return Ok(Quoted::Closed(Units::new(units), at + 1));
        }
        if is_line_end(*c) {
            return Ok(Quoted::Open);
        }
        if *c == '\\' {
            let [d, after @ ..] = after else {
                return Ok(Quoted::Wrong(at));
            };
            let Some(unit) = escaped(*d) else {
                return Ok(Quoted::Wrong(at));
            };
            units.push(unit)?;
            at += 2;
            rest = after;
        } else {
            push_units(&mut units, *c)?;
            at += 1;
            rest = after;
        }
    }
}

/// The name of these characters.
fn name(alloc: Global, word: &[char]) -> Result<Name, AllocError>
    ensures { IfOk result (λ n. n ≡ word.now) }
{
    let text: String = word.iter().copied().collect(alloc)?;
    Name::new(alloc, text.as_str())
}

/// The number whose first digits have this value, if it is at most 2,147,483,648.
fn value_after(value: u64, digits: &[char]) -> Option<u64>
    requires { value ≤ 2147483648 }
    ensures { result ≡ capped (digits_value_after 10 value digits.now) }
{
    match digits {
        [] => Some(value),
        [c, digits @ ..] => {
            let digit = c.to_digit(36).unwrap_or(36);
            let more = value * 10 + u64::from(digit);
            if more > 2147483648 {
                None
            } else {
                value_after(more, digits)
            }
        }
    }
}

/// The token of this number.
fn number_kind(value: u64) -> TokenKind
    requires { value ≤ 2147483648 }
    ensures { result ≡ number_kind value }
{
    if value == 2147483648 {
        TokenKind::Least
    } else {
        TokenKind::Int(value as i32)
    }
}

/// What follows an opening single quote.
fn char_piece(rest: &[char]) -> Piece
    ensures value { result ≡ char_piece rest.now }
    ensures within { reach result ≤ length rest.now }
{
    match rest {
        [c, d, more @ ..] => {
            if *c == '\'' {
                Piece::Fault(FaultKind::BadByte, 0)
            } else if is_line_end(*c) {
                Piece::Fault(FaultKind::BadByte, 0)
            } else if *c == '\\' {
                match escaped(*d) {
                    Some(unit) => {
                        if begins(more, b"'") {
                            Piece::Part(TokenKind::Char(unit), 3)
                        } else {
                            Piece::Fault(FaultKind::BadByte, 0)
                        }
                    }
                    None => Piece::Fault(FaultKind::BadByte, 0),
                }
            } else if *d == '\'' && u32::from(*c) < 65536 {
                Piece::Part(TokenKind::Char(u32::from(*c) as u16), 2)
            } else {
                Piece::Fault(FaultKind::BadByte, 0)
            }
        }
        [_] => Piece::Fault(FaultKind::BadByte, 0),
        [] => Piece::Fault(FaultKind::BadByte, 0),
    }
}

/// How many characters there are up to the end of `*/`.
fn comment_end(rest: &[char]) -> Option<usize>
    ensures value { result ≡ comment_end rest.now }
    ensures within { IfSome result (λ n. n ≤ length rest.now) }
{
    let mut at = 0;
    while at < rest.len() {
        if begins(&rest[at..], b"*/") {
            return Some(at + 2);
        }
        at += 1;
    }
    None
}

/// The comment whose `/` stands before these characters.
fn comment_piece(rest: &[char]) -> Piece
    requires { 0 < length rest.now }
    ensures value { result ≡ comment_piece (comment_end (drop 1 rest.now)) }
    ensures within { reach result ≤ length rest.now }
{
    match comment_end(&rest[1..]) {
        None => Piece::Fault(FaultKind::OpenComment, 0),
        Some(n) => Piece::Gap(n + 1),
    }
}

/// The string whose opening quote stands before these characters.
fn string_piece(alloc: Global, rest: &[char]) -> Result<Piece, AllocError>
    ensures value { IfOk result (λ p. p ≡ string_piece (quoted rest.now)) }
    ensures within { IfOk result (λ p. reach p ≤ length rest.now) }
{
    Ok(match string_body(alloc, rest)? {
        Quoted::Closed(units, n) => Piece::Part(TokenKind::Str(units), n),
        Quoted::Open => Piece::Fault(FaultKind::OpenString, 0),
        Quoted::Wrong(n) => Piece::Fault(FaultKind::BadByte, n + 1),
    })
}

/// The keyword or the name of these characters, `n` after the first.
fn word_piece(alloc: Global, word: &[char], n: usize) -> Result<Piece, AllocError>
    ensures value { IfOk result (λ p. p ≡ word_piece word.now n) }
    ensures within { IfOk result (λ p. reach p ≡ n) }
{
    match keyword_of(word) {
        Some(key) => Ok(Piece::Part(TokenKind::Key(key), n)),
        None => Ok(Piece::Part(TokenKind::Word(name(alloc, word)?), n)),
    }
}

/// Whether an identifier goes on here.
fn next_is_part(rest: &[char]) -> bool
    ensures { result ≡ next_is is_part rest.now }
{
    match rest {
        [] => false,
        [c, ..] => continues_identifier(*c),
    }
}

/// The number that the characters begin with, of `n` digits after the first.
fn number_piece(all: &[char], n: usize) -> Piece
    requires { n < length all.now }
    ensures value { result ≡ number_in all.now n }
    ensures within { reach result < length all.now }
{
    match value_after(0, &all[..=n]) {
        None => Piece::Fault(FaultKind::BigLiteral, 0),
        Some(value) => {
            if next_is_part(&all[n + 1..]) {
                Piece::Fault(FaultKind::BadByte, n + 1)
            } else {
                Piece::Part(number_kind(value), n)
            }
        }
    }
}

/// The piece that the characters begin with.
pub fn first_piece(
    alloc: Global,
    first: char,
    rest: &[char],
    all: &[char],
) -> Result<Piece, AllocError>
    requires { all.now ≡ first ∷ rest.now }
    ensures value { IfOk result (λ p. p ≡ piece_of first rest.now) }
    ensures within { IfOk result (λ p. reach p ≤ length rest.now) }
{
    if is_blank(first) {
        Ok(Piece::Gap(0))
    } else if starts_identifier(first) {
        let n = parts(rest);
        word_piece(alloc, &all[..=n], n)
    } else if first.is_ascii_digit() {
        let n = more_digits(first, rest);
        Ok(number_piece(all, n))
    } else if first == '"' {
        string_piece(alloc, rest)
    } else if first == '\'' {
        Ok(char_piece(rest))
    } else if begins(all, b"//") {
        Ok(Piece::Gap(line_len(rest)))
    } else if begins(all, b"/*") {
        Ok(comment_piece(rest))
    } else {
        Ok(mark_piece(all))
    }
}

/// How many digits of a number follow its first one: none follow a 0.
fn more_digits(first: char, rest: &[char]) -> usize
    ensures value { result ≡ more_digits first rest.now }
    ensures within { result ≤ length rest.now }
{
    if first == '0' { 0 } else { digits(rest) }
}

/// The mark that the characters begin with.
fn mark_piece(all: &[char]) -> Piece
    requires { 0 < length all.now }
    ensures value { result ≡ mark_piece (mark_of all.now) }
    ensures within { reach result < length all.now }
{
    match mark_of(all) {
        None => Piece::Fault(FaultKind::BadByte, 0),
        Some(mark) => Piece::Part(TokenKind::Mark(mark), mark.text().len() - 1),
    }
}
