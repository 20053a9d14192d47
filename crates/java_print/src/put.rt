//! The smallest parts of a text.
#![tactic(auto)]

ghost use Rattle.std.specs.Prelude.{◌≡◌, ◌++◌, ◌∷◌, [], ◌<◌, OnOk, IfOk, List, ℤ, pos, length};
ghost use Rattle.std.specs.Str.{encode_utf8_all, chars};
ghost use Rattle.std.specs.Fmt.{decimal};
ghost use Rattle.std.specs.List.{flat_map};
ghost use Rattle.std.specs.Char.Utf16.{utf16_lossy_chars};
ghost use Rattle.java_lex.specs.Printing.{letter_of, written};
ghost use Rattle.java_lex.specs.declared.TokenKind.TheVariants as kinds;
ghost use Rattle.java_print.specs.Items.{Item, Lexeme, units_written};
ghost use Rattle.java_print.specs.Layout.{mark_then, key_then, word_then, int_items};
ghost use Rattle.java_print.specs.Adds.{Adds, Puts, margin_then, end_then};

use java_lex::{Mark, Units};
use kaba_base::{Keyword, Name};
use std::alloc::{AllocError, Global};

/// Adds a mark.
#[tactic(auto, using(crate::proofs::Adding::adds_mark))]
pub fn put_mark(into: &mut Vec<u8>, mark: Mark) -> Result<(), AllocError>
    ensures value { OnOk result (Puts into.old.items into.new.items (mark_then mark)) }
{
    into.extend_from_slice(mark.text().as_bytes())
}

/// Adds a keyword.
#[tactic(auto, using(crate::proofs::Adding::adds_key))]
pub fn put_key(into: &mut Vec<u8>, key: Keyword) -> Result<(), AllocError>
    ensures value { OnOk result (Puts into.old.items into.new.items (key_then key)) }
{
    into.extend_from_slice(key.text().as_bytes())
}

/// Adds a name.
#[tactic(auto, using(crate::proofs::Adding::adds_word))]
pub fn put_name(into: &mut Vec<u8>, name: &Name) -> Result<(), AllocError>
    ensures value { OnOk result (Puts into.old.items into.new.items (word_then name.now)) }
{
    into.extend_from_slice(name.as_str().as_bytes())
}

/// Adds one character.
fn put_char(into: &mut Vec<u8>, c: char) -> Result<(), AllocError>
    ensures value { OnOk result (into.new.items ≡ into.old.items ++ encode_utf8_all (c ∷ [])) }
{
    let mut bytes = [0u8; 4];
    into.extend_from_slice(c.encode_utf8(&mut bytes).as_bytes())
}

/// The letter of the escape of a character that has one.
fn letter_of(c: char) -> Option<char>
    ensures value { result ≡ letter_of c }
{
    match c {
        '\x08' => Some('b'),
        '\t' => Some('t'),
        '\n' => Some('n'),
        '\x0c' => Some('f'),
        '\r' => Some('r'),
        '"' | '\'' | '\\' => Some(c),
        _ => None,
    }
}

/// Adds a character of a literal, by its escape where it has one.
fn put_written(into: &mut Vec<u8>, c: char) -> Result<(), AllocError>
    ensures value { OnOk result (into.new.items ≡ into.old.items ++ encode_utf8_all (written c)) }
{
    match letter_of(c) {
        Some(letter) => {
            put_char(into, '\\')?;
            put_char(into, letter)
        }
        None => put_char(into, c),
    }
}

/// Adds the characters of a literal.
fn put_all(into: &mut Vec<u8>, chars: &[char]) -> Result<(), AllocError>
    ensures value { OnOk result (into.new.items ≡ into.old.items ++ encode_utf8_all (flat_map written chars.now)) }
{
    for c in chars {
        put_written(into, *c)?;
    }
    Ok(())
}

/// The characters of a text.
fn decoded(alloc: Global, text: &str) -> Result<Vec<char>, AllocError>
    ensures { IfOk result (λ v. v.items ≡ chars text.now) }
{
    text.chars().collect(alloc)
}

/// The characters that the code units spell.
fn characters(alloc: Global, units: &[u16]) -> Result<Vec<char>, AllocError>
    ensures { IfOk result (λ v. v.items ≡ utf16_lossy_chars units.now) }
{
    let text = String::from_utf16_lossy(alloc, units)?;
    decoded(alloc, text.as_str())
}

/// Adds the code units of a literal.
fn put_units(into: &mut Vec<u8>, units: &[u16]) -> Result<(), AllocError>
    ensures value { OnOk result (into.new.items ≡ into.old.items ++ encode_utf8_all (units_written units.now)) }
{
    let chars = characters(*into.allocator(), units)?;
    put_all(into, chars.as_slice())
}

/// Adds a character literal.
pub fn put_char_literal(into: &mut Vec<u8>, unit: u16) -> Result<(), AllocError>
    ensures value { OnOk result ((r : List Item) → Adds into.old.items into.new.items (Lexeme (kinds.Char unit) ∷ r) r) }
{
    put_char(into, '\'')?;
    put_units(into, &[unit])?;
    put_char(into, '\'')
}

/// Adds a string literal.
pub fn put_string_literal(into: &mut Vec<u8>, units: &Units) -> Result<(), AllocError>
    ensures value { OnOk result ((r : List Item) → Adds into.old.items into.new.items (Lexeme (kinds.Str units.now) ∷ r) r) }
{
    put_char(into, '"')?;
    put_units(into, units.as_slice())?;
    put_char(into, '"')
}

/// Adds the digits of a number.
fn put_decimal(into: &mut Vec<u8>, value: u32) -> Result<(), AllocError>
    ensures value { OnOk result (into.new.items ≡ into.old.items ++ decimal value) }
{
    let text = format!(in *into.allocator(); "{value}")?;
    into.extend_from_slice(text.as_str().as_bytes())
}

/// Adds an integer literal. The grammar gives no negative one but the least.
pub fn put_int(into: &mut Vec<u8>, value: i32) -> Result<(), AllocError>
    ensures value { OnOk result (Puts into.old.items into.new.items (int_items value)) }
{
    if value < 0 {
        put_mark(into, Mark::Minus)?;
        put_decimal(into, 2147483648)?;
    } else {
        put_decimal(into, value.unsigned_abs())?;
    }
    Ok(())
}

/// Adds spaces.
pub fn put_margin(into: &mut Vec<u8>, count: usize) -> Result<(), AllocError>
    ensures value { OnOk result (Puts into.old.items into.new.items (margin_then count)) }
{
    for _ in 0..count {
        into.push(b' ')?;
    }
    Ok(())
}

/// Adds the end of a line.
pub fn put_end(into: &mut Vec<u8>) -> Result<(), AllocError>
    ensures value { OnOk result (Puts into.old.items into.new.items end_then) }
{
    put_char(into, '\n')
}

/// Adds an ASCII text as it stands.
pub fn put_text(into: &mut Vec<u8>, text: &str) -> Result<(), AllocError>
    ensures value { OnOk result (into.new.items ≡ into.old.items ++ text.now) }
{
    into.extend_from_slice(text.as_bytes())
}
