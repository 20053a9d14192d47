//! Texts of values, and how they are printed.

ghost use Rattle.std.specs.Prelude.{◌≡◌, ◌<◌, ◌≤◌, ◌∷◌, ◌++◌, length, drop, map, IfOk, OnOk, IfSome, Option, Some};
ghost use Rattle.std.specs.Option.{option_map};
ghost use Rattle.std.specs.Char.{encode_utf8};
ghost use Rattle.std.specs.Char.Utf16.{utf16_chars};
ghost use Rattle.java_heap.specs.Seen.{value_of};
ghost use Rattle.java_meaning.specs.Values.{text_of, bytes_of, line_end, word_of, equals_value, join as join_of};

use crate::heap::Heap;
use crate::values::Value;
use java_core::Fault;
use std::alloc::{AllocError, Global};

/// The text of a value, as units (Java Language Specification, 5.1.11); an object or an array has none,
/// and neither has a string that is not there.
pub fn text_of(alloc: Global, heap: &Heap, value: Value) -> Result<Option<Vec<u16>>, AllocError>
    ensures value { IfOk result (λ r. option_map (λ u. u.items) r ≡ text_of heap.now.strings (value_of value)) }
{
    match value {
        Value::Int(number) => Ok(Some(number_text(alloc, number)?)),
        Value::Char(unit) => Ok(Some(vec![in alloc; unit]?)),
        Value::Bool(truth) => Ok(Some(word_text(alloc, truth)?)),
        Value::Null => Ok(Some(widened(alloc, b"null")?)),
        Value::Str(at) => string_text(alloc, heap, at),
        Value::Ref(_) => Ok(None),
    }
}

/// The digits of a number, behind a minus sign where it is negative.
fn number_text(alloc: Global, number: i32) -> Result<Vec<u16>, AllocError>
    ensures { IfOk result (λ u. u.items ≡ signed_decimal number) }
{
    let text = number.to_string(alloc)?;
    widened(alloc, text.as_bytes())
}

ghost use Rattle.std.specs.Fmt.{signed_decimal};

/// `true` or `false`.
fn word_text(alloc: Global, truth: bool) -> Result<Vec<u16>, AllocError>
    ensures { IfOk result (λ u. u.items ≡ word_of truth) }
{
    if truth {
        widened(alloc, b"true")
    } else {
        widened(alloc, b"false")
    }
}

/// The units of a string.
fn string_text(alloc: Global, heap: &Heap, at: u32) -> Result<Option<Vec<u16>>, AllocError>
    ensures { IfOk result (λ r. option_map (λ u. u.items) r ≡ slice_get heap.now.strings at) }
{
    match heap.text(at) {
        Some(units) => Ok(Some(Vec::from_slice(alloc, units)?)),
        None => Ok(None),
    }
}

ghost use Rattle.std.specs.Prelude.{slice_get};

/// Bytes of ASCII as units.
fn widened(alloc: Global, bytes: &[u8]) -> Result<Vec<u16>, AllocError>
    ensures { IfOk result (λ u. u.items ≡ bytes.now) }
{
    let mut units = Vec::with_capacity(alloc, bytes.len())?;
    for byte in bytes {
        units.push(*byte as u16)?;
    }
    Ok(units)
}

/// Two texts as one; `TooLong` exactly where it would have more than 2,147,483,647 units.
pub fn join(mut left: Vec<u16>, right: &[u16]) -> Result<Result<Vec<u16>, Fault>, AllocError>
    ensures value { IfOk result (λ r. MatchResult r (λ u. join_of left.items right.now ≡ Ok u.items) (λ e. join_of left.items right.now ≡ Err e)) }
{
    if left.len() > LIMIT || right.len() > LIMIT - left.len() {
        return Ok(Err(Fault::TooLong));
    }
    left.extend_from_slice(right)?;
    Ok(Ok(left))
}

ghost use Rattle.std.specs.Prelude.{MatchResult, Ok, Err};

/// The largest number of units in one string.
const LIMIT: usize = 2_147_483_647;

/// What `equals` of a string with these units gives; `None` where a string has no `equals` with the value.
pub fn equals(heap: &Heap, units: &[u16], value: Value) -> Option<bool>
    ensures value { result ≡ equals_value heap.now.strings units.now (value_of value) }
{
    match value {
        Value::Null => Some(false),
        Value::Str(at) => match heap.text(at) {
            Some(other) => Some(units == other.as_slice()),
            None => None,
        },
        Value::Int(_) => None,
        Value::Char(_) => None,
        Value::Bool(_) => None,
        Value::Ref(_) => None,
    }
}

/// Writes a text as UTF-8, a surrogate without its partner as `?`, and then a line's end if it is asked.
pub fn print(out: &mut Vec<u8>, units: &[u16], newline: bool) -> Result<(), AllocError>
    ensures value { OnOk result (out.new.items ≡ out.old.items ++ (bytes_of units.now ++ line_end newline)) }
{
    write_units(out, units)?;
    if newline {
        out.push(b'\n')?;
    }
    Ok(())
}

/// Writes a text as UTF-8.
fn write_units(out: &mut Vec<u8>, units: &[u16]) -> Result<(), AllocError>
    ensures { OnOk result (out.new.items ≡ out.old.items ++ bytes_of units.now) }
{
    let mut at = 0;
    while at < units.len() {
        let (found, next) = char_at(units, at);
        write_char(out, found.unwrap_or('?'))?;
        at = next;
    }
    Ok(())
}

/// Writes a character as UTF-8.
fn write_char(out: &mut Vec<u8>, c: char) -> Result<(), AllocError>
    ensures { OnOk result (out.new.items ≡ out.old.items ++ encode_utf8 c) }
{
    let mut buffer = [0; 4];
    out.extend_from_slice(c.encode_utf8(&mut buffer).as_bytes())
}

/// The character whose units begin at a place, unless that unit is a surrogate without its partner, and where the next one begins.
fn char_at(units: &[u16], at: usize) -> (Option<char>, usize)
    requires { at < length units.now }
    ensures bound { (at < result.1) × (result.1 ≤ length units.now) }
    ensures first { utf16_chars (drop at units.now) ≡ result.0 ∷ utf16_chars (drop result.1 units.now) }
{
    let high = units[at] as u32;
    if high < 0xD800 || 0xE000 <= high {
        return (char::from_u32(high), at + 1);
    }
    if 0xDC00 <= high || units.len() - at < 2 {
        return (None, at + 1);
    }
    let low = units[at + 1] as u32;
    if low < 0xDC00 || 0xE000 <= low {
        return (None, at + 1);
    }
    let code = 0x1_0000 + (high - 0xD800) * 0x400 + (low - 0xDC00);
    (char::from_u32(code), at + 2)
}
