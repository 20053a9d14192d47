//! The lines of a script.
#![tactic(auto)]

ghost use Rattle.std.specs.Prelude.{◌≡◌, ◌∷◌, ◌<◌, ◌≤◌, ◌^◌, ◌↔◌, ℕ, List, [], Err, IfOk, IsTrue, MatchOption, length};
ghost use Rattle.std.specs.List.{position};
ghost use Rattle.edit_script.specs.Script.{is_line_end, lines_of, HasOuterSpace, IsSkipped, AreEditsOf, IsFirstBadLine, HasTooManyEdits, most_edits};
ghost use Rattle.edit_script.specs.Readings.{IsLineReading};
ghost use Rattle.edit_script.specs.Lines.{left};
ghost use Rattle.edit_script.specs.declared.lines.ScriptFault.TheVariants as ScriptFault;

use crate::edits::read_act;
use hier_model::Act;
use std::alloc::{AllocError, AllocFailed, Global};
use std::str;

/// An edit or an undo of a script, and the number of its line, counted from 1.
#[derive(Drop)]
pub struct Line {
    pub number: u32,
    pub act: Act,
}

/// Why a script has no edits.
#[derive(Clone, Copy)]
pub enum ScriptFault {
    /// The line of this number is no edit and no undo, and the first such.
    BadLine(u32),
    /// There are more than 4,096 edits and undos.
    TooManyEdits,
    /// Memory is short.
    Memory,
}

/// What a line is.
#[derive(Drop)]
pub enum Reading {
    Comment,
    Act(Act),
    Bad,
}

/// The number of the first byte that ends a line.
fn line_end(bytes: &[u8]) -> Option<usize>
    ensures { result ≡ position is_line_end bytes.now }
{
    bytes.iter().position(|b| *b == b'\n')
}

/// What stands before the first line end and what stands behind it, or `None` where there is none.
fn cut(bytes: &[u8]) -> Option<(&[u8], &[u8])>
    ensures { MatchOption result (lines_of bytes.now ≡ bytes.now ∷ []) (λ parts. lines_of bytes.now ≡ parts.0.now ∷ lines_of parts.1.now) }
{
    match line_end(bytes) {
        None => None,
        Some(at) => Some((&bytes[..at], &bytes[at + 1..])),
    }
}

/// The lines of a script that are not read yet.
#[derive(Drop)]
struct Lines<'a> {
    rest: Option<&'a [u8]>,
}

impl<'a> Lines<'a> {
    /// The next line.
    fn next(&mut self) -> Option<&'a [u8]>
        ensures { MatchOption result (left self.old.rest ≡ []) (λ line. left self.old.rest ≡ line.now ∷ left self.new.rest) }
    {
        match self.rest {
            None => None,
            Some(bytes) => match cut(bytes) {
                None => {
                    self.rest = None;
                    Some(bytes)
                }
                Some((line, after)) => {
                    self.rest = Some(after);
                    Some(line)
                }
            },
        }
    }
}

/// Whether the line is empty or begins with `#`.
fn is_skipped(line: &str) -> bool
    ensures { IsTrue result ↔ IsSkipped line.now }
{
    line.is_empty() || line.starts_with('#')
}

/// Whether a space stands first or last.
fn has_outer_space(line: &str) -> bool
    ensures { IsTrue result ↔ HasOuterSpace line.now }
{
    line.starts_with(' ') || line.ends_with(' ')
}

/// What a line of characters is.
fn read_text(alloc: Global, line: &str) -> Result<Reading, AllocError>
    ensures { IfOk result (λ reading. IsLineReading line.now reading) }
{
    if is_skipped(line) {
        return Ok(Reading::Comment);
    }
    if has_outer_space(line) {
        return Ok(Reading::Bad);
    }
    match read_act(alloc, line)? {
        Some(act) => Ok(Reading::Act(act)),
        None => Ok(Reading::Bad),
    }
}

/// What a line is.
fn read_line(alloc: Global, line: &[u8]) -> Result<Reading, AllocError>
    ensures { IfOk result (λ reading. IsLineReading line.now reading) }
{
    match str::from_utf8(line) {
        Ok(text) => read_text(alloc, text),
        Err(_) => Ok(Reading::Bad),
    }
}

/// The edits and undos of a script, each with the number of its line.
///
/// A line is an edit where its words write one: they stand between spaces, none of which stands first or
/// last, and a node is `n` and a column `c` with a number of at most 4,294,967,295 without a leading zero.
/// It is an undo where its one word is `undo`. A line that is empty or begins with `#` is skipped. `BadLine`
/// has the number of the first line that is none of these, or is not UTF-8; else `TooManyEdits` comes
/// exactly where there are more than 4,096 edits and undos.
/// `Memory` comes where memory is short.
pub fn read_script(alloc: Global, bytes: &Vec<u8>) -> Result<Vec<Line>, ScriptFault>
    requires small { length bytes.now.items < 4294967295 }
    ensures edits { IfOk result (λ lines. AreEditsOf bytes.now.items lines.items) }
    ensures few { IfOk result (λ lines. length lines.items ≤ most_edits) }
    ensures bad_line { (n : ℕ) → result ≡ Err (ScriptFault.BadLine n) → IsFirstBadLine bytes.now.items n }
    ensures too_many { result ≡ Err ScriptFault.TooManyEdits → HasTooManyEdits bytes.now.items }
{
    let mut lines = Lines {
        rest: Some(bytes.as_slice()),
    };
    let mut all = Vec::new(alloc);
    let mut number = 0u32;
    while let Some(line) = lines.next() {
        number += 1;
        match read_line(alloc, line) {
            Ok(Reading::Comment) => {}
            Ok(Reading::Act(act)) => {
                if all.push(Line { number, act }).is_err() {
                    return Err(ScriptFault::Memory);
                }
            }
            Ok(Reading::Bad) => return Err(ScriptFault::BadLine(number)),
            Err(_) => return Err(ScriptFault::Memory),
        }
    }
    if all.len() > 4096 {
        return Err(ScriptFault::TooManyEdits);
    }
    Ok(all)
}
