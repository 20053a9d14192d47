//! The command `same`.
#![tactic(auto)]

ghost use Rattle.std.specs.Prelude.{◌≡◌, ◌≤◌, ◌⊎◌, List, ℕ, IfOk, length, string_bytes};
ghost use Rattle.kaba_top.specs.Words.{program_of, Says, line, most_bytes};
ghost use Rattle.java_core.specs.Formed.{IsFormed};
ghost use Rattle.kaba_words.specs.Commands.{same};
ghost use Rattle.kaba_top.specs.Answers.{CommandReplies};
ghost use Rattle.kaba_top.specs.SameAnswers.{named, parting_text, AreFoundOne, AreFoundApart, SameOf};
ghost use Rattle.kaba_top.specs.Named.{IsProgramFound, IsNamedReading, NamedReplies};

use crate::Tried;
use crate::cause_words::{Cause, cause_text};
use crate::fetching::{Fetched, fetch_file};
use crate::reading::{Reading, read_program};
use crate::reply::Reply;
use java_core::Checked;
use kaba_base::Shelf;
use same_program::{Parting, same};
use std::alloc::{AllocError, Global};

/// The program of a file, or the reply that it has none.
#[derive(Drop)]
pub enum Found {
    Typed(Checked),
    Refused(Reply),
}

/// The reply with the name of the file before the text of its line.
fn with_name(alloc: Global, file: &String, reply: Reply) -> Tried<Reply>
    ensures named { IfOk result (λ r. (text : List ℕ) → reply.err.items ≡ line text → Says reply.status (named (string_bytes file.now) text) r.status
        r.out.items r.err.items) }
{
    let err = reply.err.as_slice();
    let text = if err.len() >= 6 { &err[6..] } else { err };
    let mut told = Vec::from_slice(alloc, b"kaba: ")?;
    told.extend_from_slice(file.as_str().as_bytes())?;
    told.extend_from_slice(b": ")?;
    told.extend_from_slice(text)?;
    Ok(Reply {
        status: reply.status,
        out: Vec::new(alloc),
        err: told,
    })
}

/// The program of the bytes of a file, or the reply that there is none, with the file's name.
fn named_program(alloc: Global, file: &String, bytes: &Vec<u8>) -> Tried<Found>
    requires small { length bytes.now.items ≤ most_bytes }
    ensures reading { IfOk result (λ found. IsNamedReading (string_bytes file.now) bytes.now.items found) }
{
    match read_program(alloc, bytes)? {
        Reading::Typed(program) => Ok(Found::Typed(program)),
        Reading::Refused(reply) => Ok(Found::Refused(with_name(alloc, file, reply)?)),
    }
}

/// The program of a file, or the reply that it has none.
fn find_program<F: Shelf>(alloc: Global, shelf: &mut F, file: &String) -> Tried<Found>
    ensures found { IfOk result (λ found. IsProgramFound (F.files shelf.old) (F.faults shelf.old) (F.faults shelf.new) (string_bytes file.now) found) }
    ensures same { F.files shelf.new ≡ F.files shelf.old }
    ensures later { F.faults shelf.old ≤ F.faults shelf.new }
{
    match fetch_file(alloc, shelf, file)? {
        Fetched::Bytes(bytes) => named_program(alloc, file, &bytes),
        Fetched::Refused(reply) => {
            if reply.status == 67 {
                Ok(Found::Refused(with_name(alloc, file, reply)?))
            } else {
                Ok(Found::Refused(reply))
            }
        }
    }
}

/// The reply that two programs part at these places.
fn apart(alloc: Global, file: &String, other: &String, parting: Parting) -> Tried<Reply>
    ensures { IfOk result (λ reply. Says 1 (parting_text (string_bytes file.now) (string_bytes other.now) parting) reply.status reply.out.items
        reply.err.items) }
{
    let first = parting.first.line;
    let second = parting.second.line;
    let what = cause_text(Cause::Parted(parting.what));
    let text = format!(in alloc; "differ: {file} line {first}, {other} line {second}: {what}")?;
    Reply::line(alloc, 1, text.as_bytes())
}

/// The reply whether two programs are one.
fn same_programs(
    alloc: Global,
    file: &String,
    other: &String,
    first: &Checked,
    second: &Checked,
) -> Tried<Reply>
    ensures { IfOk result (λ reply. SameOf (string_bytes file.now) (string_bytes other.now) first.now second.now reply.status reply.out.items
        reply.err.items) }
{
    match same(alloc, first.program(), second.program())? {
        None => Ok(Reply {
            status: 0,
            out: Vec::new(alloc),
            err: Vec::new(alloc),
        }),
        Some(parting) => apart(alloc, file, other, parting),
    }
}

/// The reply once the program of the first file is there.
fn other_reply<F: Shelf>(
    alloc: Global,
    shelf: &mut F,
    first: &Checked,
    file: &String,
    other: &String,
) -> Tried<Reply>
    ensures replies { IfOk result (λ reply. NamedReplies (F.files shelf.old) (F.faults shelf.old) (F.faults shelf.new)
        (SameOf (string_bytes file.now) (string_bytes other.now) first.now) (string_bytes other.now) reply.status reply.out.items reply.err.items) }
{
    match find_program(alloc, shelf, other)? {
        Found::Typed(second) => same_programs(alloc, file, other, first, &second),
        Found::Refused(reply) => Ok(reply),
    }
}

/// The reply of `same`.
pub fn same_command<F: Shelf>(
    alloc: Global,
    shelf: &mut F,
    file: &String,
    other: &String,
) -> Tried<Reply>
    ensures replies { IfOk result (λ reply. CommandReplies (F.files shelf.old) (F.faults shelf.old) (F.faults shelf.new)
        (same (string_bytes file.now) (string_bytes other.now)) reply.status reply.out.items reply.err.items) }
{
    match find_program(alloc, shelf, file)? {
        Found::Typed(first) => other_reply(alloc, shelf, &first, file, other),
        Found::Refused(reply) => Ok(reply),
    }
}
