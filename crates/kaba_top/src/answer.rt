//! From the words to the reply.
#![tactic(auto)]

ghost use Rattle.std.specs.Prelude.{◌≡◌, ◌≤◌, IfOk, length, string_bytes};
ghost use Rattle.kaba_top.specs.Words.{texts, most_bytes, IsTask};
ghost use Rattle.kaba_base.specs.Outside.{Files};
ghost use Rattle.kaba_words.specs.Commands.{run, table, lattice, base, why, sure, most_concepts};
ghost use Rattle.kaba_top.specs.Answers.{CommandReplies, Replies};
ghost use Rattle.kaba_top.specs.Fetching.{FileReplies};
ghost use Rattle.kaba_top.specs.Shown.{ShownAnswers, command_showing};

use crate::Tried;
use crate::about::{help_reply, version_reply};
use crate::analysis::{lattice_text, table_text};
use crate::base::base_text;
use crate::edit::edit_text;
use crate::fetching::{Fetched, fetch_file};
use crate::make::make_reply;
use crate::regen::regen_text;
use crate::reply::Reply;
use crate::run::run_text;
use crate::same::same_command;
use crate::script::Task;
use crate::sure::sure_text;
use crate::why::{Asked, why_text};
use kaba_base::Shelf;
use kaba_words::{Command, WordsFault, read_words};
use std::alloc::{AllocError, Global};

/// The reply of `run`.
fn run_command<F: Shelf>(
    alloc: Global,
    shelf: &mut F,
    file: &String,
    steps: u32,
    words: &Vec<String>,
) -> Tried<Reply>
    ensures replies { IfOk result (λ reply. CommandReplies (F.files shelf.old) (F.faults shelf.old)
        (F.faults shelf.new) (run (string_bytes file.now) steps (texts words.now.items)) reply.status
        reply.out.items reply.err.items) }
{
    match fetch_file(alloc, shelf, file)? {
        Fetched::Bytes(bytes) => run_text(alloc, &bytes, steps, words),
        Fetched::Refused(reply) => Ok(reply),
    }
}

/// The reply of `table`.
fn table_command<F: Shelf>(alloc: Global, shelf: &mut F, file: &String) -> Tried<Reply>
    ensures replies { IfOk result (λ reply. CommandReplies (F.files shelf.old) (F.faults shelf.old)
        (F.faults shelf.new) (table (string_bytes file.now)) reply.status reply.out.items reply.err.items) }
{
    match fetch_file(alloc, shelf, file)? {
        Fetched::Bytes(bytes) => table_text(alloc, &bytes),
        Fetched::Refused(reply) => Ok(reply),
    }
}

/// The reply of `lattice`.
fn lattice_command<F: Shelf>(
    alloc: Global,
    shelf: &mut F,
    file: &String,
    json: bool,
    bound: u32,
) -> Tried<Reply>
    ensures replies { IfOk result (λ reply. CommandReplies (F.files shelf.old) (F.faults shelf.old)
        (F.faults shelf.new) (lattice json bound (string_bytes file.now)) reply.status reply.out.items
        reply.err.items) }
{
    match fetch_file(alloc, shelf, file)? {
        Fetched::Bytes(bytes) => lattice_text(alloc, &bytes, json, bound),
        Fetched::Refused(reply) => Ok(reply),
    }
}

/// The reply of `base`.
fn base_command<F: Shelf>(alloc: Global, shelf: &mut F, file: &String) -> Tried<Reply>
    ensures replies { IfOk result (λ reply. CommandReplies (F.files shelf.old) (F.faults shelf.old)
        (F.faults shelf.new) (base (string_bytes file.now)) reply.status reply.out.items reply.err.items) }
{
    match fetch_file(alloc, shelf, file)? {
        Fetched::Bytes(bytes) => base_text(alloc, &bytes),
        Fetched::Refused(reply) => Ok(reply),
    }
}

/// The reply of `why`.
fn why_command<F: Shelf>(
    alloc: Global,
    shelf: &mut F,
    file: &String,
    row: u32,
    column: u32,
) -> Tried<Reply>
    ensures replies { IfOk result (λ reply. CommandReplies (F.files shelf.old) (F.faults shelf.old)
        (F.faults shelf.new) (why (string_bytes file.now) row column) reply.status reply.out.items
        reply.err.items) }
{
    match fetch_file(alloc, shelf, file)? {
        Fetched::Bytes(bytes) => why_text(alloc, &bytes, Asked { row, column }),
        Fetched::Refused(reply) => Ok(reply),
    }
}

/// The reply of `sure`.
fn sure_command<F: Shelf>(alloc: Global, shelf: &mut F, file: &String) -> Tried<Reply>
    ensures replies { IfOk result (λ reply. CommandReplies (F.files shelf.old) (F.faults shelf.old)
        (F.faults shelf.new) (sure (string_bytes file.now)) reply.status reply.out.items reply.err.items) }
{
    match fetch_file(alloc, shelf, file)? {
        Fetched::Bytes(bytes) => sure_text(alloc, &bytes),
        Fetched::Refused(reply) => Ok(reply),
    }
}

/// What a command with a script shows: the hierarchy after it, or the program that is written of that.
#[derive(Clone, Copy)]
enum Shows {
    Hierarchy,
    Program,
}

/// The reply of `edit` or `regen` for the bytes of its file and of its script.
fn shown_text(alloc: Global, shows: Shows, bytes: &Vec<u8>, task: &Task) -> Tried<Reply>
    requires small { length bytes.now.items ≤ most_bytes }
    requires task { IsTask task.now }
    ensures answers { IfOk result (λ reply. ShownAnswers shows task.now.bound bytes.now.items task.now.script.now.items reply.status
        reply.out.items reply.err.items) }
{
    match shows {
        Shows::Hierarchy => edit_text(alloc, bytes, task),
        Shows::Program => regen_text(alloc, bytes, task),
    }
}

/// The reply of `edit` or `regen` once the bytes of its first file are there.
fn script_reply<F: Shelf>(
    alloc: Global,
    shelf: &mut F,
    shows: Shows,
    bytes: &Vec<u8>,
    script: &String,
    bound: u32,
) -> Tried<Reply>
    requires small { length bytes.now.items ≤ most_bytes }
    requires bound { bound ≤ most_concepts }
    ensures replies { IfOk result (λ reply. FileReplies (F.files shelf.old) (F.faults shelf.old)
        (F.faults shelf.new) (ShownAnswers shows bound bytes.now.items) (string_bytes script.now) reply.status
        reply.out.items reply.err.items) }
{
    match fetch_file(alloc, shelf, script)? {
        Fetched::Bytes(lines) => {
            let task = Task {
                script: &lines,
                bound,
            };
            shown_text(alloc, shows, bytes, &task)
        }
        Fetched::Refused(reply) => Ok(reply),
    }
}

/// The reply of `edit` or `regen`.
fn script_command<F: Shelf>(
    alloc: Global,
    shelf: &mut F,
    shows: Shows,
    file: &String,
    script: &String,
    bound: u32,
) -> Tried<Reply>
    requires bound { bound ≤ most_concepts }
    ensures replies { IfOk result (λ reply. CommandReplies (F.files shelf.old) (F.faults shelf.old)
        (F.faults shelf.new) (command_showing shows bound (string_bytes file.now) (string_bytes script.now)) reply.status
        reply.out.items reply.err.items) }
{
    match fetch_file(alloc, shelf, file)? {
        Fetched::Bytes(bytes) => script_reply(alloc, shelf, shows, &bytes, script, bound),
        Fetched::Refused(reply) => Ok(reply),
    }
}

/// The reply to the words, or `AllocError` where memory is short.
pub fn answer<F: Shelf>(alloc: Global, words: &Vec<String>, shelf: &mut F) -> Tried<Reply>
    ensures replies { IfOk result (λ reply. Replies (F.files shelf.old) (F.faults shelf.old)
        (F.faults shelf.new) (texts words.now.items) reply.status reply.out.items reply.err.items) }
{
    match read_words(alloc, words) {
        Ok(Command::Run(file, steps, more)) => run_command(alloc, shelf, &file, steps, &more),
        Ok(Command::Table(file)) => table_command(alloc, shelf, &file),
        Ok(Command::Lattice(json, bound, file)) => {
            lattice_command(alloc, shelf, &file, json, bound)
        }
        Ok(Command::Base(file)) => base_command(alloc, shelf, &file),
        Ok(Command::Why(file, row, column)) => why_command(alloc, shelf, &file, row, column),
        Ok(Command::Sure(file)) => sure_command(alloc, shelf, &file),
        Ok(Command::Same(file, other)) => same_command(alloc, shelf, &file, &other),
        Ok(Command::Edit(bound, file, script)) => {
            script_command(alloc, shelf, Shows::Hierarchy, &file, &script, bound)
        }
        Ok(Command::Regen(bound, file, script)) => {
            script_command(alloc, shelf, Shows::Program, &file, &script, bound)
        }
        Ok(Command::Make(prints, number)) => make_reply(alloc, prints, number),
        Ok(Command::Help) => help_reply(alloc),
        Ok(Command::Version) => version_reply(alloc),
        Err(WordsFault::Usage) => Reply::line(alloc, 64, b"usage"),
        Err(WordsFault::Memory) => Err(AllocError),
    }
}
