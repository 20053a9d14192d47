//! Files read from memory, and texts written there.

ghost use Rattle.std.specs.Prelude.{◌<◌};

use kaba_base::{MemShelf, MemSink, read_file, write_all};
use std::alloc::{AllocError, Global};

/// A shelf with one file, whose second and third calls fail.
fn shelf(alloc: Global) -> Result<MemShelf, AllocError> {
    let mut files = Vec::new(alloc);
    let bytes = Vec::from_slice(alloc, b"ab")?;
    files.push((String::from_str(alloc, "f")?, bytes))?;
    Ok(MemShelf {
        files,
        fails: Vec::from_slice(alloc, &[2, 3])?,
        calls: 0,
        count: 0,
    })
}

/// What the next read of a file gives, and how many calls have failed.
fn add_read(
    alloc: Global,
    text: &mut String,
    shelf: &mut MemShelf,
    name: &str,
    limit: u32,
) -> Result<(), AllocError>
    requires { limit < 4294967295 }
{
    let file = String::from_str(alloc, name)?;
    write!(text, "read {name} {limit}: ")?;
    match read_file(alloc, shelf, &file, limit) {
        Ok(bytes) => write!(text, "{} bytes", bytes.len())?,
        Err(fault) => write!(text, "{fault}")?,
    }
    let count = shelf.count;
    write!(text, ", faults {count}\n")
}

/// Reads of a file that is there and of one that is not.
pub fn add_reads(alloc: Global, text: &mut String) -> Result<(), AllocError> {
    let mut shelf = shelf(alloc)?;
    for (name, limit) in [
        ("f", 2),
        ("f", 2),
        ("f", 2),
        ("f", 3),
        ("f", 1),
        ("f", 0),
        ("g", 9),
    ] {
        add_read(alloc, text, &mut shelf, name, limit)?;
    }
    Ok(())
}

/// What the next write gives, all bytes taken so far, how many calls there were and how many failed.
fn add_write(text: &mut String, sink: &mut MemSink, piece: &str) -> Result<(), AllocError> {
    let word = match write_all(sink, piece.as_bytes()) {
        Ok(()) => "taken",
        Err(_) => "failed",
    };
    write!(text, "write {piece}: {word}, ")?;
    for byte in &sink.taken {
        text.push(char::from(*byte))?;
    }
    let (calls, count) = (sink.calls, sink.count);
    write!(text, ", calls {calls}, faults {count}\n")
}

/// Writes to a sink with room for 13 bytes that takes two a call, whose fifth call takes nothing and whose seventh fails.
pub fn add_writes(alloc: Global, text: &mut String) -> Result<(), AllocError> {
    let mut sink = MemSink::new(alloc, 13, 2)?;
    sink.zeros.push(5)?;
    sink.fails.push(7)?;
    for piece in ["hello", "you", "and", "all", "of", "you"] {
        add_write(text, &mut sink, piece)?;
    }
    Ok(())
}
