//! Real files, and the standard streams.
#![tactic(auto)]

ghost use Rattle.std.specs.Prelude.{◌≡◌, ◌⊎◌, ℕ, ◌-◌, ◌<◌, ◌≤◌, List, [], None, Err, IfOk, OnErr, OnOk, length, take, string_bytes, vec_len};
ghost use Rattle.kaba_base.specs.Outside.{Files, IsAbsent, IsFile, Rose, taken_more};
ghost use Rattle.kaba_base.specs.declared.outside.Fetch.TheVariants as Fetch;

use crate::outside::{Failed, Fetch, Shelf, Sink};
use std::alloc::Global;
use std::fs;
use std::io::{Read, Write};
use std::rt::Files;

/// The files of the machine. It tells no content, and each error raises its count.
#[derive(Drop)]
pub struct FileShelf<R: Files + Drop> {
    files: R,
    count: u64,
}

impl<R: Files + Drop> FileShelf<R> {
    /// The files that this runtime reaches.
    pub fn new(files: R) -> FileShelf<R>
        ensures faults { ⟦<FileShelf<R> as Shelf>⟧.faults result ≡ 0 }
    {
        FileShelf { files, count: 0 }
    }

    /// Raises the count of faults.
    fn fail(&mut self)
        ensures later { self.old.count ≤ self.new.count }
        ensures count { Rose self.old.count self.new.count }
    {
        self.count = self.count.saturating_add(1);
    }
}

impl<R: Files + Drop> Shelf for FileShelf<R> {
    ghost files = { λ _. None };

    ghost faults = { λ shelf. shelf.count };

    fn fetch(
        &mut self,
        _alloc: Global,
        name: &String,
        limit: u32,
        into: &mut Vec<u8>,
    ) -> Result<(), Fetch> {
        into.clear();
        let fault = match fs::open(&self.files, name.as_str()) {
            Ok(mut file) => match read_front(&mut file, limit, into) {
                Ok(()) => return Ok(()),
                Err(fault) => fault,
            },
            Err(_) => Fetch::Failed,
        };
        into.clear();
        if fault == Fetch::Failed {
            self.fail();
        }
        Err(fault)
    }
}

/// Puts the next `limit` bytes that the reader gives behind those in `into`, or all that it gives
/// where these are fewer.
fn read_front<R: Read>(reader: &mut R, limit: u32, into: &mut Vec<u8>) -> Result<(), Fetch>
    requires { vec_len into.old ≡ 0 }
    ensures within { OnOk result (vec_len into.new ≤ limit) }
{
    let mut chunk = [0u8; 4096];
    for _ in 0..limit {
        let most = chunk.len().min(limit as usize - into.len());
        match reader.read(&mut chunk[..most]) {
            Ok(0) => return Ok(()),
            Ok(taken) => {
                if into.extend_from_slice(&chunk[..taken]).is_err() {
                    return Err(Fetch::Memory);
                }
            }
            Err(_) => return Err(Fetch::Failed),
        }
    }
    Ok(())
}

/// The standard output or the standard error. It tells no content, and each error raises its
/// count; so does a write that takes nothing.
#[derive(Drop)]
pub struct StdSink<W: Write + Drop> {
    stream: W,
    count: u64,
}

impl<W: Write + Drop> StdSink<W> {
    /// The sink over this stream.
    pub fn new(stream: W) -> StdSink<W>
        ensures faults { ⟦<StdSink<W> as Sink>⟧.faults result ≡ 0 }
    {
        StdSink { stream, count: 0 }
    }
}

impl<W: Write + Drop> Sink for StdSink<W> {
    ghost taken = { λ _. None };

    ghost faults = { λ sink. sink.count };

    fn write(&mut self, piece: &[u8]) -> Result<usize, Failed> {
        match self.stream.write(piece) {
            Ok(taken) if taken > 0 || piece.is_empty() => Ok(taken),
            _ => {
                self.count = self.count.saturating_add(1);
                Err(Failed)
            }
        }
    }
}
