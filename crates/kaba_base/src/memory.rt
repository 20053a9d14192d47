//! A shelf and a sink in memory, which fail at the calls that they are told.
#![tactic(auto)]

ghost use Rattle.std.specs.Prelude.{◌≡◌, ◌⊎◌, ℕ, ◌+◌, ◌-◌, ◌<◌, ◌≤◌, List, [], Some, None, Err, IfOk, IfSome, MatchOption, OnErr, OnOk, length, take, string_bytes, vec_len};
ghost use Rattle.kaba_base.specs.Outside.{Files, IsAbsent, IsFile, Rose, taken_more, file_of};
ghost use Rattle.kaba_base.specs.declared.outside.Fetch.TheVariants as Fetch;

use crate::outside::{Failed, Fetch, Shelf, Sink};
use std::alloc::{AllocError, Global};

/// Files in memory. It tells all of its files.
#[derive(Drop)]
pub struct MemShelf {
    /// The files: names and bytes. Of two of one name it has the first.
    pub files: Vec<(String, Vec<u8>)>,
    /// The numbers of the calls that fail, counted from 1.
    pub fails: Vec<u64>,
    /// How many calls there were; it stands still at the last value of a `u64`.
    pub calls: u64,
    /// How many calls failed because `fails` says so.
    pub count: u64,
}

impl MemShelf {
    /// The bytes of the first file of this name.
    fn find(&self, name: &str) -> Option<&[u8]>
        ensures { MatchOption result (file_of self.now.files.items name.now ≡ None) (λ bytes. file_of self.now.files.items name.now ≡ Some bytes.now) }
    {
        for file in &self.files {
            if file.0.as_str() == name {
                return Some(file.1.as_slice());
            }
        }
        None
    }

    /// Counts this call, and says whether it is one that fails.
    fn fails_now(&mut self) -> bool
        ensures files { self.new.files ≡ self.old.files }
        ensures count { self.new.count ≡ self.old.count }
    {
        self.calls = self.calls.saturating_add(1);
        self.fails.contains(&self.calls)
    }
}

impl Shelf for MemShelf {
    ghost files = { λ shelf. Some (file_of shelf.files.items) };

    ghost faults = { λ shelf. shelf.count };

    fn fetch(
        &mut self,
        _alloc: Global,
        name: &String,
        limit: u32,
        into: &mut Vec<u8>,
    ) -> Result<(), Fetch> {
        into.clear();
        if self.fails_now() {
            self.count = self.count.saturating_add(1);
            return Err(Fetch::Failed);
        }
        match self.find(name.as_str()) {
            None => Err(Fetch::Failed),
            Some(bytes) => {
                let most = bytes.len().min(limit as usize);
                match into.extend_from_slice(&bytes[..most]) {
                    Ok(()) => Ok(()),
                    Err(_) => Err(Fetch::Memory),
                }
            }
        }
    }
}

/// A sink in memory with room for so many bytes. It tells the bytes taken.
#[derive(Drop)]
pub struct MemSink {
    /// The bytes taken so far.
    pub taken: Vec<u8>,
    /// The most bytes that it takes in all.
    pub room: usize,
    /// The most bytes that it takes in one call.
    pub most: usize,
    /// The numbers of the calls that fail, counted from 1.
    pub fails: Vec<u64>,
    /// The numbers of the calls that take nothing, counted from 1.
    pub zeros: Vec<u64>,
    /// How many calls there were; it stands still at the last value of a `u64`.
    pub calls: u64,
    /// How many calls failed.
    pub count: u64,
}

impl MemSink {
    /// An empty sink that takes at most `most` bytes in one call, with the memory for `room`
    /// bytes, or `AllocError` where memory is short.
    pub fn new(alloc: Global, room: usize, most: usize) -> Result<MemSink, AllocError>
        ensures taken { IfOk result (λ sink. sink.taken.items ≡ []) }
        ensures room { IfOk result (λ sink. sink.room ≡ room) }
        ensures most { IfOk result (λ sink. sink.most ≡ most) }
        ensures fails { IfOk result (λ sink. sink.fails.items ≡ []) }
        ensures zeros { IfOk result (λ sink. sink.zeros.items ≡ []) }
        ensures calls { IfOk result (λ sink. sink.calls ≡ 0) }
        ensures count { IfOk result (λ sink. sink.count ≡ 0) }
    {
        Ok(MemSink {
            taken: Vec::with_capacity(alloc, room)?,
            room,
            most,
            fails: Vec::new(alloc),
            zeros: Vec::new(alloc),
            calls: 0,
            count: 0,
        })
    }

    /// Raises the count of faults.
    fn fail(&mut self) -> Failed
        ensures taken { self.new.taken ≡ self.old.taken }
        ensures later { self.old.count ≤ self.new.count }
        ensures count { Rose self.old.count self.new.count }
    {
        self.count = self.count.saturating_add(1);
        Failed
    }

    /// How many bytes the next call takes of a piece with so many.
    fn takes(&self, length: usize) -> usize
        ensures { result ≤ length }
    {
        if self.zeros.contains(&self.calls) {
            0
        } else {
            length
                .min(self.most)
                .min(self.room.saturating_sub(self.taken.len()))
        }
    }
}

impl Sink for MemSink {
    ghost taken = { λ sink. Some sink.taken.items };

    ghost faults = { λ sink. sink.count };

    fn write(&mut self, piece: &[u8]) -> Result<usize, Failed> {
        self.calls = self.calls.saturating_add(1);
        if self.fails.contains(&self.calls) {
            return Err(self.fail());
        }
        let most = self.takes(piece.len());
        if most == 0 && !piece.is_empty() {
            return Err(self.fail());
        }
        match self.taken.extend_from_slice(&piece[..most]) {
            Ok(()) => Ok(most),
            Err(_) => Err(self.fail()),
        }
    }
}
