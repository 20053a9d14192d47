//! The bytes of a file that the words name.
#![tactic(auto)]

ghost use Rattle.std.specs.Prelude.{◌≡◌, ◌≤◌, IfOk, string_bytes};
ghost use Rattle.kaba_top.specs.Fetching.{IsFetched};

use crate::Tried;
use crate::reply::Reply;
use kaba_base::{ReadFault, Shelf, read_file};
use std::alloc::{AllocError, Global};

/// A file that was asked for: its bytes, or the reply that tells why there are none.
#[derive(Drop)]
pub enum Fetched {
    Bytes(Vec<u8>),
    Refused(Reply),
}

/// The bytes of the file, or the reply that it cannot be read or is too large.
pub fn fetch_file<F: Shelf>(alloc: Global, shelf: &mut F, name: &String) -> Tried<Fetched>
    ensures fetched { IfOk result (λ fetched. IsFetched (F.files shelf.old) (F.faults shelf.old) (F.faults shelf.new) (string_bytes name.now) fetched) }
    ensures same { F.files shelf.new ≡ F.files shelf.old }
    ensures later { F.faults shelf.old ≤ F.faults shelf.new }
{
    match read_file(alloc, shelf, name, 1_048_576) {
        Ok(bytes) => Ok(Fetched::Bytes(bytes)),
        Err(ReadFault::CannotRead) => {
            let text = format!(in alloc; "cannot read {name}")?;
            Ok(Fetched::Refused(Reply::line(alloc, 66, text.as_bytes())?))
        }
        Err(ReadFault::TooLong(_)) => {
            Ok(Fetched::Refused(Reply::line(alloc, 67, b"too large: file 1048576")?))
        }
        Err(ReadFault::Memory) => Err(AllocError),
    }
}
