//! Whole files, and whole texts written.
#![tactic(auto)]

ghost use Rattle.std.specs.Prelude.{◌≡◌, ◌⊎◌, ℕ, ◌+◌, ◌<◌, ◌≤◌, List, Err, IfOk, OnErr, OnOk, length, string_bytes};
ghost use Rattle.kaba_base.specs.Outside.{Files, IsAbsent, IsFile, Rose, taken_more, HoldsPrefix};
ghost use Rattle.kaba_base.specs.declared.reading.ReadFault.TheVariants as ReadFault;

use crate::outside::{Failed, Fetch, Shelf, Sink};
use std::alloc::Global;
use thiserror::Error;

/// Why a file was not read.
#[derive(Clone, Copy, Debug, Error)]
pub enum ReadFault {
    /// There is no such file, or the shelf met a fault.
    #[error("the file cannot be read")]
    CannotRead,
    /// The file has more bytes than the limit: it has this many at least.
    #[error("the file has {0} bytes or more")]
    TooLong(u32),
    /// Memory is short.
    #[error("memory is short")]
    Memory,
}

/// The bytes of the file. `TooLong(limit + 1)` comes exactly where it has more than `limit`, and
/// `CannotRead` only where the shelf's count of faults rose or the shelf tells that there is no
/// such file.
pub fn read_file<F: Shelf>(
    alloc: Global,
    shelf: &mut F,
    name: &String,
    limit: u32,
) -> Result<Vec<u8>, ReadFault>
    requires limit { limit < 4294967295 }
    ensures bytes { IfOk result (λ v. (bytes : List ℕ) → IsFile (F.files shelf.old) (string_bytes name.now) bytes → v.items ≡ bytes) }
    ensures within { IfOk result (λ v. length v.items ≤ limit) }
    ensures present { IsAbsent (F.files shelf.old) (string_bytes name.now) → OnOk result ⊥ }
    ensures too_long { (n : ℕ) → result ≡ Err (ReadFault.TooLong n) → (n ≡ limit + 1) × ((bytes : List ℕ) → IsFile (F.files shelf.old) (string_bytes name.now) bytes → limit < length bytes) × (IsAbsent (F.files shelf.old) (string_bytes name.now) → ⊥) }
    ensures cannot { result ≡ Err ReadFault.CannotRead → Rose (F.faults shelf.old) (F.faults shelf.new) ⊎ IsAbsent (F.files shelf.old) (string_bytes name.now) }
    ensures same { F.files shelf.new ≡ F.files shelf.old }
    ensures later { F.faults shelf.old ≤ F.faults shelf.new }
{
    let mut bytes = Vec::new(alloc);
    match shelf.fetch(alloc, name, limit + 1, &mut bytes) {
        Ok(()) => {
            if bytes.len() > limit as usize {
                Err(ReadFault::TooLong(limit + 1))
            } else {
                Ok(bytes)
            }
        }
        Err(Fetch::Failed) => Err(ReadFault::CannotRead),
        Err(Fetch::Memory) => Err(ReadFault::Memory),
    }
}

/// Writes all of the bytes. `Failed` comes only where the sink's count of faults rose, and then
/// the sink took a front of them.
pub fn write_all<S: Sink>(sink: &mut S, bytes: &[u8]) -> Result<(), Failed>
    ensures taken { OnOk result (S.taken sink.new ≡ taken_more (S.taken sink.old) bytes.now) }
    ensures cut { OnErr result (HoldsPrefix (S.taken sink.old) (S.taken sink.new) bytes.now) }
    ensures later { S.faults sink.old ≤ S.faults sink.new }
    ensures failed { OnErr result (Rose (S.faults sink.old) (S.faults sink.new)) }
{
    let mut done = 0;
    while done < bytes.len() {
        done += sink.write(&bytes[done..])?;
    }
    Ok(())
}
