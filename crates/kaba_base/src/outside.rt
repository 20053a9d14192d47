//! The world outside: where files come from, and where bytes go.
#![tactic(auto)]

ghost use Rattle.std.specs.Prelude.{◌≡◌, ◌⊎◌, ℕ, ◌<◌, ◌≤◌, List, [], length, take, Option, Err, IfOk, OnErr, OnOk, string_bytes};
ghost use Rattle.kaba_base.specs.Outside.{Files, IsAbsent, IsFile, Rose, taken_more};
ghost use Rattle.kaba_base.specs.declared.outside.Fetch.TheVariants as Fetch;

use std::alloc::Global;

/// Why a file was not fetched.
#[derive(Clone, Copy, PartialEq, Eq)]
pub enum Fetch {
    /// There is no such file, or a fault was met, which raised the shelf's count.
    Failed,
    /// Memory is short.
    Memory,
}

/// A write failed, which raised the sink's count.
#[derive(Clone, Copy)]
pub struct Failed;

/// Where files come from. It has two meanings: the map from names to bytes, where the shelf
/// tells it, and a count of faults that never falls.
pub trait Shelf {
    ghost files: { Self → Option Files };

    ghost faults: { Self → ℕ };

    /// Puts the first `limit` bytes of the file into `into`, or all of them where it is shorter,
    /// in place of what `into` held. `Failed` comes only where the count rose in this call (or
    /// stands at the last value of a `u64`), or where the shelf tells that there is no such file;
    /// such a name is never Ok. After an Err `into` is empty.
    fn fetch(
        &mut self,
        alloc: Global,
        name: &String,
        limit: u32,
        into: &mut Vec<u8>,
    ) -> Result<(), Fetch>
        ensures bytes { OnOk result ((bytes : List ℕ) → IsFile (files self.old) (string_bytes name.now) bytes → into.new.items ≡ take limit bytes) }
        ensures within { OnOk result (length into.new.items ≤ limit) }
        ensures present { IsAbsent (files self.old) (string_bytes name.now) → OnOk result ⊥ }
        ensures empty { OnErr result (into.new.items ≡ []) }
        ensures same { files self.new ≡ files self.old }
        ensures later { faults self.old ≤ faults self.new }
        ensures failed { result ≡ Err Fetch.Failed → Rose (faults self.old) (faults self.new) ⊎ IsAbsent (files self.old) (string_bytes name.now) };
}

/// Where bytes go. It has two meanings: the bytes taken so far, where the sink tells them, and a
/// count of faults that never falls.
pub trait Sink {
    ghost taken: { Self → Option (List ℕ) };

    ghost faults: { Self → ℕ };

    /// Takes bytes from the front of the piece, and answers how many: one at least where the piece
    /// is not empty. `Failed` comes only where the count rose in this call (or stands at the last
    /// value of a `u64`), and then nothing was taken. It takes no memory.
    fn write(&mut self, piece: &[u8]) -> Result<usize, Failed>
        ensures within { IfOk result (λ n. n ≤ length piece.now) }
        ensures some { IfOk result (λ n. 0 < length piece.now → 0 < n) }
        ensures taken { IfOk result (λ n. taken self.new ≡ taken_more (taken self.old) (take n piece.now)) }
        ensures kept { OnErr result (taken self.new ≡ taken self.old) }
        ensures later { faults self.old ≤ faults self.new }
        ensures failed { OnErr result (Rose (faults self.old) (faults self.new)) };
}
