//! Why the facts of a program are not given.

use std::alloc::AllocError;

/// What is counted against a limit.
#[derive(Clone, Copy)]
pub enum Counted {
    /// The rows: at most 16,384.
    Rows,
    /// The columns: at most 8,192.
    Columns,
    /// The sites: at most 8,192.
    Sites,
    /// The flow points and the cells together: at most 65,536.
    Points,
}

/// Why the facts of a program are not given.
#[derive(Drop)]
pub enum FactsFault {
    /// There is too much of something; the number is one past its limit.
    TooMany(Counted, u32),
    /// Memory is short.
    Memory,
}

impl From<AllocError> for FactsFault {
    ghost use Rattle.std.specs.Prelude.{◌≡◌};
    ghost use Rattle.flow_rules.specs.declared.faults.FactsFault.TheVariants.{Memory};

    ghost from_gives = { λ _ e. e ≡ Memory };

    fn from(_error: AllocError) -> FactsFault {
        FactsFault::Memory
    }
}
