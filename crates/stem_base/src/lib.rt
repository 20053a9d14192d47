//! The least base of implications of a table (Duquenne and Guigues, 1986), its laws, and its text.
#![tactic(auto)]

ghost use Rattle.std.specs.Prelude.{◌≡◌, ◌++◌, ◌≤◌, IfErr, IfOk, OnErr, OnOk, length};
ghost use Rattle.kaba_bits.specs.Sets.{HasWidth};
ghost use Rattle.stem_base.specs.Base.{common, all_sides, IsStemBaseOf};
ghost use Rattle.stem_base.specs.Faults.{IsBaseFault};
ghost use Rattle.stem_base.specs.Laws.{ClosesAsSaid, ReadsAsSaid, AreABase, AllFollow, NoneShorter, OneBase, NeverBoth};
ghost use Rattle.stem_base.specs.Text.{base_text};

mod implications;
mod next;
mod stems;
mod text;

use fact_model::Table;
pub use implications::{Implication, saturate};
use std::alloc::{AllocError, Global};
use stems::stem_of;
use text::text_of;
use thiserror::Error;

/// Why there is no base.
#[derive(Clone, Copy, Debug, Error)]
pub enum BaseFault {
    /// There are more implications than this bound.
    #[error("there are more than {0} implications")]
    TooManyImplications(u32),
    /// Memory is short.
    #[error("memory is short")]
    Memory,
}

impl From<AllocError> for BaseFault {
    ghost use Rattle.std.specs.Prelude.{◌≡◌};
    ghost use Rattle.stem_base.specs.declared.BaseFault.{BaseFault};

    ghost from_gives = { λ _ e. e ≡ BaseFault.Memory };

    fn from(_e: AllocError) -> BaseFault {
        BaseFault::Memory
    }
}

/// For each pseudo-closed set of columns of a table the implication from it to its closure, once and no other, by
/// rising size of the left side and then by its columns. `TooManyImplications(bound)` comes exactly where there are more
/// than `bound`. The time is in proportion to closed and pseudo-closed sets, times columns, times implications; of both
/// kinds of sets there can be two to the number of columns.
pub fn stem(alloc: Global, table: &Table, bound: u32) -> Result<Vec<Implication>, BaseFault>
    requires { HasWidth table.now.width table.now.rows.items }
    ensures base { IfOk result (λ v. IsStemBaseOf table.now v.items) }
    ensures within { IfOk result (λ v. length v.items ≤ bound) }
    ensures cause { IfErr result (λ e. IsBaseFault table.now.rows.items table.now.width bound e) }
{
    stem_of(alloc, &table.rows, table.width, bound)
}

/// Appends the count of the implications, and for each a line `iK: LEFT -> ADDED`: its left side, and what the right side
/// has beyond it, each as a list of ` cJ`, and an empty one as ` -`.
/// An error comes only for want of memory, and then nothing was appended.
pub fn show_base(
    alloc: Global,
    base: &Vec<Implication>,
    into: &mut Vec<u8>,
) -> Result<(), AllocError>
    ensures text { OnOk result (into.new.items ≡ into.old.items ++ base_text (all_sides base.now.items)) }
    ensures same { OnErr result (into.new.items ≡ into.old.items) }
{
    let text = text_of(alloc, base)?;
    into.extend_from_slice(text.as_bytes())?;
    Ok(())
}

/// The definitions read as they are said, and what the base of a table is good for. Its implications hold in the table, and a set is closed under them exactly
/// where it is its own closure, so that every implication that holds follows; no list with these properties is shorter.
/// A table has one base, and has not both a base within a bound and more implications than the bound.
pub fn stem_laws()
    ensures closes { ClosesAsSaid }
    ensures read { ReadsAsSaid }
    ensures base { AreABase }
    ensures follow { AllFollow }
    ensures least { NoneShorter }
    ensures one { OneBase }
    ensures apart { NeverBoth }
{}
