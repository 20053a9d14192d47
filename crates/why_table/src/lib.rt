//! Why an entry is in the table: a trail of steps that a small checker tests, and its text.
#![tactic(auto)]

ghost use Rattle.std.specs.Prelude.{◌≡◌, ◌++◌, ◌↔◌, All, IsTrue, OnErr, OnOk};
ghost use Rattle.std.specs.Bool.{OnTrue};
ghost use Rattle.fact_model.specs.InRange.{InRange};
ghost use Rattle.why_table.specs.Trails.{ClaimHolds, Passes};
ghost use Rattle.why_table.specs.Text.{trail_text};

mod check;
mod entries;
mod find;
mod flowing;
mod items;
mod rules;
mod text;
mod trail;

use check::all_follow;
use fact_model::Facts;
pub use find::find_trail;
use std::alloc::{AllocError, Global};
use text::text_of;
use thiserror::Error;
pub use trail::{Claim, Trail, WhyRule, WhyStep};

/// Why there is no trail.
#[derive(Clone, Copy, Debug, Error)]
pub enum WhyFault {
    /// The row or the column is not there, or the row does not have the column.
    #[error("no entry")]
    NoEntry,
    /// Memory is short.
    #[error("memory is short")]
    Memory,
}

impl From<AllocError> for WhyFault {
    ghost use Rattle.std.specs.Prelude.{◌≡◌};
    ghost use Rattle.why_table.specs.declared.WhyFault.{WhyFault};

    ghost from_gives = { λ _ e. e ≡ WhyFault.Memory };

    fn from(_e: AllocError) -> WhyFault {
        WhyFault::Memory
    }
}

/// Whether each step of a trail follows: it names only earlier steps, and its rule gives its claim of theirs and of the
/// lists of the facts. Where it answers true, each claim holds: of the least points-to sets (Andersen, 1994), and of the
/// least table that is closed under its rules (Snelting and Tip, 2000). It takes no memory.
pub fn passes(facts: &Facts, trail: &Trail) -> bool
    requires { InRange facts.now }
    ensures exact { IsTrue result ↔ Passes facts.now trail.now.steps.items }
    ensures holds { OnTrue result (All (λ s. ClaimHolds facts.now s.claim) trail.now.steps.items) }
{
    all_follow(facts, &trail.steps)
}

/// Appends the count of the steps, and for each a line `sK CLAIM by RULE sA ..`: its number, its claim (`rI cJ`,
/// `point P site S` or `cell X site S`), its rule and the steps that it names.
/// An error comes only for want of memory, and then nothing was appended.
pub fn show_trail(alloc: Global, trail: &Trail, into: &mut Vec<u8>) -> Result<(), AllocError>
    ensures text { OnOk result (into.new.items ≡ into.old.items ++ trail_text trail.now.steps.items) }
    ensures same { OnErr result (into.new.items ≡ into.old.items) }
{
    let text = text_of(alloc, &trail.steps)?;
    into.extend_from_slice(text.as_bytes())?;
    Ok(())
}
