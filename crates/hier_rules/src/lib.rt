//! The obligations of a class hierarchy: the first instance of the first one that is broken (after
//! Streckenbach and Snelting, 2004).
#![tactic(auto)]

ghost use Rattle.std.specs.Prelude.{◌≡◌, IfOk};
ghost use Rattle.hier_rules.specs.Words.{IsObligationInput};
ghost use Rattle.hier_rules.specs.First.{first_changed_run, first_of_edit, first_broken};

/// Whether one of the numbers below a count passes a test.
macro_rules! any_below {
    ($number:ident < $count:expr; $test:expr) => {{
        for $number in 0..$count {
            if $test {
                return true;
            }
        }
        false
    }};
}

/// Whether one of the numbers of a set passes a test.
macro_rules! any_in {
    ($number:ident in $set:expr; $test:expr) => {{
        let _width = $set.width();
        let mut at = 0;
        'scan: while let Some($number) = $set.next(at) {
            if $test {
                return true;
            }
            at = $number + 1;
        }
        false
    }};
}

/// What is found at the first of the numbers below a count at which something is.
macro_rules! first_below {
    ($number:ident < $count:expr; $found:expr) => {{
        for $number in 0..$count {
            if let Some(found) = $found {
                return Some(found);
            }
        }
        None
    }};
}

/// The same in a function that fails where memory is short.
macro_rules! first_found_below {
    ($number:ident < $count:expr; $found:expr) => {{
        for $number in 0..$count {
            if let Some(found) = $found {
                return Ok(Some(found));
            }
        }
        Ok(None)
    }};
}

mod after;
mod bodies;
mod broken;
mod chains;
mod clashes;
mod index;
mod kept;
mod met;
mod names;
mod outcomes;
mod pairs;
mod places;
mod rows;
mod taken;
mod touched;

pub use after::{first_broken_after, first_broken_joined};
use bodies::{first_two_bodies, first_wrong_need, first_wrong_super};
pub use broken::{Broken, Nodes, Rule};
pub use chains::{first_unchained, first_unchained_beyond};
pub use clashes::{ClashPair, name_clashes};
pub use index::{JoinIndex, join_index};
pub use kept::{KnownNodes, keep_known};
use names::first_misnamed;
use outcomes::first_wrong_outcome;
pub use places::Asked;
use rows::{first_unoffered, first_untied};
use std::alloc::{AllocError, Global};

/// The first instance of the first broken obligation of B2 to B9, by the numbers that each names in
/// turn; `None` where all hold. The sets are those of the facts. An error comes only for want of memory.
pub fn first_broken(alloc: Global, asked: &Asked) -> Result<Option<Broken>, AllocError>
    requires { IsObligationInput asked.now }
    ensures first { IfOk result (λ b. b ≡ first_broken asked.now.facts.now asked.now.pt.now asked.now.hier.now) }
{
    match first_of_edit(alloc, asked)? {
        Some(found) => Ok(Some(found)),
        None => first_unchained(alloc, asked.facts, asked.hier),
    }
}

/// The same of B2 to B8, which an edit is tested for.
pub fn first_of_edit(alloc: Global, asked: &Asked) -> Result<Option<Broken>, AllocError>
    requires { IsObligationInput asked.now }
    ensures first { IfOk result (λ b. b ≡ first_of_edit asked.now.facts.now asked.now.pt.now asked.now.hier.now) }
{
    if let Some(found) = first_unoffered(asked) {
        return Ok(Some(found));
    }
    if let Some(found) = first_untied(alloc, asked)? {
        return Ok(Some(found));
    }
    match first_changed_run(alloc, asked)? {
        Some(found) => Ok(Some(found)),
        None => first_misnamed(alloc, asked),
    }
}

/// The first instance against B4, B5, B6 and B7: of bodies and of outcomes.
fn first_changed_run(alloc: Global, asked: &Asked) -> Result<Option<Broken>, AllocError>
    requires { IsObligationInput asked.now }
    ensures { IfOk result (λ b. b ≡ first_changed_run asked.now.facts.now asked.now.pt.now asked.now.hier.now) }
{
    if let Some(found) = first_wrong_need(alloc, asked)? {
        return Ok(Some(found));
    }
    if let Some(found) = first_wrong_super(alloc, asked)? {
        return Ok(Some(found));
    }
    match first_two_bodies(asked) {
        Some(found) => Ok(Some(found)),
        None => first_wrong_outcome(alloc, asked),
    }
}
