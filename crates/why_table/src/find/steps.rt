//! The steps so far.

ghost use Rattle.std.specs.Prelude.{◌≡◌, ℕ, ◌+◌, ◌<◌, ◌↔◌, length, IsTrue, MatchOption, OnOk, Some, slice_get};
ghost use Rattle.why_table.specs.Search.{AreSteps, AreMore, IsNextStep, HasClaimAt, HasClaim};

use crate::trail::{Claim, WhyStep};
use fact_model::Facts;
use std::alloc::AllocError;

/// The step at a number.
pub fn step_at(steps: &[WhyStep], k: usize) -> &WhyStep
    requires { k < length steps.now }
    ensures { slice_get steps.now k ≡ Some result.now }
{
    &steps[k]
}

/// Whether two claims are one.
fn is_claim(a: Claim, b: Claim) -> bool
    ensures { IsTrue result ↔ (a ≡ b) }
{
    a == b
}

/// The number of the step with a claim.
pub fn number_of_claim(steps: &[WhyStep], claim: Claim) -> Option<usize>
    ensures { MatchOption result (HasClaim steps.now claim → ⊥) (HasClaimAt steps.now claim) }
{
    for k in 0..steps.len() {
        if is_claim(step_at(steps, k).claim, claim) {
            return Some(k);
        }
    }
    None
}

/// Adds a step. An error comes only for want of memory, and where the numbers of steps no longer fit.
pub fn add(facts: &Facts, steps: &mut Vec<WhyStep>, step: WhyStep) -> Result<(), AllocError>
    requires steps { AreSteps facts.now steps.old.items }
    requires step { IsNextStep facts.now steps.old.items step }
    ensures { OnOk result (AreMore facts.now steps.old.items steps.new.items) }
{
    let _ = facts;
    if steps.len() >= 4294967294 {
        return Err(AllocError);
    }
    steps.push(step)?;
    Ok(())
}
