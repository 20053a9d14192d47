//! The checker: whether each step of a trail follows.

ghost use Rattle.std.specs.Prelude.{◌≡◌, ◌<◌, ◌↔◌, All, IsTrue, map};
ghost use Rattle.fact_model.specs.InRange.{InRange};
ghost use Rattle.why_table.specs.Trails.{claim_at, Follows, Passes};
ghost use Rattle.why_table.specs.Tests.{test_rule};

use crate::rules::{test_none, test_one, test_three, test_two};
use crate::trail::{Claim, WhyStep};
use fact_model::Facts;
use kaba_base::SiteId;

/// The claim of the step of a number.
fn claim_at(steps: &[WhyStep], k: u32) -> Claim
    ensures { result ≡ claim_at steps.now k }
{
    match steps.get(k as usize) {
        Some(step) => step.claim,
        None => Claim::InPoint(0, SiteId(0)),
    }
}

/// Whether the rule of a step gives its claim of those of the steps that it names.
fn is_given(facts: &Facts, steps: &[WhyStep], step: &WhyStep) -> bool
    requires { InRange facts.now }
    ensures { result ≡ test_rule facts.now step.now.rule (map (claim_at steps.now) step.now.from.items) step.now.claim }
{
    match step.from.as_slice() {
        [] => test_none(facts, step.rule, step.claim),
        [a] => test_one(facts, step.rule, claim_at(steps, *a), step.claim),
        [a, b] => test_two(
            facts,
            step.rule,
            claim_at(steps, *a),
            claim_at(steps, *b),
            step.claim,
        ),
        [a, b, c] => test_three(
            facts,
            step.rule,
            claim_at(steps, *a),
            claim_at(steps, *b),
            claim_at(steps, *c),
            step.claim,
        ),
        _ => false,
    }
}

/// Whether a step names only steps before the k-th.
fn names_earlier(from: &[u32], k: usize) -> bool
    ensures { IsTrue result ↔ All (λ j. j < k) from.now }
{
    from.iter().all(|j| (*j as usize) < k)
}

/// Whether a step, the k-th, follows.
pub fn follows(facts: &Facts, steps: &[WhyStep], k: usize, step: &WhyStep) -> bool
    requires { InRange facts.now }
    ensures { IsTrue result ↔ Follows facts.now steps.now k step.now }
{
    names_earlier(&step.from, k) && is_given(facts, steps, step)
}

/// Whether each step follows.
pub fn all_follow(facts: &Facts, steps: &[WhyStep]) -> bool
    requires { InRange facts.now }
    ensures { IsTrue result ↔ Passes facts.now steps.now }
{
    for k in 0..steps.len() {
        if !follows(facts, steps, k, &steps[k]) {
            return false;
        }
    }
    true
}
