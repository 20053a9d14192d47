//! The tests by rule and by the count of earlier claims.

ghost use Rattle.std.specs.Prelude.{◌≡◌};
ghost use Rattle.fact_model.specs.InRange.{InRange};
ghost use Rattle.why_table.specs.Tests.{test_none, test_one, test_two, test_three};

use crate::entries::{
    test_t1, test_t2, test_t3, test_t4, test_t5, test_t6, test_t7, test_t8, test_t9, test_t10,
    test_t11,
};
use crate::flowing::{test_p1, test_p2, test_p3, test_p4, test_p5, test_p6, test_p7, test_p8};
use crate::trail::{Claim, WhyRule};
use fact_model::Facts;

/// Whether a rule gives a claim of no earlier one.
pub fn test_none(facts: &Facts, rule: WhyRule, claim: Claim) -> bool
    ensures { result ≡ test_none facts.now rule claim }
{
    match rule {
        WhyRule::P1 => test_p1(facts, claim),
        WhyRule::T1 => test_t1(facts, claim),
        WhyRule::T2 => test_t2(facts, claim),
        WhyRule::T4 => test_t4(facts, claim),
        WhyRule::T7 => test_t7(facts, claim),
        WhyRule::T11 => test_t11(facts, claim),
        _ => false,
    }
}

/// Whether a rule gives a claim of one earlier one.
pub fn test_one(facts: &Facts, rule: WhyRule, p: Claim, claim: Claim) -> bool
    requires { InRange facts.now }
    ensures { result ≡ test_one facts.now rule p claim }
{
    match rule {
        WhyRule::P2 => test_p2(facts, p, claim),
        WhyRule::P5 => test_p5(facts, p, claim),
        WhyRule::P8 => test_p8(facts, p, claim),
        WhyRule::T3 => test_t3(facts, p, claim),
        WhyRule::T5 => test_t5(facts, p, claim),
        WhyRule::T8 => test_t8(facts, p, claim),
        _ => false,
    }
}

/// Whether a rule gives a claim of two earlier ones.
pub fn test_two(facts: &Facts, rule: WhyRule, p: Claim, q: Claim, claim: Claim) -> bool
    requires { InRange facts.now }
    ensures { result ≡ test_two facts.now rule p q claim }
{
    match rule {
        WhyRule::P3 => test_p3(facts, p, q, claim),
        WhyRule::P4 => test_p4(facts, p, q, claim),
        WhyRule::P6 => test_p6(facts, p, q, claim),
        WhyRule::P7 => test_p7(facts, p, q, claim),
        WhyRule::T6 => test_t6(facts, p, q, claim),
        WhyRule::T9 => test_t9(facts, p, q, claim),
        _ => false,
    }
}

/// Whether a rule gives a claim of three earlier ones.
pub fn test_three(facts: &Facts, rule: WhyRule, p: Claim, q: Claim, r: Claim, claim: Claim) -> bool
    requires { InRange facts.now }
    ensures { result ≡ test_three facts.now rule p q r claim }
{
    match rule {
        WhyRule::T10 => test_t10(facts, p, q, r, claim),
        _ => false,
    }
}
