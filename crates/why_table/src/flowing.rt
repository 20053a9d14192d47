//! The tests of the rules P1 to P8: the inclusions of points-to sets (Andersen, 1994).

ghost use Rattle.std.specs.Prelude.{◌≡◌};
ghost use Rattle.fact_model.specs.InRange.{InRange};
ghost use Rattle.why_table.specs.Tests.{are_joined, test_p1, test_p2, is_load, test_p3, is_store, test_p4, is_this_flow, has_this_flow, is_this_call, test_p5, is_argument_flow, has_argument_flow, is_argument_call, has_argument_call, test_p6, is_result_flow, has_result_flow, is_result_call, has_result_call, test_p7, is_cast, test_p8};

use crate::items::{
    fits, is_below, is_cell, is_found, is_same, number_of, point_at, site_at, site_of,
};
use crate::trail::Claim;
use fact_model::{BodyInfo, CallInfo, CastInfo, Facts, LoadInfo, StoreInfo, is_slot};

/// P1: a creation that flows into a point.
pub fn test_p1(facts: &Facts, claim: Claim) -> bool
    ensures { result ≡ test_p1 facts.now claim }
{
    facts
        .news
        .iter()
        .any(|x| is_same(claim, Claim::InPoint(x.point, x.site)))
}

/// P2: a flow from a point to another.
pub fn test_p2(facts: &Facts, p: Claim, claim: Claim) -> bool
    ensures { result ≡ test_p2 facts.now p claim }
{
    let s = site_of(claim);
    facts.flows.iter().any(|x| {
        is_same(p, Claim::InPoint(x.from, s)) && is_same(claim, Claim::InPoint(x.to, s))
    })
}

/// Whether a load reads the claim.
fn is_load(facts: &Facts, p: Claim, q: Claim, claim: Claim, x: &LoadInfo) -> bool
    ensures { result ≡ is_load facts.now p q claim x.now }
{
    is_same(p, Claim::InPoint(x.base, site_of(p)))
        && is_same(q, Claim::InCell(number_of(q), site_of(claim)))
        && is_same(claim, Claim::InPoint(x.into, site_of(claim)))
        && is_cell(facts, number_of(q), site_of(p), x.column)
}

/// P3: a read.
pub fn test_p3(facts: &Facts, p: Claim, q: Claim, claim: Claim) -> bool
    ensures { result ≡ test_p3 facts.now p q claim }
{
    facts.loads.iter().any(|x| is_load(facts, p, q, claim, x))
}

/// Whether a store writes the claim.
fn is_store(facts: &Facts, p: Claim, q: Claim, claim: Claim, x: &StoreInfo) -> bool
    requires { InRange facts.now }
    ensures { result ≡ is_store facts.now p q claim x.now }
{
    is_same(p, Claim::InPoint(x.base, site_of(p)))
        && is_same(q, Claim::InPoint(x.value, site_of(claim)))
        && is_same(claim, Claim::InCell(number_of(claim), site_of(claim)))
        && is_cell(facts, number_of(claim), site_of(p), x.column)
        && fits(facts, x.column, site_of(claim), site_of(p))
}

/// P4: a write.
pub fn test_p4(facts: &Facts, p: Claim, q: Claim, claim: Claim) -> bool
    requires { InRange facts.now }
    ensures { result ≡ test_p4 facts.now p q claim }
{
    facts.stores.iter().any(|x| is_store(facts, p, q, claim, x))
}

/// Whether a body that a call runs has the site of its receiver in its `this`.
fn is_this_flow(facts: &Facts, p: Claim, call: &CallInfo, claim: Claim, body: &BodyInfo) -> bool
    requires { InRange facts.now }
    ensures { result ≡ is_this_flow facts.now p call.now claim body.now }
{
    is_same(claim, Claim::InPoint(body.this, site_of(p)))
        && is_found(facts, site_of(p), call.slot, body.column)
}

/// The same of any body.
fn has_this_flow(facts: &Facts, p: Claim, call: &CallInfo, claim: Claim) -> bool
    requires { InRange facts.now }
    ensures { result ≡ has_this_flow facts.now p call.now claim }
{
    facts
        .bodies
        .iter()
        .any(|body| is_this_flow(facts, p, call, claim, body))
}

/// Whether a call on the site of a claim does.
fn is_this_call(facts: &Facts, p: Claim, claim: Claim, call: &CallInfo) -> bool
    requires { InRange facts.now }
    ensures { result ≡ is_this_call facts.now p claim call.now }
{
    is_same(p, Claim::InPoint(call.receiver, site_of(p))) && has_this_flow(facts, p, call, claim)
}

/// P5: the receiver of a call into the `this` of its body.
pub fn test_p5(facts: &Facts, p: Claim, claim: Claim) -> bool
    requires { InRange facts.now }
    ensures { result ≡ test_p5 facts.now p claim }
{
    facts
        .calls
        .iter()
        .any(|call| is_this_call(facts, p, claim, call))
}

/// Whether a point is an argument and another the parameter at the same place.
fn are_joined(args: &[Option<u32>], params: &[Option<u32>], from: u32, to: u32) -> bool
    ensures { result ≡ are_joined args.now params.now from to }
{
    (0..args.len()).any(|k| is_slot(point_at(args, k), from) && is_slot(point_at(params, k), to))
}

/// Whether a body that a call runs has what is in an argument in its parameter.
fn is_argument_flow(
    facts: &Facts,
    p: Claim,
    call: &CallInfo,
    q: Claim,
    claim: Claim,
    body: &BodyInfo,
) -> bool
    requires { InRange facts.now }
    ensures { result ≡ is_argument_flow facts.now p call.now q claim body.now }
{
    are_joined(&call.args, &body.params, number_of(q), number_of(claim))
        && is_found(facts, site_of(p), call.slot, body.column)
}

/// The same of any body.
fn has_argument_flow(facts: &Facts, p: Claim, call: &CallInfo, q: Claim, claim: Claim) -> bool
    requires { InRange facts.now }
    ensures { result ≡ has_argument_flow facts.now p call.now q claim }
{
    facts
        .bodies
        .iter()
        .any(|body| is_argument_flow(facts, p, call, q, claim, body))
}

/// Whether a call on the site of a claim does.
fn is_argument_call(facts: &Facts, p: Claim, q: Claim, claim: Claim, call: &CallInfo) -> bool
    requires { InRange facts.now }
    ensures { result ≡ is_argument_call facts.now p q claim call.now }
{
    is_same(p, Claim::InPoint(call.receiver, site_of(p)))
        && has_argument_flow(facts, p, call, q, claim)
}

/// Whether some call does.
fn has_argument_call(facts: &Facts, p: Claim, q: Claim, claim: Claim) -> bool
    requires { InRange facts.now }
    ensures { result ≡ has_argument_call facts.now p q claim }
{
    facts
        .calls
        .iter()
        .any(|call| is_argument_call(facts, p, q, claim, call))
}

/// P6: an argument into the parameter of the body.
pub fn test_p6(facts: &Facts, p: Claim, q: Claim, claim: Claim) -> bool
    requires { InRange facts.now }
    ensures { result ≡ test_p6 facts.now p q claim }
{
    is_same(q, Claim::InPoint(number_of(q), site_of(claim)))
        && is_same(claim, Claim::InPoint(number_of(claim), site_of(claim)))
        && has_argument_call(facts, p, q, claim)
}

/// Whether a body that a call runs has its result in a point.
fn is_result_flow(facts: &Facts, p: Claim, call: &CallInfo, q: Claim, body: &BodyInfo) -> bool
    requires { InRange facts.now }
    ensures { result ≡ is_result_flow facts.now p call.now q body.now }
{
    is_slot(body.result, number_of(q)) && is_found(facts, site_of(p), call.slot, body.column)
}

/// The same of any body.
fn has_result_flow(facts: &Facts, p: Claim, call: &CallInfo, q: Claim) -> bool
    requires { InRange facts.now }
    ensures { result ≡ has_result_flow facts.now p call.now q }
{
    facts
        .bodies
        .iter()
        .any(|body| is_result_flow(facts, p, call, q, body))
}

/// Whether a call on the site of a claim does.
fn is_result_call(facts: &Facts, p: Claim, q: Claim, claim: Claim, call: &CallInfo) -> bool
    requires { InRange facts.now }
    ensures { result ≡ is_result_call facts.now p q claim call.now }
{
    is_same(p, Claim::InPoint(call.receiver, site_of(p)))
        && is_slot(call.result, number_of(claim))
        && has_result_flow(facts, p, call, q)
}

/// Whether some call does.
fn has_result_call(facts: &Facts, p: Claim, q: Claim, claim: Claim) -> bool
    requires { InRange facts.now }
    ensures { result ≡ has_result_call facts.now p q claim }
{
    facts
        .calls
        .iter()
        .any(|call| is_result_call(facts, p, q, claim, call))
}

/// P7: the result of the body into the call.
pub fn test_p7(facts: &Facts, p: Claim, q: Claim, claim: Claim) -> bool
    requires { InRange facts.now }
    ensures { result ≡ test_p7 facts.now p q claim }
{
    is_same(q, Claim::InPoint(number_of(q), site_of(claim)))
        && is_same(claim, Claim::InPoint(number_of(claim), site_of(claim)))
        && has_result_call(facts, p, q, claim)
}

/// Whether the site of a claim passes a cast.
fn is_cast(facts: &Facts, p: Claim, claim: Claim, x: &CastInfo) -> bool
    requires { InRange facts.now }
    ensures { result ≡ is_cast facts.now p claim x.now }
{
    is_same(p, Claim::InPoint(x.from, site_of(claim)))
        && is_same(claim, Claim::InPoint(x.into, site_of(claim)))
        && is_below(facts, site_at(facts, site_of(claim)).class, x.class)
}

/// P8: a cast or an `instanceof`.
pub fn test_p8(facts: &Facts, p: Claim, claim: Claim) -> bool
    requires { InRange facts.now }
    ensures { result ≡ test_p8 facts.now p claim }
{
    facts.casts.iter().any(|x| is_cast(facts, p, claim, x))
}
