//! The bodies that calls may run.

ghost use Rattle.std.specs.Prelude.{◌≡◌, ◌<◌, IfOk, All, length};
ghost use Rattle.std.specs.Option.{option_map};
ghost use Rattle.fact_model.specs.InRange.{InRange, IsPoint};
ghost use Rattle.fact_model.specs.Flowing.{AreSets};
ghost use Rattle.sure_report.specs.Report.{AreJudged, AreSpotsInRange, RunsThese, MayRunThese, call_spots};
ghost use Rattle.sure_report.specs.Found.{body_for, joined_body};

use crate::Bodies;
use crate::spots::call_spots;
use fact_model::{CallInfo, Facts, PointsTo, Spot, finds};
use kaba_base::{ColId, SiteId};
use std::alloc::{AllocError, Global};

/// The bodies of each call, in the order of the text.
pub fn judged_calls(alloc: Global, facts: &Facts, pt: &PointsTo) -> Result<Vec<Bodies>, AllocError>
    requires facts { InRange facts.now }
    requires sets { AreSets facts.now pt.now }
    requires spots { AreSpotsInRange facts.now }
    ensures { IfOk result (λ v. AreJudged (RunsThese facts.now pt.now) (call_spots facts.now) v.items) }
{
    let spots = call_spots(alloc, facts)?;
    judge(alloc, facts, pt, &spots)
}

/// The bodies of each of these calls.
fn judge(
    alloc: Global,
    facts: &Facts,
    pt: &PointsTo,
    spots: &[Spot],
) -> Result<Vec<Bodies>, AllocError>
    requires facts { InRange facts.now }
    requires sets { AreSets facts.now pt.now }
    requires spots { All (λ x. x.at < length facts.now.calls.items) spots.now }
    ensures { IfOk result (λ v. AreJudged (RunsThese facts.now pt.now) spots.now v.items) }
{
    let mut calls = Vec::new(alloc);
    for x in spots {
        calls.push(judge_one(facts, pt, x))?;
    }
    Ok(calls)
}

/// The bodies of one call.
fn judge_one(facts: &Facts, pt: &PointsTo, x: &Spot) -> Bodies
    requires facts { InRange facts.now }
    requires sets { AreSets facts.now pt.now }
    requires number { x.now.at < length facts.now.calls.items }
    ensures { RunsThese facts.now pt.now x.now result }
{
    bodies_of(facts, pt, &facts.calls[x.at as usize])
}

/// The bodies that a call may run.
fn bodies_of(facts: &Facts, pt: &PointsTo, call: &CallInfo) -> Bodies
    requires facts { InRange facts.now }
    requires sets { AreSets facts.now pt.now }
    requires point { IsPoint facts.now call.now.receiver }
    ensures { MayRunThese facts.now pt.now call.now result }
{
    let mut found = Bodies::Zero;
    for s in 0..facts.sites.len() as u32 {
        found = joined(found, body_at(facts, pt, call, s));
    }
    found
}

/// The body that a call runs for a site in the set of its receiver, where there is one.
fn body_at(facts: &Facts, pt: &PointsTo, call: &CallInfo, s: u32) -> Option<ColId>
    requires facts { InRange facts.now }
    requires sets { AreSets facts.now pt.now }
    requires point { IsPoint facts.now call.now.receiver }
    requires site { s < length facts.now.sites.items }
    ensures { option_map (λ d. d.0) result ≡ body_for facts.now pt.now call.now.receiver call.now.slot s }
{
    if pt.has(call.receiver, SiteId(s)) {
        finds(facts, facts.sites[s as usize].class, call.slot)
    } else {
        None
    }
}

/// The bodies with one more.
fn joined(found: Bodies, next: Option<ColId>) -> Bodies
    ensures { result ≡ joined_body found next }
{
    match (found, next) {
        (Bodies::Zero, Some(d)) => Bodies::One(d),
        (Bodies::One(e), Some(d)) => { if e == d { Bodies::One(e) } else { Bodies::Many } }
        (_, _) => found,
    }
}
