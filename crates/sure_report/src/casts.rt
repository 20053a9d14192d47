//! Casts that never fail.

ghost use Rattle.std.specs.Prelude.{◌≡◌, ◌↔◌, ◌<◌, IfOk, IsTrue, true, All, length};
ghost use Rattle.fact_model.specs.Items.{site_class};
ghost use Rattle.fact_model.specs.Classes.{IsBelow};
ghost use Rattle.fact_model.specs.InRange.{InRange, IsClass, IsPoint};
ghost use Rattle.fact_model.specs.Flowing.{AreSets};
ghost use Rattle.sure_report.specs.Report.{AreJudged, AreSpotsInRange, AllPass, InPoint, cast_spots, test_at};

use crate::spots::cast_spots;
use fact_model::{Facts, PointsTo, Spot, TestInfo, below};
use kaba_base::SiteId;
use std::alloc::{AllocError, Global};

/// Whether each cast never fails, in the order of the text.
pub fn judged_casts(alloc: Global, facts: &Facts, pt: &PointsTo) -> Result<Vec<bool>, AllocError>
    requires facts { InRange facts.now }
    requires sets { AreSets facts.now pt.now }
    requires spots { AreSpotsInRange facts.now }
    ensures { IfOk result (λ v. AreJudged (λ x b. (b ≡ true) ↔ AllPass facts.now pt.now (test_at facts.now x.at)) (cast_spots facts.now) v.items) }
{
    let spots = cast_spots(alloc, facts)?;
    judge(alloc, facts, pt, &spots)
}

/// Whether each of these casts never fails.
fn judge(
    alloc: Global,
    facts: &Facts,
    pt: &PointsTo,
    spots: &[Spot],
) -> Result<Vec<bool>, AllocError>
    requires facts { InRange facts.now }
    requires sets { AreSets facts.now pt.now }
    requires spots { All (λ x. x.at < length facts.now.tests.items) spots.now }
    ensures { IfOk result (λ v. AreJudged (λ x b. (b ≡ true) ↔ AllPass facts.now pt.now (test_at facts.now x.at)) spots.now v.items) }
{
    let mut casts = Vec::new(alloc);
    for x in spots {
        casts.push(judge_one(facts, pt, x))?;
    }
    Ok(casts)
}

/// Whether a cast never fails.
fn judge_one(facts: &Facts, pt: &PointsTo, x: &Spot) -> bool
    requires facts { InRange facts.now }
    requires sets { AreSets facts.now pt.now }
    requires number { x.now.at < length facts.now.tests.items }
    ensures { (result ≡ true) ↔ AllPass facts.now pt.now (test_at facts.now x.now.at) }
{
    all_pass(facts, pt, &facts.tests[x.at as usize])
}

/// Whether each site in the set of what is tested has a class at or below the one.
fn all_pass(facts: &Facts, pt: &PointsTo, x: &TestInfo) -> bool
    requires facts { InRange facts.now }
    requires sets { AreSets facts.now pt.now }
    requires point { IsPoint facts.now x.now.from }
    ensures { IsTrue result ↔ AllPass facts.now pt.now x.now }
{
    for s in 0..facts.sites.len() as u32 {
        if !passes_at(facts, pt, x, s) {
            return false;
        }
    }
    true
}

/// Whether a site is not in the set of what is tested, or has a class at or below the one.
fn passes_at(facts: &Facts, pt: &PointsTo, x: &TestInfo, s: u32) -> bool
    requires facts { InRange facts.now }
    requires sets { AreSets facts.now pt.now }
    requires point { IsPoint facts.now x.now.from }
    requires site { s < length facts.now.sites.items }
    ensures { IsTrue result ↔ (InPoint facts.now pt.now x.now.from s → IsBelow facts.now (site_class facts.now s) x.now.class.0) }
{
    !pt.has(x.from, SiteId(s)) || below(facts, facts.sites[s as usize].class, x.class)
}
