//! Steps that follow from those so far, until the goal is among them.

ghost use Rattle.std.specs.Prelude.{◌≡◌, ℕ, ◌+◌, ◌<◌, ◌≤◌, [], ◌∷◌, true, length, IfOk, OnOk, MatchOption};
ghost use Rattle.kaba_bits.specs.Sets.{bit};
ghost use Rattle.why_table.specs.Found.{HasEntry};
ghost use Rattle.why_table.specs.Search.{IsSearchInput, IsTrailInput, AreSteps, AreMore, HasClaimAt, HasClaim, IsStepFor, IsNextStep, NoneBy, NoneUpTo, IsDone, NoneGives, rule_at, claim_of, IsRowDone, AreRowsDone, AreAllDone};
ghost use Rattle.why_table.specs.declared.trail.Claim.TheVariants.{Entry};

use crate::check::follows;
use crate::find::steps::{add, number_of_claim};
use crate::find::{Given, Kind};
use crate::trail::{Claim, WhyRule, WhyStep};
use fact_model::Facts;
use kaba_base::{ColId, RowId, SiteId};
use kaba_bits::{BitRow, row_at};
use std::alloc::{AllocError, Global};

/// What a step is looked for: a claim, after these steps.
#[derive(Drop)]
pub struct Asked<'a> {
    pub alloc: Global,
    pub facts: &'a Facts,
    pub steps: &'a [WhyStep],
    pub claim: Claim,
}

/// The step with the claim, a rule and the numbers of earlier steps, if it follows. An error comes only for want of
/// memory.
fn tried(asked: &Asked, rule: WhyRule, from: &[u32]) -> Result<Option<WhyStep>, AllocError>
    requires { IsTrailInput asked.now }
    ensures { IfOk result (λ o. MatchOption o (NoneBy asked.now.facts.now asked.now.steps.now asked.now.claim rule from.now)
        (IsStepFor asked.now.facts.now asked.now.steps.now asked.now.claim)) }
{
    let mut numbers = Vec::new(asked.alloc);
    numbers.extend_from_slice(from)?;
    let step = WhyStep {
        claim: asked.claim,
        rule,
        from: numbers,
    };
    let count = asked.steps.len();
    if follows(asked.facts, asked.steps, count, &step) {
        return Ok(Some(step));
    }
    Ok(None)
}

/// Such a step by three earlier ones, of which the first two are given.
fn by_third(asked: &Asked, rule: WhyRule, i: u32, j: u32) -> Result<Option<WhyStep>, AllocError>
    requires { IsTrailInput asked.now }
    ensures { IfOk result (λ o. MatchOption o
        ((k : ℕ) → k < length asked.now.steps.now → NoneBy asked.now.facts.now asked.now.steps.now asked.now.claim rule (i ∷ j ∷ k ∷ []))
        (IsStepFor asked.now.facts.now asked.now.steps.now asked.now.claim)) }
{
    first_found_below!(k < asked.steps.len() as u32; tried(asked, rule, &[i, j, k])?)
}

/// Such a step by two earlier ones that are given, and perhaps a third.
fn by_two(asked: &Asked, rule: WhyRule, i: u32, j: u32) -> Result<Option<WhyStep>, AllocError>
    requires { IsTrailInput asked.now }
    ensures { IfOk result (λ o. MatchOption o (NoneUpTo asked.now.facts.now asked.now.steps.now asked.now.claim rule (i ∷ j ∷ []) 1)
        (IsStepFor asked.now.facts.now asked.now.steps.now asked.now.claim)) }
{
    match tried(asked, rule, &[i, j])? {
        Some(step) => Ok(Some(step)),
        None => by_third(asked, rule, i, j),
    }
}

/// Such a step by two or three earlier ones, of which the first is given.
fn by_second(asked: &Asked, rule: WhyRule, i: u32) -> Result<Option<WhyStep>, AllocError>
    requires { IsTrailInput asked.now }
    ensures { IfOk result (λ o. MatchOption o
        ((j : ℕ) → j < length asked.now.steps.now → NoneUpTo asked.now.facts.now asked.now.steps.now asked.now.claim rule (i ∷ j ∷ []) 1)
        (IsStepFor asked.now.facts.now asked.now.steps.now asked.now.claim)) }
{
    first_found_below!(j < asked.steps.len() as u32; by_two(asked, rule, i, j)?)
}

/// Such a step by an earlier one that is given, and perhaps others.
fn by_one(asked: &Asked, rule: WhyRule, i: u32) -> Result<Option<WhyStep>, AllocError>
    requires { IsTrailInput asked.now }
    ensures { IfOk result (λ o. MatchOption o (NoneUpTo asked.now.facts.now asked.now.steps.now asked.now.claim rule (i ∷ []) 2)
        (IsStepFor asked.now.facts.now asked.now.steps.now asked.now.claim)) }
{
    match tried(asked, rule, &[i])? {
        Some(step) => Ok(Some(step)),
        None => by_second(asked, rule, i),
    }
}

/// Such a step by earlier ones.
fn by_first(asked: &Asked, rule: WhyRule) -> Result<Option<WhyStep>, AllocError>
    requires { IsTrailInput asked.now }
    ensures { IfOk result (λ o. MatchOption o
        ((i : ℕ) → i < length asked.now.steps.now → NoneUpTo asked.now.facts.now asked.now.steps.now asked.now.claim rule (i ∷ []) 2)
        (IsStepFor asked.now.facts.now asked.now.steps.now asked.now.claim)) }
{
    first_found_below!(i < asked.steps.len() as u32; by_one(asked, rule, i)?)
}

/// A step by a rule with the claim. An error comes only for want of memory.
fn by_rule(asked: &Asked, rule: WhyRule) -> Result<Option<WhyStep>, AllocError>
    requires { IsTrailInput asked.now }
    ensures { IfOk result (λ o. MatchOption o (NoneUpTo asked.now.facts.now asked.now.steps.now asked.now.claim rule [] 3)
        (IsStepFor asked.now.facts.now asked.now.steps.now asked.now.claim)) }
{
    match tried(asked, rule, &[])? {
        Some(step) => Ok(Some(step)),
        None => by_first(asked, rule),
    }
}

/// The rule of a number.
fn rule_at(k: u32) -> WhyRule
    requires { k < 19 }
    ensures { result ≡ rule_at k }
{
    match k {
        0 => WhyRule::P1,
        1 => WhyRule::P2,
        2 => WhyRule::P3,
        3 => WhyRule::P4,
        4 => WhyRule::P5,
        5 => WhyRule::P6,
        6 => WhyRule::P7,
        7 => WhyRule::P8,
        8 => WhyRule::T1,
        9 => WhyRule::T2,
        10 => WhyRule::T3,
        11 => WhyRule::T4,
        12 => WhyRule::T5,
        13 => WhyRule::T6,
        14 => WhyRule::T7,
        15 => WhyRule::T8,
        16 => WhyRule::T9,
        17 => WhyRule::T10,
        _ => WhyRule::T11,
    }
}

/// A step with the claim. An error comes only for want of memory.
fn by_rules(asked: &Asked) -> Result<Option<WhyStep>, AllocError>
    requires { IsTrailInput asked.now }
    ensures { IfOk result (λ o. MatchOption o (NoneGives asked.now.facts.now asked.now.steps.now asked.now.claim)
        (IsStepFor asked.now.facts.now asked.now.steps.now asked.now.claim)) }
{
    first_found_below!(k < 19; by_rule(asked, rule_at(k))?)
}

/// A step with the claim, where there is none yet. An error comes only for want of memory.
fn justified(asked: &Asked) -> Result<Option<WhyStep>, AllocError>
    requires { IsTrailInput asked.now }
    ensures { IfOk result (λ o. MatchOption o (IsDone asked.now.facts.now asked.now.steps.now asked.now.claim)
        (IsNextStep asked.now.facts.now asked.now.steps.now)) }
{
    match number_of_claim(asked.steps, asked.claim) {
        Some(_) => Ok(None),
        None => by_rules(asked),
    }
}

/// The claim of a place.
fn claim_of(kind: Kind, a: u32, b: u32) -> Claim
    ensures { result ≡ claim_of kind a b }
{
    match kind {
        Kind::Point => Claim::InPoint(a, SiteId(b)),
        Kind::Cell => Claim::InCell(a, SiteId(b)),
        Kind::Row => Claim::Entry(RowId(a), ColId(b)),
    }
}

/// A step with the claim of a number of a set, where there is none yet. An error comes only for want of memory.
fn at_number(
    given: &Given,
    steps: &[WhyStep],
    kind: Kind,
    a: u32,
    set: &BitRow,
    b: u32,
) -> Result<Option<WhyStep>, AllocError>
    requires given { IsSearchInput given.now }
    requires few { length steps.now < 4294967295 }
    requires number { b < length set.now }
    ensures { IfOk result (λ o. MatchOption o (bit set.now b ≡ true → IsDone given.now.facts.now steps.now (claim_of kind a b))
        (IsNextStep given.now.facts.now steps.now)) }
{
    if !set.has(b) {
        return Ok(None);
    }
    let asked = Asked {
        alloc: given.alloc,
        facts: given.facts,
        steps,
        claim: claim_of(kind, a, b),
    };
    justified(&asked)
}

/// A step with a claim of a set. An error comes only for want of memory.
fn in_set(
    given: &Given,
    steps: &[WhyStep],
    kind: Kind,
    a: u32,
    set: &BitRow,
) -> Result<Option<WhyStep>, AllocError>
    requires given { IsSearchInput given.now }
    requires few { length steps.now < 4294967295 }
    ensures { IfOk result (λ o. MatchOption o (IsRowDone given.now.facts.now steps.now kind a set.now)
        (IsNextStep given.now.facts.now steps.now)) }
{
    first_found_below!(b < set.width(); at_number(given, steps, kind, a, set, b)?)
}

/// A step with a claim of a family of sets. An error comes only for want of memory.
fn in_sets(
    given: &Given,
    steps: &[WhyStep],
    kind: Kind,
    sets: &[BitRow],
) -> Result<Option<WhyStep>, AllocError>
    requires given { IsSearchInput given.now }
    requires few { length steps.now < 4294967295 }
    requires sets { length sets.now < 4294967295 }
    ensures { IfOk result (λ o. MatchOption o (AreRowsDone given.now.facts.now steps.now kind sets.now)
        (IsNextStep given.now.facts.now steps.now)) }
{
    first_found_below!(a < sets.len() as u32; in_set(given, steps, kind, a, row_at(sets, a as usize))?)
}

/// A step with a claim of the sets or the table. An error comes only for want of memory.
fn next_step(given: &Given, steps: &[WhyStep]) -> Result<Option<WhyStep>, AllocError>
    requires given { IsSearchInput given.now }
    requires few { length steps.now < 4294967295 }
    ensures { IfOk result (λ o. MatchOption o (AreAllDone given.now.facts.now steps.now given.now.pt.now given.now.table.now)
        (IsNextStep given.now.facts.now steps.now)) }
{
    if let Some(step) = in_sets(given, steps, Kind::Point, &given.pt.points)? {
        return Ok(Some(step));
    }
    if let Some(step) = in_sets(given, steps, Kind::Cell, &given.pt.cells)? {
        return Ok(Some(step));
    }
    in_sets(given, steps, Kind::Row, &given.table.rows)
}

/// Takes a step, where it follows and its claim is new. An error comes only for want of memory.
fn take(given: &Given, steps: &mut Vec<WhyStep>, step: WhyStep) -> Result<(), AllocError>
    requires given { IsSearchInput given.now }
    requires steps { AreSteps given.now.facts.now steps.old.items }
    ensures { OnOk result (AreSteps given.now.facts.now steps.new.items) }
{
    if number_of_claim(steps.as_slice(), step.claim).is_some() {
        return Ok(());
    }
    if !follows(given.facts, steps.as_slice(), steps.len(), &step) {
        return Ok(());
    }
    add(given.facts, steps, step)
}

/// The steps of a list that follow and have a new claim. An error comes only for want of memory.
pub fn taken(given: &Given, list: Vec<WhyStep>) -> Result<Vec<WhyStep>, AllocError>
    requires { IsSearchInput given.now }
    ensures { IfOk result (λ v. AreSteps given.now.facts.now v.items) }
{
    let mut steps = Vec::new(given.alloc);
    for step in list {
        take(given, &mut steps, step)?;
    }
    Ok(steps)
}

/// A step more, where an entry that holds has none yet. An error comes only for want of memory.
fn add_next(given: &Given, r: RowId, c: ColId, steps: &mut Vec<WhyStep>) -> Result<(), AllocError>
    requires given { IsSearchInput given.now }
    requires entry { HasEntry given.now.facts.now r.0 c.0 }
    requires steps { AreSteps given.now.facts.now steps.old.items }
    requires absent { HasClaim steps.old.items (Entry r c) → ⊥ }
    ensures { OnOk result (AreMore given.now.facts.now steps.old.items steps.new.items) }
{
    let _ = r;
    let _ = c;
    match next_step(given, steps.as_slice())? {
        Some(step) => add(given.facts, steps, step),
        None => unreachable!(),
    }
}

/// Adds steps until one has the claim that a row has a column, and answers its number. An error comes only for want of
/// memory.
pub fn searched(
    given: &Given,
    r: RowId,
    c: ColId,
    steps: &mut Vec<WhyStep>,
) -> Result<u32, AllocError>
    requires given { IsSearchInput given.now }
    requires entry { HasEntry given.now.facts.now r.0 c.0 }
    requires steps { AreSteps given.now.facts.now steps.old.items }
    ensures steps { OnOk result (AreSteps given.now.facts.now steps.new.items) }
    ensures goal { IfOk result (HasClaimAt steps.new.items (Entry r c)) }
{
    'more: loop {
        if let Some(k) = number_of_claim(steps.as_slice(), Claim::Entry(r, c)) {
            return Ok(k as u32);
        }
        add_next(given, r, c, steps)?;
    }
}
