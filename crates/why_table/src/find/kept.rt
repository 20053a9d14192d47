//! The steps that a goal needs, and no others, with new numbers.

ghost use Rattle.std.specs.Prelude.{◌≡◌, ℕ, ◌+◌, ◌<◌, ◌≤◌, length, map, All, IfOk, OnOk, slice_index_or};
ghost use Rattle.why_table.specs.Kept.{AddsAll, NamesEarlier, AreNeeded, IsRenamed, IsPut, AreMoved, AreKept};

use crate::find::steps::step_at;
use crate::trail::WhyStep;
use kaba_bits::BitRow;
use std::alloc::{AllocError, Global};

/// Adds each number of a list.
fn mark_all(marks: &mut BitRow, from: &[u32])
    requires { All (λ x. x < length marks.old) from.now }
    ensures { AddsAll from.now marks.old marks.new }
{
    for x in from {
        marks.set(*x);
    }
}

/// What the step of a number names, where the step is marked.
fn need_at(steps: &[WhyStep], goal: u32, k: u32, marks: &mut BitRow)
    requires steps { NamesEarlier steps.now }
    requires goal { goal < length steps.now }
    requires number { k ≤ goal }
    requires marks { AreNeeded steps.now goal (k + 1) marks.old }
    ensures { AreNeeded steps.now goal k marks.new }
{
    let _ = goal;
    if marks.has(k) {
        mark_all(marks, &step_at(steps, k as usize).from);
    }
}

/// The numbers of a goal and of the steps that it needs. An error comes only for want of memory.
pub fn needed(alloc: Global, steps: &[WhyStep], goal: u32) -> Result<BitRow, AllocError>
    requires steps { NamesEarlier steps.now }
    requires goal { goal < length steps.now }
    requires fits { goal < 4294967295 }
    ensures { IfOk result (AreNeeded steps.now goal 0) }
{
    let mut marks = BitRow::new(alloc, goal + 1)?;
    marks.set(goal);
    let mut k = goal + 1;
    while k > 0 {
        k -= 1;
        need_at(steps, goal, k, &mut marks);
    }
    Ok(marks)
}

/// The new number of a step.
fn place_at(places: &[u32], k: u32) -> u32
    requires { k < length places.now }
    ensures { result ≡ slice_index_or places.now k 0 }
{
    places[k as usize]
}

/// The new numbers of steps. An error comes only for want of memory.
fn renumbered(alloc: Global, places: &[u32], from: &[u32]) -> Result<Vec<u32>, AllocError>
    requires { All (λ x. x < length places.now) from.now }
    ensures { IfOk result (λ v. v.items ≡ map (λ x. slice_index_or places.now x 0) from.now) }
{
    let mut out = Vec::new(alloc);
    for x in from {
        out.push(place_at(places, *x))?;
    }
    Ok(out)
}

/// A step that names others by their new numbers. An error comes only for want of memory.
fn moved(alloc: Global, places: &[u32], step: &WhyStep) -> Result<WhyStep, AllocError>
    requires { All (λ x. x < length places.now) step.now.from.items }
    ensures { IfOk result (IsRenamed (λ x. slice_index_or places.now x 0) step.now) }
{
    let from = renumbered(alloc, places, &step.from)?;
    Ok(WhyStep {
        claim: step.claim,
        rule: step.rule,
        from,
    })
}

/// Adds a step with its new numbers. An error comes only for want of memory.
fn put_moved(
    alloc: Global,
    places: &[u32],
    step: &WhyStep,
    out: &mut Vec<WhyStep>,
) -> Result<(), AllocError>
    requires { All (λ x. x < length places.now) step.now.from.items }
    ensures { OnOk result (IsPut (λ x. slice_index_or places.now x 0) step.now out.old.items out.new.items) }
{
    let step = moved(alloc, places, step)?;
    out.push(step)?;
    Ok(())
}

/// The step of a number, where it is marked, and its new number. An error comes only for want of memory.
fn keep_at(
    alloc: Global,
    steps: &[WhyStep],
    marks: &BitRow,
    k: u32,
    places: &mut Vec<u32>,
    out: &mut Vec<WhyStep>,
) -> Result<(), AllocError>
    requires steps { NamesEarlier steps.now }
    requires number { k < length marks.now }
    requires marks { length marks.now ≤ length steps.now }
    requires kept { AreKept steps.now marks.now k places.old.items out.old.items }
    ensures { OnOk result (AreKept steps.now marks.now (k + 1) places.new.items out.new.items) }
{
    places.push(out.len() as u32)?;
    if marks.has(k) {
        put_moved(alloc, places, step_at(steps, k as usize), out)?;
    }
    Ok(())
}

/// The marked steps, with new numbers. An error comes only for want of memory.
pub fn kept(alloc: Global, steps: &[WhyStep], marks: &BitRow) -> Result<Vec<WhyStep>, AllocError>
    requires steps { NamesEarlier steps.now }
    requires marks { length marks.now ≤ length steps.now }
    ensures { IfOk result (λ v. AreMoved steps.now marks.now (length marks.now) v.items) }
{
    let mut places = Vec::new(alloc);
    let mut out = Vec::new(alloc);
    for k in 0..marks.width() {
        keep_at(alloc, steps, marks, k, &mut places, &mut out)?;
    }
    Ok(out)
}
