//! What is sure of every run of a program, by the points-to sets of its facts.
#![tactic(auto)]

ghost use Rattle.std.specs.Prelude.{◌≡◌, ◌++◌, IfOk, OnErr, OnOk};
ghost use Rattle.fact_model.specs.InRange.{InRange};
ghost use Rattle.fact_model.specs.Flowing.{AreSets};
ghost use Rattle.sure_report.specs.Report.{AreSpotsInRange, IsSureReport};
ghost use Rattle.sure_report.specs.Text.{sure_text};

mod calls;
mod casts;
mod members;
mod spots;
mod text;

use calls::judged_calls;
use casts::judged_casts;
use fact_model::{Facts, PointsTo};
use kaba_base::ColId;
use members::dead_members;
use std::alloc::{AllocError, Global};
use text::text_of;

/// How many different bodies a call may run, and which where it is one.
#[derive(Clone, Copy)]
pub enum Bodies {
    /// None: nothing reaches the call.
    Zero,
    /// The body of this column alone.
    One(ColId),
    /// Two or more.
    Many,
}

/// What is sure of every run: of each cast whether it passes, of each call which bodies it may run, each in the order
/// of the text, and the columns of the members that no run reaches, rising.
#[derive(Drop)]
pub struct Sure {
    pub casts: Vec<bool>,
    pub calls: Vec<Bodies>,
    pub dead: Vec<ColId>,
}

/// What is sure of every run by the points-to sets of the facts. An error comes only for want of memory.
pub fn report(alloc: Global, facts: &Facts, pt: &PointsTo) -> Result<Sure, AllocError>
    requires facts { InRange facts.now }
    requires sets { AreSets facts.now pt.now }
    requires spots { AreSpotsInRange facts.now }
    ensures { IfOk result (λ r. IsSureReport facts.now pt.now r) }
{
    let casts = judged_casts(alloc, facts, pt)?;
    let calls = judged_calls(alloc, facts, pt)?;
    let dead = dead_members(alloc, facts, pt)?;
    Ok(Sure { casts, calls, dead })
}

/// Appends the counts and the lines of casts, calls and dead members. An error comes only for want of memory, and then
/// nothing was appended.
pub fn show_sure(
    alloc: Global,
    facts: &Facts,
    sure: &Sure,
    into: &mut Vec<u8>,
) -> Result<(), AllocError>
    ensures text { OnOk result (into.new.items ≡ into.old.items ++ sure_text facts.now sure.now) }
    ensures same { OnErr result (into.new.items ≡ into.old.items) }
{
    let text = text_of(alloc, facts, sure)?;
    into.extend_from_slice(text.as_bytes())?;
    Ok(())
}
