//! The lines of a trail.

ghost use Rattle.std.specs.Prelude.{◌≡◌, ◌++◌, IfOk, OnOk, codes, string_bytes};
ghost use Rattle.std.specs.Fmt.{decimal};
ghost use Rattle.why_table.specs.Text.{claim_text, rule_name, from_text, step_text, steps_text, trail_text};

use crate::trail::{Claim, WhyRule, WhyStep};
use std::alloc::{AllocError, Global};

/// The lines.
pub fn text_of(alloc: Global, steps: &[WhyStep]) -> Result<String, AllocError>
    ensures { IfOk result (λ s. string_bytes s ≡ trail_text steps.now) }
{
    let count = steps.len();
    let mut text = String::new(alloc);
    write!(text, "proof {count}\n")?;
    add_steps(&mut text, steps)?;
    Ok(text)
}

/// Adds the lines of steps.
fn add_steps(text: &mut String, steps: &[WhyStep]) -> Result<(), AllocError>
    ensures { OnOk result (string_bytes text.new ≡ string_bytes text.old ++ steps_text 0 steps.now) }
{
    for k in 0..steps.len() {
        add_step(text, k, &steps[k])?;
    }
    Ok(())
}

/// Adds the line of one step.
fn add_step(text: &mut String, k: usize, step: &WhyStep) -> Result<(), AllocError>
    ensures { OnOk result (string_bytes text.new ≡ string_bytes text.old ++ step_text k step.now) }
{
    write!(text, "s{k} ")?;
    add_claim(text, step.claim)?;
    text.push_str(" by ")?;
    text.push_str(rule_name(step.rule))?;
    add_from(text, &step.from)?;
    text.push_str("\n")?;
    Ok(())
}

/// Adds a claim.
fn add_claim(text: &mut String, claim: Claim) -> Result<(), AllocError>
    ensures { OnOk result (string_bytes text.new ≡ string_bytes text.old ++ claim_text claim) }
{
    match claim {
        Claim::InPoint(p, s) => add_site(text, "point ", p, s.0),
        Claim::InCell(c, s) => add_site(text, "cell ", c, s.0),
        Claim::Entry(r, c) => add_entry(text, r.0, c.0),
    }
}

/// Adds a site in a point or in a cell.
fn add_site(text: &mut String, kind: &str, number: u32, site: u32) -> Result<(), AllocError>
    ensures { OnOk result (string_bytes text.new ≡ string_bytes text.old ++ (kind.now ++ (decimal number ++ (codes " site " ++ decimal site)))) }
{
    write!(text, "{kind}{number} site {site}")?;
    Ok(())
}

/// Adds an entry.
fn add_entry(text: &mut String, row: u32, column: u32) -> Result<(), AllocError>
    ensures { OnOk result (string_bytes text.new ≡ string_bytes text.old ++ (codes "r" ++ (decimal row ++ (codes " c" ++ decimal column)))) }
{
    write!(text, "r{row} c{column}")?;
    Ok(())
}

/// Adds the steps that a step names.
fn add_from(text: &mut String, from: &[u32]) -> Result<(), AllocError>
    ensures { OnOk result (string_bytes text.new ≡ string_bytes text.old ++ from_text from.now) }
{
    for k in from {
        write!(text, " s{k}")?;
    }
    Ok(())
}

/// The name of a rule.
fn rule_name(rule: WhyRule) -> &'static str
    ensures { result.now ≡ rule_name rule }
{
    match rule {
        WhyRule::P1 => "P1",
        WhyRule::P2 => "P2",
        WhyRule::P3 => "P3",
        WhyRule::P4 => "P4",
        WhyRule::P5 => "P5",
        WhyRule::P6 => "P6",
        WhyRule::P7 => "P7",
        WhyRule::P8 => "P8",
        WhyRule::T1 => "T1",
        WhyRule::T2 => "T2",
        WhyRule::T3 => "T3",
        WhyRule::T4 => "T4",
        WhyRule::T5 => "T5",
        WhyRule::T6 => "T6",
        WhyRule::T7 => "T7",
        WhyRule::T8 => "T8",
        WhyRule::T9 => "T9",
        WhyRule::T10 => "T10",
        WhyRule::T11 => "T11",
    }
}
