//! How the trail of an entry is found.

ghost use Rattle.std.specs.Prelude.{◌≡◌, ◌↔◌, ◌<◌, IfOk, IfErr, IsTrue, OnOk, length};
ghost use Rattle.fact_model.specs.InRange.{InRange};
ghost use Rattle.fact_model.specs.Flowing.{AreSets};
ghost use Rattle.fact_model.specs.Entries.{IsTable};
ghost use Rattle.why_table.specs.Found.{AreMemberAccesses, HasEntry, IsTrailOf};
ghost use Rattle.why_table.specs.Search.{IsSearchInput, AreSteps};

/// What is found at the first of the numbers below a count at which something is, in a function that fails where
/// memory is short.
macro_rules! first_found_below {
    ($number:ident < $count:expr; $found:expr) => {{
        for $number in 0..$count {
            if let Some(found) = $found {
                return Ok(Some(found));
            }
        }
        Ok(None)
    }};
}

mod guess;
mod kept;
mod search;
mod steps;

use crate::WhyFault;
use crate::trail::{Trail, WhyStep};
use fact_model::{Facts, PointsTo, Table};
use guess::guessed;
use kaba_base::{ColId, RowId};
use kept::{kept, needed};
use search::{searched, taken};
use std::alloc::{AllocError, Global};

/// Where a claim stands: in a point, in a cell, or in a row of the table.
#[derive(Clone, Copy)]
pub enum Kind {
    Point,
    Cell,
    Row,
}

/// What a trail is looked for in: the facts, their points-to sets and their table.
#[derive(Drop)]
pub struct Given<'a> {
    pub alloc: Global,
    pub facts: &'a Facts,
    pub pt: &'a PointsTo,
    pub table: &'a Table,
}

/// Whether the row and the column are there and the table has the entry.
fn has_entry(facts: &Facts, table: &Table, r: RowId, c: ColId) -> bool
    requires { IsTable facts.now table.now }
    ensures { IsTrue result ↔ HasEntry facts.now r.0 c.0 }
{
    let _ = facts;
    (r.0 as usize) < table.rows.len() && c.0 < table.width && table.has(r, c)
}

/// The steps of a trail of an entry. An error comes only for want of memory.
fn found(given: &Given, r: RowId, c: ColId) -> Result<Vec<WhyStep>, AllocError>
    requires given { IsSearchInput given.now }
    requires entry { HasEntry given.now.facts.now r.0 c.0 }
    ensures { IfOk result (λ v. IsTrailOf given.now.facts.now r c v.items) }
{
    let guess = guessed(given, r, c)?;
    let mut steps = taken(given, guess)?;
    let goal = searched(given, r, c, &mut steps)?;
    let marks = needed(given.alloc, &steps, goal)?;
    kept(given.alloc, &steps, &marks)
}

/// A trail that passes and ends in the entry: no claim stands twice, and each step but the last is named by a later
/// one. The sets and the table are those of the facts; the ids may be any numbers. `NoEntry` comes exactly where the row
/// or the column is not there, or the row does not have the column. Each access is of a field or of a declaration.
pub fn find_trail(
    alloc: Global,
    facts: &Facts,
    pt: &PointsTo,
    table: &Table,
    r: RowId,
    c: ColId,
) -> Result<Trail, WhyFault>
    requires facts { InRange facts.now }
    requires sets { AreSets facts.now pt.now }
    requires table { IsTable facts.now table.now }
    requires accesses { AreMemberAccesses facts.now }
    ensures trail { IfOk result (λ t. IsTrailOf facts.now r c t.steps.items) }
    ensures none { IfErr result (λ e. e ≡ WhyFault.NoEntry → HasEntry facts.now r.0 c.0 → ⊥) }
    ensures absent { (HasEntry facts.now r.0 c.0 → ⊥) → result ≡ Err WhyFault.NoEntry }
{
    if !has_entry(facts, table, r, c) {
        return Err(WhyFault::NoEntry);
    }
    let given = Given {
        alloc,
        facts,
        pt,
        table,
    };
    let steps = found(&given, r, c)?;
    Ok(Trail { steps })
}
