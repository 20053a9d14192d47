//! Points-to sets by Andersen's inclusions (1994). A worklist passes what is in a set on where the set grew; one turn
//! over everything that the facts ask for then shows that nothing was left out.
#![tactic(auto)]

ghost use Rattle.std.specs.Prelude.{◌≡◌, ℕ, ◌+◌, ◌<◌, length, Contains, IfOk, OnOk};
ghost use Rattle.fact_model.specs.InRange.{InRange};
ghost use Rattle.fact_model.specs.Flowing.{AreSets};
ghost use Rattle.points_to.specs.Sound.{AreSound};
ghost use Rattle.points_to.specs.Closed.{AreSetsClosed, AreSolved};
ghost use Rattle.points_to.specs.Given.{IsSolverInput};

use fact_model::{Facts, PointsTo};
use kaba_bits::{BitRow, empty_rows};
use std::alloc::{AllocError, Global};

mod above;
mod bodies;
mod closing;
mod found;
mod index;
mod members;
mod news;
mod order;
mod queue;
mod reads;
mod runs;
mod targets;
mod turns;
mod unions;
mod uses;
mod work;
mod writes;

pub use above::{classes_above, is_below};
pub use bodies::{Bodies, bodies_of, find_body};
use closing::close_all;
use found::{Given, found_of};
use index::index_of;
pub use index::{empty, note, numbers_at};
pub use order::order_of;
use queue::queue_of_sets;
pub use queue::{Queue, queue_of, take, wait};
use turns::grow;
use unions::unions;
pub use writes::is_same_set;

/// The points-to sets of the facts, for each point, cell and row: a site is in a set exactly where a derivation by
/// the inclusions ends in it. An error comes only for want of memory.
pub fn solve(alloc: Global, facts: &Facts) -> Result<PointsTo, AllocError>
    requires { InRange facts.now }
    ensures sets { IfOk result (λ t. AreSets facts.now t) }
{
    let mut points = all_sets(alloc, facts)?;
    let cells = points.split_off(point_count(facts))?;
    let rows = unions(alloc, facts, &points, &cells)?;
    Ok(PointsTo {
        points,
        cells,
        rows,
    })
}

/// How many points there are.
fn point_count(facts: &Facts) -> usize
    ensures { result ≡ length facts.now.points.items }
{
    facts.points.len()
}

/// The sets of the points, and then those of the cells. An error comes only for want of memory.
fn all_sets(alloc: Global, facts: &Facts) -> Result<Vec<BitRow>, AllocError>
    requires { InRange facts.now }
    ensures { IfOk result (λ v. AreSolved facts.now v.items) }
{
    let count = facts.points.len() + facts.cells.len();
    let mut sets = empty_rows(alloc, count, facts.sites.len() as u32)?;
    fill(alloc, facts, &mut sets)?;
    Ok(sets)
}

/// What the worklist finds, and then turns over everything. An error comes only for want of memory.
fn fill(alloc: Global, facts: &Facts, sets: &mut [BitRow]) -> Result<(), AllocError>
    requires facts { InRange facts.now }
    requires sets { AreSound facts.now sets.old }
    ensures { OnOk result (AreSolved facts.now sets.new) }
{
    let index = index_of(alloc, facts)?;
    let found = found_of(alloc, facts)?;
    let mut grown = queue_of_sets(alloc, facts, &found)?;
    let given = Given {
        alloc,
        facts,
        index: &index,
        found: &found,
    };
    grow(&given, sets, &mut grown)?;
    run_rounds(&given, sets, &mut grown)?;
    Ok(())
}

/// Turns over everything, until nothing is new. An error comes only for want of memory.
fn run_rounds(given: &Given, sets: &mut [BitRow], grown: &mut Queue) -> Result<(), AllocError>
    requires given { IsSolverInput given.now }
    requires sets { AreSound given.now.facts.now sets.old }
    ensures sets { OnOk result (AreSound given.now.facts.now sets.new) }
    ensures closed { OnOk result (AreSetsClosed given.now.facts.now sets.new) }
{
    loop {
        let more = close_all(given, sets, grown)?;
        if !more {
            return Ok(());
        }
    }
}
