//! What is looked up of the facts again and again, made once.

ghost use Rattle.std.specs.Prelude.{◌≡◌, ℕ, ◌<◌, length, All, Contains, IfOk, OnOk};
ghost use Rattle.fact_model.specs.Items.{cell_at};
ghost use Rattle.fact_model.specs.InRange.{InRange};
ghost use Rattle.fact_model.specs.declared.facts.BodyInfo.{BodyInfo};
ghost use Rattle.points_to.specs.Listed.{numbers_at, IsElementAt, IsIndex, HaveItems, KeepNumbers};

use crate::above::sites_below;
use crate::bodies::{Bodies, bodies_of};
use fact_model::{BodyInfo, CellInfo, Facts};
use kaba_bits::BitRow;
use std::alloc::{AllocError, Global};

/// Numbers of cells by their site, and of bodies by their column, the chains of bodies, and for each class the sites of a class at
/// or below it.
#[derive(Drop)]
pub struct Index {
    pub cells: Vec<Vec<usize>>,
    pub bodies: Vec<Vec<usize>>,
    pub chains: Bodies,
    pub below: Vec<BitRow>,
}

/// One body.
pub fn body_at(facts: &Facts, b: usize) -> &BodyInfo
    requires { b < length facts.now.bodies.items }
    ensures { IsElementAt facts.now.bodies.items b result.now }
{
    &facts.bodies[b]
}

/// One cell.
pub fn cell_at(facts: &Facts, c: usize) -> CellInfo
    requires { c < length facts.now.cells.items }
    ensures { result ≡ cell_at facts.now c }
{
    facts.cells[c]
}

/// A list of lists at a place; past its end the empty one.
pub fn numbers_at(lists: &[Vec<usize>], k: usize) -> &[usize]
    ensures { result.now ≡ numbers_at lists.now k }
{
    if k < lists.len() { &lists[k] } else { &[] }
}

/// Notes a number at a place. An error comes only for want of memory.
pub fn note(lists: &mut [Vec<usize>], k: usize, x: usize) -> Result<(), AllocError>
    ensures kept { OnOk result (KeepNumbers lists.old lists.new) }
    ensures here { OnOk result (k < length lists.old → Contains (numbers_at lists.new k) x) }
{
    if k < lists.len() {
        let list = &mut lists[k];
        list.push(x)?;
    }
    Ok(())
}

/// Empty lists. An error comes only for want of memory.
pub fn empty(alloc: Global, count: usize) -> Result<Vec<Vec<usize>>, AllocError>
    ensures { IfOk result (λ v. length v.items ≡ count) }
{
    let mut lists = Vec::new(alloc);
    for _k in 0..count {
        lists.push(Vec::new(alloc))?;
    }
    Ok(lists)
}

/// An item of the facts that is listed by number where it belongs.
trait Belongs {
    ghost belongs_to: { Self → ℕ };

    /// Where it is listed.
    fn place(&self) -> usize
        ensures { result ≡ belongs_to self.now };
}

/// A cell is listed by its site.
impl Belongs for CellInfo {
    ghost belongs_to = { λ x. x.site.0 };

    fn place(&self) -> usize {
        self.site.0 as usize
    }
}

/// A body is listed by its column.
impl Belongs for BodyInfo {
    ghost belongs_to = { λ x. x.column.0 };

    fn place(&self) -> usize {
        self.column.0 as usize
    }
}

/// Each item where it belongs. An error comes only for want of memory.
fn note_all<T: Belongs>(items: &Vec<T>, lists: &mut [Vec<usize>]) -> Result<(), AllocError>
    requires within { All (λ x. T.belongs_to x < length lists.old) items.now.items }
    ensures { OnOk result (HaveItems T.belongs_to items.now.items lists.new (length items.now.items)) }
{
    for k in 0..items.len() {
        note(lists, items[k].place(), k)?;
    }
    Ok(())
}

/// The index of the facts. An error comes only for want of memory.
pub fn index_of(alloc: Global, facts: &Facts) -> Result<Index, AllocError>
    requires { InRange facts.now }
    ensures { IfOk result (λ x. IsIndex facts.now x) }
{
    let mut cells = empty(alloc, facts.sites.len())?;
    let mut bodies = empty(alloc, facts.columns.len())?;
    note_all(&facts.cells, &mut cells)?;
    note_all(&facts.bodies, &mut bodies)?;
    let chains = bodies_of(alloc, facts)?;
    let below = sites_below(alloc, facts)?;
    Ok(Index {
        cells,
        bodies,
        chains,
        below,
    })
}
