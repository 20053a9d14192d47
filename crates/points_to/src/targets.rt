//! The sets of a member of a site.

ghost use Rattle.std.specs.Prelude.{◌≡◌, ℕ, ◌+◌, ◌<◌, ◌↔◌, [], length, All, Contains, Some, IsTrue, OnOk};
ghost use Rattle.fact_model.specs.Flowing.{IsCell, point_at};
ghost use Rattle.points_to.specs.Called.{IsFoundCall, IsCalledNode};
ghost use Rattle.points_to.specs.Listed.{ListsBody};
ghost use Rattle.points_to.specs.Words.{InRange, IsSolverInput};
ghost use Rattle.points_to.specs.Work.{IsCellNode, AreTargets, slot_of, body_node};
ghost use Rattle.points_to.specs.declared.work.Member.TheVariants.{Field};

use crate::bodies::find_body;
use crate::found::Given;
use crate::index::{body_at, cell_at, numbers_at};
use crate::work::{Member, site_at};
use fact_model::{BodyInfo, CellInfo, Facts};
use kaba_base::ColId;
use std::alloc::AllocError;

/// Whether two columns are one.
fn is_same_column(a: Option<ColId>, b: Option<ColId>) -> bool
    ensures { IsTrue result ↔ (a ≡ b) }
{
    a == b
}

/// Whether a cell is the one of a site at a column.
fn is_cell_of(cell: CellInfo, o: u32, column: Option<ColId>) -> bool
    ensures { IsTrue result ↔ ((cell.site.0 ≡ o) × (cell.column ≡ column)) }
{
    cell.site.0 == o && is_same_column(cell.column, column)
}

/// The set of a cell, where that is the one of the site `o` at the column. An error comes only for want of memory.
fn add_cell(
    facts: &Facts,
    list: &mut Vec<usize>,
    column: Option<ColId>,
    o: u32,
    c: usize,
) -> Result<(), AllocError>
    requires facts { InRange facts.now }
    requires sound { All (IsCellNode facts.now column o) list.old.items }
    ensures sound { OnOk result (All (IsCellNode facts.now column o) list.new.items) }
    ensures kept { OnOk result ((n : ℕ) → Contains list.old.items n → Contains list.new.items n) }
    ensures here { OnOk result (IsCell facts.now c o column → Contains list.new.items (length facts.now.points.items + c)) }
{
    if c >= facts.cells.len() {
        return Ok(());
    }
    if !is_cell_of(cell_at(facts, c), o, column) {
        return Ok(());
    }
    list.push(facts.points.len() + c)?;
    Ok(())
}

/// The sets of those of these cells that are of the site `o` at the column. An error comes only for want of memory.
fn add_cells(
    facts: &Facts,
    list: &mut Vec<usize>,
    column: Option<ColId>,
    o: u32,
    cells: &[usize],
) -> Result<(), AllocError>
    requires facts { InRange facts.now }
    requires sound { All (IsCellNode facts.now column o) list.old.items }
    ensures sound { OnOk result (All (IsCellNode facts.now column o) list.new.items) }
    ensures here { OnOk result (All (λ c. IsCell facts.now c o column → Contains list.new.items (length facts.now.points.items + c)) cells.now) }
{
    for c in cells {
        add_cell(facts, list, column, o, *c)?;
    }
    Ok(())
}

/// The point of an argument or a parameter, if there is one.
pub fn point_at(list: &[Option<u32>], k: usize) -> Option<u32>
    ensures { result ≡ point_at list.now k }
{
    if k < list.len() { list[k] } else { None }
}

/// The point of a member of a body.
fn body_node(member: Member, body: &BodyInfo) -> Option<u32>
    ensures { result ≡ body_node member body.now }
{
    match member {
        Member::Field(_) => None,
        Member::This(_) => Some(body.this),
        Member::Parameter(_, k) => point_at(&body.params, k),
        Member::Returned(_) => body.result,
    }
}

/// The body that is looked for: the column that the class of a site runs for a slot, and which member of it.
#[derive(Drop)]
pub struct Called {
    pub member: Member,
    pub slot: u32,
    pub site: u32,
    pub column: u32,
}

/// The member of a body, where that is the one of the column. An error comes only for want of memory.
fn add_body(facts: &Facts, list: &mut Vec<usize>, x: &Called, b: usize) -> Result<(), AllocError>
    requires called { IsFoundCall facts.now x.now }
    requires sound { All (IsCalledNode facts.now x.now) list.old.items }
    ensures sound { OnOk result (All (IsCalledNode facts.now x.now) list.new.items) }
    ensures kept { OnOk result ((n : ℕ) → Contains list.old.items n → Contains list.new.items n) }
    ensures here { OnOk result (ListsBody facts.now x.now.member x.now.column list.new.items b) }
{
    if b >= facts.bodies.len() {
        return Ok(());
    }
    let body = body_at(facts, b);
    if body.column.0 != x.column {
        return Ok(());
    }
    match body_node(x.member, body) {
        Some(n) => list.push(n as usize)?,
        None => {}
    }
    Ok(())
}

/// The member of each of these bodies that is the one of the column. An error comes only for want of memory.
fn add_bodies(
    facts: &Facts,
    list: &mut Vec<usize>,
    x: &Called,
    bodies: &[usize],
) -> Result<(), AllocError>
    requires called { IsFoundCall facts.now x.now }
    requires sound { All (IsCalledNode facts.now x.now) list.old.items }
    ensures sound { OnOk result (All (IsCalledNode facts.now x.now) list.new.items) }
    ensures here { OnOk result (All (ListsBody facts.now x.now.member x.now.column list.new.items) bodies.now) }
{
    for b in bodies {
        add_body(facts, list, x, *b)?;
    }
    Ok(())
}

/// The member of the body that the class of a site runs for a slot. An error comes only for want of memory.
fn add_found(
    given: &Given,
    list: &mut Vec<usize>,
    member: Member,
    slot: u32,
    o: u32,
) -> Result<(), AllocError>
    requires given { IsSolverInput given.now }
    requires site { o < length given.now.facts.now.sites.items }
    requires empty { list.old.items ≡ [] }
    requires slot { slot_of member ≡ Some slot }
    ensures { OnOk result (AreTargets given.now.facts.now member o list.new.items) }
{
    let facts = given.facts;
    match find_body(facts, &given.index.chains, site_at(facts, o).class, slot) {
        Some(d) => {
            let bodies = numbers_at(&given.index.bodies, d.0 as usize);
            let (site, column) = (o, d.0);
            let called = Called {
                member,
                slot,
                site,
                column,
            };
            add_bodies(facts, list, &called, bodies)?;
            Ok(())
        }
        None => Ok(()),
    }
}

/// The cell of a site at a column. An error comes only for want of memory.
fn add_field(
    given: &Given,
    list: &mut Vec<usize>,
    column: Option<ColId>,
    o: u32,
) -> Result<(), AllocError>
    requires given { IsSolverInput given.now }
    requires empty { list.old.items ≡ [] }
    ensures { OnOk result (AreTargets given.now.facts.now (Field column) o list.new.items) }
{
    add_cells(
        given.facts,
        list,
        column,
        o,
        numbers_at(&given.index.cells, o as usize),
    )?;
    Ok(())
}

/// The sets of a member of a site. An error comes only for want of memory.
pub fn list_targets(
    given: &Given,
    list: &mut Vec<usize>,
    member: Member,
    o: u32,
) -> Result<(), AllocError>
    requires given { IsSolverInput given.now }
    requires site { o < length given.now.facts.now.sites.items }
    ensures { OnOk result (AreTargets given.now.facts.now member o list.new.items) }
{
    list.clear();
    match member {
        Member::Field(column) => add_field(given, list, column, o),
        Member::This(slot) => add_found(given, list, member, slot, o),
        Member::Parameter(slot, _) => add_found(given, list, member, slot, o),
        Member::Returned(slot) => add_found(given, list, member, slot, o),
    }
}
