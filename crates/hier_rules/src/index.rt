//! What the tests after joins ask of the facts and of their sets, found once.

ghost use Rattle.std.specs.Prelude.{◌≡◌, ℕ, ◌<◌, ◌==◌, ◌&&◌, ◌||◌, length, slice_index_or, IfOk, Contains};
ghost use Rattle.hier_rules.specs.Words.{bit, row, InRange, IsObligationInput};
ghost use Rattle.fact_model.specs.Items.{site_class};
ghost use Rattle.fact_model.specs.Classes.{finds};
ghost use Rattle.hier_rules.specs.Asked.{is_other_body};
ghost use Rattle.hier_rules.specs.Touched.{is_at_place};
ghost use Rattle.hier_rules.specs.Index.{is_number, is_needed, IsTestRow, AreTestRows, IsIndexOf};

use crate::bodies::is_other_body;
use crate::met::sites_of_place;
use crate::outcomes::asked_places;
use crate::pairs::super_rows;
use crate::places::Asked;
use fact_model::{CallInfo, Facts, finds};
use hier_model::site_at;
use kaba_base::SiteId;
use kaba_bits::{BitRow, row_at};
use std::alloc::{AllocError, Global};

/// What the tests after joins ask of the facts and of their sets, which no edit changes.
#[derive(Drop)]
pub struct JoinIndex {
    /// For each site the bodies that the calls on it run.
    pub needs: Vec<BitRow>,
    /// For each column the other bodies of its slot.
    pub rivals: Vec<BitRow>,
    /// For each row the bodies that super calls in its method run.
    pub supers: Vec<BitRow>,
    /// The places of tests and of stores of elements, rising.
    pub places: Vec<u32>,
    /// For each of them the sites that are asked of there.
    pub sites: Vec<BitRow>,
}

/// A row for each of the numbers below a count.
macro_rules! rows_below {
    ($alloc:expr; $number:ident < $count:expr; $row:expr) => {{
        let mut rows = Vec::new($alloc);
        for $number in 0..$count {
            rows.push($row)?;
        }
        Ok(rows)
    }};
}

/// What the tests after joins ask of facts and of their sets, whatever the hierarchy. An error comes only for want of
/// memory. The time is in proportion to the square of the number of columns, to the number of sites times that of calls,
/// and for each call and site in its receiver to the number of columns times that of the classes above.
pub fn join_index(alloc: Global, asked: &Asked) -> Result<JoinIndex, AllocError>
    requires { IsObligationInput asked.now }
    ensures { IfOk result (IsIndexOf asked.now.facts.now asked.now.pt.now) }
{
    let needs = needs(alloc, asked)?;
    let rivals = rivals(alloc, asked.facts)?;
    let supers = super_rows(alloc, asked.facts)?;
    let places = asked_places(alloc, asked.facts)?;
    let sites = sites_of_places(alloc, asked, &places)?;
    Ok(JoinIndex {
        needs,
        rivals,
        supers,
        places,
        sites,
    })
}

/// Adds the body that a call runs for a site, if its receiver has the site.
fn add_need(asked: &Asked, s: u32, call: &CallInfo, bodies: &mut BitRow)
    requires asked { IsObligationInput asked.now }
    requires site { s < length asked.now.facts.now.sites.items }
    requires call { Contains asked.now.facts.now.calls.items call.now }
    requires width { length bodies.old ≡ length asked.now.facts.now.columns.items }
    ensures width { length bodies.new ≡ length bodies.old }
    ensures added { (d : ℕ) → bit bodies.new d ≡ (bit bodies.old d || (bit (row asked.now.pt.now.points.items call.now.receiver) s
        && is_number (finds asked.now.facts.now (site_class asked.now.facts.now s) call.now.slot) d)) }
{
    if row_at(&asked.pt.points, call.receiver as usize).has(s) {
        let class = site_at(asked.facts, SiteId(s)).class;
        if let Some(d) = finds(asked.facts, class, call.slot) {
            bodies.set(d.0);
        }
    }
}

/// The bodies that the calls on a site run. An error comes only for want of memory.
fn needs_of(alloc: Global, asked: &Asked, s: u32) -> Result<BitRow, AllocError>
    requires asked { IsObligationInput asked.now }
    requires site { s < length asked.now.facts.now.sites.items }
    ensures { IfOk result (IsTestRow (length asked.now.facts.now.columns.items) (is_needed asked.now.facts.now asked.now.pt.now s)) }
{
    let mut bodies = BitRow::new(alloc, asked.facts.columns.len() as u32)?;
    for call in &asked.facts.calls {
        add_need(asked, s, call, &mut bodies);
    }
    Ok(bodies)
}

/// For each site the bodies that the calls on it run. An error comes only for want of memory.
fn needs(alloc: Global, asked: &Asked) -> Result<Vec<BitRow>, AllocError>
    requires { IsObligationInput asked.now }
    ensures { IfOk result (λ v. AreTestRows (length asked.now.facts.now.sites.items) (length asked.now.facts.now.columns.items)
        (is_needed asked.now.facts.now asked.now.pt.now) v.items) }
{
    rows_below!(alloc; s < asked.facts.sites.len() as u32; needs_of(alloc, asked, s)?)
}

/// Adds a column, if it is another body of the slot of `d`.
fn add_rival(facts: &Facts, d: u32, e: u32, bodies: &mut BitRow)
    requires body { d < length facts.now.columns.items }
    requires other { e < length facts.now.columns.items }
    requires width { length bodies.old ≡ length facts.now.columns.items }
    ensures width { length bodies.new ≡ length bodies.old }
    ensures added { (x : ℕ) → bit bodies.new x ≡ (bit bodies.old x || ((e == x) && is_other_body facts.now d e)) }
{
    if is_other_body(facts, d, e) {
        bodies.set(e);
    }
}

/// The other bodies of the slot of a column. An error comes only for want of memory.
fn rivals_of(alloc: Global, facts: &Facts, d: u32) -> Result<BitRow, AllocError>
    requires facts { InRange facts.now }
    requires column { d < length facts.now.columns.items }
    ensures { IfOk result (IsTestRow (length facts.now.columns.items) (is_other_body facts.now d)) }
{
    let mut bodies = BitRow::new(alloc, facts.columns.len() as u32)?;
    for e in 0..facts.columns.len() as u32 {
        add_rival(facts, d, e, &mut bodies);
    }
    Ok(bodies)
}

/// For each column the other bodies of its slot. An error comes only for want of memory.
fn rivals(alloc: Global, facts: &Facts) -> Result<Vec<BitRow>, AllocError>
    requires { InRange facts.now }
    ensures { IfOk result (λ v. AreTestRows (length facts.now.columns.items) (length facts.now.columns.items) (is_other_body facts.now) v.items) }
{
    rows_below!(alloc; d < facts.columns.len() as u32; rivals_of(alloc, facts, d)?)
}

/// For each place the sites that are asked of there. An error comes only for want of memory.
fn sites_of_places(alloc: Global, asked: &Asked, places: &[u32]) -> Result<Vec<BitRow>, AllocError>
    requires { IsObligationInput asked.now }
    ensures { IfOk result (λ v. AreTestRows (length places.now) (length asked.now.facts.now.sites.items)
        (λ k. is_at_place asked.now.facts.now asked.now.pt.now (slice_index_or places.now k 0)) v.items) }
{
    rows_below!(alloc; k < places.len(); sites_of_place(alloc, asked, places[k])?)
}
