//! B7 where an edit can have broken it: at the sites at or below the nodes that it joined.

ghost use Rattle.std.specs.Prelude.{◌≡◌, ℕ, ◌<◌, ◌==◌, ◌&&◌, ◌||◌, length, IfOk, Contains};
ghost use Rattle.hier_rules.specs.Words.{list_any, bit, row, IsObligationInput};
ghost use Rattle.hier_rules.specs.Asked.{is_element};
ghost use Rattle.hier_rules.specs.Index.{IsTestRow, IsIndexOf};
ghost use Rattle.hier_rules.specs.Touched.{OutcomesHold, is_at_place};
ghost use Rattle.hier_rules.specs.Obligations.{place_of_site, first_wrong_of_place, first_wrong_outcome};

use crate::broken::Broken;
use crate::index::JoinIndex;
use crate::outcomes::{first_wrong_target, is_element};
use crate::places::{Asked, place_of_row};
use fact_model::{StoreInfo, TestInfo};
use hier_model::site_at;
use kaba_base::SiteId;
use kaba_bits::{BitRow, row_at};
use std::alloc::{AllocError, Global};

/// Adds the sites in the operand of a test, if it is at a place.
fn add_operand(asked: &Asked, p: u32, x: TestInfo, sites: &mut BitRow)
    requires asked { IsObligationInput asked.now }
    requires test { Contains asked.now.facts.now.tests.items x }
    requires width { length sites.old ≡ length asked.now.facts.now.sites.items }
    ensures width { length sites.new ≡ length sites.old }
    ensures added { (s : ℕ) → bit sites.new s ≡ (bit sites.old s || ((x.place.at == p) && bit (row asked.now.pt.now.points.items x.from) s)) }
{
    if x.place.at == p {
        sites.or_into(row_at(&asked.pt.points, x.from as usize));
    }
}

/// Adds the sites in the value of a store, if it is one of an element at a place.
fn add_value(asked: &Asked, p: u32, x: StoreInfo, sites: &mut BitRow)
    requires asked { IsObligationInput asked.now }
    requires store { Contains asked.now.facts.now.stores.items x }
    requires width { length sites.old ≡ length asked.now.facts.now.sites.items }
    ensures width { length sites.new ≡ length sites.old }
    ensures added { (s : ℕ) → bit sites.new s
        ≡ (bit sites.old s || (is_element x.column && (x.place.at == p) && bit (row asked.now.pt.now.points.items x.value) s)) }
{
    if is_element(x.column) && x.place.at == p {
        sites.or_into(row_at(&asked.pt.points, x.value as usize));
    }
}

/// The sites in the operands of the tests at a place. An error comes only for want of memory.
fn operands_at(alloc: Global, asked: &Asked, p: u32) -> Result<BitRow, AllocError>
    requires { IsObligationInput asked.now }
    ensures width { IfOk result (λ v. length v ≡ length asked.now.facts.now.sites.items) }
    ensures sites { IfOk result (λ v. (s : ℕ) → bit v s
        ≡ list_any (λ x. (x.place.at == p) && bit (row asked.now.pt.now.points.items x.from) s) asked.now.facts.now.tests.items) }
{
    let mut sites = BitRow::new(alloc, asked.facts.sites.len() as u32)?;
    for x in &asked.facts.tests {
        add_operand(asked, p, *x, &mut sites);
    }
    Ok(sites)
}

/// The sites in the operands of the tests, and in the values of the stores of elements, at a place. An error comes only for
/// want of memory.
pub fn sites_of_place(alloc: Global, asked: &Asked, p: u32) -> Result<BitRow, AllocError>
    requires { IsObligationInput asked.now }
    ensures { IfOk result (IsTestRow (length asked.now.facts.now.sites.items) (is_at_place asked.now.facts.now asked.now.pt.now p)) }
{
    let mut sites = operands_at(alloc, asked, p)?;
    for x in &asked.facts.stores {
        add_value(asked, p, *x, &mut sites);
    }
    Ok(sites)
}

/// Adds a site, if its node is of a set.
fn add_low(asked: &Asked, low: &BitRow, s: u32, sites: &mut BitRow)
    requires asked { IsObligationInput asked.now }
    requires low { length low.now ≡ length asked.now.hier.now.order.live }
    requires width { length sites.old ≡ length asked.now.facts.now.sites.items }
    requires site { s < length asked.now.facts.now.sites.items }
    ensures width { length sites.new ≡ length sites.old }
    ensures added { (x : ℕ) → bit sites.new x ≡ (bit sites.old x || ((s == x) && bit low.now (place_of_site asked.now.facts.now asked.now.hier.now s))) }
{
    let n = place_of_row(asked, site_at(asked.facts, SiteId(s)).row.0);
    if low.has(n.0) {
        sites.set(s);
    }
}

/// The sites whose nodes are of a set. An error comes only for want of memory.
pub fn low_sites(alloc: Global, asked: &Asked, low: &BitRow) -> Result<BitRow, AllocError>
    requires asked { IsObligationInput asked.now }
    requires low { length low.now ≡ length asked.now.hier.now.order.live }
    ensures { IfOk result (IsTestRow (length asked.now.facts.now.sites.items)
        (λ s. bit low.now (place_of_site asked.now.facts.now asked.now.hier.now s))) }
{
    let mut sites = BitRow::new(alloc, asked.facts.sites.len() as u32)?;
    for s in 0..asked.facts.sites.len() as u32 {
        add_low(asked, low, s, &mut sites);
    }
    Ok(sites)
}

/// The first wrong outcome at a place, by the sites that are asked of there, where there is none of a site outside a set. An
/// error comes only for want of memory.
fn first_wrong_if(
    alloc: Global,
    asked: &Asked,
    sites: &BitRow,
    low: &BitRow,
    p: u32,
) -> Result<Option<Broken>, AllocError>
    requires asked { IsObligationInput asked.now }
    requires sites { IsTestRow (length asked.now.facts.now.sites.items) (is_at_place asked.now.facts.now asked.now.pt.now p) sites.now }
    requires others { OutcomesHold asked.now.facts.now asked.now.pt.now asked.now.hier.now low.now }
    ensures { IfOk result (λ b. b ≡ first_wrong_of_place asked.now.facts.now asked.now.pt.now asked.now.hier.now p) }
{
    if !sites.meets(low) {
        return Ok(None);
    }
    first_wrong_target(alloc, asked, p)
}

/// The first instance against B7, where there is none of a site outside a set. An error comes only for want of memory.
pub fn first_wrong_outcome_among(
    alloc: Global,
    asked: &Asked,
    index: &JoinIndex,
    low: &BitRow,
) -> Result<Option<Broken>, AllocError>
    requires asked { IsObligationInput asked.now }
    requires index { IsIndexOf asked.now.facts.now asked.now.pt.now index.now }
    requires others { OutcomesHold asked.now.facts.now asked.now.pt.now asked.now.hier.now low.now }
    ensures { IfOk result (λ b. b ≡ first_wrong_outcome asked.now.facts.now asked.now.pt.now asked.now.hier.now) }
{
    first_found_below!(k < index.places.len(); first_wrong_if(alloc, asked, row_at(&index.sites, k), low, index.places[k])?)
}
