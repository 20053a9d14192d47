//! B7: the outcomes of casts, `instanceof` and stores into arrays.

ghost use Rattle.std.specs.Prelude.{◌≡◌, ℕ, ◌<◌, ◌↔◌, ◌==◌, ◌&&◌, ◌||◌, ◌++◌, true, map, filter, length, IfOk, Contains};
ghost use Rattle.hier_rules.specs.Words.{list_any, IsNonDecreasing, bit, row, first_below, row_class, IsObligationInput};
ghost use Rattle.kaba_order.specs.Orders.{differ};
ghost use Rattle.fact_model.specs.Classes.{below};
ghost use Rattle.fact_model.specs.InRange.{InRange, IsClass};
ghost use Rattle.hier_rules.specs.Asked.{is_element, is_array_at, has_array, is_test_at, is_store_at, is_target, is_tested, meets, is_asked};
ghost use Rattle.hier_rules.specs.Obligations.{row_le, wrong_outcome, first_wrong_of_place, first_wrong_outcome};

use crate::broken::{Broken, Rule};
use crate::places::{Asked, place_of_row, row_le};
use crate::rows::of_row;
use fact_model::{Facts, StoreInfo, TestInfo, below};
use hier_model::site_at;
use kaba_base::{ClassId, ColId, SiteId};
use kaba_bits::{BitRow, row_at};
use std::alloc::{AllocError, Global};

/// Whether a store is one of an element.
pub fn is_element(column: Option<ColId>) -> bool
    ensures { result ≡ is_element column }
{
    column.is_none()
}

/// The places of the tests. An error comes only for want of memory.
fn test_places(alloc: Global, facts: &Facts) -> Result<Vec<u32>, AllocError>
    ensures { IfOk result (λ v. v.items ≡ map (λ x. x.place.at) facts.now.tests.items) }
{
    facts.tests.iter().map(|x| x.place.at).collect(alloc)
}

/// The places of the stores of elements. An error comes only for want of memory.
fn store_places(alloc: Global, facts: &Facts) -> Result<Vec<u32>, AllocError>
    ensures { IfOk result (λ v. v.items ≡ map (λ x. x.place.at) (filter (λ x. is_element x.column) facts.now.stores.items)) }
{
    facts
        .stores
        .iter()
        .filter(|x| is_element(x.column))
        .map(|x| x.place.at)
        .collect(alloc)
}

/// The places of both. An error comes only for want of memory.
fn all_places(alloc: Global, facts: &Facts) -> Result<Vec<u32>, AllocError>
    ensures { IfOk result (λ v. v.items ≡ map (λ x. x.place.at) facts.now.tests.items ++ map (λ x. x.place.at)
        (filter (λ x. is_element x.column) facts.now.stores.items)) }
{
    let mut places = test_places(alloc, facts)?;
    let stores = store_places(alloc, facts)?;
    places.extend_from_slice(&stores)?;
    Ok(places)
}

/// The same, rising. An error comes only for want of memory.
pub fn asked_places(alloc: Global, facts: &Facts) -> Result<Vec<u32>, AllocError>
    ensures sorted { IfOk result (λ v. IsNonDecreasing v.items) }
    ensures places { IfOk result (λ v. (p : ℕ) → Contains v.items p ↔ (is_asked facts.now p ≡ true)) }
{
    let mut places = all_places(alloc, facts)?;
    places.sort()?;
    Ok(places)
}

/// Whether a site is an array site in the set of a point, of a row.
fn is_array_at(asked: &Asked, base: u32, t: u32, a: u32) -> bool
    requires asked { IsObligationInput asked.now }
    requires base { base < length asked.now.facts.now.points.items }
    requires site { a < length asked.now.facts.now.sites.items }
    ensures { result ≡ is_array_at asked.now.facts.now asked.now.pt.now base t a }
{
    let site = site_at(asked.facts, SiteId(a));
    row_at(&asked.pt.points, base as usize).has(a) && 0 < site.dim && site.row.0 == t
}

/// Whether an array site in the set of a point has a row.
#[tactic(auto, using(hier_model::proofs::AnyLemmas::any_below_found))]
fn has_array(asked: &Asked, base: u32, t: u32) -> bool
    requires asked { IsObligationInput asked.now }
    requires base { base < length asked.now.facts.now.points.items }
    ensures { result ≡ has_array asked.now.facts.now asked.now.pt.now base t }
{
    any_below!(a < asked.facts.sites.len() as u32; is_array_at(asked, base, t, a))
}

/// Adds the row of a site, if it is an array site in the set of a point.
fn add_array(asked: &Asked, base: u32, a: u32, targets: &mut BitRow)
    requires asked { IsObligationInput asked.now }
    requires base { base < length asked.now.facts.now.points.items }
    requires site { a < length asked.now.facts.now.sites.items }
    requires width { length targets.old ≡ length asked.now.facts.now.rows.items }
    ensures width { length targets.new ≡ length targets.old }
    ensures added { (t : ℕ) → bit targets.new t ≡ (bit targets.old t || is_array_at asked.now.facts.now asked.now.pt.now base t a) }
{
    let site = site_at(asked.facts, SiteId(a));
    if row_at(&asked.pt.points, base as usize).has(a) && site.dim > 0 {
        targets.set(site.row.0);
    }
}

/// Adds the rows of the array sites in the set of a point.
fn add_arrays(asked: &Asked, base: u32, targets: &mut BitRow)
    requires asked { IsObligationInput asked.now }
    requires base { base < length asked.now.facts.now.points.items }
    requires width { length targets.old ≡ length asked.now.facts.now.rows.items }
    ensures width { length targets.new ≡ length targets.old }
    ensures added { (t : ℕ) → bit targets.new t ≡ (bit targets.old t || has_array asked.now.facts.now asked.now.pt.now base t) }
{
    for a in 0..asked.facts.sites.len() as u32 {
        add_array(asked, base, a, targets);
    }
}

/// Adds the row of a test, if it is at a place.
fn add_target(facts: &Facts, p: u32, x: TestInfo, targets: &mut BitRow)
    requires facts { InRange facts.now }
    requires test { Contains facts.now.tests.items x }
    requires width { length targets.old ≡ length facts.now.rows.items }
    ensures width { length targets.new ≡ length targets.old }
    ensures added { (t : ℕ) → bit targets.new t ≡ (bit targets.old t || is_test_at p t x) }
{
    if x.place.at == p {
        targets.set(x.target.0);
    }
}

/// Adds the rows of the arrays of a store, if it is one of an element at a place.
fn add_targets(asked: &Asked, p: u32, x: StoreInfo, targets: &mut BitRow)
    requires asked { IsObligationInput asked.now }
    requires store { Contains asked.now.facts.now.stores.items x }
    requires width { length targets.old ≡ length asked.now.facts.now.rows.items }
    ensures width { length targets.new ≡ length targets.old }
    ensures added { (t : ℕ) → bit targets.new t ≡ (bit targets.old t || is_store_at asked.now.facts.now asked.now.pt.now p t x) }
{
    if is_element(x.column) && x.place.at == p {
        add_arrays(asked, x.base, targets);
    }
}

/// The rows of the tests at a place. An error comes only for want of memory.
fn test_targets(alloc: Global, facts: &Facts, p: u32) -> Result<BitRow, AllocError>
    requires { InRange facts.now }
    ensures width { IfOk result (λ v. length v ≡ length facts.now.rows.items) }
    ensures targets { IfOk result (λ v. (t : ℕ) → bit v t ≡ list_any (is_test_at p t) facts.now.tests.items) }
{
    let mut targets = BitRow::new(alloc, facts.rows.len() as u32)?;
    for x in &facts.tests {
        add_target(facts, p, *x, &mut targets);
    }
    Ok(targets)
}

/// The rows of the tests, and of the arrays that are stored into, at a place. An error comes only for want of memory.
fn targets_at(alloc: Global, asked: &Asked, p: u32) -> Result<BitRow, AllocError>
    requires { IsObligationInput asked.now }
    ensures width { IfOk result (λ v. length v ≡ length asked.now.facts.now.rows.items) }
    ensures targets { IfOk result (λ v. (t : ℕ) → bit v t ≡ is_target asked.now.facts.now asked.now.pt.now p t) }
{
    let mut targets = test_targets(alloc, asked.facts, p)?;
    for x in &asked.facts.stores {
        add_targets(asked, p, *x, &mut targets);
    }
    Ok(targets)
}

/// Adds the sites in the operand of a test, if it is one of a row at a place.
fn add_tested(asked: &Asked, p: u32, t: u32, x: TestInfo, sites: &mut BitRow)
    requires asked { IsObligationInput asked.now }
    requires test { Contains asked.now.facts.now.tests.items x }
    requires width { length sites.old ≡ length asked.now.facts.now.sites.items }
    ensures width { length sites.new ≡ length sites.old }
    ensures added { (s : ℕ) → bit sites.new s ≡ (bit sites.old s || (is_test_at p t x && bit (row asked.now.pt.now.points.items x.from) s)) }
{
    if x.place.at == p && x.target.0 == t {
        sites.or_into(row_at(&asked.pt.points, x.from as usize));
    }
}

/// Adds the sites in the value of a store, if it is one into an array of a row at a place.
fn add_stored(asked: &Asked, p: u32, t: u32, x: StoreInfo, sites: &mut BitRow)
    requires asked { IsObligationInput asked.now }
    requires store { Contains asked.now.facts.now.stores.items x }
    requires width { length sites.old ≡ length asked.now.facts.now.sites.items }
    ensures width { length sites.new ≡ length sites.old }
    ensures added { (s : ℕ) → bit sites.new s ≡ (bit sites.old s || (is_store_at asked.now.facts.now asked.now.pt.now p t x && bit
        (row asked.now.pt.now.points.items x.value) s)) }
{
    if is_element(x.column) && x.place.at == p && has_array(asked, x.base, t) {
        sites.or_into(row_at(&asked.pt.points, x.value as usize));
    }
}

/// The sites in the operands of the tests of a row at a place. An error comes only for want of memory.
fn tested_sites(alloc: Global, asked: &Asked, p: u32, t: u32) -> Result<BitRow, AllocError>
    requires { IsObligationInput asked.now }
    ensures width { IfOk result (λ v. length v ≡ length asked.now.facts.now.sites.items) }
    ensures sites { IfOk result (λ v. (s : ℕ) → bit v s ≡ is_tested asked.now.facts.now asked.now.pt.now p t s) }
{
    let mut sites = BitRow::new(alloc, asked.facts.sites.len() as u32)?;
    for x in &asked.facts.tests {
        add_tested(asked, p, t, *x, &mut sites);
    }
    Ok(sites)
}

/// The sites that meet a target at a place. An error comes only for want of memory.
fn sites_at(alloc: Global, asked: &Asked, p: u32, t: u32) -> Result<BitRow, AllocError>
    requires { IsObligationInput asked.now }
    ensures width { IfOk result (λ v. length v ≡ length asked.now.facts.now.sites.items) }
    ensures sites { IfOk result (λ v. (s : ℕ) → bit v s ≡ meets asked.now.facts.now asked.now.pt.now p t s) }
{
    let mut sites = tested_sites(alloc, asked, p, t)?;
    for x in &asked.facts.stores {
        add_stored(asked, p, t, *x, &mut sites);
    }
    Ok(sites)
}

/// Whether a site stands at or below a target's row where it should not, or does not where it should.
fn is_wrong(asked: &Asked, r: u32, class: ClassId, t: u32) -> bool
    requires asked { IsObligationInput asked.now }
    requires row { r < length asked.now.facts.now.rows.items }
    requires class { IsClass asked.now.facts.now class }
    requires target { t < length asked.now.facts.now.rows.items }
    ensures { result ≡ differ (row_le asked.now.hier.now r t) (below asked.now.facts.now class.0 (row_class asked.now.facts.now t)) }
{
    let target = &asked.facts.rows[t as usize];
    row_le(asked, r, t) != below(asked.facts, class, target.class)
}

/// The first site that meets a target at a place with another outcome. An error comes only for want of memory.
#[tactic(auto, using(kaba_bits::proofs::FirstLemmas::first_below_found))]
fn first_wrong_site(
    alloc: Global,
    asked: &Asked,
    p: u32,
    t: u32,
) -> Result<Option<Broken>, AllocError>
    requires asked { IsObligationInput asked.now }
    requires target { t < length asked.now.facts.now.rows.items }
    ensures { IfOk result (λ b. b ≡ first_below (length asked.now.facts.now.sites.items)
        (wrong_outcome asked.now.facts.now asked.now.pt.now asked.now.hier.now p t)) }
{
    let sites = sites_at(alloc, asked, p, t)?;
    let m = place_of_row(asked, t);
    for s in 0..asked.facts.sites.len() as u32 {
        let site = site_at(asked.facts, SiteId(s));
        if sites.has(s) && is_wrong(asked, site.row.0, site.class, t) {
            return Ok(Some(of_row(Rule::B7, place_of_row(asked, site.row.0), m, site.row.0)));
        }
    }
    Ok(None)
}

/// The same, if the row is a target at the place.
fn first_wrong_at(
    alloc: Global,
    asked: &Asked,
    targets: &BitRow,
    p: u32,
    t: u32,
) -> Result<Option<Broken>, AllocError>
    requires asked { IsObligationInput asked.now }
    requires width { length targets.now ≡ length asked.now.facts.now.rows.items }
    requires targets { (k : ℕ) → bit targets.now k ≡ is_target asked.now.facts.now asked.now.pt.now p k }
    requires target { t < length asked.now.facts.now.rows.items }
    ensures { IfOk result (λ b. b ≡ first_below (length asked.now.facts.now.sites.items)
        (wrong_outcome asked.now.facts.now asked.now.pt.now asked.now.hier.now p t)) }
{
    if !targets.has(t) {
        return Ok(None);
    }
    first_wrong_site(alloc, asked, p, t)
}

/// The first target at a place that a site meets with another outcome. An error comes only for want of memory.
#[tactic(auto, using(kaba_bits::proofs::FirstLemmas::first_below_found))]
pub fn first_wrong_target(
    alloc: Global,
    asked: &Asked,
    p: u32,
) -> Result<Option<Broken>, AllocError>
    requires { IsObligationInput asked.now }
    ensures { IfOk result (λ b. b ≡ first_wrong_of_place asked.now.facts.now asked.now.pt.now asked.now.hier.now p) }
{
    let targets = targets_at(alloc, asked, p)?;
    first_found_below!(t < asked.facts.rows.len() as u32; first_wrong_at(alloc, asked, &targets, p, t)?)
}

/// The first instance against B7. An error comes only for want of memory.
pub fn first_wrong_outcome(alloc: Global, asked: &Asked) -> Result<Option<Broken>, AllocError>
    requires { IsObligationInput asked.now }
    ensures { IfOk result (λ b. b ≡ first_wrong_outcome asked.now.facts.now asked.now.pt.now asked.now.hier.now) }
{
    let places = asked_places(alloc, asked.facts)?;
    first_wrong_place(alloc, asked, &places)
}

/// The same, by the rising list of the places that are asked.
fn first_wrong_place(
    alloc: Global,
    asked: &Asked,
    places: &[u32],
) -> Result<Option<Broken>, AllocError>
    requires asked { IsObligationInput asked.now }
    requires sorted { IsNonDecreasing places.now }
    requires places { (p : ℕ) → Contains places.now p ↔ (is_asked asked.now.facts.now p ≡ true) }
    ensures { IfOk result (λ b. b ≡ first_wrong_outcome asked.now.facts.now asked.now.pt.now asked.now.hier.now) }
{
    for p in places {
        if let Some(found) = first_wrong_target(alloc, asked, *p)? {
            return Ok(Some(found));
        }
    }
    Ok(None)
}
