//! B4, B5 and B6: the bodies that calls and super calls run, and bodies at one node.

ghost use Rattle.std.specs.Prelude.{◌≡◌, ℕ, ◌<◌, ◌↔◌, ◌==◌, ◌++◌, ◌∷◌, [], true, cond, None, length, IfOk, OnOk, Contains};
ghost use Rattle.hier_rules.specs.Words.{IsNonDecreasing, bit, row, first_below, is_live, IsObligationInput};
ghost use Rattle.std.specs.Option.{option_and_then};
ghost use Rattle.kaba_order.specs.Orders.{is_among};
ghost use Rattle.fact_model.specs.Items.{site_class, column_kind, column_class, column_slot, row_class};
ghost use Rattle.fact_model.specs.Classes.{is_def, finds};
ghost use Rattle.hier_rules.specs.Asked.{is_super, is_called, slots_of, is_other_body};
ghost use Rattle.hier_rules.specs.Instances.{of_column};
ghost use Rattle.std.specs.Bool.{OnFalse};
ghost use Rattle.hier_rules.specs.Pairs.{IsPairsRow};
ghost use Rattle.hier_rules.specs.Index.{IsTestRow, IsIndexOf};
ghost use Rattle.hier_rules.specs.After.{AreApartOutside};
ghost use Rattle.hier_rules.specs.Obligations.{is_nearer, has_nearer, wrong_body, wrong_need, first_wrong_need, is_between, has_between, wrong_super, first_wrong_super, is_body_at, two_bodies, first_two_bodies};
ghost use Rattle.hier_model.specs.Edits.{is_one_slot};

use crate::broken::{Broken, Nodes, Rule};
use crate::index::JoinIndex;
use crate::pairs::super_rows;
use crate::places::{Asked, column_le, is_above, is_offered, node_count, place_of_row, stands_at};
use crate::rows::of_both;
use fact_model::{CallInfo, ColKind, Facts, finds};
use hier_model::{column_at, site_at};
use kaba_base::{ColId, NodeId, SiteId};
use kaba_bits::{BitRow, row_at};
use std::alloc::{AllocError, Global};

/// An instance at a node, of a column.
pub fn of_column(rule: Rule, n: u32, c: u32) -> Broken
    ensures { result ≡ of_column rule n c }
{
    Broken {
        rule,
        nodes: Nodes::One(NodeId(n)),
        row: None,
        column: Some(ColId(c)),
    }
}

/// Whether two slots are there and the same.
fn is_one_slot(a: Option<u32>, b: Option<u32>) -> bool
    ensures { result ≡ is_one_slot a b }
{
    match (a, b) {
        (Some(x), Some(y)) => x == y,
        (_, _) => false,
    }
}

/// Whether a column is a body.
fn is_body(facts: &Facts, c: u32) -> bool
    requires { c < length facts.now.columns.items }
    ensures { result ≡ is_def (column_kind facts.now c) }
{
    matches!(column_at(facts, ColId(c)).kind, ColKind::Def)
}

/// Whether two columns are of one slot.
fn are_of_one_slot(facts: &Facts, c: u32, d: u32) -> bool
    requires one { c < length facts.now.columns.items }
    requires other { d < length facts.now.columns.items }
    ensures { result ≡ is_one_slot (column_slot facts.now c) (column_slot facts.now d) }
{
    is_one_slot(
        column_at(facts, ColId(c)).slot,
        column_at(facts, ColId(d)).slot,
    )
}

/// Whether `e` is another body of the slot of `d`.
pub fn is_other_body(facts: &Facts, d: u32, e: u32) -> bool
    requires body { d < length facts.now.columns.items }
    requires other { e < length facts.now.columns.items }
    ensures { result ≡ is_other_body facts.now d e }
{
    e != d && is_body(facts, e) && are_of_one_slot(facts, d, e)
}

/// Whether `e` is another body of the slot of `d`, is offered at a node, and stands at or below `d`.
pub fn is_nearer(asked: &Asked, n: NodeId, d: u32, e: u32) -> bool
    requires asked { IsObligationInput asked.now }
    requires node { is_live asked.now.hier.now.order n.0 ≡ true }
    requires body { d < length asked.now.facts.now.columns.items }
    requires other { e < length asked.now.facts.now.columns.items }
    ensures { result ≡ is_nearer asked.now.facts.now asked.now.hier.now n.0 d e }
{
    is_other_body(asked.facts, d, e) && is_offered(asked, n, e) && column_le(asked, e, d)
}

/// Whether another body of the slot of `d` is offered at a node, and stands at or below `d`.
#[tactic(auto, using(hier_model::proofs::AnyLemmas::any_below_found))]
fn has_nearer(asked: &Asked, n: NodeId, d: u32) -> bool
    requires asked { IsObligationInput asked.now }
    requires node { is_live asked.now.hier.now.order n.0 ≡ true }
    requires body { d < length asked.now.facts.now.columns.items }
    ensures { result ≡ has_nearer asked.now.facts.now asked.now.hier.now n.0 d }
{
    any_below!(e < asked.facts.columns.len() as u32; is_nearer(asked, n, d, e))
}

/// Adds the slot of a call, if its receiver has a site.
fn add_slot(asked: &Asked, s: u32, call: &CallInfo, slots: &mut Vec<u32>) -> Result<(), AllocError>
    requires asked { IsObligationInput asked.now }
    requires site { s < length asked.now.facts.now.sites.items }
    requires call { Contains asked.now.facts.now.calls.items call.now }
    ensures { OnOk result (slots.new.items ≡ slots.old.items ++ cond (bit (row asked.now.pt.now.points.items call.now.receiver) s) (call.now.slot ∷ []) []) }
{
    if row_at(&asked.pt.points, call.receiver as usize).has(s) {
        slots.push(call.slot)?;
    }
    Ok(())
}

/// The slots of the calls whose receiver has a site, rising. An error comes only for want of memory.
fn called_slots(alloc: Global, asked: &Asked, s: u32) -> Result<Vec<u32>, AllocError>
    requires asked { IsObligationInput asked.now }
    requires site { s < length asked.now.facts.now.sites.items }
    ensures sorted { IfOk result (λ v. IsNonDecreasing v.items) }
    ensures slots { IfOk result (λ v. (x : ℕ) → Contains v.items x ↔ (is_called asked.now.facts.now asked.now.pt.now s x ≡ true)) }
{
    let mut slots = Vec::new(alloc);
    for call in &asked.facts.calls {
        add_slot(asked, s, call, &mut slots)?;
    }
    slots.sort()?;
    Ok(slots)
}

/// The instance of a site and the body that it runs, if it is one.
fn wrong_body(asked: &Asked, s: u32, d: ColId) -> Option<Broken>
    requires asked { IsObligationInput asked.now }
    requires site { s < length asked.now.facts.now.sites.items }
    requires body { d.0 < length asked.now.facts.now.columns.items }
    ensures { result ≡ wrong_body asked.now.facts.now asked.now.hier.now s d.0 }
{
    let r = site_at(asked.facts, SiteId(s)).row.0;
    let n = place_of_row(asked, r);
    if is_offered(asked, n, d.0) && !has_nearer(asked, n, d.0) {
        return None;
    }
    Some(of_both(Rule::B4, n, r, d.0))
}

/// The instance of a site and a slot that is called on it, if it is one.
fn wrong_call(asked: &Asked, s: u32, x: u32) -> Option<Broken>
    requires asked { IsObligationInput asked.now }
    requires site { s < length asked.now.facts.now.sites.items }
    ensures { result ≡ option_and_then (wrong_body asked.now.facts.now asked.now.hier.now s) (finds asked.now.facts.now (site_class asked.now.facts.now s) x) }
{
    match finds(asked.facts, site_at(asked.facts, SiteId(s)).class, x) {
        Some(d) => wrong_body(asked, s, d),
        None => None,
    }
}

/// The first need of a site for which the wrong body is found. An error comes only for want of memory.
pub fn first_wrong_need_of(
    alloc: Global,
    asked: &Asked,
    s: u32,
) -> Result<Option<Broken>, AllocError>
    requires asked { IsObligationInput asked.now }
    requires site { s < length asked.now.facts.now.sites.items }
    ensures { IfOk result (λ b. b ≡ first_below (slots_of asked.now.facts.now) (wrong_need asked.now.facts.now asked.now.pt.now asked.now.hier.now s)) }
{
    let slots = called_slots(alloc, asked, s)?;
    Ok(first_wrong_call(asked, s, &slots))
}

/// The same, by the rising list of the slots that are called on the site.
fn first_wrong_call(asked: &Asked, s: u32, slots: &[u32]) -> Option<Broken>
    requires asked { IsObligationInput asked.now }
    requires site { s < length asked.now.facts.now.sites.items }
    requires sorted { IsNonDecreasing slots.now }
    requires slots { (x : ℕ) → Contains slots.now x ↔ (is_called asked.now.facts.now asked.now.pt.now s x ≡ true) }
    ensures { result ≡ first_below (slots_of asked.now.facts.now) (wrong_need asked.now.facts.now asked.now.pt.now asked.now.hier.now s) }
{
    for x in slots {
        if let Some(found) = wrong_call(asked, s, *x) {
            return Some(found);
        }
    }
    None
}

/// The first instance against B4. An error comes only for want of memory.
#[tactic(auto, using(kaba_bits::proofs::FirstLemmas::first_below_found))]
pub fn first_wrong_need(alloc: Global, asked: &Asked) -> Result<Option<Broken>, AllocError>
    requires { IsObligationInput asked.now }
    ensures { IfOk result (λ b. b ≡ first_wrong_need asked.now.facts.now asked.now.pt.now asked.now.hier.now) }
{
    first_found_below!(s < asked.facts.sites.len() as u32; first_wrong_need_of(alloc, asked, s)?)
}

/// Whether a column belongs to the class of a row.
fn is_of_class(facts: &Facts, r: u32, c: u32) -> bool
    requires row { r < length facts.now.rows.items }
    requires column { c < length facts.now.columns.items }
    ensures { result ≡ (column_class facts.now c == row_class facts.now r) }
{
    let row = &facts.rows[r as usize];
    column_at(facts, ColId(c)).class.0 == row.class.0
}

/// Whether `e` is another body of the slot of `d`, stands strictly above the row `r`, and at or below `d` or in the class of `r`.
fn is_between(asked: &Asked, r: u32, d: u32, e: u32) -> bool
    requires asked { IsObligationInput asked.now }
    requires row { r < length asked.now.facts.now.rows.items }
    requires body { d < length asked.now.facts.now.columns.items }
    requires other { e < length asked.now.facts.now.columns.items }
    ensures { result ≡ is_between asked.now.facts.now asked.now.hier.now r d e }
{
    is_other_body(asked.facts, d, e)
        && is_above(asked, place_of_row(asked, r), e)
        && (column_le(asked, e, d) || is_of_class(asked.facts, r, e))
}

/// Whether another body of the slot of `d` stands so.
#[tactic(auto, using(hier_model::proofs::AnyLemmas::any_below_found))]
fn has_between(asked: &Asked, r: u32, d: u32) -> bool
    requires asked { IsObligationInput asked.now }
    requires row { r < length asked.now.facts.now.rows.items }
    requires body { d < length asked.now.facts.now.columns.items }
    ensures { result ≡ has_between asked.now.facts.now asked.now.hier.now r d }
{
    any_below!(e < asked.facts.columns.len() as u32; is_between(asked, r, d, e))
}

/// The first instance against B5. An error comes only for want of memory.
#[tactic(auto, using(kaba_bits::proofs::FirstLemmas::first_below_found))]
pub fn first_wrong_super(alloc: Global, asked: &Asked) -> Result<Option<Broken>, AllocError>
    requires { IsObligationInput asked.now }
    ensures { IfOk result (λ b. b ≡ first_wrong_super asked.now.facts.now asked.now.hier.now) }
{
    let supers = super_rows(alloc, asked.facts)?;
    first_found_below!(r < asked.facts.rows.len() as u32; first_wrong_super_of(asked, row_at(&supers, r as usize), r))
}

/// The first body that a super call of the method of a row runs and that stands wrong.
#[tactic(auto, using(kaba_bits::proofs::FirstLemmas::first_below_found))]
pub fn first_wrong_super_of(asked: &Asked, bodies: &BitRow, r: u32) -> Option<Broken>
    requires asked { IsObligationInput asked.now }
    requires row { r < length asked.now.facts.now.rows.items }
    requires bodies { IsPairsRow (length asked.now.facts.now.columns.items) (is_super asked.now.facts.now r) bodies.now }
    ensures { result ≡ first_below (length asked.now.facts.now.columns.items) (wrong_super asked.now.facts.now asked.now.hier.now r) }
{
    let n = place_of_row(asked, r);
    for c in 0..asked.facts.columns.len() as u32 {
        if bodies.has(c) && (!is_above(asked, n, c) || has_between(asked, r, c)) {
            return Some(of_both(Rule::B5, n, r, c));
        }
    }
    None
}

/// The first instance against B6.
#[tactic(auto, using(kaba_bits::proofs::FirstLemmas::first_below_found))]
pub fn first_two_bodies(asked: &Asked) -> Option<Broken>
    requires { IsObligationInput asked.now }
    ensures { result ≡ first_two_bodies asked.now.facts.now asked.now.hier.now }
{
    first_below!(n < node_count(asked.hier); first_two_bodies_at(asked, n))
}

/// The same, where no node outside a list has two bodies of one slot.
#[tactic(auto, using(kaba_bits::proofs::FirstLemmas::first_below_found))]
pub fn first_two_bodies_among(asked: &Asked, index: &JoinIndex, nodes: &[NodeId]) -> Option<Broken>
    requires asked { IsObligationInput asked.now }
    requires index { IsIndexOf asked.now.facts.now asked.now.pt.now index.now }
    requires others { AreApartOutside asked.now.facts.now asked.now.hier.now nodes.now }
    ensures { result ≡ first_two_bodies asked.now.facts.now asked.now.hier.now }
{
    first_below!(n < node_count(asked.hier); first_two_bodies_if(asked, index, nodes, n))
}

/// The first two bodies of one slot at a node, by whether it is one of a list outside of which no node has such.
fn first_two_bodies_if(asked: &Asked, index: &JoinIndex, nodes: &[NodeId], n: u32) -> Option<Broken>
    requires asked { IsObligationInput asked.now }
    requires index { IsIndexOf asked.now.facts.now asked.now.pt.now index.now }
    requires others { AreApartOutside asked.now.facts.now asked.now.hier.now nodes.now }
    requires node { n < length asked.now.hier.now.order.live }
    ensures { result ≡ first_below (length asked.now.facts.now.columns.items)
        (λ c. first_below (length asked.now.facts.now.columns.items) (two_bodies asked.now.facts.now asked.now.hier.now n c)) }
{
    if !is_among(nodes, n) {
        return None;
    }
    if !has_two_bodies(asked, index, n) {
        return None;
    }
    first_two_bodies_at(asked, n)
}

/// Whether two bodies of one slot stand at a node.
#[tactic(auto, using(kaba_bits::proofs::FirstLemmas::first_below_more))]
fn has_two_bodies(asked: &Asked, index: &JoinIndex, n: u32) -> bool
    requires asked { IsObligationInput asked.now }
    requires index { IsIndexOf asked.now.facts.now asked.now.pt.now index.now }
    ensures { OnFalse result (first_below (length asked.now.facts.now.columns.items)
        (λ c. first_below (length asked.now.facts.now.columns.items) (two_bodies asked.now.facts.now asked.now.hier.now n c)) ≡ None) }
{
    any_below!(c < asked.facts.columns.len() as u32; has_rival_at(asked, row_at(&index.rivals, c as usize), n, c))
}

/// Whether `c`, if that is a body, and one of the other bodies of its slot stand at a node.
fn has_rival_at(asked: &Asked, rivals: &BitRow, n: u32, c: u32) -> bool
    requires asked { IsObligationInput asked.now }
    requires column { c < length asked.now.facts.now.columns.items }
    requires rivals { IsTestRow (length asked.now.facts.now.columns.items) (is_other_body asked.now.facts.now c) rivals.now }
    ensures { OnFalse result (first_below (length asked.now.facts.now.columns.items) (two_bodies asked.now.facts.now asked.now.hier.now n c) ≡ None) }
{
    if !is_body_at(asked, n, c) {
        return false;
    }
    any_in!(e in rivals; stands_at(asked, n, e))
}

/// Whether a number is that of a node of a list.
fn is_among(nodes: &[NodeId], n: u32) -> bool
    ensures { result ≡ is_among nodes.now n }
{
    nodes.iter().any(|s| n == s.0)
}

/// The first two bodies of one slot at a node.
#[tactic(auto, using(kaba_bits::proofs::FirstLemmas::first_below_found))]
fn first_two_bodies_at(asked: &Asked, n: u32) -> Option<Broken>
    requires { IsObligationInput asked.now }
    ensures { result ≡ first_below (length asked.now.facts.now.columns.items)
        (λ c. first_below (length asked.now.facts.now.columns.items) (two_bodies asked.now.facts.now asked.now.hier.now n c)) }
{
    first_below!(c < asked.facts.columns.len() as u32; first_second_body(asked, n, c))
}

/// Whether a body stands at a node.
fn is_body_at(asked: &Asked, n: u32, c: u32) -> bool
    requires asked { IsObligationInput asked.now }
    requires column { c < length asked.now.facts.now.columns.items }
    ensures { result ≡ is_body_at asked.now.facts.now asked.now.hier.now n c }
{
    stands_at(asked, n, c) && is_body(asked.facts, c)
}

/// The first body of the slot of `c` behind it at a node where `c` stands, if that is a body.
#[tactic(auto, using(kaba_bits::proofs::FirstLemmas::first_below_found))]
fn first_second_body(asked: &Asked, n: u32, c: u32) -> Option<Broken>
    requires asked { IsObligationInput asked.now }
    requires column { c < length asked.now.facts.now.columns.items }
    ensures { result ≡ first_below (length asked.now.facts.now.columns.items) (two_bodies asked.now.facts.now asked.now.hier.now n c) }
{
    if !is_body_at(asked, n, c) {
        return None;
    }
    for d in 0..asked.facts.columns.len() as u32 {
        if is_body_at(asked, n, d) && c < d && are_of_one_slot(asked.facts, c, d) {
            return Some(of_column(Rule::B6, n, d));
        }
    }
    None
}
