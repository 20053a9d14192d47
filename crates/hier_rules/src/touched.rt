//! B4 and B5 where an edit can have broken them: at or below the nodes that it joined.

ghost use Rattle.std.specs.Prelude.{◌≡◌, ℕ, ◌<◌, ◌==◌, ◌&&◌, ◌||◌, not, true, false, None, length, All, IfOk};
ghost use Rattle.hier_rules.specs.Words.{bit, first_below, is_live, is_offered, IsObligationInput};
ghost use Rattle.std.specs.Bool.{OnFalse};
ghost use Rattle.hier_rules.specs.Asked.{slots_of, is_other_body, is_super};
ghost use Rattle.hier_rules.specs.Pairs.{IsPairsRow};
ghost use Rattle.hier_rules.specs.Index.{is_needed, IsTestRow, IsIndexOf};
ghost use Rattle.hier_rules.specs.Touched.{NeedsHold, SupersHold};
ghost use Rattle.hier_rules.specs.Obligations.{has_nearer, wrong_need, first_wrong_need, wrong_super, first_wrong_super};

use crate::bodies::{first_wrong_need_of, first_wrong_super_of, is_nearer};
use crate::broken::Broken;
use crate::index::JoinIndex;
use crate::places::{Asked, is_live, is_offered, node_count, place_of_row};
use hier_model::site_at;
use kaba_base::{NodeId, SiteId};
use kaba_bits::{BitRow, row_at};
use std::alloc::{AllocError, Global};

/// Whether one of the other bodies of the slot of `d` is nearer at a node.
fn has_nearer_rival(asked: &Asked, rivals: &BitRow, n: NodeId, d: u32) -> bool
    requires asked { IsObligationInput asked.now }
    requires node { is_live asked.now.hier.now.order n.0 ≡ true }
    requires body { d < length asked.now.facts.now.columns.items }
    requires rivals { IsTestRow (length asked.now.facts.now.columns.items) (is_other_body asked.now.facts.now d) rivals.now }
    ensures { OnFalse result (has_nearer asked.now.facts.now asked.now.hier.now n.0 d ≡ false) }
{
    any_in!(e in rivals; is_nearer(asked, n, d, e))
}

/// Whether a node does not offer a body, or one nearer.
fn is_hidden(asked: &Asked, index: &JoinIndex, n: NodeId, d: u32) -> bool
    requires asked { IsObligationInput asked.now }
    requires index { IsIndexOf asked.now.facts.now asked.now.pt.now index.now }
    requires node { is_live asked.now.hier.now.order n.0 ≡ true }
    requires body { d < length asked.now.facts.now.columns.items }
    ensures { OnFalse result ((not (is_offered asked.now.hier.now n.0 d) || has_nearer asked.now.facts.now asked.now.hier.now n.0 d) ≡ false) }
{
    if !is_offered(asked, n, d) {
        return true;
    }
    has_nearer_rival(asked, row_at(&index.rivals, d as usize), n, d)
}

/// Whether a body that a site needs is hidden at its node.
fn has_wrong_need(asked: &Asked, index: &JoinIndex, needs: &BitRow, s: u32) -> bool
    requires asked { IsObligationInput asked.now }
    requires index { IsIndexOf asked.now.facts.now asked.now.pt.now index.now }
    requires needs { IsTestRow (length asked.now.facts.now.columns.items) (is_needed asked.now.facts.now asked.now.pt.now s) needs.now }
    requires site { s < length asked.now.facts.now.sites.items }
    ensures { OnFalse result (first_below (slots_of asked.now.facts.now) (wrong_need asked.now.facts.now asked.now.pt.now asked.now.hier.now s) ≡ None) }
{
    let n = place_of_row(asked, site_at(asked.facts, SiteId(s)).row.0);
    any_in!(d in needs; is_hidden(asked, index, n, d))
}

/// The first instance against B4, where there is none at a node outside a set. An error comes only for want of memory.
#[tactic(auto, using(kaba_bits::proofs::FirstLemmas::first_below_found))]
pub fn first_wrong_need_among(
    alloc: Global,
    asked: &Asked,
    index: &JoinIndex,
    low: &BitRow,
) -> Result<Option<Broken>, AllocError>
    requires asked { IsObligationInput asked.now }
    requires index { IsIndexOf asked.now.facts.now asked.now.pt.now index.now }
    requires others { NeedsHold asked.now.facts.now asked.now.pt.now asked.now.hier.now low.now }
    ensures { IfOk result (λ b. b ≡ first_wrong_need asked.now.facts.now asked.now.pt.now asked.now.hier.now) }
{
    first_found_below!(s < asked.facts.sites.len() as u32; first_wrong_need_if(alloc, asked, index, low, s)?)
}

/// The first need of a site for which the wrong body is found, if its node is of the set.
fn first_wrong_need_if(
    alloc: Global,
    asked: &Asked,
    index: &JoinIndex,
    low: &BitRow,
    s: u32,
) -> Result<Option<Broken>, AllocError>
    requires asked { IsObligationInput asked.now }
    requires index { IsIndexOf asked.now.facts.now asked.now.pt.now index.now }
    requires others { NeedsHold asked.now.facts.now asked.now.pt.now asked.now.hier.now low.now }
    requires site { s < length asked.now.facts.now.sites.items }
    ensures { IfOk result (λ b. b ≡ first_below (slots_of asked.now.facts.now) (wrong_need asked.now.facts.now asked.now.pt.now asked.now.hier.now s)) }
{
    let n = place_of_row(asked, site_at(asked.facts, SiteId(s)).row.0);
    if !low.has(n.0) {
        return Ok(None);
    }
    if !has_wrong_need(asked, index, row_at(&index.needs, s as usize), s) {
        return Ok(None);
    }
    first_wrong_need_of(alloc, asked, s)
}

/// The first instance against B5, where there is none at a node outside a set.
#[tactic(auto, using(kaba_bits::proofs::FirstLemmas::first_below_found))]
pub fn first_wrong_super_among(asked: &Asked, index: &JoinIndex, low: &BitRow) -> Option<Broken>
    requires asked { IsObligationInput asked.now }
    requires index { IsIndexOf asked.now.facts.now asked.now.pt.now index.now }
    requires others { SupersHold asked.now.facts.now asked.now.hier.now low.now }
    ensures { result ≡ first_wrong_super asked.now.facts.now asked.now.hier.now }
{
    first_below!(r < asked.facts.rows.len() as u32; first_wrong_super_if(asked, index, low, r))
}

/// The first body that a super call of the method of a row runs and that stands wrong, if the row's node is of the set.
fn first_wrong_super_if(asked: &Asked, index: &JoinIndex, low: &BitRow, r: u32) -> Option<Broken>
    requires asked { IsObligationInput asked.now }
    requires index { IsIndexOf asked.now.facts.now asked.now.pt.now index.now }
    requires others { SupersHold asked.now.facts.now asked.now.hier.now low.now }
    requires row { r < length asked.now.facts.now.rows.items }
    ensures { result ≡ first_below (length asked.now.facts.now.columns.items) (wrong_super asked.now.facts.now asked.now.hier.now r) }
{
    let n = place_of_row(asked, r);
    if !low.has(n.0) {
        return None;
    }
    first_wrong_super_in(asked, row_at(&index.supers, r as usize), r)
}

/// The same, by the set of the bodies that super calls of the method run.
fn first_wrong_super_in(asked: &Asked, bodies: &BitRow, r: u32) -> Option<Broken>
    requires asked { IsObligationInput asked.now }
    requires row { r < length asked.now.facts.now.rows.items }
    requires bodies { IsPairsRow (length asked.now.facts.now.columns.items) (is_super asked.now.facts.now r) bodies.now }
    ensures { result ≡ first_below (length asked.now.facts.now.columns.items) (wrong_super asked.now.facts.now asked.now.hier.now r) }
{
    if bodies.is_empty() {
        return None;
    }
    first_wrong_super_of(asked, bodies, r)
}
