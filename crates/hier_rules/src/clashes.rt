//! B8, part 4: no type offers two slots, or two fields, of one name.

ghost use Rattle.std.specs.Prelude.{◌≡◌, ℕ, ◌<◌, ◌&&◌, ◌∷◌, ◌++◌, [], List, cond, length, true, Some, IfOk, OnOk};
ghost use Rattle.hier_rules.specs.Words.{is_live, first_below, is_offered, IsObligationInput};
ghost use Rattle.std.specs.Str.{bytes_eq, encode_utf8_all};
ghost use Rattle.indexmap.specs.IndexMap.{get_by_text};
ghost use Rattle.hier_rules.specs.Asked.{are_two_slots};
ghost use Rattle.hier_rules.specs.Names.{method_slot, clash, confused, first_confused};
ghost use Rattle.hier_rules.specs.Touched.{NamesHold};
ghost use Rattle.hier_rules.specs.Index.{AreClashesOf};
ghost use Rattle.hier_rules.specs.Namesakes.{AreLinks, AreClashes, offers_both};

use crate::bodies::of_column;
use crate::broken::{Broken, Rule};
use crate::names::{is_field, is_same};
use crate::places::{Asked, is_live, is_offered, node_count};
use fact_model::{ColKind, ColumnInfo};
use hier_model::column_at;
use indexmap::IndexMap;
use kaba_base::{ColId, Name, NodeId};
use kaba_bits::BitRow;
use std::alloc::{AllocError, Global};

/// Two columns that no type offers both.
#[derive(Clone, Copy)]
pub struct ClashPair {
    /// The lesser.
    pub first: u32,
    /// The greater.
    pub second: u32,
}

/// The slot of a method's declaration or body.
fn method_slot(column: &ColumnInfo) -> Option<u32>
    ensures { result ≡ method_slot column.now.kind column.now.slot }
{
    match column.kind {
        ColKind::Dcl | ColKind::Def => column.slot,
        ColKind::Fld | ColKind::Is => None,
    }
}

/// Whether two slots are there and differ.
fn are_two_slots(a: Option<u32>, b: Option<u32>) -> bool
    ensures { result ≡ are_two_slots a b }
{
    match (a, b) {
        (Some(x), Some(y)) => x != y,
        (_, _) => false,
    }
}

/// Whether two columns have one name, and are two fields or of two slots.
fn clash(asked: &Asked, c: u32, d: u32) -> bool
    requires asked { IsObligationInput asked.now }
    requires one { c < length asked.now.facts.now.columns.items }
    requires other { d < length asked.now.facts.now.columns.items }
    ensures { result ≡ clash asked.now.facts.now asked.now.hier.now c d }
{
    let one = column_at(asked.facts, ColId(c));
    let other = column_at(asked.facts, ColId(d));
    is_same(
        asked.hier.member_name(ColId(c)),
        asked.hier.member_name(ColId(d)),
    ) && ((is_field(one.kind) && is_field(other.kind))
        || are_two_slots(method_slot(one), method_slot(other)))
}

/// Adds two columns, if they clash.
fn add_clash(asked: &Asked, c: u32, d: u32, clashes: &mut Vec<ClashPair>) -> Result<(), AllocError>
    requires asked { IsObligationInput asked.now }
    requires one { c < length asked.now.facts.now.columns.items }
    requires other { d < length asked.now.facts.now.columns.items }
    ensures { OnOk result (clashes.new.items ≡ clashes.old.items ++ cond (clash asked.now.facts.now asked.now.hier.now c d)
        (record { first = c; second = d } ∷ []) []) }
{
    if clash(asked, c, d) {
        clashes.push(ClashPair {
            first: c,
            second: d,
        })?;
    }
    Ok(())
}

/// Puts a column into the map of the last column of each name, and gives the one that was there.
fn put_last(
    alloc: Global,
    last: &mut IndexMap<String, u32>,
    name: &Name,
    c: u32,
) -> Result<Option<u32>, AllocError>
    ensures old { IfOk result (λ o. o ≡ get_by_text last.old (encode_utf8_all name.now)) }
    ensures put { OnOk result ((x : List ℕ) → get_by_text last.new (encode_utf8_all x)
        ≡ cond (bytes_eq name.now x) (Some c) (get_by_text last.old (encode_utf8_all x))) }
{
    let text = String::from_str(alloc, name.as_str())?;
    let old = last.insert(text, c)?;
    Ok(old)
}

/// For each column the last one before it of its name. An error comes only for want of memory.
fn links(alloc: Global, asked: &Asked) -> Result<Vec<Option<u32>>, AllocError>
    requires { IsObligationInput asked.now }
    ensures { IfOk result (λ v. AreLinks asked.now.hier.now (length asked.now.facts.now.columns.items) v.items) }
{
    let mut links = Vec::new(alloc);
    let mut last = IndexMap::new(alloc);
    for c in 0..asked.facts.columns.len() as u32 {
        let before = put_last(alloc, &mut last, asked.hier.member_name(ColId(c)), c)?;
        links.push(before)?;
    }
    Ok(links)
}

/// Adds the clashes of a column with those before it of its name.
fn add_clashes(
    asked: &Asked,
    links: &[Option<u32>],
    d: u32,
    clashes: &mut Vec<ClashPair>,
) -> Result<(), AllocError>
    requires asked { IsObligationInput asked.now }
    requires links { AreLinks asked.now.hier.now (length asked.now.facts.now.columns.items) links.now }
    requires column { d < length asked.now.facts.now.columns.items }
    requires before { AreClashes asked.now.facts.now asked.now.hier.now d d clashes.old.items }
    ensures { OnOk result (AreClashes asked.now.facts.now asked.now.hier.now d 0 clashes.new.items) }
{
    let mut earlier = links[d as usize];
    'namesakes: loop {
        match earlier {
            None => return Ok(()),
            Some(c) => {
                add_clash(asked, c, d, clashes)?;
                earlier = links[c as usize];
            }
        }
    }
}

/// All clashes, by the greater of their columns. An error comes only for want of memory.
fn all_clashes(alloc: Global, asked: &Asked) -> Result<Vec<ClashPair>, AllocError>
    requires { IsObligationInput asked.now }
    ensures { IfOk result (λ v. AreClashes asked.now.facts.now asked.now.hier.now (length asked.now.facts.now.columns.items)
        (length asked.now.facts.now.columns.items) v.items) }
{
    let links = links(alloc, asked)?;
    let mut clashes = Vec::new(alloc);
    for d in 0..asked.facts.columns.len() as u32 {
        add_clashes(asked, &links, d, &mut clashes)?;
    }
    Ok(clashes)
}

/// All clashes, of hierarchies whose members have the names that they have in this one: no merge, and no node put under
/// another, changes them. An error comes only for want of memory.
pub fn name_clashes(alloc: Global, asked: &Asked) -> Result<Vec<ClashPair>, AllocError>
    requires { IsObligationInput asked.now }
    ensures { IfOk result (λ v. AreClashesOf asked.now.facts.now asked.now.hier.now.members v.items) }
{
    let clashes = all_clashes(alloc, asked)?;
    Ok(clashes)
}

/// Whether a live node offers both columns of a clash.
fn offers_both(asked: &Asked, n: u32, x: ClashPair) -> bool
    requires asked { IsObligationInput asked.now }
    requires node { is_live asked.now.hier.now.order n ≡ true }
    requires first { x.first < length asked.now.facts.now.columns.items }
    requires second { x.second < length asked.now.facts.now.columns.items }
    ensures { result ≡ offers_both asked.now.hier.now n x }
{
    is_offered(asked, NodeId(n), x.second) && is_offered(asked, NodeId(n), x.first)
}

/// The first column that a node offers with one before it that clashes with it.
fn first_confused_at(asked: &Asked, clashes: &[ClashPair], n: u32) -> Option<Broken>
    requires asked { IsObligationInput asked.now }
    requires clashes { AreClashes asked.now.facts.now asked.now.hier.now (length asked.now.facts.now.columns.items)
        (length asked.now.facts.now.columns.items) clashes.now }
    ensures { result ≡ first_below (length asked.now.facts.now.columns.items) (confused asked.now.facts.now asked.now.hier.now n) }
{
    if !is_live(asked.hier, n) {
        return None;
    }
    for x in clashes {
        if offers_both(asked, n, *x) {
            return Some(of_column(Rule::B8, n, x.second));
        }
    }
    None
}

/// The first two members of one name that a type offers. An error comes only for want of memory.
#[tactic(auto, using(kaba_bits::proofs::FirstLemmas::first_below_found))]
pub fn first_confused(alloc: Global, asked: &Asked) -> Result<Option<Broken>, AllocError>
    requires { IsObligationInput asked.now }
    ensures { IfOk result (λ b. b ≡ first_confused asked.now.facts.now asked.now.hier.now) }
{
    let clashes = all_clashes(alloc, asked)?;
    first_found_below!(n < node_count(asked.hier); first_confused_at(asked, &clashes, n))
}

/// The same, by all clashes, where no node outside a set offers two.
#[tactic(auto, using(kaba_bits::proofs::FirstLemmas::first_below_found))]
pub fn first_confused_among(asked: &Asked, clashes: &[ClashPair], low: &BitRow) -> Option<Broken>
    requires asked { IsObligationInput asked.now }
    requires clashes { AreClashes asked.now.facts.now asked.now.hier.now (length asked.now.facts.now.columns.items)
        (length asked.now.facts.now.columns.items) clashes.now }
    requires others { NamesHold asked.now.facts.now asked.now.hier.now low.now }
    ensures { result ≡ first_confused asked.now.facts.now asked.now.hier.now }
{
    first_below!(n < node_count(asked.hier); first_confused_if(asked, clashes, low, n))
}

/// The first column that a node offers with one before it that clashes with it, if the node is of the set.
fn first_confused_if(asked: &Asked, clashes: &[ClashPair], low: &BitRow, n: u32) -> Option<Broken>
    requires asked { IsObligationInput asked.now }
    requires clashes { AreClashes asked.now.facts.now asked.now.hier.now (length asked.now.facts.now.columns.items)
        (length asked.now.facts.now.columns.items) clashes.now }
    requires others { NamesHold asked.now.facts.now asked.now.hier.now low.now }
    requires node { n < length asked.now.hier.now.order.live }
    ensures { result ≡ first_below (length asked.now.facts.now.columns.items) (confused asked.now.facts.now asked.now.hier.now n) }
{
    if !low.has(n) {
        return None;
    }
    first_confused_at(asked, clashes, n)
}
