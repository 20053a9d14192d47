//! What the rules ask for, and what it adds to the sets.

ghost use Rattle.std.specs.Prelude.{◌≡◌, ℕ, ◌<◌, ◌↔◌, true, length, IfOk, OnOk};
ghost use Rattle.fact_model.specs.Items.{site_at, site_class};
ghost use Rattle.fact_model.specs.Classes.{IsBelow};
ghost use Rattle.fact_model.specs.InRange.{IsClass};
ghost use Rattle.points_to.specs.Work.{IsEdge, IsEdgeClosed, IsSiteTold, IsSiteShown};
ghost use Rattle.points_to.specs.Words.{OnFalse, bit, row, IsSubset, IsStep, AreSitesBelow, node_count, AreSound, InNode};

use crate::queue::{Queue, wait};
use fact_model::{Facts, SiteInfo};
use kaba_base::{ClassId, ColId};
use kaba_bits::{BitRow, join, join_with, row_at, set_at};
use std::alloc::{AllocError, Global};

/// What is in the one set, and has a class at or below the one named, is in the other. Sets are numbered: first those
/// of the points, and then those of the cells.
#[derive(Clone, Copy)]
pub struct Edge {
    pub from: usize,
    pub to: usize,
    pub class: Option<ClassId>,
}

/// A site that is in a set.
#[derive(Clone, Copy)]
pub struct Told {
    pub node: usize,
    pub site: u32,
}

/// What belongs to a site and is read or written: its cell at a field, or with no column that of its elements, and of the body that
/// its class runs for a slot the `this`, a parameter, and the result.
#[derive(Clone, Copy, PartialEq, Eq)]
pub enum Member {
    Field(Option<ColId>),
    This(u32),
    Parameter(u32, usize),
    Returned(u32),
}

/// For each site in the base, what is in its member is in a point.
#[derive(Clone, Copy)]
pub struct Read {
    pub base: u32,
    pub member: Member,
    pub into: u32,
}

/// For each site in the base, what is in a point, and fits, is in its member.
#[derive(Clone, Copy)]
pub struct Write {
    pub base: u32,
    pub member: Member,
    pub value: u32,
}

/// Each site in the base is in the `this` of the body that its class runs for the slot.
#[derive(Clone, Copy)]
pub struct Run {
    pub base: u32,
    pub slot: u32,
}

/// One site.
pub fn site_at(facts: &Facts, s: u32) -> SiteInfo
    requires { s < length facts.now.sites.items }
    ensures { result ≡ site_at facts.now s }
{
    facts.sites[s as usize]
}

/// One site into a set, and whether it is new there.
pub fn put(facts: &Facts, sets: &mut [BitRow], grown: &mut Queue, n: usize, s: u32) -> bool
    requires sets { AreSound facts.now sets.old }
    requires node { n < node_count facts.now }
    requires site { s < length facts.now.sites.items }
    requires holds { InNode facts.now n s }
    ensures sets { AreSound facts.now sets.new }
    ensures step { IsStep sets.old sets.new result }
    ensures has { bit (row sets.new n) s ≡ true }
{
    let grew = set_at(sets, n, s);
    if grew {
        wait(grown, n);
    }
    grew
}

/// One set into another, and whether that grew.
fn include(facts: &Facts, sets: &mut [BitRow], grown: &mut Queue, from: usize, to: usize) -> bool
    requires sets { AreSound facts.now sets.old }
    requires from { from < node_count facts.now }
    requires to { to < node_count facts.now }
    requires flows { (s : ℕ) → InNode facts.now from s → InNode facts.now to s }
    ensures sets { AreSound facts.now sets.new }
    ensures step { IsStep sets.old sets.new result }
    ensures closed { OnFalse result (IsSubset (row sets.new from) (row sets.new to)) }
{
    let grew = join(sets, from, to);
    if grew {
        wait(grown, to);
    }
    grew
}

/// A row of sites into a set, and whether that grew.
pub fn include_row(
    facts: &Facts,
    sets: &mut [BitRow],
    grown: &mut Queue,
    extra: &BitRow,
    to: usize,
) -> bool
    requires sets { AreSound facts.now sets.old }
    requires width { length extra.now ≡ length facts.now.sites.items }
    requires to { to < node_count facts.now }
    requires holds { (s : ℕ) → bit extra.now s ≡ true → InNode facts.now to s }
    ensures sets { AreSound facts.now sets.new }
    ensures step { IsStep sets.old sets.new result }
    ensures closed { OnFalse result (IsSubset extra.now (row sets.new to)) }
{
    let grew = join_with(sets, to, extra);
    if grew {
        wait(grown, to);
    }
    grew
}

/// Those of a set whose class is at or below one. An error comes only for want of memory.
pub fn fit(
    alloc: Global,
    facts: &Facts,
    below: &[BitRow],
    set: &BitRow,
    class: ClassId,
) -> Result<BitRow, AllocError>
    requires below { AreSitesBelow facts.now (length facts.now.sites.items) below.now }
    requires class { IsClass facts.now class }
    requires width { length set.now ≡ length facts.now.sites.items }
    ensures width { IfOk result (λ r. length r ≡ length facts.now.sites.items) }
    ensures sound { IfOk result (λ r. (s : ℕ) → bit r s ≡ true → (bit set.now s ≡ true) × IsBelow facts.now (site_class facts.now s) class.0) }
    ensures whole { IfOk result (λ r. (s : ℕ) → bit set.now s ≡ true → IsBelow facts.now (site_class facts.now s) class.0 → bit r s ≡ true) }
{
    let _ = facts;
    let mut row = set.copy(alloc)?;
    row.and_into(row_at(below, class.0 as usize));
    Ok(row)
}

/// What is in the set so far along an inclusion, and whether it is new there. An error comes only for want of memory.
pub fn pass(
    alloc: Global,
    facts: &Facts,
    below: &[BitRow],
    sets: &mut [BitRow],
    grown: &mut Queue,
    edge: Edge,
) -> Result<bool, AllocError>
    requires below { AreSitesBelow facts.now (length facts.now.sites.items) below.now }
    requires sets { AreSound facts.now sets.old }
    requires edge { IsEdge facts.now edge }
    ensures sets { OnOk result (AreSound facts.now sets.new) }
    ensures step { IfOk result (IsStep sets.old sets.new) }
    ensures closed { IfOk result (λ grew. OnFalse grew (IsEdgeClosed facts.now sets.new edge)) }
{
    match edge.class {
        Some(class) => {
            let row = fit(alloc, facts, below, row_at(sets, edge.from), class)?;
            Ok(include_row(facts, sets, grown, &row, edge.to))
        }
        None => Ok(include(facts, sets, grown, edge.from, edge.to)),
    }
}

/// One site into its set, and whether it is new there.
pub fn show(facts: &Facts, sets: &mut [BitRow], grown: &mut Queue, x: Told) -> bool
    requires sets { AreSound facts.now sets.old }
    requires told { IsSiteTold facts.now x }
    ensures sets { AreSound facts.now sets.new }
    ensures step { IsStep sets.old sets.new result }
    ensures shown { OnFalse result (IsSiteShown sets.new x) }
{
    put(facts, sets, grown, x.node, x.site)
}
