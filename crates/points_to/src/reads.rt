//! Reads: what is in a member of the sites of a base. The union over a set of sites is kept from one read to the next, for those of
//! the same member whose base has all of these sites.

ghost use Rattle.std.specs.Prelude.{◌≡◌, ℕ, ◌<◌, ◌⊎◌, ◌↔◌, Bool, true, List, length, slice_set, All, IsTrue, IfOk, OnOk};
ghost use Rattle.points_to.specs.Rounds.{IsInSome, IsNextBeyond, IsGathered, IsWhole};
ghost use Rattle.points_to.specs.Words.{bit, row, IsSubset, InRange, node_count, AreSound, IsSolverInput};

use crate::found::Given;
use crate::targets::list_targets;
use crate::work::Member;
use fact_model::Facts;
use kaba_bits::{BitRow, row_at};
use std::alloc::{AllocError, Global};

/// What is in a member of these sites.
#[derive(Drop)]
pub struct Union {
    pub member: Member,
    pub sites: BitRow,
    pub held: BitRow,
}

/// That of no sites. An error comes only for want of memory.
pub fn no_union(alloc: Global, facts: &Facts) -> Result<Union, AllocError>
    requires { InRange facts.now }
    ensures gathered { IfOk result (IsGathered facts.now) }
    ensures whole { IfOk result (λ u. (sets : List (List Bool)) → IsWhole facts.now sets u) }
{
    let width = facts.sites.len() as u32;
    Ok(Union {
        member: Member::Field(None),
        sites: BitRow::new(alloc, width)?,
        held: BitRow::new(alloc, width)?,
    })
}

/// Whether two members are one.
pub fn is_same_member(a: Member, b: Member) -> bool
    ensures { IsTrue result ↔ (a ≡ b) }
{
    a == b
}

/// Begins anew, where the union is of another member or of sites beside those of a set.
pub fn turn_to(facts: &Facts, union: &mut Union, member: Member, set: &BitRow)
    requires gathered { IsGathered facts.now union.old }
    requires width { length set.now ≡ length facts.now.sites.items }
    ensures gathered { IsGathered facts.now union.new }
    ensures member { union.new.member ≡ member }
    ensures within { IsSubset union.new.sites set.now }
    ensures whole { (sets : List (List Bool)) → IsWhole facts.now sets union.old → IsWhole facts.now sets union.new }
{
    let _ = facts;
    if !is_same_member(union.member, member) || !union.sites.is_subset(set) {
        union.member = member;
        union.sites.clear();
        union.held.clear();
    }
}

/// What is in one of these sets too.
fn hold_all(facts: &Facts, sets: &[BitRow], held: &mut BitRow, list: &[usize])
    requires sets { AreSound facts.now sets.now }
    requires width { length held.old ≡ length facts.now.sites.items }
    requires list { All (λ n. n < node_count facts.now) list.now }
    ensures width { length held.new ≡ length facts.now.sites.items }
    ensures kept { IsSubset held.old held.new }
    ensures gained { (s : ℕ) → bit held.new s ≡ true → (bit held.old s ≡ true) ⊎ IsInSome sets.now list.now s }
    ensures whole { All (λ n. IsSubset (row sets.now n) held.new) list.now }
{
    let _ = facts;
    for n in list {
        held.or_into(row_at(sets, *n));
    }
}

/// One site more. An error comes only for want of memory.
fn gather_site(
    given: &Given,
    sets: &[BitRow],
    union: &mut Union,
    list: &mut Vec<usize>,
    o: u32,
) -> Result<(), AllocError>
    requires given { IsSolverInput given.now }
    requires sets { AreSound given.now.facts.now sets.now }
    requires gathered { IsGathered given.now.facts.now union.old }
    requires site { o < length given.now.facts.now.sites.items }
    ensures gathered { OnOk result (IsGathered given.now.facts.now union.new) }
    ensures member { OnOk result (union.new.member ≡ union.old.member) }
    ensures sites { OnOk result (union.new.sites ≡ slice_set union.old.sites o true) }
    ensures whole { OnOk result (IsWhole given.now.facts.now sets.now union.old → IsWhole given.now.facts.now sets.now union.new) }
{
    list_targets(given, list, union.member, o)?;
    union.sites.set(o);
    hold_all(given.facts, sets, &mut union.held, list);
    Ok(())
}

/// The least site of a set, from one on, that is not in another.
pub fn next_site(facts: &Facts, set: &BitRow, sites: &BitRow, at: u32) -> Option<u32>
    requires set { length set.now ≡ length facts.now.sites.items }
    requires sites { length sites.now ≡ length facts.now.sites.items }
    ensures { IsNextBeyond (length facts.now.sites.items) set.now sites.now at result }
{
    let _ = facts;
    set.next_beyond(sites, at)
}

/// The sites of a set too. An error comes only for want of memory.
pub fn gather(
    given: &Given,
    sets: &[BitRow],
    union: &mut Union,
    list: &mut Vec<usize>,
    set: &BitRow,
) -> Result<(), AllocError>
    requires given { IsSolverInput given.now }
    requires sets { AreSound given.now.facts.now sets.now }
    requires gathered { IsGathered given.now.facts.now union.old }
    requires width { length set.now ≡ length given.now.facts.now.sites.items }
    requires within { IsSubset union.old.sites set.now }
    ensures gathered { OnOk result (IsGathered given.now.facts.now union.new) }
    ensures member { OnOk result (union.new.member ≡ union.old.member) }
    ensures within { OnOk result (IsSubset union.new.sites set.now) }
    ensures all { OnOk result (IsSubset set.now union.new.sites) }
    ensures whole { OnOk result (IsWhole given.now.facts.now sets.now union.old → IsWhole given.now.facts.now sets.now union.new) }
{
    let width = given.facts.sites.len() as u32;
    let mut at = 0;
    'scan: while at < width {
        match next_site(given.facts, set, &union.sites, at) {
            Some(o) => {
                gather_site(given, sets, union, list, o)?;
                at = o + 1;
            }
            None => return Ok(()),
        }
    }
    Ok(())
}
