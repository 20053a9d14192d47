//! One step towards a tree.

ghost use Rattle.std.specs.Prelude.{◌≡◌, IfOk, OnErr, Some};
ghost use Rattle.hier_rules.specs.Words.{IsHierarchyOf, MeetsEdit};
ghost use Rattle.hier_rules.specs.Obligations.{first_unchained};
ghost use Rattle.hier_rules.specs.Chains.{AreKnown};
ghost use Rattle.hier_rules.specs.Index.{AreClashesOf};
ghost use Rattle.tree_merge.specs.Attempts.{IsTryInput, IsTurn};

use crate::attempts::{Attempt, first_accepted};
use crate::conflicts::conflict_of;
use crate::given::Given;
use crate::tries::tries_of;
use hier_model::{Edit, Hier};
use hier_rules::{Broken, KnownNodes, first_unchained_beyond};
use hier_tree::Conflict;
use std::alloc::AllocError;

/// A step towards a tree.
#[derive(Drop)]
pub struct TreeStep {
    /// The conflict of its moment.
    pub conflict: Conflict,
    /// The edit that it made: a merge or an under.
    pub edit: Edit,
}

/// What a step comes to.
#[derive(Drop)]
pub enum Turn {
    /// There is no conflict.
    Done,
    /// This step was made.
    Taken(TreeStep),
    /// No try of this conflict is accepted; what the last breaks.
    Stuck(Conflict, Broken),
}

/// The step at a conflict. What is known of the nodes stays right.
fn step_at(
    given: &Given,
    hier: &mut Hier,
    broken: Broken,
    known: &mut KnownNodes,
) -> Result<Turn, AllocError>
    requires given { IsTryInput given.now }
    requires hierarchy { IsHierarchyOf given.now.facts.now hier.old }
    requires meets { MeetsEdit given.now.facts.now given.now.sets.now hier.old }
    requires names { AreClashesOf given.now.facts.now hier.old.members given.now.clashes.now.items }
    requires conflict { first_unchained given.now.facts.now hier.old ≡ Some broken }
    requires known { AreKnown given.now.facts.now hier.old known.old }
    ensures turn { IfOk result (IsTurn given.now.facts.now given.now.sets.now hier.old hier.new) }
    ensures kept { OnErr result (hier.new ≡ hier.old) }
    ensures known { AreKnown given.now.facts.now hier.new known.new }
    ensures is { IsHierarchyOf given.now.facts.now hier.new }
    ensures members { hier.new.members ≡ hier.old.members }
{
    let conflict = conflict_of(broken);
    let mut tries = tries_of(given, hier, conflict)?;
    match first_accepted(given, hier, &tries, known)? {
        Attempt::Accepted(k) => {
            let edit = tries.swap_remove(k);
            Ok(Turn::Taken(TreeStep { conflict, edit }))
        }
        Attempt::Refused(last) => Ok(Turn::Stuck(conflict, last)),
    }
}

/// Makes a step, where there is a conflict of which a try is accepted. An error comes only for want
/// of memory, and then the hierarchy has not changed. The search for the conflict leaves out the nodes that are known to be
/// chained; after it those are known too that are found to be so, but for those that the step may have unchained.
pub fn step(given: &Given, hier: &mut Hier, known: &mut KnownNodes) -> Result<Turn, AllocError>
    requires given { IsTryInput given.now }
    requires hierarchy { IsHierarchyOf given.now.facts.now hier.old }
    requires meets { MeetsEdit given.now.facts.now given.now.sets.now hier.old }
    requires names { AreClashesOf given.now.facts.now hier.old.members given.now.clashes.now.items }
    requires known { AreKnown given.now.facts.now hier.old known.old }
    ensures turn { IfOk result (IsTurn given.now.facts.now given.now.sets.now hier.old hier.new) }
    ensures kept { OnErr result (hier.new ≡ hier.old) }
    ensures known { AreKnown given.now.facts.now hier.new known.new }
    ensures is { IsHierarchyOf given.now.facts.now hier.new }
    ensures members { hier.new.members ≡ hier.old.members }
{
    match first_unchained_beyond(given.alloc, given.facts, hier, known)? {
        None => Ok(Turn::Done),
        Some(broken) => step_at(given, hier, broken, known),
    }
}
