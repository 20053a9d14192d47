//! The first try of a conflict that is accepted.

ghost use Rattle.std.specs.Prelude.{◌≡◌, ◌<◌, length, All, IfOk, OnErr};
ghost use Rattle.hier_rules.specs.Words.{IsHierarchyOf, MeetsEdit};
ghost use Rattle.hier_rules.specs.Chains.{AreKnown};
ghost use Rattle.hier_rules.specs.Index.{AreClashesOf};
ghost use Rattle.hier_edit.specs.declared.ApplyFault.TheVariants as ApplyFault;
ghost use Rattle.tree_merge.specs.Attempts.{IsTryInput, IsTryOf, IsOfTry, IsAttempt, IsTried};

use crate::given::Given;
use hier_edit::{ApplyFault, JoinTests, join};
use hier_model::{Edit, Hier};
use hier_rules::{Broken, KnownNodes, keep_known};
use std::alloc::AllocError;

/// What some tries come to.
#[derive(Drop)]
pub enum Attempt {
    /// The try of this number is the first that is accepted, and was made.
    Accepted(usize),
    /// None is accepted; this is what the last breaks.
    Refused(Broken),
}

/// What a refused try breaks. An error comes only for want of memory.
fn broken_of(fault: ApplyFault) -> Result<Broken, AllocError>
    requires { IsOfTry fault }
    ensures { IfOk result (λ b. fault ≡ ApplyFault.Breaks b) }
{
    match fault {
        ApplyFault::Breaks(broken) => Ok(broken),
        ApplyFault::Memory => Err(AllocError),
        ApplyFault::UnknownNode(_) => unreachable!(),
        ApplyFault::UnknownMember(_) => unreachable!(),
        ApplyFault::NotEmpty(_) => unreachable!(),
    }
}

/// Makes an edit if it is accepted; else it answers what the edit breaks. What is known of the nodes stays right.
fn attempt_one(
    given: &Given,
    hier: &mut Hier,
    edit: &Edit,
    known: &mut KnownNodes,
) -> Result<Option<Broken>, AllocError>
    requires given { IsTryInput given.now }
    requires hierarchy { IsHierarchyOf given.now.facts.now hier.old }
    requires meets { MeetsEdit given.now.facts.now given.now.sets.now hier.old }
    requires names { AreClashesOf given.now.facts.now hier.old.members given.now.clashes.now.items }
    requires edit { IsTryOf hier.old edit.now }
    requires known { AreKnown given.now.facts.now hier.old known.old }
    ensures attempt { IfOk result (IsAttempt given.now.facts.now given.now.sets.now hier.old hier.new edit.now) }
    ensures kept { OnErr result (hier.new ≡ hier.old) }
    ensures known { AreKnown given.now.facts.now hier.new known.new }
    ensures is { IsHierarchyOf given.now.facts.now hier.new }
    ensures members { hier.new.members ≡ hier.old.members }
{
    let tests = JoinTests {
        facts: given.facts,
        sets: given.sets,
        index: given.index,
        clashes: given.clashes,
    };
    match join(given.alloc, hier, &tests, edit) {
        Ok(low) => {
            keep_known(hier, edit, &low, known);
            Ok(None)
        }
        Err(fault) => {
            let broken = broken_of(fault)?;
            Ok(Some(broken))
        }
    }
}

/// Makes the first of some edits that is accepted. What is known of the nodes stays right. An error comes only for want of
/// memory, and then the hierarchy has not changed.
pub fn first_accepted(
    given: &Given,
    hier: &mut Hier,
    tries: &[Edit],
    known: &mut KnownNodes,
) -> Result<Attempt, AllocError>
    requires given { IsTryInput given.now }
    requires hierarchy { IsHierarchyOf given.now.facts.now hier.old }
    requires meets { MeetsEdit given.now.facts.now given.now.sets.now hier.old }
    requires names { AreClashesOf given.now.facts.now hier.old.members given.now.clashes.now.items }
    requires some { 0 < length tries.now }
    requires tries { All (IsTryOf hier.old) tries.now }
    requires known { AreKnown given.now.facts.now hier.old known.old }
    ensures tried { IfOk result (IsTried given.now.facts.now given.now.sets.now hier.old hier.new tries.now) }
    ensures kept { OnErr result (hier.new ≡ hier.old) }
    ensures known { AreKnown given.now.facts.now hier.new known.new }
    ensures is { IsHierarchyOf given.now.facts.now hier.new }
    ensures members { hier.new.members ≡ hier.old.members }
{
    let mut k = 0;
    'tries: loop {
        match attempt_one(given, hier, &tries[k], known)? {
            None => return Ok(Attempt::Accepted(k)),
            Some(broken) if k + 1 == tries.len() => return Ok(Attempt::Refused(broken)),
            Some(_) => k += 1,
        }
    }
}
