//! Edits of a hierarchy that can be taken back, by the differences alone.
#![tactic(auto)]

ghost use Rattle.std.specs.Prelude.{◌≡◌, ◌≢◌, Ok, Err, length, IfErr, IfOk, OnErr};
ghost use Rattle.hier_model.specs.Hierarchies.{Hierarchy};
ghost use Rattle.hier_model.specs.Differences.{IsOneEdit, IsUndoOf};
ghost use Rattle.hier_rules.specs.Index.{IsIndexOf};
ghost use Rattle.hier_rules.specs.Words.{InRange, AreSets, IsHierarchyOf, NamesSome, MeetsEdit};
ghost use Rattle.hier_edit.specs.Applied.{applied};
ghost use Rattle.hier_edit.specs.declared.ApplyFault.TheVariants as ApplyFault;

use fact_model::{Facts, PointsTo};
use hier_edit::{ApplyFault, edited};
use hier_model::{Edit, Hier, Undo};
use hier_rules::JoinIndex;
use std::alloc::Global;

/// Makes an edit as `hier_edit::edited` does, with the same refusals, and gives what takes it back: the differences
/// between the hierarchy before it and the one after it. After a refusal, and where memory is short, the hierarchy is
/// the one before.
pub fn apply_kept(
    alloc: Global,
    hier: &mut Hier,
    facts: &Facts,
    sets: &PointsTo,
    index: &JoinIndex,
    edit: &Edit,
) -> Result<Undo, ApplyFault>
    requires range { InRange facts.now }
    requires sets { AreSets facts.now sets.now }
    requires index { IsIndexOf facts.now sets.now index.now }
    requires hierarchy { IsHierarchyOf facts.now hier.old }
    requires meets { MeetsEdit facts.now sets.now hier.old }
    requires some { NamesSome edit.now }
    ensures accepted { IfOk result (λ _. applied facts.now sets.now hier.old edit.now ≡ Ok hier.new) }
    ensures meets { IfOk result (λ _. MeetsEdit facts.now sets.now hier.new) }
    ensures undo { IfOk result (IsUndoOf hier.old hier.new) }
    ensures refused { IfErr result (λ fault. fault ≢ ApplyFault.Memory → applied facts.now sets.now hier.old edit.now ≡ Err fault) }
    ensures kept { OnErr result (hier.new ≡ hier.old) }
    ensures is { IsHierarchyOf facts.now hier.new }
{
    match edited(alloc, hier, facts, sets, index, edit) {
        Ok(made) => replace(alloc, hier, made),
        Err(fault) => Err(fault),
    }
}

/// Puts a hierarchy that an edit made in place of the old one, and gives what takes it back.
fn replace(alloc: Global, hier: &mut Hier, made: Hier) -> Result<Undo, ApplyFault>
    requires { IsOneEdit hier.old made }
    ensures made { IfOk result (λ _. hier.new ≡ made) }
    ensures undo { IfOk result (IsUndoOf hier.old hier.new) }
    ensures refused { IfErr result (λ fault. fault ≡ ApplyFault.Memory) }
    ensures kept { OnErr result (hier.new ≡ hier.old) }
{
    match hier.changes(alloc, &made) {
        Ok(kept) => {
            *hier = made;
            Ok(kept)
        }
        Err(_) => Err(ApplyFault::Memory),
    }
}

/// Takes the last edit back, by what was kept of it. It takes no memory.
pub fn take_back(hier: &mut Hier, kept: Undo)
    requires { (old : Hierarchy) × IsUndoOf old hier.old kept }
    ensures { (old : Hierarchy) → IsUndoOf old hier.old kept → hier.new ≡ old }
{
    hier.put_back(kept);
}

/// How many differences are kept of an edit.
pub fn size(kept: &Undo) -> u64
    ensures { result ≡ length kept.now.changes.items }
{
    kept.changes.len() as u64
}

/// Makes an edit and takes it back: whatever the edit, the hierarchy is the one before.
pub fn apply_and_take_back(
    alloc: Global,
    hier: &mut Hier,
    facts: &Facts,
    sets: &PointsTo,
    index: &JoinIndex,
    edit: &Edit,
) -> Result<(), ApplyFault>
    requires range { InRange facts.now }
    requires sets { AreSets facts.now sets.now }
    requires index { IsIndexOf facts.now sets.now index.now }
    requires hierarchy { IsHierarchyOf facts.now hier.old }
    requires meets { MeetsEdit facts.now sets.now hier.old }
    requires some { NamesSome edit.now }
    ensures same { hier.new ≡ hier.old }
    ensures refused { IfErr result (λ fault. fault ≢ ApplyFault.Memory → applied facts.now sets.now hier.old edit.now ≡ Err fault) }
{
    match apply_kept(alloc, hier, facts, sets, index, edit) {
        Ok(kept) => {
            take_back(hier, kept);
            Ok(())
        }
        Err(fault) => Err(fault),
    }
}
