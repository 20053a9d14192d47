//! Edits of a hierarchy, each tested against the obligations: an edit is made whole, or nothing changes.
#![tactic(auto)]

ghost use Rattle.std.specs.Prelude.{◌≡◌, ◌≢◌, ◌⊎◌, Ok, Err, IfErr, IfOk, OnErr, OnOk};
ghost use Rattle.hier_rules.specs.Words.{InRange, AreSets, IsHierarchyOf, NamesSome, MeetsEdit};
ghost use Rattle.hier_model.specs.Hierarchies.{Hierarchy};
ghost use Rattle.hier_model.specs.Places.{IsFormer, JoinsNodes, joined_nodes};
ghost use Rattle.kaba_order.specs.Formers.{AreBelow};
ghost use Rattle.hier_rules.specs.After.{IsAfterEdit};
ghost use Rattle.hier_rules.specs.Index.{IsIndexOf};
ghost use Rattle.hier_edit.specs.Applied.{applied, tested, fault_of};
ghost use Rattle.hier_edit.specs.Joins.{AreJoinTests, IsJoined};
ghost use Rattle.hier_edit.specs.declared.ApplyFault.TheVariants as ApplyFault;

use fact_model::{Facts, PointsTo};
use hier_model::{ChangeFault, Edit, Hier, Join};
use hier_rules::{
    Asked, Broken, ClashPair, JoinIndex, Nodes, Rule, first_broken_after, first_broken_joined,
};
use kaba_base::{ColId, NodeId};
use kaba_bits::BitRow;
use std::alloc::Global;

/// Why an edit is refused.
#[derive(Clone, Copy)]
pub enum ApplyFault {
    /// No live node has this number; it is the first such of the edit.
    UnknownNode(NodeId),
    /// No column of this number stands anywhere, or it is a mark, which has no name.
    UnknownMember(ColId),
    /// A column or a row stands at the node to drop.
    NotEmpty(NodeId),
    /// The hierarchy after it breaks an obligation, first at this instance.
    Breaks(Broken),
    /// Memory is short.
    Memory,
}

/// Why an edit that makes no hierarchy is refused.
fn fault_of(fault: ChangeFault) -> ApplyFault
    ensures { result ≡ fault_of fault }
{
    match fault {
        ChangeFault::UnknownNode(node) => ApplyFault::UnknownNode(node),
        ChangeFault::UnknownMember(column) => ApplyFault::UnknownMember(column),
        ChangeFault::NotEmpty(node) => ApplyFault::NotEmpty(node),
        ChangeFault::Cycle(node) => ApplyFault::Breaks(Broken {
            rule: Rule::B1,
            nodes: Nodes::One(node),
            row: None,
            column: None,
        }),
        ChangeFault::Memory => ApplyFault::Memory,
    }
}

/// The hierarchy after an edit of one that met its obligations, where it meets them.
fn tested(
    alloc: Global,
    made: Hier,
    edit: &Edit,
    facts: &Facts,
    sets: &PointsTo,
    index: &JoinIndex,
) -> Result<Hier, ApplyFault>
    requires range { InRange facts.now }
    requires sets { AreSets facts.now sets.now }
    requires index { IsIndexOf facts.now sets.now index.now }
    requires some { NamesSome edit.now }
    requires hierarchy { IsHierarchyOf facts.now made }
    requires after { IsAfterEdit facts.now sets.now made edit.now }
    ensures value { (result ≡ Err ApplyFault.Memory) ⊎ (result ≡ tested facts.now sets.now made) }
    ensures meets { IfOk result (MeetsEdit facts.now sets.now) }
    ensures fits { IfOk result (IsHierarchyOf facts.now) }
{
    let asked = Asked {
        facts,
        pt: sets,
        hier: &made,
    };
    match first_broken_after(alloc, &asked, index, edit) {
        Ok(None) => Ok(made),
        Ok(Some(broken)) => Err(ApplyFault::Breaks(broken)),
        Err(_) => Err(ApplyFault::Memory),
    }
}

/// The hierarchy after an edit of one that meets the obligations B1 to B8 (after Streckenbach and Snelting, 2004),
/// where it meets them too, beside the old one. A refusal holds the first cause: a node or a column that is not there, a node to
/// drop where something stands, or the first instance of the first obligation that the hierarchy after the edit
/// breaks; `Memory` comes where memory is short.
pub fn edited(
    alloc: Global,
    hier: &Hier,
    facts: &Facts,
    sets: &PointsTo,
    index: &JoinIndex,
    edit: &Edit,
) -> Result<Hier, ApplyFault>
    requires range { InRange facts.now }
    requires sets { AreSets facts.now sets.now }
    requires index { IsIndexOf facts.now sets.now index.now }
    requires hierarchy { IsHierarchyOf facts.now hier.now }
    requires meets { MeetsEdit facts.now sets.now hier.now }
    requires some { NamesSome edit.now }
    ensures accepted { IfOk result (λ made. applied facts.now sets.now hier.now edit.now ≡ Ok made) }
    ensures meets { IfOk result (MeetsEdit facts.now sets.now) }
    ensures refused { IfErr result (λ fault. fault ≢ ApplyFault.Memory → applied facts.now sets.now hier.now edit.now ≡ Err fault) }
    ensures fits { IfOk result (IsHierarchyOf facts.now) }
{
    match hier.changed(alloc, facts, edit) {
        Ok(changed) => tested(alloc, changed, edit, facts, sets, index),
        Err(fault) => Err(fault_of(fault)),
    }
}

/// What joins are tested by: facts, their sets, and what is found of these and of the names once, since no join changes it.
#[derive(Clone, Copy)]
pub struct JoinTests<'a> {
    /// The facts.
    pub facts: &'a Facts,
    /// Their sets.
    pub sets: &'a PointsTo,
    /// What is found of both.
    pub index: &'a JoinIndex,
    /// What is found of the names of members.
    pub clashes: &'a Vec<ClashPair>,
}

/// Makes a merge, or puts a node below another, in a hierarchy that meets the obligations B1 to B8, where the hierarchy
/// after it meets them too (after Streckenbach and Snelting, 2004).
///
/// It gives the nodes at or below the joined ones. After a refusal, and where memory is short, the hierarchy is the one
/// before. The refusals are those of `edited`. No name and not the table is copied.
pub fn join(
    alloc: Global,
    hier: &mut Hier,
    tests: &JoinTests,
    edit: &Edit,
) -> Result<BitRow, ApplyFault>
    requires tests { AreJoinTests tests.now hier.old.members }
    requires hierarchy { IsHierarchyOf tests.now.facts.now hier.old }
    requires meets { MeetsEdit tests.now.facts.now tests.now.sets.now hier.old }
    requires some { NamesSome edit.now }
    requires join { JoinsNodes edit.now }
    ensures low { IfOk result (AreBelow hier.new.order (joined_nodes edit.now)) }
    ensures accepted { OnOk result (applied tests.now.facts.now tests.now.sets.now hier.old edit.now ≡ Ok hier.new) }
    ensures meets { OnOk result (MeetsEdit tests.now.facts.now tests.now.sets.now hier.new) }
    ensures refused { IfErr result (λ fault. fault ≢ ApplyFault.Memory → applied tests.now.facts.now tests.now.sets.now hier.old edit.now ≡ Err fault) }
    ensures kept { OnErr result (hier.new ≡ hier.old) }
    ensures members { hier.new.members ≡ hier.old.members }
    ensures is { IsHierarchyOf tests.now.facts.now hier.new }
{
    match hier.join(alloc, tests.facts, edit) {
        Ok(join) => keep(alloc, hier, tests, join, edit),
        Err(fault) => Err(fault_of(fault)),
    }
}

/// Keeps a join of a hierarchy that met its obligations, where it meets them after it, and else takes it back.
fn keep(
    alloc: Global,
    hier: &mut Hier,
    tests: &JoinTests,
    join: Join,
    edit: &Edit,
) -> Result<BitRow, ApplyFault>
    requires tests { AreJoinTests tests.now hier.old.members }
    requires some { NamesSome edit.now }
    requires join { JoinsNodes edit.now }
    requires hierarchy { IsHierarchyOf tests.now.facts.now hier.old }
    requires joined { IsJoined tests.now.facts.now tests.now.sets.now edit.now hier.old join }
    ensures low { IfOk result (λ low. low ≡ join.order.low) }
    ensures made { OnOk result (hier.new ≡ hier.old) }
    ensures meets { OnOk result (MeetsEdit tests.now.facts.now tests.now.sets.now hier.new) }
    ensures refused { IfErr result (λ fault. fault ≢ ApplyFault.Memory → tested tests.now.facts.now tests.now.sets.now hier.old ≡ Err fault) }
    ensures kept { OnErr result ((old : Hierarchy) → IsFormer old hier.old join → hier.new ≡ old) }
{
    match judge(alloc, hier, tests, edit, &join.order.low) {
        Ok(()) => Ok(join.order.low),
        Err(fault) => {
            hier.part(join);
            Err(fault)
        }
    }
}

/// Whether the hierarchy after a join of one that met its obligations meets them too; if not, why the join is refused.
fn judge(
    alloc: Global,
    hier: &Hier,
    tests: &JoinTests,
    edit: &Edit,
    low: &BitRow,
) -> Result<(), ApplyFault>
    requires tests { AreJoinTests tests.now hier.now.members }
    requires some { NamesSome edit.now }
    requires join { JoinsNodes edit.now }
    requires hierarchy { IsHierarchyOf tests.now.facts.now hier.now }
    requires low { AreBelow hier.now.order (joined_nodes edit.now) low.now }
    requires after { IsAfterEdit tests.now.facts.now tests.now.sets.now hier.now edit.now }
    ensures meets { OnOk result (MeetsEdit tests.now.facts.now tests.now.sets.now hier.now) }
    ensures refused { IfErr result (λ fault. fault ≢ ApplyFault.Memory → tested tests.now.facts.now tests.now.sets.now hier.now ≡ Err fault) }
{
    let asked = Asked {
        facts: tests.facts,
        pt: tests.sets,
        hier,
    };
    match first_broken_joined(alloc, &asked, tests.index, tests.clashes, edit, low) {
        Ok(None) => Ok(()),
        Ok(Some(found)) => Err(ApplyFault::Breaks(found)),
        Err(_) => Err(ApplyFault::Memory),
    }
}
