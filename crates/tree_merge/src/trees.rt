//! The tree of a hierarchy's class nodes.

ghost use Rattle.std.specs.Prelude.{◌≡◌, None, IfErr, IfOk, OnOk};
ghost use Rattle.hier_rules.specs.Chains.{AreKnown};
ghost use Rattle.hier_rules.specs.Index.{IsIndexOf, AreClashesOf};
ghost use Rattle.hier_rules.specs.Words.{InRange, AreSets, IsHierarchyOf, MeetsEdit, first_broken};
ghost use Rattle.fact_model.specs.declared.sets.Table.{Table};
ghost use Rattle.fact_model.specs.declared.sets.Lattice.{Lattice};
ghost use Rattle.hier_laws.specs.Laws.{AreAnalysed};
ghost use Rattle.hier_tree.specs.Trees.{Grows, Tree};
ghost use Rattle.hier_tree.specs.Kept.{HasNoInterface};
ghost use Rattle.hier_tree.specs.Reached.{IsReached};
ghost use Rattle.tree_merge.specs.declared.trees.TreeFault.TheVariants as TreeFault;
ghost use Rattle.tree_merge.specs.Logs.{steps_of, AreEdits, IsTreeFault};

use crate::given::Given;
use crate::steps::{TreeStep, Turn, step};
use fact_model::{Facts, PointsTo};
use hier_model::Hier;
use hier_rules::{Asked, Broken, ClashPair, JoinIndex, KnownNodes, join_index, name_clashes};
use hier_tree::Conflict;
use std::alloc::{AllocError, Global};

/// A conflict of which no try is accepted.
#[derive(Drop)]
pub struct NoTree {
    /// The conflict.
    pub conflict: Conflict,
    /// The first instance against the hierarchy that its last try would make.
    pub broken: Broken,
    /// The steps before it.
    pub log: Vec<TreeStep>,
}

/// Why there is no tree.
#[derive(Drop)]
pub enum TreeFault {
    /// The steps end at a conflict.
    NoTree(NoTree),
    /// Memory is short.
    Memory,
}

/// What is found once for all steps, and what is known of the nodes: nothing when they begin.
#[derive(Drop)]
struct Prepared {
    index: JoinIndex,
    clashes: Vec<ClashPair>,
    known: KnownNodes,
}

/// The same of a hierarchy. An error comes only for want of memory.
fn prepare(
    alloc: Global,
    hier: &Hier,
    facts: &Facts,
    sets: &PointsTo,
) -> Result<Prepared, AllocError>
    requires range { InRange facts.now }
    requires sets { AreSets facts.now sets.now }
    requires hierarchy { IsHierarchyOf facts.now hier.now }
    ensures index { IfOk result (λ p. IsIndexOf facts.now sets.now p.index) }
    ensures clashes { IfOk result (λ p. AreClashesOf facts.now hier.now.members p.clashes.items) }
    ensures known { IfOk result (λ p. AreKnown facts.now hier.now p.known) }
{
    let asked = Asked {
        facts,
        pt: sets,
        hier,
    };
    Ok(Prepared {
        index: join_index(alloc, &asked)?,
        clashes: name_clashes(alloc, &asked)?,
        known: KnownNodes::new(alloc, hier.order().count())?,
    })
}

/// Brings the class nodes of a hierarchy into a tree, and gives the log of the steps (after
/// Streckenbach and Snelting, 2004).
///
/// Each step takes the first conflict of its moment and makes the first of its tries that is
/// accepted, as an edit. With `Ok` the class nodes at or above each class node form a chain, and B1
/// to B9 hold. `NoTree` comes only where the steps end at a conflict of which no try is accepted,
/// and leaves the hierarchy as the steps of its log left it. `Memory` comes only where memory is
/// short, and leaves what some first steps left. From facts in which all types are classes, a
/// start that accepted drops and fresh renames changed always comes to a tree. A step looks for its
/// conflict once and tests each try that it makes once; there are fewer steps than pairs of nodes.
pub fn make_tree(
    alloc: Global,
    hier: &mut Hier,
    facts: &Facts,
    sets: &PointsTo,
) -> Result<Vec<TreeStep>, TreeFault>
    requires range { InRange facts.now }
    requires sets { AreSets facts.now sets.now }
    requires hierarchy { IsHierarchyOf facts.now hier.old }
    requires meets { MeetsEdit facts.now sets.now hier.old }
    ensures tree { IfOk result (λ log. Grows facts.now sets.now hier.old (steps_of log.items) (Tree hier.new)) }
    ensures edits { IfOk result (λ log. AreEdits log.items) }
    ensures meets { OnOk result (first_broken facts.now sets.now hier.new ≡ None) }
    ensures fault { IfErr result (IsTreeFault facts.now sets.now hier.old hier.new) }
    ensures found { IfErr result (λ fault. (t : Table) (l : Lattice) → AreAnalysed facts.now sets.now t l → HasNoInterface facts.now → IsReached facts.now sets.now t l hier.old → fault ≡ TreeFault.Memory) }
    ensures is { IsHierarchyOf facts.now hier.new }
{
    let Prepared {
        index,
        clashes,
        mut known,
    } = match prepare(alloc, hier, facts, sets) {
        Ok(prepared) => prepared,
        Err(_) => return Err(TreeFault::Memory),
    };
    let given = Given {
        alloc,
        facts,
        sets,
        index: &index,
        clashes: &clashes,
    };
    let mut log = Vec::new(alloc);
    'steps: loop {
        match step(&given, hier, &mut known) {
            Ok(Turn::Done) => return Ok(log),
            Ok(Turn::Taken(step)) => match log.push(step) {
                Ok(()) => {}
                Err(_) => return Err(TreeFault::Memory),
            },
            Ok(Turn::Stuck(conflict, broken)) => {
                return Err(TreeFault::NoTree(NoTree {
                    conflict,
                    broken,
                    log,
                }));
            }
            Err(_) => return Err(TreeFault::Memory),
        }
    }
}
