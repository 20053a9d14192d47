//! The tries of a conflict, in their order.

ghost use Rattle.std.specs.Prelude.{◌≡◌, ◌<◌, ◌&&◌, ◌∷◌, ◌++◌, [], cond, length, map, All, IfOk, OnOk, Some};
ghost use Rattle.hier_rules.specs.Words.{is_live};
ghost use Rattle.fact_model.specs.InRange.{IsClass};
ghost use Rattle.hier_model.specs.Hierarchies.{Hierarchy, IsHierarchyOf, node, origin_of};
ghost use Rattle.hier_tree.specs.Trees.{is_from, nodes_from, tries_of_one, tries_of_lower, tries_of_higher, tries_of_others, tries_by, tries_of, try_of};
ghost use Rattle.tree_merge.specs.Attempts.{AreApart, IsTryInput, IsTryOf};

use crate::given::Given;
use fact_model::below;
use hier_model::{Edit, Hier};
use hier_tree::Conflict;
use kaba_base::{ClassId, NodeId};
use std::alloc::{AllocError, Global};

/// Whether a node comes from a class.
fn is_from(hier: &Hier, class: ClassId, n: NodeId) -> bool
    requires { n.0 < length hier.now.origins }
    ensures { result ≡ is_from class (origin_of hier.now n.0) }
{
    match hier.origin(n) {
        Some(origin) => origin.0 == class.0,
        None => false,
    }
}

/// Adds a node, if it is live and comes from a class.
fn add_from(hier: &Hier, class: ClassId, n: u32, nodes: &mut Vec<NodeId>) -> Result<(), AllocError>
    requires { length hier.now.origins ≡ length hier.now.order.live }
    ensures { OnOk result (nodes.new.items ≡ nodes.old.items ++ cond (is_live hier.now.order n && is_from class (origin_of hier.now n)) (node n ∷ []) []) }
{
    if hier.order().is_live(NodeId(n)) && is_from(hier, class, NodeId(n)) {
        nodes.push(NodeId(n))?;
    }
    Ok(())
}

/// All live nodes that come from a class, in the order of their numbers.
fn nodes_from(alloc: Global, hier: &Hier, class: ClassId) -> Result<Vec<NodeId>, AllocError>
    requires { length hier.now.origins ≡ length hier.now.order.live }
    ensures { IfOk result (λ nodes. nodes.items ≡ nodes_from hier.now class) }
{
    let mut nodes = Vec::new(alloc);
    for n in 0..hier.order().count() {
        add_from(hier, class, n, &mut nodes)?;
    }
    Ok(nodes)
}

/// The tries of two nodes that come from one class.
fn tries_of_one(
    alloc: Global,
    hier: &Hier,
    class: ClassId,
    x: NodeId,
    y: NodeId,
) -> Result<Vec<Edit>, AllocError>
    requires sized { length hier.now.origins ≡ length hier.now.order.live }
    requires apart { AreApart hier.now.order x y }
    requires first { origin_of hier.now x.0 ≡ Some class }
    requires second { origin_of hier.now y.0 ≡ Some class }
    ensures tries { IfOk result (λ v. map try_of v.items ≡ tries_of_one hier.now class x y) }
    ensures some { IfOk result (λ v. 0 < length v.items) }
    ensures edits { IfOk result (λ v. All (IsTryOf hier.now) v.items) }
{
    let pair = vec![in alloc; x, y]?;
    let all = nodes_from(alloc, hier, class)?;
    let tries = vec![in alloc;
        Edit::Merge(pair),
        Edit::Merge(all),
        Edit::Under(x, y),
        Edit::Under(y, x),
    ]?;
    Ok(tries)
}

/// The tries of two nodes where the origin of the first is strictly below that of the second.
fn tries_of_lower(alloc: Global, x: NodeId, y: NodeId) -> Result<Vec<Edit>, AllocError>
    ensures tries { IfOk result (λ v. map try_of v.items ≡ tries_of_lower x y) }
    ensures some { IfOk result (λ v. 0 < length v.items) }
    ensures edits { IfOk result (λ v. (H : Hierarchy) → AreApart H.order x y → All (IsTryOf H) v.items) }
{
    let pair = vec![in alloc; x, y]?;
    Ok(vec![in alloc; Edit::Under(x, y), Edit::Merge(pair), Edit::Under(y, x)]?)
}

/// The tries of two nodes where the origin of the first is strictly above that of the second.
fn tries_of_higher(alloc: Global, x: NodeId, y: NodeId) -> Result<Vec<Edit>, AllocError>
    ensures tries { IfOk result (λ v. map try_of v.items ≡ tries_of_higher x y) }
    ensures some { IfOk result (λ v. 0 < length v.items) }
    ensures edits { IfOk result (λ v. (H : Hierarchy) → AreApart H.order x y → All (IsTryOf H) v.items) }
{
    let pair = vec![in alloc; x, y]?;
    Ok(vec![in alloc; Edit::Under(y, x), Edit::Merge(pair), Edit::Under(x, y)]?)
}

/// The tries of two nodes of which one comes from no class, or whose origins are not comparable.
fn tries_of_others(alloc: Global, x: NodeId, y: NodeId) -> Result<Vec<Edit>, AllocError>
    ensures tries { IfOk result (λ v. map try_of v.items ≡ tries_of_others x y) }
    ensures some { IfOk result (λ v. 0 < length v.items) }
    ensures edits { IfOk result (λ v. (H : Hierarchy) → AreApart H.order x y → All (IsTryOf H) v.items) }
{
    let pair = vec![in alloc; x, y]?;
    Ok(vec![in alloc; Edit::Merge(pair), Edit::Under(x, y), Edit::Under(y, x)]?)
}

/// The tries of two nodes that come from two classes, or from one.
fn tries_by(
    given: &Given,
    hier: &Hier,
    conflict: Conflict,
    first: ClassId,
    second: ClassId,
) -> Result<Vec<Edit>, AllocError>
    requires given { IsTryInput given.now }
    requires first_class { IsClass given.now.facts.now first }
    requires second_class { IsClass given.now.facts.now second }
    requires sized { length hier.now.origins ≡ length hier.now.order.live }
    requires apart { AreApart hier.now.order conflict.first conflict.second }
    requires first { origin_of hier.now conflict.first.0 ≡ Some first }
    requires second { origin_of hier.now conflict.second.0 ≡ Some second }
    ensures tries { IfOk result (λ v. map try_of v.items
        ≡ tries_by given.now.facts.now hier.now conflict.first conflict.second (Some first) (Some second)) }
    ensures some { IfOk result (λ v. 0 < length v.items) }
    ensures edits { IfOk result (λ v. All (IsTryOf hier.now) v.items) }
{
    let (alloc, facts) = (given.alloc, given.facts);
    let (x, y) = (conflict.first, conflict.second);
    if first.0 == second.0 {
        return tries_of_one(alloc, hier, first, x, y);
    }
    if below(facts, first, second) {
        return tries_of_lower(alloc, x, y);
    }
    if below(facts, second, first) {
        return tries_of_higher(alloc, x, y);
    }
    tries_of_others(alloc, x, y)
}

/// The tries of a conflict, by the classes from which its two nodes come.
pub fn tries_of(given: &Given, hier: &Hier, conflict: Conflict) -> Result<Vec<Edit>, AllocError>
    requires given { IsTryInput given.now }
    requires hierarchy { IsHierarchyOf given.now.facts.now hier.now }
    requires apart { AreApart hier.now.order conflict.first conflict.second }
    ensures tries { IfOk result (λ v. map try_of v.items ≡ tries_of given.now.facts.now hier.now conflict) }
    ensures some { IfOk result (λ v. 0 < length v.items) }
    ensures edits { IfOk result (λ v. All (IsTryOf hier.now) v.items) }
{
    match (hier.origin(conflict.first), hier.origin(conflict.second)) {
        (Some(first), Some(second)) => tries_by(given, hier, conflict, first, second),
        _ => tries_of_others(given.alloc, conflict.first, conflict.second),
    }
}
