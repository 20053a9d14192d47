//! The class nodes, and the supertypes that the type of a node names.

ghost use Rattle.std.specs.Prelude.{◌≡◌, ◌&&◌, not, ◌++◌, ◌∷◌, [], ◌<◌, true, cond, length, IfOk, IfSome, OnOk};
ghost use Rattle.source_gen.specs.Words.{option_map, is_live, AreSourceNodes, hierarchy_of};
ghost use Rattle.kaba_order.specs.Beyond.{IsBeyond};
ghost use Rattle.hier_model.specs.Hierarchies.{is_class_node, type_name};
ghost use Rattle.write_model.specs.Names as names;
ghost use Rattle.write_model.specs.Supers as supers;
ghost use Rattle.source_gen.specs.Seen.{AreClassesAbove};

use crate::parts::Nodes;
use hier_model::Hier;
use java_tree::Id;
use java_tree::unplaced::id;
use kaba_base::NodeId;
use kaba_bits::BitRow;
use std::alloc::{AllocError, Global};

/// The names of the types of the nodes that pass the test, in rising number.
macro_rules! names_where {
    ($nodes:ident, |$n:ident| $passes:expr) => {{
        let mut list = Vec::new($nodes.source.alloc);
        for $n in 0..$nodes.source.hier.order().count() {
            let passes = $passes;
            add_name($nodes.source.alloc, $nodes.source.hier, passes, $n, &mut list)?;
        }
        Ok(list)
    }};
}

/// Whether a node is a class node.
pub fn is_class(nodes: &Nodes, n: u32) -> bool
    requires { AreSourceNodes nodes.now }
    ensures { result ≡ is_class_node nodes.now.facts.now (hierarchy_of nodes.now) n }
{
    n < nodes.classes.width() && nodes.classes.has(n)
}

/// The class nodes strictly above a live node. An error comes only for want of memory.
fn classes_above(nodes: &Nodes, n: NodeId) -> Result<BitRow, AllocError>
    requires nodes { AreSourceNodes nodes.now }
    requires node { is_live nodes.now.source.hier.now.order n.0 ≡ true }
    ensures { IfOk result (λ v. AreClassesAbove nodes.now.facts.now (hierarchy_of nodes.now) n.0 v) }
{
    let mut above = nodes.source.hier.order().above(n).copy(nodes.source.alloc)?;
    above.and_into(nodes.classes);
    above.remove(n.0);
    Ok(above)
}

/// Whether a node is the lowest of the class nodes strictly above another.
fn is_superclass(nodes: &Nodes, above: &BitRow, n: NodeId, a: u32) -> bool
    requires nodes { AreSourceNodes nodes.now }
    requires above { AreClassesAbove nodes.now.facts.now (hierarchy_of nodes.now) n.0 above.now }
    requires node { a < length nodes.now.source.hier.now.order.live }
    ensures { result ≡ supers.is_superclass nodes.now.facts.now (hierarchy_of nodes.now) n.0 a }
{
    above.has(a) && above.is_subset(nodes.source.hier.order().above(NodeId(a)))
}

/// The lowest of the class nodes strictly above a live node. The time is in proportion to the number of nodes, and to a 64th
/// of it for each class node above.
fn superclass(nodes: &Nodes, n: NodeId) -> Result<Option<NodeId>, AllocError>
    requires nodes { AreSourceNodes nodes.now }
    requires node { is_live nodes.now.source.hier.now.order n.0 ≡ true }
    ensures value { IfOk result (λ o. option_map (λ a. a.0) o ≡ supers.superclass nodes.now.facts.now (hierarchy_of nodes.now) n.0) }
    ensures within { IfOk result (λ o. IfSome o (λ a. a.0 < length nodes.now.source.hier.now.types)) }
{
    let above = classes_above(nodes, n)?;
    for a in 0..nodes.source.hier.order().count() {
        if is_superclass(nodes, &above, n, a) {
            return Ok(Some(NodeId(a)));
        }
    }
    Ok(None)
}

/// The name of the type of a node.
fn type_id(alloc: Global, hier: &Hier, n: NodeId) -> Result<Id, AllocError>
    requires { n.0 < length hier.now.types }
    ensures { IfOk result (λ i. i ≡ names.id (type_name hier.now n.0)) }
{
    Ok(id(hier.type_name(n).copy(alloc)?))
}

/// What a class extends: the lowest class node strictly above.
pub fn extended(nodes: &Nodes, n: NodeId) -> Result<Option<Id>, AllocError>
    requires nodes { AreSourceNodes nodes.now }
    requires node { is_live nodes.now.source.hier.now.order n.0 ≡ true }
    ensures { IfOk result (λ i. i ≡ supers.extended nodes.now.facts.now (hierarchy_of nodes.now) n.0) }
{
    match superclass(nodes, n)? {
        Some(class) => Ok(Some(type_id(nodes.source.alloc, nodes.source.hier, class)?)),
        None => Ok(None),
    }
}

/// Adds the name of the type of a node that passes a test.
fn add_name(
    alloc: Global,
    hier: &Hier,
    passes: bool,
    n: u32,
    into: &mut Vec<Id>,
) -> Result<(), AllocError>
    requires { n < length hier.now.types }
    ensures { OnOk result (into.new.items ≡ into.old.items ++ cond passes (names.id (type_name
        hier.now n) ∷ []) []) }
{
    if passes {
        into.push(type_id(alloc, hier, NodeId(n))?)?;
    }
    Ok(())
}

/// Whether a node is an upper cover of a live one, by the nodes that are none since another lies between.
fn is_cover(nodes: &Nodes, beyond: &BitRow, n: NodeId, a: u32) -> bool
    requires nodes { AreSourceNodes nodes.now }
    requires node { is_live nodes.now.source.hier.now.order n.0 ≡ true }
    requires upper { a < length nodes.now.source.hier.now.order.live }
    requires width { length beyond.now ≡ length nodes.now.source.hier.now.order.live }
    requires beyond { IsBeyond nodes.now.source.hier.now.order n.0 (length nodes.now.source.hier.now.order.live) beyond.now }
    ensures { result ≡ supers.is_cover nodes.now.source.hier.now.order n.0 a }
{
    nodes.source.hier.order().is_cover(beyond, n, NodeId(a))
}

/// Whether a node is an upper cover and no class node.
fn is_face(nodes: &Nodes, beyond: &BitRow, n: NodeId, a: u32) -> bool
    requires nodes { AreSourceNodes nodes.now }
    requires node { is_live nodes.now.source.hier.now.order n.0 ≡ true }
    requires upper { a < length nodes.now.source.hier.now.order.live }
    requires width { length beyond.now ≡ length nodes.now.source.hier.now.order.live }
    requires beyond { IsBeyond nodes.now.source.hier.now.order n.0 (length nodes.now.source.hier.now.order.live) beyond.now }
    ensures { result ≡ (supers.is_cover nodes.now.source.hier.now.order n.0 a && not (is_class_node nodes.now.facts.now (hierarchy_of nodes.now) a)) }
{
    is_cover(nodes, beyond, n, a) && !is_class(nodes, a)
}

/// What a class implements: the upper covers that are no class nodes, in rising number.
pub fn implemented(nodes: &Nodes, n: NodeId) -> Result<Vec<Id>, AllocError>
    requires nodes { AreSourceNodes nodes.now }
    requires node { is_live nodes.now.source.hier.now.order n.0 ≡ true }
    ensures { IfOk result (λ v. v.items ≡ supers.implemented nodes.now.facts.now (hierarchy_of nodes.now) n.0) }
{
    let beyond = nodes.source.hier.order().beyond(nodes.source.alloc, n)?;
    names_where!(nodes, |a| is_face(nodes, &beyond, n, a))
}

/// What an interface extends: the upper covers, in rising number.
pub fn covering(nodes: &Nodes, n: NodeId) -> Result<Vec<Id>, AllocError>
    requires nodes { AreSourceNodes nodes.now }
    requires node { is_live nodes.now.source.hier.now.order n.0 ≡ true }
    ensures { IfOk result (λ v. v.items ≡ supers.covering nodes.now.facts.now (hierarchy_of nodes.now) n.0) }
{
    let beyond = nodes.source.hier.order().beyond(nodes.source.alloc, n)?;
    names_where!(nodes, |a| is_cover(nodes, &beyond, n, a))
}
