//! The types of the nodes.

ghost use Rattle.std.specs.Prelude.{◌≡◌, ◌++◌, ◌∷◌, [], ◌<◌, true, IfOk, OnOk};
ghost use Rattle.source_gen.specs.Words.{is_live, when, old_program, renaming, AreSourceNodes, hierarchy_of};
ghost use Rattle.java_tree.specs.Syntax as tree;
ghost use Rattle.hier_model.specs.Hierarchies.{is_class_node};
ghost use Rattle.write_model.specs.Written as written;

use crate::columns::{class_members, interface_heads};
use crate::heads::one_modifier;
use crate::members::push_decl;
use crate::parts::Nodes;
use crate::places::offers_at;
use crate::supers::{covering, extended, implemented, is_class};
use java_tree::unplaced::nowhere;
use java_tree::{Decl, Modifier};
use kaba_base::{Keyword, NodeId};
use std::alloc::{AllocError, Global};

/// The modifiers of a class: one where no object is created is abstract.
fn class_modifiers(alloc: Global, is_made: bool) -> Result<Vec<Modifier>, AllocError>
    ensures { IfOk result (λ v. v.items ≡ written.class_modifiers is_made) }
{
    if is_made {
        Ok(Vec::new(alloc))
    } else {
        one_modifier(alloc, Keyword::Abstract)
    }
}

/// The class of a live node.
fn class_tree(nodes: &Nodes, n: NodeId) -> Result<Decl, AllocError>
    requires nodes { AreSourceNodes nodes.now }
    requires node { is_live nodes.now.source.hier.now.order n.0 ≡ true }
    ensures { IfOk result (λ d. tree.decl_of d ≡ written.class_tree (old_program nodes.now.source) (renaming nodes.now.source) nodes.now.facts.now
        (hierarchy_of nodes.now) nodes.now.source.numbering.now.columns.keys n.0) }
{
    let offers = offers_at(nodes, n)?;
    let mods = class_modifiers(nodes.source.alloc, offers.is_made)?;
    let name = nodes.source.hier.type_name(n).copy(nodes.source.alloc)?;
    let parent = extended(nodes, n)?;
    let faces = implemented(nodes, n)?;
    let members = class_members(nodes, &offers, n)?;
    Ok(Decl::Class {
        mods,
        name,
        parent,
        faces,
        members,
        place: nowhere(),
    })
}

/// The interface of a live node.
fn interface_tree(nodes: &Nodes, n: NodeId) -> Result<Decl, AllocError>
    requires nodes { AreSourceNodes nodes.now }
    requires node { is_live nodes.now.source.hier.now.order n.0 ≡ true }
    ensures { IfOk result (λ d. tree.decl_of d ≡ written.interface_tree (old_program nodes.now.source) (renaming nodes.now.source) nodes.now.facts.now
        (hierarchy_of nodes.now) nodes.now.source.numbering.now.columns.keys n.0) }
{
    let name = nodes.source.hier.type_name(n).copy(nodes.source.alloc)?;
    let parents = covering(nodes, n)?;
    let offers = offers_at(nodes, n)?;
    let heads = interface_heads(nodes, &offers, n)?;
    Ok(Decl::Interface {
        mods: Vec::new(nodes.source.alloc),
        name,
        parents,
        heads,
        place: nowhere(),
    })
}

/// Adds the type of a node, if it is live.
fn add_type(nodes: &Nodes, n: NodeId, into: &mut Vec<Decl>) -> Result<(), AllocError>
    requires { AreSourceNodes nodes.now }
    ensures { OnOk result (tree.decls into.new.items ≡ tree.decls into.old.items ++ when (is_live nodes.now.source.hier.now.order n.0) (written.type_tree
        (old_program nodes.now.source) (renaming nodes.now.source) nodes.now.facts.now (hierarchy_of nodes.now)
        nodes.now.source.numbering.now.columns.keys (is_class_node nodes.now.facts.now (hierarchy_of nodes.now) n.0) n.0 ∷ [])) }
{
    if !nodes.source.hier.order().is_live(n) {
        return Ok(());
    }
    if is_class(nodes, n.0) {
        let decl = class_tree(nodes, n)?;
        push_decl(into, decl)
    } else {
        let decl = interface_tree(nodes, n)?;
        push_decl(into, decl)
    }
}

/// Adds the types of the live nodes, in the order of their numbers.
pub fn add_types(nodes: &Nodes, into: &mut Vec<Decl>) -> Result<(), AllocError>
    requires { AreSourceNodes nodes.now }
    ensures { OnOk result (tree.decls into.new.items ≡ tree.decls into.old.items ++ written.type_trees (old_program nodes.now.source)
        (renaming nodes.now.source) nodes.now.facts.now (hierarchy_of nodes.now) nodes.now.source.numbering.now.columns.keys) }
{
    for n in 0..nodes.source.hier.order().count() {
        let node = NodeId(n);
        add_type(nodes, node, into)?;
    }
    Ok(())
}
