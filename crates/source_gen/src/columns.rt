//! What the columns at a node give to its type.

ghost use Rattle.std.specs.Prelude.{◌≡◌, ◌++◌, [], ◌<◌, length, IfOk, OnOk};
ghost use Rattle.source_gen.specs.Words.{each, when, head_if, old_program, renaming, AreSourceNodes, hierarchy_of};
ghost use Rattle.source_gen.specs.Sources.{AreOffers};
ghost use Rattle.java_tree.specs.Syntax as tree;
ghost use Rattle.fact_model.specs.Items.{column_at};
ghost use Rattle.hier_model.specs.Hierarchies.{stands_at};
ghost use Rattle.rebuild_model.specs.Members.{is_headed};
ghost use Rattle.write_model.specs.Members as written;

use crate::fillers::add_fillers;
use crate::heads::{first_head, public_and};
use crate::members::{push_bodyless, push_head};
use crate::own::add_own;
use crate::parts::{Nodes, slot_at};
use crate::places::{Offers, is_declaration, is_first_there, stands_at};
use crate::supers::is_class;
use hier_model::column_at;
use java_tree::{Head, Member, Modifier};
use kaba_base::{ColId, Keyword, NodeId};
use std::alloc::AllocError;

/// Whether a declaration of a slot at a node is written as a head: in an interface, and in an
/// abstract class to which no body of the slot is offered.
fn is_headed(nodes: &Nodes, offers: &Offers, n: NodeId, x: u32) -> bool
    requires nodes { AreSourceNodes nodes.now }
    requires offers { AreOffers nodes.now n.0 offers.now }
    requires slot { x < length (old_program nodes.now.source).slots }
    ensures { result ≡ is_headed nodes.now.facts.now (hierarchy_of nodes.now) n.0 x }
{
    !is_class(nodes, n.0) || (!offers.is_made && !offers.bodies.has(x))
}

/// The head that the declaration of a slot at a live node gives: once a slot.
fn head_of_slot(
    nodes: &Nodes,
    offers: &Offers,
    mods: Vec<Modifier>,
    n: NodeId,
    c: u32,
    slot: Option<u32>,
) -> Result<Option<Head>, AllocError>
    requires nodes { AreSourceNodes nodes.now }
    requires offers { AreOffers nodes.now n.0 offers.now }
    requires column { c < length nodes.now.facts.now.columns.items }
    ensures { IfOk result (λ h. head_if h ≡ written.heads_of_slot (old_program nodes.now.source) (renaming nodes.now.source) nodes.now.facts.now
        (hierarchy_of nodes.now) mods.items n.0 c slot) }
{
    let Some(x) = slot else {
        return Ok(None);
    };
    let Some(slot) = slot_at(nodes.source.program, x) else {
        return Ok(None);
    };
    if is_headed(nodes, offers, n, x) && is_first_there(nodes, n, c, x) {
        first_head(&nodes.source, mods, slot)
    } else {
        Ok(None)
    }
}

/// The head that a column at a live node gives.
fn column_head(
    nodes: &Nodes,
    offers: &Offers,
    mods: Vec<Modifier>,
    n: NodeId,
    c: u32,
) -> Result<Option<Head>, AllocError>
    requires nodes { AreSourceNodes nodes.now }
    requires offers { AreOffers nodes.now n.0 offers.now }
    requires column { c < length nodes.now.facts.now.columns.items }
    ensures { IfOk result (λ h. head_if h ≡ written.column_heads (old_program nodes.now.source) (renaming nodes.now.source) nodes.now.facts.now
        (hierarchy_of nodes.now) mods.items n.0 c (column_at nodes.now.facts.now c)) }
{
    let column = column_at(nodes.facts, ColId(c));
    if !is_declaration(column.kind) {
        return Ok(None);
    }
    let slot = column.slot;
    head_of_slot(nodes, offers, mods, n, c, slot)
}

/// Adds what a column gives to the class of the live node where it stands.
fn add_column(
    nodes: &Nodes,
    offers: &Offers,
    n: NodeId,
    c: u32,
    into: &mut Vec<Member>,
) -> Result<(), AllocError>
    requires nodes { AreSourceNodes nodes.now }
    requires offers { AreOffers nodes.now n.0 offers.now }
    requires column { c < length nodes.now.facts.now.columns.items }
    ensures { OnOk result (tree.members into.new.items ≡ tree.members into.old.items ++ when (stands_at (hierarchy_of nodes.now) n.0 c)
        (written.column_members (old_program nodes.now.source) (renaming nodes.now.source)
        nodes.now.facts.now (hierarchy_of nodes.now) nodes.now.source.numbering.now.columns.keys n.0 c (column_at nodes.now.facts.now c))) }
{
    if !stands_at(nodes, n, c) {
        return Ok(());
    }
    let mods = public_and(nodes.source.alloc, Keyword::Abstract)?;
    let head = column_head(nodes, offers, mods, n, c)?;
    push_bodyless(into, head)?;
    let item = nodes.source.numbering.item(c);
    add_own(nodes, item, into)
}

/// Adds what the columns give to the class of a live node, in the order of their numbers.
fn add_columns(
    nodes: &Nodes,
    offers: &Offers,
    n: NodeId,
    into: &mut Vec<Member>,
) -> Result<(), AllocError>
    requires nodes { AreSourceNodes nodes.now }
    requires offers { AreOffers nodes.now n.0 offers.now }
    ensures { OnOk result (tree.members into.new.items ≡ tree.members into.old.items ++ each (λ c k. when (stands_at (hierarchy_of nodes.now) n.0 c)
        (written.column_members (old_program nodes.now.source) (renaming nodes.now.source)
        nodes.now.facts.now (hierarchy_of nodes.now) nodes.now.source.numbering.now.columns.keys n.0 c k)) 0 nodes.now.facts.now.columns.items) }
{
    for c in 0..nodes.facts.columns.len() as u32 {
        add_column(nodes, offers, n, c, into)?;
    }
    Ok(())
}

/// The members of the class of a live node: by the columns, and then the fillers by slot.
pub fn class_members(nodes: &Nodes, offers: &Offers, n: NodeId) -> Result<Vec<Member>, AllocError>
    requires nodes { AreSourceNodes nodes.now }
    requires offers { AreOffers nodes.now n.0 offers.now }
    ensures { IfOk result (λ v. tree.members v.items ≡ written.class_members (old_program nodes.now.source) (renaming nodes.now.source) nodes.now.facts.now
        (hierarchy_of nodes.now) nodes.now.source.numbering.now.columns.keys n.0) }
{
    let mut list = Vec::new(nodes.source.alloc);
    add_columns(nodes, offers, n, &mut list)?;
    add_fillers(nodes, offers, n, &mut list)?;
    Ok(list)
}

/// Adds the head that a column gives to the interface of the live node where it stands.
fn add_head(
    nodes: &Nodes,
    offers: &Offers,
    n: NodeId,
    c: u32,
    into: &mut Vec<Head>,
) -> Result<(), AllocError>
    requires nodes { AreSourceNodes nodes.now }
    requires offers { AreOffers nodes.now n.0 offers.now }
    requires column { c < length nodes.now.facts.now.columns.items }
    ensures { OnOk result (tree.heads into.new.items ≡ tree.heads into.old.items ++ when (stands_at (hierarchy_of nodes.now) n.0 c) (written.column_heads
        (old_program nodes.now.source) (renaming nodes.now.source) nodes.now.facts.now (hierarchy_of nodes.now)
        [] n.0 c (column_at nodes.now.facts.now c))) }
{
    if !stands_at(nodes, n, c) {
        return Ok(());
    }
    let mods = Vec::new(nodes.source.alloc);
    let head = column_head(nodes, offers, mods, n, c)?;
    push_head(into, head)
}

/// The heads of the interface of a live node, in the order of the columns.
pub fn interface_heads(nodes: &Nodes, offers: &Offers, n: NodeId) -> Result<Vec<Head>, AllocError>
    requires nodes { AreSourceNodes nodes.now }
    requires offers { AreOffers nodes.now n.0 offers.now }
    ensures { IfOk result (λ v. tree.heads v.items ≡ written.interface_heads (old_program nodes.now.source) (renaming nodes.now.source) nodes.now.facts.now
        (hierarchy_of nodes.now) n.0) }
{
    let mut list = Vec::new(nodes.source.alloc);
    for c in 0..nodes.facts.columns.len() as u32 {
        add_head(nodes, offers, n, c, &mut list)?;
    }
    Ok(list)
}
