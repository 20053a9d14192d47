//! The fillers: methods of the class of a node for the slots that it offers without a body.

ghost use Rattle.std.specs.Prelude.{◌≡◌, ◌++◌, ◌<◌, length, IfOk, OnOk};
ghost use Rattle.std.specs.List.{flat_map};
ghost use Rattle.source_gen.specs.Words.{slot_seen, each, old_program, renaming, AreSourceNodes, hierarchy_of};
ghost use Rattle.source_gen.specs.Sources.{AreOffers};
ghost use Rattle.source_gen.specs.Fills.{filled_in, plain_fill, maker_fill};
ghost use Rattle.java_tree.specs.Syntax as tree;
ghost use Rattle.flow_rules.specs.Facts.{is_marked};
ghost use Rattle.rebuild_model.specs.Members.{is_filled};
ghost use Rattle.write_model.specs.Members as written;

use crate::heads::{first_head, one_modifier};
use crate::members::push_member;
use crate::parts::{Nodes, slot_at};
use crate::places::Offers;
use java_core::{Slot, Ty, TyBase, maker_slot};
use java_tree::unplaced::nowhere;
use java_tree::{Expr, Member, Stmt, TypeBase, TypeName, build};
use kaba_base::{ClassId, Keyword, Name, NodeId};
use std::alloc::{AllocError, Global};

/// What stands before a class's name in the name of its constructor.
const MARK: u8 = b'<';

/// Whether a slot of this name is that of a constructor.
fn is_marked(name: &Name) -> bool
    ensures { result ≡ is_marked name.now }
{
    match name.as_str().as_bytes() {
        [first, ..] => *first == MARK,
        [] => false,
    }
}

/// Whether the type of a node has a filler of a slot: objects are created there, and it is offered the slot without a body.
fn is_filled(nodes: &Nodes, offers: &Offers, n: NodeId, x: u32) -> bool
    requires offers { AreOffers nodes.now n.0 offers.now }
    requires slot { x < length (old_program nodes.now.source).slots }
    ensures { result ≡ is_filled nodes.now.facts.now (hierarchy_of nodes.now) n.0 x }
{
    offers.is_made && (offers.slots.has(x) && !offers.bodies.has(x))
}

/// What a filler gives back.
fn value_of_none(alloc: Global, base: TyBase, dim: u32) -> Result<Expr, AllocError>
    ensures { IfOk result (λ e. tree.expr_of e ≡ written.value_of_none base dim) }
{
    let place = nowhere();
    match (base, dim) {
        (TyBase::Int, 0) => Ok(Expr::Int { value: 0, place }),
        (TyBase::Boolean, 0) => Ok(Expr::Bool {
            value: false,
            place,
        }),
        (TyBase::Char, 0) => {
            let ty = TypeName {
                base: TypeBase::Char,
                dim: 0,
                place,
            };
            build::cast(alloc, ty, Expr::Int { value: 0, place }, place)
        }
        (_, _) => Ok(Expr::Null { place }),
    }
}

/// The statements of a filler of a slot with this result.
fn filling(alloc: Global, given: Option<Ty>) -> Result<Vec<Stmt>, AllocError>
    ensures { IfOk result (λ v. tree.stmts v.items ≡ written.filling given) }
{
    let mut list = Vec::new(alloc);
    if let Some(ty) = given {
        let value = value_of_none(alloc, ty.base, ty.dim)?;
        list.push(Stmt::Return {
            value: Some(value),
            place: nowhere(),
        })?;
    }
    Ok(list)
}

/// Adds the filler of a slot, if the class of a live node has one.
fn add_filler(
    nodes: &Nodes,
    offers: &Offers,
    n: NodeId,
    x: u32,
    slot: &Slot,
    into: &mut Vec<Member>,
) -> Result<(), AllocError>
    requires nodes { AreSourceNodes nodes.now }
    requires offers { AreOffers nodes.now n.0 offers.now }
    requires slot { x < length (old_program nodes.now.source).slots }
    ensures { OnOk result (tree.members into.new.items ≡ tree.members into.old.items ++ written.filler (old_program nodes.now.source)
        (renaming nodes.now.source) nodes.now.facts.now (hierarchy_of nodes.now) n.0 x (slot_seen slot.now)) }
{
    if !is_filled(nodes, offers, n, x) {
        return Ok(());
    }
    let mods = one_modifier(nodes.source.alloc, Keyword::Public)?;
    match first_head(&nodes.source, mods, slot)? {
        Some(head) => {
            let body = Some(filling(nodes.source.alloc, slot.result)?);
            let place = nowhere();
            push_member(into, Member::Method { head, body, place })
        }
        None => Ok(()),
    }
}

/// Adds the filler of the slot of a number, if the class of a live node has one.
fn add_slot_filler(
    nodes: &Nodes,
    offers: &Offers,
    n: NodeId,
    x: u32,
    into: &mut Vec<Member>,
) -> Result<(), AllocError>
    requires nodes { AreSourceNodes nodes.now }
    requires offers { AreOffers nodes.now n.0 offers.now }
    ensures { OnOk result (tree.members into.new.items ≡ tree.members into.old.items ++ filled_in nodes.now n.0 x) }
{
    match slot_at(nodes.source.program, x) {
        Some(slot) => add_filler(nodes, offers, n, x, slot, into),
        None => Ok(()),
    }
}

/// The same, unless it is the slot of a constructor.
fn add_plain_filler(
    nodes: &Nodes,
    offers: &Offers,
    n: NodeId,
    x: u32,
    slot: &Slot,
    into: &mut Vec<Member>,
) -> Result<(), AllocError>
    requires nodes { AreSourceNodes nodes.now }
    requires offers { AreOffers nodes.now n.0 offers.now }
    ensures { OnOk result (tree.members into.new.items ≡ tree.members into.old.items ++ plain_fill nodes.now n.0 x (slot_seen slot.now)) }
{
    if is_marked(&slot.name) {
        return Ok(());
    }
    add_slot_filler(nodes, offers, n, x, into)
}

/// Adds the fillers of the slots that are no constructor's, in the order of the slots.
fn add_plain_fillers(
    nodes: &Nodes,
    offers: &Offers,
    n: NodeId,
    into: &mut Vec<Member>,
) -> Result<(), AllocError>
    requires nodes { AreSourceNodes nodes.now }
    requires offers { AreOffers nodes.now n.0 offers.now }
    ensures { OnOk result (tree.members into.new.items ≡ tree.members into.old.items ++ each (plain_fill nodes.now n.0) 0
        (old_program nodes.now.source).slots) }
{
    for (x, slot) in nodes.source.program.slots.iter().enumerate() {
        let x = x as u32;
        add_plain_filler(nodes, offers, n, x, slot, into)?;
    }
    Ok(())
}

/// Adds the filler of the slot of the constructor of a class, where there is one.
fn add_maker_filler(
    nodes: &Nodes,
    offers: &Offers,
    n: NodeId,
    class: ClassId,
    into: &mut Vec<Member>,
) -> Result<(), AllocError>
    requires nodes { AreSourceNodes nodes.now }
    requires offers { AreOffers nodes.now n.0 offers.now }
    ensures { OnOk result (tree.members into.new.items ≡ tree.members into.old.items ++ maker_fill nodes.now n.0 class.0) }
{
    match maker_slot(nodes.source.program, class) {
        Some(x) => add_slot_filler(nodes, offers, n, x, into),
        None => Ok(()),
    }
}

/// Adds the fillers of the slots of constructors, by class.
fn add_maker_fillers(
    nodes: &Nodes,
    offers: &Offers,
    n: NodeId,
    into: &mut Vec<Member>,
) -> Result<(), AllocError>
    requires nodes { AreSourceNodes nodes.now }
    requires offers { AreOffers nodes.now n.0 offers.now }
    ensures { OnOk result (tree.members into.new.items ≡ tree.members into.old.items ++ each (λ c k. maker_fill nodes.now n.0 c) 0
        (old_program nodes.now.source).classes) }
{
    for (c, _class) in nodes.source.program.classes.iter().enumerate() {
        let class = ClassId(c as u32);
        add_maker_filler(nodes, offers, n, class, into)?;
    }
    Ok(())
}

/// Adds the fillers of the class of a live node: in the order of the slots, those of constructors behind the others, by class.
pub fn add_fillers(
    nodes: &Nodes,
    offers: &Offers,
    n: NodeId,
    into: &mut Vec<Member>,
) -> Result<(), AllocError>
    requires nodes { AreSourceNodes nodes.now }
    requires offers { AreOffers nodes.now n.0 offers.now }
    ensures { OnOk result (tree.members into.new.items ≡ tree.members into.old.items ++ flat_map (filled_in nodes.now n.0)
        (written.filled_slots (old_program nodes.now.source))) }
{
    add_plain_fillers(nodes, offers, n, into)?;
    add_maker_fillers(nodes, offers, n, into)
}
