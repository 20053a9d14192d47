//! What stands at a node, and what a node offers.

ghost use Rattle.std.specs.Prelude.{◌≡◌, ℕ, ◌<◌, ◌==◌, ◌&&◌, ◌||◌, true, length, IfOk};
ghost use Rattle.source_gen.specs.Words.{is_live, AreSourceNodes, hierarchy_of};
ghost use Rattle.fact_model.specs.Items.{site_at, site_row, column_kind, column_slot};
ghost use Rattle.fact_model.specs.Classes.{is_def, is_slot};
ghost use Rattle.hier_model.specs.Hierarchies.{place_of_row, stands_at};
ghost use Rattle.kaba_bits.specs.Sets.{bit};
ghost use Rattle.rebuild_model.specs.Members.{is_made_at};
ghost use Rattle.write_model.specs.Members.{is_declaration, is_first_there};
ghost use Rattle.source_gen.specs.Seen.{is_offered_as};
ghost use Rattle.source_gen.specs.Sources.{AreOffered, AreOffers};

use crate::parts::Nodes;
use fact_model::{ColKind, is_def, is_slot};
use hier_model::{column_at, site_at};
use kaba_base::{ColId, NodeId, SiteId};
use kaba_bits::BitRow;
use std::alloc::AllocError;

/// Whether a column is the declaration of a method.
pub fn is_declaration(kind: ColKind) -> bool
    ensures { result ≡ is_declaration kind }
{
    matches!(kind, ColKind::Dcl)
}

/// Whether a column stands at a node.
pub fn stands_at(nodes: &Nodes, n: NodeId, c: u32) -> bool
    requires nodes { AreSourceNodes nodes.now }
    requires column { c < length nodes.now.facts.now.columns.items }
    ensures { result ≡ stands_at (hierarchy_of nodes.now) n.0 c }
{
    match nodes.source.hier.place_of_column(ColId(c)) {
        Some(place) => place.0 == n.0,
        None => false,
    }
}

/// Whether a site is one of objects and stands at a node.
fn is_object_at(nodes: &Nodes, n: NodeId, s: u32) -> bool
    requires nodes { AreSourceNodes nodes.now }
    requires site { s < length nodes.now.facts.now.sites.items }
    ensures { result ≡ (((site_at nodes.now.facts.now s).dim == 0) && (place_of_row (hierarchy_of nodes.now) (site_row nodes.now.facts.now s) == n.0)) }
{
    let site = site_at(nodes.facts, SiteId(s));
    site.dim == 0 && nodes.source.hier.place_of_row(site.row).0 == n.0
}

/// Whether objects are created at a node.
fn is_made_at(nodes: &Nodes, n: NodeId) -> bool
    requires { AreSourceNodes nodes.now }
    ensures { result ≡ is_made_at nodes.now.facts.now (hierarchy_of nodes.now) n.0 }
{
    for s in 0..nodes.facts.sites.len() as u32 {
        if is_object_at(nodes, n, s) {
            return true;
        }
    }
    false
}

/// What a live node offers: whether objects are created there, the slots of the program that it offers, and those of which it
/// offers a body.
#[derive(Drop)]
pub struct Offers {
    pub is_made: bool,
    pub slots: BitRow,
    pub bodies: BitRow,
}

/// Adds the slot of a column to a set, if a live node offers it, where `bodies` asks for a body.
fn add_offered(nodes: &Nodes, n: NodeId, bodies: bool, c: u32, slots: &mut BitRow)
    requires nodes { AreSourceNodes nodes.now }
    requires node { is_live nodes.now.source.hier.now.order n.0 ≡ true }
    requires column { c < length nodes.now.facts.now.columns.items }
    ensures width { length slots.new ≡ length slots.old }
    ensures added { (x : ℕ) → x < length slots.old → bit slots.new x ≡ (bit slots.old x || is_offered_as nodes.now.facts.now
        (hierarchy_of nodes.now) n.0 x bodies c) }
{
    let column = column_at(nodes.facts, ColId(c));
    let Some(x) = column.slot else {
        return;
    };
    let is_offered = (!bodies || is_def(column.kind)) && nodes.source.hier.offers(n, ColId(c));
    if x < slots.width() && is_offered {
        slots.set(x);
    }
}

/// The slots of the program that a live node offers, with a body where `bodies` asks for that. An error comes only for want of
/// memory.
fn offered(nodes: &Nodes, n: NodeId, bodies: bool) -> Result<BitRow, AllocError>
    requires nodes { AreSourceNodes nodes.now }
    requires node { is_live nodes.now.source.hier.now.order n.0 ≡ true }
    ensures { IfOk result (λ v. AreOffered nodes.now n.0 bodies v) }
{
    let mut slots = BitRow::new(nodes.source.alloc, nodes.source.program.slots.len() as u32)?;
    for c in 0..nodes.facts.columns.len() as u32 {
        add_offered(nodes, n, bodies, c, &mut slots);
    }
    Ok(slots)
}

/// What a live node offers. An error comes only for want of memory.
pub fn offers_at(nodes: &Nodes, n: NodeId) -> Result<Offers, AllocError>
    requires nodes { AreSourceNodes nodes.now }
    requires node { is_live nodes.now.source.hier.now.order n.0 ≡ true }
    ensures { IfOk result (λ o. AreOffers nodes.now n.0 o) }
{
    let slots = offered(nodes, n, false)?;
    let bodies = offered(nodes, n, true)?;
    Ok(Offers {
        is_made: is_made_at(nodes, n),
        slots,
        bodies,
    })
}

/// Whether a column is a declaration of a slot that stands at a node.
fn is_declared_at(nodes: &Nodes, n: NodeId, x: u32, d: u32) -> bool
    requires nodes { AreSourceNodes nodes.now }
    requires column { d < length nodes.now.facts.now.columns.items }
    ensures { result ≡ (is_declaration (column_kind nodes.now.facts.now d) && (is_slot (column_slot nodes.now.facts.now d) x && stands_at
        (hierarchy_of nodes.now) n.0 d)) }
{
    let column = column_at(nodes.facts, ColId(d));
    is_declaration(column.kind) && (is_slot(column.slot, x) && stands_at(nodes, n, d))
}

/// Whether no column before this one declares the slot at the node.
pub fn is_first_there(nodes: &Nodes, n: NodeId, c: u32, x: u32) -> bool
    requires nodes { AreSourceNodes nodes.now }
    requires column { c < length nodes.now.facts.now.columns.items }
    ensures { result ≡ is_first_there nodes.now.facts.now (hierarchy_of nodes.now) n.0 c x }
{
    for d in 0..c {
        if is_declared_at(nodes, n, x, d) {
            return false;
        }
    }
    true
}
