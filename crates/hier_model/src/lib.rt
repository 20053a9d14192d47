//! A class hierarchy over the rows and columns of a table: its nodes, places, names and origins, its
//! start from the concept lattice, what an edit makes of it, and the way back.
#![tactic(auto)]

ghost use Rattle.std.specs.Prelude.{◌≡◌, ℕ, ◌<◌, ◌^◌, true, length, IfOk, Some};
ghost use Rattle.kaba_bits.specs.Sets.{bit, row};
ghost use Rattle.kaba_order.specs.Orders.{is_live};
ghost use Rattle.fact_model.specs.InRange.{InRange};
ghost use Rattle.hier_model.specs.Hierarchies.{Hierarchy, IsHierarchyOf, place_of_column, place_of_row, type_name, member_name, origin_of, is_above, is_offered, has_class_member, has_object, is_class_node};
ghost use Rattle.hier_model.specs.Nodes.{IsNodeOf};

use fact_model::Facts;
use kaba_base::{ClassId, ColId, Name, NodeId, RowId, SiteId};
use kaba_bits::BitRow;
use kaba_order::Order;
use std::alloc::{AllocError, Global};
use std::marker::Model;

mod begin;
mod changes;
mod classes;
mod differences;
mod edits;
mod items;
mod moves;
mod names;
mod orders;
mod origins;
mod places;
mod restore;

pub use begin::start;
pub use differences::{Change, Undo};
pub use edits::{Act, ChangeFault, Edit};
use items::is_of_class;
pub use items::{column_at, site_at, this_of};
pub use places::{Join, Places};

/// A class hierarchy: nodes in a partial order, the node where each row and each live column stands, the
/// names of types and members, the class from which each node comes, and the table of its start.
#[derive(Drop)]
pub struct Hier {
    order: Order,
    columns: Vec<Option<NodeId>>,
    rows: Vec<NodeId>,
    types: Vec<Name>,
    members: Vec<Name>,
    origins: Vec<Option<ClassId>>,
    table: Vec<BitRow>,
}

impl Model for Hier {
    ghost use Rattle.hier_model.specs.Hierarchies.{Hierarchy};

    ghost Value = { Hierarchy };

    ghost view = { λ h. record { order = h.order; columns = h.columns.items; rows = h.rows.items; types = h.types.items; members = h.members.items; origins = h.origins.items; table = h.table.items } };
}

impl Hier {
    /// The order of the nodes.
    pub fn order(&self) -> &Order
        ensures { result.now ≡ self.now.order }
    {
        &self.order
    }

    /// The node where a column stands; `None` for one that no row had at the start.
    pub fn place_of_column(&self, c: ColId) -> Option<NodeId>
        requires { c.0 < length self.now.columns }
        ensures { result ≡ place_of_column self.now c.0 }
    {
        self.columns[c.0 as usize]
    }

    /// The node where a row stands.
    pub fn place_of_row(&self, r: RowId) -> NodeId
        requires { r.0 < length self.now.rows }
        ensures { result.0 ≡ place_of_row self.now r.0 }
    {
        self.rows[r.0 as usize]
    }

    /// The name of the type of a node.
    pub fn type_name(&self, n: NodeId) -> &Name
        requires { n.0 < length self.now.types }
        ensures { result.now ≡ type_name self.now n.0 }
    {
        &self.types[n.0 as usize]
    }

    /// The name of the member that a column is.
    pub fn member_name(&self, c: ColId) -> &Name
        requires { c.0 < length self.now.members }
        ensures { result.now ≡ member_name self.now c.0 }
    {
        &self.members[c.0 as usize]
    }

    /// The class from which a node comes; `None` for a node made of nodes of classes that are not comparable.
    pub fn origin(&self, n: NodeId) -> Option<ClassId>
        requires { n.0 < length self.now.origins }
        ensures { result ≡ origin_of self.now n.0 }
    {
        self.origins[n.0 as usize]
    }

    /// The columns that a row had in the table of the start, which no edit changes.
    pub fn table_row(&self, r: RowId) -> &BitRow
        requires { r.0 < length self.now.table }
        ensures { result.now ≡ row self.now.table r.0 }
    {
        &self.table[r.0 as usize]
    }

    /// Whether a live node offers a column: the column stands there or above.
    pub fn offers(&self, n: NodeId, c: ColId) -> bool
        requires node { is_live self.now.order n.0 ≡ true }
        requires column { c.0 < length self.now.columns }
        requires places { (x : ℕ) (p : NodeId) → place_of_column self.now x ≡ Some p → is_live self.now.order p.0 ≡ true }
        ensures { result ≡ is_offered self.now n.0 c.0 }
    {
        match self.place_of_column(c) {
            Some(place) => self.order.le(n, place),
            None => false,
        }
    }

    /// The columns that a live node offers. An error comes only for want of memory.
    pub fn offered(&self, alloc: Global, n: NodeId) -> Result<BitRow, AllocError>
        requires node { is_live self.now.order n.0 ≡ true }
        requires few { length self.now.columns < 2 ^ 32 }
        requires places { (x : ℕ) (p : NodeId) → place_of_column self.now x ≡ Some p → is_live self.now.order p.0 ≡ true }
        ensures width { IfOk result (λ r. length r ≡ length self.now.columns) }
        ensures columns { IfOk result (λ r. (c : ℕ) → c < length self.now.columns → bit r c ≡ is_offered self.now n.0 c) }
    {
        let width = self.columns.len() as u32;
        let mut offered = BitRow::new(alloc, width)?;
        for c in 0..width {
            if self.offers(n, ColId(c)) {
                offered.set(c);
            }
        }
        Ok(offered)
    }

    /// Whether a live node is a class: at or below one where a field, a body or an object site stands.
    pub fn is_class_node(&self, facts: &Facts, n: NodeId) -> bool
        requires range { InRange facts.now }
        requires hierarchy { IsHierarchyOf facts.now self.now }
        requires node { is_live self.now.order n.0 ≡ true }
        ensures { result ≡ is_class_node facts.now self.now n.0 }
    {
        self.has_class_member(facts, n) || self.has_object(facts, n)
    }

    /// Whether a live node is at or below one where a field or a body stands.
    #[tactic(auto, using(crate::proofs::AnyLemmas::any_below_found))]
    fn has_class_member(&self, facts: &Facts, n: NodeId) -> bool
        requires { IsNodeOf facts.now self.now n.0 }
        ensures { result ≡ has_class_member facts.now self.now n.0 }
    {
        for c in 0..facts.columns.len() {
            let column = ColId(c as u32);
            if is_of_class(column_at(facts, column).kind) && self.offers(n, column) {
                return true;
            }
        }
        false
    }

    /// Whether a live node is at or below one where an object is created.
    #[tactic(auto, using(crate::proofs::AnyLemmas::any_below_found))]
    fn has_object(&self, facts: &Facts, n: NodeId) -> bool
        requires { IsNodeOf facts.now self.now n.0 }
        ensures { result ≡ has_object facts.now self.now n.0 }
    {
        for s in 0..facts.sites.len() {
            let site = site_at(facts, SiteId(s as u32));
            if site.dim == 0 && self.order.le(n, self.place_of_row(site.row)) {
                return true;
            }
        }
        false
    }
}
