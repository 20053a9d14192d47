//! The class nodes of a hierarchy, found together.

ghost use Rattle.std.specs.Prelude.{◌≡◌, ℕ, ◌<◌, ◌==◌, ◌&&◌, ◌||◌, length, slice_set, IfOk, OnErr, OnOk};
ghost use Rattle.kaba_bits.specs.Sets.{bit};
ghost use Rattle.fact_model.specs.InRange.{InRange};
ghost use Rattle.hier_model.specs.Hierarchies.{IsHierarchyOf, is_class_node};
ghost use Rattle.hier_model.specs.Classes.{is_member_at, is_object_at, AreHolders, AreClassNodes, AreClassNodesBut};

use crate::Hier;
use crate::items::{column_at, is_of_class, site_at};
use fact_model::Facts;
use kaba_base::{ColId, NodeId, SiteId};
use kaba_bits::BitRow;
use std::alloc::{AllocError, Global};

impl Hier {
    /// The class nodes: each is at or below one where a field, a body or an object site stands. An error comes only
    /// for want of memory. The time is in proportion to a 64th of the square of the number of nodes, and to the
    /// number of columns and sites.
    pub fn class_nodes(&self, alloc: Global, facts: &Facts) -> Result<BitRow, AllocError>
        requires range { InRange facts.now }
        requires hierarchy { IsHierarchyOf facts.now self.now }
        ensures { IfOk result (λ v. AreClassNodes facts.now self.now v) }
    {
        let unasked = BitRow::full(alloc, self.order.count())?;
        let mut classes = BitRow::new(alloc, self.order.count())?;
        self.mark_class_nodes(alloc, facts, &unasked, &mut classes)?;
        Ok(classes)
    }

    /// Makes a set that of the class nodes that is so but for some nodes, which are asked. An error comes only for want of memory, and
    /// then the set is as it was. The time is in proportion to the number of columns and sites, and to a 64th of the number
    /// of nodes for each asked node.
    pub fn mark_class_nodes(
        &self,
        alloc: Global,
        facts: &Facts,
        unasked: &BitRow,
        classes: &mut BitRow,
    ) -> Result<(), AllocError>
        requires range { InRange facts.now }
        requires hierarchy { IsHierarchyOf facts.now self.now }
        requires others { AreClassNodesBut facts.now self.now unasked.now classes.old }
        ensures all { OnOk result (AreClassNodes facts.now self.now classes.new) }
        ensures kept { OnErr result (classes.new ≡ classes.old) }
    {
        let holders = self.holders(alloc, facts)?;
        let _width = unasked.width();
        let mut at = 0;
        'scan: while let Some(n) = unasked.next(at) {
            self.mark_class(facts, &holders, n, classes);
            at = n + 1;
        }
        Ok(())
    }

    /// Puts a node into a set, or takes it out, as it is a class node or not.
    fn mark_class(&self, facts: &Facts, holders: &BitRow, n: u32, classes: &mut BitRow)
        requires hierarchy { IsHierarchyOf facts.now self.now }
        requires holders { AreHolders facts.now self.now holders.now }
        requires node { n < length classes.old }
        ensures { classes.new ≡ slice_set classes.old n (is_class_node facts.now self.now n) }
    {
        if self.is_class(facts, holders, NodeId(n)) {
            classes.set(n);
        } else {
            classes.remove(n);
        }
    }

    /// Whether a node is a class node.
    fn is_class(&self, facts: &Facts, holders: &BitRow, n: NodeId) -> bool
        requires hierarchy { IsHierarchyOf facts.now self.now }
        requires holders { AreHolders facts.now self.now holders.now }
        ensures { result ≡ is_class_node facts.now self.now n.0 }
    {
        self.order.is_live(n) && self.order.above(n).meets(holders)
    }

    /// The nodes where a field, a body or an object site stands.
    fn holders(&self, alloc: Global, facts: &Facts) -> Result<BitRow, AllocError>
        requires range { InRange facts.now }
        requires hierarchy { IsHierarchyOf facts.now self.now }
        ensures { IfOk result (λ v. AreHolders facts.now self.now v) }
    {
        let mut holders = BitRow::new(alloc, self.order.count())?;
        for c in 0..facts.columns.len() {
            self.add_member_place(facts, ColId(c as u32), &mut holders);
        }
        for s in 0..facts.sites.len() {
            self.add_object_place(facts, SiteId(s as u32), &mut holders);
        }
        Ok(holders)
    }

    /// Adds the node where a column stands, if it is a field or a body.
    fn add_member_place(&self, facts: &Facts, c: ColId, holders: &mut BitRow)
        requires hierarchy { IsHierarchyOf facts.now self.now }
        requires column { c.0 < length facts.now.columns.items }
        requires width { length holders.old ≡ length self.now.order.live }
        ensures width { length holders.new ≡ length holders.old }
        ensures added { (p : ℕ) → bit holders.new p ≡ (bit holders.old p || is_member_at facts.now self.now p c.0) }
    {
        if !is_of_class(column_at(facts, c).kind) {
            return;
        }
        if let Some(place) = self.place_of_column(c) {
            holders.set(place.0);
        }
    }

    /// Adds the node where the row of a site stands, if an object is created there.
    fn add_object_place(&self, facts: &Facts, s: SiteId, holders: &mut BitRow)
        requires range { InRange facts.now }
        requires hierarchy { IsHierarchyOf facts.now self.now }
        requires site { s.0 < length facts.now.sites.items }
        requires width { length holders.old ≡ length self.now.order.live }
        ensures width { length holders.new ≡ length holders.old }
        ensures added { (p : ℕ) → bit holders.new p ≡ (bit holders.old p || is_object_at facts.now self.now p s.0) }
    {
        let site = site_at(facts, s);
        if site.dim == 0 {
            holders.set(self.place_of_row(site.row).0);
        }
    }
}
