//! Joins: a merge, or a node put under another, made in place and taken back.

ghost use Rattle.std.specs.Prelude.{◌≡◌, ◌<◌, ◌⊎◌, ◌∷◌, [], true, length, All, IfOk, IfErr, OnOk, OnErr, Ok, Err, Some};
ghost use Rattle.kaba_order.specs.Formers.{AreBelow};
ghost use Rattle.kaba_order.specs.Orders.{is_live, IsPartialOrder};
ghost use Rattle.fact_model.specs.InRange.{InRange};
ghost use Rattle.hier_model.specs.Hierarchies.{Hierarchy, IsHierarchyOf};
ghost use Rattle.hier_model.specs.Edits.{changed, merged, NamesSome};
ghost use Rattle.hier_model.specs.Places.{with_places, IsFormer, JoinsNodes, joined_nodes};

use crate::moves::{merged_columns, merged_rows};
use crate::orders::{first_unknown, merge_order, put_under};
use crate::origins::merged_origins;
use crate::{ChangeFault, Edit, Hier};
use fact_model::Facts;
use kaba_base::{ClassId, NodeId};
use kaba_order::{Joined, least_of};
use std::alloc::{AllocError, Global};
use std::mem::swap;

/// What a merge makes anew of a hierarchy beside its order; all names and the table stay.
#[derive(Drop)]
pub struct Places {
    /// The node where each live column stands.
    pub columns: Vec<Option<NodeId>>,
    /// The node where each row stands.
    pub rows: Vec<NodeId>,
    /// The class from which each node comes.
    pub origins: Vec<Option<ClassId>>,
}

/// What a join made of a hierarchy, and what was before.
#[derive(Drop)]
pub struct Join {
    /// The nodes at or below those that were joined, and what of the order was before.
    pub order: Joined,
    /// The places and origins before a merge; a node put under another leaves them.
    pub places: Option<Places>,
}

impl Hier {
    /// Makes one node of those of a list, or puts a node below another, before the obligations are asked, and gives the
    /// nodes at or below the joined ones and what was before. The faults are those of `changed`, and then nothing has
    /// changed. No name and not the table is copied. The time is in proportion to the number of nodes, columns and rows times that of the list, and to a
    /// 64th of the number of nodes for each node at or below those that are joined.
    pub fn join(&mut self, alloc: Global, facts: &Facts, edit: &Edit) -> Result<Join, ChangeFault>
        requires range { InRange facts.now }
        requires hierarchy { IsHierarchyOf facts.now self.old }
        requires some { NamesSome edit.now }
        requires join { JoinsNodes edit.now }
        ensures made { OnOk result (changed facts.now self.old edit.now ≡ Ok self.new) }
        ensures low { IfOk result (λ j. AreBelow self.new.order (joined_nodes edit.now) j.order.low) }
        ensures before { IfOk result (IsFormer self.old self.new) }
        ensures fault { IfErr result (λ e. (e ≡ ChangeFault.Memory) ⊎ (changed facts.now self.old edit.now ≡ Err e)) }
        ensures kept { OnErr result (self.new ≡ self.old) }
        ensures fits { IsHierarchyOf facts.now self.new }
    {
        match edit {
            Edit::Merge(set) => self.merge(alloc, facts, set),
            Edit::Under(n, p) => self.put_under(alloc, facts, *n, *p),
            Edit::Move(_, _) | Edit::TypeName(_, _) => unreachable!(),
            Edit::MemberName(_, _) | Edit::Drop(_) => unreachable!(),
        }
    }

    /// Makes the hierarchy what it was before a join. It takes no memory.
    pub fn part(&mut self, join: Join)
        requires { (old : Hierarchy) × IsPartialOrder old.order × IsFormer old self.old join }
        ensures { (old : Hierarchy) → IsFormer old self.old join → self.new ≡ old }
    {
        let Join { order, places } = join;
        let Joined { low: _, former } = order;
        self.order.put_back(former);
        if let Some(places) = places {
            let _joined = self.exchange(places);
        }
    }

    /// Puts places and origins into the hierarchy, and gives those that it had.
    fn exchange(&mut self, places: Places) -> Places
        ensures made { self.new ≡ with_places self.old (Some places) }
        ensures back { with_places self.new (Some result) ≡ self.old }
    {
        let mut other = places;
        swap(&mut self.columns, &mut other.columns);
        swap(&mut self.rows, &mut other.rows);
        swap(&mut self.origins, &mut other.origins);
        other
    }

    /// One node of those of a list.
    fn merge(
        &mut self,
        alloc: Global,
        facts: &Facts,
        set: &Vec<NodeId>,
    ) -> Result<Join, ChangeFault>
        requires range { InRange facts.now }
        requires hierarchy { IsHierarchyOf facts.now self.old }
        requires some { 0 < length set.now.items }
        ensures made { OnOk result (changed facts.now self.old (Edit.Merge set.now) ≡ Ok self.new) }
        ensures low { IfOk result (λ j. AreBelow self.new.order set.now.items j.order.low) }
        ensures before { IfOk result (IsFormer self.old self.new) }
        ensures fault { IfErr result (λ e. (e ≡ ChangeFault.Memory) ⊎ (changed facts.now self.old (Edit.Merge set.now) ≡ Err e)) }
        ensures kept { OnErr result (self.new ≡ self.old) }
    {
        if let Some(n) = first_unknown(&self.order, set) {
            return Err(ChangeFault::UnknownNode(n));
        }
        let places = self.merged(alloc, facts, set)?;
        let order = merge_order(alloc, &mut self.order, set)?;
        let former = self.exchange(places);
        Ok(Join {
            order,
            places: Some(former),
        })
    }

    /// The places and origins when the nodes of a list are one, the least of them.
    fn merged(&self, alloc: Global, facts: &Facts, set: &[NodeId]) -> Result<Places, AllocError>
        requires range { InRange facts.now }
        requires hierarchy { IsHierarchyOf facts.now self.now }
        requires some { 0 < length set.now }
        requires live { All (λ s. is_live self.now.order s.0 ≡ true) set.now }
        ensures { IfOk result (λ p. with_places self.now (Some p) ≡ record (merged facts.now self.now set.now) { order = self.now.order }) }
    {
        let least = least_of(set);
        Ok(Places {
            columns: merged_columns(alloc, &self.columns, set, least)?,
            rows: merged_rows(alloc, &self.rows, set, least)?,
            origins: merged_origins(alloc, facts, &self.origins, set, least)?,
        })
    }

    /// One node below another.
    fn put_under(
        &mut self,
        alloc: Global,
        facts: &Facts,
        n: NodeId,
        p: NodeId,
    ) -> Result<Join, ChangeFault>
        requires hierarchy { IsHierarchyOf facts.now self.old }
        ensures made { OnOk result (changed facts.now self.old (Edit.Under n p) ≡ Ok self.new) }
        ensures low { IfOk result (λ j. AreBelow self.new.order (n ∷ []) j.order.low) }
        ensures before { IfOk result (IsFormer self.old self.new) }
        ensures fault { IfErr result (λ e. (e ≡ ChangeFault.Memory) ⊎ (changed facts.now self.old (Edit.Under n p) ≡ Err e)) }
        ensures kept { OnErr result (self.new ≡ self.old) }
    {
        if !self.order.is_live(n) {
            return Err(ChangeFault::UnknownNode(n));
        }
        if !self.order.is_live(p) {
            return Err(ChangeFault::UnknownNode(p));
        }
        let order = put_under(alloc, &mut self.order, n, p)?;
        Ok(Join {
            order,
            places: None,
        })
    }
}
