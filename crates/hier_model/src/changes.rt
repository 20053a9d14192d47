//! What an edit makes of a hierarchy.

ghost use Rattle.std.specs.Prelude.{◌≡◌, ◌<◌, ◌&&◌, ◌⊎◌, not, length, IfOk, Err};
ghost use Rattle.std.specs.Bool.{OnTrue};
ghost use Rattle.fact_model.specs.InRange.{InRange, IsCol};
ghost use Rattle.fact_model.specs.Items.{column_kind};
ghost use Rattle.hier_model.specs.Hierarchies.{IsHierarchyOf};
ghost use Rattle.hier_model.specs.Edits.{changed, moved, is_placed, is_used, is_mark, NamesSome};
ghost use Rattle.hier_model.specs.Places.{JoinsNodes};

use crate::moves::{copy_names, has_column, has_row, is_mark, moved_rows, renamed_members};
use crate::orders::dropped_order;
use crate::{ChangeFault, Edit, Hier, column_at};
use fact_model::Facts;
use kaba_base::{ColId, Name, NodeId};
use kaba_bits::copy_rows;
use kaba_order::Order;
use std::alloc::{AllocError, Global};

impl Hier {
    /// What an edit makes of the hierarchy, before its obligations are asked. The nodes and columns of the
    /// edit are looked at in the order of its words: `UnknownNode` and `UnknownMember` come exactly where one
    /// is not there, and hold the first; then `NotEmpty` exactly where a node to drop has a column or a row,
    /// and `Cycle` exactly where the nodes would no longer be ordered. `Memory` comes where memory is short.
    /// The time is in proportion to the square of the number of nodes.
    pub fn changed(&self, alloc: Global, facts: &Facts, edit: &Edit) -> Result<Hier, ChangeFault>
        requires range { InRange facts.now }
        requires hierarchy { IsHierarchyOf facts.now self.now }
        requires some { NamesSome edit.now }
        ensures value { (result ≡ Err ChangeFault.Memory) ⊎ (result ≡ changed facts.now self.now edit.now) }
        ensures fits { IfOk result (IsHierarchyOf facts.now) }
    {
        match edit {
            Edit::Merge(_) | Edit::Under(_, _) => self.joined(alloc, facts, edit),
            Edit::Move(c, n) => self.move_column(alloc, facts, *c, *n),
            Edit::TypeName(n, name) => self.name_type(alloc, facts, *n, name),
            Edit::MemberName(c, name) => self.name_member(alloc, facts, *c, name),
            Edit::Drop(n) => self.drop_node(alloc, facts, *n),
        }
    }

    /// The same of a join.
    fn joined(&self, alloc: Global, facts: &Facts, edit: &Edit) -> Result<Hier, ChangeFault>
        requires range { InRange facts.now }
        requires hierarchy { IsHierarchyOf facts.now self.now }
        requires some { NamesSome edit.now }
        requires join { JoinsNodes edit.now }
        ensures { (result ≡ Err ChangeFault.Memory) ⊎ (result ≡ changed facts.now self.now edit.now) }
    {
        let mut hier = self.copy(alloc)?;
        let _before = hier.join(alloc, facts, edit)?;
        Ok(hier)
    }

    /// The same hierarchy once more.
    fn copy(&self, alloc: Global) -> Result<Hier, AllocError>
        ensures { IfOk result (λ h. h ≡ self.now) }
    {
        Ok(Hier {
            order: self.order.copy(alloc)?,
            columns: self.columns.as_slice().to_vec(alloc)?,
            rows: self.rows.as_slice().to_vec(alloc)?,
            types: copy_names(alloc, &self.types)?,
            members: copy_names(alloc, &self.members)?,
            origins: self.origins.as_slice().to_vec(alloc)?,
            table: copy_rows(alloc, &self.table)?,
        })
    }

    /// The hierarchy in another order.
    fn with_order(&self, alloc: Global, order: Order) -> Result<Hier, AllocError>
        ensures { IfOk result (λ h. h ≡ record self.now { order = order }) }
    {
        let mut hier = self.copy(alloc)?;
        hier.order = order;
        Ok(hier)
    }

    /// A column at another node.
    fn move_column(
        &self,
        alloc: Global,
        facts: &Facts,
        c: ColId,
        n: NodeId,
    ) -> Result<Hier, ChangeFault>
        requires range { InRange facts.now }
        requires hierarchy { IsHierarchyOf facts.now self.now }
        ensures { (result ≡ Err ChangeFault.Memory) ⊎ (result ≡ changed facts.now self.now (Edit.Move c n)) }
    {
        if !self.is_placed(c) {
            return Err(ChangeFault::UnknownMember(c));
        }
        if !self.order.is_live(n) {
            return Err(ChangeFault::UnknownNode(n));
        }
        let hier = self.moved(alloc, facts, c, n)?;
        Ok(hier)
    }

    /// The hierarchy with a column at another node.
    fn moved(&self, alloc: Global, facts: &Facts, c: ColId, n: NodeId) -> Result<Hier, AllocError>
        requires range { InRange facts.now }
        requires hierarchy { IsHierarchyOf facts.now self.now }
        requires column { c.0 < length self.now.columns }
        ensures { IfOk result (λ h. h ≡ moved facts.now self.now c n) }
    {
        let mut hier = self.copy(alloc)?;
        hier.columns[c.0 as usize] = Some(n);
        hier.rows = moved_rows(alloc, facts, &self.rows, c, n)?;
        Ok(hier)
    }

    /// A type under another name.
    fn name_type(
        &self,
        alloc: Global,
        facts: &Facts,
        n: NodeId,
        name: &Name,
    ) -> Result<Hier, ChangeFault>
        requires hierarchy { IsHierarchyOf facts.now self.now }
        ensures { (result ≡ Err ChangeFault.Memory) ⊎ (result ≡ changed facts.now self.now (Edit.TypeName n name.now)) }
    {
        if !self.order.is_live(n) {
            return Err(ChangeFault::UnknownNode(n));
        }
        let mut hier = self.copy(alloc)?;
        hier.types[n.0 as usize] = name.copy(alloc)?;
        Ok(hier)
    }

    /// A member under another name.
    fn name_member(
        &self,
        alloc: Global,
        facts: &Facts,
        c: ColId,
        name: &Name,
    ) -> Result<Hier, ChangeFault>
        requires range { InRange facts.now }
        requires hierarchy { IsHierarchyOf facts.now self.now }
        ensures { (result ≡ Err ChangeFault.Memory) ⊎ (result ≡ changed facts.now self.now (Edit.MemberName c name.now)) }
    {
        if !self.is_member(facts, c) {
            return Err(ChangeFault::UnknownMember(c));
        }
        let mut hier = self.copy(alloc)?;
        hier.members = renamed_members(alloc, facts, &self.members, c, name)?;
        Ok(hier)
    }

    /// Without a node where nothing stands.
    fn drop_node(&self, alloc: Global, facts: &Facts, n: NodeId) -> Result<Hier, ChangeFault>
        requires hierarchy { IsHierarchyOf facts.now self.now }
        ensures { (result ≡ Err ChangeFault.Memory) ⊎ (result ≡ changed facts.now self.now (Edit.Drop n)) }
    {
        if !self.order.is_live(n) {
            return Err(ChangeFault::UnknownNode(n));
        }
        if self.is_used(n) {
            return Err(ChangeFault::NotEmpty(n));
        }
        let order = dropped_order(alloc, &self.order, n)?;
        let hier = self.with_order(alloc, order)?;
        Ok(hier)
    }

    /// Whether a column stands somewhere.
    fn is_placed(&self, c: ColId) -> bool
        ensures value { result ≡ is_placed self.now c }
        ensures below { OnTrue result (c.0 < length self.now.columns) }
    {
        (c.0 as usize) < self.columns.len() && self.columns[c.0 as usize].is_some()
    }

    /// Whether a column is a member that stands somewhere.
    fn is_member(&self, facts: &Facts, c: ColId) -> bool
        requires hierarchy { IsHierarchyOf facts.now self.now }
        ensures value { result ≡ (is_placed self.now c && not (is_mark (column_kind facts.now c.0))) }
        ensures below { OnTrue result (IsCol facts.now c) }
    {
        self.is_placed(c) && !is_mark(column_at(facts, c).kind)
    }

    /// Whether a column or a row stands at a node.
    fn is_used(&self, n: NodeId) -> bool
        ensures { result ≡ is_used self.now n }
    {
        has_column(&self.columns, n) || has_row(&self.rows, n)
    }
}
