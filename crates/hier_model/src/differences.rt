//! The differences between a hierarchy and the one that an edit made of it.

ghost use Rattle.std.specs.Prelude.{◌≡◌, ℕ, ◌<◌, ◌&&◌, ◌++◌, length, IfOk, OnOk};
ghost use Rattle.std.specs.List.{flat_map};
ghost use Rattle.kaba_bits.specs.Sets.{bit};
ghost use Rattle.kaba_order.specs.Orders.{is_le, is_live, IsPartialOrder, differ};
ghost use Rattle.hier_model.specs.Differences.{IsOneEdit, HoldsChanges, changes, is_same_origin, lives_on, node_change, pair_change, column_change, row_change, type_change, member_change, origin_change, each_below, named_node, named_pair};
ghost use Rattle.hier_model.specs.Kinds.{changes_at, changes_of, count_of};
ghost use Rattle.hier_model.specs.Alike.{AreAlike};

use crate::Hier;
use crate::moves::is_at;
use crate::names::is_same;
use kaba_base::{ClassId, ColId, Name, NodeId, RowId};
use kaba_bits::BitRow;
use kaba_order::Order;
use std::alloc::{AllocError, Global};

/// What an edit changed, with the value before it.
#[derive(Drop)]
pub enum Change {
    /// A node was live, with this name and this origin, and is no more.
    Node(NodeId, Name, Option<ClassId>),
    /// Of two nodes the first stood at or below the second, or did not, and now it is the other way.
    Pair(NodeId, NodeId, bool),
    /// A column stood at this node.
    Column(ColId, NodeId),
    /// A row stood at this node.
    Row(RowId, NodeId),
    /// The type of a node that is still live had this name.
    TypeName(NodeId, Name),
    /// The member of a column had this name.
    MemberName(ColId, Name),
    /// A node that is still live came from this class.
    Origin(NodeId, Option<ClassId>),
}

/// The kinds of changes, in the order in which they are listed.
#[derive(Clone, Copy)]
enum Kind {
    /// Nodes that are live no more.
    Nodes,
    /// Pairs of nodes that are in one of the orders alone.
    Pairs,
    /// Columns that stand elsewhere.
    Columns,
    /// Rows that stand elsewhere.
    Rows,
    /// Types that have another name, of nodes that are live in both.
    Types,
    /// Members that have another name.
    Members,
    /// Origins that changed, of nodes that are live in both.
    Origins,
}

/// All that an edit changed, and the nodes and the pairs of nodes that the changes name.
#[derive(Drop)]
pub struct Undo {
    /// The changes, in the order of the variants, then of the numbers.
    pub changes: Vec<Change>,
    /// The nodes that the changes `Node` name, in the same order.
    pub nodes: Vec<NodeId>,
    /// The nodes that the changes `Pair` name, in the same order.
    pub pairs: Vec<(NodeId, NodeId)>,
}

impl Hier {
    /// All differences between the hierarchy and one that an edit made of it. An error comes only for want of
    /// memory. The time is in proportion to a 64th of the square of the number of nodes, and to what is listed.
    pub fn changes(&self, alloc: Global, newer: &Hier) -> Result<Undo, AllocError>
        requires { IsOneEdit self.now newer.now }
        ensures { IfOk result (HoldsChanges self.now newer.now) }
    {
        let changes = self.all_changes(alloc, newer)?;
        let nodes = named_nodes(alloc, &changes)?;
        let pairs = named_pairs(alloc, &changes)?;
        Ok(Undo {
            changes,
            nodes,
            pairs,
        })
    }

    /// The list of them.
    fn all_changes(&self, alloc: Global, newer: &Hier) -> Result<Vec<Change>, AllocError>
        requires { AreAlike self.now newer.now }
        ensures { IfOk result (λ v. v.items ≡ changes self.now newer.now) }
    {
        let mut changes = Vec::new(alloc);
        self.add_kind(alloc, newer, Kind::Nodes, &mut changes)?;
        self.add_kind(alloc, newer, Kind::Pairs, &mut changes)?;
        self.add_kind(alloc, newer, Kind::Columns, &mut changes)?;
        self.add_kind(alloc, newer, Kind::Rows, &mut changes)?;
        self.add_kind(alloc, newer, Kind::Types, &mut changes)?;
        self.add_kind(alloc, newer, Kind::Members, &mut changes)?;
        self.add_kind(alloc, newer, Kind::Origins, &mut changes)?;
        Ok(changes)
    }

    /// Adds the changes of a kind.
    fn add_kind(
        &self,
        alloc: Global,
        newer: &Hier,
        kind: Kind,
        changes: &mut Vec<Change>,
    ) -> Result<(), AllocError>
        requires { AreAlike self.now newer.now }
        ensures { OnOk result (changes.new.items ≡ changes.old.items ++ changes_of kind self.now newer.now) }
    {
        for k in 0..self.count_of(kind) {
            self.add_at(alloc, newer, kind, k, changes)?;
        }
        Ok(())
    }

    /// How many numbers have changes of a kind.
    fn count_of(&self, kind: Kind) -> u32
        requires columns { length self.now.columns < 4294967295 }
        requires rows { length self.now.rows < 4294967295 }
        requires members { length self.now.members < 4294967295 }
        ensures { result ≡ count_of kind self.now }
    {
        match kind {
            Kind::Nodes => self.order.count(),
            Kind::Pairs => self.order.count(),
            Kind::Columns => self.columns.len() as u32,
            Kind::Rows => self.rows.len() as u32,
            Kind::Types => self.order.count(),
            Kind::Members => self.members.len() as u32,
            Kind::Origins => self.order.count(),
        }
    }

    /// Adds the changes of a kind that a number has.
    fn add_at(
        &self,
        alloc: Global,
        newer: &Hier,
        kind: Kind,
        k: u32,
        changes: &mut Vec<Change>,
    ) -> Result<(), AllocError>
        requires like { AreAlike self.now newer.now }
        requires number { k < count_of kind self.now }
        ensures { OnOk result (changes.new.items ≡ changes.old.items ++ changes_at kind self.now newer.now k) }
    {
        match kind {
            Kind::Nodes => self.add_node(alloc, newer, NodeId(k), changes),
            Kind::Pairs => self.add_pairs_of(alloc, newer, NodeId(k), changes),
            Kind::Columns => self.add_column(newer, ColId(k), changes),
            Kind::Rows => self.add_row(newer, RowId(k), changes),
            Kind::Types => self.add_type(alloc, newer, NodeId(k), changes),
            Kind::Members => self.add_member(alloc, newer, ColId(k), changes),
            Kind::Origins => self.add_origin(newer, NodeId(k), changes),
        }
    }

    /// Adds a node, if it is live no more.
    fn add_node(
        &self,
        alloc: Global,
        newer: &Hier,
        n: NodeId,
        changes: &mut Vec<Change>,
    ) -> Result<(), AllocError>
        requires like { AreAlike self.now newer.now }
        requires node { n.0 < length self.now.order.live }
        ensures { OnOk result (changes.new.items ≡ changes.old.items ++ node_change self.now newer.now n.0) }
    {
        if self.order.is_live(n) && !newer.order.is_live(n) {
            let name = self.types[n.0 as usize].copy(alloc)?;
            changes.push(Change::Node(n, name, self.origins[n.0 as usize]))?;
        }
        Ok(())
    }

    /// Adds the pairs with one node that are in one of the orders alone.
    fn add_pairs_of(
        &self,
        alloc: Global,
        newer: &Hier,
        a: NodeId,
        changes: &mut Vec<Change>,
    ) -> Result<(), AllocError>
        requires like { AreAlike self.now newer.now }
        requires node { a.0 < length self.now.order.live }
        ensures { OnOk result (changes.new.items ≡ changes.old.items ++ each_below (length self.now.order.live) (pair_change self.now newer.now a.0)) }
    {
        let others = self.order.changed_above(alloc, &newer.order, a)?;
        self.add_pairs_with(newer, a, &others, changes)
    }

    /// Adds those pairs, whose second nodes are given.
    fn add_pairs_with(
        &self,
        newer: &Hier,
        a: NodeId,
        others: &BitRow,
        changes: &mut Vec<Change>,
    ) -> Result<(), AllocError>
        requires like { AreAlike self.now newer.now }
        requires width { length others.now ≡ length self.now.order.live }
        requires others { (b : ℕ) → bit others.now b ≡ differ (is_le self.now.order a.0 b) (is_le newer.now.order a.0 b) }
        ensures { OnOk result (changes.new.items ≡ changes.old.items ++ each_below (length self.now.order.live) (pair_change self.now newer.now a.0)) }
    {
        let _width = others.width();
        let mut at = 0;
        'pairs: while let Some(b) = others.next(at) {
            self.add_pair(newer, a, NodeId(b), changes)?;
            at = b + 1;
        }
        Ok(())
    }

    /// Adds a pair, if it is in one of the orders alone.
    fn add_pair(
        &self,
        newer: &Hier,
        a: NodeId,
        b: NodeId,
        changes: &mut Vec<Change>,
    ) -> Result<(), AllocError>
        requires { AreAlike self.now newer.now }
        ensures { OnOk result (changes.new.items ≡ changes.old.items ++ pair_change self.now newer.now a.0 b.0) }
    {
        let was = stands_below(&self.order, a, b);
        let stands = stands_below(&newer.order, a, b);
        if a.0 != b.0 && differ(was, stands) {
            changes.push(Change::Pair(a, b, was))?;
        }
        Ok(())
    }

    /// Adds a column, if it stands elsewhere.
    fn add_column(
        &self,
        newer: &Hier,
        c: ColId,
        changes: &mut Vec<Change>,
    ) -> Result<(), AllocError>
        requires like { AreAlike self.now newer.now }
        requires column { c.0 < length self.now.columns }
        ensures { OnOk result (changes.new.items ≡ changes.old.items ++ column_change self.now newer.now c.0) }
    {
        if let Some(p) = self.columns[c.0 as usize] {
            if !is_at(p, newer.columns[c.0 as usize]) {
                changes.push(Change::Column(c, p))?;
            }
        }
        Ok(())
    }

    /// Adds a row, if it stands elsewhere.
    fn add_row(&self, newer: &Hier, r: RowId, changes: &mut Vec<Change>) -> Result<(), AllocError>
        requires like { AreAlike self.now newer.now }
        requires row { r.0 < length self.now.rows }
        ensures { OnOk result (changes.new.items ≡ changes.old.items ++ row_change self.now newer.now r.0) }
    {
        let place = self.rows[r.0 as usize];
        if place.0 != newer.rows[r.0 as usize].0 {
            changes.push(Change::Row(r, place))?;
        }
        Ok(())
    }

    /// Adds the type of a node, if it has another name.
    fn add_type(
        &self,
        alloc: Global,
        newer: &Hier,
        n: NodeId,
        changes: &mut Vec<Change>,
    ) -> Result<(), AllocError>
        requires like { AreAlike self.now newer.now }
        requires node { n.0 < length self.now.order.live }
        ensures { OnOk result (changes.new.items ≡ changes.old.items ++ type_change self.now newer.now n.0) }
    {
        let name = &self.types[n.0 as usize];
        if self.lives_on(newer, n) && !is_same(name, &newer.types[n.0 as usize]) {
            changes.push(Change::TypeName(n, name.copy(alloc)?))?;
        }
        Ok(())
    }

    /// Adds a member, if it has another name.
    fn add_member(
        &self,
        alloc: Global,
        newer: &Hier,
        c: ColId,
        changes: &mut Vec<Change>,
    ) -> Result<(), AllocError>
        requires like { AreAlike self.now newer.now }
        requires column { c.0 < length self.now.members }
        ensures { OnOk result (changes.new.items ≡ changes.old.items ++ member_change self.now newer.now c.0) }
    {
        let name = &self.members[c.0 as usize];
        if !is_same(name, &newer.members[c.0 as usize]) {
            changes.push(Change::MemberName(c, name.copy(alloc)?))?;
        }
        Ok(())
    }

    /// Adds the origin of a node, if it changed.
    fn add_origin(
        &self,
        newer: &Hier,
        n: NodeId,
        changes: &mut Vec<Change>,
    ) -> Result<(), AllocError>
        requires like { AreAlike self.now newer.now }
        requires node { n.0 < length self.now.order.live }
        ensures { OnOk result (changes.new.items ≡ changes.old.items ++ origin_change self.now newer.now n.0) }
    {
        let origin = self.origins[n.0 as usize];
        if self.lives_on(newer, n) && !is_same_origin(origin, newer.origins[n.0 as usize]) {
            changes.push(Change::Origin(n, origin))?;
        }
        Ok(())
    }

    /// Whether a node is live in both.
    fn lives_on(&self, newer: &Hier, n: NodeId) -> bool
        ensures { result ≡ lives_on self.now newer.now n.0 }
    {
        self.order.is_live(n) && newer.order.is_live(n)
    }
}

/// Whether a number is that of a node at or below another.
fn stands_below(order: &Order, a: NodeId, b: NodeId) -> bool
    requires { IsPartialOrder order.now }
    ensures { result ≡ is_le order.now a.0 b.0 }
{
    are_live(order, a, b) && order.le(a, b)
}

/// Whether two numbers are those of live nodes.
fn are_live(order: &Order, a: NodeId, b: NodeId) -> bool
    ensures { result ≡ (is_live order.now a.0 && is_live order.now b.0) }
{
    order.is_live(a) && order.is_live(b)
}

/// Whether two truth values differ.
fn differ(a: bool, b: bool) -> bool
    ensures { result ≡ differ a b }
{
    if a { !b } else { b }
}

/// Whether two origins are the same class, or both are none.
fn is_same_origin(a: Option<ClassId>, b: Option<ClassId>) -> bool
    ensures { result ≡ is_same_origin a b }
{
    match (a, b) {
        (None, None) => true,
        (Some(a), Some(b)) => a.0 == b.0,
        _ => false,
    }
}

/// The nodes that some changes take away.
fn named_nodes(alloc: Global, changes: &[Change]) -> Result<Vec<NodeId>, AllocError>
    ensures { IfOk result (λ v. v.items ≡ flat_map named_node changes.now) }
{
    let mut nodes = Vec::new(alloc);
    for change in changes {
        add_named_node(change, &mut nodes)?;
    }
    Ok(nodes)
}

/// Adds the node that a change takes away.
fn add_named_node(change: &Change, nodes: &mut Vec<NodeId>) -> Result<(), AllocError>
    ensures { OnOk result (nodes.new.items ≡ nodes.old.items ++ named_node change.now) }
{
    if let Change::Node(n, _, _) = change {
        nodes.push(*n)?;
    }
    Ok(())
}

/// The pairs whose order some changes tell.
fn named_pairs(alloc: Global, changes: &[Change]) -> Result<Vec<(NodeId, NodeId)>, AllocError>
    ensures { IfOk result (λ v. v.items ≡ flat_map named_pair changes.now) }
{
    let mut pairs = Vec::new(alloc);
    for change in changes {
        add_named_pair(change, &mut pairs)?;
    }
    Ok(pairs)
}

/// Adds the pair whose order a change tells.
fn add_named_pair(change: &Change, pairs: &mut Vec<(NodeId, NodeId)>) -> Result<(), AllocError>
    ensures { OnOk result (pairs.new.items ≡ pairs.old.items ++ named_pair change.now) }
{
    if let Change::Pair(a, b, _) = change {
        pairs.push((*a, *b))?;
    }
    Ok(())
}
