//! Finite partial orders on numbered nodes, closed at each step.
#![tactic(auto)]

ghost use Rattle.std.specs.Prelude.{◌≡◌, ℕ, ◌<◌, ◌↔◌, ◌&&◌, ◌||◌, ◌==◌, ◌∷◌, [], not, true, false, length, IsTrue, IfOk, OnOk, OnErr, MatchOption, All};
ghost use Rattle.kaba_bits.specs.Sets.{bit, row, IsSubset, ListsBelow};
ghost use Rattle.kaba_order.specs.Beyond.{IsBeyond, AreSomeBeyond, IsPassed};
ghost use Rattle.kaba_order.specs.Flips.{IsFlipped, HasFlipped};
ghost use Rattle.kaba_order.specs.Formers.{rows_at, AreBelow, IsFormerOf};
ghost use Rattle.kaba_order.specs.Orders.{Ordered, IsPartialOrder, is_le, is_live, IsStrictlyBelow, IsCover, numbers, IsLeastWith, IsUnder, IsDropped, IsBetween, IsFirstBetween, IsLeastOf, IsLeastMerged, IsMerged, differ};

use kaba_base::NodeId;
use kaba_bits::{BitRow, row_at};
use std::alloc::{AllocError, Global};
use std::marker::Model;

mod flips;
mod keep;
mod lower;
mod merge;
mod rows;

use flips::{flip_live, flip_rows};
pub use keep::Former;
use keep::{put_rows, rows_at, rows_with};
use lower::{add_set, lower_of};
pub use merge::least_of;
use merge::{has_some, is_among, keep_one, merge_rows, some_has};

/// Why an order was not changed.
#[derive(Clone, Copy)]
pub enum OrderFault {
    /// No partial order holds the old one and what was asked, since this node lies strictly between two
    /// of the union, or is the one that would stand below a node that is strictly below it.
    Cycle(NodeId),
    /// No memory is left.
    Memory,
}

impl From<AllocError> for OrderFault {
    ghost use Rattle.std.specs.Prelude.{◌≡◌};
    ghost use Rattle.kaba_order.specs.declared.OrderFault.{OrderFault};

    ghost from_gives = { λ _ e. e ≡ OrderFault.Memory };

    fn from(_e: AllocError) -> OrderFault {
        OrderFault::Memory
    }
}

/// What a join of nodes has made.
#[derive(Drop)]
pub struct Joined {
    /// The nodes at or below those that were joined.
    pub low: BitRow,
    /// What of the order was before.
    pub former: Former,
}

/// What a merge of nodes has made.
#[derive(Drop)]
pub struct Merged {
    /// The one node of those of the list: the least.
    pub node: NodeId,
    /// The nodes at or below it, and what of the order was before.
    pub joined: Joined,
}

/// A partial order on its live nodes. A node is a number below the count that the order was made with. For each node it
/// keeps the set of those at or above it and, as a hint where to look, one of all those at or below it and maybe others.
#[derive(Drop)]
pub struct Order {
    live: BitRow,
    le: Vec<BitRow>,
    lower: Vec<BitRow>,
}

impl Model for Order {
    ghost use Rattle.kaba_order.specs.Orders.{Ordered};
    ghost use Rattle.kaba_order.specs.Lower.{IsStored};

    ghost Value = { Ordered };

    ghost view = { λ o. record { live = o.live; le = o.le.items } };

    ghost invariant = { λ o. IsStored (record { live = o.live; le = o.le.items }) o.lower.items };
}

impl Order {
    /// The order of `count` live nodes in which each is related to itself alone. An error comes only
    /// for want of memory.
    pub fn discrete(alloc: Global, count: u32) -> Result<Order, AllocError>
        ensures count { IfOk result (λ o. length o.live ≡ count) }
        ensures live { IfOk result (λ o. (n : ℕ) → n < count → is_live o n ≡ true) }
        ensures le { IfOk result (λ o. (a b : ℕ) → a < count → is_le o a b ≡ (a == b)) }
    {
        let le = rows::diagonal(alloc, count)?;
        let lower = kaba_bits::copy_rows(alloc, &le)?;
        let live = BitRow::full(alloc, count)?;
        Ok(Order { live, le, lower })
    }

    /// The order of these live nodes in which each has its row of those at or above it. An error comes only for want
    /// of memory.
    pub fn from_rows(alloc: Global, live: BitRow, le: Vec<BitRow>) -> Result<Order, AllocError>
        requires { let order : Ordered = record { live = live; le = le.items } in IsPartialOrder order }
        ensures { IfOk result (λ o. o ≡ record { live = live; le = le.items }) }
    {
        let lower = lower_of(alloc, &le, live.width())?;
        Ok(Order { live, le, lower })
    }

    /// The same order once more. An error comes only for want of memory.
    pub fn copy(&self, alloc: Global) -> Result<Order, AllocError>
        ensures { IfOk result (λ o. o ≡ self.now) }
    {
        let live = self.live.copy(alloc)?;
        let le = kaba_bits::copy_rows(alloc, &self.le)?;
        let lower = kaba_bits::copy_rows(alloc, &self.lower)?;
        Ok(Order { live, le, lower })
    }

    /// The number of nodes that the order was made with, live or not.
    pub fn count(&self) -> u32
        ensures { result ≡ length self.now.live }
    {
        self.live.width()
    }

    /// Whether a number is that of a live node.
    pub fn is_live(&self, n: NodeId) -> bool
        ensures { result ≡ is_live self.now n.0 }
    {
        n.0 < self.live.width() && self.live.has(n.0)
    }

    /// Whether `a` is at or below `b`; both are live.
    pub fn le(&self, a: NodeId, b: NodeId) -> bool
        requires a { is_live self.now a.0 ≡ true }
        requires b { is_live self.now b.0 ≡ true }
        ensures { result ≡ is_le self.now a.0 b.0 }
    {
        let row = &self.le[a.0 as usize];
        row.has(b.0)
    }

    /// The nodes at or above a live node.
    pub fn above(&self, n: NodeId) -> &BitRow
        requires { is_live self.now n.0 ≡ true }
        ensures { result.now ≡ row self.now.le n.0 }
    {
        &self.le[n.0 as usize]
    }

    /// The nodes at or below some node of a list. An error comes only for want of memory. The time is in proportion to a
    /// 64th of the number of nodes for each node of the list, and to the list for each node that its hints have.
    pub fn below(&self, alloc: Global, set: &[NodeId]) -> Result<BitRow, AllocError>
        requires { All (λ s. s.0 < length self.now.live) set.now }
        ensures { IfOk result (AreBelow self.now set.now) }
    {
        rows_with(alloc, &self.le, &self.lower, set, self.live.width())
    }

    /// The upper covers of a live node, in rising order: the nodes strictly above it with none strictly
    /// between. An error comes only for want of memory. The time is in proportion to the number of nodes times
    /// a 64th of those above.
    pub fn covers(&self, alloc: Global, n: NodeId) -> Result<Vec<NodeId>, AllocError>
        requires { is_live self.now n.0 ≡ true }
        ensures { IfOk result (λ v. ListsBelow (IsCover self.now n.0) (length self.now.live) (numbers v.items)) }
    {
        let beyond = self.beyond(alloc, n)?;
        let mut above = Vec::new(alloc);
        for b in 0..self.count() {
            if self.is_cover(&beyond, n, NodeId(b)) {
                above.push(NodeId(b))?;
            }
        }
        Ok(above)
    }

    /// The nodes strictly above some node that is strictly above this one: those that are no upper covers of it. An
    /// error comes only for want of memory.
    pub fn beyond(&self, alloc: Global, n: NodeId) -> Result<BitRow, AllocError>
        requires { is_live self.now n.0 ≡ true }
        ensures width { IfOk result (λ r. length r ≡ length self.now.live) }
        ensures nodes { IfOk result (λ r. IsBeyond self.now n.0 (length self.now.live) r) }
    {
        let mut beyond = BitRow::new(alloc, self.count())?;
        let mut left = self.above(n).rising(alloc)?;
        'back: while let Some(k) = left.pop() {
            self.add_beyond(n, NodeId(k), &mut beyond);
        }
        Ok(beyond)
    }

    /// Whether `b` is an upper cover of `n`: strictly above it, and not above one that is, by `beyond`.
    pub fn is_cover(&self, beyond: &BitRow, n: NodeId, b: NodeId) -> bool
        requires n { is_live self.now n.0 ≡ true }
        requires b { b.0 < length self.now.live }
        requires width { length beyond.now ≡ length self.now.live }
        requires beyond { IsBeyond self.now n.0 (length self.now.live) beyond.now }
        ensures { IsTrue result ↔ IsCover self.now n.0 b.0 }
    {
        let _ = &self.live;
        self.is_strictly_below(n, b) && !beyond.has(b.0)
    }

    /// The nodes that are at or above a node in just one of two orders on as many nodes. An error comes only for want
    /// of memory. The time is in proportion to a 64th of the number of nodes, and to the number of those found.
    #[tactic(auto, using(crate::proofs::ChangedLemmas::in_just_one))]
    pub fn changed_above(
        &self,
        alloc: Global,
        newer: &Order,
        n: NodeId,
    ) -> Result<BitRow, AllocError>
        requires n { n.0 < length self.now.live }
        requires count { length newer.now.live ≡ length self.now.live }
        ensures width { IfOk result (λ r. length r ≡ length self.now.live) }
        ensures nodes { IfOk result (λ r. (b : ℕ) → bit r b ≡ differ (is_le self.now n.0 b) (is_le newer.now n.0 b)) }
    {
        let above = &self.le[n.0 as usize];
        let newly = &newer.le[n.0 as usize];
        let mut changed = BitRow::new(alloc, self.count())?;
        rows::add_missing(&mut changed, above, newly);
        rows::add_missing(&mut changed, newly, above);
        Ok(changed)
    }

    /// Makes one node, the least of a list, of all its nodes, and closes the order, and gives what was before; the list
    /// is not empty and its nodes are live. `Cycle(x)` comes exactly where a node outside lies strictly between two of
    /// the list, and `x` is the least such; the order is then as it was. The time is in proportion to the number of
    /// nodes times that of the list, for the test for a cycle, and to a 64th of the number of nodes for each node at or
    /// below or above the list.
    pub fn merge_set(&mut self, alloc: Global, set: &Vec<NodeId>) -> Result<Merged, OrderFault>
        requires some { 0 < length set.now.items }
        requires live { All (λ s. is_live self.old s.0 ≡ true) set.now.items }
        ensures node { IfOk result (λ m. IsLeastOf set.now.items m.node.0) }
        ensures least { IfOk result (λ m. IsLeastMerged self.old set.now.items m.node.0 self.new) }
        ensures pairs { IfOk result (λ m. IsMerged self.old set.now.items m.node.0 self.new) }
        ensures low { IfOk result (λ m. AreBelow self.new set.now.items m.joined.low) }
        ensures former { IfOk result (λ m. IsFormerOf self.old self.new m.joined.former) }
        ensures cycle { (x : NodeId) → ((result ≡ Err (OrderFault.Cycle x)) ↔ IsFirstBetween self.old set.now.items x.0) }
        ensures unchanged { OnErr result (self.new ≡ self.old) }
    {
        self.merge_kept(alloc, set)
    }

    /// Puts `n` below `p`, and closes the order under that, and gives the nodes at or below `n` and what was before; both
    /// are live. `Cycle(n)` comes exactly where `p` is strictly below `n`, and leaves the order as it was. The time is in
    /// proportion to a 64th of the number of nodes for each node at or below `n` or at or above `p`.
    pub fn put_under(&mut self, alloc: Global, n: NodeId, p: NodeId) -> Result<Joined, OrderFault>
        requires n { is_live self.old n.0 ≡ true }
        requires p { is_live self.old p.0 ≡ true }
        ensures least { OnOk result (IsLeastWith self.old n.0 p.0 self.new) }
        ensures pairs { OnOk result (IsUnder self.old n.0 p.0 self.new) }
        ensures low { IfOk result (λ j. AreBelow self.new (n ∷ []) j.low) }
        ensures former { IfOk result (λ j. IsFormerOf self.old self.new j.former) }
        ensures cycle { (x : NodeId) → ((result ≡ Err (OrderFault.Cycle x)) ↔ ((x ≡ n) × IsStrictlyBelow self.old p.0 n.0)) }
        ensures unchanged { OnErr result (self.new ≡ self.old) }
    {
        if self.is_strictly_below(p, n) {
            return Err(OrderFault::Cycle(n));
        }
        let low = self.below(alloc, &[n])?;
        let former = self.keep(alloc, &low)?;
        self.close_under(n, p, &low);
        Ok(Joined { low, former })
    }

    /// Makes the order what it was before nodes were joined. It takes no memory.
    pub fn put_back(&mut self, former: Former)
        requires { (old : Ordered) × IsPartialOrder old × IsFormerOf old self.old former }
        ensures { (old : Ordered) → IsFormerOf old self.old former → self.new ≡ old }
    {
        let Former { live, rows } = former;
        self.live = live;
        put_rows(&mut self.le, &mut self.lower, rows);
    }

    /// Removes a live node, and keeps the order of the rest.
    pub fn drop_node(&mut self, n: NodeId)
        requires { is_live self.old n.0 ≡ true }
        ensures dropped { IsDropped self.old n.0 self.new }
        ensures order { IsPartialOrder self.new }
    {
        rows::drop_from(&mut self.le, &self.live, n.0);
        self.live.remove(n.0);
    }

    /// Exchanges live and dead for the nodes of a list, and related and unrelated for the pairs of another; a node
    /// stands with itself where it is live. Each number is below the count, and a partial order comes of it. It takes
    /// no memory.
    pub fn flip(&mut self, nodes: &Vec<NodeId>, pairs: &Vec<(NodeId, NodeId)>)
        requires nodes { All (λ n. n.0 < length self.old.live) nodes.now.items }
        requires pairs { All (λ p. (p.0.0 < length self.old.live) × (p.1.0 < length self.old.live)) pairs.now.items }
        requires order { HasFlipped self.old nodes.now.items pairs.now.items }
        ensures flipped { IsFlipped self.old nodes.now.items pairs.now.items self.new }
        ensures order { IsPartialOrder self.new }
    {
        flip_live(&mut self.live, nodes);
        flip_rows(&mut self.le, &mut self.lower, nodes, pairs);
    }
}

impl Order {
    /// Whether `a` is strictly below `b`.
    fn is_strictly_below(&self, a: NodeId, b: NodeId) -> bool
        requires a { a.0 < length self.now.live }
        requires b { b.0 < length self.now.live }
        ensures { IsTrue result ↔ IsStrictlyBelow self.now a.0 b.0 }
    {
        let row = &self.le[a.0 as usize];
        a != b && row.has(b.0)
    }

    /// Adds the nodes strictly above one to a set that lacks it.
    fn add_above(&self, k: NodeId, set: &mut BitRow)
        requires k { k.0 < length self.now.live }
        requires width { length set.old ≡ length self.now.live }
        requires lacks { bit set.old k.0 ≡ false }
        ensures width { length set.new ≡ length set.old }
        ensures bits { (b : ℕ) → bit set.new b ≡ (bit set.old b || (is_le self.now k.0 b && not (k.0 == b))) }
    {
        set.or_into(&self.le[k.0 as usize]);
        set.remove(k.0);
    }

    /// Adds the nodes strictly above one that is at or above a node to those that are beyond the node, unless it is the node
    /// itself, or beyond it, since then they are in the set.
    #[tactic(auto, using(crate::proofs::BeyondLemmas::grown, crate::proofs::BeyondLemmas::all_passed))]
    fn add_beyond(&self, n: NodeId, k: NodeId, beyond: &mut BitRow)
        requires above { is_le self.now n.0 k.0 ≡ true }
        requires width { length beyond.old ≡ length self.now.live }
        requires before { AreSomeBeyond self.now n.0 beyond.old }
        ensures width { length beyond.new ≡ length beyond.old }
        ensures found { AreSomeBeyond self.now n.0 beyond.new }
        ensures grows { IsSubset beyond.old beyond.new }
        ensures all { IsStrictlyBelow self.now n.0 k.0 → IsPassed self.now k.0 beyond.new }
    {
        let _ = &self.live;
        if k == n || beyond.has(k.0) {
            return;
        }
        self.add_above(k, beyond);
    }

    /// The same as `merge_set`, over a slice.
    fn merge_kept(&mut self, alloc: Global, set: &[NodeId]) -> Result<Merged, OrderFault>
        requires some { 0 < length set.now }
        requires live { All (λ s. is_live self.old s.0 ≡ true) set.now }
        ensures node { IfOk result (λ m. IsLeastOf set.now m.node.0) }
        ensures least { IfOk result (λ m. IsLeastMerged self.old set.now m.node.0 self.new) }
        ensures pairs { IfOk result (λ m. IsMerged self.old set.now m.node.0 self.new) }
        ensures low { IfOk result (λ m. AreBelow self.new set.now m.joined.low) }
        ensures former { IfOk result (λ m. IsFormerOf self.old self.new m.joined.former) }
        ensures cycle { (x : NodeId) → ((result ≡ Err (OrderFault.Cycle x)) ↔ IsFirstBetween self.old set.now x.0) }
        ensures unchanged { OnErr result (self.new ≡ self.old) }
    {
        if let Some(x) = self.first_between(set) {
            return Err(OrderFault::Cycle(x));
        }
        let mut low = self.below(alloc, set)?;
        let former = self.keep(alloc, &low)?;
        let node = self.merge(set, &mut low);
        Ok(Merged {
            node,
            joined: Joined { low, former },
        })
    }

    /// The live nodes once more, and the rows of the nodes of a set.
    fn keep(&self, alloc: Global, low: &BitRow) -> Result<Former, AllocError>
        requires { length low.now ≡ length self.now.live }
        ensures order { IsPartialOrder self.now }
        ensures live { IfOk result (λ f. f.live ≡ self.now.live) }
        ensures rows { IfOk result (λ f. f.rows.items ≡ rows_at self.now.le low.now) }
    {
        let live = self.live.copy(alloc)?;
        let rows = rows_at(alloc, &self.le, low)?;
        Ok(Former { live, rows })
    }

    /// Makes one node of a list, the least, of all its nodes, by the nodes at or below some of them, which become those at or
    /// below the one.
    fn merge(&mut self, set: &[NodeId], low: &mut BitRow) -> NodeId
        requires some { 0 < length set.now }
        requires live { All (λ s. is_live self.old s.0 ≡ true) set.now }
        requires low { AreBelow self.old set.now low.old }
        requires none { (x : ℕ) → IsBetween self.old set.now x → ⊥ }
        ensures node { IsLeastOf set.now result.0 }
        ensures low { AreBelow self.new set.now low.new }
        ensures least { IsLeastMerged self.old set.now result.0 self.new }
        ensures pairs { IsMerged self.old set.now result.0 self.new }
    {
        let m = least_of(set);
        keep_one(&mut self.live, set, m.0);
        merge_rows(&mut self.le, &mut self.lower, set, low, m.0);
        keep_one(low, set, m.0);
        m
    }

    /// Puts a node below another that is not strictly below it, by the nodes at or below it.
    fn close_under(&mut self, n: NodeId, p: NodeId, low: &BitRow)
        requires n { is_live self.old n.0 ≡ true }
        requires p { is_live self.old p.0 ≡ true }
        requires low { AreBelow self.old (n ∷ []) low.now }
        requires apart { IsStrictlyBelow self.old p.0 n.0 → ⊥ }
        ensures low { AreBelow self.new (n ∷ []) low.now }
        ensures least { IsLeastWith self.old n.0 p.0 self.new }
        ensures pairs { IsUnder self.old n.0 p.0 self.new }
    {
        add_set(&mut self.lower, row_at(&self.le, p.0 as usize), low);
        rows::spread(&mut self.le, low, p.0);
    }

    /// The least node outside a list that lies strictly between two of it.
    fn first_between(&self, set: &[NodeId]) -> Option<NodeId>
        requires { All (λ s. is_live self.now s.0 ≡ true) set.now }
        ensures { MatchOption result ((x : ℕ) → IsBetween self.now set.now x → ⊥) (λ x. IsFirstBetween self.now set.now x.0) }
    {
        for x in 0..self.live.width() {
            if self.lies_between(set, x) {
                return Some(NodeId(x));
            }
        }
        None
    }

    /// Whether a number is that of a node outside a list that lies strictly between two of it.
    fn lies_between(&self, set: &[NodeId], x: u32) -> bool
        requires set { All (λ s. is_live self.now s.0 ≡ true) set.now }
        requires x { x < length self.now.live }
        ensures { IsTrue result ↔ IsBetween self.now set.now x }
    {
        let le = self.le.as_slice();
        !is_among(set, x) && some_has(le, set, x) && has_some(row_at(le, x as usize), set)
    }
}
