//! Which types are above which.
#![tactic(auto)]

ghost use Rattle.std.specs.Prelude.{◌≡◌, ℕ, ◌<◌, ◌≤◌, ◌||◌, ◌⊎◌, ◌↔◌, Bool, List, ◌∷◌, [], length, map, IfOk, OnOk, IsTrue, MatchOption, Contains, false};
ghost use Rattle.std.specs.Bool.{OnTrue, OnFalse};
ghost use Rattle.kaba_bits.specs.Sets.{bit, size, IsEmpty, IsLeastFrom};
ghost use Rattle.java_core.specs.Plain.{class_seen};
ghost use Rattle.java_core.specs.Squares.{meet};
ghost use Rattle.java_core.specs.Squares.{in_row, AreRows};
ghost use Rattle.java_core.specs.Subtypes.{Share, IsOwnRow, AreInside, IsExactRow, AreExact, GainedTypes, Filled, AllExact, subtype_rows};
ghost use Rattle.java_core.specs.Squares.{is_above};

use crate::direct::{direct_of, listed};
use crate::order::order_of;
use crate::{Class, Tried};
use kaba_bits::{BitRow, empty_rows, row_at};
use std::alloc::{AllocError, Global};
use std::marker::Model;

/// For each type the types at or below it.
#[derive(Drop)]
pub struct Hierarchy {
    /// The row of a type with no other below it is empty.
    below: Vec<BitRow>,
    /// Types, each behind those that it names as its supertypes.
    order: Vec<u32>,
}

impl Model for Hierarchy {
    ghost use Rattle.std.specs.Prelude.{List, Bool, length};
    ghost use Rattle.java_core.specs.Squares.{square, is_below, AreRows};

    ghost Value = { List (List Bool) };

    ghost view = { λ h. square (length h.below.items) (is_below h.below.items) };

    ghost invariant = { λ h. AreRows (length h.below.items) h.below.items };
}

/// Whether `a` is at or below `b`, whose row this is.
fn is_in(row: &BitRow, a: u32, b: u32) -> bool
    ensures { result ≡ in_row row.now a b }
{
    if row.width() == 0 {
        return a == b;
    }
    if a < row.width() { row.has(a) } else { false }
}

/// The first type from a number on that is at or below `b`, whose row this is.
fn next_in(row: &BitRow, b: u32, from: u32) -> Option<u32>
    ensures { MatchOption result ((t : ℕ) → from ≤ t → in_row row.now t b ≡ false) (IsLeastFrom (λ t. in_row row.now t b) from) }
{
    if row.width() > 0 {
        return row.next(from);
    }
    if from <= b { Some(b) } else { None }
}

/// Whether some type is at or below both `a` and `b`, whose rows these are.
fn share(first: &BitRow, second: &BitRow, a: u32, b: u32) -> bool
    requires { (length first.now ≡ 0 → ⊥) → (length second.now ≡ 0 → ⊥) → length first.now ≡ length second.now }
    ensures { IsTrue result ↔ Share first.now second.now a b }
{
    if first.width() == 0 {
        return is_in(second, a, b);
    }
    if second.width() == 0 {
        return is_in(first, b, a);
    }
    first.meets(second)
}

/// Whether there is no row of one of two types.
fn is_outside(rows: &Vec<BitRow>, a: u32, b: u32) -> bool
    ensures outside { OnTrue result ((length rows.now.items ≤ a) ⊎ (length rows.now.items ≤ b)) }
    ensures inside { OnFalse result ((a < length rows.now.items) × (b < length rows.now.items)) }
{
    let count = rows.len();
    a as usize >= count || b as usize >= count
}

impl Hierarchy {
    /// Whether `b` is at or above `a`.
    pub fn is_above(&self, a: u32, b: u32) -> bool
        ensures { result ≡ is_above self.now a b }
    {
        if is_outside(&self.below, a, b) {
            return false;
        }
        is_in(row_at(self.below.as_slice(), b as usize), a, b)
    }

    /// The first type from a number on that is at or below `b`.
    pub fn next_below(&self, b: u32, from: u32) -> Option<u32>
        ensures { MatchOption result ((t : ℕ) → from ≤ t → is_above self.now t b ≡ false) (IsLeastFrom (λ t. is_above self.now t b) from) }
    {
        if b as usize >= self.below.len() {
            return None;
        }
        next_in(row_at(self.below.as_slice(), b as usize), b, from)
    }

    /// Whether some type is at or below both.
    pub fn meet(&self, a: u32, b: u32) -> bool
        ensures { result ≡ meet self.now a b }
    {
        if is_outside(&self.below, a, b) {
            return false;
        }
        let below = self.below.as_slice();
        share(row_at(below, a as usize), row_at(below, b as usize), a, b)
    }

    /// A row for all types with none in it; `AllocError` where memory is short.
    pub fn empty_row(&self, alloc: Global) -> Result<BitRow, AllocError>
        ensures width { IfOk result (λ r. length r ≡ length self.now) }
        ensures empty { IfOk result (λ r. IsEmpty r) }
    {
        match u32::try_from(self.below.len()) {
            Ok(count) => BitRow::new(alloc, count),
            Err(_) => Err(AllocError),
        }
    }

    /// Adds to a row for all types those at or below `b`.
    pub fn add_below(&self, b: u32, row: &mut BitRow)
        requires { length row.old ≡ length self.now }
        ensures width { length row.new ≡ length row.old }
        ensures bits { (t : ℕ) → t < length row.old → bit row.new t ≡ (bit row.old t || is_above self.now t b) }
    {
        if (b as usize) < self.below.len() {
            add_row(row, row_at(self.below.as_slice(), b as usize), b);
        }
    }

    /// The types in an order in which each comes behind those that it names as its supertypes, where there is no cycle. Nothing is
    /// promised of it: what is filled in by it is tested.
    pub fn supertypes_first(&self) -> &[u32] {
        self.order.as_slice()
    }
}

/// Adds to a row the type `x`, whose row is the other, and what is below it.
fn add_row(row: &mut BitRow, other: &BitRow, x: u32)
    requires x { x < length row.old }
    requires width { (length other.now ≡ 0) ⊎ (length other.now ≡ length row.old) }
    ensures len { length row.new ≡ length row.old }
    ensures join { (y : ℕ) → y < length row.old → bit row.new y ≡ (bit row.old y || in_row other.now y x) }
    ensures work { size row.old ≤ size row.new }
{
    if other.width() == 0 {
        row.set(x);
    } else {
        row.or_into(other);
    }
}

/// Adds to a row the type `x`: with all below it where the row of `x` is known, else `x` waits.
fn reach(
    rows: &[BitRow],
    known: &BitRow,
    row: &mut BitRow,
    waiting: &mut Vec<u32>,
    x: u32,
) -> Tried<()>
    requires x { x < length row.old }
    requires known { length known.now ≡ length row.old }
    requires len { length rows.now ≡ length row.old }
    requires wide { AreRows (length row.old) rows.now }
    ensures { IfOk result (λ _. GainedTypes rows.now known.now (x ∷ []) row.old row.new waiting.old.items waiting.new.items) }
{
    if row.has(x) {
        return Ok(());
    }
    if known.has(x) {
        add_row(row, row_at(rows, x as usize), x);
    } else {
        row.set(x);
        waiting.push(x)?;
    }
    Ok(())
}

/// Adds these types to a row.
fn reach_all(
    rows: &[BitRow],
    known: &BitRow,
    row: &mut BitRow,
    waiting: &mut Vec<u32>,
    more: &[u32],
) -> Tried<()>
    requires inside { (x : ℕ) → Contains more.now x → x < length row.old }
    requires known { length known.now ≡ length row.old }
    requires len { length rows.now ≡ length row.old }
    requires wide { AreRows (length row.old) rows.now }
    ensures { IfOk result (λ _. GainedTypes rows.now known.now more.now row.old row.new waiting.old.items waiting.new.items) }
{
    for x in more {
        reach(rows, known, row, waiting, *x)?;
    }
    Ok(())
}

/// A row of the type `b` alone.
fn own_row(alloc: Global, count: u32, b: u32) -> Tried<BitRow>
    requires { b < count }
    ensures { IfOk result (λ r. IsOwnRow count b r) }
{
    let mut row = BitRow::new(alloc, count)?;
    row.set(b);
    Ok(row)
}

/// The types by number: which stand directly below each, and how many there are. Rows are made in the memory of `alloc`.
#[derive(Drop)]
struct Graph<'a> {
    alloc: Global,
    lists: &'a [Vec<u32>],
    count: u32,
}

/// The row of a type, found by a walk downwards; the rows of some types are known. It is empty where nothing else is below the type.
fn row_below(graph: &Graph, rows: &[BitRow], known: &BitRow, b: u32) -> Tried<BitRow>
    requires b { b < graph.now.count }
    requires inside { AreInside graph.now.count graph.now.lists.now }
    requires others { AreExact graph.now.lists.now graph.now.count known.now rows.now }
    ensures { IfOk result (λ r. IsExactRow graph.now.lists.now graph.now.count b r) }
{
    if listed(graph.lists, b).is_empty() {
        return BitRow::new(graph.alloc, 0);
    }
    let mut row = own_row(graph.alloc, graph.count, b)?;
    let mut waiting = Vec::new(graph.alloc);
    waiting.push(b)?;
    'walk: while let Some(x) = waiting.pop() {
        reach_all(rows, known, &mut row, &mut waiting, listed(graph.lists, x))?;
    }
    Ok(row)
}

/// Fills the row of a type, if there is one of the number that is not known yet.
fn fill_one(graph: &Graph, rows: &mut [BitRow], known: &mut BitRow, b: u32) -> Tried<()>
    requires inside { AreInside graph.now.count graph.now.lists.now }
    requires before { AreExact graph.now.lists.now graph.now.count known.old rows.old }
    ensures { IfOk result (λ _. Filled graph.now.lists.now graph.now.count b known.old known.new rows.new) }
{
    if b >= graph.count || known.has(b) {
        return Ok(());
    }
    rows[b as usize] = row_below(graph, rows, known, b)?;
    known.set(b);
    Ok(())
}

/// Fills the rows of these types, the last first.
fn fill_by(graph: &Graph, rows: &mut [BitRow], known: &mut BitRow, order: &[u32]) -> Tried<()>
    requires inside { AreInside graph.now.count graph.now.lists.now }
    requires before { AreExact graph.now.lists.now graph.now.count known.old rows.old }
    ensures { IfOk result (λ _. AreExact graph.now.lists.now graph.now.count known.new rows.new) }
{
    for k in 0..order.len() {
        fill_one(graph, rows, known, order[order.len() - 1 - k])?;
    }
    Ok(())
}

/// Fills the rows of all types, by an order in which each comes before those below it; what the order leaves out comes behind.
fn fill(graph: &Graph, rows: &mut [BitRow], order: &[u32]) -> Tried<()>
    requires inside { AreInside graph.now.count graph.now.lists.now }
    requires len { length rows.old ≡ graph.now.count }
    requires formed { AreRows graph.now.count rows.old }
    ensures { IfOk result (λ _. AllExact graph.now.lists.now graph.now.count rows.new) }
{
    let mut known = BitRow::new(graph.alloc, graph.count)?;
    fill_by(graph, rows, &mut known, order)?;
    for b in 0..graph.count {
        fill_one(graph, rows, &mut known, b)?;
    }
    Ok(())
}

/// Which types are above which; `AllocError` where memory is short.
pub fn subtypes_of(alloc: Global, all: &Vec<Class>, count: u32) -> Result<Hierarchy, AllocError>
    requires { length all.now.items ≡ count }
    ensures { IfOk result (λ r. r ≡ subtype_rows (map class_seen all.now.items)) }
{
    let lists = direct_of(alloc, all, count)?;
    let order = order_of(alloc, lists.as_slice(), count)?;
    let mut below = empty_rows(alloc, all.len(), 0)?;
    let graph = Graph {
        alloc,
        lists: lists.as_slice(),
        count,
    };
    fill(&graph, below.as_mut_slice(), order.as_slice())?;
    Ok(Hierarchy { below, order })
}
