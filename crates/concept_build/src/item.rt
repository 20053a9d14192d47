//! Concepts on the way, and lists of them in their order.

ghost use Rattle.std.specs.Prelude.{◌≡◌, ℕ, ◌<◌, ◌↔◌, Bool, true, List, length, All, AllPairs, IfOk, OnOk, IsTrue, slice_index_or};
ghost use Rattle.std.specs.List.Sorted.{IsPermutation};
ghost use Rattle.kaba_bits.specs.Sets.{bit, row, size, rising, HasWidth};
ghost use Rattle.fact_model.specs.Concepts.{Pair, concept_cmp, IsStrictSubset};
ghost use Rattle.concept_build.specs.Tables.{IsMeet, HaveAllColumns};
ghost use Rattle.concept_build.specs.Places.{AreInAll};
ghost use Rattle.concept_build.specs.Lists.{extents_of, columns_of, AreDifferent, IsBefore};

use crate::Tried;
use crate::columns::Columns;
use kaba_bits::{BitRow, row_at};
use std::alloc::Global;
use std::cmp::Ordering;
use std::marker::Model;

/// A concept, seen as its extent and its intent, with the keys of its place: how many rows, and the
/// numbers of the columns.
#[derive(Drop)]
pub struct Item {
    extent: BitRow,
    intent: BitRow,
    rows: u32,
    columns: Vec<u32>,
}

impl Model for Item {
    ghost use Rattle.std.specs.Prelude.{◌≡◌};
    ghost use Rattle.kaba_bits.specs.Sets.{rising};
    ghost use Rattle.fact_model.specs.Concepts.{Pair};

    ghost Value = { Pair };

    ghost view = { λ k. (k.extent, k.intent) };

    ghost invariant = { λ k. (k.rows ≡ Rattle.kaba_bits.specs.Sets.size k.extent) × (k.columns.items ≡ rising k.intent) };
}

impl Item {
    /// An intent with its extent: the rows that have all columns of the intent.
    pub fn new(alloc: Global, extents: &Columns, intent: BitRow) -> Tried<Item>
        requires len { length intent ≡ length extents.now.sets.items }
        requires widths { HasWidth (length extents.now.all) extents.now.sets.items }
        ensures intent { IfOk result (λ k. k.1 ≡ intent) }
        ensures extent { IfOk result (λ k. HaveAllColumns extents.now k.0 k.1) }
    {
        let columns = intent.rising(alloc)?;
        let extent = extent_of(alloc, extents, &columns)?;
        let rows = extent.count();
        Ok(Item {
            extent,
            intent,
            rows,
            columns,
        })
    }

    /// The rows.
    pub fn extent(&self) -> &BitRow
        ensures { result.now ≡ self.now.0 }
    {
        &self.extent
    }

    /// The columns.
    pub fn intent(&self) -> &BitRow
        ensures { result.now ≡ self.now.1 }
    {
        &self.intent
    }

    /// The numbers of the columns, rising.
    pub fn columns(&self) -> &[u32]
        ensures { result.now ≡ rising self.now.1 }
    {
        &self.columns
    }

    /// How many rows.
    pub fn rows(&self) -> u32
        ensures { result ≡ size self.now.0 }
    {
        self.rows
    }

    /// By falling size of extent, then by intent.
    pub fn compare(&self, other: &Item) -> Ordering
        ensures { result ≡ concept_cmp self.now other.now }
    {
        let by_rows = other.rows.cmp(&self.rows);
        by_rows.then(self.columns.cmp(&other.columns))
    }

    /// Whether the extent is strictly within the other's.
    pub fn is_within(&self, other: &Item) -> bool
        requires { length self.now.0 ≡ length other.now.0 }
        ensures { IsTrue result ↔ IsStrictSubset self.now.0 other.now.0 }
    {
        self.rows < other.rows && self.extent.is_subset(&other.extent)
    }
}

/// The places that are in all sets of a list.
fn extent_of(alloc: Global, extents: &Columns, columns: &[u32]) -> Tried<BitRow>
    requires widths { HasWidth (length extents.now.all) extents.now.sets.items }
    requires columns { All (λ c. c < length extents.now.sets.items) columns.now }
    ensures len { IfOk result (λ a. length a ≡ length extents.now.all) }
    ensures bits { IfOk result (AreInAll extents.now columns.now) }
{
    let mut extent = extents.all.copy(alloc)?;
    for c in columns {
        extent.and_into(row_at(&extents.sets, *c as usize));
    }
    Ok(extent)
}

/// From how many columns on an intent is compared whole, and not column by column.
const MANY: usize = 64;

/// The columns of an intent that a row has too, rising.
pub fn common_columns(alloc: Global, item: &Item, with: &BitRow) -> Tried<Vec<u32>>
    requires { length item.now.1 ≡ length with.now }
    ensures { IfOk result (λ v. (M : List Bool) → IsMeet M item.now.1 with.now → v.items ≡ rising M) }
{
    if item.columns().len() < MANY {
        return listed_columns(alloc, item, with);
    }
    let meet = meet_of(alloc, item.intent(), with)?;
    let columns = meet.rising(alloc)?;
    Ok(columns)
}

/// The intersection of two sets.
pub fn meet_of(alloc: Global, set: &BitRow, with: &BitRow) -> Tried<BitRow>
    requires { length set.now ≡ length with.now }
    ensures { IfOk result (λ b. IsMeet b set.now with.now) }
{
    let mut meet = set.copy(alloc)?;
    meet.and_into(with);
    Ok(meet)
}

/// The columns of an intent that a row has too, found one by one.
fn listed_columns(alloc: Global, item: &Item, with: &BitRow) -> Tried<Vec<u32>>
    requires { length item.now.1 ≡ length with.now }
    ensures { IfOk result (λ v. (M : List Bool) → IsMeet M item.now.1 with.now → v.items ≡ rising M) }
{
    let mut common = Vec::new(alloc);
    for c in item.columns() {
        if with.has(*c) {
            common.push(*c)?;
        }
    }
    Ok(common)
}

/// One concept of a list.
pub fn item_at(items: &[Item], k: usize) -> &Item
    requires { k < length items.now }
    ensures item { (d : Pair) → result.now ≡ slice_index_or items.now k d }
    ensures extent { result.now.0 ≡ row (extents_of items.now) k }
{
    &items[k]
}

/// Puts different concepts in their order.
pub fn sort_items(items: &mut Vec<Item>) -> Tried<()>
    requires differ { AreDifferent (columns_of items.old.items) }
    ensures same { IsPermutation items.old.items items.new.items }
    ensures ordered { OnOk result (AllPairs IsBefore items.new.items) }
{
    items.sort_by(|one, other| one.compare(other))?;
    Ok(())
}
