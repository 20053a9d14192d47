//! All concepts: from that of all columns, each is reached by upper neighbours.

ghost use Rattle.std.specs.Prelude.{◌≡◌, ℕ, ◌<◌, ◌≤◌, Bool, List, length, All, IfOk, OnOk, IfErr};
ghost use Rattle.kaba_bits.specs.Sets.{row};
ghost use Rattle.fact_model.specs.Concepts.{AreAllConcepts, IsConcept, HasIntent};
ghost use Rattle.concept_build.specs.Given.{IsTableSource};
ghost use Rattle.concept_build.specs.Tables.{IsFull};
ghost use Rattle.concept_build.specs.Lists.{IsFaultOf, lists_of, columns_of, pair_at, AreConceptsFound, AreDifferent, GrowsList, HasMeet, AreNext};

use crate::counts::Counts;
use crate::item::{Item, common_columns, item_at, meet_of, sort_items};
use crate::near::near_rows;
use crate::places::{is_new, places_of};
use crate::{LatticeFault, Tried};
use indexmap::IndexSet;
use kaba_bits::{BitRow, row_at};
use std::alloc::Global;

/// The table that concepts are found of, what is counted of it, and how many of them are wanted at the most.
#[derive(Drop)]
pub struct Source<'a> {
    pub alloc: Global,
    pub table: &'a [BitRow],
    pub counts: &'a Counts,
    pub width: u32,
    pub bound: u32,
}

/// All concepts in their order, if there are no more than the bound.
pub fn all_items(source: &Source) -> Result<Vec<Item>, LatticeFault>
    requires source { IsTableSource source.now }
    ensures all { IfOk result (λ v. AreAllConcepts source.now.table.now source.now.width v.items) }
    ensures within { IfOk result (λ v. length v.items ≤ source.now.bound) }
    ensures cause { IfErr result (λ e. IsFaultOf source.now.table.now source.now.width source.now.bound e) }
{
    let mut items = found_items(source)?;
    sort_items(&mut items)?;
    if items.len() > source.bound as usize {
        return Err(LatticeFault::TooManyConcepts(source.bound));
    }
    Ok(items)
}

/// All concepts, or one more than the bound of them.
fn found_items(source: &Source) -> Tried<Vec<Item>>
    requires source { IsTableSource source.now }
    ensures each { IfOk result (λ v. All (λ k. IsConcept source.now.table.now source.now.width k.0 k.1) v.items) }
    ensures differ { IfOk result (λ v. AreDifferent (columns_of v.items)) }
    ensures all { IfOk result (λ v. length v.items ≤ source.now.bound → (A B : List Bool)
        → IsConcept source.now.table.now source.now.width A B → HasIntent v.items B) }
{
    let mut items = first_items(source)?;
    let mut known = places_of(source.alloc, &items)?;
    let mut k = 0;
    while k < items.len() && items.len() <= source.bound as usize {
        add_next(source, &mut items, &mut known, k)?;
        k += 1;
    }
    Ok(items)
}

/// The concept of all columns.
fn first_items(source: &Source) -> Tried<Vec<Item>>
    requires source { IsTableSource source.now }
    ensures each { IfOk result (λ v. All (λ k. IsConcept source.now.table.now source.now.width k.0 k.1) v.items) }
    ensures one { IfOk result (λ v. length v.items ≡ 1) }
    ensures full { IfOk result (λ v. IsFull source.now.width (pair_at v.items 0).1) }
{
    let full = BitRow::full(source.alloc, source.width)?;
    let item = Item::new(source.alloc, &source.counts.extents, full)?;
    let mut items = Vec::new(source.alloc);
    items.push(item)?;
    Ok(items)
}

/// Adds the upper neighbours of the concept at `k` that are new, until there are more than the bound.
fn add_next(
    source: &Source,
    items: &mut Vec<Item>,
    known: &mut IndexSet<Vec<u32>>,
    k: usize,
) -> Tried<()>
    requires source { IsTableSource source.now }
    requires k { k < length items.old.items }
    requires found { AreConceptsFound source.now.table.now source.now.width items.old.items (lists_of known.old.keys) }
    ensures found { OnOk result (AreConceptsFound source.now.table.now source.now.width items.new.items (lists_of known.new.keys)) }
    ensures grows { OnOk result (GrowsList items.old.items items.new.items) }
    ensures next { OnOk result (length items.new.items ≤ source.now.bound → AreNext source.now.table.now items.new.items k) }
{
    let near = near_rows(source.alloc, source.table, source.counts, item_at(items, k))?;
    for q in &near {
        if items.len() > source.bound as usize {
            return Ok(());
        }
        add_meet(source, items, known, k, *q as usize)?;
    }
    Ok(())
}

/// Adds the concept of the columns that the concept at `k` has in common with the row `q`, unless it is
/// known.
fn add_meet(
    source: &Source,
    items: &mut Vec<Item>,
    known: &mut IndexSet<Vec<u32>>,
    k: usize,
    q: usize,
) -> Tried<()>
    requires source { IsTableSource source.now }
    requires k { k < length items.old.items }
    requires q { q < length source.now.table.now }
    requires found { AreConceptsFound source.now.table.now source.now.width items.old.items (lists_of known.old.keys) }
    ensures found { OnOk result (AreConceptsFound source.now.table.now source.now.width items.new.items (lists_of known.new.keys)) }
    ensures grows { OnOk result (GrowsList items.old.items items.new.items) }
    ensures has { OnOk result (HasMeet items.new.items (pair_at items.old.items k).1 (row source.now.table.now q)) }
{
    let columns = common_columns(source.alloc, item_at(items, k), row_at(source.table, q))?;
    if is_new(known, columns)? {
        let meet = meet_of(
            source.alloc,
            item_at(items, k).intent(),
            row_at(source.table, q),
        )?;
        items.push(Item::new(source.alloc, &source.counts.extents, meet)?)?;
    }
    Ok(())
}
