//! The concept lattice of a table (Ganter and Wille, 1999).
#![tactic(auto)]

ghost use Rattle.std.specs.Prelude.{◌≡◌, ℕ, ◌-◌, ◌<◌, ◌≤◌, ◌^◌, length, map, IfOk, IfErr, slice_index_or};
ghost use Rattle.kaba_bits.specs.Sets.{HasWidth};
ghost use Rattle.fact_model.specs.declared.sets.Concept.{Concept};
ghost use Rattle.fact_model.specs.Concepts.{Pair, pair_of, IsConceptPlaced, IsLatticeOf};
ghost use Rattle.concept_build.specs.Given.{IsBuilderInput};
ghost use Rattle.concept_build.specs.Lists.{IsFaultOf, extents_of};
ghost use Rattle.concept_build.specs.Laws.{OneLattice, NotBoth};

use fact_model::{Concept, Lattice, Table};
use std::alloc::{AllocError, Global};
use thiserror::Error;

mod columns;
mod counts;
mod covers;
mod intents;
mod item;
mod near;
mod places;
mod stands;

use counts::counts_of;
use covers::{Given, above};
use intents::{Source, all_items};
use item::item_at;
use places::places_of;
use stands::{columns_at, rows_at};

/// What was made, or that memory was short.
type Tried<T> = Result<T, AllocError>;

/// Why there is no lattice.
#[derive(Clone, Copy, Debug, Error)]
pub enum LatticeFault {
    /// There are more concepts than this bound.
    #[error("there are more than {0} concepts")]
    TooManyConcepts(u32),
    /// Memory is short.
    #[error("memory is short")]
    Memory,
}

impl From<AllocError> for LatticeFault {
    ghost use Rattle.std.specs.Prelude.{◌≡◌};
    ghost use Rattle.concept_build.specs.declared.LatticeFault.{LatticeFault};

    ghost from_gives = { λ _ e. e ≡ LatticeFault.Memory };

    fn from(_e: AllocError) -> LatticeFault {
        LatticeFault::Memory
    }
}

/// Every concept of a table once, by falling size of extent and then by intent, with its upper covers
/// and with the rows and columns that stand there. `TooManyConcepts(bound)` comes exactly where there
/// are more than `bound`. The memory is in proportion to concepts times rows and columns.
pub fn concepts(alloc: Global, table: &Table, bound: u32) -> Result<Lattice, LatticeFault>
    requires rows { length table.now.rows.items < 2 ^ 32 - 1 }
    requires widths { HasWidth table.now.width table.now.rows.items }
    ensures lattice { IfOk result (λ l. IsLatticeOf table.now l) }
    ensures within { IfOk result (λ l. length l.concepts.items ≤ bound) }
    ensures cause { IfErr result (λ e. IsFaultOf table.now.rows.items table.now.width bound e) }
{
    let counts = counts_of(alloc, &table.rows, table.width)?;
    let items = all_items(&Source {
        alloc,
        table: &table.rows,
        counts: &counts,
        width: table.width,
        bound,
    })?;
    let places = places_of(alloc, &items)?;
    let concepts = placed_items(&Given {
        alloc,
        table: &table.rows,
        counts: &counts,
        items: &items,
        places: &places,
        width: table.width,
    })?;
    Ok(Lattice { concepts })
}

/// A table has one lattice: two that are its lattice hold the same concepts in the same order, each with the same
/// upper covers, rows and columns. And it has not both a lattice within a bound and more concepts than the bound.
pub fn one_lattice()
    ensures lattice { OneLattice }
    ensures apart { NotBoth }
{}

/// Each concept with what is told of it.
fn placed_items(given: &Given) -> Tried<Vec<Concept>>
    requires { IsBuilderInput given.now }
    ensures pairs { IfOk result (λ v. map pair_of v.items ≡ given.now.items.now) }
    ensures placed { IfOk result (λ v. (k : ℕ) (d : Concept) → k < length given.now.items.now
        → IsConceptPlaced given.now.table.now given.now.width (extents_of given.now.items.now) k (slice_index_or v.items k d)) }
{
    let mut concepts = Vec::new(given.alloc);
    for k in 0..given.items.len() {
        concepts.push(placed_item(given, k)?)?;
    }
    Ok(concepts)
}

/// One concept with what is told of it.
fn placed_item(given: &Given, k: usize) -> Tried<Concept>
    requires given { IsBuilderInput given.now }
    requires k { k < length given.now.items.now }
    ensures pair { IfOk result (λ x. (d : Pair) → pair_of x ≡ slice_index_or given.now.items.now k d) }
    ensures placed { IfOk result (λ x. IsConceptPlaced given.now.table.now given.now.width (extents_of given.now.items.now) k x) }
{
    let item = item_at(given.items, k);
    let extent = item.extent().copy(given.alloc)?;
    let intent = item.intent().copy(given.alloc)?;
    let above = above(given, k)?;
    let rows = rows_at(
        given.alloc,
        given.table,
        &given.counts.rows,
        item,
        given.width,
    )?;
    let columns = columns_at(
        given.alloc,
        given.table,
        &given.counts.columns,
        item,
        given.width,
    )?;
    Ok(Concept {
        extent,
        intent,
        above,
        rows,
        columns,
    })
}
