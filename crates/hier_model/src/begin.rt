//! The hierarchy that a concept lattice proposes (Snelting and Tip, 2000).

ghost use Rattle.std.specs.Prelude.{◌≡◌, ℕ, ◌<◌, ◌==◌, ◌&&◌, ◌||◌, not, length, map, slice_get, slice_index_or, IfOk, All, Some, None};
ghost use Rattle.std.specs.List.{list_any, range_with_len};
ghost use Rattle.kaba_bits.specs.Sets.{bit, row, or_else, when};
ghost use Rattle.kaba_order.specs.Orders.{IsPartialOrder};
ghost use Rattle.fact_model.specs.InRange.{InRange, IsClass};
ghost use Rattle.fact_model.specs.InOrder.{InOrder};
ghost use Rattle.fact_model.specs.Entries.{IsTable};
ghost use Rattle.fact_model.specs.Concepts.{pair_of, IsLatticeOf};
ghost use Rattle.fact_model.specs.Classes.{is_interface};
ghost use Rattle.hier_model.specs.Hierarchies.{IsHierarchyOf};
ghost use Rattle.hier_model.specs.Start.{is_filled, order_of, owners, start_origin, origins_of, start_from};
ghost use Rattle.hier_model.specs.Listed.{extent_of, intent_of, is_above_concept, AreConceptsWith, listed_column, listed_row, row_node};

use crate::names::{member_names, type_names};
use crate::origins::lowest;
use crate::{Hier, column_at};
use fact_model::{Concept, Facts, Lattice, Table, class_at};
use kaba_base::{ClassId, ColId, NodeId, RowId};
use kaba_bits::{BitRow, copy_rows, row_at, set_at};
use kaba_order::Order;
use std::alloc::{AllocError, Global};

/// The hierarchy that a lattice proposes: its nodes are the concepts with an extent that is not empty, with
/// their numbers. A column stands at the concept whose extent is the rows that have it, and a row at the one
/// whose intent is its columns. An error comes only for want of memory. The order takes time in proportion to a 64th
/// of the number of concepts times all that their extents have, and the places of the columns and the rows
/// one pass over the concepts.
pub fn start(
    alloc: Global,
    facts: &Facts,
    table: &Table,
    lattice: &Lattice,
) -> Result<Hier, AllocError>
    requires range { InRange facts.now }
    requires order { InOrder facts.now }
    requires table { IsTable facts.now table.now }
    requires lattice { IsLatticeOf table.now lattice.now }
    requires few { length lattice.now.concepts.items < 4294967295 }
    ensures value { IfOk result (λ h. h ≡ start_from facts.now table.now lattice.now) }
    ensures fits { IfOk result (IsHierarchyOf facts.now) }
{
    let order = order_of(alloc, &lattice.concepts)?;
    let columns = column_places(alloc, &lattice.concepts, facts.columns.len() as u32)?;
    let rows = row_places(alloc, &lattice.concepts, facts.rows.len() as u32)?;
    let origins = origins_of(alloc, facts, &lattice.concepts)?;
    let members = member_names(alloc, facts)?;
    let types = type_names(alloc, facts, &members, &origins)?;
    let table = copy_rows(alloc, &table.rows)?;
    Ok(Hier {
        order,
        columns,
        rows,
        types,
        members,
        origins,
        table,
    })
}

/// The order of the concepts by their extents.
fn order_of(alloc: Global, concepts: &[Concept]) -> Result<Order, AllocError>
    requires few { length concepts.now < 4294967295 }
    requires widths { (i j : ℕ) → i < length concepts.now → j < length concepts.now → length (extent_of concepts.now i) ≡ length (extent_of concepts.now j) }
    requires order { IsPartialOrder (order_of (map pair_of concepts.now)) }
    ensures { IfOk result (λ o. o ≡ order_of (map pair_of concepts.now)) }
{
    let live = live_nodes(alloc, concepts)?;
    let le = rows_above(alloc, concepts)?;
    Order::from_rows(alloc, live, le)
}

/// The concepts whose extent is not empty.
fn live_nodes(alloc: Global, concepts: &[Concept]) -> Result<BitRow, AllocError>
    requires few { length concepts.now < 4294967295 }
    ensures width { IfOk result (λ r. length r ≡ length concepts.now) }
    ensures nodes { IfOk result (λ r. (k : ℕ) → k < length concepts.now → bit r k ≡ is_filled (extent_of concepts.now k)) }
{
    let count = concepts.len() as u32;
    let mut live = BitRow::new(alloc, count)?;
    for k in 0..count {
        if is_filled(extent_at(concepts, k as usize)) {
            live.set(k);
        }
    }
    Ok(live)
}

/// For each concept those at or above it.
fn rows_above(alloc: Global, concepts: &[Concept]) -> Result<Vec<BitRow>, AllocError>
    requires few { length concepts.now < 4294967295 }
    requires widths { (i j : ℕ) → i < length concepts.now → j < length concepts.now → length (extent_of concepts.now i) ≡ length (extent_of concepts.now j) }
    ensures len { IfOk result (λ v. length v.items ≡ length concepts.now) }
    ensures widths { IfOk result (λ v. (a : ℕ) → a < length concepts.now → length (row v.items a) ≡ length concepts.now) }
    ensures rows { IfOk result (λ v. (a b : ℕ) → a < length concepts.now → b < length concepts.now → bit (row v.items a) b ≡ is_above_concept concepts.now a b) }
{
    let having = concepts_with(alloc, concepts)?;
    let mut rows = Vec::new(alloc);
    for a in 0..concepts.len() {
        rows.push(row_above(alloc, concepts, &having, a)?)?;
    }
    Ok(rows)
}

/// For each number below the width of the extents, the concepts whose extent has it.
fn concepts_with(alloc: Global, concepts: &[Concept]) -> Result<Vec<BitRow>, AllocError>
    requires few { length concepts.now < 4294967295 }
    requires widths { (i j : ℕ) → i < length concepts.now → j < length concepts.now → length (extent_of concepts.now i) ≡ length (extent_of concepts.now j) }
    ensures { IfOk result (λ v. AreConceptsWith concepts.now (length concepts.now) v.items) }
{
    let mut having = kaba_bits::empty_rows(alloc, extent_width(concepts), concepts.len() as u32)?;
    for b in 0..concepts.len() {
        add_concept(&mut having, extent_at(concepts, b), b as u32);
    }
    Ok(having)
}

/// The width of the extents; 0 where there is no concept.
fn extent_width(concepts: &[Concept]) -> usize
    ensures { result ≡ length (extent_of concepts.now 0) }
{
    if concepts.is_empty() {
        return 0;
    }
    extent_at(concepts, 0).width() as usize
}

/// Adds a number to the rows of a set's numbers.
fn add_concept(rows: &mut [BitRow], set: &BitRow, b: u32)
    requires count { length set.now ≡ length rows.old }
    requires widths { (i : ℕ) → i < length rows.old → b < length (row rows.old i) }
    ensures len { length rows.new ≡ length rows.old }
    ensures widths { (i : ℕ) → length (row rows.new i) ≡ length (row rows.old i) }
    ensures added { (i x : ℕ) → bit (row rows.new i) x ≡ (bit (row rows.old i) x || ((b == x) && bit set.now i)) }
{
    let _width = set.width();
    let mut at = 0;
    'scan: while let Some(i) = set.next(at) {
        set_at(rows, i as usize, b);
        at = i + 1;
    }
}

/// The concepts at or above one: those whose extent has each number of its own, which is not empty.
fn row_above(
    alloc: Global,
    concepts: &[Concept],
    having: &[BitRow],
    a: usize,
) -> Result<BitRow, AllocError>
    requires few { length concepts.now < 4294967295 }
    requires a { a < length concepts.now }
    requires having { AreConceptsWith concepts.now (length concepts.now) having.now }
    requires widths { (i j : ℕ) → i < length concepts.now → j < length concepts.now → length (extent_of concepts.now i) ≡ length (extent_of concepts.now j) }
    ensures width { IfOk result (λ r. length r ≡ length concepts.now) }
    ensures bits { IfOk result (λ r. (b : ℕ) → b < length concepts.now → bit r b ≡ is_above_concept concepts.now a b) }
{
    let own = extent_at(concepts, a).rising(alloc)?;
    if own.is_empty() {
        return BitRow::new(alloc, concepts.len() as u32);
    }
    let mut above = row_at(having, own[0] as usize).copy(alloc)?;
    for i in &own {
        above.and_into(row_at(having, *i as usize));
    }
    Ok(above)
}

/// The extent of a concept.
fn extent_at(concepts: &[Concept], k: usize) -> &BitRow
    requires { k < length concepts.now }
    ensures { result.now ≡ extent_of concepts.now k }
{
    &concepts[k].extent
}

/// Whether a set has some number.
fn is_filled(set: &BitRow) -> bool
    ensures { result ≡ is_filled set.now }
{
    !set.is_empty()
}

/// The node of each column: of the first concept that lists it.
fn column_places(
    alloc: Global,
    concepts: &[Concept],
    width: u32,
) -> Result<Vec<Option<NodeId>>, AllocError>
    requires few { length concepts.now < 4294967295 }
    ensures { IfOk result (λ v. v.items ≡ map (listed_column concepts.now) (range_with_len 0 width)) }
{
    let mut places = vec![in alloc; None; width as usize]?;
    for k in 0..concepts.len() {
        place_columns(
            &mut places,
            &concept_at(concepts, k).columns,
            NodeId(k as u32),
        );
    }
    Ok(places)
}

/// Places each column of a list that has no place yet.
fn place_columns(places: &mut [Option<NodeId>], columns: &[ColId], node: NodeId)
    ensures len { length places.new ≡ length places.old }
    ensures each { (c : ℕ) → c < length places.old → slice_index_or places.new c None ≡ or_else (slice_index_or places.old c None) (when (list_any (λ d. d.0 == c) columns.now) node) }
{
    for c in columns {
        place(places, c.0, node);
    }
}

/// Places a number that has no place yet; one past the end is passed over.
fn place(places: &mut [Option<NodeId>], i: u32, node: NodeId)
    ensures len { length places.new ≡ length places.old }
    ensures each { (c : ℕ) → c < length places.old → slice_index_or places.new c None ≡ or_else (slice_index_or places.old c None) (when (i == c) node) }
{
    let i = i as usize;
    if i < places.len() && places[i].is_none() {
        places[i] = Some(node);
    }
}

/// One concept.
fn concept_at(concepts: &[Concept], k: usize) -> &Concept
    requires { k < length concepts.now }
    ensures { slice_get concepts.now k ≡ Some result.now }
{
    &concepts[k]
}

/// The node of each row: of the first concept that lists it, or else the first node.
fn row_places(alloc: Global, concepts: &[Concept], count: u32) -> Result<Vec<NodeId>, AllocError>
    requires few { length concepts.now < 4294967295 }
    ensures { IfOk result (λ v. v.items ≡ map (row_node concepts.now) (range_with_len 0 count)) }
{
    let listed = listed_rows(alloc, concepts, count)?;
    let mut places = Vec::new(alloc);
    for place in &listed {
        places.push(place.unwrap_or(NodeId(0)))?;
    }
    Ok(places)
}

/// For each row the node of the first concept that lists it.
fn listed_rows(
    alloc: Global,
    concepts: &[Concept],
    count: u32,
) -> Result<Vec<Option<NodeId>>, AllocError>
    requires few { length concepts.now < 4294967295 }
    ensures { IfOk result (λ v. v.items ≡ map (listed_row concepts.now) (range_with_len 0 count)) }
{
    let mut places = vec![in alloc; None; count as usize]?;
    for k in 0..concepts.len() {
        place_rows(&mut places, &concept_at(concepts, k).rows, NodeId(k as u32));
    }
    Ok(places)
}

/// Places each row of a list that has no place yet.
fn place_rows(places: &mut [Option<NodeId>], rows: &[RowId], node: NodeId)
    ensures len { length places.new ≡ length places.old }
    ensures each { (r : ℕ) → r < length places.old → slice_index_or places.new r None ≡ or_else (slice_index_or places.old r None) (when (list_any (λ q. q.0 == r) rows.now) node) }
{
    for r in rows {
        place(places, r.0, node);
    }
}

/// The origin of each concept.
fn origins_of(
    alloc: Global,
    facts: &Facts,
    concepts: &[Concept],
) -> Result<Vec<Option<ClassId>>, AllocError>
    requires range { InRange facts.now }
    requires intents { (k : ℕ) → k < length concepts.now → length (intent_of concepts.now k) ≡ length facts.now.columns.items }
    ensures { IfOk result (λ v. v.items ≡ origins_of facts.now (map pair_of concepts.now)) }
{
    let mut origins = Vec::new(alloc);
    for k in 0..concepts.len() {
        origins.push(start_origin(alloc, facts, intent_at(concepts, k))?)?;
    }
    Ok(origins)
}

/// The intent of a concept.
fn intent_at(concepts: &[Concept], k: usize) -> &BitRow
    requires { k < length concepts.now }
    ensures { result.now ≡ intent_of concepts.now k }
{
    &concepts[k].intent
}

/// The origin of a concept: the lowest class of the columns of its intent, or else `Object`.
fn start_origin(
    alloc: Global,
    facts: &Facts,
    intent: &BitRow,
) -> Result<Option<ClassId>, AllocError>
    requires range { InRange facts.now }
    requires intent { length intent.now ≡ length facts.now.columns.items }
    ensures { IfOk result (λ o. o ≡ start_origin facts.now intent.now) }
{
    let owners = owners(alloc, facts, intent)?;
    let origin = match lowest(facts, &owners) {
        Some(class) => class,
        None => ClassId(0),
    };
    Ok(Some(origin))
}

/// The classes of the columns of a set; interfaces are passed over.
fn owners(alloc: Global, facts: &Facts, columns: &BitRow) -> Result<Vec<ClassId>, AllocError>
    requires range { InRange facts.now }
    requires columns { length columns.now ≡ length facts.now.columns.items }
    ensures list { IfOk result (λ v. v.items ≡ owners facts.now columns.now) }
    ensures classes { IfOk result (λ v. All (IsClass facts.now) v.items) }
{
    let numbers = columns.rising(alloc)?;
    let mut classes = Vec::new(alloc);
    for c in &numbers {
        let class = column_at(facts, ColId(*c)).class;
        if is_owner(facts, class) {
            classes.push(class)?;
        }
    }
    Ok(classes)
}

/// Whether a type is no interface.
fn is_owner(facts: &Facts, class: ClassId) -> bool
    requires { IsClass facts.now class }
    ensures { result ≡ not (is_interface facts.now class.0) }
{
    !class_at(facts, class).is_interface
}
