//! Places, names and origins after an edit.

ghost use Rattle.std.specs.Prelude.{◌≡◌, ℕ, ◌<◌, ◌==◌, ◌||◌, [], length, map, slice_index_or, IfOk, Some, None};
ghost use Rattle.std.specs.Option.{option_map, option_map_or};
ghost use Rattle.std.specs.List.{list_any, range_with_len};
ghost use Rattle.kaba_order.specs.Orders.{is_among};
ghost use Rattle.fact_model.specs.InRange.{InRange, IsCol};
ghost use Rattle.fact_model.specs.Items.{column_slot};
ghost use Rattle.hier_model.specs.Hierarchies.{Hierarchy, is_at};
ghost use Rattle.hier_model.specs.Edits.{merged_node, moved_row, renamed_member, is_column, is_one_slot, is_renamed, is_mark};

use crate::{column_at, this_of};
use fact_model::{ColKind, Facts};
use kaba_base::{ColId, Name, NodeId, RowId};
use std::alloc::{AllocError, Global};

/// Whether a node is one of a list.
fn is_among(set: &[NodeId], n: NodeId) -> bool
    ensures { result ≡ is_among set.now n.0 }
{
    set.iter().any(|s| n.0 == s.0)
}

/// Where what stands at a node stands when those of a list are one.
fn merged_node(set: &[NodeId], least: NodeId, n: NodeId) -> NodeId
    ensures { result ≡ merged_node set.now least.0 n }
{
    if is_among(set, n) { least } else { n }
}

/// The places of columns when the nodes of a list are one.
pub fn merged_columns(
    alloc: Global,
    columns: &[Option<NodeId>],
    set: &[NodeId],
    least: NodeId,
) -> Result<Vec<Option<NodeId>>, AllocError>
    ensures { IfOk result (λ v. v.items ≡ map (option_map (merged_node set.now least.0)) columns.now) }
{
    let mut merged = Vec::new(alloc);
    for place in columns {
        merged.push(merged_place(set, least, *place))?;
    }
    Ok(merged)
}

/// The place of one column then.
fn merged_place(set: &[NodeId], least: NodeId, place: Option<NodeId>) -> Option<NodeId>
    ensures { result ≡ option_map (merged_node set.now least.0) place }
{
    match place {
        Some(n) => Some(merged_node(set, least, n)),
        None => None,
    }
}

/// The places of rows then.
pub fn merged_rows(
    alloc: Global,
    rows: &[NodeId],
    set: &[NodeId],
    least: NodeId,
) -> Result<Vec<NodeId>, AllocError>
    ensures { IfOk result (λ v. v.items ≡ map (merged_node set.now least.0) rows.now) }
{
    let mut merged = Vec::new(alloc);
    for n in rows {
        merged.push(merged_node(set, least, *n))?;
    }
    Ok(merged)
}

/// Whether there is a column, and it is the one given.
fn is_column(c: ColId, d: Option<ColId>) -> bool
    ensures { result ≡ is_column c d }
{
    match d {
        Some(d) => d.0 == c.0,
        None => false,
    }
}

/// The places of rows when a column stands at another node: a body takes its `this` along.
pub fn moved_rows(
    alloc: Global,
    facts: &Facts,
    rows: &[NodeId],
    c: ColId,
    n: NodeId,
) -> Result<Vec<NodeId>, AllocError>
    requires range { InRange facts.now }
    requires rows { length rows.now ≡ length facts.now.rows.items }
    ensures { IfOk result (λ v. v.items ≡ map (moved_row facts.now rows.now c n) (range_with_len 0 (length rows.now))) }
{
    let mut moved = Vec::new(alloc);
    for r in 0..rows.len() {
        moved.push(moved_row(facts, rows, c, n, RowId(r as u32)))?;
    }
    Ok(moved)
}

/// The place of one row then.
fn moved_row(facts: &Facts, rows: &[NodeId], c: ColId, n: NodeId, r: RowId) -> NodeId
    requires facts { r.0 < length facts.now.rows.items }
    requires rows { r.0 < length rows.now }
    ensures { result ≡ moved_row facts.now rows.now c n r.0 }
{
    if is_column(c, this_of(facts, r)) {
        n
    } else {
        rows[r.0 as usize]
    }
}

/// Whether two slots are there and the same.
fn is_one_slot(a: Option<u32>, b: Option<u32>) -> bool
    ensures { result ≡ is_one_slot a b }
{
    match (a, b) {
        (Some(a), Some(b)) => a == b,
        _ => false,
    }
}

/// Whether a column is a member or of its slot.
fn is_renamed(facts: &Facts, c: ColId, d: ColId) -> bool
    requires c { IsCol facts.now c }
    requires d { IsCol facts.now d }
    ensures { result ≡ is_renamed facts.now c d.0 }
{
    d.0 == c.0 || is_one_slot(column_at(facts, c).slot, column_at(facts, d).slot)
}

/// The name of a column when a member has another.
fn renamed_member<'a>(
    facts: &Facts,
    members: &'a [Name],
    c: ColId,
    name: &'a Name,
    d: ColId,
) -> &'a Name
    requires c { IsCol facts.now c }
    requires d { IsCol facts.now d }
    requires members { d.0 < length members.now }
    ensures { result.now ≡ renamed_member facts.now members.now c name.now d.0 }
{
    if is_renamed(facts, c, d) {
        name
    } else {
        &members[d.0 as usize]
    }
}

/// The names of members when one has another, and with a method its whole slot.
pub fn renamed_members(
    alloc: Global,
    facts: &Facts,
    members: &[Name],
    c: ColId,
    name: &Name,
) -> Result<Vec<Name>, AllocError>
    requires range { InRange facts.now }
    requires column { IsCol facts.now c }
    requires members { length members.now ≡ length facts.now.columns.items }
    ensures { IfOk result (λ v. v.items ≡ map (renamed_member facts.now members.now c name.now) (range_with_len 0 (length members.now))) }
{
    let mut renamed = Vec::new(alloc);
    for d in 0..members.len() {
        let new = renamed_member(facts, members, c, name, ColId(d as u32));
        renamed.push(new.copy(alloc)?)?;
    }
    Ok(renamed)
}

/// The same names once more.
pub fn copy_names(alloc: Global, names: &[Name]) -> Result<Vec<Name>, AllocError>
    ensures { IfOk result (λ v. v.items ≡ names.now) }
{
    let mut copies = Vec::new(alloc);
    for name in names {
        copies.push(name.copy(alloc)?)?;
    }
    Ok(copies)
}

/// One name.
pub fn name_at(names: &[Name], k: usize) -> &Name
    requires { k < length names.now }
    ensures { result.now ≡ slice_index_or names.now k [] }
{
    &names[k]
}

/// Whether a kind is that of the mark of a type, which has no name.
pub fn is_mark(kind: ColKind) -> bool
    ensures { result ≡ is_mark kind }
{
    matches!(kind, ColKind::Is)
}

/// Whether a place is a node.
pub fn is_at(n: NodeId, place: Option<NodeId>) -> bool
    ensures { result ≡ is_at n.0 place }
{
    match place {
        Some(p) => p.0 == n.0,
        None => false,
    }
}

/// Whether some column stands at a node.
pub fn has_column(columns: &[Option<NodeId>], n: NodeId) -> bool
    ensures { result ≡ list_any (is_at n.0) columns.now }
{
    columns.iter().any(|place| is_at(n, *place))
}

/// Whether some row stands at a node.
pub fn has_row(rows: &[NodeId], n: NodeId) -> bool
    ensures { result ≡ list_any (λ p. p.0 == n.0) rows.now }
{
    rows.iter().any(|p| p.0 == n.0)
}
