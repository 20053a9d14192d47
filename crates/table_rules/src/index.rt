//! Lists by column and by row, each made once.

ghost use Rattle.std.specs.Prelude.{◌≡◌, ℕ, ◌<◌, ◌+◌, length, IfOk, OnOk};
ghost use Rattle.points_to.specs.Listed.{KeepNumbers};
ghost use Rattle.table_rules.specs.Asked.{place_of, IsPlain};
ghost use Rattle.table_rules.specs.Words.{InRange, AreHidden, HaveMethods, IsHidingIndex};

use crate::Tried;
use crate::columns::{is_method, slot_of};
use fact_model::Facts;
use kaba_bits::{BitRow, row_at};
use points_to::{empty, note};
use std::alloc::Global;

/// The rows that are the `this` of a body, by its column, the ties by their upper row, the columns that each hides, and
/// those that hide none.
#[derive(Drop)]
pub struct Index {
    pub these: Vec<Vec<usize>>,
    pub ties: Vec<Vec<usize>>,
    pub hidden: Vec<BitRow>,
    pub plain: BitRow,
}

/// Where the columns of a slot are listed, of so many lists.
pub fn place_of(count: usize, slot: Option<u32>) -> usize
    requires { 0 < count }
    ensures { result ≡ place_of count slot }
{
    match slot {
        Some(x) => x as usize % count,
        None => 0,
    }
}

/// One column, where it is that of a method. An error comes only for want of memory.
fn note_method(facts: &Facts, lists: &mut [Vec<usize>], c: u32) -> Tried<()>
    requires column { c < length facts.now.columns.items }
    requires count { length lists.old ≡ length facts.now.columns.items }
    requires before { HaveMethods facts.now lists.old c }
    ensures count { OnOk result (length lists.new ≡ length facts.now.columns.items) }
    ensures here { OnOk result (HaveMethods facts.now lists.new (c + 1)) }
{
    if !is_method(facts, c) {
        return Ok(());
    }
    let at = place_of(lists.len(), slot_of(facts, c));
    note(lists, at, c as usize)?;
    Ok(())
}

/// Each column that is that of a method. An error comes only for want of memory.
fn note_methods(facts: &Facts, lists: &mut [Vec<usize>]) -> Tried<()>
    requires facts { InRange facts.now }
    requires count { length lists.old ≡ length facts.now.columns.items }
    ensures { OnOk result (HaveMethods facts.now lists.new (length facts.now.columns.items)) }
{
    for c in 0..facts.columns.len() as u32 {
        note_method(facts, lists, c)?;
    }
    Ok(())
}

/// The columns of methods by their slot. An error comes only for want of memory.
pub fn methods_of(alloc: Global, facts: &Facts) -> Tried<Vec<Vec<usize>>>
    requires { InRange facts.now }
    ensures count { IfOk result (λ v. length v.items ≡ length facts.now.columns.items) }
    ensures methods { IfOk result (λ v. HaveMethods facts.now v.items (length facts.now.columns.items)) }
{
    let mut lists = empty(alloc, facts.columns.len())?;
    note_methods(facts, &mut lists)?;
    Ok(lists)
}

/// The rows that are a `this`, by their body. An error comes only for want of memory.
fn these_of(alloc: Global, facts: &Facts) -> Tried<Vec<Vec<usize>>> {
    let mut lists = empty(alloc, facts.columns.len())?;
    for v in 0..facts.rows.len() {
        if let Some(d) = facts.rows[v].this_of {
            note(&mut lists, d.0 as usize, v)?;
        }
    }
    Ok(lists)
}

/// The ties by their upper row. An error comes only for want of memory.
fn ties_of(alloc: Global, facts: &Facts) -> Tried<Vec<Vec<usize>>> {
    let mut lists = empty(alloc, facts.rows.len())?;
    for i in 0..facts.ties.len() {
        note(&mut lists, facts.ties[i].upper.0 as usize, i)?;
    }
    Ok(lists)
}

/// One column, where it hides none.
fn note_plain(facts: &Facts, hidden: &[BitRow], plain: &mut BitRow, d: u32)
    requires hidden { AreHidden facts.now hidden.now }
    requires plain { IsPlain facts.now plain.old }
    requires column { d < length facts.now.columns.items }
    ensures { IsPlain facts.now plain.new }
{
    if row_at(hidden, d as usize).is_empty() {
        plain.set(d);
    }
}

/// The columns that hide none. An error comes only for want of memory.
fn plain_of(alloc: Global, facts: &Facts, hidden: &[BitRow]) -> Tried<BitRow>
    requires facts { InRange facts.now }
    requires hidden { AreHidden facts.now hidden.now }
    ensures { IfOk result (λ x. IsPlain facts.now x) }
{
    let width = facts.columns.len() as u32;
    let mut plain = BitRow::new(alloc, width)?;
    for d in 0..width {
        note_plain(facts, hidden, &mut plain, d);
    }
    Ok(plain)
}

/// The index of the facts. An error comes only for want of memory.
pub fn index_of(alloc: Global, facts: &Facts, hidden: Vec<BitRow>) -> Tried<Index>
    requires facts { InRange facts.now }
    requires hidden { AreHidden facts.now hidden.items }
    ensures { IfOk result (λ x. IsHidingIndex facts.now x) }
{
    let these = these_of(alloc, facts)?;
    let ties = ties_of(alloc, facts)?;
    let plain = plain_of(alloc, facts, &hidden)?;
    Ok(Index {
        these,
        ties,
        hidden,
        plain,
    })
}
