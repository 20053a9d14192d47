//! The order in which rows have their turns: each after those that pass on to it, where no way leads back.

use crate::Tried;
use crate::index::Index;
use fact_model::Facts;
use kaba_bits::{BitRow, row_at};
use points_to::{empty, note, numbers_at, order_of};
use std::alloc::Global;

/// Which rows are those of sites. An error comes only for want of memory.
fn site_rows(alloc: Global, facts: &Facts) -> Tried<Vec<bool>> {
    let mut marks = vec![in alloc; false; facts.rows.len()]?;
    for site in &facts.sites {
        let row = site.row.0 as usize;
        if row < marks.len() {
            marks[row] = true;
        }
    }
    Ok(marks)
}

/// The upper row of each tie, by the lower. An error comes only for want of memory.
fn note_ties(facts: &Facts, before: &mut [Vec<usize>]) -> Tried<()> {
    for tie in &facts.ties {
        note(before, tie.lower.0 as usize, tie.upper.0 as usize)?;
    }
    Ok(())
}

/// These rows, by the row that they pass on to. An error comes only for want of memory.
fn note_each(before: &mut [Vec<usize>], row: usize, list: &[usize]) -> Tried<()> {
    for other in list {
        note(before, row, *other)?;
    }
    Ok(())
}

/// The `this` of each body that a row has, by the row. An error comes only for want of memory.
fn note_bodies(
    alloc: Global,
    index: &Index,
    before: &mut [Vec<usize>],
    row: usize,
    columns: &BitRow,
) -> Tried<()> {
    let list = columns.rising(alloc)?;
    for d in &list {
        note_each(before, row, numbers_at(&index.these, *d as usize))?;
    }
    Ok(())
}

/// The rows that pass on to each row; to those of sites by ties alone, since they come last. An error comes only for want of memory.
fn before_of(
    alloc: Global,
    facts: &Facts,
    index: &Index,
    rows: &[BitRow],
    sites: &[bool],
) -> Tried<Vec<Vec<usize>>> {
    let mut before = empty(alloc, facts.rows.len())?;
    note_ties(facts, &mut before)?;
    for row in 0..rows.len() {
        if row < sites.len() && !sites[row] {
            note_bodies(alloc, index, &mut before, row, row_at(rows, row))?;
        }
    }
    Ok(before)
}

/// The rows in the order of their turns. What variables pass on comes before the rows of sites, which pass on to few. An error comes only for want
/// of memory.
pub fn order_of_rows(
    alloc: Global,
    facts: &Facts,
    index: &Index,
    rows: &[BitRow],
) -> Tried<Vec<usize>> {
    let sites = site_rows(alloc, facts)?;
    let before = before_of(alloc, facts, index, rows, &sites)?;
    order_of(alloc, &before, &sites)
}
