//! What the worklist keeps: the rows that wait, the groups of rows that do, and where a column was gone over.

ghost use Rattle.table_rules.specs.Words.{IsClosureInput};

use crate::Tried;
use crate::groups::{Groups, groups_of};
use crate::index::Index;
use crate::order::order_of_rows;
use crate::state::Given;
use fact_model::Facts;
use kaba_bits::{BitRow, empty_rows, row_at};
use points_to::{Queue, queue_of, wait};
use std::alloc::Global;

/// The rows that wait for their turns, the groups that do, by their numbers, and for each column the rows where it was gone over.
#[derive(Drop)]
pub struct Lists {
    alloc: Global,
    pub rows: Queue,
    pub groups: Groups,
    pub waiting: Queue,
    holders: Vec<BitRow>,
}

/// A row waits for its turn.
pub fn wake(lists: &mut Lists, r: usize) {
    wait(&mut lists.rows, r);
}

/// Notes that a row has a column, and answers whether that is new.
pub fn is_first(lists: &mut Lists, d: u32, r: usize) -> bool {
    if d as usize >= lists.holders.len() {
        return false;
    }
    let holders = &mut lists.holders[d as usize];
    if r >= holders.width() as usize {
        return false;
    }
    holders.set(r as u32)
}

/// The rows that were noted to have a column. An error comes only for want of memory.
pub fn holders_of(lists: &Lists, d: u32) -> Tried<Vec<u32>> {
    if d as usize >= lists.holders.len() {
        return Ok(Vec::new(lists.alloc));
    }
    row_at(&lists.holders, d as usize).rising(lists.alloc)
}

/// The numbers below a count, in their order. An error comes only for want of memory.
fn numbers_below(alloc: Global, count: usize) -> Tried<Vec<usize>> {
    let mut list = Vec::new(alloc);
    for n in 0..count {
        list.push(n)?;
    }
    Ok(list)
}

/// A queue of the rows, in which each waits. An error comes only for want of memory.
fn waiting_rows(alloc: Global, facts: &Facts, index: &Index, rows: &[BitRow]) -> Tried<Queue> {
    let count = facts.rows.len();
    let order = order_of_rows(alloc, facts, index, rows)?;
    let mut queue = queue_of(alloc, order, count)?;
    for r in 0..count {
        wait(&mut queue, r);
    }
    Ok(queue)
}

/// Each row waits. An error comes only for want of memory.
pub fn all_wait(alloc: Global, given: &Given, rows: &[BitRow]) -> Tried<Lists>
    requires { IsClosureInput given.now }
{
    let facts = given.facts;
    let count = facts.rows.len();
    let groups = groups_of(alloc, given.pt)?;
    let numbers = numbers_below(alloc, count)?;
    Ok(Lists {
        alloc,
        rows: waiting_rows(alloc, facts, given.index, rows)?,
        groups,
        waiting: queue_of(alloc, numbers, count)?,
        holders: empty_rows(alloc, facts.columns.len(), count as u32)?,
    })
}
