//! What waits for its turn: numbers, in an order that is given once.

use crate::found::Found;
use crate::index::{empty, note};
use crate::order::order_of;
use fact_model::Facts;
use kaba_bits::BitRow;
use std::alloc::{AllocError, Global};

/// The numbers in the order of their turns, the turn of each, the turns that wait, and the one to go on from.
#[derive(Drop)]
pub struct Queue {
    order: Vec<usize>,
    turns: Vec<u32>,
    waiting: BitRow,
    at: u32,
}

/// A queue in which nothing waits, of numbers below a count. A number that is not in the order never waits. An error comes only for want of
/// memory.
pub fn queue_of(alloc: Global, order: Vec<usize>, count: usize) -> Result<Queue, AllocError> {
    let mut turns = vec![in alloc; u32::MAX; count]?;
    let mut turn = 0u32;
    for n in &order {
        if *n < turns.len() {
            turns[*n] = turn;
        }
        turn = turn.saturating_add(1);
    }
    Ok(Queue {
        order,
        turns,
        waiting: BitRow::new(alloc, turn)?,
        at: 0,
    })
}

/// A number waits for its turn.
pub fn wait(queue: &mut Queue, n: usize) {
    if n < queue.turns.len() && queue.turns[n] < queue.waiting.width() {
        queue.waiting.set(queue.turns[n]);
    }
}

/// The next turn that waits, the first again after the last.
fn next_turn(queue: &Queue) -> Option<u32> {
    match queue.waiting.next(queue.at) {
        Some(turn) => Some(turn),
        None => queue.waiting.next(0),
    }
}

/// Takes out the number whose turn it is.
pub fn take(queue: &mut Queue) -> Option<usize> {
    let turn = next_turn(queue)?;
    if turn >= queue.waiting.width() || turn as usize >= queue.order.len() {
        return None;
    }
    queue.waiting.remove(turn);
    queue.at = turn;
    Some(queue.order[turn as usize])
}

/// Where the inclusions into each set begin. An error comes only for want of memory.
fn sources_of(alloc: Global, found: &Found, count: usize) -> Result<Vec<Vec<usize>>, AllocError> {
    let mut sources = empty(alloc, count)?;
    for k in 0..found.edges.len() {
        let edge = found.edges[k];
        note(&mut sources, edge.to, edge.from)?;
    }
    Ok(sources)
}

/// A queue of the points and cells: each has its turn after those that are included in it, where no way leads back. An error comes only for
/// want of memory.
pub fn queue_of_sets(alloc: Global, facts: &Facts, found: &Found) -> Result<Queue, AllocError> {
    let count = facts.points.len().saturating_add(facts.cells.len());
    let sources = sources_of(alloc, found, count)?;
    let marks = vec![in alloc; false; count]?;
    let order = order_of(alloc, &sources, &marks)?;
    queue_of(alloc, order, count)
}
