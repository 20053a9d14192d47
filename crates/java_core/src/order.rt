//! An order of the classes and interfaces in which each comes behind those that it names as its supertypes. Nothing is promised of it:
//! what is filled in by it is tested.

use crate::Tried;
use crate::direct::listed;
use std::alloc::Global;

/// What a walk through the types below others does next.
#[derive(Clone, Copy)]
struct Visit {
    at: u32,
    /// Whether it has been to all that is below the type; else it comes to the type.
    leaves: bool,
}

/// How many turns the walk takes at most: each type is left once, and entered once for each supertype that it names and once more.
fn turns(lists: &[Vec<u32>]) -> usize {
    let mut turns: usize = 0;
    for list in lists {
        turns = turns.saturating_add(list.len()).saturating_add(2);
    }
    turns
}

/// The walk comes to each of so many types.
fn all_types(alloc: Global, count: u32) -> Tried<Vec<Visit>> {
    let mut next = Vec::new(alloc);
    for k in 0..count {
        next.push(Visit {
            at: count - 1 - k,
            leaves: false,
        })?;
    }
    Ok(next)
}

/// Whether the walk comes to a type for the first time.
fn is_new(seen: &mut [bool], at: u32) -> bool {
    if at as usize >= seen.len() || seen[at as usize] {
        return false;
    }
    seen[at as usize] = true;
    true
}

/// The walk comes to a type, then to those directly below it, and then leaves it.
fn enter(next: &mut Vec<Visit>, at: u32, below: &[u32]) -> Tried<()> {
    next.push(Visit { at, leaves: true })?;
    for other in below {
        next.push(Visit {
            at: *other,
            leaves: false,
        })?;
    }
    Ok(())
}

/// One turn of the walk.
fn turn(
    lists: &[Vec<u32>],
    seen: &mut [bool],
    next: &mut Vec<Visit>,
    order: &mut Vec<u32>,
    visit: Visit,
) -> Tried<()> {
    if visit.leaves {
        order.push(visit.at)?;
        return Ok(());
    }
    if is_new(seen, visit.at) {
        return enter(next, visit.at, listed(lists, visit.at));
    }
    Ok(())
}

/// Each of so many types behind its supertypes, of which these lists have those directly below; `AllocError` where memory is short.
/// The types are left by a walk in depth, each after those below it that are not above it too, and then all are turned round.
pub fn order_of(alloc: Global, lists: &[Vec<u32>], count: u32) -> Tried<Vec<u32>> {
    let mut seen = vec![in alloc; false; count as usize]?;
    let mut next = all_types(alloc, count)?;
    let mut order = Vec::new(alloc);
    for _turn in 0..turns(lists) {
        if let Some(visit) = next.pop() {
            turn(lists, seen.as_mut_slice(), &mut next, &mut order, visit)?;
        }
    }
    order.reverse();
    Ok(order)
}
