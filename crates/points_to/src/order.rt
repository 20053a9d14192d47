//! An order of numbers in which each comes after those that lead to it.

use crate::index::numbers_at;
use std::alloc::{AllocError, Global};

/// A number that a walk comes to, or leaves.
#[derive(Clone, Copy)]
struct Stop {
    number: usize,
    leaves: bool,
}

/// A walk against the ways: the numbers that it came to, what is ahead, and the numbers that it left.
#[derive(Drop)]
struct Walk {
    seen: Vec<bool>,
    ahead: Vec<Stop>,
    left: Vec<usize>,
}

/// A number is ahead, unless the walk came to it. An error comes only for want of memory.
fn come(walk: &mut Walk, number: usize) -> Result<(), AllocError> {
    if number < walk.seen.len() && !walk.seen[number] {
        walk.ahead.push(Stop {
            number,
            leaves: false,
        })?;
    }
    Ok(())
}

/// These numbers are ahead. An error comes only for want of memory.
fn come_to_each(walk: &mut Walk, list: &[usize]) -> Result<(), AllocError> {
    for number in list {
        come(walk, *number)?;
    }
    Ok(())
}

/// What leads to a number is ahead, and then the walk leaves the number. An error comes only for want of memory.
fn pass_by(before: &[Vec<usize>], walk: &mut Walk, number: usize) -> Result<(), AllocError> {
    if number >= walk.seen.len() || walk.seen[number] {
        return Ok(());
    }
    walk.seen[number] = true;
    walk.ahead.push(Stop {
        number,
        leaves: true,
    })?;
    come_to_each(walk, numbers_at(before, number))
}

/// One stop. An error comes only for want of memory.
fn step(before: &[Vec<usize>], walk: &mut Walk, stop: Stop) -> Result<(), AllocError> {
    if stop.leaves {
        walk.left.push(stop.number)?;
        return Ok(());
    }
    pass_by(before, walk, stop.number)
}

/// A walk from a number, unless one came to it. An error comes only for want of memory.
fn walk_from(before: &[Vec<usize>], walk: &mut Walk, number: usize) -> Result<(), AllocError> {
    come(walk, number)?;
    for _stop in 0..u64::MAX {
        match walk.ahead.pop() {
            Some(stop) => step(before, walk, stop)?,
            None => return Ok(()),
        }
    }
    Ok(())
}

/// A walk from each number that has this mark. An error comes only for want of memory.
fn walk_all(
    before: &[Vec<usize>],
    walk: &mut Walk,
    marks: &[bool],
    mark: bool,
) -> Result<(), AllocError> {
    for number in 0..marks.len() {
        if marks[number] == mark {
            walk_from(before, walk, number)?;
        }
    }
    Ok(())
}

/// The numbers below the length of `late`, each once: one comes after those in its list of `before`, where no way leads back. Those that are
/// late come last, but for those that lead to one that is not. An error comes only for want of memory.
pub fn order_of(
    alloc: Global,
    before: &[Vec<usize>],
    late: &[bool],
) -> Result<Vec<usize>, AllocError> {
    let mut walk = Walk {
        seen: vec![in alloc; false; late.len()]?,
        ahead: Vec::new(alloc),
        left: Vec::new(alloc),
    };
    walk_all(before, &mut walk, late, false)?;
    walk_all(before, &mut walk, late, true)?;
    let Walk { left, .. } = walk;
    Ok(left)
}
