//! Rows that have the same sites in their sets, put together, so that what they have is passed on to these sites at once.

ghost use Rattle.std.specs.Prelude.{◌≡◌, ◌<◌, length};
ghost use Rattle.std.specs.Bool.{OnTrue};
ghost use Rattle.kaba_bits.specs.Sets.{row};

use crate::Tried;
use fact_model::PointsTo;
use kaba_bits::{BitRow, row_at};
use points_to::{empty, is_same_set, note, numbers_at};
use std::alloc::Global;

/// The group of each row, and the rows of each group, which is named by the first of them.
#[derive(Drop)]
pub struct Groups {
    group_of: Vec<usize>,
    members: Vec<Vec<usize>>,
}

/// Whether both rows are there and are one set.
pub fn are_alike(rows: &[BitRow], a: usize, b: usize) -> bool
    ensures first { OnTrue result (a < length rows.now) }
    ensures second { OnTrue result (b < length rows.now) }
    ensures same { OnTrue result (row rows.now a ≡ row rows.now b) }
{
    if a >= rows.len() || b >= rows.len() {
        return false;
    }
    let first = row_at(rows, a);
    let second = row_at(rows, b);
    if first.width() != second.width() {
        return false;
    }
    is_same_set(first, second)
}

/// A sum of the numbers in a set, which differs where most sets do.
fn sum_of(set: &BitRow) -> usize {
    let mut sum = 0u32;
    let mut at = 0u32;
    for _number in 0..set.width() {
        match set.next(at) {
            Some(o) => {
                sum = sum.wrapping_mul(2654435761).wrapping_add(o);
                at = o.saturating_add(1);
            }
            None => return sum as usize,
        }
    }
    sum as usize
}

/// The first of these rows that has the same set.
fn find(rows: &[BitRow], list: &[usize], v: usize) -> Option<usize> {
    for g in list {
        if are_alike(rows, *g, v) {
            return Some(*g);
        }
    }
    None
}

/// The group of a row, where one was found before. The groups found so far are listed by the sums of their sets. An error comes only for want of
/// memory.
fn found_group(rows: &[BitRow], sums: &mut [Vec<usize>], v: usize) -> Tried<usize> {
    if v >= rows.len() || sums.len() == 0 {
        return Ok(v);
    }
    let at = sum_of(row_at(rows, v)) % sums.len();
    match find(rows, numbers_at(sums, at), v) {
        Some(g) => Ok(g),
        None => {
            note(sums, at, v)?;
            Ok(v)
        }
    }
}

/// The groups of the rows. An error comes only for want of memory.
pub fn groups_of(alloc: Global, pt: &PointsTo) -> Tried<Groups> {
    let count = pt.rows.len();
    let mut sums = empty(alloc, count)?;
    let mut members = empty(alloc, count)?;
    let mut group_of = Vec::new(alloc);
    for v in 0..count {
        let group = found_group(&pt.rows, &mut sums, v)?;
        note(&mut members, group, v)?;
        group_of.push(group)?;
    }
    Ok(Groups { group_of, members })
}

/// The group of a row.
pub fn group_of(groups: &Groups, v: usize) -> usize {
    if v < groups.group_of.len() {
        groups.group_of[v]
    } else {
        v
    }
}

/// The rows of a group.
pub fn members_of(groups: &Groups, group: usize) -> &[usize] {
    numbers_at(&groups.members, group)
}
