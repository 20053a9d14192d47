//! What is known by numbers, in rows.

ghost use Rattle.std.specs.Prelude.{◌≡◌, IfOk};
ghost use Rattle.run_classes.specs.Known.{known, known_in, Learns, LearnsIn, LearnsNothing, IsIgnorant, IsEmpty};

use std::alloc::{AllocError, Global};

/// So many rows, in which nothing is known.
pub fn empty_rows<T: Drop>(alloc: Global, count: usize) -> Result<Vec<Vec<Option<T>>>, AllocError>
    ensures { IfOk result (λ rows. IsIgnorant rows.items) }
{
    let mut rows = Vec::new(alloc);
    for _at in 0..count {
        rows.push(Vec::new(alloc))?;
    }
    Ok(rows)
}

/// So many entries, in which nothing is known.
pub fn empty_entries<T: Drop>(alloc: Global, count: usize) -> Result<Vec<Option<T>>, AllocError>
    ensures { IfOk result (λ entries. IsEmpty entries.items) }
{
    let mut entries = Vec::new(alloc);
    for _at in 0..count {
        entries.push(None)?;
    }
    Ok(entries)
}

/// What is known of two numbers.
#[inline]
pub fn known_in<T: Copy>(rows: &[Vec<Option<T>>], row: usize, column: usize) -> Option<T>
    ensures { result ≡ known_in rows.now row column }
{
    match rows.get(row) {
        Some(entries) => known(entries, column),
        None => None,
    }
}

/// What is known of a number.
#[inline]
fn known<T: Copy>(entries: &[Option<T>], at: usize) -> Option<T>
    ensures { result ≡ known entries.now at }
{
    match entries.get(at) {
        Some(entry) => *entry,
        None => None,
    }
}

/// What two numbers have is kept, if they have a place; a row is made as wide as is said for its first.
pub fn keep_in<T: Copy>(
    rows: &mut Vec<Vec<Option<T>>>,
    width: usize,
    row: usize,
    column: usize,
    value: T,
) -> Result<(), AllocError>
    ensures { LearnsIn rows.old.items rows.new.items row column value }
{
    if row < rows.len() {
        keep_wide(&mut rows[row], width, column, value)
    } else {
        Ok(())
    }
}

/// What a number has is kept in a row, if it has a place; the row is made as wide as is said first.
fn keep_wide<T: Copy>(
    entries: &mut Vec<Option<T>>,
    width: usize,
    at: usize,
    value: T,
) -> Result<(), AllocError>
    ensures { Learns entries.old.items entries.new.items at value }
{
    if entries.is_empty() {
        widen(entries, width)?;
    }
    keep(entries, at, value);
    Ok(())
}

/// A row is made as wide as is said.
fn widen<T: Copy>(entries: &mut Vec<Option<T>>, width: usize) -> Result<(), AllocError>
    ensures { LearnsNothing entries.old.items entries.new.items }
{
    entries.resize(width, None)
}

/// What a number has is kept, if it has a place.
pub fn keep<T: Drop>(entries: &mut Vec<Option<T>>, at: usize, value: T)
    ensures { Learns entries.old.items entries.new.items at value }
{
    if at < entries.len() {
        entries[at] = Some(value);
    }
}
