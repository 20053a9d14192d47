//! Which method of a name a class meets: where many have the name, they are passed over 64 at a time.
#![tactic(auto)]

ghost use Rattle.std.specs.Prelude.{◌≡◌, ℕ, ◌*◌, ◌<◌, ◌≤◌, true, false, Bool, List, length, map, slice_get, Some, IfOk, IsTrue};
ghost use Rattle.kaba_bits.specs.Sets.{bit};
ghost use Rattle.java_core.specs.Owned.{passes, first_among};
ghost use Rattle.name_laws.specs.Tables.{is_above};
ghost use Rattle.name_tables.specs.Spots.{AreSpots, spots_of};
ghost use Rattle.name_bodies.specs.Met.{is_met, IsBlock, AreBlocks, AreBlocksOf, PassesOver, begun_at};

use java_core::Hierarchy;
use kaba_bits::BitRow;
use name_laws::Heading;
use name_tables::Spots;
use std::alloc::{AllocError, Global};

/// How many methods are passed over at once.
const SPAN: usize = 64;

/// Lists of fewer methods are gone through one by one.
const MANY: usize = 128;

/// Whether a class or an ancestor declares the method of this number.
fn is_met(rows: &Hierarchy, headings: &Vec<Heading>, at: u32, class: u32) -> bool
    ensures { result ≡ is_met rows.now headings.now.items class at }
{
    match headings.get(at as usize) {
        Some(heading) => rows.is_above(class, heading.owner),
        None => false,
    }
}

/// Whether a class is in none of the block of a number.
fn is_passed_over(blocks: &[BitRow], number: usize, class: u32) -> bool
    ensures { IsTrue result → PassesOver blocks.now number class }
{
    match blocks.get(number) {
        Some(block) => class < block.width() && !block.has(class),
        None => false,
    }
}

/// The first of these methods that a class or an ancestor declares.
pub fn met_among(
    rows: &Hierarchy,
    headings: &Vec<Heading>,
    list: &[u32],
    blocks: &[BitRow],
    class: u32,
) -> Option<usize>
    requires { AreBlocks rows.now headings.now.items list.now blocks.now }
    ensures { result ≡ first_among (λ h. is_above rows.now class h.owner) headings.now.items list.now }
{
    let mut place = 0;
    'places: while place < list.len() {
        if place % SPAN == 0 && is_passed_over(blocks, place / SPAN, class) {
            place += SPAN;
        } else {
            if is_met(rows, headings, list[place], class) {
                return Some(list[place] as usize);
            }
            place += 1;
        }
    }
    None
}

/// Adds to a block the classes that meet the method at a place of a list.
fn note_at(
    rows: &Hierarchy,
    headings: &Vec<Heading>,
    list: &[u32],
    place: usize,
    block: &mut BitRow,
)
    requires { length block.old ≡ length rows.now }
    ensures wide { length block.new ≡ length rows.now }
    ensures kept { (c : ℕ) → bit block.old c ≡ true → bit block.new c ≡ true }
    ensures told { (j c : ℕ) → slice_get list.now place ≡ Some j → c < length rows.now → is_met rows.now headings.now.items c j ≡ true → bit block.new c ≡ true }
{
    if let Some(at) = list.get(place) {
        if let Some(heading) = headings.get(*at as usize) {
            rows.add_below(heading.owner, block);
        }
    }
}

/// The classes that meet one of 64 methods from a place of a list; `AllocError` where memory is short.
fn block_of(
    alloc: Global,
    rows: &Hierarchy,
    headings: &Vec<Heading>,
    list: &[u32],
    from: usize,
) -> Result<BitRow, AllocError>
    requires { from ≤ length list.now }
    ensures { IfOk result (λ r. IsBlock rows.now headings.now.items list.now from 64 r) }
{
    let mut block = rows.empty_row(alloc)?;
    for k in 0..SPAN {
        note_at(rows, headings, list, from + k, &mut block);
    }
    Ok(block)
}

/// The blocks of a list, none where it is short; `AllocError` where memory is short.
fn blocks_of(
    alloc: Global,
    rows: &Hierarchy,
    headings: &Vec<Heading>,
    list: &[u32],
) -> Result<Vec<BitRow>, AllocError>
    ensures { IfOk result (λ v. AreBlocks rows.now headings.now.items list.now v.items) }
{
    let mut blocks = Vec::new(alloc);
    if list.len() < MANY {
        return Ok(blocks);
    }
    for number in 0..list.len() / SPAN {
        blocks.push(block_of(alloc, rows, headings, list, number * SPAN)?)?;
    }
    Ok(blocks)
}

/// A list, if it begins with a number.
fn begun_at(list: &[u32], at: usize) -> &[u32]
    ensures { result.now ≡ begun_at list.now at }
{
    match list.get(0) {
        Some(first) if *first as usize == at => list,
        _ => &[],
    }
}

/// The blocks of the methods that have the name of one, if it is the first of them; `AllocError` where memory is short.
fn blocks_at(
    alloc: Global,
    rows: &Hierarchy,
    headings: &Vec<Heading>,
    spots: &Spots,
    at: usize,
) -> Result<Vec<BitRow>, AllocError>
    requires { AreSpots (map (λ h. h.name) headings.now.items) spots.now }
    ensures { IfOk result (λ v. (n : List ℕ) → slice_get (spots_of spots.now n) 0 ≡ Some at → AreBlocks rows.now headings.now.items (spots_of spots.now n) v.items) }
{
    match headings.get(at) {
        Some(heading) => blocks_of(alloc, rows, headings, begun_at(spots.at(&heading.name), at)),
        None => Ok(Vec::new(alloc)),
    }
}

/// For each method the blocks of its name, if it is the first of the name; `AllocError` where memory is short.
pub fn blocks_of_names(
    alloc: Global,
    rows: &Hierarchy,
    headings: &Vec<Heading>,
    spots: &Spots,
) -> Result<Vec<Vec<BitRow>>, AllocError>
    requires { AreSpots (map (λ h. h.name) headings.now.items) spots.now }
    ensures { IfOk result (λ v. AreBlocksOf rows.now headings.now.items spots.now v.items) }
{
    let mut all = Vec::new(alloc);
    for at in 0..headings.len() {
        all.push(blocks_at(alloc, rows, headings, spots, at)?)?;
    }
    Ok(all)
}

/// The blocks of the methods of a list.
pub fn blocks_under<'a>(all: &'a Vec<Vec<BitRow>>, list: &[u32]) -> &'a [BitRow]
    ensures { (rows : List (List Bool)) (headings : List Heading) (spots : Spots) (n : List ℕ) → AreBlocksOf rows headings spots all.now.items
        → list.now ≡ spots_of spots n → AreBlocks rows headings list.now result.now }
{
    match list.get(0) {
        Some(first) => match all.get(*first as usize) {
            Some(blocks) => blocks.as_slice(),
            None => &[],
        },
        None => &[],
    }
}
