//! How long the points-to sets of 2,000 points, 500 sites and 5,000 flows take. It prints how many sites are in points
//! and then in rows, all told; the flows are drawn by a plain generator of numbers.
#![tactic(auto)]

mod drawn;

use drawn::facts;
use kaba_bits::BitRow;
use points_to::solve;
use std::alloc::{AllocError, Global};
use std::io;

fn main(rt: HostRuntime) -> io::Result<()> {
    match counts(rt.alloc()) {
        Ok((points, rows)) => println!(rt; "points {points} rows {rows}"),
        Err(_) => println!(rt; "no memory"),
    }
}

/// How many sites are in points and in rows, all told.
fn counts(alloc: Global) -> Result<(u64, u64), AllocError> {
    let facts = facts(alloc)?;
    let sets = solve(alloc, &facts)?;
    Ok((total(&sets.points), total(&sets.rows)))
}

/// How many numbers are in sets, all told.
fn total(sets: &[BitRow]) -> u64 {
    let mut sum = 0u64;
    for set in sets {
        sum = sum.saturating_add(u64::from(set.count()));
    }
    sum
}
