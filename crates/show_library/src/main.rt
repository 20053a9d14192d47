//! What only a call of a library shows: with enough memory each call answers Ok, and a shelf and a sink in memory fail
//! at just the calls that they are told to. Each line has what was asked, and then what it gave.
#![tactic(auto)]

mod hierarchy;
mod layout;
mod orders;
mod outside;
mod readings;
mod sets;
mod sure;

use hierarchy::add_hierarchy;
use layout::add_again;
use orders::add_orders;
use outside::{add_reads, add_writes};
use readings::add_readings;
use sets::add_sets;
use std::alloc::{AllocError, Global};
use std::io::{self, Read};
use sure::add_sure;

fn main(rt: HostRuntime) -> io::Result<()> {
    let alloc = rt.alloc();
    let mut program = Vec::new(alloc);
    let mut input = rt.stdin();
    input.read_to_end(&mut program)?;
    match lines(alloc, &program) {
        Ok(text) => print!(rt; "{text}"),
        Err(_) => println!(rt; "no memory"),
    }
}

/// All lines.
fn lines(alloc: Global, program: &Vec<u8>) -> Result<String, AllocError> {
    let mut text = String::new(alloc);
    add_reads(alloc, &mut text)?;
    add_writes(alloc, &mut text)?;
    add_sets(alloc, &mut text)?;
    add_orders(alloc, &mut text)?;
    add_hierarchy(alloc, &mut text)?;
    add_sure(alloc, &mut text)?;
    add_readings(alloc, &mut text)?;
    add_again(alloc, &mut text, program)?;
    Ok(text)
}
