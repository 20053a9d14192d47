//! Which item of the second program each item of the first may be one with, by a hash of its name and of its class's.
//! Nothing is promised: what is guessed is tested.
#![tactic(auto)]

use crate::names::class_by_number;
use java_core::{Program, listed_under, mixed_all, note_under};
use kaba_base::{ClassId, Name};
use std::alloc::{AllocError, Global};

/// What an item's hash begins with.
const START: u64 = 2166136261;

/// What is guessed of each item of a list of the first program, and the first item of the second's that may be alone.
#[derive(Drop)]
pub(crate) struct Guess {
    pub(crate) partners: Vec<usize>,
    pub(crate) alone: usize,
}

/// What is guessed of the types, the fields and the methods of two programs.
#[derive(Drop)]
pub(crate) struct Guesses {
    pub(crate) classes: Guess,
    pub(crate) fields: Guess,
    pub(crate) methods: Guess,
}

/// The hash of a name, carried on from another.
fn hash_of(before: u64, name: &Name) -> u64 {
    mixed_all(before % 4294967296, name.as_str().as_bytes())
}

/// The hash of the name of a class.
fn class_hash(p: &Program, class: ClassId) -> u64 {
    match class_by_number(p, class) {
        Some(class) => hash_of(START, &class.name),
        None => 0,
    }
}

/// The hashes of the types of a program.
fn class_hashes(alloc: Global, p: &Program) -> Result<Vec<u64>, AllocError> {
    let mut hashes = Vec::new(alloc);
    for class in &p.classes {
        hashes.push(hash_of(START, &class.name))?;
    }
    Ok(hashes)
}

/// The hashes of the fields of a program.
fn field_hashes(alloc: Global, p: &Program) -> Result<Vec<u64>, AllocError> {
    let mut hashes = Vec::new(alloc);
    for field in &p.fields {
        hashes.push(hash_of(class_hash(p, field.owner), &field.name))?;
    }
    Ok(hashes)
}

/// The hashes of the methods of a program.
fn method_hashes(alloc: Global, p: &Program) -> Result<Vec<u64>, AllocError> {
    let mut hashes = Vec::new(alloc);
    for method in &p.methods {
        hashes.push(hash_of(class_hash(p, method.owner), &method.name))?;
    }
    Ok(hashes)
}

/// The bucket of a hash, of so many.
fn bucket(hash: u64, many: usize) -> usize {
    if many == 0 {
        return 0;
    }
    (hash % many as u64) as usize
}

/// The numbers of items by the buckets of their hashes.
fn bucketed(alloc: Global, hashes: &[u64]) -> Result<Vec<Vec<usize>>, AllocError> {
    let mut lists = Vec::new(alloc);
    for at in 0..hashes.len() {
        note_under(alloc, &mut lists, bucket(hashes[at], hashes.len()), at)?;
    }
    Ok(lists)
}

/// The first of these numbers whose item has a hash, or a number of no item.
fn first_with(hashes: &[u64], list: &[usize], hash: u64) -> usize {
    for at in list {
        if let Some(other) = hashes.get(*at)
            && *other == hash
        {
            return *at;
        }
    }
    hashes.len()
}

/// For each hash the first item of the others that has it.
fn partners(alloc: Global, hashes: &[u64], others: &[u64]) -> Result<Vec<usize>, AllocError> {
    let lists = bucketed(alloc, others)?;
    let mut guesses = Vec::new(alloc);
    for hash in hashes {
        let list = listed_under(&lists, bucket(*hash, others.len()));
        guesses.push(first_with(others, list, *hash))?;
    }
    Ok(guesses)
}

/// The first of the items whose partner would be none of so many.
fn first_alone(partners: &[usize], many: usize) -> usize {
    for at in 0..partners.len() {
        if partners[at] >= many {
            return at;
        }
    }
    partners.len()
}

/// What is guessed from the hashes of two lists.
fn guessed(alloc: Global, hashes: &[u64], others: &[u64]) -> Result<Guess, AllocError> {
    let back = partners(alloc, others, hashes)?;
    let alone = first_alone(&back, hashes.len());
    let partners = partners(alloc, hashes, others)?;
    Ok(Guess { partners, alone })
}

/// What is guessed of the types of two programs.
fn of_classes(alloc: Global, p: &Program, q: &Program) -> Result<Guess, AllocError> {
    let hashes = class_hashes(alloc, p)?;
    let others = class_hashes(alloc, q)?;
    guessed(alloc, &hashes, &others)
}

/// What is guessed of the fields of two programs.
fn of_fields(alloc: Global, p: &Program, q: &Program) -> Result<Guess, AllocError> {
    let hashes = field_hashes(alloc, p)?;
    let others = field_hashes(alloc, q)?;
    guessed(alloc, &hashes, &others)
}

/// What is guessed of the methods of two programs.
fn of_methods(alloc: Global, p: &Program, q: &Program) -> Result<Guess, AllocError> {
    let hashes = method_hashes(alloc, p)?;
    let others = method_hashes(alloc, q)?;
    guessed(alloc, &hashes, &others)
}

/// The guesses for two programs; `AllocError` where memory is short.
pub(crate) fn guess_all(alloc: Global, p: &Program, q: &Program) -> Result<Guesses, AllocError> {
    let classes = of_classes(alloc, p, q)?;
    let fields = of_fields(alloc, p, q)?;
    let methods = of_methods(alloc, p, q)?;
    Ok(Guesses {
        classes,
        fields,
        methods,
    })
}
