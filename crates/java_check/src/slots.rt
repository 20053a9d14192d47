//! The rules of types for the slots of methods without a body, 64 slots at a time: how many of the first classes break none.

ghost use Rattle.std.specs.Prelude.{◌≡◌, ℕ, ◌+◌, ◌/◌, ◌<◌, ◌≤◌, true, length, map, IfOk, None};
ghost use Rattle.java_core.specs.Programs.{program_of};
ghost use Rattle.java_core.specs.Owned.{AreOwned};
ghost use Rattle.java_core.specs.Formed.{IsFormed};
ghost use Rattle.java_check.specs.ClassOutcome.{class_rule};
ghost use Rattle.java_check.specs.SlotOutcome.{batch_place, method_batch, AreMethodsListed, IsBatch, AreSlotsFound, are_apart, is_clear, IsFineFor, is_bare, has_bare};

use crate::by_number::method_by_number;
use crate::classes::is_interface;
use crate::expressions::is_concrete;
use crate::tables::{Asked, Batch, above_table, nearest_table, word_at};
use java_core::{Method, Program, listed_under, note_under};
use kaba_base::ClassId;
use std::alloc::{AllocError, Global};

/// What the classes have of 64 slots, a word for each class.
#[derive(Drop)]
pub struct Found {
    /// The slots of which the nearest declaration has no body, or none is there.
    pub bare: Vec<u64>,
    /// The slots of which the nearest declaration is not public.
    pub hidden: Vec<u64>,
    /// The slots for which a method without a body stands at or above the class.
    pub offered: Vec<u64>,
    /// The slots for which a method without a body stands in an interface at or above the class.
    pub faced: Vec<u64>,
}

/// The number under which a method is listed: that of its 64 slots; those without a slot come behind all slots.
fn batch_place(slots: usize, slot: Option<u32>) -> usize
    ensures { result ≡ batch_place slots slot }
{
    match slot {
        Some(slot) => (slot / 64) as usize,
        None => slots / 64 + 1,
    }
}

/// The methods of each 64 slots, in rising order; `AllocError` where memory is short.
fn methods_of_batches(
    alloc: Global,
    slots: usize,
    list: &[Method],
) -> Result<Vec<Vec<usize>>, AllocError>
    ensures { IfOk result (λ v. AreOwned (map (λ m. method_batch slots m) list.now) v.items) }
{
    let mut lists = Vec::new(alloc);
    for k in 0..list.len() {
        note_under(alloc, &mut lists, batch_place(slots, list[k].slot), k)?;
    }
    Ok(lists)
}

/// Whether a method is there and has no body.
fn is_bare(p: &Program, at: usize) -> bool
    ensures { result ≡ is_bare (program_of p.now) at }
{
    match method_by_number(p, at) {
        Some(method) => method.body.is_none(),
        None => false,
    }
}

/// Whether one of these methods has no body.
fn has_bare(p: &Program, list: &[usize]) -> bool
    ensures { result ≡ has_bare (program_of p.now) list.now }
{
    for at in list {
        if is_bare(p, *at) {
            return true;
        }
    }
    false
}

/// What the classes have of 64 slots; `AllocError` where memory is short.
fn found_for(batch: &Batch) -> Result<Found, AllocError>
    requires { IsBatch batch.now }
    ensures { IfOk result (λ found. AreSlotsFound (program_of batch.now.p.now) batch.now.number found) }
{
    Ok(Found {
        bare: nearest_table(batch, Asked::Bodied, Asked::Bare, false)?,
        hidden: nearest_table(batch, Asked::Public, Asked::Hidden, true)?,
        offered: above_table(batch, Asked::Bare)?,
        faced: above_table(batch, Asked::Faced)?,
    })
}

/// Whether no bit is set in both words.
fn are_apart(one: u64, other: u64) -> bool
    ensures { result ≡ are_apart one other }
{
    one & other == 0
}

/// Whether a class breaks no rule for the 64 slots.
fn is_clear(p: &Program, found: &Found, class: ClassId) -> bool
    ensures { result ≡ is_clear (program_of p.now) found.now class.0 }
{
    is_interface(p, class)
        || ((!is_concrete(p, class)
            || are_apart(word_at(&found.offered, class), word_at(&found.bare, class)))
            && are_apart(word_at(&found.faced, class), word_at(&found.hidden, class)))
}

/// How many of so many first classes break no rule for the 64 slots.
fn clear_until(p: &Program, found: &Found, until: usize) -> usize
    requires formed { IsFormed (program_of p.now) }
    requires few { until ≤ length p.now.classes.items }
    ensures within { result ≤ until }
    ensures clear { (c : ℕ) → c < result → is_clear (program_of p.now) found.now c ≡ true }
{
    for class in 0..until {
        if !is_clear(p, found, ClassId(class as u32)) {
            return class;
        }
    }
    until
}

/// How many of so many first classes break no rule for the methods without a body of 64 slots, which are among these.
fn fine_for(
    alloc: Global,
    p: &Program,
    order: &[u32],
    list: &[usize],
    batch: usize,
    until: usize,
) -> Result<usize, AllocError>
    requires formed { IsFormed (program_of p.now) }
    requires few { until ≤ length p.now.classes.items }
    requires listed { AreMethodsListed (program_of p.now) batch list.now }
    ensures within { IfOk result (λ n. n ≤ until) }
    ensures fine { IfOk result (λ n. (c : ℕ) → c < n → IsFineFor (program_of p.now) batch c) }
{
    if !has_bare(p, list) {
        return Ok(until);
    }
    let found = found_for(&Batch {
        alloc,
        p,
        order,
        list,
        number: batch,
    })?;
    Ok(clear_until(p, &found, until))
}

/// The same for each 64 of so many slots.
fn fine_for_all(
    alloc: Global,
    p: &Program,
    order: &[u32],
    lists: &Vec<Vec<usize>>,
) -> Result<usize, AllocError>
    requires formed { IsFormed (program_of p.now) }
    requires owned { AreOwned (map (λ m. method_batch (length p.now.slots.items) m) p.now.methods.items) lists.now.items }
    ensures { IfOk result (λ n. (b c : ℕ) → b < length p.now.slots.items / 64 + 1 → c < n → IsFineFor (program_of p.now) b c) }
{
    let mut until = p.classes.len();
    for batch in 0..p.slots.len() / 64 + 1 {
        let fine = fine_for(alloc, p, order, listed_under(lists, batch), batch, until)?;
        until = fine;
    }
    Ok(until)
}

/// How many of the first classes and interfaces break no rule as a whole; `AllocError` where memory is short.
pub(crate) fn fine_classes(alloc: Global, p: &Program) -> Result<usize, AllocError>
    requires { IsFormed (program_of p.now) }
    ensures { IfOk result (λ n. (c : ℕ) → c < n → class_rule (program_of p.now) c (program_of p.now).methods ≡ None) }
{
    let lists = methods_of_batches(alloc, p.slots.len(), &p.methods)?;
    let fine = fine_for_all(alloc, p, p.supertypes_first(), &lists)?;
    Ok(fine)
}
