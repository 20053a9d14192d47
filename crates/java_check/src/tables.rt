//! What the classes and interfaces have of 64 slots, a word for each: bit i is for the slot 64 b + i.

ghost use Rattle.std.specs.Prelude.{◌≡◌, ℕ, ◌+◌, ◌*◌, ◌<◌, ◌≤◌, ◌==◌, ◌&&◌, ◌||◌, true, not, length, cond, IfOk};
ghost use Rattle.std.specs.Bool.{OnTrue};
ghost use Rattle.std.specs.List.{list_any};
ghost use Rattle.java_core.specs.Programs.{program_of, method_seen, PlainMethod};
ghost use Rattle.java_core.specs.Classes as classes;
ghost use Rattle.java_core.specs.Classes.{is_slot};
ghost use Rattle.java_core.specs.Formed.{IsFormed};
ghost use Rattle.java_check.specs.SlotOutcome.{bit, is_within, has_faces, full, word_at, own_at, answers, says, IsBatch, parent_word, is_nearest_at, is_above_at, HasNearest, HasAbove};

use crate::by_number::method_by_number;
use crate::classes::is_interface;
use java_core::{Method, Program, faces_of, parent_of};
use kaba_base::ClassId;
use std::alloc::{AllocError, Global};

/// The 64 slots from 64 times `number` on, with a list of methods and an order of the classes. What is made stands in the
/// memory of `alloc`.
#[derive(Drop)]
pub(crate) struct Batch<'a> {
    pub alloc: Global,
    pub p: &'a Program,
    pub order: &'a [u32],
    pub list: &'a [usize],
    pub number: usize,
}

/// What is asked of a method.
#[derive(Clone, Copy)]
pub enum Asked {
    /// It has a body.
    Bodied,
    /// It has none.
    Bare,
    /// It is public.
    Public,
    /// It is not.
    Hidden,
    /// It has no body, and stands in an interface.
    Faced,
}

/// Whether a method is what is asked.
fn answers(p: &Program, asked: Asked, method: &Method) -> bool
    ensures { result ≡ answers (program_of p.now) asked (method_seen method.now) }
{
    match asked {
        Asked::Bodied => method.body.is_some(),
        Asked::Bare => method.body.is_none(),
        Asked::Public => method.is_public,
        Asked::Hidden => !method.is_public,
        Asked::Faced => is_interface(p, method.owner) && method.body.is_none(),
    }
}

/// The bit of a slot, where it is one of the 64.
fn slot_word(slot: Option<u32>, batch: usize) -> u64
    ensures { (i : ℕ) → i < 64 → bit result i ≡ is_slot slot (64 * batch + i) }
{
    match slot {
        Some(slot) if (slot / 64) as usize == batch => 1 << (slot % 64),
        _ => 0,
    }
}

/// Sets bits of a class.
fn set_bits(table: &mut [u64], class: usize, word: u64)
    ensures len { length table.new ≡ length table.old }
    ensures bits { (c i : ℕ) → c < length table.old → bit (own_at table.new c) i ≡ (bit (own_at table.old c) i || ((class == c) && bit word i)) }
{
    if class < table.len() {
        table[class] = table[class] | word;
    }
}

/// Sets the bit of the class and the slot of a method, where it is what is asked.
fn set_method(p: &Program, table: &mut [u64], batch: usize, asked: Asked, at: usize)
    ensures len { length table.new ≡ length table.old }
    ensures bits { (c i : ℕ) → c < length table.old → i < 64
        → bit (own_at table.new c) i ≡ (bit (own_at table.old c) i || says (program_of p.now) asked c (64 * batch + i) at) }
{
    match method_by_number(p, at) {
        Some(method) => {
            if answers(p, asked, method) {
                set_bits(
                    table,
                    method.owner.0 as usize,
                    slot_word(method.slot, batch),
                );
            }
        }
        None => {}
    }
}

/// Sets the bits of these methods.
fn set_methods(p: &Program, table: &mut [u64], batch: usize, asked: Asked, list: &[usize])
    ensures len { length table.new ≡ length table.old }
    ensures bits { (c i : ℕ) → c < length table.old → i < 64 → bit (own_at table.new c) i
        ≡ (bit (own_at table.old c) i || list_any (λ m. says (program_of p.now) asked c (64 * batch + i) m) list.now) }
{
    for at in list {
        set_method(p, table, batch, asked, *at);
    }
}

/// For each class the slots for which it declares itself what is asked; `AllocError` where memory is short.
fn own_table(batch: &Batch, asked: Asked) -> Result<Vec<u64>, AllocError>
    ensures len { IfOk result (λ t. length t.items ≡ length batch.now.p.now.classes.items) }
    ensures bits { IfOk result (λ t. (c i : ℕ) → c < length batch.now.p.now.classes.items → i < 64 → bit (own_at t.items c) i
        ≡ list_any (λ m. says (program_of batch.now.p.now) asked c (64 * batch.now.number + i) m) batch.now.list.now) }
{
    let mut table = vec![in batch.alloc; 0u64; batch.p.classes.len()]?;
    set_methods(batch.p, &mut table, batch.number, asked, batch.list);
    Ok(table)
}

/// Whether each bit of a word is set in another.
fn is_within(one: u64, other: u64) -> bool
    ensures { result ≡ is_within one other }
{
    one | other == other
}

/// The word of a class; all bits, where there is none.
pub(crate) fn word_at(table: &[u64], class: ClassId) -> u64
    ensures { result ≡ word_at table.now class.0 }
{
    match table.get(class.0 as usize) {
        Some(word) => *word,
        None => u64::MAX,
    }
}

/// The word of a class; no bit, where there is none.
fn own_at(table: &[u64], class: ClassId) -> u64
    ensures { result ≡ own_at table.now class.0 }
{
    match table.get(class.0 as usize) {
        Some(word) => *word,
        None => 0,
    }
}

/// The word of the superclass, or another where there is none.
fn parent_word(p: &Program, table: &[u64], none: u64, class: ClassId) -> u64
    ensures { result ≡ parent_word (program_of p.now) table.now none class.0 }
{
    match parent_of(p, class) {
        Some(parent) => word_at(table, parent),
        None => none,
    }
}

/// Sets the word of a class.
fn put(table: &mut [u64], class: usize, word: u64)
    ensures { length table.new ≡ length table.old }
{
    if class < table.len() {
        table[class] = word;
    }
}

/// Fills in the bits for what is nearest and not what is asked, in an order.
fn fill_nearest(
    p: &Program,
    order: &[u32],
    table: &mut [u64],
    having: &[u64],
    lacking: &[u64],
    none: u64,
)
    ensures { length table.new ≡ length table.old }
{
    for at in order {
        let class = ClassId(*at);
        let above = parent_word(p, table, none, class);
        put(
            table,
            *at as usize,
            own_at(lacking, class) | (above & !own_at(having, class)),
        );
    }
}

/// A table that is filled in so; `AllocError` where memory is short.
fn filled_nearest(
    alloc: Global,
    p: &Program,
    order: &[u32],
    having: &[u64],
    lacking: &[u64],
    none: u64,
) -> Result<Vec<u64>, AllocError>
    ensures { IfOk result (λ t. length t.items ≡ length p.now.classes.items) }
{
    let mut table = vec![in alloc; 0u64; p.classes.len()]?;
    fill_nearest(p, order, &mut table, having, lacking, none);
    Ok(table)
}

/// Whether the word of a class is right where that of its superclass is.
fn is_nearest_at(
    p: &Program,
    table: &[u64],
    having: &[u64],
    lacking: &[u64],
    none: u64,
    class: ClassId,
) -> bool
    ensures { result ≡ is_nearest_at (program_of p.now) table.now having.now lacking.now none class.0 }
{
    let word = word_at(table, class);
    is_within(own_at(lacking, class), word)
        && is_within(
            parent_word(p, table, none, class),
            word | own_at(having, class),
        )
}

/// Whether each word is.
fn is_nearest(p: &Program, table: &[u64], having: &[u64], lacking: &[u64], none: u64) -> bool
    requires formed { IsFormed (program_of p.now) }
    requires few { length table.now ≤ length p.now.classes.items }
    ensures { OnTrue result ((c : ℕ) → c < length table.now → is_nearest_at (program_of p.now) table.now having.now lacking.now none c ≡ true) }
{
    for class in 0..table.len() {
        if !is_nearest_at(p, table, having, lacking, none, ClassId(class as u32)) {
            return false;
        }
    }
    true
}

/// The word of a class without a superclass that declares nothing.
fn base_word(none: bool) -> u64
    ensures { result ≡ cond none 0 full }
{
    if none { 0 } else { u64::MAX }
}

/// For each class the slots of which the nearest declaration is not what is asked; the same is said of none where there is none.
pub(crate) fn nearest_table(
    batch: &Batch,
    asked: Asked,
    other: Asked,
    none: bool,
) -> Result<Vec<u64>, AllocError>
    requires other { (k : PlainMethod) → answers (program_of batch.now.p.now) other k ≡ not (answers (program_of batch.now.p.now) asked k) }
    requires batch { IsBatch batch.now }
    ensures { IfOk result (λ t. HasNearest (program_of batch.now.p.now) asked none batch.now.number t.items) }
{
    let having = own_table(batch, asked)?;
    let lacking = own_table(batch, other)?;
    let base = base_word(none);
    let table = filled_nearest(batch.alloc, batch.p, batch.order, &having, &lacking, base)?;
    if is_nearest(batch.p, &table, &having, &lacking, base) {
        return Ok(table);
    }
    Ok(Vec::new(batch.alloc))
}

/// The bits of a class and of what these interfaces have.
fn with_faces(table: &[u64], faces: &[ClassId], word: u64) -> u64 {
    let mut all = word;
    for face in faces {
        all = all | word_at(table, *face);
    }
    all
}

/// Fills in the bits for what stands at or above each class, in an order.
fn fill_above(p: &Program, order: &[u32], table: &mut [u64], own: &[u64])
    ensures { length table.new ≡ length table.old }
{
    for at in order {
        let class = ClassId(*at);
        let word = own_at(own, class) | parent_word(p, table, 0, class);
        let word = with_faces(table, faces_of(p, class), word);
        put(table, *at as usize, word);
    }
}

/// A table that is filled in so; `AllocError` where memory is short.
fn filled_above(
    alloc: Global,
    p: &Program,
    order: &[u32],
    own: &[u64],
) -> Result<Vec<u64>, AllocError>
    ensures { IfOk result (λ t. length t.items ≡ length p.now.classes.items) }
{
    let mut table = vec![in alloc; 0u64; p.classes.len()]?;
    fill_above(p, order, &mut table, own);
    Ok(table)
}

/// Whether a word has the bits of these interfaces.
fn has_faces(table: &[u64], faces: &[ClassId], word: u64) -> bool
    ensures { result ≡ has_faces table.now word faces.now }
{
    for face in faces {
        if !is_within(word_at(table, *face), word) {
            return false;
        }
    }
    true
}

/// Whether the word of a class is right where those of its supertypes are.
fn is_above_at(p: &Program, table: &[u64], own: &[u64], class: ClassId) -> bool
    ensures { result ≡ is_above_at (program_of p.now) table.now own.now class.0 }
{
    let word = word_at(table, class);
    is_within(own_at(own, class), word)
        && (is_within(parent_word(p, table, 0, class), word)
            && has_faces(table, faces_of(p, class), word))
}

/// Whether each word is.
fn is_above(p: &Program, table: &[u64], own: &[u64]) -> bool
    requires formed { IsFormed (program_of p.now) }
    requires few { length table.now ≤ length p.now.classes.items }
    ensures { OnTrue result ((c : ℕ) → c < length table.now → is_above_at (program_of p.now) table.now own.now c ≡ true) }
{
    for class in 0..table.len() {
        if !is_above_at(p, table, own, ClassId(class as u32)) {
            return false;
        }
    }
    true
}

/// For each class the slots for which a method that is what is asked stands at or above it; `AllocError` where memory is short.
pub(crate) fn above_table(batch: &Batch, asked: Asked) -> Result<Vec<u64>, AllocError>
    requires { IsBatch batch.now }
    ensures { IfOk result (λ t. HasAbove (program_of batch.now.p.now) asked batch.now.number t.items) }
{
    let own = own_table(batch, asked)?;
    let table = filled_above(batch.alloc, batch.p, batch.order, &own)?;
    if is_above(batch.p, &table, &own) {
        return Ok(table);
    }
    Ok(Vec::new(batch.alloc))
}
