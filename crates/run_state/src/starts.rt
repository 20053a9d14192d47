//! The machine before a run.

ghost use Rattle.std.specs.Prelude.{◌≡◌, map, string_bytes, IfOk};
ghost use Rattle.run_state.specs.Shared.{program_of, value_of, config_of, Object};
ghost use Rattle.java_meaning.specs.Values.{default_of};
ghost use Rattle.run_code.specs.Machine.{first_config};
ghost use Rattle.run_code.specs.Seen.{entry_of};
ghost use Rattle.run_state.specs.Words.{units_of};

use crate::machine::{Ending, Machine};
use crate::slots::Slots;
use crate::stack::Stack;
use crate::texts::words_heap;
use java_core::Program;
use java_heap::{Value, default_of};
use run_classes::Classes;
use run_code::Entry;
use std::alloc::{AllocError, Global};

/// The static fields at the start.
fn statics(alloc: Global, p: &Program) -> Result<Vec<Value>, AllocError>
    ensures { IfOk result (λ v. map value_of v.items ≡ map (λ f. default_of f.ty) p.now.fields.items) }
{
    let mut values = Vec::with_capacity(alloc, p.fields.len())?;
    for field in &p.fields {
        values.push(default_of(field.ty))?;
    }
    Ok(values)
}

/// The slots of the method that a run begins with, before its words are there.
fn first_slots(alloc: Global) -> Result<Slots, AllocError>
    ensures { IfOk result (λ s. s ≡ Nothing ∷ Object 0 ∷ []) }
{
    let mut slots = Slots::new(alloc);
    slots.put(0, Value::Null)?;
    slots.put(1, Value::Ref(0))?;
    Ok(slots)
}

ghost use Rattle.std.specs.Prelude.{◌∷◌, []};
ghost use Rattle.java_meaning.specs.Moment.{Nothing};

/// The machine before a run of a program on words, with so many steps.
pub fn start<'a>(
    alloc: Global,
    p: &Program,
    classes: Classes<'a>,
    entry: &Entry,
    words: &Vec<String>,
    bound: u32,
) -> Result<Machine<'a>, AllocError>
    ensures config { IfOk result (λ m. config_of m ≡ first_config (program_of p.now) (entry_of entry.now)
        (map (λ w. units_of (string_bytes w)) words.now.items) bound) }
    ensures same { IfOk result (λ m. m.classes ≡ classes.entry) }
{
    let mut slots = first_slots(alloc)?;
    slots.fit(1, &entry.ints)?;
    slots.put_all(2, &entry.rest)?;
    Ok(Machine {
        alloc,
        pc: entry.pc as usize,
        base: 0,
        slots,
        backs: Stack::new(alloc),
        heap: words_heap(alloc, words)?,
        statics: statics(alloc, p)?,
        out: Vec::new(alloc),
        left: bound,
        ending: Ending::Done,
        classes,
    })
}
