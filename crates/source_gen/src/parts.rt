//! What is written of, and fields, methods and slots of a program by their numbers.

ghost use Rattle.std.specs.Prelude.{◌≡◌, slice_get};
ghost use Rattle.source_gen.specs.Words.{option_map, program_of, field_seen, code_seen, slot_seen};

use fact_model::Facts;
use java_core::{Code, Field, Program, Slot};
use kaba_bits::BitRow;
use write_forms::Source;

/// What the types of the nodes are written of: the facts of the hierarchy besides, and which nodes of that are classes.
#[derive(Clone, Copy)]
pub struct Nodes<'a> {
    pub source: Source<'a>,
    pub facts: &'a Facts,
    pub classes: &'a BitRow,
}

/// A field by its number.
pub fn field_at(program: &Program, f: u64) -> Option<&Field>
    ensures { option_map (λ k. field_seen k.now) result ≡ slice_get (program_of program.now).fields f }
{
    program.fields.get(f as usize)
}

/// A method's body with its heading, by the method's number.
pub fn code_at(program: &Program, m: u64) -> Option<Code<'_>>
    ensures { option_map code_seen result ≡ slice_get (program_of program.now).methods m }
{
    let method = program.methods.get(m as usize)?;
    Some(method.code())
}

/// A slot by its number.
pub fn slot_at(program: &Program, x: u32) -> Option<&Slot>
    ensures { option_map (λ s. slot_seen s.now) result ≡ slice_get (program_of program.now).slots x }
{
    program.slots.get(x as usize)
}
