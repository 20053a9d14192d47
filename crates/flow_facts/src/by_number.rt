//! The fields, methods and slots of a program and the names of its classes, each by its number.

ghost use Rattle.std.specs.Prelude.{◌≡◌, [], slice_get};
ghost use Rattle.std.specs.Option.{option_map, option_map_or};
ghost use Rattle.std.specs.Str.{encode_utf8_all};
ghost use Rattle.java_core.specs.Programs.{field_seen, slot_seen};
ghost use Rattle.flow_rules.specs.Facts.{class_text, name_in};
ghost use Rattle.flow_rules.specs.declared.items.ColumnItem.TheVariants as column;
ghost use Rattle.flow_facts.specs.Words.{program_of, code_seen};

use java_core::{Code, Field, Program, Slot};
use kaba_base::Name;

/// The name of a class by its number.
pub fn class_name(program: &Program, class: u64) -> Option<&Name>
    ensures text { option_map_or (λ x. encode_utf8_all x.now) result [] ≡ class_text (program_of program.now) class }
    ensures name { option_map_or (λ x. x.now) result [] ≡ name_in (program_of program.now) (column.Is (record { 0 = class })) }
{
    let class = program.classes.get(class as usize)?;
    Some(&class.name)
}

/// A field by its number.
pub fn field_by_number(program: &Program, field: u64) -> Option<&Field>
    ensures value { option_map (λ k. field_seen k.now) result ≡ slice_get (program_of program.now).fields field }
{
    program.fields.get(field as usize)
}

/// What a method is, by its number.
pub fn method_by_number(program: &Program, method: u64) -> Option<Code<'_>>
    ensures value { option_map code_seen result ≡ slice_get (program_of program.now).methods method }
{
    let method = program.methods.get(method as usize)?;
    Some(method.code())
}

/// A slot by its number.
pub fn slot_by_number(program: &Program, slot: u64) -> Option<&Slot>
    ensures value { option_map (λ k. slot_seen k.now) result ≡ slice_get (program_of program.now).slots slot }
{
    program.slots.get(slot as usize)
}
