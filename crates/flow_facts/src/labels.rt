//! How rows and columns are printed.

ghost use Rattle.std.specs.Prelude.{◌≡◌, ℕ, ◌++◌, [], List, Option, Some, None, IfOk, OnOk, codes, string_bytes};
ghost use Rattle.std.specs.Option.{option_map_or};
ghost use Rattle.std.specs.Str.{chars};
ghost use Rattle.flow_rules.specs.Facts.{class_text, field_text, method_text, variable_name, variable_text, brackets, at_line, row_text, row_label, column_text, first_of};
ghost use Rattle.flow_facts.specs.Words.{program_of};

use crate::Tried;
use crate::by_number::{class_name, field_by_number, method_by_number, slot_by_number};
use crate::makers::shown_name;
use flow_rules::{ColumnItem, Row, RowItem, variable_at};
use java_core::Program;
use kaba_base::{Name, Place};
use std::alloc::Global;

/// The name of a parameter or local of a method.
fn variable_name(program: &Program, method: u64, i: u64) -> Option<&Name>
    ensures value { option_map_or (λ x. x.now) result [] ≡ variable_name (program_of program.now) method i }
{
    match method_by_number(program, method) {
        Some(method) => match variable_at(&method, i) {
            Some(variable) => Some(&variable.name),
            None => None,
        },
        None => None,
    }
}

/// Adds a text.
fn add_text(more: &str, text: &mut String) -> Tried<()>
    ensures value { OnOk result (string_bytes text.new ≡ string_bytes text.old ++ more.now) }
{
    text.push_str(more)
}

/// Adds the name of a class.
fn add_class(program: &Program, class: u64, text: &mut String) -> Tried<()>
    ensures value { OnOk result (string_bytes text.new ≡ string_bytes text.old ++ class_text (program_of program.now) class) }
{
    match class_name(program, class) {
        Some(name) => add_text(name.as_str(), text),
        None => Ok(()),
    }
}

/// Adds the name of a member with that of its class.
fn add_member(program: &Program, owner: u64, name: &str, text: &mut String) -> Tried<()>
    ensures value { OnOk result (string_bytes text.new ≡ string_bytes text.old ++ class_text (program_of program.now) owner ++ codes "." ++ name.now) }
{
    made!(add_class(program, owner, text));
    made!(add_text(".", text));
    add_text(name, text)
}

/// Adds the name of a field with that of its class.
fn add_field(program: &Program, field: u64, text: &mut String) -> Tried<()>
    ensures value { OnOk result (string_bytes text.new ≡ string_bytes text.old ++ field_text (program_of program.now) field) }
{
    match field_by_number(program, field) {
        Some(field) => add_member(program, field.owner.0 as u64, field.name.as_str(), text),
        None => Ok(()),
    }
}

/// Adds the name of a method with that of its class.
fn add_method(program: &Program, method: u64, text: &mut String) -> Tried<()>
    ensures value { OnOk result (string_bytes text.new ≡ string_bytes text.old ++ method_text (program_of program.now) method) }
{
    match method_by_number(program, method) {
        Some(method) => {
            let name = shown_name(method.name);
            add_member(program, method.owner.0 as u64, name, text)
        }
        None => Ok(()),
    }
}

/// Adds the name of a parameter or local with those of its method and its class.
fn add_variable(program: &Program, method: u64, i: u64, text: &mut String) -> Tried<()>
    ensures value { OnOk result (string_bytes text.new ≡ string_bytes text.old ++ variable_text (program_of program.now) method i) }
{
    made!(add_method(program, method, text));
    made!(add_text(".", text));
    match variable_name(program, method, i) {
        Some(name) => add_text(name.as_str(), text),
        None => Ok(()),
    }
}

/// The first method of a slot.
fn first_of(program: &Program, slot: u64) -> u64
    ensures value { result ≡ first_of (program_of program.now) slot }
{
    match slot_by_number(program, slot) {
        Some(slot) => slot.first.0 as u64,
        None => 0,
    }
}

/// Adds pairs of square brackets.
fn add_brackets(count: u32, text: &mut String) -> Tried<()>
    ensures value { OnOk result (string_bytes text.new ≡ string_bytes text.old ++ brackets count) }
{
    for i in 0..count {
        let _ = i;
        made!(add_text("[]", text));
    }
    Ok(())
}

/// Adds a line.
fn add_line(alloc: Global, place: Place, text: &mut String) -> Tried<()>
    ensures value { OnOk result (string_bytes text.new ≡ string_bytes text.old ++ at_line place) }
{
    made!(add_text("@", text));
    let line = format!(in alloc; "{}", place.line)?;
    add_text(line.as_str(), text)
}

/// Adds the name of a method with that of its class, and what follows.
fn add_of_method(program: &Program, method: u64, end: &str, text: &mut String) -> Tried<()>
    ensures value { OnOk result (string_bytes text.new ≡ string_bytes text.old ++ method_text (program_of program.now) method ++ end.now) }
{
    made!(add_method(program, method, text));
    add_text(end, text)
}

/// Adds a word and the name of a class.
fn add_of_class(program: &Program, word: &str, class: u64, text: &mut String) -> Tried<()>
    ensures value { OnOk result (string_bytes text.new ≡ string_bytes text.old ++ (word.now ++ class_text (program_of program.now) class)) }
{
    made!(add_text(word, text));
    add_class(program, class, text)
}

/// Adds the label of a cast or an `instanceof`, which begins with the word.
fn add_test(alloc: Global, program: &Program, word: &str, row: &Row, text: &mut String) -> Tried<()>
    ensures value { OnOk result (string_bytes text.new ≡ string_bytes text.old
        ++ (word.now ++ class_text (program_of program.now) row.now.ty.class.0 ++ at_line row.now.place)) }
{
    made!(add_of_class(program, word, row.ty.class.0 as u64, text));
    add_line(alloc, row.place, text)
}

/// Adds the label of a creation.
fn add_creation(alloc: Global, program: &Program, row: &Row, text: &mut String) -> Tried<()>
    ensures value { OnOk result (string_bytes text.new ≡ string_bytes text.old ++ (codes "new "
        ++ class_text (program_of program.now) row.now.ty.class.0 ++ brackets row.now.ty.dim ++ at_line row.now.place)) }
{
    made!(add_of_class(program, "new ", row.ty.class.0 as u64, text));
    made!(add_brackets(row.ty.dim, text));
    add_line(alloc, row.place, text)
}

/// Adds the label of a row.
fn add_row_text(alloc: Global, program: &Program, row: &Row, text: &mut String) -> Tried<()>
    ensures value { OnOk result (string_bytes text.new ≡ string_bytes text.old
        ++ row_text (program_of program.now) row.now.item
        (class_text (program_of program.now) row.now.ty.class.0) row.now.ty.dim row.now.place) }
{
    match row.item {
        RowItem::Field(field) => add_field(program, field, text),
        RowItem::This(method) => add_of_method(program, method, ".this", text),
        RowItem::Return(slot) => add_of_method(program, first_of(program, slot), ".return", text),
        RowItem::Param(slot, i) => add_variable(program, first_of(program, slot), i, text),
        RowItem::Result(method) => add_of_method(program, method, ".return", text),
        RowItem::Local(method, i) => add_variable(program, method, i, text),
        RowItem::New(_) => add_creation(alloc, program, row, text),
        RowItem::Cast(_) => add_test(alloc, program, "cast ", row, text),
        RowItem::Test(_) => add_test(alloc, program, "instanceof ", row, text),
    }
}

/// The label of a row.
pub fn row_label(alloc: Global, program: &Program, row: &Row) -> Tried<Name>
    ensures value { IfOk result (λ x. x ≡ row_label (program_of program.now) row.now) }
{
    let mut text = String::new(alloc);
    made!(add_row_text(alloc, program, row, &mut text));
    Name::new(alloc, text.as_str())
}

/// Adds the name of what a column is of.
fn add_column_item(program: &Program, item: ColumnItem, text: &mut String) -> Tried<()>
    ensures value { OnOk result (string_bytes text.new ++ codes ")" ≡ string_bytes text.old ++ column_text (program_of program.now) item) }
{
    match item {
        ColumnItem::Fld(field) => {
            made!(add_text("fld(", text));
            add_field(program, field, text)
        }
        ColumnItem::Dcl(method) => {
            made!(add_text("dcl(", text));
            add_method(program, method, text)
        }
        ColumnItem::Def(method) => {
            made!(add_text("def(", text));
            add_method(program, method, text)
        }
        ColumnItem::Is(class) => add_of_class(program, "is(", class.0 as u64, text),
    }
}

/// The label of a column.
pub fn column_label(alloc: Global, program: &Program, item: ColumnItem) -> Tried<Name>
    ensures value { IfOk result (λ x. x ≡ chars (column_text (program_of program.now) item)) }
{
    let mut text = String::new(alloc);
    made!(add_column_item(program, item, &mut text));
    made!(add_text(")", &mut text));
    Name::new(alloc, text.as_str())
}
