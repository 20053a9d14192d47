//! The fields of objects in their places.

ghost use Rattle.std.specs.Prelude.{◌≡◌, ◌++◌, ℕ, ◌∷◌, length, map, IfOk, OnOk};
ghost use Rattle.java_core.specs.Programs.{program_of};
ghost use Rattle.java_heap.specs.Seen.{value_of};
ghost use Rattle.java_meaning.specs.Languages.{layout, own_fields, fresh_of, default_at};
ghost use Rattle.run_classes.specs.Lines.{line_in, is_instance};

use java_core::{Program, declared_fields, parent_of};
use java_heap::{Value, default_of};
use kaba_base::ClassId;
use std::alloc::{AllocError, Global};

/// The fields of a class's objects in their places, those of its superclass first. Nothing recurs, however long the way upwards is. An error comes only for
/// want of memory.
pub fn layout(alloc: Global, p: &Program, class: ClassId) -> Result<Vec<usize>, AllocError>
    ensures { IfOk result (λ v. v.items ≡ layout (program_of p.now) class.0) }
{
    let line = line(alloc, p, class)?;
    let mut fields = Vec::new(alloc);
    for i in (0..line.len()).rev() {
        own_fields(p, line[i], &mut fields)?;
    }
    Ok(fields)
}

/// How many classes and interfaces there are.
fn class_count(p: &Program) -> usize
    ensures { result ≡ length (program_of p.now).classes }
{
    p.classes.len()
}

/// A class and its superclasses, itself first. An error comes only for want of memory.
fn line(alloc: Global, p: &Program, class: ClassId) -> Result<Vec<ClassId>, AllocError>
    ensures { IfOk result (λ v. v.items ≡ line_in (program_of p.now) (length (program_of p.now).classes) class) }
{
    let mut line = Vec::new(alloc);
    let mut at = class;
    for _step in 0..class_count(p) {
        line.push(at)?;
        match parent_of(p, at) {
            Some(parent) => at = parent,
            None => return Ok(line),
        }
    }
    line.push(at)?;
    Ok(line)
}

/// The instance fields that a class itself declares are added. An error comes only for want of memory.
fn own_fields(p: &Program, class: ClassId, fields: &mut Vec<usize>) -> Result<(), AllocError>
    ensures { OnOk result (fields.new.items ≡ fields.old.items ++ own_fields (program_of p.now) class.0) }
{
    for at in declared_fields(p, class) {
        if is_instance(p, *at) {
            fields.push(*at)?;
        }
    }
    Ok(())
}

/// Whether the field of a number is no static one.
fn is_instance(p: &Program, at: usize) -> bool
    ensures { result ≡ is_instance p.now.fields.items at }
{
    match p.fields.get(at) {
        Some(field) => !field.is_static,
        None => false,
    }
}

/// The values of a new object of a class.
pub fn fresh(alloc: Global, p: &Program, class: ClassId) -> Result<Vec<Value>, AllocError>
    ensures { IfOk result (λ v. map value_of v.items ≡ fresh_of (program_of p.now) class.0) }
{
    let fields = layout(alloc, p, class)?;
    let mut values = Vec::with_capacity(alloc, fields.len())?;
    for field in &fields {
        values.push(default_at(p, *field))?;
    }
    Ok(values)
}

/// The value that a field begins with.
fn default_at(p: &Program, field: usize) -> Value
    ensures { value_of result ≡ default_at (program_of p.now) field }
{
    match p.fields.get(field) {
        Some(field) => default_of(field.ty),
        None => Value::Null,
    }
}
