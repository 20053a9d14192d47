//! The places of fields in the objects of their classes.

ghost use Rattle.std.specs.Prelude.{◌≡◌, ◌==◌, ℕ, position, slice_get, IfOk};
ghost use Rattle.std.specs.Option.{unwrap_or};
ghost use Rattle.run_compile.specs.Words.{program_of, place_of};
ghost use Rattle.java_meaning.specs.Languages as languages;

use crate::code::small;
use java_core::Program;
use kaba_base::ClassId;
use run_classes::layout;
use run_code::Tried;
use std::alloc::Global;

/// The fields of the objects of a class in their places.
#[derive(Drop)]
struct Layout {
    class: ClassId,
    fields: Vec<usize>,
}

/// The places of all fields by their numbers; a static field has none, and 0 stands for it.
pub fn places(alloc: Global, p: &Program) -> Tried<Vec<u32>>
    ensures { IfOk result (λ v. (f : ℕ) → unwrap_or (slice_get v.items f) 0 ≡ place_of (program_of p.now) f) }
{
    let mut places = Vec::new(alloc);
    let mut last = layout_of(alloc, p, ClassId(0))?;
    for (i, field) in p.fields.iter().enumerate() {
        last = next_layout(alloc, p, field.owner, last)?;
        places.push(place_in(&last, i)?)?;
    }
    Ok(places)
}

/// The layout of a class.
fn layout_of(alloc: Global, p: &Program, class: ClassId) -> Tried<Layout>
    ensures { IfOk result (λ l. (l.class ≡ class) × (l.fields.items ≡ languages.layout (program_of p.now) class.0)) }
{
    Ok(Layout {
        class,
        fields: layout(alloc, p, class)?,
    })
}

/// The layout of a class, which is the last one where that was of the same class.
fn next_layout(alloc: Global, p: &Program, class: ClassId, last: Layout) -> Tried<Layout>
    requires { last.fields.items ≡ languages.layout (program_of p.now) last.class.0 }
    ensures { IfOk result (λ l. (l.class ≡ class) × (l.fields.items ≡ languages.layout (program_of p.now) class.0)) }
{
    if last.class == class {
        Ok(last)
    } else {
        layout_of(alloc, p, class)
    }
}

/// Where a field stands in a layout.
fn position(layout: &Layout, field: usize) -> Option<usize>
    ensures { result ≡ position (λ g. g == field) layout.now.fields.items }
{
    layout.fields.iter().position(|f| *f == field)
}

/// The place of a field in a layout; 0 stands for none.
fn place_in(layout: &Layout, field: usize) -> Tried<u32>
    ensures { IfOk result (λ n. n ≡ unwrap_or (position (λ g. g == field) layout.now.fields.items) 0) }
{
    match position(layout, field) {
        Some(place) => small(place),
        None => Ok(0),
    }
}
