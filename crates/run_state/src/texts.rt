//! The words of a run, as its strings.

ghost use Rattle.std.specs.Prelude.{◌≡◌, ◌++◌, [], ◌∷◌, map, length, flat_map, string_bytes, IfOk, OnOk};
ghost use Rattle.std.specs.Str.{chars};
ghost use Rattle.std.specs.Char.Escape.{encode_utf16};
ghost use Rattle.java_heap.specs.Seen.{value_of};
ghost use Rattle.java_meaning.specs.Meaning.{texts, words_cell};
ghost use Rattle.run_state.specs.Words.{units_of};

use java_core::{Ty, TyBase};
use java_heap::{Heap, Value};
use std::alloc::{AllocError, Global};

/// Adds the one or two units of a character.
fn push_units(units: &mut Vec<u16>, c: char) -> Result<(), AllocError>
    ensures { OnOk result (units.new.items ≡ units.old.items ++ encode_utf16 c) }
{
    let mut pair = [0u16; 2];
    units.extend_from_slice(c.encode_utf16(&mut pair))
}

/// The UTF-16 units of a text.
fn units_in(alloc: Global, text: &str) -> Result<Vec<u16>, AllocError>
    ensures { IfOk result (λ u. u.items ≡ units_of text.now) }
{
    let mut units = Vec::with_capacity(alloc, text.len())?;
    for c in text.chars() {
        push_units(&mut units, c)?;
    }
    Ok(units)
}

/// The words become strings of the heap; the values that name them.
fn add_words(alloc: Global, heap: &mut Heap, words: &Vec<String>) -> Result<Vec<Value>, AllocError>
    requires { heap.old.strings ≡ [] }
    ensures strings { OnOk result (heap.new.strings ≡ map (λ w. units_of (string_bytes w)) words.now.items) }
    ensures cells { OnOk result (heap.new.cells ≡ heap.old.cells) }
    ensures values { IfOk result (λ v. map value_of v.items ≡ texts 0 (length words.now.items)) }
{
    let mut values = Vec::with_capacity(alloc, words.len())?;
    for word in words {
        let at = heap.string(units_in(alloc, word.as_str())?)?;
        values.push(Value::Str(at))?;
    }
    Ok(values)
}

/// The heap at the start: the words, and the array that holds them.
pub fn words_heap(alloc: Global, words: &Vec<String>) -> Result<Heap, AllocError>
    ensures strings { IfOk result (λ h. h.strings ≡ map (λ w. units_of (string_bytes w)) words.now.items) }
    ensures cells { IfOk result (λ h. h.cells ≡ words_cell (map (λ w. units_of (string_bytes w)) words.now.items) ∷ []) }
{
    let mut heap = Heap::new(alloc);
    let values = add_words(alloc, &mut heap, words)?;
    let ty = Ty {
        base: TyBase::Str,
        dim: 1,
    };
    heap.add_array(None, ty, values)?;
    Ok(heap)
}
