//! The values of objects and arrays.

ghost use Rattle.std.specs.Prelude.{◌≡◌, length, slice_get, IsTrue, IsFalse};
ghost use Rattle.std.specs.Option.{option_and_then};
ghost use Rattle.java_core.specs.declared.Fault.TheVariants as fault;
ghost use Rattle.run_state.specs.Shared.{value_of, Number, State, Outcome, with_some, or_fault, stop, Faulted, int_of, natural_of, number_of, set_value, at_heap, FindsOnHeap, KeepsMeaning};
ghost use Rattle.java_meaning.specs.Meaning.{with_cell};

use crate::counts::{int_of, natural};
use crate::machine::{Found, Kept};
use java_core::Fault;
use java_heap::{Heap, Value};

/// The value in a place of an object.
#[inline(always)]
pub fn loaded(heap: &Heap, object: Value, place: u32) -> Found
    ensures { FindsOnHeap heap.now result (λ s k. with_cell (value_of object) s (λ a d. with_some (slice_get d.values place) s (λ u. k u s))) }
{
    match object {
        Value::Ref(at) => match heap.value(at, place) {
            Some(value) => Found::Value(value),
            None => Found::Stuck,
        },
        Value::Null => Found::Fault(Fault::Null),
        _ => Found::Stuck,
    }
}

/// The length of an array.
#[inline(always)]
pub fn length_of(heap: &Heap, array: Value) -> Found
    ensures { FindsOnHeap heap.now result (λ s k. with_cell (value_of array) s (λ a d. k (Number (int_of (length d.values))) s)) }
{
    match array {
        Value::Ref(at) => {
            if heap.cells() <= at as usize {
                Found::Stuck
            } else {
                Found::Value(Value::Int(int_of(heap.len(at))))
            }
        }
        Value::Null => Found::Fault(Fault::Null),
        _ => Found::Stuck,
    }
}

/// The element of an array at an index.
#[inline(always)]
pub fn element(heap: &Heap, array: Value, index: Value) -> Found
    ensures { FindsOnHeap heap.now result (λ s k. with_some (number_of (value_of index)) s
        (λ n. with_cell (value_of array) s (λ a d. or_fault fault.Bounds (option_and_then (λ m. slice_get d.values m) (natural_of n)) s (λ u. k u s)))) }
{
    match index.number() {
        None => Found::Stuck,
        Some(index) => match array {
            Value::Ref(at) => element_at(heap, at, index),
            Value::Null => Found::Fault(Fault::Null),
            _ => Found::Stuck,
        },
    }
}

/// The value of a cell at an index.
#[inline(always)]
fn element_at(heap: &Heap, at: u32, index: i32) -> Found
    ensures { FindsOnHeap heap.now result (λ s k. with_some (slice_get s.cells at) s
        (λ d. or_fault fault.Bounds (option_and_then (λ m. slice_get d.values m) (natural_of index)) s (λ u. k u s))) }
{
    match natural(index) {
        None => out_of_bounds(heap, at),
        Some(place) => match heap.value(at, place) {
            Some(value) => Found::Value(value),
            None => out_of_bounds(heap, at),
        },
    }
}

/// A place that a cell does not have.
fn out_of_bounds(heap: &Heap, at: u32) -> Found
    ensures { FindsOnHeap heap.now result (λ s k. with_some (slice_get s.cells at) s (λ d. stop (Faulted fault.Bounds) s)) }
{
    if heap.cells() <= at as usize {
        Found::Stuck
    } else {
        Found::Fault(Fault::Bounds)
    }
}

/// A value is put into a place of an object.
#[inline(always)]
pub fn saved(heap: &mut Heap, object: Value, place: u32, value: Value) -> Kept
    ensures { KeepsMeaning heap.old heap.new result (λ s k. with_cell (value_of object) s
        (λ a d. with_some (slice_get d.values place) s (λ old. k (set_value a d place (value_of value) s)))) }
{
    match object {
        Value::Ref(at) => put(heap, at, place, value),
        Value::Null => Kept::Fault(Fault::Null),
        _ => Kept::Stuck,
    }
}

/// A value is put into a cell, where the place is there.
#[inline(always)]
pub fn put(heap: &mut Heap, at: u32, place: u32, value: Value) -> Kept
    ensures { KeepsMeaning heap.old heap.new result (λ s k. with_some (slice_get s.cells at) s
        (λ d. with_some (slice_get d.values place) s (λ old. k (set_value at d place (value_of value) s)))) }
{
    match heap.value(at, place) {
        None => Kept::Stuck,
        Some(_) => {
            heap.set(at, place, value);
            Kept::Done
        }
    }
}

/// A value is put into a cell, if the place is there: whether it is.
#[inline(always)]
pub fn save_there(heap: &mut Heap, at: u32, place: u32, value: Value) -> bool
    ensures done { IsTrue result → (s : State) (k : State → Outcome) → with_some (slice_get heap.old.cells at) (at_heap heap.old s)
        (λ d. with_some (slice_get d.values place) (at_heap heap.old s) (λ old. k (set_value at d place (value_of value) (at_heap heap.old s))))
        ≡ k (at_heap heap.new s) }
    ensures same { IsFalse result → heap.new ≡ heap.old }
{
    match heap.value(at, place) {
        None => false,
        Some(_) => {
            heap.set(at, place, value);
            true
        }
    }
}
