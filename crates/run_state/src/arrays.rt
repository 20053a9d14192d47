//! New cells, and writes into arrays.

ghost use Rattle.std.specs.Prelude.{◌≡◌, ◌^◌, ◌<◌, slice_get, Some, IfOk, IsTrue, IsFalse};
ghost use Rattle.java_core.specs.Types.{element_in};
ghost use Rattle.java_core.specs.declared.Ty.{Ty};
ghost use Rattle.java_core.specs.declared.Fault.TheVariants as fault;
ghost use Rattle.run_state.specs.Shared.{program_of, value_of, State, Outcome, Object, step, with_some, or_fault, on_bool, stop, Faulted, set_value, language_of, nothing, state_of, at_heap, KeepsMeaning, to_slot, Turns};
ghost use Rattle.java_core.specs.Programs.{Plain};
ghost use Rattle.java_meaning.specs.Moment as moment;
ghost use Rattle.java_meaning.specs.Moment.{Cell, an_array};
ghost use Rattle.java_meaning.specs.Values.{convert, defaults};
ghost use Rattle.java_meaning.specs.Meaning.{make_cell, new_object, make_array, on_fitting, place_in, write_element};
ghost use Rattle.run_code.specs.Machine.{nowhere, steps};
ghost use Rattle.run_state.specs.Run.{plain_of};

use crate::casts::is_of;
use crate::cells::put;
use crate::counts::natural;
use crate::machine::{Ending, Kept, Machine, Turn, keep};
use java_core::{Fault, Ty, element_in};
use java_heap::{CellKind, Heap, Value, convert};
use kaba_base::SiteId;
use run_classes::Classes;
use run_code::{Destination, Tried};

/// A step, a second one where so it is said, and a new object.
pub fn make<'a>(
    m: &mut Machine<'a>,
    to: Destination,
    twice: bool,
    number: u32,
    class: u32,
) -> Tried<Turn>
    requires { m.old.pc < 2 ^ 63 }
    ensures { Turns (λ go. steps twice (state_of m.old) (λ s. new_object (language_of (plain_of m.old)) nowhere.body nothing number class s
        (to_slot m.old to go))) m.old result m.new }
{
    if m.left == 0 {
        return stop!(m, Ending::Unfinished);
    }
    m.left -= 1;
    if twice {
        add_later(m, to, number, class)
    } else {
        add_object(m, to, number, class)
    }
}

/// A step, and a new object.
fn add_later<'a>(m: &mut Machine<'a>, to: Destination, number: u32, class: u32) -> Tried<Turn>
    requires { m.old.pc < 2 ^ 63 }
    ensures { Turns (λ go. step (state_of m.old) (λ s. new_object (language_of (plain_of m.old)) nowhere.body nothing number class s
        (to_slot m.old to go))) m.old result m.new }
{
    if m.left == 0 {
        return stop!(m, Ending::Unfinished);
    }
    m.left -= 1;
    add_object(m, to, number, class)
}

/// A new object.
#[inline(always)]
fn add_object<'a>(m: &mut Machine<'a>, to: Destination, number: u32, class: u32) -> Tried<Turn>
    requires { m.old.pc < 2 ^ 63 }
    ensures { Turns (λ go. new_object (language_of (plain_of m.old)) nowhere.body nothing number class (state_of m.old) (to_slot m.old to go))
        m.old result m.new }
{
    let at = m.classes.make(&mut m.heap, SiteId(number), class)?;
    keep(m, to, Value::Ref(at))
}

/// A new array.
pub fn new_array<'a>(
    m: &mut Machine<'a>,
    to: Destination,
    number: u32,
    ty: Ty,
    size: i32,
) -> Tried<Turn>
    requires { m.old.pc < 2 ^ 63 }
    ensures { Turns (λ go. make_array (language_of (plain_of m.old)) nowhere nothing number ty size (state_of m.old)
        (to_slot m.old to go)) m.old result m.new }
{
    match element_in(ty) {
        None => stop!(m, Ending::Stuck),
        Some(_) => match natural(size) {
            None => stop!(m, Ending::Faulty(Fault::NegativeSize)),
            Some(count) => add_array(m, to, number, ty, count),
        },
    }
}

/// A step, and a new array of so many elements.
fn add_array<'a>(
    m: &mut Machine<'a>,
    to: Destination,
    number: u32,
    ty: Ty,
    count: u32,
) -> Tried<Turn>
    requires low { m.old.pc < 2 ^ 63 }
    requires array { 0 < ty.dim }
    ensures { (u : Ty) → element_in ty.base ty.dim ≡ Some u → Turns
        (λ go. step (state_of m.old) (λ s. make_cell (language_of (plain_of m.old)) nowhere.body nothing
        (record { site = Some number; kind = an_array ty; values = defaults u count }) s (to_slot m.old to go))) m.old result m.new }
{
    if m.left == 0 {
        return stop!(m, Ending::Unfinished);
    }
    m.left -= 1;
    let at = m.heap.array(Some(SiteId(number)), ty, count as usize)?;
    keep(m, to, Value::Ref(at))
}

/// An element is set, where the array is one: null, bounds and the store's type are tested in this order.
#[inline(always)]
pub fn write_element<'a>(
    classes: &mut Classes<'a>,
    heap: &mut Heap,
    array: Value,
    index: i32,
    value: Value,
) -> Tried<Kept>
    ensures same { classes.new ≡ classes.old }
    ensures kept { IfOk result (λ r. KeepsMeaning heap.old heap.new r
        (λ s k. write_element (language_of (program_of classes.old)) (value_of array) index (value_of value) s k)) }
{
    match array {
        Value::Ref(at) => match heap.find(at) {
            Some(CellKind::Array(ty)) => match element_in(ty) {
                None => Ok(Kept::Stuck),
                Some(element) => write_at(classes, heap, at, index, element, value),
            },
            Some(CellKind::Object(_)) => Ok(Kept::Stuck),
            None => Ok(Kept::Stuck),
        },
        Value::Null => Ok(Kept::Fault(Fault::Null)),
        _ => Ok(Kept::Stuck),
    }
}

/// An element of an array in a cell is set, where the place is in it.
#[inline(always)]
fn write_at<'a>(
    classes: &mut Classes<'a>,
    heap: &mut Heap,
    at: u32,
    index: i32,
    element: Ty,
    value: Value,
) -> Tried<Kept>
    ensures same { classes.new ≡ classes.old }
    ensures kept { IfOk result (λ r. (c : Cell) → slice_get heap.old.cells at ≡ Some c
        → KeepsMeaning heap.old heap.new r (λ s k. or_fault fault.Bounds (place_in c index) s
        (λ n. on_fitting (language_of (program_of classes.old)) (value_of value) element s
        (λ s1. k (set_value at c n (convert element (value_of value)) s1))))) }
{
    match natural(index) {
        None => Ok(Kept::Fault(Fault::Bounds)),
        Some(place) => match heap.value(at, place) {
            None => Ok(Kept::Fault(Fault::Bounds)),
            Some(_) => store(classes, heap, at, place, element, value),
        },
    }
}

/// A value is put into a place of an array with elements of a type, where it fits, as a number and a `boolean` always do.
#[inline(never)]
fn store<'a>(
    classes: &mut Classes<'a>,
    heap: &mut Heap,
    at: u32,
    place: u32,
    element: Ty,
    value: Value,
) -> Tried<Kept>
    ensures same { classes.new ≡ classes.old }
    ensures kept { IfOk result (λ r. (c : Cell) (u : moment.Value) → slice_get heap.old.cells at ≡ Some c → slice_get c.values place ≡ Some u
        → KeepsMeaning heap.old heap.new r (λ s k. on_fitting (language_of (program_of classes.old)) (value_of value) element s
        (λ s1. k (set_value at c place (convert element (value_of value)) s1)))) }
{
    match value {
        Value::Int(number) => Ok(put(heap, at, place, Value::Int(number))),
        Value::Bool(truth) => Ok(put(heap, at, place, Value::Bool(truth))),
        _ => match fits(classes, heap, element, value)? {
            None => Ok(Kept::Stuck),
            Some(passes) => {
                if passes {
                    Ok(put(heap, at, place, convert(element, value)))
                } else {
                    Ok(Kept::Fault(Fault::ArrayStore))
                }
            }
        },
    }
}

/// Whether a value fits into an array with elements of a type; `None` where it names no cell.
#[inline(always)]
fn fits<'a>(
    classes: &mut Classes<'a>,
    heap: &Heap,
    element: Ty,
    value: Value,
) -> Tried<Option<bool>>
    ensures same { classes.new ≡ classes.old }
    ensures fits { IfOk result (λ r. (s : State) (go : State → Outcome)
        → on_fitting (language_of (program_of classes.old)) (value_of value) element (at_heap heap.now s) go
        ≡ with_some r (at_heap heap.now s) (λ b. on_bool b (at_heap heap.now s) go (stop (Faulted fault.ArrayStore)))) }
{
    match value {
        Value::Ref(stored) => is_of(classes, heap, stored, element),
        _ => Ok(Some(true)),
    }
}

/// A value that fits anywhere, as a number and a `boolean` do, is put into a place of an array, if it is there: whether it is.
#[inline(always)]
pub fn write_there(heap: &mut Heap, at: u32, index: i32, value: Value) -> bool
    requires fits { (P : Plain) (t : Ty) (s : State) (go : State → Outcome) → on_fitting (language_of P) (value_of value) t s go ≡ go s }
    requires held { (t : Ty) → convert t (value_of value) ≡ value_of value }
    ensures done { IsTrue result → (P : Plain) (s : State) (k : State → Outcome)
        → write_element (language_of P) (Object at) index (value_of value) (at_heap heap.old s) k ≡ k (at_heap heap.new s) }
    ensures same { IsFalse result → heap.new ≡ heap.old }
{
    match heap.find(at) {
        Some(CellKind::Array(ty)) => match element_in(ty) {
            None => false,
            Some(_) => match natural(index) {
                None => false,
                Some(place) => match heap.value(at, place) {
                    None => false,
                    Some(_) => {
                        heap.set(at, place, value);
                        true
                    }
                },
            },
        },
        Some(CellKind::Object(_)) => false,
        None => false,
    }
}
