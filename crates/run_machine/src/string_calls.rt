//! The methods of strings.

ghost use Rattle.std.specs.Prelude.{◌≡◌, ◌^◌, ◌<◌, [], ◌∷◌, slice_get, Some};
ghost use Rattle.std.specs.Option.{option_map, option_and_then};
ghost use Rattle.java_core.specs.Statics.{string_seen};
ghost use Rattle.java_core.specs.Types.{LengthOf, CharAt, Equals};
ghost use Rattle.java_core.specs.declared.Fault.TheVariants as fault;
ghost use Rattle.java_heap.specs.Seen.{value_of};
ghost use Rattle.java_meaning.specs.Moment.{State, CodeUnit, with_some, or_fault};
ghost use Rattle.java_meaning.specs.Values.{natural_of};
ghost use Rattle.java_meaning.specs.Meaning.{ToValue, string_call};
ghost use Rattle.run_code.specs.Ops.{text_call};
ghost use Rattle.run_state.specs.Founds.{gives, FindsOnHeap};
ghost use Rattle.run_state.specs.Turns.{to_slot, Does};

use crate::calls::class_at;
use java_core::{Fault, StringMethod};
use java_heap::{Heap, Value, equals};
use run_code::{Destination, Frame, Tried};
use run_state::{Ending, Found, Machine, Turn, answer, int_of};

/// The unit at an index.
fn unit_at(units: &Vec<u16>, index: i32) -> Found
    ensures { (s : State) (k : ToValue) → or_fault fault.Bounds (option_and_then (λ n. slice_get units.now.items n) (natural_of index)) s
        (λ c. k (CodeUnit c) s) ≡ gives result s k }
{
    if index < 0 {
        return Found::Fault(Fault::Bounds);
    }
    match units.get(index as usize) {
        Some(unit) => Found::Value(Value::Char(*unit)),
        None => Found::Fault(Fault::Bounds),
    }
}

/// `charAt(index)`
fn char_at(units: &Vec<u16>, index: Value) -> Found
    ensures { (s : State) (k : ToValue) → string_call CharAt units.now.items (value_of index ∷ []) s k ≡ gives result s k }
{
    match index.number() {
        Some(index) => unit_at(units, index),
        None => Found::Stuck,
    }
}

/// `equals(other)`
fn string_equals(heap: &Heap, units: &Vec<u16>, other: Value) -> Found
    ensures { FindsOnHeap heap.now result (λ s k. string_call Equals units.now.items (value_of other ∷ []) s k) }
{
    match equals(heap, units, other) {
        Some(truth) => Found::Value(Value::Bool(truth)),
        None => Found::Stuck,
    }
}

/// A call of a method of a string with no argument.
fn call_bare(method: StringMethod, units: &Vec<u16>) -> Found
    ensures { (s : State) (k : ToValue) → string_call (string_seen method) units.now.items [] s k ≡ gives result s k }
{
    match method {
        StringMethod::Length => Found::Value(Value::Int(int_of(units.len()))),
        StringMethod::CharAt => Found::Stuck,
        StringMethod::Equals => Found::Stuck,
    }
}

/// A call of a method of a string with one argument.
fn call_with(heap: &Heap, method: StringMethod, units: &Vec<u16>, argument: Value) -> Found
    ensures { FindsOnHeap heap.now result (λ s k. string_call (string_seen method) units.now.items (value_of argument ∷ []) s k) }
{
    match method {
        StringMethod::Length => Found::Stuck,
        StringMethod::CharAt => char_at(units, argument),
        StringMethod::Equals => string_equals(heap, units, argument),
    }
}

/// A call of a method of a string on what stands in a slot, if it is one.
pub fn text_call<'a>(m: &mut Machine<'a>, frame: Frame, method: Option<StringMethod>) -> Tried<Turn>
    requires { m.old.pc < 2 ^ 63 }
    ensures { Does (text_call frame.slot (option_map string_seen method) frame.many) m.old result m.new }
{
    match m.slots.get(m.base as usize + frame.slot as usize) {
        Some(Value::Str(at)) => text_call_at(m, at, frame, method),
        Some(Value::Ref(at)) => match class_at(&m.heap, at) {
            None => stop!(m, Ending::Stuck),
            Some(_) => step_and_stop(m),
        },
        Some(Value::Null) => stop!(m, Ending::Faulty(Fault::Null)),
        Some(_) => stop!(m, Ending::Stuck),
        None => stop!(m, Ending::Stuck),
    }
}

ghost use Rattle.java_meaning.specs.Moment.{step, stop, Wrong};
ghost use Rattle.run_code.specs.Machine.{taken};
ghost use Rattle.run_state.specs.Run.{state_of};
ghost use Rattle.run_state.specs.Turns.{Turns};
ghost use Rattle.std.specs.Prelude.{ℕ, ◌+◌, List, Bool, false, IfOk};

/// A step, after which no rule says how it goes on.
fn step_and_stop<'a>(m: &mut Machine<'a>) -> Tried<Turn>
    ensures { Turns (λ go. step (state_of m.old) (λ s. stop Wrong s)) m.old result m.new }
{
    if m.left == 0 {
        return stop!(m, Ending::Unfinished);
    }
    m.left -= 1;
    stop!(m, Ending::Stuck)
}

/// A call of a method of a string, if it is one.
fn text_call_at<'a>(
    m: &mut Machine<'a>,
    at: u32,
    frame: Frame,
    method: Option<StringMethod>,
) -> Tried<Turn>
    requires { m.old.pc < 2 ^ 63 }
    ensures { Turns (λ go. with_some (slice_get m.old.heap.strings at) (state_of m.old)
        (λ u. with_some (option_map string_seen method) (state_of m.old)
        (λ q. with_some (taken m.old.slots (m.old.base + frame.slot + 1) frame.many) (state_of m.old)
        (λ vs. string_call q u vs (state_of m.old) (to_slot m.old (record { is_int = false; slot = frame.slot }) go))))) m.old result m.new }
{
    match method {
        None => stop!(m, Ending::Stuck),
        Some(method) => {
            let found = called(m, at, frame, method);
            let to = Destination {
                is_int: false,
                slot: frame.slot,
            };
            answer(m, to, found)
        }
    }
}

/// What a method of the string at a place gives, with so many arguments behind a slot.
fn called<'a>(m: &Machine<'a>, at: u32, frame: Frame, method: StringMethod) -> Found
    ensures { (k : ToValue) → with_some (slice_get m.now.heap.strings at) (state_of m.now)
        (λ u. with_some (taken m.now.slots (m.now.base + frame.slot + 1) frame.many) (state_of m.now)
        (λ vs. string_call (string_seen method) u vs (state_of m.now) k))
        ≡ gives result (state_of m.now) k }
{
    match m.heap.text(at) {
        None => Found::Stuck,
        Some(units) => {
            if frame.many == 0 {
                return call_bare(method, units);
            }
            if frame.many == 1 {
                return match m.slots.get(m.base as usize + frame.slot as usize + 1) {
                    None => Found::Stuck,
                    Some(argument) => call_with(&m.heap, method, units, argument),
                };
            }
            Found::Stuck
        }
    }
}
