//! What changes no slot.

ghost use Rattle.std.specs.Prelude.{◌≡◌, ◌^◌, ◌<◌, [], map, slice_get, slice_set, IfOk, IfSome, OnOk};
ghost use Rattle.java_heap.specs.Seen.{value_of};
ghost use Rattle.java_meaning.specs.Meaning.{print_units, write_static};
ghost use Rattle.java_meaning.specs.Languages.{language_of};
ghost use Rattle.run_code.specs.Ops.{act, save, keep_static, keep_element, show, lacks};
ghost use Rattle.run_code.specs.Machine.{goes};
ghost use Rattle.run_code.specs.Seen.{operand_of, effect_of};
ghost use Rattle.run_state.specs.Run.{plain_of, state_of, config_of};
ghost use Rattle.run_state.specs.Founds.{keeps};
ghost use Rattle.run_state.specs.Turns.{to_next, Turns, Does};

use java_core::Fault;
use java_heap::{Value, convert, print, text_of};
use run_code::{Effect, Operand, Tried};
use run_state::{Ending, Kept, Machine, Turn, as_int, next, saved, write_element};

/// What changes no slot is done.
pub fn act<'a>(m: &mut Machine<'a>, effect: &Effect) -> Tried<Turn>
    requires { m.old.pc < 2 ^ 63 }
    ensures { Does (act (effect_of effect.now)) m.old result m.new }
{
    match effect {
        Effect::KeepStatic(field, value) => keep_static(m, *field, value),
        Effect::Show(newline, value) => show(m, *newline, value),
        Effect::ShowEnd(newline) => print_all(m, &[], *newline),
        Effect::Lacks(o) => lacks(m, o),
    }
}

/// The next comes once a write is done.
#[inline(always)]
fn done<'a>(m: &mut Machine<'a>, kept: Kept) -> Tried<Turn>
    requires { m.old.pc < 2 ^ 63 }
    ensures { Turns (λ go. keeps kept (state_of m.old) (go (goes (config_of m.old) (m.old.pc + 1) (state_of m.old)))) m.old result m.new }
{
    match kept {
        Kept::Done => next(m),
        Kept::Fault(fault) => stop!(m, Ending::Faulty(fault)),
        Kept::Stuck => stop!(m, Ending::Stuck),
    }
}

ghost use Rattle.std.specs.Prelude.{◌+◌};

/// A field of an object is set.
#[inline(never)]
pub fn save<'a>(
    m: &mut Machine<'a>,
    o: &Operand,
    place: u32,
    is_int: bool,
    value: &Operand,
) -> Tried<Turn>
    requires { m.old.pc < 2 ^ 63 }
    ensures { Does (act (save (operand_of o.now) place is_int (operand_of value.now))) m.old result m.new }
{
    match m.slots.read(m.base, o) {
        None => stop!(m, Ending::Stuck),
        Some(object) => match m.slots.read(m.base, value) {
            None => stop!(m, Ending::Stuck),
            Some(value) => {
                let kept = saved(&mut m.heap, object, place, as_int(is_int, value));
                done(m, kept)
            }
        },
    }
}

/// A static field is set.
fn keep_static<'a>(m: &mut Machine<'a>, field: u32, value: &Operand) -> Tried<Turn>
    requires { m.old.pc < 2 ^ 63 }
    ensures { Does (act (keep_static field (operand_of value.now))) m.old result m.new }
{
    match m.slots.read(m.base, value) {
        None => stop!(m, Ending::Stuck),
        Some(value) => write_static(m, field, value),
    }
}

/// A static field is set to a value.
fn write_static<'a>(m: &mut Machine<'a>, field: u32, value: Value) -> Tried<Turn>
    requires { m.old.pc < 2 ^ 63 }
    ensures { Turns (λ go. write_static (language_of (plain_of m.old)) field (value_of value) (state_of m.old) (to_next m.old go)) m.old result m.new }
{
    match m.classes.field_type(field) {
        None => stop!(m, Ending::Stuck),
        Some(ty) => {
            if (field as usize) < m.statics.len() {
                m.statics[field as usize] = convert(ty, value);
                next(m)
            } else {
                stop!(m, Ending::Stuck)
            }
        }
    }
}

/// An element of an array is set.
#[inline(never)]
pub fn keep_element<'a>(
    m: &mut Machine<'a>,
    o: &Operand,
    at: &Operand,
    value: &Operand,
) -> Tried<Turn>
    requires { m.old.pc < 2 ^ 63 }
    ensures { Does (act (keep_element (operand_of o.now) (operand_of at.now) (operand_of value.now))) m.old result m.new }
{
    match m.slots.read(m.base, o) {
        None => stop!(m, Ending::Stuck),
        Some(array) => match m.slots.read(m.base, at) {
            None => stop!(m, Ending::Stuck),
            Some(index) => match m.slots.read(m.base, value) {
                None => stop!(m, Ending::Stuck),
                Some(value) => put_element(m, array, index, value),
            },
        },
    }
}

ghost use Rattle.java_meaning.specs.Moment.{with_some};
ghost use Rattle.java_meaning.specs.Values.{number_of};
ghost use Rattle.java_meaning.specs.Meaning.{write_element};

/// An element of an array is set to a value.
#[inline(always)]
fn put_element<'a>(m: &mut Machine<'a>, array: Value, index: Value, value: Value) -> Tried<Turn>
    requires { m.old.pc < 2 ^ 63 }
    ensures { Turns (λ go. with_some (number_of (value_of index)) (state_of m.old)
        (λ n. write_element (language_of (plain_of m.old)) (value_of array) n (value_of value) (state_of m.old) (to_next m.old go))) m.old result m.new }
{
    match index.number() {
        None => stop!(m, Ending::Stuck),
        Some(index) => {
            let kept = write_element(&mut m.classes, &mut m.heap, array, index, value)?;
            done(m, kept)
        }
    }
}

/// A value is printed.
fn show<'a>(m: &mut Machine<'a>, newline: bool, value: &Operand) -> Tried<Turn>
    requires { m.old.pc < 2 ^ 63 }
    ensures { Does (act (show newline (operand_of value.now))) m.old result m.new }
{
    match m.slots.read(m.base, value) {
        None => stop!(m, Ending::Stuck),
        Some(value) => {
            let text = text_of(m.alloc, &m.heap, value)?;
            match text {
                None => stop!(m, Ending::Stuck),
                Some(units) => print_all(m, &units, newline),
            }
        }
    }
}

/// A text is printed.
fn print_all<'a>(m: &mut Machine<'a>, units: &[u16], newline: bool) -> Tried<Turn>
    requires { m.old.pc < 2 ^ 63 }
    ensures { Turns (λ go. print_units newline units.now (state_of m.old) (to_next m.old go)) m.old result m.new }
{
    print(&mut m.out, units, newline)?;
    next(m)
}

/// An object is asked for what its static type does not offer.
fn lacks<'a>(m: &mut Machine<'a>, o: &Operand) -> Tried<Turn>
    requires { m.old.pc < 2 ^ 63 }
    ensures { Does (act (lacks (operand_of o.now))) m.old result m.new }
{
    match m.slots.read(m.base, o) {
        None => stop!(m, Ending::Stuck),
        Some(Value::Null) => stop!(m, Ending::Faulty(Fault::Null)),
        Some(_) => stop!(m, Ending::Stuck),
    }
}
