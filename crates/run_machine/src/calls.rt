//! Calls, and bodies that are left.

ghost use Rattle.std.specs.Prelude.{◌≡◌, ◌^◌, ◌<◌, map, slice_get, Some};
ghost use Rattle.std.specs.Option.{option_map, option_and_then};
ghost use Rattle.java_core.specs.Classes.{lookup};
ghost use Rattle.java_heap.specs.Seen.{value_of};
ghost use Rattle.java_meaning.specs.Moment.{own_class, step};
ghost use Rattle.run_code.specs.Ops.{call, enter, give};
ghost use Rattle.run_code.specs.Machine.{as_int, begins, enters, returns};
ghost use Rattle.run_code.specs.Seen.{operand_of, entry_of, tables_of};
ghost use Rattle.run_state.specs.Run.{plain_of, state_of, config_of};
ghost use Rattle.run_state.specs.Turns.{Turns, TurnsPaid, DoesIn, Does};

use java_core::Fault;
use java_heap::{CellKind, Heap, Value};
use run_code::{Entry, Frame, Image, Operand, Tried};
use run_state::{Back, Ending, Machine, Turn, as_int};
use std::alloc::AllocError;

/// The class of the object in a cell.
#[inline(always)]
pub fn class_at(heap: &Heap, at: u32) -> Option<u32>
    ensures { result ≡ option_and_then (λ c. own_class c.kind) (slice_get heap.now.cells at) }
{
    match heap.find(at) {
        Some(CellKind::Object(class)) => Some(class.0),
        Some(CellKind::Array(_)) => None,
        None => None,
    }
}

/// A call of a slot of the program on what stands in a slot.
pub fn call<'a>(image: &Image, m: &mut Machine<'a>, frame: Frame, method: u32) -> Tried<Turn>
    requires { m.old.pc < 2 ^ 63 }
    ensures { DoesIn (tables_of image.now) (call frame.slot method frame.many) m.old result m.new }
{
    match m.slots.get(m.base as usize + frame.slot as usize) {
        Some(Value::Ref(at)) => match class_at(&m.heap, at) {
            None => stop!(m, Ending::Stuck),
            Some(class) => call_object(image, m, class, frame, method),
        },
        Some(Value::Null) => stop!(m, Ending::Faulty(Fault::Null)),
        Some(_) => stop!(m, Ending::Stuck),
        None => stop!(m, Ending::Stuck),
    }
}

/// A step, and the body that an object of a class runs for a slot.
fn call_object<'a>(
    image: &Image,
    m: &mut Machine<'a>,
    class: u32,
    frame: Frame,
    method: u32,
) -> Tried<Turn>
    requires { m.old.pc < 2 ^ 63 }
    ensures { Turns (λ go. step (state_of m.old) (λ s. begins (plain_of m.old) (tables_of image.now) (config_of m.old) m.old.slots frame.slot
        (lookup (plain_of m.old) class method) frame.many s go)) m.old result m.new }
{
    if m.left == 0 {
        return stop!(m, Ending::Unfinished);
    }
    m.left -= 1;
    let found = m.classes.body(class, method)?;
    begin_some(image, m, found, frame)
}

/// A call of a method by its number, if there is one, with `this` from the operand.
pub fn enter<'a>(
    image: &Image,
    m: &mut Machine<'a>,
    frame: Frame,
    method: Option<u32>,
    this: &Operand,
) -> Tried<Turn>
    requires { m.old.pc < 2 ^ 63 }
    ensures { DoesIn (tables_of image.now) (enter frame.slot method frame.many (operand_of this.now)) m.old result m.new }
{
    match m.slots.read(m.base, this) {
        None => stop!(m, Ending::Stuck),
        Some(this) => {
            if m.left == 0 {
                return stop!(m, Ending::Unfinished);
            }
            m.left -= 1;
            m.slots.put(m.base as usize + frame.slot as usize, this)?;
            begin_some(image, m, method, frame)
        }
    }
}

/// Where the code of a method begins.
#[inline(always)]
pub fn entry_at(image: &Image, method: Option<u32>) -> Option<&Entry>
    ensures { option_map (λ e. entry_of e.now) result ≡ option_and_then (tables_of image.now).entry method }
{
    match method {
        None => None,
        Some(method) => match image.entries.get(method as usize) {
            None => None,
            Some(None) => None,
            Some(Some(entry)) => Some(entry),
        },
    }
}

/// After a step the body of a method begins, if there is one.
fn begin_some<'a>(
    image: &Image,
    m: &mut Machine<'a>,
    method: Option<u32>,
    frame: Frame,
) -> Tried<Turn>
    requires { m.old.pc < 2 ^ 63 }
    ensures { TurnsPaid (λ go. begins (plain_of m.old) (tables_of image.now) (config_of m.old) m.old.slots frame.slot method frame.many
        (state_of m.old) go) m.old result m.new }
{
    match entry_at(image, method) {
        None => stop!(m, Ending::Stuck),
        Some(entry) => begin(m, entry, frame),
    }
}

/// After a step a body begins.
fn begin<'a>(m: &mut Machine<'a>, entry: &Entry, frame: Frame) -> Tried<Turn>
    requires { m.old.pc < 2 ^ 63 }
    ensures { TurnsPaid (λ go. go (enters (config_of m.old) m.old.slots frame.slot frame.many (state_of m.old) (entry_of entry.now))) m.old result m.new }
{
    let Some(base) = m.base.checked_add(frame.slot) else {
        return Err(AllocError);
    };
    m.slots.fit(base as usize + 1, &entry.ints)?;
    m.slots
        .put_all(base as usize + 1 + frame.many as usize, &entry.rest)?;
    m.backs.push(Back {
        pc: m.pc + 1,
        base: m.base,
    })?;
    m.base = base;
    m.pc = entry.pc as usize;
    Ok(Turn::On)
}

/// A body is left with a value, as an `int` where so it is said.
#[inline(always)]
pub fn give<'a>(m: &mut Machine<'a>, is_int: bool, o: &Operand) -> Tried<Turn>
    ensures { Does (give is_int (operand_of o.now)) m.old result m.new }
{
    match m.slots.read(m.base, o) {
        None => stop!(m, Ending::Stuck),
        Some(value) => leave(m, as_int(is_int, value)),
    }
}

/// A body is left with a value.
#[inline(always)]
fn leave<'a>(m: &mut Machine<'a>, value: Value) -> Tried<Turn>
    ensures { Turns (λ go. returns (config_of m.old).backs (value_of value) (config_of m.old) go) m.old result m.new }
{
    match m.backs.pop() {
        None => stop!(m, Ending::Done),
        Some(back) => {
            m.slots.put(m.base as usize, value)?;
            m.pc = back.pc;
            m.base = back.base;
            Ok(Turn::On)
        }
    }
}
