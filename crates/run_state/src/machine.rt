//! The state of a run, and the moves that all else is made of.

ghost use Rattle.std.specs.Prelude.{◌≡◌, ◌+◌, ◌-◌, ◌^◌, ◌<◌};
ghost use Rattle.run_state.specs.Shared.{value_of, step, state_of, config_of, gives, makes, to_slot, Turns};
ghost use Rattle.java_meaning.specs.Meaning.{give_string};
ghost use Rattle.run_code.specs.Machine.{as_int, sets, goes};

use crate::slots::Slots;
use crate::stack::Stack;
use java_core::Fault;
use java_heap::{Heap, Value};
use run_classes::Classes;
use run_code::{Destination, Tried};
use std::alloc::Global;

/// Where a call goes back to.
#[derive(Clone, Copy)]
pub struct Back {
    pub pc: usize,
    pub base: u32,
}

/// The state of a run.
#[derive(Drop)]
pub struct Machine<'a> {
    pub alloc: Global,
    pub pc: usize,
    /// Where the slots of the body that runs begin.
    pub base: u32,
    pub slots: Slots,
    pub backs: Stack<Back>,
    pub heap: Heap,
    pub statics: Vec<Value>,
    pub out: Vec<u8>,
    /// How many steps are left.
    pub left: u32,
    /// How the run ends, once it has ended.
    pub ending: Ending,
    pub classes: Classes<'a>,
}

/// How a run ends. It is stuck where no rule says how it goes on.
#[derive(Clone, Copy)]
pub enum Ending {
    Done,
    Faulty(Fault),
    Unfinished,
    Stuck,
}

/// What comes of one thing that the machine does.
#[derive(Clone, Copy)]
pub enum Turn {
    On,
    Stopped,
}

/// What is found for an operation on values.
#[derive(Clone, Copy)]
pub enum Found {
    /// A value.
    Value(Value),
    /// A fault.
    Fault(Fault),
    /// Nothing: no rule says how it goes on.
    Stuck,
}

/// What an operation makes of values.
#[derive(Drop)]
pub enum Made {
    /// A value.
    Value(Value),
    /// A new string.
    Text(Vec<u16>),
    /// A fault.
    Fault(Fault),
    /// Nothing: no rule says how it goes on.
    Stuck,
}

/// How a write ends.
#[derive(Clone, Copy)]
pub enum Kept {
    /// It is done.
    Done,
    /// A fault.
    Fault(Fault),
    /// No rule says how it goes on.
    Stuck,
}

/// How a test goes.
#[derive(Clone, Copy)]
pub enum Verdict {
    Yes,
    No,
    Stopped(Ending),
}

/// A value as an `int` holds it, where so it is said.
#[inline(always)]
pub fn as_int(is_int: bool, value: Value) -> Value
    ensures { value_of result ≡ as_int is_int (value_of value) }
{
    match value {
        Value::Char(unit) => {
            if is_int {
                Value::Int(unit as i32)
            } else {
                Value::Char(unit)
            }
        }
        other => other,
    }
}

/// A slot is set, as an `int` where so it is said, and the next comes.
#[inline(always)]
pub fn keep<'a>(m: &mut Machine<'a>, to: Destination, value: Value) -> Tried<Turn>
    requires { m.old.pc < 2 ^ 63 }
    ensures { Turns (λ go. go (sets (config_of m.old) to.is_int to.slot (value_of value) (state_of m.old))) m.old result m.new }
{
    m.slots.put(m.base as usize + to.slot as usize, as_int(to.is_int, value))?;
    m.pc += 1;
    Ok(Turn::On)
}

/// A slot is set to what is found, or the run stops.
#[inline(always)]
pub fn answer<'a>(m: &mut Machine<'a>, to: Destination, found: Found) -> Tried<Turn>
    requires { m.old.pc < 2 ^ 63 }
    ensures { Turns (λ go. gives found (state_of m.old) (to_slot m.old to go)) m.old result m.new }
{
    match found {
        Found::Value(value) => keep(m, to, value),
        Found::Fault(fault) => stop!(m, Ending::Faulty(fault)),
        Found::Stuck => stop!(m, Ending::Stuck),
    }
}

/// A slot is set to a new string.
pub fn new_string<'a>(m: &mut Machine<'a>, to: Destination, units: Vec<u16>) -> Tried<Turn>
    requires { m.old.pc < 2 ^ 63 }
    ensures { Turns (λ go. give_string units.items (state_of m.old) (to_slot m.old to go)) m.old result m.new }
{
    let at = m.heap.string(units)?;
    keep(m, to, Value::Str(at))
}

/// A slot is set to what is made, or the run stops.
pub fn settle<'a>(m: &mut Machine<'a>, to: Destination, made: Made) -> Tried<Turn>
    requires { m.old.pc < 2 ^ 63 }
    ensures { Turns (λ go. makes made (state_of m.old) (to_slot m.old to go)) m.old result m.new }
{
    match made {
        Made::Value(value) => keep(m, to, value),
        Made::Text(units) => new_string(m, to, units),
        Made::Fault(fault) => stop!(m, Ending::Faulty(fault)),
        Made::Stuck => stop!(m, Ending::Stuck),
    }
}

/// So many are passed.
#[inline(always)]
pub fn pass<'a>(m: &mut Machine<'a>, many: u32) -> Tried<Turn>
    requires { m.old.pc < 2 ^ 63 }
    ensures { Turns (λ go. go (goes (config_of m.old) (m.old.pc + 1 + many) (state_of m.old))) m.old result m.new }
{
    m.pc = m.pc + 1 + many as usize;
    Ok(Turn::On)
}

/// The next comes.
#[inline(always)]
pub fn next<'a>(m: &mut Machine<'a>) -> Tried<Turn>
    requires { m.old.pc < 2 ^ 63 }
    ensures { Turns (λ go. go (goes (config_of m.old) (m.old.pc + 1) (state_of m.old))) m.old result m.new }
{
    m.pc += 1;
    Ok(Turn::On)
}

/// A step, and back over so many.
#[inline(always)]
pub fn go_back<'a>(m: &mut Machine<'a>, many: u32) -> Tried<Turn>
    requires { m.old.pc < 2 ^ 63 }
    ensures { Turns (λ go. step (state_of m.old) (λ s. go (goes (config_of m.old) (m.old.pc - many) s))) m.old result m.new }
{
    if m.left == 0 {
        return stop!(m, Ending::Unfinished);
    }
    m.left -= 1;
    m.pc = m.pc.saturating_sub(many as usize);
    Ok(Turn::On)
}
