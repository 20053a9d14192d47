//! What operators make of values.

ghost use Rattle.std.specs.Prelude.{◌≡◌, ◌≢◌, ◌&&◌, ◌||◌, not, IfOk};
ghost use Rattle.std.specs.Option.{option_map};
ghost use Rattle.java_core.specs.Types.{is_plus};
ghost use Rattle.java_core.specs.declared.Op.{Op};
ghost use Rattle.run_state.specs.Shared.{value_of, State, Number, with_some, on_bool, stop, number_of, gives, makes};
ghost use Rattle.java_meaning.specs.Moment.{Truth, with_result, Wrong};
ghost use Rattle.java_meaning.specs.Values.{arith, unary_value, same_value, compared, is_text};
ghost use Rattle.java_meaning.specs.Meaning.{ToValue, compute, operate, join_values};
ghost use Rattle.run_state.specs.Founds.{Makes};

use crate::machine::{Found, Made};
use java_core::{BinOp, Op, UnOp};
use java_heap::{Heap, Value, arith, compare, join, negate, same_value, text_of};
use run_code::Tried;
use std::alloc::Global;

/// What a prefix operator makes of a value.
pub fn unary_value(op: UnOp, value: Value) -> Option<Value>
    ensures { option_map value_of result ≡ unary_value op (value_of value) }
{
    match op {
        UnOp::Not => match value.truth() {
            Some(truth) => Some(Value::Bool(!truth)),
            None => None,
        },
        other => match value.number() {
            Some(number) => Some(Value::Int(negate(other, number))),
            None => None,
        },
    }
}

/// What is made where so much is found.
#[inline(always)]
fn made_of(found: Found) -> Made
    ensures { (s : State) (k : ToValue) → gives found s k ≡ makes result s k }
{
    match found {
        Found::Value(value) => Made::Value(value),
        Found::Fault(fault) => Made::Fault(fault),
        Found::Stuck => Made::Stuck,
    }
}

/// What a binary operator makes of two ints.
#[inline(always)]
pub fn on_ints(op: BinOp, a: i32, b: i32) -> Found
    ensures { (s : State) (k : ToValue) → operate op (Number a) (Number b) s k ≡ gives result s k }
{
    match op {
        BinOp::Int(op) => computed(op, a, b),
        BinOp::Same => Found::Value(Value::Bool(a == b)),
        BinOp::Differs => Found::Value(Value::Bool(a != b)),
        BinOp::Less => Found::Value(Value::Bool(a < b)),
        BinOp::Greater => Found::Value(Value::Bool(a > b)),
        BinOp::AtMost => Found::Value(Value::Bool(a <= b)),
        BinOp::AtLeast => Found::Value(Value::Bool(a >= b)),
        BinOp::Both => Found::Stuck,
        BinOp::Either => Found::Stuck,
    }
}

/// What an operator makes of two numbers.
#[inline(always)]
fn computed(op: Op, a: i32, b: i32) -> Found
    ensures { (s : State) (k : ToValue) → with_result (arith op a b) s (λ n. k (Number n) s) ≡ gives result s k }
{
    match arith(op, a, b) {
        Ok(number) => Found::Value(Value::Int(number)),
        Err(fault) => Found::Fault(fault),
    }
}

/// What a binary operator makes of two values.
#[inline(always)]
pub fn operate(alloc: Global, heap: &Heap, op: BinOp, left: Value, right: Value) -> Tried<Made>
    ensures { IfOk result (λ r. Makes heap.now r (λ s k. operate op (value_of left) (value_of right) s k)) }
{
    match op {
        BinOp::Int(op) => compute(alloc, heap, op, left, right),
        _ => Ok(made_of(truth_value(op, left, right))),
    }
}

/// What an operator that gives a `boolean` makes of two values.
#[inline(always)]
fn truth_value(op: BinOp, left: Value, right: Value) -> Found
    requires { (o : Op) → op ≢ BinOp.Int o }
    ensures { (s : State) (k : ToValue) → operate op (value_of left) (value_of right) s k ≡ gives result s k }
{
    match op {
        BinOp::Int(_) => Found::Stuck,
        BinOp::Same => truth(same_value(left, right)),
        BinOp::Differs => truth(differ(left, right)),
        BinOp::Both => truth(right.truth()),
        BinOp::Either => truth(right.truth()),
        _ => compared(op, left, right),
    }
}

/// A truth, where there is one.
#[inline(always)]
fn truth(found: Option<bool>) -> Found
    ensures { (s : State) (k : ToValue) → with_some found s (λ b. k (Truth b) s) ≡ gives result s k }
{
    match found {
        Some(truth) => Found::Value(Value::Bool(truth)),
        None => Found::Stuck,
    }
}

/// `!=` of two values.
#[inline(always)]
fn differ(left: Value, right: Value) -> Option<bool>
    ensures { result ≡ option_map not (same_value (value_of left) (value_of right)) }
{
    match same_value(left, right) {
        Some(same) => Some(!same),
        None => None,
    }
}

/// A comparison of two numbers.
fn compared(op: BinOp, left: Value, right: Value) -> Found
    ensures { (s : State) (k : ToValue) → with_some (number_of (value_of left)) s
        (λ a. with_some (number_of (value_of right)) s (λ b. with_some (compared op a b) s (λ t. k (Truth t) s))) ≡ gives result s k }
{
    match left.number() {
        None => Found::Stuck,
        Some(a) => match right.number() {
            None => Found::Stuck,
            Some(b) => truth(compare(op, a, b)),
        },
    }
}

/// An operator that gives an `int`, or `+` on strings.
#[inline(never)]
fn compute(alloc: Global, heap: &Heap, op: Op, left: Value, right: Value) -> Tried<Made>
    ensures { IfOk result (λ r. Makes heap.now r (λ s k. compute (is_plus op && (is_text (value_of left) || is_text (value_of right)))
        (number_of (value_of left)) (number_of (value_of right)) (value_of left) (value_of right) op s k)) }
{
    match left.number() {
        None => join_or_stop(alloc, heap, op, left, right),
        Some(a) => match right.number() {
            None => join_or_stop(alloc, heap, op, left, right),
            Some(b) => Ok(made_of(computed(op, a, b))),
        },
    }
}

/// An operator on values that are not two numbers.
fn join_or_stop(alloc: Global, heap: &Heap, op: Op, left: Value, right: Value) -> Tried<Made>
    ensures { IfOk result (λ r. Makes heap.now r (λ s k. on_bool (is_plus op && (is_text (value_of left) || is_text (value_of right))) s
        (λ s1. join_values (value_of left) (value_of right) s1 k) (stop Wrong))) }
{
    if joins(op, left, right) {
        join_values(alloc, heap, left, right)
    } else {
        Ok(Made::Stuck)
    }
}

/// Whether an operator on two values is a join of texts.
fn joins(op: Op, left: Value, right: Value) -> bool
    ensures { result ≡ is_plus op && (is_text (value_of left) || is_text (value_of right)) }
{
    match op {
        Op::Plus => is_text(left) || is_text(right),
        _ => false,
    }
}

/// Whether a value makes a `+` a join.
fn is_text(value: Value) -> bool
    ensures { result ≡ is_text (value_of value) }
{
    match value {
        Value::Str(_) => true,
        Value::Null => true,
        Value::Int(_) => false,
        Value::Char(_) => false,
        Value::Bool(_) => false,
        Value::Ref(_) => false,
    }
}

/// Two texts as a new string.
fn join_values(alloc: Global, heap: &Heap, left: Value, right: Value) -> Tried<Made>
    ensures { IfOk result (λ r. Makes heap.now r (λ s k. join_values (value_of left) (value_of right) s k)) }
{
    match text_of(alloc, heap, left)? {
        None => Ok(Made::Stuck),
        Some(front) => match text_of(alloc, heap, right)? {
            None => Ok(Made::Stuck),
            Some(back) => match join(front, &back)? {
                Ok(units) => Ok(Made::Text(units)),
                Err(fault) => Ok(Made::Fault(fault)),
            },
        },
    }
}
