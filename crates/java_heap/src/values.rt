//! Values.

ghost use Rattle.std.specs.Prelude.{◌≡◌, Option};
ghost use Rattle.std.specs.Option.{option_map};
ghost use Rattle.java_heap.specs.Seen.{value_of};
ghost use Rattle.java_meaning.specs.Values.{convert as converted, default_of as default_value, number_of, truth_of, same_value as same_of};

use java_core::{Ty, TyBase};

/// A value of a run: a string is named by its place among the strings of the heap, an object or an
/// array by its place among the cells.
#[derive(Clone, Copy)]
pub enum Value {
    /// An `int`.
    Int(i32),
    /// A `boolean`.
    Bool(bool),
    /// A `char`: its code unit.
    Char(u16),
    /// `null`
    Null,
    /// A string.
    Str(u32),
    /// An object or an array.
    Ref(u32),
}

const _: () = prove!(size_of::<Value>() == 8);

/// The value that a field, an element or a local of the type has by itself: 0, `false`, the
/// character 0 or `null` (Java Language Specification, 4.12.5).
pub fn default_of(ty: Ty) -> Value
    ensures value { value_of result ≡ default_value ty }
{
    if ty.dim != 0 {
        return Value::Null;
    }
    match ty.base {
        TyBase::Int => Value::Int(0),
        TyBase::Boolean => Value::Bool(false),
        TyBase::Char => Value::Char(0),
        TyBase::Str => Value::Null,
        TyBase::Class(_) => Value::Null,
    }
}

/// What a value is once it flows into something of the type: a `char` becomes an `int` in an `int`
/// (Java Language Specification, 5.1.2).
#[inline(always)]
pub fn convert(ty: Ty, value: Value) -> Value
    ensures value { value_of result ≡ converted ty (value_of value) }
{
    match value {
        Value::Char(unit) => widened(ty, unit),
        other => other,
    }
}

/// A character in something of the type.
#[inline(never)]
fn widened(ty: Ty, unit: u16) -> Value
    ensures { value_of result ≡ converted ty (value_of (Value.Char unit)) }
{
    if ty.dim != 0 {
        return Value::Char(unit);
    }
    match ty.base {
        TyBase::Int => Value::Int(unit as i32),
        TyBase::Boolean => Value::Char(unit),
        TyBase::Char => Value::Char(unit),
        TyBase::Str => Value::Char(unit),
        TyBase::Class(_) => Value::Char(unit),
    }
}

impl Value {
    ghost use Rattle.std.specs.Prelude.{◌≡◌};
    ghost use Rattle.java_heap.specs.Seen.{value_of};
    ghost use Rattle.java_meaning.specs.Values.{number_of, truth_of};

    /// The number that an `int` or a `char` is.
    #[inline(always)]
    pub fn number(self) -> Option<i32>
        ensures value { result ≡ number_of (value_of self) }
    {
        match self {
            Value::Int(number) => Some(number),
            Value::Char(unit) => Some(unit as i32),
            Value::Bool(_) => None,
            Value::Null => None,
            Value::Str(_) => None,
            Value::Ref(_) => None,
        }
    }

    /// What a `boolean` is.
    #[inline(always)]
    pub fn truth(self) -> Option<bool>
        ensures value { result ≡ truth_of (value_of self) }
    {
        match self {
            Value::Bool(truth) => Some(truth),
            Value::Int(_) => None,
            Value::Char(_) => None,
            Value::Null => None,
            Value::Str(_) => None,
            Value::Ref(_) => None,
        }
    }
}

/// `==` of two numbers, two booleans or two references (Java Language Specification, 15.21).
pub fn same_value(left: Value, right: Value) -> Option<bool>
    ensures value { result ≡ same_of (value_of left) (value_of right) }
{
    match (left.number(), right.number()) {
        (Some(a), Some(b)) => Some(a == b),
        (Some(_), None) => same_reference(left, right),
        (None, _) => same_reference(left, right),
    }
}

ghost use Rattle.java_meaning.specs.Values.{same_reference};

/// `==` of two booleans or two references; two strings are not compared.
fn same_reference(left: Value, right: Value) -> Option<bool>
    ensures { result ≡ same_reference (value_of left) (value_of right) }
{
    match (left, right) {
        (Value::Null, Value::Null) => Some(true),
        (Value::Null, Value::Str(_)) => Some(false),
        (Value::Null, Value::Ref(_)) => Some(false),
        (Value::Str(_), Value::Null) => Some(false),
        (Value::Ref(_), Value::Null) => Some(false),
        (Value::Ref(a), Value::Ref(b)) => Some(a == b),
        (Value::Bool(a), Value::Bool(b)) => Some(a == b),
        _ => None,
    }
}
