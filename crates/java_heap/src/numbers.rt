//! What the operators make of numbers.

ghost use Rattle.std.specs.Prelude.{◌≡◌, ◌%◌, ◌<◌, ◌^◌, pos, Option};
ghost use Rattle.java_heap.specs.Seen.{value_of};
ghost use Rattle.java_meaning.specs.Values.{arith as arith_of, distance_of, negated, compared, cast_number as cast_of};

use crate::values::Value;
use java_core::{BinOp, Fault, Op, TyBase, UnOp};

/// What an operator that gives an `int` makes of two numbers, in 32 bits of two's complement;
/// `DivZero` exactly for `/` and `%` by zero (Java Language Specification, 15.17 to 15.19, 15.22).
#[inline(always)]
pub fn arith(op: Op, a: i32, b: i32) -> Result<i32, Fault>
    ensures value { result ≡ arith_of op a b }
{
    match op {
        Op::Plus => Ok(a.wrapping_add(b)),
        Op::Minus => Ok(a.wrapping_sub(b)),
        Op::Times => Ok(a.wrapping_mul(b)),
        Op::Divide => {
            if b == 0 {
                Err(Fault::DivZero)
            } else {
                Ok(a.wrapping_div(b))
            }
        }
        Op::Remainder => {
            if b == 0 {
                Err(Fault::DivZero)
            } else {
                Ok(a.wrapping_rem(b))
            }
        }
        Op::ShiftLeft => Ok(a << distance(b)),
        Op::ShiftRight => Ok(a >> distance(b)),
        Op::ShiftRightUnsigned => Ok((a.cast_unsigned() >> distance(b)).cast_signed()),
        Op::And => Ok(a & b),
        Op::Or => Ok(a | b),
        Op::Xor => Ok(a ^ b),
    }
}

/// The low five bits of a shift distance (Java Language Specification, 15.19).
fn distance(b: i32) -> u32
    ensures value { result ≡ distance_of b }
    ensures bound { result < 32 }
{
    b.cast_unsigned() % 32
}

/// What a prefix operator makes of a number (Java Language Specification, 15.15).
pub fn negate(op: UnOp, a: i32) -> i32
    ensures value { result ≡ negated op a }
{
    match op {
        UnOp::Plus => a,
        UnOp::Minus => a.wrapping_neg(),
        UnOp::Flip => !a,
        UnOp::Not => a,
    }
}

/// A comparison of two numbers; `None` for an operator that compares no numbers.
pub fn compare(op: BinOp, a: i32, b: i32) -> Option<bool>
    ensures value { result ≡ compared op a b }
{
    match op {
        BinOp::Less => Some(a < b),
        BinOp::Greater => Some(a > b),
        BinOp::AtMost => Some(a <= b),
        BinOp::AtLeast => Some(a >= b),
        _ => None,
    }
}

/// A cast of a number to `int` or `char`; `(char)` keeps the low 16 bits (Java Language Specification, 5.1.3).
pub fn cast_number(base: TyBase, a: i32) -> Value
    ensures value { value_of result ≡ cast_of base a }
{
    match base {
        TyBase::Char => Value::Char((a.cast_unsigned() % 65536) as u16),
        TyBase::Int => Value::Int(a),
        TyBase::Boolean => Value::Int(a),
        TyBase::Str => Value::Int(a),
        TyBase::Class(_) => Value::Int(a),
    }
}
