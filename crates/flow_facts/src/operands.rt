//! What the forms of a body are.

ghost use Rattle.std.specs.Prelude.{◌≡◌, ℕ, List, Option, Some, None, option_and_then};
ghost use Rattle.java_core.specs.Classes.{super_method, slot_of_method};
ghost use Rattle.flow_rules.specs.Operands.{this_operand, class_object, variable_row, call_slot};
ghost use Rattle.flow_facts.specs.Views.{call_operand, super_operand, variable_operand};
ghost use Rattle.flow_facts.specs.Words.{program_of, code_seen};

use crate::by_number::method_by_number;
use crate::enclosing::Enclosing;
use crate::types::{method_object, slot_object, variable_object};
use flow_rules::{ObjectType, Operand, PointItem, RowItem};
use java_core::{Code, Program};
use kaba_base::ClassId;

/// No flow point, no row and no type that a row can have.
pub const NOTHING: Operand = Operand {
    point: None,
    row: None,
    ty: None,
    created: None,
};

/// An object of a class.
pub fn class_object(class: ClassId) -> Option<ObjectType>
    ensures value { result ≡ class_object class.0 }
{
    Some(ObjectType { class, dim: 0 })
}

/// What `this` is.
pub fn this_operand(within: &Enclosing) -> Operand
    ensures value { result ≡ this_operand within.now.number (code_seen within.now.code) }
{
    Operand {
        point: Some(PointItem::This(within.number)),
        row: Some(RowItem::This(within.number)),
        ty: class_object(within.code.owner),
        created: None,
    }
}

/// The row of a parameter or a local.
pub fn variable_row(m: u64, code: &Code, local: u64) -> RowItem
    ensures value { result ≡ variable_row m (code_seen code.now) local }
{
    match code.slot {
        Some(slot) if local < code.params.len() as u64 => RowItem::Param(slot as u64, local),
        _ => RowItem::Local(m, local),
    }
}

/// What a parameter or a local is.
pub fn variable_operand(within: &Enclosing, local: u32) -> Operand
    ensures value { result ≡ variable_operand within.now.number (code_seen within.now.code) local }
{
    Operand {
        point: Some(PointItem::Local(within.number, local as u64)),
        row: Some(variable_row(within.number, &within.code, local as u64)),
        ty: variable_object(&within.code, local),
        created: None,
    }
}

/// What a form with a label is.
pub fn labelled(m: u64, label: usize, row: Option<RowItem>, ty: Option<ObjectType>) -> Operand
    ensures value { result ≡ record { point = Some (PointItem.Expr m label); row = row; ty = ty; created = None } }
{
    Operand {
        point: Some(PointItem::Expr(m, label as u64)),
        row,
        ty,
        created: None,
    }
}

/// What a creation is.
pub fn creation(m: u64, label: usize, number: u32, ty: Option<ObjectType>) -> Operand
    ensures value { result ≡ record { point = Some (PointItem.Expr m label); row = Some (RowItem.New number); ty = ty; created = Some number } }
{
    Operand {
        point: Some(PointItem::Expr(m, label as u64)),
        row: Some(RowItem::New(number as u64)),
        ty,
        created: Some(number as u64),
    }
}

/// The slot of a method.
pub fn slot_of_method(program: &Program, method: Option<u32>) -> Option<u32>
    ensures value { result ≡ option_and_then (slot_of_method (program_of program.now)) method }
{
    match method {
        Some(method) => match method_by_number(program, method as u64) {
            Some(member) => member.slot,
            None => None,
        },
        None => None,
    }
}

/// What the call of a slot is.
pub fn call_operand(within: &Enclosing, label: usize, slot: Option<u32>) -> Operand
    ensures value { (s : Option ObjectType) (x : List ℕ)
        → slot ≡ call_slot (program_of within.now.program.now) s x
        → result ≡ call_operand (program_of within.now.program.now) within.now.number label s x }
{
    match slot {
        Some(slot) => {
            let row = Some(RowItem::Return(slot as u64));
            labelled(within.number, label, row, slot_object(within.program, slot))
        }
        None => labelled(within.number, label, None, None),
    }
}

/// What a super call of a method is.
pub fn super_operand(within: &Enclosing, label: usize, callee: Option<u32>) -> Operand
    ensures value { (c : ℕ) (x : List ℕ) → callee ≡ super_method (program_of within.now.program.now) c x
        → result ≡ super_operand (program_of within.now.program.now) within.now.number label c x }
{
    let row = match slot_of_method(within.program, callee) {
        Some(slot) => Some(RowItem::Return(slot as u64)),
        None => None,
    };
    let ty = match callee {
        Some(callee) => method_object(within.program, callee),
        None => None,
    };
    labelled(within.number, label, row, ty)
}
