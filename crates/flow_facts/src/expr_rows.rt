//! The row that types an expression.

ghost use Rattle.std.specs.Prelude.{◌≡◌, ℕ};
ghost use Rattle.std.specs.Option.{option_map};
ghost use Rattle.java_core.specs.Trees.{expr_of};
ghost use Rattle.java_core.specs.Statics.{static_seen};
ghost use Rattle.flow_rules.specs.Operands.{object_static, object_field, call_slot, super_slot, type_in, row_of};
ghost use Rattle.flow_facts.specs.Words.{program_of, code_seen, IsFormed};

use crate::by_number::method_by_number;
use crate::operands::{class_object, variable_row};
use crate::types::{object_class, object_field, object_of};
use flow_rules::{ObjectType, RowItem};
use java_core::{Code, Program, RExpr, Static, slot_of, static_of, super_method};
use kaba_base::{ClassId, Name};

/// The type that an expression gives, where a row can have it.
fn object_static(found: Static) -> Option<ObjectType>
    ensures value { result ≡ object_static (static_seen found) }
{
    match found {
        Static::Value(ty) => object_of(ty),
        Static::Null | Static::Nothing => None,
    }
}

/// The static type of an expression in a body, where a row can have it.
#[tactic(auto, unfolding(flow_rules::specs::Operands::type_in))]
pub fn type_of(program: &Program, code: &Code, e: &RExpr) -> Option<ObjectType>
    requires { IsFormed (program_of program.now) }
    ensures value { (m : ℕ) → result ≡ type_in (program_of program.now) m (code_seen code.now) (expr_of e.now) }
{
    object_static(static_of(program, code, e))
}

/// The row of the field that a type has under a name.
fn access_row(program: &Program, base: Option<ObjectType>, name: &Name) -> Option<RowItem>
    requires { IsFormed (program_of program.now) }
    ensures value { result ≡ option_map RowItem.Field (object_field (program_of program.now) base name.now) }
{
    match object_field(program, base, name) {
        Some(field) => Some(RowItem::Field(field as u64)),
        None => None,
    }
}

/// The row of the return of a slot.
fn return_row(slot: Option<u32>) -> Option<RowItem>
    ensures value { result ≡ option_map RowItem.Return slot }
{
    match slot {
        Some(slot) => Some(RowItem::Return(slot as u64)),
        None => None,
    }
}

/// The slot that a call of a name on a type calls.
fn call_slot(program: &Program, base: Option<ObjectType>, name: &Name) -> Option<u32>
    requires { IsFormed (program_of program.now) }
    ensures value { result ≡ call_slot (program_of program.now) base name.now }
{
    match object_class(base) {
        Some(class) => slot_of(program, class, name),
        None => None,
    }
}

/// The row of what a call of a name on a type gives.
fn call_row(program: &Program, base: Option<ObjectType>, name: &Name) -> Option<RowItem>
    requires { IsFormed (program_of program.now) }
    ensures value { result ≡ option_map RowItem.Return (call_slot (program_of program.now) base name.now) }
{
    return_row(call_slot(program, base, name))
}

/// The row of what `super.name(..)` in a class gives.
fn super_row(program: &Program, class: ClassId, name: &Name) -> Option<RowItem>
    requires { IsFormed (program_of program.now) }
    ensures value { result ≡ option_map RowItem.Return (super_slot (program_of program.now) class.0 name.now) }
{
    match super_method(program, class, name) {
        Some(method) => match method_by_number(program, method.0 as u64) {
            Some(method) => return_row(method.slot),
            None => None,
        },
        None => None,
    }
}

/// The row that types an expression in the body of the number `m`: of a variable and
/// `this` their own, of a field access that of the field, of a call that of the return, of an element that of
/// the array, and of a creation or a cast its own. A literal, `null`, an operator and an `instanceof` have none.
/// It takes a step for each form on the way to the base of the expression.
#[tactic(auto, unfolding(flow_rules::specs::Operands::type_in))]
pub fn row_of(program: &Program, m: u64, code: &Code, e: &RExpr) -> Option<RowItem>
    requires { IsFormed (program_of program.now) }
    ensures value { result ≡ row_of (program_of program.now) (type_in (program_of program.now) m (code_seen code.now))
        m (code_seen code.now) (expr_of e.now) }
{
    match e {
        RExpr::This { .. } => Some(RowItem::This(m)),
        RExpr::Local { local, .. } => Some(variable_row(m, code, *local as u64)),
        RExpr::Static { field, .. } => Some(RowItem::Field(field.0 as u64)),
        RExpr::Own { field, .. } => Some(RowItem::Field(field.0 as u64)),
        RExpr::Field { base, name, .. } => {
            access_row(program, type_of(program, code, base), name)
        }
        RExpr::Index { base, .. } => row_of(program, m, code, base),
        RExpr::Call { base, name, .. } => match base {
            Some(base) => call_row(program, type_of(program, code, base), name),
            None => call_row(program, class_object(code.owner), name),
        },
        RExpr::StaticCall { method, .. } => Some(RowItem::Result(method.0 as u64)),
        RExpr::SuperCall { name, .. } => super_row(program, code.owner, name),
        RExpr::New { number, .. } => Some(RowItem::New(*number as u64)),
        RExpr::NewArray { number, .. } => Some(RowItem::New(*number as u64)),
        RExpr::Cast { number, .. } => Some(RowItem::Cast(*number as u64)),
        _ => None,
    }
}
