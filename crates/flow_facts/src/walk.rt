//! The parts of an expression.

ghost use Rattle.std.specs.Prelude.{◌≡◌, ℕ, ◌+◌, ◌<◌, ◌++◌, ◌∷◌, [], Bool, true, false, List, IfOk, OnOk, length, map};
ghost use Rattle.java_core.specs.Trees.{Ex, Exs, expr_of, exprs};
ghost use Rattle.java_core.specs.Classes.{super_method};
ghost use Rattle.flow_rules.specs.Labels.{size, sizes, label, label_all};
ghost use Rattle.flow_rules.specs.Operands.{operand_of, operands_of, object_field, call_slot, call_declaration};
ghost use Rattle.flow_rules.specs.Types.{object_type};
ghost use Rattle.flow_facts.specs.Views.{load_operand, call_operand, static_operand, super_operand, creation_operand};
ghost use Rattle.flow_facts.specs.Walked.{IsAdded, IsOperandMade, IsWalked, AreWalked, args_from, parts_from, call_from, creation_from};
ghost use Rattle.flow_rules.specs.Parts as plain;
ghost use Rattle.flow_facts.specs.Words.{program_of, code_seen, IsFormed, part_seen, parts_seen};

use crate::Tried;
use crate::enclosing::Enclosing;
use crate::operands::{
    NOTHING, call_operand, class_object, creation, labelled, slot_of_method, super_operand,
    this_operand, variable_operand,
};
use crate::types::{
    call_declaration, element_object, field_object, method_object, number_of, object_field,
    object_of,
};
use flow_rules::{Operand, Part, PointItem, RowItem};
use java_core::{BinOp, RExpr, maker_of, super_method};
use kaba_base::{ClassId, Name, Place, put};

/// Whether a creation there is the base of a field access: `.length` of an array is none.
pub fn is_accessed(e: &RExpr) -> bool
    ensures value { (n : ℕ) → result ≡ plain.is_accessed (label n (expr_of e.now)) }
{
    match e {
        RExpr::NewArray { .. } => false,
        _ => true,
    }
}

/// Adds a part.
pub fn add(parts: &mut Vec<Part>, part: Part) -> Tried<()>
    ensures { OnOk result (IsAdded parts.old.items parts.new.items 1 (part_seen part ∷ [])) }
{
    put(parts, part)
}

/// Puts a part in the place of one that was kept free.
fn fill(parts: &mut Vec<Part>, at: usize, part: Part)
    requires { at < length parts.old.items }
    ensures grown { length parts.new.items ≡ length parts.old.items }
    ensures parts { (xs ys : List plain.Part) (q : plain.Part) → length xs ≡ at → parts_seen parts.old.items
        ≡ xs ++ q ∷ ys → parts_seen parts.new.items ≡ xs ++ part_seen part ∷ ys }
{
    parts[at] = part;
}

/// Adds the parts of an expression, and gives what it is. `used` says whether a creation there is a flow point.
#[cycle(walk)]
pub fn walk(within: &Enclosing, used: bool, e: &RExpr, parts: &mut Vec<Part>) -> Tried<Operand>
    requires { IsFormed (program_of within.now.program.now) }
    ensures { IfOk result (λ o. IsWalked (program_of within.now.program.now) within.now.number (code_seen within.now.code)
        used (expr_of e.now) parts.old.items parts.new.items o) }
{
    match e {
        RExpr::Int { .. }
        | RExpr::Char { .. }
        | RExpr::Str { .. }
        | RExpr::Bool { .. }
        | RExpr::Null { .. } => Ok(NOTHING),
        RExpr::This { .. } => Ok(this_operand(within)),
        RExpr::Local { local, .. } => Ok(variable_operand(within, *local)),
        RExpr::Static { field, .. } => Ok(Operand {
            point: Some(PointItem::Static(field.0 as u64)),
            row: Some(RowItem::Field(field.0 as u64)),
            ty: field_object(within.program, field.0),
            created: None,
        }),
        RExpr::Own { field, place } => {
            let row = Some(RowItem::Field(field.0 as u64));
            let own = labelled(
                within.number,
                parts.len(),
                row,
                field_object(within.program, field.0),
            );
            let this = this_operand(within);
            made!(add(parts, Part::Load(*place, this, Some(field.0), own)));
            Ok(own)
        }
        RExpr::Field { base, name, place } => {
            let accessed = is_accessed(base);
            let base = made!(walk(within, accessed, base, parts));
            add_load(within, *place, base, name, parts)
        }
        RExpr::Index { base, at, place } => {
            let base = made!(walk(within, true, base, parts));
            let own = labelled(
                within.number,
                parts.len(),
                base.row,
                element_object(base.ty),
            );
            made!(add(parts, Part::Element(*place, base, own)));
            made!(walk(within, false, at, parts));
            Ok(own)
        }
        RExpr::Call {
            base,
            name,
            args,
            place,
        } => match base {
            None => {
                let this = this_operand(within);
                add_call(within, *place, this, name, args, parts)
            }
            Some(base) => {
                let base = made!(walk(within, true, base, parts));
                add_call(within, *place, base, name, args, parts)
            }
        },
        RExpr::StaticCall {
            method: callee,
            args,
            place,
        } => { add_static_call(within, *place, callee.0, args, parts) }
        RExpr::SuperCall { name, args, place } => {
            add_super_call(within, *place, name, args, parts)
        }
        RExpr::New {
            number,
            class,
            args,
            place,
        } => { add_creation(within, used, *place, *number, *class, args, parts) }
        RExpr::NewArray {
            number,
            ty,
            size,
            place,
        } => {
            let own = creation(within.number, parts.len(), *number, object_of(*ty));
            let none = Vec::new(within.alloc);
            made!(add(parts, Part::New(*place, used, own, None, None, none)));
            made!(walk(within, false, size, parts));
            Ok(own)
        }
        RExpr::Cast {
            number,
            ty,
            value,
            place,
        } => {
            let row = Some(RowItem::Cast(*number as u64));
            let own = labelled(within.number, parts.len(), row, object_of(*ty));
            let at = parts.len();
            made!(add(parts, Part::Test(*place, NOTHING, own)));
            let value = made!(walk(within, true, value, parts));
            fill(parts, at, Part::Test(*place, value, own));
            Ok(own)
        }
        RExpr::InstanceOf {
            number,
            value,
            class,
            place,
        } => {
            let value = made!(walk(within, true, value, parts));
            let row = Some(RowItem::Test(*number as u64));
            let own = labelled(within.number, parts.len(), row, class_object(*class));
            made!(add(parts, Part::Test(*place, value, own)));
            Ok(NOTHING)
        }
        RExpr::Unary { value, .. } => {
            made!(walk(within, false, value, parts));
            Ok(NOTHING)
        }
        RExpr::Binary {
            op,
            left,
            right,
            ..
        } => {
            let left = made!(walk(within, false, left, parts));
            let right = made!(walk(within, false, right, parts));
            made!(add(parts, Part::Pair(*op, left, right)));
            Ok(NOTHING)
        }
    }
}

/// Adds the read of a field, and gives what it is.
fn add_load(
    within: &Enclosing,
    place: Place,
    base: Operand,
    name: &Name,
    parts: &mut Vec<Part>,
) -> Tried<Operand>
    requires { IsFormed (program_of within.now.program.now) }
    ensures { IfOk result (λ o. IsOperandMade parts.old.items parts.new.items 1
        (plain.a_load place base (object_field (program_of within.now.program.now) base.ty name.now)
        (load_operand (program_of within.now.program.now) within.now.number (length parts.old.items) base.ty name.now) ∷ []) o
        (load_operand (program_of within.now.program.now) within.now.number (length parts.old.items) base.ty name.now)) }
{
    let field = object_field(within.program, base.ty, name);
    let (row, ty) = match field {
        Some(field) => (
            Some(RowItem::Field(field as u64)),
            field_object(within.program, field),
        ),
        None => (None, None),
    };
    let own = labelled(within.number, parts.len(), row, ty);
    made!(add(parts, Part::Load(place, base, field, own)));
    Ok(own)
}

/// Adds the parts of arguments, and gives what they are.
#[cycle(walk)]
fn walk_all(
    within: &Enclosing,
    used: bool,
    args: &Vec<RExpr>,
    parts: &mut Vec<Part>,
) -> Tried<Vec<Operand>>
    requires { IsFormed (program_of within.now.program.now) }
    ensures { IfOk result (λ o. AreWalked (program_of within.now.program.now) within.now.number (code_seen within.now.code) used
        (exprs args.now.items) parts.old.items parts.new.items o.items) }
{
    let mut list = Vec::new(within.alloc);
    for e in args {
        let operand = made!(walk(within, used, e, parts));
        made!(put(&mut list, operand));
    }
    Ok(list)
}

/// Adds the parts of a call on a receiver, and gives what it is.
#[cycle(walk)]
fn add_call(
    within: &Enclosing,
    place: Place,
    base: Operand,
    name: &Name,
    args: &Vec<RExpr>,
    parts: &mut Vec<Part>,
) -> Tried<Operand>
    requires { IsFormed (program_of within.now.program.now) }
    ensures { IfOk result (λ o. IsOperandMade parts.old.items parts.new.items (1 + sizes (exprs args.now.items))
        (call_from (program_of within.now.program.now) within.now.number (code_seen within.now.code) place base name.now
        (length parts.old.items) (exprs args.now.items)) o
        (call_operand (program_of within.now.program.now) within.now.number (length parts.old.items) base.ty name.now)) }
{
    let at = parts.len();
    made!(add(parts, Part::Pair(BinOp::Both, NOTHING, NOTHING)));
    let args = made!(walk_all(within, true, args, parts));
    let declaration = call_declaration(within.program, base.ty, name);
    let slot = slot_of_method(within.program, declaration);
    let own = call_operand(within, at, slot);
    fill(
        parts,
        at,
        Part::Call(place, base, slot, declaration, args, own),
    );
    Ok(own)
}

/// Adds the parts of a creation, and gives what it is. `used` says whether it is a flow point; the object that a
/// constructor is called on always is.
#[cycle(walk)]
fn add_creation(
    within: &Enclosing,
    used: bool,
    place: Place,
    number: u32,
    class: ClassId,
    args: &Vec<RExpr>,
    parts: &mut Vec<Part>,
) -> Tried<Operand>
    requires { IsFormed (program_of within.now.program.now) }
    ensures { IfOk result (λ o. IsOperandMade parts.old.items parts.new.items (1 + sizes (exprs args.now.items))
        (creation_from (program_of within.now.program.now) within.now.number (code_seen within.now.code) used place number class.0
        (length parts.old.items) (exprs args.now.items)) o
        (creation_operand within.now.number (length parts.old.items) number class.0)) }
{
    let at = parts.len();
    made!(add(parts, Part::Pair(BinOp::Both, NOTHING, NOTHING)));
    let maker = number_of(maker_of(within.program, class));
    let is_made = maker.is_some();
    let args = made!(walk_all(within, is_made, args, parts));
    let slot = slot_of_method(within.program, maker);
    let own = creation(within.number, at, number, class_object(class));
    fill(
        parts,
        at,
        Part::New(place, used || is_made, own, slot, maker, args),
    );
    Ok(own)
}

/// Adds the parts of a call of a static method, and gives what it is.
#[cycle(walk)]
fn add_static_call(
    within: &Enclosing,
    place: Place,
    callee: u32,
    args: &Vec<RExpr>,
    parts: &mut Vec<Part>,
) -> Tried<Operand>
    requires { IsFormed (program_of within.now.program.now) }
    ensures { IfOk result (λ o. IsOperandMade parts.old.items parts.new.items (1 + sizes (exprs args.now.items))
        (plain.a_static_call place callee (args_from (program_of within.now.program.now) within.now.number (code_seen within.now.code)
        (length parts.old.items + 1) (exprs args.now.items))
        (static_operand (program_of within.now.program.now) within.now.number (length parts.old.items) callee)
        ∷ parts_from (program_of within.now.program.now) within.now.number (code_seen within.now.code) false
        (length parts.old.items + 1) (exprs args.now.items)) o
        (static_operand (program_of within.now.program.now) within.now.number (length parts.old.items) callee)) }
{
    let at = parts.len();
    made!(add(parts, Part::Pair(BinOp::Both, NOTHING, NOTHING)));
    let args = made!(walk_all(within, false, args, parts));
    let row = Some(RowItem::Result(callee as u64));
    let own = labelled(
        within.number,
        at,
        row,
        method_object(within.program, callee),
    );
    fill(parts, at, Part::StaticCall(place, callee, args, own));
    Ok(own)
}

/// Adds the parts of a super call, and gives what it is.
#[cycle(walk)]
fn add_super_call(
    within: &Enclosing,
    place: Place,
    name: &Name,
    args: &Vec<RExpr>,
    parts: &mut Vec<Part>,
) -> Tried<Operand>
    requires { IsFormed (program_of within.now.program.now) }
    ensures { IfOk result (λ o. IsOperandMade parts.old.items parts.new.items (1 + sizes (exprs args.now.items))
        (plain.a_super_call place (super_method (program_of within.now.program.now) within.now.code.owner.0 name.now)
        (args_from (program_of within.now.program.now) within.now.number (code_seen within.now.code)
        (length parts.old.items + 1) (exprs args.now.items))
        (super_operand (program_of within.now.program.now) within.now.number (length parts.old.items) within.now.code.owner.0 name.now)
        ∷ parts_from (program_of within.now.program.now) within.now.number (code_seen within.now.code) false
        (length parts.old.items + 1) (exprs args.now.items)) o
        (super_operand (program_of within.now.program.now) within.now.number (length parts.old.items) within.now.code.owner.0 name.now)) }
{
    let at = parts.len();
    made!(add(parts, Part::Pair(BinOp::Both, NOTHING, NOTHING)));
    let args = made!(walk_all(within, false, args, parts));
    let callee = number_of(super_method(within.program, within.code.owner, name));
    let own = super_operand(within, at, callee);
    fill(parts, at, Part::SuperCall(place, callee, args, own));
    Ok(own)
}
