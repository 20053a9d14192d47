//! Ties of rows: the lower gets all columns of the upper.

ghost use Rattle.std.specs.Prelude.{◌≡◌, ℕ, ◌++◌, List, Option, Some, None, OnOk, if◌then◌else◌};
ghost use Rattle.std.specs.Option.{is_some};
ghost use Rattle.flow_rules.specs.Lists.{left_is_lower, is_left_lower, narrower, same_type, tied, slot_ties, method_ties, param_row, ties_of, is_this, is_comparison};
ghost use Rattle.flow_facts.specs.Words.{Plain, program_of, IsFormed, part_seen, numbers_seen};

use crate::Tried;
use crate::by_number::method_by_number;
use crate::lists::{add_tied, row_at, row_in};
use crate::numbering::Numbering;
use crate::survey::result_row;
use fact_model::TieInfo;
use flow_rules::{ObjectType, Operand, Part, PointItem, RowItem};
use java_core::{BinOp, Program, is_subtype};

/// Whether it is `this`.
fn is_this(point: Option<PointItem>) -> bool
    ensures value { result ≡ is_this point }
{
    matches!(point, Some(PointItem::This(_)))
}

/// Whether a binary operator is `==` or `!=`.
fn is_comparison(op: BinOp) -> bool
    ensures value { result ≡ is_comparison op }
{
    match op {
        BinOp::Same | BinOp::Differs => true,
        _ => false,
    }
}

/// Whether the types have one class and one dimension.
fn same_type(left: ObjectType, right: ObjectType) -> bool
    ensures value { result ≡ same_type left right }
{
    left.class.0 == right.class.0 && left.dim == right.dim
}

/// Whether the first type is a subtype of the second, of one dimension.
fn narrower(program: &Program, left: ObjectType, right: ObjectType) -> bool
    requires { IsFormed (program_of program.now) }
    ensures value { result ≡ narrower (program_of program.now) left right }
{
    left.dim == right.dim && is_subtype(program, left.class, right.class)
}

/// Which of two rows of one type is the lower: a creation below what is none, `this` below what is neither, else the right.
fn left_is_lower(left: &Operand, right: &Operand) -> bool
    ensures value { result ≡ left_is_lower (is_some left.now.created) (is_this left.now.point) (is_some right.now.created) (is_this right.now.point) }
{
    let (made_left, made_right) = (left.created.is_some(), right.created.is_some());
    (made_left && !made_right) || (is_this(left.point) && !(made_right || is_this(right.point)))
}

/// Whether the left side of `==` or `!=` is the lower.
fn is_left_lower(
    program: &Program,
    left: &Operand,
    right: &Operand,
    s: ObjectType,
    t: ObjectType,
) -> bool
    requires { IsFormed (program_of program.now) }
    ensures value { result ≡ is_left_lower (program_of program.now) left.now right.now s t }
{
    if same_type(s, t) {
        left_is_lower(left, right)
    } else {
        narrower(program, s, t)
    }
}

/// Adds the tie of two rows, the first of which is the lower or the upper.
fn add_either(is_lower: bool, l: Option<u32>, r: Option<u32>, ties: &mut Vec<TieInfo>) -> Tried<()>
    ensures value { OnOk result (ties.new.items ≡ ties.old.items ++ (if is_lower then tied l r else tied r l)) }
{
    if is_lower {
        add_tied(l, r, ties)
    } else {
        add_tied(r, l, ties)
    }
}

/// The row of a parameter of a method.
fn param_row(program: &Program, callee: u64, i: u64) -> Option<RowItem>
    ensures value { result ≡ param_row (program_of program.now) callee i }
{
    match method_by_number(program, callee) {
        Some(method) => match method.slot {
            Some(slot) if i < method.params.len() as u64 => { Some(RowItem::Param(slot as u64, i)) }
            _ => Some(RowItem::Local(callee, i)),
        },
        None => None,
    }
}

/// Adds the ties of the arguments of a call to the parameters of a slot.
fn add_slot_args(
    n: &Numbering,
    slot: u64,
    args: &Vec<Operand>,
    ties: &mut Vec<TieInfo>,
) -> Tried<()>
    ensures value { (P : Plain) → OnOk result (ties.new.items ≡ ties.old.items ++ slot_ties (numbers_seen n.now) P slot args.now.items) }
{
    for (i, arg) in args.iter().enumerate() {
        made!(add_tied(row_at(n, arg), n.row(RowItem::Param(slot, i as u64)), ties));
    }
    Ok(())
}

/// Adds the ties of the arguments of a call to the parameters of a method.
fn add_method_args(
    program: &Program,
    n: &Numbering,
    callee: u64,
    args: &Vec<Operand>,
    ties: &mut Vec<TieInfo>,
) -> Tried<()>
    ensures value { OnOk result (ties.new.items ≡ ties.old.items ++ method_ties (numbers_seen n.now) (program_of program.now) callee args.now.items) }
{
    for (i, arg) in args.iter().enumerate() {
        let parameter = row_in(n, param_row(program, callee, i as u64));
        made!(add_tied(row_at(n, arg), parameter, ties));
    }
    Ok(())
}

/// Adds the ties that a part of a method's body gives. The slot is the method's.
pub fn add_ties(
    program: &Program,
    n: &Numbering,
    m: u64,
    slot: Option<u32>,
    part: &Part,
    ties: &mut Vec<TieInfo>,
) -> Tried<()>
    requires { IsFormed (program_of program.now) }
    ensures value { OnOk result (ties.new.items ≡ ties.old.items ++ ties_of (numbers_seen n.now)
        (program_of program.now) m slot (part_seen part.now)) }
{
    match part {
        Part::Set(target, value) => add_tied(row_at(n, value), row_at(n, target), ties),
        Part::Return(value) => add_tied(row_at(n, value), n.row(result_row(m, slot)), ties),
        Part::Store(_, _, Some(field), value) => add_tied(
            row_at(n, value),
            n.row(RowItem::Field(*field as u64)),
            ties,
        ),
        Part::ElementStore(_, base, value) => add_tied(row_at(n, value), row_at(n, base), ties),
        Part::Call(_, _, Some(slot), _, args, _) | Part::New(_, _, _, Some(slot), _, args) => {
            add_slot_args(n, *slot as u64, args, ties)
        }
        Part::StaticCall(_, callee, args, _) => add_method_args(
            program,
            n,
            *callee as u64,
            args,
            ties,
        ),
        Part::SuperCall(_, Some(callee), args, _) => add_method_args(
            program,
            n,
            *callee as u64,
            args,
            ties,
        ),
        Part::Pair(op, left, right) if is_comparison(*op) => match (left.ty, right.ty) {
            (Some(s), Some(t)) => {
                let is_lower = is_left_lower(program, left, right, s, t);
                add_either(is_lower, row_at(n, left), row_at(n, right), ties)
            }
            _ => Ok(()),
        },
        Part::Test(_, operand, own) => match (operand.ty, own.ty) {
            (Some(s), Some(t)) => {
                let is_lower = is_subtype(program, s.class, t.class);
                add_either(is_lower, row_at(n, operand), row_at(n, own), ties)
            }
            _ => Ok(()),
        },
        _ => Ok(()),
    }
}
