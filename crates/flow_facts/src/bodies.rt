//! The parts of a body.

ghost use Rattle.std.specs.Prelude.{◌≡◌, ℕ, ◌+◌, ◌++◌, ◌∷◌, [], Bool, true, false, List, Option, Some, None, IfOk, OnOk, length};
ghost use Rattle.java_core.specs.Trees.{expr_of, value_of, target_of, stmt_of, stmts, arms_seen, else_seen, step_seen, body_seen};
ghost use Rattle.flow_rules.specs.Labels.{size, size_if, size_put, size_target, size_st, size_sts, size_arms, label, label_if, label_target, label_st, label_sts, label_arms};
ghost use Rattle.flow_rules.specs.Operands.{operand_of};
ghost use Rattle.flow_rules.specs.Parts as plain;
ghost use Rattle.flow_rules.specs.Types.{object_type};
ghost use Rattle.flow_facts.specs.Views.{static_place, variable_operand};
ghost use Rattle.flow_facts.specs.Walked.{IsAdded, IsGained, in_body};
ghost use Rattle.flow_facts.specs.Words.{program_of, code_seen, IsFormed, parts_seen};

use crate::Tried;
use crate::enclosing::Enclosing;
use crate::operands::{NOTHING, this_operand, variable_operand};
use crate::types::{field_object, object_field};
use crate::walk::{add, is_accessed, walk};
use flow_rules::{Operand, Part, PointItem, RowItem};
use java_core::{Program, RArm, RExpr, RStmt};
use kaba_base::Place;

/// What a static field is.
fn static_place(program: &Program, field: u32) -> Operand
    ensures value { result ≡ static_place (program_of program.now) field }
{
    Operand {
        point: Some(PointItem::Static(field as u64)),
        row: Some(RowItem::Field(field as u64)),
        ty: field_object(program, field),
        created: None,
    }
}

/// Adds the parts of a value that is put in a local or a static field, and of the putting.
fn walk_set(within: &Enclosing, target: Operand, value: &RExpr, parts: &mut Vec<Part>) -> Tried<()>
    requires { IsFormed (program_of within.now.program.now) }
    ensures { OnOk result (IsAdded parts.old.items parts.new.items (size (expr_of value.now) + 1)
        (in_body within.now plain.parts false
        (label (length parts.old.items) (expr_of value.now)) ++ plain.a_set target
        (in_body within.now operand_of
        (label (length parts.old.items) (expr_of value.now))) ∷ [])) }
{
    let value = made!(walk(within, false, value, parts));
    add(parts, Part::Set(target, value))
}

/// Adds the parts of an assignment.
fn walk_assign(
    within: &Enclosing,
    place: Place,
    target: &RExpr,
    value: &RExpr,
    parts: &mut Vec<Part>,
) -> Tried<()>
    requires { IsFormed (program_of within.now.program.now) }
    ensures { OnOk result (IsAdded parts.old.items parts.new.items (size_target (target_of target.now) + size (expr_of value.now) + 1)
        (in_body within.now plain.parts_assign place
        (label_target (length parts.old.items) (target_of target.now))
        (label ((length parts.old.items) + size_target (target_of target.now))
        (expr_of value.now)))) }
{
    match target {
        RExpr::Local { local, .. } => {
            walk_set(within, variable_operand(within, *local), value, parts)
        }
        RExpr::Static { field, .. } => {
            walk_set(within, static_place(within.program, field.0), value, parts)
        }
        RExpr::Own { field, .. } => {
            let value = made!(walk(within, true, value, parts));
            add(
                parts,
                Part::Store(place, this_operand(within), Some(field.0), value),
            )
        }
        RExpr::Field { base, name, .. } => {
            let accessed = is_accessed(base);
            let base = made!(walk(within, accessed, base, parts));
            let value = made!(walk(within, true, value, parts));
            let field = object_field(within.program, base.ty, name);
            add(parts, Part::Store(place, base, field, value))
        }
        RExpr::Index { base, at, .. } => {
            let base = made!(walk(within, true, base, parts));
            made!(walk(within, false, at, parts));
            let value = made!(walk(within, true, value, parts));
            add(parts, Part::ElementStore(place, base, value))
        }
        _ => { walk_set(within, NOTHING, value, parts) }
    }
}

/// Adds the parts of a value that may be missing.
fn walk_value(within: &Enclosing, value: &Option<RExpr>, parts: &mut Vec<Part>) -> Tried<()>
    requires { IsFormed (program_of within.now.program.now) }
    ensures { OnOk result (IsGained within.now parts.old.items parts.new.items size_if plain.parts_if label_if (value_of value.now)) }
{
    match value {
        Some(value) => {
            made!(walk(within, false, value, parts));
            Ok(())
        }
        None => Ok(()),
    }
}

/// Adds the parts of a value that is given back.
fn walk_return(within: &Enclosing, value: &Option<RExpr>, parts: &mut Vec<Part>) -> Tried<()>
    requires { IsFormed (program_of within.now.program.now) }
    ensures { OnOk result (IsGained within.now parts.old.items parts.new.items size_put plain.parts_return label_if (value_of value.now)) }
{
    match value {
        Some(value) => {
            let value = made!(walk(within, false, value, parts));
            add(parts, Part::Return(value))
        }
        None => Ok(()),
    }
}

/// Adds the parts of a statement.
#[cycle(statements)]
fn walk_stmt(within: &Enclosing, s: &RStmt, parts: &mut Vec<Part>) -> Tried<()>
    requires { IsFormed (program_of within.now.program.now) }
    ensures { OnOk result (IsGained within.now parts.old.items parts.new.items size_st plain.parts_st label_st (stmt_of s.now)) }
{
    match s {
        RStmt::Local { local, value, .. } => match value {
            Some(value) => walk_set(within, variable_operand(within, *local), value, parts),
            None => Ok(()),
        },
        RStmt::Block { items, .. } => { walk_stmts(within, items, parts) }
        RStmt::Assign {
            target,
            value,
            place,
        } => { walk_assign(within, *place, target, value, parts) }
        RStmt::Do { call, .. } => {
            made!(walk(within, false, call, parts));
            Ok(())
        }
        RStmt::Print { value, .. } => { walk_value(within, value, parts) }
        RStmt::If { arms, other, .. } => {
            made!(walk_arms(within, arms, other, parts));
            match other {
                Some(body) => { walk_stmts(within, body, parts) }
                None => Ok(()),
            }
        }
        RStmt::While { test, body, .. } => {
            made!(walk(within, false, test, parts));
            walk_stmts(within, body, parts)
        }
        RStmt::For {
            first,
            test,
            step,
            body,
            ..
        } => {
            made!(walk_step(within, first, parts));
            made!(walk_value(within, test, parts));
            made!(walk_step(within, step, parts));
            walk_stmts(within, body, parts)
        }
        RStmt::Return { value, .. } => { walk_return(within, value, parts) }
        RStmt::Break { .. } | RStmt::Continue { .. } => Ok(()),
    }
}

/// Adds the parts of the first or the last part of a `for`.
#[cycle(statements)]
fn walk_step(within: &Enclosing, step: &Option<Box<RStmt>>, parts: &mut Vec<Part>) -> Tried<()>
    requires { IsFormed (program_of within.now.program.now) }
    ensures { OnOk result (IsGained within.now parts.old.items parts.new.items size_sts plain.parts_sts label_sts (step_seen step.now)) }
{
    match step {
        Some(step) => { walk_stmt(within, step, parts) }
        None => Ok(()),
    }
}

/// Adds the parts of statements.
#[cycle(statements)]
fn walk_stmts(within: &Enclosing, body: &Vec<RStmt>, parts: &mut Vec<Part>) -> Tried<()>
    requires { IsFormed (program_of within.now.program.now) }
    ensures { OnOk result (IsGained within.now parts.old.items parts.new.items size_sts plain.parts_sts label_sts (stmts body.now.items)) }
{
    for s in body {
        made!(walk_stmt(within, s, parts));
    }
    Ok(())
}

/// Adds the parts of the arms of an `if`, which an `else` may follow.
#[cycle(statements)]
fn walk_arms(
    within: &Enclosing,
    arms: &Vec<RArm>,
    other: &Option<Vec<RStmt>>,
    parts: &mut Vec<Part>,
) -> Tried<()>
    requires { IsFormed (program_of within.now.program.now) }
    ensures grown { OnOk result (length parts.new.items + size_arms (else_seen other.now)
        ≡ length parts.old.items + size_arms
        (arms_seen arms.now.items (else_seen other.now))) }
    ensures parts { OnOk result (parts_seen parts.new.items ++ in_body within.now plain.parts_arms
        (label_arms (length parts.new.items) (else_seen other.now)) ≡ parts_seen parts.old.items
        ++ in_body within.now plain.parts_arms
        (label_arms (length parts.old.items)
        (arms_seen arms.now.items (else_seen other.now)))) }
{
    let _ = other;
    for arm in arms {
        made!(walk(within, false, &arm.test, parts));
        made!(walk_stmts(within, &arm.body, parts));
    }
    Ok(())
}

/// The parts of a method's body.
pub fn parts_of(of: &Enclosing) -> Tried<Vec<Part>>
    requires { IsFormed (program_of of.now.program.now) }
    ensures value { IfOk result (λ v. parts_seen v.items ≡ plain.parts_of (program_of of.now.program.now) of.now.number
        (code_seen of.now.code)) }
{
    let mut parts = Vec::new(of.alloc);
    match of.code.body {
        Some(body) => {
            made!(walk_stmts(of, body, &mut parts));
            Ok(parts)
        }
        None => Ok(parts),
    }
}
