//! The locals of a body and the parts of its statements.
#![tactic(auto)]

ghost use Rattle.std.specs.Prelude.{◌≡◌, IfOk, Option, List};
ghost use Rattle.java_tree.specs.Syntax.{expr_of, value_of};
ghost use Rattle.java_core.specs.Trees as core;
ghost use Rattle.java_core.specs.Trees.{Ex, St};
ghost use Rattle.java_core.specs.declared.RExpr.{RExpr};
ghost use Rattle.java_core.specs.declared.RStmt.{RStmt};
ghost use Rattle.name_rules.specs.declared.parts.Bound.{Bound};
ghost use Rattle.name_laws.specs.Answers.{GivesValue};
ghost use Rattle.name_laws.specs.Statements.{LocalsState, clash, walk_expr, walk_value, walk_local};
ghost use Rattle.name_bodies.specs.Views.{table_at, state_of};

use crate::Named;
use crate::declarations::Enclosing;
use crate::exprs::expr;
use crate::meanings::next;
use java_core::{Local, RExpr, RStmt};
use java_tree::{Expr, TypeName};
use kaba_base::{Name, Place, made};
use name_rules::Refusal;
use name_tables::{Scope, names_type, type_of};
use std::alloc::AllocError;

/// The locals of a method so far, how many parameters and locals there are, and the next free number
/// of a creation, a cast or an `instanceof`.
#[derive(Drop)]
pub struct Body {
    pub locals: Vec<Local>,
    pub count: u32,
    pub number: u32,
}

/// Why no parameter and no local can have this name.
fn clash(
    within: &Enclosing,
    scope: &Scope,
    name: &Name,
    place: Place,
) -> Result<Option<Refusal>, AllocError>
    ensures { IfOk result (λ r. r ≡ clash (table_at within.now) scope.now name.now place) }
{
    if names_type(within.alloc, &within.tables.known, name)? {
        return Ok(Some(Refusal::TwoKinds(name.copy(within.alloc)?, place)));
    }
    if scope.number_of(name).is_some() {
        return Ok(Some(Refusal::Twice(name.copy(within.alloc)?, place)));
    }
    Ok(None)
}

/// An expression of a statement.
pub fn part(within: &Enclosing, scope: &Scope, body: &mut Body, tree: &Expr) -> Named<RExpr>
    ensures given { GivesValue {A = RExpr} {B = Ex × LocalsState} (λ e. (core.expr_of e, state_of body.new))
        result (walk_expr (table_at within.now) within.now.here scope.now (state_of body.old) (expr_of tree.now)) }
{
    expr(within, scope, &mut body.number, tree)
}

/// An expression that may be left out.
pub fn value(
    within: &Enclosing,
    scope: &Scope,
    body: &mut Body,
    tree: &Option<Expr>,
) -> Named<Option<RExpr>>
    ensures given { GivesValue {A = Option RExpr} {B = Option Ex × LocalsState}
        (λ e. (core.value_of e, state_of body.new)) result
        (walk_value (table_at within.now) within.now.here scope.now (state_of body.old) (value_of tree.now)) }
{
    match tree {
        None => Ok(None),
        Some(tree) => Ok(Some(part(within, scope, body, tree)?)),
    }
}

/// The declaration of a local of this type.
pub fn declaration(
    within: &Enclosing,
    scope: &mut Scope,
    body: &mut Body,
    ty: &TypeName,
    name: &Name,
    first: &Option<Expr>,
    place: Place,
) -> Named<RStmt>
    ensures given { GivesValue {A = RStmt} {B = St × List Bound × LocalsState}
        (λ s. (core.stmt_of s, scope.new, state_of body.new)) result
        (walk_local (table_at within.now) within.now.here scope.old (state_of body.old) ty.now name.now
        (value_of first.now) place) }
{
    let ty = made!(type_of(within.alloc, &within.tables.known, ty));
    if let Some(refusal) = clash(within, scope, name, place)? {
        return Err(refusal);
    }
    let number = made!(next(&mut body.count));
    scope.add(within.alloc, name, number)?;
    body.locals.push(Local {
        name: name.copy(within.alloc)?,
        ty,
        place,
    })?;
    let value = made!(value(within, scope, body, first));
    Ok(RStmt::Local {
        local: number,
        value,
        place,
    })
}
