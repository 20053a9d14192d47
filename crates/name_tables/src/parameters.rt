//! The parameters of a method, and what it gives back.
#![tactic(auto)]

ghost use Rattle.std.specs.Prelude.{◌≡◌, List, [], IfOk, OnOk};
ghost use Rattle.std.specs.declared.vec.Vec.{Vec};
ghost use Rattle.std.specs.declared.alloc.Global.{Global};
ghost use Rattle.java_core.specs.declared.Local.{Local};
ghost use Rattle.name_laws.specs.Answers.{GivesValue};
ghost use Rattle.name_laws.specs.Members.{param, params_of, result_of};
ghost use Rattle.name_laws.specs.Resolved.{bounds_from};

use crate::names::{Types, names_type, type_of};
use crate::numbers::number_at;
use crate::scope::Scope;
use java_core::{Local, Ty};
use java_tree::{Param, TypeName};
use name_rules::Refusal;
use std::alloc::Global;

/// One parameter more, in scope.
#[tactic(auto, using(crate::proofs::ParamScopes::has_bound, crate::proofs::ParamScopes::bounds_more))]
fn param(
    alloc: Global,
    known: &Types,
    locals: &mut Vec<Local>,
    scope: &mut Scope,
    one: &Param,
) -> Result<(), Refusal>
    requires bound { scope.old ≡ bounds_from 0 locals.old.items }
    ensures given { GivesValue (λ _. locals.new.items) result (param known.now locals.old.items one.now) }
    ensures bound { OnOk result (scope.new ≡ bounds_from 0 locals.new.items) }
{
    let ty = type_of(alloc, known, &one.ty)?;
    if names_type(alloc, known, &one.name)? {
        return Err(Refusal::TwoKinds(one.name.copy(alloc)?, one.place));
    }
    if scope.number_of(&one.name).is_some() {
        return Err(Refusal::Twice(one.name.copy(alloc)?, one.place));
    }
    let number = number_at(locals.len())?;
    scope.add(alloc, &one.name, number)?;
    locals.push(Local {
        name: one.name.copy(alloc)?,
        ty,
        place: one.place,
    })?;
    Ok(())
}

/// The parameters of a method, and all of them in scope.
pub fn params_in(
    alloc: Global,
    known: &Types,
    scope: &mut Scope,
    list: &[Param],
) -> Result<Vec<Local>, Refusal>
    requires none { scope.old ≡ [] }
    ensures given { GivesValue {A = Vec Local Global} {B = List Local} (λ v. v.items) result (params_of known.now list.now) }
    ensures bound { IfOk result (λ v. scope.new ≡ bounds_from 0 v.items) }
{
    let mut locals = Vec::new(alloc);
    for one in list {
        param(alloc, known, &mut locals, scope, one)?;
    }
    Ok(locals)
}

/// The parameters of a method.
pub fn params_of(alloc: Global, known: &Types, list: &[Param]) -> Result<Vec<Local>, Refusal>
    ensures { GivesValue {A = Vec Local Global} {B = List Local} (λ v. v.items) result (params_of known.now list.now) }
{
    let mut scope = Scope::new(alloc);
    params_in(alloc, known, &mut scope, list)
}

/// What a method gives back.
pub fn result_of(alloc: Global, known: &Types, ty: &Option<TypeName>) -> Result<Option<Ty>, Refusal>
    ensures { GivesValue (λ t. t) result (result_of known.now ty.now) }
{
    match ty {
        None => Ok(None),
        Some(ty) => Ok(Some(type_of(alloc, known, ty)?)),
    }
}
