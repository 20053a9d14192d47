//! What a constructor begins with.
#![tactic(auto)]

ghost use Rattle.std.specs.Prelude.{◌≡◌, ◌||◌, Ok};
ghost use Rattle.std.specs.declared.vec.Vec.{Vec};
ghost use Rattle.std.specs.declared.alloc.Global.{Global};
ghost use Rattle.java_core.specs.Trees.{Sts, exprs, stmts};
ghost use Rattle.java_core.specs.declared.RStmt.{RStmt};
ghost use Rattle.java_core.specs.Makers.{maker_name};
ghost use Rattle.name_laws.specs.Answers.{GivesValue};
ghost use Rattle.name_rules.specs.Resolves.{has_arguments};
ghost use Rattle.name_laws.specs.Resolved.{class_name_in, has_maker_in, above_at, beginning};
ghost use Rattle.name_bodies.specs.Views.{table_of};

use crate::declarations::Tables;
use crate::tables::{own_method, parent_of};
use crate::{Named, make};
use java_core::{RExpr, RStmt, maker_name};
use kaba_base::{ClassId, Name, Place, made};
use name_rules::Refusal;
use std::alloc::Global;

/// The name of the constructor of a class.
pub fn maker_named(alloc: Global, tables: &Tables, class: u32) -> Named<Name>
    ensures { GivesValue (λ name. name) result (Ok (maker_name (class_name_in (table_of tables.now) class))) }
{
    let class = tables.known.name_of(alloc, class)?;
    Ok(maker_name(alloc, &class)?)
}

/// Whether something is passed.
#[tactic(auto, using(crate::proofs::MakerLemmas::arguments_passed))]
fn has_arguments(args: &Vec<RExpr>) -> bool
    ensures { result ≡ has_arguments (exprs args.now.items) }
{
    !args.is_empty()
}

/// Whether the constructor of a class is called: it has one, or something is passed to it.
#[tactic(auto, unfolding(name_laws::specs::Tables::own_method))]
fn is_called(tables: &Tables, class: u32, name: &Name, args: &Vec<RExpr>) -> bool
    requires name { name.now ≡ maker_name (class_name_in (table_of tables.now) class) }
    ensures { result ≡ (has_maker_in (table_of tables.now) class || has_arguments (exprs args.now.items)) }
{
    own_method(tables, class, name).is_some() || has_arguments(args)
}

/// The call of the constructor of a class, where it has one or something is passed to it.
fn above_at(
    alloc: Global,
    tables: &Tables,
    class: ClassId,
    place: Place,
    args: Vec<RExpr>,
) -> Named<Vec<RStmt>>
    ensures { GivesValue {A = Vec RStmt Global} {B = Sts} (λ v. stmts v.items) result
        (Ok (above_at (table_of tables.now) class place (exprs args.items))) }
{
    let mut code = Vec::new(alloc);
    let name = made!(maker_named(alloc, tables, class.0); args, code);
    if !is_called(tables, class.0, &name, &args) {
        return Ok(code);
    }
    code.push(make::call_above(name, args, place))?;
    Ok(code)
}

/// What the code of a constructor of a class begins with: the call of that of the superclass.
pub fn beginning(
    alloc: Global,
    tables: &Tables,
    owner: u32,
    place: Place,
    args: Vec<RExpr>,
) -> Named<Vec<RStmt>>
    ensures { GivesValue {A = Vec RStmt Global} {B = Sts} (λ v. stmts v.items) result
        (Ok (beginning (table_of tables.now) owner place (exprs args.items))) }
{
    match parent_of(tables.parents.as_slice(), owner) {
        Some(parent) => above_at(alloc, tables, parent, place, args),
        None => Ok(Vec::new(alloc)),
    }
}
