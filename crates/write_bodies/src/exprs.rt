//! Expressions as they are written.

ghost use Rattle.std.specs.Prelude.{◌≡◌, IfOk};
ghost use Rattle.java_tree.specs.Syntax.{expr_of, exprs};
ghost use Rattle.java_core.specs.Trees as core;
ghost use Rattle.write_forms.specs.Sources.{IsSource};
ghost use Rattle.write_bodies.specs.Written.{expression, expressions};

use crate::within::Within;
use java_core::{RExpr, static_of};
use java_tree::unplaced::nowhere;
use java_tree::{Expr, build};
use kaba_base::made;
use std::alloc::AllocError;
use std::mem::drop;
use write_forms::{forms, infix_mark, prefix_mark, static_call, static_field, variable_name};

/// An expression of the method, as it is written for the hierarchy: the
/// form of the old one, with the types of the rows' nodes and the columns' names (after
/// Streckenbach and Snelting, 2004). `scope` has the numbers of the parameters and locals in scope,
/// from 0; a static member of the method's own class is written by its simple name unless one of
/// those has it. Each place is zero. `AllocError` where memory is short; no other error.
#[cycle(exprs)]
pub fn expr(within: &Within, scope: &Vec<u32>, tree: &RExpr) -> Result<Expr, AllocError>
    requires { IsSource within.now.source.now }
    ensures value { IfOk result (λ e. expr_of e ≡ expression within.now scope.now.items (core.expr_of tree.now)) }
{
    match tree {
        RExpr::Int { value, .. } => Ok(Expr::Int {
            value: *value,
            place: nowhere(),
        }),
        RExpr::Char { value, .. } => Ok(Expr::Char {
            value: *value,
            place: nowhere(),
        }),
        RExpr::Str { units, .. } => Ok(Expr::Str {
            units: units.copy(within.source.alloc)?,
            place: nowhere(),
        }),
        RExpr::Bool { value, .. } => Ok(Expr::Bool {
            value: *value,
            place: nowhere(),
        }),
        RExpr::Null { .. } => Ok(Expr::Null { place: nowhere() }),
        RExpr::This { .. } => Ok(Expr::This { place: nowhere() }),
        RExpr::Local { local, .. } => Ok(Expr::Name {
            name: variable_name(within.source.alloc, &within.code, *local)?,
            place: nowhere(),
        }),
        RExpr::Static { field, .. } => static_field(within.source, &within.code, scope, *field),
        RExpr::Own { field, .. } => forms::own_field(within.source, *field),
        RExpr::Field { base, name, .. } => {
            let found = static_of(within.source.program, &within.code, base);
            let base = expr(within, scope, base)?;
            forms::field(within.source, found, name, base)
        }
        RExpr::Index { base, at, .. } => {
            let base = expr(within, scope, base)?;
            let at = made!(expr(within, scope, at); base);
            build::index(within.source.alloc, base, at, nowhere())
        }
        RExpr::Call {
            base,
            name,
            args,
            ..
        } => match base {
            None => {
                let args = all(within, scope, args)?;
                forms::own_call(within.source, within.code.owner, name, args)
            }
            Some(base) => {
                let found = static_of(within.source.program, &within.code, base);
                let on = expr(within, scope, base)?;
                let args = made!(all(within, scope, args); on);
                forms::call(within.source, found, name, on, args)
            }
        },
        RExpr::StaticCall {
            method: called,
            args,
            ..
        } => {
            let args = all(within, scope, args)?;
            static_call(within.source, &within.code, scope, *called, args)
        }
        RExpr::SuperCall { name, args, .. } => {
            let args = all(within, scope, args)?;
            forms::super_call(within.source, within.code.owner, name, args)
        }
        RExpr::New {
            number,
            class,
            args,
            ..
        } => {
            let args = all(within, scope, args)?;
            forms::creation(within.source, *number, *class, args)
        }
        RExpr::NewArray {
            number,
            ty,
            size,
            ..
        } => {
            let size = expr(within, scope, size)?;
            forms::array(within.source, *number, *ty, size)
        }
        RExpr::Cast {
            number,
            ty,
            value,
            ..
        } => {
            let value = expr(within, scope, value)?;
            forms::cast(within.source, *number, *ty, value)
        }
        RExpr::InstanceOf {
            number,
            value,
            class,
            ..
        } => {
            let value = expr(within, scope, value)?;
            forms::test(within.source, *number, *class, value)
        }
        RExpr::Unary { op, value, .. } => {
            let value = expr(within, scope, value)?;
            build::unary(within.source.alloc, prefix_mark(*op), value, nowhere())
        }
        RExpr::Binary {
            op,
            left,
            right,
            ..
        } => {
            let left = expr(within, scope, left)?;
            let right = made!(expr(within, scope, right); left);
            build::binary(within.source.alloc, infix_mark(*op), left, right, nowhere())
        }
    }
}

/// Arguments.
#[cycle(exprs)]
fn all(within: &Within, scope: &Vec<u32>, list: &Vec<RExpr>) -> Result<Vec<Expr>, AllocError>
    requires { IsSource within.now.source.now }
    ensures value { IfOk result (λ v. exprs v.items ≡ expressions within.now scope.now.items (core.exprs list.now.items)) }
{
    let mut done = Vec::new(within.source.alloc);
    for one in list {
        let written = made!(expr(within, scope, one); done);
        made!(done.push(written) => AllocError; done);
    }
    Ok(done)
}
