//! The code of bodies.

ghost use Rattle.std.specs.Prelude.{◌≡◌, ◌+◌, ◌++◌, [], map, IfOk, OnOk};
ghost use Rattle.std.specs.Option.{option_map};
ghost use Rattle.run_compile.specs.Words.{Sts, stmts, code_seen, local_seen, types_of, body_with, default_of, op_of, is_int, plain, IsScopeReady};
ghost use Rattle.java_heap.specs.Seen.{value_of};
ghost use Rattle.run_code.specs.Seen.{entry_of};
ghost use Rattle.run_code.specs.Code.{body_slots, body_code};
ghost use Rattle.run_compile.specs.Bodies.{IsBodyCode, IsMethodCode};

use crate::assignments::default_operand;
use crate::code::{Code, further, small};
use crate::scope::{Scope, Site, is_int};
use crate::statements::{Exits, compile_stmts};
use java_core::{Local, RStmt};
use java_heap::{Value, default_of};
use run_code::{Entry, Instr, Tried};
use std::alloc::Global;

/// How many slots a body has for itself, its parameters and its locals.
fn slots(scope: &Scope) -> Tried<u32>
    ensures { IfOk result (λ n. (xs : Sts) → n ≡ body_slots (body_with 0 (code_seen scope.now.code) xs)) }
{
    let params = small(scope.code.params.len())?;
    let locals = small(scope.code.locals.len())?;
    further(1, further(params, locals)?)
}

/// The code of a body.
#[tactic(auto, unfolding(crate::specs::Scopes::env))]
fn compile_body(code: &mut Code, scope: &Scope, body: &Vec<RStmt>) -> Tried<()>
    requires { IsScopeReady scope.now }
    ensures { OnOk result (code.new ≡ body_code (plain scope.now) (body_with scope.now.number.0 (code_seen scope.now.code)
        (stmts body.now.items)) ++ code.old) }
{
    code.put(Instr::Give(false, default_operand(scope.code.result)))?;
    let end = code.len();
    let exits = Exits {
        broke: end,
        next: end,
    };
    let site = Site {
        scope,
        at: slots(scope)?,
    };
    compile_stmts(code, site, body, exits)?;
    Ok(())
}

/// Which of some parameters are an `int`.
fn ints(alloc: Global, params: &Vec<Local>) -> Tried<Vec<bool>>
    ensures { IfOk result (λ v. v.items ≡ map (λ t. is_int (Some t)) (types_of (map local_seen params.now.items))) }
{
    let mut ints = Vec::new(alloc);
    for param in params {
        ints.push(is_int(Some(param.ty)))?;
    }
    Ok(ints)
}

/// The values that some locals begin with.
fn defaults(alloc: Global, locals: &Vec<Local>) -> Tried<Vec<Value>>
    ensures { IfOk result (λ v. map value_of v.items ≡ map default_of (types_of (map local_seen locals.now.items))) }
{
    let mut values = Vec::new(alloc);
    for local in locals {
        values.push(default_of(local.ty))?;
    }
    Ok(values)
}

/// Code that stands behind what stands already.
fn append(code: &mut Vec<Instr>, part: &mut Code) -> Tried<()>
    ensures { OnOk result (map op_of code.new.items ≡ map op_of code.old.items ++ part.old) }
{
    while let Some(instr) = part.take() {
        code.push(instr)?;
    }
    Ok(())
}

/// A body is put behind the code that stands already; and where it begins.
fn add_body(code: &mut Vec<Instr>, scope: &Scope, body: &Vec<RStmt>) -> Tried<Entry>
    requires { IsScopeReady scope.now }
    ensures { IfOk result (λ e. IsBodyCode (plain scope.now) (body_with scope.now.number.0 (code_seen scope.now.code)
        (stmts body.now.items)) (map op_of code.old.items) (map op_of code.new.items) (entry_of e)) }
{
    let mut part = Code::new(scope.alloc);
    compile_body(&mut part, scope, body)?;
    let entry = Entry {
        pc: small(code.len())?,
        ints: ints(scope.alloc, scope.code.params)?,
        rest: defaults(scope.alloc, scope.code.locals)?,
    };
    append(code, &mut part)?;
    Ok(entry)
}

/// The body of a method, where it has one, is put behind the code that stands already.
pub fn add_method(code: &mut Vec<Instr>, scope: &Scope) -> Tried<Option<Entry>>
    requires { IsScopeReady scope.now }
    ensures { IfOk result (λ o. IsMethodCode (plain scope.now) scope.now.number.0 (code_seen scope.now.code) (map op_of code.old.items)
        (map op_of code.new.items) (option_map entry_of o)) }
{
    match scope.code.body {
        Some(body) => Ok(Some(add_body(code, scope, body)?)),
        None => Ok(None),
    }
}
