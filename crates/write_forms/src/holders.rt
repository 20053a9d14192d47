//! Variables by their names, and static members by their simple name or by that of their holder.

ghost use Rattle.std.specs.Prelude.{◌≡◌, IfOk};
ghost use Rattle.java_tree.specs.Syntax.{expr_of, exprs};
ghost use Rattle.java_core.specs.Programs.{code_seen};
ghost use Rattle.write_model.specs.Bodies as written;
ghost use Rattle.write_forms.specs.Sources.{old_program};

use crate::given::Source;
use crate::names::{class_name, is_same, no_name};
use flow_rules::variable_at;
use java_core::Code;
use java_tree::unplaced::nowhere;
use java_tree::{Expr, build};
use kaba_base::{ClassId, MemberId, Name};
use std::alloc::{AllocError, Global};

/// The name of a parameter or a local of a body.
pub fn variable_name(alloc: Global, code: &Code, number: u32) -> Result<Name, AllocError>
    ensures { IfOk result (λ n. n ≡ written.variable_name (code_seen code.now) number) }
{
    match variable_at(code, number as u64) {
        Some(variable) => variable.name.copy(alloc),
        None => no_name(alloc),
    }
}

/// Whether a parameter or local has the name.
fn is_named(code: &Code, number: u32, name: &Name) -> bool
    ensures { result ≡ written.is_named (code_seen code.now) name.now number }
{
    match variable_at(code, number as u64) {
        Some(variable) => is_same(&variable.name, name),
        None => false,
    }
}

/// Whether one of the parameters and locals in scope has the name.
fn is_in_scope(code: &Code, scope: &Vec<u32>, name: &Name) -> bool
    ensures { result ≡ written.is_in_scope (code_seen code.now) scope.now.items name.now }
{
    for number in scope {
        if is_named(code, *number, name) {
            return true;
        }
    }
    false
}

/// Whether a static member is written by its simple name: inside its own holder, where no parameter
/// or local in scope has that name.
fn is_simple(code: &Code, scope: &Vec<u32>, owner: ClassId, name: &Name) -> bool
    ensures { result ≡ written.is_simple (code_seen code.now) scope.now.items owner.0 name.now }
{
    code.is_static && code.owner == owner && !is_in_scope(code, scope, name)
}

/// A static field.
pub fn static_field(
    source: &Source,
    code: &Code,
    scope: &Vec<u32>,
    field: MemberId,
) -> Result<Expr, AllocError>
    ensures { IfOk result (λ e. expr_of e ≡ written.static_field_name (old_program source.now) (code_seen code.now) scope.now.items field.0) }
{
    let Some(field) = source.program.fields.get(field.0 as usize) else {
        return Ok(Expr::Null { place: nowhere() });
    };
    let name = field.name.copy(source.alloc)?;
    if is_simple(code, scope, field.owner, &name) {
        return Ok(Expr::Name {
            name,
            place: nowhere(),
        });
    }
    let holder = class_name(source, field.owner)?;
    let holder = Expr::Name {
        name: holder,
        place: nowhere(),
    };
    build::field(source.alloc, holder, name, nowhere())
}

/// A call of a static method.
pub fn static_call(
    source: &Source,
    code: &Code,
    scope: &Vec<u32>,
    called: MemberId,
    args: Vec<Expr>,
) -> Result<Expr, AllocError>
    ensures { IfOk result (λ e. expr_of e ≡ written.static_call_name (old_program source.now) (code_seen code.now) scope.now.items called.0
        (exprs args.items)) }
{
    let Some(called) = source.program.methods.get(called.0 as usize) else {
        return Ok(Expr::Null { place: nowhere() });
    };
    let name = called.name.copy(source.alloc)?;
    if is_simple(code, scope, called.owner, &name) {
        return Ok(build::call(name, args, nowhere()));
    }
    let holder = class_name(source, called.owner)?;
    let holder = Expr::Name {
        name: holder,
        place: nowhere(),
    };
    build::call_on(source.alloc, holder, name, args, nowhere())
}
