//! The code of what sets a variable.

ghost use Rattle.std.specs.Prelude.{◌≡◌, ◌+◌, ◌++◌, ◌∷◌, Option, Some, None, Bool, OnOk};
ghost use Rattle.std.specs.Option.{option_map, option_map_or};
ghost use Rattle.run_compile.specs.Words.{Tag, expr_of, value_of, default_of, operand_of, operand, plain, env, IsScopeReady};
ghost use Rattle.java_core.specs.Trees.{target_of, to_field, to_element};
ghost use Rattle.java_meaning.specs.Moment.{Nothing};
ghost use Rattle.run_code.specs.Ops.{slot, constant};
ghost use Rattle.run_code.specs.Code.{code_local, code_initial, code_assign, default_op, store_op};

use crate::code::{Code, further};
use crate::expressions::{compile, compile_to};
use crate::operands::operand;
use crate::scope::{Scope, Site, field_of, is_int_field, is_int_local, local_type, place_of};
use java_core::{RExpr, Ty};
use java_heap::{Value, default_of};
use kaba_base::{MemberId, Name};
use run_code::{Calc, Destination, Effect, Instr, Operand, Tried};

/// A local is set.
fn compile_local(code: &mut Code, site: Site, local: u32, value: &RExpr) -> Tried<()>
    requires { IsScopeReady site.scope.now }
    ensures { OnOk result (code.new ≡ code_local (plain site.entry.scope.now) (env site.entry.scope.now) local
        (expr_of value.now) site.entry.at ++ code.old) }
{
    let to = Destination {
        is_int: is_int_local(site.scope, local),
        slot: further(1, local)?,
    };
    compile_to(code, site, value, to)
}

/// The value that something of a type has by itself.
pub fn default_operand(ty: Option<Ty>) -> Operand
    ensures { operand_of result ≡ constant (option_map_or default_of ty Nothing) }
{
    match ty {
        Some(ty) => default_in(ty),
        None => Operand::Null,
    }
}

/// The value that something of the type has by itself.
fn default_in(ty: Ty) -> Operand
    ensures { operand_of result ≡ constant (default_of ty) }
{
    match default_of(ty) {
        Value::Int(number) => Operand::Int(number),
        Value::Bool(truth) => Operand::Bool(truth),
        Value::Char(unit) => Operand::Char(unit),
        Value::Null => Operand::Null,
        Value::Str(_) => Operand::Null,
        Value::Ref(_) => Operand::Null,
    }
}

/// A local has the value that something of its type has by itself.
fn set_default(code: &mut Code, scope: &Scope, local: u32) -> Tried<()>
    requires { IsScopeReady scope.now }
    ensures { OnOk result (code.new ≡ default_op (plain scope.now) (env scope.now) local ∷ code.old) }
{
    let slot = further(1, local)?;
    let value = default_operand(local_type(scope, local));
    code.set(plainly!(slot), Calc::Copy(value))
}

/// The declaration of a local.
pub fn compile_declaration(
    code: &mut Code,
    site: Site,
    local: u32,
    value: &Option<RExpr>,
) -> Tried<()>
    requires { IsScopeReady site.scope.now }
    ensures { OnOk result (code.new ≡ default_op (plain site.entry.scope.now) (env site.entry.scope.now) local ∷ (code_initial (plain site.entry.scope.now)
        (env site.entry.scope.now) local (value_of value.now) site.entry.at ++ code.old)) }
{
    match value {
        Some(value) => {
            compile_local(code, site, local, value)?;
            set_default(code, site.scope, local)
        }
        None => set_default(code, site.scope, local),
    }
}

/// An assignment.
pub fn compile_assignment(code: &mut Code, site: Site, target: &RExpr, value: &RExpr) -> Tried<()>
    requires { IsScopeReady site.scope.now }
    ensures { OnOk result (code.new ≡ code_assign (plain site.entry.scope.now) (env site.entry.scope.now) (target_of target.now)
        (expr_of value.now) site.entry.at ++ code.old) }
{
    match target {
        RExpr::Local { local, .. } => compile_local(code, site, *local, value),
        RExpr::Static { field, .. } => {
            let effect = Effect::KeepStatic(field.0, operand(value, site.at)?);
            code.put(Instr::Act(effect))?;
            compile(code, site, value)
        }
        RExpr::Own { field, .. } => {
            let value_at = operand(value, site.at)?;
            store(code, site.scope, Some(*field), Operand::Slot(0), value_at)?;
            compile(code, site, value)
        }
        RExpr::Field { base, name, .. } => { store_field(code, site, base, name, value) }
        RExpr::Index {
            base,
            at: index,
            ..
        } => { store_element(code, site, base, index, value) }
        _ => Ok(()),
    }
}

/// A field of an object is set.
fn store(
    code: &mut Code,
    scope: &Scope,
    field: Option<MemberId>,
    object: Operand,
    value: Operand,
) -> Tried<()>
    requires { IsScopeReady scope.now }
    ensures { OnOk result (code.new ≡ store_op (plain scope.now) (env scope.now) (option_map (λ f. f.0) field) (operand_of object) (operand_of value) ∷
        code.old) }
{
    match field {
        Some(field) => {
            let place = place_of(scope, field);
            let is_int = is_int_field(scope, field);
            code.put(Instr::Save(object, place, is_int, value))
        }
        None => code.put(Instr::Act(Effect::Lacks(object))),
    }
}

/// A field of what an expression gives is set.
fn store_field(code: &mut Code, site: Site, base: &RExpr, name: &Name, value: &RExpr) -> Tried<()>
    requires { IsScopeReady site.scope.now }
    ensures { (t : Tag) → OnOk result (code.new ≡ code_assign (plain site.entry.scope.now) (env site.entry.scope.now)
        (to_field t (expr_of base.now) name.now) (expr_of value.now) site.entry.at ++ code.old) }
{
    let next = further(site.at, 1)?;
    let field = field_of(site.scope, base, name);
    store(
        code,
        site.scope,
        field,
        operand(base, site.at)?,
        operand(value, next)?,
    )?;
    compile(code, above!(site, next), value)?;
    compile(code, site, base)
}

/// An element of an array is set.
fn store_element(
    code: &mut Code,
    site: Site,
    base: &RExpr,
    index: &RExpr,
    value: &RExpr,
) -> Tried<()>
    requires { IsScopeReady site.scope.now }
    ensures { (t : Tag) → OnOk result (code.new ≡ code_assign (plain site.entry.scope.now) (env site.entry.scope.now) (to_element t (expr_of base.now)
        (expr_of index.now)) (expr_of value.now) site.entry.at ++ code.old) }
{
    let next = further(site.at, 1)?;
    let last = further(site.at, 2)?;
    let array = operand(base, site.at)?;
    let place = operand(index, next)?;
    code.put(Instr::KeepElement(array, place, operand(value, last)?))?;
    compile(code, above!(site, last), value)?;
    compile(code, above!(site, next), index)?;
    compile(code, site, base)
}
