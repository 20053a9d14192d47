//! The heads of methods.

ghost use Rattle.std.specs.Prelude.{◌≡◌, ◌∷◌, [], ◌<◌, IfOk};
ghost use Rattle.source_gen.specs.Words.{option_map, code_seen, local_seen, slot_seen, each, head_if, IsSource, old_program, renaming};
ghost use Rattle.kaba_base.specs.declared.words.Keyword.TheVariants as keyword;
ghost use Rattle.java_tree.specs.Syntax.{head_of};
ghost use Rattle.flow_rules.specs.Operands.{result_in};
ghost use Rattle.write_model.specs.Names as names;
ghost use Rattle.write_model.specs.Members as members;

use crate::parts::code_at;
use java_core::{Code, Local, Slot};
use java_tree::unplaced::nowhere;
use java_tree::{Head, Modifier, Param, TypeName};
use kaba_base::{Keyword, Name};
use std::alloc::{AllocError, Global};
use write_forms::{Source, method_name, modifier, result_row, row_type, variable_row};

/// A list of one modifier.
pub fn one_modifier(alloc: Global, word: Keyword) -> Result<Vec<Modifier>, AllocError>
    ensures { IfOk result (λ v. v.items ≡ names.modifier word ∷ []) }
{
    let mut list = Vec::new(alloc);
    list.push(modifier(word))?;
    Ok(list)
}

/// `public` and another modifier.
pub fn public_and(alloc: Global, other: Keyword) -> Result<Vec<Modifier>, AllocError>
    ensures { IfOk result (λ v. v.items ≡ names.modifier keyword.Public ∷ names.modifier other ∷ []) }
{
    let mut list = one_modifier(alloc, Keyword::Public)?;
    list.push(modifier(other))?;
    Ok(list)
}

/// A parameter: the type of its row's node.
fn param(
    source: &Source,
    m: u64,
    code: &Code,
    number: u64,
    local: &Local,
) -> Result<Param, AllocError>
    requires { IsSource source.now }
    ensures { IfOk result (λ p. p ≡ members.param (old_program source.now) (renaming source.now)
        source.now.hier.now m (code_seen code.now) number (local_seen local.now)) }
{
    let row = variable_row(m, code, number);
    let ty = row_type(source, row, local.ty)?;
    let name = local.name.copy(source.alloc)?;
    Ok(Param {
        is_final: false,
        ty,
        name,
        place: nowhere(),
    })
}

/// The parameters.
pub fn params(source: &Source, m: u64, code: &Code) -> Result<Vec<Param>, AllocError>
    requires { IsSource source.now }
    ensures { IfOk result (λ v. v.items ≡ each (λ i k. members.param (old_program source.now) (renaming source.now) source.now.hier.now m
        (code_seen code.now) i k ∷ []) 0 (code_seen code.now).params) }
{
    let mut list = Vec::new(source.alloc);
    for (i, local) in code.params.iter().enumerate() {
        let one = param(source, m, code, i as u64, local)?;
        list.push(one)?;
    }
    Ok(list)
}

/// What a body gives back: the type of its row's node; `None` is `void`.
fn result_type(source: &Source, m: u64, code: &Code) -> Result<Option<TypeName>, AllocError>
    requires { IsSource source.now }
    ensures { IfOk result (λ t. t ≡ option_map (names.written_type (old_program source.now) source.now.hier.now ((renaming source.now).row_type
        (result_in (code_seen code.now).slot m))) (code_seen code.now).result) }
{
    let Some(ty) = code.result else {
        return Ok(None);
    };
    let row = result_row(m, code);
    Ok(Some(row_type(source, row, ty)?))
}

/// The head of the method of the number `m`, under a name.
pub fn head(
    source: &Source,
    mods: Vec<Modifier>,
    name: Name,
    m: u64,
    code: &Code,
) -> Result<Head, AllocError>
    requires { IsSource source.now }
    ensures { IfOk result (λ h. head_of h ≡ members.head (old_program source.now) (renaming source.now) source.now.hier.now mods.items name m
        (code_seen code.now)) }
{
    let result = result_type(source, m, code)?;
    let params = params(source, m, code)?;
    Ok(Head {
        mods,
        result,
        name,
        params,
        place: nowhere(),
    })
}

/// The head of a slot, with the names of the parameters of its first method.
pub fn first_head(
    source: &Source,
    mods: Vec<Modifier>,
    slot: &Slot,
) -> Result<Option<Head>, AllocError>
    requires { IsSource source.now }
    ensures { IfOk result (λ h. head_if h ≡ members.first_head (old_program source.now) (renaming source.now) source.now.hier.now mods.items
        (slot_seen slot.now)) }
{
    let m = slot.first.0 as u64;
    let Some(code) = code_at(source.program, m) else {
        return Ok(None);
    };
    let name = method_name(source, m)?;
    let made = head(source, mods, name, m, &code)?;
    Ok(Some(made))
}
