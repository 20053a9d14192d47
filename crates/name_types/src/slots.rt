//! Slots: the first methods of their names, parameters and results.
#![tactic(auto)]

ghost use Rattle.std.specs.Prelude.{◌≡◌, ℕ, List, IfOk, OnOk, Ok, map, slice_get};
ghost use Rattle.java_core.specs.Types.{is_base};
ghost use Rattle.java_core.specs.Programs.{PlainSlot, slot_seen};
ghost use Rattle.name_laws.specs.Answers.{GivesValue};
ghost use Rattle.java_core.specs.Owned.{passes, first_among};
ghost use Rattle.name_types.specs.Keys.{AreKeyed};
ghost use Rattle.name_types.specs.Found.{fits};
ghost use Rattle.name_laws.specs.Members.{same_type, same_result, have_types, slot_in, slotted};

use crate::keys::slot_key;
use java_core::{Local, Slot, Ty, TyBase, listed_under, note_under};
use kaba_base::{MemberId, Name};
use name_rules::Refusal;
use name_tables::number_at;
use std::alloc::{AllocError, Global};

/// Whether the types are the same, without their dimensions.
pub fn is_base(a: TyBase, b: TyBase) -> bool
    ensures { result ≡ is_base a b }
{
    match a {
        TyBase::Int => matches!(b, TyBase::Int),
        TyBase::Boolean => matches!(b, TyBase::Boolean),
        TyBase::Char => matches!(b, TyBase::Char),
        TyBase::Str => matches!(b, TyBase::Str),
        TyBase::Class(class) => match b {
            TyBase::Class(other) => class.0 == other.0,
            _ => false,
        },
    }
}

fn same_type(a: Ty, b: Ty) -> bool
    ensures { result ≡ same_type a b }
{
    is_base(a.base, b.base) & (a.dim == b.dim)
}

fn same_result(a: Option<Ty>, b: Option<Ty>) -> bool
    ensures { result ≡ same_result a b }
{
    match a {
        None => b.is_none(),
        Some(a) => match b {
            None => false,
            Some(b) => same_type(a, b),
        },
    }
}

/// Whether the parameters have these types.
fn have_types(locals: &[Local], types: &[Ty]) -> bool
    ensures { result ≡ have_types locals.now types.now }
{
    match locals {
        [] => types.is_empty(),
        [local, locals @ ..] => match types {
            [] => false,
            [ty, types @ ..] => same_type(local.ty, *ty) & have_types(locals, types),
        },
    }
}

/// Whether a slot has this name, these parameters and this result.
fn is_fit(slot: &Slot, name: &Name, locals: &[Local], outcome: Option<Ty>) -> bool
    ensures { result ≡ fits name.now locals.now outcome slot.now }
{
    slot.name.same(name)
        & have_types(locals, slot.params.as_slice())
        & same_result(outcome, slot.result)
}

/// Whether the slot of this number has them.
fn is_slot_of(
    slots: &Vec<Slot>,
    at: usize,
    name: &Name,
    locals: &[Local],
    outcome: Option<Ty>,
) -> bool
    ensures { result ≡ passes (fits name.now locals.now outcome) (slice_get slots.now.items at) }
{
    match slots.get(at) {
        Some(slot) => is_fit(slot, name, locals, outcome),
        None => false,
    }
}

/// The first of these slots that has them.
fn slot_among(
    slots: &Vec<Slot>,
    list: &[usize],
    name: &Name,
    locals: &[Local],
    outcome: Option<Ty>,
) -> Option<usize>
    ensures { result ≡ first_among (fits name.now locals.now outcome) slots.now.items list.now }
{
    for at in list {
        if is_slot_of(slots, *at, name, locals, outcome) {
            return Some(*at);
        }
    }
    None
}

/// The slot of a name, parameters and a result.
fn slot_in(
    slots: &Vec<Slot>,
    keyed: &Vec<Vec<usize>>,
    name: &Name,
    locals: &[Local],
    outcome: Option<Ty>,
) -> Option<usize>
    requires { AreKeyed slots.now.items keyed.now.items }
    ensures { result ≡ slot_in name.now locals.now outcome (map slot_seen slots.now.items) }
{
    let list = listed_under(keyed, slot_key(name, locals, outcome));
    slot_among(slots, list, name, locals, outcome)
}

/// The types of parameters.
fn types_of(alloc: Global, locals: &[Local]) -> Result<Vec<Ty>, AllocError>
    ensures { IfOk result (λ v. v.items ≡ map (λ l. l.ty) locals.now) }
{
    let mut types = Vec::new(alloc);
    for local in locals {
        types.push(local.ty)?;
    }
    Ok(types)
}

/// The slot of an instance method, a new one where there is none like it.
pub fn slotted(
    alloc: Global,
    slots: &mut Vec<Slot>,
    keyed: &mut Vec<Vec<usize>>,
    name: &Name,
    locals: &[Local],
    outcome: Option<Ty>,
    first: u32,
) -> Result<u32, Refusal>
    requires found { AreKeyed slots.old.items keyed.old.items }
    ensures given { GivesValue {A = ℕ} {B = ℕ × List PlainSlot} (λ k. (k, map slot_seen slots.new.items))
        result (Ok (slotted name.now locals.now outcome first (map slot_seen slots.old.items))) }
    ensures found { OnOk result (AreKeyed slots.new.items keyed.new.items) }
{
    if let Some(slot) = slot_in(slots, keyed, name, locals, outcome) {
        return number_at(slot);
    }
    let number = number_at(slots.len())?;
    note_under(alloc, keyed, slot_key(name, locals, outcome), slots.len())?;
    slots.push(Slot {
        name: name.copy(alloc)?,
        params: types_of(alloc, locals)?,
        result: outcome,
        first: MemberId(first),
    })?;
    Ok(number)
}
