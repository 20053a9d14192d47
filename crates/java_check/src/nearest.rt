//! The rule that a class breaks as a whole, with the nearest declaration of each slot found by one walk upwards.

ghost use Rattle.std.specs.Prelude.{◌≡◌, ℕ, ◌<◌, ◌∷◌, [], Some, None, false, cond, length, map, IfOk};
ghost use Rattle.std.specs.Option.{option_and_then, option_map_or};
ghost use Rattle.java_core.specs.Programs.{program_of, method_seen};
ghost use Rattle.java_core.specs.Owned.{AreOwned};
ghost use Rattle.java_core.specs.Classes as classes;
ghost use Rattle.java_core.specs.Classes.{is_slot, first_or, has_body};
ghost use Rattle.java_core.specs.Formed.{IsFormed};
ghost use Rattle.java_core.specs.Typing.{is_public_method};
ghost use Rattle.java_check.specs.ClassOutcome.{method_rule, class_rule};
ghost use Rattle.java_check.specs.NearOutcome.{method_owner, kept_at, declared_among, own_of};

use crate::Kind;
use crate::by_number::method_by_number;
use crate::classes::{class_fault, is_interface};
use crate::expressions::is_concrete;
use java_core::{
    Method, Program, is_subtype, listed_under, nearest_declaration, note_under, parent_of,
};
use kaba_base::ClassId;
use std::alloc::{AllocError, Global};

/// The methods that each class or interface declares, in rising order; `AllocError` where memory is short.
fn methods_of_classes(alloc: Global, list: &[Method]) -> Result<Vec<Vec<usize>>, AllocError>
    ensures { IfOk result (λ v. AreOwned (map (λ m. method_owner m) list.now) v.items) }
{
    let mut lists = Vec::new(alloc);
    for k in 0..list.len() {
        note_under(alloc, &mut lists, list[k].owner.0 as usize, k)?;
    }
    Ok(lists)
}

/// The method that is kept for a slot, where one is.
fn kept_at(near: &[Option<usize>], slot: u32) -> Option<usize>
    ensures { result ≡ kept_at near.now slot }
{
    match near.get(slot as usize) {
        Some(at) => *at,
        None => None,
    }
}

/// Keeps a method for a slot, where none is kept.
fn keep_for(near: &mut [Option<usize>], slot: Option<u32>, at: usize)
    ensures len { length near.new ≡ length near.old }
    ensures kept { (s : ℕ) → s < length near.old → kept_at near.new s ≡ first_or (kept_at near.old s) (cond (is_slot slot s) (Some at) None) }
{
    if let Some(slot) = slot {
        if (slot as usize) < near.len() && near[slot as usize].is_none() {
            near[slot as usize] = Some(at);
        }
    }
}

/// The same of a method of a class.
fn keep(p: &Program, near: &mut [Option<usize>], class: ClassId, at: usize)
    ensures len { length near.new ≡ length near.old }
    ensures kept { (s : ℕ) → s < length near.old → kept_at near.new s ≡ first_or (kept_at near.old s) (declared_among (program_of p.now) class.0 s (at ∷ [])) }
{
    match method_by_number(p, at) {
        Some(method) => {
            if method.owner.0 == class.0 {
                keep_for(near, method.slot, at);
            }
        }
        None => {}
    }
}

/// The same of each of these.
fn keep_all(p: &Program, near: &mut [Option<usize>], class: ClassId, list: &[usize])
    ensures len { length near.new ≡ length near.old }
    ensures kept { (s : ℕ) → s < length near.old → kept_at near.new s ≡ first_or (kept_at near.old s) (declared_among (program_of p.now) class.0 s list.now) }
{
    for at in list {
        keep(p, near, class, *at);
    }
}

/// Keeps what a class on the way declares, and answers the next one.
fn step(
    p: &Program,
    lists: &Vec<Vec<usize>>,
    near: &mut [Option<usize>],
    at: Option<ClassId>,
) -> Option<ClassId>
    requires { AreOwned (map (λ m. method_owner m) p.now.methods.items) lists.now.items }
    ensures next { result ≡ option_and_then (λ h. classes.parent_of (program_of p.now) h.0) at }
    ensures len { length near.new ≡ length near.old }
    ensures kept { (s : ℕ) → s < length near.old → kept_at near.new s ≡ first_or (kept_at near.old s) (own_of (program_of p.now) at s) }
{
    match at {
        Some(class) => {
            keep_all(p, near, class, listed_under(lists, class.0 as usize));
            parent_of(p, class)
        }
        None => None,
    }
}

/// Keeps what a class and its superclasses declare.
fn walk(p: &Program, lists: &Vec<Vec<usize>>, near: &mut [Option<usize>], class: ClassId)
    requires { AreOwned (map (λ m. method_owner m) p.now.methods.items) lists.now.items }
    ensures len { length near.new ≡ length near.old }
    ensures kept { (s : ℕ) → s < length near.old
        → kept_at near.new s ≡ first_or (kept_at near.old s) (classes.nearest_declaration (program_of p.now) class.0 s) }
{
    let mut at = Some(class);
    for _done in 0..p.classes.len() + 1 {
        at = step(p, lists, near, at);
    }
}

/// For each slot the nearest declaration in a class and its superclasses; `AllocError` where memory is short.
fn near_of(alloc: Global, p: &Program, class: ClassId) -> Result<Vec<Option<usize>>, AllocError>
    ensures { IfOk result (λ v. (s : ℕ) → s < length v.items → kept_at v.items s ≡ classes.nearest_declaration (program_of p.now) class.0 s) }
{
    let lists = methods_of_classes(alloc, &p.methods)?;
    let mut near = vec![in alloc; None; p.slots.len()]?;
    walk(p, &lists, &mut near, class);
    Ok(near)
}

/// The nearest declaration of a slot: what is kept for it, or what is found upwards.
fn nearest_at(p: &Program, near: &[Option<usize>], class: ClassId, slot: u32) -> Option<usize>
    requires formed { IsFormed (program_of p.now) }
    requires near { (s : ℕ) → s < length near.now → kept_at near.now s ≡ classes.nearest_declaration (program_of p.now) class.0 s }
    ensures { result ≡ classes.nearest_declaration (program_of p.now) class.0 slot }
{
    if (slot as usize) < near.len() {
        return kept_at(near, slot);
    }
    match nearest_declaration(p, class, slot) {
        Some(method) => Some(method.0 as usize),
        None => None,
    }
}

/// Whether there is a method, and it has a body.
fn is_bodied_at(p: &Program, at: Option<usize>) -> bool
    ensures { result ≡ option_map_or (has_body (program_of p.now)) at false }
{
    match at {
        Some(at) => match method_by_number(p, at) {
            Some(method) => method.body.is_some(),
            None => false,
        },
        None => false,
    }
}

/// Whether a method, where there is one, is public.
fn is_shown_at(p: &Program, at: Option<usize>) -> bool
    ensures { result ≡ is_public_method (program_of p.now) at }
{
    match at {
        Some(at) => match method_by_number(p, at) {
            Some(method) => method.is_public,
            None => true,
        },
        None => true,
    }
}

/// The rule that a class or an interface breaks for the slot of a method that stands at or above it.
fn rule_near(p: &Program, near: &[Option<usize>], class: ClassId, method: &Method) -> Option<Kind>
    requires formed { IsFormed (program_of p.now) }
    requires near { (s : ℕ) → s < length near.now → kept_at near.now s ≡ classes.nearest_declaration (program_of p.now) class.0 s }
    ensures { result ≡ method_rule (program_of p.now) class.0 (method_seen method.now) }
{
    match method.slot {
        Some(slot) if is_subtype(p, class, method.owner) => {
            let nearest = nearest_at(p, near, class, slot);
            if is_concrete(p, class) && !is_bodied_at(p, nearest) {
                return Some(Kind::MissingBody);
            }
            if !is_interface(p, class)
                && is_interface(p, method.owner)
                && !is_shown_at(p, nearest)
            {
                return Some(Kind::NotPublic);
            }
            None
        }
        _ => None,
    }
}

/// The rule that a class or an interface breaks for the slot of one of the methods.
fn broken_near(
    p: &Program,
    near: &[Option<usize>],
    class: ClassId,
    methods: &[Method],
) -> Option<Kind>
    requires formed { IsFormed (program_of p.now) }
    requires near { (s : ℕ) → s < length near.now → kept_at near.now s ≡ classes.nearest_declaration (program_of p.now) class.0 s }
    ensures { result ≡ class_rule (program_of p.now) class.0 (map method_seen methods.now) }
{
    for method in methods {
        if let Some(kind) = rule_near(p, near, class, method) {
            return Some(kind);
        }
    }
    None
}

/// The rule that a class or an interface breaks as a whole.
pub(crate) fn fault_near(alloc: Global, p: &Program, class: ClassId) -> Option<Kind>
    requires { IsFormed (program_of p.now) }
    ensures { result ≡ class_rule (program_of p.now) class.0 (program_of p.now).methods }
{
    match near_of(alloc, p, class) {
        Ok(near) => broken_near(p, &near, class, &p.methods),
        Err(_) => class_fault(p, class),
    }
}
