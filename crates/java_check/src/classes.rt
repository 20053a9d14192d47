//! The rules of types that a class or an interface keeps as a whole.

ghost use Rattle.std.specs.Prelude.{◌≡◌, ◌<◌, Option, false, length, map};
ghost use Rattle.std.specs.Option.{option_map, option_map_or};
ghost use Rattle.java_core.specs.Programs.{program_of, class_seen, method_seen};
ghost use Rattle.java_core.specs.Classes as classes;
ghost use Rattle.java_core.specs.Typing as typing;
ghost use Rattle.java_core.specs.Formed.{IsFormed};
ghost use Rattle.java_check.specs.ClassOutcome.{method_rule, class_rule, is_quiet, is_kept, all_quiet};

use crate::Kind;
use crate::by_number::{class_by_number, method_by_number};
use crate::expressions::{has_body, is_concrete};
use java_core::{Class, Method, Program, is_subtype, nearest_declaration};
use kaba_base::{ClassId, MemberId};

/// Whether no class or interface breaks a rule for the slot of a method without a body. Where that is so, none breaks one as a whole, and nothing was asked
/// of the methods that have one.
pub(crate) fn all_quiet(p: &Program, methods: &[Method]) -> bool
    requires { IsFormed (program_of p.now) }
    ensures { result ≡ all_quiet (program_of p.now) (map method_seen methods.now) }
{
    for method in methods {
        if method.body.is_none() && !is_kept(p, method, &p.classes) {
            return false;
        }
    }
    true
}

/// Whether none of the classes and interfaces breaks a rule for the slot of a method.
fn is_kept(p: &Program, method: &Method, classes: &[Class]) -> bool
    requires formed { IsFormed (program_of p.now) }
    requires few { length classes.now < 4294967295 }
    ensures { result ≡ is_kept (program_of p.now) (method_seen method.now) 0 (map class_seen classes.now) }
{
    for (i, _class) in classes.iter().enumerate() {
        if rule_for(p, ClassId(i as u32), method).is_some() {
            return false;
        }
    }
    true
}

/// Whether a class or an interface breaks no rule for the slot of a method without a body.
fn is_quiet(p: &Program, class: ClassId, methods: &[Method]) -> bool
    requires { IsFormed (program_of p.now) }
    ensures { result ≡ is_quiet (program_of p.now) class.0 (map method_seen methods.now) }
{
    for method in methods {
        if method.body.is_none() && rule_for(p, class, method).is_some() {
            return false;
        }
    }
    true
}

/// The rule that a class or an interface breaks as a whole: none, where it breaks none for the methods without a body.
pub(crate) fn class_fault(p: &Program, class: ClassId) -> Option<Kind>
    requires { IsFormed (program_of p.now) }
    ensures { result ≡ class_rule (program_of p.now) class.0 (program_of p.now).methods }
{
    if is_quiet(p, class, &p.methods) {
        return None;
    }
    broken_rule(p, class, &p.methods)
}

/// The rule that a class or an interface breaks for the slot of one of the methods.
fn broken_rule(p: &Program, class: ClassId, methods: &[Method]) -> Option<Kind>
    requires { IsFormed (program_of p.now) }
    ensures { result ≡ class_rule (program_of p.now) class.0 (map method_seen methods.now) }
{
    for method in methods {
        if let Some(kind) = rule_for(p, class, method) {
            return Some(kind);
        }
    }
    None
}

/// The rule that a class or an interface breaks for the slot of a method that stands at or above it.
pub(crate) fn rule_for(p: &Program, class: ClassId, method: &Method) -> Option<Kind>
    requires { IsFormed (program_of p.now) }
    ensures { result ≡ method_rule (program_of p.now) class.0 (method_seen method.now) }
{
    match method.slot {
        Some(slot) if is_subtype(p, class, method.owner) => {
            let nearest = nearest_declaration(p, class, slot);
            if is_concrete(p, class) && !is_bodied(p, nearest) {
                return Some(Kind::MissingBody);
            }
            if !is_interface(p, class) && is_interface(p, method.owner) && !is_shown(p, nearest) {
                return Some(Kind::NotPublic);
            }
            None
        }
        _ => None,
    }
}

/// Whether it is an interface.
pub(crate) fn is_interface(p: &Program, class: ClassId) -> bool
    ensures { result ≡ classes.is_interface (program_of p.now) class.0 }
{
    match class_by_number(p, class.0 as usize) {
        Some(class) => class.is_interface,
        None => false,
    }
}

/// Whether there is a declaration, and it has a body.
fn is_bodied(p: &Program, declaration: Option<MemberId>) -> bool
    ensures { result ≡ option_map_or (classes.has_body (program_of p.now)) (option_map (λ d. d.0) declaration) false }
{
    match declaration {
        Some(method) => has_body(p, method),
        None => false,
    }
}

/// Whether a declaration, where there is one, is public.
fn is_shown(p: &Program, declaration: Option<MemberId>) -> bool
    ensures { result ≡ typing.is_public_method (program_of p.now) (option_map (λ d. d.0) declaration) }
{
    match declaration {
        Some(method) => match method_by_number(p, method.0 as usize) {
            Some(method) => method.is_public,
            None => true,
        },
        None => true,
    }
}
