//! Subtyping of classes, and the body that an object of a class runs.

ghost use Rattle.std.specs.Prelude.{◌≡◌, ℕ, ◌<◌, ◌↔◌, length, IsTrue, Some, slice_get, IfSome, IfNone, All};
ghost use Rattle.std.specs.Option.{option_map};
ghost use Rattle.std.specs.List.{list_any};
ghost use Rattle.fact_model.specs.Classes.{reaches, below, IsBelow, own_body, finds_within, finds, IsBodyFound, is_def, is_slot, is_body};
ghost use Rattle.fact_model.specs.InRange.{InRange, IsClass};

use crate::facts::{ClassInfo, ColKind, ColumnInfo, Facts};
use kaba_base::{ClassId, ColId};

/// Whether a class or interface is at or below another (Java Language Specification, 4.10.2).
pub fn below(facts: &Facts, a: ClassId, b: ClassId) -> bool
    requires facts { InRange facts.now }
    requires class { IsClass facts.now a }
    ensures value { result ≡ below facts.now a.0 b.0 }
    ensures exact { IsTrue result ↔ IsBelow facts.now a.0 b.0 }
{
    reaches(facts, a, b, facts.classes.len())
}

/// Whether a class is reached from another in at most so many steps upwards.
#[cycle(reaches)]
fn reaches(facts: &Facts, a: ClassId, b: ClassId, left: usize) -> bool
    requires facts { InRange facts.now }
    requires class { IsClass facts.now a }
    ensures { result ≡ reaches facts.now left a.0 b.0 }
{
    if a == b {
        return true;
    }
    if left == 0 {
        return false;
    }
    let class = class_at(facts, a);
    match class.parent {
        Some(parent) => {
            reaches(facts, parent, b, left - 1)
                || reaches_from_any(facts, &class.faces, b, left - 1)
        }
        None => reaches_from_any(facts, &class.faces, b, left - 1),
    }
}

/// Whether a class is reached from one of a list.
#[cycle(reaches)]
fn reaches_from_any(facts: &Facts, list: &[ClassId], b: ClassId, left: usize) -> bool
    requires facts { InRange facts.now }
    requires classes { All (IsClass facts.now) list.now }
    ensures { result ≡ list_any (λ c. reaches facts.now left c.0 b.0) list.now }
{
    for class in list {
        if reaches(facts, *class, b, left) {
            return true;
        }
    }
    false
}

/// A class or interface by its number.
pub fn class_at(facts: &Facts, a: ClassId) -> &ClassInfo
    requires { IsClass facts.now a }
    ensures { slice_get facts.now.classes.items a.0 ≡ Some result.now }
{
    &facts.classes[a.0 as usize]
}

/// The body that an object of a class runs for a slot: the nearest along the superclasses (Java Language Specification, 15.12.4.4).
pub fn finds(facts: &Facts, class: ClassId, slot: u32) -> Option<ColId>
    requires facts { InRange facts.now }
    requires class { IsClass facts.now class }
    ensures value { option_map (λ d. d.0) result ≡ finds facts.now class.0 slot }
    ensures found { IfSome result (λ d. IsBodyFound facts.now class.0 slot d.0) }
    ensures none { IfNone result ((d : ℕ) → IsBodyFound facts.now class.0 slot d → ⊥) }
{
    finds_within(facts, class, slot, facts.classes.len())
}

/// The nearest body within so many steps along the superclasses.
fn finds_within(facts: &Facts, class: ClassId, slot: u32, left: usize) -> Option<ColId>
    requires facts { InRange facts.now }
    requires class { IsClass facts.now class }
    ensures { option_map (λ d. d.0) result ≡ finds_within facts.now left class.0 slot }
{
    if let Some(own) = own_body(facts, class, slot) {
        return Some(own);
    }
    if left == 0 {
        return None;
    }
    match class_at(facts, class).parent {
        Some(parent) => finds_within(facts, parent, slot, left - 1),
        None => None,
    }
}

/// The body of a slot that a class itself has.
fn own_body(facts: &Facts, class: ClassId, slot: u32) -> Option<ColId>
    requires { InRange facts.now }
    ensures { option_map (λ d. d.0) result ≡ own_body facts.now class.0 slot }
{
    match own_body_at(facts, class, slot) {
        Some(at) => Some(ColId(at as u32)),
        None => None,
    }
}

/// The number of that body's column.
fn own_body_at(facts: &Facts, class: ClassId, slot: u32) -> Option<usize>
    ensures { result ≡ own_body facts.now class.0 slot }
{
    facts.columns.iter().position(|k| is_body(k, class, slot))
}

/// Whether a column is the body of a slot in a class.
fn is_body(column: &ColumnInfo, class: ClassId, slot: u32) -> bool
    ensures { result ≡ is_body class.0 slot column.now }
{
    is_def(column.kind) && column.class == class && is_slot(column.slot, slot)
}

/// Whether a column is the body of a method.
pub fn is_def(kind: ColKind) -> bool
    ensures { result ≡ is_def kind }
{
    matches!(kind, ColKind::Def)
}

/// Whether a slot is there and is the one that is asked for.
pub fn is_slot(slot: Option<u32>, wanted: u32) -> bool
    ensures { result ≡ is_slot slot wanted }
{
    match slot {
        Some(own) => own == wanted,
        None => false,
    }
}
