//! Subtyping, and the members that a class or an interface has.

ghost use Rattle.std.specs.Prelude.{◌≡◌, ℕ, ◌<◌, ◌↔◌, length, IsTrue, Option, Some, None, IfSome, IfNone, Contains};
ghost use Rattle.std.specs.Option.{option_map};
ghost use Rattle.kaba_base.specs.declared.ClassId.{ClassId};
ghost use Rattle.kaba_base.specs.declared.MemberId.{MemberId};
ghost use Rattle.java_core.specs.Programs.{program_of};
ghost use Rattle.java_core.specs.Classes.{IsSubclass, below, parent_of, faces_of, supers_of, field_of, member_field, is_static_field, own_method, own_declaration, own_body, nearest_of, faces_above, first_found, declaration_of, slot_of_method, slot_of, lookup, nearest_declaration, super_method};
ghost use Rattle.java_core.specs.Found.{Runs, IsOffered};
ghost use Rattle.java_core.specs.declared.classes.Named.TheVariants as named;
ghost use Rattle.java_core.specs.Own.{own_named, towards};
ghost use Rattle.java_core.specs.Formed.{IsFormed};

use crate::Program;
use crate::own::{
    methods_named, offered_at, own_body_at, own_declaration_at, own_field_at, own_method_at,
};
use kaba_base::{ClassId, MemberId, Name};

/// Whether a class or interface is at or below another (Java Language Specification, 4.10.2).
#[tactic(auto, unfolding(crate::specs::Classes::below))]
pub fn is_subtype(p: &Program, a: ClassId, b: ClassId) -> bool
    requires { IsFormed (program_of p.now) }
    ensures value { result ≡ below (program_of p.now) a.0 b.0 }
    ensures exact { IsTrue result ↔ IsSubclass (program_of p.now) a.0 b.0 }
{
    (a == b) | p.above.is_above(a.0, b.0)
}

/// How many classes and interfaces there are: no way upwards is longer.
fn class_count(p: &Program) -> usize
    ensures { result ≡ length (program_of p.now).classes }
{
    p.classes.len()
}

/// The superclass of a class; that of an interface is `Object`, and `Object` has none.
pub fn parent_of(p: &Program, a: ClassId) -> Option<ClassId>
    ensures value { result ≡ parent_of (program_of p.now) a.0 }
{
    match p.classes.get(a.0 as usize) {
        Some(class) => class.parent,
        None => None,
    }
}

/// The interfaces that a class or an interface names as its supertypes.
pub fn faces_of(p: &Program, a: ClassId) -> &[ClassId]
    ensures value { result.now ≡ faces_of (program_of p.now) a.0 }
{
    match p.classes.get(a.0 as usize) {
        Some(class) => &class.faces,
        None => &[],
    }
}

/// The nearest field of a name upwards, an instance or a static one (Java Language Specification, 8.3, 15.11).
#[tactic(auto, unfolding(crate::specs::Classes::field_of))]
pub fn field_of(p: &Program, class: ClassId, name: &Name) -> Option<MemberId>
    requires { IsFormed (program_of p.now) }
    ensures value { option_map (λ d. d.0) result ≡ field_of (program_of p.now) class.0 name.now }
{
    nearest_of_name(p, class, name, Named::Field)
}

/// The field that an object of the type has under a name: the nearest upwards, where that one is an instance field.
#[tactic(auto, unfolding(crate::specs::Classes::member_field))]
pub fn member_field(p: &Program, class: ClassId, name: &Name) -> Option<MemberId>
    requires { IsFormed (program_of p.now) }
    ensures value { option_map (λ d. d.0) result ≡ member_field (program_of p.now) class.0 name.now }
{
    match field_of(p, class, name) {
        Some(field) if !is_static_field(p, field) => Some(field),
        _ => None,
    }
}

/// Whether a field is static.
fn is_static_field(p: &Program, field: MemberId) -> bool
    ensures { result ≡ is_static_field (program_of p.now) field.0 }
{
    match p.fields.get(field.0 as usize) {
        Some(field) => field.is_static,
        None => false,
    }
}

/// The nearest instance method of a name strictly above a class: what `super.name(..)` in it finds (Java Language Specification, 15.12).
#[tactic(auto, unfolding(crate::specs::Classes::super_method))]
pub fn super_method(p: &Program, class: ClassId, name: &Name) -> Option<MemberId>
    requires { IsFormed (program_of p.now) }
    ensures value { option_map (λ d. d.0) result ≡ super_method (program_of p.now) class.0 name.now }
{
    match parent_of(p, class) {
        Some(parent) => nearest_of_name(p, parent, name, Named::Method),
        None => None,
    }
}

/// The body that an object of the class runs for a slot: the nearest upwards (Java Language Specification, 15.12.4.4).
#[tactic(auto, unfolding(crate::specs::Classes::lookup))]
pub fn lookup(p: &Program, class: ClassId, slot: u32) -> Option<MemberId>
    requires { IsFormed (program_of p.now) }
    ensures value { option_map (λ d. d.0) result ≡ lookup (program_of p.now) class.0 slot }
    ensures found { IfSome result (λ d. Runs (program_of p.now) class.0 slot d.0) }
    ensures none { IfNone result ((d : ℕ) → Runs (program_of p.now) class.0 slot d → ⊥) }
{
    nearest_up(p, class, |at| own_body(p, at, slot))
}

/// The nearest declaration of a slot in a class and its superclasses.
#[tactic(auto, unfolding(crate::specs::Classes::nearest_declaration))]
pub fn nearest_declaration(p: &Program, class: ClassId, slot: u32) -> Option<MemberId>
    requires { IsFormed (program_of p.now) }
    ensures value { option_map (λ d. d.0) result ≡ nearest_declaration (program_of p.now) class.0 slot }
{
    nearest_up(p, class, |at| own_declaration(p, at, slot))
}

/// The declaration that a call of a name on a type finds: in the type and its superclasses, then in the interfaces that these name (Java Language Specification, 15.12).
pub fn declaration_of(p: &Program, class: ClassId, name: &Name) -> Option<MemberId>
    requires { IsFormed (program_of p.now) }
    ensures value { option_map (λ d. d.0) result ≡ declaration_of (program_of p.now) class.0 name.now }
{
    match nearest_of_name(p, class, name, Named::Method) {
        Some(own) => Some(own),
        None => nearest_up(p, class, |at| in_faces(p, at, name)),
    }
}

/// The first of the interfaces directly above one at or above which an instance method of the name stands.
fn face_towards(p: &Program, class: ClassId, name: &Name) -> Option<ClassId>
    requires { IsFormed (program_of p.now) }
    ensures { result ≡ towards (program_of p.now) name.now (faces_of (program_of p.now) class.0) }
{
    for face in faces_of(p, class) {
        if offered_at(p, *face, name).is_some() {
            return Some(*face);
        }
    }
    None
}

/// What the interfaces above a class or an interface declare of a name, the first in the order of the search.
fn in_faces(p: &Program, class: ClassId, name: &Name) -> Option<MemberId>
    requires { IsFormed (program_of p.now) }
    ensures { option_map (λ d. d.0) result ≡ first_found (λ k. own_method (program_of p.now) k name.now)
        (faces_above (program_of p.now) (length (program_of p.now).classes) class.0) }
{
    let mut at = class;
    let mut steps = class_count(p);
    'up: loop {
        if steps == 0 {
            return None;
        }
        let Some(face) = face_towards(p, at, name) else {
            return None;
        };
        let own = own_method(p, face, name);
        if own.is_some() {
            return own;
        }
        at = face;
        steps -= 1;
    }
}

/// The slot that a type offers under a name.
pub fn slot_of(p: &Program, class: ClassId, name: &Name) -> Option<u32>
    requires { IsFormed (program_of p.now) }
    ensures value { result ≡ slot_of (program_of p.now) class.0 name.now }
    ensures found { IfSome result (λ s. IsOffered (program_of p.now) class.0 name.now s) }
    ensures none { IfNone result ((s : ℕ) → IsOffered (program_of p.now) class.0 name.now s → ⊥) }
{
    declared_slot(p, class, name)
}

/// A type directly above one: the superclass, or else the first interface.
fn one_above(p: &Program, class: ClassId) -> Option<ClassId>
    ensures { IfSome result (λ k. Contains (supers_of (program_of p.now) class.0) k) }
{
    match parent_of(p, class) {
        Some(parent) if parent.0 != 0 => Some(parent),
        _ => first_face(p, class),
    }
}

/// The first of the interfaces directly above a type.
fn first_face(p: &Program, class: ClassId) -> Option<ClassId>
    ensures { IfSome result (λ k. Contains (supers_of (program_of p.now) class.0) k) }
{
    first_of(faces_of(p, class))
}

/// The first of a list.
fn first_of(list: &[ClassId]) -> Option<ClassId>
    ensures { IfSome result (λ k. Contains list.now k) }
{
    match list.get(0) {
        Some(first) => Some(*first),
        None => None,
    }
}

/// An instance method of a name in a type or on the way up through superclasses and first interfaces, no farther than there are methods of the name.
fn met_upwards(p: &Program, class: ClassId, name: &Name) -> Option<MemberId>
    requires { IsFormed (program_of p.now) }
    ensures { IfSome result (λ d. slot_of_method (program_of p.now) d.0 ≡ slot_of (program_of p.now) class.0 name.now) }
{
    let mut at = class;
    let mut steps = methods_named(p, name).len();
    'up: loop {
        let own = own_method(p, at, name);
        if own.is_some() || steps == 0 {
            return own;
        }
        at = one_above(p, at)?;
        steps -= 1;
    }
}

/// The slot that a type offers under a name: that of any method of the name at or above it, since these are all of one slot.
fn declared_slot(p: &Program, class: ClassId, name: &Name) -> Option<u32>
    requires { IsFormed (program_of p.now) }
    ensures { result ≡ slot_of (program_of p.now) class.0 name.now }
{
    if let Some(met) = met_upwards(p, class, name) {
        return slot_of_method(p, met.0 as usize);
    }
    match offered_at(p, class, name) {
        Some(at) => slot_of_method(p, at),
        None => None,
    }
}

/// The slot of an instance method.
fn slot_of_method(p: &Program, at: usize) -> Option<u32>
    ensures { result ≡ slot_of_method (program_of p.now) at }
{
    match p.methods.get(at) {
        Some(method) => method.slot,
        None => None,
    }
}

/// What is looked for by a name.
#[derive(Clone, Copy)]
enum Named {
    /// A field, an instance or a static one.
    Field,
    /// An instance method.
    Method,
}

/// What is nearest upwards of what classes themselves have.
fn nearest_up<F: Fn(ClassId) -> Option<MemberId>>(
    p: &Program,
    class: ClassId,
    own: F,
) -> Option<MemberId>
    requires { F.IsAlwaysCallable own }
    ensures { (f : ℕ → Option ℕ) → ((k : ClassId) (r : Option MemberId) → F.post own k r → option_map (λ d. d.0) r ≡ f k.0)
        → option_map (λ d. d.0) result ≡ nearest_of (program_of p.now) f class.0 }
{
    let mut at = class;
    let mut steps = class_count(p);
    'up: loop {
        let here = own(at);
        if here.is_some() || steps == 0 {
            return here;
        }
        let Some(parent) = parent_of(p, at) else {
            return None;
        };
        at = parent;
        steps -= 1;
    }
}

/// A member of a number, if there is one.
fn numbered(at: Option<u32>) -> Option<MemberId>
    ensures { option_map (λ d. d.0) result ≡ at }
{
    match at {
        Some(at) => Some(MemberId(at)),
        None => None,
    }
}

/// What is nearest upwards of a name to a class that has nothing itself, where the tables tell it.
fn told_above(p: &Program, class: ClassId, name: &Name, kind: Named) -> Option<Option<u32>>
    requires { IsFormed (program_of p.now) }
    ensures { IfSome result (λ r. own_named (program_of p.now) kind class.0 name.now ≡ None
        → r ≡ nearest_of (program_of p.now) (λ k. own_named (program_of p.now) kind k name.now) class.0) }
{
    let at = class.0 as usize;
    let parents = &p.tables.parents;
    match kind {
        Named::Field => p.tables.fields.nearest_above(parents, &p.fields, at, name),
        Named::Method => p
            .tables
            .methods
            .members
            .nearest_above(parents, &p.methods, at, name),
    }
}

/// What is nearest upwards of a name.
fn nearest_of_name(p: &Program, class: ClassId, name: &Name, kind: Named) -> Option<MemberId>
    requires { IsFormed (program_of p.now) }
    ensures { option_map (λ d. d.0) result ≡ nearest_of (program_of p.now) (λ k. own_named (program_of p.now) kind k name.now) class.0 }
{
    let own = own_named(p, class, name, kind);
    if own.is_some() {
        return own;
    }
    match told_above(p, class, name, kind) {
        Some(at) => numbered(at),
        None => nearest_up(p, class, |at| own_named(p, at, name, kind)),
    }
}

/// What a class itself has of a name.
fn own_named(p: &Program, class: ClassId, name: &Name, kind: Named) -> Option<MemberId>
    requires { IsFormed (program_of p.now) }
    ensures { option_map (λ d. d.0) result ≡ own_named (program_of p.now) kind class.0 name.now }
{
    match kind {
        Named::Field => member(own_field_at(p, class, name)),
        Named::Method => own_method(p, class, name),
    }
}

/// The instance method of a name that a class or an interface itself declares.
fn own_method(p: &Program, class: ClassId, name: &Name) -> Option<MemberId>
    requires { IsFormed (program_of p.now) }
    ensures { option_map (λ d. d.0) result ≡ own_method (program_of p.now) class.0 name.now }
{
    member(own_method_at(p, class, name))
}

/// The member of a number.
pub fn member(at: Option<usize>) -> Option<MemberId>
    requires { IfSome at (λ i. i < 4294967295) }
    ensures { option_map (λ d. d.0) result ≡ at }
{
    match at {
        Some(at) => Some(MemberId(at as u32)),
        None => None,
    }
}

/// The method of a slot that a class itself declares, with a body or without one.
fn own_declaration(p: &Program, class: ClassId, slot: u32) -> Option<MemberId>
    requires { IsFormed (program_of p.now) }
    ensures { option_map (λ d. d.0) result ≡ own_declaration (program_of p.now) class.0 slot }
{
    member(own_declaration_at(p, class, slot))
}

/// The body of a slot that a class itself has.
fn own_body(p: &Program, class: ClassId, slot: u32) -> Option<MemberId>
    requires { IsFormed (program_of p.now) }
    ensures { option_map (λ d. d.0) result ≡ own_body (program_of p.now) class.0 slot }
{
    member(own_body_at(p, class, slot))
}
