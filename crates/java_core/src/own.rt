//! The members that a class or an interface itself has, by name and by slot.
#![tactic(auto)]

ghost use Rattle.std.specs.Prelude.{◌≡◌, ℕ, ◌<◌, ◌&&◌, Bool, true, length, IfSome, position};
ghost use Rattle.std.specs.Option.{is_some};
ghost use Rattle.java_core.specs.Programs.{program_of, field_seen, method_seen};
ghost use Rattle.java_core.specs.Classes.{is_field_of, is_method_of, has_slot};
ghost use Rattle.java_core.specs.Own.{offers, offered};
ghost use Rattle.java_core.specs.Owned.{first_among};
ghost use Rattle.java_core.specs.MemberKeys.{MemberKeys};
ghost use Rattle.java_core.specs.declared.tables.MemberKey.TheVariants as key;
ghost use Rattle.java_core.specs.Tables.{AreMembersBy};
ghost use Rattle.java_core.specs.Formed.{IsFormed};

use crate::classes::is_subtype;
use crate::owned::{first_among, listed_under};
use crate::tables::{Member, MemberTables, name_bucket, slot_bucket};
use crate::{Field, Method, Program};
use kaba_base::{ClassId, Name};

/// How many members of a class are looked through one by one; those of a class with more are looked up by name or slot.
pub const FEW: usize = 32;

/// The members among which each of a name in a class is.
fn named_in<'a, M: Member>(
    tables: &'a MemberTables,
    members: &[M],
    class: ClassId,
    name: &Name,
) -> &'a [usize]
    requires own { AreMembersBy M.keys key.Owner members.now tables.now.own.items }
    requires by_name { AreMembersBy M.keys key.OwnerAndName members.now tables.now.by_name.items }
    ensures { (p : M → Bool) → ((m : M) → p m ≡ true → ((M.keys m).owner ≡ class.0) × ((M.keys m).name ≡ name.now))
        → first_among p members.now result.now ≡ position p members.now }
{
    let own = listed_under(&tables.own, class.0 as usize);
    if own.len() <= FEW {
        return own;
    }
    listed_under(&tables.by_name, name_bucket(members.len(), class, name))
}

/// The methods among which each of a slot in a class is.
fn methods_in(p: &Program, class: ClassId, slot: u32) -> &[usize]
    ensures declaration { first_among (λ m. has_slot class.0 slot (method_seen m)) p.now.methods.items result.now
        ≡ position (λ m. has_slot class.0 slot (method_seen m)) p.now.methods.items }
    ensures body { first_among (λ m. has_slot class.0 slot (method_seen m) && is_some (method_seen m).body) p.now.methods.items result.now
        ≡ position (λ m. has_slot class.0 slot (method_seen m) && is_some (method_seen m).body) p.now.methods.items }
{
    let own = listed_under(&p.tables.methods.members.own, class.0 as usize);
    if own.len() <= FEW {
        return own;
    }
    listed_under(
        &p.tables.methods.by_slot,
        slot_bucket(p.methods.len(), class, Some(slot)),
    )
}

/// The number of the field of a name in a class itself.
pub fn own_field_at(p: &Program, class: ClassId, name: &Name) -> Option<usize>
    ensures value { result ≡ position (λ f. is_field_of class.0 name.now (field_seen f)) p.now.fields.items }
    ensures within { IfSome result (λ i. i < length p.now.fields.items) }
{
    first_among(
        &p.fields,
        named_in(&p.tables.fields, &p.fields, class, name),
        |field| { is_field_of(field, class, name) },
    )
}

/// The number of the instance method of a name that a class itself declares.
pub fn own_method_at(p: &Program, class: ClassId, name: &Name) -> Option<usize>
    ensures value { result ≡ position (λ m. is_method_of class.0 name.now (method_seen m)) p.now.methods.items }
    ensures within { IfSome result (λ i. i < length p.now.methods.items) }
{
    first_among(
        &p.methods,
        named_in(&p.tables.methods.members, &p.methods, class, name),
        |method| { is_method_of(method, class, name) },
    )
}

/// Whether a field stands in the class and has the name.
fn is_field_of(field: &Field, class: ClassId, name: &Name) -> bool
    ensures { result ≡ is_field_of class.0 name.now (field_seen field.now) }
{
    field.owner == class && field.name.same(name)
}

/// Whether an instance method stands in the class and has the name.
fn is_method_of(method: &Method, class: ClassId, name: &Name) -> bool
    ensures { result ≡ is_method_of class.0 name.now (method_seen method.now) }
{
    method.owner == class && !method.is_static && method.name.same(name)
}

/// The number of the method of a slot that a class itself declares.
pub fn own_declaration_at(p: &Program, class: ClassId, slot: u32) -> Option<usize>
    ensures value { result ≡ position (λ m. has_slot class.0 slot (method_seen m)) p.now.methods.items }
    ensures within { IfSome result (λ i. i < length p.now.methods.items) }
{
    first_among(&p.methods, methods_in(p, class, slot), |method| {
        is_declaration_of(method, class, slot)
    })
}

/// The number of the body of a slot that a class itself has.
pub fn own_body_at(p: &Program, class: ClassId, slot: u32) -> Option<usize>
    ensures value { result ≡ position (λ m. has_slot class.0 slot (method_seen m) && is_some (method_seen m).body) p.now.methods.items }
    ensures within { IfSome result (λ i. i < length p.now.methods.items) }
{
    first_among(&p.methods, methods_in(p, class, slot), |method| {
        is_body_of(method, class, slot)
    })
}

/// Whether a method stands in the class and is of the slot.
fn is_declaration_of(method: &Method, class: ClassId, slot: u32) -> bool
    ensures { result ≡ has_slot class.0 slot (method_seen method.now) }
{
    method.owner == class && method.slot == Some(slot)
}

/// Whether a method stands in the class, is of the slot and has a body.
fn is_body_of(method: &Method, class: ClassId, slot: u32) -> bool
    ensures { result ≡ has_slot class.0 slot (method_seen method.now) && is_some (method_seen method.now).body }
{
    is_declaration_of(method, class, slot) && method.body.is_some()
}

/// The methods among which each instance method of a name is.
pub fn methods_named<'a>(p: &'a Program, name: &Name) -> &'a [usize]
    ensures { (c : ℕ) → first_among (λ m. offers (program_of p.now) c name.now (method_seen m)) p.now.methods.items result.now
        ≡ position (λ m. offers (program_of p.now) c name.now (method_seen m)) p.now.methods.items }
{
    listed_under(
        &p.tables.methods.members.named,
        name_bucket(p.methods.len(), ClassId(0), name),
    )
}

/// Whether a method is an instance method of the name that stands at or above a type.
fn offers(p: &Program, method: &Method, class: ClassId, name: &Name) -> bool
    requires { IsFormed (program_of p.now) }
    ensures { result ≡ offers (program_of p.now) class.0 name.now (method_seen method.now) }
{
    is_subtype(p, class, method.owner) && !method.is_static && method.name.same(name)
}

/// The number of the first instance method of a name that stands at or above a type.
pub fn offered_at(p: &Program, class: ClassId, name: &Name) -> Option<usize>
    requires { IsFormed (program_of p.now) }
    ensures { result ≡ offered (program_of p.now) class.0 name.now }
{
    first_among(&p.methods, methods_named(p, name), |method| {
        offers(p, method, class, name)
    })
}
