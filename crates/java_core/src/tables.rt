//! The members of a program by owner, by owner and name, by owner and slot, and by name.
#![tactic(auto)]

ghost use Rattle.std.specs.Prelude.{◌≡◌, ◌+◌, ◌/◌, ◌<◌, None, true, not, length, IfOk};
ghost use Rattle.java_core.specs.MemberKeys.{MemberKeys, field_keys, method_keys};
ghost use Rattle.java_core.specs.Tables.{AreMembersBy, AreMemberTables, AreMethodTables, mixed, mixed_all, name_bucket, slot_bucket, place_by};

use crate::nearest::nearest_members;
use crate::owned::note_under;
use crate::{Field, Method, Tried};
use kaba_base::{ClassId, Name, made};
use kaba_versions::VersionMap;
use std::alloc::{AllocError, Global};

/// What a member is looked for by.
#[derive(Clone, Copy)]
pub struct Keys<'a> {
    /// Whether it is looked for by its name from the classes below: a field, or an instance method.
    pub is_inherited: bool,
    /// The class or interface that it stands in.
    pub owner: ClassId,
    pub name: &'a Name,
    /// The slot of a method, if it has one.
    pub slot: Option<u32>,
}

/// A field or a method.
pub trait Member {
    ghost keys: { Self → MemberKeys };

    /// What it is looked for by.
    fn keys(&self) -> Keys<'_>
        ensures inherited { result.is_inherited ≡ (keys self.now).is_inherited }
        ensures owner { result.owner.0 ≡ (keys self.now).owner }
        ensures name { result.name.now ≡ (keys self.now).name }
        ensures slot { result.slot ≡ (keys self.now).slot };
}

impl Member for Field {
    ghost keys = { field_keys };

    fn keys(&self) -> Keys<'_> {
        Keys {
            is_inherited: true,
            owner: self.owner,
            name: &self.name,
            slot: None,
        }
    }
}

impl Member for Method {
    ghost keys = { method_keys };

    fn keys(&self) -> Keys<'_> {
        Keys {
            is_inherited: !self.is_static,
            owner: self.owner,
            name: &self.name,
            slot: self.slot,
        }
    }
}

/// By what members are listed.
pub enum MemberKey {
    /// By their class or interface.
    Owner,
    /// By their class or interface and their name.
    OwnerAndName,
    /// By their class or interface and their slot.
    OwnerAndSlot,
    /// By their name.
    Name,
}

/// The numbers of fields, or of methods, in rising order in each list.
#[derive(Drop)]
pub struct MemberTables {
    /// For each class or interface the members that it declares itself.
    pub own: Vec<Vec<usize>>,
    /// For each bucket the members of its owners and names.
    pub by_name: Vec<Vec<usize>>,
    /// For each bucket the members of its names.
    pub named: Vec<Vec<usize>>,
    /// For each class that others extend the fields, or instance methods, at or above it by the numbers of their names, the nearest ones.
    pub nearest: Vec<Option<VersionMap>>,
}

/// The numbers of methods, by their slots too.
#[derive(Drop)]
pub struct MethodTables {
    pub members: MemberTables,
    /// For each bucket the methods of its owners and slots.
    pub by_slot: Vec<Vec<usize>>,
}

/// The numbers of members by what they are looked for by.
#[derive(Drop)]
pub struct Tables {
    /// The superclass of each class.
    pub parents: Vec<Option<ClassId>>,
    pub fields: MemberTables,
    pub methods: MethodTables,
}

impl MemberTables {
    /// The tables of these members, for classes with these superclasses and types in an order in which each comes behind its supertypes;
    /// `AllocError` where memory is short.
    pub fn new<M: Member>(
        alloc: Global,
        parents: &[Option<ClassId>],
        members: &[M],
        order: &[u32],
    ) -> Result<MemberTables, AllocError>
        ensures { IfOk result (λ t. AreMemberTables M.keys parents.now members.now t) }
    {
        let own = listed_by(alloc, members, &MemberKey::Owner)?;
        let named = listed_by(alloc, members, &MemberKey::Name)?;
        Ok(MemberTables {
            nearest: nearest_members(alloc, parents, members, &own, &named, order)?,
            by_name: listed_by(alloc, members, &MemberKey::OwnerAndName)?,
            own,
            named,
        })
    }
}

impl MethodTables {
    /// The tables of these methods, as above; `AllocError` where memory is short.
    pub fn new(
        alloc: Global,
        parents: &[Option<ClassId>],
        methods: &[Method],
        order: &[u32],
    ) -> Tried<MethodTables>
        ensures { IfOk result (λ t. AreMethodTables parents.now methods.now t) }
    {
        let by_slot = made!(listed_by(alloc, methods, &MemberKey::OwnerAndSlot));
        let members = made!(MemberTables::new(alloc, parents, methods, order); by_slot);
        Ok(MethodTables { members, by_slot })
    }
}

/// A hash carried on by a number (Fowler, Noll and Vo's hash, with numbers of 32 bits in place of bytes).
pub fn mixed(hash: u64, next: u64) -> u64
    requires hash { hash < 4294967296 }
    requires next { next < 4294967296 }
    ensures value { result ≡ mixed hash next }
    ensures within { result < 4294967296 }
{
    (hash * 16777619 + next) % 4294967296
}

/// A hash carried on by each byte.
pub fn mixed_all(hash: u64, bytes: &[u8]) -> u64
    requires { hash < 4294967296 }
    ensures { result ≡ mixed_all hash bytes.now }
{
    let mut now = hash;
    for byte in bytes {
        now = mixed(now, *byte as u64);
    }
    now
}

/// The bucket of a class's members of a name, of so many members.
pub fn name_bucket(members: usize, class: ClassId, name: &Name) -> usize
    ensures { result ≡ name_bucket members class.0 name.now }
{
    (mixed_all(class.0 as u64, name.as_str().as_bytes()) % (members as u64 / 2 + 1)) as usize
}

/// The bucket of a class's methods of a slot, or of those without a slot, of so many methods.
pub fn slot_bucket(members: usize, class: ClassId, slot: Option<u32>) -> usize
    ensures { result ≡ slot_bucket members class.0 slot }
{
    let last = members as u64 / 2 + 1;
    match slot {
        Some(slot) => (mixed(class.0 as u64, slot as u64) % last) as usize,
        None => last as usize,
    }
}

/// The place of a member in the lists, of so many members.
fn place_by<M: Member>(by: &MemberKey, members: usize, member: &M) -> usize
    ensures { result ≡ place_by by.now members (M.keys member.now) }
{
    let keys = member.keys();
    match by {
        MemberKey::Owner => keys.owner.0 as usize,
        MemberKey::OwnerAndName => name_bucket(members, keys.owner, keys.name),
        MemberKey::OwnerAndSlot => slot_bucket(members, keys.owner, keys.slot),
        MemberKey::Name => name_bucket(members, ClassId(0), keys.name),
    }
}

/// The members by what is said; `AllocError` where memory is short.
fn listed_by<M: Member>(alloc: Global, list: &[M], by: &MemberKey) -> Tried<Vec<Vec<usize>>>
    ensures { IfOk result (λ v. AreMembersBy M.keys by.now list.now v.items) }
{
    let mut lists = Vec::new(alloc);
    for k in 0..list.len() {
        note_under(alloc, &mut lists, place_by(by, list.len(), &list[k]), k)?;
    }
    Ok(lists)
}
