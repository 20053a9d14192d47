//! For each class the members that stand nearest at or above it, by numbers of their names.
#![tactic(auto)]

ghost use Rattle.std.specs.Prelude.{◌≡◌, ℕ, ◌<◌, ◌∷◌, [], length, map, Some, IfOk, IfSome, OnOk, slice_get, set};
ghost use Rattle.kaba_versions.specs.Held.{holds};
ghost use Rattle.kaba_versions.specs.declared.VersionMap.{VersionMap};
ghost use Rattle.java_core.specs.Classes.{first_or, is_slot};
ghost use Rattle.java_core.specs.Owned.{passes};
ghost use Rattle.java_core.specs.declared.tables.MemberKey.TheVariants as key;
ghost use Rattle.java_core.specs.Tables.{AreMembersBy};
ghost use Rattle.java_core.specs.Nearest.{has_name, name_number, number_of, name_numbers, numbered_among, parent_at, AreVersions, IsVersion, IsVersionAbove};

use crate::Tried;
use crate::owned::{first_among, listed_under};
use crate::tables::{Member, name_bucket};
use kaba_base::{ClassId, Name};
use kaba_versions::VersionMap;
use std::alloc::Global;

/// Members are numbered in 32 bits.
pub const MANY: usize = 4294967295;

/// Whether a member is looked for from below, and has the name.
fn has_name<M: Member>(member: &M, name: &Name) -> bool
    ensures { result ≡ has_name M.keys name.now member.now }
{
    let keys = member.keys();
    keys.is_inherited && keys.name.same(name)
}

/// The number of a name: that of the first such member that has it. The lists are those of the names.
pub fn name_number<M: Member>(members: &[M], lists: &Vec<Vec<usize>>, name: &Name) -> Option<usize>
    requires { AreMembersBy M.keys key.Name members.now lists.now.items }
    ensures { result ≡ name_number M.keys members.now name.now }
{
    let list = listed_under(lists, name_bucket(members.len(), ClassId(0), name));
    first_among(members, list, |member| has_name(member, name))
}

/// A number in 32 bits.
fn narrow(at: Option<usize>) -> Option<u32>
    requires { IfSome at (λ i. i < 4294967295) }
    ensures { result ≡ at }
{
    match at {
        Some(at) => Some(at as u32),
        None => None,
    }
}

/// The number of a member's name, where it is looked for from below.
fn number_of<M: Member>(members: &[M], lists: &Vec<Vec<usize>>, member: &M) -> Option<u32>
    requires few { length members.now < 4294967295 }
    requires named { AreMembersBy M.keys key.Name members.now lists.now.items }
    ensures { result ≡ number_of M.keys members.now member.now }
{
    let keys = member.keys();
    if keys.is_inherited {
        narrow(name_number(members, lists, keys.name))
    } else {
        None
    }
}

/// For each member the number of its name; `AllocError` where memory is short.
fn name_numbers<M: Member>(
    alloc: Global,
    members: &[M],
    lists: &Vec<Vec<usize>>,
) -> Tried<Vec<Option<u32>>>
    requires few { length members.now < 4294967295 }
    requires named { AreMembersBy M.keys key.Name members.now lists.now.items }
    ensures { IfOk result (λ v. v.items ≡ name_numbers M.keys members.now) }
{
    let mut numbers = Vec::new(alloc);
    for member in members {
        numbers.push(number_of(members, lists, member))?;
    }
    Ok(numbers)
}

/// The number of the name of the member of a number.
fn number_at(numbers: &[Option<u32>], at: usize) -> Option<u32>
    ensures value { (i : ℕ) → is_slot result i ≡ passes (λ o. is_slot o i) (slice_get numbers.now at) }
    ensures within { IfSome result (λ _. at < length numbers.now) }
{
    match numbers.get(at) {
        Some(number) => *number,
        None => None,
    }
}

/// A version with one member more, if its name has a number.
fn with_member(
    alloc: Global,
    map: VersionMap,
    numbers: &[Option<u32>],
    at: usize,
) -> Tried<VersionMap>
    requires { length numbers.now < 4294967295 }
    ensures { IfOk result (λ m. (i : ℕ) → holds m i ≡ first_or (numbered_among numbers.now i (at ∷ [])) (holds map i)) }
{
    match number_at(numbers, at) {
        Some(number) => map.with(alloc, number, at as u32),
        None => Ok(map),
    }
}

/// A version with the members of a class more, of which the first of a name counts.
fn with_members(
    alloc: Global,
    map: VersionMap,
    numbers: &[Option<u32>],
    own: &[usize],
) -> Tried<VersionMap>
    requires { length numbers.now < 4294967295 }
    ensures { IfOk result (λ m. (i : ℕ) → holds m i ≡ first_or (numbered_among numbers.now i own.now) (holds map i)) }
{
    let mut now = map;
    let mut left = own.len();
    'back: while left > 0 {
        left -= 1;
        now = with_member(alloc, now, numbers, own[left])?;
    }
    Ok(now)
}

/// The version of a number once more, where it is known.
fn version_at(all: &[Option<VersionMap>], at: usize) -> Tried<Option<VersionMap>>
    ensures { IfOk result (λ o. IfSome o (λ m. IsVersion all.now at (holds m))) }
{
    match all.get(at) {
        Some(Some(map)) => Ok(Some(map.copy()?)),
        _ => Ok(None),
    }
}

/// The version of a class's superclass, where it is known.
fn version_above(
    alloc: Global,
    parent: Option<ClassId>,
    all: &[Option<VersionMap>],
) -> Tried<Option<VersionMap>>
    ensures { IfOk result (λ o. IfSome o (λ m. IsVersionAbove all.now parent (holds m))) }
{
    match parent {
        Some(parent) => version_at(all, parent.0 as usize),
        None => Ok(Some(VersionMap::new(alloc)?)),
    }
}

/// The superclass of the class of a number.
pub fn parent_at(parents: &[Option<ClassId>], at: usize) -> Option<ClassId>
    ensures { result ≡ parent_at parents.now at }
{
    match parents.get(at) {
        Some(parent) => *parent,
        None => None,
    }
}

/// The version of a class, if there is room for it.
fn put(all: &mut [Option<VersionMap>], at: usize, map: VersionMap)
    ensures { all.new ≡ set all.old at (Some map) }
{
    if at < all.len() {
        all[at] = Some(map);
    }
}

/// The version of a class, if that of its superclass is known; `AllocError` where memory is short.
fn enter(
    alloc: Global,
    parents: &[Option<ClassId>],
    own: &Vec<Vec<usize>>,
    numbers: &[Option<u32>],
    all: &mut [Option<VersionMap>],
    at: usize,
) -> Tried<()>
    requires few { length numbers.now < 4294967295 }
    requires before { AreVersions parents.now numbers.now own.now.items all.old }
    ensures { OnOk result (AreVersions parents.now numbers.now own.now.items all.new) }
{
    let Some(above) = version_above(alloc, parent_at(parents, at), all)? else {
        return Ok(());
    };
    let map = with_members(alloc, above, numbers, listed_under(own, at))?;
    put(all, at, map);
    Ok(())
}

/// No versions, for each of so many classes; `AllocError` where memory is short.
fn none_yet(alloc: Global, count: usize) -> Tried<Vec<Option<VersionMap>>>
    ensures { IfOk result (λ v. (c : ℕ) (m : VersionMap) → slice_get v.items c ≡ Some (Some m) → ⊥) }
{
    let mut all = Vec::new(alloc);
    for _k in 0..count {
        all.push(None)?;
    }
    Ok(all)
}

/// Marks the one of a number, if there is one.
fn mark(marks: &mut [bool], at: usize) {
    if at < marks.len() {
        marks[at] = true;
    }
}

/// Whether the one of a number is there and marked.
fn is_marked(marks: &[bool], at: usize) -> bool {
    at < marks.len() && marks[at]
}

/// Which classes others extend; `AllocError` where memory is short. What is made by it is tested.
fn extended(alloc: Global, parents: &[Option<ClassId>]) -> Tried<Vec<bool>> {
    let mut marks = vec![in alloc; false; parents.len()]?;
    for parent in parents {
        if let Some(parent) = parent {
            mark(&mut marks, parent.0 as usize);
        }
    }
    Ok(marks)
}

/// For each class that others extend the members at or above it by the numbers of their names; `AllocError` where memory is short.
fn versions(
    alloc: Global,
    parents: &[Option<ClassId>],
    own: &Vec<Vec<usize>>,
    numbers: &[Option<u32>],
    order: &[u32],
) -> Tried<Vec<Option<VersionMap>>>
    requires { length numbers.now < 4294967295 }
    ensures { IfOk result (λ v. AreVersions parents.now numbers.now own.now.items v.items) }
{
    let extended = extended(alloc, parents)?;
    let mut all = none_yet(alloc, parents.len())?;
    for at in order {
        if is_marked(&extended, *at as usize) {
            enter(
                alloc,
                parents,
                own,
                numbers,
                all.as_mut_slice(),
                *at as usize,
            )?;
        }
    }
    Ok(all)
}

/// For each class that others extend those members at or above it by the numbers of their names; `AllocError` where memory is short.
pub fn nearest_members<M: Member>(
    alloc: Global,
    parents: &[Option<ClassId>],
    members: &[M],
    own: &Vec<Vec<usize>>,
    lists: &Vec<Vec<usize>>,
    order: &[u32],
) -> Tried<Vec<Option<VersionMap>>>
    requires { AreMembersBy M.keys key.Name members.now lists.now.items }
    ensures { IfOk result (λ v. AreVersions parents.now (name_numbers M.keys members.now) own.now.items v.items) }
{
    if members.len() >= MANY {
        return none_yet(alloc, 0);
    }
    let numbers = name_numbers(alloc, members, lists)?;
    versions(alloc, parents, own, numbers.as_slice(), order)
}
