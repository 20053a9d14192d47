//! Which types are directly below which.
#![tactic(auto)]

ghost use Rattle.std.specs.Prelude.{◌≡◌, ◌∷◌, [], length, map, IfOk};
ghost use Rattle.std.specs.Option.{option_to_list};
ghost use Rattle.java_core.specs.Plain.{class_seen};
ghost use Rattle.java_core.specs.Subtypes.{supers_in, EnteredUnder, AreEmpty, AreDirect};
ghost use Rattle.java_core.specs.Owned.{listed};

use crate::{Class, Tried};
use kaba_base::ClassId;
use std::alloc::Global;

/// The types that stand directly below the type of a number.
pub fn listed(lists: &[Vec<u32>], y: u32) -> &[u32]
    ensures { result.now ≡ listed lists.now y }
{
    match lists.get(y as usize) {
        Some(list) => list.as_slice(),
        None => &[],
    }
}

/// Enters `x` directly below a type.
fn enter(lists: &mut [Vec<u32>], x: u32, class: ClassId) -> Tried<()>
    ensures { IfOk result (λ _. EnteredUnder x (class ∷ []) lists.old lists.new) }
{
    let at = class.0 as usize;
    if at < lists.len() {
        lists[at].push(x)?;
    }
    Ok(())
}

/// Enters `x` directly below these.
fn enter_all(lists: &mut [Vec<u32>], x: u32, classes: &[ClassId]) -> Tried<()>
    ensures { IfOk result (λ _. EnteredUnder x classes.now lists.old lists.new) }
{
    for class in classes {
        enter(lists, x, *class)?;
    }
    Ok(())
}

/// Enters `x` directly below its superclass, if it has one.
fn enter_parent(lists: &mut [Vec<u32>], x: u32, parent: Option<ClassId>) -> Tried<()>
    ensures { IfOk result (λ _. EnteredUnder x (option_to_list parent) lists.old lists.new) }
{
    match parent {
        Some(class) => enter(lists, x, class)?,
        None => {}
    }
    Ok(())
}

/// Enters the class `x` directly below its superclass and its interfaces.
fn enter_class(lists: &mut [Vec<u32>], x: u32, class: &Class) -> Tried<()>
    ensures { IfOk result (λ _. EnteredUnder x (supers_in (class_seen class.now)) lists.old lists.new) }
{
    enter_parent(lists, x, class.parent)?;
    enter_all(lists, x, class.faces.as_slice())?;
    Ok(())
}

/// For each type a list with nothing in it.
fn empty_lists(alloc: Global, count: usize) -> Tried<Vec<Vec<u32>>>
    ensures { IfOk result (λ v. AreEmpty count v.items) }
{
    let mut lists = Vec::new(alloc);
    for _k in 0..count {
        lists.push(Vec::new(alloc))?;
    }
    Ok(lists)
}

/// Enters each class directly below its superclass and its interfaces.
fn enter_classes(lists: &mut [Vec<u32>], all: &Vec<Class>, count: u32) -> Tried<()>
    requires count { length all.now.items ≡ count }
    requires before { AreDirect (map class_seen all.now.items) 0 lists.old }
    ensures { IfOk result (λ _. AreDirect (map class_seen all.now.items) count lists.new) }
{
    for x in 0..count {
        enter_class(lists, x, &all[x as usize])?;
    }
    Ok(())
}

/// For each type those directly below it.
pub fn direct_of(alloc: Global, all: &Vec<Class>, count: u32) -> Tried<Vec<Vec<u32>>>
    requires { length all.now.items ≡ count }
    ensures { IfOk result (λ v. AreDirect (map class_seen all.now.items) count v.items) }
{
    let mut lists = empty_lists(alloc, all.len())?;
    enter_classes(lists.as_mut_slice(), all, count)?;
    Ok(lists)
}
