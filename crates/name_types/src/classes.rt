//! Classes and interfaces: their names, their supertypes, and which are above which.
#![tactic(auto)]

ghost use Rattle.std.specs.Prelude.{◌≡◌, List, Bool, IfOk, map};
ghost use Rattle.std.specs.declared.vec.Vec.{Vec};
ghost use Rattle.std.specs.declared.alloc.Global.{Global};
ghost use Rattle.kaba_base.specs.declared.ClassId.{ClassId};
ghost use Rattle.java_tree.specs.Syntax.{decl_of, decls};
ghost use Rattle.java_core.specs.Programs.{PlainClass, class_seen};
ghost use Rattle.java_core.specs.declared.Class.{Class};
ghost use Rattle.java_core.specs.Subtypes.{subtype_rows};
ghost use Rattle.name_laws.specs.Answers.{GivesValue};
ghost use Rattle.name_laws.specs.Classes.{object_class, known_of, parent_tree, has_id, face, faces_of, class_tree, classes_of, above_of, any_above, above_by, loops_of};

use java_core::{Class, Hierarchy, subtypes_of};
use java_tree::{Decl, Id};
use kaba_base::{ClassId, Name, Place};
use name_rules::{Kind, Refusal};
use name_tables::{Types, after, asked, flags_of, number_at};
use std::alloc::{AllocError, Global};

/// The names of all types, `Object` first; `Twice` where one stands again.
pub fn known_of(alloc: Global, list: &[Decl]) -> Result<Types, Refusal>
    ensures { GivesValue (λ types. types) result (known_of (decls list.now)) }
{
    let mut known = Types::new(alloc)?;
    for decl in list {
        match decl {
            Decl::Class { name, place, .. } => known.add(alloc, name, false, *place)?,
            Decl::Interface { name, place, .. } => known.add(alloc, name, true, *place)?,
        }
    }
    Ok(known)
}

/// The superclass: `Object` where none is named.
fn parent_tree(alloc: Global, known: &Types, parent: &Option<Id>) -> Result<u32, Refusal>
    ensures { GivesValue (λ k. k) result (parent_tree known.now parent.now) }
{
    match parent {
        None => Ok(0),
        Some(id) => {
            let class = asked(alloc, known, &id.name, id.place)?;
            if known.is_interface(class) {
                return Err(Refusal::TwoKinds(id.name.copy(alloc)?, id.place));
            }
            Ok(class)
        }
    }
}

/// Whether the class is in the list.
fn has_id(list: &[ClassId], class: u32) -> bool
    ensures { result ≡ has_id list.now class }
{
    for one in list {
        if one.0 == class {
            return true;
        }
    }
    false
}

/// One interface more.
fn face(alloc: Global, known: &Types, faces: &mut Vec<ClassId>, id: &Id) -> Result<(), Refusal>
    ensures { GivesValue (λ _. faces.new.items) result (face known.now faces.old.items id.now) }
{
    let class = asked(alloc, known, &id.name, id.place)?;
    if !known.is_interface(class) {
        return Err(Refusal::TwoKinds(id.name.copy(alloc)?, id.place));
    }
    if has_id(faces.as_slice(), class) {
        return Err(Refusal::Twice(id.name.copy(alloc)?, id.place));
    }
    faces.push(ClassId(class))?;
    Ok(())
}

/// The interfaces of a list.
fn faces_of(alloc: Global, known: &Types, ids: &Vec<Id>) -> Result<Vec<ClassId>, Refusal>
    ensures { GivesValue {A = Vec ClassId Global} {B = List ClassId} (λ v. v.items) result (faces_of known.now ids.now.items) }
{
    let mut faces = Vec::new(alloc);
    for id in ids {
        face(alloc, known, &mut faces, id)?;
    }
    Ok(faces)
}

/// The class or interface of a declaration.
fn class_tree(alloc: Global, known: &Types, decl: &Decl) -> Result<Class, Refusal>
    ensures { GivesValue {A = Class} {B = PlainClass} class_seen result (class_tree known.now (decl_of decl.now)) }
{
    match decl {
        Decl::Class {
            mods,
            name,
            parent,
            faces,
            place,
            ..
        } => {
            let flags = flags_of(Kind::Class, mods)?;
            let parent = parent_tree(alloc, known, parent)?;
            let faces = faces_of(alloc, known, faces)?;
            Ok(Class {
                name: name.copy(alloc)?,
                is_interface: false,
                is_abstract: flags.is_abstract,
                parent: Some(ClassId(parent)),
                faces,
                place: *place,
            })
        }
        Decl::Interface {
            mods,
            name,
            parents,
            place,
            ..
        } => {
            let flags = flags_of(Kind::Interface, mods)?;
            let faces = faces_of(alloc, known, parents)?;
            Ok(Class {
                name: name.copy(alloc)?,
                is_interface: true,
                is_abstract: flags.is_abstract,
                parent: Some(ClassId(0)),
                faces,
                place: *place,
            })
        }
    }
}

/// `Object`.
fn object(alloc: Global) -> Result<Class, AllocError>
    ensures { IfOk result (λ c. class_seen c ≡ object_class) }
{
    Ok(Class {
        name: Name::new(alloc, "Object")?,
        is_interface: false,
        is_abstract: false,
        parent: None,
        faces: Vec::new(alloc),
        place: Place { at: 0, line: 0 },
    })
}

/// All classes and interfaces, `Object` first.
pub fn classes_of(alloc: Global, known: &Types, list: &[Decl]) -> Result<Vec<Class>, Refusal>
    ensures { GivesValue {A = Vec Class Global} {B = List PlainClass} (λ v. map class_seen v.items) result (classes_of known.now (decls list.now)) }
{
    let mut classes = Vec::new(alloc);
    classes.push(object(alloc)?)?;
    for decl in list {
        classes.push(class_tree(alloc, known, decl)?)?;
    }
    Ok(classes)
}

/// Which types are above which.
#[tactic(auto, unfolding(name_laws::specs::Classes::above_of))]
pub fn above_of(alloc: Global, all: &Vec<Class>) -> Result<Hierarchy, Refusal>
    ensures gives { GivesValue {A = List (List Bool)} {B = List (List Bool)} (λ r. r) result (above_of (map class_seen all.now.items)) }
    ensures rows { IfOk result (λ r. r ≡ subtype_rows (map class_seen all.now.items)) }
{
    let count = number_at(all.len())?;
    Ok(subtypes_of(alloc, all, count)?)
}

/// Whether one of these types is at or below `b`.
fn any_above(rows: &Hierarchy, list: &[ClassId], b: u32) -> bool
    ensures { result ≡ any_above rows.now list.now b }
{
    for class in list {
        if rows.is_above(class.0, b) {
            return true;
        }
    }
    false
}

/// Whether something directly above the class is at or below `b`.
fn above_by(rows: &Hierarchy, class: &Class, b: u32) -> bool
    ensures { result ≡ above_by rows.now (class_seen class.now) b }
{
    let by_parent = match class.parent {
        Some(parent) => rows.is_above(parent.0, b),
        None => false,
    };
    by_parent | any_above(rows, class.faces.as_slice(), b)
}

/// `Loop` where a class is its own ancestor.
pub fn loops_of(alloc: Global, rows: &Hierarchy, all: &Vec<Class>) -> Result<u32, Refusal>
    ensures { GivesValue (λ k. k) result (loops_of rows.now (map class_seen all.now.items)) }
{
    let mut a = 0;
    for class in all {
        if above_by(rows, class, a) {
            return Err(Refusal::Loop(class.name.copy(alloc)?, class.place));
        }
        a = after(a)?;
    }
    Ok(a)
}
