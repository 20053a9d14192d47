//! Which classes write a constructor, themselves or above them.
#![tactic(auto)]

ghost use Rattle.std.specs.Prelude.{◌≡◌, ◌∷◌, false, is_some, IfOk, map};
ghost use Rattle.std.specs.List.{list_any};
ghost use Rattle.java_tree.specs.Syntax.{member_of, decl_of, decls};
ghost use Rattle.java_tree.specs.Makers.{is_maker, declares_maker};
ghost use Rattle.java_core.specs.Programs.{class_seen};
ghost use Rattle.java_core.specs.Classes.{parent_of, nearest_of};
ghost use Rattle.java_core.specs.Subtypes.{of_classes};
ghost use Rattle.name_types.specs.Writers.{writer_at, writers_in};

use java_core::Class;
use java_tree::{Decl, Member};
use kaba_base::ClassId;
use std::alloc::{AllocError, Global};

/// Whether a member is a constructor.
fn is_maker(member: &Member) -> bool
    ensures { result ≡ is_maker (member_of member.now) }
{
    match member {
        Member::Field { .. } | Member::Method { .. } => false,
        Member::Maker { .. } => true,
    }
}

/// Whether some member of a list is one.
fn has_maker(list: &[Member]) -> bool
    ensures { result ≡ list_any (λ m. is_maker (member_of m)) list.now }
{
    list.iter().any(|member| is_maker(member))
}

/// Whether a class writes a constructor.
#[tactic(auto, using(crate::proofs::WriterLemmas::of_members))]
pub fn declares_maker(decl: &Decl) -> bool
    ensures { result ≡ declares_maker (decl_of decl.now) }
{
    match decl {
        Decl::Class { members, .. } => has_maker(members),
        Decl::Interface { .. } => false,
    }
}

/// Which types write a constructor, `Object` first.
pub fn writers(alloc: Global, list: &[Decl]) -> Result<Vec<bool>, AllocError>
    ensures { IfOk result (λ v. v.items ≡ writers_in (decls list.now)) }
{
    let mut writers = Vec::new(alloc);
    writers.push(false)?;
    for decl in list {
        writers.push(declares_maker(decl))?;
    }
    Ok(writers)
}

/// Whether the class of a number writes a constructor.
fn is_writer(writers: &Vec<bool>, class: u32) -> bool
    ensures { result ≡ is_some (writer_at writers.now.items class) }
{
    match writers.get(class as usize) {
        Some(writes) => *writes,
        None => false,
    }
}

/// The superclass of the class of a number.
fn parent_of(classes: &Vec<Class>, class: u32) -> Option<ClassId>
    ensures { result ≡ parent_of (of_classes (map class_seen classes.now.items)) class }
{
    match classes.get(class as usize) {
        Some(seen) => seen.parent,
        None => None,
    }
}

/// Whether a class or one of its superclasses writes a constructor.
pub fn has_writer(classes: &Vec<Class>, writers: &Vec<bool>, class: u32) -> bool
    ensures { result ≡ is_some (nearest_of (of_classes (map class_seen classes.now.items)) (writer_at writers.now.items) class) }
{
    let mut at = class;
    for _step in classes {
        if is_writer(writers, at) {
            return true;
        }
        match parent_of(classes, at) {
            Some(parent) => at = parent.0,
            None => return false,
        }
    }
    is_writer(writers, at)
}
