//! The holders: the classes in which the static members of the old classes stand.

ghost use Rattle.std.specs.Prelude.{◌≡◌, ◌++◌, ◌∷◌, [], ◌==◌, ◌&&◌, IfOk, OnOk};
ghost use Rattle.source_gen.specs.Words.{program_of, class_seen, method_seen, field_seen, each, when, IsSource, old_program, renaming};
ghost use Rattle.std.specs.List.{list_any};
ghost use Rattle.java_tree.specs.Syntax as tree;
ghost use Rattle.flow_rules.specs.Facts.{is_holder};
ghost use Rattle.write_model.specs.Members as written;
ghost use Rattle.write_model.specs.Written as types;

use crate::members::{push_decl, push_member, static_field, static_method};
use java_core::{Class, Field, Method, Program};
use java_tree::unplaced::nowhere;
use java_tree::{Decl, Member};
use kaba_base::ClassId;
use std::alloc::AllocError;
use write_forms::Source;

/// Whether one of these members is static and of the class with this number.
macro_rules! any_static {
    ($member:ident in $members:expr, $c:ident) => {{
        for $member in &$members {
            if is_of($member.is_static, $member.owner, $c) {
                return true;
            }
        }
        false
    }};
}

/// Adds a member as it is written, if it is a static one of the class.
macro_rules! add_static {
    ($written:ident, ($n:ident, $member:ident), $old:ident, $into:ident) => {{
        if !is_of($member.is_static, $member.owner, $old.class) {
            return Ok(());
        }
        push_member($into, $written($old.source, $n, $member)?)
    }};
}

/// Adds the static members of the class among these, in their order.
macro_rules! add_each {
    ($add:ident, ($n:ident, $member:ident) in $members:expr, $old:ident, $into:ident) => {{
        for ($n, $member) in $members.iter().enumerate() {
            $add($old, $n as u64, $member, $into)?;
        }
        Ok(())
    }};
}

/// A class of the old program, by its number, and what its static members are written of.
#[derive(Clone, Copy)]
struct Old<'a> {
    source: &'a Source<'a>,
    class: usize,
}

/// Whether a member is static and of the class with this number.
fn is_of(is_static: bool, owner: ClassId, c: usize) -> bool
    ensures { result ≡ (is_static && (owner.0 == c)) }
{
    is_static && owner.0 as usize == c
}

/// Whether a class has a static field.
fn has_static_field(program: &Program, c: usize) -> bool
    ensures { result ≡ list_any (λ f. f.is_static && (f.owner == c)) (program_of program.now).fields }
{
    any_static!(field in program.fields, c)
}

/// Whether a class has a static method.
fn has_static_method(program: &Program, c: usize) -> bool
    ensures { result ≡ list_any (λ m. m.is_static && (m.owner == c)) (program_of program.now).methods }
{
    any_static!(method in program.methods, c)
}

/// Whether a class has static members.
fn is_holder(program: &Program, c: usize) -> bool
    ensures { result ≡ is_holder (program_of program.now) c }
{
    has_static_field(program, c) || has_static_method(program, c)
}

/// Adds a field, if it is a static one of the class.
fn add_field(old: &Old, f: u64, field: &Field, into: &mut Vec<Member>) -> Result<(), AllocError>
    requires { IsSource old.now.source.now }
    ensures { OnOk result (tree.members into.new.items ≡ tree.members into.old.items ++ written.static_field_member (old_program old.now.source.now)
        (renaming old.now.source.now) old.now.source.now.hier.now old.now.class f (field_seen field.now)) }
{
    add_static!(static_field, (f, field), old, into)
}

/// Adds a method, if it is a static one of the class.
fn add_method(old: &Old, m: u64, method: &Method, into: &mut Vec<Member>) -> Result<(), AllocError>
    requires { IsSource old.now.source.now }
    ensures { OnOk result (tree.members into.new.items ≡ tree.members into.old.items ++ written.static_method_member (old_program old.now.source.now)
        (renaming old.now.source.now) old.now.source.now.hier.now old.now.class m (method_seen method.now)) }
{
    add_static!(static_method, (m, method), old, into)
}

/// Adds the static fields of the class, in the order of the program.
fn add_fields(old: &Old, into: &mut Vec<Member>) -> Result<(), AllocError>
    requires { IsSource old.now.source.now }
    ensures { OnOk result (tree.members into.new.items ≡ tree.members into.old.items ++ each (written.static_field_member (old_program old.now.source.now)
        (renaming old.now.source.now) old.now.source.now.hier.now old.now.class) 0 (old_program old.now.source.now).fields) }
{
    add_each!(add_field, (f, field) in old.source.program.fields, old, into)
}

/// Adds the static methods of the class, in the order of the program.
fn add_methods(old: &Old, into: &mut Vec<Member>) -> Result<(), AllocError>
    requires { IsSource old.now.source.now }
    ensures { OnOk result (tree.members into.new.items ≡ tree.members into.old.items ++ each (written.static_method_member (old_program old.now.source.now)
        (renaming old.now.source.now) old.now.source.now.hier.now old.now.class) 0 (old_program old.now.source.now).methods) }
{
    add_each!(add_method, (m, method) in old.source.program.methods, old, into)
}

/// The static members of an old class, under its name.
fn holder(old: &Old, class: &Class) -> Result<Decl, AllocError>
    requires { IsSource old.now.source.now }
    ensures { IfOk result (λ d. tree.decl_of d ≡ types.holder_tree (old_program old.now.source.now) (renaming old.now.source.now)
        old.now.source.now.hier.now old.now.class (class_seen class.now)) }
{
    let name = class.name.copy(old.source.alloc)?;
    let mut members = Vec::new(old.source.alloc);
    add_fields(old, &mut members)?;
    add_methods(old, &mut members)?;
    Ok(Decl::Class {
        mods: Vec::new(old.source.alloc),
        name,
        parent: None,
        faces: Vec::new(old.source.alloc),
        members,
        place: nowhere(),
    })
}

/// Adds the holder of a class, if it has static members.
fn add_holder(old: &Old, class: &Class, into: &mut Vec<Decl>) -> Result<(), AllocError>
    requires { IsSource old.now.source.now }
    ensures { OnOk result (tree.decls into.new.items ≡ tree.decls into.old.items ++ when (is_holder (old_program old.now.source.now) old.now.class)
        (types.holder_tree (old_program old.now.source.now) (renaming old.now.source.now) old.now.source.now.hier.now old.now.class
        (class_seen class.now) ∷ [])) }
{
    if !is_holder(old.source.program, old.class) {
        return Ok(());
    }
    push_decl(into, holder(old, class)?)
}

/// Adds the holders, in the order of the program.
pub fn add_holders(source: &Source, into: &mut Vec<Decl>) -> Result<(), AllocError>
    requires { IsSource source.now }
    ensures { OnOk result (tree.decls into.new.items ≡ tree.decls into.old.items ++ types.holder_trees (old_program source.now)
        (renaming source.now) source.now.hier.now) }
{
    for (c, class) in source.program.classes.iter().enumerate() {
        let old = Old {
            source: &*source,
            class: c,
        };
        add_holder(&old, class, into)?;
    }
    Ok(())
}
