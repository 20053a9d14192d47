//! The text of a declaration.
#![tactic(auto)]

ghost use Rattle.std.specs.Prelude.{OnOk, false};
ghost use Rattle.java_tree.specs.Syntax.{exprs, stmts, head_of, heads, member_of, members, decl_of, decls, body_seen, up_seen};
ghost use Rattle.java_print.specs.Layout.{mods_items, result_items, param_items, params_items, head_items, body_items, field_member_items, method_items, up_line_items, up_items, maker_head_items, maker_body_items, maker_items, member_items, members_items, heads_items, ids_items, extends_items, parent_items, listed_items, list_items, named_items, front_items, class_supers_items, supers_items, inside_items, decl_items, decls_items};
ghost use Rattle.java_print.specs.Adds.{Puts};

use crate::exprs::{put_args, put_comma, put_key_space, put_space, put_type};
use crate::put::{put_end, put_key, put_margin, put_mark, put_name};
use crate::simple::{put_final, put_stop};
use crate::stmts::{put_close_body, put_open_body, put_stmts, put_whole_body};
use java_lex::Mark;
use java_tree::{Decl, Expr, Head, Id, Member, Modifier, Param, Stmt, TypeName};
use kaba_base::{Keyword, Name};
use std::alloc::AllocError;

/// Adds modifiers.
fn put_mods(into: &mut Vec<u8>, mods: &[Modifier]) -> Result<(), AllocError>
    ensures value { OnOk result (Puts into.old.items into.new.items (mods_items mods.now)) }
{
    for m in mods {
        put_key_space(into, m.word)?;
    }
    Ok(())
}

/// Adds the type of a method's result, or `void`.
fn put_result(into: &mut Vec<u8>, result_type: &Option<TypeName>) -> Result<(), AllocError>
    ensures value { OnOk result (Puts into.old.items into.new.items (result_items result_type.now)) }
{
    match result_type {
        None => put_key(into, Keyword::Void),
        Some(ty) => put_type(into, ty),
    }
}

/// Adds a parameter.
fn put_param(into: &mut Vec<u8>, param: &Param) -> Result<(), AllocError>
    ensures value { OnOk result (Puts into.old.items into.new.items (param_items param.now)) }
{
    put_final(into, param.is_final)?;
    put_type(into, &param.ty)?;
    put_space(into)?;
    put_name(into, &param.name)
}

/// Adds parameters and the bracket that closes them.
fn put_params(into: &mut Vec<u8>, params: &[Param]) -> Result<(), AllocError>
    ensures value { OnOk result (Puts into.old.items into.new.items (params_items false params.now)) }
{
    for (i, param) in params.iter().enumerate() {
        put_comma(into, i > 0)?;
        put_param(into, param)?;
    }
    put_mark(into, Mark::CloseRound)
}

/// Adds a method up to its body.
fn put_head(into: &mut Vec<u8>, head: &Head) -> Result<(), AllocError>
    ensures value { OnOk result (Puts into.old.items into.new.items (head_items (head_of head.now))) }
{
    put_mods(into, head.mods.as_slice())?;
    put_result(into, &head.result)?;
    put_space(into)?;
    put_name(into, &head.name)?;
    put_mark(into, Mark::OpenRound)?;
    put_params(into, head.params.as_slice())
}

/// Adds the body of a method, or a semicolon.
fn put_method_body(into: &mut Vec<u8>, body: &Option<Vec<Stmt>>) -> Result<(), AllocError>
    ensures value { OnOk result (Puts into.old.items into.new.items (body_items (body_seen body.now))) }
{
    match body {
        None => put_stop(into),
        Some(body) => put_whole_body(into, 2, body.as_slice()),
    }
}

/// Adds a field of a class.
fn put_field_member(
    into: &mut Vec<u8>,
    mods: &[Modifier],
    ty: &TypeName,
    name: &Name,
) -> Result<(), AllocError>
    ensures value { OnOk result (Puts into.old.items into.new.items (field_member_items mods.now ty.now name.now)) }
{
    put_margin(into, 2)?;
    put_mods(into, mods)?;
    put_type(into, ty)?;
    put_space(into)?;
    put_name(into, name)?;
    put_stop(into)
}

/// Adds a method of a class.
fn put_method(into: &mut Vec<u8>, head: &Head, body: &Option<Vec<Stmt>>) -> Result<(), AllocError>
    ensures value { OnOk result (Puts into.old.items into.new.items (method_items (head_of head.now) (body_seen body.now))) }
{
    put_margin(into, 2)?;
    put_head(into, head)?;
    put_method_body(into, body)
}

/// Adds a `super(..)` in a line of its own.
fn put_up_line(into: &mut Vec<u8>, args: &[Expr]) -> Result<(), AllocError>
    ensures value { OnOk result (Puts into.old.items into.new.items (up_line_items (exprs args.now))) }
{
    put_margin(into, 4)?;
    put_key(into, Keyword::Super)?;
    put_mark(into, Mark::OpenRound)?;
    put_args(into, args)?;
    put_stop(into)
}

/// Adds the `super(..)` that the body of a constructor begins with, where there is one.
fn put_up(into: &mut Vec<u8>, up: &Option<Vec<Expr>>) -> Result<(), AllocError>
    ensures value { OnOk result (Puts into.old.items into.new.items (up_items (up_seen up.now))) }
{
    match up {
        None => Ok(()),
        Some(args) => put_up_line(into, args.as_slice()),
    }
}

/// Adds a constructor up to its body.
fn put_maker_head(
    into: &mut Vec<u8>,
    mods: &[Modifier],
    name: &Name,
    params: &[Param],
) -> Result<(), AllocError>
    ensures value { OnOk result (Puts into.old.items into.new.items (maker_head_items mods.now name.now params.now)) }
{
    put_mods(into, mods)?;
    put_name(into, name)?;
    put_mark(into, Mark::OpenRound)?;
    put_params(into, params)
}

/// Adds the body of a constructor.
fn put_maker_body(
    into: &mut Vec<u8>,
    up: &Option<Vec<Expr>>,
    body: &[Stmt],
) -> Result<(), AllocError>
    ensures value { OnOk result (Puts into.old.items into.new.items (maker_body_items (up_seen up.now) (stmts body.now))) }
{
    put_open_body(into)?;
    put_up(into, up)?;
    put_stmts(into, 4, body)?;
    put_close_body(into, 2)?;
    put_end(into)
}

/// Adds a constructor of a class.
fn put_maker(
    into: &mut Vec<u8>,
    mods: &[Modifier],
    name: &Name,
    params: &[Param],
    up: &Option<Vec<Expr>>,
    body: &[Stmt],
) -> Result<(), AllocError>
    ensures value { OnOk result (Puts into.old.items into.new.items (maker_items mods.now name.now params.now (up_seen up.now) (stmts body.now))) }
{
    put_margin(into, 2)?;
    put_maker_head(into, mods, name, params)?;
    put_maker_body(into, up, body)
}

/// Adds a member of a class.
fn put_member(into: &mut Vec<u8>, member: &Member) -> Result<(), AllocError>
    ensures value { OnOk result (Puts into.old.items into.new.items (member_items (member_of member.now))) }
{
    match member {
        Member::Field { mods, ty, name, .. } => put_field_member(into, mods.as_slice(), ty, name),
        Member::Method { head, body, .. } => put_method(into, head, body),
        Member::Maker {
            mods,
            name,
            params,
            up,
            body,
            ..
        } => put_maker(
            into,
            mods.as_slice(),
            name,
            params.as_slice(),
            up,
            body.as_slice(),
        ),
    }
}

/// Adds members of a class.
fn put_members(into: &mut Vec<u8>, list: &[Member]) -> Result<(), AllocError>
    ensures value { OnOk result (Puts into.old.items into.new.items (members_items (members list.now))) }
{
    for member in list {
        put_member(into, member)?;
    }
    Ok(())
}

/// Adds methods of an interface.
fn put_heads(into: &mut Vec<u8>, list: &[Head]) -> Result<(), AllocError>
    ensures value { OnOk result (Puts into.old.items into.new.items (heads_items (heads list.now))) }
{
    for head in list {
        put_margin(into, 2)?;
        put_head(into, head)?;
        put_stop(into)?;
    }
    Ok(())
}

/// Adds names between commas.
fn put_ids(into: &mut Vec<u8>, ids: &[Id]) -> Result<(), AllocError>
    ensures value { OnOk result (Puts into.old.items into.new.items (ids_items false ids.now)) }
{
    for (i, id) in ids.iter().enumerate() {
        put_comma(into, i > 0)?;
        put_name(into, &id.name)?;
    }
    Ok(())
}

/// Adds ` extends ` and a name.
fn put_extends(into: &mut Vec<u8>, name: &Name) -> Result<(), AllocError>
    ensures value { OnOk result (Puts into.old.items into.new.items (extends_items name.now)) }
{
    put_space(into)?;
    put_key_space(into, Keyword::Extends)?;
    put_name(into, name)
}

/// Adds the superclass, where there is one.
fn put_parent(into: &mut Vec<u8>, parent: &Option<Id>) -> Result<(), AllocError>
    ensures value { OnOk result (Puts into.old.items into.new.items (parent_items parent.now)) }
{
    match parent {
        None => Ok(()),
        Some(id) => put_extends(into, &id.name),
    }
}

/// Adds a keyword and names, where there are any.
fn put_list(into: &mut Vec<u8>, key: Keyword, ids: &[Id]) -> Result<(), AllocError>
    ensures value { OnOk result (Puts into.old.items into.new.items (list_items key ids.now)) }
{
    match ids {
        [] => Ok(()),
        [_, ..] => put_listed(into, key, ids),
    }
}

/// Adds a keyword and names.
fn put_listed(into: &mut Vec<u8>, key: Keyword, ids: &[Id]) -> Result<(), AllocError>
    ensures value { OnOk result (Puts into.old.items into.new.items (listed_items key ids.now)) }
{
    put_space(into)?;
    put_key_space(into, key)?;
    put_ids(into, ids)
}

/// Adds modifiers, a keyword and a name.
fn put_named(
    into: &mut Vec<u8>,
    mods: &[Modifier],
    key: Keyword,
    name: &Name,
) -> Result<(), AllocError>
    ensures value { OnOk result (Puts into.old.items into.new.items (named_items mods.now key name.now)) }
{
    put_mods(into, mods)?;
    put_key_space(into, key)?;
    put_name(into, name)
}

/// Adds a class or an interface up to its name.
fn put_front(into: &mut Vec<u8>, decl: &Decl) -> Result<(), AllocError>
    ensures value { OnOk result (Puts into.old.items into.new.items (front_items (decl_of decl.now))) }
{
    match decl {
        Decl::Class { mods, name, .. } => put_named(into, mods.as_slice(), Keyword::Class, name),
        Decl::Interface { mods, name, .. } => put_named(
            into,
            mods.as_slice(),
            Keyword::Interface,
            name,
        ),
    }
}

/// Adds what a class extends and implements.
fn put_class_supers(into: &mut Vec<u8>, parent: &Option<Id>, faces: &[Id]) -> Result<(), AllocError>
    ensures value { OnOk result (Puts into.old.items into.new.items (class_supers_items parent.now faces.now)) }
{
    put_parent(into, parent)?;
    put_list(into, Keyword::Implements, faces)
}

/// Adds what a class or an interface extends and implements.
fn put_supers(into: &mut Vec<u8>, decl: &Decl) -> Result<(), AllocError>
    ensures value { OnOk result (Puts into.old.items into.new.items (supers_items (decl_of decl.now))) }
{
    match decl {
        Decl::Class { parent, faces, .. } => put_class_supers(into, parent, faces.as_slice()),
        Decl::Interface { parents, .. } => put_list(into, Keyword::Extends, parents.as_slice()),
    }
}

/// Adds the members of a class or an interface.
fn put_inside(into: &mut Vec<u8>, decl: &Decl) -> Result<(), AllocError>
    ensures value { OnOk result (Puts into.old.items into.new.items (inside_items (decl_of decl.now))) }
{
    match decl {
        Decl::Class { members, .. } => put_members(into, members.as_slice()),
        Decl::Interface { heads, .. } => put_heads(into, heads.as_slice()),
    }
}

/// Adds a class or an interface.
fn put_decl(into: &mut Vec<u8>, decl: &Decl) -> Result<(), AllocError>
    ensures value { OnOk result (Puts into.old.items into.new.items (decl_items (decl_of decl.now))) }
{
    put_front(into, decl)?;
    put_supers(into, decl)?;
    put_open_body(into)?;
    put_inside(into, decl)?;
    put_mark(into, Mark::CloseBrace)?;
    put_end(into)
}

/// Adds classes and interfaces.
pub fn put_decls(into: &mut Vec<u8>, list: &[Decl]) -> Result<(), AllocError>
    ensures value { OnOk result (Puts into.old.items into.new.items (decls_items (decls list.now))) }
{
    for decl in list {
        put_decl(into, decl)?;
    }
    Ok(())
}
