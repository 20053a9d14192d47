//! The methods that make the objects of classes with a constructor, in a class of their own.

ghost use Rattle.std.specs.Prelude.{◌≡◌, ◌++◌, [], ◌<◌, None, length, IfOk, OnOk};
ghost use Rattle.source_gen.specs.Words.{code_seen, old_program, renaming, AreSourceNodes, IsSource, hierarchy_of};
ghost use Rattle.source_gen.specs.Made.{head_made, creates_made, calls_made, gives_made, body_made, member_made, class_makes, site_makes};
ghost use Rattle.java_tree.specs.Syntax as tree;
ghost use Rattle.write_model.specs.Names as names;
ghost use Rattle.write_model.specs.Members as written;
ghost use Rattle.write_model.specs.Written as types;

use crate::heads::{params, public_and};
use crate::members::{push_decl, push_member};
use crate::parts::{Nodes, code_at};
use fact_model::MakerNames;
use flow_rules::RowItem;
use hier_model::site_at;
use java_core::{Code, Ty, TyBase, maker_of};
use java_tree::unplaced::{id, nowhere};
use java_tree::{Decl, Expr, Head, Member, Stmt, TypeName, build};
use kaba_base::{ClassId, Keyword, SiteId, made};
use std::alloc::{AllocError, Global};
use std::mem::drop;
use write_forms::{Source, make_name, makers_local, method_name, row_name, row_type};

/// A creation, by its number, of a class with a constructor, and the constructor, by its number among the methods.
#[derive(Clone, Copy)]
pub struct Made<'a> {
    source: &'a Source<'a>,
    number: u64,
    class: ClassId,
    maker: u64,
    code: Code<'a>,
}

/// The type of the objects, by the node where the creation's row stands.
fn object_type(made: &Made) -> Result<TypeName, AllocError>
    requires { IsSource made.now.source.now }
    ensures { IfOk result (λ t. t ≡ written.object_type (old_program made.now.source.now) (renaming made.now.source.now)
        made.now.source.now.hier.now made.now.number made.now.class.0) }
{
    let ty = Ty {
        base: TyBase::Class(made.class),
        dim: 0,
    };
    row_type(made.source, RowItem::New(made.number), ty)
}

/// The head: it takes what the constructor takes.
fn make_head(made: &Made) -> Result<Head, AllocError>
    requires { IsSource made.now.source.now }
    ensures { IfOk result (λ h. tree.head_of h ≡ head_made made.now) }
{
    let mods = public_and(made.source.alloc, Keyword::Static)?;
    let result = Some(object_type(made)?);
    let name = make_name(made.source, made.number)?;
    let params = params(made.source, made.maker, &made.code)?;
    Ok(Head {
        mods,
        result,
        name,
        params,
        place: nowhere(),
    })
}

/// The local that has the object.
fn object(made: &Made) -> Result<Expr, AllocError>
    requires { IsSource made.now.source.now }
    ensures { IfOk result (λ e. tree.expr_of e ≡ tree.NameRef (names.makers_local (old_program made.now.source.now)) names.nowhere) }
{
    let name = makers_local(made.source)?;
    Ok(Expr::Name {
        name,
        place: nowhere(),
    })
}

/// The parameters, as arguments.
fn passed(alloc: Global, code: &Code) -> Result<Vec<Expr>, AllocError>
    ensures { IfOk result (λ v. tree.exprs v.items ≡ written.passed (code_seen code.now).params) }
{
    let mut args = Vec::new(alloc);
    for local in code.params {
        let name = local.name.copy(alloc)?;
        args.push(Expr::Name {
            name,
            place: nowhere(),
        })?;
    }
    Ok(args)
}

/// The object is created and kept.
fn creates(made: &Made) -> Result<Stmt, AllocError>
    requires { IsSource made.now.source.now }
    ensures { IfOk result (λ s. tree.stmt_of s ≡ creates_made made.now) }
{
    let alloc = made.source.alloc;
    let ty = object_type(made)?;
    let name = makers_local(made.source)?;
    let class = row_name(made.source, RowItem::New(made.number), made.class)?;
    let value = build::new_object(id(class), Vec::new(alloc), nowhere());
    Ok(build::local(false, ty, name, Some(value), nowhere()))
}

/// The method that the constructor is written as is called on it.
fn calls(made: &Made) -> Result<Stmt, AllocError>
    requires { IsSource made.now.source.now }
    ensures { IfOk result (λ s. tree.stmt_of s ≡ calls_made made.now) }
{
    let alloc = made.source.alloc;
    let args = passed(alloc, &made.code)?;
    let on = made!(object(made); args);
    let name = made!(method_name(made.source, made.maker); args, on);
    let call = build::call_on(alloc, on, name, args, nowhere())?;
    Ok(Stmt::Do {
        call,
        place: nowhere(),
    })
}

/// It is given back.
fn gives(made: &Made) -> Result<Stmt, AllocError>
    requires { IsSource made.now.source.now }
    ensures { IfOk result (λ s. tree.stmt_of s ≡ gives_made made.now) }
{
    let value = object(made)?;
    Ok(Stmt::Return {
        value: Some(value),
        place: nowhere(),
    })
}

/// Its three statements.
fn make_body(made: &Made) -> Result<Vec<Stmt>, AllocError>
    requires { IsSource made.now.source.now }
    ensures { IfOk result (λ v. tree.stmts v.items ≡ body_made made.now) }
{
    let mut list = Vec::new(made.source.alloc);
    list.push(creates(made)?)?;
    list.push(calls(made)?)?;
    list.push(gives(made)?)?;
    Ok(list)
}

/// The method that makes the objects of a creation.
fn make_member(made: &Made) -> Result<Member, AllocError>
    requires { IsSource made.now.source.now }
    ensures { IfOk result (λ d. tree.member_of d ≡ member_made made.now) }
{
    let head = make_head(made)?;
    let body = Some(make_body(made)?);
    Ok(Member::Method {
        head,
        body,
        place: nowhere(),
    })
}

/// Adds the method that makes the objects of a creation of a class with this constructor.
fn add_make(
    source: &Source,
    number: u64,
    class: ClassId,
    maker: u64,
    into: &mut Vec<Member>,
) -> Result<(), AllocError>
    requires { IsSource source.now }
    ensures { OnOk result (tree.members into.new.items ≡ tree.members into.old.items ++ written.maker_member (old_program source.now)
        (renaming source.now) source.now.hier.now number class.0 maker) }
{
    let Some(code) = code_at(source.program, maker) else {
        return Ok(());
    };
    let made = Made {
        source,
        number,
        class,
        maker,
        code,
    };
    push_member(into, make_member(&made)?)
}

/// The same, where the class of the creation has a constructor.
fn add_made(
    source: &Source,
    number: u64,
    class: ClassId,
    into: &mut Vec<Member>,
) -> Result<(), AllocError>
    requires { IsSource source.now }
    ensures { OnOk result (tree.members into.new.items ≡ tree.members into.old.items ++ class_makes source.now number class.0) }
{
    match maker_of(source.program, class) {
        Some(maker) => add_make(source, number, class, maker.0 as u64, into),
        None => Ok(()),
    }
}

/// Adds the method that makes the objects of a site, where it is one of objects and their class has a constructor.
fn add_site(nodes: &Nodes, s: u32, into: &mut Vec<Member>) -> Result<(), AllocError>
    requires nodes { AreSourceNodes nodes.now }
    requires site { s < length nodes.now.facts.now.sites.items }
    ensures { OnOk result (tree.members into.new.items ≡ tree.members into.old.items ++ site_makes nodes.now s) }
{
    let site = site_at(nodes.facts, SiteId(s));
    if site.dim != 0 {
        return Ok(());
    }
    match nodes.source.numbering.creation(s) {
        Some(number) => add_made(&nodes.source, number, site.class, into),
        None => Ok(()),
    }
}

/// The methods that make objects, by site.
fn make_members(nodes: &Nodes) -> Result<Vec<Member>, AllocError>
    requires { AreSourceNodes nodes.now }
    ensures { IfOk result (λ v. tree.members v.items ≡ written.make_members (old_program nodes.now.source) (renaming nodes.now.source)
        (hierarchy_of nodes.now)) }
{
    let mut list = Vec::new(nodes.source.alloc);
    for s in 0..nodes.facts.sites.len() as u32 {
        add_site(nodes, s, &mut list)?;
    }
    Ok(list)
}

/// The class of these methods, under its name.
fn makers(nodes: &Nodes, given: &MakerNames) -> Result<Decl, AllocError>
    requires { AreSourceNodes nodes.now }
    ensures { IfOk result (λ d. tree.decl_of d ≡ tree.ClassTree [] given.now.holder None [] (written.make_members (old_program nodes.now.source)
        (renaming nodes.now.source) (hierarchy_of nodes.now)) names.nowhere) }
{
    let name = given.holder.copy(nodes.source.alloc)?;
    let members = make_members(nodes)?;
    Ok(Decl::Class {
        mods: Vec::new(nodes.source.alloc),
        name,
        parent: None,
        faces: Vec::new(nodes.source.alloc),
        members,
        place: nowhere(),
    })
}

/// Adds the class of the methods that make objects, where there are some.
pub fn add_makers(nodes: &Nodes, into: &mut Vec<Decl>) -> Result<(), AllocError>
    requires { AreSourceNodes nodes.now }
    ensures { OnOk result (tree.decls into.new.items ≡ tree.decls into.old.items ++ types.makers_trees (old_program nodes.now.source)
        (renaming nodes.now.source) (hierarchy_of nodes.now)) }
{
    match nodes.source.makers {
        Some(given) => push_decl(into, makers(nodes, given)?),
        None => Ok(()),
    }
}
