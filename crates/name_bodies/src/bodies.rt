//! Methods with their bodies.
#![tactic(auto)]

ghost use Rattle.std.specs.Prelude.{◌≡◌, ℕ, false, List, Option, IfOk, Ok, map, slice_get};
ghost use Rattle.std.specs.declared.vec.Vec.{Vec};
ghost use Rattle.std.specs.declared.alloc.Global.{Global};
ghost use Rattle.java_tree.specs.Syntax.{body_seen, up_seen, stmts, head_of, member_of, members, heads, decl_of, decls};
ghost use Rattle.java_core.specs.Trees as core;
ghost use Rattle.java_core.specs.Trees.{Exs, Sts};
ghost use Rattle.java_core.specs.declared.Method.{Method};
ghost use Rattle.java_core.specs.declared.Local.{Local};
ghost use Rattle.java_core.specs.declared.RExpr.{RExpr};
ghost use Rattle.java_core.specs.declared.RStmt.{RStmt};
ghost use Rattle.java_core.specs.Programs.{PlainLocal, PlainMethod, local_seen, method_seen};
ghost use Rattle.name_laws.specs.Answers.{GivesValue, run};
ghost use Rattle.name_bodies.specs.Views.{table_of, table_at};
ghost use Rattle.name_laws.specs.Resolved.{Methods, bounds_from, body_of, method_step, up_of, maker_body_of, maker_step, implied_made, with_implied, body_step, head_body_step, decl_bodies, methods_of, slot_at};
ghost use Rattle.name_bodies.specs.Views.{methods_seen};

use crate::Named;
use crate::declarations::{Enclosing, Tables};
use crate::exprs::all;
use crate::locals::Body;
use crate::makers::{beginning, maker_named};
use crate::stmts::{behind, statements};
use java_core::{Local, Method, RExpr, RStmt, maker_name};
use java_tree::{Decl, Expr, Head, Member, Modifier, Param, Stmt};
use kaba_base::{ClassId, Name, Place, made};
use name_laws::Heading;
use name_rules::{Here, Kind, Refusal};
use name_tables::{Scope, after, flags_of, number_at, params_in, result_of};
use std::alloc::Global;

/// A class or interface by its number, among what is declared. What is made stands in the memory of `alloc`.
#[derive(Drop)]
struct Owner<'a> {
    alloc: Global,
    tables: &'a Tables,
    number: u32,
}

/// The methods so far, and the next free number of a creation, a cast or an `instanceof`.
#[derive(Drop)]
pub struct Written {
    pub methods: Vec<Method>,
    pub number: u32,
}

/// The locals and the body of a method with its parameters in scope; `number` is the next free number.
fn body_of(
    within: &Enclosing,
    params: &Vec<Local>,
    scope: &Scope,
    number: &mut u32,
    tree: &Option<Vec<Stmt>>,
) -> Named<(Vec<Local>, Option<Vec<RStmt>>)>
    requires bound { scope.now ≡ bounds_from 0 params.now.items }
    requires outside { within.now.inside ≡ false }
    ensures { GivesValue {A = Vec Local Global × Option (Vec RStmt Global)} {B = List PlainLocal × Option Sts × ℕ}
        (λ b. (map local_seen b.0.items, core.body_seen b.1, number.new)) result
        (body_of (table_at within.now) within.now.here params.now.items number.old (body_seen tree.now)) }
{
    match tree {
        None => Ok((Vec::new(within.alloc), None)),
        Some(list) => {
            let mut body = Body {
                locals: Vec::new(within.alloc),
                count: number_at(params.len())?,
                number: *number,
            };
            let run = statements(within, scope, &mut body, list)?;
            *number = body.number;
            Ok((body.locals, Some(run)))
        }
    }
}

fn slot_at(headings: &[Heading], at: usize) -> Option<u32>
    ensures { result ≡ slot_at (slice_get headings.now at) }
{
    match headings.get(at) {
        Some(heading) => heading.slot,
        None => None,
    }
}

/// One method more.
fn method_step(
    owner: &Owner,
    kind: Kind,
    written: &mut Written,
    head: &Head,
    tree: &Option<Vec<Stmt>>,
) -> Named<()>
    ensures { GivesValue (λ _. methods_seen written.new) result (method_step (table_of owner.now.tables.now) owner.now.number kind
        (methods_seen written.old) (head_of head.now) (body_seen tree.now)) }
{
    let flags = flags_of(kind, head.mods.as_slice())?;
    let mut scope = Scope::new(owner.alloc);
    let params =
        made!(params_in(owner.alloc, &owner.tables.known, &mut scope, head.params.as_slice()); scope);
    let outcome = made!(result_of(owner.alloc, &owner.tables.known, &head.result); params, scope);
    let within = within(owner, flags.is_static);
    let given = body_of(&within, &params, &scope, &mut written.number, tree);
    drop(scope);
    let (locals, body) = made!(given; params);
    let name = made!(head.name.copy(owner.alloc) => Refusal; params, locals, body);
    let slot = slot_at(
        owner.tables.declared.headings.as_slice(),
        written.methods.len(),
    );
    written.methods.push(Method {
        owner: ClassId(owner.number),
        name,
        is_static: flags.is_static,
        is_public: flags.is_public,
        slot,
        params,
        locals,
        result: outcome,
        body,
        place: head.place,
    })?;
    Ok(())
}

/// The arguments of `super(..)` with its parameters in scope; `number` is the next free number. Nothing of the object may be named in them.
fn up_of(
    owner: &Owner,
    scope: &Scope,
    number: &mut u32,
    up: &Option<Vec<Expr>>,
) -> Named<Vec<RExpr>>
    ensures { (ls : List Local) → scope.now ≡ bounds_from 0 ls → GivesValue {A = Vec RExpr Global} {B = Exs × ℕ}
        (λ v. (core.exprs v.items, number.new)) result
        (up_of (table_of owner.now.tables.now) owner.now.number ls number.old (up_seen up.now)) }
{
    match up {
        None => Ok(Vec::new(owner.alloc)),
        Some(args) => {
            let before = within(owner, true);
            all(&before, scope, number, args)
        }
    }
}

/// Where a body of the class stands.
fn within<'a>(owner: &Owner<'a>, is_static: bool) -> Enclosing<'a>
    ensures { result ≡ record {
      alloc = owner.now.alloc;
      tables = owner.now.tables;
      here = record { owner = owner.now.number; is_static = is_static };
      inside = false;
    } }
{
    Enclosing {
        alloc: owner.alloc,
        tables: owner.tables,
        here: Here {
            owner: owner.number,
            is_static,
        },
        inside: false,
    }
}

/// The locals and the code of a constructor with its parameters in scope; `number` is the next free number.
fn maker_body(
    owner: &Owner,
    params: &Vec<Local>,
    scope: &Scope,
    number: &mut u32,
    up: &Option<Vec<Expr>>,
    list: &Vec<Stmt>,
    place: Place,
) -> Named<(Vec<Local>, Vec<RStmt>)>
    requires { scope.now ≡ bounds_from 0 params.now.items }
    ensures { GivesValue {A = Vec Local Global × Vec RStmt Global} {B = List PlainLocal × Sts × ℕ}
        (λ b. (map local_seen b.0.items, core.stmts b.1.items, number.new)) result
        (maker_body_of (table_of owner.now.tables.now) owner.now.number place params.now.items number.old (up_seen up.now) (stmts list.now.items)) }
{
    let args = up_of(owner, scope, number, up)?;
    let code = beginning(owner.alloc, owner.tables, owner.number, place, args)?;
    let mut body = Body {
        locals: Vec::new(owner.alloc),
        count: number_at(params.len())?,
        number: *number,
    };
    let run = behind(&within(owner, false), scope, &mut body, code, list)?;
    *number = body.number;
    Ok((body.locals, run))
}

/// One constructor more.
fn maker_step(
    owner: &Owner,
    written: &mut Written,
    mods: &[Modifier],
    name: &Name,
    list: &[Param],
    up: &Option<Vec<Expr>>,
    code: &Vec<Stmt>,
    place: Place,
) -> Named<()>
    ensures { GivesValue (λ _. methods_seen written.new) result (maker_step (table_of owner.now.tables.now) owner.now.number
        (methods_seen written.old) mods.now name.now list.now (up_seen up.now) (stmts code.now.items) place) }
{
    let _flags = flags_of(Kind::Maker, mods)?;
    let mut scope = Scope::new(owner.alloc);
    let params = made!(params_in(owner.alloc, &owner.tables.known, &mut scope, list); scope);
    let given = maker_body(owner, &params, &scope, &mut written.number, up, code, place);
    drop(scope);
    let (locals, body) = made!(given; params);
    let name = made!(maker_name(owner.alloc, name) => Refusal; params, locals, body);
    let slot = slot_at(
        owner.tables.declared.headings.as_slice(),
        written.methods.len(),
    );
    written.methods.push(Method {
        owner: ClassId(owner.number),
        name,
        is_static: false,
        is_public: true,
        slot,
        params,
        locals,
        result: None,
        body: Some(body),
        place,
    })?;
    Ok(())
}

/// One member more of a class.
fn body_step(owner: &Owner, written: &mut Written, member: &Member) -> Named<()>
    ensures { GivesValue (λ _. methods_seen written.new) result (body_step (table_of owner.now.tables.now) owner.now.number
        (methods_seen written.old) (member_of member.now)) }
{
    match member {
        Member::Field { .. } => Ok(()),
        Member::Method { head, body, .. } => {
            method_step(owner, Kind::Method, written, head, body)
        }
        Member::Maker {
            mods,
            name,
            params,
            up,
            body,
            place,
        } => maker_step(owner, written, mods, name, params, up, body, *place),
    }
}

/// The methods of a class.
fn class_bodies(owner: &Owner, written: &mut Written, list: &Vec<Member>) -> Named<()>
    ensures { GivesValue (λ _. methods_seen written.new) result (run (body_step (table_of owner.now.tables.now) owner.now.number)
        (methods_seen written.old) (members list.now.items)) }
{
    for member in list {
        body_step(owner, written, member)?;
    }
    Ok(())
}

/// The methods of an interface.
fn interface_bodies(owner: &Owner, written: &mut Written, list: &Vec<Head>) -> Named<()>
    ensures { GivesValue (λ _. methods_seen written.new) result (run (head_body_step (table_of owner.now.tables.now) owner.now.number)
        (methods_seen written.old) (heads list.now.items)) }
{
    for head in list {
        method_step(owner, Kind::Head, written, head, &None)?;
    }
    Ok(())
}

/// The methods of one type more, and the number of the next type.
fn decl_bodies(owner: &Owner, written: &mut Written, decl: &Decl) -> Named<u32>
    ensures { GivesValue {A = ℕ} {B = ℕ × Methods} (λ k. (k, methods_seen written.new)) result
        (decl_bodies (table_of owner.now.tables.now) (owner.now.number, methods_seen written.old) (decl_of decl.now)) }
{
    match decl {
        Decl::Class { members, .. } => class_bodies(owner, written, members)?,
        Decl::Interface { heads, .. } => interface_bodies(owner, written, heads)?,
    }
    after(owner.number)
}

/// The constructor of a class that has it without writing it: without parameters, and with nothing behind its beginning.
fn implied(alloc: Global, tables: &Tables, heading: &Heading) -> Named<Method>
    ensures { GivesValue {A = Method} {B = PlainMethod} (λ m. method_seen m) result (Ok (implied_made (table_of tables.now) heading.now)) }
{
    let code = beginning(alloc, tables, heading.owner, heading.place, Vec::new(alloc))?;
    let name = made!(maker_named(alloc, tables, heading.owner); code);
    Ok(Method {
        owner: ClassId(heading.owner),
        name,
        is_static: false,
        is_public: true,
        slot: heading.slot,
        params: Vec::new(alloc),
        locals: Vec::new(alloc),
        result: None,
        body: Some(code),
        place: heading.place,
    })
}

/// The methods with the constructors that are not written: those of the headings behind theirs.
fn with_implied(alloc: Global, tables: &Tables, methods: Vec<Method>) -> Named<Vec<Method>>
    ensures { GivesValue {A = Vec Method Global} {B = List PlainMethod} (λ v. map method_seen v.items) result
        (Ok (with_implied (table_of tables.now) (map method_seen methods.items))) }
{
    let mut all = methods;
    while let Some(heading) = tables.declared.headings.get(all.len()) {
        all.push(implied(alloc, tables, heading)?)?;
    }
    Ok(all)
}

/// All methods of a tree.
pub fn methods_of(alloc: Global, tables: &Tables, list: &[Decl]) -> Named<Vec<Method>>
    ensures { GivesValue {A = Vec Method Global} {B = List PlainMethod} (λ v. map method_seen v.items)
        result (methods_of (table_of tables.now) (decls list.now)) }
{
    let mut written = Written {
        methods: Vec::new(alloc),
        number: 0,
    };
    let mut number = 1;
    for decl in list {
        let owner = Owner {
            alloc,
            tables,
            number,
        };
        number = decl_bodies(&owner, &mut written, decl)?;
    }
    with_implied(alloc, tables, written.methods)
}
