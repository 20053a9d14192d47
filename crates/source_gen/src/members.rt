//! The fields and methods that the types of nodes and the holders have.

ghost use Rattle.std.specs.Prelude.{◌≡◌, ◌++◌, ◌∷◌, [], IfOk, OnOk, map};
ghost use Rattle.source_gen.specs.Words.{method_seen, code_seen, field_seen, head_if, IsSource, old_program, renaming};
ghost use Rattle.kaba_base.specs.declared.words.Keyword.TheVariants as keyword;
ghost use Rattle.java_tree.specs.Syntax as tree;
ghost use Rattle.flow_rules.specs.declared.items.RowItem.TheVariants as row;
ghost use Rattle.write_model.specs.Names as names;
ghost use Rattle.write_model.specs.Members as written;

use crate::heads::{head, one_modifier, public_and};
use flow_rules::RowItem;
use java_core::{Code, Field, Method};
use java_tree::unplaced::nowhere;
use java_tree::{Decl, Head, Member, Modifier, Stmt};
use kaba_base::{Keyword, Name};
use std::alloc::{AllocError, Global};
use write_bodies::{Within, body};
use write_forms::{Source, field_name, method_name, row_type};

/// Adds a head.
#[tactic(auto, using(crate::proofs::Pushed::heads_push))]
pub fn push_head(into: &mut Vec<Head>, one: Option<Head>) -> Result<(), AllocError>
    ensures { OnOk result (tree.heads into.new.items ≡ tree.heads into.old.items ++ head_if one) }
{
    if let Some(one) = one {
        into.push(one)?;
    }
    Ok(())
}

/// Adds a member.
#[tactic(auto, using(crate::proofs::Pushed::members_push))]
pub fn push_member(into: &mut Vec<Member>, one: Member) -> Result<(), AllocError>
    ensures { OnOk result (tree.members into.new.items ≡ tree.members into.old.items ++
        tree.member_of one ∷ []) }
{
    into.push(one)?;
    Ok(())
}

/// Adds a declaration.
#[tactic(auto, using(crate::proofs::Pushed::decls_push))]
pub fn push_decl(into: &mut Vec<Decl>, one: Decl) -> Result<(), AllocError>
    ensures { OnOk result (tree.decls into.new.items ≡ tree.decls into.old.items ++ tree.decl_of one
        ∷ []) }
{
    into.push(one)?;
    Ok(())
}

/// Adds a head as a member without a body.
pub fn push_bodyless(into: &mut Vec<Member>, one: Option<Head>) -> Result<(), AllocError>
    ensures { OnOk result (tree.members into.new.items ≡ tree.members into.old.items ++ map
        written.bodyless (head_if one)) }
{
    match one {
        Some(head) => push_member(
            into,
            Member::Method {
                head,
                body: None,
                place: nowhere(),
            },
        ),
        None => Ok(()),
    }
}

/// The parameters when a body begins, by their numbers.
fn parameters(alloc: Global, code: &Code) -> Result<Vec<u32>, AllocError>
    ensures { IfOk result (λ v. v.items ≡ written.parameters 0 (code_seen code.now).params) }
{
    let mut list = Vec::new(alloc);
    for (i, _local) in code.params.iter().enumerate() {
        let Ok(number) = u32::try_from(i) else {
            return Err(AllocError);
        };
        list.push(number)?;
    }
    Ok(list)
}

/// The statements of a body, as they are written.
fn statements(source: &Source, m: u64, code: &Code) -> Result<Option<Vec<Stmt>>, AllocError>
    requires { IsSource source.now }
    ensures { IfOk result (λ b. tree.body_seen b ≡ written.body (old_program source.now) (renaming source.now) source.now.hier.now m
        (code_seen code.now)) }
{
    let Some(list) = code.body else {
        return Ok(None);
    };
    let scope = parameters(source.alloc, code)?;
    let within = Within {
        source,
        number: m,
        code: *code,
    };
    let made = body(&within, &scope, list)?;
    Ok(Some(made))
}

/// A field under a name, with these modifiers.
fn field(
    source: &Source,
    mods: Vec<Modifier>,
    name: Name,
    f: u64,
    old: &Field,
) -> Result<Member, AllocError>
    requires { IsSource source.now }
    ensures { IfOk result (λ d. tree.member_of d ≡ tree.FieldTree mods.items (names.written_type (old_program source.now)
        source.now.hier.now ((renaming source.now).row_type (row.Field f)) old.now.ty) name names.nowhere) }
{
    let ty = row_type(source, RowItem::Field(f), old.ty)?;
    Ok(Member::Field {
        mods,
        ty,
        name,
        place: nowhere(),
    })
}

/// A method under a name, with these modifiers.
fn method(
    source: &Source,
    mods: Vec<Modifier>,
    name: Name,
    m: u64,
    old: &Code,
) -> Result<Member, AllocError>
    requires { IsSource source.now }
    ensures { IfOk result (λ d. tree.member_of d ≡ tree.MethodTree (written.head (old_program source.now) (renaming source.now) source.now.hier.now
        mods.items name m (code_seen old.now)) (written.body (old_program source.now) (renaming source.now) source.now.hier.now m
        (code_seen old.now)) names.nowhere) }
{
    let head = head(source, mods, name, m, old)?;
    let body = statements(source, m, old)?;
    Ok(Member::Method {
        head,
        body,
        place: nowhere(),
    })
}

/// An instance field: under the name of its column, without modifiers.
pub fn field_member(source: &Source, f: u64, old: &Field) -> Result<Member, AllocError>
    requires { IsSource source.now }
    ensures { IfOk result (λ d. tree.member_of d ≡ written.field_member (old_program source.now) (renaming source.now) source.now.hier.now f
        (field_seen old.now)) }
{
    let name = field_name(source, f)?;
    let mods = Vec::new(source.alloc);
    field(source, mods, name, f, old)
}

/// The body of an instance method: public, under the name of its declaration's column.
pub fn body_member(source: &Source, m: u64, old: &Code) -> Result<Member, AllocError>
    requires { IsSource source.now }
    ensures { IfOk result (λ d. tree.member_of d ≡ written.body_member (old_program source.now) (renaming source.now) source.now.hier.now m
        (code_seen old.now)) }
{
    let name = method_name(source, m)?;
    let mods = one_modifier(source.alloc, Keyword::Public)?;
    method(source, mods, name, m, old)
}

/// A static field of a holder: it keeps its name.
pub fn static_field(source: &Source, f: u64, old: &Field) -> Result<Member, AllocError>
    requires { IsSource source.now }
    ensures { IfOk result (λ d. tree.member_of d ≡ tree.FieldTree (names.modifier keyword.Public ∷ names.modifier keyword.Static ∷ [])
        (names.written_type (old_program source.now) source.now.hier.now ((renaming source.now).row_type (row.Field f)) old.now.ty) old.now.name
        names.nowhere) }
{
    let name = old.name.copy(source.alloc)?;
    let mods = public_and(source.alloc, Keyword::Static)?;
    field(source, mods, name, f, old)
}

/// A static method of a holder by its body: it keeps its name.
fn static_code(source: &Source, m: u64, old: &Code) -> Result<Member, AllocError>
    requires { IsSource source.now }
    ensures { IfOk result (λ d. tree.member_of d ≡ tree.MethodTree (written.head (old_program source.now) (renaming source.now) source.now.hier.now
        (names.modifier keyword.Public ∷ names.modifier keyword.Static ∷ []) (code_seen old.now).name m (code_seen old.now)) (written.body (old_program
        source.now) (renaming source.now) source.now.hier.now m (code_seen old.now)) names.nowhere) }
{
    let name = old.name.copy(source.alloc)?;
    let mods = public_and(source.alloc, Keyword::Static)?;
    method(source, mods, name, m, old)
}

/// A static method of a holder: it keeps its name.
pub fn static_method(source: &Source, m: u64, old: &Method) -> Result<Member, AllocError>
    requires { IsSource source.now }
    ensures { IfOk result (λ d. tree.member_of d ≡ tree.MethodTree (written.head (old_program source.now) (renaming source.now) source.now.hier.now
        (names.modifier keyword.Public ∷ names.modifier keyword.Static ∷ []) old.now.name m (method_seen old.now)) (written.body (old_program
        source.now) (renaming source.now) source.now.hier.now m (method_seen old.now)) names.nowhere) }
{
    static_code(source, m, &old.code())
}
