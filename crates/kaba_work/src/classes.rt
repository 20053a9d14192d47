//! The classes of a sample.

ghost use Rattle.std.specs.Prelude.{◌≡◌, ◌≤◌, ◌<◌, ◌∷◌, [], Some, IfOk};
ghost use Rattle.java_tree.specs.Syntax.{expr_of, stmt_of, stmts, head_of, member_of, members, decl_of, tree_of, and_then, no_statements, ReturnOf, MethodTree};
ghost use Rattle.java_tree.specs.Formed.{IsFormedTree, IsGiven};
ghost use Rattle.kaba_work.specs.Sample as sample;

use crate::names::{Kind, int_type, method_name, name_of, word};
use crate::steps::{add_steps, assignment, sum_of};
use java_tree::unplaced::{id, nowhere};
use java_tree::{
    Decl, Expr, Head, Id, Member, Modifier, Param, Stmt, Tree, TypeBase, TypeName, build,
};
use kaba_base::{Keyword, Name, listed, made};
use std::alloc::{AllocError, Global};

/// The sample of this number of classes. The class `Ki` extends the one before and has `int fi`, `int ei` and
/// `int g()`, which adds `i + 1` to `fi` and gives what the class above gives and `fi`. `Main` makes an object of each
/// class, sets its `ei` to `i` and prints what `g` gives and `ei`. Each place is zero. `AllocError` where memory is
/// short; no other error.
pub fn sample(alloc: Global, number: u32) -> Result<Tree, AllocError>
    requires one { 1 ≤ number }
    requires most { number ≤ 100 }
    ensures tree { IfOk result (λ t. tree_of t ≡ sample.sample_tree number) }
    ensures formed { IfOk result (λ t. IsFormedTree (tree_of t)) }
    ensures given { IfOk result (λ t. IsGiven (tree_of t)) }
{
    let mut decls = Vec::new(alloc);
    for i in 0..number {
        decls.push(class(alloc, i)?)?;
    }
    decls.push(main_class(alloc, number)?)?;
    Ok(Tree { decls })
}

/// The class of a number.
fn class(alloc: Global, number: u32) -> Result<Decl, AllocError>
    requires { number < 100 }
    ensures { IfOk result (λ d. decl_of d ≡ sample.class_tree number) }
{
    let name = made!(name_of(alloc, Kind::Class, number););
    let parent = made!(parent(alloc, number); name);
    let members = made!(class_members(alloc, number); name, parent);
    Ok(Decl::Class {
        mods: Vec::new(alloc),
        name,
        parent,
        faces: Vec::new(alloc),
        members,
        place: nowhere(),
    })
}

/// The class that it extends.
fn parent(alloc: Global, number: u32) -> Result<Option<Id>, AllocError>
    ensures { IfOk result (λ p. p ≡ sample.parent_named number) }
{
    if number == 0 {
        return Ok(None);
    }
    let name = made!(name_of(alloc, Kind::Class, number - 1););
    Ok(Some(id(name)))
}

/// Its two fields and its method.
fn class_members(alloc: Global, number: u32) -> Result<Vec<Member>, AllocError>
    requires { number < 100 }
    ensures { IfOk result (λ v. members v.items ≡ sample.class_members number) }
{
    let name = made!(name_of(alloc, Kind::Field, number););
    let extra = made!(name_of(alloc, Kind::Extra, number); name);
    let method = made!(method(alloc, number); name, extra);
    listed(
        alloc,
        [
            number_field(alloc, name),
            number_field(alloc, extra),
            method,
        ],
    )
}

/// A field of numbers.
fn number_field(alloc: Global, name: Name) -> Member
    ensures { member_of result ≡ sample.field_tree name }
{
    Member::Field {
        mods: Vec::new(alloc),
        ty: int_type(),
        name,
        place: nowhere(),
    }
}

/// Its method.
fn method(alloc: Global, number: u32) -> Result<Member, AllocError>
    requires { number < 100 }
    ensures { IfOk result (λ m. member_of m ≡ sample.method_tree number) }
{
    let name = made!(method_name(alloc););
    let body = made!(method_body(alloc, number); name);
    Ok(Member::Method {
        head: Head {
            mods: Vec::new(alloc),
            result: Some(int_type()),
            name,
            params: Vec::new(alloc),
            place: nowhere(),
        },
        body: Some(body),
        place: nowhere(),
    })
}

/// What its method does.
fn method_body(alloc: Global, number: u32) -> Result<Vec<Stmt>, AllocError>
    requires { number < 100 }
    ensures { IfOk result (λ v. stmts v.items ≡ and_then (sample.addition number) (and_then (ReturnOf (Some (sample.total number)) sample.nowhere) no_statements)) }
{
    let addition = made!(addition(alloc, number););
    let total = made!(total(alloc, number); addition);
    let last = Stmt::Return {
        value: Some(total),
        place: nowhere(),
    };
    listed(alloc, [addition, last])
}

/// The field of `this` that its class has.
fn class_field(alloc: Global, number: u32) -> Result<Expr, AllocError>
    ensures { IfOk result (λ e. expr_of e ≡ sample.own_field (sample.field_name number)) }
{
    let name = made!(name_of(alloc, Kind::Field, number););
    build::field(alloc, Expr::This { place: nowhere() }, name, nowhere())
}

/// What the method adds to the field.
fn addition(alloc: Global, number: u32) -> Result<Stmt, AllocError>
    requires { number < 100 }
    ensures { IfOk result (λ s. stmt_of s ≡ sample.addition number) }
{
    let target = made!(class_field(alloc, number););
    let before = made!(class_field(alloc, number); target);
    let more = Expr::Int {
        value: (number + 1) as i32,
        place: nowhere(),
    };
    let value = made!(sum_of(alloc, before, more); target);
    Ok(assignment(target, value))
}

/// What the method gives.
fn total(alloc: Global, number: u32) -> Result<Expr, AllocError>
    ensures { IfOk result (λ e. expr_of e ≡ sample.total number) }
{
    if number == 0 {
        return class_field(alloc, number);
    }
    let name = made!(method_name(alloc););
    let own = made!(class_field(alloc, number); name);
    sum_of(
        alloc,
        build::super_call(name, Vec::new(alloc), nowhere()),
        own,
    )
}

/// The main class of a sample of this number of classes.
fn main_class(alloc: Global, number: u32) -> Result<Decl, AllocError>
    requires { number ≤ 100 }
    ensures { IfOk result (λ d. decl_of d ≡ sample.main_tree number) }
{
    let name = made!(word(alloc, "Main"););
    let members = made!(main_members(alloc, number); name);
    Ok(Decl::Class {
        mods: Vec::new(alloc),
        name,
        parent: None,
        faces: Vec::new(alloc),
        members,
        place: nowhere(),
    })
}

/// Its one method.
fn main_members(alloc: Global, number: u32) -> Result<Vec<Member>, AllocError>
    requires { number ≤ 100 }
    ensures { IfOk result (λ v. members v.items ≡ MethodTree sample.main_head (Some (sample.main_body number)) sample.nowhere ∷ []) }
{
    let head = made!(main_head(alloc););
    let body = made!(main_body(alloc, number); head);
    let main = Member::Method {
        head,
        body: Some(body),
        place: nowhere(),
    };
    listed(alloc, [main])
}

/// What main does.
fn main_body(alloc: Global, number: u32) -> Result<Vec<Stmt>, AllocError>
    requires { number ≤ 100 }
    ensures { IfOk result (λ v. stmts v.items ≡ sample.main_body number) }
{
    let mut body = Vec::new(alloc);
    for i in 0..number {
        add_steps(alloc, i, &mut body)?;
    }
    Ok(body)
}

/// `static void main(String[] args)`
fn main_head(alloc: Global) -> Result<Head, AllocError>
    ensures { IfOk result (λ h. head_of h ≡ sample.main_head) }
{
    let name = made!(word(alloc, "main"););
    let mods = made!(main_modifiers(alloc); name);
    let params = made!(main_parameters(alloc); name, mods);
    Ok(Head {
        mods,
        result: None,
        name,
        params,
        place: nowhere(),
    })
}

/// `static`
fn main_modifiers(alloc: Global) -> Result<Vec<Modifier>, AllocError>
    ensures { IfOk result (λ v. v.items ≡ sample.main_head.mods) }
{
    let word = Modifier {
        word: Keyword::Static,
        place: nowhere(),
    };
    listed(alloc, [word])
}

/// `(String[] args)`
fn main_parameters(alloc: Global) -> Result<Vec<Param>, AllocError>
    ensures { IfOk result (λ v. v.items ≡ sample.main_head.params) }
{
    let text = made!(word(alloc, "String"););
    let name = made!(word(alloc, "args"); text);
    let param = Param {
        is_final: false,
        ty: TypeName {
            base: TypeBase::Named(text),
            dim: 1,
            place: nowhere(),
        },
        name,
        place: nowhere(),
    };
    listed(alloc, [param])
}
