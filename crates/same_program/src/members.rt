//! Two classes, two fields and two methods: that they are one, or where they first part.
#![tactic(auto)]

ghost use Rattle.std.specs.Prelude.{◌≡◌, ◌&&◌, ◌||◌, is_ok, map};
ghost use Rattle.std.specs.Bool.{beq};
ghost use Rattle.std.specs.Option.{option_copied};
ghost use Rattle.std.specs.Str.{bytes_eq};
ghost use Rattle.java_core.specs.Trees.{body_seen};
ghost use Rattle.java_core.specs.Programs.{program_of, class_seen, field_seen, local_seen, method_seen, code_seen};
ghost use Rattle.same_program.specs.Same.{may_one, all_one, one_class, one_id, one_type, one_sts, one_head, one_class_as, one_field_as, one_variable, one_method_as};

use crate::bodies::statements;
use crate::names::{both, same_class, same_names, same_type, told};
use crate::{Agreed, What};
use java_core::{Class, Code, Field, Local, Method, Program, RStmt, Ty};
use kaba_base::{ClassId, Place};

/// Whether two classes have one name and are classes or interfaces both, and abstract both; at an interface that says nothing.
fn same_heads(a: &Class, b: &Class) -> bool
    ensures { result ≡ one_head (class_seen a.now) (class_seen b.now) }
{
    same_names(&a.name, &b.name) && same_kinds(a, b)
}

/// Whether two are classes or interfaces both, and abstract both; at an interface that says nothing.
fn same_kinds(a: &Class, b: &Class) -> bool
    ensures { result ≡ (beq a.now.is_interface b.now.is_interface && (a.now.is_interface || beq a.now.is_abstract b.now.is_abstract)) }
{
    a.is_interface == b.is_interface && (a.is_interface || a.is_abstract == b.is_abstract)
}

/// Whether two superclasses have one name, or there is none on both sides.
fn same_parents(p: &Program, q: &Program, a: Option<ClassId>, b: Option<ClassId>) -> bool
    ensures { result ≡ may_one (one_id (program_of p.now) (program_of q.now)) a b }
{
    match a {
        None => b.is_none(),
        Some(class) => match b {
            None => false,
            Some(other) => same_class(p, q, class, other),
        },
    }
}

/// Whether two lists of interfaces have the same names, one by one.
#[tactic(auto, using(crate::proofs::Lists::all))]
fn same_faces(p: &Program, q: &Program, a: &Vec<ClassId>, b: &Vec<ClassId>) -> bool
    ensures { result ≡ all_one (one_id (program_of p.now) (program_of q.now)) a.now.items b.now.items }
{
    if a.len() != b.len() {
        return false;
    }
    for i in 0..a.len() {
        if !same_class(p, q, a[i], b[i]) {
            return false;
        }
    }
    true
}

/// That two classes are one.
pub(crate) fn classes(p: &Program, q: &Program, a: &Class, b: &Class) -> Agreed
    ensures { is_ok result ≡ one_class_as (program_of p.now) (program_of q.now) (class_seen a.now) (class_seen b.now) }
{
    both(
        told(same_heads(a, b), a.place, b.place, What::Type),
        told(
            same_parents(p, q, a.parent, b.parent) && same_faces(p, q, &a.faces, &b.faces),
            a.place,
            b.place,
            What::Type,
        ),
    )
}

/// That two fields are one.
pub(crate) fn fields(p: &Program, q: &Program, a: &Field, b: &Field) -> Agreed
    ensures { is_ok result ≡ one_field_as (program_of p.now) (program_of q.now) (field_seen a.now) (field_seen b.now) }
{
    both(
        told(
            same_class(p, q, a.owner, b.owner) && same_names(&a.name, &b.name),
            a.place,
            b.place,
            What::Field,
        ),
        told(
            a.is_static == b.is_static && same_type(p, q, a.ty, b.ty),
            a.place,
            b.place,
            What::Field,
        ),
    )
}

/// Whether two parameters or locals have one name and type.
fn same_variables(p: &Program, q: &Program, a: &Local, b: &Local) -> bool
    ensures { result ≡ one_variable (program_of p.now) (program_of q.now) (local_seen a.now) (local_seen b.now) }
{
    same_names(&a.name, &b.name) && same_type(p, q, a.ty, b.ty)
}

/// That the parameters of two methods are as many and one, one by one; or their locals.
#[tactic(auto, using(crate::proofs::Lists::all))]
fn variables(
    p: &Program,
    q: &Program,
    a: &Vec<Local>,
    b: &Vec<Local>,
    first: Place,
    second: Place,
) -> Agreed
    ensures { is_ok result ≡ all_one (one_variable (program_of p.now) (program_of q.now)) (map local_seen a.now.items) (map local_seen b.now.items) }
{
    if a.len() != b.len() {
        return told(false, first, second, What::Variable);
    }
    for i in 0..a.len() {
        if !same_variables(p, q, &a[i], &b[i]) {
            return told(false, a[i].place, b[i].place, What::Variable);
        }
    }
    Ok(())
}

/// Whether two results are one type, or void both.
fn same_results(p: &Program, q: &Program, a: Option<Ty>, b: Option<Ty>) -> bool
    ensures { result ≡ may_one (one_type (program_of p.now) (program_of q.now)) a b }
{
    match a {
        None => b.is_none(),
        Some(ty) => match b {
            None => false,
            Some(other) => same_type(p, q, ty, other),
        },
    }
}

/// That the bodies of two methods are one, or there is none on both sides.
fn bodies(
    p: &Program,
    q: &Program,
    a: Option<&Vec<RStmt>>,
    b: Option<&Vec<RStmt>>,
    first: Place,
    second: Place,
) -> Agreed
    ensures { is_ok result ≡ may_one (one_sts (program_of p.now) (program_of q.now)) (body_seen (option_copied a.entry)) (body_seen (option_copied b.entry)) }
{
    match a {
        None => told(b.is_none(), first, second, What::Method),
        Some(body) => match b {
            None => told(false, first, second, What::Method),
            Some(other) => statements(p, q, body, other, first, second),
        },
    }
}

/// Whether two methods have one name, in classes of one name, and are static both.
fn same_method_heads(p: &Program, q: &Program, a: &Code, b: &Code) -> bool
    ensures { result ≡ ((one_class (program_of p.now) (program_of q.now) a.now.owner.0 b.now.owner.0 && bytes_eq (code_seen a.now).name (code_seen b.now).name)
        && beq a.now.is_static b.now.is_static) }
{
    same_class(p, q, a.owner, b.owner) && same_names(a.name, b.name) && a.is_static == b.is_static
}

/// That what two methods take and give, and their code, are one.
fn insides(p: &Program, q: &Program, a: &Code, b: &Code) -> Agreed
    ensures { is_ok result ≡ (all_one (one_variable (program_of p.now) (program_of q.now)) (code_seen a.now).params (code_seen b.now).params
        && (all_one (one_variable (program_of p.now) (program_of q.now)) (code_seen a.now).locals (code_seen b.now).locals
        && (may_one (one_type (program_of p.now) (program_of q.now)) a.now.result b.now.result
        && may_one (one_sts (program_of p.now) (program_of q.now)) (code_seen a.now).body (code_seen b.now).body))) }
{
    both(
        variables(p, q, a.params, b.params, a.place, b.place),
        both(
            variables(p, q, a.locals, b.locals, a.place, b.place),
            both(
                told(
                    same_results(p, q, a.result, b.result),
                    a.place,
                    b.place,
                    What::Method,
                ),
                bodies(p, q, a.body, b.body, a.place, b.place),
            ),
        ),
    )
}

/// That two methods are one.
pub(crate) fn methods(p: &Program, q: &Program, a: &Method, b: &Method) -> Agreed
    ensures { is_ok result ≡ one_method_as (program_of p.now) (program_of q.now) (method_seen a.now) (method_seen b.now) }
{
    codes(p, q, &a.code(), &b.code())
}

/// That two bodies with their headings are one; two of other names are not compared further.
fn codes(p: &Program, q: &Program, a: &Code, b: &Code) -> Agreed
    ensures { is_ok result ≡ one_method_as (program_of p.now) (program_of q.now) (code_seen a.now) (code_seen b.now) }
{
    if same_method_heads(p, q, a, b) {
        insides(p, q, a, b)
    } else {
        told(false, a.place, b.place, What::Method)
    }
}
