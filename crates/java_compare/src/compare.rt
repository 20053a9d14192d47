//! Equality of trees, places aside.
#![tactic(auto, using(crate::proofs::Sameness::seen))]

ghost use Rattle.std.specs.Prelude.{◌≡◌, ◌↔◌, IsTrue};
ghost use Rattle.java_tree.specs.Syntax.{up_seen, body_seen, head_of, member_of, decl_of, tree_of};
ghost use Rattle.java_tree.specs.Places.{unplaced};
ghost use Rattle.java_compare.specs.Same.{same_id, same_type, same_exprs, same_stmts, all_same, may_same, same_modifier, same_param, same_head, same_member, same_decl};

use crate::compare_bodies::{equal_args, equal_bodies, equal_ids, equal_names, equal_types};
use crate::pairs::{equal_lists, equal_options};
use java_tree::{Decl, Expr, Head, Id, Member, Modifier, Param, Stmt, Tree, TypeName};

fn equal_modifiers(a: &Modifier, b: &Modifier) -> bool
    ensures value { result ≡ same_modifier a.now b.now }
{
    a.word == b.word
}

#[tactic(auto, using(crate::proofs::Sameness::lists))]
fn equal_modifier_lists(a: &[Modifier], b: &[Modifier]) -> bool
    ensures value { result ≡ all_same same_modifier a.now b.now }
{
    equal_lists(a, b, |x, y| equal_modifiers(x, y))
}

#[tactic(auto, using(crate::proofs::Sameness::lists))]
fn equal_id_lists(a: &[Id], b: &[Id]) -> bool
    ensures value { result ≡ all_same same_id a.now b.now }
{
    equal_lists(a, b, |x, y| equal_ids(x, y))
}

fn equal_params(a: &Param, b: &Param) -> bool
    ensures value { result ≡ same_param a.now b.now }
{
    a.is_final == b.is_final && equal_types(&a.ty, &b.ty) && equal_names(&a.name, &b.name)
}

#[tactic(auto, using(crate::proofs::Sameness::lists))]
fn equal_param_lists(a: &[Param], b: &[Param]) -> bool
    ensures value { result ≡ all_same same_param a.now b.now }
{
    equal_lists(a, b, |x, y| equal_params(x, y))
}

fn equal_results(a: &Option<TypeName>, b: &Option<TypeName>) -> bool
    ensures value { result ≡ may_same same_type a.now b.now }
{
    equal_options(a, b, |x, y| equal_types(x, y))
}

fn equal_parents(a: &Option<Id>, b: &Option<Id>) -> bool
    ensures value { result ≡ may_same same_id a.now b.now }
{
    equal_options(a, b, |x, y| equal_ids(x, y))
}

#[tactic(auto, using(crate::proofs::Sameness::lists))]
fn equal_heads(a: &Head, b: &Head) -> bool
    ensures value { result ≡ same_head (head_of a.now) (head_of b.now) }
{
    equal_modifier_lists(&a.mods, &b.mods)
        && equal_results(&a.result, &b.result)
        && equal_names(&a.name, &b.name)
        && equal_param_lists(&a.params, &b.params)
}

#[tactic(auto, using(crate::proofs::Sameness::lists))]
fn equal_head_lists(a: &[Head], b: &[Head]) -> bool
    ensures value { result ≡ all_same (λ x y. same_head (head_of x) (head_of y)) a.now b.now }
{
    equal_lists(a, b, |x, y| equal_heads(x, y))
}

fn equal_method_bodies(a: &Option<Vec<Stmt>>, b: &Option<Vec<Stmt>>) -> bool
    ensures value { result ≡ may_same same_stmts (body_seen a.now) (body_seen b.now) }
{
    may_equal!(a, b, equal_bodies)
}

fn equal_ups(a: &Option<Vec<Expr>>, b: &Option<Vec<Expr>>) -> bool
    ensures value { result ≡ may_same same_exprs (up_seen a.now) (up_seen b.now) }
{
    may_equal!(a, b, equal_args)
}

#[tactic(auto, using(crate::proofs::Sameness::lists))]
fn equal_members(a: &Member, b: &Member) -> bool
    ensures value { result ≡ same_member (member_of a.now) (member_of b.now) }
{
    same_forms!(a, b;
        Member::Field { mods words equal_modifier_lists, ty kind equal_types, name other equal_names }
        Member::Method { head front equal_heads, body other equal_method_bodies }
        Member::Maker {
            mods words equal_modifier_lists, name other equal_names, params others equal_param_lists,
            up above equal_ups, body rest equal_bodies
        }
    )
}

#[tactic(auto, using(crate::proofs::Sameness::lists))]
fn equal_member_lists(a: &[Member], b: &[Member]) -> bool
    ensures value { result ≡ all_same (λ x y. same_member (member_of x) (member_of y)) a.now b.now }
{
    equal_lists(a, b, |x, y| equal_members(x, y))
}

#[tactic(auto, using(crate::proofs::Sameness::lists))]
fn equal_decls(a: &Decl, b: &Decl) -> bool
    ensures value { result ≡ same_decl (decl_of a.now) (decl_of b.now) }
{
    same_forms!(a, b;
        Decl::Class {
            mods words equal_modifier_lists, name other equal_names, parent above equal_parents,
            faces others equal_id_lists, members rest equal_member_lists
        }
        Decl::Interface {
            mods words equal_modifier_lists, name other equal_names, parents others equal_id_lists, heads rest equal_head_lists
        }
    )
}

#[tactic(auto, using(crate::proofs::Sameness::lists))]
fn equal_decl_lists(a: &[Decl], b: &[Decl]) -> bool
    ensures value { result ≡ all_same (λ x y. same_decl (decl_of x) (decl_of y)) a.now b.now }
{
    equal_lists(a, b, |x, y| equal_decls(x, y))
}

/// Whether two trees are equal, places aside.
pub fn same(a: &Tree, b: &Tree) -> bool
    ensures value { IsTrue result ↔ (unplaced (tree_of a.now) ≡ unplaced (tree_of b.now)) }
{
    equal_decl_lists(&a.decls, &b.decls)
}
