//! Whether a program declares a constructor.
#![tactic(auto)]

ghost use Rattle.std.specs.Prelude.{◌≡◌};
ghost use Rattle.std.specs.List.{list_any};
ghost use Rattle.java_tree.specs.Syntax.{member_of, decl_of, tree_of};
ghost use Rattle.java_tree.specs.Makers.{is_maker, declares_maker, has_maker};

use crate::{Decl, Member, Tree};

/// Whether a member is a constructor.
fn is_maker(member: &Member) -> bool
    ensures value { result ≡ is_maker (member_of member.now) }
{
    match member {
        Member::Field { .. } | Member::Method { .. } => false,
        Member::Maker { .. } => true,
    }
}

/// Whether some member of a list is one.
fn has_one(list: &[Member]) -> bool
    ensures value { result ≡ list_any (λ m. is_maker (member_of m)) list.now }
{
    list.iter().any(|member| is_maker(member))
}

/// Whether a class has a constructor among its members.
#[tactic(auto, using(crate::proofs::AnyMaker::of_members))]
fn declares_maker(decl: &Decl) -> bool
    ensures value { result ≡ declares_maker (decl_of decl.now) }
{
    match decl {
        Decl::Class { members, .. } => has_one(members),
        Decl::Interface { .. } => false,
    }
}

/// Whether some declaration of a list is such a class.
fn has_class_with(list: &[Decl]) -> bool
    ensures value { result ≡ list_any (λ d. declares_maker (decl_of d)) list.now }
{
    list.iter().any(|decl| declares_maker(decl))
}

/// Whether some class of a program has a constructor.
#[tactic(auto, using(crate::proofs::AnyMaker::of_decls))]
pub fn has_maker(tree: &Tree) -> bool
    ensures value { result ≡ has_maker (tree_of tree.now) }
{
    has_class_with(&tree.decls)
}
