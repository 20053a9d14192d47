//! B8, parts 1 to 3: names are identifiers, and apart from each other.

ghost use Rattle.std.specs.Prelude.{◌≡◌, ℕ, ◌<◌, ◌&&◌, ◌∷◌, ◌++◌, [], Bool, true, cond, length, All, IfOk, OnOk};
ghost use Rattle.hier_rules.specs.Words.{bytes_eq, or_else, first_below, is_live, AreTaken, IsObligationInput};
ghost use Rattle.kaba_base.specs.Words.{is_name};
ghost use Rattle.hier_model.specs.Names.{is_field};
ghost use Rattle.hier_rules.specs.Instances.{of_node};
ghost use Rattle.hier_rules.specs.Names.{is_member, unwritable_type, unwritable, first_unwritable, is_taken_type, first_taken_type, is_taken_name, taken_field, first_taken_field, first_confused, first_misnamed};
ghost use Rattle.hier_rules.specs.Namesakes.{ListsColumns, is_unwritable_member, is_taken_field, first_standing};

use crate::bodies::of_column;
use crate::broken::{Broken, Nodes, Rule};
use crate::clashes::first_confused;
use crate::places::{Asked, is_live, node_count, stands_at};
use crate::taken::{Taken, has_name, taken_names};
use fact_model::ColKind;
use hier_model::column_at;
use kaba_base::{ColId, Name, NodeId, is_identifier};
use std::alloc::{AllocError, Global};

/// An instance at a node alone.
pub fn of_node(rule: Rule, n: u32) -> Broken
    ensures { result ≡ of_node rule n }
{
    Broken {
        rule,
        nodes: Nodes::One(NodeId(n)),
        row: None,
        column: None,
    }
}

/// Whether two names are one.
pub fn is_same(a: &Name, b: &Name) -> bool
    ensures { result ≡ bytes_eq a.now b.now }
{
    a.same(b)
}

/// Whether a name is an identifier and no keyword.
fn is_writable(name: &Name) -> bool
    ensures { result ≡ is_name name.now }
{
    is_identifier(name.as_str())
}

/// Whether a kind is that of a field.
pub fn is_field(kind: ColKind) -> bool
    ensures { result ≡ is_field kind }
{
    matches!(kind, ColKind::Fld)
}

/// Whether a kind is that of a member.
fn is_member(kind: ColKind) -> bool
    ensures { result ≡ is_member kind }
{
    matches!(kind, ColKind::Fld | ColKind::Dcl | ColKind::Def)
}

/// The first column of a rising list that stands at a node.
fn first_standing(asked: &Asked, list: &[u32], n: u32) -> Option<Broken>
    requires asked { IsObligationInput asked.now }
    requires list { All (λ c. c < length asked.now.facts.now.columns.items) list.now }
    ensures { (p : ℕ → Bool) → ListsColumns asked.now.facts.now p list.now → result ≡ first_standing asked.now.facts.now asked.now.hier.now n p }
{
    for c in list {
        if stands_at(asked, n, *c) {
            return Some(of_column(Rule::B8, n, *c));
        }
    }
    None
}

/// Whether a column is a member whose name cannot be written.
fn is_unwritable_member(asked: &Asked, c: u32) -> bool
    requires asked { IsObligationInput asked.now }
    requires column { c < length asked.now.facts.now.columns.items }
    ensures { result ≡ is_unwritable_member asked.now.facts.now asked.now.hier.now c }
{
    is_member(column_at(asked.facts, ColId(c)).kind)
        && !is_writable(asked.hier.member_name(ColId(c)))
}

/// Adds a column that passes a test.
fn add_if(list: &mut Vec<u32>, passes: bool, c: u32) -> Result<(), AllocError>
    ensures { OnOk result (list.new.items ≡ list.old.items ++ cond passes (c ∷ []) []) }
{
    if passes {
        list.push(c)?;
    }
    Ok(())
}

/// The members whose names cannot be written. An error comes only for want of memory.
fn unwritable_members(alloc: Global, asked: &Asked) -> Result<Vec<u32>, AllocError>
    requires { IsObligationInput asked.now }
    ensures { IfOk result (λ v. ListsColumns asked.now.facts.now (is_unwritable_member asked.now.facts.now asked.now.hier.now) v.items) }
{
    let mut list = Vec::new(alloc);
    for c in 0..asked.facts.columns.len() as u32 {
        add_if(&mut list, is_unwritable_member(asked, c), c)?;
    }
    Ok(list)
}

/// The first name of a type or of a member that cannot be written. An error comes only for want of memory.
#[tactic(auto, using(kaba_bits::proofs::FirstLemmas::first_below_found))]
fn first_unwritable(alloc: Global, asked: &Asked) -> Result<Option<Broken>, AllocError>
    requires { IsObligationInput asked.now }
    ensures { IfOk result (λ b. b ≡ first_unwritable asked.now.facts.now asked.now.hier.now) }
{
    let list = unwritable_members(alloc, asked)?;
    first_found_below!(n < node_count(asked.hier); first_unwritable_at(asked, &list, n))
}

/// The same at one node, by the members of which that is so.
fn first_unwritable_at(asked: &Asked, list: &[u32], n: u32) -> Option<Broken>
    requires asked { IsObligationInput asked.now }
    requires list { ListsColumns asked.now.facts.now (is_unwritable_member asked.now.facts.now asked.now.hier.now) list.now }
    requires node { n < length asked.now.hier.now.order.live }
    ensures { result ≡ or_else (unwritable_type asked.now.facts.now asked.now.hier.now n)
        (first_below (length asked.now.facts.now.columns.items) (unwritable asked.now.facts.now asked.now.hier.now n)) }
{
    if is_live(asked.hier, n) && !is_writable(asked.hier.type_name(NodeId(n))) {
        return Some(of_node(Rule::B8, n));
    }
    first_standing(asked, list, n)
}

/// The first name of a type that another type, a class with static members, the language or a variable has.
#[tactic(auto, using(kaba_bits::proofs::FirstLemmas::first_below_found))]
fn first_taken_type(asked: &Asked, taken: &Taken) -> Option<Broken>
    requires asked { IsObligationInput asked.now }
    requires taken { AreTaken asked.now.facts.now asked.now.hier.now taken.now }
    ensures { result ≡ first_taken_type asked.now.facts.now asked.now.hier.now }
{
    for n in 0..node_count(asked.hier) {
        if is_live(asked.hier, n) && is_taken_type(asked, taken, n) {
            return Some(of_node(Rule::B8, n));
        }
    }
    None
}

/// Whether the name of a live node's type is taken.
fn is_taken_type(asked: &Asked, taken: &Taken, n: u32) -> bool
    requires asked { IsObligationInput asked.now }
    requires taken { AreTaken asked.now.facts.now asked.now.hier.now taken.now }
    requires node { is_live asked.now.hier.now.order n ≡ true }
    ensures { result ≡ is_taken_type asked.now.facts.now asked.now.hier.now n }
{
    let name = asked.hier.type_name(NodeId(n));
    let other = has_name(&taken.twice, name);
    let reserved = has_name(&taken.reserved, name);
    let variable = has_name(&taken.variables, name);
    other | reserved | variable
}

/// Whether the name of a member is one of a type, or reserved.
fn is_taken_name(asked: &Asked, taken: &Taken, c: u32) -> bool
    requires asked { IsObligationInput asked.now }
    requires taken { AreTaken asked.now.facts.now asked.now.hier.now taken.now }
    requires column { c < length asked.now.facts.now.columns.items }
    ensures { result ≡ is_taken_name asked.now.facts.now asked.now.hier.now c }
{
    let name = asked.hier.member_name(ColId(c));
    has_name(&taken.types, name) || has_name(&taken.reserved, name)
}

/// Whether a column is a field whose name is taken.
fn is_taken_field(asked: &Asked, taken: &Taken, c: u32) -> bool
    requires asked { IsObligationInput asked.now }
    requires taken { AreTaken asked.now.facts.now asked.now.hier.now taken.now }
    requires column { c < length asked.now.facts.now.columns.items }
    ensures { result ≡ is_taken_field asked.now.facts.now asked.now.hier.now c }
{
    is_field(column_at(asked.facts, ColId(c)).kind) && is_taken_name(asked, taken, c)
}

/// The fields whose names are taken. An error comes only for want of memory.
fn taken_fields(alloc: Global, asked: &Asked, taken: &Taken) -> Result<Vec<u32>, AllocError>
    requires asked { IsObligationInput asked.now }
    requires taken { AreTaken asked.now.facts.now asked.now.hier.now taken.now }
    ensures { IfOk result (λ v. ListsColumns asked.now.facts.now (is_taken_field asked.now.facts.now asked.now.hier.now) v.items) }
{
    let mut list = Vec::new(alloc);
    for c in 0..asked.facts.columns.len() as u32 {
        add_if(&mut list, is_taken_field(asked, taken, c), c)?;
    }
    Ok(list)
}

/// The first field whose name is taken, by the fields of which that is so.
#[tactic(auto, using(kaba_bits::proofs::FirstLemmas::first_below_found))]
fn first_taken_field(asked: &Asked, list: &[u32]) -> Option<Broken>
    requires asked { IsObligationInput asked.now }
    requires list { ListsColumns asked.now.facts.now (is_taken_field asked.now.facts.now asked.now.hier.now) list.now }
    ensures { result ≡ first_taken_field asked.now.facts.now asked.now.hier.now }
{
    first_below!(n < node_count(asked.hier); first_standing(asked, list, n))
}

/// The first instance against the parts of B8 after the first, by the names that are taken.
fn first_taken(alloc: Global, asked: &Asked, taken: &Taken) -> Result<Option<Broken>, AllocError>
    requires asked { IsObligationInput asked.now }
    requires taken { AreTaken asked.now.facts.now asked.now.hier.now taken.now }
    ensures { IfOk result (λ b. b ≡ or_else (first_taken_type asked.now.facts.now asked.now.hier.now)
        (or_else (first_taken_field asked.now.facts.now asked.now.hier.now) (first_confused asked.now.facts.now asked.now.hier.now))) }
{
    if let Some(found) = first_taken_type(asked, taken) {
        return Ok(Some(found));
    }
    let fields = taken_fields(alloc, asked, taken)?;
    match first_taken_field(asked, &fields) {
        Some(found) => Ok(Some(found)),
        None => first_confused(alloc, asked),
    }
}

/// The first instance against the parts of B8 after the first. An error comes only for want of memory.
fn first_not_apart(alloc: Global, asked: &Asked) -> Result<Option<Broken>, AllocError>
    requires { IsObligationInput asked.now }
    ensures { IfOk result (λ b. b ≡ or_else (first_taken_type asked.now.facts.now asked.now.hier.now)
        (or_else (first_taken_field asked.now.facts.now asked.now.hier.now) (first_confused asked.now.facts.now asked.now.hier.now))) }
{
    let taken = taken_names(alloc, asked)?;
    first_taken(alloc, asked, &taken)
}

/// The first instance against B8. An error comes only for want of memory.
pub fn first_misnamed(alloc: Global, asked: &Asked) -> Result<Option<Broken>, AllocError>
    requires { IsObligationInput asked.now }
    ensures { IfOk result (λ b. b ≡ first_misnamed asked.now.facts.now asked.now.hier.now) }
{
    match first_unwritable(alloc, asked)? {
        Some(found) => Ok(Some(found)),
        None => first_not_apart(alloc, asked),
    }
}
