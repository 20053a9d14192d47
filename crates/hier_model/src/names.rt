//! The names that a hierarchy starts with.

ghost use Rattle.std.specs.Prelude.{◌≡◌, ℕ, ◌++◌, ◌∷◌, ◌||◌, List, length, string_bytes, IfOk, OnOk};
ghost use Rattle.std.specs.Fmt.{decimal};
ghost use Rattle.std.specs.Str.{chars, bytes_eq, encode_utf8_all};
ghost use Rattle.fact_model.specs.InRange.{InRange, IsCol, IsClass};
ghost use Rattle.hier_model.specs.Hierarchies.{any_below};
ghost use Rattle.fact_model.specs.Taken.{texts, AreSameNames};
ghost use Rattle.fact_model.specs.FreeNames.{is_taken, free_name};
ghost use Rattle.hier_model.specs.Names.{joined, is_field, is_strictly_above, is_namesake_above, is_shared, class_name, named_member, member_names, naming_class, type_names};

use crate::column_at;
use crate::moves::name_at;
use fact_model::{ColKind, Facts, below, class_at, free_name};
use indexmap::IndexSet;
use kaba_base::{ClassId, ColId, Name};
use std::alloc::{AllocError, Global};

/// The names of the members, in the order of the columns: a field that has the name of a field above it gets
/// that of its class behind it, and any other member keeps its own.
pub fn member_names(alloc: Global, facts: &Facts) -> Result<Vec<Name>, AllocError>
    requires { InRange facts.now }
    ensures { IfOk result (λ v. v.items ≡ member_names facts.now (length facts.now.columns.items)) }
{
    let mut names = Vec::new(alloc);
    let mut taken = taken_names(alloc, &facts.words, &names)?;
    for c in 0..facts.columns.len() {
        let name = named_member(alloc, facts, &taken, ColId(c as u32))?;
        add_name(alloc, &mut taken, &name)?;
        names.push(name)?;
    }
    Ok(names)
}

/// The names of the types, in the order of the nodes: that of the origin and the number.
pub fn type_names(
    alloc: Global,
    facts: &Facts,
    members: &[Name],
    origins: &[Option<ClassId>],
) -> Result<Vec<Name>, AllocError>
    ensures { IfOk result (λ v. v.items ≡ type_names facts.now members.now origins.now (length origins.now)) }
{
    let mut names = Vec::new(alloc);
    let mut taken = taken_names(alloc, &facts.words, members)?;
    for n in 0..origins.len() {
        let name = named_type(alloc, facts, &taken, origins[n], n)?;
        add_name(alloc, &mut taken, &name)?;
        names.push(name)?;
    }
    Ok(names)
}

/// The name of a member, after those taken.
fn named_member(
    alloc: Global,
    facts: &Facts,
    taken: &IndexSet<String>,
    c: ColId,
) -> Result<Name, AllocError>
    requires range { InRange facts.now }
    requires column { IsCol facts.now c }
    ensures { IfOk result (λ n. (given : List (List ℕ)) → AreSameNames (texts taken.now.keys) (facts.now.words.items ++ given) → n ≡ named_member facts.now given c.0) }
{
    let column = column_at(facts, c);
    if is_shared(facts, c) {
        let class = class_text(facts, column.class);
        let base = joined(alloc, column.name.as_str(), class)?;
        let name = free_name(alloc, taken, base)?;
        return Ok(name);
    }
    let name = column.name.copy(alloc)?;
    Ok(name)
}

/// The name of the type of a node, after those taken.
fn named_type(
    alloc: Global,
    facts: &Facts,
    taken: &IndexSet<String>,
    origin: Option<ClassId>,
    n: usize,
) -> Result<Name, AllocError>
    ensures { IfOk result (λ r. (given : List (List ℕ)) → AreSameNames (texts taken.now.keys) (facts.now.words.items ++ given) → r ≡ free_name (facts.now.words.items ++ given) (joined (class_name facts.now (naming_class origin)) (decimal n))) }
{
    let class = class_text(facts, naming_class(origin));
    let number = format!(in alloc; "{n}")?;
    let base = joined(alloc, class, number.as_str())?;
    let name = free_name(alloc, taken, base)?;
    Ok(name)
}

/// The class that names a node of this origin.
fn naming_class(origin: Option<ClassId>) -> ClassId
    ensures { result.0 ≡ naming_class origin }
{
    match origin {
        Some(class) => class,
        None => ClassId(0),
    }
}

/// The text of a class's name.
fn class_text(facts: &Facts, class: ClassId) -> &str
    ensures { result.now ≡ encode_utf8_all (class_name facts.now class.0) }
{
    match facts.classes.as_slice().get(class.0 as usize) {
        Some(class) => class.name.as_str(),
        None => "",
    }
}

/// Two texts with an underscore between.
fn joined(alloc: Global, a: &str, b: &str) -> Result<String, AllocError>
    ensures { IfOk result (λ s. string_bytes s ≡ a.now ++ 95 ∷ b.now) }
{
    let mut text = String::from_str(alloc, a)?;
    text.push_str("_")?;
    text.push_str(b)?;
    Ok(text)
}

/// The names of two lists.
fn taken_names(alloc: Global, words: &[Name], more: &[Name]) -> Result<IndexSet<String>, AllocError>
    ensures { IfOk result (λ t. AreSameNames (texts t.keys) (words.now ++ more.now)) }
{
    let mut taken = IndexSet::new(alloc);
    add_names(alloc, &mut taken, words)?;
    add_names(alloc, &mut taken, more)?;
    Ok(taken)
}

/// Adds names to those taken.
fn add_names(alloc: Global, taken: &mut IndexSet<String>, names: &[Name]) -> Result<(), AllocError>
    ensures { OnOk result ((x : List ℕ) → is_taken (texts taken.new.keys) x ≡ (is_taken (texts taken.old.keys) x || is_taken names.now x)) }
{
    for k in 0..names.len() {
        add_name(alloc, taken, name_at(names, k))?;
    }
    Ok(())
}

/// Adds one name to those taken.
fn add_name(alloc: Global, taken: &mut IndexSet<String>, name: &Name) -> Result<(), AllocError>
    ensures { OnOk result ((x : List ℕ) → is_taken (texts taken.new.keys) x ≡ (is_taken (texts taken.old.keys) x || bytes_eq x name.now)) }
{
    let text = String::from_str(alloc, name.as_str())?;
    taken.insert_full(text)?;
    Ok(())
}

/// Whether a field has the name of a field of a class strictly above its own.
fn is_shared(facts: &Facts, c: ColId) -> bool
    requires range { InRange facts.now }
    requires column { IsCol facts.now c }
    ensures { result ≡ is_shared facts.now c.0 }
{
    is_field(column_at(facts, c).kind) && has_namesake_above(facts, c)
}

/// Whether there is a field of the name of a column, in a class strictly above its own.
fn has_namesake_above(facts: &Facts, c: ColId) -> bool
    requires range { InRange facts.now }
    requires column { IsCol facts.now c }
    ensures { result ≡ any_below (length facts.now.columns.items) (is_namesake_above facts.now c.0) }
{
    for d in 0..facts.columns.len() {
        if is_namesake_above(facts, c, ColId(d as u32)) {
            return true;
        }
    }
    false
}

/// Whether a column is a field of the name of another, in a class strictly above its own.
fn is_namesake_above(facts: &Facts, c: ColId, d: ColId) -> bool
    requires range { InRange facts.now }
    requires c { IsCol facts.now c }
    requires d { IsCol facts.now d }
    ensures { result ≡ is_namesake_above facts.now c.0 d.0 }
{
    let own = column_at(facts, c);
    let other = column_at(facts, d);
    is_field(other.kind)
        && is_same(&own.name, &other.name)
        && is_strictly_above(facts, own.class, other.class)
}

/// Whether a kind is that of a field.
fn is_field(kind: ColKind) -> bool
    ensures { result ≡ is_field kind }
{
    matches!(kind, ColKind::Fld)
}

/// Whether two names are the same.
pub fn is_same(a: &Name, b: &Name) -> bool
    ensures { result ≡ bytes_eq a.now b.now }
{
    a.same(b)
}

/// Whether a class or interface is strictly above another.
fn is_strictly_above(facts: &Facts, a: ClassId, b: ClassId) -> bool
    requires range { InRange facts.now }
    requires class { IsClass facts.now a }
    ensures { result ≡ is_strictly_above facts.now a.0 b.0 }
{
    a.0 != b.0 && below(facts, a, b)
}
