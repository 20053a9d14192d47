//! The names that types and fields cannot have, as sets.

ghost use Rattle.std.specs.Prelude.{◌≡◌, ℕ, ◌<◌, ◌&&◌, ◌||◌, List, length, IfOk, OnOk};
ghost use Rattle.hier_rules.specs.Words.{list_any, bytes_eq, AreTaken, IsObligationInput};
ghost use Rattle.fact_model.specs.declared.facts.ClassInfo.{ClassInfo};
ghost use Rattle.fact_model.specs.FreeNames.{is_taken};
ghost use Rattle.fact_model.specs.Taken.{texts};
ghost use Rattle.hier_rules.specs.Names.{known_names, is_makers_holder, is_makers_local, is_holder_name, is_reserved, is_variable, is_named};

use crate::places::{Asked, is_live, node_count};
use fact_model::{ClassInfo, Facts, MakerNames};
use indexmap::IndexSet;
use kaba_base::{Name, NodeId};
use std::alloc::{AllocError, Global};

/// Names of a hierarchy and its facts.
#[derive(Drop)]
pub struct Taken {
    /// Those of the types of live nodes.
    pub types: IndexSet<String>,
    /// Those that two such types have.
    pub twice: IndexSet<String>,
    /// Those of classes with static members and of the holder of the methods that make objects, and those that the language has.
    pub reserved: IndexSet<String>,
    /// Those of variables, parameters and fields of the text, and of the local in the methods that make objects.
    pub variables: IndexSet<String>,
}

/// Adds a name to a set.
fn add_name(alloc: Global, set: &mut IndexSet<String>, name: &Name) -> Result<(), AllocError>
    ensures { OnOk result ((x : List ℕ) → is_taken (texts set.new.keys) x ≡ (is_taken (texts set.old.keys) x || bytes_eq name.now x)) }
{
    let text = String::from_str(alloc, name.as_str())?;
    set.insert_full(text)?;
    Ok(())
}

/// Whether a name is in a set.
pub fn has_name(set: &IndexSet<String>, name: &Name) -> bool
    ensures { result ≡ is_taken (texts set.now.keys) name.now }
{
    set.contains(name.as_str())
}

/// Adds the names of a list to a set.
fn add_names(alloc: Global, set: &mut IndexSet<String>, names: &[Name]) -> Result<(), AllocError>
    ensures { OnOk result ((x : List ℕ) → is_taken (texts set.new.keys) x ≡ (is_taken (texts set.old.keys) x || list_any (λ v. bytes_eq v x) names.now)) }
{
    for name in names {
        add_name(alloc, set, name)?;
    }
    Ok(())
}

/// Adds the name of a class, if it has static members.
fn add_holder(
    alloc: Global,
    set: &mut IndexSet<String>,
    class: &ClassInfo,
) -> Result<(), AllocError>
    ensures { OnOk result ((x : List ℕ) → is_taken (texts set.new.keys) x
        ≡ (is_taken (texts set.old.keys) x || (class.now.holder && bytes_eq class.now.name x))) }
{
    if class.holder {
        add_name(alloc, set, &class.name)?;
    }
    Ok(())
}

/// The names of classes with static members. An error comes only for want of memory.
fn static_holders(alloc: Global, facts: &Facts) -> Result<IndexSet<String>, AllocError>
    ensures { IfOk result (λ s. (x : List ℕ) → is_taken (texts s.keys) x ≡ list_any (λ k. k.holder && bytes_eq k.name x) facts.now.classes.items) }
{
    let mut names = IndexSet::new(alloc);
    for class in &facts.classes {
        add_holder(alloc, &mut names, class)?;
    }
    Ok(names)
}

/// Adds the name of the holder of the methods that make objects, where there is one.
fn add_makers_holder(
    alloc: Global,
    set: &mut IndexSet<String>,
    makers: &Option<MakerNames>,
) -> Result<(), AllocError>
    ensures { OnOk result ((x : List ℕ) → is_taken (texts set.new.keys) x ≡ (is_taken (texts set.old.keys) x || is_makers_holder makers.now x)) }
{
    if let Some(makers) = makers {
        add_name(alloc, set, &makers.holder)?;
    }
    Ok(())
}

/// Adds the name of the local in the methods that make objects, where there are some.
fn add_makers_local(
    alloc: Global,
    set: &mut IndexSet<String>,
    makers: &Option<MakerNames>,
) -> Result<(), AllocError>
    ensures { OnOk result ((x : List ℕ) → is_taken (texts set.new.keys) x ≡ (is_taken (texts set.old.keys) x || is_makers_local makers.now x)) }
{
    if let Some(makers) = makers {
        add_name(alloc, set, &makers.local)?;
    }
    Ok(())
}

/// The names of holders. An error comes only for want of memory.
fn holder_names(alloc: Global, facts: &Facts) -> Result<IndexSet<String>, AllocError>
    ensures { IfOk result (λ s. (x : List ℕ) → is_taken (texts s.keys) x ≡ is_holder_name facts.now x) }
{
    let mut names = static_holders(alloc, facts)?;
    add_makers_holder(alloc, &mut names, &facts.makers)?;
    Ok(names)
}

/// The names that the language has. An error comes only for want of memory.
fn known_names(alloc: Global) -> Result<Vec<Name>, AllocError>
    ensures { IfOk result (λ v. v.items ≡ known_names) }
{
    let mut names = Vec::new(alloc);
    names.push(Name::new(alloc, "Object")?)?;
    names.push(Name::new(alloc, "String")?)?;
    names.push(Name::new(alloc, "System")?)?;
    Ok(names)
}

/// The names of holders and those that the language has. An error comes only for want of memory.
fn reserved_names(alloc: Global, facts: &Facts) -> Result<IndexSet<String>, AllocError>
    ensures { IfOk result (λ s. (x : List ℕ) → is_taken (texts s.keys) x ≡ is_reserved facts.now x) }
{
    let mut names = holder_names(alloc, facts)?;
    let known = known_names(alloc)?;
    add_names(alloc, &mut names, &known)?;
    Ok(names)
}

/// The names of variables, parameters and fields of the text, and of the local in the methods that make objects. An
/// error comes only for want of memory.
fn variable_names(alloc: Global, facts: &Facts) -> Result<IndexSet<String>, AllocError>
    ensures { IfOk result (λ s. (x : List ℕ) → is_taken (texts s.keys) x ≡ is_variable facts.now x) }
{
    let mut names = IndexSet::new(alloc);
    add_names(alloc, &mut names, &facts.vars)?;
    add_makers_local(alloc, &mut names, &facts.makers)?;
    Ok(names)
}

/// Adds the name of a node's type, if the node is live, and to the second set if it was in the first.
fn add_type(
    alloc: Global,
    asked: &Asked,
    n: u32,
    types: &mut IndexSet<String>,
    twice: &mut IndexSet<String>,
) -> Result<(), AllocError>
    requires asked { IsObligationInput asked.now }
    requires node { n < length asked.now.hier.now.order.live }
    ensures types { OnOk result ((x : List ℕ) → is_taken (texts types.new.keys) x ≡ (is_taken (texts types.old.keys) x || is_named asked.now.hier.now x n)) }
    ensures twice { OnOk result ((x : List ℕ) → is_taken (texts twice.new.keys) x
        ≡ (is_taken (texts twice.old.keys) x ||
        (is_named asked.now.hier.now x n && is_taken (texts types.old.keys) x))) }
{
    if !is_live(asked.hier, n) {
        return Ok(());
    }
    let name = asked.hier.type_name(NodeId(n));
    if has_name(types, name) {
        add_name(alloc, twice, name)?;
    }
    add_name(alloc, types, name)?;
    Ok(())
}

/// The names that types and fields cannot have. An error comes only for want of memory.
pub fn taken_names(alloc: Global, asked: &Asked) -> Result<Taken, AllocError>
    requires { IsObligationInput asked.now }
    ensures { IfOk result (AreTaken asked.now.facts.now asked.now.hier.now) }
{
    let reserved = reserved_names(alloc, asked.facts)?;
    let variables = variable_names(alloc, asked.facts)?;
    let mut types = IndexSet::new(alloc);
    let mut twice = IndexSet::new(alloc);
    for n in 0..node_count(asked.hier) {
        add_type(alloc, asked, n, &mut types, &mut twice)?;
    }
    Ok(Taken {
        types,
        twice,
        reserved,
        variables,
    })
}
