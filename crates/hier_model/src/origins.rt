//! The lowest of some classes, and the classes from which nodes come.

ghost use Rattle.std.specs.Prelude.{◌≡◌, ◌<◌, true, length, map, slice_index_or, slice_set, All, Contains, IfOk, IfSome, None};
ghost use Rattle.std.specs.Option.{option_map};
ghost use Rattle.kaba_base.specs.declared.ClassId.{ClassId};
ghost use Rattle.fact_model.specs.InRange.{InRange, IsClass};
ghost use Rattle.hier_model.specs.Start.{is_below_all, lowest};
ghost use Rattle.hier_model.specs.Edits.{all_there, merged_origin};

use fact_model::{Facts, below};
use kaba_base::{ClassId, NodeId};
use std::alloc::{AllocError, Global};

/// The first of some classes that is at or below them all; `None` where two of them are not comparable, or there is none.
pub fn lowest(facts: &Facts, classes: &[ClassId]) -> Option<ClassId>
    requires range { InRange facts.now }
    requires classes { All (IsClass facts.now) classes.now }
    ensures { result ≡ lowest facts.now classes.now }
{
    if classes.is_empty() {
        return None;
    }
    let lower = lower_of(facts, classes);
    if is_below_all(facts, classes, lower) {
        Some(lower)
    } else {
        None
    }
}

/// One of some classes, in whose place each that is at or below it has come in turn: if one is at or below all, it is that.
fn lower_of(facts: &Facts, classes: &[ClassId]) -> ClassId
    requires range { InRange facts.now }
    requires classes { All (IsClass facts.now) classes.now }
    requires some { 0 < length classes.now }
    ensures member { Contains classes.now result }
    ensures only { (k : ClassId) → Contains classes.now k → is_below_all facts.now classes.now k ≡ true → result ≡ k }
{
    let mut lower = classes[0];
    for class in classes {
        if below(facts, *class, lower) {
            lower = *class;
        }
    }
    lower
}

/// Whether a class is at or below all of some classes.
fn is_below_all(facts: &Facts, classes: &[ClassId], class: ClassId) -> bool
    requires range { InRange facts.now }
    requires class { IsClass facts.now class }
    ensures { result ≡ is_below_all facts.now classes.now class }
{
    classes.iter().all(|other| below(facts, class, *other))
}

/// The classes from which some nodes come; `None` where one comes from none.
fn origins_there(
    alloc: Global,
    origins: &[Option<ClassId>],
    set: &[NodeId],
) -> Result<Option<Vec<ClassId>>, AllocError>
    requires { All (λ n. n.0 < length origins.now) set.now }
    ensures { IfOk result (λ o. option_map (λ v. v.items) o ≡ all_there (map (λ n. slice_index_or origins.now n.0 None) set.now)) }
{
    let mut classes = Vec::new(alloc);
    for n in set {
        match origins[n.0 as usize] {
            Some(class) => classes.push(class)?,
            None => return Ok(None),
        }
    }
    Ok(Some(classes))
}

/// The origin of one node made of several: the lowest of theirs.
pub fn merged_origin(
    alloc: Global,
    facts: &Facts,
    origins: &[Option<ClassId>],
    set: &[NodeId],
) -> Result<Option<ClassId>, AllocError>
    requires range { InRange facts.now }
    requires nodes { All (λ n. n.0 < length origins.now) set.now }
    requires classes { All (λ n. IfSome (slice_index_or origins.now n.0 None) (IsClass facts.now)) set.now }
    ensures { IfOk result (λ o. o ≡ merged_origin facts.now (map (λ n. slice_index_or origins.now n.0 None) set.now)) }
{
    match origins_there(alloc, origins, set)? {
        Some(classes) => Ok(lowest(facts, &classes)),
        None => Ok(None),
    }
}

/// The origins when the nodes of a list are one.
pub fn merged_origins(
    alloc: Global,
    facts: &Facts,
    origins: &[Option<ClassId>],
    set: &[NodeId],
    least: NodeId,
) -> Result<Vec<Option<ClassId>>, AllocError>
    requires range { InRange facts.now }
    requires nodes { All (λ n. n.0 < length origins.now) set.now }
    requires classes { All (λ n. IfSome (slice_index_or origins.now n.0 None) (IsClass facts.now)) set.now }
    requires least { least.0 < length origins.now }
    ensures { IfOk result (λ v. v.items ≡ slice_set origins.now least.0 (merged_origin facts.now (map (λ n. slice_index_or origins.now n.0 None) set.now))) }
{
    let origin = merged_origin(alloc, facts, origins, set)?;
    let mut merged = origins.to_vec(alloc)?;
    merged[least.0 as usize] = origin;
    Ok(merged)
}
