//! The hierarchy that a program starts with: what its nodes offer, which obligation it breaks, and that an edit is made
//! and taken back.

ghost use Rattle.std.specs.Prelude.{◌≡◌, ◌≤◌, length};
ghost use Rattle.fact_model.specs.InRange.{InRange};
ghost use Rattle.fact_model.specs.InOrder.{InOrder};
ghost use Rattle.fact_model.specs.Flowing.{AreSets};
ghost use Rattle.hier_model.specs.Hierarchies.{IsHierarchyOf};
ghost use Rattle.hier_rules.specs.First.{MeetsEdit};

use concept_build::concepts;
use fact_model::{Facts, PointsTo};
use flow_program::facts;
use hier_model::{Edit, Hier, start};
use hier_rules::{Asked, Broken, first_broken, join_index};
use hier_undo::apply_and_take_back;
use java_check::check;
use java_core::Checked;
use java_lex::lex;
use java_parse::parse;
use java_resolve::resolve;
use kaba_base::NodeId;
use points_to::solve;
use std::alloc::{AllocError, Global};
use table_rules::{close, raw};

/// A program of which one object needs two fields, and two others need one of them each.
const TEXT: &[u8] = b"class A { int f; int g; }\n\
    class M { public static void main(String[] words) {\n\
    A x = new A(); x.f = 1; A y = new A(); y.g = 2; A z = new A(); z.f = 3; z.g = 4; } }\n";

/// The typed program of a text, if it is that of one.
pub fn typed(alloc: Global, bytes: &Vec<u8>) -> Result<Option<Checked>, AllocError>
    requires small { length bytes.now.items ≤ 1048576 }
{
    let Ok(tokens) = lex(alloc, bytes) else {
        return Ok(None);
    };
    let Ok(tree) = parse(alloc, &tokens) else {
        return Ok(None);
    };
    let Ok(program) = resolve(alloc, &tree) else {
        return Ok(None);
    };
    match check(alloc, program) {
        Ok(checked) => Ok(Some(checked)),
        Err(_) => Ok(None),
    }
}

/// The columns that each live node offers.
fn add_offered(
    alloc: Global,
    text: &mut String,
    facts: &Facts,
    hier: &Hier,
) -> Result<(), AllocError>
    requires range { InRange facts.now }
    requires fits { IsHierarchyOf facts.now hier.now }
{
    for n in 0..hier.order().count() {
        if hier.order().is_live(NodeId(n)) {
            write!(text, "node {n} offers:")?;
            for c in &hier.offered(alloc, NodeId(n))?.rising(alloc)? {
                write!(text, " {c}")?;
            }
            text.push('\n')?;
        }
    }
    Ok(())
}

/// Which obligation is broken first.
fn add_broken(text: &mut String, broken: Option<Broken>) -> Result<(), AllocError> {
    match broken {
        Some(_) => text.push_str("an obligation is broken\n"),
        None => text.push_str("no obligation is broken\n"),
    }
}

/// Merges two nodes and takes that back: whether it was made, and the hierarchy, which is as before.
fn add_undone(
    alloc: Global,
    text: &mut String,
    facts: &Facts,
    sets: &PointsTo,
    mut hier: Hier,
) -> Result<(), AllocError>
    requires range { InRange facts.now }
    requires sets { AreSets facts.now sets.now }
    requires fits { IsHierarchyOf facts.now hier }
    requires meets { MeetsEdit facts.now sets.now hier }
{
    let edit = Edit::Merge([NodeId(1), NodeId(2)].to_vec(alloc)?);
    let asked = Asked {
        facts,
        pt: sets,
        hier: &hier,
    };
    let index = join_index(alloc, &asked)?;
    match apply_and_take_back(alloc, &mut hier, facts, sets, &index, &edit) {
        Ok(()) => text.push_str("a merge is made and taken back\n")?,
        Err(_) => text.push_str("a merge is refused\n")?,
    }
    add_offered(alloc, text, facts, &hier)
}

/// The hierarchy that facts start with.
fn add_start(alloc: Global, text: &mut String, facts: &Facts) -> Result<(), AllocError>
    requires range { InRange facts.now }
    requires order { InOrder facts.now }
{
    let sets = solve(alloc, facts)?;
    let raw = raw(alloc, facts, &sets)?;
    let table = close(alloc, facts, &sets, raw)?;
    let Ok(lattice) = concepts(alloc, &table, 4096) else {
        return Ok(());
    };
    let hier = start(alloc, facts, &table, &lattice)?;
    add_offered(alloc, text, facts, &hier)?;
    let asked = Asked {
        facts,
        pt: &sets,
        hier: &hier,
    };
    add_broken(text, first_broken(alloc, &asked)?)?;
    add_undone(alloc, text, facts, &sets, hier)
}

/// The hierarchy that the program starts with.
pub fn add_hierarchy(alloc: Global, text: &mut String) -> Result<(), AllocError> {
    let bytes = Vec::from_slice(alloc, TEXT)?;
    let Some(program) = typed(alloc, &bytes)? else {
        return Ok(());
    };
    match facts(alloc, &program) {
        Ok(facts) => add_start(alloc, text, &facts),
        Err(_) => Ok(()),
    }
}
