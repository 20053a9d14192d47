//! The text of the program that is written of a hierarchy.
//!
//! `specs/Written.antt` says what the text is, and what the program does to which its tree resolves.
#![tactic(auto)]

ghost use Rattle.std.specs.Prelude.{◌≡◌, IfOk, OnErr, OnOk};
ghost use Rattle.java_core.specs.Programs.{program_of};
ghost use Rattle.java_core.specs.Formed.{IsFormed};
ghost use Rattle.java_core.specs.Typing.{IsTyped};
ghost use Rattle.java_tree.specs.Syntax.{tree_of};
ghost use Rattle.fact_model.specs.InRange.{InRange};
ghost use Rattle.flow_rules.specs.Facts.{IsWithinLimits};
ghost use Rattle.name_rules.specs.declared.Refusal.TheVariants as Refusal;
ghost use Rattle.flow_program.specs.Known.{AreProgramFacts};
ghost use Rattle.java_write.specs.Numbers.{AreNumbersOf};
ghost use Rattle.java_write.specs.Written.{HasText, IsUnbroken, Appends, tree_of_hierarchy};

use fact_model::Facts;
use flow_facts::{FactsFault, numbering_of};
use hier_model::Hier;
use java_core::{Checked, Program};
use java_print::print;
use java_resolve::{Refusal, resolve};
use java_tree::Tree;
use source_gen::generate;
use std::alloc::{AllocError, Global};
use write_forms::{Numbering, make_names};

/// The numbers of the rows, columns and creations of a program that has these facts.
fn numbers_of(alloc: Global, program: &Program, facts: &Facts) -> Result<Numbering, AllocError>
    requires formed { IsFormed (program_of program.now) }
    requires within { IsWithinLimits (program_of program.now) }
    requires range { InRange facts.now }
    ensures numbers { IfOk result (AreNumbersOf program.now facts.now) }
{
    match numbering_of(alloc, program) {
        Ok(numbering) => Ok(Numbering {
            rows: numbering.rows,
            columns: numbering.columns,
            sites: numbering.sites,
            makes: make_names(alloc, facts)?,
        }),
        Err(FactsFault::Memory) => Err(AllocError),
        Err(FactsFault::TooMany(_, _)) => unreachable!(),
    }
}

/// The tree that a hierarchy of the program's facts is written as.
fn tree_of_hierarchy(
    alloc: Global,
    program: &Checked,
    facts: &Facts,
    hier: &Hier,
) -> Result<Tree, AllocError>
    requires facts { AreProgramFacts (program_of program.now) facts.now }
    requires unbroken { IsUnbroken facts.now hier.now }
    ensures tree { IfOk result (λ t. tree_of t ≡ tree_of_hierarchy program.now facts.now hier.now) }
    ensures formed { IsFormed (program_of program.now) }
    ensures typed { IsTyped (program_of program.now) }
{
    let plain = program.program();
    let numbering = numbers_of(alloc, plain, facts)?;
    generate(alloc, plain, &numbering, facts, hier)
}

/// Want of memory, which is the one refusal of a tree whose names are all there.
fn short_of_memory(refusal: &Refusal) -> AllocError
    requires { refusal.now ≡ Refusal.Memory }
{
    match refusal {
        Refusal::Memory => AllocError,
        _ => unreachable!(),
    }
}

/// Appends the text of the program that is written of a hierarchy which breaks no obligation (after Streckenbach
/// and Snelting, 2004).
///
/// The text is read as the hierarchy's tree, which resolves to a typed program. That program rebuilds the old one
/// over the hierarchy, offers each variable its row of the table, and has the same run: for all words and every
/// bound on the steps the same output, end and steps. The names of the tree are resolved once before it is written.
/// `AllocError` comes where memory is short, or a number of the new program is none of 32 bits; then nothing was
/// appended.
pub fn write_java(
    alloc: Global,
    program: &Checked,
    facts: &Facts,
    hier: &Hier,
    into: &mut Vec<u8>,
) -> Result<(), AllocError>
    requires text { HasText program.now }
    requires facts { AreProgramFacts (program_of program.now) facts.now }
    requires unbroken { IsUnbroken facts.now hier.now }
    ensures written { OnOk result (Appends program.now facts.now hier.now into.old.items into.new.items) }
    ensures kept { OnErr result (into.new.items ≡ into.old.items) }
{
    let tree = tree_of_hierarchy(alloc, program, facts, hier)?;
    match resolve(alloc, &tree) {
        Ok(_new) => print(alloc, &tree, into),
        Err(refusal) => Err(short_of_memory(&refusal)),
    }
}
