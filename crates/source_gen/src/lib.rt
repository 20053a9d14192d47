//! The program that is written of a class hierarchy (after Streckenbach and Snelting, 2004): a class
//! or an interface for each live node, the holders of the static members, and the class of the methods that make the
//! objects of classes with a constructor.
#![tactic(auto)]

ghost use Rattle.std.specs.Prelude.{◌≡◌, IfOk};
ghost use Rattle.source_gen.specs.Words.{program_of, IsFormed, InRange, IsHierarchyOf, HaveMakes};
ghost use Rattle.java_tree.specs.Syntax.{tree_of};
ghost use Rattle.write_model.specs.Written.{written_by};
ghost use Rattle.write_forms.specs.Renamed.{renamed, IsFitting};

mod columns;
mod fillers;
mod heads;
mod holders;
mod makes;
mod members;
mod own;
mod parts;
mod places;
mod supers;
mod types;

use fact_model::Facts;
use hier_model::Hier;
use holders::add_holders;
use java_core::Program;
use java_tree::Tree;
use makes::add_makers;
use parts::Nodes;
use std::alloc::{AllocError, Global};
use types::add_types;
use write_forms::{Numbering, Source};

/// The tree of the program that is written of a hierarchy over the rows and columns of a program's
/// facts: the types of the live nodes by their numbers, then the holders in the order of the program
/// (after Streckenbach and Snelting, 2004), and that of the methods that make the objects of classes with a
/// constructor. Each place is zero. `AllocError` where memory is short, or a method has 2 ^ 32 parameters or more.
pub fn generate(
    alloc: Global,
    program: &Program,
    numbering: &Numbering,
    facts: &Facts,
    hier: &Hier,
) -> Result<Tree, AllocError>
    requires formed { IsFormed (program_of program.now) }
    requires range { InRange facts.now }
    requires hierarchy { IsHierarchyOf facts.now hier.now }
    requires fits { IsFitting numbering.now hier.now }
    requires makes { HaveMakes (program_of program.now) numbering.now facts.now }
    ensures tree { IfOk result (λ t. tree_of t ≡ written_by (program_of program.now)
        (renamed numbering.now hier.now) facts.now hier.now numbering.now.columns.keys) }
{
    let classes = hier.class_nodes(alloc, facts)?;
    let nodes = Nodes {
        source: Source {
            alloc,
            program,
            numbering,
            makers: &facts.makers,
            hier,
        },
        facts,
        classes: &classes,
    };
    let mut decls = Vec::new(alloc);
    add_types(&nodes, &mut decls)?;
    add_holders(&nodes.source, &mut decls)?;
    add_makers(&nodes, &mut decls)?;
    Ok(Tree { decls })
}
