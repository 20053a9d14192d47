//! Names resolved: the program of a tree, or which rule of names the tree breaks and where.
#![tactic(auto)]

ghost use Rattle.java_tree.specs.Syntax.{decls, tree_of};
ghost use Rattle.std.specs.Prelude.{◌≡◌, IfOk, IfErr, map};
ghost use Rattle.std.specs.Bool.{OnTrue};
ghost use Rattle.java_tree.specs.Formed.{IsFormedTree};
ghost use Rattle.java_core.specs.Formed.{HasSmallNumbers, IsFormed};
ghost use Rattle.name_rules.specs.Resolves.{Resolves};
ghost use Rattle.java_resolve.specs.Unique.{OneProgram};
ghost use Rattle.name_rules.specs.Causes.{IsCause, HasNoCondition};
ghost use Rattle.java_core.specs.Programs.{Plain, program_of, class_seen};
ghost use Rattle.java_core.specs.declared.Program.{Program};
ghost use Rattle.java_core.specs.Subtypes.{subtype_rows};
ghost use Rattle.java_core.specs.Nearest.{superclasses};
ghost use Rattle.name_laws.specs.Answers.{GivesValue, with};
ghost use Rattle.name_laws.specs.Members.{clashes_of, main_of};
ghost use Rattle.name_types.specs.Found.{AreDeclarationsFound, members_seen};
ghost use Rattle.name_laws.specs.Resolved.{resolved, with_bodies, parents_of};

use java_core::{Class, FieldTables, Hierarchy, Program};
use java_tree::{Decl, Tree};
use kaba_base::{ClassId, MemberId, made};
use name_bodies::{Tables, blocks_of_names, methods_of};
pub use name_rules::{Form, Refusal};
use name_tables::Types;
use name_types::{
    Draft, above_of, clashes_of, classes_of, known_of, loops_of, main_of, members_of,
};
use std::alloc::{AllocError, Global};

/// The superclass of each class.
fn parents_of(alloc: Global, classes: &Vec<Class>) -> Result<Vec<Option<ClassId>>, AllocError>
    ensures seen { IfOk result (λ v. v.items ≡ parents_of (map class_seen classes.now.items)) }
    ensures same { IfOk result (λ v. v.items ≡ superclasses classes.now.items) }
{
    let mut parents = Vec::new(alloc);
    for class in classes {
        parents.push(class.parent)?;
    }
    Ok(parents)
}

/// A count, as far as 32 bits tell it.
fn narrowed(count: usize) -> u32 {
    if count < u32::MAX as usize {
        count as u32
    } else {
        u32::MAX
    }
}

/// The number of the main method, where none of the methods clashes with another; there are so many types.
fn main_number(alloc: Global, above: &Hierarchy, count: u32, draft: &Draft) -> Result<u32, Refusal>
    requires found { AreDeclarationsFound draft.now }
    ensures { GivesValue (λ k. k) result (with (clashes_of above.now draft.now.declared.headings.items) (λ _. main_of draft.now.declared.headings.items)) }
{
    let _count = clashes_of(
        alloc,
        above,
        count,
        &draft.declared.method_spots,
        &draft.declared.headings,
    )?;
    main_of(&draft.declared.headings)
}

/// The program of a tree whose types and members these are.
fn with_bodies(
    alloc: Global,
    list: &[Decl],
    known: Types,
    classes: Vec<Class>,
    above: Hierarchy,
    draft: Draft,
) -> Result<Program, Refusal>
    requires rows { above ≡ subtype_rows (map class_seen classes.items) }
    requires found { AreDeclarationsFound draft }
    ensures { GivesValue {A = Program} {B = Plain} program_of result
        (with_bodies (decls list.now) known (map class_seen classes.items) above
        (members_seen draft)) }
{
    let count = narrowed(classes.len());
    let main = match main_number(alloc, &above, count, &draft) {
        Ok(main) => main,
        Err(refusal) => {
            drop(known);
            drop(classes);
            drop(above);
            drop(draft);
            return Err(refusal);
        }
    };
    let parents = match parents_of(alloc, &classes) {
        Ok(parents) => parents,
        Err(_) => {
            drop(known);
            drop(classes);
            drop(above);
            drop(draft);
            return Err(Refusal::Memory);
        }
    };
    let field_tables =
        made!(FieldTables::new(alloc, parents.as_slice(), draft.declared.fields.as_slice(), above.supertypes_first())
            => Refusal; known, classes, above, draft, parents);
    let blocks =
        made!(blocks_of_names(alloc, &above, &draft.declared.headings, &draft.declared.method_spots)
            => Refusal; known, classes, above, draft, parents, field_tables);
    let tables = Tables {
        known,
        parents,
        above,
        declared: draft.declared,
        blocks,
        field_tables,
    };
    match methods_of(alloc, &tables, list) {
        Ok(methods) => {
            let declared = tables.declared;
            match Program::new(
                alloc,
                classes,
                declared.fields,
                methods,
                draft.slots,
                MemberId(main),
                tables.above,
                tables.parents,
                tables.field_tables,
            ) {
                Ok(program) => Ok(program),
                Err(_) => Err(Refusal::Memory),
            }
        }
        Err(refusal) => {
            drop(tables);
            drop(classes);
            drop(draft.slots);
            drop(draft.keyed_slots);
            Err(refusal)
        }
    }
}

/// The program that the rules make of a tree, or the first refusal that they meet.
#[tactic(auto, unfolding(name_laws::specs::Resolved::resolved), using(crate::proofs::TreeClasses::classes_are))]
fn resolve_tree(alloc: Global, tree: &Tree) -> Result<Program, Refusal>
    ensures program { GivesValue {A = Program} {B = Plain} program_of result (resolved (tree_of tree.now)) }
{
    let list = tree.decls.as_slice();
    let known = known_of(alloc, list)?;
    let classes = made!(classes_of(alloc, &known, list); known);
    let above = made!(above_of(alloc, &classes); known, classes);
    let _count = made!(loops_of(alloc, &above, &classes); known, classes, above);
    let draft = made!(members_of(alloc, &known, &classes, list); known, classes, above);
    with_bodies(alloc, list, known, classes, above, draft)
}

/// Whether each class, field, method and slot has a number of 32 bits.
#[tactic(auto, using(crate::proofs::Final::counted))]
fn is_counted(program: &Program) -> bool
    ensures { OnTrue result (HasSmallNumbers (program_of program.now)) }
{
    let most = 4_294_967_295;
    program.classes.len() < most
        && program.fields.len() < most
        && program.methods.len() < most
        && program.slots.len() < most
}

/// The program of a tree that the grammar gives, each name resolved (Java Language Specification,
/// 6.3 to 6.5). A program comes exactly where no condition of a refusal holds of the tree, `Memory`
/// aside. A refusal comes only where its condition holds, at the place that it holds; where several
/// hold, any of them may come. `Memory` comes where memory is short, or where a number of the
/// program is none of 32 bits. Constructors are methods of the program, those that are not written behind all others.
pub fn resolve(alloc: Global, tree: &Tree) -> Result<Program, Refusal>
    requires given { IsFormedTree (tree_of tree.now) }
    ensures resolves { IfOk result (λ p. Resolves (tree_of tree.now) (program_of p)) }
    ensures formed { IfOk result (λ p. IsFormed (program_of p)) }
    ensures no_condition { IfOk result (λ _. HasNoCondition (tree_of tree.now)) }
    ensures refused { IfErr result (λ refusal. IsCause (tree_of tree.now) refusal) }
{
    match resolve_tree(alloc, tree) {
        Ok(program) => {
            if is_counted(&program) {
                Ok(program)
            } else {
                Err(Refusal::Memory)
            }
        }
        Err(refusal) => Err(refusal),
    }
}

/// The contract of `resolve` has one program: two that meet its clauses for a tree are equal.
pub fn one_program()
    ensures value { OneProgram }
{}
