//! Edits and undos, one after the other.
#![tactic(auto)]

ghost use Rattle.std.specs.Prelude.{◌≡◌, All, IfOk, OnOk, string_bytes};
ghost use Rattle.hier_edit.specs.Applied.{applied};
ghost use Rattle.hier_model.specs.declared.edits.Act.TheVariants as Act;
ghost use Rattle.hier_rules.specs.Index.{IsIndexOf};
ghost use Rattle.hier_rules.specs.Words.{InRange, AreSets, IsHierarchyOf, NamesSome, MeetsEdit};
ghost use Rattle.hier_script.specs.Histories.{IsEditable, HasHistory, HasSomeHistory, IsCarriedOn, IsTold, IsUndone, IsUndoTold, ActNamesSome};
ghost use Rattle.hier_script.specs.Scripts.{refusal, after_edits, refusals_of};

use crate::refusals::{no_undo_line, refusal_line};
use edit_script::Line;
use fact_model::{Facts, PointsTo};
use hier_edit::ApplyFault;
use hier_model::{Act, Edit, Hier, Undo};
use hier_rules::{Asked, JoinIndex, join_index};
use hier_undo::{apply_kept, take_back};
use std::alloc::{AllocError, Global};

/// Makes an edit, keeps what takes it back behind the undos, and gives its line where it is refused, and
/// else no text.
fn run_edit(
    alloc: Global,
    hier: &mut Hier,
    undos: &mut Vec<Undo>,
    facts: &Facts,
    sets: &PointsTo,
    index: &JoinIndex,
    number: u32,
    edit: &Edit,
) -> Result<String, AllocError>
    requires range { InRange facts.now }
    requires sets { AreSets facts.now sets.now }
    requires index { IsIndexOf facts.now sets.now index.now }
    requires hierarchy { IsHierarchyOf facts.now hier.old }
    requires meets { MeetsEdit facts.now sets.now hier.old }
    requires some { NamesSome edit.now }
    ensures history { OnOk result (IsCarriedOn facts.now sets.now (Act.Edit edit.now) hier.old undos.old.items hier.new undos.new.items) }
    ensures refusal { IfOk result (λ text. string_bytes text ≡ refusal number (applied facts.now sets.now hier.old edit.now)) }
{
    match apply_kept(alloc, hier, facts, sets, index, edit) {
        Ok(undo) => {
            undos.push(undo)?;
            Ok(String::new(alloc))
        }
        Err(ApplyFault::Memory) => Err(AllocError),
        Err(fault) => refusal_line(alloc, number, fault),
    }
}

/// Takes the last edit back, and gives a line where there is none, and else no text.
fn run_undo(
    alloc: Global,
    hier: &mut Hier,
    undos: &mut Vec<Undo>,
    number: u32,
) -> Result<String, AllocError>
    requires history { HasSomeHistory hier.old undos.old.items }
    ensures history { OnOk result (IsUndone hier.old undos.old.items hier.new undos.new.items) }
    ensures refusal { IfOk result (λ text. IsUndoTold hier.old undos.old.items number (string_bytes text)) }
{
    match undos.pop() {
        None => no_undo_line(alloc, number),
        Some(undo) => {
            take_back(hier, undo);
            Ok(String::new(alloc))
        }
    }
}

/// Does what a line says, and gives a line where that is refused, and else no text.
fn run_act(
    alloc: Global,
    hier: &mut Hier,
    undos: &mut Vec<Undo>,
    facts: &Facts,
    sets: &PointsTo,
    index: &JoinIndex,
    line: &Line,
) -> Result<String, AllocError>
    requires range { InRange facts.now }
    requires sets { AreSets facts.now sets.now }
    requires index { IsIndexOf facts.now sets.now index.now }
    requires history { HasHistory facts.now sets.now hier.old undos.old.items }
    requires some { ActNamesSome line.now.act }
    ensures history { OnOk result (IsCarriedOn facts.now sets.now line.now.act hier.old undos.old.items hier.new undos.new.items) }
    ensures refusal { IfOk result (λ text. IsTold facts.now sets.now line.now.act hier.old undos.old.items line.now.number (string_bytes text)) }
{
    match &line.act {
        Act::Edit(edit) => run_edit(alloc, hier, undos, facts, sets, index, line.number, edit),
        Act::Undo => run_undo(alloc, hier, undos, line.number),
    }
}

/// What the tests of edits ask of facts and their sets.
fn index_of(
    alloc: Global,
    hier: &Hier,
    facts: &Facts,
    sets: &PointsTo,
) -> Result<JoinIndex, AllocError>
    requires range { InRange facts.now }
    requires sets { AreSets facts.now sets.now }
    requires hierarchy { IsHierarchyOf facts.now hier.now }
    ensures { IfOk result (IsIndexOf facts.now sets.now) }
{
    let asked = Asked {
        facts,
        pt: sets,
        hier,
    };
    join_index(alloc, &asked)
}

/// Makes the edits and undos one after the other, and gives the lines of those that are refused. What takes
/// an edit back is kept until then, and no hierarchy but the present one.
///
/// `AllocError` comes where memory is short; the edits up to then are made.
pub fn run_edits(
    alloc: Global,
    hier: &mut Hier,
    facts: &Facts,
    sets: &PointsTo,
    lines: &[Line],
) -> Result<Vec<u8>, AllocError>
    requires range { InRange facts.now }
    requires sets { AreSets facts.now sets.now }
    requires hierarchy { IsHierarchyOf facts.now hier.old }
    requires meets { MeetsEdit facts.now sets.now hier.old }
    requires some { All (λ line. ActNamesSome line.act) lines.now }
    ensures hierarchy { OnOk result (hier.new ≡ after_edits facts.now sets.now hier.old lines.now) }
    ensures refusals { IfOk result (λ refusals. refusals.items ≡ refusals_of facts.now sets.now hier.old lines.now) }
    ensures editable { OnOk result (IsEditable facts.now sets.now hier.new) }
{
    let index = index_of(alloc, hier, facts, sets)?;
    let mut undos = Vec::new(alloc);
    let mut refusals = Vec::new(alloc);
    for line in lines {
        let refusal = run_act(alloc, hier, &mut undos, facts, sets, &index, line)?;
        refusals.extend_from_slice(refusal.as_bytes())?;
    }
    Ok(refusals)
}
