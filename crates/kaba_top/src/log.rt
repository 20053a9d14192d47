//! The lines that tell the steps towards a tree, and where they end at a conflict.
#![tactic(auto)]

ghost use Rattle.std.specs.Prelude.{◌≡◌, IfOk, string_bytes};
ghost use Rattle.kaba_top.specs.Logs.{conflict_text, log_line, log_text, no_tree_text};

use hier_script::broken_text;
use hier_view::add_edit;
use std::alloc::{AllocError, Global};
use tree_merge::{Conflict, NoTree, TreeStep};

/// The three nodes of a conflict.
fn conflict_text(alloc: Global, conflict: Conflict) -> Result<String, AllocError>
    ensures { IfOk result (λ text. string_bytes text ≡ conflict_text conflict) }
{
    let lower = conflict.lower.0;
    let first = conflict.first.0;
    let second = conflict.second.0;
    format!(in alloc; "n{lower} n{first} n{second}")
}

/// The line of a step: its conflict, and its edit as a script has it. An error comes only for want
/// of memory.
fn log_line(alloc: Global, step: &TreeStep) -> Result<String, AllocError>
    ensures { IfOk result (λ text. string_bytes text ≡ log_line step.now) }
{
    let conflict = conflict_text(alloc, step.conflict)?;
    let mut text = format!(in alloc; "tree {conflict}: ")?;
    add_edit(&mut text, &step.edit)?;
    text.push_str("\n")?;
    Ok(text)
}

/// The lines of a log. An error comes only for want of memory.
pub fn log_text(alloc: Global, log: &[TreeStep]) -> Result<String, AllocError>
    ensures { IfOk result (λ text. string_bytes text ≡ log_text log.now) }
{
    let mut text = String::new(alloc);
    for step in log {
        let line = log_line(alloc, step)?;
        text.push_str(line.as_str())?;
    }
    Ok(text)
}

/// What a conflict is told by of which no try is accepted: its nodes, and what its last try breaks.
/// An error comes only for want of memory.
pub fn no_tree_text(alloc: Global, fault: &NoTree) -> Result<String, AllocError>
    ensures { IfOk result (λ text. string_bytes text ≡ no_tree_text fault.now) }
{
    let conflict = conflict_text(alloc, fault.conflict)?;
    let broken = broken_text(alloc, fault.broken)?;
    format!(in alloc; "no tree: {conflict} {broken}")
}
