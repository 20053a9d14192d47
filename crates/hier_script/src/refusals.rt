//! The line of an edit, or of an undo, that was refused.
#![tactic(auto)]

ghost use Rattle.std.specs.Prelude.{◌≡◌, ◌≢◌, ◌++◌, IfOk, string_bytes};
ghost use Rattle.std.specs.Fmt.{decimal};
ghost use Rattle.hier_edit.specs.declared.ApplyFault.TheVariants as ApplyFault;
ghost use Rattle.hier_script.specs.Refusals.{rule_text, nodes_text, some_row_text, some_column_text, broken_text, fault_text, refusal_line, no_undo_line};

use hier_edit::ApplyFault;
use hier_rules::{Broken, Nodes, Rule};
use kaba_base::{ColId, RowId};
use std::alloc::{AllocError, Global};

/// The name of an obligation.
fn rule_text(rule: Rule) -> &'static str
    ensures { result.now ≡ rule_text rule }
{
    match rule {
        Rule::B1 => "B1",
        Rule::B2 => "B2",
        Rule::B3 => "B3",
        Rule::B4 => "B4",
        Rule::B5 => "B5",
        Rule::B6 => "B6",
        Rule::B7 => "B7",
        Rule::B8 => "B8",
        Rule::B9 => "B9",
    }
}

/// A number behind a word.
fn numbered(alloc: Global, word: &str, number: u32) -> Result<String, AllocError>
    ensures { IfOk result (λ text. string_bytes text ≡ word.now ++ decimal number) }
{
    format!(in alloc; "{word}{number}")
}

/// The nodes of an instance.
fn nodes_text(alloc: Global, nodes: Nodes) -> Result<String, AllocError>
    ensures { IfOk result (λ text. string_bytes text ≡ nodes_text nodes) }
{
    match nodes {
        Nodes::One(a) => numbered(alloc, "n", a.0),
        Nodes::Two(a, b) => {
            let (a, b) = (a.0, b.0);
            format!(in alloc; "n{a} n{b}")
        }
        Nodes::Three(a, b, c) => {
            let (a, b, c) = (a.0, b.0, c.0);
            format!(in alloc; "n{a} n{b} n{c}")
        }
    }
}

/// The row of an instance, where there is one.
fn row_text(alloc: Global, row: Option<RowId>) -> Result<String, AllocError>
    ensures { IfOk result (λ text. string_bytes text ≡ some_row_text row) }
{
    match row {
        None => String::from_str(alloc, "-"),
        Some(row) => numbered(alloc, "r", row.0),
    }
}

/// The column of an instance, where there is one.
fn column_text(alloc: Global, column: Option<ColId>) -> Result<String, AllocError>
    ensures { IfOk result (λ text. string_bytes text ≡ some_column_text column) }
{
    match column {
        None => String::from_str(alloc, "-"),
        Some(column) => numbered(alloc, "c", column.0),
    }
}

/// What is broken, and where. An error comes only for want of memory.
pub fn broken_text(alloc: Global, broken: Broken) -> Result<String, AllocError>
    ensures { IfOk result (λ text. string_bytes text ≡ broken_text broken) }
{
    let rule = rule_text(broken.rule);
    let nodes = nodes_text(alloc, broken.nodes)?;
    let row = row_text(alloc, broken.row)?;
    let column = column_text(alloc, broken.column)?;
    format!(in alloc; "breaks {rule} nodes {nodes} row {row} column {column}")
}

/// Why an edit is refused.
fn fault_text(alloc: Global, fault: ApplyFault) -> Result<String, AllocError>
    ensures { IfOk result (λ text. string_bytes text ≡ fault_text fault) }
{
    match fault {
        ApplyFault::UnknownNode(node) => numbered(alloc, "unknown node n", node.0),
        ApplyFault::UnknownMember(column) => numbered(alloc, "unknown member c", column.0),
        ApplyFault::NotEmpty(node) => numbered(alloc, "not empty n", node.0),
        ApplyFault::Breaks(broken) => broken_text(alloc, broken),
        ApplyFault::Memory => Ok(String::new(alloc)),
    }
}

/// The line of a refused edit.
pub fn refusal_line(alloc: Global, number: u32, fault: ApplyFault) -> Result<String, AllocError>
    ensures { IfOk result (λ text. string_bytes text ≡ refusal_line number fault) }
{
    let why = fault_text(alloc, fault)?;
    format!(in alloc; "edit {number}: {why}\n")
}

/// The line of an undo where nothing is to be taken back.
pub fn no_undo_line(alloc: Global, number: u32) -> Result<String, AllocError>
    ensures { IfOk result (λ text. string_bytes text ≡ no_undo_line number) }
{
    format!(in alloc; "edit {number}: nothing to undo\n")
}
