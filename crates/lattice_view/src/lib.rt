//! The text of a table, the two texts of a concept lattice (lines to read, and one line of JSON), and lists of numbers in a line.
#![tactic(auto)]

ghost use Rattle.std.specs.Prelude.{◌≡◌, ◌++◌, OnOk, OnErr, length, string_bytes};
ghost use Rattle.lattice_view.specs.Table.{table_text};
ghost use Rattle.lattice_view.specs.Text.{lattice_text};
ghost use Rattle.lattice_view.specs.Json.{lattice_json};

mod json;
mod lists;
mod table;
mod text;

use fact_model::{Facts, Lattice, Table};
use json::line_of;
pub use lists::add_part;
use std::alloc::{AllocError, Global};
use table::table_text;
use text::lattice_text;

/// What was made, or that memory was short.
type Tried<T> = Result<T, AllocError>;

/// Appends the table: the count of rows and for each a line `rI LABEL:` with ` cJ` for each of its
/// columns, and then the count of columns and for each a line `cI LABEL`.
/// An error comes only for want of memory, and then nothing was appended.
pub fn show_table(alloc: Global, facts: &Facts, table: &Table, into: &mut Vec<u8>) -> Tried<()>
    requires rows { length table.now.rows.items ≡ length facts.now.rows.items }
    ensures text { OnOk result (into.new.items ≡ into.old.items ++ table_text facts.now table.now) }
    ensures same { OnErr result (into.new.items ≡ into.old.items) }
{
    let text = table_text(alloc, facts, table)?;
    append(into, &text)
}

/// Appends the count of the concepts, and for each a line: `kI SIZE WIDTH columns: .. rows: .. above: ..`
/// with the sizes of extent and intent, the columns and rows that stand there, and the upper covers.
/// An error comes only for want of memory, and then nothing was appended.
pub fn show_text(alloc: Global, lattice: &Lattice, into: &mut Vec<u8>) -> Tried<()>
    ensures text { OnOk result (into.new.items ≡ into.old.items ++ lattice_text lattice.now) }
    ensures same { OnErr result (into.new.items ≡ into.old.items) }
{
    let text = lattice_text(alloc, lattice)?;
    append(into, &text)
}

/// Appends the lattice as one line of JSON: the labels of the columns and of the rows, and for each
/// concept the numbers of its upper covers, the columns and rows that stand there, and the size of
/// its extent. An error comes only for want of memory, and then nothing was appended.
pub fn show_json(alloc: Global, facts: &Facts, lattice: &Lattice, into: &mut Vec<u8>) -> Tried<()>
    ensures text { OnOk result (into.new.items ≡ into.old.items ++ lattice_json facts.now lattice.now) }
    ensures same { OnErr result (into.new.items ≡ into.old.items) }
{
    let text = line_of(alloc, facts, lattice)?;
    append(into, &text)
}

/// Appends a text, or nothing where memory is short.
fn append(into: &mut Vec<u8>, text: &String) -> Tried<()>
    ensures text { OnOk result (into.new.items ≡ into.old.items ++ string_bytes text.now) }
    ensures same { OnErr result (into.new.items ≡ into.old.items) }
{
    into.extend_from_slice(text.as_bytes())?;
    Ok(())
}
