//! The lines of a table.

ghost use Rattle.std.specs.Prelude.{◌≡◌, ◌++◌, ◌<◌, IfOk, OnOk, length, string_bytes};
ghost use Rattle.std.specs.Str.{encode_utf8_all};
ghost use Rattle.lattice_view.specs.Table.{marks_text, row_text, rows_text, column_text, columns_text, table_text};

use crate::Tried;
use fact_model::{ColumnInfo, Facts, RowInfo, Table};
use kaba_bits::BitRow;
use std::alloc::Global;

/// The lines.
pub fn table_text(alloc: Global, facts: &Facts, table: &Table) -> Tried<String>
    requires rows { length table.now.rows.items ≡ length facts.now.rows.items }
    ensures { IfOk result (λ s. string_bytes s ≡ table_text facts.now table.now) }
{
    let rows = facts.rows.len();
    let columns = facts.columns.len();
    let mut text = String::new(alloc);
    write!(text, "rows {rows}\n")?;
    add_rows(alloc, &mut text, &facts.rows, &table.rows)?;
    write!(text, "columns {columns}\n")?;
    add_columns(&mut text, &facts.columns)?;
    Ok(text)
}

/// Adds the lines of rows.
fn add_rows(alloc: Global, text: &mut String, rows: &[RowInfo], sets: &[BitRow]) -> Tried<()>
    requires rows { length sets.now ≡ length rows.now }
    ensures { OnOk result (string_bytes text.new ≡ string_bytes text.old ++ rows_text 0 rows.now sets.now) }
{
    for k in 0..rows.len() {
        add_row(alloc, text, k, &rows[k], &sets[k])?;
    }
    Ok(())
}

/// Adds the line of one row.
fn add_row(alloc: Global, text: &mut String, k: usize, row: &RowInfo, set: &BitRow) -> Tried<()>
    ensures { OnOk result (string_bytes text.new ≡ string_bytes text.old ++ row_text k row.now set.now) }
{
    let columns = set.rising(alloc)?;
    let label = row.label.as_str();
    write!(text, "r{k} {label}:")?;
    add_marks(text, &columns)?;
    text.push_str("\n")?;
    Ok(())
}

/// Adds the columns of a row.
fn add_marks(text: &mut String, columns: &[u32]) -> Tried<()>
    ensures { OnOk result (string_bytes text.new ≡ string_bytes text.old ++ marks_text columns.now) }
{
    for column in columns {
        write!(text, " c{column}")?;
    }
    Ok(())
}

/// Adds the lines of columns.
fn add_columns(text: &mut String, columns: &[ColumnInfo]) -> Tried<()>
    ensures { OnOk result (string_bytes text.new ≡ string_bytes text.old ++ columns_text 0 columns.now) }
{
    for k in 0..columns.len() {
        add_column(text, k, &columns[k])?;
    }
    Ok(())
}

/// Adds the line of one column.
fn add_column(text: &mut String, k: usize, column: &ColumnInfo) -> Tried<()>
    ensures { OnOk result (string_bytes text.new ≡ string_bytes text.old ++ column_text k column.now) }
{
    let label = column.label.as_str();
    write!(text, "c{k} {label}\n")?;
    Ok(())
}
