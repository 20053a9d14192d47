//! The lines.

ghost use Rattle.std.specs.Prelude.{◌≡◌, ◌++◌, map, IfOk, OnOk, string_bytes};
ghost use Rattle.lattice_view.specs.Text.{concept_text, concepts_text, lattice_text};

use crate::Tried;
use crate::lists::add_part;
use fact_model::{Concept, Lattice};
use kaba_base::{ColId, RowId};
use std::alloc::Global;

/// The lines.
pub fn lattice_text(alloc: Global, lattice: &Lattice) -> Tried<String>
    ensures { IfOk result (λ s. string_bytes s ≡ lattice_text lattice.now) }
{
    let count = lattice.concepts.len();
    let mut text = String::new(alloc);
    write!(text, "concepts {count}\n")?;
    add_concepts(alloc, &mut text, &lattice.concepts)?;
    Ok(text)
}

/// Adds the lines of concepts.
fn add_concepts(alloc: Global, text: &mut String, concepts: &[Concept]) -> Tried<()>
    ensures { OnOk result (string_bytes text.new ≡ string_bytes text.old ++ concepts_text 0 concepts.now) }
{
    for k in 0..concepts.len() {
        add_concept(alloc, text, k, &concepts[k])?;
    }
    Ok(())
}

/// Adds the line of one concept.
fn add_concept(alloc: Global, text: &mut String, k: usize, concept: &Concept) -> Tried<()>
    ensures { OnOk result (string_bytes text.new ≡ string_bytes text.old ++ concept_text k concept.now) }
{
    let columns = column_numbers(alloc, &concept.columns)?;
    let rows = row_numbers(alloc, &concept.rows)?;
    let size = concept.extent.count();
    let width = concept.intent.count();
    write!(text, "k{k} {size} {width}")?;
    add_part(text, " columns:", "c", &columns)?;
    add_part(text, " rows:", "r", &rows)?;
    add_part(text, " above:", "k", &concept.above)?;
    text.push_str("\n")?;
    Ok(())
}

/// The numbers of columns.
pub fn column_numbers(alloc: Global, columns: &[ColId]) -> Tried<Vec<u32>>
    ensures { IfOk result (λ v. v.items ≡ map (λ c. c.0) columns.now) }
{
    columns.iter().map(|c| c.0).collect(alloc)
}

/// The numbers of rows.
pub fn row_numbers(alloc: Global, rows: &[RowId]) -> Tried<Vec<u32>>
    ensures { IfOk result (λ v. v.items ≡ map (λ r. r.0) rows.now) }
{
    rows.iter().map(|r| r.0).collect(alloc)
}
