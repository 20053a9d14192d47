//! The line of JSON.

ghost use Rattle.std.specs.Prelude.{◌≡◌, ◌++◌, ℕ, List, false, map, codes, IfOk, string_bytes};
ghost use Rattle.serde_json.specs.Data.{array};
ghost use Rattle.serde_json.specs.View.{view, items_of};
ghost use Rattle.serde_json.specs.Written.{has_float, compact_text};
ghost use Rattle.lattice_view.specs.Json.{numbers_data, names_data, concept_parts, concept_data, lattice_parts, lattice_data, lattice_json};

use crate::Tried;
use crate::text::{column_numbers, row_numbers};
use fact_model::{ColumnInfo, Concept, Facts, Lattice, RowInfo};
use kaba_base::Name;
use serde_json::{Value, json};
use std::alloc::Global;

/// The line.
pub fn line_of(alloc: Global, facts: &Facts, lattice: &Lattice) -> Tried<String>
    ensures { IfOk result (λ s. string_bytes s ≡ lattice_json facts.now lattice.now) }
{
    let value = lattice_value(alloc, facts, lattice)?;
    in_one_line(alloc, &value)
}

/// A value in one line.
fn in_one_line(alloc: Global, value: &Value) -> Tried<String>
    requires { has_float (view value.now) ≡ false }
    ensures { IfOk result (λ s. string_bytes s ≡ compact_text (view value.now) ++ codes "\n") }
{
    let mut text = value.to_string(alloc)?;
    text.push_str("\n")?;
    Ok(text)
}

/// The lattice as a value.
fn lattice_value(alloc: Global, facts: &Facts, lattice: &Lattice) -> Tried<Value>
    ensures { IfOk result (λ v. view v ≡ lattice_data facts.now lattice.now) }
{
    let columns = labels_value(alloc, &facts.columns)?;
    let concepts = concepts_value(alloc, &lattice.concepts)?;
    let rows = labels_value(alloc, &facts.rows)?;
    let value = lattice_object(alloc, columns, concepts, rows)?;
    Ok(value)
}

fn lattice_object(alloc: Global, columns: Value, concepts: Value, rows: Value) -> Tried<Value>
    ensures { IfOk result (λ v. view v ≡ lattice_parts (view columns) (view concepts) (view rows)) }
{
    json!(in alloc; {"columns": columns, "concepts": concepts, "rows": rows})
}

/// What has a label: a column or a row.
trait Labelled {
    ghost label: { Self → List ℕ };

    /// Its label.
    fn label(&self) -> &Name
        ensures value { result.now ≡ label self.now };
}

impl Labelled for ColumnInfo {
    ghost label = { λ c. c.label };

    fn label(&self) -> &Name {
        &self.label
    }
}

impl Labelled for RowInfo {
    ghost label = { λ r. r.label };

    fn label(&self) -> &Name {
        &self.label
    }
}

/// The labels.
fn labels_value<T: Labelled>(alloc: Global, items: &Vec<T>) -> Tried<Value>
    ensures { IfOk result (λ v. view v ≡ names_data (map T.label items.now.items)) }
{
    let mut names = Vec::new(alloc);
    for item in items {
        names.push(Value::try_from_str(alloc, item.label().as_str())?)?;
    }
    Ok(Value::Array(names))
}

/// The concepts.
fn concepts_value(alloc: Global, concepts: &[Concept]) -> Tried<Value>
    ensures { IfOk result (λ v. view v ≡ array (items_of (map concept_data concepts.now))) }
{
    let mut values = Vec::new(alloc);
    for k in 0..concepts.len() {
        values.push(concept_value(alloc, &concepts[k])?)?;
    }
    Ok(Value::Array(values))
}

/// A concept.
fn concept_value(alloc: Global, concept: &Concept) -> Tried<Value>
    ensures { IfOk result (λ v. view v ≡ concept_data concept.now) }
{
    let above = numbers_value(alloc, &concept.above)?;
    let columns = numbers_value(alloc, &column_numbers(alloc, &concept.columns)?)?;
    let rows = numbers_value(alloc, &row_numbers(alloc, &concept.rows)?)?;
    let value = concept_object(alloc, above, columns, rows, concept.extent.count())?;
    Ok(value)
}

fn concept_object(
    alloc: Global,
    above: Value,
    columns: Value,
    rows: Value,
    size: u32,
) -> Tried<Value>
    ensures { IfOk result (λ v. view v ≡ concept_parts (view above) (view columns) (view rows) size) }
{
    json!(in alloc; {"above": above, "columns": columns, "rows": rows, "size": size})
}

/// A list of numbers.
fn numbers_value(alloc: Global, numbers: &[u32]) -> Tried<Value>
    ensures { IfOk result (λ v. view v ≡ numbers_data numbers.now) }
{
    let mut values = Vec::new(alloc);
    for number in numbers {
        values.push(Value::from(*number))?;
    }
    Ok(Value::Array(values))
}
