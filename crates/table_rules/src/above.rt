//! The classes at or above the class of each column.

ghost use Rattle.std.specs.Prelude.{◌≡◌, ℕ, ◌<◌, length, IfOk};
ghost use Rattle.fact_model.specs.InRange.{InRange};
ghost use Rattle.table_rules.specs.Above.{AreAbove};

use crate::Tried;
use fact_model::Facts;
use kaba_bits::BitRow;
use points_to::classes_above;
use std::alloc::Global;

/// For each column the classes at or above its class. An error comes only for want of memory.
pub fn above_of(alloc: Global, facts: &Facts) -> Tried<Vec<BitRow>>
    requires { InRange facts.now }
    ensures { IfOk result (λ v. AreAbove facts.now (length facts.now.columns.items) v.items) }
{
    let mut rows = Vec::new(alloc);
    for d in 0..facts.columns.len() {
        rows.push(classes_above(alloc, facts, facts.columns[d].class)?)?;
    }
    Ok(rows)
}
