//! Lists of columns, each once: those that are known, and those of the concepts in their order.

ghost use Rattle.std.specs.Prelude.{◌≡◌, IfOk};
ghost use Rattle.concept_build.specs.Lists.{lists_of, columns_of, AreDifferent, IsAddition, IsListFound};

use crate::Tried;
use crate::item::Item;
use indexmap::IndexSet;
use std::alloc::Global;

/// Whether a list of columns is new among those known, where it then is the last.
pub fn is_new(known: &mut IndexSet<Vec<u32>>, columns: Vec<u32>) -> Tried<bool>
    ensures { IfOk result (λ b. IsAddition (lists_of known.old.keys) columns.items (lists_of known.new.keys) b) }
{
    let (_, added) = known.insert_full(columns)?;
    Ok(added)
}

/// The lists of columns of the concepts, in their order.
pub fn places_of(alloc: Global, items: &[Item]) -> Tried<IndexSet<Vec<u32>>>
    requires { AreDifferent (columns_of items.now) }
    ensures { IfOk result (λ s. lists_of s.keys ≡ columns_of items.now) }
{
    let mut places = IndexSet::new(alloc);
    for item in items {
        let mut columns = Vec::new(alloc);
        columns.extend_from_slice(item.columns())?;
        is_new(&mut places, columns)?;
    }
    Ok(places)
}

/// Where a list of columns stands.
pub fn place_of_columns(places: &IndexSet<Vec<u32>>, columns: &[u32]) -> Option<usize>
    ensures { IsListFound (lists_of places.now.keys) columns.now result }
{
    places.get_index_of(columns)
}
