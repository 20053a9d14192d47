//! The numbers of items: their places in a list that has each of them once.

ghost use Rattle.std.specs.Prelude.{◌≡◌, ◌<◌, length};
ghost use Rattle.flow_rules.specs.Numbered.{number_among, same_row, same_column};

use crate::items::{ColumnItem, RowItem};
use indexmap::IndexSet;
use std::hash::Hash;

/// The number of an item among others, from 0; `None` where it is none of them.
pub fn number_among<K: Eq + Hash + Copy>(keys: &IndexSet<K>, item: K) -> Option<u32>
    requires { length keys.now.keys < 4294967295 }
    ensures value { result ≡ number_among K.eq keys.now.keys item }
{
    match keys.get_index_of(&item) {
        Some(number) => Some(number as u32),
        None => None,
    }
}

/// The number of a row, from 0; `None` where no row has the item.
pub fn number_of_row(rows: &IndexSet<RowItem>, item: RowItem) -> Option<u32>
    requires { length rows.now.keys < 4294967295 }
    ensures value { result ≡ number_among same_row rows.now.keys item }
{
    number_among(rows, item)
}

/// The number of a column, from 0; `None` where no column has the item.
pub fn number_of_column(columns: &IndexSet<ColumnItem>, item: ColumnItem) -> Option<u32>
    requires { length columns.now.keys < 4294967295 }
    ensures value { result ≡ number_among same_column columns.now.keys item }
{
    number_among(columns, item)
}
