//! The numbers of the rows, the columns and the sites of a program.

ghost use Rattle.std.specs.Prelude.{◌≡◌, ◌<◌, length, slice_get};
ghost use Rattle.flow_rules.specs.Operands.{variable_row, result_in};
ghost use Rattle.java_core.specs.Programs.{code_seen};

use flow_rules::{ColumnItem, RowItem};
use indexmap::IndexSet;
use java_core::Code;
use kaba_base::Name;

/// The items of the rows and of the columns, and the numbers of the creations that are sites, each in their order.
#[derive(Drop)]
pub struct Numbering {
    /// The items of the rows: fewer than 2 ^ 32 - 1.
    pub rows: IndexSet<RowItem>,
    /// The items of the columns: fewer than 2 ^ 32 - 1.
    pub columns: IndexSet<ColumnItem>,
    /// The numbers of the creations that are sites: fewer than 2 ^ 32 - 1.
    pub sites: IndexSet<u64>,
    /// The names of the methods that make the objects of the sites; where there is none, a name without characters.
    pub makes: Vec<Name>,
    ghost few_rows: { length rows.keys < 4294967295 },
    ghost few_columns: { length columns.keys < 4294967295 },
    ghost few_sites: { length sites.keys < 4294967295 },
}

impl Numbering {
    /// The item of a column; `None` for a number of none.
    pub fn item(&self, column: u32) -> Option<ColumnItem>
        ensures value { result ≡ slice_get self.now.columns.keys column }
    {
        match self.columns.get_index(column as usize) {
            Some(item) => Some(*item),
            None => None,
        }
    }

    /// The number of the creation that a site is; `None` for a number of none.
    pub fn creation(&self, site: u32) -> Option<u64>
        ensures value { result ≡ slice_get self.now.sites.keys site }
    {
        match self.sites.get_index(site as usize) {
            Some(number) => Some(*number),
            None => None,
        }
    }
}

/// The row of a parameter or a local: a parameter of an instance method is one of its slot.
pub fn variable_row(m: u64, code: &Code, number: u64) -> RowItem
    ensures value { result ≡ variable_row m (code_seen code.now) number }
{
    match code.slot {
        Some(slot) if number < code.params.len() as u64 => RowItem::Param(slot as u64, number),
        _ => RowItem::Local(m, number),
    }
}

/// The row of what a body gives back: that of an instance method is its slot's.
pub fn result_row(m: u64, code: &Code) -> RowItem
    ensures value { result ≡ result_in (code_seen code.now).slot m }
{
    match code.slot {
        Some(slot) => RowItem::Return(slot as u64),
        None => RowItem::Result(m),
    }
}
