//! What a body sees of the declarations.
#![tactic(auto)]

ghost use Rattle.std.specs.Prelude.{◌≡◌, ℕ, None, nat_eq};
ghost use Rattle.std.specs.Option.{option_map_or};
ghost use Rattle.indexmap.specs.IndexMap.{get, index_map_len};
ghost use Rattle.name_laws.specs.Tables.{parent_of, own_field, nearest_field, own_method, method_met};
ghost use Rattle.name_bodies.specs.Views.{table_of};

use crate::declarations::Tables;
use crate::met::{blocks_under, met_among};
use indexmap::IndexMap;
use kaba_base::{ClassId, Name};

/// The superclass of a class.
pub fn parent_of(parents: &[Option<ClassId>], class: u32) -> Option<ClassId>
    ensures { result ≡ parent_of parents.now class }
{
    match parents.get(class as usize) {
        Some(parent) => *parent,
        None => None,
    }
}

/// The number of the field of a name that a class itself declares.
pub fn own_field(tables: &Tables, class: u32, name: &Name) -> Option<usize>
    ensures { result ≡ own_field (table_of tables.now) class name.now }
{
    match tables.declared.own_fields.at(class, name) {
        Some(number) => Some(number as usize),
        None => None,
    }
}

/// The number under a class among those of one name: of one entry that is compared, of more it is looked up.
fn number_under(numbers: &IndexMap<u32, u32>, class: u32) -> Option<u32>
    ensures { result ≡ get nat_eq numbers.now class }
{
    if numbers.len() == 1 {
        return only_under(numbers, class);
    }
    numbers.get(&class).copied()
}

/// The same of one entry.
fn only_under(numbers: &IndexMap<u32, u32>, class: u32) -> Option<u32>
    requires { index_map_len numbers.now ≡ 1 }
    ensures { result ≡ get nat_eq numbers.now class }
{
    match numbers.get_index(0) {
        Some((one, number)) if *one == class => Some(*number),
        _ => None,
    }
}

/// The numbers of the fields of a name, by their classes; `None` where there are none.
fn fields_named<'a>(tables: &'a Tables, name: &Name) -> Option<&'a IndexMap<u32, u32>>
    ensures { (c : ℕ) → option_map_or (λ m. get nat_eq m.now c) result None ≡ own_field (table_of tables.now) c name.now }
{
    tables.declared.own_fields.named(name)
}

/// The number of the nearest field of a name upwards, found class by class.
#[tactic(auto, unfolding(name_laws::specs::Tables::nearest_field))]
fn walked_field(tables: &Tables, class: u32, name: &Name) -> Option<usize>
    ensures { result ≡ nearest_field (table_of tables.now) class name.now }
{
    let Some(numbers) = fields_named(tables, name) else {
        return None;
    };
    let mut at = class;
    for _step in &tables.parents {
        match number_under(numbers, at) {
            Some(field) => return Some(field as usize),
            None => match parent_of(tables.parents.as_slice(), at) {
                Some(parent) => at = parent.0,
                None => return None,
            },
        }
    }
    match number_under(numbers, at) {
        Some(field) => Some(field as usize),
        None => None,
    }
}

/// The number of a field, if there is one.
fn widened(at: Option<u32>) -> Option<usize>
    ensures { result ≡ at }
{
    match at {
        Some(at) => Some(at as usize),
        None => None,
    }
}

/// The number of the nearest field of a name upwards.
#[tactic(auto, unfolding(name_laws::specs::Tables::nearest_field))]
pub fn nearest_field(tables: &Tables, class: u32, name: &Name) -> Option<usize>
    ensures { result ≡ nearest_field (table_of tables.now) class name.now }
{
    let own = own_field(tables, class, name);
    if own.is_some() {
        return own;
    }
    match tables.field_tables.nearest_above(
        &tables.parents,
        &tables.declared.fields,
        class as usize,
        name,
    ) {
        Some(at) => widened(at),
        None => walked_field(tables, class, name),
    }
}

/// The number of the method of a name that a class itself declares.
#[tactic(auto, unfolding(name_laws::specs::Tables::own_method))]
pub fn own_method(tables: &Tables, class: u32, name: &Name) -> Option<usize>
    ensures { result ≡ own_method (table_of tables.now) class name.now }
{
    match tables.declared.own_methods.at(class, name) {
        Some(number) => Some(number as usize),
        None => None,
    }
}

/// The number of the first method of a name in a class and its ancestors.
#[tactic(auto, unfolding(name_laws::specs::Tables::method_met))]
pub fn method_met(tables: &Tables, class: u32, name: &Name) -> Option<usize>
    ensures { result ≡ method_met (table_of tables.now) class name.now }
{
    let list = tables.declared.method_spots.at(name);
    met_among(
        &tables.above,
        &tables.declared.headings,
        list,
        blocks_under(&tables.blocks, list),
        class,
    )
}
