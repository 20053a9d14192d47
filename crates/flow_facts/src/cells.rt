//! The cells: the fields of the objects of each site, and the elements of its arrays.

ghost use Rattle.std.specs.Prelude.{◌≡◌, ℕ, suc, ◌==◌, ◌<◌, ◌≤◌, ◌++◌, ◌∷◌, [], Some, IfOk, IfSome, MatchOption, OnOk, length, map};
ghost use Rattle.std.specs.List.{flat_map};
ghost use Rattle.flow_rules.specs.Ordered.{when};
ghost use Rattle.flow_rules.specs.Facts.{field_at, fields_of, site_cells};
ghost use Rattle.flow_facts.specs.Owned.{AreFieldsListed, own_of, own_at, upwards, cell_of};
ghost use Rattle.flow_facts.specs.Seen.{field_cell_seen};
ghost use Rattle.flow_facts.specs.Words.{program_of, IsFormed, each, numbers_seen, if_there};

use crate::Tried;
use crate::given::Given;
use crate::infos::owner_of;
use crate::lists::put_if;
use crate::ordered::by_place;
use fact_model::CellInfo;
use flow_rules::{Column, ColumnItem, RowItem, Site};
use java_core::{Program, parent_of};
use kaba_base::{ClassId, ColId, RowId, SiteId, put};
use std::alloc::Global;

/// A field that has a row: its column, its row and its class.
#[derive(Clone, Copy)]
pub struct FieldCell {
    pub column: u32,
    pub row: u32,
    pub owner: ClassId,
}

/// The field of a column, where it is one that has a row.
fn field_of(given: &Given, c: u32, item: ColumnItem) -> Option<FieldCell>
    ensures value { if_there field_cell_seen result
        ≡ field_at (numbers_seen given.now.numbering.now) (program_of given.now.program.now) c item }
{
    match item {
        ColumnItem::Fld(field) => match given.numbering.row(RowItem::Field(field)) {
            Some(row) => {
                let (column, owner) = (c, owner_of(given.program, item));
                Some(FieldCell { column, row, owner })
            }
            None => None,
        },
        _ => None,
    }
}

/// The fields that have a row, in the order of their columns.
pub fn fields_of(given: &Given, columns: &Vec<Column>) -> Tried<Vec<FieldCell>>
    requires { length columns.now.items < 4294967295 }
    ensures value { IfOk result (λ v. map field_cell_seen v.items
        ≡ fields_of (numbers_seen given.now.numbering.now) (program_of given.now.program.now) columns.now.items) }
{
    let mut fields = Vec::new(given.alloc);
    for (c, column) in columns.iter().enumerate() {
        made!(put_if(&mut fields, field_of(given, c as u32, column.item)));
    }
    Ok(fields)
}

/// Empty lists, one for each class.
fn no_fields(alloc: Global, count: usize) -> Tried<Vec<Vec<FieldCell>>>
    ensures count { IfOk result (λ v. length v.items ≡ count) }
    ensures empty { IfOk result (λ v. (c : ℕ) → own_at v.items c ≡ []) }
{
    let mut own = Vec::new(alloc);
    for class in 0..count {
        let _ = class;
        made!(put(&mut own, Vec::new(alloc)));
    }
    Ok(own)
}

/// Adds a field to those of its class.
fn add_own(own: &mut Vec<Vec<FieldCell>>, field: FieldCell) -> Tried<()>
    requires { field.owner.0 < length own.old.items }
    ensures count { OnOk result (length own.new.items ≡ length own.old.items) }
    ensures value { OnOk result ((c : ℕ) → own_at own.new.items c ≡ own_at own.old.items c ++ when (c == field.owner.0) (field_cell_seen field ∷ [])) }
{
    put(&mut own[field.owner.0 as usize], field)
}

/// The fields of each class itself, in the order of their columns.
fn fields_by_class(
    alloc: Global,
    program: &Program,
    fields: &Vec<FieldCell>,
) -> Tried<Vec<Vec<FieldCell>>>
    requires { AreFieldsListed (program_of program.now) 0 (map field_cell_seen fields.now.items) }
    ensures { IfOk result (λ v. (c : ℕ) → own_at v.items c ≡ own_of (map field_cell_seen fields.now.items) c) }
{
    let mut own = made!(no_fields(alloc, program.classes.len()));
    for field in fields {
        made!(add_own(&mut own, *field));
    }
    Ok(own)
}

/// The fields of one class itself.
fn fields_in(own: &Vec<Vec<FieldCell>>, class: ClassId) -> &[FieldCell]
    ensures value { map field_cell_seen result.now ≡ own_at own.now.items class.0 }
{
    match own.get(class.0 as usize) {
        Some(fields) => fields,
        None => &[],
    }
}

/// Adds fields.
fn add_all(fields: &[FieldCell], found: &mut Vec<FieldCell>) -> Tried<()>
    ensures value { OnOk result (map field_cell_seen found.new.items ≡ map field_cell_seen found.old.items ++ map field_cell_seen fields.now) }
{
    for field in fields {
        made!(put(found, *field));
    }
    Ok(())
}

/// Adds the fields of one class itself.
fn add_fields_of(own: &Vec<Vec<FieldCell>>, class: ClassId, found: &mut Vec<FieldCell>) -> Tried<()>
    ensures value { OnOk result (map field_cell_seen found.new.items ≡ map field_cell_seen found.old.items ++ own_at own.now.items class.0) }
{
    let fields = fields_in(own, class);
    add_all(fields, found)
}

/// The fields of a class and of those above it, the nearest first.
fn fields_above(
    alloc: Global,
    program: &Program,
    own: &Vec<Vec<FieldCell>>,
    class: ClassId,
) -> Tried<Vec<FieldCell>>
    ensures { IfOk result (λ v. map field_cell_seen v.items ≡ upwards (program_of program.now)
        (own_at own.now.items) (suc (length (program_of program.now).classes)) (Some class)) }
{
    let mut found = Vec::new(alloc);
    made!(add_fields_of(own, class, &mut found));
    let mut above = parent_of(program, class);
    for step in 0..program.classes.len() {
        let _ = step;
        match above {
            Some(class) => {
                made!(add_fields_of(own, class, &mut found));
                let next = parent_of(program, class);
                above = next;
            }
            None => return Ok(found),
        }
    }
    Ok(found)
}

/// Adds a cell of an object for each field.
fn add_cells(i: u32, fields: &Vec<FieldCell>, cells: &mut Vec<CellInfo>) -> Tried<()>
    ensures { OnOk result (cells.new.items ≡ cells.old.items ++ flat_map (cell_of i) (map field_cell_seen fields.now.items)) }
{
    for field in fields {
        let (site, column, row) = (SiteId(i), Some(ColId(field.column)), RowId(field.row));
        made!(put(cells, CellInfo { site, column, row }));
    }
    Ok(())
}

/// Adds the cells of a site: those of its objects, or of the elements of its arrays.
fn add_site_cells(
    alloc: Global,
    program: &Program,
    fields: &Vec<FieldCell>,
    own: &Vec<Vec<FieldCell>>,
    i: u32,
    site: &Site,
    cells: &mut Vec<CellInfo>,
) -> Tried<()>
    requires formed { IsFormed (program_of program.now) }
    requires listed { AreFieldsListed (program_of program.now) 0 (map field_cell_seen fields.now.items) }
    requires own { (c : ℕ) → own_at own.now.items c ≡ own_of (map field_cell_seen fields.now.items) c }
    ensures value { OnOk result (cells.new.items ≡ cells.old.items ++ site_cells
        (program_of program.now) (map field_cell_seen fields.now.items) i site.now) }
{
    let _ = fields;
    if site.ty.dim != 0 {
        let (site, row) = (SiteId(i), RowId(site.row));
        let column = None;
        return put(cells, CellInfo { site, column, row });
    }
    let above = made!(fields_above(alloc, program, own, site.ty.class));
    let sorted = made!(by_place(above));
    add_cells(i, &sorted, cells)
}

/// The cells, or none where they are more than `most`.
pub fn cells_of(
    alloc: Global,
    program: &Program,
    fields: &Vec<FieldCell>,
    sites: &Vec<Site>,
    most: usize,
) -> Tried<Option<Vec<CellInfo>>>
    requires formed { IsFormed (program_of program.now) }
    requires listed { AreFieldsListed (program_of program.now) 0 (map field_cell_seen fields.now.items) }
    requires few { length sites.now.items < 4294967295 }
    ensures over { IfOk result (λ o. MatchOption o
        (most < length (each (site_cells (program_of program.now)
        (map field_cell_seen fields.now.items)) 0 sites.now.items)) (λ v. length v.items ≤ most)) }
    ensures value { IfOk result (λ o. IfSome o
        (λ v. v.items ≡ each (site_cells (program_of program.now)
        (map field_cell_seen fields.now.items)) 0 sites.now.items)) }
{
    let own = made!(fields_by_class(alloc, program, fields));
    let mut cells = Vec::new(alloc);
    for (i, site) in sites.iter().enumerate() {
        made!(add_site_cells(alloc, program, fields, &own, i as u32, site, &mut cells));
        if cells.len() > most {
            return Ok(None);
        }
    }
    Ok(Some(cells))
}
