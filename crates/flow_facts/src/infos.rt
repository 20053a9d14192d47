//! The numbered lists of the facts.

ghost use Rattle.std.specs.Prelude.{◌≡◌, ℕ, ◌+◌, ◌<◌, ◌++◌, ◌∷◌, [], List, Option, Some, None, IfOk, OnOk, length, map, slice_get};
ghost use Rattle.std.specs.Option.{option_map, option_map_or};
ghost use Rattle.flow_rules.specs.Facts.{row_info, site_of_row, this_of_row, column_info, kind_of, owner_of, slot_in, name_in, column_name, fixed_names, site_info, field_at, fields_of, field_cell, site_cells, param_points, body_if, column_body, body_seen, class_facts, class_seen, is_holder, variable_names, all_variables};
ghost use Rattle.flow_facts.specs.Fixed.{fixed_seen};
ghost use Rattle.flow_facts.specs.Words.{Plain, program_of, code_seen, IsFormed, each, numbers_seen, if_there};

use crate::Tried;
use crate::by_number::{class_name, field_by_number, method_by_number};
use crate::fixed::{FixedFor, FixedName, name_for};
use crate::given::Given;
use crate::labels::{column_label, row_label};
use crate::lists::put_if;
use crate::makers::is_marked;
use crate::numbering::Numbering;
use fact_model::{BodyInfo, ColKind, ColumnInfo, RowInfo, SiteInfo};
use flow_rules::{Column, ColumnItem, Point, PointItem, Row, RowItem, Site, number_among};
use java_core::{Code, Program};
use kaba_base::{ClassId, ColId, Name, RowId, SiteId, put};
use std::alloc::Global;
use std::mem::drop;

/// The site of a creation's row.
fn site_of_row(n: &Numbering, item: RowItem) -> Option<SiteId>
    ensures value { result ≡ site_of_row (numbers_seen n.now) item }
{
    match item {
        RowItem::New(creation) => match number_among(&n.sites, creation) {
            Some(site) => Some(SiteId(site)),
            None => None,
        },
        _ => None,
    }
}

/// The body whose `this` a row is.
fn this_of_row(n: &Numbering, item: RowItem) -> Option<ColId>
    ensures value { result ≡ this_of_row (numbers_seen n.now) item }
{
    match item {
        RowItem::This(method) => match n.column(ColumnItem::Def(method)) {
            Some(column) => Some(ColId(column)),
            None => None,
        },
        _ => None,
    }
}

/// The rows.
pub fn row_infos(given: &Given, rows: &Vec<Row>) -> Tried<Vec<RowInfo>>
    ensures value { IfOk result (λ v. v.items
        ≡ map (row_info (numbers_seen given.now.numbering.now) (program_of given.now.program.now)) rows.now.items) }
{
    let mut list = Vec::new(given.alloc);
    for row in rows {
        let (class, dim) = (row.ty.class, row.ty.dim);
        let site = site_of_row(given.numbering, row.item);
        let this_of = this_of_row(given.numbering, row.item);
        let label = made!(row_label(given.alloc, given.program, row); list);
        let info = RowInfo {
            label,
            class,
            dim,
            site,
            this_of,
        };
        made!(put(&mut list, info); list);
    }
    Ok(list)
}

/// The kind of a column.
fn kind_of(item: ColumnItem) -> ColKind
    ensures value { result ≡ kind_of item }
{
    match item {
        ColumnItem::Fld(_) => ColKind::Fld,
        ColumnItem::Dcl(_) => ColKind::Dcl,
        ColumnItem::Def(_) => ColKind::Def,
        ColumnItem::Is(_) => ColKind::Is,
    }
}

/// The class that has what a column stands for.
pub fn owner_of(program: &Program, item: ColumnItem) -> ClassId
    ensures value { result.0 ≡ owner_of (program_of program.now) item }
{
    match item {
        ColumnItem::Fld(field) => match field_by_number(program, field) {
            Some(field) => field.owner,
            None => ClassId(0),
        },
        ColumnItem::Dcl(method) | ColumnItem::Def(method) => {
            match method_by_number(program, method) {
                Some(method) => method.owner,
                None => ClassId(0),
            }
        }
        ColumnItem::Is(class) => class,
    }
}

/// The slot of a column.
fn slot_in(program: &Program, item: ColumnItem) -> Option<u32>
    ensures value { result ≡ slot_in (program_of program.now) item }
{
    match item {
        ColumnItem::Dcl(method) | ColumnItem::Def(method) => {
            match method_by_number(program, method) {
                Some(method) => method.slot,
                None => None,
            }
        }
        _ => None,
    }
}

/// The name under which a method's columns stand: that of a constructor is the one that is fixed for its slot.
fn column_name<'a>(fixed: &'a [FixedName], method: &Code<'a>) -> Option<&'a Name>
    ensures value { (P : Plain) → map fixed_seen fixed.now ≡ fixed_names P
        → option_map_or (λ x. x.now) result [] ≡ column_name P (code_seen method.now) }
{
    if is_marked(method.name) {
        return name_for(fixed, FixedFor::Init(method.owner));
    }
    Some(method.name)
}

/// The name of what a column stands for, where it is there.
fn named<'a>(program: &'a Program, fixed: &'a [FixedName], item: ColumnItem) -> Option<&'a Name>
    requires { map fixed_seen fixed.now ≡ fixed_names (program_of program.now) }
    ensures value { option_map_or (λ x. x.now) result [] ≡ name_in (program_of program.now) item }
{
    match item {
        ColumnItem::Fld(field) => match field_by_number(program, field) {
            Some(field) => Some(&field.name),
            None => None,
        },
        ColumnItem::Dcl(method) | ColumnItem::Def(method) => {
            match method_by_number(program, method) {
                Some(method) => column_name(fixed, &method),
                None => None,
            }
        }
        ColumnItem::Is(class) => class_name(program, class.0 as u64),
    }
}

/// The name of what a column stands for.
fn name_in(alloc: Global, program: &Program, fixed: &[FixedName], item: ColumnItem) -> Tried<Name>
    requires { map fixed_seen fixed.now ≡ fixed_names (program_of program.now) }
    ensures value { IfOk result (λ x. x ≡ name_in (program_of program.now) item) }
{
    match named(program, fixed, item) {
        Some(name) => name.copy(alloc),
        None => Name::new(alloc, ""),
    }
}

/// The columns, with the names that are fixed for constructors.
pub fn column_infos(
    alloc: Global,
    program: &Program,
    fixed: &[FixedName],
    columns: &Vec<Column>,
) -> Tried<Vec<ColumnInfo>>
    requires { map fixed_seen fixed.now ≡ fixed_names (program_of program.now) }
    ensures value { IfOk result (λ v. v.items ≡ map (λ c. column_info (program_of program.now) c.item) columns.now.items) }
{
    let mut list = Vec::new(alloc);
    for column in columns {
        let item = column.item;
        let kind = kind_of(item);
        let class = owner_of(program, item);
        let slot = slot_in(program, item);
        let name = made!(name_in(alloc, program, fixed, item); list);
        let label = made!(column_label(alloc, program, item); list, name);
        let info = ColumnInfo {
            kind,
            class,
            slot,
            name,
            label,
        };
        made!(put(&mut list, info); list);
    }
    Ok(list)
}

/// The sites.
pub fn site_infos(alloc: Global, sites: &Vec<Site>) -> Tried<Vec<SiteInfo>>
    ensures value { IfOk result (λ v. v.items ≡ map site_info sites.now.items) }
{
    let mut list = Vec::new(alloc);
    for site in sites {
        let (row, class, dim) = (RowId(site.row), site.ty.class, site.ty.dim);
        made!(put(&mut list, SiteInfo { row, class, dim }));
    }
    Ok(list)
}

/// The rows of the flow points.
pub fn point_rows(alloc: Global, points: &Vec<Point>) -> Tried<Vec<RowId>>
    ensures value { IfOk result (λ v. v.items ≡ map (λ p. record { 0 = p.row }) points.now.items) }
{
    let mut list = Vec::new(alloc);
    for point in points {
        made!(put(&mut list, RowId(point.row)));
    }
    Ok(list)
}

/// The points of the parameters of a method.
fn param_points(given: &Given, m: u64, code: &Code) -> Tried<Vec<Option<u32>>>
    ensures value { (P : Plain) → IfOk result (λ v. v.items ≡ param_points (numbers_seen given.now.numbering.now) P m (code_seen code.now)) }
{
    let mut list = Vec::new(given.alloc);
    for (i, _param) in code.params.iter().enumerate() {
        made!(put(
            &mut list,
            given.numbering.point(PointItem::Local(m, i as u64))
        ));
    }
    Ok(list)
}

/// The body of a method, where its `this` is a flow point.
fn method_body(given: &Given, c: u32, m: u64, code: &Code) -> Tried<Option<BodyInfo>>
    ensures value { (P : Plain) → IfOk result (λ o. if_there body_seen o
        ≡ body_if (numbers_seen given.now.numbering.now) P c m (code_seen code.now)
        ((numbers_seen given.now.numbering.now).point (PointItem.This m))) }
{
    match given.numbering.point(PointItem::This(m)) {
        Some(this) => {
            let (column, result) = (ColId(c), given.numbering.point(PointItem::Result(m)));
            let params = made!(param_points(given, m, code));
            Ok(Some(BodyInfo {
                column,
                this,
                params,
                result,
            }))
        }
        None => Ok(None),
    }
}

/// The body of a column, where it has one that is run.
fn body_of(given: &Given, c: u32, item: ColumnItem) -> Tried<Option<BodyInfo>>
    ensures value { IfOk result (λ o. if_there body_seen o
        ≡ column_body (numbers_seen given.now.numbering.now) (program_of given.now.program.now) c item) }
{
    match item {
        ColumnItem::Def(m) => match method_by_number(given.program, m) {
            Some(method) => method_body(given, c, m, &method),
            None => Ok(None),
        },
        _ => Ok(None),
    }
}

/// The bodies, in the order of their columns.
pub fn body_infos(given: &Given, columns: &Vec<Column>) -> Tried<Vec<BodyInfo>>
    requires { length columns.now.items < 4294967295 }
    ensures value { IfOk result (λ v. map body_seen v.items
        ≡ each (λ c k. column_body (numbers_seen given.now.numbering.now) (program_of given.now.program.now) c k.item) 0
        columns.now.items) }
{
    let mut bodies = Vec::new(given.alloc);
    for (c, column) in columns.iter().enumerate() {
        let body = made!(body_of(given, c as u32, column.item); bodies);
        made!(put_if(&mut bodies, body); bodies);
    }
    Ok(bodies)
}
