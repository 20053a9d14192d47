//! The numbers of rows, columns, sites and flow points.

ghost use Rattle.std.specs.Prelude.{◌≡◌, ◌<◌, ◌++◌, true, [], None, IfOk, OnOk, length, map};
ghost use Rattle.std.specs.List.{flat_map};
ghost use Rattle.flow_rules.specs.Numbered.{number_among, same_row, same_column, same_point, form_sites, listed};
ghost use Rattle.flow_rules.specs.Parts as plain;
ghost use Rattle.flow_facts.specs.Views.{part_seen, parts_seen, body_seen, outline_seen};

use crate::Tried;
use flow_rules::{
    Body, ColumnItem, Operand, Outline, Part, Point, PointAt, PointItem, RowItem, Site,
    number_among, number_of_column, number_of_row,
};
use indexmap::IndexSet;
use kaba_base::{Place, put};
use std::alloc::Global;

/// The items of the rows, the columns and the flow points, and the numbers of the creations that are sites, each in their order.
#[derive(Drop)]
pub struct Numbering {
    pub rows: IndexSet<RowItem>,
    pub columns: IndexSet<ColumnItem>,
    pub sites: IndexSet<u64>,
    pub points: IndexSet<PointItem>,
    ghost few_rows: { length rows.keys < 4294967295 },
    ghost few_columns: { length columns.keys < 4294967295 },
    ghost few_sites: { length sites.keys < 4294967295 },
    ghost few_points: { length points.keys < 4294967295 },
}

impl Numbering {
    /// The number of a row.
    pub fn row(&self, item: RowItem) -> Option<u32>
        ensures value { result ≡ number_among same_row self.now.rows.keys item }
    {
        number_of_row(&self.rows, item)
    }

    /// The number of a column.
    pub fn column(&self, item: ColumnItem) -> Option<u32>
        ensures value { result ≡ number_among same_column self.now.columns.keys item }
    {
        number_of_column(&self.columns, item)
    }

    /// The number of a flow point.
    pub fn point(&self, item: PointItem) -> Option<u32>
        ensures value { result ≡ number_among same_point self.now.points.keys item }
    {
        number_among(&self.points, item)
    }
}

/// Adds the site of a creation.
fn add_site(
    rows: &IndexSet<RowItem>,
    place: Place,
    own: &Operand,
    sites: &mut Vec<Site>,
) -> Tried<()>
    requires { length rows.now.keys < 4294967295 }
    ensures value { OnOk result (sites.new.items ≡ sites.old.items ++ form_sites (number_among same_row rows.now.keys)
        (plain.a_creation place true own.now None None [])) }
{
    let row = match own.row {
        Some(item) => number_of_row(rows, item),
        None => None,
    };
    if let (Some(number), Some(ty), Some(row)) = (own.created, own.ty, row) {
        return put(
            sites,
            Site {
                number,
                place,
                ty,
                row,
            },
        );
    }
    Ok(())
}

/// Adds the site of a part.
fn add_part_site(rows: &IndexSet<RowItem>, part: &Part, sites: &mut Vec<Site>) -> Tried<()>
    requires { length rows.now.keys < 4294967295 }
    ensures value { OnOk result (sites.new.items ≡ sites.old.items ++ form_sites (number_among same_row rows.now.keys) (part_seen part.now)) }
{
    match part {
        Part::New(place, _, own, _, _, _) => add_site(rows, *place, own, sites),
        _ => Ok(()),
    }
}

/// Adds the sites of the creations of a body.
fn add_sites(rows: &IndexSet<RowItem>, parts: &Vec<Part>, sites: &mut Vec<Site>) -> Tried<()>
    requires { length rows.now.keys < 4294967295 }
    ensures value { OnOk result (sites.new.items ≡ sites.old.items
        ++ flat_map (form_sites (number_among same_row rows.now.keys)) (parts_seen parts.now.items)) }
{
    for part in parts {
        made!(add_part_site(rows, part, sites));
    }
    Ok(())
}

/// The sites of the creations of all bodies.
pub fn all_sites(alloc: Global, rows: &IndexSet<RowItem>, bodies: &Vec<Body>) -> Tried<Vec<Site>>
    requires { length rows.now.keys < 4294967295 }
    ensures value { IfOk result (λ v. v.items
        ≡ flat_map (λ b. flat_map (form_sites (number_among same_row rows.now.keys)) b.parts)
        (map body_seen bodies.now.items)) }
{
    let mut sites = Vec::new(alloc);
    for body in bodies {
        made!(add_sites(rows, &body.parts, &mut sites));
    }
    Ok(sites)
}

/// Adds a flow point that has a row.
fn add_point(rows: &IndexSet<RowItem>, point: &PointAt, into: &mut Vec<Point>) -> Tried<()>
    requires { length rows.now.keys < 4294967295 }
    ensures value { OnOk result (into.new.items ≡ into.old.items ++ listed (number_among same_row rows.now.keys) point.now) }
{
    match number_of_row(rows, point.row) {
        Some(row) => {
            let item = point.item;
            put(into, Point { item, row })
        }
        None => Ok(()),
    }
}

/// Adds those that have a row.
fn add_listed(rows: &IndexSet<RowItem>, points: &Vec<PointAt>, into: &mut Vec<Point>) -> Tried<()>
    requires { length rows.now.keys < 4294967295 }
    ensures value { OnOk result (into.new.items ≡ into.old.items ++ flat_map (listed (number_among same_row rows.now.keys)) points.now.items) }
{
    for point in points {
        made!(add_point(rows, point, into));
    }
    Ok(())
}

/// The flow points: those of the static fields, and then those of the bodies.
pub fn all_points(
    alloc: Global,
    rows: &IndexSet<RowItem>,
    statics: &Vec<PointAt>,
    outlines: &Vec<Outline>,
) -> Tried<Vec<Point>>
    requires { length rows.now.keys < 4294967295 }
    ensures value { IfOk result (λ v. v.items ≡ flat_map (listed (number_among same_row rows.now.keys))
        statics.now.items ++ flat_map (λ o. flat_map (listed (number_among same_row rows.now.keys)) o.points)
        (map outline_seen outlines.now.items)) }
{
    let mut points = Vec::new(alloc);
    made!(add_listed(rows, statics, &mut points));
    for outline in outlines {
        made!(add_listed(rows, &outline.points, &mut points));
    }
    Ok(points)
}
