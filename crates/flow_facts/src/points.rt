//! What may be flow points of a body: `this`, the parameters and locals, the result, and the forms by their place.

ghost use Rattle.std.specs.Prelude.{◌≡◌, ◌++◌, IfOk, OnOk};
ghost use Rattle.std.specs.List.{flat_map};
ghost use Rattle.flow_rules.specs.Ordered.{by_place};
ghost use Rattle.flow_rules.specs.Parts as plain;
ghost use Rattle.flow_rules.specs.Numbered.{own_point, form_points, variable_points, method_points};
ghost use Rattle.flow_facts.specs.Words.{Plain, code_seen, parts_seen};

use crate::Tried;
use crate::enclosing::Enclosing;
use crate::from_part::{FromPart, add_from};
use crate::from_variable::{FromVariable, add_from_variables};
use crate::operands::variable_row;
use crate::ordered::by_place;
use crate::survey::result_row;
use flow_rules::{Operand, Part, PointAt, PointItem, RowItem};
use java_core::Local;
use kaba_base::{Place, put};
use std::alloc::Global;
use std::mem::drop;

/// Adds what may be the flow point of a form itself.
fn add_own_point(points: &mut Vec<PointAt>, place: Place, own: Operand) -> Tried<()>
    ensures value { OnOk result (points.new.items ≡ points.old.items ++ own_point place own.point own.row own.ty) }
{
    match (own.point, own.row, own.ty) {
        (Some(item), Some(row), Some(_)) => put(points, PointAt { item, place, row }),
        _ => Ok(()),
    }
}

/// An expression of a body may be a flow point.
impl FromPart for PointAt {
    ghost given = { form_points };

    fn add(part: &Part, points: &mut Vec<PointAt>) -> Tried<()> {
        match part {
            Part::Load(place, _, _, own)
            | Part::Element(place, _, own)
            | Part::New(place, true, own, _, _, _)
            | Part::Call(place, _, _, _, _, own)
            | Part::StaticCall(place, _, _, own)
            | Part::SuperCall(place, _, _, own)
            | Part::Test(place, _, own) => add_own_point(points, *place, *own),
            _ => Ok(()),
        }
    }
}

/// What may be flow points among the expressions of a body, by their place.
fn form_points(alloc: Global, parts: &Vec<Part>) -> Tried<Vec<PointAt>>
    ensures value { IfOk result (λ v. v.items ≡ by_place (λ p. p.place.at) (flat_map form_points (parts_seen parts.now.items))) }
{
    let mut points = Vec::new(alloc);
    made!(add_from(parts, &mut points));
    by_place(points)
}

/// A parameter or a local may be a flow point.
impl FromVariable for PointAt {
    ghost given = { λ P. variable_points };

    fn add(of: &Enclosing, number: usize, local: &Local, points: &mut Vec<PointAt>) -> Tried<()> {
        let item = PointItem::Local(of.number, number as u64);
        let row = variable_row(of.number, &of.code, number as u64);
        let place = local.place;
        put(points, PointAt { item, place, row })
    }
}

/// What may be flow points of a body with these parts.
pub fn method_points(of: &Enclosing, parts: &Vec<Part>) -> Tried<Vec<PointAt>>
    ensures value { (P : Plain) → parts_seen parts.now.items
        ≡ plain.parts_of P of.now.number (code_seen of.now.code)
        → IfOk result (λ v. v.items ≡ method_points P of.now.number (code_seen of.now.code)) }
{
    let place = of.code.place;
    let mut points = Vec::new(of.alloc);
    if !of.code.is_static {
        let item = PointItem::This(of.number);
        let row = RowItem::This(of.number);
        made!(put(&mut points, PointAt { item, place, row }); points);
    }
    made!(add_from_variables(of, &mut points); points);
    let item = PointItem::Result(of.number);
    let row = result_row(of.number, of.code.slot);
    made!(put(&mut points, PointAt { item, place, row }); points);
    let mut forms = made!(form_points(of.alloc, parts); points);
    made!(points.append(&mut forms); points, forms);
    Ok(points)
}
