//! What is numbered: the rows, the columns and what may be flow points, in the order of the program.

ghost use Rattle.std.specs.Prelude.{◌≡◌, ℕ, ◌+◌, ◌<◌, ◌^◌, ◌++◌, ◌∷◌, [], List, Option, Some, None, IfOk, OnOk, length, map};
ghost use Rattle.java_core.specs.Programs.{field_seen};
ghost use Rattle.flow_rules.specs.Parts as plain;
ghost use Rattle.flow_rules.specs.Numbered.{row_if, own_row, form_rows, mark, array_mark, form_columns, is_first, field_rows, this_rows, result_rows, variable_rows, method_rows, field_columns, method_columns, static_points, body_at, outline_if, bodies_of};
ghost use Rattle.flow_rules.specs.Operands.{result_in};
ghost use Rattle.flow_facts.specs.Words.{Plain, program_of, code_seen, IsFormed, each, parts_seen, body_seen, outline_seen};

use crate::Tried;
use crate::bodies::parts_of;
use crate::by_number::slot_by_number;
use crate::enclosing::Enclosing;
use crate::from_part::{FromPart, add_from};
use crate::from_variable::{FromVariable, add_from_variables};
use crate::operands::{class_object, variable_row};
use crate::points::method_points;
use crate::stages::Surveyed;
use crate::types::{object_if, object_of};
use flow_rules::{
    Body, Column, ColumnItem, ObjectType, Operand, Outline, Part, PointAt, PointItem, Row, RowItem,
};
use java_core::{Field, Local, Program};
use kaba_base::{Place, put};
use std::alloc::{AllocError, Global};
use std::mem::drop;

/// Adds a row, where there is a type that a row can have.
fn add_row(rows: &mut Vec<Row>, item: RowItem, place: Place, ty: Option<ObjectType>) -> Tried<()>
    ensures value { OnOk result (rows.new.items ≡ rows.old.items ++ row_if item place ty) }
{
    match ty {
        Some(ty) => put(rows, Row { item, place, ty }),
        None => Ok(()),
    }
}

/// Adds the row of a form itself.
fn add_own_row(rows: &mut Vec<Row>, place: Place, own: Operand) -> Tried<()>
    ensures value { OnOk result (rows.new.items ≡ rows.old.items ++ own_row place own.row own.ty) }
{
    match own.row {
        Some(item) => add_row(rows, item, place, own.ty),
        None => Ok(()),
    }
}

/// A creation, a cast and an `instanceof` have a row.
impl FromPart for Row {
    ghost given = { form_rows };

    fn add(part: &Part, rows: &mut Vec<Row>) -> Tried<()> {
        match part {
            Part::New(place, _, own, _, _, _) | Part::Test(place, _, own) => {
                add_own_row(rows, *place, *own)
            }
            _ => Ok(()),
        }
    }
}

/// Whether a method has the rows of its slot's return and parameters; a static method has its own.
fn is_first(of: &Enclosing) -> bool
    ensures value { result ≡ is_first (program_of of.now.program.now) of.now.number (code_seen of.now.code) }
{
    match of.code.slot {
        None => true,
        Some(slot) => match slot_by_number(of.program, slot as u64) {
            Some(slot) => slot.first.0 as u64 == of.number,
            None => false,
        },
    }
}

/// A local has a row, and a parameter of the first method of its slot.
impl FromVariable for Row {
    ghost given = { variable_rows };

    fn add(of: &Enclosing, number: usize, local: &Local, rows: &mut Vec<Row>) -> Tried<()> {
        if is_first(of) || number >= of.code.params.len() {
            let item = variable_row(of.number, &of.code, number as u64);
            return add_row(rows, item, local.place, object_of(local.ty));
        }
        Ok(())
    }
}

/// Adds the rows of a method, whose body has these parts.
fn add_method_rows(of: &Enclosing, parts: &Vec<Part>, rows: &mut Vec<Row>) -> Tried<()>
    requires { parts_seen parts.now.items ≡ plain.parts_of (program_of of.now.program.now) of.now.number (code_seen of.now.code) }
    ensures value { OnOk result (rows.new.items ≡ rows.old.items ++ method_rows
        (program_of of.now.program.now) of.now.number
        (code_seen of.now.code)) }
{
    let code = &of.code;
    if code.body.is_some() && !code.is_static {
        let (this, class) = (RowItem::This(of.number), class_object(code.owner));
        made!(add_row(rows, this, code.place, class));
    }
    if is_first(of) {
        let (result, ty) = (result_row(of.number, code.slot), object_if(code.result));
        made!(add_row(rows, result, code.place, ty));
    }
    made!(add_from_variables(of, rows));
    add_from(parts, rows)
}

/// The row of what a method gives back.
pub fn result_row(m: u64, slot: Option<u32>) -> RowItem
    ensures value { result ≡ result_in slot m }
{
    match slot {
        Some(slot) => RowItem::Return(slot as u64),
        None => RowItem::Result(m),
    }
}

/// Adds the mark of a type.
fn add_mark(columns: &mut Vec<Column>, place: Place, ty: Option<ObjectType>) -> Tried<()>
    ensures value { OnOk result (columns.new.items ≡ columns.old.items ++ mark place ty) }
{
    match ty {
        Some(ty) => {
            let item = ColumnItem::Is(ty.class);
            put(columns, Column { item, place })
        }
        None => Ok(()),
    }
}

/// The tests and the creations of arrays have a column, the mark of their type.
impl FromPart for Column {
    ghost given = { form_columns };

    fn add(part: &Part, columns: &mut Vec<Column>) -> Tried<()> {
        match part {
            Part::New(place, _, own, _, _, _) => match own.ty {
                Some(ty) if ty.dim != 0 => add_mark(columns, *place, own.ty),
                _ => Ok(()),
            },
            Part::Test(place, _, own) => add_mark(columns, *place, own.ty),
            _ => Ok(()),
        }
    }
}

/// Adds the columns of a method, whose body has these parts.
fn add_method_columns(of: &Enclosing, parts: &Vec<Part>, columns: &mut Vec<Column>) -> Tried<()>
    ensures value { (P : Plain) → parts_seen parts.now.items
        ≡ plain.parts_of P of.now.number (code_seen of.now.code)
        → OnOk result (columns.new.items ≡ columns.old.items ++ method_columns P of.now.number
        (code_seen of.now.code)) }
{
    let code = &of.code;
    if !code.is_static {
        let (item, place) = (ColumnItem::Dcl(of.number), code.place);
        made!(put(columns, Column { item, place }));
        if code.body.is_some() {
            let item = ColumnItem::Def(of.number);
            made!(put(columns, Column { item, place }));
        }
    }
    add_from(parts, columns)
}

/// Adds the rows, the columns and the points of the fields.
fn survey_fields(program: &Program, survey: &mut Surveyed) -> Tried<()>
    ensures rows { OnOk result (survey.new.rows.items ≡ survey.old.rows.items ++ each field_rows 0 (map field_seen program.now.fields.items)) }
    ensures columns { OnOk result (survey.new.columns.items ≡ survey.old.columns.items ++ each field_columns 0
        (map field_seen program.now.fields.items)) }
    ensures statics { OnOk result (survey.new.statics.items ≡ survey.old.statics.items ++ each static_points 0
        (map field_seen program.now.fields.items)) }
    ensures outlines { OnOk result (survey.new.outlines ≡ survey.old.outlines) }
    ensures bodies { OnOk result (survey.new.bodies ≡ survey.old.bodies) }
{
    for (f, field) in program.fields.iter().enumerate() {
        made!(survey_field(f, field, survey));
    }
    Ok(())
}

/// Adds the row, the column and the point of a field.
fn survey_field(f: usize, field: &Field, survey: &mut Surveyed) -> Tried<()>
    ensures rows { OnOk result (survey.new.rows.items ≡ survey.old.rows.items ++ field_rows f (field_seen field.now)) }
    ensures columns { OnOk result (survey.new.columns.items ≡ survey.old.columns.items ++ field_columns f (field_seen field.now)) }
    ensures statics { OnOk result (survey.new.statics.items ≡ survey.old.statics.items ++ static_points f (field_seen field.now)) }
    ensures outlines { OnOk result (survey.new.outlines ≡ survey.old.outlines) }
    ensures bodies { OnOk result (survey.new.bodies ≡ survey.old.bodies) }
{
    let row = RowItem::Field(f as u64);
    let place = field.place;
    made!(add_row(&mut survey.rows, row, place, object_of(field.ty)));
    if field.is_static {
        let item = PointItem::Static(f as u64);
        return put(&mut survey.statics, PointAt { item, place, row });
    }
    let item = ColumnItem::Fld(f as u64);
    put(&mut survey.columns, Column { item, place })
}

/// Adds the rows, the columns, the outline and the parts of a method.
fn survey_method(of: &Enclosing, survey: &mut Surveyed) -> Tried<()>
    requires { IsFormed (program_of of.now.program.now) }
    ensures rows { OnOk result (survey.new.rows.items ≡ survey.old.rows.items ++ method_rows
        (program_of of.now.program.now) of.now.number
        (code_seen of.now.code)) }
    ensures columns { OnOk result (survey.new.columns.items ≡ survey.old.columns.items ++ method_columns
        (program_of of.now.program.now) of.now.number
        (code_seen of.now.code)) }
    ensures statics { OnOk result (survey.new.statics ≡ survey.old.statics) }
    ensures outlines { OnOk result (map outline_seen survey.new.outlines.items
        ≡ map outline_seen survey.old.outlines.items ++ outline_if (program_of of.now.program.now) of.now.number (code_seen of.now.code)) }
    ensures bodies { OnOk result (map body_seen survey.new.bodies.items
        ≡ map body_seen survey.old.bodies.items ++ body_at (program_of of.now.program.now) of.now.number (code_seen of.now.code)) }
{
    let code = &of.code;
    let parts = parts_of(of)?;
    made!(add_method_rows(of, &parts, &mut survey.rows); parts);
    made!(add_method_columns(of, &parts, &mut survey.columns); parts);
    if code.body.is_some() {
        let points = made!(method_points(of, &parts); parts);
        let place = code.place;
        made!(survey.outlines.push(Outline { place, points }) => AllocError; parts);
    }
    survey.bodies.push(Body {
        number: of.number,
        slot: code.slot,
        parts,
    })?;
    Ok(())
}

/// What is numbered in a program, in its order.
#[tactic(auto, unfolding(flow_rules::specs::Numbered::bodies_of))]
pub fn survey(alloc: Global, program: &Program) -> Tried<Surveyed>
    requires { IsFormed (program_of program.now) }
    ensures rows { IfOk result (λ s. s.rows.items ≡ each field_rows 0 (program_of program.now).fields
        ++ each (method_rows (program_of program.now)) 0
        (program_of program.now).methods) }
    ensures columns { IfOk result (λ s. s.columns.items
        ≡ each field_columns 0 (program_of program.now).fields
        ++ each (method_columns (program_of program.now)) 0
        (program_of program.now).methods) }
    ensures statics { IfOk result (λ s. s.statics.items ≡ each static_points 0 (program_of program.now).fields) }
    ensures outlines { IfOk result (λ s. map outline_seen s.outlines.items
        ≡ each (outline_if (program_of program.now)) 0
        (program_of program.now).methods) }
    ensures bodies { IfOk result (λ s. map body_seen s.bodies.items ≡ bodies_of (program_of program.now)) }
{
    let mut survey = Surveyed {
        rows: Vec::new(alloc),
        columns: Vec::new(alloc),
        statics: Vec::new(alloc),
        outlines: Vec::new(alloc),
        bodies: Vec::new(alloc),
    };
    made!(survey_fields(program, &mut survey); survey);
    for (m, method) in program.methods.iter().enumerate() {
        let of = Enclosing {
            alloc,
            program,
            number: m as u64,
            code: method.code(),
        };
        made!(survey_method(&of, &mut survey); survey);
    }
    Ok(survey)
}
