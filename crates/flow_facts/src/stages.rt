//! The lists that the stages hand on: what is numbered, with its numbers, what is said of it, and what the bodies give.

use crate::fixed::FixedName;
use crate::numbering::Numbering;
use crate::ordered::Listed;
use fact_model::{
    AccessInfo, BodyInfo, CastInfo, CellInfo, ClassInfo, ColumnInfo, FlowInfo, LoadInfo, MakeInfo,
    MakerNames, NewInfo, RowInfo, SiteInfo, StoreInfo, SuperInfo, TieInfo,
};
use flow_rules::{
    Body, Column, ColumnItem, Outline, Point, PointAt, PointItem, Row, RowItem, Site,
};
use kaba_base::{Name, RowId};

/// What is numbered, in the order of the program.
#[derive(Drop)]
pub struct Surveyed {
    pub rows: Vec<Row>,
    pub columns: Vec<Column>,
    /// What may be flow points among the static fields.
    pub statics: Vec<PointAt>,
    pub outlines: Vec<Outline>,
    pub bodies: Vec<Body>,
}

/// The rows and the columns by their place, and their numbers.
#[derive(Drop)]
pub struct Table {
    pub rows: Listed<Row, RowItem>,
    pub columns: Listed<Column, ColumnItem>,
}

/// The sites by their place and the flow points in their order, and their numbers.
#[derive(Drop)]
pub struct Flow {
    pub sites: Listed<Site, u64>,
    pub points: Listed<Point, PointItem>,
}

/// What is numbered, in order, and the numbers.
#[derive(Drop)]
pub struct Numbered {
    pub rows: Vec<Row>,
    pub columns: Vec<Column>,
    pub sites: Vec<Site>,
    pub points: Vec<Point>,
    pub cells: Vec<CellInfo>,
    pub bodies: Vec<Body>,
    pub numbering: Numbering,
}

/// What is said of each row, column, site and flow point, and of each body.
#[derive(Drop)]
pub struct Tables {
    pub rows: Vec<RowInfo>,
    pub columns: Vec<ColumnInfo>,
    pub sites: Vec<SiteInfo>,
    pub points: Vec<RowId>,
    pub bodies: Vec<BodyInfo>,
}

/// The classes, the names of the text and those that are fixed for constructors.
#[derive(Drop)]
pub struct Texts {
    pub classes: Vec<ClassInfo>,
    pub words: Vec<Name>,
    pub variables: Vec<Name>,
    pub fixed: Vec<FixedName>,
    pub makers: Option<MakerNames>,
    pub makes: Vec<MakeInfo>,
}

/// The lists that the parts of bodies give and that are read as sets.
#[derive(Drop)]
pub struct Unordered {
    pub news: Vec<NewInfo>,
    pub flows: Vec<FlowInfo>,
    pub loads: Vec<LoadInfo>,
    pub stores: Vec<StoreInfo>,
    pub casts: Vec<CastInfo>,
    pub accesses: Vec<AccessInfo>,
    pub supers: Vec<SuperInfo>,
    pub ties: Vec<TieInfo>,
}
