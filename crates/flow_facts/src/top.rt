//! The facts of a program.

ghost use Rattle.std.specs.Prelude.{◌≡◌, ◌+◌, ◌++◌, ◌<◌, ◌≤◌, None, IfOk, IfErr, OnOk, length, map};
ghost use Rattle.flow_rules.specs.Numbered.{rows_of, columns_of, sites_of, points_of, bodies_of, field_rows, method_rows, field_columns, method_columns, static_points, outline_if};
ghost use Rattle.flow_rules.specs.Facts.{AreNamesOf, IsFactsOf, IsFactsRefusal, IsWithinLimits, numbers, cells_of, too_many};
ghost use Rattle.flow_rules.specs.Ordered.{by_place, once};
ghost use Rattle.flow_facts.specs.Stages.{IsCountOver, IsListed, IsFactTable, HasFlowPoints, IsNumbered};
ghost use Rattle.flow_facts.specs.Words.{program_of, IsFormed, each, body_seen, outline_seen, numbers_seen};

use crate::assembled::facts_over;
use crate::cells::{cells_of, fields_of};
use crate::given::Given;
use crate::numbering::{Numbering, all_points, all_sites};
use crate::ordered::{HasKey, HasPlace, Listed, by_place, once, once_by_place};
use crate::stages::{Flow, Numbered, Table};
use crate::survey::survey;
use fact_model::{CellInfo, Facts};
use flow_rules::{
    Body, Column, Counted, FactsFault, Outline, Point, PointAt, PointItem, Row, Site,
};
use java_core::Program;
use std::alloc::Global;
use std::hash::Hash;
use std::mem::drop;

/// Refuses a count that is over its limit.
fn within(count: usize, limit: u32, what: Counted) -> Result<(), FactsFault>
    requires { limit < 65537 }
    ensures ok { OnOk result (count ≤ limit) }
    ensures refused { IfErr result (IsCountOver count limit what) }
{
    if count > limit as usize {
        return Err(FactsFault::TooMany(what, limit + 1));
    }
    Ok(())
}

/// The first of each key by their places, which are no more than the limit.
fn number_by_place<K: Eq + Hash + Copy + Drop, T: HasPlace + HasKey<K> + Copy + Drop>(
    alloc: Global,
    all: Vec<T>,
    limit: u32,
    what: Counted,
) -> Result<Listed<T, K>, FactsFault>
    requires { limit < 65537 }
    ensures ok { IfOk result (λ l. IsListed T.key limit (once K.eq T.key (by_place T.at all.items)) l.items.items l.keys.keys) }
    ensures refused { IfErr result (IsCountOver (length (once K.eq T.key (by_place T.at all.items))) limit what) }
{
    let listed = made!(once_by_place(alloc, all) => FactsFault;);
    made!(within(listed.items.len(), limit, what); listed);
    Ok(listed)
}

/// The flow points in their order.
fn number_points(
    alloc: Global,
    program: &Program,
    table: &Table,
    statics: Vec<PointAt>,
    outlines: Vec<Outline>,
) -> Result<Listed<Point, PointItem>, FactsFault>
    requires table { IsFactTable (program_of program.now) table.now }
    requires statics { statics.items ≡ each static_points 0 (program_of program.now).fields }
    requires outlines { map outline_seen outlines.items
        ≡ each (outline_if (program_of program.now)) 0
        (program_of program.now).methods }
    requires sites { length (sites_of (program_of program.now)) ≤ 8192 }
    ensures ok { IfOk result (λ l. IsListed (λ p. p.item) 65536
        (points_of (program_of program.now)) l.items.items l.keys.keys) }
    ensures refused { IfErr result (λ e. IsFactsRefusal (program_of program.now) e) }
{
    let rows = &table.rows.keys;
    let statics = made!(by_place(statics) => FactsFault; outlines);
    let outlines = made!(by_place(outlines) => FactsFault; statics);
    let points = made!(
        all_points(alloc, rows, &statics, &outlines) => FactsFault;
        statics, outlines
    );
    drop(statics);
    drop(outlines);
    let listed = made!(once(alloc, &points) => FactsFault;);
    made!(within(listed.items.len(), 65536, Counted::Points); listed);
    Ok(listed)
}

/// The cells by their site and their column.
fn number_cells(
    alloc: Global,
    program: &Program,
    n: &Numbering,
    columns: &Vec<Column>,
    sites: &Vec<Site>,
    most: usize,
) -> Result<Vec<CellInfo>, FactsFault>
    requires formed { IsFormed (program_of program.now) }
    requires numbers { numbers_seen n.now ≡ numbers (program_of program.now) }
    requires of_columns { columns.now.items ≡ columns_of (program_of program.now) }
    requires of_sites { sites.now.items ≡ sites_of (program_of program.now) }
    requires rows { length (rows_of (program_of program.now)) ≤ 16384 }
    requires columns { length (columns_of (program_of program.now)) ≤ 8192 }
    requires sites { length (sites_of (program_of program.now)) ≤ 8192 }
    requires points { length (points_of (program_of program.now)) + most ≡ 65536 }
    ensures items { IfOk result (λ v. v.items ≡ cells_of (program_of program.now)) }
    ensures counts { IfOk result (λ v. too_many (program_of program.now) ≡ None) }
    ensures refused { IfErr result (λ e. IsFactsRefusal (program_of program.now) e) }
{
    let given = Given {
        alloc,
        program,
        numbering: n,
    };
    let fields = made!(fields_of(&given, columns) => FactsFault;);
    match made!(cells_of(alloc, program, &fields, sites, most) => FactsFault; fields) {
        None => Err(FactsFault::TooMany(Counted::Points, 65537)),
        Some(cells) => Ok(cells),
    }
}

/// Numbers the rows and the columns.
fn number_table(
    alloc: Global,
    program: &Program,
    rows: Vec<Row>,
    columns: Vec<Column>,
) -> Result<Table, FactsFault>
    requires rows { rows.items ≡ each field_rows 0 (program_of program.now).fields
        ++ each (method_rows (program_of program.now)) 0
        (program_of program.now).methods }
    requires columns { columns.items ≡ each field_columns 0 (program_of program.now).fields
        ++ each (method_columns (program_of program.now)) 0
        (program_of program.now).methods }
    ensures ok { IfOk result (λ t. IsFactTable (program_of program.now) t) }
    ensures refused { IfErr result (λ e. IsFactsRefusal (program_of program.now) e) }
{
    let rows = made!(number_by_place(alloc, rows, 16384, Counted::Rows); columns);
    let columns = made!(number_by_place(alloc, columns, 8192, Counted::Columns); rows);
    Ok(Table { rows, columns })
}

/// Numbers the sites and the flow points.
fn number_flow(
    alloc: Global,
    program: &Program,
    table: &Table,
    bodies: &Vec<Body>,
    statics: Vec<PointAt>,
    outlines: Vec<Outline>,
) -> Result<Flow, FactsFault>
    requires table { IsFactTable (program_of program.now) table.now }
    requires bodies { map body_seen bodies.now.items ≡ bodies_of (program_of program.now) }
    requires statics { statics.items ≡ each static_points 0 (program_of program.now).fields }
    requires outlines { map outline_seen outlines.items
        ≡ each (outline_if (program_of program.now)) 0
        (program_of program.now).methods }
    ensures ok { IfOk result (λ f. HasFlowPoints (program_of program.now) f) }
    ensures refused { IfErr result (λ e. IsFactsRefusal (program_of program.now) e) }
{
    let sites = made!(
        all_sites(alloc, &table.rows.keys, bodies) => FactsFault;
        statics, outlines
    );
    let sites = made!(
        number_by_place(alloc, sites, 8192, Counted::Sites);
        statics, outlines
    );
    let points = made!(number_points(alloc, program, table, statics, outlines); sites);
    Ok(Flow { sites, points })
}

/// Numbers the cells too.
fn number_whole(
    alloc: Global,
    program: &Program,
    table: Table,
    flow: Flow,
    bodies: Vec<Body>,
) -> Result<Numbered, FactsFault>
    requires formed { IsFormed (program_of program.now) }
    requires table { IsFactTable (program_of program.now) table }
    requires flow { HasFlowPoints (program_of program.now) flow }
    requires bodies { map body_seen bodies.items ≡ bodies_of (program_of program.now) }
    ensures ok { IfOk result (λ d. IsNumbered (program_of program.now) d) }
    ensures refused { IfErr result (λ e. IsFactsRefusal (program_of program.now) e) }
{
    let (rows, columns) = (table.rows, table.columns);
    let (sites, points) = (flow.sites, flow.points);
    let numbering = Numbering {
        rows: rows.keys,
        columns: columns.keys,
        sites: sites.keys,
        points: points.keys,
    };
    let mut numbered = Numbered {
        rows: rows.items,
        columns: columns.items,
        sites: sites.items,
        points: points.items,
        cells: Vec::new(alloc),
        bodies,
        numbering,
    };
    let most = 65536 - numbered.points.len();
    let cells = made!(
        number_cells(
            alloc,
            program,
            &numbered.numbering,
            &numbered.columns,
            &numbered.sites,
            most,
        );
        numbered
    );
    numbered.cells = cells;
    Ok(numbered)
}

/// Numbers the rows, the columns, the sites, the flow points and the cells.
fn number_all(alloc: Global, program: &Program) -> Result<Numbered, FactsFault>
    requires { IsFormed (program_of program.now) }
    ensures ok { IfOk result (λ d. IsNumbered (program_of program.now) d) }
    ensures refused { IfErr result (λ e. IsFactsRefusal (program_of program.now) e) }
{
    let surveyed = made!(survey(alloc, program) => FactsFault;);
    let (statics, outlines) = (surveyed.statics, surveyed.outlines);
    let bodies = surveyed.bodies;
    let table = made!(
        number_table(alloc, program, surveyed.rows, surveyed.columns);
        statics, outlines, bodies
    );
    let flow = made!(
        number_flow(alloc, program, &table, &bodies, statics, outlines);
        table, bodies
    );
    number_whole(alloc, program, table, flow, bodies)
}

/// The facts of a program (Andersen, 1994, for the points-to sets; Snelting and Tip, 2000, for the table).
///
/// A `TooMany` comes where there is more of something than its limit: first the rows are counted,
/// then the columns, the sites, and the flow points with the cells.
pub fn facts(alloc: Global, program: &Program) -> Result<Facts, FactsFault>
    requires { IsFormed (program_of program.now) }
    ensures ok { IfOk result (λ f. IsFactsOf (program_of program.now) f) }
    ensures names { IfOk result (λ f. AreNamesOf (program_of program.now) f) }
    ensures within { IfOk result (λ f. IsWithinLimits (program_of program.now)) }
    ensures refused { IfErr result (λ e. IsFactsRefusal (program_of program.now) e) }
{
    let numbered = made!(number_all(alloc, program));
    let facts = made!(facts_over(alloc, program, numbered) => FactsFault;);
    Ok(facts)
}

/// The numbers of the rows, columns, sites and flow points of a program, by their items.
///
/// A row is that of a field, a `this`, a return, a parameter, a local, a creation, a cast or an `instanceof`; a column
/// is that of a field, a declaration, a body or the mark of a type. The number of each is its place in the facts, and the
/// items of the columns and the numbers of the sites' creations stand in their order. A
/// `TooMany` comes where the facts of the program have one.
pub fn numbering_of(alloc: Global, program: &Program) -> Result<Numbering, FactsFault>
    requires { IsFormed (program_of program.now) }
    ensures ok { IfOk result (λ n. numbers_seen n ≡ numbers (program_of program.now)) }
    ensures columns { IfOk result (λ n. n.columns.keys ≡ map (λ c. c.item) (columns_of (program_of program.now))) }
    ensures sites { IfOk result (λ n. n.sites.keys ≡ map (λ s. s.number) (sites_of (program_of program.now))) }
    ensures refused { IfErr result (λ e. IsFactsRefusal (program_of program.now) e) }
{
    let numbered = made!(number_all(alloc, program));
    Ok(numbered.numbering)
}
