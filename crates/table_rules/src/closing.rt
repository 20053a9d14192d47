//! The least table that holds the raw one and is closed under T5, T6, T8, T9 and T10. A worklist passes on what rows
//! gain; one turn over what is in the table then shows that nothing was left out.

ghost use Rattle.std.specs.Prelude.{◌≡◌, ℕ, ◌<◌, ◌≤◌, ◌-◌, length, All, Contains, Some, IfOk, IfSome, MatchOption, OnOk};
ghost use Rattle.kaba_bits.specs.Sets.{IsNoneFrom};
ghost use Rattle.fact_model.specs.InOrder.{InOrder, ColumnsStandAbove, BodiesAreOwn};
ghost use Rattle.fact_model.specs.Entries.{IsTable};
ghost use Rattle.table_rules.specs.Closed.{Gains, IsTieClosed, IsSiteClosedAt, IsSiteClosed, IsTableClosed};
ghost use Rattle.table_rules.specs.Asked.{is_beyond, IsHidingMet, IsRowAsked, IsRowClosed};
ghost use Rattle.table_rules.specs.Words.{OnTrue, OnFalse, bit, row, IsStep, InRange, AreSets, IsInRow, IsRawTable, IsEntry, AreEntries, Grow, AreAsked, AreOpen, IsClosureInput, IsOpen};

use crate::Tried;
use crate::asked::{Columns, ask_this, columns_of, meet_at};
use crate::columns::site_at;
use crate::groups::are_alike;
use crate::index::index_of;
use crate::lists::all_wait;
use crate::marks::{join_asked, join_rows};
use crate::state::{Given, State};
use crate::turns::grow;
use fact_model::{Facts, PointsTo, Table, TieInfo};
use kaba_bits::{BitRow, row_at};
use std::alloc::{AllocError, Global};

/// The least table that holds the raw one and is closed under T5, T6, T8, T9 and T10. The sets and the raw table are
/// those of the facts. An error comes only for want of memory.
pub fn close(alloc: Global, facts: &Facts, pt: &PointsTo, raw: Table) -> Result<Table, AllocError>
    requires facts { InRange facts.now }
    requires sets { AreSets facts.now pt.now }
    requires raw { IsRawTable facts.now raw }
    ensures table { IfOk result (λ t. IsTable facts.now t) }

    // What facts in order give besides.
    ensures above { IfOk result (λ t. InOrder facts.now → ColumnsStandAbove facts.now t) }
    ensures own { IfOk result (λ t. InOrder facts.now → BodiesAreOwn facts.now t) }
{
    let Table { width, rows } = raw;
    let rows = filled(alloc, facts, pt, rows)?;
    Ok(Table { width, rows })
}

/// What the columns ask for, and then the rows. An error comes only for want of memory.
fn filled(alloc: Global, facts: &Facts, pt: &PointsTo, rows: Vec<BitRow>) -> Tried<Vec<BitRow>>
    requires facts { InRange facts.now }
    requires sets { AreSets facts.now pt.now }
    requires rows { AreEntries facts.now rows.items }
    ensures rows { IfOk result (λ v. AreEntries facts.now v.items) }
    ensures closed { IfOk result (λ v. IsTableClosed facts.now pt.now.rows.items v.items) }
{
    let Columns { asked, hidden } = columns_of(alloc, facts)?;
    let index = index_of(alloc, facts, hidden)?;
    let given = Given {
        facts,
        pt,
        index: &index,
    };
    let both = BitRow::new(alloc, facts.columns.len() as u32)?;
    let lists = all_wait(alloc, &given, &rows)?;
    let mut state = State {
        asked,
        both,
        rows,
        lists,
    };
    fill(&given, &mut state)?;
    let State { rows, .. } = state;
    Ok(rows)
}

/// What the worklist finds, and then turns over everything. An error comes only for want of memory.
fn fill(given: &Given, state: &mut State) -> Tried<()>
    requires given { IsClosureInput given.now }
    requires state { IsOpen given.now state.old }
    ensures rows { OnOk result (AreEntries given.now.facts.now state.new.rows.items) }
    ensures closed { OnOk result (IsTableClosed given.now.facts.now given.now.pt.now.rows.items state.new.rows.items) }
{
    grow(given, state)?;
    run_rounds(given, &mut state.asked, &mut state.both, &mut state.rows);
    Ok(())
}

/// Turns over everything, until nothing is new.
fn run_rounds(given: &Given, asked: &mut [BitRow], both: &mut BitRow, rows: &mut [BitRow])
    requires given { IsClosureInput given.now }
    requires state { AreOpen given.now.facts.now asked.old both.old rows.old }
    ensures state { AreOpen given.now.facts.now asked.new both.new rows.new }
    ensures closed { IsTableClosed given.now.facts.now given.now.pt.now.rows.items rows.new }
{
    loop {
        if !round(given, asked, both, rows) {
            return;
        }
    }
}

/// Everything once, and whether anything was new.
fn round(given: &Given, asked: &mut [BitRow], both: &mut BitRow, rows: &mut [BitRow]) -> bool
    requires given { IsClosureInput given.now }
    requires state { AreOpen given.now.facts.now asked.old both.old rows.old }
    ensures state { AreOpen given.now.facts.now asked.new both.new rows.new }
    ensures step { IsStep rows.old rows.new result }
    ensures closed { OnFalse result (IsTableClosed given.now.facts.now given.now.pt.now.rows.items rows.new) }
{
    ask_rows(given, rows, asked, both);
    let columns = close_rows(given.facts, asked, rows);
    let ties = pass_ties(given.facts, rows);
    let sites = pass_sites(given, rows);
    columns | ties | sites
}

/// The least column of a row from one on.
pub fn next_column(facts: &Facts, rows: &[BitRow], r: usize, at: u32) -> Option<u32>
    requires rows { AreEntries facts.now rows.now }
    requires row { r < length facts.now.rows.items }
    ensures low { IfSome result (λ d. at ≤ d) }
    ensures column { IfSome result (λ d. d < length facts.now.columns.items) }
    ensures entry { IfSome result (IsEntry facts.now r) }
    ensures least { MatchOption result (IsNoneFrom (bit (row rows.now r)) at (length facts.now.columns.items)) (λ d. IsNoneFrom (bit (row rows.now r)) at d) }
{
    let _ = facts;
    row_at(rows, r).next(at)
}

/// The least column of a row from one on that is not in a set.
pub fn next_beyond(facts: &Facts, plain: &BitRow, rows: &[BitRow], r: usize, at: u32) -> Option<u32>
    requires plain { length plain.now ≡ length facts.now.columns.items }
    requires rows { AreEntries facts.now rows.now }
    requires row { r < length facts.now.rows.items }
    ensures low { IfSome result (λ d. at ≤ d) }
    ensures column { IfSome result (λ d. d < length facts.now.columns.items) }
    ensures entry { IfSome result (IsEntry facts.now r) }
    ensures least { MatchOption result (IsNoneFrom (is_beyond plain.now rows.now r) at (length facts.now.columns.items))
        (IsNoneFrom (is_beyond plain.now rows.now r) at) }
{
    let _ = facts;
    row_at(rows, r).next_beyond(plain, at)
}

/// T10: what a row has, and its columns hide, is asked for.
fn meet_row(given: &Given, rows: &[BitRow], asked: &mut [BitRow], both: &mut BitRow, q: usize)
    requires given { IsClosureInput given.now }
    requires state { AreOpen given.now.facts.now asked.old both.old rows.now }
    requires row { q < length given.now.facts.now.rows.items }
    ensures state { AreOpen given.now.facts.now asked.new both.new rows.now }
    ensures grows { Grow asked.old asked.new }
    ensures met { IsHidingMet given.now.facts.now rows.now asked.new q }
{
    let (facts, index) = (given.facts, given.index);
    let width = facts.columns.len() as u32;
    let mut at = 0;
    'scan: while at < width {
        match next_beyond(facts, &index.plain, rows, q, at) {
            Some(d) => {
                meet_at(facts, &index.hidden, rows, asked, both, q, d);
                at = d + 1;
            }
            None => return,
        }
    }
}

/// T6 and T10 for each row: what it has, where it is a `this` or its columns hide that, is asked for.
fn ask_rows(given: &Given, rows: &[BitRow], asked: &mut [BitRow], both: &mut BitRow)
    requires given { IsClosureInput given.now }
    requires state { AreOpen given.now.facts.now asked.old both.old rows.now }
    ensures state { AreOpen given.now.facts.now asked.new both.new rows.now }
    ensures asked { (q : ℕ) → q < length given.now.facts.now.rows.items → IsRowAsked given.now.facts.now rows.now asked.new q }
{
    for q in 0..given.facts.rows.len() {
        meet_row(given, rows, asked, both, q);
        ask_this(given.facts, rows, asked, q);
    }
}

/// What the columns of a row ask for.
fn close_row(facts: &Facts, asked: &[BitRow], rows: &mut [BitRow], r: usize) -> bool
    requires facts { InRange facts.now }
    requires asked { AreAsked facts.now asked.now }
    requires rows { AreEntries facts.now rows.old }
    requires row { r < length facts.now.rows.items }
    ensures { Gains facts.now rows.old rows.new result (IsRowClosed asked.now rows.new r) }
{
    let width = facts.columns.len() as u32;
    let mut grew = false;
    let mut at = 0;
    'scan: while at < width {
        match next_column(facts, rows, r, at) {
            Some(d) => {
                grew |= join_asked(facts, asked, rows, r, d);
                at = d + 1;
            }
            None => return grew,
        }
    }
    grew
}

/// Whether a row has the columns of the one before it.
fn is_as_before(rows: &[BitRow], r: usize) -> bool
    ensures one { OnTrue result (0 < r) }
    ensures same { OnTrue result (row rows.now (r - 1) ≡ row rows.now r) }
{
    r > 0 && are_alike(rows, r - 1, r)
}

/// What the columns of each row ask for.
fn close_rows(facts: &Facts, asked: &[BitRow], rows: &mut [BitRow]) -> bool
    requires facts { InRange facts.now }
    requires asked { AreAsked facts.now asked.now }
    requires rows { AreEntries facts.now rows.old }
    ensures { Gains facts.now rows.old rows.new result ((r : ℕ) → r < length facts.now.rows.items → IsRowClosed asked.now rows.new r) }
{
    let mut grew = false;
    for r in 0..facts.rows.len() {
        if !grew && is_as_before(rows, r) {
            continue;
        }
        grew |= close_row(facts, asked, rows, r);
    }
    grew
}

/// T8 for one tie.
pub fn join_tie(facts: &Facts, rows: &mut [BitRow], x: TieInfo) -> bool
    requires facts { InRange facts.now }
    requires rows { AreEntries facts.now rows.old }
    requires tie { Contains facts.now.ties.items x }
    ensures { Gains facts.now rows.old rows.new result (IsTieClosed rows.new x) }
{
    join_rows(facts, rows, x.upper.0 as usize, x.lower.0 as usize)
}

/// T8: the lower row of a tie has all columns of the upper.
fn pass_ties(facts: &Facts, rows: &mut [BitRow]) -> bool
    requires facts { InRange facts.now }
    requires rows { AreEntries facts.now rows.old }
    ensures { Gains facts.now rows.old rows.new result (All (IsTieClosed rows.new) facts.now.ties.items) }
{
    let mut grew = false;
    for x in &facts.ties {
        grew |= join_tie(facts, rows, *x);
    }
    grew
}

/// The least site in the set of a row from one on.
pub fn next_site(given: &Given, v: usize, at: u32) -> Option<u32>
    requires given { IsClosureInput given.now }
    requires row { v < length given.now.facts.now.rows.items }
    ensures low { IfSome result (λ o. at ≤ o) }
    ensures site { IfSome result (λ o. o < length given.now.facts.now.sites.items) }
    ensures member { IfSome result (IsInRow given.now.facts.now v) }
    ensures least { MatchOption result (IsNoneFrom (bit (row given.now.pt.now.rows.items v)) at (length given.now.facts.now.sites.items))
        (λ o. IsNoneFrom (bit (row given.now.pt.now.rows.items v)) at o) }
{
    row_at(&given.pt.rows, v).next(at)
}

/// T9 for one row and one site.
fn join_site(given: &Given, rows: &mut [BitRow], v: usize, o: u32) -> bool
    requires given { IsClosureInput given.now }
    requires rows { AreEntries given.now.facts.now rows.old }
    requires row { v < length given.now.facts.now.rows.items }
    requires site { o < length given.now.facts.now.sites.items }
    requires member { IsInRow given.now.facts.now v o }
    ensures { Gains given.now.facts.now rows.old rows.new result
        (IsSiteClosedAt given.now.facts.now given.now.pt.now.rows.items v rows.new o) }
{
    join_rows(given.facts, rows, v, site_at(given.facts, o).row.0 as usize)
}

/// T9 for one row.
fn join_sites(given: &Given, rows: &mut [BitRow], v: usize) -> bool
    requires given { IsClosureInput given.now }
    requires rows { AreEntries given.now.facts.now rows.old }
    requires row { v < length given.now.facts.now.rows.items }
    ensures { Gains given.now.facts.now rows.old rows.new result
        (IsSiteClosed given.now.facts.now given.now.pt.now.rows.items rows.new v) }
{
    if row_at(rows, v).is_empty() {
        return false;
    }
    let width = given.facts.sites.len() as u32;
    let mut grew = false;
    let mut at = 0;
    'scan: while at < width {
        match next_site(given, v, at) {
            Some(o) => {
                grew |= join_site(given, rows, v, o);
                at = o + 1;
            }
            None => return grew,
        }
    }
    grew
}

/// T9: a site in the set of a row has all columns of the row.
fn pass_sites(given: &Given, rows: &mut [BitRow]) -> bool
    requires given { IsClosureInput given.now }
    requires rows { AreEntries given.now.facts.now rows.old }
    ensures { Gains given.now.facts.now rows.old rows.new result
        ((v : ℕ) → v < length given.now.facts.now.rows.items → IsSiteClosed given.now.facts.now given.now.pt.now.rows.items rows.new v) }
{
    let mut grew = false;
    for v in 0..given.facts.rows.len() {
        grew |= join_sites(given, rows, v);
    }
    grew
}
