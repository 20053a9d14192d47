//! What a column asks of each row that has it: the declaration of a body and what its `this` has, and of the columns that it hides
//! those that some row has beside it.

ghost use Rattle.std.specs.Prelude.{◌≡◌, ℕ, ◌<◌, ◌&&◌, length, All, Some, IfOk};
ghost use Rattle.table_rules.specs.Closed.{ColumnFlows};
ghost use Rattle.table_rules.specs.Asked.{AreColumnPairs, HaveAllOf, IsNoting, AreRuleColumns, IsColumnStep, IsNoted, IsMetAt, IsThisAsked};
ghost use Rattle.table_rules.specs.Words.{bit, row, IsSubset, InRange, IsEntry, IsDeclaredBy, Hides, RowMarked, AreEntries, Grow, column_at, row_this, IsAboveRow, AreAbove, AreAsked, AreHidden, HaveMethods, IsMethodColumn};

use crate::Tried;
use crate::above::above_of;
use crate::columns::{hides, is_declared_by, is_method, slot_of, this_of};
use crate::index::{methods_of, place_of};
use fact_model::Facts;
use kaba_base::ColId;
use kaba_bits::{BitRow, empty_rows, join_with, row_at, set_at};
use points_to::numbers_at;
use std::alloc::Global;

/// For each column those that the rows with it must have, and those that it hides.
#[derive(Drop)]
pub struct Columns {
    pub asked: Vec<BitRow>,
    pub hidden: Vec<BitRow>,
}

/// T5 for one pair of columns.
fn note_declared(facts: &Facts, asked: &mut [BitRow], d: u32, c: u32)
    requires asked { AreColumnPairs facts.now (ColumnFlows facts.now) asked.old }
    requires body { d < length facts.now.columns.items }
    requires declaration { c < length facts.now.columns.items }
    ensures step { IsNoting facts.now (ColumnFlows facts.now) asked.old asked.new }
    ensures here { IsDeclaredBy facts.now d c → RowMarked asked.new d c }
{
    if is_declared_by(facts, d, c) {
        set_at(asked, d as usize, c);
    }
}

/// T10 for one pair of columns.
fn note_hidden(facts: &Facts, above: &BitRow, hidden: &mut [BitRow], d: u32, c: u32)
    requires facts { InRange facts.now }
    requires above { IsAboveRow facts.now (column_at facts.now d).class.0 above.now }
    requires hidden { AreColumnPairs facts.now (Hides facts.now) hidden.old }
    requires lower { d < length facts.now.columns.items }
    requires upper { c < length facts.now.columns.items }
    ensures step { IsNoting facts.now (Hides facts.now) hidden.old hidden.new }
    ensures here { Hides facts.now d c → RowMarked hidden.new d c }
{
    if hides(facts, above, d, c) {
        set_at(hidden, d as usize, c);
    }
}

/// One pair of columns, where the second is one.
fn note_pair(facts: &Facts, above: &BitRow, columns: &mut Columns, d: u32, c: usize)
    requires facts { InRange facts.now }
    requires above { IsAboveRow facts.now (column_at facts.now d).class.0 above.now }
    requires columns { AreRuleColumns facts.now columns.old }
    requires column { d < length facts.now.columns.items }
    ensures step { IsColumnStep facts.now columns.old columns.new }
    ensures here { c < length facts.now.columns.items → IsNoted facts.now columns.new.asked.items columns.new.hidden.items d c }
{
    if c < facts.columns.len() {
        note_declared(facts, &mut columns.asked, d, c as u32);
        note_hidden(facts, above, &mut columns.hidden, d, c as u32);
    }
}

/// One column with each of a list.
fn note_each(facts: &Facts, above: &BitRow, columns: &mut Columns, d: u32, list: &[usize])
    requires facts { InRange facts.now }
    requires above { IsAboveRow facts.now (column_at facts.now d).class.0 above.now }
    requires columns { AreRuleColumns facts.now columns.old }
    requires column { d < length facts.now.columns.items }
    ensures step { IsColumnStep facts.now columns.old columns.new }
    ensures here { All (λ c. c < length facts.now.columns.items → IsNoted facts.now columns.new.asked.items columns.new.hidden.items d c) list.now }
{
    for c in list {
        note_pair(facts, above, columns, d, *c);
    }
}

/// One column with those of its slot.
fn note_column(
    facts: &Facts,
    above: &[BitRow],
    methods: &[Vec<usize>],
    columns: &mut Columns,
    d: u32,
)
    requires facts { InRange facts.now }
    requires above { AreAbove facts.now (length facts.now.columns.items) above.now }
    requires methods { HaveMethods facts.now methods.now (length facts.now.columns.items) }
    requires some { 0 < length methods.now }
    requires columns { AreRuleColumns facts.now columns.old }
    requires column { d < length facts.now.columns.items }
    ensures step { IsColumnStep facts.now columns.old columns.new }
    ensures here { (c : ℕ) → c < length facts.now.columns.items → IsNoted facts.now columns.new.asked.items columns.new.hidden.items d c }
{
    if !is_method(facts, d) {
        return;
    }
    let at = place_of(methods.len(), slot_of(facts, d));
    note_each(
        facts,
        row_at(above, d as usize),
        columns,
        d,
        numbers_at(methods, at),
    );
}

/// Each column with those of its slot.
fn note_columns(facts: &Facts, above: &[BitRow], methods: &[Vec<usize>], columns: &mut Columns)
    requires facts { InRange facts.now }
    requires above { AreAbove facts.now (length facts.now.columns.items) above.now }
    requires methods { HaveMethods facts.now methods.now (length facts.now.columns.items) }
    requires count { length methods.now ≡ length facts.now.columns.items }
    requires columns { AreRuleColumns facts.now columns.old }
    ensures asked { AreAsked facts.now columns.new.asked.items }
    ensures hidden { AreHidden facts.now columns.new.hidden.items }
{
    for d in 0..facts.columns.len() as u32 {
        note_column(facts, above, methods, columns, d);
    }
}

/// The columns that bodies ask for and those that columns hide. An error comes only for want of memory.
pub fn columns_of(alloc: Global, facts: &Facts) -> Tried<Columns>
    requires { InRange facts.now }
    ensures asked { IfOk result (λ x. AreAsked facts.now x.asked.items) }
    ensures hidden { IfOk result (λ x. AreHidden facts.now x.hidden.items) }
{
    let count = facts.columns.len();
    let above = above_of(alloc, facts)?;
    let methods = methods_of(alloc, facts)?;
    let asked = empty_rows(alloc, count, count as u32)?;
    let hidden = empty_rows(alloc, count, count as u32)?;
    let mut columns = Columns { asked, hidden };
    note_columns(facts, &above, &methods, &mut columns);
    Ok(columns)
}

/// What is in two sets.
fn meet_into(both: &mut BitRow, a: &BitRow, b: &BitRow)
    requires first { length both.old ≡ length a.now }
    requires second { length both.old ≡ length b.now }
    ensures width { length both.new ≡ length both.old }
    ensures met { (i : ℕ) → bit both.new i ≡ (bit a.now i && bit b.now i) }
{
    both.clear();
    both.or_into(a);
    both.and_into(b);
}

/// T10 for a column of a row: what the row has, and the column hides, is asked for. Answers whether that is more than was.
pub fn meet_at(
    facts: &Facts,
    hidden: &[BitRow],
    rows: &[BitRow],
    asked: &mut [BitRow],
    both: &mut BitRow,
    q: usize,
    d: u32,
) -> bool
    requires hidden { AreHidden facts.now hidden.now }
    requires rows { AreEntries facts.now rows.now }
    requires asked { AreAsked facts.now asked.old }
    requires both { length both.old ≡ length facts.now.columns.items }
    requires row { q < length facts.now.rows.items }
    requires column { d < length facts.now.columns.items }
    requires entry { IsEntry facts.now q d }
    ensures asked { AreAsked facts.now asked.new }
    ensures both { length both.new ≡ length facts.now.columns.items }
    ensures grows { Grow asked.old asked.new }
    ensures met { IsMetAt facts.now rows.now asked.new q d }
{
    let row = row_at(rows, q);
    let hides = row_at(hidden, d as usize);
    if hides.is_subset(row_at(asked, d as usize)) {
        return false;
    }
    if !row.meets(hides) {
        return false;
    }
    meet_into(both, row, hides);
    join_with(asked, d as usize, both)
}

/// T6: what the `this` of a body has is asked for by the body. Answers whether that is more than was.
pub fn ask_body(facts: &Facts, rows: &[BitRow], asked: &mut [BitRow], v: usize, d: ColId) -> bool
    requires facts { InRange facts.now }
    requires rows { AreEntries facts.now rows.now }
    requires asked { AreAsked facts.now asked.old }
    requires row { v < length facts.now.rows.items }
    requires this { row_this facts.now v ≡ Some d }
    ensures asked { AreAsked facts.now asked.new }
    ensures grows { Grow asked.old asked.new }
    ensures here { IsSubset (row rows.now v) (row asked.new d.0) }
{
    join_with(asked, d.0 as usize, row_at(rows, v))
}

/// T6: what a row has that is a `this` is asked for by its body.
pub fn ask_this(facts: &Facts, rows: &[BitRow], asked: &mut [BitRow], v: usize)
    requires facts { InRange facts.now }
    requires rows { AreEntries facts.now rows.now }
    requires asked { AreAsked facts.now asked.old }
    requires row { v < length facts.now.rows.items }
    ensures asked { AreAsked facts.now asked.new }
    ensures grows { Grow asked.old asked.new }
    ensures here { IsThisAsked facts.now rows.now asked.new v }
{
    if let Some(d) = this_of(facts, v) {
        ask_body(facts, rows, asked, v, d);
    }
}
