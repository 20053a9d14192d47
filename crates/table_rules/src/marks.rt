//! What adds to a table, where the rules say so.

ghost use Rattle.std.specs.Prelude.{◌≡◌, ℕ, ◌<◌, true, length};
ghost use Rattle.table_rules.specs.Closed.{Gains, RowFlows};
ghost use Rattle.table_rules.specs.Words.{bit, row, IsSubset, IsRawEntry, IsEntry, AreRaw, AreEntries, Grow, RowMarked, AreAsked};

use fact_model::Facts;
use kaba_bits::{BitRow, join, join_with, row_at, set_at};

/// One entry of the rules without premises.
pub fn mark(facts: &Facts, rows: &mut [BitRow], r: u32, c: u32)
    requires rows { AreRaw facts.now rows.old }
    requires row { r < length facts.now.rows.items }
    requires column { c < length facts.now.columns.items }
    requires entry { IsRawEntry facts.now r c }
    ensures rows { AreRaw facts.now rows.new }
    ensures grows { Grow rows.old rows.new }
    ensures marked { RowMarked rows.new r c }
{
    set_at(rows, r as usize, c);
}

/// All columns of one row into another.
pub fn join_rows(facts: &Facts, rows: &mut [BitRow], from: usize, into: usize) -> bool
    requires rows { AreEntries facts.now rows.old }
    requires from { from < length facts.now.rows.items }
    requires into { into < length facts.now.rows.items }
    requires flows { RowFlows facts.now from into }
    ensures { Gains facts.now rows.old rows.new result (IsSubset (row rows.new from) (row rows.new into)) }
{
    join(rows, from, into)
}

/// Columns that a row must have.
pub fn join_columns(facts: &Facts, rows: &mut [BitRow], columns: &BitRow, into: usize) -> bool
    requires rows { AreEntries facts.now rows.old }
    requires into { into < length facts.now.rows.items }
    requires width { length columns.now ≡ length facts.now.columns.items }
    requires entries { (c : ℕ) → bit columns.now c ≡ true → IsEntry facts.now into c }
    ensures { Gains facts.now rows.old rows.new result (IsSubset columns.now (row rows.new into)) }
{
    join_with(rows, into, columns)
}

/// All columns that one column asks for, into a row that has it.
pub fn join_asked(facts: &Facts, asked: &[BitRow], rows: &mut [BitRow], r: usize, d: u32) -> bool
    requires asked { AreAsked facts.now asked.now }
    requires rows { AreEntries facts.now rows.old }
    requires row { r < length facts.now.rows.items }
    requires column { d < length facts.now.columns.items }
    requires entry { IsEntry facts.now r d }
    ensures { Gains facts.now rows.old rows.new result (IsSubset (row asked.now d) (row rows.new r)) }
{
    join_columns(facts, rows, row_at(asked, d as usize), r)
}
