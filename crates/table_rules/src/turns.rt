//! The table by a worklist: a row that grew passes on what it has, and a column that is new in a row asks for what it can.

ghost use Rattle.std.specs.Prelude.{◌<◌, length, OnOk};
ghost use Rattle.table_rules.specs.Words.{OnTrue, IsEntry, AreEntries, IsClosureInput, IsOpen};

use crate::Tried;
use crate::asked::{ask_body, meet_at};
use crate::closing::{join_tie, next_beyond, next_column};
use crate::columns::this_of;
use crate::groups::group_of;
use crate::lists::{holders_of, is_first, wake};
use crate::marks::join_asked;
use crate::sites::pass_group;
use crate::state::{Given, State};
use fact_model::Facts;
use kaba_bits::{BitRow, row_at};
use points_to::{numbers_at, take, wait};

/// Whether a row is there and has a column.
fn has(facts: &Facts, rows: &[BitRow], r: u32, d: u32) -> bool
    requires rows { AreEntries facts.now rows.now }
    requires column { d < length facts.now.columns.items }
    ensures row { OnTrue result (r < length facts.now.rows.items) }
    ensures entry { OnTrue result (IsEntry facts.now r d) }
{
    (r as usize) < facts.rows.len() && row_at(rows, r as usize).has(d)
}

/// What a column asks for, into a row that has it.
fn give(given: &Given, state: &mut State, r: usize, d: u32)
    requires state { IsOpen given.now state.old }
    requires row { r < length given.now.facts.now.rows.items }
    requires column { d < length given.now.facts.now.columns.items }
    requires entry { IsEntry given.now.facts.now r d }
    ensures { IsOpen given.now state.new }
{
    if join_asked(given.facts, &state.asked, &mut state.rows, r, d) {
        wake(&mut state.lists, r);
    }
}

/// What a column asks for, into each row that has it. An error comes only for want of memory.
fn spread(given: &Given, state: &mut State, d: u32) -> Tried<()>
    requires state { IsOpen given.now state.old }
    requires column { d < length given.now.facts.now.columns.items }
    ensures { OnOk result (IsOpen given.now state.new) }
{
    let holders = holders_of(&state.lists, d)?;
    for r in &holders {
        if has(given.facts, &state.rows, *r, d) {
            give(given, state, *r as usize, d);
        }
    }
    Ok(())
}

/// What the columns ask for that are new in a row.
fn begin(given: &Given, state: &mut State, r: usize)
    requires given { IsClosureInput given.now }
    requires state { IsOpen given.now state.old }
    requires row { r < length given.now.facts.now.rows.items }
    ensures { IsOpen given.now state.new }
{
    let width = given.facts.columns.len() as u32;
    let mut at = 0;
    'scan: while at < width {
        match next_column(given.facts, &state.rows, r, at) {
            Some(d) => {
                if is_first(&mut state.lists, d, r) {
                    give(given, state, r, d);
                }
                at = d + 1;
            }
            None => return,
        }
    }
}

/// T10 for a column of a row: whether more is asked for.
fn meet_column(given: &Given, state: &mut State, r: usize, d: u32) -> bool
    requires given { IsClosureInput given.now }
    requires state { IsOpen given.now state.old }
    requires row { r < length given.now.facts.now.rows.items }
    requires column { d < length given.now.facts.now.columns.items }
    requires entry { IsEntry given.now.facts.now r d }
    ensures { IsOpen given.now state.new }
{
    meet_at(
        given.facts,
        &given.index.hidden,
        &state.rows,
        &mut state.asked,
        &mut state.both,
        r,
        d,
    )
}

/// T10 for each column of a row. An error comes only for want of memory.
fn meet_columns(given: &Given, state: &mut State, r: usize) -> Tried<()>
    requires given { IsClosureInput given.now }
    requires state { IsOpen given.now state.old }
    requires row { r < length given.now.facts.now.rows.items }
    ensures { OnOk result (IsOpen given.now state.new) }
{
    let width = given.facts.columns.len() as u32;
    let mut at = 0;
    'scan: while at < width {
        match next_beyond(given.facts, &given.index.plain, &state.rows, r, at) {
            Some(d) => {
                if meet_column(given, state, r, d) {
                    spread(given, state, d)?;
                }
                at = d + 1;
            }
            None => return Ok(()),
        }
    }
    Ok(())
}

/// T8: what a row has, into the lower row of one of its ties.
fn pass_tie(given: &Given, state: &mut State, i: usize)
    requires given { IsClosureInput given.now }
    requires state { IsOpen given.now state.old }
    ensures { IsOpen given.now state.new }
{
    if i < given.facts.ties.len() {
        let x = given.facts.ties[i];
        if join_tie(given.facts, &mut state.rows, x) {
            wake(&mut state.lists, x.lower.0 as usize);
        }
    }
}

/// T8: what a row has, into the lower row of each of its ties.
fn pass_ties(given: &Given, state: &mut State, list: &[usize])
    requires given { IsClosureInput given.now }
    requires state { IsOpen given.now state.old }
    ensures { IsOpen given.now state.new }
{
    for i in list {
        pass_tie(given, state, *i);
    }
}

/// T6: what the `this` of a body has is asked for by the body, and goes into each row that has it. An error comes only for want of memory.
fn pass_body(given: &Given, state: &mut State, r: usize) -> Tried<()>
    requires given { IsClosureInput given.now }
    requires state { IsOpen given.now state.old }
    requires row { r < length given.now.facts.now.rows.items }
    ensures { OnOk result (IsOpen given.now state.new) }
{
    if let Some(d) = this_of(given.facts, r) {
        if ask_body(given.facts, &state.rows, &mut state.asked, r, d) {
            spread(given, state, d.0)?;
        }
    }
    Ok(())
}

/// What a row has, into the rows that get all of it; into those of the sites of its set when no row waits any more. An error comes only for want
/// of memory.
fn pass(given: &Given, state: &mut State, r: usize) -> Tried<()>
    requires given { IsClosureInput given.now }
    requires state { IsOpen given.now state.old }
    requires row { r < length given.now.facts.now.rows.items }
    ensures { OnOk result (IsOpen given.now state.new) }
{
    pass_ties(given, state, numbers_at(&given.index.ties, r));
    let group = group_of(&state.lists.groups, r);
    wait(&mut state.lists.waiting, group);
    pass_body(given, state, r)
}

/// One turn: the columns that are new in a row ask for what they can, and what it has is passed on. An error comes only for want of memory.
fn turn(given: &Given, state: &mut State, r: usize) -> Tried<()>
    requires given { IsClosureInput given.now }
    requires state { IsOpen given.now state.old }
    requires row { r < length given.now.facts.now.rows.items }
    ensures { OnOk result (IsOpen given.now state.new) }
{
    begin(given, state, r);
    meet_columns(given, state, r)?;
    pass(given, state, r)
}

/// The turn of a row that waits, or else of a group; answers whether there was one. An error comes only for want of memory.
fn next_turn(given: &Given, state: &mut State) -> Tried<bool>
    requires given { IsClosureInput given.now }
    requires state { IsOpen given.now state.old }
    ensures { OnOk result (IsOpen given.now state.new) }
{
    if let Some(r) = take(&mut state.lists.rows) {
        if r < given.facts.rows.len() {
            turn(given, state, r)?;
        }
        return Ok(true);
    }
    if let Some(group) = take(&mut state.lists.waiting) {
        if group < given.facts.rows.len() {
            pass_group(given, state, group);
        }
        return Ok(true);
    }
    Ok(false)
}

/// Turns, until nothing waits: the entries, as far as the worklist finds them. An error comes only for want of memory.
pub fn grow(given: &Given, state: &mut State) -> Tried<()>
    requires given { IsClosureInput given.now }
    requires state { IsOpen given.now state.old }
    ensures { OnOk result (IsOpen given.now state.new) }
{
    for _turn in 0..u64::MAX {
        if !next_turn(given, state)? {
            return Ok(());
        }
    }
    Ok(())
}
