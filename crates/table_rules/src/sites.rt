//! What rows have, into the rows of the sites of their sets: that of rows with the same set at once.

ghost use Rattle.std.specs.Prelude.{◌≡◌, ◌<◌, length};
ghost use Rattle.table_rules.specs.Gathered.{HaveAllSites};
ghost use Rattle.table_rules.specs.Words.{IsInRow, AreEntries, IsClosureInput, IsOpen};

use crate::closing::next_site;
use crate::columns::site_at;
use crate::groups::{are_alike, members_of};
use crate::lists::wake;
use crate::marks::join_columns;
use crate::state::{Given, State};
use kaba_bits::{BitRow, row_at};

/// What a row of a group has beside what is gathered of the others.
fn gather_row(given: &Given, rows: &[BitRow], both: &mut BitRow, group: usize, v: usize)
    requires given { IsClosureInput given.now }
    requires rows { AreEntries given.now.facts.now rows.now }
    requires both { HaveAllSites given.now.facts.now group both.old }
    ensures { HaveAllSites given.now.facts.now group both.new }
{
    if are_alike(&given.pt.rows, v, group) {
        both.or_into(row_at(rows, v));
    }
}

/// What the rows of a group have.
fn gather(given: &Given, rows: &[BitRow], both: &mut BitRow, group: usize, list: &[usize])
    requires given { IsClosureInput given.now }
    requires rows { AreEntries given.now.facts.now rows.now }
    requires width { length both.old ≡ length given.now.facts.now.columns.items }
    ensures { HaveAllSites given.now.facts.now group both.new }
{
    both.clear();
    for v in list {
        gather_row(given, rows, both, group, *v);
    }
}

/// T9: what is gathered of a group, into the row of a site of its set.
fn give_site(given: &Given, state: &mut State, group: usize, o: u32)
    requires given { IsClosureInput given.now }
    requires state { IsOpen given.now state.old }
    requires both { HaveAllSites given.now.facts.now group state.old.both }
    requires site { o < length given.now.facts.now.sites.items }
    requires member { IsInRow given.now.facts.now group o }
    ensures state { IsOpen given.now state.new }
    ensures both { state.new.both ≡ state.old.both }
{
    let row = site_at(given.facts, o).row.0 as usize;
    if join_columns(given.facts, &mut state.rows, &state.both, row) {
        wake(&mut state.lists, row);
    }
}

/// T9: what is gathered of a group, into the row of each site of its set.
fn give_sites(given: &Given, state: &mut State, group: usize)
    requires given { IsClosureInput given.now }
    requires state { IsOpen given.now state.old }
    requires both { HaveAllSites given.now.facts.now group state.old.both }
    requires row { group < length given.now.facts.now.rows.items }
    ensures { IsOpen given.now state.new }
{
    let width = given.facts.sites.len() as u32;
    let mut at = 0;
    'scan: while at < width {
        match next_site(given, group, at) {
            Some(o) => {
                give_site(given, state, group, o);
                at = o + 1;
            }
            None => return,
        }
    }
}

/// T9: what the rows of a group have, into the row of each site of their set.
pub fn pass_group(given: &Given, state: &mut State, group: usize)
    requires given { IsClosureInput given.now }
    requires state { IsOpen given.now state.old }
    requires row { group < length given.now.facts.now.rows.items }
    ensures { IsOpen given.now state.new }
{
    let list = members_of(&state.lists.groups, group);
    gather(given, &state.rows, &mut state.both, group, list);
    if !state.both.is_empty() {
        give_sites(given, state, group);
    }
}
