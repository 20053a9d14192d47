//! What has to be gone over again where a set grew.

use crate::found::Found;
use crate::index::{Index, empty, note, numbers_at};
use crate::work::{Member, Read};
use fact_model::Facts;
use kaba_base::ClassId;
use kaba_bits::BitRow;
use std::alloc::{AllocError, Global};

/// The sites whose member a set is.
#[derive(Clone, Copy)]
enum Home {
    /// None: it is the set of a variable or an expression.
    None,
    /// One: it is a cell of the site.
    Site(u32),
    /// Those of a class at or below one, or some of them: it is the result of a body of the class.
    Below(ClassId),
}

/// The numbers of inclusions by where they begin, of reads, writes and runs by their base, of writes by their value, and of reads by
/// their member; of each read the member; and of each set the member that it is one of, and the sites whose.
#[derive(Drop)]
pub struct Uses {
    pub edges: Vec<Vec<usize>>,
    reads: Vec<Vec<usize>>,
    writes: Vec<Vec<usize>>,
    values: Vec<Vec<usize>>,
    runs: Vec<Vec<usize>>,
    alike: Vec<Vec<usize>>,
    read_members: Vec<usize>,
    members: Vec<usize>,
    homes: Vec<Home>,
}

/// How many sites a base has, at the most, by each of which it is listed.
const FEW: u32 = 16;

/// The bases of reads that have few sites, by these, and the sites by which each is listed; which bases have more, and the reads of these by
/// their member.
#[derive(Drop)]
struct Readers {
    by_site: Vec<Vec<usize>>,
    listed: Vec<Vec<usize>>,
    is_large: Vec<bool>,
    large: Vec<Vec<usize>>,
}

/// What has to be gone over: bases that grew, with the numbers of reads, writes and runs of them, for which what is new there is enough;
/// members that grew, and sites that have one that did; reads and writes that have to be gone over for each site of their base; and by which
/// sites the reads are found.
#[derive(Drop)]
pub struct Due {
    pub bases: BitRow,
    pub reads: BitRow,
    pub writes: BitRow,
    pub runs: BitRow,
    members: BitRow,
    sites: BitRow,
    pub whole_reads: BitRow,
    pub whole_writes: BitRow,
    readers: Readers,
}

/// A number for a member that is read: one for each column, one for elements, and one for each slot.
fn number_of(facts: &Facts, member: Member) -> usize {
    let columns = facts.columns.len();
    match member {
        Member::Field(Some(column)) => column.0 as usize,
        Member::Field(None) => columns,
        Member::Returned(slot) => columns.saturating_add(1).saturating_add(slot as usize),
        _ => usize::MAX,
    }
}

/// Notes of a set which member it is one of, and of which sites.
fn note_member(uses: &mut Uses, n: usize, member: usize, home: Home) {
    if n < uses.members.len() && n < uses.homes.len() {
        uses.members[n] = member;
        uses.homes[n] = home;
    }
}

/// Which member each cell is.
fn note_cells(facts: &Facts, uses: &mut Uses) {
    for c in 0..facts.cells.len() {
        let cell = facts.cells[c];
        let member = number_of(facts, Member::Field(cell.column));
        let n = facts.points.len().saturating_add(c);
        note_member(uses, n, member, Home::Site(cell.site.0));
    }
}

/// Which member a set is that is the result of a body of a column.
fn note_result(facts: &Facts, uses: &mut Uses, n: usize, d: usize) {
    if d < facts.columns.len() {
        let column = &facts.columns[d];
        if let Some(slot) = column.slot {
            let member = number_of(facts, Member::Returned(slot));
            note_member(uses, n, member, Home::Below(column.class));
        }
    }
}

/// Which member the result of each body is.
fn note_results(facts: &Facts, uses: &mut Uses) {
    for b in 0..facts.bodies.len() {
        let body = &facts.bodies[b];
        if let Some(n) = body.result {
            note_result(facts, uses, n as usize, body.column.0 as usize);
        }
    }
}

/// Inclusions by where they begin. An error comes only for want of memory.
fn note_edges(found: &Found, uses: &mut Uses) -> Result<(), AllocError> {
    for k in 0..found.edges.len() {
        note(&mut uses.edges, found.edges[k].from, k)?;
    }
    Ok(())
}

/// Reads by their base and by their member. An error comes only for want of memory.
fn note_reads(facts: &Facts, found: &Found, uses: &mut Uses) -> Result<(), AllocError> {
    for k in 0..found.members.reads.len() {
        let read = found.members.reads[k];
        note(&mut uses.reads, read.base as usize, k)?;
        let member = number_of(facts, read.member);
        note(&mut uses.alike, member, k)?;
        uses.read_members.push(member)?;
    }
    Ok(())
}

/// Writes by their base and by their value. An error comes only for want of memory.
fn note_writes(found: &Found, uses: &mut Uses) -> Result<(), AllocError> {
    for k in 0..found.members.writes.len() {
        let write = found.members.writes[k];
        note(&mut uses.writes, write.base as usize, k)?;
        note(&mut uses.values, write.value as usize, k)?;
    }
    Ok(())
}

/// Runs by their base. An error comes only for want of memory.
fn note_runs(found: &Found, uses: &mut Uses) -> Result<(), AllocError> {
    for k in 0..found.members.runs.len() {
        note(&mut uses.runs, found.members.runs[k].base as usize, k)?;
    }
    Ok(())
}

/// All of it. An error comes only for want of memory.
pub fn uses_of(alloc: Global, facts: &Facts, found: &Found) -> Result<Uses, AllocError> {
    let count = facts.points.len().saturating_add(facts.cells.len());
    let members_count = facts.columns.len().saturating_mul(2).saturating_add(1);
    let mut uses = Uses {
        edges: empty(alloc, count)?,
        reads: empty(alloc, count)?,
        writes: empty(alloc, count)?,
        values: empty(alloc, count)?,
        runs: empty(alloc, count)?,
        alike: empty(alloc, members_count)?,
        read_members: Vec::new(alloc),
        members: vec![in alloc; usize::MAX; count]?,
        homes: vec![in alloc; Home::None; count]?,
    };
    note_cells(facts, &mut uses);
    note_results(facts, &mut uses);
    note_edges(found, &mut uses)?;
    note_reads(facts, found, &mut uses)?;
    note_writes(found, &mut uses)?;
    note_runs(found, &mut uses)?;
    Ok(uses)
}

/// A row of no more than so many numbers. An error comes only for want of memory.
fn row_of(alloc: Global, count: usize) -> Result<BitRow, AllocError> {
    if count < u32::MAX as usize {
        BitRow::new(alloc, count as u32)
    } else {
        BitRow::new(alloc, u32::MAX)
    }
}

/// Nothing has to be gone over. An error comes only for want of memory.
pub fn nothing_due(
    alloc: Global,
    facts: &Facts,
    found: &Found,
    uses: &Uses,
) -> Result<Due, AllocError> {
    Ok(Due {
        bases: row_of(alloc, uses.reads.len())?,
        reads: row_of(alloc, found.members.reads.len())?,
        writes: row_of(alloc, found.members.writes.len())?,
        runs: row_of(alloc, found.members.runs.len())?,
        members: row_of(alloc, uses.alike.len())?,
        sites: row_of(alloc, facts.sites.len())?,
        whole_reads: row_of(alloc, found.members.reads.len())?,
        whole_writes: row_of(alloc, found.members.writes.len())?,
        readers: Readers {
            by_site: empty(alloc, facts.sites.len())?,
            listed: empty(alloc, uses.reads.len())?,
            is_large: vec![in alloc; false; uses.reads.len()]?,
            large: empty(alloc, uses.alike.len())?,
        },
    })
}

/// Whether a number is new in a row; it is in it then.
fn is_new(row: &mut BitRow, k: usize) -> bool {
    k < row.width() as usize && row.set(k as u32)
}

/// These numbers into a row.
fn set_all(row: &mut BitRow, list: &[usize]) {
    for k in list {
        is_new(row, *k);
    }
}

/// What has to be gone over since a base grew.
fn wake_base(uses: &Uses, due: &mut Due, n: usize) {
    is_new(&mut due.bases, n);
    set_all(&mut due.reads, numbers_at(&uses.reads, n));
    set_all(&mut due.writes, numbers_at(&uses.writes, n));
    set_all(&mut due.runs, numbers_at(&uses.runs, n));
}

/// A row into another of its width.
fn add_row(row: &mut BitRow, rows: &[BitRow], k: usize) {
    if k < rows.len() && rows[k].width() == row.width() {
        row.or_into(&rows[k]);
    }
}

/// The reads of these bases.
fn wake_bases(uses: &Uses, due: &mut BitRow, list: &[usize]) {
    for n in list {
        set_all(due, numbers_at(&uses.reads, *n));
    }
}

/// What has to be gone over since one of the sets of a member grew: the reads of bases with its site, or with one of its sites.
fn wake_member(index: &Index, uses: &Uses, due: &mut Due, n: usize) {
    if n >= uses.members.len() || n >= uses.homes.len() {
        return;
    }
    let member = uses.members[n];
    match uses.homes[n] {
        Home::None => {}
        Home::Site(o) => {
            is_new(&mut due.sites, o as usize);
            let bases = numbers_at(&due.readers.by_site, o as usize);
            wake_bases(uses, &mut due.whole_reads, bases);
            if is_new(&mut due.members, member) {
                let large = numbers_at(&due.readers.large, member);
                set_all(&mut due.whole_reads, large);
            }
        }
        Home::Below(class) => {
            add_row(&mut due.sites, &index.below, class.0 as usize);
            if is_new(&mut due.members, member) {
                set_all(&mut due.whole_reads, numbers_at(&uses.alike, member));
            }
        }
    }
}

/// Whether a list has a number.
fn lists(list: &[usize], x: usize) -> bool {
    for y in list {
        if *y == x {
            return true;
        }
    }
    false
}

/// Lists a base by a site, unless it is. An error comes only for want of memory.
fn list_base(readers: &mut Readers, n: usize, o: usize) -> Result<(), AllocError> {
    if lists(numbers_at(&readers.listed, n), o) {
        return Ok(());
    }
    note(&mut readers.listed, n, o)?;
    note(&mut readers.by_site, o, n)
}

/// Lists the reads of a base that has many sites by their member. An error comes only for want of memory.
fn list_large(uses: &Uses, readers: &mut Readers, n: usize) -> Result<(), AllocError> {
    if n < readers.is_large.len() {
        readers.is_large[n] = true;
    }
    for k in numbers_at(&uses.reads, n) {
        if *k < uses.read_members.len() {
            note(&mut readers.large, uses.read_members[*k], *k)?;
        }
    }
    Ok(())
}

/// Lists a base of reads by its sites while it has few, and its reads by their member from when it has more. An error comes only for want of memory.
fn list_reader(
    alloc: Global,
    uses: &Uses,
    due: &mut Due,
    set: &BitRow,
    n: usize,
) -> Result<(), AllocError> {
    if numbers_at(&uses.reads, n).is_empty() || n >= due.readers.is_large.len() {
        return Ok(());
    }
    if due.readers.is_large[n] {
        return Ok(());
    }
    if set.count() > FEW {
        return list_large(uses, &mut due.readers, n);
    }
    let sites = set.rising(alloc)?;
    for o in &sites {
        list_base(&mut due.readers, n, *o as usize)?;
    }
    Ok(())
}

/// What has to be gone over since a set grew. An error comes only for want of memory.
pub fn wake(
    alloc: Global,
    index: &Index,
    uses: &Uses,
    due: &mut Due,
    sets: &[BitRow],
    n: usize,
) -> Result<(), AllocError> {
    wake_base(uses, due, n);
    set_all(&mut due.whole_writes, numbers_at(&uses.values, n));
    wake_member(index, uses, due, n);
    if n < sets.len() {
        list_reader(alloc, uses, due, &sets[n], n)?;
    }
    Ok(())
}

/// Whether the base of a read has a site with a member that grew.
pub fn concerns(due: &Due, sets: &[BitRow], x: Read) -> bool {
    let base = x.base as usize;
    base < sets.len() && sets[base].width() == due.sites.width() && sets[base].meets(&due.sites)
}

/// Whether nothing has to be gone over.
pub fn is_nothing(due: &Due) -> bool {
    due.reads.is_empty()
        && due.writes.is_empty()
        && due.runs.is_empty()
        && due.whole_reads.is_empty()
        && due.whole_writes.is_empty()
}

/// Nothing has to be gone over from now on.
pub fn clear(due: &mut Due) {
    due.bases.clear();
    due.reads.clear();
    due.writes.clear();
    due.runs.clear();
    due.members.clear();
    due.sites.clear();
    due.whole_reads.clear();
    due.whole_writes.clear();
}
