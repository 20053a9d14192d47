//! The sites of a base that are to be gone over: those that are new there, or all.

ghost use Rattle.std.specs.Prelude.{◌≡◌, ℕ, ◌<◌, true, length, IfOk};
ghost use Rattle.kaba_bits.specs.Sets.{IsEmpty};
ghost use Rattle.points_to.specs.Words.{bit, InRange, node_count, AreSound, InNode};

use crate::queue::{Queue, queue_of};
use crate::reads::next_site;
use crate::work::{include_row, put};
use fact_model::Facts;
use kaba_bits::{BitRow, empty_rows, row_at};
use std::alloc::{AllocError, Global};

/// For each point and cell the sites that are to be gone over, and those that were; and a queue that takes no number.
#[derive(Drop)]
pub struct Bases {
    pub now: Vec<BitRow>,
    seen: Vec<BitRow>,
    none: Queue,
}

/// No sites. An error comes only for want of memory.
pub fn no_bases(alloc: Global, facts: &Facts) -> Result<Bases, AllocError>
    requires { InRange facts.now }
    ensures { IfOk result (λ b. AreSound facts.now b.now.items) }
{
    let count = facts.points.len() + facts.cells.len();
    let width = facts.sites.len() as u32;
    Ok(Bases {
        now: empty_rows(alloc, count, width)?,
        seen: empty_rows(alloc, count, width)?,
        none: queue_of(alloc, Vec::new(alloc), 0)?,
    })
}

/// No sites of a base.
fn clear_base(facts: &Facts, now: &mut [BitRow], p: usize)
    requires base { p < node_count facts.now }
    requires now { AreSound facts.now now.old }
    ensures { AreSound facts.now now.new }
{
    let _ = facts;
    let row = &mut now[p];
    row.clear();
}

/// Whether most of a set is not in another. Then all of it is taken: sets that differ in a few sites that were gone over are one set so, and what
/// is asked of one set is asked once.
fn is_new_for_most(set: &BitRow, seen: &BitRow) -> bool {
    seen.count() <= set.count() / 2
}

/// Those sites of a set that are not in another, or all where most are not, in place of what was there.
fn put_base(
    facts: &Facts,
    now: &mut [BitRow],
    none: &mut Queue,
    set: &BitRow,
    seen: &BitRow,
    p: usize,
)
    requires facts { InRange facts.now }
    requires base { p < node_count facts.now }
    requires now { AreSound facts.now now.old }
    requires set { length set.now ≡ length facts.now.sites.items }
    requires seen { length seen.now ≡ length facts.now.sites.items }
    requires holds { (s : ℕ) → bit set.now s ≡ true → InNode facts.now p s }
    ensures { AreSound facts.now now.new }
{
    clear_base(facts, now, p);
    if is_new_for_most(set, seen) {
        include_row(facts, now, none, set, p);
        return;
    }
    let width = facts.sites.len() as u32;
    let mut at = 0;
    'scan: while at < width {
        match next_site(facts, set, seen, at) {
            Some(o) => {
                put(facts, now, none, p, o);
                at = o + 1;
            }
            None => return,
        }
    }
}

/// What of a set is new since it was asked for last.
pub fn load_news(facts: &Facts, sets: &[BitRow], bases: &mut Bases, p: usize)
    requires facts { InRange facts.now }
    requires sets { AreSound facts.now sets.now }
    requires now { AreSound facts.now bases.old.now.items }
    ensures { AreSound facts.now bases.new.now.items }
{
    if p >= facts.points.len() || p >= bases.seen.len() {
        return;
    }
    let set = row_at(sets, p);
    if bases.seen[p].width() != set.width() {
        return;
    }
    let seen = row_at(&bases.seen, p);
    put_base(facts, &mut bases.now, &mut bases.none, set, seen, p);
    bases.seen[p].or_into(set);
}

/// All of a set.
pub fn load_whole(facts: &Facts, sets: &[BitRow], bases: &mut Bases, p: usize)
    requires facts { InRange facts.now }
    requires sets { AreSound facts.now sets.now }
    requires now { AreSound facts.now bases.old.now.items }
    ensures { AreSound facts.now bases.new.now.items }
{
    if p >= facts.points.len() {
        return;
    }
    clear_base(facts, &mut bases.now, p);
    include_row(facts, &mut bases.now, &mut bases.none, row_at(sets, p), p);
}
