//! The classes at or above a class, and the sites of a class at or below one.

ghost use Rattle.std.specs.Prelude.{◌≡◌, ℕ, ◌<◌, ◌↔◌, ◌∷◌, [], false, length, All, IsTrue, IfSome, IfOk, OnOk};
ghost use Rattle.std.specs.Option.{option_to_list};
ghost use Rattle.fact_model.specs.InRange.{InRange, IsClass};
ghost use Rattle.fact_model.specs.Classes.{supers_of, IsBelow};
ghost use Rattle.kaba_bits.specs.Sets.{row, bit, HasWidth};
ghost use Rattle.points_to.specs.Above.{GainedClasses, IsAboveRow, AreSitesBelow, HaveGainedSite};

use crate::work::site_at;
use fact_model::{Facts, class_at};
use kaba_base::ClassId;
use kaba_bits::{BitRow, empty_rows, set_at};
use std::alloc::{AllocError, Global};

/// Whether a class is at or below another; the row has what is at or above the one.
pub fn is_below(facts: &Facts, above: &BitRow, a: ClassId, b: ClassId) -> bool
    requires { IsAboveRow facts.now a.0 above.now }
    ensures { IsTrue result ↔ IsBelow facts.now a.0 b.0 }
{
    let _ = facts;
    let _ = a;
    b.0 < above.width() && above.has(b.0)
}

/// One class, which waits where it is new.
fn reach(row: &mut BitRow, waiting: &mut Vec<ClassId>, x: ClassId) -> Result<(), AllocError>
    requires { x.0 < length row.old }
    ensures { OnOk result (GainedClasses (x ∷ []) row.old row.new waiting.old.items waiting.new.items) }
{
    if row.set(x.0) {
        waiting.push(x)?;
    }
    Ok(())
}

/// These classes, each of which waits where it is new.
fn reach_all(
    row: &mut BitRow,
    waiting: &mut Vec<ClassId>,
    more: &[ClassId],
) -> Result<(), AllocError>
    requires { All (λ x. x.0 < length row.old) more.now }
    ensures { OnOk result (GainedClasses more.now row.old row.new waiting.old.items waiting.new.items) }
{
    for x in more {
        reach(row, waiting, *x)?;
    }
    Ok(())
}

/// The superclass, where there is one.
fn reach_parent(
    row: &mut BitRow,
    waiting: &mut Vec<ClassId>,
    parent: Option<ClassId>,
) -> Result<(), AllocError>
    requires { IfSome parent (λ x. x.0 < length row.old) }
    ensures { OnOk result (GainedClasses (option_to_list parent) row.old row.new waiting.old.items waiting.new.items) }
{
    match parent {
        Some(x) => reach(row, waiting, x),
        None => Ok(()),
    }
}

/// What stands directly above a class.
fn reach_supers(
    facts: &Facts,
    row: &mut BitRow,
    waiting: &mut Vec<ClassId>,
    x: ClassId,
) -> Result<(), AllocError>
    requires facts { InRange facts.now }
    requires class { IsClass facts.now x }
    requires len { length row.old ≡ length facts.now.classes.items }
    ensures { OnOk result (GainedClasses (supers_of facts.now x.0) row.old row.new waiting.old.items waiting.new.items) }
{
    let class = class_at(facts, x);
    reach_parent(row, waiting, class.parent)?;
    reach_all(row, waiting, class.faces.as_slice())?;
    Ok(())
}

/// The classes at or above a class, found by a walk upwards. An error comes only for want of memory.
pub fn classes_above(alloc: Global, facts: &Facts, a: ClassId) -> Result<BitRow, AllocError>
    requires facts { InRange facts.now }
    requires class { IsClass facts.now a }
    ensures { IfOk result (λ r. IsAboveRow facts.now a.0 r) }
{
    let mut row = BitRow::new(alloc, facts.classes.len() as u32)?;
    let mut waiting = Vec::new(alloc);
    reach(&mut row, &mut waiting, a)?;
    'walk: while let Some(x) = waiting.pop() {
        reach_supers(facts, &mut row, &mut waiting, x)?;
    }
    Ok(row)
}

/// A site into the row of each of these classes.
fn put_site(rows: &mut [BitRow], classes: &BitRow, s: u32)
    requires len { length rows.old ≡ length classes.now }
    requires widths { (k : ℕ) → k < length rows.old → s < length (row rows.old k) }
    ensures { HaveGainedSite rows.old rows.new classes.now s (length classes.now) }
{
    let count = classes.width();
    let mut at = 0;
    'scan: while at < count {
        match classes.next(at) {
            Some(k) => {
                set_at(rows, k as usize, s);
                at = k + 1;
            }
            None => return,
        }
    }
}

/// Each site into the rows of the classes at or above its own. An error comes only for want of memory.
fn put_sites(alloc: Global, facts: &Facts, rows: &mut [BitRow]) -> Result<(), AllocError>
    requires facts { InRange facts.now }
    requires rows { AreSitesBelow facts.now 0 rows.old }
    ensures { OnOk result (AreSitesBelow facts.now (length facts.now.sites.items) rows.new) }
{
    for s in 0..facts.sites.len() as u32 {
        let classes = classes_above(alloc, facts, site_at(facts, s).class)?;
        put_site(rows, &classes, s);
    }
    Ok(())
}

/// For each class no sites. An error comes only for want of memory.
fn no_sites(alloc: Global, facts: &Facts) -> Result<Vec<BitRow>, AllocError>
    requires { InRange facts.now }
    ensures len { IfOk result (λ v. length v.items ≡ length facts.now.classes.items) }
    ensures widths { IfOk result (λ v. HasWidth (length facts.now.sites.items) v.items) }
    ensures empty { IfOk result (λ v. (k s : ℕ) → bit (row v.items k) s ≡ false) }
{
    empty_rows(alloc, facts.classes.len(), facts.sites.len() as u32)
}

/// For each class the sites of a class at or below it. An error comes only for want of memory.
pub fn sites_below(alloc: Global, facts: &Facts) -> Result<Vec<BitRow>, AllocError>
    requires { InRange facts.now }
    ensures { IfOk result (λ v. AreSitesBelow facts.now (length facts.now.sites.items) v.items) }
{
    let mut rows = no_sites(alloc, facts)?;
    put_sites(alloc, facts, &mut rows)?;
    Ok(rows)
}
