//! All pseudo-closed sets of a table, in lectic order.

ghost use Rattle.std.specs.Prelude.{◌≡◌, ℕ, ◌<◌, ◌≤◌, ◌^◌, length, All, AllPairs, IfOk, IfErr, OnOk};
ghost use Rattle.std.specs.declared.cmp.Ordering.TheVariants.{Less};
ghost use Rattle.std.specs.List.Sorted.{IsPermutation};
ghost use Rattle.kaba_bits.specs.Sets.{HasWidth};
ghost use Rattle.stem_base.specs.Base.{common, implication_cmp, IsStemBase, all_sides};
ghost use Rattle.stem_base.specs.Lectic.{Precedes, IsKeptSet};
ghost use Rattle.stem_base.specs.Found.{narrowed, AreBefore, AreNoted, AreStemsFound};
ghost use Rattle.stem_base.specs.Faults.{IsBaseFault};

use crate::BaseFault;
use crate::implications::Implication;
use crate::next::next_set;
use kaba_bits::{BitRow, row_at};
use std::alloc::{AllocError, Global};
use std::mem::swap;

/// Takes out of the common columns what a row lacks, if it has all of a set.
fn narrow(out: &mut BitRow, row: &BitRow, set: &BitRow)
    requires out { length out.old ≡ length row.now }
    requires set { length set.now ≡ length row.now }
    ensures { out.new ≡ narrowed row.now set.now out.old }
{
    if set.is_subset(row) {
        out.and_into(row);
    }
}

/// The columns common to the rows that have all of a set.
fn closure_of(
    alloc: Global,
    table: &[BitRow],
    width: u32,
    set: &BitRow,
) -> Result<BitRow, AllocError>
    requires rows { HasWidth width table.now }
    requires set { length set.now ≡ width }
    ensures { IfOk result (λ r. r ≡ common table.now width set.now) }
{
    let mut out = BitRow::full(alloc, width)?;
    let mut k = table.len();
    while k > 0 {
        k -= 1;
        narrow(&mut out, row_at(table, k), set);
    }
    Ok(out)
}

/// Adds the implication of a set, if it is not its own closure.
fn note(
    alloc: Global,
    table: &[BitRow],
    width: u32,
    a: &BitRow,
    base: &mut Vec<Implication>,
) -> Result<(), AllocError>
    requires rows { HasWidth width table.now }
    requires kept { IsKeptSet width (common table.now width) a.now }
    requires before { AreBefore width (common table.now width) a.now (all_sides base.old.items) }
    ensures { OnOk result (AreNoted width (common table.now width) a.now (all_sides base.new.items)) }
{
    let closed = closure_of(alloc, table, width, a)?;
    if !closed.is_subset(a) {
        let left = a.copy(alloc)?;
        base.push(Implication {
            left,
            right: closed,
        })?;
    }
    Ok(())
}

/// The implications of all pseudo-closed sets, or one more than the bound of them.
fn found_stems(
    alloc: Global,
    table: &[BitRow],
    width: u32,
    bound: u32,
) -> Result<Vec<Implication>, AllocError>
    requires rows { HasWidth width table.now }
    ensures { IfOk result (λ v. AreStemsFound width (common table.now width) bound (all_sides v.items)) }
{
    let mut base = Vec::new(alloc);
    let mut a = BitRow::new(alloc, width)?;
    let mut x = BitRow::new(alloc, width)?;
    'scan: loop {
        note(alloc, table, width, &a, &mut base)?;
        if base.len() > bound as usize {
            return Ok(base);
        }
        let mut start = a.copy(alloc)?;
        if !next_set(&base, &a, &mut start, &mut x) {
            return Ok(base);
        }
        swap(&mut a, &mut x);
    }
}

/// The least base of the implications of a table, if it has no more than the bound.
pub fn stem_of(
    alloc: Global,
    table: &[BitRow],
    width: u32,
    bound: u32,
) -> Result<Vec<Implication>, BaseFault>
    requires rows { HasWidth width table.now }
    ensures base { IfOk result (λ v. IsStemBase width (common table.now width) (all_sides v.items)) }
    ensures within { IfOk result (λ v. length v.items ≤ bound) }
    ensures cause { IfErr result (λ e. IsBaseFault table.now width bound e) }
{
    let mut base = found_stems(alloc, table, width, bound)?;
    sort_stems(&mut base)?;
    if base.len() > bound as usize {
        return Err(BaseFault::TooManyImplications(bound));
    }
    Ok(base)
}

/// Puts implications that stand in lectic order in the order of the base.
fn sort_stems(base: &mut Vec<Implication>) -> Result<(), AllocError>
    requires rising { AllPairs (λ r s. Precedes r.0 s.0) (all_sides base.old.items) }
    requires widths { (w : ℕ) × All (λ r. length r.0 ≡ w) (all_sides base.old.items) }
    ensures same { IsPermutation (all_sides base.old.items) (all_sides base.new.items) }
    ensures ordered { OnOk result (AllPairs (λ a b. implication_cmp a b ≡ Less) (all_sides base.new.items)) }
{
    base.reverse();
    base.sort_by_key(|x| x.left.count())?;
    Ok(())
}
