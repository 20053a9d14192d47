//! The lines of a base.

ghost use Rattle.std.specs.Prelude.{◌≡◌, ◌++◌, IfOk, OnOk, not, string_bytes};
ghost use Rattle.std.specs.List.{filter};
ghost use Rattle.kaba_bits.specs.Sets.{bit};
ghost use Rattle.stem_base.specs.Base.{sides_of, all_sides};
ghost use Rattle.stem_base.specs.Text.{added, implication_text, implications_text, base_text};

use crate::implications::Implication;
use kaba_bits::BitRow;
use lattice_view::add_part;
use std::alloc::{AllocError, Global};

/// The lines.
pub fn text_of(alloc: Global, base: &[Implication]) -> Result<String, AllocError>
    ensures { IfOk result (λ s. string_bytes s ≡ base_text (all_sides base.now)) }
{
    let count = base.len();
    let mut text = String::new(alloc);
    write!(text, "implications {count}\n")?;
    add_implications(alloc, &mut text, base)?;
    Ok(text)
}

/// Adds the lines of implications.
fn add_implications(
    alloc: Global,
    text: &mut String,
    base: &[Implication],
) -> Result<(), AllocError>
    ensures { OnOk result (string_bytes text.new ≡ string_bytes text.old ++ implications_text 0 (all_sides base.now)) }
{
    for k in 0..base.len() {
        add_implication(alloc, text, k, &base[k])?;
    }
    Ok(())
}

/// Adds the line of one implication.
fn add_implication(
    alloc: Global,
    text: &mut String,
    k: usize,
    x: &Implication,
) -> Result<(), AllocError>
    ensures { OnOk result (string_bytes text.new ≡ string_bytes text.old ++ implication_text k (sides_of x.now)) }
{
    let left = x.left.rising(alloc)?;
    let more = added_columns(alloc, x)?;
    write!(text, "i{k}")?;
    add_part(text, ":", "c", &left)?;
    add_part(text, " ->", "c", &more)?;
    text.push_str("\n")?;
    Ok(())
}

/// The columns of the right side that the left side lacks, rising.
fn added_columns(alloc: Global, x: &Implication) -> Result<Vec<u32>, AllocError>
    ensures { IfOk result (λ v. v.items ≡ added (sides_of x.now)) }
{
    let right = x.right.rising(alloc)?;
    lacking(alloc, &right, &x.left)
}

/// Those numbers of a list that a set lacks, in their order.
fn lacking(alloc: Global, numbers: &[u32], set: &BitRow) -> Result<Vec<u32>, AllocError>
    ensures { IfOk result (λ v. v.items ≡ filter (λ c. not (bit set.now c)) numbers.now) }
{
    let mut more = Vec::new(alloc);
    for c in numbers {
        if lacks(set, *c) {
            more.push(*c)?;
        }
    }
    Ok(more)
}

/// Whether a number, of any size, is not in a set.
fn lacks(set: &BitRow, c: u32) -> bool
    ensures { result ≡ not (bit set.now c) }
{
    c >= set.width() || !set.has(c)
}
