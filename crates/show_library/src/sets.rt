//! Sets and families of sets.

ghost use Rattle.std.specs.Prelude.{◌≡◌, length};
ghost use Rattle.kaba_bits.specs.Sets.{HasWidth};

use kaba_bits::{BitRow, copy_rows, empty_rows, join, join_with, row_at, set_at};
use std::alloc::{AllocError, Global};

/// The numbers of a set.
fn add_set(alloc: Global, text: &mut String, what: &str, set: &BitRow) -> Result<(), AllocError> {
    write!(text, "{what}:")?;
    for i in &set.rising(alloc)? {
        write!(text, " {i}")?;
    }
    text.push('\n')
}

/// Adds 4 to the first row, the first row to the last, and a set to that. Whether each grew.
fn fill(rows: &mut [BitRow], extra: &BitRow) -> [bool; 4]
    requires len { length rows.old ≡ 3 }
    requires widths { HasWidth 5 rows.old }
    requires extra { length extra.now ≡ 5 }
{
    let first = set_at(rows, 0, 4);
    let last = join(rows, 0, 2);
    let again = join(rows, 2, 0);
    let more = join_with(rows, 2, extra);
    [first, last, again, more]
}

/// A family of three sets, and its copy.
fn add_family(alloc: Global, text: &mut String) -> Result<(), AllocError> {
    let mut rows = empty_rows(alloc, 3, 5)?;
    let mut extra = BitRow::new(alloc, 5)?;
    extra.set(1);
    for grew in fill(&mut rows, &extra) {
        write!(text, "grew: {grew}\n")?;
    }
    let copies = copy_rows(alloc, &rows)?;
    for row in &copies {
        add_set(alloc, text, "row", row)?;
    }
    Ok(())
}

/// Two sets, and what each call makes of them.
pub fn add_sets(alloc: Global, text: &mut String) -> Result<(), AllocError> {
    let mut low = BitRow::new(alloc, 9)?;
    low.set(1);
    low.set(2);
    let mut high = BitRow::full(alloc, 9)?;
    high.remove(1);
    let mut both = low.copy(alloc)?;
    both.and_into(&high);
    add_set(alloc, text, "both", &both)?;
    low.or_into(&high);
    add_set(alloc, text, "either", &low)?;
    both.clear();
    add_set(alloc, text, "none", &both)?;
    add_family(alloc, text)
}
