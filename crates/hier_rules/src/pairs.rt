//! The ties and the super calls of the facts as rows of bits, each made once.

ghost use Rattle.std.specs.Prelude.{◌≡◌, ℕ, ◌<◌, ◌||◌, length, IfOk};
ghost use Rattle.hier_rules.specs.Words.{bit, row, InRange};
ghost use Rattle.hier_rules.specs.Asked.{is_pair, is_tie, is_super};
ghost use Rattle.hier_rules.specs.Pairs.{ArePairRows};

use fact_model::Facts;
use kaba_bits::{BitRow, empty_rows, set_at};
use std::alloc::{AllocError, Global};

/// For each row the numbers of this width that a list of pairs has with it.
macro_rules! rows_of_pairs {
    ($alloc:expr, $facts:expr, $width:expr; $pair:ident in $pairs:expr => $one:expr, $other:expr) => {{
        let mut rows = empty_rows($alloc, $facts.rows.len(), $width)?;
        for $pair in $pairs {
            add_pair(&mut rows, $one.0, $other.0);
        }
        Ok(rows)
    }};
}

/// For each row the upper rows of its ties. An error comes only for want of memory.
pub fn tie_rows(alloc: Global, facts: &Facts) -> Result<Vec<BitRow>, AllocError>
    requires { InRange facts.now }
    ensures { IfOk result (λ v. ArePairRows (length facts.now.rows.items) (length facts.now.rows.items) (is_tie facts.now) v.items) }
{
    rows_of_pairs!(alloc, facts, facts.rows.len() as u32; x in &facts.ties => x.lower, x.upper)
}

/// For each row the bodies that super calls in its method run. An error comes only for want of memory.
pub fn super_rows(alloc: Global, facts: &Facts) -> Result<Vec<BitRow>, AllocError>
    requires { InRange facts.now }
    ensures { IfOk result (λ v. ArePairRows (length facts.now.rows.items) (length facts.now.columns.items) (is_super facts.now) v.items) }
{
    rows_of_pairs!(alloc, facts, facts.columns.len() as u32; x in &facts.supers => x.row, x.column)
}

/// Adds a pair.
fn add_pair(rows: &mut [BitRow], a: u32, b: u32)
    requires row { a < length rows.old }
    requires number { b < length (row rows.old a) }
    ensures len { length rows.new ≡ length rows.old }
    ensures widths { (k : ℕ) → length (row rows.new k) ≡ length (row rows.old k) }
    ensures added { (x y : ℕ) → bit (row rows.new x) y ≡ (bit (row rows.old x) y || is_pair a b x y) }
{
    set_at(rows, a as usize, b);
}
