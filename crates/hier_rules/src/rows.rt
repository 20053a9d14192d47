//! B2 and B3: rows and their columns, ties, and sites in the sets of rows.
#![tactic(auto, using(kaba_bits::proofs::FirstLemmas::first_below_found))]

ghost use Rattle.std.specs.Prelude.{◌≡◌, ℕ, ◌<◌, length, IfOk};
ghost use Rattle.hier_rules.specs.Words.{first_below, IsObligationInput};
ghost use Rattle.hier_rules.specs.Asked.{is_tie};
ghost use Rattle.hier_rules.specs.Pairs.{ArePairRows, IsPairsRow};
ghost use Rattle.hier_rules.specs.Instances.{of_both, of_row};
ghost use Rattle.hier_rules.specs.Obligations.{unoffered, first_unoffered, untied, unheld, first_untied};

use crate::broken::{Broken, Nodes, Rule};
use crate::pairs::tie_rows;
use crate::places::{Asked, is_offered, place_of_row, row_le};
use hier_model::site_at;
use kaba_base::{ColId, NodeId, RowId, SiteId};
use kaba_bits::{BitRow, row_at};
use std::alloc::{AllocError, Global};

/// An instance at a node, of a row and a column.
pub fn of_both(rule: Rule, n: NodeId, r: u32, c: u32) -> Broken
    ensures { result ≡ of_both rule n.0 r c }
{
    Broken {
        rule,
        nodes: Nodes::One(n),
        row: Some(RowId(r)),
        column: Some(ColId(c)),
    }
}

/// An instance at the nodes of two rows, of the first.
pub fn of_row(rule: Rule, n: NodeId, m: NodeId, r: u32) -> Broken
    ensures { result ≡ of_row rule n.0 m.0 r }
{
    Broken {
        rule,
        nodes: Nodes::Two(n, m),
        row: Some(RowId(r)),
        column: None,
    }
}

/// The first instance against B2.
pub fn first_unoffered(asked: &Asked) -> Option<Broken>
    requires { IsObligationInput asked.now }
    ensures { result ≡ first_unoffered asked.now.facts.now asked.now.hier.now }
{
    first_below!(r < asked.facts.rows.len() as u32; first_unoffered_of(asked, r))
}

/// The first column that a row has and is not offered.
fn first_unoffered_of(asked: &Asked, r: u32) -> Option<Broken>
    requires asked { IsObligationInput asked.now }
    requires row { r < length asked.now.facts.now.rows.items }
    ensures { result ≡ first_below (length asked.now.facts.now.columns.items) (unoffered asked.now.facts.now asked.now.hier.now r) }
{
    let n = place_of_row(asked, r);
    let row = asked.hier.table_row(RowId(r));
    for c in 0..asked.facts.columns.len() as u32 {
        if row.has(c) && !is_offered(asked, n, c) {
            return Some(of_both(Rule::B2, n, r, c));
        }
    }
    None
}

/// The first instance against B3. An error comes only for want of memory.
pub fn first_untied(alloc: Global, asked: &Asked) -> Result<Option<Broken>, AllocError>
    requires { IsObligationInput asked.now }
    ensures { IfOk result (λ b. b ≡ first_untied asked.now.facts.now asked.now.pt.now asked.now.hier.now) }
{
    let ties = tie_rows(alloc, asked.facts)?;
    match first_tie(asked, &ties) {
        Some(found) => Ok(Some(found)),
        None => Ok(first_unheld(asked)),
    }
}

/// The first tie whose lower row does not stand at or below its upper.
fn first_tie(asked: &Asked, ties: &[BitRow]) -> Option<Broken>
    requires asked { IsObligationInput asked.now }
    requires ties { ArePairRows (length asked.now.facts.now.rows.items) (length asked.now.facts.now.rows.items) (is_tie asked.now.facts.now) ties.now }
    ensures { result ≡ first_below (length asked.now.facts.now.rows.items) (λ l. first_below (length asked.now.facts.now.rows.items)
        (untied asked.now.facts.now asked.now.hier.now l)) }
{
    first_below!(l < asked.facts.rows.len() as u32; first_tie_of(asked, row_at(ties, l as usize), l))
}

/// The first such tie of a lower row.
fn first_tie_of(asked: &Asked, uppers: &BitRow, l: u32) -> Option<Broken>
    requires asked { IsObligationInput asked.now }
    requires row { l < length asked.now.facts.now.rows.items }
    requires uppers { IsPairsRow (length asked.now.facts.now.rows.items) (is_tie asked.now.facts.now l) uppers.now }
    ensures { result ≡ first_below (length asked.now.facts.now.rows.items) (untied asked.now.facts.now asked.now.hier.now l) }
{
    for u in 0..asked.facts.rows.len() as u32 {
        if uppers.has(u) && !row_le(asked, l, u) {
            return Some(of_row(Rule::B3, place_of_row(asked, l), place_of_row(asked, u), l));
        }
    }
    None
}

/// The first site that does not stand at or below a row in whose set it is.
fn first_unheld(asked: &Asked) -> Option<Broken>
    requires { IsObligationInput asked.now }
    ensures { result ≡ first_below (length asked.now.facts.now.sites.items) (λ o. first_below (length asked.now.facts.now.rows.items)
        (unheld asked.now.facts.now asked.now.pt.now asked.now.hier.now o)) }
{
    first_below!(o < asked.facts.sites.len() as u32; first_unheld_of(asked, o))
}

/// The first row in whose set a site is and at or below which it does not stand.
fn first_unheld_of(asked: &Asked, o: u32) -> Option<Broken>
    requires asked { IsObligationInput asked.now }
    requires site { o < length asked.now.facts.now.sites.items }
    ensures { result ≡ first_below (length asked.now.facts.now.rows.items) (unheld asked.now.facts.now asked.now.pt.now asked.now.hier.now o) }
{
    let r = site_at(asked.facts, SiteId(o)).row.0;
    let n = place_of_row(asked, r);
    for v in 0..asked.facts.rows.len() as u32 {
        if row_at(&asked.pt.rows, v as usize).has(o) && !row_le(asked, r, v) {
            return Some(of_row(Rule::B3, n, place_of_row(asked, v), r));
        }
    }
    None
}
