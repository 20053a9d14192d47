//! What the facts ask for, in lists: creations, flows and casts, and what is asked of members.

ghost use Rattle.std.specs.Prelude.{◌≡◌, IfOk};
ghost use Rattle.fact_model.specs.InRange.{InRange};
ghost use Rattle.points_to.specs.Work.{AreFound};
ghost use Rattle.points_to.specs.Closed.{asked_told, asked_edges, AreAskedFound};

use crate::index::Index;
use crate::members::{Members, order_of, reads, runs, writes};
use crate::work::{Edge, Told};
use fact_model::{Facts, NewInfo};
use std::alloc::{AllocError, Global};

/// Inclusions, sites that are in a set, and what is asked of members.
#[derive(Drop)]
pub struct Found {
    pub edges: Vec<Edge>,
    pub told: Vec<Told>,
    pub members: Members,
}

/// What the sets are found by: the facts with their index, and what they ask for.
#[derive(Drop)]
pub struct Given<'a> {
    pub alloc: Global,
    pub facts: &'a Facts,
    pub index: &'a Index,
    pub found: &'a Found,
}

/// Each creation into its point. An error comes only for want of memory.
fn told(alloc: Global, facts: &Facts) -> Result<Vec<Told>, AllocError>
    ensures { IfOk result (λ v. v.items ≡ asked_told facts.now) }
{
    let told = |x: &NewInfo| Told {
        node: x.point as usize,
        site: x.site.0,
    };
    facts.news.iter().map(told).collect(alloc)
}

/// Each flow and each cast. An error comes only for want of memory.
fn edges(alloc: Global, facts: &Facts) -> Result<Vec<Edge>, AllocError>
    ensures { IfOk result (λ v. v.items ≡ asked_edges facts.now) }
{
    let flows = facts.flows.iter().map(|x| Edge {
        from: x.from as usize,
        to: x.to as usize,
        class: None,
    });
    let casts = facts.casts.iter().map(|x| Edge {
        from: x.from as usize,
        to: x.into as usize,
        class: Some(x.class),
    });
    flows.chain(casts).collect(alloc)
}

/// What all facts ask for. The reads, writes and runs of one member stand together, and among them those of one base. An error comes only for
/// want of memory.
pub fn found_of(alloc: Global, facts: &Facts) -> Result<Found, AllocError>
    requires { InRange facts.now }
    ensures found { IfOk result (AreFound facts.now) }
    ensures asked { IfOk result (AreAskedFound facts.now) }
{
    let told = told(alloc, facts)?;
    let edges = edges(alloc, facts)?;
    let mut reads = reads(alloc, facts)?;
    reads.sort_by_key(|x| (order_of(x.member), x.base))?;
    let mut writes = writes(alloc, facts)?;
    writes.sort_by_key(|x| (order_of(x.member), x.base))?;
    let mut runs = runs(alloc, facts)?;
    runs.sort_by_key(|x| (x.slot, x.base))?;
    Ok(Found {
        edges,
        told,
        members: Members {
            reads,
            writes,
            runs,
        },
    })
}
