//! Facts of one row and one class, with flows that are drawn.

ghost use Rattle.std.specs.Prelude.{◌<◌, All, IfOk};
ghost use Rattle.fact_model.specs.InRange.{InRange};
ghost use Rattle.show_facts.specs.Drawn.{AreMany, IsRoot, IsOnlyRow, IsFirstRow, IsFirstSite, IsPair, IsNew, IsDrawnFlow};

use fact_model::{ClassInfo, Facts, FlowInfo, NewInfo, RowInfo, SiteInfo};
use kaba_base::{ClassId, Name, RowId, SiteId};
use std::alloc::{AllocError, Global};

/// How many points, sites and flows.
const POINTS: u32 = 2000;

const SITES: u32 = 500;

const FLOWS: u32 = 5000;

/// Points and sites of one row; each site is in a point, and the flows go from points to points. An error comes only
/// for want of memory.
pub fn facts(alloc: Global) -> Result<Facts, AllocError>
    ensures { IfOk result InRange }
{
    Ok(Facts {
        rows: rows(alloc)?,
        columns: Vec::new(alloc),
        sites: sites(alloc)?,
        classes: classes(alloc)?,
        points: points(alloc)?,
        cells: Vec::new(alloc),
        news: news(alloc)?,
        flows: flows(alloc)?,
        loads: Vec::new(alloc),
        stores: Vec::new(alloc),
        bodies: Vec::new(alloc),
        calls: Vec::new(alloc),
        casts: Vec::new(alloc),
        accesses: Vec::new(alloc),
        supers: Vec::new(alloc),
        ties: Vec::new(alloc),
        tests: Vec::new(alloc),
        words: Vec::new(alloc),
        vars: Vec::new(alloc),
        makers: None,
        makes: Vec::new(alloc),
        spots: Vec::new(alloc),
    })
}

/// The one row.
fn rows(alloc: Global) -> Result<Vec<RowInfo>, AllocError>
    ensures { IfOk result (λ v. AreMany 1 IsOnlyRow v.items) }
{
    let row = RowInfo {
        label: Name::new(alloc, "")?,
        class: ClassId(0),
        dim: 0,
        site: None,
        this_of: None,
    };
    Ok(vec![in alloc; row]?)
}

/// The one class.
fn classes(alloc: Global) -> Result<Vec<ClassInfo>, AllocError>
    ensures { IfOk result (λ v. AreMany 1 IsRoot v.items) }
{
    let class = ClassInfo {
        name: Name::new(alloc, "")?,
        parent: None,
        faces: Vec::new(alloc),
        is_interface: false,
        holder: false,
    };
    Ok(vec![in alloc; class]?)
}

/// The row of each point.
fn points(alloc: Global) -> Result<Vec<RowId>, AllocError>
    ensures { IfOk result (λ v. AreMany 2000 IsFirstRow v.items) }
{
    vec![in alloc; RowId(0); POINTS as usize]
}

/// The sites.
fn sites(alloc: Global) -> Result<Vec<SiteInfo>, AllocError>
    ensures { IfOk result (λ v. AreMany 500 IsFirstSite v.items) }
{
    let site = SiteInfo {
        row: RowId(0),
        class: ClassId(0),
        dim: 0,
    };
    vec![in alloc; site; SITES as usize]
}

/// The next number of the generator.
fn next(x: u64) -> u64 {
    ((x % 0x8000_0000) * 1_103_515_245 + 12345) % 0x8000_0000
}

/// So many pairs of a point and a number below the limit, drawn from the seed.
fn pairs(alloc: Global, seed: u64, count: u32, limit: u32) -> Result<Vec<(u32, u32)>, AllocError>
    requires { 0 < limit }
    ensures { IfOk result (λ v. All (IsPair limit) v.items) }
{
    let mut pairs = Vec::new(alloc);
    let mut x = seed;
    for _k in 0..count {
        x = next(x);
        let point = ((x / 8) % u64::from(POINTS)) as u32;
        x = next(x);
        let number = ((x / 8) % u64::from(limit)) as u32;
        pairs.push((point, number))?;
    }
    Ok(pairs)
}

/// Sites in points.
fn news(alloc: Global) -> Result<Vec<NewInfo>, AllocError>
    ensures { IfOk result (λ v. All IsNew v.items) }
{
    let drawn = pairs(alloc, 1, SITES, SITES)?;
    drawn
        .into_iter()
        .map(|(point, site)| NewInfo {
            point,
            site: SiteId(site),
        })
        .collect(alloc)
}

/// Flows between points.
fn flows(alloc: Global) -> Result<Vec<FlowInfo>, AllocError>
    ensures { IfOk result (λ v. All IsDrawnFlow v.items) }
{
    let drawn = pairs(alloc, 2, FLOWS, POINTS)?;
    drawn
        .into_iter()
        .map(|(from, to)| FlowInfo { from, to })
        .collect(alloc)
}
