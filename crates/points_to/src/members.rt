//! What the facts ask of members of the sites of a base: loads and stores, and of calls the arguments and results and the body that runs.

ghost use Rattle.std.specs.Prelude.{◌≡◌, IfOk};
ghost use Rattle.std.specs.List.{flat_map};
ghost use Rattle.points_to.specs.Closed.{asked_reads, asked_writes, asked_runs, write_of_argument, writes_of_call, read_of_result};

use crate::targets::point_at;
use crate::work::{Member, Read, Run, Write};
use fact_model::{CallInfo, Facts};
use std::alloc::{AllocError, Global};

/// What is asked of a member of each site of a base.
#[derive(Drop)]
pub struct Members {
    pub reads: Vec<Read>,
    pub writes: Vec<Write>,
    pub runs: Vec<Run>,
}

/// The result of a call, where it is a point.
fn read_of_result(call: &CallInfo) -> Option<Read>
    ensures { result ≡ read_of_result call.now }
{
    call.result.map(|into| Read {
        base: call.receiver,
        member: Member::Returned(call.slot),
        into,
    })
}

/// Each load and each result. An error comes only for want of memory.
pub fn reads(alloc: Global, facts: &Facts) -> Result<Vec<Read>, AllocError>
    ensures { IfOk result (λ v. v.items ≡ asked_reads facts.now) }
{
    let loads = facts.loads.iter().map(|x| Read {
        base: x.base,
        member: Member::Field(x.column),
        into: x.into,
    });
    let results = facts.calls.iter().filter_map(|x| read_of_result(x));
    loads.chain(results).collect(alloc)
}

/// The argument of a number of a call, where it is a point.
fn write_of_argument(call: &CallInfo, k: usize) -> Option<Write>
    ensures { result ≡ write_of_argument call.now k }
{
    point_at(&call.args, k).map(|value| Write {
        base: call.receiver,
        member: Member::Parameter(call.slot, k),
        value,
    })
}

/// Each argument of a call. An error comes only for want of memory.
fn arguments_of(alloc: Global, call: &CallInfo) -> Result<Vec<Write>, AllocError>
    ensures { IfOk result (λ v. v.items ≡ writes_of_call call.now) }
{
    (0..call.args.len())
        .filter_map(|k| write_of_argument(call, k))
        .collect(alloc)
}

/// Each argument of each call. An error comes only for want of memory.
fn arguments(alloc: Global, facts: &Facts) -> Result<Vec<Write>, AllocError>
    ensures { IfOk result (λ v. v.items ≡ flat_map writes_of_call facts.now.calls.items) }
{
    let mut list = Vec::new(alloc);
    for call in &facts.calls {
        let arguments = arguments_of(alloc, call)?;
        list.extend_from_slice(&arguments)?;
    }
    Ok(list)
}

/// Each store and each argument. An error comes only for want of memory.
pub fn writes(alloc: Global, facts: &Facts) -> Result<Vec<Write>, AllocError>
    ensures { IfOk result (λ v. v.items ≡ asked_writes facts.now) }
{
    let arguments = arguments(alloc, facts)?;
    let stores = facts.stores.iter().map(|x| Write {
        base: x.base,
        member: Member::Field(x.column),
        value: x.value,
    });
    stores.chain(arguments.into_iter()).collect(alloc)
}

/// Each call. An error comes only for want of memory.
pub fn runs(alloc: Global, facts: &Facts) -> Result<Vec<Run>, AllocError>
    ensures { IfOk result (λ v. v.items ≡ asked_runs facts.now) }
{
    let run = |x: &CallInfo| Run {
        base: x.receiver,
        slot: x.slot,
    };
    facts.calls.iter().map(run).collect(alloc)
}

/// Numbers by which members are in order: what they are of, and which parameter.
pub fn order_of(member: Member) -> (u8, u32, usize) {
    match member {
        Member::Field(None) => (0, 0, 0),
        Member::Field(Some(column)) => (1, column.0, 0),
        Member::This(slot) => (2, slot, 0),
        Member::Parameter(slot, k) => (3, slot, k),
        Member::Returned(slot) => (4, slot, 0),
    }
}
