//! What each part of a body gives to each list of the facts.

ghost use Rattle.std.specs.Prelude.{◌≡◌, ℕ, ◌+◌, ◌<◌, ◌++◌, ◌∷◌, [], List, Option, Some, None, IfOk, OnOk, length, map, position};
ghost use Rattle.flow_rules.specs.Lists.{created, moved, tied, accessed, created_args, moved_args, news_of, flows_of, loads_of, stores_of, calls_of, casts_of, tests_of, accesses_of, supers_of, ties_of, point_at, row_at, row_in};
ghost use Rattle.flow_facts.specs.Seen.{calls_seen};
ghost use Rattle.flow_facts.specs.Words.{program_of, IsFormed, each, part_seen, parts_seen, body_seen, numbers_seen, if_there};

use crate::Tried;
use crate::given::Given;
use crate::numbering::Numbering;
use fact_model::{
    AccessInfo, CallInfo, CastInfo, FlowInfo, LoadInfo, NewInfo, StoreInfo, SuperInfo, TestInfo,
    TieInfo,
};
use flow_rules::{ColumnItem, Operand, Part, PointItem, RowItem, number_among};
use kaba_base::{ColId, Place, RowId, SiteId, put};
use std::alloc::Global;

/// A call at its place.
#[derive(Drop)]
pub struct PlacedCall {
    pub place: Place,
    pub call: CallInfo,
}

/// Adds an item at the end, where there is one.
pub fn put_if<T: Drop>(list: &mut Vec<T>, item: Option<T>) -> Tried<()>
    ensures value { OnOk result (list.new.items ≡ list.old.items ++ if_there (λ x. x) item) }
{
    match item {
        Some(item) => put(list, item),
        None => Ok(()),
    }
}

/// The number of an operand's flow point.
pub fn point_at(n: &Numbering, operand: &Operand) -> Option<u32>
    ensures value { result ≡ point_at (numbers_seen n.now) operand.now }
{
    match operand.point {
        Some(item) => n.point(item),
        None => None,
    }
}

/// The number of an operand's row.
pub fn row_at(n: &Numbering, operand: &Operand) -> Option<u32>
    ensures value { result ≡ row_at (numbers_seen n.now) operand.now }
{
    row_in(n, operand.row)
}

/// The number of a row.
pub fn row_in(n: &Numbering, row: Option<RowItem>) -> Option<u32>
    ensures value { result ≡ row_in (numbers_seen n.now) row }
{
    match row {
        Some(item) => n.row(item),
        None => None,
    }
}

/// Adds a creation that flows into a point.
fn add_created(
    n: &Numbering,
    operand: &Operand,
    point: Option<u32>,
    news: &mut Vec<NewInfo>,
) -> Tried<()>
    ensures value { OnOk result (news.new.items ≡ news.old.items ++ created (numbers_seen n.now) operand.now point) }
{
    match (point, operand.created) {
        (Some(point), Some(number)) => match number_among(&n.sites, number) {
            Some(site) => {
                let site = SiteId(site);
                put(news, NewInfo { point, site })
            }
            None => Ok(()),
        },
        _ => Ok(()),
    }
}

/// Adds a point whose set goes into another's.
fn add_moved(from: Option<u32>, to: Option<u32>, flows: &mut Vec<FlowInfo>) -> Tried<()>
    ensures value { OnOk result (flows.new.items ≡ flows.old.items ++ moved from to) }
{
    match (from, to) {
        (Some(from), Some(to)) => put(flows, FlowInfo { from, to }),
        _ => Ok(()),
    }
}

/// Adds a lower and an upper row.
pub fn add_tied(lower: Option<u32>, upper: Option<u32>, ties: &mut Vec<TieInfo>) -> Tried<()>
    ensures value { OnOk result (ties.new.items ≡ ties.old.items ++ tied lower upper) }
{
    match (lower, upper) {
        (Some(lower), Some(upper)) => {
            let (lower, upper) = (RowId(lower), RowId(upper));
            put(ties, TieInfo { lower, upper })
        }
        _ => Ok(()),
    }
}

/// Adds an access.
fn add_accessed(row: Option<u32>, column: Option<u32>, accesses: &mut Vec<AccessInfo>) -> Tried<()>
    ensures value { OnOk result (accesses.new.items ≡ accesses.old.items ++ accessed row column) }
{
    match (row, column) {
        (Some(row), Some(column)) => {
            let (row, column) = (RowId(row), ColId(column));
            put(accesses, AccessInfo { row, column })
        }
        _ => Ok(()),
    }
}

/// Adds the creations among the arguments of the one body of a call.
fn add_created_args(
    n: &Numbering,
    callee: u64,
    args: &Vec<Operand>,
    news: &mut Vec<NewInfo>,
) -> Tried<()>
    ensures value { OnOk result (news.new.items ≡ news.old.items ++ created_args (numbers_seen n.now) callee args.now.items) }
{
    for (i, arg) in args.iter().enumerate() {
        made!(add_created(n, arg, n.point(PointItem::Local(callee, i as u64)), news));
    }
    Ok(())
}

/// Adds the flows of the arguments of the one body of a call.
fn add_moved_args(
    n: &Numbering,
    callee: u64,
    args: &Vec<Operand>,
    flows: &mut Vec<FlowInfo>,
) -> Tried<()>
    ensures value { OnOk result (flows.new.items ≡ flows.old.items ++ moved_args (numbers_seen n.now) callee args.now.items) }
{
    for (i, arg) in args.iter().enumerate() {
        let parameter = n.point(PointItem::Local(callee, i as u64));
        made!(add_moved(point_at(n, arg), parameter, flows));
    }
    Ok(())
}

/// Adds the creations that flow into points.
pub fn add_news(n: &Numbering, m: u64, part: &Part, news: &mut Vec<NewInfo>) -> Tried<()>
    ensures value { OnOk result (news.new.items ≡ news.old.items ++ news_of (numbers_seen n.now) m (part_seen part.now)) }
{
    match part {
        Part::New(_, _, own, _, _, _) => add_created(n, own, point_at(n, own), news),
        Part::Set(target, value) => add_created(n, value, point_at(n, target), news),
        Part::Return(value) => add_created(n, value, n.point(PointItem::Result(m)), news),
        Part::StaticCall(_, callee, args, _) => add_created_args(n, *callee as u64, args, news),
        Part::SuperCall(_, Some(callee), args, _) => add_created_args(
            n,
            *callee as u64,
            args,
            news,
        ),
        _ => Ok(()),
    }
}

/// Adds the flows from point to point.
pub fn add_flows(n: &Numbering, m: u64, part: &Part, flows: &mut Vec<FlowInfo>) -> Tried<()>
    ensures value { OnOk result (flows.new.items ≡ flows.old.items ++ flows_of (numbers_seen n.now) m (part_seen part.now)) }
{
    match part {
        Part::Set(target, value) => add_moved(point_at(n, value), point_at(n, target), flows),
        Part::Return(value) => add_moved(point_at(n, value), n.point(PointItem::Result(m)), flows),
        Part::StaticCall(_, callee, args, own) => {
            let callee = *callee as u64;
            made!(add_moved_args(n, callee, args, flows));
            add_moved(n.point(PointItem::Result(callee)), point_at(n, own), flows)
        }
        Part::SuperCall(_, Some(callee), args, own) => {
            let callee = *callee as u64;
            made!(add_moved_args(n, callee, args, flows));
            made!(add_moved(n.point(PointItem::Result(callee)), point_at(n, own), flows));
            add_moved(
                n.point(PointItem::This(m)),
                n.point(PointItem::This(callee)),
                flows,
            )
        }
        _ => Ok(()),
    }
}

/// Adds the reads of fields and elements.
pub fn add_loads(n: &Numbering, part: &Part, loads: &mut Vec<LoadInfo>) -> Tried<()>
    ensures value { OnOk result (loads.new.items ≡ loads.old.items ++ loads_of (numbers_seen n.now) (part_seen part.now)) }
{
    let (base, column, own) = match part {
        Part::Load(_, base, Some(field), own) => {
            match n.column(ColumnItem::Fld(*field as u64)) {
                Some(column) => (base, Some(ColId(column)), own),
                None => return Ok(()),
            }
        }
        Part::Element(_, base, own) => (base, None, own),
        _ => return Ok(()),
    };
    match (point_at(n, base), point_at(n, own)) {
        (Some(base), Some(into)) => put(loads, LoadInfo { base, column, into }),
        _ => Ok(()),
    }
}

/// Adds the writes of fields and elements.
pub fn add_stores(n: &Numbering, part: &Part, stores: &mut Vec<StoreInfo>) -> Tried<()>
    ensures value { OnOk result (stores.new.items ≡ stores.old.items ++ stores_of (numbers_seen n.now) (part_seen part.now)) }
{
    let (place, base, column, value) = match part {
        Part::Store(place, base, Some(field), value) => {
            match n.column(ColumnItem::Fld(*field as u64)) {
                Some(column) => (*place, base, Some(ColId(column)), value),
                None => return Ok(()),
            }
        }
        Part::ElementStore(place, base, value) => (*place, base, None, value),
        _ => return Ok(()),
    };
    match (point_at(n, base), point_at(n, value)) {
        (Some(base), Some(value)) => {
            put(
                stores,
                StoreInfo {
                    base,
                    column,
                    value,
                    place,
                },
            )
        }
        _ => Ok(()),
    }
}

/// The flow points of operands.
fn points_at(alloc: Global, n: &Numbering, operands: &Vec<Operand>) -> Tried<Vec<Option<u32>>>
    ensures value { IfOk result (λ v. v.items ≡ map (point_at (numbers_seen n.now)) operands.now.items) }
{
    let mut points = Vec::new(alloc);
    for operand in operands {
        made!(put(&mut points, point_at(n, operand)));
    }
    Ok(points)
}

/// Adds the calls of instance methods, and of the constructors that creations run.
pub fn add_calls(given: &Given, part: &Part, calls: &mut Vec<PlacedCall>) -> Tried<()>
    ensures value { OnOk result (calls_seen calls.new.items
        ≡ calls_seen calls.old.items ++ calls_of (numbers_seen given.now.numbering.now) (part_seen part.now)) }
{
    let n = given.numbering;
    let (place, base, slot, args, result) = match part {
        Part::Call(place, base, Some(slot), _, args, own) => {
            (*place, base, *slot, args, point_at(n, own))
        }
        Part::New(place, _, own, Some(slot), _, args) => (*place, own, *slot, args, None),
        _ => return Ok(()),
    };
    let Some(receiver) = point_at(n, base) else {
        return Ok(());
    };
    let args = made!(points_at(given.alloc, n, args));
    let call = CallInfo {
        receiver,
        slot,
        result,
        args,
    };
    put(calls, PlacedCall { place, call })
}

/// Adds the casts and `instanceof`, as what passes them.
pub fn add_casts(n: &Numbering, part: &Part, casts: &mut Vec<CastInfo>) -> Tried<()>
    ensures value { OnOk result (casts.new.items ≡ casts.old.items ++ casts_of (numbers_seen n.now) (part_seen part.now)) }
{
    let Part::Test(_, operand, own) = part else {
        return Ok(());
    };
    match (point_at(n, operand), point_at(n, own), own.ty) {
        (Some(from), Some(into), Some(ty)) => {
            let class = ty.class;
            put(casts, CastInfo { from, into, class })
        }
        _ => Ok(()),
    }
}

/// Adds the casts and `instanceof`, as tests of a row.
pub fn add_tests(n: &Numbering, part: &Part, tests: &mut Vec<TestInfo>) -> Tried<()>
    ensures value { OnOk result (tests.new.items ≡ tests.old.items ++ tests_of (numbers_seen n.now) (part_seen part.now)) }
{
    let Part::Test(place, operand, own) = part else {
        return Ok(());
    };
    match (point_at(n, operand), row_at(n, own), own.ty) {
        (Some(from), Some(target), Some(ty)) => {
            let (target, class, place) = (RowId(target), ty.class, *place);
            put(
                tests,
                TestInfo {
                    from,
                    target,
                    class,
                    place,
                },
            )
        }
        _ => Ok(()),
    }
}

/// Adds the accesses of fields, and the calls by the declaration found statically, which of a creation is the constructor.
pub fn add_accesses(n: &Numbering, part: &Part, accesses: &mut Vec<AccessInfo>) -> Tried<()>
    ensures value { OnOk result (accesses.new.items ≡ accesses.old.items ++ accesses_of (numbers_seen n.now) (part_seen part.now)) }
{
    match part {
        Part::Load(_, base, Some(field), _) | Part::Store(_, base, Some(field), _) => {
            let column = n.column(ColumnItem::Fld(*field as u64));
            add_accessed(row_at(n, base), column, accesses)
        }
        Part::Call(_, base, _, Some(declaration), _, _)
        | Part::New(_, _, base, _, Some(declaration), _) => {
            let column = n.column(ColumnItem::Dcl(*declaration as u64));
            add_accessed(row_at(n, base), column, accesses)
        }
        _ => Ok(()),
    }
}

/// Adds the super calls, as the `this` of the caller and the body that runs.
pub fn add_supers(n: &Numbering, m: u64, part: &Part, supers: &mut Vec<SuperInfo>) -> Tried<()>
    ensures value { OnOk result (supers.new.items ≡ supers.old.items ++ supers_of (numbers_seen n.now) m (part_seen part.now)) }
{
    let Part::SuperCall(_, Some(callee), _, _) = part else {
        return Ok(());
    };
    let row = n.row(RowItem::This(m));
    let column = n.column(ColumnItem::Def(*callee as u64));
    match (row, column) {
        (Some(row), Some(column)) => {
            let (row, column) = (RowId(row), ColId(column));
            put(supers, SuperInfo { row, column })
        }
        _ => Ok(()),
    }
}
