//! A guess at a derivation of an entry. It goes from the entry back to what gives it, by what the sets and the table
//! hold, and stops as soon as something that needs nothing gives it. What it answers is tested before it is taken.

ghost use Rattle.fact_model.specs.InRange.{InRange};

use crate::entries::{test_t1, test_t2, test_t4, test_t5, test_t7, test_t10, test_t11};
use crate::find::Given;
use crate::flowing::{test_p1, test_p8};
use crate::items::{column_slot, fits, is_found, is_same_column, is_same_slot, point_at, row_this};
use crate::trail::{Claim, WhyRule, WhyStep};
use fact_model::{BodyInfo, CallInfo, LoadInfo};
use indexmap::IndexSet;
use kaba_base::{ColId, RowId, SiteId};
use kaba_bits::BitRow;
use std::alloc::{AllocError, Global};

/// A claim as a key: its kind and its two numbers.
#[derive(Clone, Copy, PartialEq, Eq, Hash)]
struct Key {
    kind: u32,
    a: u32,
    b: u32,
}

/// An instance of a rule: what it gives and what it needs, by their numbers among the nodes.
#[derive(Drop)]
struct Instance {
    rule: WhyRule,
    gives: usize,
    needs: Vec<usize>,
}

/// A claim that was met: the number of its step, and the instances that need it.
#[derive(Drop)]
struct Node {
    claim: Claim,
    number: Option<u32>,
    users: Vec<usize>,
}

/// What was met so far. The instances of `ready` are to be looked at.
#[derive(Drop)]
struct Guess {
    alloc: Global,
    keys: IndexSet<Key>,
    nodes: Vec<Node>,
    instances: Vec<Instance>,
    ready: Vec<usize>,
    steps: Vec<WhyStep>,
}

/// The key of a claim.
fn key_of(claim: Claim) -> Key {
    match claim {
        Claim::InPoint(p, s) => Key {
            kind: 0,
            a: p,
            b: s.0,
        },
        Claim::InCell(c, s) => Key {
            kind: 1,
            a: c,
            b: s.0,
        },
        Claim::Entry(r, c) => Key {
            kind: 2,
            a: r.0,
            b: c.0,
        },
    }
}

/// The number of a claim among the nodes.
fn node_of(guess: &mut Guess, claim: Claim) -> Result<usize, AllocError> {
    let (number, is_new) = guess.keys.insert_full(key_of(claim))?;
    if is_new {
        guess.nodes.push(Node {
            claim,
            number: None,
            users: Vec::new(guess.alloc),
        })?;
    }
    Ok(number)
}

/// Notes that an instance needs a claim, and answers the claim's number.
fn need(guess: &mut Guess, instance: usize, claim: Claim) -> Result<usize, AllocError> {
    let number = node_of(guess, claim)?;
    if let Some(node) = guess.nodes.get_mut(number) {
        node.users.push(instance)?;
    }
    Ok(number)
}

/// Notes an instance of a rule.
fn offer(
    guess: &mut Guess,
    rule: WhyRule,
    gives: usize,
    claims: &[Claim],
) -> Result<(), AllocError> {
    let instance = guess.instances.len();
    let mut needs = Vec::new(guess.alloc);
    for claim in claims {
        let number = need(guess, instance, *claim)?;
        needs.push(number)?;
    }
    guess.instances.push(Instance { rule, gives, needs })?;
    guess.ready.push(instance)?;
    Ok(())
}

/// The number of the step of a node.
fn number_at(nodes: &[Node], k: usize) -> Option<u32> {
    match nodes.get(k) {
        Some(node) => node.number,
        None => None,
    }
}

/// The numbers of the steps of nodes, where each has one.
fn numbers_at(
    alloc: Global,
    nodes: &[Node],
    needs: &[usize],
) -> Result<Option<Vec<u32>>, AllocError> {
    let mut numbers = Vec::new(alloc);
    for k in needs {
        match number_at(nodes, *k) {
            Some(number) => numbers.push(number)?,
            None => return Ok(None),
        }
    }
    Ok(Some(numbers))
}

/// The step of an instance, where what it gives has none yet and what it needs has.
fn step_of(guess: &Guess, instance: usize) -> Result<Option<WhyStep>, AllocError> {
    let Some(x) = guess.instances.get(instance) else {
        return Ok(None);
    };
    let Some(node) = guess.nodes.get(x.gives) else {
        return Ok(None);
    };
    if node.number.is_some() {
        return Ok(None);
    }
    match numbers_at(guess.alloc, &guess.nodes, &x.needs)? {
        Some(from) => Ok(Some(WhyStep {
            claim: node.claim,
            rule: x.rule,
            from,
        })),
        None => Ok(None),
    }
}

/// Adds a step, and looks at the instances that need its claim.
fn give(guess: &mut Guess, step: WhyStep) -> Result<(), AllocError> {
    let count = guess.steps.len();
    if count >= 4294967295 {
        return Err(AllocError);
    }
    let k = node_of(guess, step.claim)?;
    guess.steps.push(step)?;
    if let Some(node) = guess.nodes.get_mut(k) {
        node.number = Some(count as u32);
        guess.ready.extend_from_slice(&node.users)?;
    }
    Ok(())
}

/// Looks at the instances that are ready, until there are none.
fn settle(guess: &mut Guess) -> Result<(), AllocError> {
    for _round in 0..u64::MAX {
        let Some(instance) = guess.ready.pop() else {
            return Ok(());
        };
        if let Some(step) = step_of(guess, instance)? {
            give(guess, step)?;
        }
    }
    Ok(())
}

/// Whether a set of a family has a number.
fn has(sets: &[BitRow], a: u32, b: u32) -> bool {
    match sets.get(a as usize) {
        Some(set) => b < set.width() && set.has(b),
        None => false,
    }
}

/// Whether a site is in a point.
fn in_point(given: &Given, p: u32, s: SiteId) -> bool {
    has(&given.pt.points, p, s.0)
}

/// Whether a site is in a cell.
fn in_cell(given: &Given, c: u32, s: SiteId) -> bool {
    has(&given.pt.cells, c, s.0)
}

/// Whether a row has a column.
fn in_row(given: &Given, r: RowId, c: ColId) -> bool {
    has(&given.table.rows, r.0, c.0)
}

/// What gives a site of a point by flows and casts.
fn by_flows(given: &Given, guess: &mut Guess, k: usize, p: u32, s: SiteId) -> Result<(), AllocError>
    requires { InRange given.now.facts.now }
{
    for x in &given.facts.flows {
        if x.to == p && in_point(given, x.from, s) {
            offer(guess, WhyRule::P2, k, &[Claim::InPoint(x.from, s)])?;
        }
    }
    for x in &given.facts.casts {
        let from = Claim::InPoint(x.from, s);
        if x.into == p
            && in_point(given, x.from, s)
            && test_p8(given.facts, from, Claim::InPoint(p, s))
        {
            offer(guess, WhyRule::P8, k, &[from])?;
        }
    }
    Ok(())
}

/// What gives a site of a point by a load into it.
fn by_load(
    given: &Given,
    guess: &mut Guess,
    k: usize,
    x: &LoadInfo,
    s: SiteId,
) -> Result<(), AllocError> {
    for c in 0..given.facts.cells.len() as u64 {
        if c > 4294967295 {
            return Ok(());
        }
        let c = c as u32;
        if let Some(cell) = given.facts.cells.get(c as usize) {
            if is_same_column(cell.column, x.column)
                && in_cell(given, c, s)
                && in_point(given, x.base, cell.site)
            {
                let claims = [Claim::InPoint(x.base, cell.site), Claim::InCell(c, s)];
                offer(guess, WhyRule::P3, k, &claims)?;
            }
        }
    }
    Ok(())
}

/// What gives a site of a point by the loads into it.
fn by_loads(
    given: &Given,
    guess: &mut Guess,
    k: usize,
    p: u32,
    s: SiteId,
) -> Result<(), AllocError> {
    for x in &given.facts.loads {
        if x.into == p {
            by_load(given, guess, k, x, s)?;
        }
    }
    Ok(())
}

/// Whether a call may run a body: its slot is the body's.
fn is_called(given: &Given, call: &CallInfo, body: &BodyInfo) -> bool {
    is_same_slot(column_slot(given.facts, body.column), Some(call.slot))
}

/// The rules by which a call hands a site to a body or back, for each site of the receiver that runs the body.
fn by_receivers(
    given: &Given,
    guess: &mut Guess,
    rule: WhyRule,
    k: usize,
    call: &CallInfo,
    body: &BodyInfo,
    from: Claim,
) -> Result<(), AllocError>
    requires { InRange given.now.facts.now }
{
    let Some(set) = given.pt.points.get(call.receiver as usize) else {
        return Ok(());
    };
    for o in 0..set.width() {
        if set.has(o) && is_found(given.facts, SiteId(o), call.slot, body.column) {
            offer(
                guess,
                rule,
                k,
                &[Claim::InPoint(call.receiver, SiteId(o)), from],
            )?;
        }
    }
    Ok(())
}

/// What gives a site of a body's parameter by a call.
fn by_arguments(
    given: &Given,
    guess: &mut Guess,
    k: usize,
    call: &CallInfo,
    body: &BodyInfo,
    p: u32,
    s: SiteId,
) -> Result<(), AllocError>
    requires { InRange given.now.facts.now }
{
    for i in 0..body.params.len() {
        if let (Some(to), Some(from)) = (point_at(&body.params, i), point_at(&call.args, i)) {
            if to == p && in_point(given, from, s) {
                by_receivers(
                    given,
                    guess,
                    WhyRule::P6,
                    k,
                    call,
                    body,
                    Claim::InPoint(from, s),
                )?;
            }
        }
    }
    Ok(())
}

/// What gives a site of a body's `this` or of a parameter by a call.
fn into_body(
    given: &Given,
    guess: &mut Guess,
    k: usize,
    call: &CallInfo,
    body: &BodyInfo,
    p: u32,
    s: SiteId,
) -> Result<(), AllocError>
    requires { InRange given.now.facts.now }
{
    if body.this == p
        && in_point(given, call.receiver, s)
        && is_found(given.facts, s, call.slot, body.column)
    {
        offer(guess, WhyRule::P5, k, &[Claim::InPoint(call.receiver, s)])?;
    }
    by_arguments(given, guess, k, call, body, p, s)
}

/// What gives a site of a point by the calls into the bodies that have it.
fn by_bodies(
    given: &Given,
    guess: &mut Guess,
    k: usize,
    p: u32,
    s: SiteId,
) -> Result<(), AllocError>
    requires { InRange given.now.facts.now }
{
    for body in &given.facts.bodies {
        if body.this != p && !body.params.iter().any(|x| *x == Some(p)) {
            continue;
        }
        for call in &given.facts.calls {
            if is_called(given, call, body) {
                into_body(given, guess, k, call, body, p, s)?;
            }
        }
    }
    Ok(())
}

/// What gives a site of the result of a call by the results of bodies.
fn by_results(
    given: &Given,
    guess: &mut Guess,
    k: usize,
    p: u32,
    s: SiteId,
) -> Result<(), AllocError>
    requires { InRange given.now.facts.now }
{
    for call in &given.facts.calls {
        if call.result != Some(p) {
            continue;
        }
        for body in &given.facts.bodies {
            if let Some(from) = body.result {
                if in_point(given, from, s) && is_called(given, call, body) {
                    let claim = Claim::InPoint(from, s);
                    by_receivers(given, guess, WhyRule::P7, k, call, body, claim)?;
                }
            }
        }
    }
    Ok(())
}

/// What gives a site of a point.
fn point_rules(
    given: &Given,
    guess: &mut Guess,
    k: usize,
    p: u32,
    s: SiteId,
) -> Result<(), AllocError>
    requires { InRange given.now.facts.now }
{
    if test_p1(given.facts, Claim::InPoint(p, s)) {
        return offer(guess, WhyRule::P1, k, &[]);
    }
    by_flows(given, guess, k, p, s)?;
    by_loads(given, guess, k, p, s)?;
    by_bodies(given, guess, k, p, s)?;
    by_results(given, guess, k, p, s)
}

/// What gives a site of a cell.
fn cell_rules(
    given: &Given,
    guess: &mut Guess,
    k: usize,
    c: u32,
    s: SiteId,
) -> Result<(), AllocError>
    requires { InRange given.now.facts.now }
{
    let Some(cell) = given.facts.cells.get(c as usize) else {
        return Ok(());
    };
    for x in &given.facts.stores {
        if is_same_column(cell.column, x.column)
            && in_point(given, x.base, cell.site)
            && in_point(given, x.value, s)
            && fits(given.facts, x.column, s, cell.site)
        {
            let claims = [
                Claim::InPoint(x.base, cell.site),
                Claim::InPoint(x.value, s),
            ];
            offer(guess, WhyRule::P4, k, &claims)?;
        }
    }
    Ok(())
}

/// The rule without premises that gives an entry, if one does.
fn plain_rule(given: &Given, claim: Claim) -> Option<WhyRule>
    requires { InRange given.now.facts.now }
{
    if test_t1(given.facts, claim) {
        return Some(WhyRule::T1);
    }
    if test_t2(given.facts, claim) {
        return Some(WhyRule::T2);
    }
    if test_t4(given.facts, claim) {
        return Some(WhyRule::T4);
    }
    if test_t7(given.facts, claim) {
        return Some(WhyRule::T7);
    }
    if test_t11(given.facts, claim) {
        return Some(WhyRule::T11);
    }
    None
}

/// What gives an entry by the ties of its row, and by the `this` of its bodies.
fn by_rows(
    given: &Given,
    guess: &mut Guess,
    k: usize,
    r: RowId,
    c: ColId,
) -> Result<(), AllocError> {
    for x in &given.facts.ties {
        if x.lower == r && x.upper != r && in_row(given, x.upper, c) {
            offer(guess, WhyRule::T8, k, &[Claim::Entry(x.upper, c)])?;
        }
    }
    for v in 0..given.facts.rows.len() as u64 {
        if v > 4294967295 {
            return Ok(());
        }
        let v = RowId(v as u32);
        if v != r && in_row(given, v, c) {
            if let Some(d) = row_this(given.facts, v) {
                if in_row(given, r, d) {
                    let claims = [Claim::Entry(r, d), Claim::Entry(v, c)];
                    offer(guess, WhyRule::T6, k, &claims)?;
                }
            }
        }
    }
    Ok(())
}

/// What gives an entry by a column that hides its own: each row that has both.
fn by_hiding(
    given: &Given,
    guess: &mut Guess,
    k: usize,
    r: RowId,
    d: ColId,
    c: ColId,
) -> Result<(), AllocError> {
    for q in 0..given.table.rows.len() as u64 {
        if q > 4294967295 {
            return Ok(());
        }
        let q = RowId(q as u32);
        if q != r && in_row(given, q, d) && in_row(given, q, c) {
            let claims = [Claim::Entry(q, d), Claim::Entry(q, c), Claim::Entry(r, d)];
            offer(guess, WhyRule::T10, k, &claims)?;
        }
    }
    Ok(())
}

/// What gives an entry by the other columns of its row.
fn by_columns(
    given: &Given,
    guess: &mut Guess,
    k: usize,
    r: RowId,
    c: ColId,
) -> Result<(), AllocError>
    requires { InRange given.now.facts.now }
{
    let claim = Claim::Entry(r, c);
    for d in 0..given.table.width {
        let d = ColId(d);
        if d != c && in_row(given, r, d) {
            let has = Claim::Entry(r, d);
            if test_t5(given.facts, has, claim) {
                offer(guess, WhyRule::T5, k, &[has])?;
            }
            if test_t10(given.facts, has, claim, has, claim) {
                by_hiding(given, guess, k, r, d, c)?;
            }
        }
    }
    Ok(())
}

/// What gives an entry by the calls on a site of its row.
fn by_needs(
    given: &Given,
    guess: &mut Guess,
    k: usize,
    o: SiteId,
    c: ColId,
) -> Result<(), AllocError>
    requires { InRange given.now.facts.now }
{
    let slot = column_slot(given.facts, c);
    for call in &given.facts.calls {
        if is_same_slot(slot, Some(call.slot))
            && in_point(given, call.receiver, o)
            && is_found(given.facts, o, call.slot, c)
        {
            offer(guess, WhyRule::T3, k, &[Claim::InPoint(call.receiver, o)])?;
        }
    }
    Ok(())
}

/// What gives an entry by a row that a site of its row is in.
fn by_site(
    given: &Given,
    guess: &mut Guess,
    k: usize,
    r: RowId,
    o: SiteId,
    c: ColId,
) -> Result<(), AllocError> {
    let mut p = 0;
    for v in &given.facts.points {
        if *v != r && in_point(given, p, o) && in_row(given, *v, c) {
            let claims = [Claim::InPoint(p, o), Claim::Entry(*v, c)];
            offer(guess, WhyRule::T9, k, &claims)?;
        }
        if p < 4294967295 {
            p += 1;
        }
    }
    let mut p = 0;
    for x in &given.facts.cells {
        if x.row != r && in_cell(given, p, o) && in_row(given, x.row, c) {
            let claims = [Claim::InCell(p, o), Claim::Entry(x.row, c)];
            offer(guess, WhyRule::T9, k, &claims)?;
        }
        if p < 4294967295 {
            p += 1;
        }
    }
    Ok(())
}

/// What gives an entry by the sites of its row.
fn by_sites(
    given: &Given,
    guess: &mut Guess,
    k: usize,
    r: RowId,
    c: ColId,
) -> Result<(), AllocError>
    requires { InRange given.now.facts.now }
{
    let mut o = 0;
    for x in &given.facts.sites {
        if x.row == r {
            by_needs(given, guess, k, SiteId(o), c)?;
            by_site(given, guess, k, r, SiteId(o), c)?;
        }
        if o < 4294967295 {
            o += 1;
        }
    }
    Ok(())
}

/// What gives an entry.
fn entry_rules(
    given: &Given,
    guess: &mut Guess,
    k: usize,
    r: RowId,
    c: ColId,
) -> Result<(), AllocError>
    requires { InRange given.now.facts.now }
{
    if let Some(rule) = plain_rule(given, Claim::Entry(r, c)) {
        return offer(guess, rule, k, &[]);
    }
    by_rows(given, guess, k, r, c)?;
    by_columns(given, guess, k, r, c)?;
    by_sites(given, guess, k, r, c)
}

/// What gives the claim of a node.
fn expand(given: &Given, guess: &mut Guess, k: usize, claim: Claim) -> Result<(), AllocError>
    requires { InRange given.now.facts.now }
{
    match claim {
        Claim::InPoint(p, s) => point_rules(given, guess, k, p, s),
        Claim::InCell(c, s) => cell_rules(given, guess, k, c, s),
        Claim::Entry(r, c) => entry_rules(given, guess, k, r, c),
    }
}

/// The claim of a node, if there is one.
fn claim_at(nodes: &[Node], k: usize) -> Option<Claim> {
    match nodes.get(k) {
        Some(node) => Some(node.claim),
        None => None,
    }
}

/// Steps that a derivation of the entry may have, earlier ones first.
pub fn guessed(given: &Given, r: RowId, c: ColId) -> Result<Vec<WhyStep>, AllocError>
    requires { InRange given.now.facts.now }
{
    let alloc = given.alloc;
    let mut guess = Guess {
        alloc,
        keys: IndexSet::new(alloc),
        nodes: Vec::new(alloc),
        instances: Vec::new(alloc),
        ready: Vec::new(alloc),
        steps: Vec::new(alloc),
    };
    let goal = node_of(&mut guess, Claim::Entry(r, c))?;
    for k in 0..4294967295usize {
        if number_at(&guess.nodes, goal).is_some() {
            break;
        }
        let Some(claim) = claim_at(&guess.nodes, k) else {
            break;
        };
        expand(given, &mut guess, k, claim)?;
        settle(&mut guess)?;
    }
    let Guess { steps, .. } = guess;
    Ok(steps)
}
