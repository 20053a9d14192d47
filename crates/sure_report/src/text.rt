//! The text of a report.

ghost use Rattle.std.specs.Prelude.{◌≡◌, ◌++◌, [], IfOk, OnOk, string_bytes, slice_get, position};
ghost use Rattle.std.specs.Option.{option_map_or};
ghost use Rattle.std.specs.Str.{encode_utf8_all};
ghost use Rattle.fact_model.specs.Classes.{is_slot};
ghost use Rattle.std.specs.List.{flat_map};
ghost use Rattle.sure_report.specs.Report.{cast_spots, call_spots};
ghost use Rattle.sure_report.specs.Text.{sure_text, lines, cast_line, call_line, dead_line, tested_name, called_name, class_name, slot_name, column_label, sure_word};

use crate::spots::{call_spots, cast_spots};
use crate::{Bodies, Sure};
use fact_model::{Facts, Spot, is_slot};
use kaba_base::{ClassId, ColId};
use std::alloc::{AllocError, Global};

/// The text.
pub fn text_of(alloc: Global, facts: &Facts, sure: &Sure) -> Result<String, AllocError>
    ensures { IfOk result (λ s. string_bytes s ≡ sure_text facts.now sure.now) }
{
    let cast_list = cast_spots(alloc, facts)?;
    let call_list = call_spots(alloc, facts)?;
    let casts = sure.casts.len();
    let calls = sure.calls.len();
    let dead = sure.dead.len();
    let mut text = String::new(alloc);
    write!(text, "casts {casts}\n")?;
    add_casts(&mut text, facts, &cast_list, &sure.casts)?;
    write!(text, "calls {calls}\n")?;
    add_calls(&mut text, facts, &call_list, &sure.calls)?;
    write!(text, "dead {dead}\n")?;
    add_dead(&mut text, facts, &sure.dead)?;
    Ok(text)
}

/// Adds the lines of casts.
fn add_casts(
    text: &mut String,
    facts: &Facts,
    spots: &[Spot],
    casts: &[bool],
) -> Result<(), AllocError>
    ensures { OnOk result (string_bytes text.new ≡ string_bytes text.old ++ lines (cast_line facts.now) spots.now casts.now) }
{
    for k in 0..spots.len() {
        if k < casts.len() {
            add_cast(text, facts, &spots[k], casts[k])?;
        }
    }
    Ok(())
}

/// Adds the line of a cast.
fn add_cast(text: &mut String, facts: &Facts, x: &Spot, sure: bool) -> Result<(), AllocError>
    ensures { OnOk result (string_bytes text.new ≡ string_bytes text.old ++ cast_line facts.now x.now sure) }
{
    let name = tested_name(facts, x.at);
    let line = x.place.line;
    let word = sure_word(sure);
    write!(text, "cast {name}@{line} {word}\n")?;
    Ok(())
}

/// What is said of a cast.
fn sure_word(sure: bool) -> &'static str
    ensures { result.now ≡ sure_word sure }
{
    if sure { "sure" } else { "open" }
}

/// The name of the class that a test tests against.
fn tested_name(facts: &Facts, n: u32) -> &str
    ensures { result.now ≡ tested_name facts.now n }
{
    match facts.tests.get(n as usize) {
        Some(x) => class_name(facts, x.class),
        None => "",
    }
}

/// The name of a class or interface.
fn class_name(facts: &Facts, c: ClassId) -> &str
    ensures { result.now ≡ class_name facts.now c.0 }
{
    match facts.classes.get(c.0 as usize) {
        Some(k) => k.name.as_str(),
        None => "",
    }
}

/// Adds the lines of calls.
fn add_calls(
    text: &mut String,
    facts: &Facts,
    spots: &[Spot],
    calls: &[Bodies],
) -> Result<(), AllocError>
    ensures { OnOk result (string_bytes text.new ≡ string_bytes text.old ++ lines (call_line facts.now) spots.now calls.now) }
{
    for k in 0..spots.len() {
        if k < calls.len() {
            add_call(text, facts, &spots[k], calls[k])?;
        }
    }
    Ok(())
}

/// Adds the line of a call.
fn add_call(text: &mut String, facts: &Facts, x: &Spot, bodies: Bodies) -> Result<(), AllocError>
    ensures { OnOk result (string_bytes text.new ≡ string_bytes text.old ++ call_line facts.now x.now bodies) }
{
    let name = called_name(facts, x.at);
    let line = x.place.line;
    match bodies {
        Bodies::Zero => write!(text, "call {name}@{line} none\n")?,
        Bodies::One(d) => {
            let column = d.0;
            write!(text, "call {name}@{line} one c{column}\n")?
        }
        Bodies::Many => write!(text, "call {name}@{line} many\n")?,
    }
    Ok(())
}

/// The name that a call calls.
fn called_name(facts: &Facts, n: u32) -> &str
    ensures { result.now ≡ called_name facts.now n }
{
    match facts.calls.get(n as usize) {
        Some(c) => slot_name(facts, c.slot),
        None => "",
    }
}

/// The name of a slot.
fn slot_name(facts: &Facts, slot: u32) -> &str
    ensures { result.now ≡ slot_name facts.now slot }
{
    match slot_column(facts, slot) {
        Some(c) => column_name(facts, c),
        None => "",
    }
}

/// The number of the first column of a slot.
fn slot_column(facts: &Facts, slot: u32) -> Option<usize>
    ensures { result ≡ position (λ k. is_slot k.slot slot) facts.now.columns.items }
{
    facts.columns.iter().position(|k| is_slot(k.slot, slot))
}

/// The name of what a column stands for.
fn column_name(facts: &Facts, c: usize) -> &str
    ensures { result.now ≡ option_map_or (λ k. encode_utf8_all k.name) (slice_get facts.now.columns.items c) [] }
{
    match facts.columns.get(c) {
        Some(k) => k.name.as_str(),
        None => "",
    }
}

/// Adds the lines of dead columns.
fn add_dead(text: &mut String, facts: &Facts, dead: &[ColId]) -> Result<(), AllocError>
    ensures { OnOk result (string_bytes text.new ≡ string_bytes text.old ++ flat_map (dead_line facts.now) dead.now) }
{
    for c in dead {
        let number = c.0;
        let label = column_label(facts, *c);
        write!(text, "c{number} {label}\n")?;
    }
    Ok(())
}

/// The label of a column.
fn column_label(facts: &Facts, c: ColId) -> &str
    ensures { result.now ≡ column_label facts.now c.0 }
{
    match facts.columns.get(c.0 as usize) {
        Some(k) => k.label.as_str(),
        None => "",
    }
}
