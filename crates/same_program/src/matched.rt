//! The types, fields and methods of two programs: that each of the first is one with one of the second.
#![tactic(auto)]

ghost use Rattle.std.specs.Prelude.{◌≡◌, ◌&&◌, Bool, true, false, is_ok, length, map};
ghost use Rattle.std.specs.List.{list_any};
ghost use Rattle.java_core.specs.Programs.{program_of, class_seen, field_seen, method_seen};
ghost use Rattle.same_program.specs.Same.{each_has, matched, one_method, one_class_as, one_field_as, one_method_as, are_one};

use crate::guesses::{Guess, Guesses};
use crate::members::{classes, fields, methods};
use crate::names::{both, same_method, told};
use crate::{Agreed, What};
use java_core::{Class, Field, Method, Program};
use kaba_base::Place;

/// Whether one of these items is one with this.
macro_rules! any_agrees {
    ($p:ident, $q:ident, $one:ident, $items:expr, $agree:ident) => {{
        for i in 0..$items.len() {
            if $agree($p, $q, $one, &$items[i]).is_ok() {
                return true;
            }
        }
        false
    }};
}

/// That the guessed one of these items is one with this; nothing is said where it is not.
macro_rules! guessed {
    ($p:ident, $q:ident, $one:ident, $items:expr, $guess:ident, $agree:ident, $what:expr) => {
        match $items.get($guess) {
            Some(other) => $agree($p, $q, $one, other),
            None => told(false, $one.place, start(), $what),
        }
    };
}

/// That each of these items has a partner; the guesses are tried first.
macro_rules! each_agrees {
    ($p:ident, $q:ident, $items:expr, $guesses:ident, $partner:ident) => {{
        for i in 0..$items.len() {
            let agreed = $partner($p, $q, &$items[i], guess_at($guesses, i));
            if agreed.is_err() {
                return agreed;
            }
        }
        Ok(())
    }};
}

/// The place where a text begins.
fn start() -> Place {
    Place { at: 0, line: 1 }
}

/// The guess for an item; nothing is promised of it.
fn guess_at(guesses: &[usize], at: usize) -> usize {
    match guesses.get(at) {
        Some(guess) => *guess,
        None => at,
    }
}

/// Whether one of the classes of the second program is one with a class of the first.
#[tactic(auto, using(crate::proofs::Partners::any))]
fn any_class(p: &Program, q: &Program, one: &Class) -> bool
    ensures { result ≡ list_any (one_class_as (program_of p.now) (program_of q.now) (class_seen one.now)) (map class_seen q.now.classes.items) }
{
    any_agrees!(p, q, one, q.classes, classes)
}

/// That the guessed class is one with a class of the first program.
#[tactic(auto, using(crate::proofs::Partners::any))]
fn guessed_class(p: &Program, q: &Program, one: &Class, guess: usize) -> Agreed
    ensures { is_ok result ≡ true → list_any (one_class_as (program_of p.now) (program_of q.now) (class_seen one.now))
        (map class_seen q.now.classes.items) ≡ true }
{
    guessed!(p, q, one, q.classes, guess, classes, What::Type)
}

/// That one of the classes of the second program is one with a class of the first: the guessed one, or another.
fn class_partner(p: &Program, q: &Program, one: &Class, guess: usize) -> Agreed
    ensures { is_ok result ≡ list_any (one_class_as (program_of p.now) (program_of q.now) (class_seen one.now)) (map class_seen q.now.classes.items) }
{
    let agreed = guessed_class(p, q, one, guess);
    if agreed.is_err() && any_class(p, q, one) {
        return Ok(());
    }
    agreed
}

/// That each class of the first program is one with one of the second.
#[tactic(auto, using(crate::proofs::Partners::any))]
fn each_class(p: &Program, q: &Program, guesses: &[usize]) -> Agreed
    ensures { is_ok result ≡ each_has (one_class_as (program_of p.now) (program_of q.now)) (map class_seen p.now.classes.items)
        (map class_seen q.now.classes.items) }
{
    each_agrees!(p, q, p.classes, guesses, class_partner)
}

/// Whether one of the fields of the second program is one with a field of the first.
#[tactic(auto, using(crate::proofs::Partners::any))]
fn any_field(p: &Program, q: &Program, one: &Field) -> bool
    ensures { result ≡ list_any (one_field_as (program_of p.now) (program_of q.now) (field_seen one.now)) (map field_seen q.now.fields.items) }
{
    any_agrees!(p, q, one, q.fields, fields)
}

/// That the guessed field is one with a field of the first program.
#[tactic(auto, using(crate::proofs::Partners::any))]
fn guessed_field(p: &Program, q: &Program, one: &Field, guess: usize) -> Agreed
    ensures { is_ok result ≡ true → list_any (one_field_as (program_of p.now) (program_of q.now) (field_seen one.now))
        (map field_seen q.now.fields.items) ≡ true }
{
    guessed!(p, q, one, q.fields, guess, fields, What::Field)
}

/// That one of the fields of the second program is one with a field of the first: the guessed one, or another.
fn field_partner(p: &Program, q: &Program, one: &Field, guess: usize) -> Agreed
    ensures { is_ok result ≡ list_any (one_field_as (program_of p.now) (program_of q.now) (field_seen one.now)) (map field_seen q.now.fields.items) }
{
    let agreed = guessed_field(p, q, one, guess);
    if agreed.is_err() && any_field(p, q, one) {
        return Ok(());
    }
    agreed
}

/// That each field of the first program is one with one of the second.
#[tactic(auto, using(crate::proofs::Partners::any))]
fn each_field(p: &Program, q: &Program, guesses: &[usize]) -> Agreed
    ensures { is_ok result ≡ each_has (one_field_as (program_of p.now) (program_of q.now)) (map field_seen p.now.fields.items)
        (map field_seen q.now.fields.items) }
{
    each_agrees!(p, q, p.fields, guesses, field_partner)
}

/// Whether one of the methods of the second program is one with a method of the first.
#[tactic(auto, using(crate::proofs::Partners::any))]
fn any_method(p: &Program, q: &Program, one: &Method) -> bool
    ensures { result ≡ list_any (one_method_as (program_of p.now) (program_of q.now) (method_seen one.now)) (map method_seen q.now.methods.items) }
{
    any_agrees!(p, q, one, q.methods, methods)
}

/// That the guessed method is one with a method of the first program.
#[tactic(auto, using(crate::proofs::Partners::any))]
fn guessed_method(p: &Program, q: &Program, one: &Method, guess: usize) -> Agreed
    ensures { is_ok result ≡ true → list_any (one_method_as (program_of p.now) (program_of q.now) (method_seen one.now))
        (map method_seen q.now.methods.items) ≡ true }
{
    guessed!(p, q, one, q.methods, guess, methods, What::Method)
}

/// That one of the methods of the second program is one with a method of the first: the guessed one, or another.
fn method_partner(p: &Program, q: &Program, one: &Method, guess: usize) -> Agreed
    ensures { is_ok result ≡ list_any (one_method_as (program_of p.now) (program_of q.now) (method_seen one.now)) (map method_seen q.now.methods.items) }
{
    let agreed = guessed_method(p, q, one, guess);
    if agreed.is_err() && any_method(p, q, one) {
        return Ok(());
    }
    agreed
}

/// That each method of the first program is one with one of the second.
#[tactic(auto, using(crate::proofs::Partners::any))]
fn each_method(p: &Program, q: &Program, guesses: &[usize]) -> Agreed
    ensures { is_ok result ≡ each_has (one_method_as (program_of p.now) (program_of q.now)) (map method_seen p.now.methods.items)
        (map method_seen q.now.methods.items) }
{
    each_agrees!(p, q, p.methods, guesses, method_partner)
}

/// The place of a class, or where the text begins.
fn class_place(p: &Program, at: usize) -> Place {
    match p.classes.get(at) {
        Some(class) => class.place,
        None => start(),
    }
}

/// The place of a field, or where the text begins.
fn field_place(p: &Program, at: usize) -> Place {
    match p.fields.get(at) {
        Some(field) => field.place,
        None => start(),
    }
}

/// The place of a method, or where the text begins.
fn method_place(p: &Program, at: usize) -> Place {
    match p.methods.get(at) {
        Some(method) => method.place,
        None => start(),
    }
}

/// That the two programs have the same classes.
#[tactic(auto, using(crate::proofs::Partners::counts))]
fn matched_classes(p: &Program, q: &Program, guess: &Guess) -> Agreed
    ensures { is_ok result ≡ matched (one_class_as (program_of p.now) (program_of q.now)) (map class_seen p.now.classes.items)
        (map class_seen q.now.classes.items) }
{
    both(
        each_class(p, q, &guess.partners),
        told(
            p.classes.len() == q.classes.len(),
            start(),
            class_place(q, guess.alone),
            What::Type,
        ),
    )
}

/// That the two programs have the same fields.
#[tactic(auto, using(crate::proofs::Partners::counts))]
fn matched_fields(p: &Program, q: &Program, guess: &Guess) -> Agreed
    ensures { is_ok result ≡ matched (one_field_as (program_of p.now) (program_of q.now)) (map field_seen p.now.fields.items)
        (map field_seen q.now.fields.items) }
{
    both(
        each_field(p, q, &guess.partners),
        told(
            p.fields.len() == q.fields.len(),
            start(),
            field_place(q, guess.alone),
            What::Field,
        ),
    )
}

/// That the two programs have the same methods.
#[tactic(auto, using(crate::proofs::Partners::counts))]
fn matched_methods(p: &Program, q: &Program, guess: &Guess) -> Agreed
    ensures { is_ok result ≡ matched (one_method_as (program_of p.now) (program_of q.now)) (map method_seen p.now.methods.items)
        (map method_seen q.now.methods.items) }
{
    both(
        each_method(p, q, &guess.partners),
        told(
            p.methods.len() == q.methods.len(),
            start(),
            method_place(q, guess.alone),
            What::Method,
        ),
    )
}

/// That the two programs begin with the same method.
fn mains(p: &Program, q: &Program) -> Agreed
    ensures { is_ok result ≡ one_method (program_of p.now) (program_of q.now) p.now.main.0 q.now.main.0 }
{
    told(
        same_method(p, q, p.main, q.main),
        method_place(p, p.main.0 as usize),
        method_place(q, q.main.0 as usize),
        What::Main,
    )
}

/// That two programs are one, or where they part.
pub(crate) fn programs(p: &Program, q: &Program, guesses: &Guesses) -> Agreed
    ensures { is_ok result ≡ are_one (program_of p.now) (program_of q.now) }
{
    both(
        matched_classes(p, q, &guesses.classes),
        both(
            matched_fields(p, q, &guesses.fields),
            both(matched_methods(p, q, &guesses.methods), mains(p, q)),
        ),
    )
}
