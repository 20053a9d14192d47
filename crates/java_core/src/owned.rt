//! What each class or interface declares itself.
#![tactic(auto)]

ghost use Rattle.std.specs.Prelude.{◌≡◌, ℕ, ◌<◌, ◌++◌, ◌∷◌, ◌==◌, [], Bool, true, cond, length, map, slice_get, IfSome, OnOk};
ghost use Rattle.std.specs.Fn.{FnReturnsAt};
ghost use Rattle.java_core.specs.Owned.{listed, owned_from, passes, first_among};

use crate::{Program, Tried};
use kaba_base::ClassId;
use std::alloc::{AllocError, Global};

/// Lists up to the one of a number at least.
fn reach(alloc: Global, lists: &mut Vec<Vec<usize>>, at: usize) -> Tried<()>
    ensures there { OnOk result (at < length lists.new.items) }
    ensures kept { OnOk result ((c : ℕ) → listed lists.new.items c ≡ listed lists.old.items c) }
{
    while lists.len() <= at {
        lists.push(Vec::new(alloc))?;
    }
    Ok(())
}

/// One number more in the list of a number that is there.
fn put(lists: &mut Vec<Vec<usize>>, at: usize, number: usize) -> Tried<()>
    requires { at < length lists.old.items }
    ensures { OnOk result ((c : ℕ) → listed lists.new.items c ≡ cond (at == c) (listed lists.old.items c ++ number ∷ []) (listed lists.old.items c)) }
{
    lists[at].push(number)?;
    Ok(())
}

/// One number more in the list of a number; `AllocError` where memory is short.
pub fn note_under(
    alloc: Global,
    lists: &mut Vec<Vec<usize>>,
    at: usize,
    number: usize,
) -> Result<(), AllocError>
    ensures { OnOk result ((c : ℕ) → listed lists.new.items c ≡ cond (at == c) (listed lists.old.items c ++ number ∷ []) (listed lists.old.items c)) }
{
    reach(alloc, lists, at)?;
    put(lists, at, number)
}

/// The numbers that lists have under a number.
pub fn listed_under(lists: &Vec<Vec<usize>>, at: usize) -> &[usize]
    ensures { result.now ≡ listed lists.now.items at }
{
    match lists.get(at) {
        Some(list) => list.as_slice(),
        None => &[],
    }
}

/// The numbers of the fields that a class declares itself, static ones too, in rising order.
pub fn declared_fields(p: &Program, class: ClassId) -> &[usize]
    ensures { result.now ≡ owned_from 0 class.0 (map (λ f. f.owner.0) p.now.fields.items) }
{
    listed_under(&p.tables.fields.own, class.0 as usize)
}

/// Whether the item of a number is there and passes a test.
fn passes<T, F: Fn(&T) -> bool>(items: &[T], at: usize, test: &F) -> bool
    requires { F.IsAlwaysCallable test.now }
    ensures value { (p : T → Bool) → ((x : T) (r : Bool) → FnReturnsAt F.Fn test.now x r → r ≡ p x) → result ≡ passes p (slice_get items.now at) }
    ensures within { result ≡ true → at < length items.now }
{
    match items.get(at) {
        Some(item) => test(item),
        None => false,
    }
}

/// The first of these numbers whose item passes a test.
pub fn first_among<T, F: Fn(&T) -> bool>(items: &[T], list: &[usize], test: F) -> Option<usize>
    requires { F.IsAlwaysCallable test }
    ensures value { (p : T → Bool) → ((x : T) (r : Bool) → FnReturnsAt F.Fn test x r → r ≡ p x) → result ≡ first_among p items.now list.now }
    ensures within { IfSome result (λ i. i < length items.now) }
{
    for at in list {
        if passes(items, *at, &test) {
            return Some(*at);
        }
    }
    None
}
