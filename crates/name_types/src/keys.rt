//! The keys of slots: a hash of their parameter types, their result and their name.
#![tactic(auto)]

ghost use Rattle.std.specs.Prelude.{◌≡◌, ◌<◌, map};
ghost use Rattle.name_types.specs.Keys.{base_number, type_mixed, types_mixed, result_mixed, slot_key};

use java_core::{Local, Ty, TyBase, mixed, mixed_all};
use kaba_base::Name;

/// How many keys there are, a prime.
const KEYS: u64 = 4093;

/// The number of a type without its dimensions.
fn base_number(base: TyBase) -> u64
    ensures value { result ≡ base_number base }
    ensures within { result < 4294967296 }
{
    match base {
        TyBase::Int => 4294967295,
        TyBase::Boolean => 4294967294,
        TyBase::Char => 4294967293,
        TyBase::Str => 4294967292,
        TyBase::Class(class) => class.0 as u64,
    }
}

/// A hash carried on by a type.
fn type_mixed(hash: u64, ty: Ty) -> u64
    requires { hash < 4294967296 }
    ensures value { result ≡ type_mixed hash ty }
    ensures within { result < 4294967296 }
{
    mixed(mixed(hash, base_number(ty.base)), ty.dim as u64)
}

/// A hash carried on by the types of parameters.
fn types_mixed(hash: u64, locals: &[Local]) -> u64
    requires { hash < 4294967296 }
    ensures value { result ≡ types_mixed hash (map (λ l. l.ty) locals.now) }
    ensures within { result < 4294967296 }
{
    let mut now = hash;
    for local in locals {
        now = type_mixed(now, local.ty);
    }
    now
}

/// A hash carried on by a result.
fn result_mixed(hash: u64, outcome: Option<Ty>) -> u64
    requires { hash < 4294967296 }
    ensures value { result ≡ result_mixed hash outcome }
    ensures within { result < 4294967296 }
{
    match outcome {
        None => mixed(hash, 4294967291),
        Some(ty) => type_mixed(hash, ty),
    }
}

/// The key of a name, parameters and a result.
pub fn slot_key(name: &Name, locals: &[Local], outcome: Option<Ty>) -> usize
    ensures { result ≡ slot_key name.now (map (λ l. l.ty) locals.now) outcome }
{
    let hash = result_mixed(types_mixed(0, locals), outcome);
    (mixed_all(hash, name.as_str().as_bytes()) % KEYS) as usize
}
