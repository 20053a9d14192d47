//! Constructors: each stands behind the methods of a program, under a name that no text can write.
#![tactic(auto)]

ghost use Rattle.std.specs.Prelude.{◌≡◌, ◌<◌, IfOk, IfSome, length, position};
ghost use Rattle.std.specs.Option.{option_map};
ghost use Rattle.std.specs.Str.{bytes_eq};
ghost use Rattle.java_core.specs.Programs.{program_of, method_seen};
ghost use Rattle.java_core.specs.Classes.{is_method_of, own_method};
ghost use Rattle.java_core.specs.Tables.{name_bucket};
ghost use Rattle.java_core.specs.Makers.{maker_name, maker_of, maker_slot};
ghost use Rattle.java_core.specs.Owned.{first_among};
ghost use Rattle.java_core.specs.Formed.{IsFormed};

use crate::classes::member;
use crate::own::FEW;
use crate::owned::{first_among, listed_under};
use crate::tables::{mixed, mixed_all};
use crate::{Method, Program};
use kaba_base::{ClassId, MemberId, Name};
use std::alloc::{AllocError, Global};

/// What stands before a class's name in the name of its constructor: no identifier begins so.
const MARK: u8 = b'<';

/// The name of the constructor of a class of this name; `AllocError` where memory is short.
pub fn maker_name(alloc: Global, class: &Name) -> Result<Name, AllocError>
    ensures value { IfOk result (λ name. name ≡ maker_name class.now) }
{
    let mut text = String::from_str(alloc, "<")?;
    text.push_str(class.as_str())?;
    Name::new(alloc, text.as_str())
}

/// Whether a name is that of the constructor of a class of this name.
pub fn is_maker_name(name: &Name, class: &Name) -> bool
    ensures value { result ≡ bytes_eq name.now (maker_name class.now) }
{
    match name.as_str().as_bytes() {
        [first, rest @ ..] => *first == MARK && rest == class.as_str().as_bytes(),
        [] => false,
    }
}

/// The bucket of a class's constructor, of so many methods.
fn maker_bucket(members: usize, class: ClassId, name: &Name) -> usize
    ensures { result ≡ name_bucket members class.0 (maker_name name.now) }
{
    let start = mixed(class.0 as u64, MARK as u64);
    (mixed_all(start, name.as_str().as_bytes()) % (members as u64 / 2 + 1)) as usize
}

/// The methods among which the constructor of a class of this name is.
fn makers_in<'a>(p: &'a Program, class: ClassId, name: &Name) -> &'a [usize]
    ensures { first_among (λ m. is_method_of class.0 (maker_name name.now) (method_seen m)) p.now.methods.items result.now
        ≡ position (λ m. is_method_of class.0 (maker_name name.now) (method_seen m)) p.now.methods.items }
{
    let own = listed_under(&p.tables.methods.members.own, class.0 as usize);
    if own.len() <= FEW {
        return own;
    }
    listed_under(
        &p.tables.methods.members.by_name,
        maker_bucket(p.methods.len(), class, name),
    )
}

/// Whether a method is the constructor of this class, which has this name.
fn is_maker(method: &Method, class: ClassId, name: &Name) -> bool
    ensures { result ≡ is_method_of class.0 (maker_name name.now) (method_seen method.now) }
{
    method.owner == class && !method.is_static && is_maker_name(&method.name, name)
}

/// The constructor of a class, by its number among the methods (Java Language Specification, 8.8).
pub fn maker_of(p: &Program, class: ClassId) -> Option<MemberId>
    requires { IsFormed (program_of p.now) }
    ensures value { option_map (λ d. d.0) result ≡ maker_of (program_of p.now) class.0 }
{
    match p.classes.get(class.0 as usize) {
        Some(seen) => own_maker(p, class, &seen.name),
        None => None,
    }
}

/// The constructor of a class, which has this name.
fn own_maker(p: &Program, class: ClassId, name: &Name) -> Option<MemberId>
    requires { IsFormed (program_of p.now) }
    ensures { option_map (λ d. d.0) result ≡ own_method (program_of p.now) class.0 (maker_name name.now) }
{
    member(own_maker_at(p, class, name))
}

/// The number of the constructor of a class, which has this name.
fn own_maker_at(p: &Program, class: ClassId, name: &Name) -> Option<usize>
    ensures value { result ≡ position (λ m. is_method_of class.0 (maker_name name.now) (method_seen m)) p.now.methods.items }
    ensures within { IfSome result (λ i. i < length p.now.methods.items) }
{
    first_among(&p.methods, makers_in(p, class, name), |method| {
        is_maker(method, class, name)
    })
}

/// The slot of the constructor of a class, which is its own.
pub fn maker_slot(p: &Program, class: ClassId) -> Option<u32>
    requires { IsFormed (program_of p.now) }
    ensures value { result ≡ maker_slot (program_of p.now) class.0 }
{
    let made = maker_of(p, class)?;
    p.methods.get(made.0 as usize)?.slot
}
