//! The compiler of the bodies of a program to linear code.
#![tactic(auto)]

ghost use Rattle.std.specs.Prelude.{IfOk};
ghost use Rattle.run_compile.specs.Words.{program_of, IsFormed};
ghost use Rattle.run_code.specs.Seen.{tables_of};
ghost use Rattle.run_code.specs.Fits.{FitsProgram};

/// A slot, which holds a result as it is.
macro_rules! plainly {
    ($slot:expr) => {
        Destination {
            is_int: false,
            slot: $slot,
        }
    };
}

/// The same scope, where the values that wait stand from this slot on.
macro_rules! above {
    ($site:ident, $at:expr) => {
        Site {
            scope: $site.scope,
            at: $at,
        }
    };
}

mod assignments;
mod bodies;
mod code;
mod conditions;
mod expressions;
mod jumps;
mod operands;
mod places;
mod scope;
mod special;
mod statements;

use crate::bodies::add_method;
use crate::code::small;
use crate::places::places;
use crate::scope::Scope;
use java_core::Program;
use kaba_base::MemberId;
use run_code::Image;
use std::alloc::{AllocError, Global};

/// The code of all bodies of a program. `AllocError` comes where memory is short, and where a slot, a
/// place of the code or a jump passes 32 bits.
pub fn compile(alloc: Global, p: &Program) -> Result<Image, AllocError>
    requires formed { IsFormed (program_of p.now) }
    ensures fits { IfOk result (λ i. FitsProgram (program_of p.now) (tables_of i)) }
{
    let places = places(alloc, p)?;
    let mut code = Vec::new(alloc);
    let mut entries = Vec::new(alloc);
    for (i, method) in p.methods.iter().enumerate() {
        let scope = Scope {
            alloc,
            program: p,
            places: &places,
            number: MemberId(small(i)?),
            code: method.code(),
        };
        entries.push(add_method(&mut code, &scope)?)?;
    }
    Ok(Image { code, entries })
}
