//! The classes, the methods and the bodies of a program, each by its number.

ghost use Rattle.std.specs.Prelude.{◌≡◌, slice_get};
ghost use Rattle.std.specs.Option.{option_map};
ghost use Rattle.java_core.specs.Programs.{program_of, class_seen, method_seen, code_seen};

use java_core::{Class, Code, Method, Program};
use kaba_base::MemberId;

/// A class by its number.
pub(crate) fn class_by_number(p: &Program, class: usize) -> Option<&Class>
    ensures { option_map (λ k. class_seen k.now) result ≡ slice_get (program_of p.now).classes class }
{
    p.classes.get(class)
}

/// A method by its number.
pub(crate) fn method_by_number(p: &Program, method: usize) -> Option<&Method>
    ensures { option_map (λ k. method_seen k.now) result ≡ slice_get (program_of p.now).methods method }
{
    p.methods.get(method)
}

/// A body by its number.
pub(crate) fn code_by_number(p: &Program, body: MemberId) -> Option<Code<'_>>
    ensures { option_map code_seen result ≡ slice_get (program_of p.now).methods body.0 }
{
    let method = p.methods.get(body.0 as usize)?;
    Some(method.code())
}
