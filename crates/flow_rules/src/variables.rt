//! The parameters and locals of a body by their numbers.

ghost use Rattle.std.specs.Prelude.{◌≡◌, slice_get};
ghost use Rattle.std.specs.Option.{option_map};
ghost use Rattle.java_core.specs.Programs.{code_seen, local_seen};
ghost use Rattle.java_core.specs.Formed.{variables_of};

use java_core::{Code, Local};

/// A parameter or a local of a body by its number, from 0, the parameters first; `None` for a number of none.
pub fn variable_at<'a>(code: &Code<'a>, number: u64) -> Option<&'a Local>
    ensures variable { option_map (λ v. local_seen v.now) result ≡ slice_get (variables_of (code_seen code.now)) number }
{
    let at = number as usize;
    let count = code.params.len();
    if at < count {
        code.params.get(at)
    } else {
        code.locals.get(at - count)
    }
}
