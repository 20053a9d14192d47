//! Names that are none of given ones.

ghost use Rattle.std.specs.Prelude.{◌≡◌, string_bytes, IfOk};
ghost use Rattle.std.specs.Str.{chars};
ghost use Rattle.fact_model.specs.FreeNames.{free_name};
ghost use Rattle.fact_model.specs.Taken.{texts};

use indexmap::IndexSet;
use kaba_base::Name;
use std::alloc::{AllocError, Global};

/// A name that is none of those taken, with as many `_` behind it as that takes.
pub fn free_name(alloc: Global, taken: &IndexSet<String>, base: String) -> Result<Name, AllocError>
    ensures { IfOk result (λ n. n ≡ free_name (texts taken.now.keys) (chars (string_bytes base))) }
{
    let mut text = base;
    while taken.contains(text.as_str()) {
        text.push('_')?;
    }
    let name = Name::new(alloc, text.as_str())?;
    Ok(name)
}
