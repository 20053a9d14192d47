//! Lists of numbers in a line.

ghost use Rattle.std.specs.Prelude.{◌≡◌, ◌++◌, OnOk, string_bytes};
ghost use Rattle.lattice_view.specs.Lists.{list_text, part_text};

use crate::Tried;
use std::alloc::AllocError;

/// Adds a list of numbers after its name, each with a mark before it; an empty list is a dash. `AllocError` where memory
/// is short.
pub fn add_part(text: &mut String, name: &str, mark: &str, numbers: &[u32]) -> Tried<()>
    ensures { OnOk result (string_bytes text.new ≡ string_bytes text.old ++ part_text name.now mark.now numbers.now) }
{
    text.push_str(name)?;
    add_list(text, mark, numbers)?;
    Ok(())
}

/// Adds a list of numbers, each with a mark before it.
fn add_list(text: &mut String, mark: &str, numbers: &[u32]) -> Tried<()>
    ensures { OnOk result (string_bytes text.new ≡ string_bytes text.old ++ list_text mark.now numbers.now) }
{
    if numbers.is_empty() {
        text.push_str(" -")?;
        return Ok(());
    }
    for number in numbers {
        write!(text, " {mark}{number}")?;
    }
    Ok(())
}
