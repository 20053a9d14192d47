//! What the parts of a body give to a list.

ghost use Rattle.std.specs.Prelude.{◌≡◌, ◌++◌, List, OnOk};
ghost use Rattle.std.specs.List.{flat_map};
ghost use Rattle.flow_rules.specs.Parts as plain;
ghost use Rattle.flow_facts.specs.Words.{part_seen, parts_seen};

use crate::Tried;
use flow_rules::Part;

/// What a part of a body may give.
pub trait FromPart: Sized {
    ghost given: { plain.Part → List Self };

    /// Adds what a part gives.
    fn add(part: &Part, list: &mut Vec<Self>) -> Tried<()>
        ensures value { OnOk result (list.new.items ≡ list.old.items ++ given (part_seen part.now)) };
}

/// Adds what the parts of a body give.
pub fn add_from<T: FromPart + Drop>(parts: &Vec<Part>, list: &mut Vec<T>) -> Tried<()>
    ensures value { OnOk result (list.new.items ≡ list.old.items ++ flat_map T.given (parts_seen parts.now.items)) }
{
    for part in parts {
        made!(T::add(part, list));
    }
    Ok(())
}
