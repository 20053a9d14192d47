//! Two lists that grow together.

ghost use Rattle.std.specs.Prelude.{◌≡◌, ◌++◌, ◌∷◌, [], is_ok, if◌then◌else◌};

use std::alloc::AllocError;

/// One more item in each of two lists, unless there is no room for both.
pub fn push_both<A: Drop, B: Drop>(
    first: &mut Vec<A>,
    second: &mut Vec<B>,
    a: A,
    b: B,
) -> Result<(), AllocError>
    ensures first { first.new.items ≡ (if is_ok result then first.old.items ++ a ∷ [] else first.old.items) }
    ensures second { second.new.items ≡ (if is_ok result then second.old.items ++ b ∷ [] else second.old.items) }
{
    let count = first.len();
    match first.push(a) {
        Ok(()) => (),
        Err(_) => return Err(AllocError),
    }
    match second.push(b) {
        Ok(()) => Ok(()),
        Err(_) => {
            first.truncate(count);
            Err(AllocError)
        }
    }
}
