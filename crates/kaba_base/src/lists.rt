//! Lists made of known items, and lists that grow.

ghost use Rattle.std.specs.Prelude.{◌≡◌, ◌++◌, ◌∷◌, [], IfOk, OnOk};

use std::alloc::{AllocError, Global};

/// Adds an item at the end of a list. `AllocError` where memory is short.
pub fn put<T: Drop>(list: &mut Vec<T>, item: T) -> Result<(), AllocError>
    ensures value { OnOk result (list.new.items ≡ list.old.items ++ item ∷ []) }
{
    match list.push(item) {
        Ok(()) => Ok(()),
        Err(short) => Err(AllocError::from(short)),
    }
}

/// The list of these items. `AllocError` where memory is short.
pub fn listed<T: Drop, const N: usize>(alloc: Global, items: [T; N]) -> Result<Vec<T>, AllocError>
    ensures value { IfOk result (λ v. v.items ≡ items) }
{
    match Vec::from_array(alloc, items) {
        Ok(list) => Ok(list),
        Err(short) => Err(AllocError::from(short)),
    }
}
