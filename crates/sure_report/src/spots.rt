//! The casts and the calls of the text.

ghost use Rattle.std.specs.Prelude.{◌≡◌, IfOk};
ghost use Rattle.sure_report.specs.Report.{is_cast, is_call, cast_spots, call_spots};

use fact_model::{Facts, Spot, SpotKind};
use std::alloc::{AllocError, Global};

/// The casts, in the order of the text.
pub fn cast_spots(alloc: Global, facts: &Facts) -> Result<Vec<Spot>, AllocError>
    ensures { IfOk result (λ v. v.items ≡ cast_spots facts.now) }
{
    let mut spots = Vec::new(alloc);
    for x in &facts.spots {
        if is_cast(x.kind) {
            spots.push(*x)?;
        }
    }
    Ok(spots)
}

/// The calls, in the order of the text.
pub fn call_spots(alloc: Global, facts: &Facts) -> Result<Vec<Spot>, AllocError>
    ensures { IfOk result (λ v. v.items ≡ call_spots facts.now) }
{
    let mut spots = Vec::new(alloc);
    for x in &facts.spots {
        if is_call(x.kind) {
            spots.push(*x)?;
        }
    }
    Ok(spots)
}

/// Whether a spot is a cast.
fn is_cast(kind: SpotKind) -> bool
    ensures { result ≡ is_cast kind }
{
    matches!(kind, SpotKind::Cast)
}

/// Whether a spot is a call.
fn is_call(kind: SpotKind) -> bool
    ensures { result ≡ is_call kind }
{
    matches!(kind, SpotKind::Call)
}
