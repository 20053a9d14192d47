//! The numbers of what is declared, as far as 32 bits tell them.
#![tactic(auto)]

ghost use Rattle.std.specs.Prelude.{◌+◌, Ok};
ghost use Rattle.name_laws.specs.Answers.{GivesValue};

use name_rules::Refusal;

/// The number of a position in a list.
pub fn number_at(at: usize) -> Result<u32, Refusal>
    ensures { GivesValue (λ k. k) result (Ok at) }
{
    match u32::try_from(at) {
        Ok(number) => Ok(number),
        Err(_) => Err(Refusal::Memory),
    }
}

/// The number after this one.
pub fn after(number: u32) -> Result<u32, Refusal>
    ensures { GivesValue (λ k. k) result (Ok (number + 1)) }
{
    if number == u32::MAX {
        return Err(Refusal::Memory);
    }
    Ok(number + 1)
}
