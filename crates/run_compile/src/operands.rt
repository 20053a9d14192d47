//! Operands.

ghost use Rattle.std.specs.Prelude.{◌≡◌, ◌+◌, IfOk};
ghost use Rattle.run_compile.specs.Words.{expr_of, exprs, operand_of, operand, count};

use crate::code::{further, small};
use java_core::RExpr;
use run_code::{Operand, Tried};

/// Where the value of an expression stands after its code.
pub fn operand(e: &RExpr, at: u32) -> Tried<Operand>
    ensures { IfOk result (λ o. operand_of o ≡ operand (expr_of e.now) at) }
{
    match e {
        RExpr::Int { value, .. } => Ok(Operand::Int(*value)),
        RExpr::Char { value, .. } => Ok(Operand::Char(*value)),
        RExpr::Bool { value, .. } => Ok(Operand::Bool(*value)),
        RExpr::Null { .. } => Ok(Operand::Null),
        RExpr::This { .. } => Ok(Operand::Slot(0)),
        RExpr::Local { local, .. } => Ok(Operand::Slot(further(1, *local)?)),
        _ => Ok(Operand::Slot(at)),
    }
}

/// How many arguments there are.
pub fn count(args: &Vec<RExpr>) -> Tried<u32>
    ensures { IfOk result (λ n. n ≡ count (exprs args.now.items)) }
{
    small(args.len())
}
