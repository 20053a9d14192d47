//! What is asked of marks, names and expressions where a tree is read and where it is written.
#![tactic(auto)]

ghost use Rattle.std.specs.Prelude.{◌≡◌, ◌≤◌};
ghost use Rattle.std.specs.Option.{option_map};
ghost use Rattle.java_tree.specs.Syntax.{expr_of, exprs};
ghost use Rattle.java_tree.specs.Tokens.{level};
ghost use Rattle.java_tree.specs.Statements.{is_called, is_out, output_call};

use crate::Expr;
use java_lex::Mark;
use kaba_base::Name;

/// How tightly a binary operator binds, from 1 for `||` on; 0 for every other mark.
pub fn level_of(mark: Mark) -> u32
    ensures value { result ≡ level mark }
    ensures small { result ≤ 10 }
{
    match mark {
        Mark::Either => 1,
        Mark::Both => 2,
        Mark::Or => 3,
        Mark::Xor => 4,
        Mark::And => 5,
        Mark::Equal | Mark::NotEqual => 6,
        Mark::Less | Mark::Greater | Mark::AtMost | Mark::AtLeast => 7,
        Mark::ShiftLeft | Mark::ShiftRight | Mark::ShiftRightLogical => 8,
        Mark::Plus | Mark::Minus => 9,
        Mark::Star | Mark::Slash | Mark::Percent => 10,
        Mark::OpenRound
        | Mark::CloseRound
        | Mark::OpenBrace
        | Mark::CloseBrace
        | Mark::OpenSquare
        | Mark::CloseSquare
        | Mark::Semi
        | Mark::Comma
        | Mark::Dot
        | Mark::Assign
        | Mark::Flip
        | Mark::Bang
        | Mark::PlusAssign
        | Mark::MinusAssign
        | Mark::StarAssign
        | Mark::SlashAssign
        | Mark::PercentAssign
        | Mark::PlusPlus
        | Mark::MinusMinus => 0,
    }
}

/// Whether a name is this text.
pub fn is_text(name: &Name, text: &str) -> bool
    ensures value { result ≡ is_called name.now text.now }
{
    name.as_str() == text
}

/// Whether an expression is `System.out`.
fn is_output(base: &Expr) -> bool
    ensures value { result ≡ is_out (expr_of base.now) }
{
    match base {
        Expr::Field { base, name, .. } => match &**base {
            Expr::Name { name: owner, .. } => is_text(owner, "System") && is_text(name, "out"),
            _ => false,
        },
        _ => false,
    }
}

/// The name and the arguments of a call upon `System.out`.
pub fn output_call(call: &Expr) -> Option<(&Name, &[Expr])>
    ensures value { option_map (λ x. (x.0.now, exprs x.1.now)) result ≡ output_call (expr_of call.now) }
{
    match call {
        Expr::Call {
            base,
            name,
            args,
            ..
        } => match base {
            Some(base) => {
                if is_output(base) {
                    Some((name, args.as_slice()))
                } else {
                    None
                }
            }
            None => None,
        },
        _ => None,
    }
}
