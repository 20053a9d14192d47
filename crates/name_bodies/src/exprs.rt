//! The names of expressions.
#![tactic(auto)]

ghost use Rattle.std.specs.Prelude.{◌≡◌, ℕ};
ghost use Rattle.std.specs.declared.boxed.Box.{Box};
ghost use Rattle.java_tree.specs.Syntax.{expr_of, exprs, NewOf};
ghost use Rattle.java_core.specs.Trees as core;
ghost use Rattle.java_core.specs.Trees.{Ex, Exs, no_ex};
ghost use Rattle.java_core.specs.declared.RExpr.{RExpr};
ghost use Rattle.name_bodies.specs.declared.meanings.Callee.{Callee};
ghost use Rattle.std.specs.declared.vec.Vec.{Vec};
ghost use Rattle.std.specs.declared.alloc.Global.{Global};
ghost use Rattle.name_laws.specs.Answers.{GivesValue};
ghost use Rattle.name_laws.specs.Expressions.{class_before, Receiver, receiver, called_on, after, walk, walk_all};
ghost use Rattle.name_bodies.specs.Views.{table_at, receiver_of};
ghost use Rattle.name_rules.specs.Resolves.{un_op, bin_op};

use crate::declarations::Enclosing;
use crate::meanings::{
    Callee, call_meaning, cast_type, class_before, name_meaning, next, static_field_of,
    static_method_of,
};
use crate::{Named, make};
use java_core::{BinOp, Op, RExpr, UnOp};
use java_lex::Mark;
use java_tree::{Expr, Id};
use kaba_base::{ClassId, MemberId, Name, Place, made};
use name_rules::{Form, Refusal};
use name_tables::{Scope, asked, type_of};

/// The operator of a mark.
fn un_op(mark: Mark) -> UnOp
    ensures { result ≡ un_op mark }
{
    match mark {
        Mark::Plus => UnOp::Plus,
        Mark::Minus => UnOp::Minus,
        Mark::Flip => UnOp::Flip,
        Mark::Bang => UnOp::Not,
        // marks that are no such operator: they never come from a text
        Mark::OpenRound
        | Mark::CloseRound
        | Mark::OpenBrace
        | Mark::CloseBrace
        | Mark::OpenSquare
        | Mark::CloseSquare
        | Mark::Semi
        | Mark::Comma
        | Mark::Dot
        | Mark::Assign
        | Mark::Star
        | Mark::Slash
        | Mark::Percent
        | Mark::ShiftLeft
        | Mark::ShiftRight
        | Mark::ShiftRightLogical
        | Mark::And
        | Mark::Or
        | Mark::Xor
        | Mark::Both
        | Mark::Either
        | Mark::Equal
        | Mark::NotEqual
        | Mark::Less
        | Mark::Greater
        | Mark::AtMost
        | Mark::AtLeast
        | Mark::PlusAssign
        | Mark::MinusAssign
        | Mark::StarAssign
        | Mark::SlashAssign
        | Mark::PercentAssign
        | Mark::PlusPlus
        | Mark::MinusMinus => UnOp::Not,
    }
}

/// The operator of a mark.
fn bin_op(mark: Mark) -> BinOp
    ensures { result ≡ bin_op mark }
{
    match mark {
        Mark::Plus => BinOp::Int(Op::Plus),
        Mark::Minus => BinOp::Int(Op::Minus),
        Mark::Star => BinOp::Int(Op::Times),
        Mark::Slash => BinOp::Int(Op::Divide),
        Mark::Percent => BinOp::Int(Op::Remainder),
        Mark::ShiftLeft => BinOp::Int(Op::ShiftLeft),
        Mark::ShiftRight => BinOp::Int(Op::ShiftRight),
        Mark::ShiftRightLogical => BinOp::Int(Op::ShiftRightUnsigned),
        Mark::And => BinOp::Int(Op::And),
        Mark::Or => BinOp::Int(Op::Or),
        Mark::Xor => BinOp::Int(Op::Xor),
        Mark::Equal => BinOp::Same,
        Mark::NotEqual => BinOp::Differs,
        Mark::Less => BinOp::Less,
        Mark::Greater => BinOp::Greater,
        Mark::AtMost => BinOp::AtMost,
        Mark::AtLeast => BinOp::AtLeast,
        Mark::Both => BinOp::Both,
        Mark::Either => BinOp::Either,
        // marks that are no such operator: they never come from a text
        Mark::OpenRound
        | Mark::CloseRound
        | Mark::OpenBrace
        | Mark::CloseBrace
        | Mark::OpenSquare
        | Mark::CloseSquare
        | Mark::Semi
        | Mark::Comma
        | Mark::Dot
        | Mark::Assign
        | Mark::Flip
        | Mark::Bang
        | Mark::PlusAssign
        | Mark::MinusAssign
        | Mark::StarAssign
        | Mark::SlashAssign
        | Mark::PercentAssign
        | Mark::PlusPlus
        | Mark::MinusMinus => BinOp::Either,
    }
}

/// An expression with its names resolved. `number` is the next free number of a creation, a cast or
/// an `instanceof`.
#[cycle(exprs)]
pub fn expr(within: &Enclosing, scope: &Scope, number: &mut u32, tree: &Expr) -> Named<RExpr>
    ensures given { GivesValue {A = RExpr} {B = Ex × ℕ} (λ e. (core.expr_of e, number.new)) result
        (walk (table_at within.now) within.now.here scope.now number.old (expr_of tree.now)) }
{
    match tree {
        Expr::Int { value, place } => Ok(RExpr::Int {
            value: *value,
            place: *place,
        }),
        Expr::Char { value, place } => Ok(RExpr::Char {
            value: *value,
            place: *place,
        }),
        Expr::Str { units, place } => Ok(RExpr::Str {
            units: units.copy(within.alloc)?,
            place: *place,
        }),
        Expr::Bool { value, place } => Ok(RExpr::Bool {
            value: *value,
            place: *place,
        }),
        Expr::Null { place } => Ok(RExpr::Null { place: *place }),
        Expr::This { place } => {
            if within.here.is_static {
                return Err(Refusal::NotInProfile(Form::ThisInStatic, *place));
            }
            Ok(RExpr::This { place: *place })
        }
        Expr::Name { name, place } => name_meaning(within, scope, name, *place),
        Expr::Field { base, name, place } => {
            if let Some(class) = class_before(within, scope, base)? {
                let field = made!(static_field_of(within, &class, name, *place); class);
                return Ok(RExpr::Static {
                    field: MemberId(field),
                    place: *place,
                });
            }
            let base = boxed(within, scope, number, base)?;
            let name = made!(name.copy(within.alloc) => Refusal; base);
            Ok(RExpr::Field {
                base,
                name,
                place: *place,
            })
        }
        Expr::Index { base, at, place } => {
            let base = boxed(within, scope, number, base)?;
            let at = made!(boxed(within, scope, number, at); base);
            Ok(RExpr::Index {
                base,
                at,
                place: *place,
            })
        }
        Expr::Call {
            base,
            name,
            args,
            place,
        } => match base {
            None => {
                let on = call_meaning(within, name, *place)?;
                applied(within, scope, number, on, name, args, *place)
            }
            Some(base) => {
                let on = callee_of(within, scope, number, base, name, *place)?;
                applied(within, scope, number, on, name, args, *place)
            }
        },
        Expr::SuperCall { name, args, place } => {
            if within.here.is_static {
                return Err(Refusal::NotInProfile(Form::ThisInStatic, *place));
            }
            applied(within, scope, number, Callee::Super, name, args, *place)
        }
        Expr::New { class, args, place } => {
            new_object(within, scope, number, class, args, *place)
        }
        Expr::NewArray { ty, size, place } => {
            let ty = type_of(within.alloc, &within.tables.known, ty)?;
            let own = next(number)?;
            let size = boxed(within, scope, number, size)?;
            Ok(RExpr::NewArray {
                number: own,
                ty,
                size,
                place: *place,
            })
        }
        Expr::Cast { ty, value, place } => {
            let ty = cast_type(within, ty)?;
            let own = next(number)?;
            let value = boxed(within, scope, number, value)?;
            Ok(RExpr::Cast {
                number: own,
                ty,
                value,
                place: *place,
            })
        }
        Expr::InstanceOf {
            value,
            class,
            place,
        } => {
            let value = boxed(within, scope, number, value)?;
            let class =
                made!(asked(within.alloc, &within.tables.known, &class.name, class.place); value);
            let own = made!(next(number); value);
            Ok(RExpr::InstanceOf {
                number: own,
                value,
                class: ClassId(class),
                place: *place,
            })
        }
        Expr::Unary { mark, value, place } => {
            let value = boxed(within, scope, number, value)?;
            Ok(RExpr::Unary {
                op: un_op(*mark),
                value,
                place: *place,
            })
        }
        Expr::Binary {
            mark,
            left,
            right,
            place,
        } => {
            let left = boxed(within, scope, number, left)?;
            let right = made!(boxed(within, scope, number, right); left);
            Ok(RExpr::Binary {
                op: bin_op(*mark),
                left,
                right,
                place: *place,
            })
        }
    }
}

/// The same, as a part of another.
#[cycle(exprs)]
fn boxed(within: &Enclosing, scope: &Scope, number: &mut u32, tree: &Expr) -> Named<Box<RExpr>>
    ensures given { GivesValue {A = Box RExpr Global} {B = Ex × ℕ} (λ e. (core.expr_of e.value, number.new)) result
        (walk (table_at within.now) within.now.here scope.now number.old (expr_of tree.now)) }
{
    let expr = expr(within, scope, number, tree)?;
    Ok(Box::new(within.alloc, expr)?)
}

/// What `base.name(..)` is called on.
#[cycle(exprs)]
fn callee_of(
    within: &Enclosing,
    scope: &Scope,
    number: &mut u32,
    base: &Expr,
    name: &Name,
    place: Place,
) -> Named<Callee>
    ensures given { GivesValue {A = Callee} {B = Receiver × ℕ} (λ c. (receiver_of c, number.new)) result
        (receiver (table_at within.now) number.old name.now place
        (class_before (table_at within.now) within.now.here scope.now (expr_of base.now))
        (walk (table_at within.now) within.now.here scope.now number.old (expr_of base.now))) }
{
    match class_before(within, scope, base)? {
        Some(class) => {
            let method = made!(static_method_of(within, &class, name, place); class);
            Ok(Callee::Static(method))
        }
        None => Ok(Callee::Object(boxed(within, scope, number, base)?)),
    }
}

/// The call of `name` on it.
#[cycle(exprs)]
fn applied(
    within: &Enclosing,
    scope: &Scope,
    number: &mut u32,
    on: Callee,
    name: &Name,
    args: &Vec<Expr>,
    place: Place,
) -> Named<RExpr>
    ensures given { GivesValue {A = RExpr} {B = Ex × ℕ} (λ e. (core.expr_of e, number.new)) result
        (after (walk_all (table_at within.now) within.now.here scope.now no_ex number.old (exprs args.now.items))
        (λ xs. called_on (receiver_of on) name.now xs place)) }
{
    let name = made!(name.copy(within.alloc) => Refusal; on);
    let args = made!(all(within, scope, number, args); on, name);
    Ok(make::call(on, name, args, place))
}

/// `new class(args)`
#[cycle(exprs)]
fn new_object(
    within: &Enclosing,
    scope: &Scope,
    number: &mut u32,
    class: &Id,
    args: &Vec<Expr>,
    place: Place,
) -> Named<RExpr>
    ensures given { GivesValue {A = RExpr} {B = Ex × ℕ} (λ e. (core.expr_of e, number.new)) result
        (walk (table_at within.now) within.now.here scope.now number.old
        (NewOf class.now (exprs args.now.items) place)) }
{
    let class = asked(within.alloc, &within.tables.known, &class.name, class.place)?;
    let own = next(number)?;
    let args = all(within, scope, number, args)?;
    Ok(make::create(own, class, args, place))
}

/// Arguments with their names resolved.
#[cycle(exprs)]
#[tactic(auto, using(crate::proofs::Rows::exprs_push))]
pub fn all(
    within: &Enclosing,
    scope: &Scope,
    number: &mut u32,
    list: &Vec<Expr>,
) -> Named<Vec<RExpr>>
    ensures given { GivesValue {A = Vec RExpr Global} {B = Exs × ℕ} (λ v. (core.exprs v.items, number.new)) result
        (walk_all (table_at within.now) within.now.here scope.now no_ex number.old (exprs list.now.items)) }
{
    let mut done = Vec::new(within.alloc);
    for one in list {
        done.push(expr(within, scope, number, one)?)?;
    }
    Ok(done)
}
