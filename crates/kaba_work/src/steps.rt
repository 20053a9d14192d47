//! What main does with each class.

ghost use Rattle.std.specs.Prelude.{◌≡◌, ◌<◌, ◌++◌, map, IfOk, OnOk};
ghost use Rattle.java_tree.specs.Syntax.{AssignOf, expr_of, stmt_of};
ghost use Rattle.kaba_work.specs.Sample as sample;

use crate::names::{Kind, class_type, method_name, name_of};
use java_lex::Mark;
use java_tree::unplaced::{id, nowhere};
use java_tree::{Expr, Stmt, build};
use kaba_base::{made, put};
use std::alloc::{AllocError, Global};

/// `a + b`
pub fn sum_of(alloc: Global, left: Expr, right: Expr) -> Result<Expr, AllocError>
    ensures { IfOk result (λ e. expr_of e ≡ sample.sum_of (expr_of left) (expr_of right)) }
{
    build::binary(alloc, Mark::Plus, left, right, nowhere())
}

/// `target = value;`
pub fn assignment(target: Expr, value: Expr) -> Stmt
    ensures { stmt_of result ≡ AssignOf (expr_of target) (expr_of value) sample.nowhere }
{
    Stmt::Assign {
        target,
        value,
        place: nowhere(),
    }
}

/// The variable that holds an object of the class.
fn variable(alloc: Global, number: u32) -> Result<Expr, AllocError>
    ensures { IfOk result (λ e. expr_of e ≡ sample.variable number) }
{
    let name = made!(name_of(alloc, Kind::Variable, number););
    Ok(Expr::Name {
        name,
        place: nowhere(),
    })
}

/// The field of that object that is set from outside.
fn extra(alloc: Global, number: u32) -> Result<Expr, AllocError>
    ensures { IfOk result (λ e. expr_of e ≡ sample.extra number) }
{
    let object = made!(variable(alloc, number););
    let name = made!(name_of(alloc, Kind::Extra, number); object);
    build::field(alloc, object, name, nowhere())
}

/// The variable's declaration.
fn creation(alloc: Global, number: u32) -> Result<Stmt, AllocError>
    ensures { IfOk result (λ s. stmt_of s ≡ sample.creation number) }
{
    let ty = made!(class_type(alloc, number););
    let name = made!(name_of(alloc, Kind::Variable, number); ty);
    let class = made!(name_of(alloc, Kind::Class, number); ty, name);
    let object = build::new_object(id(class), Vec::new(alloc), nowhere());
    Ok(Stmt::Local {
        is_final: false,
        ty,
        name,
        value: Some(object),
        place: nowhere(),
    })
}

/// The field set to the class's number.
fn setting(alloc: Global, number: u32) -> Result<Stmt, AllocError>
    requires { number < 100 }
    ensures { IfOk result (λ s. stmt_of s ≡ sample.setting number) }
{
    let target = made!(extra(alloc, number););
    let value = Expr::Int {
        value: number as i32,
        place: nowhere(),
    };
    Ok(assignment(target, value))
}

/// What the method gives and the field, printed.
fn printing(alloc: Global, number: u32) -> Result<Stmt, AllocError>
    ensures { IfOk result (λ s. stmt_of s ≡ sample.printing number) }
{
    let object = made!(variable(alloc, number););
    let name = made!(method_name(alloc); object);
    let call = made!(build::call_on(alloc, object, name, Vec::new(alloc), nowhere()););
    let field = made!(extra(alloc, number); call);
    let value = made!(sum_of(alloc, call, field););
    Ok(Stmt::Print {
        newline: true,
        value: Some(value),
        place: nowhere(),
    })
}

/// The three statements for a class, behind those before.
pub fn add_steps(alloc: Global, number: u32, body: &mut Vec<Stmt>) -> Result<(), AllocError>
    requires { number < 100 }
    ensures { OnOk result (map stmt_of body.new.items ≡ map stmt_of body.old.items ++ sample.steps number) }
{
    made!(put(body, made!(creation(alloc, number);)););
    made!(put(body, made!(setting(alloc, number);)););
    put(body, made!(printing(alloc, number);))
}
