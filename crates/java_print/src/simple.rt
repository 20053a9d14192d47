//! The text of a statement that stands on a line of its own.
#![tactic(auto)]

ghost use Rattle.std.specs.Prelude.{◌≡◌, OnOk, List};
ghost use Rattle.java_tree.specs.Syntax.{expr_of, exprs, value_of, stmt_of};
ghost use Rattle.java_print.specs.Items.{Item};
ghost use Rattle.java_print.specs.Layout.{key_then, value_items, spaced_items, init_items, initial_items, print_head, final_items, is_printing, upon_system, call_items, local_items, assign_items, print_items, simple_items, first_items, step_items, stop_then, for_head_items, return_items};
ghost use Rattle.java_print.specs.Adds.{Adds, Puts};
ghost use Rattle.java_tree.specs.Syntax.{boxed_step};

use crate::exprs::{put_args, put_expr, put_key_space, put_space, put_type};
use crate::put::{put_end, put_key, put_mark, put_name, put_text};
use java_lex::Mark;
use java_tree::{Expr, Stmt, TypeName, is_text, output_call};
use kaba_base::{Keyword, Name};
use std::alloc::AllocError;

/// Adds a part that may be left out, where it is there.
macro_rules! where_there {
    ($part:ident, $put:expr) => {
        match $part {
            None => Ok(()),
            Some($part) => $put,
        }
    };
}

/// Whether a call of `System.out` with so many arguments prints.
fn is_printing(name: &Name, count: usize) -> bool
    ensures value { result ≡ is_printing name.now count }
{
    count < 2 && is_text(name, "println") || count == 1 && is_text(name, "print")
}

/// Adds a value, where there is one.
fn put_value(into: &mut Vec<u8>, value: &Option<Expr>) -> Result<(), AllocError>
    ensures value { OnOk result (Puts into.old.items into.new.items (value_items (value_of value.now))) }
{
    where_there!(value, put_expr(into, value))
}

/// Adds a space and a value, where there is one.
fn put_spaced(into: &mut Vec<u8>, value: &Option<Expr>) -> Result<(), AllocError>
    ensures value { OnOk result (Puts into.old.items into.new.items (spaced_items (value_of value.now))) }
{
    where_there!(
        value,
        {
            put_space(into)?;
            put_expr(into, value)
        }
    )
}

/// Adds ` = ` and a value.
fn put_initial(into: &mut Vec<u8>, value: &Expr) -> Result<(), AllocError>
    ensures value { OnOk result (Puts into.old.items into.new.items (initial_items (expr_of value.now))) }
{
    put_space(into)?;
    put_mark(into, Mark::Assign)?;
    put_space(into)?;
    put_expr(into, value)
}

/// Adds ` = ` and an initial value, where there is one.
fn put_init(into: &mut Vec<u8>, value: &Option<Expr>) -> Result<(), AllocError>
    ensures value { OnOk result (Puts into.old.items into.new.items (init_items (value_of value.now))) }
{
    where_there!(value, put_initial(into, value))
}

/// Adds `final `, where it is asked.
pub fn put_final(into: &mut Vec<u8>, is_final: bool) -> Result<(), AllocError>
    ensures value { OnOk result (Puts into.old.items into.new.items (final_items is_final)) }
{
    if is_final {
        put_key_space(into, Keyword::Final)
    } else {
        Ok(())
    }
}

/// Adds the declaration of a local.
fn put_local(
    into: &mut Vec<u8>,
    is_final: bool,
    ty: &TypeName,
    name: &Name,
    value: &Option<Expr>,
) -> Result<(), AllocError>
    ensures value { OnOk result (Puts into.old.items into.new.items (local_items is_final ty.now name.now (value_of value.now))) }
{
    put_final(into, is_final)?;
    put_type(into, ty)?;
    put_space(into)?;
    put_name(into, name)?;
    put_init(into, value)
}

/// Adds an assignment.
fn put_assign(into: &mut Vec<u8>, target: &Expr, value: &Expr) -> Result<(), AllocError>
    ensures value { OnOk result (Puts into.old.items into.new.items (assign_items (expr_of target.now) (expr_of value.now))) }
{
    put_expr(into, target)?;
    put_initial(into, value)
}

/// How a printing begins.
fn print_head(newline: bool) -> &'static str
    ensures value { result.now ≡ print_head newline }
{
    if newline {
        "System.out.println("
    } else {
        "System.out.print("
    }
}

/// Adds a printing.
fn put_print(into: &mut Vec<u8>, newline: bool, value: &Option<Expr>) -> Result<(), AllocError>
    ensures value { OnOk result (Puts into.old.items into.new.items (print_items newline (value_of value.now))) }
{
    put_text(into, print_head(newline))?;
    put_value(into, value)?;
    put_mark(into, Mark::CloseRound)
}

/// Adds a call that stands as a statement: one that would be read as a printing with brackets that keep it a call.
fn put_do(into: &mut Vec<u8>, call: &Expr) -> Result<(), AllocError>
    ensures value { OnOk result (Puts into.old.items into.new.items (call_items (expr_of call.now))) }
{
    match output_call(call) {
        Some((name, args)) => {
            if is_printing(name, args.len()) {
                put_bracketed(into, name, args)
            } else {
                put_expr(into, call)
            }
        }
        None => put_expr(into, call),
    }
}

/// Adds a call upon `(System).out`.
fn put_bracketed(into: &mut Vec<u8>, name: &Name, args: &[Expr]) -> Result<(), AllocError>
    ensures value { OnOk result ((r : List Item) → Adds into.old.items into.new.items (upon_system name.now (exprs args.now) r) r) }
{
    put_text(into, "(System).out.")?;
    put_name(into, name)?;
    put_mark(into, Mark::OpenRound)?;
    put_args(into, args)
}

/// Adds a statement that stands on a line with nothing else, without its semicolon.
fn put_simple(into: &mut Vec<u8>, s: &Stmt) -> Result<(), AllocError>
    ensures value { OnOk result (Puts into.old.items into.new.items (simple_items (stmt_of s.now))) }
{
    match s {
        Stmt::Local {
            is_final,
            ty,
            name,
            value,
            ..
        } => put_local(into, *is_final, ty, name, value),
        Stmt::Assign { target, value, .. } => put_assign(into, target, value),
        Stmt::Do { call, .. } => put_do(into, call),
        Stmt::Print { newline, value, .. } => put_print(into, *newline, value),
        _ => Ok(()),
    }
}

/// Adds the first part of a `for`.
fn put_first(into: &mut Vec<u8>, first: &Option<Box<Stmt>>) -> Result<(), AllocError>
    ensures value { OnOk result (Puts into.old.items into.new.items (first_items (boxed_step first.now))) }
{
    where_there!(first, put_simple(into, first))
}

/// Adds the last part of a `for`.
fn put_step(into: &mut Vec<u8>, step: &Option<Box<Stmt>>) -> Result<(), AllocError>
    ensures value { OnOk result (Puts into.old.items into.new.items (step_items (boxed_step step.now))) }
{
    where_there!(
        step,
        {
            put_space(into)?;
            put_simple(into, step)
        }
    )
}

/// Adds a semicolon and the end of the line.
pub fn put_stop(into: &mut Vec<u8>) -> Result<(), AllocError>
    ensures value { OnOk result (Puts into.old.items into.new.items stop_then) }
{
    put_mark(into, Mark::Semi)?;
    put_end(into)
}

/// Adds a `for` up to its body.
pub fn put_for_head(
    into: &mut Vec<u8>,
    first: &Option<Box<Stmt>>,
    test: &Option<Expr>,
    step: &Option<Box<Stmt>>,
) -> Result<(), AllocError>
    ensures value { OnOk result (Puts into.old.items into.new.items (for_head_items (boxed_step first.now) (value_of test.now) (boxed_step step.now))) }
{
    put_text(into, "for (")?;
    put_first(into, first)?;
    put_mark(into, Mark::Semi)?;
    put_spaced(into, test)?;
    put_mark(into, Mark::Semi)?;
    put_step(into, step)?;
    put_mark(into, Mark::CloseRound)
}

/// Adds a `return`.
pub fn put_return(into: &mut Vec<u8>, value: &Option<Expr>) -> Result<(), AllocError>
    ensures value { OnOk result (Puts into.old.items into.new.items (return_items (value_of value.now))) }
{
    put_key(into, Keyword::Return)?;
    put_spaced(into, value)?;
    put_stop(into)
}

/// Adds a `break` or a `continue`.
pub fn put_jump(into: &mut Vec<u8>, key: Keyword) -> Result<(), AllocError>
    ensures value { OnOk result ((r : List Item) → Adds into.old.items into.new.items (key_then key (stop_then r)) r) }
{
    put_key(into, key)?;
    put_stop(into)
}

/// Adds a line with one simple statement.
pub fn put_line(into: &mut Vec<u8>, s: &Stmt) -> Result<(), AllocError>
    ensures value { OnOk result ((r : List Item) → Adds into.old.items into.new.items (simple_items (stmt_of s.now) (stop_then r)) r) }
{
    put_simple(into, s)?;
    put_stop(into)
}
