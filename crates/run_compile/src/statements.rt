//! The code of statements.

ghost use Rattle.std.specs.Prelude.{◌≡◌, ◌≤◌, ◌-◌, ◌++◌, List, length, OnOk};
ghost use Rattle.run_compile.specs.Words.{expr_of, value_of, stmts, Op, plain, env, IsScopeReady};
ghost use Rattle.java_core.specs.Trees.{IfArms, stmt_of, arms_seen, step_seen};
ghost use Rattle.run_code.specs.Code.{code_print, code_return, code_st, code_sts, code_arms};
ghost use Rattle.run_compile.specs.Exits.{AreExitsWithin, arm_code};

use crate::assignments::{compile_assignment, compile_declaration};
use crate::code::Code;
use crate::conditions::{compile_test, test_of};
use crate::expressions::compile;
use crate::jumps::{Ends, close_for, close_while, leave, open_for, open_while, pass_over};
use crate::operands::operand;
use crate::scope::{Site, gives_int};
use java_core::{RArm, RExpr, RStmt};
use run_code::{Effect, Instr, Jump, Operand, Tried};

/// How much code stands behind the places that a `break` and a `continue` go to.
#[derive(Clone, Copy)]
pub struct Exits {
    pub broke: usize,
    pub next: usize,
}

/// A `break` and a `continue` go to places with so much code behind them.
macro_rules! exits {
    ($broke:ident, $next:ident) => {
        Exits {
            broke: $broke,
            next: $next,
        }
    };
}

/// The code of a `System.out.println` or a `System.out.print`.
fn compile_print(code: &mut Code, site: Site, newline: bool, value: &Option<RExpr>) -> Tried<()>
    requires { IsScopeReady site.scope.now }
    ensures { OnOk result (code.new ≡ code_print (plain site.entry.scope.now) (env site.entry.scope.now) newline
        (value_of value.now) site.entry.at ++ code.old) }
{
    match value {
        Some(value) => {
            code.put(Instr::Act(Effect::Show(newline, operand(value, site.at)?)))?;
            compile(code, site, value)
        }
        None => code.put(Instr::Act(Effect::ShowEnd(newline))),
    }
}

/// The code of a `return`.
fn compile_return(code: &mut Code, site: Site, value: &Option<RExpr>) -> Tried<()>
    requires { IsScopeReady site.scope.now }
    ensures { OnOk result (code.new ≡ code_return (plain site.entry.scope.now) (env site.entry.scope.now)
        (value_of value.now) site.entry.at ++ code.old) }
{
    match value {
        Some(value) => {
            code.put(Instr::Give(gives_int(site.scope), operand(value, site.at)?))?;
            compile(code, site, value)
        }
        None => code.put(Instr::Give(false, Operand::Null)),
    }
}

/// The code of a statement: a `break` and a `continue` go to its exits.
#[cycle(statements)]
fn compile_stmt(code: &mut Code, site: Site, s: &RStmt, exits: Exits) -> Tried<()>
    requires ready { IsScopeReady site.scope.now }
    requires within { AreExitsWithin exits (length code.old) }
    ensures { OnOk result (code.new ≡ code_st (plain site.entry.scope.now) (env site.entry.scope.now) (stmt_of s.now) site.entry.at
        (length code.old - exits.broke) (length code.old - exits.next) ++ code.old) }
{
    match s {
        RStmt::Local { local, value, .. } => compile_declaration(code, site, *local, value),
        RStmt::Block { items, .. } => compile_stmts(code, site, items, exits),
        RStmt::Assign { target, value, .. } => compile_assignment(code, site, target, value),
        RStmt::Do { call, .. } => compile(code, site, call),
        RStmt::Print { newline, value, .. } => compile_print(code, site, *newline, value),
        RStmt::If { arms, other, .. } => {
            let end = code.len();
            if let Some(body) = other {
                compile_stmts(code, site, body, exits)?;
            }
            compile_arms(code, site, arms, end, exits)?;
            Ok(())
        }
        RStmt::While { test, body, .. } => {
            let end = code.len();
            open_while(code, site, test)?;
            let tested = code.len();
            compile_stmts(code, site, body, exits!(end, tested))?;
            close_while(code, test, site.at, Ends { end, tested })?;
            Ok(())
        }
        RStmt::For {
            first,
            test,
            step,
            body,
            ..
        } => {
            let end = code.len();
            open_for(code, site, test)?;
            let tested = code.len();
            compile_step(code, site, step, exits)?;
            let stepped = code.len();
            compile_stmts(code, site, body, exits!(end, stepped))?;
            close_for(code, test, site.at, Ends { end, tested })?;
            compile_step(code, site, first, exits)?;
            Ok(())
        }
        RStmt::Return { value, .. } => compile_return(code, site, value),
        RStmt::Break { .. } => leave(code, exits.broke),
        RStmt::Continue { .. } => leave(code, exits.next),
    }
}

/// The code of statements.
#[cycle(statements)]
pub fn compile_stmts(code: &mut Code, site: Site, list: &Vec<RStmt>, exits: Exits) -> Tried<()>
    requires ready { IsScopeReady site.scope.now }
    requires within { AreExitsWithin exits (length code.old) }
    ensures { OnOk result (code.new ≡ code_sts (plain site.entry.scope.now) (env site.entry.scope.now) (stmts list.now.items) site.entry.at
        (length code.old - exits.broke) (length code.old - exits.next) ++ code.old) }
{
    for i in (0..list.len()).rev() {
        compile_stmt(code, site, &list[i], exits)?;
    }
    Ok(())
}

/// The code of the first or the last part of a `for`.
#[cycle(statements)]
fn compile_step(code: &mut Code, site: Site, step: &Option<Box<RStmt>>, exits: Exits) -> Tried<()>
    requires ready { IsScopeReady site.scope.now }
    requires within { AreExitsWithin exits (length code.old) }
    ensures { OnOk result (code.new ≡ code_sts (plain site.entry.scope.now) (env site.entry.scope.now) (step_seen step.now) site.entry.at
        (length code.old - exits.broke) (length code.old - exits.next) ++ code.old) }
{
    match step {
        Some(step) => compile_stmt(code, site, step, exits),
        None => Ok(()),
    }
}

/// The code of the arms of an `if`, behind which that of its `else` stands.
#[cycle(statements)]
fn compile_arms(
    code: &mut Code,
    site: Site,
    arms: &Vec<RArm>,
    end: usize,
    exits: Exits,
) -> Tried<()>
    requires ready { IsScopeReady site.scope.now }
    requires within { AreExitsWithin exits end }
    requires placed { end ≤ length code.old }
    ensures { OnOk result ((other : IfArms) (rest : List Op) → length rest ≡ end
        → code.old ≡ code_arms (plain site.entry.scope.now) (env site.entry.scope.now) other site.entry.at (end - exits.broke) (end - exits.next) ++ rest
        → code.new ≡ code_arms (plain site.entry.scope.now) (env site.entry.scope.now) (arms_seen arms.now.items other) site.entry.at
        (end - exits.broke) (end - exits.next) ++ rest) }
{
    for i in (0..arms.len()).rev() {
        compile_arm(code, site, &arms[i], end, exits)?;
    }
    Ok(())
}

/// The code of an arm of an `if`, behind which that of the others stands.
#[cycle(statements)]
fn compile_arm(code: &mut Code, site: Site, arm: &RArm, end: usize, exits: Exits) -> Tried<()>
    requires ready { IsScopeReady site.scope.now }
    requires within { AreExitsWithin exits end }
    requires placed { end ≤ length code.old }
    ensures placed { OnOk result (end ≤ length code.new) }
    ensures code { OnOk result ((more rest : List Op) → length rest ≡ end → code.old ≡ more ++ rest
        → code.new ≡ arm_code (plain site.entry.scope.now) (env site.entry.scope.now) (expr_of arm.now.test)
        (stmts arm.now.body.items) site.entry.at (end - exits.broke) (end - exits.next) more ++ rest) }
{
    let start = code.len();
    pass_over(code, end)?;
    compile_stmts(code, site, &arm.body, exits)?;
    let passed = code.before(start)?;
    code.put(Instr::Ask(test_of(&arm.test, site.at)?, Jump::SkipUnless(passed)))?;
    compile_test(code, site, &arm.test)?;
    Ok(())
}
