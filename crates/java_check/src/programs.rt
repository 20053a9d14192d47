//! The rules of types of a whole program.

ghost use Rattle.std.specs.Prelude.{◌≡◌, ℕ, ◌<◌, None, length, map, IfOk, IfErr};
ghost use Rattle.java_core.specs.Programs.{program_of, class_seen, method_seen, code_seen};
ghost use Rattle.java_core.specs.Formed.{IsFormed};
ghost use Rattle.java_core.specs.Typing.{IsTyped};
ghost use Rattle.java_check.specs.Fails.{IsRefused};
ghost use Rattle.java_check.specs.Outcome.{env_in, and_then};
ghost use Rattle.java_check.specs.ClassOutcome.{class_rule};
ghost use Rattle.java_check.specs.ProgramOutcome.{classes_answer, body_answer, methods_answer};

use crate::classes::all_quiet;
use crate::nearest::fault_near;
use crate::slots::fine_classes;
use crate::statements::check_stmts;
use crate::{Answered, CheckFault, Kind};
use java_core::{Checked, Class, Code, Method, Program};
use kaba_base::{ClassId, MemberId};
use std::alloc::Global;

/// The program as one that is known to be typed; or a rule of types that fails in it, and where: exactly
/// where the rules of types refuse the program (Java Language Specification, chapters 8, 14 and 15,
/// the subset's part). Want of memory never comes.
pub fn check(alloc: Global, program: Program) -> Result<Checked, CheckFault>
    requires { IsFormed (program_of program) }
    ensures given { IfOk result (λ checked. checked ≡ program) }
    ensures typed { IfOk result (λ _. IsTyped (program_of program)) }
    ensures refused { IfErr result (λ fault. IsRefused (program_of program) fault) }
    ensures untyped { IfErr result (λ _. IsTyped (program_of program) → ⊥) }
{
    match check_program(alloc, &program) {
        Ok(()) => Ok(Checked::new(program)),
        Err(fault) => Err(fault),
    }
}

/// The first rule that fails in a program.
fn check_program(alloc: Global, p: &Program) -> Answered<()>
    requires { IsFormed (program_of p.now) }
    ensures typed { IfOk result (λ _. IsTyped (program_of p.now)) }
    ensures refused { IfErr result (λ fault. IsRefused (program_of p.now) fault) }
    ensures untyped { IfErr result (λ _. IsTyped (program_of p.now) → ⊥) }
{
    first_fault(alloc, p)
}

/// The first rule that fails: in the classes, then in the bodies.
fn first_fault(alloc: Global, p: &Program) -> Answered<()>
    requires { IsFormed (program_of p.now) }
    ensures { result ≡ and_then (classes_answer (program_of p.now) 0 (program_of p.now).classes)
        (λ _. methods_answer (program_of p.now) 0 (program_of p.now).methods) }
{
    match check_classes(alloc, p) {
        Ok(()) => check_methods(p, &p.methods),
        Err(fault) => Err(fault),
    }
}

/// The first rule that one of the classes breaks.
fn check_classes(alloc: Global, p: &Program) -> Answered<()>
    requires { IsFormed (program_of p.now) }
    ensures { result ≡ classes_answer (program_of p.now) 0 (program_of p.now).classes }
{
    check_each(alloc, p, &p.classes, known_classes(alloc, p))
}

/// How many of the first classes are known to break no rule.
fn known_classes(alloc: Global, p: &Program) -> usize
    requires { IsFormed (program_of p.now) }
    ensures { (c : ℕ) → c < result → class_rule (program_of p.now) c (program_of p.now).methods ≡ None }
{
    match fine_classes(alloc, p) {
        Ok(fine) => fine,
        Err(_) => quiet_classes(p),
    }
}

/// All classes, where none breaks a rule for the slot of a method without a body; else none.
fn quiet_classes(p: &Program) -> usize
    requires { IsFormed (program_of p.now) }
    ensures { (c : ℕ) → c < result → class_rule (program_of p.now) c (program_of p.now).methods ≡ None }
{
    if all_quiet(p, &p.methods) {
        p.classes.len()
    } else {
        0
    }
}

/// The first rule that one of the classes breaks, each tested but so many first ones that break none.
fn check_each(alloc: Global, p: &Program, classes: &[Class], fine: usize) -> Answered<()>
    requires formed { IsFormed (program_of p.now) }
    requires few { length classes.now < 4294967295 }
    requires fine { (c : ℕ) → c < fine → class_rule (program_of p.now) c (program_of p.now).methods ≡ None }
    ensures { result ≡ classes_answer (program_of p.now) 0 (map class_seen classes.now) }
{
    for (i, class) in classes.iter().enumerate() {
        if let Some(kind) = fault_of(alloc, p, ClassId(i as u32), fine) {
            return Err(CheckFault::IllTyped(kind, class.place));
        }
    }
    Ok(())
}

/// The rule that a class breaks as a whole, where so many first ones break none.
fn fault_of(alloc: Global, p: &Program, class: ClassId, fine: usize) -> Option<Kind>
    requires formed { IsFormed (program_of p.now) }
    requires fine { (c : ℕ) → c < fine → class_rule (program_of p.now) c (program_of p.now).methods ≡ None }
    ensures { result ≡ class_rule (program_of p.now) class.0 (program_of p.now).methods }
{
    if (class.0 as usize) < fine {
        return None;
    }
    fault_near(alloc, p, class)
}

/// The first rule that fails in the bodies of the methods.
fn check_methods(p: &Program, methods: &[Method]) -> Answered<()>
    requires formed { IsFormed (program_of p.now) }
    requires few { length methods.now < 4294967295 }
    ensures { result ≡ methods_answer (program_of p.now) 0 (map method_seen methods.now) }
{
    for (i, method) in methods.iter().enumerate() {
        if let Err(fault) = check_body(p, MemberId(i as u32), &method.code()) {
            return Err(fault);
        }
    }
    Ok(())
}

/// The first rule that fails in a body.
fn check_body(p: &Program, number: MemberId, code: &Code) -> Answered<()>
    requires { IsFormed (program_of p.now) }
    ensures { result ≡ body_answer (program_of p.now) (env_in (program_of p.now) number.0) (code_seen code.now).body }
{
    match code.body {
        Some(body) => check_stmts(p, number, body),
        None => Ok(()),
    }
}
