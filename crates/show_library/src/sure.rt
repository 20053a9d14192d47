//! What is sure of every run of a program.

ghost use Rattle.fact_model.specs.InRange.{InRange};
ghost use Rattle.sure_report.specs.Report.{AreSpotsInRange};

use crate::hierarchy::typed;
use fact_model::Facts;
use flow_program::facts;
use points_to::solve;
use std::alloc::{AllocError, Global};
use sure_report::{report, show_sure};

/// A program with a cast that passes and one that may fail, a call with one body and one that no run makes, a field that
/// nothing uses and bodies that no run enters.
const TEXT: &[u8] = b"class A { int f; int g; A m() { return this; } A n() { return this.m(); } }\n\
    class B extends A { A m() { return null; } }\n\
    class M { public static void main(String[] words) {\n\
    A x = new B(); B y = (B) x; A z = x.m(); z = new A(); z = x;\n\
    B b = (B) z; System.out.println(y.f + b.f); } }\n";

/// The lines of the report on facts.
fn add_report(alloc: Global, text: &mut String, facts: &Facts) -> Result<(), AllocError>
    requires range { InRange facts.now }
    requires spots { AreSpotsInRange facts.now }
{
    let sets = solve(alloc, facts)?;
    let sure = report(alloc, facts, &sets)?;
    let mut lines = Vec::new(alloc);
    show_sure(alloc, facts, &sure, &mut lines)?;
    let shown = String::from_utf8_lossy(alloc, lines.as_slice())?;
    text.push_str(&shown)
}

/// What is sure of every run of the program.
pub fn add_sure(alloc: Global, text: &mut String) -> Result<(), AllocError> {
    let bytes = Vec::from_slice(alloc, TEXT)?;
    let Some(program) = typed(alloc, &bytes)? else {
        return Ok(());
    };
    match facts(alloc, &program) {
        Ok(facts) => add_report(alloc, text, &facts),
        Err(_) => Ok(()),
    }
}
