//! Programs that the rules of types accept.

ghost use Rattle.std.specs.Prelude.{◌≡◌};
ghost use Rattle.java_core.specs.Programs.{program_of};
ghost use Rattle.java_core.specs.Formed.{IsFormed};
ghost use Rattle.java_core.specs.Typing.{IsTyped};

use crate::Program;
use std::marker::Model;

/// One program that the rules of types accept, seen as that program.
#[derive(Drop)]
pub struct Checked {
    program: Program,
}

impl Model for Checked {
    ghost use Rattle.java_core.specs.declared.Program.{Program};

    ghost Value = { Program };

    ghost use Rattle.std.specs.Coded.{codes};
    ghost use Rattle.java_core.specs.contracts.RExpr as expr;
    ghost use Rattle.java_core.specs.contracts.RStmt as stmt;
    ghost use Rattle.kaba_versions.specs.contracts.Tree as tree;

    ghost coded = { Prim.hlevel (codes, expr.the_row.coded, stmt.the_row.coded, tree.the_row.coded) };

    ghost use Rattle.java_core.specs.Programs.{program_of};
    ghost use Rattle.java_core.specs.Formed.{IsFormed};
    ghost use Rattle.java_core.specs.Typing.{IsTyped};

    ghost view = { λ checked. checked.program };

    ghost invariant = { λ checked. IsFormed (program_of checked.program) × IsTyped (program_of checked.program) };
}

impl Checked {
    /// A program that is formed and typed, as one that is known to be so.
    pub fn new(program: Program) -> Checked
        requires formed { IsFormed (program_of program) }
        requires typed { IsTyped (program_of program) }
        ensures value { result ≡ program }
    {
        Checked { program }
    }

    /// The program.
    pub fn program(&self) -> &Program
        ensures value { result.now ≡ self.now }
        ensures formed { IsFormed (program_of self.now) }
        ensures typed { IsTyped (program_of self.now) }
    {
        &self.program
    }
}
