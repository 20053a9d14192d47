//! The words of causes: what the program prints of a form, a rule of types, a limit, a fault, and that in which two
//! programs part.
#![tactic(auto)]

ghost use Rattle.std.specs.Prelude.{◌≡◌};
ghost use Rattle.kaba_top.specs.CauseWords.{cause_text};

use flow_program::Counted;
use java_check::Kind;
use java_core::Fault;
use java_resolve::Form;
use same_program::What;

/// What the line of an answer names.
#[derive(Clone, Copy)]
pub enum Cause {
    /// A form that the language leaves out.
    Form(Form),
    /// A rule of types.
    Rule(Kind),
    /// What there is too much of.
    Limit(Counted),
    /// What went wrong in a run.
    Fault(Fault),
    /// In what two programs part.
    Parted(What),
}

/// The words of a cause.
pub fn cause_text(cause: Cause) -> &'static str
    ensures { result.now ≡ cause_text cause }
{
    match cause {
        Cause::Form(Form::Modifier) => "Modifier",
        Cause::Form(Form::Body) => "Body",
        Cause::Form(Form::ThisInStatic) => "ThisInStatic",
        Cause::Form(Form::BreakOutside) => "BreakOutside",
        Cause::Rule(Kind::Operand) => "Operand",
        Cause::Rule(Kind::Condition) => "Condition",
        Cause::Rule(Kind::Assign) => "Assign",
        Cause::Rule(Kind::Arguments) => "Arguments",
        Cause::Rule(Kind::Return) => "Return",
        Cause::Rule(Kind::Cast) => "Cast",
        Cause::Rule(Kind::NoMember) => "NoMember",
        Cause::Rule(Kind::AbstractNew) => "AbstractNew",
        Cause::Rule(Kind::MissingBody) => "MissingBody",
        Cause::Rule(Kind::NotPublic) => "NotPublic",
        Cause::Limit(Counted::Rows) => "rows 16384",
        Cause::Limit(Counted::Columns) => "columns 8192",
        Cause::Limit(Counted::Sites) => "sites 8192",
        Cause::Limit(Counted::Points) => "points 65536",
        Cause::Fault(Fault::Null) => "Null",
        Cause::Fault(Fault::Bounds) => "Bounds",
        Cause::Fault(Fault::NegativeSize) => "NegativeSize",
        Cause::Fault(Fault::ArrayStore) => "ArrayStore",
        Cause::Fault(Fault::ClassCast) => "ClassCast",
        Cause::Fault(Fault::DivZero) => "DivZero",
        Cause::Fault(Fault::TooLong) => "TooLong",
        Cause::Parted(What::Type) => "type",
        Cause::Parted(What::Field) => "field",
        Cause::Parted(What::Method) => "method",
        Cause::Parted(What::Variable) => "variable",
        Cause::Parted(What::Main) => "main",
        Cause::Parted(What::Statement) => "statement",
        Cause::Parted(What::Expression) => "expression",
        Cause::Parted(What::Literal) => "literal",
        Cause::Parted(What::Operator) => "operator",
        Cause::Parted(What::Call) => "call",
        Cause::Parted(What::Creation) => "creation",
        Cause::Parted(What::Cast) => "cast",
        Cause::Parted(What::Test) => "test",
    }
}
