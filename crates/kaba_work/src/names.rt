//! Names and types of a sample.

ghost use Rattle.std.specs.Prelude.{◌≡◌, ◌++◌, true, IfOk, string_bytes};
ghost use Rattle.std.specs.List.{list_all};
ghost use Rattle.std.specs.Char.{is_ascii};
ghost use Rattle.std.specs.Fmt.{decimal};
ghost use Rattle.kaba_work.specs.Sample as sample;
ghost use Rattle.kaba_work.specs.Kinds.{name_of};

use java_tree::unplaced::nowhere;
use java_tree::{TypeBase, TypeName};
use kaba_base::{Name, made};
use std::alloc::{AllocError, Global};

/// What a name with a number is the name of.
#[derive(Clone, Copy)]
pub enum Kind {
    /// The class.
    Class,
    /// The field that its method adds to.
    Field,
    /// The field that is set from outside.
    Extra,
    /// The variable that holds an object of the class.
    Variable,
}

/// The type of numbers.
pub fn int_type() -> TypeName
    ensures { result ≡ sample.int_type }
{
    TypeName {
        base: TypeBase::Int,
        dim: 0,
        place: nowhere(),
    }
}

/// The type of the objects of the class of this number.
pub fn class_type(alloc: Global, number: u32) -> Result<TypeName, AllocError>
    ensures { IfOk result (λ t. t ≡ sample.class_type number) }
{
    let name = made!(name_of(alloc, Kind::Class, number););
    Ok(TypeName {
        base: TypeBase::Named(name),
        dim: 0,
        place: nowhere(),
    })
}

/// A word of ASCII characters.
pub fn word(alloc: Global, text: &str) -> Result<Name, AllocError>
    requires { list_all is_ascii text.now ≡ true }
    ensures { IfOk result (λ n. n ≡ text.now) }
{
    Name::new(alloc, text)
}

/// A letter with a number behind it.
fn numbered(alloc: Global, letter: &str, number: u32) -> Result<Name, AllocError>
    requires { list_all is_ascii letter.now ≡ true }
    ensures { IfOk result (λ n. n ≡ letter.now ++ decimal number) }
{
    let text = format!(in alloc; "{letter}{number}")?;
    Name::new(alloc, text.as_str())
}

/// The name of what this is and has this number.
pub fn name_of(alloc: Global, kind: Kind, number: u32) -> Result<Name, AllocError>
    ensures { IfOk result (λ n. n ≡ name_of kind number) }
{
    match kind {
        Kind::Class => numbered(alloc, "K", number),
        Kind::Field => numbered(alloc, "f", number),
        Kind::Extra => numbered(alloc, "e", number),
        Kind::Variable => numbered(alloc, "v", number),
    }
}

/// The name of the method.
pub fn method_name(alloc: Global) -> Result<Name, AllocError>
    ensures { IfOk result (λ n. n ≡ sample.method_name) }
{
    word(alloc, "g")
}
