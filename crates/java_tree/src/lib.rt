//! Syntax trees and the grammar that derives them.
#![tactic(auto)]

mod asked;
/// Trees from their parts.
pub mod build;
mod makers;
/// Parts of a tree that was read from no text.
pub mod unplaced;

pub use asked::{is_text, level_of, output_call};
use java_lex::{Mark, Units};
use kaba_base::{Keyword, Name, Place};
pub use makers::has_maker;

/// A name with its place.
#[derive(Drop)]
pub struct Id {
    pub name: Name,
    pub place: Place,
}

/// A modifier of a declaration: `public`, `protected`, `private`, `abstract`, `static` or `final`.
#[derive(Drop)]
pub struct Modifier {
    pub word: Keyword,
    pub place: Place,
}

/// What an array's elements are, or a type that is no array.
#[derive(Drop)]
pub enum TypeBase {
    /// `int`
    Int,
    /// `boolean`
    Boolean,
    /// `char`
    Char,
    /// A class or an interface.
    Named(Name),
}

/// A type: a base with `dim` pairs of square brackets behind it.
#[derive(Drop)]
pub struct TypeName {
    pub base: TypeBase,
    pub dim: u32,
    pub place: Place,
}

/// A parameter of a method or a constructor. Its place is that of its name.
#[derive(Drop)]
pub struct Param {
    pub is_final: bool,
    pub ty: TypeName,
    pub name: Name,
    pub place: Place,
}

/// A method up to its body. A result that is `None` is `void`. Its place is that of its name.
#[derive(Drop)]
pub struct Head {
    pub mods: Vec<Modifier>,
    pub result: Option<TypeName>,
    pub name: Name,
    pub params: Vec<Param>,
    pub place: Place,
}

/// An expression (Java Language Specification, chapter 15, the subset's part).
#[derive(Drop)]
pub enum Expr {
    /// A number.
    Int {
        value: i32,
        place: Place,
    },
    /// A character literal: its code unit.
    Char {
        value: u16,
        place: Place,
    },
    /// A string literal: its code units.
    Str {
        units: Units,
        place: Place,
    },
    /// `true` or `false`.
    Bool {
        value: bool,
        place: Place,
    },
    /// `null`.
    Null {
        place: Place,
    },
    /// `this`.
    This {
        place: Place,
    },
    /// A simple name.
    Name {
        name: Name,
        place: Place,
    },
    /// `base.name`, with the place of the name.
    Field {
        base: Box<Expr>,
        name: Name,
        place: Place,
    },
    /// `base[at]`, with the place of its `[`.
    Index {
        base: Box<Expr>,
        at: Box<Expr>,
        place: Place,
    },
    /// `name(args)`, or `base.name(args)`, with the place of the name.
    Call {
        base: Option<Box<Expr>>,
        name: Name,
        args: Vec<Expr>,
        place: Place,
    },
    /// `super.name(args)`, with the place of the name.
    SuperCall {
        name: Name,
        args: Vec<Expr>,
        place: Place,
    },
    /// `new class(args)`.
    New {
        class: Id,
        args: Vec<Expr>,
        place: Place,
    },
    /// `new ty` with a size: `ty` is the array's own type, of dimension 1 or more.
    NewArray {
        ty: TypeName,
        size: Box<Expr>,
        place: Place,
    },
    /// `(ty) value`.
    Cast {
        ty: TypeName,
        value: Box<Expr>,
        place: Place,
    },
    /// `value instanceof class`, with the place of the operator.
    InstanceOf {
        value: Box<Expr>,
        class: Id,
        place: Place,
    },
    /// A prefix operator.
    Unary {
        mark: Mark,
        value: Box<Expr>,
        place: Place,
    },
    /// A binary operator, with its place.
    Binary {
        mark: Mark,
        left: Box<Expr>,
        right: Box<Expr>,
        place: Place,
    },
}

/// A test of an `if` and what runs where it holds.
#[cycle(statements)]
#[derive(Drop)]
pub struct Arm {
    pub test: Expr,
    pub body: Vec<Stmt>,
}

/// A statement (Java Language Specification, chapter 14, the subset's part). A body is a list of
/// statements: a block gives its list, any other statement is a list of one.
#[cycle(statements)]
#[derive(Drop)]
pub enum Stmt {
    /// The declaration of a local, with the place of its name.
    Local {
        is_final: bool,
        ty: TypeName,
        name: Name,
        value: Option<Expr>,
        place: Place,
    },
    /// `{ items }`; `;` is the empty block.
    Block {
        items: Vec<Stmt>,
        place: Place,
    },
    /// An assignment, with the place of its mark.
    Assign {
        target: Expr,
        value: Expr,
        place: Place,
    },
    /// A call or a creation as a statement.
    Do {
        call: Expr,
        place: Place,
    },
    /// `System.out.println(value)`, or `System.out.print(value)` without a new line.
    Print {
        newline: bool,
        value: Option<Expr>,
        place: Place,
    },
    /// An `if` with its arms; each `else if` is one more arm.
    If {
        arms: Vec<Arm>,
        other: Option<Vec<Stmt>>,
        place: Place,
    },
    /// A `while`.
    While {
        test: Expr,
        body: Vec<Stmt>,
        place: Place,
    },
    /// A `for`.
    For {
        first: Option<Box<Stmt>>,
        test: Option<Expr>,
        step: Option<Box<Stmt>>,
        body: Vec<Stmt>,
        place: Place,
    },
    /// A `return`.
    Return {
        value: Option<Expr>,
        place: Place,
    },
    /// A `break`.
    Break {
        place: Place,
    },
    /// A `continue`.
    Continue {
        place: Place,
    },
}

/// A member of a class. Its place is that of its name.
#[derive(Drop)]
pub enum Member {
    /// A field.
    Field {
        mods: Vec<Modifier>,
        ty: TypeName,
        name: Name,
        place: Place,
    },
    /// A method; a body that is `None` is `;`.
    Method {
        head: Head,
        body: Option<Vec<Stmt>>,
        place: Place,
    },
    /// A constructor; `up` has the arguments of the `super(..)` that its body begins with, where there is one.
    Maker {
        mods: Vec<Modifier>,
        name: Name,
        params: Vec<Param>,
        up: Option<Vec<Expr>>,
        body: Vec<Stmt>,
        place: Place,
    },
}

/// A class or an interface. Its place is that of its name.
#[derive(Drop)]
pub enum Decl {
    /// A class.
    Class {
        mods: Vec<Modifier>,
        name: Name,
        parent: Option<Id>,
        faces: Vec<Id>,
        members: Vec<Member>,
        place: Place,
    },
    /// An interface.
    Interface {
        mods: Vec<Modifier>,
        name: Name,
        parents: Vec<Id>,
        heads: Vec<Head>,
        place: Place,
    },
}

/// A program: its classes and interfaces.
#[derive(Drop)]
pub struct Tree {
    pub decls: Vec<Decl>,
}

/// An entry of the nesting stack, which is kept over the tokens of a text.
#[derive(Clone, Copy)]
pub enum Entry {
    /// `(`
    Round,
    /// `[`
    Square,
    /// `{`
    Brace,
    /// An operator.
    Operator,
    /// `if`, `else`, `while` or `for`.
    Word,
}
