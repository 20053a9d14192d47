//! Resolved programs: what a text means once each name is known, and the rules of their types.
#![tactic(auto)]

ghost use Rattle.std.specs.Prelude.{◌≡◌, map};
ghost use Rattle.java_core.specs.Plain.{class_seen};
ghost use Rattle.java_core.specs.Tables.{HaveMemberTables};
ghost use Rattle.java_core.specs.Subtypes.{subtype_rows};

mod above;
mod checked;
mod classes;
mod code;
mod direct;
mod made;
mod makers;
mod nearest;
mod order;
mod own;
mod owned;
mod statics;
mod subtypes;
mod tables;

pub use checked::Checked;
pub use classes::{
    declaration_of, faces_of, field_of, is_subtype, lookup, member_field, nearest_declaration,
    parent_of, slot_of, super_method,
};
pub use code::Code;
use java_lex::Units;
use kaba_base::{ClassId, MemberId, Name, Place};
pub use makers::{is_maker_name, maker_name, maker_of, maker_slot};
pub use owned::{declared_fields, listed_under, note_under};
pub use statics::{
    Static, StringMethod, access_type, binary_type, class_in, class_of, element_in, element_of,
    field_in, field_type, given_of, is_length, is_string, local_type, plain_type, slot_in,
    static_of, string_method, string_result, type_at, unary_type, value_type,
};
use std::alloc::AllocError;
pub use subtypes::{Hierarchy, subtypes_of};
use tables::Tables;
pub use tables::{MemberTables as FieldTables, mixed, mixed_all};

/// What was made, or that memory was short.
type Tried<T> = Result<T, AllocError>;

/// What an array's elements are, or a type that is no array.
#[derive(Clone, Copy, PartialEq, Eq)]
pub enum TyBase {
    /// `int`
    Int,
    /// `boolean`
    Boolean,
    /// `char`
    Char,
    /// `String`
    Str,
    /// A class or an interface.
    Class(ClassId),
}

/// A type: a base with `dim` pairs of square brackets behind it.
#[derive(Clone, Copy, PartialEq, Eq)]
pub struct Ty {
    pub base: TyBase,
    pub dim: u32,
}

/// A binary operator that gives an `int`; `+` joins strings too.
#[derive(Clone, Copy, PartialEq, Eq)]
pub enum Op {
    /// `+`
    Plus,
    /// `-`
    Minus,
    /// `*`
    Times,
    /// `/`
    Divide,
    /// `%`
    Remainder,
    /// `<<`
    ShiftLeft,
    /// `>>`
    ShiftRight,
    /// `>>>`
    ShiftRightUnsigned,
    /// `&`
    And,
    /// `|`
    Or,
    /// `^`
    Xor,
}

/// A binary operator.
#[derive(Clone, Copy, PartialEq, Eq)]
pub enum BinOp {
    /// One that gives an `int`, or `+` on strings.
    Int(Op),
    /// `==`
    Same,
    /// `!=`
    Differs,
    /// `<`
    Less,
    /// `>`
    Greater,
    /// `<=`
    AtMost,
    /// `>=`
    AtLeast,
    /// `&&`
    Both,
    /// `||`
    Either,
}

/// A prefix operator.
#[derive(Clone, Copy, PartialEq, Eq)]
pub enum UnOp {
    /// `+`
    Plus,
    /// `-`
    Minus,
    /// `~`
    Flip,
    /// `!`
    Not,
}

/// What can go wrong in a run of a typed program.
#[derive(Clone, Copy)]
pub enum Fault {
    /// A receiver, the base of a field, an array or a string is null.
    Null,
    /// A place that an array or a string does not have.
    Bounds,
    /// An array of fewer elements than none.
    NegativeSize,
    /// A value that the array does not take.
    ArrayStore,
    /// A cast to a class that the object is not of.
    ClassCast,
    /// A division by zero.
    DivZero,
    /// A string of more units than the limit.
    TooLong,
}

/// A resolved expression. Each has the place of the expression that it came from.
#[derive(Drop)]
pub enum RExpr {
    /// A number.
    Int {
        value: i32,
        place: Place,
    },
    /// A character literal: its code unit.
    Char {
        value: u16,
        place: Place,
    },
    /// A string literal: its code units.
    Str {
        units: Units,
        place: Place,
    },
    /// `true` or `false`.
    Bool {
        value: bool,
        place: Place,
    },
    /// `null`.
    Null {
        place: Place,
    },
    /// `this`.
    This {
        place: Place,
    },
    /// A parameter or a local, by its number: the parameters first, then the locals.
    Local {
        local: u32,
        place: Place,
    },
    /// A static field.
    Static {
        field: MemberId,
        place: Place,
    },
    /// A field of `this` by its simple name.
    Own {
        field: MemberId,
        place: Place,
    },
    /// `base.name`: a field of an object, or the length of an array.
    Field {
        base: Box<RExpr>,
        name: Name,
        place: Place,
    },
    /// `base[at]`.
    Index {
        base: Box<RExpr>,
        at: Box<RExpr>,
        place: Place,
    },
    /// `base.name(args)`, or `name(args)`: a call of an instance method.
    Call {
        base: Option<Box<RExpr>>,
        name: Name,
        args: Vec<RExpr>,
        place: Place,
    },
    /// A call of a static method.
    StaticCall {
        method: MemberId,
        args: Vec<RExpr>,
        place: Place,
    },
    /// `super.name(args)`.
    SuperCall {
        name: Name,
        args: Vec<RExpr>,
        place: Place,
    },
    /// `new class(args)`. Creations, casts and `instanceof` have their numbers in one count.
    New {
        number: u32,
        class: ClassId,
        args: Vec<RExpr>,
        place: Place,
    },
    /// `new ty` with a size: `ty` is the array's own type, of dimension 1 or more.
    NewArray {
        number: u32,
        ty: Ty,
        size: Box<RExpr>,
        place: Place,
    },
    /// `(ty) value`.
    Cast {
        number: u32,
        ty: Ty,
        value: Box<RExpr>,
        place: Place,
    },
    /// `value instanceof class`.
    InstanceOf {
        number: u32,
        value: Box<RExpr>,
        class: ClassId,
        place: Place,
    },
    /// A prefix operator.
    Unary {
        op: UnOp,
        value: Box<RExpr>,
        place: Place,
    },
    /// A binary operator.
    Binary {
        op: BinOp,
        left: Box<RExpr>,
        right: Box<RExpr>,
        place: Place,
    },
}

/// A test of an `if` and what runs where it holds.
#[cycle(statements)]
#[derive(Drop)]
pub struct RArm {
    pub test: RExpr,
    pub body: Vec<RStmt>,
}

/// A resolved statement. Each has the place of the statement that it came from.
#[cycle(statements)]
#[derive(Drop)]
pub enum RStmt {
    /// The declaration of a local.
    Local {
        local: u32,
        value: Option<RExpr>,
        place: Place,
    },
    /// `{ items }`.
    Block {
        items: Vec<RStmt>,
        place: Place,
    },
    /// An assignment to a local, a field or an element.
    Assign {
        target: RExpr,
        value: RExpr,
        place: Place,
    },
    /// A call or a creation as a statement.
    Do {
        call: RExpr,
        place: Place,
    },
    /// `System.out.println(value)`, or `System.out.print(value)` without a new line.
    Print {
        newline: bool,
        value: Option<RExpr>,
        place: Place,
    },
    /// An `if` with its arms.
    If {
        arms: Vec<RArm>,
        other: Option<Vec<RStmt>>,
        place: Place,
    },
    /// A `while`.
    While {
        test: RExpr,
        body: Vec<RStmt>,
        place: Place,
    },
    /// A `for`.
    For {
        first: Option<Box<RStmt>>,
        test: Option<RExpr>,
        step: Option<Box<RStmt>>,
        body: Vec<RStmt>,
        place: Place,
    },
    /// A `return`.
    Return {
        value: Option<RExpr>,
        place: Place,
    },
    /// A `break`.
    Break {
        place: Place,
    },
    /// A `continue`.
    Continue {
        place: Place,
    },
}

/// A parameter or a local.
#[derive(Drop)]
pub struct Local {
    pub name: Name,
    pub ty: Ty,
    pub place: Place,
}

/// A class or an interface. Its place is that of its name.
#[derive(Drop)]
pub struct Class {
    pub name: Name,
    pub is_interface: bool,
    pub is_abstract: bool,
    /// The superclass; that of an interface is `Object`, and `Object` has none.
    pub parent: Option<ClassId>,
    /// The interfaces that it names as its supertypes, in their order.
    pub faces: Vec<ClassId>,
    pub place: Place,
}

/// A field. Its place is that of its name.
#[derive(Drop)]
pub struct Field {
    pub owner: ClassId,
    pub name: Name,
    pub is_static: bool,
    pub ty: Ty,
    pub place: Place,
}

/// A method. Its place is that of its name.
#[derive(Drop)]
pub struct Method {
    pub owner: ClassId,
    pub name: Name,
    pub is_static: bool,
    pub is_public: bool,
    /// The slot of an instance method.
    pub slot: Option<u32>,
    pub params: Vec<Local>,
    pub locals: Vec<Local>,
    /// What it gives back; `None` is `void`.
    pub result: Option<Ty>,
    pub body: Option<Vec<RStmt>>,
    pub place: Place,
}

/// A slot: all instance methods of one name, one list of parameter types and one result.
#[derive(Drop)]
pub struct Slot {
    pub name: Name,
    pub params: Vec<Ty>,
    pub result: Option<Ty>,
    /// The first of its methods.
    pub first: MemberId,
}

/// A resolved program. Class 0 is `Object`, which has no members. The other classes and interfaces,
/// the fields and the methods stand in the order of the text.
#[derive(Drop)]
pub struct Program {
    pub classes: Vec<Class>,
    pub fields: Vec<Field>,
    pub methods: Vec<Method>,
    pub slots: Vec<Slot>,
    /// The method that a run begins with.
    pub main: MemberId,
    /// The numbers of the fields and methods by owner, name and slot.
    tables: Tables,
    /// Which classes and interfaces are above which.
    above: Hierarchy,
    ghost tables_shown: { HaveMemberTables classes.items fields.items methods.items tables },
    ghost above_shown: { above ≡ subtype_rows (map class_seen classes.items) },
}
