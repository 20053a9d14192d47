//! What is numbered: rows, columns, sites and flow points.

use fact_model::SpotKind;
use java_core::BinOp;
use kaba_base::{ClassId, Place};

/// A type that a row can have: a class or an interface, or an array of one.
#[derive(Clone, Copy)]
pub struct ObjectType {
    /// The class or interface; for an array its base.
    pub class: ClassId,
    /// The pairs of square brackets.
    pub dim: u32,
}

/// What a row types. Fields, methods and slots are named by their numbers in the program.
#[derive(Clone, Copy, PartialEq, Eq, Hash)]
pub enum RowItem {
    /// A field, static or not.
    Field(u64),
    /// The `this` of a method.
    This(u64),
    /// The return of a slot.
    Return(u64),
    /// A parameter of a slot, by its number there.
    Param(u64, u64),
    /// The return of a static method.
    Result(u64),
    /// A parameter of a static method, or a local: the method, and the number among its parameters and locals.
    Local(u64, u64),
    /// A creation, by its number.
    New(u64),
    /// A cast, by its number.
    Cast(u64),
    /// An `instanceof`, by its number.
    Test(u64),
}

/// What a column stands for.
#[derive(Clone, Copy, PartialEq, Eq, Hash)]
pub enum ColumnItem {
    /// An instance field.
    Fld(u64),
    /// The declaration of an instance method.
    Dcl(u64),
    /// The body of an instance method.
    Def(u64),
    /// The mark of a class or interface.
    Is(ClassId),
}

/// What a flow point follows. Methods and static fields are named by their numbers.
#[derive(Clone, Copy, PartialEq, Eq, Hash)]
pub enum PointItem {
    /// A static field.
    Static(u64),
    /// The `this` of a body.
    This(u64),
    /// A parameter or a local of a body.
    Local(u64, u64),
    /// The result of a body.
    Result(u64),
    /// An expression of a body, by its label.
    Expr(u64, u64),
}

/// A row: what it types, its place in the text, and its type.
#[derive(Clone, Copy)]
pub struct Row {
    pub item: RowItem,
    pub place: Place,
    pub ty: ObjectType,
}

/// A column and its place in the text.
#[derive(Clone, Copy)]
pub struct Column {
    pub item: ColumnItem,
    pub place: Place,
}

/// A creation: its number, its place, its type and its row.
#[derive(Clone, Copy)]
pub struct Site {
    pub number: u64,
    pub place: Place,
    pub ty: ObjectType,
    pub row: u32,
}

/// What may be a flow point: what it follows, its place, and the row that types it.
#[derive(Clone, Copy)]
pub struct PointAt {
    pub item: PointItem,
    pub place: Place,
    pub row: RowItem,
}

/// A flow point: what it follows, and the number of its row.
#[derive(Clone, Copy)]
pub struct Point {
    pub item: PointItem,
    pub row: u32,
}

/// A method with the parts of its body.
#[derive(Drop)]
pub struct Body {
    pub number: u64,
    pub slot: Option<u32>,
    pub parts: Vec<Part>,
}

/// The place of a body, and what may be its flow points.
#[derive(Drop)]
pub struct Outline {
    pub place: Place,
    pub points: Vec<PointAt>,
}

/// What the facts see of an expression.
#[derive(Clone, Copy)]
pub struct Operand {
    /// The flow point that it would be.
    pub point: Option<PointItem>,
    /// The row that types it.
    pub row: Option<RowItem>,
    /// Its static type, where a row can have it.
    pub ty: Option<ObjectType>,
    /// The number of a creation.
    pub created: Option<u64>,
}

/// A part of a body that facts come from.
#[derive(Drop)]
pub enum Part {
    /// A read of a field (none: the length of an array): the base, the field, and the read itself.
    Load(Place, Operand, Option<u32>, Operand),
    /// A read of an element: the array, and the read itself.
    Element(Place, Operand, Operand),
    /// A creation: whether it is a flow point, the creation itself, and the slot, the declaration and the arguments of
    /// the call of the constructor that it runs, where its class has one.
    New(Place, bool, Operand, Option<u32>, Option<u32>, Vec<Operand>),
    /// A call of an instance method: the receiver, the slot, the declaration found statically, the arguments, and the call itself.
    Call(Place, Operand, Option<u32>, Option<u32>, Vec<Operand>, Operand),
    /// A call of a static method, its arguments, and the call itself.
    StaticCall(Place, u32, Vec<Operand>, Operand),
    /// A super call: the method that runs, the arguments, and the call itself.
    SuperCall(Place, Option<u32>, Vec<Operand>, Operand),
    /// A cast or an `instanceof`: the operand, and the test itself.
    Test(Place, Operand, Operand),
    /// A binary operator.
    Pair(BinOp, Operand, Operand),
    /// A value that is put in a local or a static field.
    Set(Operand, Operand),
    /// A value that is put in a field of the base.
    Store(Place, Operand, Option<u32>, Operand),
    /// A value that is put in an element of the base.
    ElementStore(Place, Operand, Operand),
    /// A value that a body gives back.
    Return(Operand),
}

/// A call or a test that a part of a body gives to the facts: whether it has a spot, and its place.
#[derive(Clone, Copy)]
pub struct Mark {
    pub kind: SpotKind,
    pub is_spot: bool,
    pub place: Place,
}
