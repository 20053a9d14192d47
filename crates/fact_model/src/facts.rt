//! The facts of a program: lists of numbered things, and of what the text says of them.
//!
//! A point is the number of a flow point: a local, a static field, a parameter, a `this`, a result,
//! or an expression whose value must be followed. A cell is a field of the objects of one creation
//! site, or the elements of the arrays of one. Their inclusions are those of Andersen (1994).

use kaba_base::{ClassId, ColId, Name, Place, RowId, SiteId};

/// A row of the table: a variable, a creation site or a tested type.
#[derive(Drop)]
pub struct RowInfo {
    /// How the row is printed.
    pub label: Name,
    /// The class or interface that it types; for an array its base.
    pub class: ClassId,
    /// The dimension of its type; 0 for an object.
    pub dim: u32,
    /// The site whose row it is.
    pub site: Option<SiteId>,
    /// The `def` column of the method whose `this` it is.
    pub this_of: Option<ColId>,
}

/// What a column stands for.
#[derive(Clone, Copy, PartialEq, Eq)]
pub enum ColKind {
    /// An instance field.
    Fld,
    /// The declaration of a method.
    Dcl,
    /// The definition of a method: its body.
    Def,
    /// The mark of a type that is tested or is an array's base.
    Is,
}

/// A column of the table.
#[derive(Drop)]
pub struct ColumnInfo {
    pub kind: ColKind,
    /// The class that has the member; for `Is` the type itself.
    pub class: ClassId,
    /// The slot of a `Dcl` or a `Def`: methods that override each other have one slot.
    pub slot: Option<u32>,
    /// The member's name.
    pub name: Name,
    /// How the column is printed.
    pub label: Name,
}

/// A creation in the text.
#[derive(Clone, Copy)]
pub struct SiteInfo {
    pub row: RowId,
    /// The class created; for an array its base.
    pub class: ClassId,
    /// The dimension of an array; 0 for an object.
    pub dim: u32,
}

/// A class or an interface. Class 0 is `Object`.
#[derive(Drop)]
pub struct ClassInfo {
    pub name: Name,
    pub parent: Option<ClassId>,
    /// The interfaces that it names.
    pub faces: Vec<ClassId>,
    pub is_interface: bool,
    /// Whether it has static members.
    pub holder: bool,
}

/// The cell of a site at a field; the one cell of an array site has no column.
#[derive(Clone, Copy)]
pub struct CellInfo {
    pub site: SiteId,
    pub column: Option<ColId>,
    pub row: RowId,
}

/// A creation that flows into a point.
#[derive(Clone, Copy)]
pub struct NewInfo {
    pub point: u32,
    pub site: SiteId,
}

/// A point whose set is included in another's.
#[derive(Clone, Copy)]
pub struct FlowInfo {
    pub from: u32,
    pub to: u32,
}

/// A read of a field, or with no column of an element, of what is in the base.
#[derive(Clone, Copy)]
pub struct LoadInfo {
    pub base: u32,
    pub column: Option<ColId>,
    pub into: u32,
}

/// A write of a field, or with no column of an element, of what is in the base. The place is that of its `=`.
#[derive(Clone, Copy)]
pub struct StoreInfo {
    pub base: u32,
    pub column: Option<ColId>,
    pub value: u32,
    pub place: Place,
}

/// The body of an instance method, by its `Def` column. A parameter or a result that no row types is no point.
#[derive(Drop)]
pub struct BodyInfo {
    pub column: ColId,
    pub this: u32,
    pub params: Vec<Option<u32>>,
    pub result: Option<u32>,
}

/// A call of an instance method by its slot. An argument or a result that no row types is no point.
#[derive(Drop)]
pub struct CallInfo {
    pub receiver: u32,
    pub slot: u32,
    pub args: Vec<Option<u32>>,
    pub result: Option<u32>,
}

/// A cast or an `instanceof`: what passes it is in its own point.
#[derive(Clone, Copy)]
pub struct CastInfo {
    pub from: u32,
    pub into: u32,
    pub class: ClassId,
}

/// An access of a field, or a call by the declaration found statically: the row that types its base, and the member.
#[derive(Clone, Copy)]
pub struct AccessInfo {
    pub row: RowId,
    pub column: ColId,
}

/// A super call: the row of the caller's `this`, and the body that runs.
#[derive(Clone, Copy)]
pub struct SuperInfo {
    pub row: RowId,
    pub column: ColId,
}

/// Two rows of which the lower gets all columns of the upper.
#[derive(Clone, Copy)]
pub struct TieInfo {
    pub lower: RowId,
    pub upper: RowId,
}

/// A cast or an `instanceof` of a class: its operand's point, its own row, the class, and its place.
#[derive(Clone, Copy)]
pub struct TestInfo {
    pub from: u32,
    pub target: RowId,
    pub class: ClassId,
    pub place: Place,
}

/// The names that are fixed for the methods that make objects of classes with a constructor in a written program: of
/// the class that holds them, and of the one local in each.
#[derive(Drop)]
pub struct MakerNames {
    pub holder: Name,
    pub local: Name,
}

/// The name of the method that makes the objects of a site whose class has a constructor.
#[derive(Drop)]
pub struct MakeInfo {
    pub site: SiteId,
    pub name: Name,
}

/// What stands at a spot of the text.
#[derive(Clone, Copy)]
pub enum SpotKind {
    Cast,
    Call,
}

/// A cast or a call through a receiver in the text: its number in `tests` or in `calls`, and its place.
#[derive(Clone, Copy)]
pub struct Spot {
    pub kind: SpotKind,
    pub at: u32,
    pub place: Place,
}

/// The facts of a program. Rows, columns, sites, classes, points and cells are named by their number in their list.
///
/// `calls` and `tests` are in the order of their places, and `bodies` in that of their columns. The lists from
/// `news` to `stores`, `casts`, `accesses`, `supers`, `ties` and `vars` are read as sets.
#[derive(Drop)]
pub struct Facts {
    pub rows: Vec<RowInfo>,
    pub columns: Vec<ColumnInfo>,
    pub sites: Vec<SiteInfo>,
    pub classes: Vec<ClassInfo>,
    /// The row of each flow point.
    pub points: Vec<RowId>,
    pub cells: Vec<CellInfo>,
    pub news: Vec<NewInfo>,
    /// Assignments, and the arguments and results of static and super calls.
    pub flows: Vec<FlowInfo>,
    pub loads: Vec<LoadInfo>,
    pub stores: Vec<StoreInfo>,
    pub bodies: Vec<BodyInfo>,
    pub calls: Vec<CallInfo>,
    pub casts: Vec<CastInfo>,
    pub accesses: Vec<AccessInfo>,
    pub supers: Vec<SuperInfo>,
    pub ties: Vec<TieInfo>,
    pub tests: Vec<TestInfo>,
    /// The names of classes, fields, methods, parameters and locals, each once where it first stands, and behind them
    /// the names that are fixed for constructors: of their slots, of the holder and the local of the methods that make
    /// objects, and of those methods.
    pub words: Vec<Name>,
    /// The name of every field, parameter and local.
    pub vars: Vec<Name>,
    /// There where a creation is of a class with a constructor.
    pub makers: Option<MakerNames>,
    /// The methods that make objects, by their site.
    pub makes: Vec<MakeInfo>,
    /// The casts and the calls through a receiver, by their place. An `instanceof`, a super call and a call of a
    /// constructor have none.
    pub spots: Vec<Spot>,
}
