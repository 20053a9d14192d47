//! How names, types and operators are written.

ghost use Rattle.std.specs.Prelude.{◌≡◌, ◌<◌, [], codes, length, IfOk, IfSome};
ghost use Rattle.std.specs.Option.{option_map};
ghost use Rattle.std.specs.Str.{bytes_eq};
ghost use Rattle.java_core.specs.Statics.{static_seen};
ghost use Rattle.flow_rules.specs.Numbered.{number_among, same_column};
ghost use Rattle.rebuild_model.specs.Renaming as columns;
ghost use Rattle.write_model.specs.Names as written;
ghost use Rattle.write_forms.specs.Renamed.{IsFitting};
ghost use Rattle.write_forms.specs.Sources.{old_program, renaming, IsSource, accessed, called, above, row_named, row_typed};

use crate::given::Source;
use flow_rules::{ColumnItem, RowItem, number_of_column, number_of_row};
use java_core::{BinOp, Op, Static, Ty, TyBase, UnOp, declaration_of, field_in, super_method};
use java_lex::Mark;
use java_tree::unplaced::nowhere;
use java_tree::{Modifier, TypeBase, TypeName};
use kaba_base::{ClassId, ColId, Keyword, Name, NodeId, RowId};
use std::alloc::{AllocError, Global};

/// A modifier without a place.
pub fn modifier(word: Keyword) -> Modifier
    ensures { result ≡ written.modifier word }
{
    Modifier {
        word,
        place: nowhere(),
    }
}

/// Whether two names have the same characters.
pub fn is_same(a: &Name, b: &Name) -> bool
    ensures { result ≡ bytes_eq a.now b.now }
{
    a.same(b)
}

/// The mark of a prefix operator.
pub fn prefix_mark(op: UnOp) -> Mark
    ensures { result ≡ written.prefix_mark op }
{
    match op {
        UnOp::Plus => Mark::Plus,
        UnOp::Minus => Mark::Minus,
        UnOp::Flip => Mark::Flip,
        UnOp::Not => Mark::Bang,
    }
}

/// The mark of an operator that gives an `int`, or of `+` on strings.
fn operation(op: Op) -> Mark
    ensures { result ≡ written.operation op }
{
    match op {
        Op::Plus => Mark::Plus,
        Op::Minus => Mark::Minus,
        Op::Times => Mark::Star,
        Op::Divide => Mark::Slash,
        Op::Remainder => Mark::Percent,
        Op::ShiftLeft => Mark::ShiftLeft,
        Op::ShiftRight => Mark::ShiftRight,
        Op::ShiftRightUnsigned => Mark::ShiftRightLogical,
        Op::And => Mark::And,
        Op::Or => Mark::Or,
        Op::Xor => Mark::Xor,
    }
}

/// The mark of a binary operator.
pub fn infix_mark(op: BinOp) -> Mark
    ensures { result ≡ written.infix_mark op }
{
    match op {
        BinOp::Int(op) => operation(op),
        BinOp::Same => Mark::Equal,
        BinOp::Differs => Mark::NotEqual,
        BinOp::Less => Mark::Less,
        BinOp::Greater => Mark::Greater,
        BinOp::AtMost => Mark::AtMost,
        BinOp::AtLeast => Mark::AtLeast,
        BinOp::Both => Mark::Both,
        BinOp::Either => Mark::Either,
    }
}

/// A name without characters.
pub fn no_name(alloc: Global) -> Result<Name, AllocError>
    ensures { IfOk result (λ n. n ≡ []) }
{
    Name::new(alloc, "")
}

/// The name of the type of strings.
fn text_name(alloc: Global) -> Result<Name, AllocError>
    ensures { IfOk result (λ n. n ≡ codes "String") }
{
    Name::new(alloc, "String")
}

/// The name of a class of the program.
pub fn class_name(source: &Source, class: ClassId) -> Result<Name, AllocError>
    ensures { IfOk result (λ n. n ≡ written.class_name (old_program source.now) class.0) }
{
    match source.program.classes.get(class.0 as usize) {
        Some(class) => class.name.copy(source.alloc),
        None => no_name(source.alloc),
    }
}

/// The node where the row of an item stands.
fn node_of(source: &Source, item: RowItem) -> Option<NodeId>
    requires { IsFitting source.now.numbering.now source.now.hier.now }
    ensures node { option_map (λ n. n.0) result ≡ (renaming source.now).row_type item }
    ensures within { IfSome result (λ n. n.0 < length source.now.hier.now.types) }
{
    match number_of_row(&source.numbering.rows, item) {
        Some(row) => Some(source.hier.place_of_row(RowId(row))),
        None => None,
    }
}

/// The name of a class by the node where a row of it stands; without a row it keeps its own.
fn name_at(source: &Source, node: Option<NodeId>, class: ClassId) -> Result<Name, AllocError>
    requires { IfSome node (λ n. n.0 < length source.now.hier.now.types) }
    ensures { IfOk result (λ n. n ≡ written.row_name (old_program source.now) source.now.hier.now
        (option_map (λ k. k.0) node) class.0) }
{
    match node {
        Some(node) => source.hier.type_name(node).copy(source.alloc),
        None => class_name(source, class),
    }
}

/// The base of a type.
fn written_base(source: &Source, node: Option<NodeId>, base: TyBase) -> Result<TypeBase, AllocError>
    requires { IfSome node (λ n. n.0 < length source.now.hier.now.types) }
    ensures { IfOk result (λ b. b ≡ written.written_base (old_program source.now) source.now.hier.now
        (option_map (λ k. k.0) node) base) }
{
    match base {
        TyBase::Int => Ok(TypeBase::Int),
        TyBase::Boolean => Ok(TypeBase::Boolean),
        TyBase::Char => Ok(TypeBase::Char),
        TyBase::Str => Ok(TypeBase::Named(text_name(source.alloc)?)),
        TyBase::Class(class) => Ok(TypeBase::Named(name_at(source, node, class)?)),
    }
}

/// The type of what has its row at a node: that of the node, with the old dimension.
fn written_type(source: &Source, node: Option<NodeId>, ty: Ty) -> Result<TypeName, AllocError>
    requires { IfSome node (λ n. n.0 < length source.now.hier.now.types) }
    ensures { IfOk result (λ t. t ≡ written.written_type (old_program source.now) source.now.hier.now
        (option_map (λ k. k.0) node) ty) }
{
    let base = written_base(source, node, ty.base)?;
    Ok(TypeName {
        base,
        dim: ty.dim,
        place: nowhere(),
    })
}

/// The name of a class by the node where the row of an item stands.
pub fn row_name(source: &Source, item: RowItem, class: ClassId) -> Result<Name, AllocError>
    requires { IsFitting source.now.numbering.now source.now.hier.now }
    ensures { IfOk result (λ n. n ≡ row_named source.now item class.0) }
{
    name_at(source, node_of(source, item), class)
}

/// The type of what has a row, by the node where the row stands.
pub fn row_type(source: &Source, item: RowItem, ty: Ty) -> Result<TypeName, AllocError>
    requires { IsFitting source.now.numbering.now source.now.hier.now }
    ensures { IfOk result (λ t. t ≡ row_typed source.now item ty) }
{
    written_type(source, node_of(source, item), ty)
}

/// The name of the column of an item.
fn column_name(source: &Source, item: ColumnItem) -> Result<Name, AllocError>
    requires { IsFitting source.now.numbering.now source.now.hier.now }
    ensures { IfOk result (λ n. n ≡ columns.column_name source.now.hier.now (number_among same_column
        source.now.numbering.now.columns.keys item)) }
{
    match number_of_column(&source.numbering.columns, item) {
        Some(column) => source.hier.member_name(ColId(column)).copy(source.alloc),
        None => no_name(source.alloc),
    }
}

/// The new name of a field.
pub fn field_name(source: &Source, field: u64) -> Result<Name, AllocError>
    requires { IsFitting source.now.numbering.now source.now.hier.now }
    ensures { IfOk result (λ n. n ≡ (renaming source.now).field_name field) }
{
    column_name(source, ColumnItem::Fld(field))
}

/// The new name of an instance method.
pub fn method_name(source: &Source, method: u64) -> Result<Name, AllocError>
    requires { IsFitting source.now.numbering.now source.now.hier.now }
    ensures { IfOk result (λ n. n ≡ (renaming source.now).method_name method) }
{
    column_name(source, ColumnItem::Dcl(method))
}

/// The new name of the field that an expression has under a name; what is no such field keeps it.
pub fn accessed_name(source: &Source, base: Static, name: &Name) -> Result<Name, AllocError>
    requires { IsSource source.now }
    ensures { IfOk result (λ n. n ≡ accessed source.now (static_seen base) name.now) }
{
    match field_in(source.program, base, name) {
        Some(field) => field_name(source, field.0 as u64),
        None => name.copy(source.alloc),
    }
}

/// The new name of the method that a call of a name on an object of a class finds; other names
/// stay.
pub fn called_name(source: &Source, class: Option<ClassId>, name: &Name) -> Result<Name, AllocError>
    requires { IsSource source.now }
    ensures { IfOk result (λ n. n ≡ called source.now (option_map (λ c. c.0) class) name.now) }
{
    let Some(class) = class else {
        return name.copy(source.alloc);
    };
    match declaration_of(source.program, class, name) {
        Some(method) => method_name(source, method.0 as u64),
        None => name.copy(source.alloc),
    }
}

/// The new name of the method that `super.name(..)` in a class runs.
pub fn super_name(source: &Source, class: ClassId, name: &Name) -> Result<Name, AllocError>
    requires { IsSource source.now }
    ensures { IfOk result (λ n. n ≡ above source.now class.0 name.now) }
{
    match super_method(source.program, class, name) {
        Some(method) => method_name(source, method.0 as u64),
        None => name.copy(source.alloc),
    }
}
