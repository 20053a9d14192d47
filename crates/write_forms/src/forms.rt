//! Expressions whose parts are written already: their types and names are those of the hierarchy.

ghost use Rattle.std.specs.Prelude.{◌≡◌, Some, IfOk};
ghost use Rattle.java_tree.specs.Syntax.{
  expr_of,
  exprs,
  ThisRef,
  FieldOf,
  CallOn,
  SuperCallOf,
  NameRef,
  NewArrayOf,
  CastOf,
  InstanceOfClass,
};
ghost use Rattle.java_core.specs.Statics.{static_seen};
ghost use Rattle.java_core.specs.Types as types;
ghost use Rattle.flow_rules.specs.declared.items.RowItem.TheVariants as row;
ghost use Rattle.write_model.specs.Names as written;
ghost use Rattle.write_forms.specs.Renamed.{IsFitting};
ghost use Rattle.write_forms.specs.Sources.{old_program, renaming, IsSource, accessed, called, above, row_named, row_typed, created};

use crate::given::Source;
use crate::makes::{make_name, makers_name};
use crate::names::{accessed_name, called_name, field_name, row_name, row_type, super_name};
use flow_rules::RowItem;
use java_core::{Static, Ty, class_of, maker_of};
use java_tree::unplaced::{id, nowhere};
use java_tree::{Expr, build};
use kaba_base::{ClassId, MemberId, Name, made};
use std::alloc::AllocError;
use std::mem::drop;

/// An expression that was written, or that memory is short.
pub type Written = Result<Expr, AllocError>;

/// A field of `this`.
pub fn own_field(source: &Source, field: MemberId) -> Written
    requires { IsFitting source.now.numbering.now source.now.hier.now }
    ensures { IfOk result (λ e. expr_of e ≡ FieldOf (ThisRef written.nowhere) ((renaming source.now).field_name field.0) written.nowhere) }
{
    let name = field_name(source, field.0 as u64)?;
    build::field(
        source.alloc,
        Expr::This { place: nowhere() },
        name,
        nowhere(),
    )
}

/// A field of what an expression of this type gives.
pub fn field(source: &Source, found: Static, name: &Name, base: Expr) -> Written
    requires { IsSource source.now }
    ensures { IfOk result (λ e. expr_of e ≡ FieldOf (expr_of base) (accessed source.now (static_seen found) name.now) written.nowhere) }
{
    let name = made!(accessed_name(source, found, name); base);
    build::field(source.alloc, base, name, nowhere())
}

/// A call on what an expression of this type gives.
pub fn call(source: &Source, found: Static, name: &Name, on: Expr, args: Vec<Expr>) -> Written
    requires { IsSource source.now }
    ensures { IfOk result (λ e. expr_of e ≡ CallOn (expr_of on) (called source.now
        (types.class_of (static_seen found)) name.now) (exprs args.items) written.nowhere) }
{
    let name = made!(called_name(source, class_of(found), name); on, args);
    build::call_on(source.alloc, on, name, args, nowhere())
}

/// A call on `this`, in the body of a class.
pub fn own_call(source: &Source, class: ClassId, name: &Name, args: Vec<Expr>) -> Written
    requires { IsSource source.now }
    ensures { IfOk result (λ e. expr_of e ≡ CallOn (ThisRef written.nowhere) (called source.now (Some class.0) name.now) (exprs args.items) written.nowhere) }
{
    let name = called_name(source, Some(class), name)?;
    build::call_on(
        source.alloc,
        Expr::This { place: nowhere() },
        name,
        args,
        nowhere(),
    )
}

/// A call of the method that the superclass of a class has.
pub fn super_call(source: &Source, class: ClassId, name: &Name, args: Vec<Expr>) -> Written
    requires { IsSource source.now }
    ensures { IfOk result (λ e. expr_of e ≡ SuperCallOf (above source.now class.0 name.now) (exprs args.items) written.nowhere) }
{
    let name = super_name(source, class, name)?;
    Ok(build::super_call(name, args, nowhere()))
}

/// A call of the method that makes the objects of a creation.
fn make_call(source: &Source, number: u64, args: Vec<Expr>) -> Written
    requires { IsSource source.now }
    ensures { IfOk result (λ e. expr_of e ≡ CallOn (NameRef (written.makers_name (old_program source.now)) written.nowhere)
        ((renaming source.now).make_name number) (exprs args.items) written.nowhere) }
{
    let name = made!(makers_name(source); args);
    let holder = Expr::Name {
        name,
        place: nowhere(),
    };
    let name = made!(make_name(source, number); args, holder);
    build::call_on(source.alloc, holder, name, args, nowhere())
}

/// A creation of an object, by the node where its row stands; where its class has a constructor, a call of the method
/// that makes its objects.
pub fn creation(source: &Source, number: u32, class: ClassId, args: Vec<Expr>) -> Written
    requires { IsSource source.now }
    ensures { IfOk result (λ e. expr_of e ≡ created source.now number class.0 (exprs args.items)) }
{
    if maker_of(source.program, class).is_some() {
        return make_call(source, number as u64, args);
    }
    let name = made!(row_name(source, RowItem::New(number as u64), class); args);
    Ok(build::new_object(id(name), args, nowhere()))
}

/// A creation of an array, by the node where its row stands.
pub fn array(source: &Source, number: u32, ty: Ty, size: Expr) -> Written
    requires { IsFitting source.now.numbering.now source.now.hier.now }
    ensures { IfOk result (λ e. expr_of e ≡ NewArrayOf (row_typed source.now (row.New number) ty) (expr_of size) written.nowhere) }
{
    let ty = made!(row_type(source, RowItem::New(number as u64), ty); size);
    build::new_array(source.alloc, ty, size, nowhere())
}

/// A cast, by the node where its row stands.
pub fn cast(source: &Source, number: u32, ty: Ty, value: Expr) -> Written
    requires { IsFitting source.now.numbering.now source.now.hier.now }
    ensures { IfOk result (λ e. expr_of e ≡ CastOf (row_typed source.now (row.Cast number) ty) (expr_of value) written.nowhere) }
{
    let ty = made!(row_type(source, RowItem::Cast(number as u64), ty); value);
    build::cast(source.alloc, ty, value, nowhere())
}

/// `instanceof`, by the node where its row stands.
pub fn test(source: &Source, number: u32, class: ClassId, value: Expr) -> Written
    requires { IsFitting source.now.numbering.now source.now.hier.now }
    ensures { IfOk result (λ e. expr_of e ≡ InstanceOfClass (expr_of value) (written.id
        (row_named source.now (row.Test number) class.0)) written.nowhere) }
{
    let name = made!(row_name(source, RowItem::Test(number as u64), class); value);
    build::instance_of(source.alloc, value, id(name), nowhere())
}
