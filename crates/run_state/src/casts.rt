//! Casts and tests of an object's class.

ghost use Rattle.std.specs.Prelude.{◌≡◌, slice_get, IfOk};
ghost use Rattle.std.specs.Option.{option_map};
ghost use Rattle.java_core.specs.Types.{is_subtype};
ghost use Rattle.run_state.specs.Shared.{program_of, value_of, language_of, nothing, FindsOnHeap};
ghost use Rattle.java_heap.specs.Seen.{kind_of};
ghost use Rattle.java_meaning.specs.Moment.{own_type};
ghost use Rattle.java_meaning.specs.Meaning.{is_number_type, cast_to, cast_object, test_class};

use crate::machine::Found;
use java_core::{Fault, Ty, TyBase};
use java_heap::{CellKind, Heap, Value, cast_number};
use kaba_base::ClassId;
use run_classes::Classes;
use run_code::Tried;

/// Whether a type is `int` or `char`.
fn is_number_type(ty: Ty) -> bool
    ensures { result ≡ is_number_type ty.base ty.dim }
{
    (ty.base == TyBase::Int || ty.base == TyBase::Char) && ty.dim == 0
}

/// What a cast gives.
pub fn cast_value<'a>(classes: &mut Classes<'a>, heap: &Heap, ty: Ty, value: Value) -> Tried<Found>
    ensures same { classes.new ≡ classes.old }
    ensures found { IfOk result (λ r. FindsOnHeap heap.now r (λ s k. cast_to (language_of (program_of classes.old)) 0 nothing ty (value_of value) s k)) }
{
    if is_number_type(ty) {
        match value.number() {
            Some(number) => Ok(Found::Value(cast_number(ty.base, number))),
            None => Ok(Found::Stuck),
        }
    } else {
        cast_object(classes, heap, ty, value)
    }
}

/// What a cast to a type that is not a number's gives.
fn cast_object<'a>(classes: &mut Classes<'a>, heap: &Heap, ty: Ty, value: Value) -> Tried<Found>
    ensures same { classes.new ≡ classes.old }
    ensures found { IfOk result (λ r. FindsOnHeap heap.now r (λ s k. cast_object (language_of (program_of classes.old)) 0 nothing ty (value_of value) s k)) }
{
    match value {
        Value::Null => Ok(Found::Value(Value::Null)),
        Value::Ref(at) => match is_of(classes, heap, at, ty)? {
            None => Ok(Found::Stuck),
            Some(passes) => {
                if passes {
                    Ok(Found::Value(Value::Ref(at)))
                } else {
                    Ok(Found::Fault(Fault::ClassCast))
                }
            }
        },
        _ => Ok(Found::Stuck),
    }
}

/// Whether what stands in a cell is of a type; `None` where there is no such cell.
pub fn is_of<'a>(classes: &mut Classes<'a>, heap: &Heap, at: u32, ty: Ty) -> Tried<Option<bool>>
    ensures same { classes.new ≡ classes.old }
    ensures value { IfOk result (λ r. r ≡ option_map (λ c. is_subtype (program_of classes.old) (own_type c.kind) ty) (slice_get heap.now.cells at)) }
{
    match heap.find(at) {
        Some(kind) => Ok(Some(classes.is_sub(own_type(kind), ty)?)),
        None => Ok(None),
    }
}

/// The own type of a cell.
fn own_type(kind: CellKind) -> Ty
    ensures { result ≡ own_type (kind_of kind) }
{
    match kind {
        CellKind::Object(class) => Ty {
            base: TyBase::Class(class),
            dim: 0,
        },
        CellKind::Array(ty) => ty,
    }
}

/// Whether a value is an object of a class.
pub fn has_class<'a>(
    classes: &mut Classes<'a>,
    heap: &Heap,
    class: u32,
    value: Value,
) -> Tried<Found>
    ensures same { classes.new ≡ classes.old }
    ensures found { IfOk result (λ r. FindsOnHeap heap.now r (λ s k. test_class (language_of (program_of classes.old)) 0 nothing class
        (value_of value) s k)) }
{
    let ty = Ty {
        base: TyBase::Class(ClassId(class)),
        dim: 0,
    };
    match value {
        Value::Null => Ok(Found::Value(Value::Bool(false))),
        Value::Ref(at) => match is_of(classes, heap, at, ty)? {
            None => Ok(Found::Stuck),
            Some(passes) => Ok(Found::Value(Value::Bool(passes))),
        },
        _ => Ok(Found::Stuck),
    }
}
