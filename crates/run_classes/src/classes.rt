//! What a run asks of the classes of a program.

ghost use Rattle.std.specs.Prelude.{◌≡◌, map, IfOk, IfSome, Some};
ghost use Rattle.std.specs.Option.{option_copied};
ghost use Rattle.run_classes.specs.Known.{known};

use crate::objects::fresh;
use crate::rows::{empty_entries, empty_rows, keep, keep_in, known_in};
use java_core::{Program, Ty, TyBase, field_type, is_subtype, lookup};
use java_heap::{Heap, Value};
use kaba_base::{ClassId, MemberId, SiteId};
use std::alloc::{AllocError, Global};
use std::marker::Model;

/// What a run asks of the classes of a program, seen as the program: what was found once is kept.
#[derive(Drop)]
pub struct Classes<'a> {
    alloc: Global,
    program: &'a Program,
    /// By class and slot, the methods that run.
    bodies: Vec<Vec<Option<u32>>>,
    /// By upper and lower class, whether it is below.
    subclasses: Vec<Vec<Option<bool>>>,
    /// By class, the values of a new object.
    objects: Vec<Option<Vec<Value>>>,
}

impl<'a> Model for Classes<'a> {
    ghost use Rattle.java_core.specs.declared.Program.{Program};

    ghost Value = { Program };

    ghost use Rattle.java_core.specs.contracts.Checked.{the_row};

    ghost coded = { the_row.coded };

    ghost use Rattle.run_classes.specs.Exact.{AreExactTables};

    ghost view = { λ c. c.program.now };

    ghost invariant = { AreExactTables };
}

impl<'a> Classes<'a> {
    ghost use Rattle.std.specs.Prelude.{◌≡◌, ◌++◌, ◌∷◌, [], Some, length, map, IfOk, OnOk};
    ghost use Rattle.java_core.specs.Programs.{program_of};
    ghost use Rattle.java_core.specs.Formed.{IsFormed};
    ghost use Rattle.java_core.specs.Classes.{lookup, below};
    ghost use Rattle.java_core.specs.Types as types;
    ghost use Rattle.java_core.specs.Types.{is_subtype};
    ghost use Rattle.java_heap.specs.Seen.{value_of};
    ghost use Rattle.java_meaning.specs.Languages.{fresh_of};
    ghost use Rattle.run_classes.specs.Made.{new_object};

    /// The classes of a program, of which nothing was asked yet.
    pub fn new(alloc: Global, p: &'a Program) -> Result<Classes<'a>, AllocError>
        requires formed { IsFormed (program_of p.now) }
        ensures value { IfOk result (λ c. c ≡ p.now) }
    {
        let count = p.classes.len();
        let bodies = empty_rows(alloc, count)?;
        let subclasses = empty_rows(alloc, count)?;
        let objects = empty_entries(alloc, count)?;
        Ok(Classes {
            alloc,
            program: p,
            bodies,
            subclasses,
            objects,
        })
    }

    /// The program.
    pub fn program(&self) -> &'a Program
        ensures value { result.now ≡ self.now }
        ensures formed { IsFormed (program_of self.now) }
    {
        self.program
    }

    /// The method that an object of a class runs for a slot, by its number (Java Language Specification, 15.12.4.4).
    #[inline]
    pub fn body(&mut self, class: u32, slot: u32) -> Result<Option<u32>, AllocError>
        ensures same { self.new ≡ self.old }
        ensures body { IfOk result (λ m. m ≡ lookup (program_of self.old) class slot) }
    {
        match known_in(&self.bodies, class as usize, slot as usize) {
            Some(method) => Ok(Some(method)),
            None => self.find_body(class, slot),
        }
    }

    /// The same, found and kept.
    #[cold]
    fn find_body(&mut self, class: u32, slot: u32) -> Result<Option<u32>, AllocError>
        ensures same { self.new ≡ self.old }
        ensures body { IfOk result (λ m. m ≡ lookup (program_of self.old) class slot) }
    {
        let width = self.program.slots.len();
        match lookup(self.program, ClassId(class), slot) {
            Some(method) => {
                keep_in(
                    &mut self.bodies,
                    width,
                    class as usize,
                    slot as usize,
                    method.0,
                )?;
                Ok(Some(method.0))
            }
            None => Ok(None),
        }
    }

    /// Whether a type is a subtype of another (Java Language Specification, 4.10).
    #[inline]
    pub fn is_sub(&mut self, s: Ty, t: Ty) -> Result<bool, AllocError>
        ensures same { self.new ≡ self.old }
        ensures value { IfOk result (λ b. b ≡ is_subtype (program_of self.old) s t) }
    {
        if s.dim != t.dim {
            return Ok(false);
        }
        match (s.base, t.base) {
            (TyBase::Class(lower), TyBase::Class(upper)) => self.is_below(lower, upper),
            (lower, upper) => Ok(lower == upper),
        }
    }

    /// Whether a class or an interface is at or below another (Java Language Specification, 4.10.2).
    #[inline]
    fn is_below(&mut self, lower: ClassId, upper: ClassId) -> Result<bool, AllocError>
        ensures same { self.new ≡ self.old }
        ensures value { IfOk result (λ b. b ≡ below (program_of self.old) lower.0 upper.0) }
    {
        match known_in(&self.subclasses, upper.0 as usize, lower.0 as usize) {
            Some(found) => Ok(found),
            None => self.find_below(lower, upper),
        }
    }

    /// The same, found and kept.
    #[cold]
    fn find_below(&mut self, lower: ClassId, upper: ClassId) -> Result<bool, AllocError>
        ensures same { self.new ≡ self.old }
        ensures value { IfOk result (λ b. b ≡ below (program_of self.old) lower.0 upper.0) }
    {
        let width = self.program.classes.len();
        let found = is_subtype(self.program, lower, upper);
        keep_in(
            &mut self.subclasses,
            width,
            upper.0 as usize,
            lower.0 as usize,
            found,
        )?;
        Ok(found)
    }

    /// The values of a new object of a class, found and kept.
    #[cold]
    fn find_fresh(&mut self, class: u32) -> Result<Vec<Value>, AllocError>
        ensures same { self.new ≡ self.old }
        ensures values { IfOk result (λ v. map value_of v.items ≡ fresh_of (program_of self.old) class) }
    {
        let values = fresh(self.alloc, self.program, ClassId(class))?;
        let kept = Vec::from_slice(self.alloc, &values)?;
        keep(&mut self.objects, class as usize, kept);
        Ok(values)
    }

    /// A new object of a class, of a creation, and its place.
    #[inline]
    pub fn make(&mut self, heap: &mut Heap, site: SiteId, class: u32) -> Result<u32, AllocError>
        ensures same { self.new ≡ self.old }
        ensures place { IfOk result (λ at. at ≡ length heap.old.cells) }
        ensures cells { OnOk result (heap.new ≡ record heap.old { cells = heap.old.cells ++ new_object (program_of self.old) site.0 class ∷ [] }) }
    {
        match known_values(&self.objects, class as usize) {
            Some(values) => heap.object_of(site, ClassId(class), values),
            None => self.make_first(heap, site, class),
        }
    }

    /// The same, of a class whose objects' values are not kept yet.
    #[cold]
    fn make_first(&mut self, heap: &mut Heap, site: SiteId, class: u32) -> Result<u32, AllocError>
        ensures same { self.new ≡ self.old }
        ensures place { IfOk result (λ at. at ≡ length heap.old.cells) }
        ensures cells { OnOk result (heap.new ≡ record heap.old { cells = heap.old.cells ++ new_object (program_of self.old) site.0 class ∷ [] }) }
    {
        let values = self.find_fresh(class)?;
        heap.object_of(site, ClassId(class), &values)
    }

    /// The type of a field.
    pub fn field_type(&self, field: u32) -> Option<Ty>
        ensures value { result ≡ types.field_type (program_of self.now) field }
    {
        field_type(self.program, MemberId(field))
    }
}

/// What is known of the values of a new object.
#[inline]
fn known_values(objects: &[Option<Vec<Value>>], class: usize) -> Option<&Vec<Value>>
    ensures { option_copied result ≡ known objects.now class }
{
    match objects.get(class) {
        Some(Some(values)) => Some(values),
        _ => None,
    }
}
