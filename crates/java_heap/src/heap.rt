//! The heap: strings and cells.

ghost use Rattle.std.specs.Prelude.{◌≡◌, ◌+◌, ◌≤◌, ◌<◌, length, map, Some, IfOk, slice_get};
ghost use Rattle.std.specs.Option.{option_map};
ghost use Rattle.java_heap.specs.Seen.{value_of};
ghost use Rattle.java_heap.specs.Cells.{values_in};

use crate::packed::Packed;
use crate::pairs::push_both;
use crate::values::{Value, default_of};
use java_core::{Fault, Ty};
use kaba_base::{ClassId, SiteId};
use std::alloc::{AllocError, Global};
use std::marker::Model;

/// What a cell is: an object of a class, or an array, with its own type.
#[derive(Clone, Copy)]
pub enum CellKind {
    /// An object.
    Object(ClassId),
    /// An array.
    Array(Ty),
}

/// What a cell is, and which creation made it, if one did.
#[derive(Clone, Copy)]
pub struct Label {
    site: Option<SiteId>,
    kind: CellKind,
}

/// Where the values of a cell begin among those of all cells, and how many they are.
#[derive(Clone, Copy)]
pub struct Span {
    start: u32,
    len: u32,
}

/// The strings and the cells of a run. A string and a cell are named by their places, and stay.
#[derive(Drop)]
pub struct Heap {
    texts: Vec<Vec<u16>>,
    /// The labels of the cells, and as many spans: a value of a cell is read without its label.
    labels: Vec<Label>,
    spans: Vec<Span>,
    /// The values of all cells, those of one behind those of the cells before it.
    values: Packed,
}

impl Model for Heap {
    ghost use Rattle.std.specs.Prelude.{map};
    ghost use Rattle.java_heap.specs.Cells.{Store, cells_of, IsHeap};

    ghost Value = { Store };

    ghost view = { λ h. record { strings = map (λ u. u.items) h.texts.items; cells = cells_of h.labels.items h.spans.items h.values } };

    ghost invariant = { λ h. IsHeap h.labels.items h.spans.items h.values };
}

impl Heap {
    ghost use Rattle.std.specs.Prelude.{IfSome, ◌≡◌, ◌<◌, ◌≤◌, ◌+◌, ◌++◌, ◌∷◌, [], ℕ, pos, map, length, slice_get, slice_set, IfOk, OnOk, ◌-◌, MatchResult, Option, Some, None};
    ghost use Rattle.std.specs.Option.{option_map, option_and_then};
    ghost use Rattle.java_heap.specs.Seen.{value_of, kind_of};
    ghost use Rattle.java_heap.specs.Cells.{Store, site_of};
    ghost use Rattle.java_meaning.specs.Moment.{an_array};
    ghost use Rattle.java_meaning.specs.Values.{defaults};

    /// A heap with no string and no cell.
    pub fn new(alloc: Global) -> Heap
        ensures value { result ≡ record { strings = []; cells = [] } }
    {
        Heap {
            texts: Vec::new(alloc),
            labels: Vec::new(alloc),
            spans: Vec::new(alloc),
            values: Packed::new(alloc),
        }
    }

    /// How many cells there are.
    pub fn cells(&self) -> usize
        ensures value { result ≡ length self.now.cells }
    {
        self.labels.len()
    }

    /// A new object of a creation with a copy of these values, and its place.
    pub fn object_of(
        &mut self,
        site: SiteId,
        class: ClassId,
        values: &[Value],
    ) -> Result<u32, AllocError>
        ensures place { IfOk result (λ at. at ≡ length self.old.cells) }
        ensures cells { OnOk result (self.new ≡ record self.old { cells = self.old.cells ++ (record { site = Some site.0; kind = kind_of (CellKind.Object class); values = map value_of values.now }) ∷ [] }) }
    {
        self.add(Some(site), CellKind::Object(class), values)
    }

    /// A new array of its own type, of dimension 1 or more, with so many elements, each the default
    /// of the element's type; and its place.
    pub fn array(&mut self, site: Option<SiteId>, ty: Ty, count: usize) -> Result<u32, AllocError>
        requires { 0 < ty.dim }
        ensures place { IfOk result (λ at. at ≡ length self.old.cells) }
        ensures cells { OnOk result (self.new ≡ record self.old { cells = self.old.cells ++ (record { site = site_of site; kind = an_array ty; values = defaults (record { base = ty.base; dim = ty.dim - 1 }) count }) ∷ [] }) }
    {
        let element = Ty {
            base: ty.base,
            dim: ty.dim - 1,
        };
        let at = place(self.labels.len())?;
        let start = place(self.values.len())?;
        let len = place(count)?;
        let end = start as usize + len as usize;
        self.values.resize(end, default_of(element))?;
        let label = Label {
            site,
            kind: CellKind::Array(ty),
        };
        push_both(
            &mut self.labels,
            &mut self.spans,
            label,
            Span { start, len },
        )?;
        Ok(at)
    }

    /// A new array with these elements, and its place.
    pub fn add_array(
        &mut self,
        site: Option<SiteId>,
        ty: Ty,
        values: Vec<Value>,
    ) -> Result<u32, AllocError>
        ensures place { IfOk result (λ at. at ≡ length self.old.cells) }
        ensures cells { OnOk result (self.new ≡ record self.old { cells = self.old.cells ++ (record { site = site_of site; kind = an_array ty; values = map value_of values.items }) ∷ [] }) }
    {
        self.add(site, CellKind::Array(ty), &values)
    }

    /// A new cell with these values, and its place.
    fn add(
        &mut self,
        site: Option<SiteId>,
        kind: CellKind,
        values: &[Value],
    ) -> Result<u32, AllocError>
        ensures place { IfOk result (λ at. at ≡ length self.old.cells) }
        ensures cells { OnOk result (self.new ≡ record self.old { cells = self.old.cells ++ (record { site = site_of site; kind = kind_of kind; values = map value_of values.now }) ∷ [] }) }
    {
        let at = place(self.labels.len())?;
        let start = place(self.values.len())?;
        let len = place(values.len())?;
        self.values.extend(values)?;
        push_both(
            &mut self.labels,
            &mut self.spans,
            Label { site, kind },
            Span { start, len },
        )?;
        Ok(at)
    }

    /// A new string of these units, and its place.
    pub fn string(&mut self, units: Vec<u16>) -> Result<u32, AllocError>
        ensures place { IfOk result (λ at. at ≡ length self.old.strings) }
        ensures strings { OnOk result (self.new ≡ record self.old { strings = self.old.strings ++ units.items ∷ [] }) }
    {
        let at = place(self.texts.len())?;
        self.texts.push(units)?;
        Ok(at)
    }

    /// What a cell is; `None` where there is none.
    #[inline(always)]
    pub fn find(&self, at: u32) -> Option<CellKind>
        ensures value { option_map kind_of result ≡ option_map (λ c. c.kind) (slice_get self.now.cells at) }
    {
        kind_at(&self.labels, at)
    }

    /// How many values a cell has.
    #[inline(always)]
    pub fn len(&self, at: u32) -> usize
        requires { at < length self.now.cells }
        ensures value { option_map (λ c. length c.values) (slice_get self.now.cells at) ≡ Some result }
    {
        self.spans[at as usize].len as usize
    }

    /// A value of a cell; `None` where the cell or the place in it is not there.
    #[inline(always)]
    pub fn value(&self, at: u32, place: u32) -> Option<Value>
        ensures value { option_map value_of result ≡ option_and_then (λ c. slice_get c.values place) (slice_get self.now.cells at) }
    {
        match span_at(&self.spans, at) {
            Some(span) => value_in(&self.values, span, place),
            None => None,
        }
    }

    /// Puts a value into a cell.
    #[inline(always)]
    pub fn set(&mut self, at: u32, place: u32, value: Value)
        requires cell { at < length self.old.cells }
        requires place { IfSome (slice_get self.old.cells at) (λ c. place < length c.values) }
        ensures value { IfSome (slice_get self.old.cells at) (λ c. self.new ≡ record self.old { cells = slice_set self.old.cells at (record c { values = slice_set c.values place (value_of value) }) }) }
    {
        let start = self.spans[at as usize].start;
        self.values.set(start as usize + place as usize, value);
    }

    /// The units of a string; `None` where there is none.
    pub fn text(&self, string: u32) -> Option<&Vec<u16>>
        ensures value { option_map (λ u. u.now.items) result ≡ slice_get self.now.strings string }
    {
        self.texts.get(string as usize)
    }
}

/// A number as the place of a string or a cell, of which there are no more than 2 ^ 32.
fn place(count: usize) -> Result<u32, AllocError>
    ensures { IfOk result (λ at. at ≡ count) }
{
    match u32::try_from(count) {
        Ok(at) => Ok(at),
        Err(_) => Err(AllocError),
    }
}

/// What a cell is; `None` where there is none.
#[inline(always)]
fn kind_at(labels: &[Label], at: u32) -> Option<CellKind>
    ensures { result ≡ option_map (λ l. l.kind) (slice_get labels.now at) }
{
    match labels.get(at as usize) {
        Some(label) => Some(label.kind),
        None => None,
    }
}

/// Where the values of a cell are; `None` where there is none.
#[inline(always)]
fn span_at(spans: &[Span], at: u32) -> Option<Span>
    ensures { result ≡ slice_get spans.now at }
{
    match spans.get(at as usize) {
        Some(span) => Some(*span),
        None => None,
    }
}

/// A value of a cell, whose values are there; `None` where it has fewer.
#[inline(always)]
fn value_in(values: &Packed, span: Span, place: u32) -> Option<Value>
    requires { span.start + span.len ≤ length values.now }
    ensures { option_map value_of result ≡ slice_get (map value_of (values_in values.now span)) place }
{
    if place < span.len {
        Some(values.get(span.start as usize + place as usize))
    } else {
        None
    }
}
