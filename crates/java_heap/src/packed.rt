//! Lists of values, packed.

ghost use Rattle.std.specs.Prelude.{◌≡◌};
ghost use Rattle.java_heap.specs.Packing.{tag_of, value_at};

use crate::pairs::push_both;
use crate::values::Value;
use std::alloc::{AllocError, Global};
use std::marker::Model;

/// What a value is, and which one where it is a `boolean`: in the order of the kinds of `Value`, with
/// `true` behind them, so that most tags are the number of their kind.
#[derive(Clone, Copy)]
pub enum Tag {
    /// An `int`.
    Int,
    /// `false`
    False,
    /// A `char`.
    Char,
    /// `null`
    Null,
    /// A string.
    Str,
    /// An object or an array.
    Ref,
    /// `true`
    True,
}

const _: () = prove!(size_of::<Tag>() == 1);

/// A list of values. The tags stand apart from what else the values have, so a `boolean` is read and
/// written in a single byte.
#[derive(Drop)]
pub struct Packed {
    tags: Vec<Tag>,
    /// A number, a code unit or a place for each tag, and anything where the tag says all.
    words: Vec<u32>,
}

impl Model for Packed {
    ghost use Rattle.std.specs.Prelude.{◌≡◌, List, length};
    ghost use Rattle.java_heap.specs.declared.values.Value as values;
    ghost use Rattle.java_heap.specs.Packing.{unpacked};

    ghost Value = { List values.Value };

    ghost view = { λ p. unpacked p.tags.items p.words.items };

    ghost invariant = { λ p. length p.tags.items ≡ length p.words.items };
}

impl Packed {
    ghost use Rattle.std.specs.Prelude.{◌≡◌, ◌<◌, ◌≤◌, ◌-◌, ◌++◌, ◌∷◌, [], Some, length, take, replicate, is_ok, if◌then◌else◌, slice_get, slice_set};

    /// No values.
    pub fn new(alloc: Global) -> Packed
        ensures { result ≡ [] }
    {
        Packed {
            tags: Vec::new(alloc),
            words: Vec::new(alloc),
        }
    }

    /// How many values there are.
    pub fn len(&self) -> usize
        ensures { result ≡ length self.now }
    {
        self.tags.len()
    }

    /// The value at a place.
    #[inline(always)]
    pub fn get(&self, at: usize) -> Value
        requires { at < length self.now }
        ensures { Some result ≡ slice_get self.now at }
    {
        match self.tags[at] {
            Tag::False => Value::Bool(false),
            Tag::True => Value::Bool(true),
            tag => unpack(tag, self.words[at]),
        }
    }

    /// Puts a value at a place.
    #[inline(always)]
    pub fn set(&mut self, at: usize, value: Value)
        requires { at < length self.old }
        ensures { self.new ≡ slice_set self.old at value }
    {
        match value {
            Value::Bool(truth) => self.tags[at] = truth_tag(truth),
            other => {
                self.tags[at] = tag_of(other);
                self.words[at] = word_of(other);
            }
        }
    }

    /// Adds copies of a value until there are so many values.
    pub fn resize(&mut self, len: usize, value: Value) -> Result<(), AllocError>
        requires { length self.old ≤ len }
        ensures { self.new ≡ (if is_ok result then self.old ++ replicate (len - length self.old) value else self.old) }
    {
        let count = self.words.len();
        self.words.resize(len, word_of(value))?;
        match self.tags.resize(len, tag_of(value)) {
            Ok(()) => Ok(()),
            Err(e) => {
                self.words.truncate(count);
                Err(e)
            }
        }
    }

    /// Adds copies of these values.
    pub fn extend(&mut self, values: &[Value]) -> Result<(), AllocError>
        ensures { self.new ≡ (if is_ok result then self.old ++ values.now else self.old) }
    {
        let count = self.len();
        for value in values {
            match self.push(*value) {
                Ok(()) => (),
                Err(e) => {
                    self.truncate(count);
                    return Err(e);
                }
            }
        }
        Ok(())
    }

    /// Adds a value.
    fn push(&mut self, value: Value) -> Result<(), AllocError>
        ensures { self.new ≡ (if is_ok result then self.old ++ value ∷ [] else self.old) }
    {
        push_both(
            &mut self.tags,
            &mut self.words,
            tag_of(value),
            word_of(value),
        )
    }

    /// Keeps so many values, the first.
    fn truncate(&mut self, count: usize)
        ensures { self.new ≡ take count self.old }
    {
        self.tags.truncate(count);
        self.words.truncate(count);
    }
}

/// The tag of a value.
#[inline(always)]
fn tag_of(value: Value) -> Tag
    ensures { result ≡ tag_of value }
{
    match value {
        Value::Int(_) => Tag::Int,
        Value::Bool(truth) => truth_tag(truth),
        Value::Char(_) => Tag::Char,
        Value::Null => Tag::Null,
        Value::Str(_) => Tag::Str,
        Value::Ref(_) => Tag::Ref,
    }
}

/// The tag of a `boolean`.
#[inline(always)]
fn truth_tag(truth: bool) -> Tag
    ensures { result ≡ tag_of (Value.Bool truth) }
{
    if truth { Tag::True } else { Tag::False }
}

/// The word of a value: with its tag it gives the value back.
#[inline(always)]
fn word_of(value: Value) -> u32
    ensures { value_at (tag_of value) result ≡ value }
{
    match value {
        Value::Int(number) => number.cast_unsigned(),
        Value::Bool(_) => 0,
        Value::Char(unit) => unit as u32,
        Value::Null => 0,
        Value::Str(at) => at,
        Value::Ref(at) => at,
    }
}

/// The value of a tag and a word.
#[inline(always)]
fn unpack(tag: Tag, word: u32) -> Value
    ensures { result ≡ value_at tag word }
{
    match tag {
        Tag::Int => Value::Int(word.cast_signed()),
        Tag::False => Value::Bool(false),
        Tag::True => Value::Bool(true),
        Tag::Char => Value::Char((word % 65536) as u16),
        Tag::Null => Value::Null,
        Tag::Str => Value::Str(word),
        Tag::Ref => Value::Ref(word),
    }
}
