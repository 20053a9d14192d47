//! A stack, seen as the list of its items, the topmost first.

ghost use Rattle.std.specs.Prelude.{◌≡◌, ◌≢◌, List, [], ◌∷◌, reverse, MatchOption, OnOk, IsTrue, IsFalse};

use std::alloc::{AllocError, Global};
use std::marker::Model;

/// A stack.
#[derive(Drop)]
pub struct Stack<T> {
    items: Vec<T>,
}

impl<T> Model for Stack<T> {
    ghost Value = { List T };

    ghost view = { λ s. reverse s.items.items };
}

impl<T: Drop> Stack<T> {
    /// A stack of nothing.
    pub fn new(alloc: Global) -> Self
        ensures { result ≡ [] }
    {
        Stack {
            items: Vec::new(alloc),
        }
    }

    /// One more item on top.
    #[inline(always)]
    pub fn push(&mut self, item: T) -> Result<(), AllocError>
        ensures { OnOk result (self.new ≡ item ∷ self.old) }
    {
        match self.items.push(item) {
            Ok(()) => Ok(()),
            Err(_) => Err(AllocError),
        }
    }

    /// One more item on top, if there is memory for it: whether it is there.
    #[inline(always)]
    pub fn add(&mut self, item: T) -> bool
        ensures done { IsTrue result → self.new ≡ item ∷ self.old }
        ensures same { IsFalse result → self.new ≡ self.old }
    {
        match self.items.push(item) {
            Ok(()) => true,
            Err(_) => false,
        }
    }

    /// Whether there is no item.
    #[inline(always)]
    pub fn is_empty(&self) -> bool
        ensures { IsFalse result → self.now ≢ [] }
    {
        self.items.is_empty()
    }

    /// Takes the topmost item.
    #[inline(always)]
    pub fn pop(&mut self) -> Option<T>
        ensures { MatchOption result ((self.old ≡ []) × (self.new ≡ [])) (λ item. self.old ≡ item ∷ self.new) }
    {
        self.items.pop()
    }
}
