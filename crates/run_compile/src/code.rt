//! Code that is made from its end to its beginning, so that what a jump passes stands before the jump is made.

ghost use Rattle.std.specs.Prelude.{◌≡◌, ◌≤◌, ◌<◌, ◌+◌, ◌++◌, List, [], ◌∷◌, map, reverse, length, MatchOption, OnOk, IfOk};
ghost use Rattle.run_code.specs.Ops as ops;
ghost use Rattle.run_compile.specs.Words.{Op, op_of};
ghost use Rattle.run_code.specs.Seen.{calc_of};
ghost use Rattle.run_code.specs.Code.{moved};

use crate::special::special;
use run_code::{Calc, Destination, Instr, Operand, Tried};
use std::alloc::{AllocError, Global};
use std::marker::Model;

/// Code to which more is put in front, seen as the list of what it does, the first thing first.
#[derive(Drop)]
pub struct Code {
    items: Vec<Instr>,
}

impl Model for Code {
    ghost use Rattle.std.specs.Prelude.{List, map, reverse};
    ghost use Rattle.run_code.specs.Ops.{Op};
    ghost use Rattle.run_code.specs.Seen.{op_of};

    ghost Value = { List Op };

    ghost view = { λ c. reverse (map op_of c.items.items) };
}

impl Code {
    /// No code.
    pub fn new(alloc: Global) -> Code
        ensures { result ≡ [] }
    {
        Code {
            items: Vec::new(alloc),
        }
    }

    /// One thing more in front.
    pub fn put(&mut self, instr: Instr) -> Tried<()>
        ensures { OnOk result (self.new ≡ op_of instr ∷ self.old) }
    {
        match self.items.push(special(instr)) {
            Ok(()) => Ok(()),
            Err(_) => Err(AllocError),
        }
    }

    /// A slot is set.
    pub fn set(&mut self, to: Destination, calc: Calc) -> Tried<()>
        ensures { OnOk result (self.new ≡ ops.set to.is_int to.slot (calc_of calc) ∷ self.old) }
    {
        self.put(Instr::Set(to, calc))
    }

    /// The value of a call, which stands in its slot, is brought to another.
    pub fn bring(&mut self, to: Destination, from: u32) -> Tried<()>
        ensures { OnOk result (self.new ≡ moved to.is_int to.slot from ++ self.old) }
    {
        if to.slot == from && !to.is_int {
            return Ok(());
        }
        self.set(to, Calc::Copy(Operand::Slot(from)))
    }

    /// The first thing, taken off.
    pub fn take(&mut self) -> Option<Instr>
        ensures { MatchOption result ((self.old ≡ []) × (self.new ≡ [])) (λ i. self.old ≡ op_of i ∷ self.new) }
    {
        self.items.pop()
    }

    /// How many things there are.
    pub fn len(&self) -> usize
        ensures { result ≡ length self.now }
    {
        self.items.len()
    }

    /// How many things stand before these last ones.
    pub fn before(&self, last: usize) -> Tried<u32>
        requires { last ≤ length self.now }
        ensures { IfOk result (λ n. n + last ≡ length self.now) }
    {
        small(self.items.len() - last)
    }

    /// How many things stand before the one behind which these last ones stand.
    pub fn before_one(&self, last: usize) -> Tried<u32>
        requires { last < length self.now }
        ensures { IfOk result (λ n. n + last + 1 ≡ length self.now) }
    {
        small(self.items.len() - last - 1)
    }

    /// What stands before so many last things does something else.
    pub fn replace(&mut self, last: usize, instr: Instr)
        requires { last < length self.old }
        ensures grown { length self.new ≡ length self.old }
        ensures code { (xs ys : List Op) (x : Op) → length ys ≡ last → self.old ≡ xs ++ x ∷ ys → self.new ≡ xs ++ op_of instr ∷ ys }
    {
        self.items[last] = special(instr);
    }
}

/// A number of 32 bits.
pub fn small(n: usize) -> Tried<u32>
    ensures { IfOk result (λ m. m ≡ n) }
{
    match u32::try_from(n) {
        Ok(m) => Ok(m),
        Err(_) => Err(AllocError),
    }
}

/// The slot so many further on.
pub fn further(slot: u32, n: u32) -> Tried<u32>
    ensures { IfOk result (λ m. m ≡ slot + n) }
{
    match slot.checked_add(n) {
        Some(m) => Ok(m),
        None => Err(AllocError),
    }
}
