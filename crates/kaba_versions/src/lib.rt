//! Maps from numbers to numbers of which each change makes a new version and leaves the old one as it was.
//!
//! The versions share what they have in common: a change takes time and memory as the number of digits of its key.
#![tactic(auto)]

ghost use Rattle.std.specs.Prelude.{◌≡◌, ℕ, ◌==◌, cond, Some, None, IfOk};
ghost use Rattle.kaba_versions.specs.Held.{held, held_of, holds, odd_side, even_side};

use std::alloc::{AllocError, Global};
use std::rc::Rc;

/// The root holds what stands under the key 0; `2 k + 1` stands as `k` among the odd ones, `2 k + 2` as `k` among the even ones.
#[derive(Drop)]
enum Tree {
    Empty,
    Fork {
        value: Option<u32>,
        odd: Rc<Tree>,
        even: Rc<Tree>,
    },
}

/// One version of a map.
#[derive(Drop)]
pub struct VersionMap {
    root: Rc<Tree>,
}

/// What a tree has under the key 0.
fn own(tree: &Rc<Tree>) -> Option<u32>
    ensures { result ≡ held tree.now.value 0 }
{
    match tree.as_ref() {
        Tree::Fork { value, .. } => *value,
        Tree::Empty => None,
    }
}

/// The odd keys of a tree.
fn odd(tree: &Rc<Tree>) -> &Rc<Tree>
    ensures { result.now.value ≡ odd_side tree.now.value }
{
    match tree.as_ref() {
        Tree::Fork { odd, .. } => odd,
        Tree::Empty => tree,
    }
}

/// The even keys of a tree.
fn even(tree: &Rc<Tree>) -> &Rc<Tree>
    ensures { result.now.value ≡ even_side tree.now.value }
{
    match tree.as_ref() {
        Tree::Fork { even, .. } => even,
        Tree::Empty => tree,
    }
}

/// A tree of these.
fn joined(
    alloc: Global,
    value: Option<u32>,
    odd: Rc<Tree>,
    even: Rc<Tree>,
) -> Result<Rc<Tree>, AllocError>
    ensures { IfOk result (λ t. (k : ℕ) → held t.value k ≡ held_of value odd.value even.value k) }
{
    Ok(Rc::new(alloc, Tree::Fork { value, odd, even })?)
}

/// A tree with another odd side.
fn with_odd(alloc: Global, tree: &Rc<Tree>, side: Rc<Tree>) -> Result<Rc<Tree>, AllocError>
    ensures { IfOk result (λ t. (k : ℕ) → held t.value k ≡ held_of (held tree.now.value 0) side.value (even_side tree.now.value) k) }
{
    let rest = even(tree).clone()?;
    joined(alloc, own(tree), side, rest)
}

/// A tree with another even side.
fn with_even(alloc: Global, tree: &Rc<Tree>, side: Rc<Tree>) -> Result<Rc<Tree>, AllocError>
    ensures { IfOk result (λ t. (k : ℕ) → held t.value k ≡ held_of (held tree.now.value 0) (odd_side tree.now.value) side.value k) }
{
    let rest = odd(tree).clone()?;
    joined(alloc, own(tree), rest, side)
}

/// A tree with another value under the key 0.
fn with_own(alloc: Global, tree: &Rc<Tree>, value: u32) -> Result<Rc<Tree>, AllocError>
    ensures { IfOk result (λ t. (k : ℕ) → held t.value k ≡ held_of (Some value) (odd_side tree.now.value) (even_side tree.now.value) k) }
{
    let first = odd(tree).clone()?;
    let second = even(tree).clone()?;
    joined(alloc, Some(value), first, second)
}

/// A tree with one value more or another.
fn changed(alloc: Global, tree: &Rc<Tree>, key: u32, value: u32) -> Result<Rc<Tree>, AllocError>
    ensures { IfOk result (λ t. (k : ℕ) → held t.value k ≡ cond (key == k) (Some value) (held tree.now.value k)) }
{
    if key == 0 {
        return with_own(alloc, tree, value);
    }
    if key % 2 == 1 {
        let side = changed(alloc, odd(tree), key / 2, value)?;
        return with_odd(alloc, tree, side);
    }
    let side = changed(alloc, even(tree), key / 2 - 1, value)?;
    with_even(alloc, tree, side)
}

impl VersionMap {
    /// The map that holds nothing; `AllocError` where memory is short.
    pub fn new(alloc: Global) -> Result<VersionMap, AllocError>
        ensures { IfOk result (λ m. (k : ℕ) → holds m k ≡ None) }
    {
        Ok(VersionMap {
            root: Rc::new(alloc, Tree::Empty)?,
        })
    }

    /// The value of a key.
    pub fn get(&self, key: u32) -> Option<u32>
        ensures { result ≡ holds self.now key }
    {
        let mut at = &self.root;
        let mut left = key;
        'down: loop {
            if left == 0 {
                return own(at);
            }
            if left % 2 == 1 {
                at = odd(at);
                left = left / 2;
            } else {
                at = even(at);
                left = left / 2 - 1;
            }
        }
    }

    /// A version with one value more or another; `AllocError` where memory is short.
    pub fn with(&self, alloc: Global, key: u32, value: u32) -> Result<VersionMap, AllocError>
        ensures { IfOk result (λ m. (k : ℕ) → holds m k ≡ cond (key == k) (Some value) (holds self.now k)) }
    {
        Ok(VersionMap {
            root: changed(alloc, &self.root, key, value)?,
        })
    }

    /// The same version once more; `AllocError` where memory is short.
    pub fn copy(&self) -> Result<VersionMap, AllocError>
        ensures { IfOk result (λ m. (k : ℕ) → holds m k ≡ holds self.now k) }
    {
        Ok(VersionMap {
            root: self.root.clone()?,
        })
    }
}
