//! The parser: from tokens to the tree that the grammar gives them.
#![tactic(auto)]

/// Names what is found at the front of these tokens; where it is not there, what is held is let go, and the function stops at them.
macro_rules! found {
    ($found:pat = $front:expr, $tokens:ident $(; $($held:ident),+)?) => {
        let Some($found) = $front else {
            $($(drop($held);)+)?
            return Err(Stop::At($tokens));
        };
    };
}

/// Names the copy; where memory is short, what is held is let go, and the function stops.
macro_rules! copied {
    ($name:ident = $copy:expr; $($held:ident),+) => {
        let Ok($name) = $copy else {
            $(drop($held);)+
            return Err(Stop::Memory);
        };
    };
}

/// Reads a part that may be left out.
macro_rules! some {
    ($read:expr) => {{
        let (read, rest) = $read?;
        Ok((Some(read), rest))
    }};
}

/// Reads a part, unless this mark is next.
macro_rules! unless {
    ($mark:expr, $tokens:ident, $read:expr) => {{
        if let Some(_) = mark_at($mark, $tokens) {
            return Ok((None, $tokens));
        }
        some!($read)
    }};
}

/// Names the type and the name that a field, a method or a head begins with, behind its modifiers.
macro_rules! begun {
    (($ty:ident, $found:ident, $place:ident, $behind:ident) = $alloc:ident, $tokens:ident) => {
        let ($ty, rest) = result_type($alloc, $tokens)?;
        found!(($found, $place, $behind) = word_at(rest), rest; $ty);
    };
}

/// Reads parts up to a closing brace, with what follows that.
macro_rules! in_braces {
    ($alloc:ident, $tokens:ident, $read:ident) => {{
        let mut all = Vec::new($alloc);
        let mut rest = $tokens;
        'more: loop {
            if let Some((_, end)) = mark_at(Mark::CloseBrace, rest) {
                return Ok((all, end));
            }
            let (next, after) = $read($alloc, rest)?;
            all.push(next)?;
            rest = after;
        }
    }};
}

/// Reads parts with commas between them up to a closing round bracket, which may come at once, with what follows that.
macro_rules! in_round {
    ($alloc:ident, $tokens:ident, $read:ident $(, $with:expr)*) => {{
        if let Some((_, rest)) = mark_at(Mark::CloseRound, $tokens) {
            return Ok((Vec::new($alloc), rest));
        }
        let mut all = Vec::new($alloc);
        let mut rest = $tokens;
        'more: loop {
            let (next, behind) = $read($alloc, $($with,)* rest)?;
            all.push(next)?;
            if let Some((_, end)) = mark_at(Mark::CloseRound, behind) {
                return Ok((all, end));
            }
            found!((_, after) = mark_at(Mark::Comma, behind), behind);
            rest = after;
        }
    }};
}

ghost use Rattle.std.specs.Prelude.{◌<◌, ◌≤◌, ◌*◌, ℕ, List, length, IfOk, IfErr, IsErrAnd};
ghost use Rattle.java_tree.specs.Syntax.{DeclTree, tree_of};
ghost use Rattle.java_tree.specs.Size.{tree_size};
ghost use Rattle.java_tree.specs.Declarations.{IsPlaced, Derives};
ghost use Rattle.java_tree.specs.Nesting.{nesting_of, IsTooDeep};
ghost use Rattle.java_parse.specs.Faults.{IsParseCause, IsDeepAt, IsRefusal, IsShort};
ghost use Rattle.java_parse.specs.OneAnswer.{OneTree, OneReading};

mod acts;
mod decl;
mod expr;
mod front;
mod nest;
mod opening;
mod parts;
mod stmt;

use decl::all_decls;
use java_lex::Token;
use java_tree::Tree;
use nest::first_deep;
use std::alloc::{AllocError, AllocFailed, Global};
use thiserror::Error;

/// How an expression ends, where that decides what may follow it.
#[derive(Clone, Copy)]
pub(crate) enum End {
    Name,
    Target,
    Call,
    New,
    Array,
    Other,
}

/// Why reading stopped: no memory, or the tokens from the first that cannot stand there.
#[derive(Drop)]
pub(crate) enum Stop<'a> {
    Memory,
    At(&'a [Token]),
}

impl<'a> From<AllocError> for Stop<'a> {
    ghost use Rattle.std.specs.Prelude.{◌≡◌};
    ghost use Rattle.java_parse.specs.declared.Stop.TheVariants.{Memory};

    ghost from_gives = { λ _ e. e ≡ Memory };

    fn from(_error: AllocError) -> Stop<'a> {
        Stop::Memory
    }
}

impl<'a, T: Drop> From<AllocFailed<T>> for Stop<'a> {
    ghost use Rattle.std.specs.Prelude.{◌≡◌};
    ghost use Rattle.java_parse.specs.declared.Stop.TheVariants.{Memory};

    ghost from_gives = { λ _ e. e ≡ Memory };

    fn from(_error: AllocFailed<T>) -> Stop<'a> {
        Stop::Memory
    }
}

/// Why a list of tokens has no tree.
#[derive(Clone, Copy, Debug, PartialEq, Eq, Error)]
pub enum ParseFault {
    /// The tokens are no program of the grammar. The token of this number, counted from 0, is the first that cannot stand
    /// where it does, whatever follows; the number is the count of the tokens where each can.
    #[error("not a program")]
    NotAProgram(u32),
    /// After this token, counted from 0, the nesting stack first holds more than 128 entries.
    #[error("nested too deep")]
    TooDeep(u32),
    /// Memory is short.
    #[error("out of memory")]
    Memory,
}

/// The tree of a list of tokens, with its places (Java Language Specification, chapters 8 to 15,
/// the subset's part).
///
/// `TooDeep(k)` comes exactly where the nesting stack holds more than 128 entries after token `k`,
/// `k` the least; otherwise `NotAProgram(k)` exactly where no tree derives the tokens, `k` the least
/// number such that the tokens 0 to `k` begin no program, or the count of the tokens. Only `Memory`
/// may come at any time.
pub fn parse(alloc: Global, tokens: &Vec<Token>) -> Result<Tree, ParseFault>
    requires room { length tokens.now.items < 4294967295 }
    ensures found { IfOk result (λ tree. IsPlaced tokens.now.items (tree_of tree)) }
    ensures nested { IfOk result (λ tree. nesting_of tokens.now.items ≤ 128) }
    ensures small { IfOk result (λ tree. tree_size (tree_of tree) ≤ 4 * length tokens.now.items) }
    ensures refused { IfErr result (λ fault. IsParseCause tokens.now.items fault) }
    ensures deep { (k : ℕ) → IsTooDeep tokens.now.items k → IsErrAnd result (IsDeepAt k) }
    ensures none { nesting_of tokens.now.items ≤ 128 → ((tree : List DeclTree) → Derives tokens.now.items tree → ⊥) → IsErrAnd result IsRefusal }
    ensures accepted { nesting_of tokens.now.items ≤ 128 → (tree : List DeclTree) → Derives tokens.now.items tree → IfErr result IsShort }
{
    let all = tokens.as_slice();
    let Ok(deep) = first_deep(alloc, all) else {
        return Err(ParseFault::Memory);
    };
    if let Some(k) = deep {
        return Err(ParseFault::TooDeep(k));
    }
    match all_decls(alloc, all) {
        Ok((decls, _)) => Ok(Tree { decls }),
        Err(Stop::Memory) => Err(ParseFault::Memory),
        Err(Stop::At(rest)) => Err(ParseFault::NotAProgram(
            all.len().saturating_sub(rest.len()) as u32,
        )),
    }
}

/// The contract of `parse` has one result. A list of tokens has at most one tree, places aside. Two
/// answers that meet the clauses `found`, `nested` and `refused` are the same tree with the same
/// places or the same fault, want of memory aside.
pub fn one_tree()
    ensures tree { OneTree }
    ensures answer { OneReading }
{}
