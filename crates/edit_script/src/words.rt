//! The words of a line, and the numbers that they write.
#![tactic(auto)]

ghost use Rattle.std.specs.Prelude.{◌≡◌, ◌∷◌, ◌<◌, ◌↔◌, true, List, [], IfOk, IfSome, IsTrue, MatchOption, length};
ghost use Rattle.std.specs.Str.{all_scalars, encode_utf8_all};
ghost use Rattle.kaba_base.specs.declared.NodeId.{NodeId};
ghost use Rattle.kaba_base.specs.declared.ColId.{ColId};
ghost use Rattle.edit_script.specs.Script.{parts_of, words_in, node_word, column_word, IsId, IsNode};
ghost use Rattle.edit_script.specs.Readings.{NoName, IsNameIn, IsNodeRead, IsColumnRead};

use kaba_base::{ColId, Name, NodeId};
use kaba_words::number;
use std::alloc::{AllocError, Global};

/// What stands before the first space and what stands behind it, or `None` where there is none.
fn cut(text: &str) -> Option<(&str, &str)>
    ensures parts { MatchOption result (parts_of text.now ≡ text.now ∷ []) (λ parts. parts_of text.now ≡ parts.0.now ∷ parts_of parts.1.now) }
    ensures shorter { IfSome result (λ parts. length parts.1.now < length text.now) }
{
    text.split_once(' ')
}

/// The words of a line that are not read yet.
#[derive(Drop)]
pub struct Words<'a> {
    pub rest: &'a str,
}

impl<'a> Words<'a> {
    /// The next word.
    pub fn next(&mut self) -> Option<&'a str>
        ensures { MatchOption result (words_in self.old.rest.now ≡ []) (λ word. words_in self.old.rest.now ≡ word.now ∷ words_in self.new.rest.now) }
    {
        while let Some((word, after)) = cut(self.rest) {
            self.rest = after;
            if !word.is_empty() {
                return Some(word);
            }
        }
        let word = self.rest;
        self.rest = "";
        if word.is_empty() { None } else { Some(word) }
    }

    /// Whether no word is left.
    pub fn is_done(&mut self) -> bool
        ensures { IsTrue result ↔ (words_in self.old.rest.now ≡ []) }
    {
        self.next().is_none()
    }

    /// The next word as a node.
    pub fn node(&mut self, alloc: Global) -> Result<Option<NodeId>, AllocError>
        ensures { IfOk result (IsNodeRead (words_in self.old.rest.now) (words_in self.new.rest.now)) }
    {
        match self.next() {
            None => Ok(None),
            Some(word) => node_in(alloc, word),
        }
    }

    /// The next word as a column.
    pub fn column(&mut self, alloc: Global) -> Result<Option<ColId>, AllocError>
        ensures { IfOk result (IsColumnRead (words_in self.old.rest.now) (words_in self.new.rest.now)) }
    {
        match self.next() {
            None => Ok(None),
            Some(word) => column_in(alloc, word),
        }
    }

    /// The last word as a name.
    pub fn last_name(&mut self, alloc: Global) -> Result<Option<Name>, AllocError>
        ensures { IfOk result (λ read. MatchOption read (NoName (words_in self.old.rest.now)) (IsNameIn (words_in self.old.rest.now))) }
    {
        match self.next() {
            None => Ok(None),
            Some(word) => {
                if !self.is_done() {
                    return Ok(None);
                }
                Ok(Some(name_in(alloc, word)?))
            }
        }
    }
}

/// The node that the word names.
pub fn node_in(alloc: Global, word: &str) -> Result<Option<NodeId>, AllocError>
    ensures { IfOk result (λ read. MatchOption read ((n : NodeId) → IsNode n → word.now ≡ node_word n → ⊥) (λ n. word.now ≡ node_word n)) }
{
    match word.strip_prefix('n') {
        None => Ok(None),
        Some(digits) => match number(alloc, digits, 4294967295)? {
            None => Ok(None),
            Some(n) => Ok(Some(NodeId(n))),
        },
    }
}

/// The column that the word names.
fn column_in(alloc: Global, word: &str) -> Result<Option<ColId>, AllocError>
    ensures { IfOk result (λ read. MatchOption read ((c : ColId) → IsId c.0 → word.now ≡ column_word c → ⊥) (λ c. word.now ≡ column_word c)) }
{
    match word.strip_prefix('c') {
        None => Ok(None),
        Some(digits) => match number(alloc, digits, 4294967295)? {
            None => Ok(None),
            Some(c) => Ok(Some(ColId(c))),
        },
    }
}

/// The word as a name.
fn name_in(alloc: Global, word: &str) -> Result<Name, AllocError>
    ensures { IfOk result (λ name. (word.now ≡ encode_utf8_all name) × (all_scalars name ≡ true)) }
{
    Name::new(alloc, word)
}
