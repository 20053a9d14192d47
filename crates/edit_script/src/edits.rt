//! The edit that the words of a line write, and whether they write an undo.
#![tactic(auto)]

ghost use Rattle.std.specs.Prelude.{◌≡◌, ◌∷◌, ◌↔◌, ℕ, true, List, [], IfOk, IsTrue, MatchOption, codes};
ghost use Rattle.std.specs.Str.{all_scalars, encode_utf8_all};
ghost use Rattle.kaba_base.specs.declared.NodeId.{NodeId};
ghost use Rattle.edit_script.specs.Script.{words_in, node_word, column_word, IsId, IsNode, Writes};
ghost use Rattle.edit_script.specs.Readings.{IsEditRead, IsActRead, AreNodesIn, NoNodes, NoMerge, NoDrop};

use crate::words::{Words, node_in};
use hier_model::{Act, Edit};
use kaba_base::{ColId, Name, NodeId};
use std::alloc::{AllocError, Global};

/// The edit of two things, where both were read.
macro_rules! made_of {
    ($read:expr, $edit:ident) => {
        match $read? {
            None => Ok(None),
            Some((first, second)) => Ok(Some(Edit::$edit(first, second))),
        }
    };
}

/// The nodes that all the words name, or `None` where one names none.
fn nodes(alloc: Global, words: &mut Words<'_>) -> Result<Option<Vec<NodeId>>, AllocError>
    ensures { IfOk result (λ read. MatchOption read (NoNodes (words_in words.old.rest.now)) (λ nodes. AreNodesIn (words_in words.old.rest.now) nodes.items)) }
{
    let mut nodes = Vec::new(alloc);
    while let Some(word) = words.next() {
        match node_in(alloc, word)? {
            None => return Ok(None),
            Some(node) => nodes.push(node)?,
        }
    }
    Ok(Some(nodes))
}

/// The edit `merge`, of which the words after its name are left.
fn read_merge(alloc: Global, mut words: Words<'_>) -> Result<Option<Edit>, AllocError>
    ensures { IfOk result (λ read. MatchOption read (NoMerge (words_in words.entry.rest.now)) (Writes (codes "merge" ∷ words_in words.entry.rest.now))) }
{
    match nodes(alloc, &mut words)? {
        None => Ok(None),
        Some(nodes) => {
            if nodes.len() < 2 {
                return Ok(None);
            }
            Ok(Some(Edit::Merge(nodes)))
        }
    }
}

/// What an edit places or names: a node, or a column.
trait Subject: Copy {
    ghost word_of: { Self → List ℕ };

    ghost is_subject: { Self → Type 0 };

    /// The next word as one.
    fn next(alloc: Global, words: &mut Words<'_>) -> Result<Option<Self>, AllocError>
        ensures { IfOk result (λ read. MatchOption read
            ((x : Self) (more : List (List ℕ)) → is_subject x → words_in words.old.rest.now ≡ word_of x ∷ more → ⊥)
            (λ x. is_subject x × (words_in words.old.rest.now ≡ word_of x ∷ words_in words.new.rest.now))) };
}

impl Subject for NodeId {
    ghost word_of = { node_word };

    ghost is_subject = { IsNode };

    fn next(alloc: Global, words: &mut Words<'_>) -> Result<Option<NodeId>, AllocError> {
        words.node(alloc)
    }
}

impl Subject for ColId {
    ghost word_of = { column_word };

    ghost is_subject = { λ c. IsId c.0 };

    fn next(alloc: Global, words: &mut Words<'_>) -> Result<Option<ColId>, AllocError> {
        words.column(alloc)
    }
}

/// What is placed and where, by the words after the name of an edit.
fn read_place<T: Subject>(
    alloc: Global,
    mut words: Words<'_>,
) -> Result<Option<(T, NodeId)>, AllocError>
    ensures { IfOk result (λ read. MatchOption read
        ((x : T) (n : NodeId) → T.is_subject x → IsNode n → words_in words.entry.rest.now ≡ T.word_of x ∷ node_word n ∷ [] → ⊥)
        (λ p. T.is_subject p.0 × IsNode p.1 × (words_in words.entry.rest.now ≡ T.word_of p.0 ∷ node_word p.1 ∷ []))) }
{
    let Some(subject) = T::next(alloc, &mut words)? else {
        return Ok(None);
    };
    let Some(node) = words.node(alloc)? else {
        return Ok(None);
    };
    if !words.is_done() {
        return Ok(None);
    }
    Ok(Some((subject, node)))
}

/// What is named and how, by the words after the name of an edit.
fn read_name<T: Subject>(
    alloc: Global,
    mut words: Words<'_>,
) -> Result<Option<(T, Name)>, AllocError>
    ensures { IfOk result (λ read. MatchOption read
        ((x : T) (name : List ℕ) → T.is_subject x → words_in words.entry.rest.now ≡ T.word_of x ∷ encode_utf8_all name ∷ [] → ⊥)
        (λ p. T.is_subject p.0 × (all_scalars p.1 ≡ true) × (words_in words.entry.rest.now ≡ T.word_of p.0 ∷ encode_utf8_all p.1 ∷ []))) }
{
    let Some(subject) = T::next(alloc, &mut words)? else {
        return Ok(None);
    };
    match words.last_name(alloc)? {
        None => Ok(None),
        Some(name) => Ok(Some((subject, name))),
    }
}

/// The edit `drop`, of which the words after its name are left.
fn read_drop(alloc: Global, mut words: Words<'_>) -> Result<Option<Edit>, AllocError>
    ensures { IfOk result (λ read. MatchOption read (NoDrop (words_in words.entry.rest.now)) (Writes (codes "drop" ∷ words_in words.entry.rest.now))) }
{
    let Some(node) = words.node(alloc)? else {
        return Ok(None);
    };
    if !words.is_done() {
        return Ok(None);
    }
    Ok(Some(Edit::Drop(node)))
}

/// The edit that the words of the line write, or `None` where they write none.
fn read_edit(alloc: Global, line: &str) -> Result<Option<Edit>, AllocError>
    ensures { IfOk result (λ read. IsEditRead (words_in line.now) read) }
{
    let mut words = Words { rest: line };
    match words.next() {
        Some("merge") => read_merge(alloc, words),
        Some("under") => made_of!(read_place::<NodeId>(alloc, words), Under),
        Some("move") => made_of!(read_place::<ColId>(alloc, words), Move),
        Some("type") => made_of!(read_name::<NodeId>(alloc, words), TypeName),
        Some("member") => made_of!(read_name::<ColId>(alloc, words), MemberName),
        Some("drop") => read_drop(alloc, words),
        Some(_) => Ok(None),
        None => Ok(None),
    }
}

/// Whether the words of the line write an undo.
fn is_undo(line: &str) -> bool
    ensures { IsTrue result ↔ (words_in line.now ≡ codes "undo" ∷ []) }
{
    let mut words = Words { rest: line };
    match words.next() {
        Some("undo") => words.is_done(),
        Some(_) => false,
        None => false,
    }
}

/// The act that the words of the line write, or `None` where they write none.
pub fn read_act(alloc: Global, line: &str) -> Result<Option<Act>, AllocError>
    ensures { IfOk result (λ read. IsActRead (words_in line.now) read) }
{
    if is_undo(line) {
        return Ok(Some(Act::Undo));
    }
    match read_edit(alloc, line)? {
        Some(edit) => Ok(Some(Act::Edit(edit))),
        None => Ok(None),
    }
}
