//! The text of a program's tree.
#![tactic(auto)]

ghost use Rattle.std.specs.Prelude.{◌≡◌, ◌++◌, IfOk, OnErr, OnOk};
ghost use Rattle.std.specs.Str.{encode_utf8_all};
ghost use Rattle.java_tree.specs.Syntax.{tree_of};
ghost use Rattle.java_print.specs.Layout.{tree_text};
ghost use Rattle.java_tree.specs.Formed.{IsGiven, IsReadAs};

use java_tree::Tree;
use std::alloc::{AllocError, Global};

mod decls;
mod exprs;
mod put;
mod simple;
mod stmts;

/// The text of a program.
fn text_of(alloc: Global, tree: &Tree) -> Result<Vec<u8>, AllocError>
    ensures value { IfOk result (λ text. text.items ≡ encode_utf8_all (tree_text (tree_of tree.now))) }
{
    let mut text = Vec::new(alloc);
    decls::put_decls(&mut text, tree.decls.as_slice())?;
    Ok(text)
}

/// Appends the text of a program: two spaces a level, a line for each statement, round brackets
/// where the grammar needs them. The text is read as the same tree again. The tree is one that the
/// tokens of some text derive. `AllocError` comes where memory is short; then nothing of the text
/// was appended.
pub fn print(alloc: Global, tree: &Tree, into: &mut Vec<u8>) -> Result<(), AllocError>
    requires { IsGiven (tree_of tree.now) }
    ensures text { OnOk result (into.new.items ≡ into.old.items ++ encode_utf8_all (tree_text (tree_of tree.now))) }
    ensures read { OnOk result (IsReadAs (encode_utf8_all (tree_text (tree_of tree.now))) (tree_of tree.now)) }
    ensures kept { OnErr result (into.new.items ≡ into.old.items) }
{
    let text = text_of(alloc, tree)?;
    into.extend_from_slice(text.as_slice())
}
