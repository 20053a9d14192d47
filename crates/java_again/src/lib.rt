//! A text read and written again in the project's layout.
#![tactic(auto)]

ghost use Rattle.std.specs.Prelude.{◌<◌, length, vec_len, IfOk, IfSome, IfNone};
ghost use Rattle.java_tree.specs.Syntax.{tree_of};
ghost use Rattle.java_again.specs.Again.{IsSameTree, IsWrittenAgain, HasNoTree, OneText, TextsApart};

use java_lex::{LexFault, lex};
use java_parse::{ParseFault, parse};
use java_print::print;
use std::alloc::{AllocError, Global};

/// The program of the text, written again; `None` only where the text has no tokens, no tree, or
/// nests too deep. What is written is in the project's layout, and is read as the same tree, places
/// aside. `AllocError` comes where memory is short.
#[tactic(auto, using(crate::proofs::Given::given, crate::proofs::Given::no_tokens, crate::proofs::Given::too_deep))]
pub fn again(alloc: Global, text: &Vec<u8>) -> Result<Option<Vec<u8>>, AllocError>
    requires small { vec_len text.now < 4294967295 }
    ensures same { IfOk result (λ written. IfSome written (λ v. IsSameTree text.now.items v.items)) }
    ensures layout { IfOk result (λ written. IfSome written (λ v. IsWrittenAgain text.now.items v.items)) }
    ensures none { IfOk result (λ written. IfNone written (HasNoTree text.now.items)) }
{
    let tokens = match lex(alloc, text) {
        Ok(tokens) => tokens,
        Err(LexFault::Memory) => return Err(AllocError),
        Err(_) => return Ok(None),
    };
    if tokens.len() >= 4_294_967_295 {
        return Err(AllocError);
    }
    let tree = match parse(alloc, &tokens) {
        Ok(tree) => tree,
        Err(ParseFault::TooDeep(_)) => return Ok(None),
        Err(ParseFault::NotAProgram(_)) => return Ok(None),
        Err(ParseFault::Memory) => return Err(AllocError),
    };
    let mut written = Vec::new(alloc);
    print(alloc, &tree, &mut written)?;
    Ok(Some(written))
}

/// The contract of `again` has one result: a text is written again in one way. And programs that
/// differ in more than places are written as different texts.
pub fn one_text()
    ensures text { OneText }
    ensures apart { TextsApart }
{}
