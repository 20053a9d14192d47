//! The nesting of a list of tokens.
#![tactic(auto)]

ghost use Rattle.std.specs.Prelude.{◌≡◌, ◌+◌, ◌^◌, ◌<◌, ◌≤◌, ◌∷◌, [], ℕ, ◌↔◌, length, IfOk, IfSome, IsTrue, None};
ghost use Rattle.java_tree.specs.Tokens.{casts};
ghost use Rattle.java_tree.specs.Nesting.{is_bracket, no_operators, to_bracket, closed, is_round, is_else, goes_on, next_is, ended, is_operator, after_mark, after_key, after_token, stack_after, IsTooDeep};
ghost use Rattle.java_parse.specs.Stacks.{entries_of};

use crate::front::makes_cast;
use java_lex::{Mark, Token, TokenKind};
use java_tree::{Entry, level_of};
use kaba_base::Keyword;
use std::alloc::{AllocError, Global};

/// The nesting stack.
#[derive(Drop)]
pub enum Stack {
    Empty,
    On(Entry, Box<Stack>),
}

// The stack with one more entry. `AllocError` where memory is short.
fn pushed(alloc: Global, entry: Entry, stack: Stack) -> Result<Stack, AllocError>
    ensures value { IfOk result (λ s. entries_of s ≡ entry ∷ entries_of stack) }
{
    Ok(Stack::On(entry, Box::new(alloc, stack)?))
}

fn without_operators(stack: Stack) -> Stack
    ensures value { entries_of result ≡ no_operators (entries_of stack) }
{
    match stack {
        Stack::On(Entry::Operator, below) => without_operators(Box::into_inner(below)),
        other => other,
    }
}

fn closes(entry: Entry) -> bool
    ensures value { result ≡ is_bracket entry }
{
    match entry {
        Entry::Round | Entry::Square | Entry::Brace => true,
        Entry::Operator | Entry::Word => false,
    }
}

fn from_bracket(stack: Stack) -> Stack
    ensures value { entries_of result ≡ to_bracket (entries_of stack) }
{
    match stack {
        Stack::Empty => Stack::Empty,
        Stack::On(entry, below) => {
            if closes(entry) {
                Stack::On(entry, below)
            } else {
                from_bracket(Box::into_inner(below))
            }
        }
    }
}

fn below_bracket(stack: Stack) -> Stack
    ensures value { entries_of result ≡ closed (entries_of stack) }
{
    match from_bracket(stack) {
        Stack::Empty => Stack::Empty,
        Stack::On(_, below) => Box::into_inner(below),
    }
}

// Whether the topmost bracket is round.
fn in_round(stack: &Stack) -> bool
    ensures value { result ≡ is_round (to_bracket (entries_of stack.now)) }
{
    match stack {
        Stack::Empty => false,
        Stack::On(entry, below) => match entry {
            Entry::Round => true,
            Entry::Square | Entry::Brace => false,
            Entry::Operator | Entry::Word => in_round(below),
        },
    }
}

// Whether the stack holds more entries than that.
fn is_higher(stack: &Stack, most: u32) -> bool
    ensures value { IsTrue result ↔ (most < length (entries_of stack.now)) }
{
    match stack {
        Stack::Empty => false,
        Stack::On(_, below) => most == 0 || is_higher(below, most - 1),
    }
}

fn is_else_next(tokens: &[Token]) -> bool
    ensures value { result ≡ next_is is_else tokens.now }
{
    if let [first, ..] = tokens {
        return matches!(first.kind, TokenKind::Key(Keyword::Else));
    }
    false
}

fn goes_on_next(tokens: &[Token]) -> bool
    ensures value { result ≡ next_is goes_on tokens.now }
{
    if let [first, ..] = tokens {
        return matches!(first.kind, TokenKind::Mark(Mark::OpenSquare | Mark::Dot));
    }
    false
}

// The stack at the end of a statement.
fn at_end(next: &[Token], stack: Stack) -> Stack
    ensures value { entries_of result ≡ ended next.now (entries_of stack) }
{
    if in_round(&stack) {
        stack
    } else if is_else_next(next) {
        without_operators(stack)
    } else {
        from_bracket(stack)
    }
}

// Whether a mark pushes an operator's entry.
fn operates(mark: Mark) -> bool
    ensures value { result ≡ is_operator mark }
{
    match mark {
        Mark::Dot
        | Mark::Assign
        | Mark::PlusAssign
        | Mark::MinusAssign
        | Mark::StarAssign
        | Mark::SlashAssign
        | Mark::PercentAssign
        | Mark::PlusPlus
        | Mark::MinusMinus
        | Mark::Bang
        | Mark::Flip => true,
        other => level_of(other) > 0,
    }
}

// The stack after a mark. `AllocError` where memory is short.
fn behind_mark(alloc: Global, mark: Mark, next: &[Token], stack: Stack) -> Result<Stack, AllocError>
    ensures value { IfOk result (λ s. entries_of s ≡ after_mark mark next.now (entries_of stack)) }
{
    match mark {
        Mark::OpenRound => pushed(alloc, Entry::Round, stack),
        Mark::OpenSquare => pushed(alloc, Entry::Square, stack),
        Mark::OpenBrace => pushed(alloc, Entry::Brace, stack),
        Mark::CloseRound => {
            let below = below_bracket(stack);
            if makes_cast(next) {
                return pushed(alloc, Entry::Operator, below);
            }
            Ok(below)
        }
        Mark::CloseSquare => {
            let below = below_bracket(stack);
            if goes_on_next(next) {
                return pushed(alloc, Entry::Operator, below);
            }
            Ok(below)
        }
        Mark::CloseBrace => Ok(at_end(next, below_bracket(stack))),
        Mark::Semi => Ok(at_end(next, stack)),
        Mark::Comma => Ok(without_operators(stack)),
        other => {
            if operates(other) {
                return pushed(alloc, Entry::Operator, stack);
            }
            Ok(stack)
        }
    }
}

// The stack after a keyword. `AllocError` where memory is short.
fn behind_key(alloc: Global, key: Keyword, stack: Stack) -> Result<Stack, AllocError>
    ensures value { IfOk result (λ s. entries_of s ≡ after_key key (entries_of stack)) }
{
    match key {
        Keyword::If | Keyword::Else | Keyword::While | Keyword::For => pushed(
            alloc,
            Entry::Word,
            stack,
        ),
        Keyword::InstanceOf => pushed(alloc, Entry::Operator, stack),
        _ => Ok(stack),
    }
}

// The stack after a token. `AllocError` where memory is short.
fn behind_token(
    alloc: Global,
    kind: &TokenKind,
    next: &[Token],
    stack: Stack,
) -> Result<Stack, AllocError>
    ensures value { IfOk result (λ s. entries_of s ≡ after_token kind.now next.now (entries_of stack)) }
{
    match kind {
        TokenKind::Mark(mark) => behind_mark(alloc, *mark, next, stack),
        TokenKind::Key(key) => behind_key(alloc, *key, stack),
        _ => Ok(stack),
    }
}

// The first token and the others.
fn next_of(tokens: &[Token]) -> Option<(&Token, &[Token])>
    ensures some { IfSome result (λ x. tokens.now ≡ x.0.now ∷ x.1.now) }
    ensures none { result ≡ None → tokens.now ≡ [] }
{
    if let [first, rest @ ..] = tokens {
        return Some((first, rest));
    }
    None
}

/// The first token, counted from 0, after which the nesting stack holds more than 128 entries.
/// `AllocError` where memory is short.
pub fn first_deep(alloc: Global, tokens: &[Token]) -> Result<Option<u32>, AllocError>
    requires room { length tokens.now < 2 ^ 32 }
    ensures deep { IfOk result (λ o. IfSome o (λ k. IsTooDeep tokens.now k)) }
    ensures shallow { IfOk result (λ o. o ≡ None → (k : ℕ) → k < length tokens.now → length (stack_after [] tokens.now (k + 1)) ≤ 128) }
{
    let mut stack = Stack::Empty;
    let mut count: u32 = 0;
    let mut rest = tokens;
    'more: loop {
        let Some((first, next)) = next_of(rest) else {
            return Ok(None);
        };
        stack = behind_token(alloc, &first.kind, next, stack)?;
        if is_higher(&stack, 128) {
            return Ok(Some(count));
        }
        count += 1;
        rest = next;
    }
}
