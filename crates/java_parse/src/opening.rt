//! How a statement begins, and what makes an expression an assignment.
#![tactic(auto)]

ghost use Rattle.std.specs.Prelude.{◌≡◌, ◌<◌, length, IfSome};
ghost use Rattle.std.specs.Option.{option_map};
ghost use Rattle.java_tree.specs.Syntax.{expr_of};
ghost use Rattle.java_parse.specs.Front.{stepping_next, compound_next, named, starts_local, start, follows_word, closes};
ghost use Rattle.java_parse.specs.Seen.{seen_two, seen_name, start_seen};

use crate::End;
use java_lex::{Mark, Token, TokenKind};
use java_tree::Expr;
use kaba_base::{Keyword, Name, Place};

/// The operator that stands here for the mark at the front, with its place and what follows it.
macro_rules! operator_at {
    ($tokens:ident, $($mark:pat => $operator:expr),+) => {{
        if let [first, rest @ ..] = $tokens {
            return match first.kind {
                $(TokenKind::Mark($mark) => Some(($operator, first.place, rest)),)+
                _ => None,
            };
        }
        None
    }};
}

/// `++` or `--` at the front, as its operator.
pub fn stepping_at(tokens: &[Token]) -> Option<(Mark, Place, &[Token])>
    ensures value { option_map seen_two result ≡ stepping_next tokens.now }
    ensures shorter { IfSome result (λ x. length x.2.now < length tokens.now) }
{
    operator_at!(tokens, Mark::PlusPlus => Mark::Plus, Mark::MinusMinus => Mark::Minus)
}

/// The mark of a compound assignment at the front, as its operator.
pub fn compound_at(tokens: &[Token]) -> Option<(Mark, Place, &[Token])>
    ensures value { option_map seen_two result ≡ compound_next tokens.now }
    ensures shorter { IfSome result (λ x. length x.2.now < length tokens.now) }
{
    operator_at!(
        tokens,
        Mark::PlusAssign => Mark::Plus,
        Mark::MinusAssign => Mark::Minus,
        Mark::StarAssign => Mark::Star,
        Mark::SlashAssign => Mark::Slash,
        Mark::PercentAssign => Mark::Percent
    )
}

/// The name that an expression is, where it has no round brackets.
pub fn named_by(end: End, expr: &Expr) -> Option<(&Name, Place)>
    ensures value { option_map seen_name result ≡ named end (expr_of expr.now) }
{
    if let End::Name = end {
        if let Expr::Name { name, place } = expr {
            return Some((name, *place));
        }
    }
    None
}

// Whether a closing square bracket is at the front.
fn closes_square(tokens: &[Token]) -> bool
    ensures value { result ≡ closes tokens.now }
{
    if let [first, ..] = tokens {
        return matches!(first.kind, TokenKind::Mark(Mark::CloseSquare));
    }
    false
}

// Whether what follows a word makes it the type of a local.
fn names_type(tokens: &[Token]) -> bool
    ensures value { result ≡ follows_word tokens.now }
{
    if let [first, rest @ ..] = tokens {
        return match first.kind {
            TokenKind::Word(_) => true,
            TokenKind::Mark(Mark::OpenSquare) => closes_square(rest),
            _ => false,
        };
    }
    false
}

/// Whether the declaration of a local begins here, rather than a statement.
pub fn begins_local(tokens: &[Token]) -> bool
    ensures value { result ≡ starts_local tokens.now }
{
    if let [first, rest @ ..] = tokens {
        return match first.kind {
            TokenKind::Word(_) => names_type(rest),
            TokenKind::Key(Keyword::Final | Keyword::Int | Keyword::Boolean | Keyword::Char) =>
                true,
            _ => false,
        };
    }
    false
}

/// How a statement begins: the place of its first token and what follows that.
#[derive(Drop)]
pub enum Begin<'a> {
    Block(Place, &'a [Token]),
    Empty(Place, &'a [Token]),
    If(Place, &'a [Token]),
    While(Place, &'a [Token]),
    For(Place, &'a [Token]),
    Return(Place, &'a [Token]),
    Break(Place, &'a [Token]),
    Continue(Place, &'a [Token]),
    Other,
}

/// How the statement at the front begins.
pub fn begin_of(tokens: &[Token]) -> Begin<'_>
    ensures value { start_seen result ≡ start tokens.now }
{
    if let [first, rest @ ..] = tokens {
        let place = first.place;
        return match first.kind {
            TokenKind::Mark(Mark::OpenBrace) => Begin::Block(place, rest),
            TokenKind::Mark(Mark::Semi) => Begin::Empty(place, rest),
            TokenKind::Key(Keyword::If) => Begin::If(place, rest),
            TokenKind::Key(Keyword::While) => Begin::While(place, rest),
            TokenKind::Key(Keyword::For) => Begin::For(place, rest),
            TokenKind::Key(Keyword::Return) => Begin::Return(place, rest),
            TokenKind::Key(Keyword::Break) => Begin::Break(place, rest),
            TokenKind::Key(Keyword::Continue) => Begin::Continue(place, rest),
            _ => Begin::Other,
        };
    }
    Begin::Other
}
