//! What stands at the front of a list of tokens, and what follows it.
#![tactic(auto)]

ghost use Rattle.std.specs.Prelude.{◌≡◌, ◌<◌, ◌≤◌, length, IfSome};
ghost use Rattle.std.specs.Option.{option_map};
ghost use Rattle.std.specs.Borrow.{Bor};
ghost use Rattle.java_lex.specs.declared.Token.{Token};
ghost use Rattle.java_lex.specs.declared.Mark.{Mark};
ghost use Rattle.java_tree.specs.Tokens.{casts};
ghost use Rattle.java_parse.specs.Front.{after, after_key, word_next, maker_next, up_next, operator, instance_next, least_next, sign_next, opens_cast, cast_next, base_next, literal_next, index_next, final_of, modifier_next};
ghost use Rattle.java_parse.specs.Seen.{seen_at, seen_two, seen_word, seen_one, seen_base, seen_cast, seen_literal};

use crate::End;
use crate::parts::{Base, Literal};
use java_lex::{Mark, Token, TokenKind};
use java_tree::{Modifier, level_of};
use kaba_base::{Keyword, Name, Place};

/// The place of the first token and what follows it, where that is the same mark or keyword.
macro_rules! same_at {
    ($tokens:ident, $kind:path, $same:ident) => {{
        if let [first, rest @ ..] = $tokens {
            if let $kind(found) = first.kind {
                if found == $same {
                    return Some((first.place, rest));
                }
            }
        }
        None
    }};
}

/// The place of the mark and what follows it, if it is at the front.
pub fn mark_at(mark: Mark, tokens: &[Token]) -> Option<(Place, &[Token])>
    ensures value { option_map seen_at result ≡ after mark tokens.now }
    ensures shorter { IfSome result (λ x. length x.1.now < length tokens.now) }
{
    same_at!(tokens, TokenKind::Mark, mark)
}

/// The place of the keyword and what follows it, if it is at the front.
pub fn key_at(key: Keyword, tokens: &[Token]) -> Option<(Place, &[Token])>
    ensures value { option_map seen_at result ≡ after_key key tokens.now }
    ensures shorter { IfSome result (λ x. length x.1.now < length tokens.now) }
{
    same_at!(tokens, TokenKind::Key, key)
}

/// The word at the front.
pub fn word_at(tokens: &[Token]) -> Option<(&Name, Place, &[Token])>
    ensures value { option_map seen_word result ≡ word_next tokens.now }
    ensures shorter { IfSome result (λ x. length x.2.now < length tokens.now) }
{
    if let [first, rest @ ..] = tokens {
        if let TokenKind::Word(name) = &first.kind {
            return Some((name, first.place, rest));
        }
    }
    None
}

/// A name and an opening bracket at the front, which begin a constructor: the name, its place, and what follows the bracket.
pub fn maker_at(tokens: &[Token]) -> Option<(&Name, Place, &[Token])>
    ensures value { option_map seen_word result ≡ maker_next tokens.now }
    ensures shorter { IfSome result (λ x. length x.2.now < length tokens.now) }
{
    let (name, place, behind) = word_at(tokens)?;
    let (_, inner) = mark_at(Mark::OpenRound, behind)?;
    Some((name, place, inner))
}

/// The bracket behind `super` at the front, which calls the constructor above, and what follows the bracket.
pub fn up_at(tokens: &[Token]) -> Option<(Place, &[Token])>
    ensures value { option_map seen_at result ≡ up_next tokens.now }
    ensures shorter { IfSome result (λ x. length x.1.now < length tokens.now) }
{
    let (_, behind) = key_at(Keyword::Super, tokens)?;
    let (place, inner) = mark_at(Mark::OpenRound, behind)?;
    Some((place, inner))
}

/// The binary operator at the front, where it binds within these bounds.
pub fn operator_at(at_least: u32, at_most: u32, tokens: &[Token]) -> Option<(Mark, Place, &[Token])>
    ensures value { option_map seen_two result ≡ operator at_least at_most tokens.now }
    ensures shorter { IfSome result (λ x. length x.2.now < length tokens.now) }
{
    if let [first, rest @ ..] = tokens {
        if let TokenKind::Mark(mark) = first.kind {
            let level = level_of(mark);
            if level > 0 && level >= at_least && level <= at_most {
                return Some((mark, first.place, rest));
            }
        }
    }
    None
}

/// `instanceof` at the front, where its level is within these bounds.
pub fn instance_at(at_least: u32, at_most: u32, tokens: &[Token]) -> Option<(Place, &[Token])>
    ensures value { option_map seen_at result ≡ instance_next at_least at_most tokens.now }
    ensures shorter { IfSome result (λ x. length x.1.now < length tokens.now) }
{
    if at_least <= 7 && 7 <= at_most {
        return key_at(Keyword::InstanceOf, tokens);
    }
    None
}

/// The prefix operator at the front.
pub fn sign_at(tokens: &[Token]) -> Option<(Mark, Place, &[Token])>
    ensures value { option_map seen_two result ≡ sign_next tokens.now }
    ensures shorter { IfSome result (λ x. length x.2.now < length tokens.now) }
{
    if let [first, rest @ ..] = tokens {
        if let TokenKind::Mark(mark) = first.kind {
            if let Mark::Plus | Mark::Minus | Mark::Bang | Mark::Flip = mark {
                return Some((mark, first.place, rest));
            }
        }
    }
    None
}

/// The place of a minus before 2,147,483,648, and what follows the two.
pub fn least_at(tokens: &[Token]) -> Option<(Place, &[Token])>
    ensures value { option_map seen_at result ≡ least_next tokens.now }
    ensures shorter { IfSome result (λ x. length x.1.now < length tokens.now) }
{
    let (place, behind) = mark_at(Mark::Minus, tokens)?;
    if let [first, rest @ ..] = behind {
        if let TokenKind::Least = first.kind {
            return Some((place, rest));
        }
    }
    None
}

/// A type without brackets at the front.
pub fn base_at(tokens: &[Token]) -> Option<(Base<'_>, Place, &[Token])>
    ensures value { option_map seen_base result ≡ base_next tokens.now }
    ensures shorter { IfSome result (λ x. length x.2.now < length tokens.now) }
{
    if let [first, rest @ ..] = tokens {
        return match &first.kind {
            TokenKind::Word(name) => Some((Base::Named(name), first.place, rest)),
            TokenKind::Key(Keyword::Int) => Some((Base::Int, first.place, rest)),
            TokenKind::Key(Keyword::Boolean) => Some((Base::Boolean, first.place, rest)),
            TokenKind::Key(Keyword::Char) => Some((Base::Char, first.place, rest)),
            _ => None,
        };
    }
    None
}

/// Whether the token at the front makes a name in round brackets before it a cast.
pub fn makes_cast(tokens: &[Token]) -> bool
    ensures value { result ≡ casts tokens.now }
{
    if let [first, ..] = tokens {
        return match first.kind {
            TokenKind::Word(_) | TokenKind::Int(_) | TokenKind::Char(_) | TokenKind::Str(_) => true,
            TokenKind::Mark(mark) => matches!(mark, Mark::OpenRound | Mark::Bang | Mark::Flip),
            TokenKind::Key(key) => matches!(
                key,
                Keyword::This
                    | Keyword::Super
                    | Keyword::New
                    | Keyword::True
                    | Keyword::False
                    | Keyword::Null
            ),
            TokenKind::Least => false,
        };
    }
    false
}

/// A round bracket and `int` or `char` behind it, which open a cast: the type, its place, that of the
/// bracket, and what follows the type.
pub fn cast_opened_at(tokens: &[Token]) -> Option<(Base<'_>, Place, Place, &[Token])>
    ensures value { option_map seen_cast result ≡ opens_cast tokens.now }
    ensures shorter { IfSome result (λ x. length x.3.now < length tokens.now) }
{
    let (open, inner) = mark_at(Mark::OpenRound, tokens)?;
    if let [first, rest @ ..] = inner {
        let place = first.place;
        return match first.kind {
            TokenKind::Key(Keyword::Int) => Some((Base::Int, place, open, rest)),
            TokenKind::Key(Keyword::Char) => Some((Base::Char, place, open, rest)),
            _ => None,
        };
    }
    None
}

/// A name in round brackets that casts what follows it: the type, its place and that of the bracket.
pub fn cast_at(tokens: &[Token]) -> Option<(Base<'_>, Place, Place, &[Token])>
    ensures value { option_map seen_cast result ≡ cast_next tokens.now }
    ensures shorter { IfSome result (λ x. length x.3.now < length tokens.now) }
{
    let (open, inner) = mark_at(Mark::OpenRound, tokens)?;
    let (found, place, behind) = word_at(inner)?;
    let (_, rest) = mark_at(Mark::CloseRound, behind)?;
    if makes_cast(rest) {
        return Some((Base::Named(found), place, open, rest));
    }
    None
}

/// A literal or `this` at the front.
pub fn literal_at(tokens: &[Token]) -> Option<(Literal<'_>, Place, &[Token])>
    ensures value { option_map seen_literal result ≡ literal_next tokens.now }
    ensures shorter { IfSome result (λ x. length x.2.now < length tokens.now) }
{
    if let [first, rest @ ..] = tokens {
        let place = first.place;
        return match &first.kind {
            TokenKind::Int(value) => Some((Literal::Int(*value), place, rest)),
            TokenKind::Char(value) => Some((Literal::Char(*value), place, rest)),
            TokenKind::Str(units) => Some((Literal::Str(units), place, rest)),
            TokenKind::Key(Keyword::True) => Some((Literal::Bool(true), place, rest)),
            TokenKind::Key(Keyword::False) => Some((Literal::Bool(false), place, rest)),
            TokenKind::Key(Keyword::Null) => Some((Literal::Null, place, rest)),
            TokenKind::Key(Keyword::This) => Some((Literal::This, place, rest)),
            _ => None,
        };
    }
    None
}

/// The opening bracket of an index at the front, which no new array takes.
pub fn index_at(end: End, tokens: &[Token]) -> Option<(Place, &[Token])>
    ensures value { option_map seen_at result ≡ index_next end tokens.now }
    ensures shorter { IfSome result (λ x. length x.1.now < length tokens.now) }
{
    match end {
        End::Array => None,
        _ => mark_at(Mark::OpenSquare, tokens),
    }
}

/// Whether `final` is at the front, and what follows.
pub fn final_at(tokens: &[Token]) -> (bool, &[Token])
    ensures value { seen_one result ≡ final_of tokens.now }
    ensures shorter { length result.1.now ≤ length tokens.now }
{
    match key_at(Keyword::Final, tokens) {
        Some((_, rest)) => (true, rest),
        None => (false, tokens),
    }
}

/// The modifier at the front.
pub fn modifier_at(tokens: &[Token]) -> Option<(Modifier, &[Token])>
    ensures value { option_map seen_one result ≡ modifier_next tokens.now }
    ensures shorter { IfSome result (λ x. length x.1.now < length tokens.now) }
{
    if let [first, rest @ ..] = tokens {
        if let TokenKind::Key(word) = first.kind {
            if let Keyword::Public
            | Keyword::Protected
            | Keyword::Private
            | Keyword::Abstract
            | Keyword::Static
            | Keyword::Final = word
            {
                return Some((
                    Modifier {
                        word,
                        place: first.place,
                    },
                    rest,
                ));
            }
        }
    }
    None
}
