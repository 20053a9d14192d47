//! The tokens of a Java text.
#![tactic(auto)]

ghost use Rattle.std.specs.Prelude.{◌≡◌, ◌↔◌, IfOk, IsTrue};
ghost use Rattle.java_lex.specs.Spelling.{mark_text};
ghost use Rattle.java_lex.specs.Laws.{MarksAreRead, KeywordsAreRead};

use std::alloc::{AllocError, Global};
use std::marker::Model;
use thiserror::Error;

mod read;
mod scan;

pub use kaba_base::{Keyword, Name, Place};
pub use read::lex;

/// A separator or an operator (Java Language Specification, sections 3.11 and 3.12).
#[derive(Clone, Copy, PartialEq, Eq)]
pub enum Mark {
    /// `(`
    OpenRound,
    /// `)`
    CloseRound,
    /// `{`
    OpenBrace,
    /// `}`
    CloseBrace,
    /// `[`
    OpenSquare,
    /// `]`
    CloseSquare,
    /// `;`
    Semi,
    /// `,`
    Comma,
    /// `.`
    Dot,
    /// `=`
    Assign,
    /// `+`
    Plus,
    /// `-`
    Minus,
    /// `*`
    Star,
    /// `/`
    Slash,
    /// `%`
    Percent,
    /// `<<`
    ShiftLeft,
    /// `>>`
    ShiftRight,
    /// `>>>`
    ShiftRightLogical,
    /// `&`
    And,
    /// `|`
    Or,
    /// `^`
    Xor,
    /// `~`
    Flip,
    /// `!`
    Bang,
    /// `&&`
    Both,
    /// `||`
    Either,
    /// `==`
    Equal,
    /// `!=`
    NotEqual,
    /// `<`
    Less,
    /// `>`
    Greater,
    /// `<=`
    AtMost,
    /// `>=`
    AtLeast,
    /// `+=`
    PlusAssign,
    /// `-=`
    MinusAssign,
    /// `*=`
    StarAssign,
    /// `/=`
    SlashAssign,
    /// `%=`
    PercentAssign,
    /// `++`
    PlusPlus,
    /// `--`
    MinusMinus,
}

/// All marks, the longer ones first.
pub const MARKS: [Mark; 38] = [
    Mark::ShiftRightLogical,
    Mark::ShiftLeft,
    Mark::ShiftRight,
    Mark::Both,
    Mark::Either,
    Mark::Equal,
    Mark::NotEqual,
    Mark::AtMost,
    Mark::AtLeast,
    Mark::PlusAssign,
    Mark::MinusAssign,
    Mark::StarAssign,
    Mark::SlashAssign,
    Mark::PercentAssign,
    Mark::PlusPlus,
    Mark::MinusMinus,
    Mark::OpenRound,
    Mark::CloseRound,
    Mark::OpenBrace,
    Mark::CloseBrace,
    Mark::OpenSquare,
    Mark::CloseSquare,
    Mark::Semi,
    Mark::Comma,
    Mark::Dot,
    Mark::Assign,
    Mark::Plus,
    Mark::Minus,
    Mark::Star,
    Mark::Slash,
    Mark::Percent,
    Mark::And,
    Mark::Or,
    Mark::Xor,
    Mark::Flip,
    Mark::Bang,
    Mark::Less,
    Mark::Greater,
];

impl Mark {
    /// The mark as it is written.
    pub fn text(self) -> &'static str
        ensures value { result.now ≡ mark_text self }
    {
        match self {
            Mark::OpenRound => "(",
            Mark::CloseRound => ")",
            Mark::OpenBrace => "{",
            Mark::CloseBrace => "}",
            Mark::OpenSquare => "[",
            Mark::CloseSquare => "]",
            Mark::Semi => ";",
            Mark::Comma => ",",
            Mark::Dot => ".",
            Mark::Assign => "=",
            Mark::Plus => "+",
            Mark::Minus => "-",
            Mark::Star => "*",
            Mark::Slash => "/",
            Mark::Percent => "%",
            Mark::ShiftLeft => "<<",
            Mark::ShiftRight => ">>",
            Mark::ShiftRightLogical => ">>>",
            Mark::And => "&",
            Mark::Or => "|",
            Mark::Xor => "^",
            Mark::Flip => "~",
            Mark::Bang => "!",
            Mark::Both => "&&",
            Mark::Either => "||",
            Mark::Equal => "==",
            Mark::NotEqual => "!=",
            Mark::Less => "<",
            Mark::Greater => ">",
            Mark::AtMost => "<=",
            Mark::AtLeast => ">=",
            Mark::PlusAssign => "+=",
            Mark::MinusAssign => "-=",
            Mark::StarAssign => "*=",
            Mark::SlashAssign => "/=",
            Mark::PercentAssign => "%=",
            Mark::PlusPlus => "++",
            Mark::MinusMinus => "--",
        }
    }
}

/// The value of a string literal: its UTF-16 code units, seen as their list.
#[derive(Drop)]
pub struct Units {
    list: Vec<u16>,
}

impl Model for Units {
    ghost use Rattle.std.specs.Prelude.{ℕ, List};

    ghost Value = { List ℕ };

    ghost view = { λ units. units.list.items };
}

impl Units {
    /// These code units.
    pub fn new(list: Vec<u16>) -> Units
        ensures value { result ≡ list.items }
    {
        Units { list }
    }

    /// The code units.
    pub fn as_slice(&self) -> &[u16]
        ensures value { result.now ≡ self.now }
    {
        self.list.as_slice()
    }

    /// The same units once more, or `AllocError` where memory is short.
    pub fn copy(&self, alloc: Global) -> Result<Units, AllocError>
        ensures value { IfOk result (λ units. units ≡ self.now) }
    {
        Ok(Units {
            list: Vec::from_slice(alloc, self.list.as_slice())?,
        })
    }

    /// Whether the two have the same units.
    pub fn same(&self, other: &Units) -> bool
        ensures value { IsTrue result ↔ (self.now ≡ other.now) }
    {
        self.list.as_slice() == other.list.as_slice()
    }
}

/// What a token is.
#[derive(Drop)]
pub enum TokenKind {
    /// An identifier that is no keyword.
    Word(Name),
    /// A keyword, also `true`, `false`, `null` and `_`.
    Key(Keyword),
    /// A number from 0 to 2,147,483,647.
    Int(i32),
    /// The number 2,147,483,648, which stands only behind a minus.
    Least,
    /// A character literal: its code unit.
    Char(u16),
    /// A string literal.
    Str(Units),
    /// A separator or an operator.
    Mark(Mark),
}

/// A token, with the place of its first character.
#[derive(Drop)]
pub struct Token {
    /// What it is.
    pub kind: TokenKind,
    /// Where it begins.
    pub place: Place,
}

/// Why a text has no tokens.
#[derive(Clone, Copy, Debug, Error)]
pub enum LexFault {
    /// Bytes that are not UTF-8, or a character that no token and no space begins with.
    #[error("no token at byte {} on line {}", .0.at, .0.line)]
    BadByte(Place),
    /// A comment that is not closed, at its `/*`.
    #[error("open comment at byte {} on line {}", .0.at, .0.line)]
    OpenComment(Place),
    /// A string that is not closed on its line, at its opening quote.
    #[error("open string at byte {} on line {}", .0.at, .0.line)]
    OpenString(Place),
    /// A number above 2,147,483,648, at its first digit.
    #[error("number too big at byte {} on line {}", .0.at, .0.line)]
    BigLiteral(Place),
    /// Memory is short.
    #[error("out of memory")]
    Memory,
}

/// Each mark and each keyword is read back from its spelling (Java Language Specification, sections
/// 3.9, 3.11 and 3.12): so no two are written alike, and the tables that `lex` searches have all.
pub fn spellings_are_read()
    ensures marks { MarksAreRead }
    ensures keywords { KeywordsAreRead }
{}
