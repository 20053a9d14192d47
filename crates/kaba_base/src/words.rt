//! The keywords, and which texts are identifiers.
#![tactic(auto)]

ghost use Rattle.std.specs.Prelude.{◌≡◌};
ghost use Rattle.std.specs.Str.{bytes_eq, chars};
ghost use Rattle.std.specs.List.{list_all, list_any};
ghost use Rattle.kaba_base.specs.Words.{is_start, is_part, is_word, next_is, is_name, key_text, key_of, first_that};

/// The keywords of the language: the reserved words of the Java Language Specification,
/// section 3.9, the literals `true`, `false` and `null`, and `_` alone.
#[derive(Clone, Copy, PartialEq, Eq)]
pub enum Keyword {
    Abstract,
    Assert,
    Boolean,
    Break,
    Byte,
    Case,
    Catch,
    Char,
    Class,
    Const,
    Continue,
    Default,
    Do,
    Double,
    Else,
    Enum,
    Extends,
    Final,
    Finally,
    Float,
    For,
    Goto,
    If,
    Implements,
    Import,
    InstanceOf,
    Int,
    Interface,
    Long,
    Native,
    New,
    Package,
    Private,
    Protected,
    Public,
    Return,
    Short,
    Static,
    StrictFp,
    Super,
    Switch,
    Synchronized,
    This,
    Throw,
    Throws,
    Transient,
    Try,
    Void,
    Volatile,
    While,
    True,
    False,
    Null,
    Underscore,
}

/// All keywords.
pub const KEYWORDS: [Keyword; 54] = [
    Keyword::Abstract,
    Keyword::Assert,
    Keyword::Boolean,
    Keyword::Break,
    Keyword::Byte,
    Keyword::Case,
    Keyword::Catch,
    Keyword::Char,
    Keyword::Class,
    Keyword::Const,
    Keyword::Continue,
    Keyword::Default,
    Keyword::Do,
    Keyword::Double,
    Keyword::Else,
    Keyword::Enum,
    Keyword::Extends,
    Keyword::Final,
    Keyword::Finally,
    Keyword::Float,
    Keyword::For,
    Keyword::Goto,
    Keyword::If,
    Keyword::Implements,
    Keyword::Import,
    Keyword::InstanceOf,
    Keyword::Int,
    Keyword::Interface,
    Keyword::Long,
    Keyword::Native,
    Keyword::New,
    Keyword::Package,
    Keyword::Private,
    Keyword::Protected,
    Keyword::Public,
    Keyword::Return,
    Keyword::Short,
    Keyword::Static,
    Keyword::StrictFp,
    Keyword::Super,
    Keyword::Switch,
    Keyword::Synchronized,
    Keyword::This,
    Keyword::Throw,
    Keyword::Throws,
    Keyword::Transient,
    Keyword::Try,
    Keyword::Void,
    Keyword::Volatile,
    Keyword::While,
    Keyword::True,
    Keyword::False,
    Keyword::Null,
    Keyword::Underscore,
];

impl Keyword {
    /// The keyword as it is written.
    #[tactic(auto, unfolding(crate::specs::Words::key_text))]
    pub fn text(self) -> &'static str
        ensures value { result.now ≡ key_text self }
    {
        match self {
            Keyword::Abstract => "abstract",
            Keyword::Assert => "assert",
            Keyword::Boolean => "boolean",
            Keyword::Break => "break",
            Keyword::Byte => "byte",
            Keyword::Case => "case",
            Keyword::Catch => "catch",
            Keyword::Char => "char",
            Keyword::Class => "class",
            Keyword::Const => "const",
            Keyword::Continue => "continue",
            Keyword::Default => "default",
            Keyword::Do => "do",
            Keyword::Double => "double",
            Keyword::Else => "else",
            Keyword::Enum => "enum",
            Keyword::Extends => "extends",
            Keyword::Final => "final",
            Keyword::Finally => "finally",
            Keyword::Float => "float",
            Keyword::For => "for",
            Keyword::Goto => "goto",
            Keyword::If => "if",
            Keyword::Implements => "implements",
            Keyword::Import => "import",
            Keyword::InstanceOf => "instanceof",
            Keyword::Int => "int",
            Keyword::Interface => "interface",
            Keyword::Long => "long",
            Keyword::Native => "native",
            Keyword::New => "new",
            Keyword::Package => "package",
            Keyword::Private => "private",
            Keyword::Protected => "protected",
            Keyword::Public => "public",
            Keyword::Return => "return",
            Keyword::Short => "short",
            Keyword::Static => "static",
            Keyword::StrictFp => "strictfp",
            Keyword::Super => "super",
            Keyword::Switch => "switch",
            Keyword::Synchronized => "synchronized",
            Keyword::This => "this",
            Keyword::Throw => "throw",
            Keyword::Throws => "throws",
            Keyword::Transient => "transient",
            Keyword::Try => "try",
            Keyword::Void => "void",
            Keyword::Volatile => "volatile",
            Keyword::While => "while",
            Keyword::True => "true",
            Keyword::False => "false",
            Keyword::Null => "null",
            Keyword::Underscore => "_",
        }
    }
}

/// Whether an identifier may begin with the character: `_`, `$` or a character that
/// Unicode gives the property XID_Start.
pub fn starts_identifier(c: char) -> bool
    ensures value { result ≡ is_start c }
{
    unicode_ident::is_xid_start(c) || c == '_' || c == '$'
}

/// Whether an identifier may go on with the character: `$` or a character that Unicode
/// gives the property XID_Continue.
pub fn continues_identifier(c: char) -> bool
    ensures value { result ≡ is_part c }
{
    unicode_ident::is_xid_continue(c) || c == '$'
}

/// Whether the characters are those of the text.
fn is_text(word: &[char], text: &[u8]) -> bool
    ensures { result ≡ bytes_eq text.now word.now }
{
    match text {
        [] => word.is_empty(),
        [b, text @ ..] => match word {
            [] => false,
            [c, word @ ..] => char::from(*b) == *c && is_text(word, text),
        },
    }
}

/// The first of the keywords that is written as these characters.
fn keyword_in(keys: &[Keyword], word: &[char]) -> Option<Keyword>
    ensures { result ≡ first_that (λ k. bytes_eq (key_text k) word.now) keys.now }
{
    match keys {
        [] => None,
        [key, keys @ ..] => {
            if is_text(word, key.text().as_bytes()) {
                Some(*key)
            } else {
                keyword_in(keys, word)
            }
        }
    }
}

/// The keyword that is written as these characters, if there is one.
pub fn keyword_of(word: &[char]) -> Option<Keyword>
    ensures value { result ≡ key_of word.now }
{
    keyword_in(&KEYWORDS, word)
}

/// Whether the text is one of the keywords.
fn is_keyword_in(keys: &[Keyword], text: &str) -> bool
    ensures { result ≡ list_any (λ k. bytes_eq (key_text k) text.now) keys.now }
{
    match keys {
        [] => false,
        [key, keys @ ..] => key.text() == text || is_keyword_in(keys, text),
    }
}

/// Whether an identifier may begin as the text does.
fn begins_word(text: &str) -> bool
    ensures { result ≡ next_is is_start (chars text.now) }
{
    match text.chars().next() {
        None => false,
        Some(first) => starts_identifier(first),
    }
}

/// Whether each character of the text may stand in an identifier.
fn has_parts(text: &str) -> bool
    ensures { result ≡ list_all is_part (chars text.now) }
{
    text.chars().all(continues_identifier)
}

/// Whether the text is an identifier or a keyword.
#[tactic(auto, using(crate::proofs::Texts::word_tests))]
fn is_word(text: &str) -> bool
    ensures { result ≡ is_word (chars text.now) }
{
    begins_word(text) & has_parts(text)
}

/// Whether the text is an identifier and no keyword (Java Language Specification, section 3.8,
/// with Unicode's XID_Start and XID_Continue for the characters).
#[tactic(auto, using(crate::proofs::Texts::no_keyword))]
pub fn is_identifier(text: &str) -> bool
    ensures value { result ≡ is_name (chars text.now) }
{
    is_word(text) & !is_keyword_in(&KEYWORDS, text)
}
