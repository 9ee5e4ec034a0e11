//! Lexemes: the smallest parts of a pattern's text.
ghost use Rattle.std.specs.Prelude.{◌≡◌};
ghost use Rattle.od_language.specs.declared.lexeme.LexFault.TheVariants as fault;

use od_text::text::{NoMemory, Text};

/// What a lexeme is. A text that it carries has its escapes replaced and its marks taken off.
#[derive(Debug, Drop)]
pub enum LexKind {
    /// A word: the name of a field, or a value without marks.
    Word(Text),
    /// A text between two `"` or two `'`.
    Quoted(Text),
    /// A regular expression between two `/`.
    Regex(Text),
    /// `(?<name>`, which opens a capture.
    NameOpen(Text),
    /// `(?=`
    AheadIs,
    /// `(?!`
    AheadNot,
    /// `(?<=`
    BehindIs,
    /// `(?<!`
    BehindNot,
    /// `{n}`, `{n,m}`, `{n,}` or `{,m}`: the least and the most number of turns.
    Range(u32, Option<u32>),
    /// `[`
    SquareOpen,
    /// `]`
    SquareClose,
    /// `(`
    RoundOpen,
    /// `)`
    RoundClose,
    /// `&`
    And,
    /// `|`
    Or,
    /// `!`
    Not,
    /// `=`
    Equal,
    /// `@`
    At,
    /// `>`
    Along,
    /// `<`
    Against,
    /// `>>`
    AnyAlong,
    /// `<<`
    AnyAgainst,
    /// `?`
    Question,
    /// `*`
    Star,
    /// `+`
    Plus,
    /// `^`
    Caret,
    /// `$`
    Dollar,
    /// The end of what was read.
    End,
}

/// A lexeme, and the place of its first byte in the text, from 0.
#[derive(Debug, Drop)]
pub struct Lexeme {
    pub at: u32,
    pub kind: LexKind,
}

/// Why no lexeme stands at a place.
#[derive(Clone, Copy, Debug, PartialEq, Eq)]
pub enum Miss {
    /// No lexeme begins with this character.
    BadChar,
    /// The text ends before the mark that closes a quoted text.
    OpenText,
    /// The text ends before the `/` that closes a regular expression.
    OpenRegex,
    /// A `{` that begins no range.
    BadNumber,
}

/// The first place of a text, in bytes from 0, at which no lexeme stands, or that memory was refused.
#[derive(Clone, Copy, Debug, PartialEq, Eq)]
pub enum LexFault {
    BadChar { at: u32 },
    OpenText { at: u32 },
    OpenRegex { at: u32 },
    BadNumber { at: u32 },
    NoMemory,
}

impl From<NoMemory> for LexFault {
    ghost from_gives = { λ _ e. e ≡ fault.NoMemory };

    fn from(_refused: NoMemory) -> LexFault {
        LexFault::NoMemory
    }
}
