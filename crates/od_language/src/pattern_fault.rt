//! Why a text is no pattern.
ghost use Rattle.std.specs.Prelude.{◌≡◌};
ghost use Rattle.od_language.specs.declared.pattern_fault.PatternFault.TheVariants as fault;

use od_text::text::NoMemory;
use std::alloc::{AllocError, AllocFailed};

/// What is wrong at a place of a pattern.
#[derive(Clone, Copy, Debug, PartialEq, Eq)]
pub enum PatternKind {
    /// No lexeme stands here.
    Lex,
    /// The pattern cannot go on with this lexeme, or cannot end here.
    Expected,
    /// A word in the place of a field's name names no field.
    UnknownField,
    /// A quantifier whose least is above its most, or whose most is 0.
    BadRange,
    /// A repeat without a most whose body can match no token.
    NullableRepeat,
    /// A name of a capture that stands in the pattern already.
    SameCapture,
    /// A regular expression of more than 200 bytes.
    RegexLong,
    /// A bracket inside 100 open ones.
    TooDeep,
    /// The pattern's size is above 10,000.
    TooBig,
}

/// The first fault of a pattern, with its place in bytes from 0, or that memory was refused.
#[derive(Clone, Copy, Debug, PartialEq, Eq)]
pub enum PatternFault {
    Bad { at: u32, kind: PatternKind },
    NoMemory,
}

impl From<NoMemory> for PatternFault {
    ghost from_gives = { λ _ e. e ≡ fault.NoMemory };

    fn from(_refused: NoMemory) -> PatternFault {
        PatternFault::NoMemory
    }
}

impl From<AllocError> for PatternFault {
    ghost from_gives = { λ _ e. e ≡ fault.NoMemory };

    fn from(_refused: AllocError) -> PatternFault {
        PatternFault::NoMemory
    }
}

impl<T: Drop> From<AllocFailed<T>> for PatternFault {
    ghost from_gives = { λ _ e. e ≡ fault.NoMemory };

    fn from(_refused: AllocFailed<T>) -> PatternFault {
        PatternFault::NoMemory
    }
}
