//! Texts that are kept up to a limit.
ghost use Rattle.std.specs.Prelude.{◌≡◌, ℕ, ◌++◌, [], List as Seq, OnOk};
ghost use Rattle.od_expansion.specs.Bounds.{Holds, IsText};

use od_rule_text::limits::PATTERN_BYTES;
use od_text::text::{NoMemory, Text};
use std::alloc::Global;

/// A text of at most as many bytes as a pattern may have; nothing is kept of a longer one.
#[derive(Debug, Drop)]
pub(crate) enum Bounded {
    Kept(String),
    TooLong,
}

impl Bounded {
    /// The text without a byte.
    pub(crate) fn new(alloc: Global) -> Bounded
        ensures { Holds result [] }
    {
        Bounded::Kept(String::new(alloc))
    }

    /// More text at the end.
    pub(crate) fn push(&mut self, part: &str) -> Result<(), NoMemory>
        ensures { OnOk result ((front : Seq ℕ) → Holds self.old front
            → Holds self.new (front ++ part.now)) }
    {
        let Bounded::Kept(kept) = self else {
            return Ok(());
        };
        if (PATTERN_BYTES as usize).saturating_sub(kept.len()) < part.len() {
            *self = Bounded::TooLong;
            return Ok(());
        }
        kept.push_str(part)?;
        Ok(())
    }

    /// Another text at the end.
    pub(crate) fn append(&mut self, other: &Bounded) -> Result<(), NoMemory>
        ensures { OnOk result ((front text : Seq ℕ) → Holds self.old front
            → Holds other.now text → Holds self.new (front ++ text)) }
    {
        match other {
            Bounded::Kept(text) => self.push(text.as_str()),
            Bounded::TooLong => {
                *self = Bounded::TooLong;
                Ok(())
            }
        }
    }

    /// The text, where it was kept.
    pub(crate) fn into_text(self) -> Option<Text>
        ensures { IsText self result }
    {
        match self {
            Bounded::Kept(kept) => Some(Text::from_string(kept)),
            Bounded::TooLong => None,
        }
    }
}
