//! The instructions of a program.
use od_text::text::Text;

/// One instruction of a program. A state is an instruction, a place of the sentence, and whether
/// a token was taken in the turn that is under way. Where two instructions may come next, the
/// preferred one is tried first.
#[derive(Debug, Drop)]
pub enum Instruction {
    /// Takes a token at which the row of this number holds.
    Take(u32),
    /// Takes a span with this label, a longer one first.
    Jump(Text),
    /// Looks at the token at the place, or at the one before: the row must hold there or must not.
    Peek {
        ahead: bool,
        positive: bool,
        row: u32,
    },
    /// Passes before the first token.
    AtFirst,
    /// Passes behind the last token.
    AtLast,
    /// Goes on here first, and else past so many instructions.
    Split(u32),
    /// Goes on past so many instructions.
    Skip(u32),
    /// Begins another turn here, or goes on past so many instructions, as is preferred where lazy.
    Turn {
        lazy: bool,
        skip: u32,
    },
    /// Passes if the turn took a token.
    Turned,
    /// Passes if the turn took a token. Then another turn begins so many instructions back, or it
    /// goes on here, as is preferred where lazy.
    Again {
        lazy: bool,
        back: u32,
    },
    /// Begins a capture of this name.
    Open(Text),
    /// Ends the capture that began last.
    Close,
    /// No way leads on.
    Fail,
    /// The end of the pattern.
    Match,
}
