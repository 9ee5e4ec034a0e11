//! What may be wrong with a script.

/// The kinds of faults of a line, in the order in which they are tested. `TooLong` is tested before all
/// lines, and has line 0.
#[derive(Clone, Copy, Debug, PartialEq, Eq)]
pub enum ScriptKind {
    /// The script has more than 64 MiB.
    TooLong,
    /// A line that belongs to no document is not UTF-8.
    NotUtf8,
    /// The first word is none that a script knows.
    BadWord,
    /// A grammar stands behind the first `client`.
    LateHead,
    /// An order stands before the first `client`.
    NoClient,
    /// There are too few or too many words.
    Shape,
    /// A name is not 1 to 64 bytes of ASCII letters, digits, `_`, `.` and `-`.
    BadName,
    /// A number is not `0`, nor up to 9 digits without a leading zero.
    BadNumber,
    /// A grammar has the name of an earlier one.
    SameHead,
    /// Fewer lines are left than belong to a rule file or a document.
    ShortBlock,
    /// It is the 17th grammar, the 9th client or the 10,001st order.
    TooMany,
}
