//! What can be wrong with a CoNLL-U document.

/// The kinds of faults of a document, in the order in which they are tested.
#[derive(Clone, Copy, Debug, PartialEq, Eq)]
pub enum ConlluKind {
    /// More than 1 MiB; line 1.
    TooLong,
    /// Bytes that are not UTF-8; the line of the first bad byte.
    NotUtf8,
    /// A line without exactly ten columns.
    Columns,
    /// An ID that is no number from 1, no range and no empty node.
    BadId,
    /// A word whose ID is not the next of its sentence.
    IdOrder,
    /// The 2,001st word of a sentence.
    TooManyTokens,
    /// A word whose FORM is empty.
    EmptyForm,
    /// A HEAD that is neither `_` nor a number.
    BadHead,
    /// A HEAD above the number of words of the sentence.
    HeadRange,
    /// No sentence; line 1.
    Empty,
}

/// The first fault of a document, with its line, numbered from 1.
#[derive(Clone, Copy, Debug, PartialEq, Eq)]
pub struct ConlluFault {
    pub line: u32,
    pub kind: ConlluKind,
}
