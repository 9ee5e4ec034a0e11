//! The first words of a script's lines.

/// What a line of a script begins with.
#[derive(Clone, Copy, Debug, PartialEq, Eq)]
pub enum Keyword {
    /// `grammar NAME N`: a rule file, the next N lines.
    Grammar,
    /// `query NAME PATTERN`: a query, the rest of the line.
    Query,
    /// `client`: the next client begins.
    Client,
    /// `doc NAME N`: a document is committed, the next N lines.
    Doc,
    /// `open SESSION GRAMMAR LIMIT`: a session of at most LIMIT rounds is opened.
    Open,
    /// `step SESSION`: one round.
    Step,
    /// `run SESSION`: rounds up to the first answer that ends them.
    Run,
    /// `resume SESSION`: a session that was released is held again.
    Resume,
    /// `print SESSION`: the mentions of a session.
    Print,
    /// `release SESSION`: a session is held no more.
    Release,
    /// `settle`: segments are merged until no merge is due.
    Settle,
}
