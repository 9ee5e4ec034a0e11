//! The one-thread object: the record that the definitions of commands and replies speak of.
use od_document::doc::Doc;
use od_extraction::mention::Mention;
use od_pattern::grammar::GrammarKind;
use od_text::list::List;
use od_text::text::Text;

/// The most documents that may be committed.
pub const ALL_DOCUMENTS: u32 = 100_000;

/// The most bytes that all committed documents may have together: 128 MiB.
pub const ALL_BYTES: u64 = 134_217_728;

/// The most sessions that may be there.
pub const SESSIONS: u32 = 128;

/// The most rounds that a session may be opened for.
pub const SESSION_ROUNDS: u32 = 100;

/// What one session is: its grammar's kind and text, the number of documents that it belongs to, the greatest number of rounds,
/// the mentions that each finished round added, and the caller that holds it.
#[derive(Debug, Drop)]
pub struct SessionState {
    pub name: Text,
    /// The kind and the text of its grammar.
    pub kind: GrammarKind,
    pub text: Text,
    /// It belongs to the first so many documents.
    pub documents: u32,
    /// In rounds.
    pub limit: u32,
    /// What each round added.
    pub rounds: List<List<Mention>>,
    /// The caller that holds it, if one does.
    pub holder: Option<u32>,
}

/// The committed documents and the sessions.
#[derive(Debug, Drop)]
pub struct OneThread {
    pub docs: List<Doc>,
    pub sessions: List<SessionState>,
}
