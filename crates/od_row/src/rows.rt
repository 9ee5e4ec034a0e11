//! The rows that a store keeps: one for each committed document, opened session and finished round.
use od_pattern::grammar::GrammarKind;
use od_text::list::List;
use od_text::text::{Bytes, Copied, NoMemory, Text};
use std::alloc::Global;

/// A committed document.
#[derive(Debug, Drop)]
pub struct DocRow {
    pub name: Text,
    /// Its bytes in CoNLL-U.
    pub body: Bytes,
}

/// An opened session.
#[derive(Debug, Drop)]
pub struct SessionRow {
    pub name: Text,
    /// The kind and the text of its grammar.
    pub kind: GrammarKind,
    pub text: Text,
    /// It belongs to the first so many documents.
    pub documents: u32,
    /// The most rounds that it may have.
    pub limit: u32,
}

/// A finished round of a session.
#[derive(Debug, Drop)]
pub struct RoundRow {
    /// The session's name.
    pub session: Text,
    /// The round's number, from 1.
    pub round: u32,
    /// The mentions that the round added, as they are written.
    pub body: Bytes,
}

/// All that a store keeps: three tables, each in the order in which its rows came.
#[derive(Debug, Drop)]
pub struct Rows {
    pub docs: List<DocRow>,
    pub sessions: List<SessionRow>,
    pub rounds: List<RoundRow>,
}

impl Copied for DocRow {
    fn copy(&self, alloc: Global) -> Result<DocRow, NoMemory> {
        Ok(DocRow {
            name: self.name.copy(alloc)?,
            body: self.body.copy(alloc)?,
        })
    }
}

impl Copied for SessionRow {
    fn copy(&self, alloc: Global) -> Result<SessionRow, NoMemory> {
        Ok(SessionRow {
            name: self.name.copy(alloc)?,
            kind: self.kind,
            text: self.text.copy(alloc)?,
            documents: self.documents,
            limit: self.limit,
        })
    }
}

impl Copied for RoundRow {
    fn copy(&self, alloc: Global) -> Result<RoundRow, NoMemory> {
        Ok(RoundRow {
            session: self.session.copy(alloc)?,
            round: self.round,
            body: self.body.copy(alloc)?,
        })
    }
}

impl Copied for Rows {
    fn copy(&self, alloc: Global) -> Result<Rows, NoMemory> {
        Ok(Rows {
            docs: self.docs.copy(alloc)?,
            sessions: self.sessions.copy(alloc)?,
            rounds: self.rounds.copy(alloc)?,
        })
    }
}
