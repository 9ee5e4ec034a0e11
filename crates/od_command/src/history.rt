//! Commands, replies and the entries of a history.
use od_document::conllu::ConlluKind;
use od_extraction::phase::Phase;
use od_text::list::List;
use od_text::text::{Bytes, Copied, NoMemory, Text};
use std::alloc::Global;

/// What a client asks. Names are 1 to 64 bytes of ASCII letters, digits, `_`, `.` and `-`.
#[derive(Debug, Drop)]
pub enum Command {
    /// Commits a document: its name, and its bytes in CoNLL-U.
    AddDoc {
        name: Text,
        body: Bytes,
    },
    /// Opens a session over the documents that are committed now, with the script's grammar of this name and
    /// at most `limit` rounds, 1 to 100. The caller holds it.
    OpenSession {
        name: Text,
        grammar: Text,
        limit: u32,
    },
    /// Runs the next round of a session.
    Step {
        name: Text,
    },
    /// Takes a session that nobody holds.
    Resume {
        name: Text,
    },
    /// Shows the mentions of a session.
    Print {
        name: Text,
    },
    /// Gives a session up, so that another caller may take it.
    Release {
        name: Text,
    },
    /// Merges segments of committed documents until no merge is due.
    Settle,
}

/// Why a command was refused. A refused command changes nothing.
#[derive(Clone, Copy, Debug, PartialEq, Eq)]
pub enum Refusal {
    /// The bytes are no document: the first fault, with its line, numbered from 1.
    BadDoc {
        line: u32,
        kind: ConlluKind,
    },
    /// A document of the name is committed.
    Duplicate,
    /// 100,000 documents are committed, or with this one all would have more than 128 MiB: what is committed, without it.
    Full {
        documents: u32,
        bytes: u64,
    },
    /// The script has no grammar of the name; to `Resume`, none with the session's kind and text.
    NoGrammar,
    /// The limit, in rounds, is not from 1 to 100.
    BadLimit {
        limit: u32,
    },
    /// A session has the name.
    Taken,
    /// So many sessions are there: 128, and no more are allowed.
    NoRoom {
        count: u32,
    },
    /// No session has the name.
    NoSession,
    /// Another caller holds the session; to `Resume`, any caller.
    Busy {
        owner: u32,
    },
    /// Nobody holds the session.
    NotHeld,
    /// The session was finished by its round of this number.
    Finished {
        round: u32,
    },
    /// The session has as many rounds as its limit.
    AtLimit {
        round: u32,
    },
    /// A rule, numbered from 1, gives too many mentions on a sentence: the first count above 10,000. Documents,
    /// and the sentences of each, are numbered from 0.
    Crowded {
        rule: u32,
        document: u32,
        sentence: u32,
        count: u64,
    },
    /// With one mention more the session would weigh so much, which is above 100,000. A mention weighs 1, and 1 for each part.
    TooMany {
        weight: u64,
    },
}

/// What a command is answered. Rounds are numbered from 1.
#[derive(Debug, Drop)]
pub enum Reply {
    /// To `AddDoc`: so many documents are committed now.
    Added {
        documents: u32,
    },
    /// To `OpenSession`: the session covers the first so many documents, and has at most so many rounds.
    Opened {
        documents: u32,
        limit: u32,
    },
    /// To `Step`: the round's number, how many mentions it added, and whether the rounds go on.
    Stepped {
        round: u32,
        added: u32,
        phase: Phase,
    },
    /// To `Resume`: the documents and the limit of the session, its rounds and mentions so far, and whether the rounds go on.
    Resumed {
        documents: u32,
        limit: u32,
        round: u32,
        mentions: u32,
        phase: Phase,
    },
    /// To `Print`: the session's rounds and mentions so far, and whether the rounds go on.
    Printed {
        round: u32,
        mentions: u32,
        phase: Phase,
    },
    /// To `Release`.
    Released,
    /// To `Settle`: the sizes of the segments, in sentences.
    Settled {
        sizes: List<u32>,
    },
    /// The command was refused.
    Refused(Refusal),
}

/// One answered command: callers are numbered from 1, and so are the calls of each of them.
#[derive(Debug, Drop)]
pub struct Entry {
    pub caller: u32,
    pub call: u32,
    pub command: Command,
    pub reply: Reply,
}

impl Copied for Command {
    fn copy(&self, alloc: Global) -> Result<Command, NoMemory> {
        Ok(match self {
            Command::AddDoc { name, body } => Command::AddDoc {
                name: name.copy(alloc)?,
                body: body.copy(alloc)?,
            },
            Command::OpenSession {
                name,
                grammar,
                limit,
            } => Command::OpenSession {
                name: name.copy(alloc)?,
                grammar: grammar.copy(alloc)?,
                limit: *limit,
            },
            Command::Step { name } => Command::Step {
                name: name.copy(alloc)?,
            },
            Command::Resume { name } => Command::Resume {
                name: name.copy(alloc)?,
            },
            Command::Print { name } => Command::Print {
                name: name.copy(alloc)?,
            },
            Command::Release { name } => Command::Release {
                name: name.copy(alloc)?,
            },
            Command::Settle => Command::Settle,
        })
    }
}

impl Copied for Refusal {
    fn copy(&self, _alloc: Global) -> Result<Refusal, NoMemory> {
        Ok(*self)
    }
}

impl Copied for Reply {
    fn copy(&self, alloc: Global) -> Result<Reply, NoMemory> {
        Ok(match self {
            Reply::Added { documents } => Reply::Added {
                documents: *documents,
            },
            Reply::Opened { documents, limit } => Reply::Opened {
                documents: *documents,
                limit: *limit,
            },
            Reply::Stepped {
                round,
                added,
                phase,
            } => Reply::Stepped {
                round: *round,
                added: *added,
                phase: *phase,
            },
            Reply::Resumed {
                documents,
                limit,
                round,
                mentions,
                phase,
            } => Reply::Resumed {
                documents: *documents,
                limit: *limit,
                round: *round,
                mentions: *mentions,
                phase: *phase,
            },
            Reply::Printed {
                round,
                mentions,
                phase,
            } => Reply::Printed {
                round: *round,
                mentions: *mentions,
                phase: *phase,
            },
            Reply::Released => Reply::Released,
            Reply::Settled { sizes } => Reply::Settled {
                sizes: sizes.copy(alloc)?,
            },
            Reply::Refused(refusal) => Reply::Refused(*refusal),
        })
    }
}
