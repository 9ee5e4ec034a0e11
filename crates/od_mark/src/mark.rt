//! Marks: what one turn at the desk leaves behind.
ghost use Rattle.std.specs.Prelude.{◌≡◌, IfOk};

use od_command::history::Entry;
use od_text::text::{Copied, NoMemory};
use std::alloc::Global;

/// Why a desk stopped. After it no command is answered any more.
#[derive(Clone, Copy, Debug, PartialEq, Eq)]
pub enum Cause {
    /// The store failed to keep a row. The command has no entry.
    StoreFault,
    /// The sink failed to take a line. The command has its entry.
    WriteFault,
}

/// What one turn left: an entry, a stop with its cause, both of these, or a merge.
#[derive(Debug, Drop)]
pub struct Mark {
    /// Who had the turn. Callers are numbered from 1.
    pub caller: u32,
    /// The command that was answered.
    pub entry: Option<Entry>,
    /// Two neighbouring segments of documents became one: the place of the first, from 0.
    pub merge: Option<u32>,
    /// The desk stopped in this turn.
    pub stop: Option<Cause>,
    /// At a `StoreFault` the entry that its command would have had. It is no part of the history.
    pub lost: Option<Entry>,
}

/// An equal entry.
pub fn copy_entry(alloc: Global, entry: &Entry) -> Result<Entry, NoMemory>
    ensures { IfOk result (λ twin. twin ≡ entry.now) }
{
    Ok(Entry {
        caller: entry.caller,
        call: entry.call,
        command: entry.command.copy(alloc)?,
        reply: entry.reply.copy(alloc)?,
    })
}

// A copy of an entry that may be absent.
fn copy_optional(alloc: Global, entry: &Option<Entry>) -> Result<Option<Entry>, NoMemory>
    ensures { IfOk result (λ twin. twin ≡ entry.now) }
{
    match entry {
        None => Ok(None),
        Some(entry) => Ok(Some(copy_entry(alloc, entry)?)),
    }
}

impl Copied for Mark {
    fn copy(&self, alloc: Global) -> Result<Mark, NoMemory> {
        Ok(Mark {
            caller: self.caller,
            entry: copy_optional(alloc, &self.entry)?,
            merge: self.merge,
            stop: self.stop,
            lost: copy_optional(alloc, &self.lost)?,
        })
    }
}
