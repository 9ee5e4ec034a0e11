//! The answer to a command, and what it changes: both stand before anything is changed.
ghost use Rattle.std.specs.Prelude.{◌≡◌};

use od_command::history::{Refusal, Reply};
use od_document::doc::Doc;
use od_mentions::State;
use od_rounds::Session;
use od_session::object::SessionState;

/// A change of the documents and sessions.
#[derive(Drop)]
pub enum Change {
    Nothing,
    /// One document more.
    Document(Doc),
    /// One session more: its state, and the session that runs.
    Opening(SessionState, Session),
    /// One round more, which added these mentions, of the session at the place.
    Round { place: usize, added: State },
    /// Another holder of the session at the place, or none.
    Holder { place: usize, holder: Option<u32> },
}

/// The answer to a command, with the change that it makes.
#[derive(Drop)]
pub struct Answer {
    pub reply: Reply,
    pub change: Change,
}

impl Answer {
    /// An answer that changes nothing.
    pub fn without_change(reply: Reply) -> Answer
        ensures { result ≡ record { reply = reply; change = Change.Nothing } }
    {
        Answer {
            reply,
            change: Change::Nothing,
        }
    }

    /// A refusal, which changes nothing.
    pub fn refused(refusal: Refusal) -> Answer
        ensures { result ≡ record { reply = Reply.Refused refusal; change = Change.Nothing } }
    {
        Answer::without_change(Reply::Refused(refusal))
    }
}
