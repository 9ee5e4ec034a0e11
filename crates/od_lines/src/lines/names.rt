//! The names of commands, replies, states and faults in output lines.
ghost use Rattle.std.specs.Prelude.{◌≡◌};
ghost use Rattle.od_line.specs.Names.{command_text, state_text, kind_text, refusal_text, reply_text};

use od_command::history::{Command, Refusal, Reply};
use od_document::conllu::ConlluKind;
use od_extraction::phase::Phase;

/// The name of a command.
pub fn command_name(command: &Command) -> &'static str
    ensures { result.now ≡ command_text command.now }
{
    match command {
        Command::AddDoc { .. } => "doc",
        Command::OpenSession { .. } => "open",
        Command::Step { .. } => "step",
        Command::Resume { .. } => "resume",
        Command::Print { .. } => "print",
        Command::Release { .. } => "release",
        Command::Settle => "settle",
    }
}

/// The name of a session's state.
pub fn state_name(phase: Phase) -> &'static str
    ensures { result.now ≡ state_text phase }
{
    match phase {
        Phase::Going => "going",
        Phase::Finished => "finished",
        Phase::AtLimit => "limit",
    }
}

/// The name of a document's fault.
pub fn kind_name(kind: ConlluKind) -> &'static str
    ensures { result.now ≡ kind_text kind }
{
    match kind {
        ConlluKind::TooLong => "TooLong",
        ConlluKind::NotUtf8 => "NotUtf8",
        ConlluKind::Columns => "Columns",
        ConlluKind::BadId => "BadId",
        ConlluKind::IdOrder => "IdOrder",
        ConlluKind::TooManyTokens => "TooManyTokens",
        ConlluKind::EmptyForm => "EmptyForm",
        ConlluKind::BadHead => "BadHead",
        ConlluKind::HeadRange => "HeadRange",
        ConlluKind::Empty => "Empty",
    }
}

/// The name of a refusal.
fn refusal_name(refusal: &Refusal) -> &'static str
    ensures { result.now ≡ refusal_text refusal.now }
{
    match refusal {
        Refusal::BadDoc { .. } => "BadDoc",
        Refusal::Duplicate => "Duplicate",
        Refusal::Full { .. } => "Full",
        Refusal::NoGrammar => "NoGrammar",
        Refusal::BadLimit { .. } => "BadLimit",
        Refusal::Taken => "Taken",
        Refusal::NoRoom { .. } => "NoRoom",
        Refusal::NoSession => "NoSession",
        Refusal::Busy { .. } => "Busy",
        Refusal::NotHeld => "NotHeld",
        Refusal::Finished { .. } => "Finished",
        Refusal::AtLimit { .. } => "AtLimit",
        Refusal::Crowded { .. } => "Crowded",
        Refusal::TooMany { .. } => "TooMany",
    }
}

/// The name of a reply: `ok`, or the refusal's.
pub fn reply_name(reply: &Reply) -> &'static str
    ensures { result.now ≡ reply_text reply.now }
{
    match reply {
        Reply::Refused(refusal) => refusal_name(refusal),
        _ => "ok",
    }
}
