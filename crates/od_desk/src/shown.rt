//! The lines of an entry, over the object that it left.
ghost use Rattle.std.specs.Prelude.{◌≡◌, IfOk};
ghost use Rattle.od_session.specs.Parts.{session_of};
ghost use Rattle.od_model.specs.History.Lines.{entry_lines, lines_before, lines_of_session};

use od_command::history::{Command, Entry, Reply};
use od_lines::{entry_line, session_lines};
use od_text::text::{Bytes, NoMemory, Text};
use od_workspace::workspace::Workspace;
use std::alloc::Global;

/// The lines of the mentions of a session, if it is there.
fn shown_lines(alloc: Global, workspace: &Workspace, name: &Text) -> Result<Bytes, NoMemory>
    ensures { IfOk result (λ lines. lines ≡ lines_of_session workspace.now.docs name.now
        (session_of name.now workspace.now.sessions)) }
{
    match workspace.rounds_of(name) {
        Some(rounds) => session_lines(alloc, name, workspace.docs(), rounds),
        None => Ok(Bytes::new(alloc)),
    }
}

/// The lines of the mentions that a print shows; no other reply has any.
fn printed_lines(
    alloc: Global,
    workspace: &Workspace,
    command: &Command,
    reply: &Reply,
) -> Result<Bytes, NoMemory>
    ensures { IfOk result (λ lines. lines ≡ lines_before workspace.now command.now reply.now) }
{
    match command {
        Command::Print { name } => match reply {
            Reply::Printed { .. } => shown_lines(alloc, workspace, name),
            _ => Ok(Bytes::new(alloc)),
        },
        _ => Ok(Bytes::new(alloc)),
    }
}

/// The lines of an entry: the printed mentions, then its own line.
pub fn entry_lines(alloc: Global, workspace: &Workspace, entry: &Entry) -> Result<Bytes, NoMemory>
    ensures { IfOk result (λ lines. lines ≡ entry_lines workspace.now entry.now) }
{
    let mut lines = printed_lines(alloc, workspace, &entry.command, &entry.reply)?;
    let own = entry_line(alloc, entry)?;
    lines.append(own.get())?;
    Ok(lines)
}
