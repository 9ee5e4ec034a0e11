//! The line of an entry, built as one JSON object.
ghost use Rattle.std.specs.Prelude.{◌≡◌, ◌++◌, map, IfOk, OnOk, option_map};
ghost use Rattle.serde_json.specs.Data.{array};
ghost use Rattle.serde_json.specs.View.{view, items_of, members_view};
ghost use Rattle.od_line.specs.Data.{count, with_members};
ghost use Rattle.od_line.specs.Entries.{name_of, entry_members, reply_members, own_line};

use crate::lines::members::{Members, put_count, put_word};
use crate::lines::names::{command_name, reply_name, state_name};
use crate::lines::refusal::put_refusal;
use od_command::history::{Command, Entry, Reply};
use od_text::text::{Bytes, NoMemory};
use serde_json::{Map, Value, put};
use std::alloc::{AllocError, Global};

/// The line of an entry, whatever its command and its reply are.
pub fn entry_line(alloc: Global, entry: &Entry) -> Result<Bytes, NoMemory>
    ensures { IfOk result (λ line. line ≡ own_line entry.now) }
{
    let mut members = Map::new(alloc);
    put_entry(&mut members, alloc, entry)?;
    put_reply(&mut members, alloc, &entry.reply)?;
    let object = Value::Object(members);
    let mut line = object.to_vec(alloc)?;
    line.push(b'\n')?;
    Ok(Bytes::from_vec(line))
}

/// The document or session that a command names.
fn named(command: &Command) -> Option<&str>
    ensures { option_map (λ name. name.now) result ≡ name_of command.now }
{
    match command {
        Command::AddDoc { name, .. }
        | Command::OpenSession { name, .. }
        | Command::Step { name }
        | Command::Resume { name }
        | Command::Print { name }
        | Command::Release { name } => Some(name.get()),
        Command::Settle => None,
    }
}

/// Puts what the line of every entry has.
fn put_entry(members: &mut Members, alloc: Global, entry: &Entry) -> Result<(), AllocError>
    ensures { OnOk result (members_view members.new.entries
        ≡ with_members (entry_members entry.now) (members_view members.old.entries)) }
{
    put_count(members, alloc, "caller", entry.caller)?;
    put_count(members, alloc, "call", entry.call)?;
    put_word(members, alloc, "command", command_name(&entry.command))?;
    put_word(members, alloc, "reply", reply_name(&entry.reply))?;
    match named(&entry.command) {
        None => Ok(()),
        Some(name) => put_word(members, alloc, "name", name),
    }
}

/// Sizes as a JSON array.
fn sizes_value(alloc: Global, sizes: &[u32]) -> Result<Value, AllocError>
    ensures { IfOk result (λ v. view v ≡ array (items_of (map count sizes.now))) }
{
    let mut list = Vec::with_capacity(alloc, sizes.len())?;
    for size in sizes {
        list.push(Value::from(*size))?;
    }
    Ok(Value::Array(list))
}

/// Puts the fields of a reply.
fn put_reply(members: &mut Members, alloc: Global, reply: &Reply) -> Result<(), AllocError>
    ensures { OnOk result (members_view members.new.entries
        ≡ with_members (reply_members reply.now) (members_view members.old.entries)) }
{
    match reply {
        Reply::Added { documents } => { put_count(members, alloc, "documents", *documents) }
        Reply::Opened { documents, limit } => {
            put_count(members, alloc, "documents", *documents)?;
            put_count(members, alloc, "limit", *limit)
        }
        Reply::Stepped {
            round,
            added,
            phase,
        } => {
            put_count(members, alloc, "round", *round)?;
            put_count(members, alloc, "added", *added)?;
            put_word(members, alloc, "state", state_name(*phase))
        }
        Reply::Resumed {
            documents,
            limit,
            round,
            mentions,
            phase,
        } => {
            put_count(members, alloc, "documents", *documents)?;
            put_count(members, alloc, "limit", *limit)?;
            put_count(members, alloc, "round", *round)?;
            put_count(members, alloc, "mentions", *mentions)?;
            put_word(members, alloc, "state", state_name(*phase))
        }
        Reply::Printed {
            round,
            mentions,
            phase,
        } => {
            put_count(members, alloc, "round", *round)?;
            put_count(members, alloc, "mentions", *mentions)?;
            put_word(members, alloc, "state", state_name(*phase))
        }
        Reply::Released => Ok(()),
        Reply::Settled { sizes } => {
            let sizes = sizes_value(alloc, sizes.get())?;
            put(members, alloc, "sizes", sizes)
        }
        Reply::Refused(refusal) => put_refusal(members, alloc, refusal),
    }
}
