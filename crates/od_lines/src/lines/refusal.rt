//! What the line of a refused command adds.
ghost use Rattle.std.specs.Prelude.{◌≡◌, OnOk};
ghost use Rattle.serde_json.specs.View.{members_view};
ghost use Rattle.od_line.specs.Data.{with_members};
ghost use Rattle.od_line.specs.Entries.{refusal_members};

use crate::lines::members::{Members, put_count, put_total, put_word};
use crate::lines::names::kind_name;
use od_command::history::Refusal;
use std::alloc::{AllocError, Global};

/// Puts the fields of a refusal.
pub fn put_refusal(
    members: &mut Members,
    alloc: Global,
    refusal: &Refusal,
) -> Result<(), AllocError>
    ensures { OnOk result (members_view members.new.entries
        ≡ with_members (refusal_members refusal.now) (members_view members.old.entries)) }
{
    match *refusal {
        Refusal::BadDoc { line, kind } => {
            put_count(members, alloc, "line", line)?;
            put_word(members, alloc, "kind", kind_name(kind))
        }
        Refusal::Full { documents, bytes } => {
            put_count(members, alloc, "documents", documents)?;
            put_total(members, alloc, "bytes", bytes)
        }
        Refusal::BadLimit { limit } => put_count(members, alloc, "limit", limit),
        Refusal::NoRoom { count } => put_count(members, alloc, "count", count),
        Refusal::Busy { owner } => put_count(members, alloc, "owner", owner),
        Refusal::Finished { round } => put_count(members, alloc, "round", round),
        Refusal::AtLimit { round } => put_count(members, alloc, "round", round),
        Refusal::Crowded {
            rule,
            document,
            sentence,
            count,
        } => {
            put_count(members, alloc, "rule", rule)?;
            put_count(members, alloc, "document", document)?;
            put_count(members, alloc, "sentence", sentence)?;
            put_total(members, alloc, "count", count)
        }
        Refusal::TooMany { weight } => put_total(members, alloc, "weight", weight),
        Refusal::Duplicate
        | Refusal::NoGrammar
        | Refusal::Taken
        | Refusal::NoSession
        | Refusal::NotHeld => Ok(()),
    }
}
