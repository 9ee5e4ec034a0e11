//! The members of a line's object, each put at its key.
ghost use Rattle.std.specs.Prelude.{◌≡◌, OnOk};
ghost use Rattle.serde_json.specs.Data.{put as with_member};
ghost use Rattle.serde_json.specs.View.{members_view};
ghost use Rattle.od_line.specs.Data.{count, word};

use serde_json::{Map, Value, put};
use std::alloc::{AllocError, Global};

/// The members of an object, in the order of their keys.
pub type Members = Map<String, Value>;

/// Puts a number of 64 bits at its key.
pub fn put_total(
    members: &mut Members,
    alloc: Global,
    key: &str,
    number: u64,
) -> Result<(), AllocError>
    ensures { OnOk result (members_view members.new.entries
        ≡ with_member key.now (count number) (members_view members.old.entries)) }
{
    put(members, alloc, key, Value::from(number))
}

/// Puts a number at its key.
pub fn put_count(
    members: &mut Members,
    alloc: Global,
    key: &str,
    number: u32,
) -> Result<(), AllocError>
    ensures { OnOk result (members_view members.new.entries
        ≡ with_member key.now (count number) (members_view members.old.entries)) }
{
    put_total(members, alloc, key, u64::from(number))
}

/// Puts a text at its key.
pub fn put_word(
    members: &mut Members,
    alloc: Global,
    key: &str,
    text: &str,
) -> Result<(), AllocError>
    ensures { OnOk result (members_view members.new.entries
        ≡ with_member key.now (word text.now) (members_view members.old.entries)) }
{
    let value = Value::try_from_str(alloc, text)?;
    put(members, alloc, key, value)
}
