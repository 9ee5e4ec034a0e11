//! Entries: a key and what stands behind it.
ghost use Rattle.std.specs.Prelude.{◌≡◌, ◌+◌, ◌^◌, ◌<◌, if◌then◌else◌};
ghost use Rattle.std.specs.Option.{option_map};
ghost use Rattle.std.specs.List.{list_all};
ghost use Rattle.od_language.specs.Identifier.{begins_identifier, in_identifier, is_identifier};
ghost use Rattle.od_rule_text.specs.Statements as statements;
ghost use Rattle.od_rule_text.specs.Statements.{is_item, entry_column, entry_text};
ghost use Rattle.od_yaml.specs.Entry.{entry_shown};

use crate::part::{begins_with, cut, text_from};
use od_language::limits::IDENTIFIER_BYTES;

/// An entry as it stands on its line.
#[derive(Clone, Copy, Debug)]
pub(crate) struct Entry<'a> {
    /// An identifier.
    pub key: &'a str,
    /// What follows `: `.
    pub rest: &'a str,
}

/// Whether an identifier may begin with this byte.
fn begins_identifier(c: u8) -> bool
    ensures { result ≡ begins_identifier c }
{
    c.is_ascii_alphabetic() || c == b'_'
}

/// Whether this byte may stand in an identifier.
fn in_identifier(c: u8) -> bool
    ensures { result ≡ in_identifier c }
{
    c.is_ascii_alphanumeric() || c == b'_'
}

/// Whether each byte may stand in an identifier.
fn all_in_identifier(text: &[u8]) -> bool
    ensures { result ≡ list_all in_identifier text.now }
{
    text.iter().all(|c| in_identifier(*c))
}

/// Whether these bytes are an identifier.
fn is_identifier(text: &[u8]) -> bool
    ensures { result ≡ is_identifier text.now }
{
    match text {
        [] => false,
        [first, more @ ..] => {
            begins_identifier(*first) && more.len() < IDENTIFIER_BYTES && all_in_identifier(more)
        }
    }
}

/// Whether a text begins with `- `, as the first entry of an item does.
pub(crate) fn is_item(text: &str) -> bool
    ensures { result ≡ is_item text.now }
{
    text.as_bytes().starts_with(b"- ")
}

/// What stands behind `- `, where a text begins so, else all of it.
fn entry_text(text: &str) -> &str
    ensures { result.now ≡ entry_text text.now }
{
    if is_item(text) {
        text_from(text, 2)
    } else {
        text
    }
}

/// The column of the entry in a text that stands at this column.
pub(crate) fn entry_column(column: usize, text: &str) -> usize
    requires { column < 2 ^ 32 }
    ensures { result ≡ entry_column column text.now }
{
    if is_item(text) { column + 2 } else { column }
}

/// The entry that a text is, which may stand behind `- `.
pub(crate) fn entry_of(text: &str) -> Option<Entry<'_>>
    ensures { statements.entry_of text.now ≡ option_map entry_shown result }
{
    let (key, rest) = cut(entry_text(text), ':')?;
    if is_identifier(key.as_bytes()) && begins_with(rest.as_bytes(), b' ') {
        Some(Entry {
            key,
            rest: text_from(rest, 1),
        })
    } else {
        None
    }
}
