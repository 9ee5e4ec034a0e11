//! Occurrences of variables: `${`, an identifier and `}`.
ghost use Rattle.std.specs.Prelude.{◌≡◌, ◌<◌, take, drop, IfOk};
ghost use Rattle.std.specs.List.{list_all, prefix_len};
ghost use Rattle.std.specs.Option.{option_map};
ghost use Rattle.std.specs.Str.{IsCharBoundary};
ghost use Rattle.od_language.specs.Identifier.{begins_identifier, in_identifier, is_identifier};
ghost use Rattle.od_text.specs.Cuts.{both, split_once};
ghost use Rattle.od_expansion.specs.Occurrences.{IsNameBehind, IsNext};

use crate::bounded::Bounded;
use od_language::limits::IDENTIFIER_BYTES;
use od_text::text::NoMemory;

/// Whether an identifier may begin with this byte.
fn begins_identifier(c: u8) -> bool
    ensures { result ≡ begins_identifier c }
{
    c.is_ascii_alphabetic() || c == b'_'
}

/// Whether this byte may stand in an identifier.
fn in_identifier(c: u8) -> bool
    ensures { result ≡ in_identifier c }
{
    c.is_ascii_alphanumeric() || c == b'_'
}

/// Whether each byte may stand in an identifier.
fn all_in_identifier(text: &[u8]) -> bool
    ensures { result ≡ list_all in_identifier text.now }
{
    text.iter().all(|c| in_identifier(*c))
}

/// Whether these bytes are an identifier.
fn is_identifier(text: &[u8]) -> bool
    ensures { result ≡ is_identifier text.now }
{
    match text {
        [] => false,
        [first, more @ ..] => {
            begins_identifier(*first) && more.len() < IDENTIFIER_BYTES && all_in_identifier(more)
        }
    }
}

/// How many bytes at the front may stand in an identifier.
fn name_length(text: &[u8]) -> usize
    ensures { result ≡ prefix_len in_identifier text.now }
{
    for (i, c) in text.iter().enumerate() {
        if !in_identifier(*c) {
            return i;
        }
    }
    text.len()
}

/// The text before a place, and the text from it on.
fn split(text: &str, at: usize) -> (&str, &str)
    requires { IsCharBoundary text.now at }
    ensures front { result.0.now ≡ take at text.now }
    ensures rest { result.1.now ≡ drop at text.now }
{
    (&text[..at], &text[at..])
}

/// The variable that occurs where this text stands behind a `$`, and what follows its `}`.
fn name_behind(text: &str) -> Option<(&str, &str)>
    ensures { IsNameBehind text.now result }
{
    let Some(inner) = text.strip_prefix('{') else {
        return None;
    };
    let (name, rest) = split(inner, name_length(inner.as_bytes()));
    let Some(after) = rest.strip_prefix('}') else {
        return None;
    };
    if is_identifier(name.as_bytes()) {
        Some((name, after))
    } else {
        None
    }
}

/// The text before the first `$` and the text behind it, where there is one.
fn cut_dollar(text: &str) -> Option<(&str, &str)>
    ensures { split_once 36 text.now ≡ option_map both result }
{
    text.split_once('$')
}

/// Copies a text up to its first occurrence of a variable. Gives the variable's name and what follows.
pub(crate) fn next_occurrence<'a>(
    text: &'a str,
    out: &mut Bounded,
) -> Result<Option<(&'a str, &'a str)>, NoMemory>
    ensures { IfOk result (IsNext text.now out.old out.new) }
{
    let mut rest = text;
    while let Some((front, behind)) = cut_dollar(rest) {
        out.push(front)?;
        if let Some(found) = name_behind(behind) {
            return Ok(Some(found));
        }
        out.push("$")?;
        rest = behind;
    }
    out.push(rest)?;
    Ok(None)
}
