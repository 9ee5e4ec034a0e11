//! Scalars between double quotes.
ghost use Rattle.std.specs.Prelude.{◌≡◌, ◌<◌, ◌≤◌, ◌++◌, ◌∷◌, [], None, Some, false, length, IfOk, OnOk, IfSome, string_bytes, if◌then◌else◌};
ghost use Rattle.std.specs.List.{prefix_len};
ghost use Rattle.od_rule_text.specs.Scalars.{escaped, may_follow_quote, quoted};
ghost use Rattle.od_yaml.specs.Quotes.{is_ordinary, behind, IsRunEnd};

use crate::blank::{is_nothing_or_comment, past_blanks};
use crate::part::{text_from, text_to};
use od_text::text::{NoMemory, Text};
use std::alloc::Global;

/// Where the first quote or backslash stands, or the end.
fn special_at(text: &[u8]) -> usize
    ensures { result ≡ prefix_len is_ordinary text.now }
{
    for (i, c) in text.iter().enumerate() {
        if *c == b'"' || *c == b'\\' {
            return i;
        }
    }
    text.len()
}

/// More text at the end.
pub(crate) fn push_text(text: &mut String, part: &str) -> Result<(), NoMemory>
    ensures { OnOk result (string_bytes text.new ≡ string_bytes text.old ++ part.now) }
{
    text.push_str(part)?;
    Ok(())
}

/// One more ASCII character at the end.
fn push_ascii(text: &mut String, c: char) -> Result<(), NoMemory>
    requires { c < 128 }
    ensures { OnOk result (string_bytes text.new ≡ string_bytes text.old ++ c ∷ []) }
{
    text.push(c)?;
    Ok(())
}

/// What the character behind a backslash stands for.
fn escaped(c: u8) -> Option<char>
    ensures value { result ≡ escaped c }
    ensures ascii { IfSome result (λ meant. meant < 128) }
{
    match c {
        b'"' => Some('"'),
        b'\\' => Some('\\'),
        b'n' => Some('\n'),
        b't' => Some('\t'),
        _ => None,
    }
}

/// What ends a run of ordinary characters.
enum RunEnd<'a> {
    /// The end of the line, or a backslash before a character that stands for nothing.
    Broken,
    /// The closing quote; what follows it.
    Quote(&'a str),
    /// A character that was escaped; what follows it.
    Escaped(char, &'a str),
}

/// Cuts a text before its first quote or backslash, or at its end.
fn split_run(text: &str) -> (&str, &str)
    ensures value { quoted false text.now ≡ behind result.0.now (quoted false result.1.now) }
    ensures stops { prefix_len is_ordinary result.1.now ≡ 0 }
    ensures within { length result.1.now ≤ length text.now }
{
    let at = special_at(text.as_bytes());
    (text_to(text, at), text_from(text, at))
}

/// What stands where a run ends.
fn run_end(tail: &str) -> RunEnd<'_>
    requires { prefix_len is_ordinary tail.now ≡ 0 }
    ensures { IsRunEnd tail.now result }
{
    let bytes = tail.as_bytes();
    if bytes.is_empty() {
        return RunEnd::Broken;
    }
    if bytes[0] == b'"' {
        return RunEnd::Quote(text_from(tail, 1));
    }
    if bytes.len() == 1 {
        return RunEnd::Broken;
    }
    match escaped(bytes[1]) {
        None => RunEnd::Broken,
        Some(meant) => RunEnd::Escaped(meant, text_from(tail, 2)),
    }
}

/// The text before a closing quote, where blanks or a comment follow the quote.
fn closed(text: String, rest: &str) -> Option<Text>
    ensures { result ≡ (if may_follow_quote rest.now then Some (string_bytes text) else None) }
{
    if is_nothing_or_comment(past_blanks(rest)) {
        Some(Text::from_string(text))
    } else {
        None
    }
}

/// What stands up to the closing quote, where blanks or a comment follow that; none where it is no
/// scalar.
pub(crate) fn quoted(alloc: Global, text: &str) -> Result<Option<Text>, NoMemory>
    ensures { IfOk result (λ scalar. scalar ≡ quoted false text.now) }
{
    let mut out = String::new(alloc);
    let mut rest = text;
    loop {
        let (run, tail) = split_run(rest);
        push_text(&mut out, run)?;
        match run_end(tail) {
            RunEnd::Broken => return Ok(None),
            RunEnd::Quote(after) => return Ok(closed(out, after)),
            RunEnd::Escaped(c, after) => {
                push_ascii(&mut out, c)?;
                rest = after;
            }
        }
    }
}
