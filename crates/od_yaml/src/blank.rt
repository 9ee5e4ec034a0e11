//! Blanks, which are spaces and tabs, and the lines that say nothing.
ghost use Rattle.std.specs.Prelude.{◌≡◌, ◌<◌, ◌≤◌, length, take, slice_index};
ghost use Rattle.std.specs.List.{prefix_len};
ghost use Rattle.od_rule_text.specs.Blanks.{is_blank, is_blank_line, is_nothing_or_comment};
ghost use Rattle.od_rule_text.specs.Blanks.{indentation, past_blanks, says_nothing};
ghost use Rattle.od_rule_text.specs.Blanks.{without_last, without_outer_blanks};

use crate::part::{text_from, text_to};

/// Whether a byte is a blank.
pub(crate) fn is_blank(c: u8) -> bool
    ensures { result ≡ is_blank c }
{
    c == b' ' || c == b'\t'
}

/// How many spaces a line begins with.
pub(crate) fn indentation(line: &[u8]) -> usize
    ensures { result ≡ indentation line.now }
{
    for (i, c) in line.iter().enumerate() {
        if *c != b' ' {
            return i;
        }
    }
    line.len()
}

/// How many blanks a text begins with.
fn leading_blanks(text: &[u8]) -> usize
    ensures { result ≡ prefix_len is_blank text.now }
{
    for (i, c) in text.iter().enumerate() {
        if !is_blank(*c) {
            return i;
        }
    }
    text.len()
}

/// Where the blanks at the end of a text begin.
fn trailing_blanks_at(text: &[u8]) -> usize
    ensures within { result ≤ length text.now }
    ensures front { take result text.now ≡ without_last is_blank text.now }
    ensures ascii { result < length text.now → slice_index text.now result < 128 }
{
    let mut end = text.len();
    while 0 < end && is_blank(text[end - 1]) {
        end -= 1;
    }
    end
}

/// Whether a line has blanks alone.
pub(crate) fn is_blank_line(line: &str) -> bool
    ensures { result ≡ is_blank_line line.now }
{
    line.as_bytes().iter().all(|c| is_blank(*c))
}

/// A text without the blanks before it.
pub(crate) fn past_blanks(text: &str) -> &str
    ensures { result.now ≡ past_blanks text.now }
{
    let blanks = leading_blanks(text.as_bytes());
    text_from(text, blanks)
}

/// A text without the blanks before it and behind it.
pub(crate) fn without_outer_blanks(text: &str) -> &str
    ensures { result.now ≡ without_outer_blanks text.now }
{
    let inner = past_blanks(text);
    let end = trailing_blanks_at(inner.as_bytes());
    text_to(inner, end)
}

/// Whether nothing or a comment stands there.
pub(crate) fn is_nothing_or_comment(text: &str) -> bool
    ensures { result ≡ is_nothing_or_comment text.now }
{
    match text.as_bytes() {
        [] => true,
        [first, ..] => *first == b'#',
    }
}

/// Whether a line outside literals says nothing: it has blanks alone, or is a comment.
pub(crate) fn says_nothing(line: &str) -> bool
    ensures { result ≡ says_nothing line.now }
{
    is_nothing_or_comment(past_blanks(line))
}
