//! Plain scalars.
ghost use Rattle.std.specs.Prelude.{◌≡◌};
ghost use Rattle.std.specs.Option.{option_map};
ghost use Rattle.od_rule_text.specs.Scalars.{before_comment, has_colon_space, is_indicator};
ghost use Rattle.od_rule_text.specs.Scalars.{is_plain, plain};
ghost use Rattle.od_yaml.specs.Comments.{comment_place, shown};

use crate::blank::{is_blank, without_outer_blanks};
use crate::part::{begins_with, text_to};

/// Where the first blank stands that `#` follows, or the end.
fn comment_at(text: &[u8]) -> usize
    ensures { result ≡ comment_place text.now }
{
    for (i, c) in text.iter().enumerate() {
        if is_blank(*c) && begins_with(&text[i + 1..], b'#') {
            return i;
        }
    }
    text.len()
}

/// The text before the first blank that `#` follows.
fn before_comment(text: &str) -> &str
    ensures { result.now ≡ before_comment text.now }
{
    let end = comment_at(text.as_bytes());
    text_to(text, end)
}

/// Whether `: ` stands somewhere.
fn has_colon_space(text: &[u8]) -> bool
    ensures { result ≡ has_colon_space text.now }
{
    for (i, c) in text.iter().enumerate() {
        if *c == b':' && begins_with(&text[i + 1..], b' ') {
            return true;
        }
    }
    false
}

/// Whether no plain scalar begins with this character.
fn is_indicator(c: u8) -> bool
    ensures { result ≡ is_indicator c }
{
    b"[]{},&*!|>'\"%@`#".contains(&c)
}

/// Whether a text without outer blanks may be a plain scalar.
fn is_plain(text: &[u8]) -> bool
    ensures { result ≡ is_plain text.now }
{
    match text {
        [] => false,
        [c, rest @ ..] => {
            !is_indicator(*c)
                && !((*c == b'-' || *c == b'?') && begins_with(rest, b' '))
                && !has_colon_space(text)
        }
    }
}

/// The plain scalar that the rest of a line is.
pub(crate) fn plain(rest: &str) -> Option<&str>
    ensures { plain rest.now ≡ option_map shown result }
{
    let text = without_outer_blanks(before_comment(rest));
    if is_plain(text.as_bytes()) {
        Some(text)
    } else {
        None
    }
}
