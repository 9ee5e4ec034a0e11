//! The text of a span of tokens.
ghost use Rattle.std.specs.Prelude.{◌≡◌, ◌<◌, ◌≤◌, length, IsSomeAnd, IfOk, slice_get, string_bytes};
ghost use Rattle.od_line.specs.Mentions.{text_in};
ghost use Rattle.od_lines.specs.Words.{tokens_of};

use od_pattern::pattern::Field;
use od_postings::IdSentence;
use std::alloc::{AllocError, Global};

/// The word of a token. Tokens are numbered from 0 and below the number of tokens.
fn word_of(words: &IdSentence, token: u32) -> &str
    requires { token < length words.now.sentence.tokens }
    ensures { IsSomeAnd (slice_get words.now.sentence.tokens token) (λ t. t.word ≡ result.now) }
{
    let number = words.number(token, Field::Word).unwrap();
    words.table().text(number).1
}

/// The words from a start to an end that is not included, joined by one space.
fn joined_words(
    alloc: Global,
    words: &IdSentence,
    start: u32,
    end: u32,
) -> Result<String, AllocError>
    requires { end ≤ length words.now.sentence.tokens }
    ensures { IfOk result (λ text.
        string_bytes text ≡ text_in words.now.sentence.tokens start end) }
{
    let mut text = String::new(alloc);
    for token in start..end {
        if token > start {
            text.push(' ')?;
        }
        text.push_str(word_of(words, token))?;
    }
    Ok(text)
}

/// The words from a start to an end that is not included, as far as they are there, joined by one
/// space. Where there is no sentence there are none.
pub fn span_text(
    alloc: Global,
    words: Option<&IdSentence>,
    start: u32,
    end: u32,
) -> Result<String, AllocError>
    ensures { IfOk result (λ text. string_bytes text ≡ text_in (tokens_of words.entry) start end) }
{
    match words {
        None => Ok(String::new(alloc)),
        Some(words) => joined_words(alloc, words, start, end.min(words.len())),
    }
}
