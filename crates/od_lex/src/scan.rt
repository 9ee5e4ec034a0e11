//! Runs of characters, and the texts that they spell.
ghost use Rattle.std.specs.Prelude.{◌≡◌, ℕ, ◌+◌, ◌-◌, ◌^◌, ◌<◌, ◌≤◌, List, [], ◌∷◌, ◌++◌, drop, take, length, Option, Some, None, Ok, MatchOption, IfOk, IfSome, OnOk, IsTrue, string_bytes, Bool, true, false, encode_utf8};
ghost use Rattle.std.specs.List.{prefix_len};
ghost use Rattle.std.specs.Str.{encode_utf8_all, chars as chars_in};
ghost use Rattle.od_language.specs.Forms as forms;
ghost use Rattle.od_language.specs.Identifier as identifier;
ghost use Rattle.od_language.specs.Spelling as spelling;
ghost use Rattle.od_lex.specs.Runs.{passes};
ghost use Rattle.od_lex.specs.Taken.{FoundIn};

use od_text::text::{NoMemory, Text};
use std::alloc::Global;

/// The characters of a text.
#[tactic(auto, using(std::proofs::lemmas::Str::chars_from_encodes))]
pub fn chars_of(alloc: Global, text: &str) -> Result<Vec<char>, NoMemory>
    ensures { IfOk result (λ v. v.items ≡ chars_in text.now) }
{
    Ok(text.chars().collect(alloc)?)
}

pub fn at(chars: &[char], i: usize) -> Option<char>
    ensures { MatchOption result (drop i chars.now ≡ [])
        (λ c. (drop i chars.now ≡ c ∷ drop (i + 1) chars.now) × (i < length chars.now)) }
{
    chars.get(i).copied()
}

pub fn begins_word(c: char) -> bool
    ensures { result ≡ spelling.begins_word c }
{
    c.is_ascii_alphanumeric() || c == '_' || (c as u32 >= 128 && !c.is_whitespace())
}

pub fn in_word(c: char) -> bool
    ensures { result ≡ spelling.in_word c }
{
    begins_word(c) || c == '-' || c == ':'
}

pub fn begins_identifier(c: char) -> bool
    ensures { result ≡ identifier.begins_identifier c }
{
    c.is_ascii_alphabetic() || c == '_'
}

pub fn in_identifier(c: char) -> bool
    ensures { result ≡ identifier.in_identifier c }
{
    c.is_ascii_alphanumeric() || c == '_'
}

/// Which characters a run has.
#[derive(Clone, Copy, Debug, PartialEq, Eq)]
pub enum Run {
    /// Those that go on with a word.
    Word,
    /// Those of an identifier.
    Name,
    /// The ASCII digits.
    Digits,
}

/// Whether a character goes on with a run.
fn goes_on(run: Run, c: char) -> bool
    ensures { result ≡ passes run c }
{
    match run {
        Run::Word => in_word(c),
        Run::Name => in_identifier(c),
        Run::Digits => c.is_ascii_digit(),
    }
}

/// Where a run ends.
#[tactic(auto, using(crate::proofs::Texts::prefix_most))]
fn run_end(chars: &[char], from: usize, run: Run) -> usize
    requires { from ≤ length chars.now }
    ensures within { result ≤ length chars.now }
    ensures value { result ≡ from + prefix_len (passes run) (drop from chars.now) }
{
    let mut i = from;
    while let Some(c) = at(chars, i) {
        if !goes_on(run, c) {
            return i;
        }
        i += 1;
    }
    i
}

/// The characters of a run at a place, and the place behind them.
#[tactic(auto, using(crate::proofs::Texts::prefix_most, crate::proofs::Texts::part_is, crate::proofs::Texts::rest_is))]
pub fn run_at(chars: &[char], from: usize, run: Run) -> (&[char], usize)
    requires { from ≤ length chars.now }
    ensures part { result.0.now ≡ take (prefix_len (passes run) (drop from chars.now)) (drop from chars.now) }
    ensures rest { drop result.1 chars.now ≡ drop (prefix_len (passes run) (drop from chars.now)) (drop from chars.now) }
    ensures within { (from ≤ result.1) × (result.1 ≤ length chars.now) }
{
    let end = run_end(chars, from, run);
    (&chars[from..end], end)
}

/// These characters at the end of a text.
#[tactic(auto, using(crate::proofs::Texts::spelled_more, std::proofs::Common::append_assoc))]
fn spell(text: &mut Text, part: &[char]) -> Result<(), NoMemory>
    ensures { OnOk result (text.new ≡ text.old ++ encode_utf8_all part.now) }
{
    for c in part {
        text.push(*c)?;
    }
    Ok(())
}

/// The text of these characters.
pub fn spelled(alloc: Global, part: &[char]) -> Result<Text, NoMemory>
    ensures { IfOk result (λ t. t ≡ encode_utf8_all part.now) }
{
    let mut text = Text::new(alloc);
    spell(&mut text, part)?;
    Ok(text)
}

/// The text of a character and these.
pub fn word_text(alloc: Global, first: char, part: &[char]) -> Result<Text, NoMemory>
    ensures { IfOk result (λ t. t ≡ encode_utf8 first ++ encode_utf8_all part.now) }
{
    let mut text = Text::new(alloc);
    text.push(first)?;
    spell(&mut text, part)?;
    Ok(text)
}

/// What stands up to the closing quote, and the place behind it.
#[tactic(auto, using(crate::proofs::Texts::before_more, crate::proofs::Texts::before_none))]
pub fn quoted(
    alloc: Global,
    chars: &[char],
    from: usize,
    quote: char,
) -> Result<Option<(Text, usize)>, NoMemory>
    ensures within { IfOk result (λ o. IfSome o (λ x. (from ≤ x.1) × (x.1 ≤ length chars.now))) }
    ensures value { FoundIn chars.now result (forms.quoted quote false (drop from chars.now)) }
{
    let mut text = Text::new(alloc);
    let mut escaped = false;
    let mut i = from;
    while let Some(c) = at(chars, i) {
        i += 1;
        if escaped {
            escaped = false;
            text.push(c)?;
            continue;
        }
        if c == quote {
            return Ok(Some((text, i)));
        }
        if c == '\\' {
            escaped = true;
            continue;
        }
        text.push(c)?;
    }
    Ok(None)
}

/// What stands up to the closing slash, and the place behind it.
#[tactic(auto, using(crate::proofs::Texts::before_more, crate::proofs::Texts::before_none))]
pub fn regex(alloc: Global, chars: &[char], from: usize) -> Result<Option<(Text, usize)>, NoMemory>
    ensures within { IfOk result (λ o. IfSome o (λ x. (from ≤ x.1) × (x.1 ≤ length chars.now))) }
    ensures value { FoundIn chars.now result (forms.regex false (drop from chars.now)) }
{
    let mut text = Text::new(alloc);
    let mut paired = false;
    let mut i = from;
    while let Some(c) = at(chars, i) {
        i += 1;
        if paired {
            paired = false;
            push_pair(&mut text, c)?;
            continue;
        }
        if c == '/' {
            return Ok(Some((text, i)));
        }
        if c == '\\' {
            paired = true;
            continue;
        }
        text.push(c)?;
    }
    Ok(None)
}

/// The pair of a backslash and a character; that of a slash is the slash alone.
fn push_pair(text: &mut Text, c: char) -> Result<(), NoMemory>
    ensures { OnOk result (text.new ≡ text.old ++ spelling.pair c) }
{
    if c == '/' {
        return text.push(c);
    }
    text.push('\\')?;
    text.push(c)
}
