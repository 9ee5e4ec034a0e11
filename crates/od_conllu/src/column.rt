// What the text of a column says.
ghost use Rattle.std.specs.Prelude.{◌≡◌, ◌<◌, IfOk, IfSome};
ghost use Rattle.std.specs.Option.{option_map};
ghost use Rattle.od_document.specs.Columns.{node_number, digits_after, word_id, governor_of};
ghost use Rattle.od_document.specs.Columns.{is_range_or_empty_node, is_range, is_empty_node};
ghost use Rattle.od_document.specs.Columns.{column_value, edge_label};
ghost use Rattle.od_text.specs.Cuts.{split_once, both, CutsAt};
ghost use Rattle.od_text.specs.Folding.{fold_text};

use caseless::default_case_fold_str;
use od_document::limits::NODE_NUMBERS;
use od_text::text::{NoMemory, Text};
use std::alloc::Global;

/// The text before the first `c` and the text after it, where there is one.
#[tactic(auto, using(od_text::proofs::Cuts::cuts_once))]
pub fn cut<'a>(text: &'a str, c: char) -> Option<(&'a str, &'a str)>
    requires { c < 128 }
    ensures once { split_once c text.now ≡ option_map both result }
    ensures parts { CutsAt c text.now result }
{
    text.split_once(c)
}

/// The number whose digits are those of `n` and then these, where it is not too great.
fn digits(n: u32, text: &[u8]) -> Option<u32>
    requires { n < NODE_NUMBERS }
    ensures is { result ≡ digits_after n text.now }
    ensures small { IfSome result (λ m. m < NODE_NUMBERS) }
{
    match text {
        [] => Some(n),
        [c, rest @ ..] => {
            if !c.is_ascii_digit() {
                return None;
            }
            let more = n * 10 + u32::from(*c - b'0');
            if more < NODE_NUMBERS {
                digits(more, rest)
            } else {
                None
            }
        }
    }
}

/// A number of a node: one to six digits without a leading zero, or `0`.
fn node_number(text: &str) -> Option<u32>
    ensures is { result ≡ node_number text.now }
    ensures small { IfSome result (λ m. m < NODE_NUMBERS) }
{
    let text = text.as_bytes();
    if text.is_empty() {
        return None;
    }
    if text[0] == b'0' && 1 < text.len() {
        return None;
    }
    digits(0, text)
}

/// The ID of a word, a number from 1.
pub fn word_id(text: &str) -> Option<u32>
    ensures is { result ≡ word_id text.now }
    ensures small { IfSome result (λ m. m < NODE_NUMBERS) }
{
    let n = node_number(text)?;
    if n == 0 { None } else { Some(n) }
}

/// Whether it is the ID of a range line.
fn is_range(text: &str) -> bool
    ensures { result ≡ is_range (split_once 45 text.now) }
{
    let Some((from, to)) = cut(text, '-') else {
        return false;
    };
    match (word_id(from), word_id(to)) {
        (Some(first), Some(last)) => first <= last,
        _ => false,
    }
}

/// Whether it is the ID of an empty node.
fn is_empty_node(text: &str) -> bool
    ensures { result ≡ is_empty_node (split_once 46 text.now) }
{
    match cut(text, '.') {
        None => false,
        Some((after, place)) => node_number(after).is_some() && word_id(place).is_some(),
    }
}

/// Whether it is the ID of a range line or of an empty node.
pub fn is_range_or_empty_node(text: &str) -> bool
    ensures { result ≡ is_range_or_empty_node text.now }
{
    is_range(text) || is_empty_node(text)
}

/// The number that HEAD names, 0 for none; none where it is neither `_` nor a number.
pub fn governor(text: &str) -> Option<u32>
    ensures is { result ≡ governor_of text.now }
    ensures small { IfSome result (λ m. m < NODE_NUMBERS) }
{
    if text == "_" {
        return Some(0);
    }
    node_number(text)
}

/// The value of a column, none where it is `_` or empty.
pub fn value(alloc: Global, text: &str) -> Result<Option<Text>, NoMemory>
    ensures { IfOk result (λ v. v ≡ column_value text.now) }
{
    if text.is_empty() || text == "_" {
        return Ok(None);
    }
    Ok(Some(Text::from_str(alloc, text)?))
}

/// The label that DEPREL gives, `_` where it is empty.
pub fn label(alloc: Global, text: &str) -> Result<Text, NoMemory>
    ensures { IfOk result (λ t. t ≡ edge_label text.now) }
{
    if text.is_empty() {
        return Text::from_str(alloc, "_");
    }
    Text::from_str(alloc, text)
}

/// The text after Unicode's default case folding.
pub fn fold(alloc: Global, text: &str) -> Result<Text, NoMemory>
    ensures { IfOk result (λ t. t ≡ fold_text text.now) }
{
    let folded = default_case_fold_str(alloc, text)?;
    Text::from_str(alloc, folded.as_str())
}
