//! Reading a list of mentions.
ghost use Rattle.std.specs.Prelude.{◌≡◌, ◌-◌, List, Option, IfOk, Ok, length};
ghost use Rattle.od_extraction.specs.declared.mention.Mention.{Mention};
ghost use Rattle.od_stored.specs.Answers.{Gives};
ghost use Rattle.od_stored.specs.Mentions.{IsList, list_bytes};
ghost use Rattle.od_stored.specs.ReadMentions.{label_at, part_end_at, mention_end_at, part_at};
ghost use Rattle.od_stored.specs.ReadMentions.{counted_at, list_read, mention_at};
ghost use Rattle.od_stored.specs.Steps.{in_a_row};
ghost use Rattle.od_stored.specs.Texts.{number_at, place, text_at};

use crate::writing::VERSION;
use od_extraction::mention::{Mention, Part};
use od_stored::fault::{CodecFault, NumberFault};
use od_stored::number::number_read;
use od_text::list::List;
use od_text::text::Text;
use std::alloc::Global;

/// Where the rest of so many bytes begins.
fn place(total: usize, rest: &[u8]) -> u64
    ensures { result ≡ place total rest.now }
{
    total.saturating_sub(rest.len()) as u64
}

/// The number at the front of the rest of so many bytes.
#[tactic(auto, unfolding(od_stored::specs::Texts::number_at))]
fn number(total: usize, bytes: &[u8]) -> Result<(u32, &[u8]), CodecFault>
    ensures { Gives (λ x. (x.0, x.1.now)) result (number_at total bytes.now) }
{
    match number_read(bytes) {
        Ok(read) => Ok(read),
        Err(NumberFault::Ends) => Err(CodecFault::Short { at: total as u64 }),
        Err(NumberFault::Wrong) => Err(CodecFault::BadNumber {
            at: place(total, bytes),
        }),
    }
}

/// The text at the front of the rest of so many bytes.
#[tactic(auto, unfolding(od_stored::specs::Texts::text_at))]
fn text(alloc: Global, total: usize, bytes: &[u8]) -> Result<(Text, &[u8]), CodecFault>
    ensures { Gives (λ x. (x.0, x.1.now)) result (text_at total bytes.now) }
{
    let (size, rest) = number(total, bytes)?;
    let size = size as usize;
    if rest.len() < size {
        return Err(CodecFault::Short { at: total as u64 });
    }
    let (front, rest) = rest.split_at(size);
    match str::from_utf8(front) {
        Ok(text) => Ok((Text::from_str(alloc, text)?, rest)),
        Err(_) => Err(CodecFault::BadText {
            at: place(total, bytes),
        }),
    }
}

/// The label, or that there is none, at the front of the rest of so many bytes.
#[tactic(auto, unfolding(od_stored::specs::ReadMentions::label_at))]
fn label(alloc: Global, total: usize, bytes: &[u8]) -> Result<(Option<Text>, &[u8]), CodecFault>
    ensures { Gives (λ x. (x.0, x.1.now)) result (label_at total bytes.now) }
{
    match bytes {
        [] => Err(CodecFault::Short { at: total as u64 }),
        [0, rest @ ..] => Ok((None, rest)),
        [1, rest @ ..] => {
            let (label, rest) = text(alloc, total, rest)?;
            Ok((Some(label), rest))
        }
        [_, ..] => Err(CodecFault::BadTag {
            at: place(total, bytes),
        }),
    }
}

/// The end of a part that starts at `start`, which it is not before.
#[tactic(auto, unfolding(od_stored::specs::ReadMentions::part_end_at))]
fn part_end(total: usize, start: u32, bytes: &[u8]) -> Result<(u32, &[u8]), CodecFault>
    ensures { Gives (λ x. (x.0, x.1.now)) result (part_end_at total start bytes.now) }
{
    let (end, rest) = number(total, bytes)?;
    if end < start {
        return Err(CodecFault::BadSpan {
            at: place(total, bytes),
        });
    }
    Ok((end, rest))
}

/// The end of a mention that starts at `start`, behind which it is.
#[tactic(auto, unfolding(od_stored::specs::ReadMentions::mention_end_at))]
fn mention_end(total: usize, start: u32, bytes: &[u8]) -> Result<(u32, &[u8]), CodecFault>
    ensures { Gives (λ x. (x.0, x.1.now)) result (mention_end_at total start bytes.now) }
{
    let (end, rest) = number(total, bytes)?;
    if end <= start {
        return Err(CodecFault::BadSpan {
            at: place(total, bytes),
        });
    }
    Ok((end, rest))
}

/// The part at the front of the rest of so many bytes.
#[tactic(auto, unfolding(od_stored::specs::ReadMentions::part_at))]
fn part(alloc: Global, total: usize, bytes: &[u8]) -> Result<(Part, &[u8]), CodecFault>
    ensures { Gives (λ x. (x.0, x.1.now)) result (part_at total bytes.now) }
{
    let (name, rest) = text(alloc, total, bytes)?;
    let (label, rest) = label(alloc, total, rest)?;
    let (start, rest) = number(total, rest)?;
    let (end, rest) = part_end(total, start, rest)?;
    let part = Part {
        name,
        label,
        start,
        end,
    };
    Ok((part, rest))
}

/// So many parts in a row. Room is made for a part only once it was read.
fn parts(
    alloc: Global,
    total: usize,
    count: u32,
    bytes: &[u8],
) -> Result<(List<Part>, &[u8]), CodecFault>
    ensures { Gives (λ x. (x.0, x.1.now)) result (in_a_row (part_at total) count bytes.now) }
{
    let mut parts = List::new(alloc);
    let mut rest = bytes;
    for _ in 0..count {
        let (part, after) = part(alloc, total, rest)?;
        parts.push(part)?;
        rest = after;
    }
    Ok((parts, rest))
}

/// The mention at the front of the rest of so many bytes.
#[tactic(auto, unfolding(od_stored::specs::ReadMentions::mention_at, od_stored::specs::ReadMentions::counted_at))]
fn mention(alloc: Global, total: usize, bytes: &[u8]) -> Result<(Mention, &[u8]), CodecFault>
    ensures { Gives (λ x. (x.0, x.1.now)) result (mention_at total bytes.now) }
{
    let (document, rest) = number(total, bytes)?;
    let (sentence, rest) = number(total, rest)?;
    let (start, rest) = number(total, rest)?;
    let (end, rest) = mention_end(total, start, rest)?;
    let (label, rest) = text(alloc, total, rest)?;
    let (rule, rest) = text(alloc, total, rest)?;
    let (count, rest) = number(total, rest)?;
    let (parts, rest) = parts(alloc, total, count, rest)?;
    let mention = Mention {
        document,
        sentence,
        start,
        end,
        label,
        rule,
        parts,
    };
    Ok((mention, rest))
}

/// So many mentions in a row. Room is made for a mention only once it was read.
fn mentions(
    alloc: Global,
    total: usize,
    count: u32,
    bytes: &[u8],
) -> Result<(List<Mention>, &[u8]), CodecFault>
    ensures { Gives (λ x. (x.0, x.1.now)) result (in_a_row (mention_at total) count bytes.now) }
{
    let mut mentions = List::new(alloc);
    let mut rest = bytes;
    for _ in 0..count {
        let (mention, after) = mention(alloc, total, rest)?;
        mentions.push(mention)?;
        rest = after;
    }
    Ok((mentions, rest))
}

/// The mentions that all of the bytes are, or their first fault.
#[tactic(auto, unfolding(od_stored::specs::ReadMentions::list_read, od_stored::specs::ReadMentions::counted_at))]
fn read(alloc: Global, bytes: &[u8]) -> Result<List<Mention>, CodecFault>
    ensures { Gives (λ list. list) result (list_read bytes.now) }
{
    let total = bytes.len();
    match bytes {
        [] => Err(CodecFault::Short { at: 0 }),
        [VERSION, rest @ ..] => {
            let (count, rest) = number(total, rest)?;
            let (mentions, rest) = mentions(alloc, total, count, rest)?;
            if rest.is_empty() {
                Ok(mentions)
            } else {
                Err(CodecFault::Trailing {
                    at: place(total, rest),
                })
            }
        }
        [_, ..] => Err(CodecFault::BadTag { at: 0 }),
    }
}

/// The list of mentions that the bytes are, all of them, as `encode` writes it.
///
/// Bytes that are no list are refused with their first fault. Memory is taken for what was read,
/// never for what a count promises.
pub fn decode(alloc: Global, bytes: &[u8]) -> Result<List<Mention>, CodecFault>
    // What is read is written so.
    ensures found { IfOk result (λ list. (bytes.now ≡ list_bytes list) × IsList list) }
    // What is written so is read, but that memory may be refused.
    ensures only { (list : List Mention) → IsList list → bytes.now ≡ list_bytes list →
        Gives (λ x. x) result (Ok list) }
    // Which fault it is.
    ensures exact { Gives (λ list. list) result (list_read bytes.now) }
{
    read(alloc, bytes)
}
