//! The lines of mentions, each written straight into the output: a print has one for each mention
//! of its session.
ghost use Rattle.std.specs.Prelude.{◌≡◌, ◌<◌, ◌++◌, map, flat_map, codes, IfOk, OnOk};
ghost use Rattle.serde_json.specs.Data.{array};
ghost use Rattle.serde_json.specs.View.{items_of};
ghost use Rattle.od_line.specs.Data.{count, word, word_or_null};
ghost use Rattle.od_line.specs.Mentions.{text_in, part_data, mention_data, line_in, mention_line};
ghost use Rattle.od_extraction.specs.Joined.{joined};
ghost use Rattle.od_lines.specs.Tokens.{member_tokens, value_tokens};
ghost use Rattle.od_lines.specs.Words.{tokens_of};

use crate::lines::words::span_text;
use json::Writer;
use od_committed::Committed;
use od_extraction::mention::{Mention, Part};
use od_postings::IdSentence;
use od_segment::Steps;
use od_text::list::List;
use od_text::text::{Bytes, NoMemory, Text};
use std::alloc::{AllocError, Global};
use std::marker::Brand;
use std::sync::ledger::{Blank, Ledger};

/// The lines of a session: one for each mention, in the order in which the rounds added them. A
/// mention in no document of `docs` has none.
pub fn session_lines(
    alloc: Global,
    session: &Text,
    docs: &[Committed],
    rounds: &[List<Mention>],
) -> Result<Bytes, NoMemory>
    ensures { IfOk result (λ lines.
        lines ≡ flat_map (mention_line session.now docs.now) (joined rounds.now)) }
{
    counted_lines::<Brand>(alloc, session, docs, rounds, Blank::new(1))
}

/// The lines of a session, with a counter of the sentences that are opened.
fn counted_lines<L: Ledger>(
    alloc: Global,
    session: &Text,
    docs: &[Committed],
    rounds: &[List<Mention>],
    blank: Blank,
) -> Result<Bytes, NoMemory>
    requires name { blank.name ≡ L.name }
    requires parts { blank.parts ≡ L.parts }
    requires some { 0 < blank.parts }
    ensures { IfOk result (λ lines.
        lines ≡ flat_map (mention_line session.now docs.now) (joined rounds.now)) }
{
    let mut steps = Steps::<L>::open(blank);
    let mut lines = Vec::new(alloc);
    for round in rounds {
        lines = add_mentions(lines, alloc, session, docs, round.get(), &mut steps)?;
    }
    Ok(Bytes::from_vec(lines))
}

/// The output with the lines of one round's mentions.
fn add_mentions<L: Ledger>(
    out: Vec<u8>,
    alloc: Global,
    session: &Text,
    docs: &[Committed],
    mentions: &[Mention],
    steps: &mut Steps<L>,
) -> Result<Vec<u8>, AllocError>
    ensures { IfOk result (λ lines.
        lines.items ≡ out.items ++ flat_map (mention_line session.now docs.now) mentions.now) }
{
    let mut lines = out;
    for mention in mentions {
        lines = add_mention(lines, alloc, session, docs, mention, steps)?;
    }
    Ok(lines)
}

/// The output with the line of a mention, where its document is there.
#[tactic(auto, unfolding(od_line::specs::Mentions::mention_line))]
fn add_mention<L: Ledger>(
    out: Vec<u8>,
    alloc: Global,
    session: &Text,
    docs: &[Committed],
    mention: &Mention,
    steps: &mut Steps<L>,
) -> Result<Vec<u8>, AllocError>
    ensures { IfOk result (λ lines.
        lines.items ≡ out.items ++ mention_line session.now docs.now mention.now) }
{
    match docs.get(mention.document as usize) {
        None => Ok(out),
        Some(doc) => add_line(out, alloc, session, doc, mention, steps),
    }
}

/// The output with the line of a mention in this document.
fn add_line<L: Ledger>(
    out: Vec<u8>,
    alloc: Global,
    session: &Text,
    doc: &Committed,
    mention: &Mention,
    steps: &mut Steps<L>,
) -> Result<Vec<u8>, AllocError>
    ensures { IfOk result (λ lines.
        lines.items ≡ out.items ++ line_in session.now (Some doc.now) mention.now) }
{
    let words = doc.sentence(mention.sentence, steps);
    let mut line = Writer::new(out);
    write_mention(&mut line, alloc, session, doc.name(), words, mention)?;
    let mut lines = line.into_inner();
    lines.push(b'\n')?;
    Ok(lines)
}

/// Writes a key and a number.
fn write_count(line: &mut Writer, key: &str, number: u32) -> Result<(), AllocError>
    ensures tokens { OnOk result (line.new.tokens ≡ line.old.tokens
        ++ member_tokens key.now (count number)) }
    ensures before { line.new.before ≡ line.old.before }
{
    line.key(key)?;
    line.u64(u64::from(number))
}

/// Writes a key and a text.
fn write_word(line: &mut Writer, key: &str, text: &Text) -> Result<(), AllocError>
    ensures tokens { OnOk result (line.new.tokens ≡ line.old.tokens
        ++ member_tokens key.now (word text.now)) }
    ensures before { line.new.before ≡ line.old.before }
{
    line.key(key)?;
    line.string(text.get())
}

/// Writes the label of an argument, which may be absent.
fn write_label(line: &mut Writer, label: &Option<Text>) -> Result<(), AllocError>
    ensures tokens { OnOk result (line.new.tokens ≡ line.old.tokens
        ++ member_tokens (codes "label") (word_or_null label.now)) }
    ensures before { line.new.before ≡ line.old.before }
{
    line.key("label")?;
    match label {
        None => line.null(),
        Some(text) => line.string(text.get()),
    }
}

/// Writes the words from a start to an end that is not included.
fn write_text(
    line: &mut Writer,
    alloc: Global,
    words: Option<&IdSentence>,
    start: u32,
    end: u32,
) -> Result<(), AllocError>
    ensures tokens { OnOk result (line.new.tokens ≡ line.old.tokens
        ++ member_tokens (codes "text") (word (text_in (tokens_of words.entry) start end))) }
    ensures before { line.new.before ≡ line.old.before }
{
    let text = span_text(alloc, words, start, end)?;
    line.key("text")?;
    line.string(text.as_str())
}

/// Writes an argument.
fn write_part(
    line: &mut Writer,
    alloc: Global,
    words: Option<&IdSentence>,
    part: &Part,
) -> Result<(), AllocError>
    ensures tokens { OnOk result (line.new.tokens ≡ line.old.tokens
        ++ value_tokens (part_data (tokens_of words.entry) part.now)) }
    ensures before { line.new.before ≡ line.old.before }
{
    line.begin_object()?;
    write_count(line, "end", part.end)?;
    write_label(line, &part.label)?;
    write_word(line, "name", &part.name)?;
    write_count(line, "start", part.start)?;
    write_text(line, alloc, words, part.start, part.end)?;
    line.end_object()
}

/// Writes the arguments.
fn write_parts(
    line: &mut Writer,
    alloc: Global,
    words: Option<&IdSentence>,
    parts: &List<Part>,
) -> Result<(), AllocError>
    ensures tokens { OnOk result (line.new.tokens ≡ line.old.tokens
        ++ member_tokens (codes "arguments") (array (items_of (map (part_data (tokens_of words.entry)) parts.now)))) }
    ensures before { line.new.before ≡ line.old.before }
{
    line.key("arguments")?;
    line.begin_array()?;
    for part in parts.get() {
        write_part(line, alloc, words, part)?;
    }
    line.end_array()
}

/// Writes a mention of a session, in the document of this name, over the words of its sentence.
fn write_mention(
    line: &mut Writer,
    alloc: Global,
    session: &Text,
    document: &Text,
    words: Option<&IdSentence>,
    mention: &Mention,
) -> Result<(), AllocError>
    ensures tokens { OnOk result (line.new.tokens ≡ line.old.tokens
        ++ value_tokens (mention_data session.now document.now (tokens_of words.entry) mention.now)) }
    ensures before { line.new.before ≡ line.old.before }
{
    line.begin_object()?;
    write_parts(line, alloc, words, &mention.parts)?;
    write_word(line, "document", document)?;
    write_count(line, "end", mention.end)?;
    write_word(line, "label", &mention.label)?;
    write_word(line, "rule", &mention.rule)?;
    write_count(line, "sentence", mention.sentence)?;
    write_word(line, "session", session)?;
    write_count(line, "start", mention.start)?;
    write_text(line, alloc, words, mention.start, mention.end)?;
    line.end_object()
}
