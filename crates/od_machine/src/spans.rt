//! The labelled spans of a sentence in the order of their places, so that those that begin at a
//! token are found by look-up.
ghost use Rattle.std.specs.Prelude.{◌≡◌, ◌≤◌, ◌<◌, ◌+◌, ◌⊎◌, ◌++◌, ◌∷◌, [], length, List as Seq, bytes_eq, slice_index_or, vec_len, OnOk, IfOk};
ghost use Rattle.od_extraction.specs.declared.mention.Labelled.{Labelled as Spanned};
ghost use Rattle.od_machine.specs.Spans.{names_at, Lists, AreInOrder, IsSpanIndex, AreFrom, Taken, Left};

use crate::thread::Thread;
use od_extraction::mention::Labelled;
use od_text::text::{NoMemory, Text};
use std::alloc::Global;

/// Where a labelled span lies.
#[derive(Clone, Copy, Drop)]
pub(crate) struct SpanEntry {
    /// Its first token.
    pub start: u32,
    /// The token behind its last one.
    pub end: u32,
    /// Its number in the list that the index was made of, from 0.
    pub number: usize,
}

/// Whether two texts are one.
#[tactic(auto, using(crate::proofs::Names::same_decides))]
fn is_named(label: &Text, name: &Text) -> bool
    ensures { result ≡ bytes_eq label.now name.now }
{
    label.same(name)
}

/// Whether the labelled span of this number has the label.
fn has_label(labels: &[Labelled], number: usize, name: &Text) -> bool
    ensures { result ≡ names_at labels.now number name.now }
{
    match labels.get(number) {
        Some(labelled) => is_named(&labelled.label, name),
        None => false,
    }
}

/// An entry for each labelled span, in the order of the list.
fn list_spans(labels: &[Labelled], entries: &mut Vec<SpanEntry>) -> Result<(), NoMemory>
    ensures { OnOk result (Lists labels.now entries.new.items) }
{
    entries.clear();
    for number in 0..labels.len() {
        let span = labels[number].span;
        entries.push(SpanEntry {
            start: span.start,
            end: span.end,
            number,
        })?;
    }
    Ok(())
}

/// Puts the entries in the order of their starts, and those with one start in that of their ends.
fn put_in_order(entries: &mut Vec<SpanEntry>) -> Result<(), NoMemory>
    ensures order { OnOk result (AreInOrder entries.new.items) }
    ensures same { OnOk result ((labels : Seq Spanned)
        → Lists labels entries.old.items → Lists labels entries.new.items) }
{
    entries.sort_by_key(|entry| entry.end)?;
    entries.sort_by_key(|entry| entry.start)?;
    Ok(())
}

/// An index of the labelled spans of a sentence: made once, and lent to each scan of the sentence.
#[derive(Drop)]
pub struct SpanIndex {
    pub(crate) entries: Vec<SpanEntry>,
}

impl SpanIndex {
    /// The index of no span.
    pub fn new(alloc: Global) -> SpanIndex
        ensures { IsSpanIndex [] result }
    {
        SpanIndex {
            entries: Vec::new(alloc),
        }
    }

    /// Makes it the index of these spans, whatever it was before. Want of memory is the only error;
    /// after it the index is to be set again.
    pub fn set(&mut self, labels: &[Labelled]) -> Result<(), NoMemory>
        ensures { OnOk result (IsSpanIndex labels.now self.new) }
    {
        list_spans(labels, &mut self.entries)?;
        put_in_order(&mut self.entries)
    }
}

/// The entries of the spans that begin at the token or later.
pub(crate) fn entries_from(entries: &[SpanEntry], at: usize) -> &[SpanEntry]
    requires { AreInOrder entries.now }
    ensures { (labels : Seq Spanned) → Lists labels entries.now → AreFrom labels at result.now }
{
    let first = entries.partition_point(|entry| (entry.start as usize) < at);
    &entries[first..]
}

/// Adds a thread behind the span if it has the label, ends within the sentence and goes farther
/// than `reach`. Returns how far the spans that were taken go now.
pub(crate) fn take_span(
    name: &Text,
    tokens: usize,
    labels: &[Labelled],
    entry: SpanEntry,
    reach: usize,
    pc: usize,
    events: usize,
    threads: &mut Vec<Thread>,
) -> Result<usize, NoMemory>
    ensures taken { IfOk result (λ next.
        Taken labels.now name.now tokens entry reach pc events next
        threads.old.items threads.new.items
        ⊎ Left labels.now name.now tokens entry reach next threads.old.items threads.new.items) }
    ensures few { IfOk result (λ next. vec_len threads.new + reach ≤ vec_len threads.old + next) }
{
    let end = entry.end as usize;
    if end > reach && end <= tokens && has_label(labels, entry.number, name) {
        threads.push(Thread {
            pc,
            taken: true,
            at: end,
            events,
        })?;
        Ok(end)
    } else {
        Ok(reach)
    }
}
