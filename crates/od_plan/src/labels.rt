//! Sentences that have a mention with a label.
ghost use Rattle.std.specs.Prelude.{◌≡◌, ◌++◌, ◌∷◌, [], ◌<◌, length, map, slice_get, Some, filter, bytes_eq, IfOk, OnOk, if◌then◌else◌};
ghost use Rattle.std.specs.List.{list_any};
ghost use Rattle.od_plan.specs.Found.{label_at};

use crate::searched::Searched;
use od_extraction::mention::Mention;
use od_text::text::{NoMemory, Text};
use std::alloc::Global;

/// Whether one of the mentions has the label.
fn some_has(mentions: &[&Mention], name: &Text) -> bool
    ensures { result ≡ list_any (λ m. bytes_eq m.label name.now) (map (λ m. m.now) mentions.now) }
{
    for mention in mentions {
        if mention.label.same(name) {
            return true;
        }
    }
    false
}

/// Whether the sentence of a number has a mention with the label.
fn has_label(
    alloc: Global,
    searched: &Searched,
    sentence: u32,
    name: &Text,
) -> Result<bool, NoMemory>
    ensures { IfOk result (λ has. has ≡ label_at searched.now name.now sentence) }
{
    if sentence >= searched.segment.size() {
        return Ok(false);
    }
    let (document, number) = searched.segment.place(sentence);
    let mentions = searched
        .known
        .of_sentence(alloc, searched.first + document, number)?;
    Ok(some_has(&mentions, name))
}

/// One sentence more, where it is kept.
fn push_if(kept: &mut Vec<u32>, keep: bool, sentence: u32) -> Result<(), NoMemory>
    ensures { OnOk result (kept.new.items
        ≡ kept.old.items ++ (if keep then sentence ∷ [] else [])) }
{
    if keep {
        kept.push(sentence)?;
    }
    Ok(())
}

/// What stands at a place.
fn sentence_at(sentences: &[u32], place: usize) -> u32
    requires { place < length sentences.now }
    ensures { slice_get sentences.now place ≡ Some result }
{
    sentences[place]
}

/// Those with a mention of the label.
pub(crate) fn keep_label(
    alloc: Global,
    searched: &Searched,
    name: &Text,
    sentences: &[u32],
) -> Result<Vec<u32>, NoMemory>
    ensures { IfOk result (λ kept.
        kept.items ≡ filter (label_at searched.now name.now) sentences.now) }
{
    let mut kept = Vec::new(alloc);
    for place in 0..sentences.len() {
        let sentence = sentence_at(sentences, place);
        let keep = has_label(alloc, searched, sentence, name)?;
        push_if(&mut kept, keep, sentence)?;
    }
    Ok(kept)
}
