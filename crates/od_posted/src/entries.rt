//! The entries of a sentence: at each token the numbers of its terms.
ghost use Rattle.std.specs.Prelude.{◌≡◌, ◌++◌, ◌<◌, length, slice_get, OnOk};
ghost use Rattle.od_posted.specs.Chains.{AreChainsOf, labels_at, own_marks, own_term};
ghost use Rattle.od_posted.specs.Entries.{marks_of, marks_at, marks_here, sentence_marks};

use crate::chains::{Chains, End};
use crate::numbered::Numbered;
use od_pattern::pattern::Field;
use od_text::text::NoMemory;
use std::alloc::Global;

/// A number of a table, and the sentence and the token at which its term stands.
pub(crate) type Entry = (u32, (u32, u32));

/// The entry of a token's own text in a field, where it has one.
fn put_own(
    entries: &mut Vec<Entry>,
    at: &Numbered<'_>,
    token: u32,
    field: Field,
) -> Result<(), NoMemory>
    requires { token < length at.now.sentence.tokens }
    ensures { OnOk result (marks_of at.now.table entries.new.items
        ≡ marks_of at.now.table entries.old.items
        ++ marks_at (at.now.number, token)
        (own_term field (slice_get at.now.sentence.tokens token))) }
{
    if let Some(number) = at.sentence().number(token, field) {
        entries.push((number, (at.number(), token)))?;
    }
    Ok(())
}

/// The entries of a token's own texts.
fn put_all_own(entries: &mut Vec<Entry>, at: &Numbered<'_>, token: u32) -> Result<(), NoMemory>
    requires { token < length at.now.sentence.tokens }
    ensures { OnOk result (marks_of at.now.table entries.new.items
        ≡ marks_of at.now.table entries.old.items
        ++ own_marks (at.now.number, token)
        (slice_get at.now.sentence.tokens token)) }
{
    put_own(entries, at, token, Field::Word)?;
    put_own(entries, at, token, Field::Norm)?;
    put_own(entries, at, token, Field::Lemma)?;
    put_own(entries, at, token, Field::Upos)?;
    put_own(entries, at, token, Field::Tag)?;
    put_own(entries, at, token, Field::Entity)?;
    put_own(entries, at, token, Field::Chunk)?;
    Ok(())
}

/// The entries of the labels of the edges that have an end at a token.
fn put_labels(
    entries: &mut Vec<Entry>,
    at: &Numbered<'_>,
    token: u32,
    chains: &Chains,
) -> Result<(), NoMemory>
    requires token { token < length at.now.sentence.tokens }
    requires chains { AreChainsOf at.now.sentence chains.now }
    ensures { OnOk result (marks_of at.now.table entries.new.items
        ≡ marks_of at.now.table entries.old.items
        ++ marks_at (at.now.number, token)
        (labels_at chains.now.end token at.now.sentence.edges)) }
{
    let mut place = chains.first(token);
    while place < at.sentence().edge_count() {
        let label = at.label(chains.end, place);
        entries.push((label, (at.number(), token)))?;
        place = chains.next(place);
    }
    Ok(())
}

/// The entries of a token.
fn put_token(
    entries: &mut Vec<Entry>,
    at: &Numbered<'_>,
    token: u32,
    ended: &Chains,
    begun: &Chains,
) -> Result<(), NoMemory>
    requires token { token < length at.now.sentence.tokens }
    requires ended { AreChainsOf at.now.sentence ended.now × (ended.now.end ≡ End.Dependent) }
    requires begun { AreChainsOf at.now.sentence begun.now × (begun.now.end ≡ End.Governor) }
    ensures { OnOk result (marks_of at.now.table entries.new.items
        ≡ marks_of at.now.table entries.old.items
        ++ marks_here at.now.number at.now.sentence token
        (slice_get at.now.sentence.tokens token)) }
{
    put_all_own(entries, at, token)?;
    put_labels(entries, at, token, ended)?;
    put_labels(entries, at, token, begun)?;
    Ok(())
}

/// The entries of a sentence. It is linear in its tokens and edges: nothing is sorted, and no text
/// is looked at.
pub(crate) fn put_sentence(
    alloc: Global,
    entries: &mut Vec<Entry>,
    at: &Numbered<'_>,
) -> Result<(), NoMemory>
    ensures { OnOk result (marks_of at.now.table entries.new.items
        ≡ marks_of at.now.table entries.old.items
        ++ sentence_marks (at.now.number, at.now.sentence)) }
{
    let ended = Chains::of(alloc, at.sentence(), End::Dependent)?;
    let begun = Chains::of(alloc, at.sentence(), End::Governor)?;
    for token in 0..at.sentence().len() {
        put_token(entries, at, token, &ended, &begun)?;
    }
    Ok(())
}
