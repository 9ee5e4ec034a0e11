//! The sentences of a view at which a need occurs.
ghost use Rattle.std.specs.Prelude.{◌≡◌, ◌<◌, ◌+◌, ◌^◌, ◌∷◌, [], ◌++◌, length, map, filter, slice_get, Some, IfOk, OnOk, if◌then◌else◌};
ghost use Rattle.std.specs.List.{range_with_len};
ghost use Rattle.od_index.specs.Views.{site_at, sites_seen};
ghost use Rattle.od_need.specs.Candidates.{candidates as needed_at};
ghost use Rattle.od_need.specs.declared.need.Need.{Need};
ghost use Rattle.od_plan.specs.Chosen.{AreMeant, IsSearched, chosen_in, kept_in};
ghost use Rattle.od_segment.specs.Seen.{is_of_first, place_of};

use crate::searched::Searched;
use crate::seeking::all_of;
use crate::wanted::Wanted;
use od_mentions::State;
use od_segment::{Segment, SentenceRef, View};
use od_text::text::NoMemory;
use std::alloc::Global;

/// Whether the sentence of a number is of one of the first documents of a segment.
fn is_seen(segment: &Segment, index: u32, left: u32) -> bool
    ensures { result ≡ is_of_first left (slice_get segment.now.sites index) }
{
    if index >= segment.size() {
        return false;
    }
    let (document, _) = segment.place(index);
    document < left
}

/// One sentence more, where it is seen.
fn push_if(refs: &mut Vec<SentenceRef>, seen: bool, at: SentenceRef) -> Result<(), NoMemory>
    ensures { OnOk result (map place_of refs.new.items
        ≡ map place_of refs.old.items ++ (if seen then place_of at ∷ [] else [])) }
{
    if seen {
        refs.push(at)?;
    }
    Ok(())
}

/// What stands at a place.
fn sentence_at(sentences: &[u32], place: usize) -> u32
    requires { place < length sentences.now }
    ensures { slice_get sentences.now place ≡ Some result }
{
    sentences[place]
}

/// Those of some sentences of a segment that are of its first documents.
fn push_seen(
    refs: &mut Vec<SentenceRef>,
    segment: &Segment,
    place: u32,
    left: u32,
    sentences: &[u32],
) -> Result<(), NoMemory>
    ensures { OnOk result (map place_of refs.new.items
        ≡ map place_of refs.old.items ++ kept_in segment.now place left sentences.now) }
{
    for at in 0..sentences.len() {
        let index = sentence_at(sentences, at);
        push_if(
            refs,
            is_seen(segment, index, left),
            SentenceRef {
                segment: place,
                index,
            },
        )?;
    }
    Ok(())
}

/// The sentences of a segment that are wanted and seen.
fn push_wanted(
    alloc: Global,
    refs: &mut Vec<SentenceRef>,
    wanted: &Wanted,
    searched: &Searched,
    place: u32,
    left: u32,
) -> Result<(), NoMemory>
    ensures { OnOk result (map place_of refs.new.items ≡ map place_of refs.old.items
        ++ chosen_in searched.now wanted.now place left) }
{
    let all = all_of(alloc, wanted, searched)?;
    push_seen(refs, searched.segment, place, left, &all)
}

/// What is wanted in the segment at a place.
fn wanted_in(wanted: &[Wanted], place: usize) -> &Wanted
    requires { place < length wanted.now }
    ensures { slice_get wanted.now place ≡ Some result.now }
{
    &wanted[place]
}

/// The segment at a place, to be searched.
fn searched<'a>(view: &'a View, place: usize, known: &'a State) -> Searched<'a>
    requires { place < length view.now.segments }
    ensures is { IsSearched view.now place known.now result }
    ensures short { length view.now.segments < 2 ^ 32 }
{
    let first = view.first(place);
    let segment = view.segment(place);
    // Its clause says that the table serves the sentences.
    let _lists = segment.lists();
    Searched {
        segment,
        first,
        known,
    }
}

/// All sentences of a view at which a need occurs, against the mentions that are known, in their
/// order. None is opened. The need is given as what is wanted in each segment.
///
/// # Errors
///
/// `NoMemory` where memory is refused.
pub fn candidates(
    alloc: Global,
    wanted: &[Wanted],
    view: &View,
    known: &State,
) -> Result<Vec<SentenceRef>, NoMemory>
    requires { length wanted.now ≡ length view.now.segments }
    ensures { (need : Need) → AreMeant need view.now.segments wanted.now
        → IfOk result (λ refs. map (λ at. site_at view.now.segments (place_of at)) refs.items
        ≡ map Some (needed_at need (sites_seen view.now) known.now)) }
{
    let mut refs = Vec::new(alloc);
    for place in 0..view.count() {
        let searched = searched(view, place, known);
        let left = view.documents().saturating_sub(searched.first);
        push_wanted(
            alloc,
            &mut refs,
            wanted_in(wanted, place),
            &searched,
            place as u32,
            left,
        )?;
    }
    Ok(refs)
}
