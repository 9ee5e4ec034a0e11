//! What stands at places of a list of mentions. A place behind the end is passed over.
ghost use Rattle.std.specs.Prelude.{◌≡◌, ◌++◌, map, slice_get, OnOk, IfOk};
ghost use Rattle.std.specs.List.{list_any};
ghost use Rattle.std.specs.Option.{option_copied, option_to_list};
ghost use Rattle.od_matching.specs.Rounds.Round.{in_sentence};
ghost use Rattle.od_matching.specs.Rounds.States.{places_with};
ghost use Rattle.od_mentions.specs.Places.{has_at, found_at};

use od_extraction::mention::Mention;
use od_text::text::NoMemory;
use std::alloc::Global;

/// The mention at a place, if one stands there.
fn mention_at(mentions: &[Mention], place: usize) -> Option<&Mention>
    ensures { option_copied result ≡ slice_get mentions.now place }
{
    mentions.get(place)
}

/// Whether the mention stands at the place.
fn stands_at(mentions: &[Mention], place: usize, mention: &Mention) -> bool
    ensures { result ≡ has_at mentions.now mention.now place }
{
    match mention_at(mentions, place) {
        None => false,
        Some(other) => mention.same(other),
    }
}

/// Whether the mention stands at one of the places.
pub(crate) fn stands_at_one(mentions: &[Mention], places: &[usize], mention: &Mention) -> bool
    ensures { result ≡ list_any (has_at mentions.now mention.now) places.now }
{
    places
        .iter()
        .any(|place| stands_at(mentions, *place, mention))
}

/// One mention more, where it is of the sentence.
fn push_in_sentence<'a>(
    found: &mut Vec<&'a Mention>,
    mention: Option<&'a Mention>,
    document: u32,
    sentence: u32,
) -> Result<(), NoMemory>
    ensures { OnOk result (map (λ m. m.now) found.new.items ≡ map (λ m. m.now) found.old.items
        ++ in_sentence document sentence (option_to_list (option_copied mention.entry))) }
{
    if let Some(mention) = mention {
        if mention.document == document && mention.sentence == sentence {
            found.push(mention)?;
        }
    }
    Ok(())
}

/// The mentions at the places that are of a sentence, in the order of the places.
pub(crate) fn found_in_sentence<'a>(
    alloc: Global,
    mentions: &'a [Mention],
    places: &[usize],
    document: u32,
    sentence: u32,
) -> Result<Vec<&'a Mention>, NoMemory>
    ensures { IfOk result (λ found. map (λ m. m.now) found.items
        ≡ in_sentence document sentence (found_at mentions.now places.now)) }
{
    let mut found = Vec::new(alloc);
    for place in places {
        push_in_sentence(&mut found, mention_at(mentions, *place), document, sentence)?;
    }
    Ok(found)
}

/// The document and the sentence of one mention more, where it has the label.
fn push_with_label(
    found: &mut Vec<(u32, u32)>,
    mention: Option<&Mention>,
    label: &str,
) -> Result<(), NoMemory>
    ensures { OnOk result (found.new.items ≡ found.old.items
        ++ places_with label.now (option_to_list (option_copied mention.entry))) }
{
    if let Some(mention) = mention {
        if mention.label.get() == label {
            found.push((mention.document, mention.sentence))?;
        }
    }
    Ok(())
}

/// The documents and sentences of the mentions at the places that have a label, with repeats.
pub(crate) fn found_with_label(
    alloc: Global,
    mentions: &[Mention],
    places: &[usize],
    label: &str,
) -> Result<Vec<(u32, u32)>, NoMemory>
    ensures { IfOk result (λ found.
        found.items ≡ places_with label.now (found_at mentions.now places.now)) }
{
    let mut found = Vec::new(alloc);
    for place in places {
        push_with_label(&mut found, mention_at(mentions, *place), label)?;
    }
    Ok(found)
}
