//! Hashes of mentions, of where their sentences stand, and of labels.
ghost use Rattle.std.specs.Prelude.{◌≡◌};
ghost use Rattle.od_mentions.specs.Hashes.{mixed, text_mixed, optional_mixed, part_mixed, sentence_hash, label_hash, mention_hash};

use od_extraction::mention::{Mention, Part};
use od_text::text::Text;

/// The start of every hash: the offset of FNV-1a with 64 bits.
const OFFSET: u64 = 0xcbf2_9ce4_8422_2325;

/// The factor of a step of FNV-1a with 64 bits.
const FACTOR: u64 = 0x0000_0100_0000_01b3;

/// A hash with one number more.
#[tactic(auto, unfolding(crate::specs::Hashes::mixed))]
fn mix(hash: u64, number: u64) -> u64
    ensures { result ≡ mixed hash number }
{
    (hash ^ number).wrapping_mul(FACTOR)
}

/// A hash with a text more: its length, then its bytes.
fn mix_text(hash: u64, text: &str) -> u64
    ensures { result ≡ text_mixed hash text.now }
{
    let bytes = text.as_bytes();
    let mut state = mix(hash, bytes.len() as u64);
    for byte in bytes {
        state = mix(state, *byte as u64);
    }
    state
}

/// A hash with a text more that may be absent.
fn mix_optional(hash: u64, text: &Option<Text>) -> u64
    ensures { result ≡ optional_mixed hash text.now }
{
    match text {
        None => mix(hash, 0),
        Some(text) => mix_text(mix(hash, 1), text.get()),
    }
}

/// A hash with a part more.
fn mix_part(hash: u64, part: &Part) -> u64
    ensures { result ≡ part_mixed hash part.now }
{
    let named = mix_optional(mix_text(hash, part.name.get()), &part.label);
    mix(mix(named, part.start as u64), part.end as u64)
}

/// The hash of where a sentence stands.
#[tactic(auto, unfolding(crate::specs::Hashes::sentence_hash))]
pub(crate) fn hash_sentence(document: u32, sentence: u32) -> u64
    ensures { result ≡ sentence_hash document sentence }
{
    mix(mix(OFFSET, document as u64), sentence as u64)
}

/// The hash of a label.
#[tactic(auto, unfolding(crate::specs::Hashes::label_hash))]
pub(crate) fn hash_label(label: &str) -> u64
    ensures { result ≡ label_hash label.now }
{
    mix_text(OFFSET, label)
}

/// The hash of all that a mention has; it goes on from that of its sentence.
#[tactic(auto, unfolding(crate::specs::Hashes::mention_hash))]
pub(crate) fn hash_mention(mention: &Mention) -> u64
    ensures { result ≡ mention_hash mention.now }
{
    let sentence = hash_sentence(mention.document, mention.sentence);
    let span = mix(mix(sentence, mention.start as u64), mention.end as u64);
    let mut state = mix_text(mix_text(span, mention.label.get()), mention.rule.get());
    for part in mention.parts.get() {
        state = mix_part(state, part);
    }
    state
}
