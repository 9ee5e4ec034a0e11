//! The mentions of a session.
ghost use Rattle.std.specs.Prelude.{◌≡◌, ◌∷◌, [], ◌++◌, ◌+◌, ◌-◌, ◌<◌, ◌≤◌, ◌^◌, length, take, map, not, false, OnOk, OnErr, IfOk};
ghost use Rattle.od_extraction.specs.Mentions.{is_among, with_new, distinct};
ghost use Rattle.od_extraction.specs.Weight.{weight};
ghost use Rattle.od_matching.specs.Rounds.Round.{in_sentence};
ghost use Rattle.od_matching.specs.Rounds.States.{AreSentencesWith, places_with};
ghost use Rattle.od_mentions.specs.Hashes.{mention_hash};
ghost use Rattle.od_mentions.specs.Indexes.{IsIndexOf};

use crate::hashes::{hash_label, hash_mention, hash_sentence};
use crate::index::Index;
use crate::places::{found_in_sentence, found_with_label, stands_at_one};
use od_extraction::mention::Mention;
use od_text::list::List;
use od_text::text::NoMemory;
use std::alloc::Global;
use std::marker::Model;

/// Mentions in the order in which they were added, none of them twice.
///
/// A mention is looked up by a hash of all that it has, and the mentions of a sentence and those of
/// a label by hashes of these. What stands where a hash leads to is compared, so mentions whose
/// hashes happen to be equal cost time and nothing else.
#[derive(Drop)]
pub struct State {
    mentions: Vec<Mention>,
    index: Index,
    weight: u64,
}

impl Model for State {
    ghost use Rattle.std.specs.Prelude.{List};
    ghost use Rattle.od_extraction.specs.declared.mention.Mention.{Mention as Found};
    ghost use Rattle.od_mentions.specs.States.{IsKept};

    ghost Value = { List Found };

    ghost view = { λ s. s.mentions.items };

    ghost invariant = { λ s. IsKept s.mentions.items s.index s.weight };
}

impl State {
    /// No mention.
    pub fn new(alloc: Global) -> State
        ensures { result ≡ [] }
    {
        State {
            mentions: Vec::new(alloc),
            index: Index::new(alloc),
            weight: 0,
        }
    }

    /// The mentions in the order in which they were added.
    pub fn get(&self) -> &[Mention]
        ensures mentions { result.now ≡ self.now }
        ensures unlike { distinct self.now ≡ self.now }
    {
        self.mentions.as_slice()
    }

    /// How many mentions there are.
    pub fn len(&self) -> usize
        ensures { result ≡ length self.now }
    {
        self.mentions.len()
    }

    /// What the mentions weigh together: each weighs one and the number of its parts.
    pub fn weight(&self) -> u64
        ensures { result ≡ weight self.now }
    {
        self.weight
    }

    /// Whether the mention is there.
    pub fn holds(&self, mention: &Mention) -> bool
        ensures { result ≡ is_among self.now mention.now }
    {
        self.holds_hashed(hash_mention(mention), mention)
    }

    /// Whether the mention, which has this hash, is there.
    fn holds_hashed(&self, hash: u64, mention: &Mention) -> bool
        requires { hash ≡ mention_hash mention.now }
        ensures { result ≡ is_among self.now mention.now }
    {
        stands_at_one(&self.mentions, self.index.by_mention.at(hash), mention)
    }

    /// Adds a mention at the end where it is not there yet, and tells whether it did.
    ///
    /// # Errors
    ///
    /// `NoMemory` where memory is refused; nothing changes then.
    pub fn add(&mut self, alloc: Global, mention: Mention) -> Result<bool, NoMemory>
        requires { weight self.old + (1 + length mention.parts) < 2 ^ 64 }
        ensures new { IfOk result (λ new. new ≡ not (is_among self.old mention)) }
        ensures ok { OnOk result (self.new ≡ with_new self.old mention) }
        ensures err { OnErr result (self.new ≡ self.old) }
    {
        let hash = hash_mention(&mention);
        if self.holds_hashed(hash, &mention) {
            return Ok(false);
        }
        self.push(alloc, hash, mention)?;
        Ok(true)
    }

    /// Adds a mention at the end, which has this hash and is not there yet; where memory is
    /// refused, nothing changes.
    fn push(&mut self, alloc: Global, hash: u64, mention: Mention) -> Result<(), NoMemory>
        requires hash { hash ≡ mention_hash mention }
        requires new { is_among self.old mention ≡ false }
        requires light { weight self.old + (1 + length mention.parts) < 2 ^ 64 }
        ensures ok { OnOk result (self.new ≡ self.old ++ mention ∷ []) }
        ensures err { OnErr result (self.new ≡ self.old) }
    {
        let total = self.weight + (1 + mention.parts.len() as u64);
        push_indexed(alloc, &mut self.mentions, &mut self.index, hash, mention)?;
        self.weight = total;
        Ok(())
    }

    /// Leaves the first mentions, so many of them at most: undoes the additions after them.
    pub fn cut(&mut self, count: usize)
        ensures { self.new ≡ take count self.old }
    {
        while self.len() > count {
            self.drop_last();
        }
    }

    /// Drops the last mention, if there is one.
    fn drop_last(&mut self)
        ensures { self.new ≡ take (length self.old - 1) self.old }
    {
        if let Some(last) = self.mentions.pop() {
            self.index.unnote(&last);
            self.weight -= 1 + last.parts.len() as u64;
        }
    }

    /// The mentions of a sentence, in the order in which they were added. Documents, and the
    /// sentences of each, are numbered from 0.
    ///
    /// # Errors
    ///
    /// `NoMemory` where memory is refused.
    pub fn of_sentence(
        &self,
        alloc: Global,
        document: u32,
        sentence: u32,
    ) -> Result<Vec<&Mention>, NoMemory>
        ensures { IfOk result (λ found.
            map (λ m. m.now) found.items ≡ in_sentence document sentence self.now) }
    {
        self.of_sentence_before(alloc, self.len(), document, sentence)
    }

    /// Those of the first mentions, so many of them, that are of a sentence, in the order in which
    /// they were added.
    ///
    /// # Errors
    ///
    /// `NoMemory` where memory is refused.
    pub fn of_sentence_before(
        &self,
        alloc: Global,
        count: usize,
        document: u32,
        sentence: u32,
    ) -> Result<Vec<&Mention>, NoMemory>
        requires { count ≤ length self.now }
        ensures { IfOk result (λ found. map (λ m. m.now) found.items
            ≡ in_sentence document sentence (take count self.now)) }
    {
        let places = self.index.by_sentence.at(hash_sentence(document, sentence));
        found_in_sentence(alloc, &self.mentions[..count], places, document, sentence)
    }

    /// The sentences that have a mention of the label, ascending and each once: the document and
    /// the number of the sentence within it.
    ///
    /// # Errors
    ///
    /// `NoMemory` where memory is refused.
    pub fn sentences_with(&self, alloc: Global, label: &str) -> Result<Vec<(u32, u32)>, NoMemory>
        ensures { IfOk result (λ found. AreSentencesWith label.now self.now found.items) }
    {
        let mut found = self.places_with(alloc, label)?;
        found.sort_unstable();
        found.dedup();
        Ok(found)
    }

    /// The documents and sentences of the mentions that have a label, in the order of the mentions.
    fn places_with(&self, alloc: Global, label: &str) -> Result<Vec<(u32, u32)>, NoMemory>
        ensures { IfOk result (λ found. found.items ≡ places_with label.now self.now) }
    {
        let places = self.index.by_label.at(hash_label(label));
        found_with_label(alloc, &self.mentions, places, label)
    }

    /// The mentions as a list, which are not copied.
    pub fn into_list(self) -> List<Mention>
        ensures { result ≡ self }
    {
        let State {
            mentions,
            index: _,
            weight: _,
        } = self;
        List::from_vec(mentions)
    }
}

/// Adds a mention at the end, which has this hash, and notes where it stands; where memory is
/// refused, nothing changes.
fn push_indexed(
    alloc: Global,
    mentions: &mut Vec<Mention>,
    index: &mut Index,
    hash: u64,
    mention: Mention,
) -> Result<(), NoMemory>
    requires hash { hash ≡ mention_hash mention }
    requires indexed { IsIndexOf index.old mentions.old.items }
    ensures indexed { IsIndexOf index.new mentions.new.items }
    ensures ok { OnOk result (mentions.new.items ≡ mentions.old.items ++ mention ∷ []) }
    ensures err { OnErr result (mentions.new.items ≡ mentions.old.items) }
{
    mentions.reserve(1)?;
    index.note(alloc, &mention, hash, mentions.len())?;
    mentions.push_reserved(mention);
    Ok(())
}
