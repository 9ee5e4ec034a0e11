//! Notes of where mentions stand: by all that they have, by their sentence, by their label.
ghost use Rattle.std.specs.Prelude.{◌≡◌, [], OnOk, OnErr};
ghost use Rattle.od_mentions.specs.Hashes.{mention_hash};
ghost use Rattle.od_mentions.specs.Indexes.{IndexesOne, IndexesSame, UnindexesOne, IsIndexOf};

use crate::hashes::{hash_label, hash_mention, hash_sentence};
use crate::notes::Notes;
use od_extraction::mention::Mention;
use od_text::text::NoMemory;
use std::alloc::Global;

/// Where mentions stand, by three hashes: of the mention, of its sentence and of its label.
#[derive(Drop)]
pub(crate) struct Index {
    pub(crate) by_mention: Notes,
    pub(crate) by_sentence: Notes,
    pub(crate) by_label: Notes,
}

impl Index {
    /// Of no mention.
    pub(crate) fn new(alloc: Global) -> Index
        ensures { IsIndexOf result [] }
    {
        Index {
            by_mention: Notes::new(alloc),
            by_sentence: Notes::new(alloc),
            by_label: Notes::new(alloc),
        }
    }

    /// Notes the place of one mention more, which has this hash; where memory is refused, all notes
    /// stay as they were.
    pub(crate) fn note(
        &mut self,
        alloc: Global,
        mention: &Mention,
        hash: u64,
        place: usize,
    ) -> Result<(), NoMemory>
        requires { hash ≡ mention_hash mention.now }
        ensures ok { OnOk result (IndexesOne self.old self.new mention.now place) }
        ensures err { OnErr result (IndexesSame self.old self.new) }
    {
        self.by_mention.note(alloc, hash, place)?;
        let sentence = hash_sentence(mention.document, mention.sentence);
        if self.by_sentence.note(alloc, sentence, place).is_err() {
            self.by_mention.unnote(hash);
            return Err(NoMemory);
        }
        let label = hash_label(mention.label.get());
        if self.by_label.note(alloc, label, place).is_err() {
            self.by_sentence.unnote(sentence);
            self.by_mention.unnote(hash);
            return Err(NoMemory);
        }
        Ok(())
    }

    /// Drops the last note of a mention under each of its hashes.
    pub(crate) fn unnote(&mut self, mention: &Mention)
        ensures { UnindexesOne self.old self.new mention.now }
    {
        self.by_mention.unnote(hash_mention(mention));
        self.by_sentence
            .unnote(hash_sentence(mention.document, mention.sentence));
        self.by_label.unnote(hash_label(mention.label.get()));
    }
}
