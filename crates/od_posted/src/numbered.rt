//! Numbered sentences, and the numbers of their edges' labels.
ghost use Rattle.std.specs.Prelude.{◌≡◌, ◌<◌, length, slice_get, Some, IsSomeAnd};
ghost use Rattle.od_index.specs.Sentences.{HasTerms};
ghost use Rattle.od_index.specs.Terms.{sentence_terms};
ghost use Rattle.od_posted.specs.Chains.{label_of};
ghost use Rattle.od_posted.specs.Turned.{AreTurned};

use crate::chains::End;
use crate::turned::Turned;
use od_postings::IdSentence;
use std::marker::Model;

/// A sentence with its number among others, and the labels of its table, which has every term of it.
#[derive(Drop)]
pub(crate) struct Numbered<'a> {
    number: u32,
    sentence: &'a IdSentence,
    turned: &'a Turned,
}

impl<'a> Model for Numbered<'a> {
    ghost use Rattle.od_posted.specs.Entries.{NumberedSentence};
    ghost use Rattle.od_posted.specs.Turned.{IsServed};

    ghost Value = { NumberedSentence };

    ghost view = { λ n. record {
      number = n.number;
      sentence = n.sentence.now.sentence;
      table = n.sentence.now.table;
    } };

    ghost invariant = { λ n. IsServed n.sentence.now n.turned.now };
}

impl<'a> Numbered<'a> {
    /// A sentence with its number.
    pub(crate) fn new(number: u32, sentence: &'a IdSentence, turned: &'a Turned) -> Numbered<'a>
        requires served { HasTerms sentence.now.table (sentence_terms sentence.now.sentence) }
        requires labels { AreTurned sentence.now.table turned.now.first turned.now.numbers.items }
        ensures number { result.number ≡ number }
        ensures sentence { result.sentence ≡ sentence.now.sentence }
        ensures table { result.table ≡ sentence.now.table }
    {
        Numbered {
            number,
            sentence,
            turned,
        }
    }

    /// Its number.
    pub(crate) fn number(&self) -> u32
        ensures { result ≡ self.now.number }
    {
        self.number
    }

    /// The sentence.
    pub(crate) fn sentence(&self) -> &'a IdSentence
        ensures sentence { result.now.sentence ≡ self.now.sentence }
        ensures table { result.now.table ≡ self.now.table }
    {
        self.sentence
    }

    /// The number of an edge's label, as it stands at an end.
    pub(crate) fn label(&self, end: End, place: u32) -> u32
        requires { place < length self.now.sentence.edges }
        ensures { IsSomeAnd (slice_get self.now.sentence.edges place)
            (λ edge. slice_get self.now.table result ≡ Some (label_of end edge)) }
    {
        let label = self.sentence.edge(place).2;
        match end {
            End::Dependent => label,
            End::Governor => self.turned.out(label),
        }
    }
}
