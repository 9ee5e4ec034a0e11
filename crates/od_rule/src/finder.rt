//! What a rule finds on a sentence, one match at a time.
ghost use Rattle.std.specs.Prelude.{◌≡◌, ◌++◌, ℕ, List as Seq, [], map, Err, IfOk, None, OnErr};
ghost use Rattle.std.specs.Option.{option_to_list};
ghost use Rattle.od_asked.specs.Asked.{asked_rule};
ghost use Rattle.od_asked.specs.Tables.{columns_of};
ghost use Rattle.od_extraction.specs.declared.mention.Mention.{Mention};
ghost use Rattle.od_matching.specs.Matching.Rules.{crowded, labelled, mention_at, mentions, rule_mentions};
ghost use Rattle.od_rule.specs.Codes.{IsCodeOf};
ghost use Rattle.od_rule.specs.Finding.{made};
ghost use Rattle.od_rule.specs.Left.{left_in};
ghost use Rattle.od_trails.specs.declared.fault.MatchFault.TheVariants as fault;

use crate::code::RuleCode;
use crate::event::{EventFound, find_event};
use crate::hop::find_hop;
use od_asked::columns::Columns;
use od_extraction::mention::{Labelled, Match};
use od_machine::scan::Scanner;
use od_machine::spans::SpanIndex;
use od_pairing::pairs::Pairs;
use od_pattern::rule::{Body, Rule};
use od_postings::IdSentence;
use od_text::text::NoMemory;
use od_trails::fault::MatchFault;
use std::alloc::Global;

/// What a rule finds on a sentence and is left: the pairs of a hop, or the matches of an event rule.
#[derive(Drop)]
pub enum Found<'a> {
    /// Of a hop, also equal ones; its mentions are those without repeats.
    Hop(Pairs),
    /// Of an event rule.
    Event(EventFound<'a>),
}

impl<'a> Found<'a> {
    /// The next match, or `None` where none is left.
    ///
    /// # Errors
    ///
    /// `NoMemory` where memory is refused; what is left is as it was.
    pub fn next(&mut self, alloc: Global) -> Result<Option<Match>, NoMemory>
        ensures items { IfOk result (λ found.
            left_in self.old ≡ option_to_list found ++ left_in self.new) }
        ensures end { IfOk result (λ found. found ≡ None → left_in self.old ≡ []) }
        ensures err { OnErr result (left_in self.new ≡ left_in self.old) }
    {
        match self {
            Found::Hop(pairs) => {
                let found = pairs.next(alloc)?;
                Ok(found)
            }
            Found::Event(left) => {
                let found = left.next(alloc)?;
                Ok(found)
            }
        }
    }
}

/// Room that finding works in, kept from one sentence to the next.
#[derive(Drop)]
pub struct Finder {
    scanner: Scanner,
    index: SpanIndex,
}

impl Finder {
    /// Room that is still empty.
    pub fn new(alloc: Global) -> Finder {
        Finder {
            scanner: Scanner::new(alloc),
            index: SpanIndex::new(alloc),
        }
    }

    /// What a rule finds on a sentence. `code` is the rule made ready, `columns` the table of what
    /// it asks there, and `local` are the labelled spans of the state in the sentence. All matches
    /// are counted, and each is made when it is taken.
    ///
    /// # Errors
    ///
    /// `Crowded` where it finds too many, with the first count above 10,000: of a list after one of
    /// a hop's paths, where its last list is not empty, or of an event's mentions. `NoMemory` where
    /// memory is refused.
    pub fn find<'a>(
        &mut self,
        alloc: Global,
        rule: &'a Rule,
        code: &'a RuleCode,
        words: &'a IdSentence,
        columns: &'a Columns,
        local: &'a [Labelled],
    ) -> Result<Found<'a>, MatchFault>
        requires code { IsCodeOf rule.now.body code.now }
        requires columns { columns.now.rows
            ≡ columns_of words.now.sentence (asked_rule rule.now) }
        ensures found { IfOk result (λ found. (d k : ℕ) (state : Seq Mention)
            → local.now ≡ map labelled state
            → rule_mentions rule.now d k words.now.sentence state
            ≡ mentions (made rule.now.body (map (mention_at rule.now d k) (left_in found)))) }
        ensures crowded { (n : ℕ) → result ≡ Err (fault.Crowded n)
            → (d k : ℕ) (state : Seq Mention) → local.now ≡ map labelled state
            → rule_mentions rule.now d k words.now.sentence state ≡ crowded n }
    {
        match self.index.set(local) {
            Ok(()) => {}
            Err(NoMemory) => return Err(MatchFault::NoMemory),
        }
        let scanner = &mut self.scanner;
        let index = &self.index;
        match &rule.body {
            Body::Basic(hop) => {
                match find_hop(alloc, scanner, index, hop, code, words, columns, local) {
                    Ok(pairs) => Ok(Found::Hop(pairs)),
                    Err(fault) => Err(fault),
                }
            }
            Body::Event(event) => {
                match find_event(alloc, scanner, index, event, code, words, columns, local) {
                    Ok(found) => Ok(Found::Event(found)),
                    Err(fault) => Err(fault),
                }
            }
        }
    }
}
