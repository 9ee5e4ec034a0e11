//! What a rule finds on the sentences that a round opens.
ghost use Rattle.std.specs.Prelude.{◌≡◌, ◌+◌, ◌≤◌, ◌<◌, length, map, slice_get, Some, IfOk, IsSome, OnOk};
ghost use Rattle.od_asked.specs.Asked.{asked_rule};
ghost use Rattle.od_extraction.specs.Weight.{weight};
ghost use Rattle.od_index.specs.Views.{site_at};
ghost use Rattle.od_matching.specs.Matching.Rules.{labelled};
ghost use Rattle.od_matching.specs.Rounds.Round.{in_sentence, items_at, items_over};
ghost use Rattle.od_rule.specs.Codes.{IsCodeOf};
ghost use Rattle.od_rounds.specs.Gives.{Met};
ghost use Rattle.od_rounds.specs.Looked.{site_named, sites_named, walk_from};
ghost use Rattle.od_rounds.specs.Resolved.{resolved_over};
ghost use Rattle.od_rounds.specs.Weighed.{heaviest, most_kept};
ghost use Rattle.od_segment.specs.Seen.{place_of};
ghost use Rattle.od_text.specs.Lists.{Each};

use crate::fault::RoundFault;
use crate::meet::{Meeting, meet_all};
use od_columns::{ResolvedRule, columns_on};
use od_extraction::mention::{Labelled, Mention, Span};
use od_mentions::State;
use od_pattern::rule::Rule;
use od_rule::code::RuleCode;
use od_rule::finder::Finder;
use od_segment::{Opened, SentenceRef, Steps, View};
use od_text::list::List;
use od_text::text::{Copied, NoMemory};
use od_trails::fault::MatchFault;
use std::alloc::Global;
use std::sync::ledger::Ledger;

/// A rule in a round: numbered from 1, made ready, and resolved over the table of each segment, with
/// what is seen, and the mentions that are known before the round.
#[derive(Drop)]
pub(crate) struct NumberedRule<'a> {
    pub(crate) number: u32,
    pub(crate) rule: &'a Rule,
    pub(crate) code: &'a RuleCode,
    pub(crate) resolved: &'a [ResolvedRule],
    pub(crate) view: &'a View,
    pub(crate) known: &'a State,
}

/// A mention as a label with a span.
fn label_of(alloc: Global, mention: &Mention) -> Result<Labelled, NoMemory>
    ensures { IfOk result (λ label. label ≡ labelled mention.now) }
{
    Ok(Labelled {
        label: mention.label.copy(alloc)?,
        span: Span {
            start: mention.start,
            end: mention.end,
        },
    })
}

/// Mentions as labels with spans.
fn labels_of(alloc: Global, mentions: &[&Mention]) -> Result<List<Labelled>, NoMemory>
    ensures { IfOk result (λ labels. labels ≡ map labelled (map (λ m. m.now) mentions.now)) }
{
    let mut labels = List::new(alloc);
    for mention in mentions {
        labels.push(label_of(alloc, mention)?)?;
    }
    Ok(labels)
}

/// The mentions of a sentence as labels with spans.
fn labels_in(
    alloc: Global,
    known: &State,
    document: u32,
    sentence: u32,
) -> Result<List<Labelled>, NoMemory>
    ensures { IfOk result (λ labels.
        labels ≡ map labelled (in_sentence document sentence known.now)) }
{
    let mentions = known.of_sentence(alloc, document, sentence)?;
    labels_of(alloc, &mentions)
}

/// Meets what a rule finds on an opened sentence, against the mentions that are known there.
fn search(
    alloc: Global,
    finder: &mut Finder,
    numbered: &NumberedRule,
    resolved: &ResolvedRule,
    opened: &Opened,
    found: &mut State,
) -> Result<(), RoundFault>
    requires code { IsCodeOf numbered.now.rule.now.body numbered.now.code.now }
    requires asked { resolved.now.asked ≡ asked_rule numbered.now.rule.now }
    requires table { resolved.now.table ≡ opened.now.words.now.table }
    requires light { weight numbered.now.known.now + weight found.old
        ≤ heaviest numbered.now.known.now }
    requires small { weight numbered.now.known.now ≤ most_kept }
    ensures light { OnOk result (weight numbered.now.known.now + weight found.new
        ≤ heaviest numbered.now.known.now) }
    ensures met { Met result (walk_from numbered.now.known.now found.old
        (items_at numbered.now.known.now (numbered.now.number, numbered.now.rule.now) (record {
          document = opened.now.document;
          number = opened.now.sentence;
          words = opened.now.words.now.sentence;
        }))) found.new }
{
    let meeting = Meeting {
        rule: numbered.rule,
        document: opened.document,
        sentence: opened.sentence,
        known: numbered.known,
    };
    let labels = labels_in(alloc, numbered.known, opened.document, opened.sentence)?;
    let columns = columns_on(alloc, resolved, opened.words)?;
    let rule = numbered.rule;
    match finder.find(
        alloc,
        rule,
        numbered.code,
        opened.words,
        &columns,
        labels.get(),
    ) {
        Ok(matches) => meet_all(alloc, &meeting, matches, found),
        Err(MatchFault::Crowded { count }) => Err(RoundFault::Crowded {
            rule: numbered.number,
            document: opened.document,
            sentence: opened.sentence,
            count,
        }),
        Err(MatchFault::NoMemory) => Err(RoundFault::NoMemory),
    }
}

/// What was resolved over the table of a segment.
fn resolved_at(resolved: &[ResolvedRule], segment: usize) -> &ResolvedRule
    requires { segment < length resolved.now }
    ensures { slice_get resolved.now segment ≡ Some result.now }
{
    &resolved[segment]
}

/// Opens a sentence, and meets what a rule finds there.
fn visit<L: Ledger>(
    alloc: Global,
    finder: &mut Finder,
    numbered: &NumberedRule,
    at: SentenceRef,
    found: &mut State,
    steps: &mut Steps<L>,
) -> Result<(), RoundFault>
    requires there { IsSome (site_at numbered.now.view.now.segments (place_of at)) }
    requires code { IsCodeOf numbered.now.rule.now.body numbered.now.code.now }
    requires resolved { numbered.now.resolved.now
        ≡ resolved_over numbered.now.view.now.segments numbered.now.rule.now }
    requires light { weight numbered.now.known.now + weight found.old
        ≤ heaviest numbered.now.known.now }
    requires small { weight numbered.now.known.now ≤ most_kept }
    ensures step { steps.new ≡ steps.old + 1 }
    ensures light { OnOk result (weight numbered.now.known.now + weight found.new
        ≤ heaviest numbered.now.known.now) }
    ensures met { Met result (walk_from numbered.now.known.now found.old
        (items_over (site_named numbered.now.view.now.segments at) numbered.now.known.now
        (numbered.now.number, numbered.now.rule.now))) found.new }
{
    let opened = numbered.view.open(at, steps);
    let resolved = resolved_at(numbered.resolved, at.segment as usize);
    search(alloc, finder, numbered, resolved, &opened, found)
}

/// What stands at a place.
fn ref_at(refs: &[SentenceRef], place: usize) -> SentenceRef
    requires { place < length refs.now }
    ensures { slice_get refs.now place ≡ Some result }
{
    refs[place]
}

/// Opens sentences in their order, and meets what a rule finds there.
pub(crate) fn visit_all<L: Ledger>(
    alloc: Global,
    finder: &mut Finder,
    numbered: &NumberedRule,
    refs: &[SentenceRef],
    found: &mut State,
    steps: &mut Steps<L>,
) -> Result<(), RoundFault>
    requires there { Each (λ at. IsSome (site_at numbered.now.view.now.segments (place_of at)))
        refs.now }
    requires code { IsCodeOf numbered.now.rule.now.body numbered.now.code.now }
    requires resolved { numbered.now.resolved.now
        ≡ resolved_over numbered.now.view.now.segments numbered.now.rule.now }
    requires light { weight numbered.now.known.now + weight found.old
        ≤ heaviest numbered.now.known.now }
    requires small { weight numbered.now.known.now ≤ most_kept }
    ensures steps { steps.new ≤ steps.old + length refs.now }
    ensures light { OnOk result (weight numbered.now.known.now + weight found.new
        ≤ heaviest numbered.now.known.now) }
    ensures met { Met result (walk_from numbered.now.known.now found.old
        (items_over (sites_named numbered.now.view.now.segments refs.now) numbered.now.known.now
        (numbered.now.number, numbered.now.rule.now))) found.new }
{
    for place in 0..refs.len() {
        visit(alloc, finder, numbered, ref_at(refs, place), found, steps)?;
    }
    Ok(())
}
