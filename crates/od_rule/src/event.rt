//! What an event rule finds on a sentence.
ghost use Rattle.std.specs.Prelude.{◌≡◌, ◌++◌, ℕ, [], map, Err, IfOk, None, OnErr, Some};
ghost use Rattle.std.specs.Option.{option_to_list};
ghost use Rattle.od_asked.specs.Asked.{asked_event};
ghost use Rattle.od_asked.specs.Tables.{columns_of};
ghost use Rattle.od_machine.specs.Spans.{IsSpanIndex};
ghost use Rattle.od_matching.specs.Matching.Events.{event_count, event_mentions};
ghost use Rattle.od_matching.specs.Matching.Hops.{most_found};
ghost use Rattle.od_matching.specs.Matching.Rules.{mention_at};
ghost use Rattle.od_pattern.specs.declared.rule.Body.TheVariants.{Event};
ghost use Rattle.od_pattern.specs.declared.rule.Rule.{Rule};
ghost use Rattle.od_rule.specs.Codes.{IsCodeOf};
ghost use Rattle.od_trails.specs.declared.fault.MatchFault.TheVariants as fault;

use crate::code::RuleCode;
use crate::scans::scan_one;
use od_asked::columns::Columns;
use od_event::matches::{EventMatches, event_matches};
use od_event::spans::sources_of;
use od_extraction::mention::{Labelled, Match, Span};
use od_machine::scan::Scanner;
use od_machine::spans::SpanIndex;
use od_pattern::rule::EventRule;
use od_postings::IdSentence;
use od_reach::links::{Links, links_of};
use od_text::list::List;
use od_text::text::NoMemory;
use od_trails::fault::MatchFault;
use std::alloc::Global;
use std::marker::Model;

/// The matches of an event rule on a sentence that are left, which contracts see as a list. Each is
/// made when it is taken.
#[derive(Drop)]
pub struct EventFound<'a> {
    event: &'a EventRule,
    code: &'a RuleCode,
    words: &'a IdSentence,
    columns: &'a Columns,
    local: &'a [Labelled],
    links: Links,
    sources: Vec<Option<List<Span>>>,
    matches: EventMatches,
}

impl<'a> Model for EventFound<'a> {
    ghost use Rattle.std.specs.Prelude.{◌≡◌, ℕ, List, length};
    ghost use Rattle.std.specs.List.{All};
    ghost use Rattle.od_asked.specs.Asked.{asked_surface};
    ghost use Rattle.od_event.specs.Arguments.{AreReady};
    ghost use Rattle.od_event.specs.Left.{left};
    ghost use Rattle.od_event.specs.Sources.{IsShort};
    ghost use Rattle.od_extraction.specs.declared.mention.Match.{Match as Found};
    ghost use Rattle.od_reach.specs.Links.{AreLinks};

    ghost Value = { List Found };

    ghost view = { λ f. left f.words.now.sentence f.local.now f.event.now.arguments f.matches };

    ghost invariant = { λ f.
        AreLinks f.words.now.sentence f.links
        × AreReady f.words.now.sentence f.local.now (length (asked_surface f.event.now.trigger))
        f.columns.now.rows f.event.now.arguments f.code.now.moves f.sources.items
        × (length f.code.now.moves ≡ length f.event.now.arguments)
        × (length f.sources.items ≡ length f.event.now.arguments)
        × All IsShort f.sources.items };
}

/// What an event rule finds on a sentence. The index is that of the state's labelled spans there.
///
/// # Errors
///
/// `Crowded` with the first running count of mentions above 10,000, and `NoMemory` where memory is
/// refused.
pub(crate) fn find_event<'a>(
    alloc: Global,
    scanner: &mut Scanner,
    index: &SpanIndex,
    event: &'a EventRule,
    code: &'a RuleCode,
    words: &'a IdSentence,
    columns: &'a Columns,
    local: &'a [Labelled],
) -> Result<EventFound<'a>, MatchFault>
    requires code { IsCodeOf (Event event.now) code.now }
    requires columns { columns.now.rows ≡ columns_of words.now.sentence (asked_event event.now) }
    requires index { IsSpanIndex local.now index.now }
    ensures few { IfOk result (λ _.
        event_count most_found event.now words.now.sentence local.now ≡ None) }
    ensures found { IfOk result (λ found. (r : Rule) (d k : ℕ) → map (mention_at r d k) found
        ≡ event_mentions r d k event.now words.now.sentence local.now) }
    ensures crowded { (n : ℕ) → result ≡ Err (fault.Crowded n)
        → event_count most_found event.now words.now.sentence local.now ≡ Some n }
{
    let trigger = &code.programs.get()[0];
    let triggers = match scan_one(alloc, scanner, trigger, words, columns, local, index) {
        Ok(triggers) => triggers,
        Err(NoMemory) => return Err(MatchFault::NoMemory),
    };
    let links = match links_of(alloc, words) {
        Ok(links) => links,
        Err(NoMemory) => return Err(MatchFault::NoMemory),
    };
    let arguments = event.arguments.get();
    let sources = match sources_of(alloc, arguments, words, local) {
        Ok(sources) => sources,
        Err(NoMemory) => return Err(MatchFault::NoMemory),
    };
    let moves = code.moves.get();
    match event_matches(
        alloc, arguments, moves, words, &links, columns, triggers, &sources,
    ) {
        Ok(matches) => Ok(EventFound {
            event,
            code,
            words,
            columns,
            local,
            links,
            sources,
            matches,
        }),
        Err(fault) => Err(fault),
    }
}

impl<'a> EventFound<'a> {
    /// The next match, or `None` where none is left.
    ///
    /// # Errors
    ///
    /// `NoMemory` where memory is refused; what is left is as it was.
    pub fn next(&mut self, alloc: Global) -> Result<Option<Match>, NoMemory>
        ensures items { IfOk result (λ found. self.old ≡ option_to_list found ++ self.new) }
        ensures end { IfOk result (λ found. found ≡ None → self.old ≡ []) }
        ensures err { OnErr result (self.new ≡ self.old) }
    {
        let found = self.matches.next(
            alloc,
            self.event.arguments.get(),
            self.code.moves.get(),
            self.words,
            &self.links,
            self.columns,
            &self.sources,
        )?;
        Ok(found)
    }
}
