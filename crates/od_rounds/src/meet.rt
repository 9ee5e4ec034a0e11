//! The mentions that a round meets, one at a time.
ghost use Rattle.std.specs.Prelude.{◌≡◌, ◌+◌, ◌≤◌, ◌<◌, ◌∷◌, [], true, false, length, IfOk, OnOk, IfErr};
ghost use Rattle.od_extraction.specs.Weight.{weight};
ghost use Rattle.od_extraction.specs.declared.mention.RoundResult.TheVariants as outcome;
ghost use Rattle.od_matching.specs.Rounds.Round.{one};
ghost use Rattle.od_matching.specs.Matching.Rules.{mention_at};
ghost use Rattle.od_rule.specs.Left.{left_in};
ghost use Rattle.od_rounds.specs.Gives.{FaultIs, Met};
ghost use Rattle.od_rounds.specs.Left.{items_left};
ghost use Rattle.od_rounds.specs.Looked.{walk_from};
ghost use Rattle.od_rounds.specs.Weighed.{heaviest, most_kept};

use crate::fault::RoundFault;
use od_extraction::mention::{Match, Mention, SESSION_WEIGHT};
use od_mentions::State;
use od_pattern::rule::Rule;
use od_rule::finder::Found as Matches;
use od_rule::mentions::mention_at;
use od_text::text::NoMemory;
use std::alloc::Global;

/// A rule on a sentence, whose document is numbered from 0 over the view and the sentence in its
/// document, and the mentions that are known before the round.
#[derive(Drop)]
pub(crate) struct Meeting<'a> {
    pub(crate) rule: &'a Rule,
    pub(crate) document: u32,
    pub(crate) sentence: u32,
    pub(crate) known: &'a State,
}

/// Meets a mention, which is added to what was found where it is new.
fn meet(alloc: Global, known: &State, found: &mut State, mention: Mention) -> Result<(), RoundFault>
    requires light { weight known.now + weight found.old ≤ heaviest known.now }
    requires small { weight known.now ≤ most_kept }
    ensures light { OnOk result (weight known.now + weight found.new ≤ heaviest known.now) }
    ensures met { Met result (walk_from known.now found.old (one mention ∷ [])) found.new }
{
    if known.holds(&mention) {
        return Ok(());
    }
    found.add(alloc, mention)?;
    let weight = known.weight() + found.weight();
    if weight > SESSION_WEIGHT {
        return Err(RoundFault::TooMany { weight });
    }
    Ok(())
}

/// Makes the mention of a match, and meets it.
fn meet_match(
    alloc: Global,
    meeting: &Meeting,
    next: Match,
    found: &mut State,
) -> Result<(), RoundFault>
    requires light { weight meeting.now.known.now + weight found.old
        ≤ heaviest meeting.now.known.now }
    requires small { weight meeting.now.known.now ≤ most_kept }
    ensures light { OnOk result
        (weight meeting.now.known.now + weight found.new ≤ heaviest meeting.now.known.now) }
    ensures met { Met result (walk_from meeting.now.known.now found.old
        (one (mention_at meeting.now.rule.now meeting.now.document meeting.now.sentence next) ∷ []))
        found.new }
{
    let mention = mention_at(
        alloc,
        meeting.rule,
        meeting.document,
        meeting.sentence,
        next,
    )?;
    meet(alloc, meeting.known, found, mention)
}

/// Takes the next match, where one is left, and meets its mention. Tells whether there was one.
fn meet_next(
    alloc: Global,
    meeting: &Meeting,
    left: &mut Matches,
    found: &mut State,
) -> Result<bool, RoundFault>
    requires light { weight meeting.now.known.now + weight found.old
        ≤ heaviest meeting.now.known.now }
    requires small { weight meeting.now.known.now ≤ most_kept }
    ensures light { OnOk result
        (weight meeting.now.known.now + weight found.new ≤ heaviest meeting.now.known.now) }
    ensures less { IfOk result (λ more. more ≡ true
        → length (left_in left.new) < length (left_in left.old)) }
    ensures goes { IfOk result (λ more. more ≡ true
        → walk_from meeting.now.known.now found.old (items_left meeting.now (left_in left.old))
        ≡ walk_from meeting.now.known.now found.new (items_left meeting.now (left_in left.new))) }
    ensures ends { IfOk result (λ more. more ≡ false
        → walk_from meeting.now.known.now found.old (items_left meeting.now (left_in left.old))
        ≡ outcome.Found found.new) }
    ensures err { IfErr result (λ fault. FaultIs fault
        (walk_from meeting.now.known.now found.old (items_left meeting.now (left_in left.old)))) }
{
    match left.next(alloc)? {
        None => Ok(false),
        Some(next) => {
            meet_match(alloc, meeting, next, found)?;
            Ok(true)
        }
    }
}

/// Meets the mentions of all matches that are left, in their order. The first refusal ends it, and
/// the mentions of the matches behind it are never made.
pub(crate) fn meet_all(
    alloc: Global,
    meeting: &Meeting,
    matches: Matches,
    found: &mut State,
) -> Result<(), RoundFault>
    requires light { weight meeting.now.known.now + weight found.old
        ≤ heaviest meeting.now.known.now }
    requires small { weight meeting.now.known.now ≤ most_kept }
    ensures light { OnOk result
        (weight meeting.now.known.now + weight found.new ≤ heaviest meeting.now.known.now) }
    ensures met { Met result (walk_from meeting.now.known.now found.old
        (items_left meeting.now (left_in matches.entry))) found.new }
{
    let mut left = matches;
    'matches: loop {
        if !meet_next(alloc, meeting, &mut left, found)? {
            return Ok(());
        }
    }
}
