//! The rules of a round, one after another.
ghost use Rattle.std.specs.Prelude.{◌≡◌, ◌+◌, ◌≤◌, ◌<◌, map, flat_map, length, slice_get, Some, IfOk, OnOk};
ghost use Rattle.std.specs.List.{enumerate_from, sum_by};
ghost use Rattle.od_columns.specs.Resolved.{AskingAll};
ghost use Rattle.od_extraction.specs.Weight.{weight};
ghost use Rattle.od_extraction.specs.Mentions.{distinct};
ghost use Rattle.od_index.specs.Views.{site_at, sites_seen};
ghost use Rattle.od_matching.specs.Rounds.Candidates.{openings};
ghost use Rattle.od_matching.specs.Rounds.Round.{round_over};
ghost use Rattle.od_matching.specs.Rounds.Sites.{runs_in, runs_to};
ghost use Rattle.od_need.specs.Candidates.{candidates as needed_at, needed};
ghost use Rattle.od_need.specs.Needs.{need_of};
ghost use Rattle.od_pattern.specs.declared.grammar.Grammar.{Grammar};
ghost use Rattle.od_pattern.specs.declared.rule.Rule.{Rule as Asked};
ghost use Rattle.od_rounds.specs.Gives.{Gives, Met};
ghost use Rattle.od_rounds.specs.Looked.{walk_from};
ghost use Rattle.od_rounds.specs.Planned.{IsPlan};
ghost use Rattle.od_rounds.specs.Ready.{IsReady, items_of_rule, opened_by_rule};
ghost use Rattle.od_rounds.specs.Weighed.{heaviest, most_kept};
ghost use Rattle.od_segment.specs.Seen.{place_of};

use crate::fault::RoundFault;
use crate::visit::{NumberedRule, visit_all};
use od_columns::ResolvedRule;
use od_mentions::State;
use od_pattern::rule::{Priority, Rule};
use od_plan::candidates::candidates;
use od_plan::wanted::Wanted;
use od_rule::compiled::ReadyRules;
use od_rule::finder::Finder;
use od_segment::{SentenceRef, Steps, View};
use od_text::list::List;
use od_text::text::NoMemory;
use std::alloc::Global;
use std::sync::ledger::Ledger;

/// Rules made ready, each resolved over the table of each segment, and what is wanted there.
#[derive(Drop)]
pub(crate) struct RuleFile<'a> {
    pub(crate) rules: &'a ReadyRules,
    pub(crate) resolved: &'a [List<ResolvedRule>],
    pub(crate) plans: &'a [List<Wanted>],
}

/// A round: the rules, what is seen, the mentions that are known before it, and its number from 1.
#[derive(Drop)]
pub(crate) struct Round<'a> {
    pub(crate) file: RuleFile<'a>,
    pub(crate) view: &'a View,
    pub(crate) known: &'a State,
    pub(crate) number: u64,
}

/// Whether the round is not after the last.
fn runs_until(round: u64, last: Option<u32>) -> bool
    ensures { result ≡ runs_to round last }
{
    match last {
        None => true,
        Some(last) => round <= last as u64,
    }
}

/// Whether a priority holds a round.
fn holds_round(priority: &Priority, round: u64) -> bool
    ensures { result ≡ runs_in round priority.now }
{
    priority.first as u64 <= round && runs_until(round, priority.last)
}

/// The rule at a place.
fn rule_at(rules: &[Rule], place: usize) -> &Rule
    requires { place < length rules.now }
    ensures { slice_get rules.now place ≡ Some result.now }
{
    &rules[place]
}

/// What was resolved of the rule at a place.
fn resolved_of(resolved: &[List<ResolvedRule>], place: usize) -> &[ResolvedRule]
    requires { place < length resolved.now }
    ensures { slice_get resolved.now place ≡ Some result.now }
{
    resolved[place].get()
}

/// The plan of the rule at a place.
fn plan_of(plans: &[List<Wanted>], place: usize) -> &[Wanted]
    requires { place < length plans.now }
    ensures { slice_get plans.now place ≡ Some result.now }
{
    plans[place].get()
}

/// The sentences that are seen at which the need of a rule occurs.
fn refs_of(
    alloc: Global,
    rule: &Rule,
    plan: &[Wanted],
    view: &View,
    known: &State,
) -> Result<Vec<SentenceRef>, NoMemory>
    requires { IsPlan view.now.segments rule.now plan.now }
    ensures { IfOk result (λ refs. map (λ at. site_at view.now.segments (place_of at)) refs.items
        ≡ map Some (needed_at (need_of rule.now) (sites_seen view.now) known.now)) }
{
    candidates(alloc, plan, view, known)
}

/// Runs the rule at a place over the sentences at which its need occurs, where its priority holds
/// the round. Places are numbered from 0, and rules from 1.
fn run_at<L: Ledger>(
    alloc: Global,
    finder: &mut Finder,
    round: &Round,
    place: usize,
    found: &mut State,
    steps: &mut Steps<L>,
) -> Result<(), RoundFault>
    requires place { place < length round.now.file.rules.now }
    requires ready { IsReady round.now }
    requires light { weight round.now.known.now + weight found.old ≤ heaviest round.now.known.now }
    requires small { weight round.now.known.now ≤ most_kept }
    ensures steps { (rule : Asked) → slice_get round.now.file.rules.now place ≡ Some rule
        → steps.new ≤ steps.old + opened_by_rule round.now (place + 1, rule) }
    ensures light { OnOk result
        (weight round.now.known.now + weight found.new ≤ heaviest round.now.known.now) }
    ensures met { (rule : Asked) → slice_get round.now.file.rules.now place ≡ Some rule
        → Met result (walk_from round.now.known.now found.old
        (items_of_rule round.now (place + 1, rule))) found.new }
{
    let rule = rule_at(round.file.rules.rules(), place);
    if !holds_round(&rule.priority, round.number) {
        return Ok(());
    }
    let plan = plan_of(round.file.plans, place);
    let refs = refs_of(alloc, rule, plan, round.view, round.known)?;
    let numbered = NumberedRule {
        number: place as u32 + 1,
        rule,
        code: round.file.rules.code(place),
        resolved: resolved_of(round.file.resolved, place),
        view: round.view,
        known: round.known,
    };
    visit_all(alloc, finder, &numbered, &refs, found, steps)
}

/// Runs rules in the order of the file, each where its priority holds the round.
fn run_all<L: Ledger>(
    alloc: Global,
    round: &Round,
    found: &mut State,
    steps: &mut Steps<L>,
) -> Result<(), RoundFault>
    requires ready { IsReady round.now }
    requires light { weight round.now.known.now + weight found.old ≤ heaviest round.now.known.now }
    requires small { weight round.now.known.now ≤ most_kept }
    ensures steps { steps.new ≤ steps.old
        + sum_by (opened_by_rule round.now) (enumerate_from 1 round.now.file.rules.now) }
    ensures met { Met result (walk_from round.now.known.now found.old
        (flat_map (items_of_rule round.now) (enumerate_from 1 round.now.file.rules.now)))
        found.new }
{
    let mut finder = Finder::new(alloc);
    for place in 0..round.file.rules.rules().len() {
        run_at(alloc, &mut finder, round, place, found, steps)?;
    }
    Ok(())
}

/// What a round finds over the sentences that are seen, or why it is refused. Rules run in the order
/// of the file, each where its priority holds the round, against the mentions that are known; each
/// opens the sentences at which its need occurs.
pub(crate) fn run_round<L: Ledger>(
    alloc: Global,
    round: &Round,
    steps: &mut Steps<L>,
) -> Result<State, RoundFault>
    requires ready { IsReady round.now }
    requires unlike { distinct round.now.known.now ≡ round.now.known.now }
    requires small { weight round.now.known.now ≤ most_kept }
    ensures round { (g : Grammar) → g.rules ≡ round.now.file.rules.now
        → Gives result (round_over (sites_seen round.now.view.now) g round.now.number
        round.now.known.now) }
    ensures steps { (g : Grammar) → g.rules ≡ round.now.file.rules.now
        → steps.new ≤ steps.old + openings (needed round.now.known.now)
        (sites_seen round.now.view.now) g round.now.number }
{
    let mut found = State::new(alloc);
    run_all(alloc, round, &mut found, steps)?;
    Ok(found)
}
