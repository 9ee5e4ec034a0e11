//! Sessions over a view of segments.
ghost use Rattle.std.specs.Prelude.{◌≡◌, ◌+◌, ◌≤◌, ◌<◌, ◌==◌, ◌&&◌, ◌++◌, [], List as Seq, length, take, nat_le, if◌then◌else◌, IfOk, OnOk, OnErr};
ghost use Rattle.std.specs.Arc.{arc_value};
ghost use Rattle.od_asked.specs.Asked.{asked_rule};
ghost use Rattle.od_asked.specs.Expressions.{expressions_of};
ghost use Rattle.od_constraint.specs.Runners.{patterns_of, AreOwn, HaveAll};
ghost use Rattle.od_document.specs.declared.doc.Doc.{Doc};
ghost use Rattle.od_extraction.specs.Joined.{joined};
ghost use Rattle.od_extraction.specs.Weight.{weight, most_weight};
ghost use Rattle.od_extraction.specs.declared.mention.Mention.{Mention as Known};
ghost use Rattle.od_extraction.specs.declared.mention.RoundResult.TheVariants as outcome;
ghost use Rattle.od_extraction.specs.declared.phase.Phase.TheVariants.{Going, Finished, AtLimit};
ghost use Rattle.od_index.specs.Segments.{Tiles};
ghost use Rattle.od_index.specs.Views.{sites_seen};
ghost use Rattle.od_matching.specs.Rounds.Candidates.{openings};
ghost use Rattle.od_matching.specs.Rounds.Phases.{greatest_first};
ghost use Rattle.od_matching.specs.Rounds.Round.{round};
ghost use Rattle.od_matching.specs.Rounds.Standing.{next_round, phase_at, standing, with_round};
ghost use Rattle.od_need.specs.Candidates.{needed};
ghost use Rattle.od_pattern.specs.declared.grammar.Grammar.{Grammar};
ghost use Rattle.od_rounds.specs.Gives.{Gives};
ghost use Rattle.od_text.specs.Lists.{Each};

use crate::fault::RoundFault;
use crate::moving::add_all;
use crate::planning::plan_all;
use crate::resolving::resolve_all;
use crate::resuming::{ends_quiet, known_of};
use crate::rules::{Round, RuleFile, run_round};
use od_columns::ResolvedRule;
use od_constraint::Runners;
use od_extraction::mention::Mention;
use od_extraction::phase::Phase;
use od_io::Runner;
use od_mentions::State;
use od_plan::wanted::Wanted;
use od_rule::compiled::{ReadyRules, greatest_first};
use od_segment::{Steps, View};
use od_text::list::List;
use od_text::text::NoMemory;
use std::alloc::Global;
use std::marker::Model;
use std::sync::Arc;
use std::sync::ledger::Ledger;

/// A session: rules that run over a view of segments, and what their rounds have found.
#[derive(Drop)]
pub struct Session {
    rules: Arc<ReadyRules, Global>,
    view: View,
    /// How many rounds it may have.
    limit: u32,
    /// The greatest first round of any rule.
    first: u32,
    /// Of each rule, for each segment.
    resolved: List<List<ResolvedRule>>,
    /// Of each rule, for each segment, what is wanted there.
    plans: List<List<Wanted>>,
    /// The mentions of all rounds.
    known: State,
    /// How many rounds it has had.
    rounds: u32,
    /// Whether the last round added nothing; not before the first.
    quiet: bool,
}

impl Model for Session {
    ghost use Rattle.std.specs.Arc.{arc_value};
    ghost use Rattle.std.specs.Coded.{codes};
    ghost use Rattle.od_pattern.specs.contracts.path.Path as path;
    ghost use Rattle.od_pattern.specs.contracts.pattern.Constraint as constraint;
    ghost use Rattle.od_pattern.specs.contracts.pattern.Surface as surface;
    ghost use Rattle.od_rounds.specs.Running.{Running, IsKept};

    ghost Value = { Running };

    ghost coded = { Prim.hlevel (codes, constraint.the_row.coded, surface.the_row.coded, path.the_row.coded) };

    ghost view = { λ s. record {
      rules = arc_value s.rules;
      seen = s.view;
      limit = s.limit;
      at = record { rounds = s.rounds; quiet = s.quiet; known = s.known };
    } };

    ghost invariant = { λ s.
        IsKept (arc_value s.rules) s.view.segments s.resolved s.plans s.first s.known };
}

/// Whether rounds go on: whether the last added nothing, the greatest first round of any rule, how
/// many rounds there were, and how many there may be.
fn phase_of(quiet: bool, first: u32, rounds: u64, limit: u32) -> Phase
    ensures { result ≡ (if quiet && nat_le first rounds then Finished
        else (if rounds == limit then AtLimit else Going)) }
{
    if quiet && first as u64 <= rounds {
        Phase::Finished
    } else if rounds == limit as u64 {
        Phase::AtLimit
    } else {
        Phase::Going
    }
}

impl Session {
    /// A session of rules over a view, with no round yet. Each rule is resolved here, once for each
    /// segment.
    ///
    /// # Errors
    ///
    /// `NoMemory` where memory is refused, and where there are 2^32 rules or more.
    pub fn open<R: Runner>(
        alloc: Global,
        rules: Arc<ReadyRules, Global>,
        runners: &mut Runners<R>,
        view: View,
        limit: u32,
    ) -> Result<Session, NoMemory>
        requires own { AreOwn R.pattern runners.old }
        requires has { Each (λ rule. HaveAll runners.old (expressions_of (asked_rule rule)))
            (arc_value rules) }
        ensures opened { IfOk result (λ s. s ≡ record {
          rules = arc_value rules;
          seen = view;
          limit = limit;
          at = standing [];
        }) }
        ensures own { AreOwn R.pattern runners.new }
        ensures patterns { patterns_of runners.new ≡ patterns_of runners.old }
    {
        let all = rules.rules();
        if u32::try_from(all.len()).is_err() {
            return Err(NoMemory);
        }
        let first = greatest_first(all);
        let resolved = resolve_all(alloc, all, runners, &view)?;
        let plans = plan_all(alloc, all, runners, &view)?;
        Ok(Session {
            rules,
            view,
            limit,
            first,
            resolved,
            plans,
            known: State::new(alloc),
            rounds: 0,
            quiet: false,
        })
    }

    /// Whether its rounds go on.
    pub fn phase(&self) -> Phase
        ensures { result ≡ phase_at (greatest_first self.now.rules) self.now.limit self.now.at }
    {
        phase_of(self.quiet, self.first, self.rounds as u64, self.limit)
    }

    /// Whether its rounds go on after one more that found these mentions.
    pub fn phase_with(&self, found: &State) -> Phase
        ensures { result ≡ phase_at (greatest_first self.now.rules) self.now.limit
            (with_round self.now.at found.now) }
    {
        phase_of(
            found.len() == 0,
            self.first,
            self.rounds as u64 + 1,
            self.limit,
        )
    }

    /// How many rounds it has had.
    pub fn rounds(&self) -> u32
        ensures { result ≡ self.now.at.rounds }
    {
        self.rounds
    }

    /// The mentions that its rounds have found.
    pub fn mentions(&self) -> &[Mention]
        ensures { result.now ≡ self.now.at.known }
    {
        self.known.get()
    }

    /// What the next round finds: the mentions that it adds, or why it is refused. Nothing changes.
    /// Each rule whose priority holds the round opens the sentences at which its need occurs, and no
    /// other, and finds what it finds against the mentions of earlier rounds alone.
    pub fn round<L: Ledger>(&self, alloc: Global, steps: &mut Steps<L>) -> Result<State, RoundFault>
        ensures round { (g : Grammar) → g.rules ≡ self.now.rules
            → Gives result (next_round (sites_seen self.now.seen) g self.now.at) }
        ensures scanned { (docs : Seq Doc) (lists : Seq (Seq Known)) (g : Grammar)
            → g.rules ≡ self.now.rules → Tiles self.now.seen.segments docs
            → self.now.at ≡ standing lists
            → Gives result (round (take self.now.seen.documents docs) g (length lists + 1)
            (joined lists)) }
        ensures steps { (g : Grammar) → g.rules ≡ self.now.rules
            → steps.new ≤ steps.old + openings (needed self.now.at.known)
            (sites_seen self.now.seen) g (self.now.at.rounds + 1) }
    {
        let round = Round {
            file: RuleFile {
                rules: &self.rules,
                resolved: self.resolved.get(),
                plans: self.plans.get(),
            },
            view: &self.view,
            known: &self.known,
            number: self.rounds as u64 + 1,
        };
        run_round(alloc, &round, steps)
    }

    /// Adds what the next round found, where one more round may be had.
    ///
    /// # Errors
    ///
    /// `NoMemory` where memory is refused; nothing changes then.
    pub fn add(&mut self, alloc: Global, found: State) -> Result<(), NoMemory>
        requires next { (g : Grammar) × (g.rules ≡ self.old.rules)
            × (next_round (sites_seen self.old.seen) g self.old.at ≡ outcome.Found found) }
        requires room { self.old.at.rounds < self.old.limit }
        ensures ok { OnOk result (self.new ≡ record self.old { at = with_round self.old.at found }) }
        ensures err { OnErr result (self.new ≡ self.old) }
    {
        let quiet = found.len() == 0;
        add_all(alloc, &mut self.known, found)?;
        self.rounds += 1;
        self.quiet = quiet;
        Ok(())
    }

    /// How many mentions its rounds have found, each counted once.
    pub fn count(&self) -> usize
        ensures { result ≡ length self.now.at.known }
    {
        self.known.len()
    }

    /// A session of rules over a view, behind rounds that added these lists. Each rule is resolved
    /// here, once for each segment; no sentence is opened, and no round is run.
    ///
    /// # Errors
    ///
    /// `NoMemory` where memory is refused, and where there are 2^32 rules or more.
    pub fn resume<R: Runner>(
        alloc: Global,
        rules: Arc<ReadyRules, Global>,
        runners: &mut Runners<R>,
        view: View,
        limit: u32,
        lists: &[List<Mention>],
    ) -> Result<Session, NoMemory>
        requires own { AreOwn R.pattern runners.old }
        requires has { Each (λ rule. HaveAll runners.old (expressions_of (asked_rule rule)))
            (arc_value rules) }
        requires few { length lists.now ≤ limit }
        requires light { Each (λ list. weight list ≤ most_weight) lists.now }
        ensures resumed { IfOk result (λ s. s ≡ record {
          rules = arc_value rules;
          seen = view;
          limit = limit;
          at = standing lists.now;
        }) }
        ensures own { AreOwn R.pattern runners.new }
        ensures patterns { patterns_of runners.new ≡ patterns_of runners.old }
    {
        let mut session = Session::open(alloc, rules, runners, view, limit)?;
        session.known = known_of(alloc, lists)?;
        session.rounds = lists.len() as u32;
        session.quiet = ends_quiet(lists);
        Ok(session)
    }
}
