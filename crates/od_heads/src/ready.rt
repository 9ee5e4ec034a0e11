//! The grammar of a head made ready.
ghost use Rattle.std.specs.Prelude.{◌≡◌, ◌<◌, ◌≤◌, List as Seq, length, slice_get, IfOk, IsSomeAnd};
ghost use Rattle.std.specs.Arc.{arc_value};
ghost use Rattle.std.specs.List.{AllZip};
ghost use Rattle.od_constraint.specs.Runners.{patterns_of};
ghost use Rattle.od_extraction.specs.Weight.{weight, most_weight};
ghost use Rattle.od_heads.specs.Ready.{CanRun, IsReady};
ghost use Rattle.od_matching.specs.Rounds.Standing.{standing};
ghost use Rattle.od_pattern.specs.declared.grammar.Head.{Head};
ghost use Rattle.od_text.specs.Lists.{Each};

use od_constraint::Runners;
use od_extraction::mention::Mention;
use od_io::Runner;
use od_rounds::Session;
use od_rule::compiled::ReadyRules;
use od_segment::View;
use od_text::list::List;
use od_text::text::NoMemory;
use std::alloc::Global;
use std::sync::Arc;

/// The grammar of a head made ready: its rules, and a runner of each of its regular expressions.
#[derive(Drop)]
pub(crate) struct Ready<R> {
    pub rules: Arc<ReadyRules, Global>,
    pub runners: Runners<R>,
}

impl<R: Drop> Ready<R> {
    /// Rules with their runners. Sessions share the rules.
    pub(crate) fn new(
        alloc: Global,
        rules: ReadyRules,
        runners: Runners<R>,
    ) -> Result<Ready<R>, NoMemory>
        ensures rules { IfOk result (λ ready. arc_value ready.rules ≡ rules) }
        ensures runners { IfOk result (λ ready. ready.runners ≡ runners) }
    {
        let rules = Arc::new(alloc, rules)?;
        Ok(Ready { rules, runners })
    }
}

/// A session that runs a grammar over a view, behind rounds that added these lists.
fn resume_one<R: Runner>(
    alloc: Global,
    ready: &mut Ready<R>,
    view: View,
    limit: u32,
    lists: &[List<Mention>],
) -> Result<Session, NoMemory>
    requires can_run { CanRun R.pattern (arc_value ready.old.rules) ready.old.runners }
    requires few { length lists.now ≤ limit }
    requires light { Each (λ list. weight list ≤ most_weight) lists.now }
    ensures resumed { IfOk result (λ s. s ≡ record {
      rules = arc_value ready.old.rules;
      seen = view;
      limit = limit;
      at = standing lists.now;
    }) }
    ensures can_run { CanRun R.pattern (arc_value ready.new.rules) ready.new.runners }
    ensures same { arc_value ready.new.rules ≡ arc_value ready.old.rules }
{
    let rules = Arc::try_clone(&ready.rules)?;
    Session::resume(alloc, rules, &mut ready.runners, view, limit, lists)
}

/// A session that runs the grammar at a place over a view, behind rounds that added these lists.
pub(crate) fn resume_at<R: Runner>(
    alloc: Global,
    ready: &mut [Ready<R>],
    place: usize,
    view: View,
    limit: u32,
    lists: &[List<Mention>],
) -> Result<Session, NoMemory>
    requires there { place < length ready.old }
    requires can_run { IsSomeAnd (slice_get ready.old place)
        (λ one. CanRun R.pattern (arc_value one.rules) one.runners) }
    requires few { length lists.now ≤ limit }
    requires light { Each (λ list. weight list ≤ most_weight) lists.now }
    ensures resumed { IfOk result (λ s. IsSomeAnd (slice_get ready.old place)
        (λ one. s ≡ record {
          rules = arc_value one.rules;
          seen = view;
          limit = limit;
          at = standing lists.now;
        })) }
    ensures ready { (heads : Seq Head) → AllZip (IsReady R.pattern) heads ready.old
        → AllZip (IsReady R.pattern) heads ready.new }
{
    resume_one(alloc, &mut ready[place], view, limit, lists)
}
