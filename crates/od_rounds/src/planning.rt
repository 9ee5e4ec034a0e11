//! What is wanted of each rule in each segment.
ghost use Rattle.std.specs.Prelude.{◌≡◌, IfOk};
ghost use Rattle.od_asked.specs.Asked.{asked_rule};
ghost use Rattle.od_asked.specs.Expressions.{expressions_of};
ghost use Rattle.od_constraint.specs.Runners.{patterns_of, AreOwn, HaveAll};
ghost use Rattle.od_rounds.specs.Planned.{ArePlans, IsPlan};
ghost use Rattle.od_text.specs.Lists.{Each};

use od_constraint::Runners;
use od_io::Runner;
use od_pattern::rule::Rule;
use od_plan::wanted::Wanted;
use od_require::needs;
use od_resolve::planning::plan_over;
use od_segment::View;
use od_text::list::List;
use od_text::text::NoMemory;
use std::alloc::Global;

/// What is wanted in each segment for the need of a rule.
fn plan_rule<R: Runner>(
    alloc: Global,
    rule: &Rule,
    runners: &mut Runners<R>,
    view: &View,
) -> Result<List<Wanted>, NoMemory>
    requires own { AreOwn R.pattern runners.old }
    requires has { HaveAll runners.old (expressions_of (asked_rule rule.now)) }
    ensures plan { IfOk result (IsPlan view.now.segments rule.now) }
    ensures own { AreOwn R.pattern runners.new }
    ensures patterns { patterns_of runners.new ≡ patterns_of runners.old }
{
    let need = needs(alloc, rule)?;
    plan_over(alloc, &need, view, runners)
}

/// The plan of each rule.
pub(crate) fn plan_all<R: Runner>(
    alloc: Global,
    rules: &[Rule],
    runners: &mut Runners<R>,
    view: &View,
) -> Result<List<List<Wanted>>, NoMemory>
    requires own { AreOwn R.pattern runners.old }
    requires has { Each (λ rule. HaveAll runners.old (expressions_of (asked_rule rule)))
        rules.now }
    ensures plans { IfOk result (ArePlans view.now.segments rules.now) }
    ensures own { AreOwn R.pattern runners.new }
    ensures patterns { patterns_of runners.new ≡ patterns_of runners.old }
{
    let mut plans = List::new(alloc);
    for rule in rules {
        let plan = plan_rule(alloc, rule, runners, view)?;
        plans.push(plan)?;
    }
    Ok(plans)
}
