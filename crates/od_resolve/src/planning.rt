//! Needs over the segments of a view.
ghost use Rattle.std.specs.Prelude.{◌≡◌, IfOk, length};
ghost use Rattle.od_constraint.specs.Runners.{patterns_of, AreOwn, HaveAll};
ghost use Rattle.od_plan.specs.Chosen.{AreMeant};
ghost use Rattle.od_need.specs.Expressions.{expressions_needed};

use crate::resolving::resolve_need;
use od_constraint::Runners;
use od_io::Runner;
use od_need::need::Need;
use od_plan::wanted::Wanted;
use od_segment::View;
use od_text::list::List;
use od_text::text::NoMemory;
use std::alloc::Global;

/// What is wanted in each segment of a view for a need.
///
/// # Errors
///
/// `NoMemory` where memory is refused.
pub fn plan_over<R: Runner>(
    alloc: Global,
    need: &Need,
    view: &View,
    runners: &mut Runners<R>,
) -> Result<List<Wanted>, NoMemory>
    requires own { AreOwn R.pattern runners.old }
    requires has { HaveAll runners.old (expressions_needed need.now) }
    ensures each { IfOk result (λ plan. length plan ≡ length view.now.segments) }
    ensures meant { IfOk result (AreMeant need.now view.now.segments) }
    ensures own { AreOwn R.pattern runners.new }
    ensures patterns { patterns_of runners.new ≡ patterns_of runners.old }
{
    let mut plan = List::new(alloc);
    for place in 0..view.count() {
        let one = resolve_need(alloc, need, view.table(place), runners)?;
        plan.push(one)?;
    }
    Ok(plan)
}
