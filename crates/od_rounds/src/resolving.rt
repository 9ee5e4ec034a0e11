//! Rules against the tables of segments.
ghost use Rattle.std.specs.Prelude.{◌≡◌, map, IfOk};
ghost use Rattle.od_asked.specs.Asked.{asked_rule};
ghost use Rattle.od_asked.specs.Expressions.{expressions_of};
ghost use Rattle.od_constraint.specs.Runners.{patterns_of, AreOwn, HaveAll};
ghost use Rattle.od_rounds.specs.Resolved.{resolved_over};
ghost use Rattle.od_text.specs.Lists.{Each};

use od_columns::{ResolvedRule, resolve_rule};
use od_constraint::Runners;
use od_io::Runner;
use od_pattern::rule::Rule;
use od_segment::View;
use od_text::list::List;
use od_text::text::NoMemory;
use std::alloc::Global;

/// A rule against the table of each segment.
fn resolve_over<R: Runner>(
    alloc: Global,
    rule: &Rule,
    runners: &mut Runners<R>,
    view: &View,
) -> Result<List<ResolvedRule>, NoMemory>
    requires own { AreOwn R.pattern runners.old }
    requires has { HaveAll runners.old (expressions_of (asked_rule rule.now)) }
    ensures resolved { IfOk result (λ resolved.
        resolved ≡ resolved_over view.now.segments rule.now) }
    ensures own { AreOwn R.pattern runners.new }
    ensures patterns { patterns_of runners.new ≡ patterns_of runners.old }
{
    let mut resolved = List::new(alloc);
    for segment in 0..view.count() {
        let one = resolve_rule(alloc, rule, view.table(segment), runners)?;
        resolved.push(one)?;
    }
    Ok(resolved)
}

/// Each rule against the table of each segment.
pub(crate) fn resolve_all<R: Runner>(
    alloc: Global,
    rules: &[Rule],
    runners: &mut Runners<R>,
    view: &View,
) -> Result<List<List<ResolvedRule>>, NoMemory>
    requires own { AreOwn R.pattern runners.old }
    requires has { Each (λ rule. HaveAll runners.old (expressions_of (asked_rule rule)))
        rules.now }
    ensures resolved { IfOk result (λ resolved.
        resolved ≡ map (resolved_over view.now.segments) rules.now) }
    ensures own { AreOwn R.pattern runners.new }
    ensures patterns { patterns_of runners.new ≡ patterns_of runners.old }
{
    let mut resolved = List::new(alloc);
    for rule in rules {
        let over = resolve_over(alloc, rule, runners, view)?;
        resolved.push(over)?;
    }
    Ok(resolved)
}
