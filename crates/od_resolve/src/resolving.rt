//! Needs over a table.
ghost use Rattle.std.specs.Prelude.{◌≡◌, Contains, IfOk};
ghost use Rattle.std.specs.List.{flat_map};
ghost use Rattle.od_asked.specs.Expressions.{expression_of};
ghost use Rattle.od_constraint.specs.Fitting.{AreFitting};
ghost use Rattle.od_constraint.specs.Runners.{patterns_of, AreOwn, HaveAll};
ghost use Rattle.od_need.specs.declared.need.Need as need;
ghost use Rattle.od_pattern.specs.declared.pattern.Field.TheVariants as field;
ghost use Rattle.od_pattern.specs.declared.pattern.Value.{Value as Asked};
ghost use Rattle.od_need.specs.Expressions.{expressions_needed};
ghost use Rattle.od_plan.specs.Means.{AreOneOf, Means, MeansAll, MeansAny};

use crate::folding::{all_of_parts, any_of_parts, put_all, put_any};
use od_constraint::{Runners, numbers_equal, numbers_matching};
use od_io::Runner;
use od_need::need::Need;
use od_pattern::pattern::{Field, Value};
use od_plan::wanted::Wanted;
use od_postings::TermTable;
use od_text::list::List;
use od_text::text::{Copied, NoMemory};
use std::alloc::Global;

/// A token with the text of one of the numbers.
fn one_of(numbers: Vec<u32>) -> Wanted
    ensures { AreOneOf numbers.items result }
{
    match numbers.as_slice() {
        [] => Wanted::Nowhere,
        [number] => Wanted::Term(*number),
        _ => Wanted::OneOf(List::from_vec(numbers)),
    }
}

/// An edge whose label fits the value: such a label comes in at a token.
fn resolve_edge<R: Runner>(
    alloc: Global,
    value: &Value,
    table: &TermTable,
    runners: &mut Runners<R>,
) -> Result<Wanted, NoMemory>
    requires own { AreOwn R.pattern runners.old }
    requires has { HaveAll runners.old (expression_of value.now) }
    ensures means { IfOk result (Means table.now (need.Edge value.now)) }
    ensures own { AreOwn R.pattern runners.new }
    ensures patterns { patterns_of runners.new ≡ patterns_of runners.old }
{
    let numbers = match value {
        Value::Plain(text) => numbers_equal(alloc, Field::Incoming, text, table)?,
        Value::Regex(expression) => {
            numbers_matching(alloc, Field::Incoming, expression, table, runners)?
        }
    };
    Ok(one_of(numbers))
}

/// A need over the numbers of a table. Each regular expression in it is run once over the table's
/// texts of its field.
///
/// # Errors
///
/// `NoMemory` where memory is refused.
#[cycle(need)]
pub fn resolve_need<R: Runner>(
    alloc: Global,
    need: &Need,
    table: &TermTable,
    runners: &mut Runners<R>,
) -> Result<Wanted, NoMemory>
    requires own { AreOwn R.pattern runners.old }
    requires has { HaveAll runners.old (expressions_needed need.now) }
    ensures means { IfOk result (Means table.now need.now) }
    ensures own { AreOwn R.pattern runners.new }
    ensures patterns { patterns_of runners.new ≡ patterns_of runners.old }
{
    match need {
        Need::True => Ok(Wanted::Everywhere),
        Need::Term(field, text) => {
            let numbers = numbers_equal(alloc, *field, text, table)?;
            Ok(one_of(numbers))
        }
        Need::Regex(field, expression) => {
            let numbers = numbers_matching(alloc, *field, expression, table, runners)?;
            Ok(one_of(numbers))
        }
        Need::Edge(value) => {
            let edge = resolve_edge(alloc, value, table, runners)?;
            Ok(edge)
        }
        Need::Label(name) => Ok(Wanted::Label(name.copy(alloc)?)),
        Need::And(needs) => resolve_all(alloc, needs.get(), table, runners),
        Need::Or(needs) => resolve_any(alloc, needs.get(), table, runners),
    }
}

/// All of some needs.
#[cycle(need)]
fn resolve_all<R: Runner>(
    alloc: Global,
    needs: &[Need],
    table: &TermTable,
    runners: &mut Runners<R>,
) -> Result<Wanted, NoMemory>
    requires own { AreOwn R.pattern runners.old }
    requires has { HaveAll runners.old (flat_map expressions_needed needs.now) }
    ensures means { IfOk result (MeansAll table.now needs.now) }
    ensures own { AreOwn R.pattern runners.new }
    ensures patterns { patterns_of runners.new ≡ patterns_of runners.old }
{
    let mut parts = List::new(alloc);
    for need in needs {
        let part = resolve_need(alloc, need, table, runners)?;
        if let Wanted::Nowhere = part {
            return Ok(Wanted::Nowhere);
        }
        put_all(&mut parts, part)?;
    }
    Ok(all_of_parts(parts))
}

/// One of some needs.
#[cycle(need)]
fn resolve_any<R: Runner>(
    alloc: Global,
    needs: &[Need],
    table: &TermTable,
    runners: &mut Runners<R>,
) -> Result<Wanted, NoMemory>
    requires own { AreOwn R.pattern runners.old }
    requires has { HaveAll runners.old (flat_map expressions_needed needs.now) }
    ensures means { IfOk result (MeansAny table.now needs.now) }
    ensures own { AreOwn R.pattern runners.new }
    ensures patterns { patterns_of runners.new ≡ patterns_of runners.old }
{
    let mut parts = List::new(alloc);
    for need in needs {
        let part = resolve_need(alloc, need, table, runners)?;
        if let Wanted::Everywhere = part {
            return Ok(Wanted::Everywhere);
        }
        put_any(&mut parts, part)?;
    }
    Ok(any_of_parts(parts))
}
