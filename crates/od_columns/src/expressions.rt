//! The regular expressions of what is asked.
ghost use Rattle.std.specs.Prelude.{◌≡◌, ◌+◌, ◌<◌, ◌++◌, ◌∷◌, [], List, map, IfOk, OnOk};
ghost use Rattle.od_asked.specs.Asked.{asked_rule};
ghost use Rattle.od_asked.specs.Expressions.{expression_of, expressions_at, expressions_in, expressions_of};
ghost use Rattle.od_columns.specs.Lent.{all_lent, lent};
ghost use Rattle.od_columns.specs.Waiting.{constraints, expressions_waiting, texts, work};
ghost use Rattle.od_pattern.specs.Walk.{parts_in};

use crate::asks::{Asking, asked_of};
use od_pattern::pattern::{Constraint, Value};
use od_pattern::rule::Rule;
use od_text::text::{NoMemory, Text};
use std::alloc::Global;

/// One constraint more waits.
fn wait<'a>(todo: &mut Vec<&'a Constraint>, next: &'a Constraint) -> Result<(), NoMemory>
    ensures { OnOk result
        (constraints todo.new.items ≡ constraints todo.old.items ++ next.now ∷ []) }
{
    todo.push(next)?;
    Ok(())
}

/// One expression more.
fn note<'a>(found: &mut Vec<&'a Text>, expression: &'a Text) -> Result<(), NoMemory>
    ensures { OnOk result (texts found.new.items ≡ texts found.old.items ++ expression.now ∷ []) }
{
    found.push(expression)?;
    Ok(())
}

/// The expression of a value, where it is one.
fn push_value<'a>(value: &'a Value, found: &mut Vec<&'a Text>) -> Result<(), NoMemory>
    ensures { OnOk result
        (texts found.new.items ≡ texts found.old.items ++ expression_of value.now) }
{
    match value {
        Value::Plain(_) => Ok(()),
        Value::Regex(expression) => note(found, expression),
    }
}

/// Takes up a constraint. Its operands wait from then on, the left one as the next.

fn step<'a>(
    next: &'a Constraint,
    todo: &mut Vec<&'a Constraint>,
    found: &mut Vec<&'a Text>,
) -> Result<(), NoMemory>
    ensures found { OnOk result (texts found.new.items ++ expressions_waiting (constraints todo.new.items)
        ≡ texts found.old.items
        ++ (expressions_in next.now ++ expressions_waiting (constraints todo.old.items))) }
    ensures less { OnOk result (work (constraints todo.new.items)
        < work (constraints todo.old.items) + parts_in next.now) }
{
    match next {
        Constraint::Any => Ok(()),
        Constraint::Is(_, value) => {
            push_value(value, found)?;
            Ok(())
        }
        Constraint::Not(inner) => {
            wait(todo, inner.get())?;
            Ok(())
        }
        Constraint::And(left, right) => {
            wait(todo, right.get())?;
            wait(todo, left.get())?;
            Ok(())
        }
        Constraint::Or(left, right) => {
            wait(todo, right.get())?;
            wait(todo, left.get())?;
            Ok(())
        }
    }
}

/// The expressions of a constraint. Constraints that wait stand in a list, since one may be
/// thousands deep.
fn push_constraint<'a>(
    alloc: Global,
    constraint: &'a Constraint,
    found: &mut Vec<&'a Text>,
) -> Result<(), NoMemory>
    ensures { OnOk result
        (texts found.new.items ≡ texts found.old.items ++ expressions_in constraint.now) }
{
    let mut todo = Vec::new(alloc);
    wait(&mut todo, constraint)?;
    while let Some(next) = todo.pop() {
        step(next, &mut todo, found)?;
    }
    Ok(())
}

/// The expressions of one thing.
fn push_asking<'a>(
    alloc: Global,
    asking: Asking<'a>,
    found: &mut Vec<&'a Text>,
) -> Result<(), NoMemory>
    ensures { OnOk result
        (texts found.new.items ≡ texts found.old.items ++ expressions_at (lent asking.entry)) }
{
    match asking {
        Asking::AtTokens(constraint) => {
            push_constraint(alloc, constraint, found)?;
            Ok(())
        }
        Asking::AtEdges(value) => {
            push_value(value, found)?;
            Ok(())
        }
    }
}

/// The expressions of all things, one after another.
fn push_all<'a>(
    alloc: Global,
    asked: &[Asking<'a>],
    found: &mut Vec<&'a Text>,
) -> Result<(), NoMemory>
    ensures { OnOk result
        (texts found.new.items ≡ texts found.old.items ++ expressions_of (all_lent asked.now)) }
{
    for asking in asked {
        push_asking(alloc, *asking, found)?;
    }
    Ok(())
}

/// The regular expressions of what a rule asks, in the order of its text, each as often as it
/// stands there. It copies none of them.
///
/// # Errors
///
/// `NoMemory` where memory is refused.
pub fn expressions_asked<'a>(alloc: Global, rule: &'a Rule) -> Result<Vec<&'a Text>, NoMemory>
    ensures { IfOk result (λ found. texts found.items ≡ expressions_of (asked_rule rule.now)) }
{
    let asked = asked_of(alloc, rule)?;
    let mut found = Vec::new(alloc);
    push_all(alloc, &asked, &mut found)?;
    Ok(found)
}
