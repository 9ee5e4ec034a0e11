//! The different regular expressions of rules, each where it first appears.
ghost use Rattle.std.specs.Prelude.{◌≡◌, ◌<◌, ◌^◌, ◌∷◌, [], length, IfOk, OnOk};
ghost use Rattle.od_columns.specs.Waiting.{texts};
ghost use Rattle.od_grammar.specs.Uses.{IsNoted, uses};
ghost use Rattle.od_rule_text.specs.Expressions.{appearances_in, body_expressions};
ghost use Rattle.od_rule_text.specs.Expressions.{first_appearances};

use od_columns::expressions_asked;
use od_names::names::Names;
use od_pattern::rule::Rule;
use od_text::text::{NoMemory, Text};
use std::alloc::Global;

/// A regular expression, and the rule in which it appears.
#[derive(Clone, Copy, Drop)]
pub(crate) struct Use<'a> {
    /// The number of the rule, from 1.
    pub(crate) rule: u32,
    pub(crate) expression: &'a Text,
}

/// Takes up an expression of a rule, where it did not appear before.
fn note<'a>(
    alloc: Global,
    rule: u32,
    expression: &'a Text,
    seen: &mut Names,
    found: &mut Vec<Use<'a>>,
) -> Result<(), NoMemory>
    ensures { OnOk result (IsNoted (appearances_in rule (expression.now ∷ []))
        seen.old (uses found.old.items) seen.new (uses found.new.items)) }
{
    match seen.place(expression) {
        Some(_) => Ok(()),
        None => {
            seen.push(alloc, expression)?;
            found.push(Use { rule, expression })?;
            Ok(())
        }
    }
}

/// Takes up the expressions of a rule in the order of its text.
fn note_all<'a>(
    alloc: Global,
    rule: u32,
    expressions: &[&'a Text],
    seen: &mut Names,
    found: &mut Vec<Use<'a>>,
) -> Result<(), NoMemory>
    ensures { OnOk result (IsNoted (appearances_in rule (texts expressions.now))
        seen.old (uses found.old.items) seen.new (uses found.new.items)) }
{
    for expression in expressions {
        note(alloc, rule, *expression, seen, found)?;
    }
    Ok(())
}

/// The different regular expressions of rules, in the order of the text, each where it first
/// appears.
pub(crate) fn first_uses<'a>(alloc: Global, rules: &'a [Rule]) -> Result<Vec<Use<'a>>, NoMemory>
    requires { length rules.now < 2 ^ 32 }
    ensures { IfOk result (λ found.
        uses found.items ≡ first_appearances body_expressions rules.now) }
{
    let mut seen = Names::new(alloc);
    let mut found = Vec::new(alloc);
    let mut passed: u32 = 0;
    for rule in rules {
        let expressions = expressions_asked(alloc, rule)?;
        note_all(alloc, passed + 1, &expressions, &mut seen, &mut found)?;
        passed += 1;
    }
    Ok(found)
}
