//! What a rule asks against the texts of a table.
ghost use Rattle.std.specs.Prelude.{◌≡◌, ◌++◌, ◌∷◌, [], ℕ, List, map, IfOk, OnOk};
ghost use Rattle.od_asked.specs.Asked.{asked_rule};
ghost use Rattle.od_asked.specs.Expressions.{expressions_at, expressions_of};
ghost use Rattle.od_columns.specs.Lent.{all_lent, lent};
ghost use Rattle.od_text.specs.Lists.{Each};
ghost use Rattle.od_columns.specs.Resolved.{asked_in, table_of};
ghost use Rattle.od_constraint.specs.Runners.{patterns_of, AreOwn, HaveAll};

use crate::asks::{Asking, asked_of};
use od_constraint::{Resolved, ResolvedLabel, Runners, resolve, resolve_label};
use od_io::Runner;
use od_pattern::rule::Rule;
use od_postings::TermTable;
use od_text::text::NoMemory;
use std::alloc::Global;
use std::marker::Model;
use std::snapshot::Snapshot;

/// One thing that a rule asks, against the texts of a table.
#[derive(Drop)]
pub enum ResolvedThing {
    /// Of the tokens.
    AtTokens(Resolved),
    /// Of the labels of the edges.
    AtEdges(ResolvedLabel),
}

/// What a rule asks, in the order of its text, against the texts of a table. Contracts see what is
/// asked and the table.
#[derive(Drop)]
pub struct ResolvedRule {
    pub(crate) things: Vec<ResolvedThing>,
    table: Snapshot<TermTable>,
}

impl Model for ResolvedRule {
    ghost use Rattle.std.specs.Prelude.{◌≡◌, map};
    ghost use Rattle.std.specs.Coded.{codes};
    ghost use Rattle.od_pattern.specs.contracts.pattern.Constraint as constraint;
    ghost use Rattle.od_text.specs.Lists.{Each};
    ghost use Rattle.od_columns.specs.Resolved.{AskingAll, asked_in, table_of};

    ghost Value = { AskingAll };

    ghost coded = { Prim.hlevel (codes, constraint.the_row.coded) };

    ghost view = { λ r. record { asked = map asked_in r.things.items; table = r.table.value } };

    ghost invariant = { λ r. Each (λ thing. table_of thing ≡ r.table.value) r.things.items };
}

/// One thing against the texts of a table.
fn resolve_thing<R: Runner>(
    alloc: Global,
    asking: Asking,
    table: &TermTable,
    runners: &mut Runners<R>,
) -> Result<ResolvedThing, NoMemory>
    requires own { AreOwn R.pattern runners.old }
    requires has { HaveAll runners.old (expressions_at (lent asking)) }
    ensures asked { IfOk result (λ thing. asked_in thing ≡ lent asking.entry) }
    ensures table { IfOk result (λ thing. table_of thing ≡ table.now) }
    ensures own { AreOwn R.pattern runners.new }
    ensures patterns { patterns_of runners.new ≡ patterns_of runners.old }
{
    match asking {
        Asking::AtTokens(constraint) => {
            let resolved = resolve(alloc, constraint, table, runners)?;
            Ok(ResolvedThing::AtTokens(resolved))
        }
        Asking::AtEdges(value) => {
            let label = resolve_label(alloc, value, table, runners)?;
            Ok(ResolvedThing::AtEdges(label))
        }
    }
}

/// All things against the texts of a table.
fn resolve_all<R: Runner>(
    alloc: Global,
    asked: &[Asking],
    table: &TermTable,
    runners: &mut Runners<R>,
) -> Result<Vec<ResolvedThing>, NoMemory>
    requires own { AreOwn R.pattern runners.old }
    requires has { HaveAll runners.old (expressions_of (all_lent asked.now)) }
    ensures asked { IfOk result (λ things. map asked_in things.items ≡ all_lent asked.now) }
    ensures table { IfOk result (λ things.
        Each (λ thing. table_of thing ≡ table.now) things.items) }
    ensures own { AreOwn R.pattern runners.new }
    ensures patterns { patterns_of runners.new ≡ patterns_of runners.old }
{
    let mut things = Vec::new(alloc);
    for asking in asked {
        let thing = resolve_thing(alloc, *asking, table, runners)?;
        things.push(thing)?;
    }
    Ok(things)
}

/// What a rule asks against the texts of a table. Each regular expression is run once over the
/// table's texts of each field that it is asked of, for each constraint that has it.
///
/// # Errors
///
/// `NoMemory` where memory is refused.
pub fn resolve_rule<R: Runner>(
    alloc: Global,
    rule: &Rule,
    table: &TermTable,
    runners: &mut Runners<R>,
) -> Result<ResolvedRule, NoMemory>
    requires own { AreOwn R.pattern runners.old }
    requires has { HaveAll runners.old (expressions_of (asked_rule rule.now)) }
    ensures asked { IfOk result (λ resolved. resolved.asked ≡ asked_rule rule.now) }
    ensures table { IfOk result (λ resolved. resolved.table ≡ table.now) }
    ensures own { AreOwn R.pattern runners.new }
    ensures patterns { patterns_of runners.new ≡ patterns_of runners.old }
{
    let asked = asked_of(alloc, rule)?;
    let things = resolve_all(alloc, &asked, table, runners)?;
    Ok(ResolvedRule {
        things,
        table: Snapshot::of(table),
    })
}
