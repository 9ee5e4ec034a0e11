//! Constraints and label values against the texts of a table.
ghost use Rattle.std.specs.Prelude.{◌≡◌, ◌++◌, [], ◌∷◌, List, length, IfOk, OnOk};
ghost use Rattle.od_asked.specs.Expressions.{expression_of, expressions_in};
ghost use Rattle.od_index.specs.Terms.{Term};
ghost use Rattle.od_pattern.specs.declared.pattern.Value.TheVariants as value;
ghost use Rattle.od_constraint.specs.declared.hits.Hits.{Hits as SomeHits};
ghost use Rattle.od_constraint.specs.Hits.{AreHits, Begins, HasHits, asked_field};
ghost use Rattle.od_constraint.specs.Noted.{AreNoted};
ghost use Rattle.od_constraint.specs.Runners.{patterns_of, AreOwn, HaveAll};
ghost use Rattle.od_constraint.specs.Steps.{AreStepsOf, IsNext, lent, parts, waiting};

use crate::hits::Hits;
use crate::noted::{Noted, none_noted, note, noted_place};
use crate::runners::Runners;
use crate::steps::Step;
use od_io::Runner;
use od_pattern::pattern::{Constraint, Field, Value};
use od_postings::TermTable;
use od_text::text::{NoMemory, Text};
use std::alloc::Global;
use std::marker::Model;
use std::snapshot::Snapshot;

/// A constraint against the texts of a table.
#[derive(Drop)]
pub struct Resolved {
    // Each operator stands before its operands.
    pub(crate) steps: Vec<Step>,
    // What the tests among the steps are answered by.
    pub(crate) hits: Vec<Hits>,
    constraint: Snapshot<Constraint>,
    table: Snapshot<TermTable>,
}

impl Model for Resolved {
    ghost use Rattle.std.specs.Prelude.{[]};
    ghost use Rattle.std.specs.Coded.{codes};
    ghost use Rattle.od_pattern.specs.contracts.pattern.Constraint as asked;
    ghost use Rattle.od_constraint.specs.Asking.{Asking};
    ghost use Rattle.od_constraint.specs.Steps.{AreStepsOf, parts};

    ghost Value = { Asking };

    ghost coded = { Prim.hlevel (codes, asked.the_row.coded) };

    ghost view = { λ r. record { constraint = r.constraint.value; table = r.table.value } };

    ghost invariant = { λ r.
        AreStepsOf r.table.value r.hits.items r.steps.items (parts r.constraint.value) [] };
}

/// The value of a label against the labels of a table.
#[derive(Drop)]
pub struct ResolvedLabel {
    pub(crate) hits: Hits,
    value: Snapshot<Value>,
    table: Snapshot<TermTable>,
}

impl Model for ResolvedLabel {
    ghost use Rattle.od_pattern.specs.declared.pattern.Field.TheVariants.{Incoming};
    ghost use Rattle.od_constraint.specs.Asking.{AskingLabel};
    ghost use Rattle.od_constraint.specs.Hits.{AreHits};

    ghost Value = { AskingLabel };

    ghost view = { λ r. record { value = r.value.value; table = r.table.value } };

    ghost invariant = { λ r. AreHits r.table.value Incoming r.value.value r.hits };
}

/// The numbers of a field's texts that fit a value: a plain text is looked up, and an expression is
/// run once over all of them.
fn hits_of<R: Runner>(
    alloc: Global,
    field: Field,
    value: &Value,
    table: &TermTable,
    runners: &mut Runners<R>,
) -> Result<Hits, NoMemory>
    requires own { AreOwn R.pattern runners.old }
    requires has { HaveAll runners.old (expression_of value.now) }
    ensures hits { IfOk result (AreHits table.now field value.now) }
    ensures own { AreOwn R.pattern runners.new }
    ensures patterns { patterns_of runners.new ≡ patterns_of runners.old }
{
    match value {
        Value::Plain(text) => {
            // Its clause says that the table ascends.
            let _len = table.len();
            Ok(Hits::One(table.number(field, text.get())))
        }
        Value::Regex(expression) => {
            let (first, texts) = table.texts(field);
            let fits = runners.run(alloc, expression, texts)?;
            Ok(Hits::Run { first, fits })
        }
    }
}

/// The value of a label against the labels of a table.
pub fn resolve_label<R: Runner>(
    alloc: Global,
    value: &Value,
    table: &TermTable,
    runners: &mut Runners<R>,
) -> Result<ResolvedLabel, NoMemory>
    requires own { AreOwn R.pattern runners.old }
    requires has { HaveAll runners.old (expression_of value.now) }
    ensures value { IfOk result (λ label. label.value ≡ value.now) }
    ensures table { IfOk result (λ label. label.table ≡ table.now) }
    ensures own { AreOwn R.pattern runners.new }
    ensures patterns { patterns_of runners.new ≡ patterns_of runners.old }
{
    let hits = hits_of(alloc, Field::Incoming, value, table, runners)?;
    Ok(ResolvedLabel {
        hits,
        value: Snapshot::of(value),
        table: Snapshot::of(table),
    })
}

/// The field whose texts are asked: an edge has the number of its label as an incoming one.
fn field_asked(field: Field) -> Field
    ensures { result ≡ asked_field field }
{
    match field {
        Field::Outgoing => Field::Incoming,
        field => field,
    }
}

/// The hits of the values so far, and which expressions were run.
#[derive(Drop)]
struct Tested {
    hits: Vec<Hits>,
    // For each runner over which fields it was run, and where the hits stand.
    noted: Vec<Noted>,
}

/// One more value's hits; their place.
fn put_hits(hits: &mut Vec<Hits>, more: Hits) -> Result<usize, NoMemory>
    ensures { IfOk result (λ place. (place ≡ length hits.old.items)
        × (hits.new.items ≡ hits.old.items ++ more ∷ [])) }
{
    let place = hits.len();
    hits.push(more)?;
    Ok(place)
}

/// Where the hits of a value stand. Those of an expression that was run over the field are there
/// already.
fn place_of_hits<R: Runner>(
    alloc: Global,
    field: Field,
    value: &Value,
    table: &TermTable,
    runners: &mut Runners<R>,
    tested: &mut Tested,
) -> Result<usize, NoMemory>
    requires own { AreOwn R.pattern runners.old }
    requires has { HaveAll runners.old (expression_of value.now) }
    requires noted { AreNoted table.now tested.old.hits.items
        (patterns_of runners.old) tested.old.noted.items }
    ensures place { IfOk result (HasHits table.now tested.new.hits.items field value.now) }
    ensures kept { OnOk result (Begins tested.old.hits.items tested.new.hits.items) }
    ensures noted { OnOk result (AreNoted table.now tested.new.hits.items
        (patterns_of runners.new) tested.new.noted.items) }
    ensures own { AreOwn R.pattern runners.new }
    ensures patterns { patterns_of runners.new ≡ patterns_of runners.old }
{
    match value {
        Value::Plain(_) => {
            let hits = hits_of(alloc, field, value, table, runners)?;
            put_hits(&mut tested.hits, hits)
        }
        Value::Regex(expression) => {
            let runner = runners.place(expression);
            if let Some(place) = noted_place(&tested.noted, runner, field) {
                return Ok(place);
            }
            let hits = hits_of(alloc, field, value, table, runners)?;
            let place = put_hits(&mut tested.hits, hits)?;
            note(&mut tested.noted, runner, field, place);
            Ok(place)
        }
    }
}

/// One more constraint waits.
fn wait<'a>(todo: &mut Vec<&'a Constraint>, next: &'a Constraint) -> Result<(), NoMemory>
    ensures { OnOk result (lent todo.new.items ≡ lent todo.old.items ++ next.now ∷ []) }
{
    todo.push(next)?;
    Ok(())
}

/// The step of a constraint. Its operands wait from then on, the left one as the next.
fn step_of<'a, R: Runner>(
    alloc: Global,
    todo: &mut Vec<&'a Constraint>,
    next: &'a Constraint,
    table: &TermTable,
    runners: &mut Runners<R>,
    tested: &mut Tested,
) -> Result<Step, NoMemory>
    requires own { AreOwn R.pattern runners.old }
    requires has { HaveAll runners.old (expressions_in next.now) }
    requires noted { AreNoted table.now tested.old.hits.items
        (patterns_of runners.old) tested.old.noted.items }
    ensures step { IfOk result (λ step. IsNext table.now tested.new.hits.items step
        (parts next.now ++ waiting (lent todo.old.items)) (waiting (lent todo.new.items))) }
    ensures kept { OnOk result (Begins tested.old.hits.items tested.new.hits.items) }
    ensures noted { OnOk result (AreNoted table.now tested.new.hits.items
        (patterns_of runners.new) tested.new.noted.items) }
    ensures own { AreOwn R.pattern runners.new }
    ensures patterns { patterns_of runners.new ≡ patterns_of runners.old }
{
    match next {
        Constraint::Any => Ok(Step::Any),
        Constraint::Is(field, value) => {
            let asked = field_asked(*field);
            let place = place_of_hits(alloc, asked, value, table, runners, tested)?;
            Ok(Step::Is(*field, place))
        }
        Constraint::Not(inner) => {
            wait(todo, inner.get())?;
            Ok(Step::Not)
        }
        Constraint::And(left, right) => {
            wait(todo, right.get())?;
            wait(todo, left.get())?;
            Ok(Step::And)
        }
        Constraint::Or(left, right) => {
            wait(todo, right.get())?;
            wait(todo, left.get())?;
            Ok(Step::Or)
        }
    }
}

/// A constraint against the texts of a table. Each regular expression in it is run once over the
/// table's texts of each field that it is asked of. Constraints that wait stand in a list, since
/// one may be thousands deep.
pub fn resolve<R: Runner>(
    alloc: Global,
    constraint: &Constraint,
    table: &TermTable,
    runners: &mut Runners<R>,
) -> Result<Resolved, NoMemory>
    requires own { AreOwn R.pattern runners.old }
    requires has { HaveAll runners.old (expressions_in constraint.now) }
    ensures constraint { IfOk result (λ resolved. resolved.constraint ≡ constraint.now) }
    ensures table { IfOk result (λ resolved. resolved.table ≡ table.now) }
    ensures own { AreOwn R.pattern runners.new }
    ensures patterns { patterns_of runners.new ≡ patterns_of runners.old }
{
    let mut steps = Vec::new(alloc);
    let noted = none_noted(alloc, runners.len())?;
    let mut tested = Tested {
        hits: Vec::new(alloc),
        noted,
    };
    let mut todo = Vec::new(alloc);
    wait(&mut todo, constraint)?;
    while let Some(next) = todo.pop() {
        let step = step_of(alloc, &mut todo, next, table, runners, &mut tested)?;
        steps.push(step)?;
    }
    Ok(Resolved {
        steps,
        hits: tested.hits,
        constraint: Snapshot::of(constraint),
        table: Snapshot::of(table),
    })
}
