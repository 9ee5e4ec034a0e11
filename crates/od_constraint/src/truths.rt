//! Where constraints and labels hold in sentences of numbers.
ghost use Rattle.std.specs.Prelude.{◌≡◌, ◌<◌, List, [], IfOk, length, slice_get, Some};
ghost use Rattle.od_asked.specs.Asked.{at_edges, at_tokens};
ghost use Rattle.od_asked.specs.Tables.{truths as truths_of};
ghost use Rattle.od_constraint.specs.Rows.{rows_of, stacked};
ghost use Rattle.od_constraint.specs.Steps.{AreSteps, AreStepsOf, Part};

use crate::hits::Hits;
use crate::resolving::{Resolved, ResolvedLabel};
use crate::rows::{edge_fits, put};
use crate::steps::Step;
use od_postings::IdSentence;
use od_text::text::NoMemory;
use std::alloc::Global;

/// For each edge of a sentence, in their order, whether its label fits the value.
pub fn edge_truth(
    alloc: Global,
    label: &ResolvedLabel,
    sentence: &IdSentence,
) -> Result<Vec<bool>, NoMemory>
    requires { label.now.table ≡ sentence.now.table }
    ensures { IfOk result (λ truths.
        truths.items ≡ truths_of sentence.now.sentence (at_edges label.now.value)) }
{
    let mut truths = Vec::with_capacity(alloc, sentence.edge_count() as usize)?;
    for place in 0..sentence.edge_count() {
        truths
            .push(edge_fits(&label.hits, sentence, place))
            .unwrap();
    }
    Ok(truths)
}

/// The step at a place.
fn step_at(steps: &[Step], place: usize) -> Step
    requires { place < length steps.now }
    ensures { slice_get steps.now place ≡ Some result }
{
    steps[place]
}

/// The rows that steps leave, from the last step to the first.
fn walk(
    alloc: Global,
    steps: &[Step],
    hits: &[Hits],
    sentence: &IdSentence,
) -> Result<Vec<Vec<bool>>, NoMemory>
    requires { AreSteps sentence.now.table hits.now steps.now }
    ensures { IfOk result (λ rows. (parts : List Part)
        → AreStepsOf sentence.now.table hits.now steps.now parts []
        → stacked rows.items ≡ rows_of sentence.now.sentence parts) }
{
    let mut rows = Vec::new(alloc);
    let mut place = steps.len();
    while place > 0 {
        place -= 1;
        put(alloc, &mut rows, step_at(steps, place), hits, sentence)?;
    }
    Ok(rows)
}

/// For each token of a sentence, in their order, whether the constraint holds there. It costs the
/// tokens times the size of the constraint, and compares numbers alone.
pub fn truth(
    alloc: Global,
    resolved: &Resolved,
    sentence: &IdSentence,
) -> Result<Vec<bool>, NoMemory>
    requires { resolved.now.table ≡ sentence.now.table }
    ensures { IfOk result (λ truths.
        truths.items ≡ truths_of sentence.now.sentence (at_tokens resolved.now.constraint)) }
{
    let mut rows = walk(alloc, &resolved.steps, &resolved.hits, sentence)?;
    match rows.pop() {
        Some(row) => Ok(row),
        None => unreachable!(),
    }
}
