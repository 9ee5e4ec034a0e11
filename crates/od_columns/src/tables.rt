//! Tables of truths on sentences of numbers.
ghost use Rattle.std.specs.Prelude.{◌≡◌, ◌++◌, ◌∷◌, [], map, IfOk};
ghost use Rattle.od_asked.specs.Tables.{columns_of, truths};
ghost use Rattle.od_text.specs.Lists.{Each};
ghost use Rattle.od_columns.specs.Resolved.{asked_in, table_of};

use crate::resolved::{ResolvedRule, ResolvedThing};
use od_asked::columns::Columns;
use od_constraint::{edge_truth, truth};
use od_postings::IdSentence;
use od_text::list::List;
use od_text::text::NoMemory;
use std::alloc::Global;

/// The truths of one thing.
fn row(alloc: Global, thing: &ResolvedThing, sentence: &IdSentence) -> Result<List<bool>, NoMemory>
    requires { table_of thing.now ≡ sentence.now.table }
    ensures { IfOk result (λ row. row ≡ truths sentence.now.sentence (asked_in thing.now)) }
{
    let row = match thing {
        ResolvedThing::AtTokens(resolved) => truth(alloc, resolved, sentence)?,
        ResolvedThing::AtEdges(label) => edge_truth(alloc, label, sentence)?,
    };
    Ok(List::from_vec(row))
}

/// The truths of all things, one row each.
fn rows(
    alloc: Global,
    things: &[ResolvedThing],
    sentence: &IdSentence,
) -> Result<List<List<bool>>, NoMemory>
    requires { Each (λ thing. table_of thing ≡ sentence.now.table) things.now }
    ensures { IfOk result (λ rows.
        rows ≡ columns_of sentence.now.sentence (map asked_in things.now)) }
{
    let mut rows = List::new(alloc);
    for thing in things {
        rows.push(row(alloc, thing, sentence)?)?;
    }
    Ok(rows)
}

/// The truths of what a rule asks on a sentence of the same table, one row for each thing in the
/// order of the rule's text. It compares numbers alone.
///
/// # Errors
///
/// `NoMemory` where memory is refused.
pub fn columns_on(
    alloc: Global,
    resolved: &ResolvedRule,
    sentence: &IdSentence,
) -> Result<Columns, NoMemory>
    requires { resolved.now.table ≡ sentence.now.table }
    ensures { IfOk result (λ columns.
        columns.rows ≡ columns_of sentence.now.sentence resolved.now.asked) }
{
    let rows = rows(alloc, &resolved.things, sentence)?;
    Ok(Columns { rows })
}
