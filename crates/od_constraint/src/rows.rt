//! Rows of truths at the tokens of a sentence, and a stack of them.
ghost use Rattle.std.specs.Prelude.{◌≡◌, ◌<◌, ◌+◌, [], ◌∷◌, ◌++◌, Bool, List, IfOk, OnOk, IsSomeAnd, length, map, not, take, slice_get, Some};
ghost use Rattle.std.specs.List.{range_with_len};
ghost use Rattle.od_asked.specs.Asked.{at_edges};
ghost use Rattle.od_asked.specs.Holds.{has_text};
ghost use Rattle.od_asked.specs.Tables.{truths};
ghost use Rattle.od_pattern.specs.declared.pattern.Field.TheVariants as field;
ghost use Rattle.od_pattern.specs.declared.pattern.Value.{Value as Asked};
ghost use Rattle.od_constraint.specs.Hits.{AreHits};
ghost use Rattle.od_constraint.specs.Rows.{AreMarks, IsOwn, IsRowOf, end_of, joined, joined_top, onto, stacked, with_top, zipped};
ghost use Rattle.od_constraint.specs.Steps.{IsStep, IsStepOf, Part};

use crate::hits::Hits;
use crate::steps::Step;
use od_pattern::pattern::Field;
use od_postings::IdSentence;
use od_text::text::NoMemory;
use std::alloc::Global;

/// Whether the label of an edge fits.
pub(crate) fn edge_fits(hits: &Hits, sentence: &IdSentence, place: u32) -> bool
    requires { place < length sentence.now.sentence.edges }
    ensures { (value : Asked) → AreHits sentence.now.table field.Incoming value hits.now
        → slice_get (truths sentence.now.sentence (at_edges value)) place ≡ Some result }
{
    let ends = sentence.edge(place);
    hits.has(ends.2)
}

/// A row of one truth.
fn same_row(alloc: Global, truth: bool, len: u32) -> Result<Vec<bool>, NoMemory>
    ensures { IfOk result (λ same. same.items ≡ map (λ k. truth) (range_with_len 0 len)) }
{
    let same = vec![in alloc; truth; len as usize]?;
    Ok(same)
}

/// Whether the text that a token itself has in a field fits.
fn own_fits(field: Field, hits: &Hits, sentence: &IdSentence, token: u32) -> bool
    requires within { token < length sentence.now.sentence.tokens }
    requires own { IsOwn field }
    ensures { (value : Asked) → AreHits sentence.now.table field value hits.now
        → result ≡ has_text sentence.now.sentence field value token }
{
    match sentence.number(token, field) {
        Some(number) => hits.has(number),
        None => false,
    }
}

/// For each token whether the text that it has itself in a field fits.
fn own_row(
    alloc: Global,
    field: Field,
    hits: &Hits,
    sentence: &IdSentence,
) -> Result<Vec<bool>, NoMemory>
    requires { IsOwn field }
    ensures { IfOk result (λ own. IsRowOf sentence.now field hits.now own.items) }
{
    let mut own = Vec::with_capacity(alloc, sentence.len() as usize)?;
    for token in 0..sentence.len() {
        own.push(own_fits(field, hits, sentence, token)).unwrap();
    }
    Ok(own)
}

/// One end of an edge.
fn end_at(sentence: &IdSentence, place: u32, outgoing: bool) -> u32
    requires { place < length sentence.now.sentence.edges }
    ensures end { IsSomeAnd (slice_get sentence.now.sentence.edges place)
        (λ edge. end_of outgoing edge ≡ result) }
    ensures within { result < length sentence.now.sentence.tokens }
{
    let ends = sentence.edge(place);
    if outgoing { ends.0 } else { ends.1 }
}

/// Marks the end of an edge whose label fits.
fn mark(ends: &mut [bool], hits: &Hits, sentence: &IdSentence, place: u32, outgoing: bool)
    requires there { place < length sentence.now.sentence.edges }
    requires long { length ends.old ≡ length sentence.now.sentence.tokens }
    ensures long { length ends.new ≡ length ends.old }
    ensures marks { AreMarks sentence.now outgoing hits.now (take place sentence.now.sentence.edges) ends.old
        → AreMarks sentence.now outgoing hits.now (take (place + 1) sentence.now.sentence.edges) ends.new }
{
    if edge_fits(hits, sentence, place) {
        let end = end_at(sentence, place, outgoing) as usize;
        ends[end] = true;
    }
}

/// For each token whether the label of an edge fits that ends there, or that begins there. Each
/// edge is looked at once.
fn end_row(
    alloc: Global,
    hits: &Hits,
    sentence: &IdSentence,
    outgoing: bool,
) -> Result<Vec<bool>, NoMemory>
    ensures { IfOk result (λ ends.
        AreMarks sentence.now outgoing hits.now sentence.now.sentence.edges ends.items) }
{
    let mut ends = same_row(alloc, false, sentence.len())?;
    for place in 0..sentence.edge_count() {
        mark(&mut ends, hits, sentence, place, outgoing);
    }
    Ok(ends)
}

/// For each token whether some text of the field fits there.
fn test_row(
    alloc: Global,
    field: Field,
    hits: &Hits,
    sentence: &IdSentence,
) -> Result<Vec<bool>, NoMemory>
    ensures { IfOk result (λ texts. IsRowOf sentence.now field hits.now texts.items) }
{
    match field {
        Field::Incoming => end_row(alloc, hits, sentence, false),
        Field::Outgoing => end_row(alloc, hits, sentence, true),
        field => own_row(alloc, field, hits, sentence),
    }
}

/// Turns each truth.
fn turn(truths: &mut [bool])
    ensures { truths.new ≡ map not truths.old }
{
    for place in 0..truths.len() {
        truths[place] = !truths[place];
    }
}

fn join_one(a: bool, b: bool, both: bool) -> bool
    ensures { result ≡ joined both a b }
{
    if both { a && b } else { a || b }
}

/// Joins a truth with the one at its place in another row, where there is one.
fn join_at(truths: &mut [bool], other: &[bool], place: usize, both: bool)
    requires { place < length truths.old }
    ensures { (first : List Bool) → truths.old ≡ zipped (joined both) (take place other.now) first
        → truths.new ≡ zipped (joined both) (take (place + 1) other.now) first }
{
    if place < other.len() {
        truths[place] = join_one(other[place], truths[place], both);
    }
}

/// Joins each truth with the one at its place in another row: both must hold, or one of them.
fn join(truths: &mut [bool], other: &[bool], both: bool)
    ensures { truths.new ≡ zipped (joined both) other.now truths.old }
{
    for place in 0..truths.len() {
        join_at(truths, other, place, both);
    }
}

fn push(rows: &mut Vec<Vec<bool>>, top: Vec<bool>) -> Result<(), NoMemory>
    ensures { OnOk result (rows.new.items ≡ rows.old.items ++ top ∷ []) }
{
    rows.push(top)?;
    Ok(())
}

/// One more row, which is the topmost from then on.
fn push_row(rows: &mut Vec<Vec<bool>>, top: Vec<bool>) -> Result<(), NoMemory>
    ensures { OnOk result (stacked rows.new.items ≡ top.items ∷ stacked rows.old.items) }
{
    push(rows, top)
}

/// A row, turned.
fn turned_row(mut truths: Vec<bool>) -> Vec<bool>
    ensures { result.items ≡ map not truths.items }
{
    turn(&mut truths);
    truths
}

/// A row, joined with another one.
fn joined_row(mut truths: Vec<bool>, other: &[bool], both: bool) -> Vec<bool>
    ensures { result.items ≡ zipped (joined both) other.now truths.items }
{
    join(&mut truths, other, both);
    truths
}

/// Turns the topmost row.
fn turn_top(rows: &mut Vec<Vec<bool>>)
    ensures { stacked rows.new.items ≡ with_top (map not) (stacked rows.old.items) }
{
    match rows.pop() {
        None => {}
        Some(top) => rows.push(turned_row(top)).unwrap(),
    }
}

/// Joins the two topmost rows.
fn join_top(rows: &mut Vec<Vec<bool>>, both: bool)
    ensures { stacked rows.new.items ≡ joined_top (joined both) (stacked rows.old.items) }
{
    match rows.pop() {
        None => {}
        Some(top) => match rows.pop() {
            None => rows.push(top).unwrap(),
            Some(under) => rows.push(joined_row(under, &top, both)).unwrap(),
        },
    }
}

/// The row of a step onto those of its operands.
pub(crate) fn put(
    alloc: Global,
    rows: &mut Vec<Vec<bool>>,
    step: Step,
    hits: &[Hits],
    sentence: &IdSentence,
) -> Result<(), NoMemory>
    requires { IsStep sentence.now.table hits.now step }
    ensures { OnOk result ((part : Part) → IsStepOf sentence.now.table hits.now step part
        → stacked rows.new.items ≡ onto sentence.now.sentence part (stacked rows.old.items)) }
{
    match step {
        Step::Any => {
            let all = same_row(alloc, true, sentence.len())?;
            push_row(rows, all)
        }
        Step::Is(field, place) => {
            let texts = test_row(alloc, field, &hits[place], sentence)?;
            push_row(rows, texts)
        }
        Step::Not => {
            turn_top(rows);
            Ok(())
        }
        Step::And => {
            join_top(rows, true);
            Ok(())
        }
        Step::Or => {
            join_top(rows, false);
            Ok(())
        }
    }
}
