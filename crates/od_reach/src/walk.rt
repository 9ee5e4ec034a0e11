//! The walk of a path's moves over the tokens and edges of a sentence.
ghost use Rattle.std.specs.Prelude.{◌≡◌, ℕ, ◌+◌, ◌*◌, ◌^◌, ◌<◌, ◌≤◌, ◌++◌, ◌∷◌, [], Bool, false, not, List, length, vec_len, slice_index_or, count_by, IfOk, OnOk};
ghost use Rattle.od_matching.specs.Matching.Reach.{nodes};
ghost use Rattle.od_reach.specs.Links.{AllBelow, AreLinks, end_of, over_all};
ghost use Rattle.od_reach.specs.Moves.{allows, holds_in, if_so, input_of, nexts, spot};
ghost use Rattle.od_reach.specs.Reached.{AreReachedBy};
ghost use Rattle.od_reach.specs.Walking.{AreEnds, GoesOn, number, set_of, starts_below};

use crate::links::{Links, end_at};
use crate::moves::{Move, Spot};
use od_asked::columns::Columns;
use od_postings::IdSentence;
use od_text::text::NoMemory;
use std::alloc::Global;

/// Whether a row holds at a token or an edge.
fn holds(columns: &Columns, row: usize, k: usize) -> bool
    ensures { result ≡ holds_in columns.now.rows row k }
{
    match columns.rows.get().get(row) {
        Some(truths) => match truths.get().get(k) {
            Some(truth) => *truth,
            None => false,
        },
        None => false,
    }
}

/// Whether an edge may be crossed: where there is a row, it must hold there.
fn allowed(columns: &Columns, row: Option<u32>, edge: u32) -> bool
    ensures { result ≡ allows columns.now.rows row edge }
{
    match row {
        Some(row) => holds(columns, row as usize, edge as usize),
        None => true,
    }
}

/// One spot more.
fn add(pc: usize, at: usize, todo: &mut Vec<Spot>) -> Result<(), NoMemory>
    ensures spots { OnOk result (todo.new.items ≡ todo.old.items ++ spot pc at ∷ []) }
    ensures few { OnOk result (vec_len todo.new ≡ vec_len todo.old + 1) }
{
    todo.push(Spot { pc, at })?;
    Ok(())
}

/// One spot more, if so.
fn add_if(so: bool, pc: usize, at: usize, todo: &mut Vec<Spot>) -> Result<(), NoMemory>
    ensures spots { OnOk result (todo.new.items ≡ todo.old.items ++ if_so so (spot pc at)) }
    ensures few { OnOk result (vec_len todo.new ≤ vec_len todo.old + 1) }
{
    if so { add(pc, at, todo) } else { Ok(()) }
}

/// Adds the spots behind those of some edges that may be crossed: at their governors, or at their
/// dependents.
#[tactic(auto, using(crate::proofs::Crossed::one_more))]
fn cross(
    sentence: &IdSentence,
    columns: &Columns,
    row: Option<u32>,
    governor: bool,
    pc: usize,
    numbers: &[u32],
    todo: &mut Vec<Spot>,
) -> Result<(), NoMemory>
    requires small { pc < 2 ^ 62 }
    requires below { AllBelow (length sentence.now.sentence.edges) numbers.now }
    ensures spots { OnOk result (todo.new.items ≡ todo.old.items
        ++ over_all (end_of governor) (input_of sentence.now.sentence columns.now.rows)
        row pc numbers.now) }
    ensures few { OnOk result (vec_len todo.new ≤ vec_len todo.old + length numbers.now) }
{
    for i in 0..numbers.len() {
        let number = numbers[i];
        let end = end_at(sentence, number, governor) as usize;
        let so = allowed(columns, row, number);
        add_if(so, pc + 1, end, todo)?;
    }
    Ok(())
}

/// Adds the spots to which a move leads.
#[tactic(auto, using(crate::proofs::Crossed::numbers_below, crate::proofs::Crossed::numbers_few))]
fn follow(
    next: Move,
    sentence: &IdSentence,
    links: &Links,
    columns: &Columns,
    pc: usize,
    at: usize,
    todo: &mut Vec<Spot>,
) -> Result<(), NoMemory>
    requires small { pc < 2 ^ 62 }
    requires links { AreLinks sentence.now.sentence links.now }
    requires inside { at < nodes sentence.now.sentence }
    ensures spots { OnOk result (todo.new.items ≡ todo.old.items
        ++ nexts (input_of sentence.now.sentence columns.now.rows) next pc at) }
    ensures few { OnOk result (vec_len todo.new
        ≤ vec_len todo.old + (length sentence.now.sentence.edges + 2)) }
{
    match next {
        Move::Along(row) => {
            let numbers = links.along[at].get();
            cross(sentence, columns, row, false, pc, numbers, todo)
        }
        Move::Against(row) => {
            let numbers = links.against[at].get();
            cross(sentence, columns, row, true, pc, numbers, todo)
        }
        Move::Stay(row) => {
            let so = holds(columns, row as usize, at);
            add_if(so, pc + 1, at, todo)
        }
        Move::Fork(skip) => {
            add(pc + 1, at, todo)?;
            add(pc + 1 + skip as usize, at, todo)
        }
        Move::Skip(skip) => add(pc + 1 + skip as usize, at, todo),
        Move::Back(back) => add(pc.saturating_sub(back as usize), at, todo),
        Move::Fail => Ok(()),
    }
}

/// The number of a spot among the marks.
fn place(moves: usize, tokens: usize, from: Spot) -> usize
    requires code { from.pc ≤ moves }
    requires inside { from.at < tokens }
    requires short { tokens * (moves + 1) < 2 ^ 63 }
    ensures value { result ≡ number (moves + 1) from }
    ensures within { result < tokens * (moves + 1) }
{
    from.at * (moves + 1) + from.pc
}

/// Takes up a spot: it is marked, and those that follow it wait, unless it was marked before.
fn visit(
    code: &[Move],
    sentence: &IdSentence,
    links: &Links,
    columns: &Columns,
    from: Spot,
    marks: &mut Vec<bool>,
    todo: &mut Vec<Spot>,
) -> Result<(), NoMemory>
    requires size { length code.now < 2 ^ 31 }
    requires links { AreLinks sentence.now.sentence links.now }
    requires room { nodes sentence.now.sentence * (length code.now + 1) ≤ vec_len marks.old }
    ensures walking { OnOk result (GoesOn (input_of sentence.now.sentence columns.now.rows) code.now
        marks.old.items (todo.old.items ++ from ∷ []) marks.new.items todo.new.items) }
    ensures room { vec_len marks.new ≡ vec_len marks.old }
    ensures progress { OnOk result
        (count_by not marks.new.items * (length sentence.now.sentence.edges + 3) + vec_len todo.new
        ≤ count_by not marks.old.items * (length sentence.now.sentence.edges + 3)
        + vec_len todo.old) }
{
    let moves = code.len();
    let tokens = sentence.len() as usize;
    if from.pc > moves {
        return Ok(());
    }
    if from.at >= tokens {
        return Ok(());
    }
    let n = place(moves, tokens, from);
    if marks[n] {
        return Ok(());
    }
    marks[n] = true;
    if from.pc < moves {
        let next = code[from.pc];
        follow(next, sentence, links, columns, from.pc, from.at, todo)?;
    }
    Ok(())
}

/// The spots before the first move, at the marked tokens.
fn begin(alloc: Global, from: &[bool]) -> Result<Vec<Spot>, NoMemory>
    ensures { IfOk result (λ todo. todo.items ≡ starts_below (set_of from.now) (length from.now)) }
{
    let mut todo = Vec::new(alloc);
    for k in 0..from.len() {
        add_if(from[k], 0, k, &mut todo)?;
    }
    Ok(todo)
}

/// Takes up spots until none is left.
fn walk(
    code: &[Move],
    sentence: &IdSentence,
    links: &Links,
    columns: &Columns,
    marks: &mut Vec<bool>,
    todo: &mut Vec<Spot>,
) -> Result<(), NoMemory>
    requires size { length code.now < 2 ^ 31 }
    requires links { AreLinks sentence.now.sentence links.now }
    requires room { nodes sentence.now.sentence * (length code.now + 1) ≤ vec_len marks.old }
    ensures walking { OnOk result (GoesOn (input_of sentence.now.sentence columns.now.rows) code.now
        marks.old.items todo.old.items marks.new.items []) }
    ensures room { vec_len marks.new ≡ vec_len marks.old }
{
    'spots: while let Some(from) = todo.pop() {
        visit(code, sentence, links, columns, from, marks, todo)?;
    }
    Ok(())
}

/// The marks behind the last move, one for each token.
fn collect(
    alloc: Global,
    moves: usize,
    tokens: usize,
    marks: &[bool],
) -> Result<Vec<bool>, NoMemory>
    requires short { tokens * (moves + 1) < 2 ^ 63 }
    requires room { tokens * (moves + 1) ≤ length marks.now }
    ensures long { IfOk result (λ ends. vec_len ends ≡ tokens) }
    ensures ends { IfOk result (λ ends. AreEnds moves tokens marks.now ends.items) }
{
    let mut ends = Vec::with_capacity(alloc, tokens)?;
    for at in 0..tokens {
        let n = place(moves, tokens, Spot { pc: moves, at });
        ends.push(marks[n]).unwrap();
    }
    Ok(ends)
}

/// The tokens to which a path leads from one of the tokens marked in `from`: a mark for each token
/// of the sentence. `code` are the moves of the path, whose rows are those of `columns`; `links`
/// are the sentence's own. It costs the moves times the tokens and edges, in time and, but for the
/// edges, in memory.
///
/// # Errors
///
/// `NoMemory` where memory is refused; 2^31 - 1 moves or more, which no path has that was
/// compiled, are refused so too.
pub fn walk_from(
    alloc: Global,
    code: &[Move],
    sentence: &IdSentence,
    links: &Links,
    columns: &Columns,
    from: &[bool],
) -> Result<Vec<bool>, NoMemory>
    requires links { AreLinks sentence.now.sentence links.now }
    requires marks { length from.now ≡ nodes sentence.now.sentence }
    ensures long { IfOk result (λ marks. vec_len marks ≡ nodes sentence.now.sentence) }
    ensures reached { IfOk result (λ marks.
        AreReachedBy code.now columns.now.rows sentence.now.sentence from.now marks.items) }
{
    let tokens = sentence.len() as usize;
    if code.len() >= 0x7FFF_FFFF {
        return Err(NoMemory);
    }
    let size = tokens * (code.len() + 1);
    let mut marks = vec![in alloc; false; size]?;
    let mut todo = begin(alloc, from)?;
    walk(code, sentence, links, columns, &mut marks, &mut todo)?;
    let ends = collect(alloc, code.len(), tokens, &marks)?;
    Ok(ends)
}
