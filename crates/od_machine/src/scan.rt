//! The matches of a program's pattern in a sentence, one after another.
ghost use Rattle.std.specs.Prelude.{◌≡◌, ℕ, ◌+◌, ◌-◌, ◌*◌, ◌^◌, ◌<◌, ◌≤◌, ◌++◌, ◌∷◌, [], Bool, true, false, not, List as Seq, Option, Some, None, length as length_of, reverse, drop, vec_len, slice_get, slice_index_or, sum, IfOk, OnOk, IsTrue};
ghost use Rattle.od_machine.specs.Cost.{states, steps_of};
ghost use Rattle.od_machine.specs.Found.{so_far, ClearsPlace, GoesOn, AreFound, AreMatchesOf};
ghost use Rattle.od_machine.specs.Dues.{owed};
ghost use Rattle.od_machine.specs.Points.{AreMeetingPoints, runs};
ghost use Rattle.od_machine.specs.Spans.{IsIndexOf, IsSpanIndex};
ghost use Rattle.od_machine.specs.Inputs.{given, NeverBegins};
ghost use Rattle.od_machine.specs.Search.{replay, act, name_in, FailFrom};
ghost use Rattle.od_matching.specs.Matching.First.{Ending, accept};

use crate::instruction::Instruction;
use crate::machine::{attempt, holds};
use crate::marks::Marks;
use crate::points::Points;
use crate::program::Program;
use crate::spans::{SpanEntry, SpanIndex};
use crate::thread::{Event, Thread};
use od_asked::columns::Columns;
use od_document::limits::SENTENCE_TOKENS;
use od_extraction::mention::{Labelled, Match, Part, Span};
use od_text::list::List;
use od_text::text::{Copied, NoMemory, Text};
use std::alloc::Global;

/// How many times an instruction is taken up at one place of a sentence in a whole scan, at most:
/// with a token taken in the turn that is under way and without, and once more each where a match
/// ends.
pub const STATE_VISITS: usize = 4;

/// The name that the instruction opens.
fn name_at(alloc: Global, code: &[Instruction], pc: usize) -> Result<Text, NoMemory>
    ensures { IfOk result (λ t. t ≡ name_in (slice_get code.now pc)) }
{
    match code.get(pc) {
        Some(Instruction::Open(name)) => name.copy(alloc),
        _ => Ok(Text::new(alloc)),
    }
}

/// Goes back over an event.
fn take_event(
    alloc: Global,
    code: &[Instruction],
    event: Event,
    ends: &mut Vec<u32>,
    parts: &mut Vec<Part>,
) -> Result<(), NoMemory>
    ensures { OnOk result ((end : ℕ)
        → act code.now event (so_far end parts.old.items ends.old.items)
        ≡ so_far end parts.new.items ends.new.items) }
{
    match event {
        Event::Closed(at) => {
            ends.push(at)?;
        }
        Event::Opened(pc, at) => {
            if let Some(end) = ends.pop() {
                let name = name_at(alloc, code, pc as usize)?;
                parts.push(Part {
                    name,
                    label: None,
                    start: at,
                    end,
                })?;
            }
        }
    }
    Ok(())
}

/// The captures that the trail tells of.
fn finish(
    alloc: Global,
    code: &[Instruction],
    trail: &mut Vec<Event>,
    end: usize,
) -> Result<Vec<Part>, NoMemory>
    ensures { IfOk result (λ parts. (o : Ending)
        → replay code.now trail.old.items (accept end) ≡ Some o
        → (o.end ≡ end) × (o.captures ≡ parts.items)) }
{
    let mut ends = Vec::new(alloc);
    let mut parts = Vec::new(alloc);
    'events: while let Some(event) = trail.pop() {
        take_event(alloc, code, event, &mut ends, &mut parts)?;
    }
    parts.reverse();
    Ok(parts)
}

/// Whether the pattern begins with a token, in captures or not, that does not stand here:
/// then no way begins.
fn cannot_begin(code: &[Instruction], rows: &[List<bool>], at: usize) -> bool
    ensures never { IsTrue result → NeverBegins rows.now code.now at }
    ensures some { IsTrue result → 0 < length_of code.now }
{
    for instruction in code {
        match instruction {
            Instruction::Open(_) => {}
            Instruction::Take(row) => return !holds(rows, *row, at),
            _ => return false,
        }
    }
    false
}

/// Takes the marks at a place off.
fn clear_place(seen: &mut Marks, points: &Points, at: usize)
    requires place { at < 2 ^ 31 }
    requires small { (at + 1) * (2 * points.now.count) < 2 ^ 62 }
    requires room { (at + 1) * (2 * points.now.count) ≤ length_of seen.old.marks }
    ensures len { length_of seen.new.marks ≡ length_of seen.old.marks }
    ensures clears { ClearsPlace (2 * points.now.count) at seen.old.marks seen.new.marks }
    ensures steps { seen.new.steps ≡ seen.old.steps }
    ensures owed { (tokens : ℕ) → owed points.now tokens seen.new.marks
        ≤ owed points.now tokens seen.old.marks + 2 * sum (runs points.now.slots) }
{
    let width = 2 * points.count;
    let from = at * width;
    seen.clear(from, from + width);
}

/// Takes the match that begins at the place, if there is one. Returns where the search goes on.
fn scan_here(
    alloc: Global,
    code: &[Instruction],
    points: &Points,
    tokens: usize,
    rows: &[List<bool>],
    labels: &[Labelled],
    entries: &[SpanEntry],
    at: usize,
    seen: &mut Marks,
    trail: &mut Vec<Event>,
    threads: &mut Vec<Thread>,
    matches: &mut Vec<Match>,
) -> Result<usize, NoMemory>
    requires index { IsIndexOf labels.now entries.now }
    requires inside { at < tokens }
    requires short { tokens < 2 ^ 31 }
    requires size { length_of code.now < 2 ^ 31 }
    requires meet { AreMeetingPoints code.now points.now.slots }
    requires small { (tokens + 1) * (2 * points.now.count) < 2 ^ 62 }
    requires room { (tokens + 1) * (2 * points.now.count) ≤ length_of seen.old.marks }
    requires failed { FailFrom (given tokens rows.now labels.now) code.now points.now
        at seen.old.marks }
    requires few { seen.old.steps + owed points.now tokens seen.old.marks
        + length_of code.now < 2 ^ 63 }
    ensures scanned { IfOk result (λ next.
        GoesOn (given tokens rows.now labels.now) code.now
        matches.new.items next matches.old.items at) }
    ensures forward { IfOk result (λ next. (at < next) × (next ≤ tokens)) }
    ensures failed { IfOk result (λ next.
        FailFrom (given tokens rows.now labels.now) code.now points.now next seen.new.marks) }
    ensures room { length_of seen.new.marks ≡ length_of seen.old.marks }
    ensures counted { IfOk result (λ next. seen.new.steps
        + owed points.now tokens seen.new.marks + at * length_of code.now * 2
        ≤ seen.old.steps
        + owed points.now tokens seen.old.marks + next * length_of code.now * 2) }
{
    if cannot_begin(code, rows, at) {
        seen.step();
        return Ok(at + 1);
    }
    let Some(end) = attempt(
        code, points, tokens, rows, labels, entries, at, seen, trail, threads,
    )?
    else {
        return Ok(at + 1);
    };
    if end <= at {
        return Ok(at + 1);
    }
    let captures = finish(alloc, code, trail, end)?;
    clear_place(seen, points, end);
    matches.push(Match {
        span: Span {
            start: at as u32,
            end: end as u32,
        },
        captures: List::from_vec(captures),
    })?;
    Ok(end)
}

/// The matches in a sentence of so many tokens, of which the table has a row for each constraint.
fn scan_rows(
    alloc: Global,
    code: &[Instruction],
    points: &Points,
    tokens: usize,
    rows: &[List<bool>],
    labels: &[Labelled],
    entries: &[SpanEntry],
    seen: &mut Marks,
    trail: &mut Vec<Event>,
    threads: &mut Vec<Thread>,
) -> Result<Vec<Match>, NoMemory>
    requires index { IsIndexOf labels.now entries.now }
    requires short { tokens < 2 ^ 31 }
    requires size { length_of code.now < 2 ^ 31 }
    requires meet { AreMeetingPoints code.now points.now.slots }
    requires small { (tokens + 1) * length_of code.now * 2 < 2 ^ 62 }
    requires room { (tokens + 1) * (2 * points.now.count) ≤ length_of seen.old.marks }
    requires failed { FailFrom (given tokens rows.now labels.now) code.now points.now
        0 seen.old.marks }
    requires fresh { seen.old.steps + owed points.now tokens seen.old.marks
        ≤ (tokens + 1) * length_of code.now * 2 }
    ensures found { IfOk result (λ found.
        AreFound (given tokens rows.now labels.now) code.now found.items) }
    ensures counted { OnOk result (
        seen.new.steps ≤ STATE_VISITS * (length_of code.now * (tokens + 1))) }
{
    let mut matches = Vec::new(alloc);
    let mut at = 0;
    'places: while at < tokens {
        at = scan_here(
            alloc,
            code,
            points,
            tokens,
            rows,
            labels,
            entries,
            at,
            seen,
            trail,
            threads,
            &mut matches,
        )?;
    }
    Ok(matches)
}

/// How many marks there are: two for each meeting point at each place.
#[tactic(auto, using(crate::proofs::Founds::table_fits))]
fn table_size(tokens: usize, count: usize) -> usize
    requires few { tokens ≤ SENTENCE_TOKENS }
    requires short { count < 2 ^ 31 }
    ensures value { result ≡ (tokens + 1) * (2 * count) }
    ensures fits { result < 2 ^ 62 }
{
    (tokens + 1) * (2 * count)
}

/// The room that scans work in. Who keeps it from one scan to the next takes memory for matches
/// alone, most of the time.
#[derive(Drop)]
pub struct Scanner {
    /// Which states were taken up where ways can meet: two for each meeting point, at each place.
    seen: Marks,
    /// Where captures opened and closed on the way that is being tried.
    trail: Vec<Event>,
    /// The ways that are still to be tried, the preferred one last.
    threads: Vec<Thread>,
}

impl Scanner {
    /// Room that is still empty.
    pub fn new(alloc: Global) -> Scanner
        ensures { steps_of result ≡ 0 }
    {
        Scanner {
            seen: Marks::new(alloc),
            trail: Vec::new(alloc),
            threads: Vec::new(alloc),
        }
    }

    /// How many states the last scan took up. A start at which the pattern's first token does not
    /// stand counts as one: its test.
    pub fn steps(&self) -> usize
        ensures { result ≡ steps_of self.now }
    {
        self.seen.steps()
    }

    /// The matches of the program's pattern in a sentence of so many tokens, in their order.
    ///
    /// The table has, from the row `first` on, the truths of what the pattern asks, in the order of
    /// its text. The spans of the sentence have these labels, of which the index was made. Want of
    /// memory is the only error.
    ///
    /// It takes a number of steps that grows as the program times the sentence.
    pub fn scan(
        &mut self,
        alloc: Global,
        program: &Program,
        length: u32,
        columns: &Columns,
        first: usize,
        labels: &[Labelled],
        index: &SpanIndex,
    ) -> Result<Vec<Match>, NoMemory>
        requires few { length ≤ SENTENCE_TOKENS }
        requires rows { first ≤ length_of columns.now.rows }
        requires index { IsSpanIndex labels.now index.now }
        ensures found { IfOk result (λ found.
            AreMatchesOf program.now length columns.now.rows first labels.now found.items) }
        ensures cost { OnOk result (
            steps_of self.new ≤ STATE_VISITS * states program.now length) }
    {
        let code = program.code.get();
        let tokens = length as usize;
        let rows = &columns.rows.get()[first..];
        let points = &program.points;
        self.seen.reset(table_size(tokens, points.count))?;
        scan_rows(
            alloc,
            code,
            points,
            tokens,
            rows,
            labels,
            index.entries.as_slice(),
            &mut self.seen,
            &mut self.trail,
            &mut self.threads,
        )
    }
}

/// The matches of the program's pattern in a sentence of so many tokens, in their order.
///
/// The table has the truths of what the pattern asks, in the order of its text; the spans of the
/// sentence have these labels. Want of memory is the only error. Who scans a sentence for several
/// patterns keeps a [`Scanner`] and a [`SpanIndex`].
pub fn scan(
    alloc: Global,
    program: &Program,
    length: u32,
    columns: &Columns,
    labels: &[Labelled],
) -> Result<Vec<Match>, NoMemory>
    requires few { length ≤ SENTENCE_TOKENS }
    ensures { IfOk result (λ found.
        AreMatchesOf program.now length columns.now.rows 0 labels.now found.items) }
{
    let mut scanner = Scanner::new(alloc);
    let mut index = SpanIndex::new(alloc);
    index.set(labels)?;
    scanner.scan(alloc, program, length, columns, 0, labels, &index)
}
