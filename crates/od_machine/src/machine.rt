//! The search for the preferred way from a place: threads in the order of their choices.
ghost use Rattle.std.specs.Prelude.{◌≡◌, ℕ, suc, true, ◌+◌, ◌-◌, ◌*◌, ◌^◌, ◌<◌, ◌≤◌, ◌++◌, ◌∷◌, [], Bool, false, not, List as Seq, Option, Some, None, option_to_list, if◌then◌else◌, length, map, reverse, vec_len, IfSome, IfOk, OnOk};
ghost use Rattle.od_matching.specs.Matching.First.{Ending, accept};
ghost use Rattle.od_matching.specs.Matching.Scan.{is_span_in};
ghost use Rattle.od_machine.specs.Dues.{owed, due, work_left};
ghost use Rattle.od_machine.specs.Machine.{follow, targets, state, run, peeks, weight};
ghost use Rattle.od_machine.specs.Points.{AreMeetingPoints, stretch};
ghost use Rattle.od_machine.specs.Search.{thread, state_of, index, TakesMark, FailFrom, events_of};
ghost use Rattle.od_extraction.specs.declared.mention.Labelled.{Labelled as Spanned};
ghost use Rattle.od_machine.specs.Spans.{IsIndexOf};
ghost use Rattle.od_machine.specs.Inputs.{holds_in, given, choose_threads, TakesUp, ahead, outcome, FailBehind};

use crate::instruction::Instruction;
use crate::marks::Marks;
use crate::points::Points;
use crate::spans::{SpanEntry, entries_from, take_span};
use crate::thread::{Event, Step, Thread};
use od_extraction::mention::Labelled;
use od_text::list::List;
use od_text::text::{NoMemory, Text};

/// Whether the row has a truth at the token, and it is true.
pub(crate) fn holds(rows: &[List<bool>], row: u32, at: usize) -> bool
    ensures { result ≡ holds_in rows.now row at }
{
    match rows.get(row as usize) {
        Some(truths) => match truths.get().get(at) {
            Some(truth) => *truth,
            None => false,
        },
        None => false,
    }
}

/// The state that follows and is preferred; the others are added, so that the first of them comes
/// next. Behind labelled spans all are added.
#[inline(always)]
fn follow(
    instr: &Instruction,
    tokens: usize,
    rows: &[List<bool>],
    labels: &[Labelled],
    entries: &[SpanEntry],
    from: Thread,
    events: usize,
    threads: &mut Vec<Thread>,
) -> Result<Option<Thread>, NoMemory>
    requires index { IsIndexOf labels.now entries.now }
    requires small { from.pc < 2 ^ 31 }
    requires inside { from.at ≤ tokens }
    requires short { tokens < 2 ^ 31 }
    ensures stack { IfOk result (λ first. option_to_list first ++ reverse threads.new.items
        ≡ map (thread events)
        (follow (given tokens rows.now labels.now) instr.now from.pc from.taken from.at)
        ++ reverse threads.old.items) }
    ensures few { IfOk result (λ first. length (option_to_list first) + vec_len threads.new
        ≤ vec_len threads.old + (tokens + 2)) }
{
    let Thread {
        pc,
        taken,
        at,
        events: _,
    } = from;
    let next = Thread {
        pc: pc + 1,
        taken,
        at,
        events,
    };
    match instr {
        Instruction::Take(row) => Ok(if at < tokens && holds(rows, *row, at) {
            Some(Thread {
                pc: pc + 1,
                taken: true,
                at: at + 1,
                events,
            })
        } else {
            None
        }),
        Instruction::Jump(name) => {
            jump(name, tokens, labels, entries, pc, at, events, threads)?;
            Ok(None)
        }
        Instruction::Peek {
            ahead,
            positive,
            row,
        } => Ok(next_if(peeks(tokens, rows, *row, *ahead, *positive, at), next)),
        Instruction::AtFirst => Ok(next_if(at == 0, next)),
        Instruction::AtLast => Ok(next_if(at == tokens, next)),
        Instruction::Split(skip) => {
            let later = Thread {
                pc: pc + 1 + *skip as usize,
                taken,
                at,
                events,
            };
            choose(false, next, later, threads)
        }
        Instruction::Skip(skip) => Ok(Some(Thread {
            pc: pc + 1 + *skip as usize,
            taken,
            at,
            events,
        })),
        Instruction::Turn { lazy, skip } => {
            let turn = Thread {
                pc: pc + 1,
                taken: false,
                at,
                events,
            };
            let leave = Thread {
                pc: pc + 1 + *skip as usize,
                taken,
                at,
                events,
            };
            choose(*lazy, turn, leave, threads)
        }
        Instruction::Turned => Ok(next_if(taken, next)),
        Instruction::Again { lazy, back } => {
            if !taken {
                return Ok(None);
            }
            let turn = Thread {
                pc: pc.saturating_sub(*back as usize),
                taken: false,
                at,
                events,
            };
            choose(*lazy, turn, next, threads)
        }
        Instruction::Open(_) | Instruction::Close => Ok(Some(next)),
        Instruction::Fail | Instruction::Match => Ok(None),
    }
}

/// The thread, if the test passes.
#[inline(always)]
fn next_if(test: bool, next: Thread) -> Option<Thread>
    ensures { result ≡ (if test then Some next else None) }
{
    if test { Some(next) } else { None }
}

/// Another turn or none: the preferred one, and the other is added.
#[inline(always)]
fn choose(
    lazy: bool,
    turn: Thread,
    leave: Thread,
    threads: &mut Vec<Thread>,
) -> Result<Option<Thread>, NoMemory>
    ensures stack { IfOk result (λ first. option_to_list first ++ reverse threads.new.items
        ≡ choose_threads lazy turn leave (reverse threads.old.items)) }
    ensures few { IfOk result (λ first.
        length (option_to_list first) + vec_len threads.new ≡ vec_len threads.old + 2) }
{
    if lazy {
        threads.push(turn)?;
        Ok(Some(leave))
    } else {
        threads.push(leave)?;
        Ok(Some(turn))
    }
}

/// Whether a look at the token at the place, or at the one before it, passes.
fn peeks(
    tokens: usize,
    rows: &[List<bool>],
    row: u32,
    ahead: bool,
    positive: bool,
    at: usize,
) -> bool
    requires { at ≤ tokens }
    ensures { (labels : Seq Spanned)
        → result ≡ peeks (given tokens rows.now labels) row ahead positive at }
{
    let there = if ahead {
        at < tokens && holds(rows, row, at)
    } else {
        at > 0 && holds(rows, row, at - 1)
    };
    there == positive
}

/// Adds a thread behind each span with the label from `at`, so that the longest comes first.
fn jump(
    name: &Text,
    tokens: usize,
    labels: &[Labelled],
    entries: &[SpanEntry],
    pc: usize,
    at: usize,
    events: usize,
    threads: &mut Vec<Thread>,
) -> Result<(), NoMemory>
    requires index { IsIndexOf labels.now entries.now }
    requires small { pc < 2 ^ 31 }
    requires inside { at ≤ tokens }
    requires short { tokens < 2 ^ 31 }
    ensures stack { OnOk result (reverse threads.new.items
        ≡ map (thread events) (targets (is_span_in labels.now name.now) (pc + 1) at (tokens - at))
        ++ reverse threads.old.items) }
    ensures few { OnOk result (vec_len threads.new ≤ vec_len threads.old + (tokens - at)) }
{
    let mut reach = at;
    let near = entries_from(entries, at);
    for entry in near {
        if entry.start as usize != at {
            return Ok(());
        }
        reach = take_span(name, tokens, labels, *entry, reach, pc + 1, events, threads)?;
    }
    Ok(())
}

/// The number of a state's mark.
fn number(count: usize, tokens: usize, slot: u32, from: Thread) -> usize
    requires slot { slot < count }
    requires inside { from.at ≤ tokens }
    requires short { (tokens + 1) * (2 * count) < 2 ^ 62 }
    ensures value { result ≡ index count slot (state_of from) }
    ensures within { result < (tokens + 1) * (2 * count) }
{
    let bare = from.at * (2 * count) + slot as usize;
    if from.taken { bare + count } else { bare }
}

/// Takes up a state, unless it is marked as one that was taken up before. It is marked where ways
/// can meet. Returns whether it was taken up.
fn take_up(
    slot: Option<u32>,
    count: usize,
    tokens: usize,
    from: Thread,
    seen: &mut Marks,
) -> Result<bool, NoMemory>
    requires slot { IfSome slot (λ n. n < count) }
    requires inside { from.at ≤ tokens }
    requires short { (tokens + 1) * (2 * count) < 2 ^ 62 }
    requires room { (tokens + 1) * (2 * count) ≤ length seen.old.marks }
    requires few { seen.old.steps < 2 ^ 63 }
    ensures mark { IfOk result (λ taken_up.
        TakesMark count slot (state_of from) taken_up seen.old.marks seen.new.marks) }
    ensures room { length seen.new.marks ≡ length seen.old.marks }
    ensures steps { IfOk result (λ taken_up.
        seen.new.steps ≡ seen.old.steps + weight taken_up 1) }
{
    let Some(slot) = slot else {
        seen.step();
        return Ok(true);
    };
    let n = number(count, tokens, slot, from);
    if seen.has(n) {
        return Ok(false);
    }
    seen.set(n)?;
    Ok(true)
}

/// Puts on the trail what the instruction leaves there.
fn record_event(
    instr: &Instruction,
    pc: usize,
    at: usize,
    trail: &mut Vec<Event>,
) -> Result<(), NoMemory>
    requires code { pc < 2 ^ 32 }
    requires inside { at < 2 ^ 32 }
    ensures { OnOk result (trail.new.items ≡ trail.old.items ++ events_of instr.now pc at) }
{
    match instr {
        Instruction::Open(_) => trail.push(Event::Opened(pc as u32, at as u32))?,
        Instruction::Close => trail.push(Event::Closed(at as u32))?,
        _ => {}
    }
    Ok(())
}

/// Takes up the first thread.
fn visit(
    code: &[Instruction],
    points: &Points,
    tokens: usize,
    rows: &[List<bool>],
    labels: &[Labelled],
    entries: &[SpanEntry],
    from: Thread,
    seen: &mut Marks,
    trail: &mut Vec<Event>,
    threads: &mut Vec<Thread>,
) -> Result<Step, NoMemory>
    requires index { IsIndexOf labels.now entries.now }
    requires inside { from.at ≤ tokens }
    requires short { tokens < 2 ^ 31 }
    requires size { length code.now < 2 ^ 31 }
    requires meet { AreMeetingPoints code.now points.now.slots }
    requires small { (tokens + 1) * (2 * points.now.count) < 2 ^ 62 }
    requires room { (tokens + 1) * (2 * points.now.count) ≤ length seen.old.marks }
    requires few { seen.old.steps
        + due points.now tokens seen.old.marks (from ∷ reverse threads.old.items) < 2 ^ 63 }
    ensures searching { IfOk result (λ step.
        TakesUp (given tokens rows.now labels.now) code.now points.now from step
        seen.old.marks trail.old.items threads.old.items
        seen.new.marks trail.new.items threads.new.items) }
    ensures room { length seen.new.marks ≡ length seen.old.marks }
    ensures progress { IfOk result (λ step.
        work_left points.now tokens seen.new.marks (ahead step ++ reverse threads.new.items)
        < work_left points.now tokens seen.old.marks (from ∷ reverse threads.old.items)) }
    ensures counted { IfOk result (λ step. seen.new.steps
        + due points.now tokens seen.new.marks (ahead step ++ reverse threads.new.items)
        ≤ seen.old.steps
        + due points.now tokens seen.old.marks (from ∷ reverse threads.old.items)) }
{
    trail.truncate(from.events);
    if from.pc >= code.len() {
        return Ok(Step::Goes(None));
    }
    let instr = &code[from.pc];
    if let Instruction::Match = instr {
        return Ok(Step::AtEnd);
    }
    let taken_up = take_up(points.slot(from.pc), points.count, tokens, from, seen)?;
    if !taken_up {
        return Ok(Step::Goes(None));
    }
    record_event(instr, from.pc, from.at, trail)?;
    let events = trail.len();
    let next = follow(instr, tokens, rows, labels, entries, from, events, threads)?;
    Ok(Step::Goes(next))
}

/// The first thread: the one that goes on, or else the last of those that wait.
#[inline(always)]
fn first_of(next: Option<Thread>, threads: &mut Vec<Thread>) -> Option<Thread>
    ensures stack { option_to_list next ++ reverse threads.old.items
        ≡ option_to_list result ++ reverse threads.new.items }
    ensures none { result ≡ None → threads.new.items ≡ [] }
    ensures few { length (option_to_list next) + vec_len threads.old
        ≡ length (option_to_list result) + vec_len threads.new }
{
    if let Some(thread) = next {
        return Some(thread);
    }
    threads.pop()
}

/// The preferred way from the place, if there is one: where it ends. Its events are on the trail.
pub(crate) fn attempt(
    code: &[Instruction],
    points: &Points,
    tokens: usize,
    rows: &[List<bool>],
    labels: &[Labelled],
    entries: &[SpanEntry],
    start: usize,
    seen: &mut Marks,
    trail: &mut Vec<Event>,
    threads: &mut Vec<Thread>,
) -> Result<Option<usize>, NoMemory>
    requires index { IsIndexOf labels.now entries.now }
    requires inside { start ≤ tokens }
    requires short { tokens < 2 ^ 31 }
    requires size { length code.now < 2 ^ 31 }
    requires meet { AreMeetingPoints code.now points.now.slots }
    requires small { (tokens + 1) * (2 * points.now.count) < 2 ^ 62 }
    requires room { (tokens + 1) * (2 * points.now.count) ≤ length seen.old.marks }
    requires failed { FailFrom (given tokens rows.now labels.now) code.now points.now
        start seen.old.marks }
    requires few { seen.old.steps + owed points.now tokens seen.old.marks
        + stretch points.now.slots 0 < 2 ^ 63 }
    ensures found { IfOk result (λ end. outcome code.now trail.new.items end
        ≡ run (given tokens rows.now labels.now) code.now (state 0 false start)) }
    ensures failed { IfOk result (λ end.
        FailBehind (given tokens rows.now labels.now) code.now points.now
        start end seen.new.marks) }
    ensures room { length seen.new.marks ≡ length seen.old.marks }
    ensures counted { OnOk result (seen.new.steps + owed points.now tokens seen.new.marks
        ≤ seen.old.steps + owed points.now tokens seen.old.marks
        + stretch points.now.slots 0) }
{
    trail.clear();
    threads.clear();
    let mut next = Some(Thread {
        pc: 0,
        taken: false,
        at: start,
        events: 0,
    });
    'search: while let Some(from) = first_of(next, threads) {
        match visit(
            code, points, tokens, rows, labels, entries, from, seen, trail, threads,
        )? {
            Step::AtEnd => return Ok(Some(from.at)),
            Step::Goes(then) => next = then,
        }
    }
    Ok(None)
}
