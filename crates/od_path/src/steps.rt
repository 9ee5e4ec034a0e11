//! The steps of a hop, read from lexemes: the paths between its surfaces.
ghost use Rattle.std.specs.Prelude.{◌≡◌, ℕ, ◌+◌, ◌-◌, ◌^◌, ◌<◌, ◌≤◌, Bool, true, false, List, [], ◌∷◌, ◌++◌, drop, length, Ok, MatchOption, MatchResult, MatchBool, IfOk};
ghost use Rattle.od_language.specs.declared.pattern_fault.PatternKind.{PatternKind};
ghost use Rattle.od_language.specs.declared.pattern_fault.PatternKind.TheVariants as kind;
ghost use Rattle.od_language.specs.declared.lexeme.LexKind.{LexKind};
ghost use Rattle.od_language.specs.declared.lexeme.LexKind.TheVariants as lexeme;
ghost use Rattle.od_language.specs.declared.lexeme.Lexeme.{Lexeme};
ghost use Rattle.od_language.specs.Alphabet.{plain, kinds, IsEnded};
ghost use Rattle.od_language.specs.Answers.{IfBad, Gives, Refuses};
ghost use Rattle.od_language.specs.Depth.{depth_before, BreaksRule};
ghost use Rattle.od_language.specs.FirstFault.{OneAnswer, Keeps};
ghost use Rattle.od_language.specs.Machine.{GoesOn};
ghost use Rattle.od_pattern.specs.declared.path.Path.{Path};
ghost use Rattle.od_pattern.specs.declared.path.Path.TheVariants as path_value;
ghost use Rattle.od_syntax.specs.Hops.{Steps, BreaksSteps};
ghost use Rattle.od_syntax.specs.Sizes.{counted as counted_size, path_size};
ghost use Rattle.od_syntax.specs.StepsAnswer.{AreSteps, IsStepsFault};
ghost use Rattle.od_syntax.specs.StepsMachine.{State, begun, group, part, turned, group_start};
ghost use Rattle.od_syntax.specs.Told.{told_apart, told, told_of, leads_to_steps};
ghost use Rattle.od_written.specs.Hops.{steps_written, AreWritableSteps, goes_on_steps};
ghost use Rattle.od_path.specs.Steps.{steps_run, atom_run, closed, steps_come, AreStepsFrom};

use crate::ahead::{bad, next, unexpected};
use crate::path::path_at;
use crate::size::together;
use crate::step::{Found, against, along, is_bad, pair, push, repeat};
use od_language::lexeme::{LexKind, Lexeme};
use od_language::limits::OPEN_BRACKETS;
use od_language::pattern_fault::{PatternFault, PatternKind};
use od_lex::depth_at;
use od_pattern::path::Path;
use std::alloc::Global;

/// Whether the first lexeme other than `(`, from a place on, is an arrow.
fn leads(lexemes: &[Lexeme], from: usize) -> bool
    ensures { result ≡ leads_to_steps (kinds plain (drop from lexemes.now)) }
{
    let mut i = from;
    while let Some(x) = next(lexemes, i) {
        match x.kind {
            LexKind::RoundOpen => i += 1,
            LexKind::Along | LexKind::Against | LexKind::AnyAlong | LexKind::AnyAgainst => {
                return true;
            }
            _ => return false,
        }
    }
    false
}

/// Whether an atom of steps comes: an arrow, or a bracket that opens steps.
#[tactic(auto, using(crate::proofs::StepMoves::come_bracket))]
pub fn is_step(lexemes: &[Lexeme], i: usize) -> bool
    ensures { result ≡ steps_come (drop i lexemes.now) }
{
    match next(lexemes, i) {
        Some(x) => match x.kind {
            LexKind::Along | LexKind::Against | LexKind::AnyAlong | LexKind::AnyAgainst => true,
            LexKind::RoundOpen => leads(lexemes, i + 1),
            _ => false,
        },
        None => false,
    }
}

/// What stands in brackets of steps, from behind the opening one on.
fn inside(
    alloc: Global,
    lexemes: &[Lexeme],
    from: usize,
    depth: usize,
) -> Result<Found, PatternFault>
    ensures goes { (s : List Path) →
        GoesOn result (steps_run depth (group group_start s) (told (drop from lexemes.now)))
        (λ x. closed depth s (x.path, drop x.to lexemes.now)) }
    ensures on { IfOk result (λ x. (from < x.to) × (x.to ≤ length lexemes.now)) }
    ensures size { IfOk result (λ x. x.size ≡ counted_size (path_size x.path)) }
{
    path_at(alloc, lexemes, from, depth)
}

/// The end of what stands in brackets.
fn close(lexemes: &[Lexeme], from: usize) -> Result<usize, PatternFault>
    ensures on { IfOk result (λ to. (from < to) × (to ≤ length lexemes.now)) }
    ensures goes { (d : ℕ) (p : Path) (s : List Path) →
        GoesOn result (closed d s (p, drop from lexemes.now))
        (λ to. steps_run (d - 1) (part p s) (told (drop to lexemes.now))) }
{
    match next(lexemes, from) {
        Some(x) => match x.kind {
            LexKind::RoundClose => Ok(from + 1),
            _ => Err(unexpected(lexemes, from)),
        },
        None => Err(unexpected(lexemes, from)),
    }
}

/// A path in brackets, from behind the opening one on.
fn grouped(
    alloc: Global,
    lexemes: &[Lexeme],
    from: usize,
    depth: usize,
) -> Result<Found, PatternFault>
    ensures goes { (s : List Path) →
        GoesOn result (steps_run depth (group group_start s) (told (drop from lexemes.now)))
        (λ x. steps_run (depth - 1) (part x.path s) (told (drop x.to lexemes.now))) }
    ensures on { IfOk result (λ x. (from < x.to) × (x.to ≤ length lexemes.now)) }
    ensures size { IfOk result (λ x. x.size ≡ counted_size (path_size x.path)) }
{
    let Found { path, size, to } = inside(alloc, lexemes, from, depth)?;
    let to = close(lexemes, to)?;
    Ok(Found { path, size, to })
}

/// A path in brackets, if they open steps.
#[tactic(auto, using(crate::proofs::StepMoves::bracket_in, crate::proofs::StepMoves::bracket_deep, crate::proofs::StepMoves::bracket_other, crate::proofs::StepMoves::depth_back))]
fn bracketed(
    alloc: Global,
    lexemes: &[Lexeme],
    from: usize,
    depth: usize,
    at: u32,
) -> Result<Found, PatternFault>
    requires { from < 2 ^ 63 }
    ensures goes { (x : Lexeme) →
        drop from lexemes.now ≡ x ∷ drop (from + 1) lexemes.now → x.kind ≡ lexeme.RoundOpen → x.at ≡ at →
        (s : List Path) → GoesOn result (atom_run depth s (told (drop from lexemes.now)))
        (λ x. steps_run depth (part x.path s) (told (drop x.to lexemes.now))) }
    ensures on { IfOk result (λ x. (from < x.to) × (x.to ≤ length lexemes.now)) }
    ensures size { IfOk result (λ x. x.size ≡ counted_size (path_size x.path)) }
{
    if !leads(lexemes, from + 1) {
        return Err(bad(at, PatternKind::Expected));
    }
    if depth >= OPEN_BRACKETS {
        return Err(bad(at, PatternKind::TooDeep));
    }
    grouped(alloc, lexemes, from + 1, depth + 1)
}

/// A step along an edge, or a path in brackets.
fn step_atom(
    alloc: Global,
    lexemes: &[Lexeme],
    from: usize,
    depth: usize,
) -> Result<Found, PatternFault>
    ensures goes { (s : List Path) →
        GoesOn result (atom_run depth s (told (drop from lexemes.now)))
        (λ x. steps_run depth (part x.path s) (told (drop x.to lexemes.now))) }
    ensures on { IfOk result (λ x. (from < x.to) × (x.to ≤ length lexemes.now)) }
    ensures size { IfOk result (λ x. x.size ≡ counted_size (path_size x.path)) }
{
    match next(lexemes, from) {
        Some(x) => match x.kind {
            LexKind::Along => along(alloc, lexemes, from + 1),
            LexKind::Against => against(alloc, lexemes, from + 1),
            LexKind::AnyAlong => Ok(Found {
                path: Path::Along(None),
                size: 1,
                to: from + 1,
            }),
            LexKind::AnyAgainst => Ok(Found {
                path: Path::Against(None),
                size: 1,
                to: from + 1,
            }),
            LexKind::RoundOpen => bracketed(alloc, lexemes, from, depth, x.at),
            _ => Err(unexpected(lexemes, from)),
        },
        None => Err(unexpected(lexemes, from)),
    }
}

/// A path with the quantifier that follows it.
#[tactic(auto, using(crate::proofs::StepMoves::no_turns))]
fn quantified(alloc: Global, lexemes: &[Lexeme], p: Found) -> Result<Found, PatternFault>
    requires { (p.to ≤ length lexemes.now) × (p.size ≡ counted_size (path_size p.path)) }
    ensures goes { (d : ℕ) (s : List Path) →
        GoesOn result (steps_run d (part p.path s) (told (drop p.to lexemes.now)))
        (λ x. steps_run d (turned (s ++ x.path ∷ [])) (told (drop x.to lexemes.now))) }
    ensures on { IfOk result (λ x. (p.to ≤ x.to) × (x.to ≤ length lexemes.now)) }
    ensures size { IfOk result (λ x. x.size ≡ counted_size (path_size x.path)) }
{
    match next(lexemes, p.to) {
        Some(x) => match x.kind {
            LexKind::Question => repeat(alloc, p, 0, Some(1)),
            LexKind::Star => repeat(alloc, p, 0, None),
            LexKind::Plus => repeat(alloc, p, 1, None),
            LexKind::Range(least, most) => {
                if is_bad(least, most) {
                    return Err(bad(x.at, PatternKind::BadRange));
                }
                repeat(alloc, p, least, most)
            }
            _ => Ok(p),
        },
        None => Ok(p),
    }
}

/// An atom with its quantifier, if it has one.
fn step_part(
    alloc: Global,
    lexemes: &[Lexeme],
    from: usize,
    depth: usize,
) -> Result<Found, PatternFault>
    ensures goes { (s : List Path) →
        GoesOn result (atom_run depth s (told (drop from lexemes.now)))
        (λ x. steps_run depth (turned (s ++ x.path ∷ [])) (told (drop x.to lexemes.now))) }
    ensures on { IfOk result (λ x. (from < x.to) × (x.to ≤ length lexemes.now)) }
    ensures size { IfOk result (λ x. x.size ≡ counted_size (path_size x.path)) }
{
    let p = step_atom(alloc, lexemes, from, depth)?;
    quantified(alloc, lexemes, p)
}

/// Parts behind the first one, and all of them as one path.
#[tactic(auto, using(crate::proofs::StepMoves::more_atom, crate::proofs::StepMoves::all_read, crate::proofs::Sizes::seq_done, crate::proofs::Sizes::counted_small))]
fn sequence(
    alloc: Global,
    lexemes: &[Lexeme],
    first: Found,
    depth: usize,
) -> Result<Found, PatternFault>
    requires { (steps_come (drop first.to lexemes.now) ≡ true) × (first.size ≡ counted_size (path_size first.path)) }
    ensures goes { GoesOn result (steps_run depth (turned (first.path ∷ [])) (told (drop first.to lexemes.now)))
        (λ x. Ok (x.path, told (drop x.to lexemes.now))) }
    ensures on { IfOk result (λ x. (first.to < x.to) × (x.to ≤ length lexemes.now)) }
    ensures size { IfOk result (λ x. x.size ≡ counted_size (path_size x.path)) }
    ensures stops { IfOk result (λ x. steps_come (drop x.to lexemes.now) ≡ false) }
{
    let second = step_part(alloc, lexemes, first.to, depth)?;
    let mut size = together(first.size, second.size);
    let mut list = pair(alloc, first.path, second.path)?;
    let mut i = second.to;
    while is_step(lexemes, i) {
        let more = step_part(alloc, lexemes, i, depth)?;
        size = together(size, more.size);
        i = more.to;
        push(&mut list, more.path)?;
    }
    Ok(Found {
        path: Path::Seq(list),
        size,
        to: i,
    })
}

/// The steps at a place where so many brackets are open before it, their size, and the place behind them.
///
/// For parsers that count the open brackets themselves; `parse_steps` counts them.
#[tactic(auto, using(crate::proofs::StepMoves::begun_atom, crate::proofs::StepMoves::one_read))]
pub fn steps_at(
    alloc: Global,
    lexemes: &[Lexeme],
    from: usize,
    depth: usize,
) -> Result<Found, PatternFault>
    // What a machine that contains the machine of steps needs to know.
    ensures goes { GoesOn result (steps_run depth begun (told (drop from lexemes.now)))
        (λ x. Ok (x.path, told (drop x.to lexemes.now))) }
    ensures on { IfOk result (λ x. (from < x.to) × (x.to ≤ length lexemes.now)) }
    ensures size { IfOk result (λ x. x.size ≡ counted_size (path_size x.path)) }
    // No further step comes.
    ensures stops { IfOk result (λ x. steps_come (drop x.to lexemes.now) ≡ false) }
{
    let first = step_part(alloc, lexemes, from, depth)?;
    if is_step(lexemes, first.to) {
        return sequence(alloc, lexemes, first, depth);
    }
    Ok(first)
}

/// The steps at a place, and the place behind them.
fn steps_and_place(
    alloc: Global,
    lexemes: &[Lexeme],
    from: usize,
    depth: usize,
) -> Result<(Path, usize), PatternFault>
    ensures goes { GoesOn result (steps_run depth begun (told (drop from lexemes.now)))
        (λ x. Ok (x.0, told (drop x.1 lexemes.now))) }
    ensures on { IfOk result (λ x. (from < x.1) × (x.1 ≤ length lexemes.now)) }
{
    match steps_at(alloc, lexemes, from, depth) {
        Ok(found) => Ok((found.path, found.to)),
        Err(e) => Err(e),
    }
}

/// The steps at a place of some lexemes, from 0, and the place behind them: a path without choices and constraints outside
/// of brackets.
///
/// The lexemes from there on have to end with `End`. A `(` belongs to the steps where the first lexeme after it that is not
/// `(` is an arrow; inside the brackets of steps each `(` is the path's. The faults are those of `parse_path`.
pub fn parse_steps(
    alloc: Global,
    lexemes: &[Lexeme],
    from: usize,
) -> Result<(Path, usize), PatternFault>
    requires { IsEnded plain (drop from lexemes.now) }
    // A value is one that the lexemes there begin with, up to the place behind it.
    ensures value { IfOk result
        (λ x. AreStepsFrom (depth_before lexemes.now from) lexemes.now from x.0 x.1) }
    // A fault is the first one.
    ensures fault { IfBad result (IsStepsFault (depth_before lexemes.now from) (drop from lexemes.now)) }
    // Where a value stands, it is the answer, and where there is a first fault, that is, unless memory is refused.
    ensures only_value { (p : Path) (count : ℕ) →
        AreSteps (depth_before lexemes.now from) (drop from lexemes.now) p count →
        Gives result p (from + count) }
    ensures only_fault { (at : ℕ) (k : PatternKind) →
        IsStepsFault (depth_before lexemes.now from) (drop from lexemes.now) at k →
        Refuses result at k }
    // Steps that are written out read back as themselves, where they keep the limits and no steps
    // go on with the lexeme behind them.
    ensures reads_back { (p : Path) (x : LexKind) (behind : List LexKind) → AreWritableSteps p →
        kinds plain (drop from lexemes.now) ≡ steps_written p ++ x ∷ behind →
        goes_on_steps (told_of false x behind) ≡ false →
        Keeps (BreaksRule (depth_before lexemes.now from)) (steps_written p) →
        Gives result p (from + length (steps_written p)) }
    // One of the two always stands, and never both.
    ensures one_answer { OneAnswer told_apart Steps (BreaksSteps (depth_before lexemes.now from)) (told (drop from lexemes.now)) }
{
    steps_and_place(alloc, lexemes, from, depth_at(lexemes, from))
}
