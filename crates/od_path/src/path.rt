//! A path, read from lexemes.
ghost use Rattle.std.specs.Prelude.{◌≡◌, ℕ, ◌+◌, ◌-◌, ◌^◌, ◌<◌, ◌≤◌, Bool, true, false, List, [], ◌∷◌, ◌++◌, drop, length, Option, Some, None, Ok, MatchOption, MatchResult, MatchBool, IfOk, OnOk};
ghost use Rattle.od_language.specs.declared.pattern_fault.PatternKind.{PatternKind};
ghost use Rattle.od_language.specs.declared.pattern_fault.PatternKind.TheVariants as kind;
ghost use Rattle.od_language.specs.declared.lexeme.LexKind.{LexKind};
ghost use Rattle.od_language.specs.declared.lexeme.LexKind.TheVariants as lexeme;
ghost use Rattle.od_language.specs.declared.lexeme.Lexeme.{Lexeme};
ghost use Rattle.od_language.specs.Alphabet.{plain, kinds, IsEnded};
ghost use Rattle.od_language.specs.Answers.{IfBad, Gives, Refuses};
ghost use Rattle.od_language.specs.Depth.{depth_before, is_bad_range, BreaksRule};
ghost use Rattle.od_language.specs.FirstFault.{Keeps};
ghost use Rattle.od_language.specs.Machine.{GoesOn};
ghost use Rattle.od_pattern.specs.declared.path.Path.{Path};
ghost use Rattle.od_pattern.specs.declared.path.Path.TheVariants as path_value;
ghost use Rattle.od_pattern.specs.declared.pattern.Value.TheVariants as asked;
ghost use Rattle.od_syntax.specs.PathMachine.{Around, top, round, State, atom, label, inside, part, turned, listed, whole, in_order, any_of, edge, NoAtomAt, NoChoiceAt, IsAtomAt};
ghost use Rattle.od_syntax.specs.Sizes.{counted as counted_size, path_size, repeat_size};
ghost use Rattle.od_written.specs.Paths.{path_written, IsWritablePath, goes_on_path};
ghost use Rattle.od_lex.specs.Machine.{IsAhead};
ghost use Rattle.od_path.specs.Machine.{run, Next, Comes, IsPathRead, IsPathFault, OnePath, IsPathFrom};

use crate::ahead::{bad, is_or, next, unexpected};
use crate::size::{one_more, together};
use crate::step::{Found, against, along, is_bad, pair, push, repeat};
use od_language::lexeme::{LexKind, Lexeme};
use od_language::limits::OPEN_BRACKETS;
use od_language::pattern_fault::{PatternFault, PatternKind};
use od_lex::{constraint_at, depth_at};
use od_pattern::path::Path;
use std::alloc::Global;

/// A constraint, of which a token is asked.
fn filter(
    alloc: Global,
    lexemes: &[Lexeme],
    from: usize,
    depth: usize,
) -> Result<Found, PatternFault>
    ensures goes { (x : Lexeme) (l : List Lexeme) →
        drop from lexemes.now ≡ x ∷ l → x.kind ≡ lexeme.SquareOpen →
        (a s : List Path) (k : Around) → GoesOn result (run depth (atom a s k) (drop from lexemes.now))
        (λ x. run depth (part x.path a s k) (drop x.to lexemes.now)) }
    ensures on { IfOk result (λ x. (from < x.to) × (x.to ≤ length lexemes.now)) }
    ensures size { IfOk result (λ x. x.size ≡ counted_size (path_size x.path)) }
{
    match constraint_at(alloc, lexemes, from, depth) {
        Ok((c, to)) => Ok(Found {
            path: Path::Filter(c),
            size: 1,
            to,
        }),
        Err(e) => Err(e),
    }
}

/// The end of what stands in brackets.
fn round_close(lexemes: &[Lexeme], from: usize) -> Result<usize, PatternFault>
    ensures on { IfOk result (λ to. (from < to) × (to ≤ length lexemes.now)) }
    ensures goes { (d : ℕ) (p : Path) (a s : List Path) (k : Around) →
        GoesOn result (run d (whole p (round a s k)) (drop from lexemes.now))
        (λ to. run (d - 1) (part p a s k) (drop to lexemes.now)) }
{
    match next(lexemes, from) {
        Some(x) => match x.kind {
            LexKind::RoundClose => Ok(from + 1),
            _ => Err(unexpected(lexemes, from)),
        },
        None => Err(unexpected(lexemes, from)),
    }
}

/// A path with the quantifier that follows it.
fn quantified(alloc: Global, lexemes: &[Lexeme], p: Found) -> Result<Found, PatternFault>
    requires { (p.to ≤ length lexemes.now) × (p.size ≡ counted_size (path_size p.path)) }
    ensures goes { (d : ℕ) (a s : List Path) (k : Around) →
        GoesOn result (run d (part p.path a s k) (drop p.to lexemes.now))
        (λ x. run d (turned a (s ++ x.path ∷ []) k) (drop x.to lexemes.now)) }
    ensures on { IfOk result (λ x. (p.to ≤ x.to) × (x.to ≤ length lexemes.now)) }
    ensures size { IfOk result (λ x. x.size ≡ counted_size (path_size x.path)) }
{
    match next(lexemes, p.to) {
        Some(x) => match x.kind {
            LexKind::Question => repeat(alloc, p, 0, Some(1)),
            LexKind::Star => repeat(alloc, p, 0, None),
            LexKind::Plus => repeat(alloc, p, 1, None),
            LexKind::Range(least, most) => {
                if is_bad(least, most) {
                    return Err(bad(x.at, PatternKind::BadRange));
                }
                repeat(alloc, p, least, most)
            }
            _ => Ok(p),
        },
        None => Ok(p),
    }
}

/// Whether an atom comes.
fn is_atom(lexemes: &[Lexeme], i: usize) -> bool
    ensures { MatchBool result (Comes IsAtomAt (drop i lexemes.now) × (i < length lexemes.now))
        (Next NoAtomAt (drop i lexemes.now)) }
{
    match next(lexemes, i) {
        Some(x) => match x.kind {
            LexKind::Along
            | LexKind::Against
            | LexKind::AnyAlong
            | LexKind::AnyAgainst
            | LexKind::SquareOpen
            | LexKind::RoundOpen => true,
            _ => false,
        },
        None => false,
    }
}

/// A step, a constraint, or a path in brackets.
#[cycle(path)]
fn path_atom(
    alloc: Global,
    lexemes: &[Lexeme],
    from: usize,
    depth: usize,
) -> Result<Found, PatternFault>
    ensures goes { (a s : List Path) (k : Around) →
        GoesOn result (run depth (atom a s k) (drop from lexemes.now))
        (λ x. run depth (part x.path a s k) (drop x.to lexemes.now)) }
    ensures on { IfOk result (λ x. (from < x.to) × (x.to ≤ length lexemes.now)) }
    ensures size { IfOk result (λ x. x.size ≡ counted_size (path_size x.path)) }
{
    match next(lexemes, from) {
        Some(x) => match x.kind {
            LexKind::Along => along(alloc, lexemes, from + 1),
            LexKind::Against => against(alloc, lexemes, from + 1),
            LexKind::AnyAlong => Ok(Found {
                path: Path::Along(None),
                size: 1,
                to: from + 1,
            }),
            LexKind::AnyAgainst => Ok(Found {
                path: Path::Against(None),
                size: 1,
                to: from + 1,
            }),
            LexKind::SquareOpen => filter(alloc, lexemes, from, depth),
            LexKind::RoundOpen => {
                if depth >= OPEN_BRACKETS {
                    return Err(bad(x.at, PatternKind::TooDeep));
                }
                grouped(alloc, lexemes, from + 1, depth + 1)
            }
            _ => Err(unexpected(lexemes, from)),
        },
        None => Err(unexpected(lexemes, from)),
    }
}

/// What stands in round brackets, from behind the opening one on.
#[cycle(path)]
fn grouped(
    alloc: Global,
    lexemes: &[Lexeme],
    from: usize,
    depth: usize,
) -> Result<Found, PatternFault>
    ensures goes { (a s : List Path) (k : Around) →
        GoesOn result (run depth (atom [] [] (round a s k)) (drop from lexemes.now))
        (λ x. run (depth - 1) (part x.path a s k) (drop x.to lexemes.now)) }
    ensures on { IfOk result (λ x. (from < x.to) × (x.to ≤ length lexemes.now)) }
    ensures size { IfOk result (λ x. x.size ≡ counted_size (path_size x.path)) }
{
    let Found { path, size, to } = choices(alloc, lexemes, from, depth)?;
    let to = round_close(lexemes, to)?;
    Ok(Found { path, size, to })
}

/// An atom with its quantifier, if it has one.
#[cycle(path)]
fn path_part(
    alloc: Global,
    lexemes: &[Lexeme],
    from: usize,
    depth: usize,
) -> Result<Found, PatternFault>
    ensures goes { (a s : List Path) (k : Around) →
        GoesOn result (run depth (atom a s k) (drop from lexemes.now))
        (λ x. run depth (turned a (s ++ x.path ∷ []) k) (drop x.to lexemes.now)) }
    ensures on { IfOk result (λ x. (from < x.to) × (x.to ≤ length lexemes.now)) }
    ensures size { IfOk result (λ x. x.size ≡ counted_size (path_size x.path)) }
{
    let p = path_atom(alloc, lexemes, from, depth)?;
    quantified(alloc, lexemes, p)
}

/// Parts one after another; one alone is itself.
#[cycle(path)]
#[tactic(auto, using(crate::proofs::Moves::one_listed))]
fn parts(
    alloc: Global,
    lexemes: &[Lexeme],
    from: usize,
    depth: usize,
) -> Result<Found, PatternFault>
    ensures goes { (a : List Path) (k : Around) →
        GoesOn result (run depth (atom a [] k) (drop from lexemes.now))
        (λ x. run depth (listed (a ++ x.path ∷ []) k) (drop x.to lexemes.now)) }
    ensures on { IfOk result (λ x. (from < x.to) × (x.to ≤ length lexemes.now)) }
    ensures size { IfOk result (λ x. x.size ≡ counted_size (path_size x.path)) }
{
    let first = path_part(alloc, lexemes, from, depth)?;
    if is_atom(lexemes, first.to) {
        return sequence(alloc, lexemes, first, depth);
    }
    Ok(first)
}

/// Parts behind the first one, and all of them as one path.
#[cycle(path)]
#[tactic(auto, using(crate::proofs::Moves::to_atom, crate::proofs::Moves::to_listed, crate::proofs::Sizes::seq_done, crate::proofs::Sizes::counted_small))]
fn sequence(
    alloc: Global,
    lexemes: &[Lexeme],
    first: Found,
    depth: usize,
) -> Result<Found, PatternFault>
    requires { Comes IsAtomAt (drop first.to lexemes.now) × (first.size ≡ counted_size (path_size first.path)) }
    ensures goes { (a : List Path) (k : Around) →
        GoesOn result (run depth (turned a (first.path ∷ []) k) (drop first.to lexemes.now))
        (λ x. run depth (listed (a ++ x.path ∷ []) k) (drop x.to lexemes.now)) }
    ensures on { IfOk result (λ x. (first.to < x.to) × (x.to ≤ length lexemes.now)) }
    ensures size { IfOk result (λ x. x.size ≡ counted_size (path_size x.path)) }
{
    let second = path_part(alloc, lexemes, first.to, depth)?;
    let mut size = together(first.size, second.size);
    let mut list = pair(alloc, first.path, second.path)?;
    let mut i = second.to;
    while is_atom(lexemes, i) {
        let more = path_part(alloc, lexemes, i, depth)?;
        size = together(size, more.size);
        i = more.to;
        push(&mut list, more.path)?;
    }
    Ok(Found {
        path: Path::Seq(list),
        size,
        to: i,
    })
}

/// Choices between `|`; one alone is itself.
#[cycle(path)]
#[tactic(auto, using(crate::proofs::Moves::one_whole))]
fn choices(
    alloc: Global,
    lexemes: &[Lexeme],
    from: usize,
    depth: usize,
) -> Result<Found, PatternFault>
    ensures goes { (k : Around) → GoesOn result (run depth (atom [] [] k) (drop from lexemes.now))
        (λ x. run depth (whole x.path k) (drop x.to lexemes.now)) }
    ensures on { IfOk result (λ x. (from < x.to) × (x.to ≤ length lexemes.now)) }
    ensures size { IfOk result (λ x. x.size ≡ counted_size (path_size x.path)) }
{
    let first = parts(alloc, lexemes, from, depth)?;
    if is_or(lexemes, first.to) {
        return alternation(alloc, lexemes, first, depth);
    }
    Ok(first)
}

/// Choices behind the first one, and all of them as one path.
#[cycle(path)]
#[tactic(auto, using(crate::proofs::Moves::to_whole, crate::proofs::Sizes::alt_done, crate::proofs::Sizes::counted_small))]
fn alternation(
    alloc: Global,
    lexemes: &[Lexeme],
    first: Found,
    depth: usize,
) -> Result<Found, PatternFault>
    requires { IsAhead lexeme.Or first.to lexemes.now × (first.size ≡ counted_size (path_size first.path)) }
    ensures goes { (k : Around) →
        GoesOn result (run depth (listed (first.path ∷ []) k) (drop first.to lexemes.now))
        (λ x. run depth (whole x.path k) (drop x.to lexemes.now)) }
    ensures on { IfOk result (λ x. (first.to < x.to) × (x.to ≤ length lexemes.now)) }
    ensures size { IfOk result (λ x. x.size ≡ counted_size (path_size x.path)) }
{
    let second = parts(alloc, lexemes, first.to + 1, depth)?;
    let mut size = one_more(one_more(0, first.size), second.size);
    let mut list = pair(alloc, first.path, second.path)?;
    let mut i = second.to;
    while is_or(lexemes, i) {
        let more = parts(alloc, lexemes, i + 1, depth)?;
        size = one_more(size, more.size);
        i = more.to;
        push(&mut list, more.path)?;
    }
    Ok(Found {
        path: Path::Alt(list),
        size,
        to: i,
    })
}

/// The path at a place where so many brackets are open before it, its size, and the place behind it.
///
/// For parsers that count the open brackets themselves; `parse_path` counts them.
pub fn path_at(
    alloc: Global,
    lexemes: &[Lexeme],
    from: usize,
    depth: usize,
) -> Result<Found, PatternFault>
    // What a machine that contains the machine of paths needs to know.
    ensures goes { (k : Around) → GoesOn result (run depth (atom [] [] k) (drop from lexemes.now))
        (λ x. run depth (whole x.path k) (drop x.to lexemes.now)) }
    ensures on { IfOk result (λ x. (from < x.to) × (x.to ≤ length lexemes.now)) }
    ensures size { IfOk result (λ x. x.size ≡ counted_size (path_size x.path)) }
{
    choices(alloc, lexemes, from, depth)
}

/// The path at a place, and the place behind it.
fn path_and_place(
    alloc: Global,
    lexemes: &[Lexeme],
    from: usize,
    depth: usize,
) -> Result<(Path, usize), PatternFault>
    ensures goes { (k : Around) → GoesOn result (run depth (atom [] [] k) (drop from lexemes.now))
        (λ x. run depth (whole x.0 k) (drop x.1 lexemes.now)) }
    ensures on { IfOk result (λ x. (from < x.1) × (x.1 ≤ length lexemes.now)) }
{
    match path_at(alloc, lexemes, from, depth) {
        Ok(found) => Ok((found.path, found.to)),
        Err(e) => Err(e),
    }
}

/// The path at a place of some lexemes, from 0, and the place behind it.
///
/// The lexemes from there on have to end with `End`, as those of `tokens` and `lex` do. A fault has the place in the text
/// of the first lexeme with which no path can go on, or which breaks a rule: an expression of more than 200 bytes, a bracket
/// inside 100 open ones, counted over all lexemes, or a range whose least is above its most or whose most is 0. Any path may
/// be repeated, also one that may take no edge.
pub fn parse_path(
    alloc: Global,
    lexemes: &[Lexeme],
    from: usize,
) -> Result<(Path, usize), PatternFault>
    requires { IsEnded plain (drop from lexemes.now) }
    // A value is one that the lexemes there begin with, up to the place behind it.
    ensures value { IfOk result
        (λ x. IsPathFrom (depth_before lexemes.now from) lexemes.now from x.0 x.1) }
    // A fault is the first one.
    ensures fault { IfBad result (IsPathFault (depth_before lexemes.now from) (drop from lexemes.now)) }
    // Where a value stands, it is the answer, and where there is a first fault, that is, unless memory is refused.
    ensures only_value { (p : Path) (count : ℕ) →
        IsPathRead (depth_before lexemes.now from) (drop from lexemes.now) p count →
        Gives result p (from + count) }
    ensures only_fault { (at : ℕ) (k : PatternKind) →
        IsPathFault (depth_before lexemes.now from) (drop from lexemes.now) at k →
        Refuses result at k }
    // A path that is written out reads back as itself, where it keeps the limits and no path goes
    // on with the lexeme behind it.
    ensures reads_back { (p : Path) (x : LexKind) (behind : List LexKind) → IsWritablePath p →
        kinds plain (drop from lexemes.now) ≡ path_written p ++ x ∷ behind →
        goes_on_path x ≡ false →
        Keeps (BreaksRule (depth_before lexemes.now from)) (path_written p) →
        Gives result p (from + length (path_written p)) }
    // One of the two always stands, and never both.
    ensures one_answer { OnePath (depth_before lexemes.now from) (drop from lexemes.now) }
{
    path_and_place(alloc, lexemes, from, depth_at(lexemes, from))
}
