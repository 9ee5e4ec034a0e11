//! A surface pattern, read from lexemes.
//!
//! Each part says how the reading goes on behind it, and carries whether what it read may match no token, and its size.
ghost use Rattle.std.specs.Prelude.{◌≡◌, ℕ, ◌+◌, ◌-◌, ◌<◌, ◌≤◌, List, [], ◌∷◌, ◌++◌, drop, length, Option, Some, None, Ok, Err, IfOk, MatchResult, OnOk, OnErr};
ghost use Rattle.std.specs.List.{list_all, list_any};
ghost use Rattle.od_pattern.specs.declared.pattern.Surface.{Surface};
ghost use Rattle.od_pattern.specs.declared.pattern.Surface.TheVariants as pattern;
ghost use Rattle.od_pattern.specs.Nullable.{is_nullable};
ghost use Rattle.od_language.specs.declared.lexeme.LexKind.TheVariants as lexeme;
ghost use Rattle.od_language.specs.Machine.{GoesOn};
ghost use Rattle.od_lex.specs.Machine.{IsAhead};
ghost use Rattle.od_syntax.specs.Sizes.{counted, surface_size};
ghost use Rattle.od_syntax.specs.SurfaceMachine.{Around, top, round, atom, part, turned, listed, whole, closed, in_order};
ghost use Rattle.od_surface.specs.Reading.{run};

use crate::lexemes::{Places, bad, is_again, is_atom, is_or, next, unexpected};
use crate::single::{Found, copied, label, looking, of_norm, plain, push_plain, read, token};
use crate::sizes::{one_more, together};
use crate::turns::{quantified, unrepeated_text};
use od_language::lexeme::{LexKind, Lexeme};
use od_language::limits::{EXPRESSION_BYTES, OPEN_BRACKETS};
use od_language::pattern_fault::{PatternFault, PatternKind};
use od_pattern::pattern::{Surface, Value};
use od_text::list::List;
use od_text::text::Text;
use sqlite_items::Boxed;
use std::alloc::Global;

fn captured(alloc: Global, name: Text, body: Surface) -> Result<Surface, PatternFault>
    ensures { MatchResult result (λ r. r ≡ pattern.Capture name body)
        (λ e. e ≡ PatternFault.NoMemory) }
{
    Ok(Surface::Capture(name, Boxed::new(alloc, body)?))
}

/// Parts one after another, as one pattern.
fn sequence(parts: List<Surface>) -> Surface
    ensures { result ≡ in_order parts }
{
    let mut items = parts.into_vec();
    if items.len() == 1 {
        if let Some(p) = items.pop() {
            return p;
        }
    }
    Surface::Seq(List::from_vec(items))
}

/// The end of what stands in brackets.
fn round_close(lexemes: &[Lexeme], from: usize, places: Places) -> Result<usize, PatternFault>
    ensures on { IfOk result (λ to. (from < to) × (to ≤ length lexemes.now)) }
    ensures goes { (d : ℕ) (p : Surface) (o : Option (List ℕ)) (a s : List Surface) (k : Around) →
        GoesOn result (run places d (whole p (round o a s k)) (drop from lexemes.now))
        (λ to. run places (d - 1) (part (closed o p) a s k) (drop to lexemes.now)) }
{
    match next(lexemes, from) {
        Some(x) => match x.kind {
            LexKind::RoundClose => Ok(from + 1),
            _ => Err(unexpected(lexemes, from, places.behind)),
        },
        None => Err(unexpected(lexemes, from, places.behind)),
    }
}

/// A token, a label, a look, an end of the sentence, or a pattern in brackets.
#[cycle(surface)]
fn surface_atom(
    alloc: Global,
    lexemes: &[Lexeme],
    from: usize,
    depth: usize,
    places: Places,
) -> Result<Found, PatternFault>
    ensures goes { (a s : List Surface) (k : Around) →
        GoesOn result (run places depth (atom a s k) (drop from lexemes.now))
        (λ x. run places depth (part x.pattern a s k) (drop x.to lexemes.now)) }
    ensures nullable { IfOk result (λ x. x.nullable ≡ is_nullable x.pattern) }
    ensures size { IfOk result (λ x. x.size ≡ counted (surface_size x.pattern)) }
    ensures on { IfOk result (λ x. (from < x.to) × (x.to ≤ length lexemes.now)) }
{
    let Some(x) = next(lexemes, from) else {
        return Err(unexpected(lexemes, from, places.behind));
    };
    match &x.kind {
        LexKind::SquareOpen => token(alloc, lexemes, from, depth, places),
        LexKind::Word(text) => Ok(read(plain(alloc, text)?, false, 1, from + 1)),
        LexKind::Quoted(text) => Ok(read(plain(alloc, text)?, false, 1, from + 1)),
        LexKind::Regex(text) => {
            if text.get().len() > EXPRESSION_BYTES {
                return Err(bad(x.at, PatternKind::RegexLong));
            }
            let value = Value::Regex(copied(alloc, text)?);
            Ok(read(of_norm(value), false, 1, from + 1))
        }
        LexKind::At => label(alloc, lexemes, from + 1, places),
        LexKind::Caret => Ok(read(Surface::First, true, 1, from + 1)),
        LexKind::Dollar => Ok(read(Surface::Last, true, 1, from + 1)),
        LexKind::NameOpen(name) => {
            if is_again(places.again, x.at) {
                return Err(bad(x.at, PatternKind::SameCapture));
            }
            if depth >= OPEN_BRACKETS {
                return Err(bad(x.at, PatternKind::TooDeep));
            }
            capture(alloc, lexemes, from + 1, depth + 1, places, name)
        }
        LexKind::RoundOpen => {
            if depth >= OPEN_BRACKETS {
                return Err(bad(x.at, PatternKind::TooDeep));
            }
            grouped(alloc, lexemes, from + 1, depth + 1, places)
        }
        LexKind::AheadIs => {
            if depth >= OPEN_BRACKETS {
                return Err(bad(x.at, PatternKind::TooDeep));
            }
            looking(alloc, lexemes, from + 1, depth + 1, places, true, true)
        }
        LexKind::AheadNot => {
            if depth >= OPEN_BRACKETS {
                return Err(bad(x.at, PatternKind::TooDeep));
            }
            looking(alloc, lexemes, from + 1, depth + 1, places, true, false)
        }
        LexKind::BehindIs => {
            if depth >= OPEN_BRACKETS {
                return Err(bad(x.at, PatternKind::TooDeep));
            }
            looking(alloc, lexemes, from + 1, depth + 1, places, false, true)
        }
        LexKind::BehindNot => {
            if depth >= OPEN_BRACKETS {
                return Err(bad(x.at, PatternKind::TooDeep));
            }
            looking(alloc, lexemes, from + 1, depth + 1, places, false, false)
        }
        _ => Err(unexpected(lexemes, from, places.behind)),
    }
}

/// What stands in round brackets, from behind the opening one on.
#[cycle(surface)]
fn grouped(
    alloc: Global,
    lexemes: &[Lexeme],
    from: usize,
    depth: usize,
    places: Places,
) -> Result<Found, PatternFault>
    ensures goes { (a s : List Surface) (k : Around) →
        GoesOn result (run places depth (atom [] [] (round None a s k)) (drop from lexemes.now))
        (λ x. run places (depth - 1) (part x.pattern a s k) (drop x.to lexemes.now)) }
    ensures nullable { IfOk result (λ x. x.nullable ≡ is_nullable x.pattern) }
    ensures size { IfOk result (λ x. x.size ≡ counted (surface_size x.pattern)) }
    ensures on { IfOk result (λ x. (from < x.to) × (x.to ≤ length lexemes.now)) }
{
    let Found {
        pattern,
        nullable,
        size,
        to,
    } = choices(alloc, lexemes, from, depth, places)?;
    let end = round_close(lexemes, to, places)?;
    Ok(read(pattern, nullable, size, end))
}

/// What stands in the brackets of a capture, from behind the opening one on.
#[cycle(surface)]
#[tactic(auto, using(crate::proofs::Moves::nullable_capture, crate::proofs::Counted::size_capture, crate::proofs::Counted::counted_most))]
fn capture(
    alloc: Global,
    lexemes: &[Lexeme],
    from: usize,
    depth: usize,
    places: Places,
    name: &Text,
) -> Result<Found, PatternFault>
    ensures goes { (a s : List Surface) (k : Around) →
        GoesOn result (run places depth (atom [] [] (round (Some name.now) a s k)) (drop from lexemes.now))
        (λ x. run places (depth - 1) (part x.pattern a s k) (drop x.to lexemes.now)) }
    ensures nullable { IfOk result (λ x. x.nullable ≡ is_nullable x.pattern) }
    ensures size { IfOk result (λ x. x.size ≡ counted (surface_size x.pattern)) }
    ensures on { IfOk result (λ x. (from < x.to) × (x.to ≤ length lexemes.now)) }
{
    let Found {
        pattern,
        nullable,
        size,
        to,
    } = choices(alloc, lexemes, from, depth, places)?;
    let end = round_close(lexemes, to, places)?;
    let pattern = captured(alloc, copied(alloc, name)?, pattern)?;
    Ok(read(pattern, nullable, together(2, size), end))
}

/// An atom with its quantifier, if it has one.
#[cycle(surface)]
fn surface_part(
    alloc: Global,
    lexemes: &[Lexeme],
    from: usize,
    depth: usize,
    places: Places,
) -> Result<Found, PatternFault>
    ensures goes { (a s : List Surface) (k : Around) →
        GoesOn result (run places depth (atom a s k) (drop from lexemes.now))
        (λ x. run places depth (turned a (s ++ x.pattern ∷ []) k) (drop x.to lexemes.now)) }
    ensures nullable { IfOk result (λ x. x.nullable ≡ is_nullable x.pattern) }
    ensures size { IfOk result (λ x. x.size ≡ counted (surface_size x.pattern)) }
    ensures on { IfOk result (λ x. (from < x.to) × (x.to ≤ length lexemes.now)) }
{
    let body = surface_atom(alloc, lexemes, from, depth, places)?;
    quantified(alloc, lexemes, body)
}

/// Parts one after another: a choice.
#[cycle(surface)]
#[tactic(auto, using(crate::proofs::Moves::to_atom, crate::proofs::Moves::from_turned, crate::proofs::Moves::all_more, crate::proofs::Moves::not_all, crate::proofs::Moves::order_nullable, crate::proofs::Counted::order_first, crate::proofs::Counted::order_more, crate::proofs::Counted::order_size_is, crate::proofs::Counted::counted_most))]
pub fn parts(
    alloc: Global,
    lexemes: &[Lexeme],
    from: usize,
    depth: usize,
    places: Places,
) -> Result<Found, PatternFault>
    ensures goes { (a : List Surface) (k : Around) →
        GoesOn result (run places depth (atom a [] k) (drop from lexemes.now))
        (λ x. run places depth (listed (a ++ x.pattern ∷ []) k) (drop x.to lexemes.now)) }
    ensures nullable { IfOk result (λ x. x.nullable ≡ is_nullable x.pattern) }
    ensures size { IfOk result (λ x. x.size ≡ counted (surface_size x.pattern)) }
    ensures on { IfOk result (λ x. (from < x.to) × (x.to ≤ length lexemes.now)) }
{
    let Found {
        pattern,
        nullable,
        size,
        to,
    } = surface_part(alloc, lexemes, from, depth, places)?;
    let mut i = to;
    let mut all = nullable;
    let mut sum = size;
    let mut list = List::new(alloc);
    list.push(pattern)?;
    while is_atom(lexemes, i) {
        // Most parts are words: one is not built apart and moved.
        if let Some(text) = unrepeated_text(lexemes, i) {
            push_plain(alloc, &mut list, text)?;
            all = false;
            sum = together(sum, 1);
            i += 1;
            continue;
        }
        let Found {
            pattern,
            nullable,
            size,
            to,
        } = surface_part(alloc, lexemes, i, depth, places)?;
        list.push(pattern)?;
        all = all && nullable;
        sum = together(sum, size);
        i = to;
    }
    Ok(read(sequence(list), all, sum, i))
}

/// Further choices behind the first one and a `|`.
#[cycle(surface)]
#[tactic(auto, using(crate::proofs::Moves::any_more, crate::proofs::Moves::nullable_alt, crate::proofs::Moves::from_listed, crate::proofs::Moves::some_more, crate::proofs::Moves::many_more, crate::proofs::Counted::choice_more, crate::proofs::Counted::choice_first, crate::proofs::Counted::choice_size_is, crate::proofs::Counted::counted_most))]
pub fn more_choices(
    alloc: Global,
    lexemes: &[Lexeme],
    first: Found,
    depth: usize,
    places: Places,
) -> Result<Found, PatternFault>
    requires { IsAhead lexeme.Or first.to lexemes.now × (first.nullable ≡ is_nullable first.pattern) ×
        (first.size ≡ counted (surface_size first.pattern)) }
    ensures goes { (k : Around) →
        GoesOn result (run places depth (listed (first.pattern ∷ []) k) (drop first.to lexemes.now))
        (λ x. run places depth (whole x.pattern k) (drop x.to lexemes.now)) }
    ensures nullable { IfOk result (λ x. x.nullable ≡ is_nullable x.pattern) }
    ensures size { IfOk result (λ x. x.size ≡ counted (surface_size x.pattern)) }
    ensures on { IfOk result (λ x. (first.to < x.to) × (x.to ≤ length lexemes.now)) }
{
    let Found {
        pattern,
        nullable,
        size,
        to,
    } = first;
    let mut i = to;
    let mut some = nullable;
    let mut sum = one_more(0, size);
    let mut list = List::new(alloc);
    list.push(pattern)?;
    while is_or(lexemes, i) {
        let Found {
            pattern,
            nullable,
            size,
            to,
        } = parts(alloc, lexemes, i + 1, depth, places)?;
        list.push(pattern)?;
        some = some || nullable;
        sum = one_more(sum, size);
        i = to;
    }
    Ok(read(Surface::Alt(list), some, sum, i))
}

/// What stands in brackets: choices between `|`.
#[cycle(surface)]
#[tactic(auto, using(crate::proofs::Moves::from_one))]
fn choices(
    alloc: Global,
    lexemes: &[Lexeme],
    from: usize,
    depth: usize,
    places: Places,
) -> Result<Found, PatternFault>
    ensures goes { (o : Option (List ℕ)) (a s : List Surface) (k : Around) →
        GoesOn result (run places depth (atom [] [] (round o a s k)) (drop from lexemes.now))
        (λ x. run places depth (whole x.pattern (round o a s k)) (drop x.to lexemes.now)) }
    ensures nullable { IfOk result (λ x. x.nullable ≡ is_nullable x.pattern) }
    ensures size { IfOk result (λ x. x.size ≡ counted (surface_size x.pattern)) }
    ensures on { IfOk result (λ x. (from < x.to) × (x.to ≤ length lexemes.now)) }
{
    let first = parts(alloc, lexemes, from, depth, places)?;
    if is_or(lexemes, first.to) {
        more_choices(alloc, lexemes, first, depth, places)
    } else {
        Ok(first)
    }
}
