//! Surface patterns as whole texts.
ghost use Rattle.std.specs.Prelude.{◌≡◌, ℕ, ◌+◌, ◌<◌, ◌≤◌, ◌^◌, List, [], ◌∷◌, drop, length, Option, Some, None, Ok, Err, IfOk};
ghost use Rattle.std.specs.Str.{chars as chars_in};
ghost use Rattle.od_pattern.specs.declared.pattern.Surface.{Surface};
ghost use Rattle.od_language.specs.declared.pattern_fault.PatternKind.{PatternKind};
ghost use Rattle.od_language.specs.Alphabet.{plain};
ghost use Rattle.od_language.specs.Answers.{IfBad, Refuses};
ghost use Rattle.od_language.specs.declared.limits.TheConstants.{PATTERN_SIZE};
ghost use Rattle.od_language.specs.FirstFault.{Keeps};
ghost use Rattle.od_language.specs.Machine.{GoesOn};
ghost use Rattle.od_language.specs.Whole.{OneOf};
ghost use Rattle.od_language.specs.WholeRuns.{Verdict, to_the_end, sized as if_sized};
ghost use Rattle.od_syntax.specs.Rules.{BreaksSurface};
ghost use Rattle.od_syntax.specs.Sizes.{surface_size, counted};
ghost use Rattle.od_syntax.specs.Texts.{IsSurfaceText, IsSurfaceTextFault, stuck_at};
ghost use Rattle.od_syntax.specs.Verdicts.{surface_at as verdict_at, surface_of as verdict_of, surface_start};
ghost use Rattle.od_written.specs.Surfaces.{surface_written, IsWritableSurface};
ghost use Rattle.od_written.specs.Texts.{HasLexemes};
ghost use Rattle.od_surface.specs.Answers.{Tells, GivesValue, unless_stuck};
ghost use Rattle.od_surface.specs.Reading.{of_text, run, whole_of};

use crate::again::first_again;
use crate::lexemes::{Places, is_or, next, unexpected};
use crate::single::Found;
use crate::surface::{more_choices, parts};
use od_language::lexeme::{Lexeme, Miss};
use od_language::limits::PATTERN_SIZE;
use od_language::pattern_fault::{PatternFault, PatternKind};
use od_lex::lex_at;
use od_pattern::pattern::Surface;
use std::alloc::Global;

/// A surface pattern with its size.
#[derive(Debug, Drop)]
pub struct Measured {
    pub pattern: Surface,
    /// The size, counted to one more than a pattern may have.
    pub size: u32,
}

/// A surface pattern at the front of lexemes.
fn surface(alloc: Global, lexemes: &[Lexeme], places: Places) -> Result<Found, PatternFault>
    ensures goes { GoesOn result (whole_of (run places 0 surface_start lexemes.now))
        (λ x. Ok (x.pattern, drop x.to lexemes.now)) }
    ensures size { IfOk result (λ x. x.size ≡ counted (surface_size x.pattern)) }
    ensures on { IfOk result (λ x. x.to ≤ length lexemes.now) }
{
    let first = parts(alloc, lexemes, 0, 0, places)?;
    if is_or(lexemes, first.to) {
        more_choices(alloc, lexemes, first, 0, places)
    } else {
        Ok(first)
    }
}

/// A surface pattern behind which the lexemes end.
fn up_to_end(
    alloc: Global,
    lexemes: &[Lexeme],
    again: Option<u32>,
) -> Result<Measured, PatternFault>
    ensures goes { Tells (λ x. x.pattern) result
        (to_the_end plain (whole_of (run (of_text again) 0 surface_start lexemes.now))) }
    ensures size { IfOk result (λ x. x.size ≡ counted (surface_size x.pattern)) }
{
    let places = Places { again, behind: 0 };
    let Found {
        pattern,
        nullable: _,
        size,
        to,
    } = surface(alloc, lexemes, places)?;
    match next(lexemes, to + 1) {
        Some(_) => Err(unexpected(lexemes, to, 0)),
        None => Ok(Measured { pattern, size }),
    }
}

/// An answer of the parser, unless the lexer's fault comes first.
pub fn before_lexer<T: Drop>(
    answer: Result<T, PatternFault>,
    lexer: Option<(u32, Miss)>,
) -> Result<T, PatternFault>
    ensures { result ≡ unless_stuck (stuck_at lexer) answer }
{
    let Some((place, _)) = lexer else {
        return answer;
    };
    let stuck = PatternFault::Bad {
        at: place,
        kind: PatternKind::Lex,
    };
    match answer {
        Ok(_) => Err(stuck),
        Err(PatternFault::NoMemory) => Err(PatternFault::NoMemory),
        Err(PatternFault::Bad { at, kind }) => {
            if at < place {
                Err(PatternFault::Bad { at, kind })
            } else {
                Err(stuck)
            }
        }
    }
}

/// The surface pattern that a text is which begins at a place of a longer one, or its first fault.
///
/// Its size may be any: the size of a whole pattern is for the caller to test.
pub fn surface_at(alloc: Global, text: &str, at: u32) -> Result<Measured, PatternFault>
    requires { at + length text.now < 2 ^ 32 }
    ensures tells { Tells (λ x. x.pattern) result (verdict_at at (chars_in text.now)) }
    ensures size { IfOk result (λ x. x.size ≡ counted (surface_size x.pattern)) }
{
    let read = lex_at(alloc, text, at)?;
    let lexemes: &[Lexeme] = &read.lexemes;
    let again = first_again(alloc, lexemes)?;
    before_lexer(up_to_end(alloc, lexemes, again), read.fault)
}

/// A pattern that is not too big.
#[tactic(auto, using(crate::proofs::Counted::above_counted))]
fn sized(measured: Measured) -> Result<Surface, PatternFault>
    requires { measured.size ≡ counted (surface_size measured.pattern) }
    ensures { Tells (λ p. p) result (if_sized surface_size (Ok measured.pattern)) }
{
    if measured.size as usize > PATTERN_SIZE {
        return Err(PatternFault::Bad {
            at: 0,
            kind: PatternKind::TooBig,
        });
    }
    Ok(measured.pattern)
}

/// The answer of `parse_surface`.
fn surface_of(alloc: Global, text: &str) -> Result<Surface, PatternFault>
    requires { length text.now < 2 ^ 32 }
    ensures { Tells (λ p. p) result (verdict_of (chars_in text.now)) }
{
    match surface_at(alloc, text, 0) {
        Ok(measured) => sized(measured),
        Err(fault) => Err(fault),
    }
}

/// The surface pattern that a text is, or its first fault.
///
/// Faults come in the order of the text, also where no lexeme stands (`Lex`). At one place they come in the order of
/// `PatternKind`; at last a size above 10,000 (`TooBig`, at 0).
pub fn parse_surface(alloc: Global, text: &str) -> Result<Surface, PatternFault>
    requires { length text.now < 2 ^ 32 }
    // A value is the pattern that the text is.
    ensures value { IfOk result (IsSurfaceText (chars_in text.now)) }
    // A fault is the first one.
    ensures fault { IfBad result (IsSurfaceTextFault (chars_in text.now)) }
    // Where the text is a pattern, that is the answer, and where it has a first fault, that is, unless memory is refused.
    ensures only_value { (p : Surface) → IsSurfaceText (chars_in text.now) p → GivesValue result p }
    ensures only_fault { (at : ℕ) (k : PatternKind) → IsSurfaceTextFault (chars_in text.now) at k →
        Refuses result at k }
    // A pattern that is written out reads back as itself, where it keeps the rules and is not too
    // big.
    ensures reads_back { (p : Surface) → IsWritableSurface p →
        HasLexemes 0 (chars_in text.now) (surface_written p) →
        Keeps BreaksSurface (surface_written p) → surface_size p ≤ PATTERN_SIZE →
        GivesValue result p }
    // One of the two always is, and never both.
    ensures one_answer { OneOf (IsSurfaceText (chars_in text.now)) (IsSurfaceTextFault (chars_in text.now)) }
{
    surface_of(alloc, text)
}
