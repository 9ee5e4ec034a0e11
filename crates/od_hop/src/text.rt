//! Hops as whole texts.
ghost use Rattle.std.specs.Prelude.{◌≡◌, ℕ, ◌+◌, ◌<◌, ◌≤◌, ◌^◌, false, List, [], ◌∷◌, drop, length, Option, Ok, Err, IfOk};
ghost use Rattle.std.specs.Str.{chars as chars_in};
ghost use Rattle.od_pattern.specs.declared.rule.Hop.{Hop};
ghost use Rattle.od_language.specs.declared.pattern_fault.PatternKind.{PatternKind};
ghost use Rattle.od_language.specs.declared.limits.TheConstants.{PATTERN_SIZE};
ghost use Rattle.od_language.specs.Answers.{IfBad, Refuses};
ghost use Rattle.od_language.specs.FirstFault.{Keeps};
ghost use Rattle.od_language.specs.Whole.{OneOf};
ghost use Rattle.od_language.specs.WholeRuns.{to_the_end, sized as if_sized};
ghost use Rattle.od_surface.specs.Answers.{Tells, GivesValue};
ghost use Rattle.od_syntax.specs.Hops.{BreaksHop};
ghost use Rattle.od_syntax.specs.HopVerdicts.{hop_at as verdict_at, hop_of as verdict_of, hop_start};
ghost use Rattle.od_syntax.specs.Sizes.{hop_size, counted};
ghost use Rattle.od_syntax.specs.Texts.{IsHopText, IsHopTextFault};
ghost use Rattle.od_syntax.specs.Told.{told_apart, told};
ghost use Rattle.od_written.specs.Hops.{hop_written, kinds_told, IsWritableHop};
ghost use Rattle.od_written.specs.Texts.{HasLexemes};
ghost use Rattle.od_hop.specs.Reading.{hop_run};

use crate::joints::{Joined, hop_read};
use od_language::lexeme::Lexeme;
use od_language::limits::PATTERN_SIZE;
use od_language::pattern_fault::{PatternFault, PatternKind};
use od_lex::lex_at;
use od_pattern::rule::Hop;
use od_surface::again::first_again;
use od_surface::lexemes::{next, unexpected};
use od_surface::text::before_lexer;
use std::alloc::Global;

/// A hop with its size.
#[derive(Debug, Drop)]
pub struct Measured {
    pub hop: Hop,
    /// The size, counted to one more than a pattern may have.
    pub size: u32,
}

/// A hop behind which the lexemes end.
fn up_to_end(
    alloc: Global,
    lexemes: &[Lexeme],
    again: Option<u32>,
) -> Result<Measured, PatternFault>
    ensures goes { Tells (λ x. x.hop) result
        (to_the_end told_apart (hop_run again 0 hop_start (told lexemes.now))) }
    ensures size { IfOk result (λ x. x.size ≡ counted (hop_size x.hop)) }
{
    let Joined { hop, size, to } = hop_read(alloc, lexemes, again)?;
    match next(lexemes, to + 1) {
        Some(_) => Err(unexpected(lexemes, to, 0)),
        None => Ok(Measured { hop, size }),
    }
}

/// The hop that a text is which begins at a place of a longer one, in bytes from 0, or its first
/// fault.
///
/// Faults come in the order of the text, also where no lexeme stands (`Lex`). The hop's size may be
/// any: the size of a whole pattern is for the caller to test.
pub fn hop_at(alloc: Global, text: &str, at: u32) -> Result<Measured, PatternFault>
    requires { at + length text.now < 2 ^ 32 }
    // The answer is what the text is read as, or memory was refused.
    ensures tells { Tells (λ x. x.hop) result (verdict_at at (chars_in text.now)) }
    ensures size { IfOk result (λ x. x.size ≡ counted (hop_size x.hop)) }
{
    let read = lex_at(alloc, text, at)?;
    let lexemes: &[Lexeme] = &read.lexemes;
    let again = first_again(alloc, lexemes)?;
    before_lexer(up_to_end(alloc, lexemes, again), read.fault)
}

/// A hop that is not too big.
#[tactic(auto, using(od_surface::proofs::Counted::above_counted))]
fn sized(measured: Measured) -> Result<Hop, PatternFault>
    requires { measured.size ≡ counted (hop_size measured.hop) }
    ensures { Tells (λ p. p) result (if_sized hop_size (Ok measured.hop)) }
{
    if measured.size as usize > PATTERN_SIZE {
        return Err(PatternFault::Bad {
            at: 0,
            kind: PatternKind::TooBig,
        });
    }
    Ok(measured.hop)
}

/// The answer of `parse_hop`.
fn hop_of(alloc: Global, text: &str) -> Result<Hop, PatternFault>
    requires { length text.now < 2 ^ 32 }
    ensures { Tells (λ p. p) result (verdict_of (chars_in text.now)) }
{
    match hop_at(alloc, text, 0) {
        Ok(measured) => sized(measured),
        Err(fault) => Err(fault),
    }
}

/// The hop that a text is, or its first fault: a surface pattern, or surface patterns that steps
/// along dependency edges join.
///
/// A `(` behind which the first lexeme that is no `(` is an arrow opens steps, but for one inside a
/// constraint. A surface that steps follow, or that follows steps, has choices in brackets alone.
/// No two captures of a hop have one name. At most 100 brackets may be open at a place, those of
/// steps and of surfaces alike.
///
/// Faults come in the order of the text, with their places in bytes from 0, also where no lexeme
/// stands (`Lex`). At one place they come in the order of `PatternKind`; at last a size above
/// 10,000 (`TooBig`, at 0).
pub fn parse_hop(alloc: Global, text: &str) -> Result<Hop, PatternFault>
    requires { length text.now < 2 ^ 32 }
    // A value is the hop that the text is.
    ensures value { IfOk result (IsHopText (chars_in text.now)) }
    // A fault is the first one.
    ensures fault { IfBad result (IsHopTextFault (chars_in text.now)) }
    // Where the text is a hop, that is the answer, and where it has a first fault, that is, unless
    // memory is refused.
    ensures only_value { (p : Hop) → IsHopText (chars_in text.now) p → GivesValue result p }
    ensures only_fault { (at : ℕ) (k : PatternKind) → IsHopTextFault (chars_in text.now) at k →
        Refuses result at k }
    // A hop that is written out reads back as itself, where it keeps the rules and is not too big.
    ensures reads_back { (p : Hop) → IsWritableHop p →
        HasLexemes 0 (chars_in text.now) (hop_written p) →
        Keeps BreaksHop (kinds_told false (hop_written p)) → hop_size p ≤ PATTERN_SIZE →
        GivesValue result p }
    // One of the two always is, and never both.
    ensures one_answer { OneOf (IsHopText (chars_in text.now))
        (IsHopTextFault (chars_in text.now)) }
{
    hop_of(alloc, text)
}
