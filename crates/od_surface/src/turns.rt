//! Quantifiers of surface patterns.
ghost use Rattle.std.specs.Prelude.{◌≡◌, ℕ, ◌+◌, ◌<◌, ◌≤◌, ◌==◌, ◌||◌, List, [], ◌∷◌, ◌++◌, drop, length, Option, Some, None, Ok, Err, MatchBool, MatchResult, IfOk, IfSome, if◌then◌else◌};
ghost use Rattle.od_pattern.specs.declared.pattern.Field.TheVariants as field;
ghost use Rattle.od_pattern.specs.declared.pattern.Surface.{Surface};
ghost use Rattle.od_pattern.specs.declared.pattern.Value.TheVariants as asked;
ghost use Rattle.od_pattern.specs.Nullable.{is_nullable};
ghost use Rattle.od_language.specs.declared.pattern_fault.PatternKind.TheVariants as kind;
ghost use Rattle.od_language.specs.declared.lexeme.Lexeme.{Lexeme};
ghost use Rattle.od_language.specs.Depth.{is_bad_range};
ghost use Rattle.od_language.specs.Fields.{compared_text};
ghost use Rattle.od_language.specs.Machine.{GoesOn};
ghost use Rattle.od_syntax.specs.Sizes.{counted, surface_size, repeat_size};
ghost use Rattle.od_syntax.specs.SurfaceMachine.{Around, atom, norm, part, counted as behind_quantifier, turned, repeat};
ghost use Rattle.od_surface.specs.declared.lexemes.Places.{Places};
ghost use Rattle.od_surface.specs.Reading.{run, on_from, IsSomeOnly, IsUnrepeated};

use crate::lexemes::{Places, bad, next};
use crate::single::{Found, read};
use crate::sizes::repeated_size;
use od_language::lexeme::{LexKind, Lexeme};
use od_language::pattern_fault::{PatternFault, PatternKind};
use od_pattern::pattern::{Surface, Turns};
use od_text::text::Text;
use sqlite_items::Boxed;
use std::alloc::Global;

/// Whether the least is above the most, or the most is 0.
fn is_bad(least: u32, most: Option<u32>) -> bool
    ensures { result ≡ is_bad_range least most }
{
    match most {
        None => false,
        Some(most) => most == 0 || most < least,
    }
}

fn repeated(
    alloc: Global,
    body: Surface,
    least: u32,
    most: Option<u32>,
    lazy: bool,
) -> Result<Surface, PatternFault>
    ensures { MatchResult result (λ r. r ≡ repeat body least most lazy)
        (λ e. e ≡ PatternFault.NoMemory) }
{
    let turns = Turns { least, most, lazy };
    Ok(Surface::Repeat(Boxed::new(alloc, body)?, turns))
}

/// A repeat of a body that may match no token or must, with its size.
#[tactic(auto, using(crate::proofs::Moves::nullable_repeat, crate::proofs::Counted::size_repeat, crate::proofs::Counted::counted_repeat, crate::proofs::Counted::counted_most))]
fn repeat_of(
    alloc: Global,
    body: Found,
    least: u32,
    most: Option<u32>,
    lazy: bool,
    to: usize,
) -> Result<Found, PatternFault>
    requires { (body.nullable ≡ is_nullable body.pattern) ×
        (body.size ≡ counted (surface_size body.pattern)) }
    ensures made { MatchResult result (λ x. x.pattern ≡ repeat body.pattern least most lazy)
        (λ e. e ≡ PatternFault.NoMemory) }
    ensures nullable { IfOk result (λ x. x.nullable ≡ is_nullable x.pattern) }
    ensures size { IfOk result (λ x. x.size ≡ counted (surface_size x.pattern)) }
    ensures place { IfOk result (λ x. x.to ≡ to) }
{
    let nullable = least == 0 || body.nullable;
    let size = repeated_size(least, most, body.size);
    let pattern = repeated(alloc, body.pattern, least, most, lazy)?;
    Ok(read(pattern, nullable, size, to))
}

/// Whether a `?` stands behind a quantifier, and the place behind it.
fn laziness(lexemes: &[Lexeme], from: usize) -> (bool, usize)
    requires { from ≤ length lexemes.now }
    ensures goes { (places : Places) (d : ℕ) (p : Surface) (least : ℕ) (most : Option ℕ)
        (a s : List Surface) (k : Around) →
        run places d (behind_quantifier p least most a s k) (drop from lexemes.now) ≡
        run places d (turned a (s ++ repeat p least most result.0 ∷ []) k) (drop result.1 lexemes.now) }
    ensures on { (from ≤ result.1) × (result.1 ≤ length lexemes.now) }
{
    match next(lexemes, from) {
        Some(x) => match x.kind {
            LexKind::Question => (true, from + 1),
            _ => (false, from),
        },
        None => (false, from),
    }
}

/// Whether a quantifier comes.
fn is_quantifier(lexemes: &[Lexeme], i: usize) -> bool
    ensures { MatchBool result (i < length lexemes.now) (IsUnrepeated (drop i lexemes.now)) }
{
    match next(lexemes, i) {
        Some(x) => match x.kind {
            LexKind::Question => true,
            LexKind::Star => true,
            LexKind::Plus => true,
            LexKind::Range(_, _) => true,
            _ => false,
        },
        None => false,
    }
}

/// The text of a word, or of a quoted text, behind which no quantifier comes.
pub fn unrepeated_text(lexemes: &[Lexeme], from: usize) -> Option<&Text>
    ensures on { IfSome result (λ text. from < length lexemes.now) }
    ensures goes { IfSome result (λ text.
        (places : Places) (d : ℕ) (a s : List Surface) (k : Around) →
        run places d (atom a s k) (drop from lexemes.now) ≡
        run places d (turned a (s ++ norm (asked.Plain (compared_text field.Norm text.now)) ∷ []) k)
        (drop (from + 1) lexemes.now)) }
{
    let text = match next(lexemes, from) {
        Some(x) => match &x.kind {
            LexKind::Word(text) => text,
            LexKind::Quoted(text) => text,
            _ => return None,
        },
        None => return None,
    };
    if is_quantifier(lexemes, from + 1) {
        return None;
    }
    Some(text)
}

/// How often the atom before is repeated at least and at most, if a quantifier comes.
fn turns(
    lexemes: &[Lexeme],
    from: usize,
    nullable: bool,
) -> Result<Option<(u32, Option<u32>)>, PatternFault>
    ensures goes { (places : Places) (d : ℕ) (p : Surface) (a s : List Surface) (k : Around) →
        nullable ≡ is_nullable p →
        GoesOn result (run places d (part p a s k) (drop from lexemes.now))
        (on_from places d p a s k (drop from lexemes.now) (drop (from + 1) lexemes.now)) }
    ensures on { IfOk result (IsSomeOnly (from < length lexemes.now)) }
{
    match next(lexemes, from) {
        Some(x) => match x.kind {
            LexKind::Question => Ok(Some((0, Some(1)))),
            LexKind::Star => without_most(0, nullable, x.at),
            LexKind::Plus => without_most(1, nullable, x.at),
            LexKind::Range(least, most) => {
                if is_bad(least, most) {
                    return Err(bad(x.at, PatternKind::BadRange));
                }
                match most {
                    Some(most) => Ok(Some((least, Some(most)))),
                    None => without_most(least, nullable, x.at),
                }
            }
            _ => Ok(None),
        },
        None => Ok(None),
    }
}

/// A quantifier without a most at a place; its body must take a token.
fn without_most(
    least: u32,
    nullable: bool,
    at: u32,
) -> Result<Option<(u32, Option<u32>)>, PatternFault>
    ensures { result ≡ (if nullable then Err (PatternFault.Bad at kind.NullableRepeat) else
        Ok (Some (least, None))) }
{
    if nullable {
        return Err(bad(at, PatternKind::NullableRepeat));
    }
    Ok(Some((least, None)))
}

/// An atom behind its quantifier.
fn counted_part(
    alloc: Global,
    lexemes: &[Lexeme],
    from: usize,
    body: Found,
    least: u32,
    most: Option<u32>,
) -> Result<Found, PatternFault>
    requires { (from ≤ length lexemes.now) × (body.nullable ≡ is_nullable body.pattern) ×
        (body.size ≡ counted (surface_size body.pattern)) }
    ensures goes { (places : Places) (d : ℕ) (a s : List Surface) (k : Around) →
        GoesOn result (run places d (behind_quantifier body.pattern least most a s k) (drop from lexemes.now))
        (λ x. run places d (turned a (s ++ x.pattern ∷ []) k) (drop x.to lexemes.now)) }
    ensures nullable { IfOk result (λ x. x.nullable ≡ is_nullable x.pattern) }
    ensures size { IfOk result (λ x. x.size ≡ counted (surface_size x.pattern)) }
    ensures on { IfOk result (λ x. (from ≤ x.to) × (x.to ≤ length lexemes.now)) }
{
    let (lazy, to) = laziness(lexemes, from);
    repeat_of(alloc, body, least, most, lazy, to)
}

/// An atom with its quantifier, if it has one.
pub fn quantified(alloc: Global, lexemes: &[Lexeme], body: Found) -> Result<Found, PatternFault>
    requires { (body.to ≤ length lexemes.now) × (body.nullable ≡ is_nullable body.pattern) ×
        (body.size ≡ counted (surface_size body.pattern)) }
    ensures goes { (places : Places) (d : ℕ) (a s : List Surface) (k : Around) →
        GoesOn result (run places d (part body.pattern a s k) (drop body.to lexemes.now))
        (λ x. run places d (turned a (s ++ x.pattern ∷ []) k) (drop x.to lexemes.now)) }
    ensures nullable { IfOk result (λ x. x.nullable ≡ is_nullable x.pattern) }
    ensures size { IfOk result (λ x. x.size ≡ counted (surface_size x.pattern)) }
    ensures on { IfOk result (λ x. (body.to ≤ x.to) × (x.to ≤ length lexemes.now)) }
{
    match turns(lexemes, body.to, body.nullable)? {
        None => Ok(body),
        Some((least, most)) => {
            let from = body.to + 1;
            counted_part(alloc, lexemes, from, body, least, most)
        }
    }
}
