//! The lexemes of a surface pattern at their places.
ghost use Rattle.std.specs.Prelude.{◌≡◌, ℕ, ◌+◌, ◌<◌, List, [], ◌∷◌, ◌++◌, drop, length, MatchOption, MatchBool};
ghost use Rattle.od_language.specs.declared.lexeme.Lexeme.{Lexeme};
ghost use Rattle.od_language.specs.declared.lexeme.LexKind.TheVariants as lexeme;
ghost use Rattle.od_language.specs.declared.pattern_fault.PatternKind.TheVariants as kind;
ghost use Rattle.od_lex.specs.Machine.{NoOr, IsAhead};
ghost use Rattle.od_surface.specs.Reading.{Comes, Next, is_at, place_or};
ghost use Rattle.od_syntax.specs.SurfaceMachine.{IsAtomAt, NoAtomAt};

use od_language::lexeme::{LexKind, Lexeme};
use od_language::pattern_fault::{PatternFault, PatternKind};

/// What is known of lexemes before they are read.
#[derive(Clone, Copy, Debug, PartialEq, Eq)]
pub struct Places {
    /// The place of the first capture whose name stands before it already, if there is one.
    pub again: Option<u32>,
    /// The place of what stands behind the lexemes.
    pub behind: u32,
}

/// The lexeme at a place.
pub fn next(lexemes: &[Lexeme], i: usize) -> Option<&Lexeme>
    ensures { MatchOption result (drop i lexemes.now ≡ [])
        (λ x. (drop i lexemes.now ≡ x.now ∷ drop (i + 1) lexemes.now) × (i < length lexemes.now)) }
{
    lexemes.get(i)
}

pub fn bad(at: u32, kind: PatternKind) -> PatternFault
    ensures { result ≡ PatternFault.Bad at kind }
{
    PatternFault::Bad { at, kind }
}

/// The lexeme at a place is not expected there.
pub fn unexpected(lexemes: &[Lexeme], i: usize, behind: u32) -> PatternFault
    ensures { result ≡ PatternFault.Bad (place_or behind (drop i lexemes.now)) kind.Expected }
{
    match next(lexemes, i) {
        Some(x) => bad(x.at, PatternKind::Expected),
        None => bad(behind, PatternKind::Expected),
    }
}

/// Whether this is the place of the first capture that is named again.
pub fn is_again(again: Option<u32>, at: u32) -> bool
    ensures { result ≡ is_at again at }
{
    match again {
        Some(place) => at == place,
        None => false,
    }
}

/// Whether an atom comes.
pub fn is_atom(lexemes: &[Lexeme], i: usize) -> bool
    ensures { MatchBool result (Comes IsAtomAt (drop i lexemes.now) × (i < length lexemes.now))
        (Next NoAtomAt (drop i lexemes.now)) }
{
    match next(lexemes, i) {
        Some(x) => match x.kind {
            LexKind::SquareOpen => true,
            LexKind::Word(_) => true,
            LexKind::Quoted(_) => true,
            LexKind::Regex(_) => true,
            LexKind::At => true,
            LexKind::RoundOpen => true,
            LexKind::NameOpen(_) => true,
            LexKind::AheadIs => true,
            LexKind::AheadNot => true,
            LexKind::BehindIs => true,
            LexKind::BehindNot => true,
            LexKind::Caret => true,
            LexKind::Dollar => true,
            _ => false,
        },
        None => false,
    }
}

/// Whether a further choice comes.
pub fn is_or(lexemes: &[Lexeme], i: usize) -> bool
    ensures { MatchBool result (IsAhead lexeme.Or i lexemes.now) (NoOr (drop i lexemes.now)) }
{
    match next(lexemes, i) {
        Some(x) => match x.kind {
            LexKind::Or => true,
            _ => false,
        },
        None => false,
    }
}
