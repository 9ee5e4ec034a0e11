//! The lexeme that comes next.
ghost use Rattle.std.specs.Prelude.{◌≡◌, ◌+◌, ◌<◌, [], ◌∷◌, drop, length, MatchOption, MatchBool};
ghost use Rattle.od_language.specs.declared.pattern_fault.PatternKind.TheVariants as kind;
ghost use Rattle.od_language.specs.declared.lexeme.LexKind.TheVariants as lexeme;
ghost use Rattle.od_lex.specs.Machine.{place_of, IsAhead};
ghost use Rattle.od_syntax.specs.PathMachine.{NoChoiceAt};
ghost use Rattle.od_path.specs.Machine.{Next};

use od_language::lexeme::{LexKind, Lexeme};
use od_language::pattern_fault::{PatternFault, PatternKind};

/// The lexeme at a place.
pub fn next(lexemes: &[Lexeme], i: usize) -> Option<&Lexeme>
    ensures { MatchOption result (drop i lexemes.now ≡ [])
        (λ x. (drop i lexemes.now ≡ x.now ∷ drop (i + 1) lexemes.now) × (i < length lexemes.now)) }
{
    lexemes.get(i)
}

/// A fault at a place of the text.
pub fn bad(at: u32, kind: PatternKind) -> PatternFault
    ensures { result ≡ PatternFault.Bad at kind }
{
    PatternFault::Bad { at, kind }
}

/// The lexeme at a place is not expected there.
pub fn unexpected(lexemes: &[Lexeme], i: usize) -> PatternFault
    ensures { result ≡ PatternFault.Bad (place_of (drop i lexemes.now)) kind.Expected }
{
    match next(lexemes, i) {
        Some(x) => bad(x.at, PatternKind::Expected),
        None => bad(0, PatternKind::Expected),
    }
}

/// Whether a further choice comes.
pub fn is_or(lexemes: &[Lexeme], i: usize) -> bool
    ensures { MatchBool result (IsAhead lexeme.Or i lexemes.now) (Next NoChoiceAt (drop i lexemes.now)) }
{
    match next(lexemes, i) {
        Some(x) => match x.kind {
            LexKind::Or => true,
            _ => false,
        },
        None => false,
    }
}
