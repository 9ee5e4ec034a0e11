//! Paths as whole texts.
ghost use Rattle.std.specs.Prelude.{◌≡◌, ℕ, ◌+◌, ◌^◌, ◌<◌, ◌≤◌, [], ◌∷◌, drop, length, Ok, IfOk};
ghost use Rattle.std.specs.Str.{chars as chars_in};
ghost use Rattle.od_language.specs.Alphabet.{plain};
ghost use Rattle.od_language.specs.Machine.{GoesOn};
ghost use Rattle.od_language.specs.WholeRuns.{to_the_end};
ghost use Rattle.od_syntax.specs.Sizes.{counted as counted_size, path_size};
ghost use Rattle.od_syntax.specs.Texts.{stuck_at};
ghost use Rattle.od_syntax.specs.Verdicts.{path_at as verdict_at, path_start};
ghost use Rattle.od_path.specs.Machine.{run};
ghost use Rattle.od_path.specs.Texts.{unless_stuck};

use crate::ahead::{bad, next, unexpected};
use crate::path::path_at;
use crate::step::Found;
use od_language::lexeme::{Lexeme, Miss};
use od_language::pattern_fault::{PatternFault, PatternKind};
use od_lex::lex_at;
use od_pattern::path::Path;
use std::alloc::Global;

/// A path with its size.
#[derive(Debug, Drop)]
pub struct Measured {
    pub path: Path,
    /// Its size as it is counted: up to one above the greatest that a pattern may have.
    pub size: usize,
}

/// A path behind which the lexemes end.
#[tactic(auto, using(crate::proofs::Texts::fails_before))]
fn up_to_end(alloc: Global, lexemes: &[Lexeme]) -> Result<Measured, PatternFault>
    ensures goes { GoesOn result (to_the_end plain (run 0 path_start lexemes.now)) (λ x. Ok x.path) }
    ensures size { IfOk result (λ x. x.size ≡ counted_size (path_size x.path)) }
{
    let Found { path, size, to } = path_at(alloc, lexemes, 0, 0)?;
    match next(lexemes, to + 1) {
        Some(_) => Err(unexpected(lexemes, to)),
        None => Ok(Measured { path, size }),
    }
}

/// An answer of the parser, unless the lexer's fault comes first.
fn before_lexer(
    answer: Result<Measured, PatternFault>,
    lexer: Option<(u32, Miss)>,
) -> Result<Measured, PatternFault>
    ensures { result ≡ unless_stuck (stuck_at lexer) answer }
{
    let Some((place, _)) = lexer else {
        return answer;
    };
    match answer {
        Ok(_) => Err(bad(place, PatternKind::Lex)),
        Err(PatternFault::NoMemory) => Err(PatternFault::NoMemory),
        Err(PatternFault::Bad { at, kind }) => {
            if at < place {
                Err(bad(at, kind))
            } else {
                Err(bad(place, PatternKind::Lex))
            }
        }
    }
}

/// The path that a text is which begins at a place of a longer one, in bytes from 0, or its first fault.
///
/// Faults come in the order of the text, also where no lexeme stands (`Lex`). The path's size may be any: the size of a
/// whole pattern is for the caller to test.
pub fn path_of_text(alloc: Global, text: &str, at: u32) -> Result<Measured, PatternFault>
    requires { at + length text.now < 2 ^ 32 }
    // The answer is what the text is read as, or memory was refused.
    ensures tells { GoesOn result (verdict_at at (chars_in text.now)) (λ x. Ok x.path) }
    ensures size { IfOk result (λ x. x.size ≡ counted_size (path_size x.path)) }
{
    let read = lex_at(alloc, text, at)?;
    let lexemes: &[Lexeme] = &read.lexemes;
    before_lexer(up_to_end(alloc, lexemes), read.fault)
}
