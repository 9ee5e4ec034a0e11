//! The lexemes of a text.
ghost use Rattle.std.specs.Prelude.{◌≡◌, ℕ, ◌+◌, ◌-◌, ◌^◌, ◌<◌, ◌≤◌, List, [], ◌∷◌, ◌++◌, drop, take, length, Option, Some, None, Ok, IfOk, OnOk, if◌then◌else◌};
ghost use Rattle.std.specs.Str.{chars as chars_in};
ghost use Rattle.od_language.specs.declared.lexeme.LexKind.TheVariants as lexeme;
ghost use Rattle.od_language.specs.Lexing.{size_of as bytes_of, Lexes, OneReading, IsLexFault};
ghost use Rattle.od_language.specs.Lexed.{lexed, lexed_from};
ghost use Rattle.od_language.specs.Answers.{IfMiss, GivesLexemes, RefusesText, lex_fault};
ghost use Rattle.od_language.specs.Formed.{Formed};
ghost use Rattle.od_language.specs.declared.lexeme.Lexeme.{Lexeme};
ghost use Rattle.od_language.specs.declared.lexeme.Miss.{Miss};

use crate::form::{Stop, form};
use crate::scan;
use od_language::lexeme::{LexFault, LexKind, Lexeme, Miss};
use od_text::text::NoMemory;
use std::alloc::Global;

/// How many bytes these characters have.
#[tactic(auto, using(crate::proofs::Sizes::bytes_more, crate::proofs::Sizes::bytes_most))]
fn size_of(part: &[char]) -> usize
    requires { bytes_of part.now < 2 ^ 32 }
    ensures { result ≡ bytes_of part.now }
{
    let mut size = 0;
    for c in part {
        size += c.len_utf8();
    }
    size
}

/// One more lexeme, at a place.
fn add(out: &mut Vec<Lexeme>, at: usize, kind: LexKind) -> Result<(), NoMemory>
    requires { at < 2 ^ 32 }
    ensures { OnOk result (out.new.items ≡ out.old.items ++ (record { at = at; kind = kind }) ∷ []) }
{
    let at = at as u32;
    out.push(Lexeme { at, kind })?;
    Ok(())
}

/// The lexemes of these characters, which begin at a place.
#[tactic(auto, using(crate::proofs::Sizes::white_on, crate::proofs::Sizes::stuck_on, crate::proofs::Sizes::end_on, crate::proofs::Sizes::form_on, crate::proofs::Sizes::sized, std::proofs::Common::append_assoc))]
fn lex_chars(
    alloc: Global,
    chars: &[char],
    first: u32,
) -> Result<(Vec<Lexeme>, Option<(u32, Miss)>), NoMemory>
    requires { first + bytes_of chars.now < 2 ^ 32 }
    ensures { IfOk result (λ x. Formed first chars.now x.0.items x.1) }
{
    let mut out = Vec::new(alloc);
    let mut i = 0;
    let mut at = first as usize;
    while let Some(c) = scan::at(chars, i) {
        if c.is_whitespace() {
            i += 1;
            at += c.len_utf8();
            continue;
        }
        match form(alloc, chars, i + 1, c) {
            Ok((kind, to)) => {
                let size = size_of(&chars[i + 1..to]);
                add(&mut out, at, kind)?;
                at += c.len_utf8() + size;
                i = to;
            }
            Err(Stop::Miss(miss)) => {
                add(&mut out, at, LexKind::End)?;
                return Ok((out, Some((at as u32, miss))));
            }
            Err(Stop::NoMemory) => return Err(NoMemory),
        }
    }
    add(&mut out, at, LexKind::End)?;
    Ok((out, None))
}

/// The lexemes of a text up to its first fault.
#[derive(Debug, Drop)]
pub struct Lexed {
    /// The lexemes. The last is `End`, at the place of the fault, else at the text's length.
    pub lexemes: Vec<Lexeme>,
    /// The fault, if there is one: its place in bytes from 0, and what is wrong there.
    pub fault: Option<(u32, Miss)>,
}

/// The lexemes of a text up to its first fault, and the fault.
///
/// At each place the longest front that spells a lexeme is one. White space separates lexemes and means nothing else.
pub fn lex(alloc: Global, text: &str) -> Result<Lexed, NoMemory>
    requires { length text.now < 2 ^ 32 }
    ensures value { IfOk result (λ read. Lexes 0 (chars_in text.now) read.lexemes.items read.fault) }
    // They are those that are computed.
    ensures computed { IfOk result
        (λ read. lexed (chars_in text.now) ≡ (read.lexemes.items, read.fault)) }
    // There is exactly one such reading.
    ensures one_reading { OneReading (chars_in text.now) }
{
    lex_at(alloc, text, 0)
}

/// The same of a text that begins at a place of a longer one, which the places of its lexemes and of its fault count from.
#[tactic(auto, using(crate::proofs::Sizes::bytes_of, crate::proofs::OnlyReading::longest_at, crate::proofs::OnlyReading::computed_at))]
pub fn lex_at(alloc: Global, text: &str, at: u32) -> Result<Lexed, NoMemory>
    requires { at + length text.now < 2 ^ 32 }
    ensures value { IfOk result (λ read. Lexes at (chars_in text.now) read.lexemes.items read.fault) }
    ensures computed { IfOk result
        (λ read. lexed_from at (chars_in text.now) ≡ (read.lexemes.items, read.fault)) }
{
    let chars = scan::chars_of(alloc, text)?;
    let (lexemes, fault) = lex_chars(alloc, &chars, at)?;
    Ok(Lexed { lexemes, fault })
}

/// The lexemes of a text, ended by `End` at its length; else its first fault, with the place in bytes from 0.
#[tactic(auto, using(crate::proofs::OnlyReading::only_lexemes, crate::proofs::OnlyReading::only_fault))]
pub fn tokens(alloc: Global, text: &str) -> Result<Vec<Lexeme>, LexFault>
    requires { length text.now < 2 ^ 32 }
    ensures value { IfOk result (λ v. Lexes 0 (chars_in text.now) v.items None) }
    ensures fault { IfMiss result (IsLexFault (chars_in text.now)) }
    // Where the text can be split, the lexemes are the answer; where it has a fault, that is, unless memory is refused.
    ensures only_value { (xs : List Lexeme) → Lexes 0 (chars_in text.now) xs None →
        GivesLexemes result xs }
    ensures only_fault { (xs : List Lexeme) (at : ℕ) (m : Miss) →
        Lexes 0 (chars_in text.now) xs (Some (at, m)) → RefusesText result at m }
    // One of the two always holds, and never both.
    ensures one_reading { OneReading (chars_in text.now) }
{
    let read = lex(alloc, text)?;
    match read.fault {
        None => Ok(read.lexemes),
        Some((at, miss)) => Err(fault_of(at, miss)),
    }
}

/// The fault at a place.
fn fault_of(at: u32, miss: Miss) -> LexFault
    ensures { result ≡ lex_fault at miss }
{
    match miss {
        Miss::BadChar => LexFault::BadChar { at },
        Miss::OpenText => LexFault::OpenText { at },
        Miss::OpenRegex => LexFault::OpenRegex { at },
        Miss::BadNumber => LexFault::BadNumber { at },
    }
}
