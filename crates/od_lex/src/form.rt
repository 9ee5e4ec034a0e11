//! The form of the lexeme that stands at a place.
ghost use Rattle.std.specs.Prelude.{◌≡◌, ℕ, ◌+◌, ◌-◌, ◌*◌, ◌^◌, ◌<◌, ◌≤◌, List, [], ◌∷◌, ◌++◌, drop, take, length, Option, Some, None, Ok, Err, MatchOption, IfOk, IfSome, OnOk, IsTrue, string_bytes, Bool, true, false};
ghost use Rattle.std.specs.List.{list_all};
ghost use Rattle.od_language.specs.Forms as forms;
ghost use Rattle.od_lex.specs.Taken.{taken, TakenIn, Forms};
ghost use Rattle.od_lex.specs.declared.form.Stop.TheVariants as stop;
ghost use Rattle.od_language.specs.Identifier as identifier;
ghost use Rattle.od_language.specs.declared.limits.TheConstants.{GREATEST_NUMBER};
ghost use Rattle.od_language.specs.Spelling as spelling;

use crate::scan::{self, Run};
use od_language::lexeme::{LexKind, Miss};
use od_language::limits::{GREATEST_NUMBER, IDENTIFIER_BYTES};
use od_text::text::{NoMemory, Text};
use std::alloc::Global;

/// Why there is no lexeme.
#[derive(Clone, Copy, Debug, PartialEq, Eq)]
pub enum Stop {
    Miss(Miss),
    NoMemory,
}

impl From<NoMemory> for Stop {
    ghost from_gives = { λ _ e. e ≡ stop.NoMemory };

    fn from(_refused: NoMemory) -> Stop {
        Stop::NoMemory
    }
}

/// A symbol that is always one character.
pub fn symbol(c: char) -> Option<LexKind>
    ensures { result ≡ forms.symbol c }
{
    match c {
        '[' => Some(LexKind::SquareOpen),
        ']' => Some(LexKind::SquareClose),
        ')' => Some(LexKind::RoundClose),
        '&' => Some(LexKind::And),
        '|' => Some(LexKind::Or),
        '!' => Some(LexKind::Not),
        '=' => Some(LexKind::Equal),
        '@' => Some(LexKind::At),
        '?' => Some(LexKind::Question),
        '*' => Some(LexKind::Star),
        '+' => Some(LexKind::Plus),
        '^' => Some(LexKind::Caret),
        '$' => Some(LexKind::Dollar),
        _ => None,
    }
}

/// Whether these characters are an identifier.
pub fn is_identifier(name: &[char]) -> bool
    ensures { result ≡ identifier.is_identifier name.now }
{
    match name {
        [] => false,
        [first, rest @ ..] => {
            scan::begins_identifier(*first)
                && rest.len() < IDENTIFIER_BYTES
                && all_in_identifier(rest)
        }
    }
}

/// Whether each character may stand in an identifier.
fn all_in_identifier(name: &[char]) -> bool
    ensures { result ≡ list_all identifier.in_identifier name.now }
{
    match name {
        [] => true,
        [first, rest @ ..] => scan::in_identifier(*first) && all_in_identifier(rest),
    }
}

/// An identifier and its `>`, and the place behind.
pub fn named(
    alloc: Global,
    chars: &[char],
    from: usize,
) -> Result<Option<(LexKind, usize)>, NoMemory>
    requires { from ≤ length chars.now }
    ensures within { IfOk result (λ o. IfSome o (λ x. (from ≤ x.1) × (x.1 ≤ length chars.now))) }
    ensures value { TakenIn chars.now result (forms.named (drop from chars.now)) }
{
    let (name, end) = scan::run_at(chars, from, Run::Name);
    match scan::at(chars, end) {
        Some('>') => {
            if !is_identifier(name) {
                return Ok(None);
            }
            let name = scan::spelled(alloc, name)?;
            Ok(Some((LexKind::NameOpen(name), end + 1)))
        }
        _ => Ok(None),
    }
}

/// A `=` or a `!` at a place, as the one lexeme or the other, and the place behind.
fn sign(chars: &[char], from: usize, is: LexKind, other: LexKind) -> Option<(LexKind, usize)>
    requires { from ≤ length chars.now }
    ensures within { IfSome result (λ x. (from ≤ x.1) × (x.1 ≤ length chars.now)) }
    ensures value { taken chars.now result ≡ forms.sign is other (drop from chars.now) }
{
    match scan::at(chars, from) {
        Some('=') => Some((is, from + 1)),
        Some('!') => Some((other, from + 1)),
        _ => None,
    }
}

/// Behind `(?<`.
fn behind(alloc: Global, chars: &[char], from: usize) -> Result<Option<(LexKind, usize)>, NoMemory>
    requires { from ≤ length chars.now }
    ensures within { IfOk result (λ o. IfSome o (λ x. (from ≤ x.1) × (x.1 ≤ length chars.now))) }
    ensures value { TakenIn chars.now result (forms.behind (drop from chars.now)) }
{
    match sign(chars, from, LexKind::BehindIs, LexKind::BehindNot) {
        Some(x) => Ok(Some(x)),
        None => named(alloc, chars, from),
    }
}

/// Behind `(?`.
fn looking(alloc: Global, chars: &[char], from: usize) -> Result<Option<(LexKind, usize)>, NoMemory>
    requires { from ≤ length chars.now }
    ensures within { IfOk result (λ o. IfSome o (λ x. (from ≤ x.1) × (x.1 ≤ length chars.now))) }
    ensures value { TakenIn chars.now result (forms.looking (drop from chars.now)) }
{
    match sign(chars, from, LexKind::AheadIs, LexKind::AheadNot) {
        Some(x) => Ok(Some(x)),
        None => back(alloc, chars, from),
    }
}

/// Behind `(?`, where a `<` comes.
fn back(alloc: Global, chars: &[char], from: usize) -> Result<Option<(LexKind, usize)>, NoMemory>
    requires { from ≤ length chars.now }
    ensures within { IfOk result (λ o. IfSome o (λ x. (from ≤ x.1) × (x.1 ≤ length chars.now))) }
    ensures value { TakenIn chars.now result (forms.back (drop from chars.now)) }
{
    match scan::at(chars, from) {
        Some('<') => behind(alloc, chars, from + 1),
        _ => Ok(None),
    }
}

/// Behind a `(`.
fn round(alloc: Global, chars: &[char], from: usize) -> Result<(LexKind, usize), NoMemory>
    requires { from ≤ length chars.now }
    ensures within { IfOk result (λ x. (from ≤ x.1) × (x.1 ≤ length chars.now)) }
    ensures value { IfOk result (λ x. forms.round (drop from chars.now) ≡ (x.0, drop x.1 chars.now)) }
{
    match scan::at(chars, from) {
        Some('?') => match looking(alloc, chars, from + 1)? {
            Some(x) => Ok(x),
            None => Ok((LexKind::RoundOpen, from)),
        },
        _ => Ok((LexKind::RoundOpen, from)),
    }
}

/// The value of a digit.
fn digit(c: char) -> u32
    ensures value { result ≡ c - 48 }
    ensures most { result < 2 ^ 21 }
{
    (c as u32).saturating_sub(48)
}

#[tactic(auto, using(crate::proofs::Texts::value_grows))]
fn number_from(n: u32, digits: &[char]) -> Option<u32>
    requires { n ≤ GREATEST_NUMBER }
    ensures { MatchOption result (GREATEST_NUMBER < spelling.value_from n digits.now)
        (λ v. (v ≡ spelling.value_from n digits.now) × (v ≤ GREATEST_NUMBER)) }
{
    match digits {
        [] => Some(n),
        [d, rest @ ..] => {
            let next = n * 10 + digit(*d);
            if next > GREATEST_NUMBER {
                return None;
            }
            number_from(next, rest)
        }
    }
}

/// A number to 1,000 without a leading zero.
pub fn number(digits: &[char]) -> Option<u32>
    ensures { result ≡ spelling.number digits.now }
{
    match digits {
        [] => None,
        [d, rest @ ..] => {
            if *d == '0' && rest.len() != 0 {
                return None;
            }
            number_from(0, digits)
        }
    }
}

/// Behind a `{` and a number and a comma.
fn upper(chars: &[char], a: &[char], from: usize) -> Option<(LexKind, usize)>
    requires { from ≤ length chars.now }
    ensures within { IfSome result (λ x. (from ≤ x.1) × (x.1 ≤ length chars.now)) }
    ensures value { taken chars.now result ≡ forms.upper_from a.now (drop from chars.now) }
{
    let (b, end) = scan::run_at(chars, from, Run::Digits);
    match scan::at(chars, end) {
        Some('}') => match bounds(a, b) {
            Some((least, most)) => Some((LexKind::Range(least, most), end + 1)),
            None => None,
        },
        _ => None,
    }
}

fn bounds(a: &[char], b: &[char]) -> Option<(u32, Option<u32>)>
    ensures { result ≡ forms.bounds a.now b.now }
{
    if a.is_empty() {
        return match number(b) {
            Some(m) => Some((0, Some(m))),
            None => None,
        };
    }
    match number(a) {
        Some(n) => {
            if b.is_empty() {
                return Some((n, None));
            }
            match number(b) {
                Some(m) => Some((n, Some(m))),
                None => None,
            }
        }
        None => None,
    }
}

/// Behind a `{`.
fn range(chars: &[char], from: usize) -> Option<(LexKind, usize)>
    requires { from ≤ length chars.now }
    ensures within { IfSome result (λ x. (from ≤ x.1) × (x.1 ≤ length chars.now)) }
    ensures value { taken chars.now result ≡ forms.range (drop from chars.now) }
{
    let (a, end) = scan::run_at(chars, from, Run::Digits);
    match scan::at(chars, end) {
        Some('}') => match number(a) {
            Some(n) => Some((LexKind::Range(n, Some(n)), end + 1)),
            None => None,
        },
        Some(',') => upper(chars, a, end + 1),
        _ => None,
    }
}

/// Whether a symbol is doubled.
fn doubled(chars: &[char], from: usize, c: char, one: LexKind, two: LexKind) -> (LexKind, usize)
    requires { from ≤ length chars.now }
    ensures within { (from ≤ result.1) × (result.1 ≤ length chars.now) }
    ensures value { forms.doubled c one two (drop from chars.now) ≡ (result.0, drop result.1 chars.now) }
{
    match scan::at(chars, from) {
        Some(d) => {
            if d == c {
                return (two, from + 1);
            }
            (one, from)
        }
        None => (one, from),
    }
}

/// The first form that fits at a place where c stands, and the place behind it.
#[tactic(auto, unfolding(od_language::specs::Forms::form))]
pub fn form(alloc: Global, chars: &[char], from: usize, c: char) -> Result<(LexKind, usize), Stop>
    requires { from ≤ length chars.now }
    ensures within { IfOk result (λ x. (from ≤ x.1) × (x.1 ≤ length chars.now)) }
    ensures value { Forms chars.now result (forms.form c (drop from chars.now)) }
{
    if scan::begins_word(c) {
        return word(alloc, chars, from, c);
    }
    if c == '"' || c == '\'' {
        return match scan::quoted(alloc, chars, from, c)? {
            Some((text, to)) => Ok((LexKind::Quoted(text), to)),
            None => Err(Stop::Miss(Miss::OpenText)),
        };
    }
    if c == '/' {
        return match scan::regex(alloc, chars, from)? {
            Some((text, to)) => Ok((LexKind::Regex(text), to)),
            None => Err(Stop::Miss(Miss::OpenRegex)),
        };
    }
    if c == '(' {
        return Ok(round(alloc, chars, from)?);
    }
    if c == '{' {
        return match range(chars, from) {
            Some(x) => Ok(x),
            None => Err(Stop::Miss(Miss::BadNumber)),
        };
    }
    if c == '>' {
        return Ok(doubled(chars, from, c, LexKind::Along, LexKind::AnyAlong));
    }
    if c == '<' {
        return Ok(doubled(chars, from, c, LexKind::Against, LexKind::AnyAgainst));
    }
    match symbol(c) {
        Some(kind) => Ok((kind, from)),
        None => Err(Stop::Miss(Miss::BadChar)),
    }
}

/// A word that begins with c.
fn word(alloc: Global, chars: &[char], from: usize, c: char) -> Result<(LexKind, usize), Stop>
    requires { from ≤ length chars.now }
    ensures within { IfOk result (λ x. (from ≤ x.1) × (x.1 ≤ length chars.now)) }
    ensures value { Forms chars.now result (Ok (forms.text_of c (drop from chars.now))) }
{
    let (rest, end) = scan::run_at(chars, from, Run::Word);
    Ok((LexKind::Word(scan::word_text(alloc, c, rest)?), end))
}
