//! What stands before the `=` of a line.
ghost use Rattle.std.specs.Prelude.{◌≡◌, ◌≤◌, true, false, [], ◌∷◌, drop, length, IfOk, IfSome};
ghost use Rattle.std.specs.Option.{option_map};
ghost use Rattle.od_language.specs.Fields.{is_text};
ghost use Rattle.od_language.specs.Identifier.{is_identifier as is_identifier_of};
ghost use Rattle.od_syntax.specs.Events.{pieces, many_of, head_with, head_behind, head_of, is_trigger};
ghost use Rattle.od_event_text.specs.Heads.{begins_white, IsPiece, IsLabelled, shown};

use od_lex::form::is_identifier;
use od_lex::scan::{Run, at, run_at, spelled};
use od_pattern::rule::Many;
use od_text::text::{NoMemory, Text};
use std::alloc::Global;

/// What stands before the `=` of an argument's line.
#[derive(Debug, Drop)]
pub struct Head {
    pub name: Text,
    pub label: Option<Text>,
    pub many: Many,
}

/// The place of the first character from a place on that is no white space.
fn behind_white(chars: &[char], from: usize) -> usize
    requires { from ≤ length chars.now }
    ensures within { result ≤ length chars.now }
    ensures pieces { pieces (drop from chars.now) ≡ pieces (drop result chars.now) }
    ensures black { begins_white (drop result chars.now) ≡ false }
{
    let mut i = from;
    while let Some(c) = at(chars, i) {
        if !c.is_whitespace() {
            return i;
        }
        i += 1;
    }
    i
}

/// The first piece from a place on, and the place behind it.
fn piece(chars: &[char], from: usize) -> Option<(&[char], usize)>
    requires { from ≤ length chars.now }
    ensures first { IsPiece chars.now (pieces (drop from chars.now)) result }
    ensures within { IfSome result (λ x. x.1 ≤ length chars.now) }
{
    let start = behind_white(chars, from);
    let (name, end) = run_at(chars, start, Run::Name);
    if !name.is_empty() {
        return Some((name, end));
    }
    match at(chars, start) {
        Some(_) => Some((&chars[start..start + 1], start + 1)),
        None => None,
    }
}

/// Whether characters are those of a text.
fn is_text(part: &[char], text: &[char]) -> bool
    ensures { result ≡ is_text part.now text.now }
{
    part == text
}

/// The quantifier that one piece is.
fn sign(part: &[char]) -> Option<Many>
    ensures { result ≡ many_of (part.now ∷ []) }
{
    if is_text(part, &['?']) {
        return Some(Many::Optional);
    }
    if is_text(part, &['*']) {
        return Some(Many::All);
    }
    if is_text(part, &['+']) {
        return Some(Many::AllOne);
    }
    None
}

/// The quantifier from a place on, behind name and label.
fn many_of(chars: &[char], from: usize) -> Option<Many>
    requires { from ≤ length chars.now }
    ensures { result ≡ many_of (pieces (drop from chars.now)) }
{
    let Some((part, next)) = piece(chars, from) else {
        return Some(Many::One);
    };
    match piece(chars, next) {
        Some(_) => None,
        None => sign(part),
    }
}

/// The piece behind a `:` that stands behind the name, and the place behind it.
fn labelled(chars: &[char], from: usize) -> Option<(&[char], usize)>
    requires { from ≤ length chars.now }
    ensures label { IsLabelled chars.now (pieces (drop from chars.now)) result }
    ensures within { IfSome result (λ x. x.1 ≤ length chars.now) }
{
    let (colon, next) = piece(chars, from)?;
    if !is_text(colon, &[':']) {
        return None;
    }
    piece(chars, next)
}

/// A head, where its quantifier is one.
fn head_with(
    alloc: Global,
    name: &[char],
    label: Option<Text>,
    many: Option<Many>,
) -> Result<Option<Head>, NoMemory>
    requires { is_identifier_of name.now ≡ true }
    ensures { IfOk result (λ h. option_map shown h ≡ head_with name.now label many) }
{
    match many {
        None => Ok(None),
        Some(many) => {
            let name = spelled(alloc, name)?;
            Ok(Some(Head { name, label, many }))
        }
    }
}

/// The head of a name, with what stands behind it from a place on.
fn head_behind(
    alloc: Global,
    name: &[char],
    chars: &[char],
    from: usize,
) -> Result<Option<Head>, NoMemory>
    requires name { is_identifier_of name.now ≡ true }
    requires within { from ≤ length chars.now }
    ensures { IfOk result
        (λ h. option_map shown h ≡ head_behind name.now (pieces (drop from chars.now))) }
{
    match labelled(chars, from) {
        None => head_with(alloc, name, None, many_of(chars, from)),
        Some((label, to)) => {
            if !is_identifier(label) {
                return Ok(None);
            }
            let text = spelled(alloc, label)?;
            head_with(alloc, name, Some(text), many_of(chars, to))
        }
    }
}

/// Name, label and quantifier of an argument, where these characters are its head.
pub fn head_of(alloc: Global, chars: &[char]) -> Result<Option<Head>, NoMemory>
    ensures { IfOk result (λ h. option_map shown h ≡ head_of (pieces chars.now)) }
{
    match piece(chars, 0) {
        None => Ok(None),
        Some((name, to)) => {
            if !is_identifier(name) {
                return Ok(None);
            }
            head_behind(alloc, name, chars, to)
        }
    }
}

/// Whether these characters are the head of the trigger's line.
pub fn is_trigger(chars: &[char]) -> bool
    ensures { result ≡ is_trigger (pieces chars.now) }
{
    match piece(chars, 0) {
        None => false,
        Some((word, to)) => {
            is_text(word, &['t', 'r', 'i', 'g', 'g', 'e', 'r']) && piece(chars, to).is_none()
        }
    }
}
