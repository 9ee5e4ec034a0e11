//! Event patterns as whole texts.
ghost use Rattle.std.specs.Prelude.{◌≡◌, ℕ, ◌+◌, ◌^◌, ◌<◌, ◌≤◌, suc, List as Seq, [], ◌∷◌, ◌++◌, length, Ok, IfOk};
ghost use Rattle.std.specs.Option.{option_map};
ghost use Rattle.std.specs.Str.{chars as chars_in};
ghost use Rattle.od_language.specs.declared.limits.TheConstants.{PATTERN_SIZE as GREATEST_SIZE};
ghost use Rattle.od_language.specs.declared.pattern_fault.PatternKind.{PatternKind};
ghost use Rattle.od_language.specs.declared.pattern_fault.PatternKind.TheVariants as kind;
ghost use Rattle.od_language.specs.Answers.{IfBad, Refuses};
ghost use Rattle.od_language.specs.Lexing.{size_of};
ghost use Rattle.od_language.specs.Whole.{OneOf};
ghost use Rattle.od_language.specs.WholeRuns.{sized as if_sized};
ghost use Rattle.od_pattern.specs.declared.rule.EventRule.{EventRule};
ghost use Rattle.od_surface.specs.Again.{Knows};
ghost use Rattle.od_surface.specs.Answers.{Tells, GivesValue};
ghost use Rattle.od_syntax.specs.Events.{captures, own_lines, trigger_line, argument_line, IsEventText, IsEventTextFault};
ghost use Rattle.od_syntax.specs.EventVerdicts.{trigger_by, argument_by, arguments_of, event_lines, event_of};
ghost use Rattle.od_syntax.specs.Sizes.{counted, surface_size, path_size, paths_size, event_size};
ghost use Rattle.od_written.specs.Events.{IsWritableEvent, AreEventLines, EventKeeps};
ghost use Rattle.od_event_text.specs.Answers.{IsTriggerText, IsArgumentText, pathed, ruled};
ghost use Rattle.od_event_text.specs.Heads.{shown};
ghost use Rattle.od_event_text.specs.Parts.{ends, line_of, own_of};

use crate::captures::add_captures;
use crate::head::{Head, head_of, is_trigger};
use crate::lines::{Part, cut_line, next_line};
use od_language::limits::PATTERN_SIZE;
use od_language::pattern_fault::{PatternFault, PatternKind};
use od_lex::scan::chars_of;
use od_path::path_of_text;
use od_path::size::together;
use od_pattern::rule::{Argument, EventRule};
use od_surface::again::seen_before;
use od_surface::surface_at;
use od_text::list::List;
use od_text::text::NoMemory;
use std::alloc::Global;
use std::collections::HashSet;

/// An argument with the size of its path.
#[derive(Debug, Drop)]
struct Found {
    argument: Argument,
    /// The size, counted to one more than a pattern may have.
    size: usize,
}

/// An event pattern of any size.
#[derive(Debug, Drop)]
struct Measured {
    rule: EventRule,
    /// The size, counted to one more than a pattern may have.
    size: usize,
}

fn bad(at: u32, kind: PatternKind) -> PatternFault
    ensures { result ≡ PatternFault.Bad at kind }
{
    PatternFault::Bad { at, kind }
}

/// What stands behind the head of the trigger's line, where the head is one.
fn trigger_text(alloc: Global, line: Part<'_>) -> Result<Option<Part<'_>>, NoMemory>
    requires { ends line < 2 ^ 32 }
    ensures { IfOk result (IsTriggerText line.entry) }
{
    let Some((head, behind)) = cut_line(line) else {
        return Ok(None);
    };
    let head = chars_of(alloc, head)?;
    if is_trigger(&head) {
        return Ok(Some(behind));
    }
    Ok(None)
}

/// The trigger of a line, and its size.
fn trigger(alloc: Global, line: Part<'_>) -> Result<od_surface::Measured, PatternFault>
    requires { ends line < 2 ^ 32 }
    ensures tells { Tells (λ x. x.pattern) result
        (trigger_by (line_of line.entry) (trigger_line (line_of line.entry))) }
    ensures size { IfOk result (λ x. x.size ≡ counted (surface_size x.pattern)) }
{
    match trigger_text(alloc, line)? {
        Some(behind) => surface_at(alloc, behind.text, behind.at),
        None => Err(bad(line.at, PatternKind::Expected)),
    }
}

/// The head of an argument's line and what stands behind it, where the head is one.
fn argument_text(alloc: Global, line: Part<'_>) -> Result<Option<(Head, Part<'_>)>, NoMemory>
    requires { ends line < 2 ^ 32 }
    ensures { IfOk result (IsArgumentText line.entry) }
{
    let Some((head, behind)) = cut_line(line) else {
        return Ok(None);
    };
    let chars = chars_of(alloc, head)?;
    match head_of(alloc, &chars)? {
        Some(head) => Ok(Some((head, behind))),
        None => Ok(None),
    }
}

/// The argument of a head, with its path.
fn with_path(alloc: Global, head: Head, behind: Part<'_>) -> Result<Found, PatternFault>
    requires { ends behind < 2 ^ 32 }
    ensures tells { Tells (λ x. x.argument) result
        (pathed (shown head) behind.entry.at (chars_in behind.entry.text.now)) }
    ensures name { IfOk result (λ x. x.argument.name ≡ head.name) }
    ensures size { IfOk result (λ x. x.size ≡ counted (path_size x.argument.path)) }
{
    let path = path_of_text(alloc, behind.text, behind.at)?;
    let Head { name, label, many } = head;
    Ok(Found {
        argument: Argument {
            name,
            label,
            many,
            path: path.path,
        },
        size: path.size,
    })
}

/// The argument of a line, whose name is taken from now on.
fn argument(
    alloc: Global,
    line: Part<'_>,
    names: &mut HashSet<String>,
) -> Result<Found, PatternFault>
    requires { ends line < 2 ^ 32 }
    ensures tells { (before : Seq (Seq ℕ)) → Knows names.old before →
        Tells (λ x. x.argument) result (argument_by before (line_of line.entry)
        (argument_line (line_of line.entry))) }
    ensures names { (before : Seq (Seq ℕ)) → Knows names.old before →
        IfOk result (λ x. Knows names.new (before ++ x.argument.name ∷ [])) }
    ensures size { IfOk result (λ x. x.size ≡ counted (path_size x.argument.path)) }
{
    match argument_text(alloc, line)? {
        None => Err(bad(line.at, PatternKind::Expected)),
        Some((head, behind)) => {
            if seen_before(alloc, names, &head.name)? {
                return Err(bad(line.at, PatternKind::SameCapture));
            }
            with_path(alloc, head, behind)
        }
    }
}

/// The arguments of the lines of a part, and the size with them.
fn arguments(
    alloc: Global,
    rest: Part<'_>,
    names: &mut HashSet<String>,
    size: usize,
) -> Result<(List<Argument>, usize), PatternFault>
    requires room { ends rest < 2 ^ 32 }
    requires small { size ≤ suc GREATEST_SIZE }
    ensures tells { (before : Seq (Seq ℕ)) → Knows names.old before →
        Tells (λ x. x.0) result (arguments_of before (own_of rest.entry)) }
    ensures size { (whole : ℕ) → size ≡ counted whole →
        IfOk result (λ x. x.1 ≡ counted (whole + paths_size x.0)) }
{
    let mut found = List::new(alloc);
    let mut size = size;
    let mut rest = rest;
    while let Some((line, more)) = next_line(rest) {
        let next = argument(alloc, line, names)?;
        size = together(size, next.size);
        found.push(next.argument)?;
        rest = more;
    }
    Ok((found, size))
}

/// A trigger with the arguments of the lines behind it.
fn with_arguments(
    alloc: Global,
    trigger: od_surface::Measured,
    rest: Part<'_>,
) -> Result<Measured, PatternFault>
    requires room { ends rest < 2 ^ 32 }
    requires size { trigger.size ≡ counted (surface_size trigger.pattern) }
    ensures tells { Tells (λ x. x.rule) result (ruled trigger.pattern (own_of rest.entry)) }
    ensures size { IfOk result (λ x. x.size ≡ counted (event_size x.rule)) }
{
    let mut names = HashSet::new(alloc);
    add_captures(alloc, &mut names, &trigger.pattern)?;
    match arguments(alloc, rest, &mut names, trigger.size as usize) {
        Ok((arguments, size)) => Ok(Measured {
            rule: EventRule {
                trigger: trigger.pattern,
                arguments,
            },
            size,
        }),
        Err(fault) => Err(fault),
    }
}

/// The event pattern of the lines of a text, whatever its size.
fn any_event(alloc: Global, text: &str) -> Result<Measured, PatternFault>
    requires { length text.now < 2 ^ 32 }
    ensures tells { Tells (λ x. x.rule) result
        (event_lines (size_of (chars_in text.now)) (own_lines (chars_in text.now))) }
    ensures size { IfOk result (λ x. x.size ≡ counted (event_size x.rule)) }
{
    match next_line(Part { at: 0, text }) {
        None => Err(bad(text.len() as u32, PatternKind::Expected)),
        Some((line, rest)) => {
            let trigger = trigger(alloc, line)?;
            with_arguments(alloc, trigger, rest)
        }
    }
}

/// An event pattern that is not too big.
fn not_too_big(measured: Measured) -> Result<EventRule, PatternFault>
    requires { measured.size ≡ counted (event_size measured.rule) }
    ensures { Tells (λ r. r) result (if_sized event_size (Ok measured.rule)) }
{
    if measured.size > PATTERN_SIZE {
        return Err(bad(0, PatternKind::TooBig));
    }
    Ok(measured.rule)
}

/// The answer of `parse_event`.
fn event_of(alloc: Global, text: &str) -> Result<EventRule, PatternFault>
    requires { length text.now < 2 ^ 32 }
    ensures { Tells (λ r. r) result (event_of (chars_in text.now)) }
{
    match any_event(alloc, text) {
        Ok(measured) => not_too_big(measured),
        Err(fault) => Err(fault),
    }
}

/// The event pattern that a text is, or its first fault.
///
/// A line feed ends a line, and lines of white space alone are skipped. The first line is
/// `trigger =` and a surface pattern; each other is a name, a label behind a `:` if there is one,
/// `?`, `*` or `+` if there is one, `=` and a path. White space may stand between these pieces.
///
/// A text without a line of its own is `Expected` at its length. Lines are tested in their order:
/// a head that is none is `Expected` at the line's beginning, then a name that a capture of the
/// trigger or an earlier argument has is `SameCapture` there; what stands behind the first `=` is
/// read as a text of its own, with its places counted in bytes from the beginning of the whole. At
/// last comes a size above 10,000 (`TooBig`, at 0): that of the trigger and of all paths.
pub fn parse_event(alloc: Global, text: &str) -> Result<EventRule, PatternFault>
    requires { length text.now < 2 ^ 32 }
    // A value is the event pattern that the text is.
    ensures value { IfOk result (IsEventText (chars_in text.now)) }
    // A fault is the first one.
    ensures fault { IfBad result (IsEventTextFault (chars_in text.now)) }
    // Where the text is a pattern, that is the answer, and where it has a first fault, that is,
    // unless memory is refused.
    ensures only_value { (r : EventRule) → IsEventText (chars_in text.now) r → GivesValue result r }
    ensures only_fault { (at : ℕ) (k : PatternKind) → IsEventTextFault (chars_in text.now) at k →
        Refuses result at k }
    // A rule that is written out in lines reads back as itself, where its patterns keep the rules
    // and it is not too big.
    ensures reads_back { (r : EventRule) → IsWritableEvent r →
        AreEventLines (own_lines (chars_in text.now)) r → EventKeeps r →
        event_size r ≤ GREATEST_SIZE → GivesValue result r }
    // One of the two always is, and never both.
    ensures one_answer { OneOf (IsEventText (chars_in text.now))
        (IsEventTextFault (chars_in text.now)) }
{
    event_of(alloc, text)
}
