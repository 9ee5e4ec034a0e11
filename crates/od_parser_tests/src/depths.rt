//! Texts of 16 KiB, nested as deep as they may be or as wide: on a thread's stack too they are read,
//! and what is read is copied, compared and dropped.
use crate::harness::{Parser, Told, letters, tell};
use od_language::pattern_fault::PatternFault;
use od_lex::{lex, parse_constraint};
use od_text::text::{Copied, NoMemory};
use std::alloc::Global;
use std::test::Fail;
use std::thread;

/// A piece, and how often it stands there.
type Pieces = (&'static str, u32);

/// A text: its front, pieces, its middle, pieces, and its back.
type Parts = (&'static str, Pieces, &'static str, Pieces, &'static str);

/// Texts, and what a parser tells of each.
const TEXTS: [(Parser, Parts, &str); 19] = [
    (
        Parser::Constraint,
        ("[", ("!", 16_377), "tag=a]", ("", 0), ""),
        "16382",
    ),
    (
        Parser::Constraint,
        ("[", ("tag=a&", 2_729), "tag=a]", ("", 0), ""),
        "10921",
    ),
    (
        Parser::Constraint,
        ("[", ("tag=a|!", 2_339), "tag=a]", ("", 0), ""),
        "11700",
    ),
    (
        Parser::Path,
        ("", ("(>a|", 100), ">a", (")>a", 100), ">b"),
        "704",
    ),
    (
        Parser::Path,
        (">a", (">a", 8_190), "", ("", 0), ""),
        "16382",
    ),
    (
        Parser::Path,
        (">a", ("|>a", 5_460), "", ("", 0), ""),
        "16382",
    ),
    (
        Parser::Path,
        ("[", ("!", 16_377), "tag=a]", ("", 0), ""),
        "16382",
    ),
    (Parser::Surface, ("", ("a ", 8_000), "a", ("", 0), ""), "1"),
    (Parser::Surface, ("", ("a|", 4_999), "a", ("", 0), ""), "1"),
    (
        Parser::Surface,
        ("[", ("!", 16_377), "tag=a]", ("", 0), ""),
        "1",
    ),
    (
        Parser::Surface,
        ("[", ("tag=a&", 2_729), "tag=a]", ("", 0), ""),
        "1",
    ),
    (Parser::Surface, ("", ("(", 100), "a", (")?", 100), ""), "1"),
    (
        Parser::Surface,
        ("", ("(", 100), "a", ("|b)", 100), ""),
        "1",
    ),
    (
        Parser::Hop,
        ("a", (" >x a", 3_276), "", ("", 0), ""),
        "3277",
    ),
    (
        Parser::Hop,
        ("a", (" (>x) a", 2_340), "", ("", 0), ""),
        "2341",
    ),
    (Parser::Hop, ("a", (">>", 8_190), " a", ("", 0), ""), "2"),
    (
        Parser::Hop,
        ("a >x [", ("!", 16_372), "tag=a]", ("", 0), ""),
        "2",
    ),
    (
        Parser::Hop,
        ("a >x ", ("(", 100), "b", (")?", 100), ""),
        "2",
    ),
    (
        Parser::Hop,
        ("a ", ("(", 100), ">x", (")?", 100), " b"),
        "2",
    ),
];

/// A capture inside as many brackets as may be, and an argument of its name.
const TRIGGER: Parts = (
    "trigger = ",
    ("(a|b ", 99),
    "(?<x>a)",
    (")?", 99),
    "\nyyyyyyyyyyyyyyyyyyyyyyyyyyyyyyyyyyyyyyyyyyyyyyyyyyyyyyyyyyyyyyyy = >d\nx = >d",
);

fn push(text: &mut String, pieces: Pieces) -> Result<(), NoMemory> {
    let (piece, times) = pieces;
    for _k in 0..times {
        text.push_str(piece)?;
    }
    Ok(())
}

/// The whole text.
fn whole(alloc: Global, parts: &Parts) -> Result<String, NoMemory> {
    let (front, open, middle, close, back) = *parts;
    let mut text = String::from_str(alloc, front)?;
    push(&mut text, open)?;
    text.push_str(middle)?;
    push(&mut text, close)?;
    text.push_str(back)?;
    Ok(text)
}

/// A line where something else was told of a text.
fn misfit(
    alloc: Global,
    parser: Parser,
    parts: &Parts,
    found: Told,
    expected: &str,
) -> Result<String, NoMemory> {
    let found = letters(alloc, found)?;
    if found.as_str() == expected {
        return Ok(String::new(alloc));
    }
    let (front, open, middle, _, _) = *parts;
    let (piece, times) = open;
    let line = format!(in alloc;
        "{parser:?} of {front:?}, {times} times {piece:?}, {middle:?}: {found}"
    )?;
    Ok(line)
}

#[test]
fn texts_as_deep_or_as_wide_as_may_be_need_little_stack(rt: HostRuntime) -> Result<(), Fail> {
    let alloc = rt.alloc();
    for row in &TEXTS {
        let (parser, parts, expected) = *row;
        let text = whole(alloc, &parts)?;
        let child = thread::spawn(&rt, move || tell(alloc, parser, text.as_str()))?;
        let misfit = misfit(alloc, parser, &parts, child.join(&rt), expected)?;
        assert_eq!(rt; misfit.as_str(), "");
    }
    Ok(())
}

#[test]
fn deep_triggers_need_little_stack(rt: HostRuntime) -> Result<(), Fail> {
    let alloc = rt.alloc();
    let text = whole(alloc, &TRIGGER)?;
    let child = thread::spawn(&rt, move || tell(alloc, Parser::Event, text.as_str()))?;
    let found = letters(alloc, child.join(&rt))?;
    assert_eq!(rt; found.as_str(), "SameCapture at 781", "of the deep trigger");
    Ok(())
}

/// Whether a constraint, read from a text, and its copy are the same.
fn is_copied(alloc: Global, text: &str) -> Result<bool, PatternFault> {
    if text.len() > 100_000 {
        return Ok(false);
    }
    let read = lex(alloc, text)?;
    let (constraint, _) = parse_constraint(alloc, &read.lexemes, 0)?;
    Ok(constraint.same(&constraint.copy(alloc)?))
}

/// Constraints that are thousands deep.
const CONSTRAINTS: [Parts; 4] = [
    ("[", ("!", 16_377), "tag=a]", ("", 0), ""),
    ("[", ("tag=a&", 2_729), "tag=a]", ("", 0), ""),
    ("[", ("tag=a|", 2_729), "tag=a]", ("", 0), ""),
    ("[", ("tag=a|!", 2_339), "tag=a]", ("", 0), ""),
];

#[test]
fn constraints_thousands_deep_are_copied_without_stack(rt: HostRuntime) -> Result<(), Fail> {
    let alloc = rt.alloc();
    for parts in &CONSTRAINTS {
        let text = whole(alloc, parts)?;
        let (_, (piece, times), _, _, _) = *parts;
        let child = thread::spawn(&rt, move || is_copied(alloc, text.as_str()))?;
        assert_eq!(rt; child.join(&rt), Ok(true), "{times} times {piece}");
    }
    Ok(())
}
