//! Texts of which several parsers are asked.
use crate::harness::{Parser, letters, tell};
use od_text::text::NoMemory;
use std::alloc::Global;
use std::test::Fail;

/// A text, and what is told of it as lexemes, as a constraint or a path at its front, as a surface
/// pattern and as a hop.
type SharedRow = (
    &'static str,
    &'static str,
    &'static str,
    &'static str,
    &'static str,
    &'static str,
);

const TEXTS: [SharedRow; 17] = [
    (
        "",
        "1",
        "Expected at 0",
        "Expected at 0",
        "Expected at 0",
        "Expected at 0",
    ),
    (
        "  ",
        "1",
        "Expected at 2",
        "Expected at 2",
        "Expected at 2",
        "Expected at 2",
    ),
    (
        "[colour=red]",
        "6",
        "UnknownField at 1",
        "UnknownField at 1",
        "UnknownField at 1",
        "UnknownField at 1",
    ),
    (
        "[colour=red] %",
        "BadChar { at: 13 }",
        "UnknownField at 1",
        "UnknownField at 1",
        "UnknownField at 1",
        "UnknownField at 1",
    ),
    (
        "[colour red]",
        "5",
        "UnknownField at 1",
        "UnknownField at 1",
        "UnknownField at 1",
        "UnknownField at 1",
    ),
    (
        "[colour]",
        "4",
        "UnknownField at 1",
        "UnknownField at 1",
        "UnknownField at 1",
        "UnknownField at 1",
    ),
    (
        "[x",
        "3",
        "UnknownField at 1",
        "UnknownField at 1",
        "UnknownField at 1",
        "UnknownField at 1",
    ),
    (
        "[tag NN]",
        "5",
        "Expected at 5",
        "Expected at 5",
        "Expected at 5",
        "Expected at 5",
    ),
    (
        "[!(>x)]",
        "8",
        "Expected at 3",
        "Expected at 3",
        "Expected at 3",
        "Expected at 3",
    ),
    (
        "@a-b",
        "3",
        "Expected at 0",
        "Expected at 0",
        "Expected at 1",
        "Expected at 1",
    ),
    (
        "(?<x>a)(?<x>b)",
        "7",
        "Expected at 0",
        "Expected at 0",
        "SameCapture at 7",
        "SameCapture at 7",
    ),
    (
        "a %",
        "BadChar { at: 2 }",
        "Expected at 0",
        "Expected at 0",
        "Lex at 2",
        "Lex at 2",
    ),
    (
        "a\u{1c}b",
        "BadChar { at: 1 }",
        "Expected at 0",
        "Expected at 0",
        "Lex at 1",
        "Lex at 1",
    ),
    (
        "a{x}",
        "BadNumber { at: 1 }",
        "Expected at 0",
        "Expected at 0",
        "Lex at 1",
        "Lex at 1",
    ),
    (
        "a{01}",
        "BadNumber { at: 1 }",
        "Expected at 0",
        "Expected at 0",
        "Lex at 1",
        "Lex at 1",
    ),
    (
        "a{1001}",
        "BadNumber { at: 1 }",
        "Expected at 0",
        "Expected at 0",
        "Lex at 1",
        "Lex at 1",
    ),
    (
        "a{,}",
        "BadNumber { at: 1 }",
        "Expected at 0",
        "Expected at 0",
        "Lex at 1",
        "Lex at 1",
    ),
];

/// One line more where a parser tells something else.
fn note(
    alloc: Global,
    parser: Parser,
    text: &str,
    expected: &str,
    misfits: &mut String,
) -> Result<(), NoMemory> {
    let found = letters(alloc, tell(alloc, parser, text))?;
    if found.as_str() != expected {
        let line = format!(in alloc; "{parser:?} of {text:?}: {found}\n")?;
        misfits.push_str(line.as_str())?;
    }
    Ok(())
}

#[test]
fn each_parser_tells_its_own_fault(rt: HostRuntime) -> Result<(), Fail> {
    let alloc = rt.alloc();
    let mut misfits = String::new(alloc);
    for (text, lexemes, constraint, path, surface, hop) in &TEXTS {
        note(alloc, Parser::Lexemes, text, lexemes, &mut misfits)?;
        note(alloc, Parser::Constraint, text, constraint, &mut misfits)?;
        note(alloc, Parser::Path, text, path, &mut misfits)?;
        note(alloc, Parser::Surface, text, surface, &mut misfits)?;
        note(alloc, Parser::Hop, text, hop, &mut misfits)?;
    }
    assert_eq!(rt; misfits.as_str(), "");
    Ok(())
}
