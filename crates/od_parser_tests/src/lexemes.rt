//! Texts split into their lexemes, the end among them.
ghost use Rattle.std.specs.Prelude.{◌<◌, ◌^◌, length};

use crate::harness::{LongRow, Parser, Row, long_misfits, misfits};
use od_language::lexeme::LexKind;
use od_lex::tokens;
use od_text::text::NoMemory;
use std::alloc::Global;
use std::test::Fail;

const TEXTS: [Row; 16] = [
    ("%", "BadChar { at: 0 }"),
    ("\"ab", "OpenText { at: 0 }"),
    ("é 'ab\\'", "OpenText { at: 3 }"),
    ("/ab", "OpenRegex { at: 0 }"),
    ("/ab\\/", "OpenRegex { at: 0 }"),
    ("a{1 }", "BadNumber { at: 1 }"),
    ("a\u{1f}b", "BadChar { at: 1 }"),
    ("a\u{85}b\u{a0}c\n\td", "5"),
    ("a\u{200b}b\u{feff}c", "2"),
    (">>><<", "4"),
    ("(?=(?!(?<=(?<!", "5"),
    ("(?<x>(?<1>", "7"),
    ("{0}{2,1}{3,}{,1000}", "5"),
    ("é-b:c-1 'a\\'b' \"'\" /a\\/b/", "5"),
    ("&|!=@?*+^$", "11"),
    ("[](){1}", "6"),
];

/// A capture's name has 64 bytes at most; a longer one opens none.
const LONG: [LongRow; 2] = [("(?<", "n", 64, ">", "2"), ("(?<", "n", 65, ">", "6")];

#[test]
fn texts_are_split_at_the_longest_lexeme(rt: HostRuntime) -> Result<(), Fail> {
    let alloc = rt.alloc();
    let found = misfits(alloc, Parser::Lexemes, &TEXTS)?;
    assert_eq!(rt; found.as_str(), "");
    let found = long_misfits(alloc, Parser::Lexemes, &LONG)?;
    assert_eq!(rt; found.as_str(), "");
    Ok(())
}

/// The text that the first lexeme carries; `-` where it carries none.
fn carried(alloc: Global, text: &str) -> Result<String, NoMemory>
    requires { length text.now < 2 ^ 20 }
{
    let Ok(lexemes) = tokens(alloc, text) else {
        return Ok(String::from_str(alloc, "-")?);
    };
    match lexemes.first() {
        Some(lexeme) => match &lexeme.kind {
            LexKind::Word(text)
            | LexKind::Quoted(text)
            | LexKind::Regex(text)
            | LexKind::NameOpen(text) => Ok(String::from_str(alloc, text.get())?),
            _ => Ok(String::from_str(alloc, "-")?),
        },
        None => Ok(String::from_str(alloc, "-")?),
    }
}

/// Texts, and what their first lexeme carries.
const ESCAPES: [Row; 6] = [
    ("'a\\'b'", "a'b"),
    ("\"a\\\\b'\"", "a\\b'"),
    ("/a\\/b\\d/", "a/b\\d"),
    ("é-b:c=", "é-b:c"),
    ("(?<x_1>a)", "x_1"),
    ("[a]", "-"),
];

#[test]
fn escapes_are_replaced_and_marks_taken_off(rt: HostRuntime) -> Result<(), Fail> {
    let alloc = rt.alloc();
    for (text, expected) in &ESCAPES {
        assert!(rt; text.len() < 1000, "{text} is short");
        let found = carried(alloc, text)?;
        assert_eq!(rt; found.as_str(), *expected, "in {text}");
    }
    Ok(())
}
