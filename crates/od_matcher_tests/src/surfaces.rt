//! Surface patterns on short sentences, with the matches that were worked out by hand.
use crate::documents::{LabelRow, chain_of, labelled, many};
use crate::finding::found;
use od_document::limits::SENTENCE_TOKENS;
use od_pattern::grammar::GrammarKind;
use od_text::text::NoMemory;
use std::alloc::Global;
use std::test::Fail;

/// A sentence, a pattern, and its matches with their captures.
type Row = (&'static str, &'static str, &'static str);

/// The rows whose pattern finds something else, with that.
fn misfits(alloc: Global, rows: &[Row], labels: &[LabelRow]) -> Result<String, NoMemory> {
    let local = labelled(alloc, labels)?;
    let mut misfits = String::new(alloc);
    for (words, pattern, expected) in rows {
        let document = chain_of(alloc, words)?;
        let document = document.as_str();
        let found = found(alloc, GrammarKind::Query, pattern, document, local.get())?;
        if found.as_str() != *expected {
            let line = format!(in alloc; "{pattern} in {words}: {found}\n")?;
            misfits.push_str(line.as_str())?;
        }
    }
    Ok(misfits)
}

/// What is lazy takes as little as may be, and nothing is no match.
const LAZY: [Row; 4] = [
    ("a a b", "a??", ""),
    ("a a b", "a*?", ""),
    ("a a b", "a?? | b", ""),
    ("a a b", "b | a??", "2-3"),
];

/// Further turns take a token, and those that must be need not.
const TURNS: [Row; 4] = [
    ("a a b", "(a?){0,3}", "0-2"),
    ("a a b", "(a??){0,3}", "0-2"),
    ("b a b", "(a?){2} b", "0-1, 1-3"),
    ("a a a a a", "a{2}", "0-2, 2-4"),
];

/// A capture takes as many tokens as its repeat prefers.
const CAPTURES: [Row; 3] = [
    ("a a a", "a*? (?<x>a+)", "0-3 x 0-3"),
    ("a a a", "a*? (?<x>a+?)", "0-1 x 0-1, 1-2 x 1-2, 2-3 x 2-3"),
    ("a b", "(?<x>a (?<y>b?))", "0-2 x 0-2 y 1-2"),
];

/// Tests of a place take no token.
const PLACES: [Row; 4] = [
    ("a b a", "^ a", "0-1"),
    ("a b a", "a $", "2-3"),
    ("a b a", "a (?=[word=b])", "0-1"),
    ("a b a", "(?<![word=b]) a", "0-1"),
];

#[test]
fn the_best_way_is_taken(rt: HostRuntime) -> Result<(), Fail> {
    let alloc = rt.alloc();
    for rows in [
        LAZY.as_slice(),
        TURNS.as_slice(),
        CAPTURES.as_slice(),
        PLACES.as_slice(),
    ] {
        let found = misfits(alloc, rows, &[])?;
        assert_eq!(rt; found.as_str(), "");
    }
    Ok(())
}

#[test]
fn the_longest_span_with_the_label_is_taken(rt: HostRuntime) -> Result<(), Fail> {
    let labels = [("M", 1, 3), ("Query", 0, 1), ("Query", 0, 2)];
    let rows = [
        ("a a a", "@Query | a", "0-2, 2-3"),
        ("a a a", "@Query @Query", ""),
    ];
    let found = misfits(rt.alloc(), &rows, &labels)?;
    assert_eq!(rt; found.as_str(), "");
    Ok(())
}

/// What a pattern finds in the sentence of so many a, and then another word.
fn found_in_many(alloc: Global, pattern: &str, times: u32, last: &str) -> Result<String, NoMemory> {
    let words = many(alloc, "a", times, last)?;
    let document = chain_of(alloc, words.as_str())?;
    found(alloc, GrammarKind::Query, pattern, document.as_str(), &[])
}

/// Patterns that would not end if each way were tried.
#[test]
fn a_long_sentence_is_scanned_to_its_end(rt: HostRuntime) -> Result<(), Fail> {
    let alloc = rt.alloc();
    let rows = [
        ("a*? b", "a", ""),
        ("(a|a)* b", "a", ""),
        ("a*? b", "b", "0-2000"),
        ("(a|a)* b", "b", "0-2000"),
    ];
    for (pattern, last, expected) in rows {
        let found = found_in_many(alloc, pattern, SENTENCE_TOKENS - 1, last)?;
        assert_eq!(rt; found.as_str(), expected, "of {pattern} before {last}");
    }
    Ok(())
}
