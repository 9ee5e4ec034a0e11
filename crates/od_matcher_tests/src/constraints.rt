//! Constraints and labels on two sentences, the first `Old Dogs chase cats near Straße .`
use crate::finding::{Row, found, misfits};
use od_pattern::grammar::GrammarKind;
use od_text::text::NoMemory;
use std::alloc::Global;
use std::test::Fail;
use std::thread;

/// `Straße` has no lemma, and no word a chunk.
pub const DOGS: &str = "1\tOld\told\tADJ\tJJ\t_\t2\tamod\t_\t_
2\tDogs\tdog\tNOUN\tNNS\t_\t3\tnsubj\t_\tEntity=B-ANIMAL
3\tchase\tchase\tVERB\tVBP\t_\t0\troot\t_\t_
4\tcats\tcat\tNOUN\tNNS\t_\t3\tobj\t_\t_
5\tnear\tnear\tADP\tIN\t_\t6\tcase\t_\t_
6\tStraße\t_\tPROPN\tNNP\t_\t3\tobl\t_\t_
7\t.\t.\tPUNCT\t.\t_\t3\tpunct\t_\t_

1\tdogs\tdog\tNOUN\tNNS\t_\t2\tnsubj\t_\t_
2\tsleep\tsleep\tVERB\tVBP\t_\t0\troot\t_\t_
";

const PLAIN: [Row; 13] = [
    ("[word=cats]", "3-4 | "),
    ("[word=dogs]", " | 0-1"),
    ("[norm=dogs]", "1-2 | 0-1"),
    ("[norm=strasse]", "5-6 | "),
    ("[lemma=dog]", "1-2 | 0-1"),
    ("[upos=NOUN]", "1-2, 3-4 | 0-1"),
    ("[tag=NNS]", "1-2, 3-4 | 0-1"),
    ("[entity=B-ANIMAL]", "1-2 | "),
    ("[chunk=B-ANIMAL]", " | "),
    ("[incoming=nsubj]", "1-2 | 0-1"),
    ("[outgoing=nsubj]", "2-3 | 1-2"),
    ("[outgoing=obl]", "2-3 | "),
    ("[incoming=root]", " | "),
];

#[test]
fn plain_texts_are_equal(rt: HostRuntime) -> Result<(), Fail> {
    let found = misfits(rt.alloc(), DOGS, &PLAIN)?;
    assert_eq!(rt; found.as_str(), "");
    Ok(())
}

const EXPRESSIONS: [Row; 9] = [
    ("[word=/og/]", " | "),
    ("[word=/(?i)DOGS|strasse/]", "1-2 | 0-1"),
    ("[norm=/dogs|strasse/]", "1-2, 5-6 | 0-1"),
    ("[lemma=/.*/]", "0-1, 1-2, 2-3, 3-4, 4-5, 6-7 | 0-1, 1-2"),
    ("[tag=/N.*/]", "1-2, 3-4, 5-6 | 0-1"),
    ("[chunk=/.*/]", " | "),
    ("[incoming=/.*/]", "0-1, 1-2, 3-4, 4-5, 5-6, 6-7 | 0-1"),
    ("[outgoing=/amod|case/]", "1-2, 5-6 | "),
    ("[outgoing=/obj|nsubj/]", "2-3 | 1-2"),
];

#[test]
fn expressions_hold_of_whole_texts(rt: HostRuntime) -> Result<(), Fail> {
    let found = misfits(rt.alloc(), DOGS, &EXPRESSIONS)?;
    assert_eq!(rt; found.as_str(), "");
    Ok(())
}

const NEGATED: [Row; 3] = [
    ("[tag=/N.*/ & !lemma=dog]", "3-4, 5-6 | "),
    ("[incoming=/o.*/ | !lemma=/.*/]", "3-4, 5-6 | "),
    ("[!chunk=/.*/ & upos=VERB]", "2-3 | 1-2"),
];

#[test]
fn an_absent_field_fails_its_test_and_passes_the_negation(rt: HostRuntime) -> Result<(), Fail> {
    let found = misfits(rt.alloc(), DOGS, &NEGATED)?;
    assert_eq!(rt; found.as_str(), "");
    Ok(())
}

const LABELS: [Row; 4] = [
    ("[] >nsubj []", "1-2 | 0-1"),
    ("[] >root []", " | "),
    ("[] >/[ao].*/ []", "0-1, 3-4, 5-6 | "),
    ("[] >/bj/ []", " | "),
];

#[test]
fn labels_are_told_at_the_edges(rt: HostRuntime) -> Result<(), Fail> {
    let found = misfits(rt.alloc(), DOGS, &LABELS)?;
    assert_eq!(rt; found.as_str(), "");
    Ok(())
}

/// The front of a constraint, a piece that stands behind it many times, the back, and what it finds.
type DeepRow = (&'static str, &'static str, u32, &'static str, &'static str);

/// Constraints of 16 KiB.
const DEEP: [DeepRow; 4] = [
    (
        "[",
        "!",
        16_373,
        "lemma=dog]",
        "0-1, 2-3, 3-4, 4-5, 5-6, 6-7 | 1-2",
    ),
    ("[", "!", 16_372, "lemma=dog]", "1-2 | 0-1"),
    ("[lemma=dog", "&tag=NNS", 2_046, "]", "1-2 | 0-1"),
    ("[lemma=dog", "|tag=NNS", 2_046, "]", "1-2, 3-4 | 0-1"),
];

/// The whole constraint.
fn deep(alloc: Global, row: &DeepRow) -> Result<String, NoMemory> {
    let (front, piece, times, back, _) = *row;
    let mut text = String::from_str(alloc, front)?;
    for _k in 0..times {
        text.push_str(piece)?;
    }
    text.push_str(back)?;
    Ok(text)
}

/// Whether a query finds what is expected.
fn finds(alloc: Global, query: &str, expected: &str) -> Result<bool, NoMemory> {
    let found = found(alloc, GrammarKind::Query, query, DOGS, &[])?;
    Ok(found.as_str() == expected)
}

#[test]
fn constraints_thousands_deep_are_told_on_a_thread(rt: HostRuntime) -> Result<(), Fail> {
    let alloc = rt.alloc();
    for row in &DEEP {
        let text = deep(alloc, row)?;
        let (front, piece, times, _, expected) = *row;
        let child = thread::spawn(&rt, move || finds(alloc, text.as_str(), expected))?;
        assert_eq!(rt; child.join(&rt), Ok(true), "{front}, {times} times {piece}");
    }
    Ok(())
}
