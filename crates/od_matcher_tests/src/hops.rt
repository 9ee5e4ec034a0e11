//! Hops: where paths lead, and the pairs of words that they join.
use crate::documents::{chain_of, many};
use crate::finding::{Row, found, misfits};
use od_pattern::grammar::GrammarKind;
use od_text::text::NoMemory;
use std::alloc::Global;
use std::test::Fail;

/// From `a` an edge `nsubj` leads to `b`, from there `obj` to `c`, and from there `dep` back to `a`;
/// from `d` another `nsubj` leads to `e`.
pub const CIRCLE: &str = "1\ta\ta\tX\tX\t_\t3\tdep\t_\t_
2\tb\tb\tX\tX\t_\t1\tnsubj\t_\t_
3\tc\tc\tX\tN\t_\t2\tobj\t_\t_
4\td\td\tX\tX\t_\t0\troot\t_\t_
5\te\te\tX\tN\t_\t4\tnsubj\t_\t_
";

/// A circle is gone round, and no turn is a turn.
const CIRCLES: [Row; 8] = [
    ("a >>* []", "0-1, 1-2, 2-3"),
    ("d >>* []", "3-4, 4-5"),
    ("d >>+ []", "4-5"),
    ("a >>{2} []", "2-3"),
    ("a >>{1000} []", "1-2"),
    ("b >>{,1000} []", "0-1, 1-2, 2-3"),
    ("a >>? []", "0-1, 1-2"),
    ("(a|d) >>? []", "0-1, 1-2, 3-4, 4-5"),
];

/// Labels, both ways, and what comes behind them.
const LABELS: [Row; 10] = [
    ("a >nsubj >>* []", "0-1, 1-2, 2-3"),
    ("d >nsubj >>* []", "4-5"),
    ("b >nsubj >>* []", ""),
    ("d >nsubj >>? []", "4-5"),
    ("c << []", "1-2"),
    ("d << []", ""),
    ("e <nsubj []", "3-4"),
    ("c <nsubj []", ""),
    ("a <dep <obj []", "1-2"),
    ("[] >nsubj []", "1-2, 4-5"),
];

/// Filters and choices inside steps.
const INNER: [Row; 4] = [
    ("(a|d) (>nsubj [tag=N]) []", "4-5"),
    ("a (>nsubj [tag=N]) []", ""),
    ("b (>obj | <nsubj) []", "0-1, 2-3"),
    ("c (>obj | <nsubj) []", ""),
];

#[test]
fn paths_lead_along_edges_and_against_them(rt: HostRuntime) -> Result<(), Fail> {
    let alloc = rt.alloc();
    for rows in [CIRCLES.as_slice(), LABELS.as_slice(), INNER.as_slice()] {
        let found = misfits(alloc, CIRCLE, rows)?;
        assert_eq!(rt; found.as_str(), "");
    }
    Ok(())
}

/// What pairs each word with itself and with those behind it in a chain. A chain of n words has
/// n (n + 1) / 2 such pairs.
fn pairs_in(alloc: Global, words: u32) -> Result<String, NoMemory> {
    let words = many(alloc, "w", words.saturating_sub(1), "w")?;
    let document = chain_of(alloc, words.as_str())?;
    let query = "(?<a>[]) >>* (?<b>[])";
    found(alloc, GrammarKind::Query, query, document.as_str(), &[])
}

/// Pairs have the later span and the captures of both. Ten thousand are not too many.
#[test]
fn pairs_are_counted_before_they_are_made(rt: HostRuntime) -> Result<(), Fail> {
    let alloc = rt.alloc();
    let rows = [
        (
            3,
            "0-1 a 0-1 b 0-1, 1-2 a 0-1 b 1-2, 2-3 a 0-1 b 2-3, 1-2 a 1-2 b 1-2, \
            2-3 a 1-2 b 2-3, 2-3 a 2-3 b 2-3",
        ),
        (140, "9870 mentions"),
        (141, "crowded by 10011"),
    ];
    for (words, expected) in rows {
        let found = pairs_in(alloc, words)?;
        assert_eq!(rt; found.as_str(), expected, "in a chain of {words}");
    }
    Ok(())
}
