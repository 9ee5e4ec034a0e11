//! Surface patterns.
use crate::harness::{LongRow, Parser, Row, long_misfits, misfits};
use std::test::Fail;

const TEXTS: [Row; 23] = [
    (") %", "Expected at 0"),
    ("a{2,1} \"b", "BadRange at 1"),
    ("@é", "Expected at 1"),
    ("a (>x) b", "Expected at 3"),
    ("a{0}", "BadRange at 1"),
    ("a{0,0}", "BadRange at 1"),
    ("a{,0}", "BadRange at 1"),
    ("(a?){2,}?", "NullableRepeat at 4"),
    ("(a?){2,9}?", "1"),
    ("(^ | a)+", "NullableRepeat at 7"),
    ("(a a?)+", "1"),
    ("(?<x>a) | (?<x>b)", "SameCapture at 10"),
    ("(?<x>a) | (?<y>b)", "1"),
    ("(((a{1000}){1000}", "Expected at 17"),
    ("(a{1000}){4}", "1"),
    ("(a{1000}){5}", "TooBig at 0"),
    ("(a{1000}){1000} %", "Lex at 16"),
    ("\u{85}\u{a0}", "Expected at 4"),
    ("\u{200b}\u{feff}", "1"),
    ("(?<=[tag=NN]) a (?![]) $", "1"),
    ("(?= a)", "Expected at 4"),
    ("^ @Animal", "1"),
    ("(?<x>a (?<x>b))", "SameCapture at 7"),
];

/// Labels, names, regular expressions and brackets at their limits, and past them.
const LONG: [LongRow; 8] = [
    ("@", "n", 64, "", "1"),
    ("@", "n", 65, "", "Expected at 1"),
    ("(?<", "n", 65, ">a)", "Expected at 1"),
    ("/\\/", "a", 199, "/", "1"),
    ("a /\\/", "a", 200, "/", "RegexLong at 2"),
    ("[tag /", "a", 201, "/]", "Expected at 5"),
    ("", "(", 100, "", "Expected at 100"),
    ("", "(", 101, "", "TooDeep at 100"),
];

#[test]
fn surface_patterns_are_read_up_to_their_first_fault(rt: HostRuntime) -> Result<(), Fail> {
    let alloc = rt.alloc();
    let found = misfits(alloc, Parser::Surface, &TEXTS)?;
    assert_eq!(rt; found.as_str(), "");
    let found = long_misfits(alloc, Parser::Surface, &LONG)?;
    assert_eq!(rt; found.as_str(), "");
    Ok(())
}
