//! Paths, and the steps of hops.
use crate::harness::{LongRow, Parser, Row, long_misfits, misfits};
use std::test::Fail;

const PATHS: [Row; 17] = [
    (">nsubj", "2"),
    (">nsubj >> [tag=NN] <'obj'{2,3} b", "11"),
    (">a | <b (>> | <<)+ )", "11"),
    ("([tag=a] | (>x))* (", "Expected at 19"),
    ("([tag=a] | (>x))* )", "13"),
    (">x*? b", "3"),
    ("(>x*)+ {2,1}", "6"),
    ("a", "Expected at 0"),
    (">a |", "Expected at 4"),
    (">", "Expected at 1"),
    (">(a)", "Expected at 1"),
    ("(>a", "Expected at 3"),
    ("(?<n>>a)", "Expected at 0"),
    (">a{2,1} )", "BadRange at 2"),
    (">a{0}", "BadRange at 2"),
    (">a [colour=red]", "UnknownField at 4"),
    (">a [tag=(b)]", "Expected at 8"),
];

const LONG_PATHS: [LongRow; 5] = [
    ("", "(", 100, ">a", "Expected at 102"),
    ("", "(", 101, ">a", "TooDeep at 100"),
    ("", "(", 100, "[]", "TooDeep at 100"),
    (">/", "a", 200, "/", "2"),
    (">/\\/", "a", 200, "/", "RegexLong at 1"),
];

#[test]
fn paths_are_read_up_to_their_first_fault(rt: HostRuntime) -> Result<(), Fail> {
    let alloc = rt.alloc();
    let found = misfits(alloc, Parser::Path, &PATHS)?;
    assert_eq!(rt; found.as_str(), "");
    let found = long_misfits(alloc, Parser::Path, &LONG_PATHS)?;
    assert_eq!(rt; found.as_str(), "");
    Ok(())
}

const STEPS: [Row; 13] = [
    (">x b", "2"),
    (">x (>y | [tag=a])+ b", "13"),
    (">x ([tag=a]) b", "2"),
    ("(>x ([tag=a] | >y)) b", "14"),
    (">x [(>y)] b", "2"),
    (">x | >y", "2"),
    (">x*? b", "3"),
    ("(([tag=a] | >x) >y) b", "Expected at 0"),
    ("[tag=a] >x", "Expected at 0"),
    (">x (>y [(>z)]) b", "Expected at 9"),
    ("(>x", "Expected at 3"),
    (">x{0} b", "BadRange at 2"),
    ("", "Expected at 0"),
];

const LONG_STEPS: [LongRow; 2] = [
    ("", "(", 100, ">a", "Expected at 102"),
    ("", "(", 101, ">a", "TooDeep at 100"),
];

#[test]
fn steps_end_where_a_surface_begins(rt: HostRuntime) -> Result<(), Fail> {
    let alloc = rt.alloc();
    let found = misfits(alloc, Parser::Steps, &STEPS)?;
    assert_eq!(rt; found.as_str(), "");
    let found = long_misfits(alloc, Parser::Steps, &LONG_STEPS)?;
    assert_eq!(rt; found.as_str(), "");
    Ok(())
}

const WHOLE: [Row; 12] = [
    (">x >y", "2"),
    (">x | >y", "4"),
    (">x+", "4"),
    (">x*", "2"),
    ("(>x | >y)?", "5"),
    ("(>x{1000}){4}", "8004"),
    ("(>x{1000}){1000}", "10001"),
    ("", "Expected at 10"),
    (">x b", "Expected at 13"),
    (">x %", "Lex at 13"),
    (">x{2,1} \"b", "BadRange at 12"),
    ("[colour=red] %", "UnknownField at 11"),
];

#[test]
fn paths_behind_a_head_have_places_and_sizes(rt: HostRuntime) -> Result<(), Fail> {
    let found = misfits(rt.alloc(), Parser::PathBehind, &WHOLE)?;
    assert_eq!(rt; found.as_str(), "");
    Ok(())
}
