//! Hops, with the number of their surfaces.
use crate::harness::{LongRow, Parser, Row, long_misfits, misfits};
use std::test::Fail;

const TEXTS: [Row; 38] = [
    ("a >x b", "2"),
    ("a | b", "1"),
    ("a >x (b | c)", "2"),
    ("(a | b) >x c", "2"),
    ("a >x b >>+ c", "3"),
    ("[tag=/VB.*/] >nsubj (?<who>[tag=/NN.*/])", "2"),
    ("a (>x ([tag=a] | >y)) b", "2"),
    ("a >x (>y ([tag=a] >z)) b", "2"),
    ("a >x ([tag=a]) b", "2"),
    ("[(tag=a)] >x [!(tag=b)] <y c", "3"),
    ("(>x) a", "Expected at 0"),
    ("a (b (>x)) c", "Expected at 5"),
    ("a | (>x) b", "Expected at 4"),
    ("a | b >x c", "Expected at 6"),
    ("a >x b | c", "Expected at 7"),
    ("a >x b | %", "Expected at 7"),
    ("a (([tag=a] | >x) >y) b", "Expected at 14"),
    ("a [(>x)] b", "Expected at 4"),
    ("a >x [(>y)] b", "Expected at 7"),
    ("a >x*? b", "Expected at 5"),
    ("a >x", "Expected at 4"),
    ("a >x )", "Expected at 5"),
    ("a >x b )", "Expected at 7"),
    ("a >x | b", "Expected at 5"),
    ("a (>x b) c", "Expected at 6"),
    ("a >x (b", "Expected at 7"),
    ("a >x [colour=red]", "UnknownField at 6"),
    ("a >x{2,1} \"b", "BadRange at 4"),
    ("a >x b{0}", "BadRange at 6"),
    ("(a?)* >x b", "NullableRepeat at 4"),
    ("a >x (b?)+ c", "NullableRepeat at 9"),
    ("(?<x>a) >x (?<x>b)", "SameCapture at 11"),
    ("(?<x>a) >x (?<y>b) >y (?<x>c)", "SameCapture at 22"),
    ("(?<x>a) >x (?<y>b)", "2"),
    ("a >x %", "Lex at 5"),
    ("(a{1000}){4} (>x){997} b", "2"),
    ("(a{1000}){4} (>x){998} b", "TooBig at 0"),
    ("a >x b >x (c{1000}){5}", "TooBig at 0"),
];

/// Brackets of steps and of surfaces, and regular expressions, at their limits and past them.
const LONG: [LongRow; 6] = [
    ("a >x ", "(", 100, "b", "Expected at 106"),
    ("a >x ", "(", 101, "b", "TooDeep at 105"),
    ("a ", "(", 100, ">x", "Expected at 104"),
    ("a ", "(", 101, ">x", "TooDeep at 102"),
    ("a >/", "b", 200, "/ c", "2"),
    ("a >/", "b", 201, "/ c", "RegexLong at 3"),
];

#[test]
fn hops_are_read_up_to_their_first_fault(rt: HostRuntime) -> Result<(), Fail> {
    let alloc = rt.alloc();
    let found = misfits(alloc, Parser::Hop, &TEXTS)?;
    assert_eq!(rt; found.as_str(), "");
    let found = long_misfits(alloc, Parser::Hop, &LONG)?;
    assert_eq!(rt; found.as_str(), "");
    Ok(())
}

const BEHIND: [Row; 7] = [
    ("a", "1"),
    ("a | b", "4"),
    ("a >x b", "3"),
    ("a >x+ b >y c", "8"),
    ("(a{1000}){4} (>x){998} b", "10001"),
    ("a | b >x c", "Expected at 16"),
    ("a >x %", "Lex at 15"),
];

#[test]
fn hops_behind_a_head_have_places_and_sizes(rt: HostRuntime) -> Result<(), Fail> {
    let found = misfits(rt.alloc(), Parser::HopBehind, &BEHIND)?;
    assert_eq!(rt; found.as_str(), "");
    Ok(())
}
