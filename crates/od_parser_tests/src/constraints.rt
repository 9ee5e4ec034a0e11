//! Constraints at the front of a text, with the number of their lexemes.
use crate::harness::{LongRow, Parser, Row, long_misfits, misfits};
use std::test::Fail;

const TEXTS: [Row; 14] = [
    ("[]", "2"),
    ("[tag=NN & !(word=a | lemma=/b/)] x", "16"),
    ("[Tag=NN]", "UnknownField at 1"),
    ("[é=a]", "UnknownField at 1"),
    ("[tag=a & (colour)]", "UnknownField at 10"),
    ("[tag=a b]", "Expected at 7"),
    ("[tag=NN", "Expected at 7"),
    ("[tag=NN %]", "Expected at 8"),
    ("[!]", "Expected at 2"),
    ("[(tag=a]", "Expected at 7"),
    ("[(>x)]", "Expected at 2"),
    ("[norm='é' x]", "Expected at 11"),
    ("[tag=(b)]", "Expected at 5"),
    ("[] [colour=red]", "2"),
];

/// Brackets and regular expressions at their limits, and past them.
const LONG: [LongRow; 5] = [
    ("[", "(", 99, "tag=a", "Expected at 105"),
    ("[", "(", 100, "tag=a", "TooDeep at 100"),
    ("[tag=/", "a", 200, "/]", "5"),
    ("[tag=/\\/", "a", 200, "/]", "RegexLong at 5"),
    ("[tag /", "a", 201, "/]", "Expected at 5"),
];

#[test]
fn constraints_are_read_up_to_their_first_fault(rt: HostRuntime) -> Result<(), Fail> {
    let alloc = rt.alloc();
    let found = misfits(alloc, Parser::Constraint, &TEXTS)?;
    assert_eq!(rt; found.as_str(), "");
    let found = long_misfits(alloc, Parser::Constraint, &LONG)?;
    assert_eq!(rt; found.as_str(), "");
    Ok(())
}
