//! Events in a sentence of four words. From the first, the trigger, edges lead to the second and to
//! the third.
use crate::documents::{LabelRow, labelled};
use crate::finding::found;
use od_pattern::grammar::GrammarKind;
use od_text::text::NoMemory;
use std::alloc::Global;
use std::test::Fail;

const FOUR: &str = "1\ta\ta\tX\tX\t_\t0\troot\t_\t_
2\tb\tb\tX\tX\t_\t1\tnsubj\t_\t_
3\tc\tc\tX\tX\t_\t1\tobj\t_\t_
4\td\td\tX\tX\t_\t0\troot\t_\t_
";

/// Spans with the labels N and M, of which one stands there twice.
const LABELS: [LabelRow; 5] = [
    ("N", 2, 3),
    ("N", 0, 2),
    ("M", 1, 3),
    ("N", 3, 4),
    ("N", 0, 2),
];

/// The grammar whose first rule has these two arguments.
fn grammar(alloc: Global, first: &str, second: &str) -> Result<String, NoMemory> {
    let text = format!(in alloc;
        "rules:\n- name: r\n  label: N\n  type: event\n  pattern: |\n    trigger = a\n    \
        {first}\n    {second}\n- name: s\n  label: X\n  type: basic\n  pattern: x\n"
    )?;
    Ok(text)
}

/// Two arguments, and the matches.
const ARGUMENTS: [(&str, &str, &str); 9] = [
    (
        "x = >>",
        "y = >>",
        "0-1 x 1-2 y 1-2, 0-1 x 1-2 y 2-3, 0-1 x 2-3 y 1-2, 0-1 x 2-3 y 2-3",
    ),
    ("x = >nsubj", "y = >obj", "0-1 x 1-2 y 2-3"),
    ("x = >>", "y = <<", ""),
    ("x = >>", "y? = <<", "0-1 x 1-2, 0-1 x 2-3"),
    ("x* = <<", "y+ = >>", "0-1 y 1-2 y 2-3"),
    ("x+ = <<", "y = >>", ""),
    (
        "x:N = >>",
        "y:N+ = >>",
        "0-1 x 0-2 y 0-2 y 2-3, 0-1 x 2-3 y 0-2 y 2-3",
    ),
    ("x:X? = >>", "y:N = >>", "0-1 y 0-2, 0-1 y 2-3"),
    ("x:X+ = >>", "y:N = >>", ""),
];

#[test]
fn each_choice_of_candidates_is_a_match(rt: HostRuntime) -> Result<(), Fail> {
    let alloc = rt.alloc();
    let local = labelled(alloc, &LABELS)?;
    for (first, second, expected) in &ARGUMENTS {
        let grammar = grammar(alloc, first, second)?;
        let grammar = grammar.as_str();
        let found = found(alloc, GrammarKind::RuleFile, grammar, FOUR, local.get())?;
        assert_eq!(rt; found.as_str(), *expected, "of {first} and {second}");
    }
    Ok(())
}
