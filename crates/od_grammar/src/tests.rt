//! Grammars that are refused, each with its first fault, and grammars that are not, written as
//! nothing.
ghost use Rattle.std.specs.Prelude.{◌≡◌};

use crate::build;
use od_io::{MakeFault, PatternMaker, Runner};
use od_pattern::grammar::GrammarKind;
use od_rule_text::grammar_fault::GrammarFault;
use od_text::text::{NoMemory, Text};
use std::alloc::Global;
use std::test::Fail;

/// A runner that is never run.
#[derive(Drop)]
struct Idle {
    pattern: Text,
}

impl Runner for Idle {
    ghost pattern = { λ r. r.pattern };

    fn all(&mut self, _alloc: Global, _texts: &[Text]) -> Result<Vec<bool>, NoMemory> {
        Err(NoMemory)
    }
}

/// Refuses the expressions that begin with a bracket.
#[derive(Drop)]
struct Choosy {
    refused: Vec<Text>,
}

impl PatternMaker for Choosy {
    type Runner = Idle;

    ghost refused = { λ m. m.refused.items };

    fn make(&mut self, alloc: Global, pattern: &str) -> Result<Idle, MakeFault> {
        let Ok(text) = Text::from_str(alloc, pattern) else {
            return Err(MakeFault::NoMemory);
        };
        if !pattern.starts_with('(') {
            return Ok(Idle { pattern: text });
        }
        match self.refused.push(text) {
            Ok(()) => Err(MakeFault::Refused),
            Err(_) => Err(MakeFault::NoMemory),
        }
    }
}

/// A fault in letters.
fn shown(alloc: Global, fault: &GrammarFault) -> Result<String, NoMemory> {
    match fault {
        GrammarFault::Limit { which, limit } => Ok(format!(in alloc; "{which:?} past {limit}")?),
        GrammarFault::Yaml { line, kind } => Ok(format!(in alloc; "{kind:?} in line {line}")?),
        GrammarFault::Pattern { rule, at, kind } => {
            Ok(format!(in alloc; "{kind:?} at {at} of rule {rule}")?)
        }
        GrammarFault::VarCycle { var } => {
            let name = var.get();
            Ok(format!(in alloc; "VarCycle {name}")?)
        }
        other => Ok(format!(in alloc; "{other:?}")?),
    }
}

/// The first fault of a grammar, with room for so many expressions.
fn told(alloc: Global, kind: GrammarKind, text: &str, room: u32) -> Result<String, NoMemory> {
    let mut maker = Choosy {
        refused: Vec::new(alloc),
    };
    match build(alloc, kind, text, room, &mut maker) {
        Ok(_) => Ok(String::new(alloc)),
        Err(fault) => shown(alloc, &fault),
    }
}

/// The texts whose first fault, between two others, is another than the one beside them, with that
/// fault.
fn misfits(
    alloc: Global,
    kind: GrammarKind,
    around: (&str, &str),
    rows: &[(&str, &str)],
) -> Result<String, NoMemory> {
    let (before, behind) = around;
    let mut misfits = String::new(alloc);
    for (text, expected) in rows {
        let whole = format!(in alloc; "{before}{text}{behind}")?;
        let told = told(alloc, kind, whole.as_str(), 64)?;
        if told.as_str() != *expected {
            let line = format!(in alloc; "{text:?}: {told}\n")?;
            misfits.push_str(line.as_str())?;
        }
    }
    Ok(misfits)
}

/// Lines of rule files: where none may stand, where what may stand, and what is skipped.
const LINES: [(&str, &str); 36] = [
    ("", "NoRules in line 1"),
    ("\nrules:\n# - name: a\n", "NoRules in line 2"),
    ("vars:\n  a: b\n", "NoRules in line 1"),
    ("rules:\n\t- name: a\n", "Tab in line 2"),
    ("rules:\n- name: a\n  \tlabel: b\n", "Tab in line 3"),
    (" \trules:\n", "Tab in line 1"),
    ("rules:\n \t \n\t# c\n- name: a\n", "MissingKey { rule: 1 }"),
    (" rules:\n", "Indent in line 1"),
    ("rules:\n- name: a\n   x: y\n", "Indent in line 3"),
    ("rules:\n  - name: a\n label: b\n", "Indent in line 3"),
    ("vars:\n  a: b\n   c: d\n", "Indent in line 3"),
    ("rules:\n  x: y\n", "Item in line 2"),
    ("rules:\n  vars:\n", "Item in line 2"),
    ("rules:\n  -\n", "Item in line 2"),
    ("rules:\n- name: a\n-\n", "Item in line 3"),
    ("rules:\n- name: a\nx: y\n", "Item in line 3"),
    ("rules:\nx: y\n", "BadKey in line 2"),
    ("- name: a\n", "BadKey in line 1"),
    ("vars:\n- name: a\n", "BadKey in line 2"),
    ("rules:\n  - name: a\n- name: b\n", "BadKey in line 3"),
    ("rules:\n- name: a\n  - name: b\n", "BadKey in line 3"),
    ("rules:\n-\n", "BadKey in line 2"),
    ("rules:\n- \n", "BadKey in line 2"),
    ("rules:\n-  name: a\n", "BadKey in line 2"),
    ("rules:\n- name:\n", "BadKey in line 2"),
    ("rules:\n- name:\t\n", "BadKey in line 2"),
    ("rules:\n- 1a: b\n", "BadKey in line 2"),
    ("rules: \n", "BadKey in line 1"),
    ("rules: # c\n", "BadKey in line 1"),
    ("rules:\r", "BadKey in line 1"),
    ("\u{feff}rules:\n", "BadKey in line 1"),
    (
        "rules:\n- name: a\nvars:\n  x: y\n- name: c\n",
        "BadKey in line 5",
    ),
    ("vars:\nvars:\n", "SameKey in line 2"),
    ("vars:\n  a: b\n  a: [\n", "SameKey in line 3"),
    ("rules:\n- name: a\nrules:\n", "SameKey in line 3"),
    ("rules:\n- name: a\n  name: [\n", "SameKey in line 3"),
];

#[test]
fn the_first_bad_line_is_told(rt: HostRuntime) -> Result<(), Fail> {
    let found = misfits(rt.alloc(), GrammarKind::RuleFile, ("", ""), &LINES)?;
    assert_eq!(rt; found.as_str(), "");
    Ok(())
}

/// Scalars in the place of a label: some are none, some no identifier, and some are one.
const SCALARS: [(&str, &str); 37] = [
    ("", "BadScalar in line 3"),
    (" ", "BadScalar in line 3"),
    ("# c", "BadScalar in line 3"),
    ("[a", "BadScalar in line 3"),
    ("]a", "BadScalar in line 3"),
    ("{a", "BadScalar in line 3"),
    ("}a", "BadScalar in line 3"),
    (",a", "BadScalar in line 3"),
    ("&a", "BadScalar in line 3"),
    ("*a", "BadScalar in line 3"),
    ("!a", "BadScalar in line 3"),
    ("|a", "BadScalar in line 3"),
    (">a", "BadScalar in line 3"),
    ("'a'", "BadScalar in line 3"),
    ("%a", "BadScalar in line 3"),
    ("@a", "BadScalar in line 3"),
    ("`a", "BadScalar in line 3"),
    ("#a", "BadScalar in line 3"),
    ("- a", "BadScalar in line 3"),
    ("? a", "BadScalar in line 3"),
    ("a: b", "BadScalar in line 3"),
    ("\"a", "BadScalar in line 3"),
    ("\"a\"b", "BadScalar in line 3"),
    ("\"\\q\"", "BadScalar in line 3"),
    (" \"a\"", "BadScalar in line 3"),
    (" |", "BadScalar in line 3"),
    ("| ", "BadScalar in line 3"),
    ("| # c", "BadScalar in line 3"),
    ("a#b", "BadLabel { rule: 1 }"),
    ("a:", "BadLabel { rule: 1 }"),
    ("-", "BadLabel { rule: 1 }"),
    ("|", "BadLabel { rule: 1 }"),
    ("|\n    a", "BadLabel { rule: 1 }"),
    ("|-\n    a\n\n", ""),
    (" a \t# b: c", ""),
    ("\"a\"#b", ""),
    ("\"a\" #b", ""),
];

#[test]
fn scalars_are_plain_quoted_or_literal(rt: HostRuntime) -> Result<(), Fail> {
    let around = (
        "rules:\n- name: a\n  label: ",
        "\n  type: basic\n  pattern: x",
    );
    let found = misfits(rt.alloc(), GrammarKind::RuleFile, around, &SCALARS)?;
    assert_eq!(rt; found.as_str(), "");
    Ok(())
}

/// Items, with several faults each.
const ITEMS: [(&str, &str); 18] = [
    ("colour: a\n  name: b", "UnknownKey { rule: 1 }"),
    (
        "name: a\n  label: L\n  type: basic",
        "MissingKey { rule: 1 }",
    ),
    (
        "name: a\n  label: L\n  pattern: x",
        "MissingKey { rule: 1 }",
    ),
    (
        "name: a\n  type: basic\n  pattern: x",
        "MissingKey { rule: 1 }",
    ),
    (
        "label: L\n  type: basic\n  pattern: x",
        "MissingKey { rule: 1 }",
    ),
    ("pattern: x\n  type: basic\n  label: L\n  name: a", ""),
    (
        "name: \"\"\n  label: 1\n  type: x\n  priority: 0\n  pattern: ${v}",
        "BadName { rule: 1 }",
    ),
    (
        "name: a\n  label: 1\n  type: x\n  priority: 0\n  pattern: ${v}",
        "BadLabel { rule: 1 }",
    ),
    (
        "name: a\n  label: L\n  type: x\n  priority: 0\n  pattern: ${v}",
        "BadType { rule: 1 }",
    ),
    (
        "name: a\n  label: L\n  type: event\n  priority: 0\n  pattern: ${v}",
        "BadPriority { rule: 1 }",
    ),
    (
        "name: a\n  label: L\n  type: basic\n  priority: 1\n  pattern: ) ${v}",
        "UnknownVar { rule: 1 }",
    ),
    (
        "name: a\n  label: L\n  type: basic\n  pattern: x\n\
        - name: a\n  label: 1\n  type: x\n  pattern: )",
        "SameName { rule: 2 }",
    ),
    (
        "name: a\n  label: L\n  type: basic\n  pattern: )\n- colour: a",
        "Expected at 0 of rule 1",
    ),
    (
        "name: a\n  label: L\n  type: basic\n  pattern: x\n- colour: a",
        "UnknownKey { rule: 2 }",
    ),
    (
        "name: a\n  label: L\n  type: basic\n  pattern: \"@M\"\n\
        - name: b\n  label: L\n  type: basic\n  pattern: )",
        "Expected at 0 of rule 2",
    ),
    (
        "name: a\n  label: L\n  type: basic\n  pattern: \"@M\"\n\
        - name: b\n  label: M\n  type: basic\n  pattern: \"@L\"",
        "",
    ),
    (
        "name: a\n  label: L\n  type: basic\n  pattern: /(/\n\
        - name: b\n  label: M\n  type: basic\n  pattern: \"@N\"",
        "UnknownLabel { rule: 2 }",
    ),
    (
        "name: a\n  label: L\n  type: basic\n  pattern: /a/ /b/\n\
        - name: b\n  label: M\n  type: basic\n  pattern: /a/ /(/",
        "RegexRefused { rule: 2, number: 3 }",
    ),
];

#[test]
fn rules_are_tested_one_after_another(rt: HostRuntime) -> Result<(), Fail> {
    let found = misfits(
        rt.alloc(),
        GrammarKind::RuleFile,
        ("rules:\n- ", "\n"),
        &ITEMS,
    )?;
    assert_eq!(rt; found.as_str(), "");
    Ok(())
}

/// Texts in the place of a priority.
const PRIORITIES: [(&str, &str); 21] = [
    ("1", ""),
    ("100", ""),
    ("1-100", ""),
    ("3-3", ""),
    ("7+", ""),
    ("100+", ""),
    ("0", "BadPriority { rule: 1 }"),
    ("101", "BadPriority { rule: 1 }"),
    ("01", "BadPriority { rule: 1 }"),
    ("1-010", "BadPriority { rule: 1 }"),
    ("2-1", "BadPriority { rule: 1 }"),
    ("1-", "BadPriority { rule: 1 }"),
    ("-1", "BadPriority { rule: 1 }"),
    ("+", "BadPriority { rule: 1 }"),
    ("1+2", "BadPriority { rule: 1 }"),
    ("1 - 2", "BadPriority { rule: 1 }"),
    ("1++", "BadPriority { rule: 1 }"),
    ("1-101", "BadPriority { rule: 1 }"),
    ("0+", "BadPriority { rule: 1 }"),
    ("a", "BadPriority { rule: 1 }"),
    ("\"\"", "BadPriority { rule: 1 }"),
];

#[test]
fn priorities_are_rounds_from_1_to_100(rt: HostRuntime) -> Result<(), Fail> {
    let around = (
        "rules:\n- name: a\n  label: L\n  type: basic\n  priority: ",
        "\n  pattern: x",
    );
    let found = misfits(rt.alloc(), GrammarKind::RuleFile, around, &PRIORITIES)?;
    assert_eq!(rt; found.as_str(), "");
    Ok(())
}

/// Patterns with what stands behind them: variables, literal texts, and places of faults.
const EXPANDED: [(&str, &str); 28] = [
    ("${a}", "UnknownVar { rule: 1 }"),
    ("${a}\nvars:\n  b: x", "UnknownVar { rule: 1 }"),
    ("${a}\nvars:\n  a: ${b}", "UnknownVar { rule: 1 }"),
    ("x\nvars:\n  a: ${a} ${b}", ""),
    ("${a}\nvars:\n  a: ${a}", "VarCycle a"),
    ("${a}\nvars:\n  a: ${b}\n  b: ${b}", "VarCycle b"),
    ("${b}\nvars:\n  a: ${b}\n  b: ${a}", "VarCycle b"),
    ("${a}\nvars:\n  a: ${b}\n  b: ${c}\n  c: ${b}", "VarCycle b"),
    ("${a} ${c}\nvars:\n  a: ${a}", "VarCycle a"),
    ("${c} ${a}\nvars:\n  a: ${a}", "UnknownVar { rule: 1 }"),
    ("${a}\nvars:\n  a: ${a} ${c}", "VarCycle a"),
    ("${a}\nvars:\n  a: ${c} ${a}", "UnknownVar { rule: 1 }"),
    ("${b} ${b}\nvars:\n  a: x\n  b: ${a} ${a}", ""),
    ("${a} )\nvars:\n  a: x y z", "Expected at 6 of rule 1"),
    ("$${a}\nvars:\n  a: x", ""),
    ("${a}{a}\nvars:\n  a: $", "Lex at 1 of rule 1"),
    ("${a-}", "Lex at 1 of rule 1"),
    ("${a", "Lex at 1 of rule 1"),
    ("|\n    a (", "Expected at 4 of rule 1"),
    ("|\n    a (\r\n\r\n", "Expected at 4 of rule 1"),
    ("|-\n    a (\n\n", "Expected at 3 of rule 1"),
    ("|\n\n    )", "Expected at 1 of rule 1"),
    ("|\n    a\n      \n    )", "Expected at 5 of rule 1"),
    ("|", "Expected at 0 of rule 1"),
    ("|\n  priority: 0", "BadPriority { rule: 1 }"),
    ("|\n  x", "BadKey in line 6"),
    ("|\n   x", ""),
    ("|\n    a\n   b", "Indent in line 7"),
];

#[test]
fn places_are_those_of_expanded_patterns(rt: HostRuntime) -> Result<(), Fail> {
    let around = (
        "rules:\n- name: r\n  label: L\n  type: basic\n  pattern: ",
        "",
    );
    let found = misfits(rt.alloc(), GrammarKind::RuleFile, around, &EXPANDED)?;
    assert_eq!(rt; found.as_str(), "");
    Ok(())
}

/// Event patterns.
const EVENTS: [(&str, &str); 13] = [
    ("", "Expected at 0 of rule 1"),
    ("    trigger = a\n    who:L = >x", ""),
    (
        "    trigger = a\n    who:M = >x",
        "UnknownLabel { rule: 1 }",
    ),
    ("    trigger = @M", "UnknownLabel { rule: 1 }"),
    ("    trigger = a\n    who = \n", "Expected at 18 of rule 1"),
    (
        "    trigger = a\r\n    who = \r\n",
        "Expected at 18 of rule 1",
    ),
    ("\n\n    trigger = )", "Expected at 12 of rule 1"),
    (
        "    trigger = a\n      \n    who",
        "Expected at 15 of rule 1",
    ),
    ("    trigger = a >x b", "Expected at 12 of rule 1"),
    (
        "    trigger = (?<x>a)\n    x = >y",
        "SameCapture at 18 of rule 1",
    ),
    (
        "    trigger = /(/\n    x = >/(b/",
        "RegexRefused { rule: 1, number: 1 }",
    ),
    (
        "    trigger = /a/\n    x = >/(/",
        "RegexRefused { rule: 1, number: 2 }",
    ),
    (
        "    trigger = /a/\n    x = >/b/ [tag=/a/] >/(/",
        "RegexRefused { rule: 1, number: 3 }",
    ),
];

#[test]
fn the_first_fault_of_an_event_is_told(rt: HostRuntime) -> Result<(), Fail> {
    let around = (
        "rules:\n- name: r\n  label: L\n  type: event\n  pattern: |\n",
        "",
    );
    let found = misfits(rt.alloc(), GrammarKind::RuleFile, around, &EVENTS)?;
    assert_eq!(rt; found.as_str(), "");
    Ok(())
}

/// Queries.
const QUERIES: [(&str, &str); 25] = [
    ("", "Expected at 0 of rule 1"),
    (" ", "Expected at 1 of rule 1"),
    (") %", "Expected at 0 of rule 1"),
    ("a %", "Lex at 2 of rule 1"),
    ("[colour=red] %", "UnknownField at 1 of rule 1"),
    ("a{2,1} \"b", "BadRange at 1 of rule 1"),
    ("(a?){2,}?", "NullableRepeat at 4 of rule 1"),
    ("(?<x>a) >y (?<x>b)", "SameCapture at 11 of rule 1"),
    ("(((a{1000}){1000}", "Expected at 17 of rule 1"),
    ("(a{1000}){5} b", "TooBig at 0 of rule 1"),
    (">x a", "Expected at 0 of rule 1"),
    ("a >x b | c", "Expected at 7 of rule 1"),
    ("${a}", "UnknownVar { rule: 1 }"),
    ("/(/ ) ${b}", "UnknownVar { rule: 1 }"),
    ("@Query", ""),
    ("@L", "UnknownLabel { rule: 1 }"),
    ("a >x (@L | b)", "UnknownLabel { rule: 1 }"),
    ("a >x b >y @L", "UnknownLabel { rule: 1 }"),
    ("(?<x>(@L)?) a", "UnknownLabel { rule: 1 }"),
    ("/(/ @L", "UnknownLabel { rule: 1 }"),
    ("/(/", "RegexRefused { rule: 1, number: 1 }"),
    ("/a/ /(/ /(b/", "RegexRefused { rule: 1, number: 2 }"),
    (
        "/a/ /a/ [tag=/a/ & word=/(/]",
        "RegexRefused { rule: 1, number: 2 }",
    ),
    ("/a/ >/(/ b", "RegexRefused { rule: 1, number: 2 }"),
    ("a\r\nb", ""),
];

#[test]
fn a_query_is_tested_as_rule_1(rt: HostRuntime) -> Result<(), Fail> {
    let found = misfits(rt.alloc(), GrammarKind::Query, ("", ""), &QUERIES)?;
    assert_eq!(rt; found.as_str(), "");
    Ok(())
}

/// A text, a piece that is repeated behind it, how often, what stands at the end, and the first
/// fault.
type Repeated = (&'static str, &'static str, u32, &'static str, &'static str);

/// The whole text, with the number of each piece in the place of its `#`.
fn repeated(alloc: Global, row: &Repeated) -> Result<String, NoMemory> {
    let (before, piece, times, behind, _) = *row;
    let mut text = String::from_str(alloc, before)?;
    for number in 0..times {
        match piece.split_once('#') {
            Some((first, second)) => {
                let numbered = format!(in alloc; "{first}{number}{second}")?;
                text.push_str(numbered.as_str())?;
            }
            None => text.push_str(piece)?,
        }
    }
    text.push_str(behind)?;
    Ok(text)
}

/// The pieces with which the first fault is another than the one beside them, with that fault.
fn misfits_of(alloc: Global, kind: GrammarKind, rows: &[Repeated]) -> Result<String, NoMemory> {
    let mut misfits = String::new(alloc);
    for row in rows {
        let text = repeated(alloc, row)?;
        let told = told(alloc, kind, text.as_str(), 64)?;
        let (_, piece, times, _, expected) = *row;
        if told.as_str() != expected {
            let line = format!(in alloc; "{times} times {piece:?}: {told}\n")?;
            misfits.push_str(line.as_str())?;
        }
    }
    Ok(misfits)
}

/// Rule files at their limits and past them.
const LARGE_FILES: [Repeated; 15] = [
    ("\t", "a", 65537, "", "GrammarBytes past 65536"),
    (
        "vars:\n  v: ",
        "a",
        8192,
        "\nrules:\n- name: r\n  label: L\n  type: basic\n  pattern: ${v}${v}",
        "",
    ),
    (
        "vars:\n  v: ",
        "a",
        8192,
        "\nrules:\n- name: r\n  label: L\n  type: basic\n  pattern: ${v}${v})",
        "PatternBytes past 16384",
    ),
    (
        "rules:\n",
        "- name: r#\n  label: L\n  type: basic\n  pattern: x\n",
        200,
        "",
        "",
    ),
    (
        "rules:\n",
        "- name: r#\n  label: L\n  type: basic\n  pattern: x\n",
        201,
        "",
        "Rules past 200",
    ),
    ("rules:\n", "- colour: a\n", 201, "", "Rules past 200"),
    ("rules:\n", "- colour: a\n", 201, "\t- a", "Tab in line 203"),
    (
        "rules:\n- colour: a\nvars:\n",
        "  v#: x\n",
        100,
        "",
        "UnknownKey { rule: 1 }",
    ),
    (
        "rules:\n- colour: a\nvars:\n",
        "  v#: x\n",
        101,
        "",
        "Vars past 100",
    ),
    (
        "rules:\n- name: ",
        "n",
        64,
        "\n  label: L\n  type: basic\n  pattern: x\n",
        "",
    ),
    (
        "rules:\n- name: ",
        "n",
        65,
        "\n  label: L\n  type: basic\n  pattern: x\n",
        "BadName { rule: 1 }",
    ),
    (
        "rules:\n- name: a\n  label: ",
        "L",
        64,
        "\n  type: basic\n  pattern: x\n",
        "",
    ),
    (
        "rules:\n- name: a\n  label: ",
        "L",
        65,
        "\n  type: basic\n  pattern: x\n",
        "BadLabel { rule: 1 }",
    ),
    ("rules:\n- ", "k", 64, ": a\n", "UnknownKey { rule: 1 }"),
    ("rules:\n- ", "k", 65, ": a\n", "BadKey in line 2"),
];

#[test]
fn a_rule_file_at_a_limit_is_accepted(rt: HostRuntime) -> Result<(), Fail> {
    let found = misfits_of(rt.alloc(), GrammarKind::RuleFile, &LARGE_FILES)?;
    assert_eq!(rt; found.as_str(), "");
    Ok(())
}

/// Queries at their limits and past them.
const LARGE_QUERIES: [Repeated; 16] = [
    ("", "a", 16384, "", ""),
    ("", "a", 16385, "", "PatternBytes past 16384"),
    ("", ")", 16385, "", "PatternBytes past 16384"),
    ("${v} ", "a", 16385, "", "UnknownVar { rule: 1 }"),
    ("", "a", 65536, "", "PatternBytes past 16384"),
    ("", "a", 65537, "", "GrammarBytes past 65536"),
    ("", "/x#/ ", 64, "", ""),
    ("", "/x#/ ", 65, "", "Regexes past 64"),
    ("/(/ ", "/x#/ ", 64, "", "Regexes past 64"),
    ("", "/x#/ ", 65, "@L", "UnknownLabel { rule: 1 }"),
    ("", "(", 100, "", "Expected at 100 of rule 1"),
    ("", "(", 101, "", "TooDeep at 100 of rule 1"),
    ("a /", "x", 200, "/", ""),
    ("a /", "x", 201, "/", "RegexLong at 2 of rule 1"),
    ("${", "v", 64, "}", "UnknownVar { rule: 1 }"),
    ("${", "v", 65, "}", "Lex at 1 of rule 1"),
];

#[test]
fn a_query_at_a_limit_is_accepted(rt: HostRuntime) -> Result<(), Fail> {
    let found = misfits_of(rt.alloc(), GrammarKind::Query, &LARGE_QUERIES)?;
    assert_eq!(rt; found.as_str(), "");
    Ok(())
}

/// Two different expressions want room for two.
#[test]
fn expressions_may_have_less_room_than_the_limit(rt: HostRuntime) -> Result<(), Fail> {
    let alloc = rt.alloc();
    for (room, expected) in [(2, ""), (1, "Regexes past 64")] {
        let told = told(alloc, GrammarKind::Query, "/a/ /b/ /a/", room)?;
        assert_eq!(rt; told.as_str(), expected);
    }
    Ok(())
}
