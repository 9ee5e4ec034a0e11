//! Event patterns, with the number of their arguments.
ghost use Rattle.std.specs.Prelude.{◌<◌, ◌^◌, length};

use crate::harness::{Parser, Row, misfits};
use od_event_text::parse_event;
use od_path::path_of_text;
use od_pattern::rule::Argument;
use od_text::text::NoMemory;
use std::alloc::Global;
use std::test::Fail;

/// Faults of the trigger's line, and texts that have no other one.
const TRIGGERS: [Row; 17] = [
    ("", "Expected at 0"),
    (" \n ", "Expected at 3"),
    ("who = a", "Expected at 0"),
    ("\n  who = a", "Expected at 1"),
    ("trigger a", "Expected at 0"),
    ("trigger:N = a", "Expected at 0"),
    ("trigger? = a", "Expected at 0"),
    ("trigger trigger = a", "Expected at 0"),
    ("trigger =", "Expected at 9"),
    ("trigger = a >x b", "Expected at 12"),
    ("trigger = ) %", "Expected at 10"),
    ("trigger = a \"b\n\" c", "Lex at 12"),
    ("trigger = a{2,1}\nx = %", "BadRange at 11"),
    ("trigger = a %\nx = ", "Lex at 12"),
    ("trigger = a = b", "Expected at 12"),
    ("trigger = a", "0"),
    ("\u{a0}trigger\u{2003}=a\n \t\r\n\n", "0"),
];

/// Faults of the lines of arguments, and texts without one.
const ARGUMENTS: [Row; 21] = [
    ("trigger = a\ntrigger = >d", "1"),
    (
        "trigger = (?<what>[lemma=chase])\nwho:Animal = >nsubj\nwhere? = >obl [tag=/NN.*/]",
        "2",
    ),
    ("trigger = a\r\nx = >d\r\n", "1"),
    ("trigger = a\nx = >d\n\n \ny = <d\n", "2"),
    ("trigger = a\nx >d", "Expected at 12"),
    ("trigger = a\n = >d", "Expected at 12"),
    ("trigger = a\n  x:1 = >d", "Expected at 12"),
    ("trigger = a\nx: = >d", "Expected at 12"),
    ("trigger = a\nx:N:M = >d", "Expected at 12"),
    ("trigger = a\nx y = >d", "Expected at 12"),
    ("trigger = a\nx ? ? = >d", "Expected at 12"),
    ("trigger = a\nx ?: N = >d", "Expected at 12"),
    ("trigger = a\nwhö = >d", "Expected at 12"),
    ("trigger = (?<x>a)\nx = ", "SameCapture at 18"),
    (
        "trigger = b | (?<y>a (?<x>b)?)\nx = >d",
        "SameCapture at 31",
    ),
    ("trigger = a\nx = >d\nx? = %", "SameCapture at 19"),
    ("trigger = a\nx = \ny >d", "Expected at 16"),
    ("trigger = a\nx = \r\ny = >d", "Expected at 17"),
    ("trigger = 'Größe'\nwho = [tag NN]", "Expected at 31"),
    ("trigger = 'Größe'\nwho = >é %\nx >d", "Lex at 30"),
    (
        "trigger = é\n\u{a0}who = >'ß'\n who = >d",
        "SameCapture at 27",
    ),
];

/// The size of trigger and paths, which is tested at last.
const SIZES: [Row; 4] = [
    ("trigger = (a{1000}){1000}\nx = >d", "TooBig at 0"),
    ("trigger = (a{1000}){1000}\nx = ", "Expected at 30"),
    ("trigger = (a{1000}){4}\nx = >d{998}", "1"),
    ("trigger = (a{1000}){4}\nx = >d{998}\ny = >d", "TooBig at 0"),
];

#[test]
fn the_first_fault_of_the_first_line_is_told(rt: HostRuntime) -> Result<(), Fail> {
    let alloc = rt.alloc();
    let found = misfits(alloc, Parser::Event, &TRIGGERS)?;
    assert_eq!(rt; found.as_str(), "");
    let found = misfits(alloc, Parser::Event, &ARGUMENTS)?;
    assert_eq!(rt; found.as_str(), "");
    let found = misfits(alloc, Parser::Event, &SIZES)?;
    assert_eq!(rt; found.as_str(), "");
    Ok(())
}

/// The label of an argument; `-` where it has none.
fn label(argument: &Argument) -> &str {
    match &argument.label {
        Some(label) => label.get(),
        None => "-",
    }
}

/// Name, label, quantifier and path of the first argument.
fn first_argument(alloc: Global, text: &str) -> Result<String, NoMemory>
    requires { length text.now < 2 ^ 20 }
{
    let Ok(rule) = parse_event(alloc, text) else {
        return Ok(String::from_str(alloc, "refused")?);
    };
    match rule.arguments.get().first() {
        Some(argument) => {
            let name = argument.name.get();
            let label = label(argument);
            let many = argument.many;
            let path = &argument.path;
            Ok(format!(in alloc; "{name} {label} {many:?} {path:?}")?)
        }
        None => Ok(String::from_str(alloc, "no argument")?),
    }
}

/// A head, and the path of a text behind it.
fn expected_argument(alloc: Global, head: &str, path: &str) -> Result<String, NoMemory>
    requires { length path.now < 2 ^ 20 }
{
    match path_of_text(alloc, path, 0) {
        Ok(read) => {
            let path = &read.path;
            Ok(format!(in alloc; "{head} {path:?}")?)
        }
        Err(_) => Ok(String::from_str(alloc, "no path")?),
    }
}

/// Lines of arguments, with name, label and quantifier, and the text of the path.
const HEADS: [(&str, &str, &str); 7] = [
    ("who = >d", "who - One", ">d"),
    ("who? = >d", "who - Optional", ">d"),
    ("who * = <d >e", "who - All", "<d >e"),
    ("who+=(>d|<d)*", "who - AllOne", "(>d|<d)*"),
    ("who:Animal = >d", "who Animal One", ">d"),
    (" \u{a0}x : N\t? = >d", "x N Optional", ">d"),
    ("who_2:_N+ = >'a=b'", "who_2 _N AllOne", ">'a=b'"),
];

#[test]
fn arguments_have_names_labels_quantifiers_and_paths(rt: HostRuntime) -> Result<(), Fail> {
    let alloc = rt.alloc();
    for (line, head, path) in &HEADS {
        let text = format!(in alloc; "trigger = a\n{line}\n")?;
        assert!(rt; text.len() < 1000 && path.len() < 1000, "{line} is short");
        let found = first_argument(alloc, text.as_str())?;
        let expected = expected_argument(alloc, head, path)?;
        assert_eq!(rt; found.as_str(), expected.as_str(), "in {line}");
    }
    Ok(())
}
