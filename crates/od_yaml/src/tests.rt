use crate::read_rules_file;
use od_rule_text::rule_file::{KeyText, YamlFault, YamlKind};

/// Texts with the line and the kind of their first fault.
const FAULTS: [(&str, u32, YamlKind); 11] = [
    ("vars:\n\ta: b\nx", 2, YamlKind::Tab),
    ("rules:\n- name: a\n   x: y\n\tz", 3, YamlKind::Indent),
    ("vars:\n  a: |\n      b\n    c\n", 4, YamlKind::Indent),
    ("rules:\n- name: a\nx: y\n", 3, YamlKind::Item),
    ("# rules\r\n\r\nrules: a\r\n", 3, YamlKind::BadKey),
    (
        "vars:\n  a: |\n    b\n\n    c\n  d e\n",
        6,
        YamlKind::BadKey,
    ),
    ("rules:\n- name: a\n  name: [\n", 3, YamlKind::SameKey),
    ("rules:\n- name: a\nrules:\n", 3, YamlKind::SameKey),
    ("rules:\n- name: \"a\\q\"\n", 2, YamlKind::BadScalar),
    (
        "\nvars:\n  a: b\nrules:\n# - name: a\n",
        4,
        YamlKind::NoRules,
    ),
    ("", 1, YamlKind::NoRules),
];

#[test]
fn the_first_fault_is_told_with_its_line(rt: HostRuntime) {
    for (text, line, kind) in FAULTS {
        let read = read_rules_file(rt.alloc(), text);
        assert!(rt; read.is_err_and(|fault| fault == YamlFault::Bad { line, kind }));
    }
}

/// Plain, quoted and literal scalars, comments, and both ends of lines.
const RULES: &str =
    "# c\r\nvars:\n  a: x y  # z\r\n  b: \"q\\\"\\\\\\n\\t\" # c\n\nrules:\n- name: n\n  \
    pattern: |\n\n    one\r\n      two\n    \n\n  label: |-\n    l\n   \n- name: k#1";

/// Whether these are the keys and the texts of some entries.
fn are(entries: &[KeyText], expected: &[(&str, &str)]) -> bool {
    entries.len() == expected.len()
        && entries.iter().zip(expected).all(|(entry, (key, value))| entry.key.get() == *key
            && entry.value.get() == *value)
}

#[test]
fn every_form_of_scalar_is_read(rt: HostRuntime) {
    let file = read_rules_file(rt.alloc(), RULES).expect(&rt, "a rule file");
    assert!(rt; are(file.vars.get(), &[("a", "x y"), ("b", "q\"\\\n\t")]));
    let [first, second] = file.rules.get() else {
        panic!(rt; "two items");
    };
    assert!(rt;
        are(
            first.get(),
            &[("name", "n"), ("pattern", "\none\n  two\n"), ("label", "l")]
        )
    );
    assert!(rt; are(second.get(), &[("name", "k#1")]));
}
