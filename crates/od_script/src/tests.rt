use crate::{ScriptFault, read_script};
use od_command::history::Command;
use od_order::script::Order;
use od_order::script_kind::ScriptKind;
use od_text::text::Bytes;
use std::alloc::Global;

const TWO_CLIENTS: &[u8] = b"# two grammars\r\ngrammar g 2\n- name: a\n\nquery q dogs  bark\r\n\
    client\ndoc d 2\nclient\n\xff\nopen s q 5\nclient\nresume s\nrun s\nsettle";

/// The same as it is written out: the worked case of the specification.
const WRITTEN: &[u8] = b"grammar g 2\n- name: a\n\nquery q dogs  bark\n\
    client\ndoc d 2\nclient\n\xff\nopen s q 5\nclient\nresume s\nrun s\nsettle\n";

#[test]
fn a_script_of_two_clients_is_read(rt: HostRuntime) {
    for text in [TWO_CLIENTS, WRITTEN] {
        let script = read_script(rt.alloc(), text).expect(&rt, "a script");
        let [rules, query] = script.heads.get() else {
            panic!(rt; "two heads");
        };
        assert_eq!(rt; rules.name.get(), "g");
        assert_eq!(rt; rules.text.get(), "- name: a\n\n");
        assert_eq!(rt; query.text.get(), "dogs  bark");
        let [first, second] = script.clients.get() else {
            panic!(rt; "two clients");
        };
        let [Order::One(adding), Order::One(opening)] = first.get() else {
            panic!(rt; "two orders");
        };
        assert!(rt;
            matches!(adding, Command::AddDoc { body, .. } if body.get() == b"client\n\xff\n".as_slice())
        );
        assert!(rt; matches!(opening, Command::OpenSession { limit: 5, .. }));
        let [
            Order::One(resuming),
            Order::Run(running),
            Order::One(settling),
        ] = second.get()
        else {
            panic!(rt; "three orders");
        };
        assert!(rt; matches!(resuming, Command::Resume { .. }));
        assert_eq!(rt; running.get(), "s");
        assert!(rt; matches!(settling, Command::Settle));
    }
}

/// Scripts that have two faults or more, with the line and the kind of the first.
const FAULTS: [(&[u8], u32, ScriptKind); 14] = [
    (b"client\n#\xff\nx\n", 2, ScriptKind::NotUtf8),
    (b"grammar g 2\na\n\xff\nx\n", 3, ScriptKind::NotUtf8),
    (b"grammar g 3\na\n\xff\n", 1, ScriptKind::ShortBlock),
    (b"Client\nx\n", 1, ScriptKind::BadWord),
    (b"client\r", 1, ScriptKind::BadWord),
    (b"settle\r\r\n", 1, ScriptKind::BadWord),
    (b"client\nquery q\nx\n", 2, ScriptKind::LateHead),
    (b"\n\nstep\nx\n", 3, ScriptKind::NoClient),
    (b"query q\nx\n", 1, ScriptKind::Shape),
    (b"query  a\nx\n", 1, ScriptKind::BadName),
    (b"client\nopen s ? x\n", 2, ScriptKind::BadName),
    (b"grammar g 01\nquery g\n", 1, ScriptKind::BadNumber),
    (b"query q a\ngrammar q 9\n", 2, ScriptKind::SameHead),
    (
        b"client\ndoc d 1\nx\ndoc d 2\nx\n",
        4,
        ScriptKind::ShortBlock,
    ),
];

#[test]
fn the_first_fault_is_told_with_its_line(rt: HostRuntime) {
    for (text, line, kind) in FAULTS {
        let read = read_script(rt.alloc(), text);
        assert!(rt; read.is_err_and(|fault| fault == ScriptFault::Bad { line, kind }));
    }
}

/// The first fault of one line many times over; memory that was refused is one.
fn fault_of_many(alloc: Global, first: &[u8], line: &[u8], times: u32) -> Option<ScriptFault> {
    let mut bytes = match Bytes::from_slice(alloc, first) {
        Ok(bytes) => bytes,
        Err(_) => return Some(ScriptFault::NoMemory),
    };
    for _time in 0..times {
        let Ok(()) = bytes.append(line) else {
            return Some(ScriptFault::NoMemory);
        };
    }
    read_script(alloc, bytes.get()).err()
}

#[test]
fn one_client_or_order_too_many_is_told(rt: HostRuntime) {
    let too_many = |line| ScriptFault::Bad {
        line,
        kind: ScriptKind::TooMany,
    };
    assert_eq!(rt; fault_of_many(rt.alloc(), b"", b"client\n", 8), None);
    assert_eq!(rt;
        fault_of_many(rt.alloc(), b"", b"client\n", 9),
        Some(too_many(9))
    );
    assert_eq!(rt;
        fault_of_many(rt.alloc(), b"client\n", b"settle\n", 10_000),
        None
    );
    assert_eq!(rt;
        fault_of_many(rt.alloc(), b"client\n", b"settle\n", 10_001),
        Some(too_many(10_002))
    );
}
