//! The top call over sources and sinks in memory.
use od_command::history::{Command, Refusal, Reply};
use od_heads::make_heads;
use od_io::{FailMaker, MemSink, MemSource, RegexMaker};
use od_serve::{Ended, odinson};
use od_text::list::List;
use od_text::text::{Bytes, NoMemory, Text};
use od_workspace::workspace::Workspace;
use od_workspace::workspace::change::Answer;
use std::alloc::{AllocError, Global};
use std::test::Fail;

type Ends = Ended<MemSource, MemSink, MemSink, RegexMaker>;

const EXAMPLE: &[u8] =
    b"query q dogs bark\nclient\ndoc d1 7\n1\tBig\tbig\tADJ\tJJ\t_\t2\tamod\t_\t_\n2\tDogs\tdog\tNOUN\tNNS\t_\t3\tnsubj\t_\t_\n3\tbark\tbark\tVERB\tVBP\t_\t0\troot\t_\t_\n\n1\tCats\tcat\tNOUN\tNNS\t_\t2\tnsubj\t_\t_\n2\tsleep\tsleep\tVERB\tVBP\t_\t0\troot\t_\t_\n\nopen s q 5\nrun s\nprint s\n";

const LINES: &[u8] =
    b"{\"call\":1,\"caller\":1,\"command\":\"doc\",\"documents\":1,\"name\":\"d1\",\"reply\":\"ok\"}\n{\"call\":2,\"caller\":1,\"command\":\"open\",\"documents\":1,\"limit\":5,\"name\":\"s\",\"reply\":\"ok\"}\n{\"added\":1,\"call\":3,\"caller\":1,\"command\":\"step\",\"name\":\"s\",\"reply\":\"ok\",\"round\":1,\"state\":\"going\"}\n{\"added\":0,\"call\":4,\"caller\":1,\"command\":\"step\",\"name\":\"s\",\"reply\":\"ok\",\"round\":2,\"state\":\"finished\"}\n{\"arguments\":[],\"document\":\"d1\",\"end\":3,\"label\":\"Query\",\"rule\":\"query\",\"sentence\":0,\"session\":\"s\",\"start\":1,\"text\":\"Dogs bark\"}\n{\"call\":5,\"caller\":1,\"command\":\"print\",\"mentions\":1,\"name\":\"s\",\"reply\":\"ok\",\"round\":2,\"state\":\"finished\"}\n";

const USAGE: &[u8] = b"odinson: usage: see help\n";

const READ_FAULT: &[u8] = b"odinson: read fault\n";

const WRITE_FAULT: &[u8] = b"odinson: write fault\n";

/// What a run is given: its words, its input, how many bytes its sinks take, and whether its first read fails.
#[derive(Drop)]
struct Given {
    words: Vec<String>,
    input: &'static [u8],
    room: usize,
    diag_room: usize,
    fails: bool,
}

fn words_of(alloc: Global, words: &[&'static str]) -> Result<Vec<String>, AllocError> {
    let mut all = Vec::new(alloc);
    for word in words {
        all.push(String::from_str(alloc, word)?)?;
    }
    Ok(all)
}

/// A run of `serve` with ample room.
fn serving(alloc: Global, input: &'static [u8]) -> Result<Given, AllocError> {
    Ok(Given {
        words: words_of(alloc, &["serve"])?,
        input,
        room: 100000,
        diag_room: 1000,
        fails: false,
    })
}

fn run(alloc: Global, given: &Given) -> Result<Ends, NoMemory> {
    let bytes = Bytes::from_slice(alloc, given.input)?;
    let mut failing = Vec::new(alloc);
    if given.fails && failing.push(0).is_err() {
        return Err(NoMemory);
    }
    let source = MemSource::new(bytes, failing);
    let sink = MemSink::new(alloc, given.room)?;
    let diag = MemSink::new(alloc, given.diag_room)?;
    let maker = RegexMaker::new(alloc);
    Ok(odinson(alloc, given.words.as_slice(), source, sink, diag, maker))
}

#[test]
fn other_words_are_refused(rt: HostRuntime) {
    let mut given = serving(rt.alloc(), EXAMPLE).expect(&rt, "memory");
    let lists: [&[&'static str]; 5] = [&[], &[""], &["Serve"], &["serve "], &["serve", "serve"]];
    for words in &lists {
        given.words = words_of(rt.alloc(), words).expect(&rt, "memory");
        let ended = run(rt.alloc(), &given).expect(&rt, "memory");
        assert_eq!(rt; ended.status, 2, "to {words:?}");
        assert!(rt; ended.sink.written().is_empty());
        assert!(rt; ended.diag.written() == USAGE);
    }
}

#[test]
fn a_sink_takes_what_it_has_room_for(rt: HostRuntime) {
    let mut given = serving(rt.alloc(), EXAMPLE).expect(&rt, "memory");
    for room in 0..LINES.len() {
        given.room = room;
        let ended = run(rt.alloc(), &given).expect(&rt, "memory");
        assert_eq!(rt; ended.status, 8, "with room for {room} bytes");
        assert!(rt;
            ended.sink.written() == &LINES[..room],
            "with room for {room} bytes"
        );
        assert!(rt;
            ended.diag.written() == WRITE_FAULT,
            "with room for {room} bytes"
        );
        // The whole lines of four entries, and then a print's: the entry that is cut short counts.
        let whole = LINES[..room].iter().filter(|byte| **byte == b'\n').count();
        let answered = whole.min(4) + 1;
        assert_eq!(rt; ended.history.len(), answered, "with room for {room} bytes");
    }
}

#[test]
fn the_whole_output_has_room(rt: HostRuntime) {
    let mut given = serving(rt.alloc(), EXAMPLE).expect(&rt, "memory");
    given.room = LINES.len();
    let ended = run(rt.alloc(), &given).expect(&rt, "memory");
    assert_eq!(rt; ended.status, 0);
    assert!(rt; ended.sink.written() == LINES);
    assert!(rt; ended.diag.written().is_empty());
    assert_eq!(rt; ended.history.len(), 5);
}

#[test]
fn a_failed_read_ends_without_a_line(rt: HostRuntime) {
    let mut given = serving(rt.alloc(), EXAMPLE).expect(&rt, "memory");
    given.fails = true;
    let ended = run(rt.alloc(), &given).expect(&rt, "memory");
    assert_eq!(rt; ended.status, 7);
    assert!(rt; ended.history.is_empty());
    assert!(rt; ended.sink.written().is_empty());
    assert!(rt; ended.diag.written() == READ_FAULT);
}

#[test]
fn a_diagnostic_that_cannot_be_written_changes_no_status(rt: HostRuntime) {
    let mut given = serving(rt.alloc(), EXAMPLE).expect(&rt, "memory");
    given.words = Vec::new(rt.alloc());
    given.diag_room = 7;
    let ended = run(rt.alloc(), &given).expect(&rt, "memory");
    assert_eq!(rt; ended.status, 2);
    assert!(rt; ended.diag.written() == &USAGE[..7]);
}

/// A run of `serve` over a script, with ample room.
fn served(alloc: Global, script: &[u8]) -> Result<Ends, NoMemory> {
    let words = words_of(alloc, &["serve"])?;
    let source = MemSource::new(Bytes::from_slice(alloc, script)?, Vec::new(alloc));
    let sink = MemSink::new(alloc, 100000)?;
    let diag = MemSink::new(alloc, 1000)?;
    let maker = RegexMaker::new(alloc);
    Ok(odinson(alloc, words.as_slice(), source, sink, diag, maker))
}

/// A script, its exit status, what is written of its answers, and its diagnostic.
#[derive(Clone, Copy)]
struct Case {
    script: &'static [u8],
    status: u8,
    lines: &'static [u8],
    said: &'static [u8],
}

/// A script that ends with this status before anything is answered.
fn faulty(status: u8, script: &'static [u8], said: &'static [u8]) -> Case {
    Case {
        script,
        status,
        lines: b"",
        said,
    }
}

/// A script of one unknown word, which has one byte more than 64 MiB.
#[test]
fn a_script_of_more_than_64_mebibytes_is_too_long(rt: HostRuntime) -> Result<(), Fail> {
    let script = vec![in rt.alloc(); b'x'; 67108865]?;
    let ended = served(rt.alloc(), &script)?;
    assert_eq!(rt; ended.status, 3);
    assert!(rt; ended.diag.written() == b"odinson: script line 0: TooLong\n".as_slice());
    Ok(())
}

/// Scripts that are run, and scripts that are refused.
#[test]
fn scripts_are_answered(rt: HostRuntime) -> Result<(), Fail> {
    let cases = [
        // No client asks anything.
        Case {
            script: b"",
            status: 0,
            lines: b"",
            said: b"",
        },
        // The client goes on after a refused document; with no document there is no segment.
        Case {
            script: b"client\ndoc d1 4\n1\ta\t_\t_\t_\t_\t_\t_\t_\t_\n2\tb\t_\t_\t_\t_\t_\t_\t_\t_\n3\tc\t_\t_\t_\t_\t9\t_\t_\t_\n4\td\t_\t_\t_\t_\t_\t_\t_\t_\nsettle\n",
            status: 1,
            lines: b"{\"call\":1,\"caller\":1,\"command\":\"doc\",\"kind\":\"HeadRange\",\"line\":3,\"name\":\"d1\",\"reply\":\"BadDoc\"}\n{\"call\":2,\"caller\":1,\"command\":\"settle\",\"reply\":\"ok\",\"sizes\":[]}\n",
            said: b"",
        },
        // A document whose lines end with carriage returns too, with a range and no last blank line.
        Case {
            script: b"query q i\nclient\ndoc d 9\n# sent_id = a-1\r\n# text = I haven't a clue.\r\n1\tI\tI\tPRON\tPRP\t_\t2\tnsubj\t_\t_\r\n2-3\thaven't\t_\t_\t_\t_\t_\t_\t_\t_\r\n2\thave\thave\tVERB\tVBP\t_\t0\troot\t_\t_\r\n3\tnot\tnot\tPART\tRB\t_\t2\tadvmod\t_\tSpaceAfter=Yes\r\n4\ta\ta\tDET\tDT\t_\t5\tdet\t_\t_\r\n5\tclue\tclue\tNOUN\tNN\t_\t2\tobj\t_\tSpaceAfter=No\r\n6\t.\t.\tPUNCT\t.\t_\t2\tpunct\t_\t_\r\nopen s q 5\nrun s\nprint s\n",
            status: 0,
            lines: b"{\"call\":1,\"caller\":1,\"command\":\"doc\",\"documents\":1,\"name\":\"d\",\"reply\":\"ok\"}\n{\"call\":2,\"caller\":1,\"command\":\"open\",\"documents\":1,\"limit\":5,\"name\":\"s\",\"reply\":\"ok\"}\n{\"added\":1,\"call\":3,\"caller\":1,\"command\":\"step\",\"name\":\"s\",\"reply\":\"ok\",\"round\":1,\"state\":\"going\"}\n{\"added\":0,\"call\":4,\"caller\":1,\"command\":\"step\",\"name\":\"s\",\"reply\":\"ok\",\"round\":2,\"state\":\"finished\"}\n{\"arguments\":[],\"document\":\"d\",\"end\":1,\"label\":\"Query\",\"rule\":\"query\",\"sentence\":0,\"session\":\"s\",\"start\":0,\"text\":\"I\"}\n{\"call\":5,\"caller\":1,\"command\":\"print\",\"mentions\":1,\"name\":\"s\",\"reply\":\"ok\",\"round\":2,\"state\":\"finished\"}\n",
            said: b"",
        },
        // Three clients, of which the first two let their session go, and the next ones take it.
        Case {
            script: b"query q dogs bark\nclient\ndoc d 2\n1\tDogs\t_\t_\t_\t_\t_\t_\t_\t_\n2\tbark\t_\t_\t_\t_\t_\t_\t_\t_\nopen s q 5\nstep s\nrelease s\nclient\n# nobody holds it\nrun s\nresume s\nrun s\nrelease s\nclient\nresume s\nprint s\nresume s\nsettle\n",
            status: 1,
            lines: b"{\"call\":1,\"caller\":1,\"command\":\"doc\",\"documents\":1,\"name\":\"d\",\"reply\":\"ok\"}\n{\"call\":2,\"caller\":1,\"command\":\"open\",\"documents\":1,\"limit\":5,\"name\":\"s\",\"reply\":\"ok\"}\n{\"added\":1,\"call\":3,\"caller\":1,\"command\":\"step\",\"name\":\"s\",\"reply\":\"ok\",\"round\":1,\"state\":\"going\"}\n{\"call\":4,\"caller\":1,\"command\":\"release\",\"name\":\"s\",\"reply\":\"ok\"}\n{\"call\":1,\"caller\":2,\"command\":\"step\",\"name\":\"s\",\"reply\":\"NotHeld\"}\n{\"call\":2,\"caller\":2,\"command\":\"resume\",\"documents\":1,\"limit\":5,\"mentions\":1,\"name\":\"s\",\"reply\":\"ok\",\"round\":1,\"state\":\"going\"}\n{\"added\":0,\"call\":3,\"caller\":2,\"command\":\"step\",\"name\":\"s\",\"reply\":\"ok\",\"round\":2,\"state\":\"finished\"}\n{\"call\":4,\"caller\":2,\"command\":\"release\",\"name\":\"s\",\"reply\":\"ok\"}\n{\"call\":1,\"caller\":3,\"command\":\"resume\",\"documents\":1,\"limit\":5,\"mentions\":1,\"name\":\"s\",\"reply\":\"ok\",\"round\":2,\"state\":\"finished\"}\n{\"arguments\":[],\"document\":\"d\",\"end\":2,\"label\":\"Query\",\"rule\":\"query\",\"sentence\":0,\"session\":\"s\",\"start\":0,\"text\":\"Dogs bark\"}\n{\"call\":2,\"caller\":3,\"command\":\"print\",\"mentions\":1,\"name\":\"s\",\"reply\":\"ok\",\"round\":2,\"state\":\"finished\"}\n{\"call\":3,\"caller\":3,\"command\":\"resume\",\"name\":\"s\",\"owner\":3,\"reply\":\"Busy\"}\n{\"call\":4,\"caller\":3,\"command\":\"settle\",\"reply\":\"ok\",\"sizes\":[1]}\n",
            said: b"",
        },
        // Refusals of names, limits and states; a refused order changes nothing.
        Case {
            script: b"query q dogs bark\nclient\ndoc d 2\n1\tDogs\t_\t_\t_\t_\t_\t_\t_\t_\n2\tbark\t_\t_\t_\t_\t_\t_\t_\t_\ndoc d 1\n1\tx\t_\t_\t_\t_\t_\t_\t_\t_\nopen s p 5\nopen s q 0\nopen s q 1\nopen s q 2\nstep t\nrun s\nstep s\nopen u q 5\nrun u\nstep u\n",
            status: 1,
            lines: b"{\"call\":1,\"caller\":1,\"command\":\"doc\",\"documents\":1,\"name\":\"d\",\"reply\":\"ok\"}\n{\"call\":2,\"caller\":1,\"command\":\"doc\",\"name\":\"d\",\"reply\":\"Duplicate\"}\n{\"call\":3,\"caller\":1,\"command\":\"open\",\"name\":\"s\",\"reply\":\"NoGrammar\"}\n{\"call\":4,\"caller\":1,\"command\":\"open\",\"limit\":0,\"name\":\"s\",\"reply\":\"BadLimit\"}\n{\"call\":5,\"caller\":1,\"command\":\"open\",\"documents\":1,\"limit\":1,\"name\":\"s\",\"reply\":\"ok\"}\n{\"call\":6,\"caller\":1,\"command\":\"open\",\"name\":\"s\",\"reply\":\"Taken\"}\n{\"call\":7,\"caller\":1,\"command\":\"step\",\"name\":\"t\",\"reply\":\"NoSession\"}\n{\"added\":1,\"call\":8,\"caller\":1,\"command\":\"step\",\"name\":\"s\",\"reply\":\"ok\",\"round\":1,\"state\":\"limit\"}\n{\"call\":9,\"caller\":1,\"command\":\"step\",\"name\":\"s\",\"reply\":\"AtLimit\",\"round\":1}\n{\"call\":10,\"caller\":1,\"command\":\"open\",\"documents\":1,\"limit\":5,\"name\":\"u\",\"reply\":\"ok\"}\n{\"added\":1,\"call\":11,\"caller\":1,\"command\":\"step\",\"name\":\"u\",\"reply\":\"ok\",\"round\":1,\"state\":\"going\"}\n{\"added\":0,\"call\":12,\"caller\":1,\"command\":\"step\",\"name\":\"u\",\"reply\":\"ok\",\"round\":2,\"state\":\"finished\"}\n{\"call\":13,\"caller\":1,\"command\":\"step\",\"name\":\"u\",\"reply\":\"Finished\",\"round\":2}\n",
            said: b"",
        },
        // A query with a regular expression, a path and a named capture.
        Case {
            script: b"query q [tag=/VB.*/] >nsubj (?<who>[tag=/NNS?/])\nclient\ndoc d 3\n1\tDogs\tdog\tNOUN\tNNS\t_\t2\tnsubj\t_\t_\n2\tbark\tbark\tVERB\tVBP\t_\t0\troot\t_\t_\n3\t.\t.\tPUNCT\t.\t_\t2\tpunct\t_\t_\nopen s q 1\nrun s\nprint s\n",
            status: 0,
            lines: b"{\"call\":1,\"caller\":1,\"command\":\"doc\",\"documents\":1,\"name\":\"d\",\"reply\":\"ok\"}\n{\"call\":2,\"caller\":1,\"command\":\"open\",\"documents\":1,\"limit\":1,\"name\":\"s\",\"reply\":\"ok\"}\n{\"added\":1,\"call\":3,\"caller\":1,\"command\":\"step\",\"name\":\"s\",\"reply\":\"ok\",\"round\":1,\"state\":\"limit\"}\n{\"arguments\":[{\"end\":1,\"label\":null,\"name\":\"who\",\"start\":0,\"text\":\"Dogs\"}],\"document\":\"d\",\"end\":1,\"label\":\"Query\",\"rule\":\"query\",\"sentence\":0,\"session\":\"s\",\"start\":0,\"text\":\"Dogs\"}\n{\"call\":4,\"caller\":1,\"command\":\"print\",\"mentions\":1,\"name\":\"s\",\"reply\":\"ok\",\"round\":1,\"state\":\"limit\"}\n",
            said: b"",
        },
        // A session over no document has one round, which finds nothing.
        Case {
            script: b"query q a\nclient\nopen s q 5\nrun s\nprint s\n",
            status: 0,
            lines: b"{\"call\":1,\"caller\":1,\"command\":\"open\",\"documents\":0,\"limit\":5,\"name\":\"s\",\"reply\":\"ok\"}\n{\"added\":0,\"call\":2,\"caller\":1,\"command\":\"step\",\"name\":\"s\",\"reply\":\"ok\",\"round\":1,\"state\":\"finished\"}\n{\"call\":3,\"caller\":1,\"command\":\"print\",\"mentions\":0,\"name\":\"s\",\"reply\":\"ok\",\"round\":1,\"state\":\"finished\"}\n",
            said: b"",
        },
        // A rule whose mentions feed it: of four words each is found, then two pairs, then the first
        // three. The third round is the last that the session may have.
        Case {
            script: b"grammar g 11\nrules:\n- name: one\n  label: P\n  type: basic\n  priority: 1\n  pattern: a\n- name: more\n  label: P\n  type: basic\n  priority: 2+\n  pattern: \"@P a\"\nclient\ndoc d 4\n1\ta\t_\t_\t_\t_\t_\t_\t_\t_\n2\ta\t_\t_\t_\t_\t_\t_\t_\t_\n3\ta\t_\t_\t_\t_\t_\t_\t_\t_\n4\ta\t_\t_\t_\t_\t_\t_\t_\t_\nopen s g 3\nrun s\nstep s\n",
            status: 1,
            lines: b"{\"call\":1,\"caller\":1,\"command\":\"doc\",\"documents\":1,\"name\":\"d\",\"reply\":\"ok\"}\n{\"call\":2,\"caller\":1,\"command\":\"open\",\"documents\":1,\"limit\":3,\"name\":\"s\",\"reply\":\"ok\"}\n{\"added\":4,\"call\":3,\"caller\":1,\"command\":\"step\",\"name\":\"s\",\"reply\":\"ok\",\"round\":1,\"state\":\"going\"}\n{\"added\":2,\"call\":4,\"caller\":1,\"command\":\"step\",\"name\":\"s\",\"reply\":\"ok\",\"round\":2,\"state\":\"going\"}\n{\"added\":1,\"call\":5,\"caller\":1,\"command\":\"step\",\"name\":\"s\",\"reply\":\"ok\",\"round\":3,\"state\":\"limit\"}\n{\"call\":6,\"caller\":1,\"command\":\"step\",\"name\":\"s\",\"reply\":\"AtLimit\",\"round\":3}\n",
            said: b"",
        },
        // A rule that no round before the second runs: the first finds nothing and does not end it.
        Case {
            script: b"grammar g 6\nrules:\n- name: late\n  label: P\n  type: basic\n  priority: 2\n  pattern: a\nclient\ndoc d 1\n1\ta\t_\t_\t_\t_\t_\t_\t_\t_\nopen s g 5\nrun s\n",
            status: 0,
            lines: b"{\"call\":1,\"caller\":1,\"command\":\"doc\",\"documents\":1,\"name\":\"d\",\"reply\":\"ok\"}\n{\"call\":2,\"caller\":1,\"command\":\"open\",\"documents\":1,\"limit\":5,\"name\":\"s\",\"reply\":\"ok\"}\n{\"added\":0,\"call\":3,\"caller\":1,\"command\":\"step\",\"name\":\"s\",\"reply\":\"ok\",\"round\":1,\"state\":\"going\"}\n{\"added\":1,\"call\":4,\"caller\":1,\"command\":\"step\",\"name\":\"s\",\"reply\":\"ok\",\"round\":2,\"state\":\"going\"}\n{\"added\":0,\"call\":5,\"caller\":1,\"command\":\"step\",\"name\":\"s\",\"reply\":\"ok\",\"round\":3,\"state\":\"finished\"}\n",
            said: b"",
        },
        // The first grammar that cannot be made is told, also where a later one's text is none.
        faulty(
            4,
            b"query q /(/\nquery r [colour=x]\nclient\n",
            b"odinson: grammar q: RegexRefused rule 1 number 1\n",
        ),
        // The second grammar is not accepted, nor is the third.
        faulty(
            4,
            b"query q a\nquery r [ward=a]\ngrammar g 1\nrules:\nclient\nsettle\n",
            b"odinson: grammar r: Pattern rule 1 at 1 kind UnknownField\n",
        ),
        faulty(
            4,
            b"query q a\nquery r /(/\nclient\n",
            b"odinson: grammar r: RegexRefused rule 1 number 1\n",
        ),
        faulty(
            4,
            b"grammar g 1\nrules:\nclient\nsettle\n",
            b"odinson: grammar g: Yaml line 1 kind NoRules\n",
        ),
        // Scripts of which each has two faults, of which the first is told.

        faulty(
            3,
            b"client\n#\xff\nx\n",
            b"odinson: script line 2: NotUtf8\n",
        ),
        faulty(
            3,
            b"grammar g 2\na\n\xff\nx\n",
            b"odinson: script line 3: NotUtf8\n",
        ),
        faulty(3, b"Client\nstep\n", b"odinson: script line 1: BadWord\n"),
        faulty(
            3,
            b"client\nquery q\nx\n",
            b"odinson: script line 2: LateHead\n",
        ),
        faulty(
            3,
            b"query q a\ndoc d1 7\nx\n",
            b"odinson: script line 2: NoClient\n",
        ),
        faulty(3, b"query q\nx\n", b"odinson: script line 1: Shape\n"),
        faulty(
            3,
            b"client\nopen s ? x\nx\n",
            b"odinson: script line 2: BadName\n",
        ),
        faulty(
            3,
            b"client\ndoc d 01\nx\n",
            b"odinson: script line 2: BadNumber\n",
        ),
        faulty(
            3,
            b"query q a\ngrammar q 9\nx\n",
            b"odinson: script line 2: SameHead\n",
        ),
        faulty(
            3,
            b"grammar g 3\na\n\xff\n",
            b"odinson: script line 1: ShortBlock\n",
        ),
        faulty(
            3,
            b"client\nclient\nclient\nclient\nclient\nclient\nclient\nclient\nclient\nx\n",
            b"odinson: script line 9: TooMany\n",
        ),
    ];
    for case in &cases {
        let ended = served(rt.alloc(), case.script)?;
        assert_eq!(rt; ended.status, case.status);
        assert!(rt; ended.sink.written() == case.lines);
        assert!(rt; ended.diag.written() == case.said);
    }
    Ok(())
}

/// What is said of a script whose maker refuses one call, numbered from 0.
fn said_with_a_refusal(
    alloc: Global,
    script: &[u8],
    call: u32,
) -> Result<Ended<MemSource, MemSink, MemSink, FailMaker<RegexMaker>>, NoMemory> {
    let words = words_of(alloc, &["serve"])?;
    let source = MemSource::new(Bytes::from_slice(alloc, script)?, Vec::new(alloc));
    let sink = MemSink::new(alloc, 1000)?;
    let diag = MemSink::new(alloc, 1000)?;
    let mut failing = Vec::new(alloc);
    failing.push(call)?;
    let maker = FailMaker::new(alloc, RegexMaker::new(alloc), failing);
    Ok(odinson(alloc, words.as_slice(), source, sink, diag, maker))
}

/// Expressions are made head by head, and in the order of a head's text; one that two heads share is
/// made for each of them.
#[test]
fn a_refused_expression_is_told(rt: HostRuntime) -> Result<(), Fail> {
    let shared = b"query q /a/\nquery r /a/\nclient\n".as_slice();
    let several = b"query q /a/ [tag=/b/] >/c/ /a/\nclient\n".as_slice();
    let rows: [(&[u8], u32, &[u8]); 5] = [
        (
            shared,
            0,
            b"odinson: grammar q: RegexRefused rule 1 number 1\n",
        ),
        (
            shared,
            1,
            b"odinson: grammar r: RegexRefused rule 1 number 1\n",
        ),
        (
            several,
            0,
            b"odinson: grammar q: RegexRefused rule 1 number 1\n",
        ),
        (
            several,
            1,
            b"odinson: grammar q: RegexRefused rule 1 number 2\n",
        ),
        (
            several,
            2,
            b"odinson: grammar q: RegexRefused rule 1 number 3\n",
        ),
    ];
    for (script, call, said) in rows {
        let ended = said_with_a_refusal(rt.alloc(), script, call)?;
        assert_eq!(rt; ended.status, 4, "call {call} of {script:?}");
        assert!(rt; ended.diag.written() == said, "call {call} of {script:?}");
    }
    Ok(())
}

/// An order for a document of one sentence of so many words, each of which governs the next.
fn words_order(alloc: Global, name: &str, count: u32) -> Result<String, AllocError> {
    let mut order = format!(in alloc; "doc {name} {count}\n")?;
    for id in 0..count {
        let number = id as u64 + 1;
        let line = format!(in alloc; "{number}\tw\t_\t_\t_\t_\t{id}\tdep\t_\t_\n")?;
        order.push_str(line.as_str())?;
    }
    Ok(order)
}

/// The lines of documents and orders that are met at limits, each with the line that answers it.
const AT_LIMITS: [&[u8]; 4] = [
    b"{\"call\":52,\"caller\":1,\"command\":\"doc\",\"kind\":\"TooManyTokens\",\"line\":2001,\"name\":\"e\",\"reply\":\"BadDoc\"}",
    b"{\"call\":54,\"caller\":1,\"command\":\"step\",\"count\":1999000,\"document\":0,\"name\":\"s\",\"reply\":\"Crowded\",\"rule\":1,\"sentence\":0}",
    b"{\"call\":56,\"caller\":1,\"command\":\"step\",\"name\":\"t\",\"reply\":\"TooMany\",\"weight\":100001}",
    b"{\"call\":183,\"caller\":1,\"command\":\"open\",\"count\":128,\"name\":\"o126\",\"reply\":\"NoRoom\"}",
];

/// Whether a text has this line.
fn has_line(text: &[u8], line: &[u8]) -> bool {
    text.split(|byte| *byte == b'\n').any(|other| other == line)
}

/// A script that meets limits: of the words of a sentence, of what a rule finds on one, of what a
/// session's mentions weigh, and of sessions.
fn at_limits(alloc: Global) -> Result<String, AllocError> {
    let mut script = String::from_str(alloc, "query q [] >>+ []\nquery w []\nclient\n")?;
    for number in 0..51 {
        let name = format!(in alloc; "d{number}")?;
        script.push_str(words_order(alloc, name.as_str(), 2000)?.as_str())?;
    }
    script.push_str(words_order(alloc, "e", 2001)?.as_str())?;
    script.push_str("open s q 5\nstep s\nopen t w 5\nstep t\n")?;
    for number in 0..127 {
        let order = format!(in alloc; "open o{number} w 5\n")?;
        script.push_str(order.as_str())?;
    }
    Ok(script)
}

#[test]
fn what_is_too_much_is_refused(rt: HostRuntime) -> Result<(), Fail> {
    let script = at_limits(rt.alloc())?;
    let ended = served(rt.alloc(), script.as_bytes())?;
    assert_eq!(rt; ended.status, 1);
    for line in &AT_LIMITS {
        assert!(rt; has_line(ended.sink.written(), line), "{line:?}");
    }
    Ok(())
}

/// A sentence of the word `bark`.
const BARK: &[u8] = b"1\tbark\t_\t_\t_\t_\t_\t_\t_\t_\n\n";

/// The refusal of a document, if it is refused, after it was committed otherwise.
fn refused(
    workspace: &mut Workspace,
    alloc: Global,
    number: u32,
    body: &[u8],
) -> Result<Option<Refusal>, NoMemory> {
    let mut maker = RegexMaker::new(alloc);
    let Ok(mut heads) = make_heads(alloc, List::new(alloc), &mut maker) else {
        return Err(NoMemory);
    };
    let command = Command::AddDoc {
        name: Text::from_string(format!(in alloc; "d{number}")?),
        body: Bytes::from_slice(alloc, body)?,
    };
    let Answer { reply, change } = workspace.answer(alloc, &mut heads, 1, &command)?;
    workspace.change(alloc, change)?;
    match reply {
        Reply::Refused(refusal) => Ok(Some(refusal)),
        _ => Ok(None),
    }
}

/// Of 100,001 documents the last has no room.
#[test]
fn there_is_room_for_100000_documents(rt: HostRuntime) -> Result<(), Fail> {
    let mut workspace = Workspace::new(rt.alloc());
    for number in 0..100001 {
        let refusal = refused(&mut workspace, rt.alloc(), number, BARK)?;
        let full = (number == 100000).then_some(Refusal::Full {
            documents: 100000,
            bytes: 2400000,
        });
        assert_eq!(rt; refusal, full, "document {number}");
    }
    Ok(())
}

/// Documents of 128 MiB together have room, and not one of 24 bytes more.
#[test]
fn there_is_room_for_128_mebibytes(rt: HostRuntime) -> Result<(), Fail> {
    let mut workspace = Workspace::new(rt.alloc());
    let mut large = vec![in rt.alloc(); b'#'; 1048576 - 25]?;
    large.push(b'\n')?;
    large.extend_from_slice(BARK)?;
    for number in 0..128 {
        let refusal = refused(&mut workspace, rt.alloc(), number, &large)?;
        assert_eq!(rt; refusal, None, "document {number}");
    }
    let refusal = refused(&mut workspace, rt.alloc(), 128, BARK)?;
    let full = Refusal::Full {
        documents: 128,
        bytes: 134217728,
    };
    assert_eq!(rt; refusal, Some(full));
    Ok(())
}
