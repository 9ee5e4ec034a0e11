use crate::{ReadDocFault, read_doc};
use od_document::conllu::{ConlluFault, ConlluKind};
use od_document::limits::{DOCUMENT_BYTES, NODE_NUMBERS, SENTENCE_EDGES, SENTENCE_TOKENS};
use std::alloc::Global;
use std::test::Fail;

fn fault_of(alloc: Global, bytes: &[u8]) -> Option<ConlluFault> {
    match read_doc(alloc, "d", bytes) {
        Ok(_) => None,
        Err(ReadDocFault::Bad(fault)) => Some(fault),
        Err(ReadDocFault::NoMemory) => None,
    }
}

#[test]
fn reads_a_sentence_with_comments_a_range_and_crlf(rt: HostRuntime) -> Result<(), Fail> {
    let text = "# sent_id = a-1\r
# text = I haven't a clue.\r
1\tI\tI\tPRON\tPRP\t_\t2\tnsubj\t_\t_\r
2-3\thaven't\t_\t_\t_\t_\t_\t_\t_\t_\r
2\thave\thave\tVERB\tVBP\t_\t0\troot\t_\t_\r
3\tnot\tnot\tPART\tRB\t_\t2\tadvmod\t_\tSpaceAfter=Yes\r
4\ta\ta\tDET\tDT\t_\t5\tdet\t_\t_\r
5\tclue\tclue\tNOUN\tNN\t_\t2\tobj\t_\tSpaceAfter=No\r
6\t.\t.\tPUNCT\t.\t_\t2\tpunct\t_\t_";
    let doc = read_doc(rt.alloc(), "a", text.as_bytes())?;
    let sentences = doc.sentences.get();
    assert_eq!(rt; sentences.len(), 1);
    let tokens = sentences[0].tokens.get();
    assert_eq!(rt; tokens.len(), 6);
    assert_eq!(rt; tokens[0].norm.get(), "i");
    let edges = sentences[0].edges.get();
    assert_eq!(rt; edges.len(), 5);
    assert_eq!(rt; (edges[2].governor, edges[2].dependent), (4, 3));
    assert_eq!(rt; edges[2].label.get(), "det");
    Ok(())
}

#[test]
fn limits_are_those_of_the_documentation(rt: HostRuntime) {
    assert_eq!(rt; DOCUMENT_BYTES, 1048576);
    assert_eq!(rt; SENTENCE_TOKENS, 2000);
    assert_eq!(rt; SENTENCE_EDGES, 1048576);
    assert_eq!(rt; NODE_NUMBERS, 1000000);
}

#[test]
fn memory_suffices_for_a_document_at_the_limits(rt: HostRuntime) -> Result<(), Fail> {
    let alloc = rt.alloc();
    let mut text = String::new(alloc);
    for id in 1..2001u32 {
        let line = format!(in alloc; "{id}\tw\t_\t_\t_\t_\t1\tdep\t_\t_\n")?;
        text.push_str(line.as_str())?;
    }
    let mut bytes = text.into_bytes();
    bytes.resize(1048576, b'#')?;
    let doc = read_doc(alloc, "d", &bytes)?;
    let sentences = doc.sentences.get();
    assert_eq!(rt; sentences.len(), 1);
    assert_eq!(rt; sentences[0].tokens.get().len(), 2000);
    assert_eq!(rt; sentences[0].edges.get().len(), 2000);
    Ok(())
}

#[test]
fn names_the_first_fault(rt: HostRuntime) {
    let rows = [
        ("# x", 1, ConlluKind::Empty),
        ("\u{feff}", 1, ConlluKind::Empty),
        ("1\ta\t_\t_\t_\t_\t0\t_\t_", 1, ConlluKind::Columns),
        ("# x\n01\ta\t_\t_\t_\t_\t0\t_\t_\t_", 2, ConlluKind::BadId),
        ("2-1\ta\t_\t_\t_\t_\t0\t_\t_\t_", 1, ConlluKind::BadId),
        ("2\ta\t_\t_\t_\t_\t0\t_\t_\t_", 1, ConlluKind::IdOrder),
        ("1\t\t_\t_\t_\t_\tx\t_\t_\t_", 1, ConlluKind::EmptyForm),
        ("1\ta\t_\t_\t_\t_\t00\t_\t_\t_", 1, ConlluKind::BadHead),
        (
            "1\ta\t_\t_\t_\t_\t2\t_\t_\t_\n1-2\tx\t_\t_\t_\t_\t_\t_\t_\t_\n\n2",
            1,
            ConlluKind::HeadRange,
        ),
    ];
    for (text, line, kind) in rows {
        assert_eq!(rt;
            fault_of(rt.alloc(), text.as_bytes()),
            Some(ConlluFault { line, kind }),
            "in {text}"
        );
    }
    let bad = b"1\ta\t_\t_\t_\t_\t0\t_\t_\t_\n\n\xff";
    assert_eq!(rt;
        fault_of(rt.alloc(), bad),
        Some(ConlluFault {
            line: 3,
            kind: ConlluKind::NotUtf8
        })
    );
}
