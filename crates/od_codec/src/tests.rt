ghost use Rattle.std.specs.Prelude.{IfOk};
ghost use Rattle.od_stored.specs.Mentions.{IsWritable};

use crate::reading::decode;
use crate::writing::encode;
use od_extraction::mention::{Mention, Part};
use od_stored::fault::CodecFault;
use od_text::list::List;
use od_text::text::{NoMemory, Text};
use std::alloc::Global;
use std::test::Fail;

/// What a query finds at tokens 1 and 2 of the first sentence.
fn found(alloc: Global) -> Result<Mention, NoMemory>
    ensures { IfOk result IsWritable }
{
    Ok(Mention {
        document: 0,
        sentence: 0,
        start: 1,
        end: 3,
        label: Text::from_str(alloc, "Query")?,
        rule: Text::from_str(alloc, "query")?,
        parts: List::new(alloc),
    })
}

/// Its bytes as a list of one.
const FOUND: [u8; 19] = [
    1, 1, 0, 0, 1, 3, 5, 0x51, 0x75, 0x65, 0x72, 0x79, 5, 0x71, 0x75, 0x65, 0x72, 0x79, 0,
];

/// A list of one mention with a capture of no token and an argument with a label.
const NAMED: [u8; 28] = [
    1, 1, 128, 1, 2, 171, 2, 173, 2, 1, 69, 0, 2, 1, 99, 0, 172, 2, 172, 2, 3, 119, 104, 111, 1, 0,
    3, 4,
];

#[test]
fn lists_are_written_in_one_form(rt: HostRuntime) -> Result<(), Fail> {
    let mentions = [found(rt.alloc())?];
    let bytes = encode(rt.alloc(), &mentions)?;
    assert_eq!(rt; bytes.get(), FOUND.as_slice());
    let none = encode(rt.alloc(), &[])?;
    assert_eq!(rt; none.get(), [1, 0].as_slice());
    Ok(())
}

#[test]
fn what_is_written_is_read(rt: HostRuntime) -> Result<(), Fail> {
    let list = decode(rt.alloc(), &FOUND)?;
    assert_eq!(rt; list.len(), 1);
    let wanted = found(rt.alloc())?;
    for mention in list.get() {
        assert!(rt; mention.same(&wanted));
    }
    Ok(())
}

#[test]
fn parts_are_read_in_their_order(rt: HostRuntime) -> Result<(), Fail> {
    let alloc = rt.alloc();
    let capture = Part {
        name: Text::from_str(alloc, "c")?,
        label: None,
        start: 300,
        end: 300,
    };
    let argument = Part {
        name: Text::from_str(alloc, "who")?,
        label: Some(Text::new(alloc)),
        start: 3,
        end: 4,
    };
    let list = decode(alloc, &NAMED)?;
    assert_eq!(rt; list.len(), 1);
    for mention in list.get() {
        assert_eq!(rt; mention.document, 128);
        assert_eq!(rt; mention.start, 299);
        assert_eq!(rt; mention.end, 301);
        match mention.parts.get() {
            [first, second] => {
                assert!(rt; first.same(&capture));
                assert!(rt; second.same(&argument));
            }
            _ => assert!(rt; false, "two parts"),
        }
    }
    Ok(())
}

/// The fault with which bytes are refused.
fn fault(alloc: Global, bytes: &[u8]) -> Option<CodecFault> {
    decode(alloc, bytes).err()
}

#[test]
fn each_fault_stands_at_its_item(rt: HostRuntime) {
    let cases: [(&[u8], CodecFault); 16] = [
        (&[], CodecFault::Short { at: 0 }),
        (&[2, 0], CodecFault::BadTag { at: 0 }),
        (&[1, 0x81, 0], CodecFault::BadNumber { at: 1 }),
        (
            &[1, 0x80, 0x80, 0x80, 0x80, 0x10],
            CodecFault::BadNumber { at: 1 },
        ),
        (
            &[1, 0x80, 0x80, 0x80, 0x80, 0x80],
            CodecFault::BadNumber { at: 1 },
        ),
        (&[1, 0x80, 0x80, 0x80, 0x80], CodecFault::Short { at: 5 }),
        // 2^32 - 1 mentions are announced over ten bytes.
        (
            &[1, 0xff, 0xff, 0xff, 0xff, 0x0f, 0, 0, 0, 1],
            CodecFault::Short { at: 10 },
        ),
        (&FOUND[..18], CodecFault::Short { at: 18 }),
        (&[1, 0, 0], CodecFault::Trailing { at: 2 }),
        (&[1, 1, 0, 0, 3, 3, 9], CodecFault::BadSpan { at: 5 }),
        (
            &[1, 1, 0, 0, 0, 1, 0, 0, 1, 0, 0, 4, 3],
            CodecFault::BadSpan { at: 12 },
        ),
        (&[1, 1, 0, 0, 0, 1, 1, 0xff], CodecFault::BadText { at: 6 }),
        (&[1, 1, 0, 0, 0, 1, 2, 0xff], CodecFault::Short { at: 8 }),
        (
            &[1, 1, 0, 0, 0, 1, 0, 0, 1, 0, 2],
            CodecFault::BadTag { at: 10 },
        ),
        (
            &[1, 1, 0, 0, 0, 1, 0, 0, 1, 0, 1, 2, 0x80, 0x80],
            CodecFault::BadText { at: 11 },
        ),
        (
            &[1, 1, 0, 0, 0, 1, 0, 0, 0x80, 0],
            CodecFault::BadNumber { at: 8 },
        ),
    ];
    for (bytes, wanted) in &cases {
        assert_eq!(rt; fault(rt.alloc(), bytes), Some(*wanted));
    }
}
