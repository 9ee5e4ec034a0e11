// Reading a text line by line.
ghost use Rattle.std.specs.Prelude.{◌≡◌, ◌<◌, ◌≤◌, [], Some, None, IfOk, IfErr, OnOk, length};
ghost use Rattle.std.specs.Str.Lossy.{utf8_valid_len};
ghost use Rattle.od_document.specs.Lines.{Line, without_mark, blocks_of};
ghost use Rattle.od_document.specs.Faults.{bad_byte_line, heads_fault, blocks_fault, doc_fault};
ghost use Rattle.od_document.specs.Building.{document_of};
ghost use Rattle.od_document.specs.Reading.{Reads};
ghost use Rattle.od_conllu.specs.Lines.{IfBad};
ghost use Rattle.od_conllu.specs.Steps.{Adds, Steps, step_fault, AreRead, AreSentences};

use crate::draft::Draft;
use crate::fault::ReadDocFault;
use bstr::ByteSlice;
use od_document::conllu::{ConlluFault, ConlluKind};
use od_document::doc::Doc;
use od_document::limits::DOCUMENT_BYTES;
use od_document::sentence::Sentence;
use od_text::list::List;
use od_text::text::Text;
use std::alloc::Global;

/// The bytes after a byte order mark, which may stand at the very beginning.
fn after_mark(bytes: &[u8]) -> &[u8]
    ensures { result.now ≡ without_mark bytes.now }
{
    if bytes.starts_with(&[239, 187, 191]) {
        return &bytes[3..];
    }
    bytes
}

/// The bytes as a text, or a fault at the line of the first byte that is not UTF-8.
fn text_of(bytes: &[u8]) -> Result<&str, ConlluFault>
    requires { length bytes.now ≤ DOCUMENT_BYTES }
    ensures text { IfOk result (λ s. s.now ≡ bytes.now) }
    ensures ok { IfOk result (λ s. utf8_valid_len bytes.now ≡ length bytes.now) }
    ensures bad { IfErr result (λ f. utf8_valid_len bytes.now < length bytes.now) }
    ensures line { IfErr result (λ f. f.line ≡ bad_byte_line bytes.now) }
    ensures kind { IfErr result (λ f. f.kind ≡ ConlluKind.NotUtf8) }
{
    match bytes.to_str() {
        Ok(text) => Ok(text),
        Err(error) => {
            let before = &bytes[..error.valid_up_to()];
            let breaks = before.iter().filter(|b| **b == b'\n').count();
            Err(ConlluFault {
                line: 1 + breaks as u32,
                kind: ConlluKind::NotUtf8,
            })
        }
    }
}

/// Ends the sentence, which is kept where it has a word.
fn end_sentence(
    alloc: Global,
    sentences: &mut Vec<Sentence>,
    draft: &mut Draft<'_>,
) -> Result<(), ReadDocFault>
    ensures ok { OnOk result (heads_fault (length draft.old) draft.old ≡ None) }
    ensures kept { OnOk result (Adds sentences.old.items draft.old sentences.new.items) }
    ensures left { OnOk result (draft.new ≡ []) }
    ensures bad { IfErr result (λ e. IfBad e (λ f.
        heads_fault (length draft.old) draft.old ≡ Some f)) }
{
    if let Some(sentence) = draft.end(alloc)? {
        sentences.push(sentence)?;
    }
    Ok(())
}

/// Reads on by one line, whose number is given; the line may be empty.
fn take_line<'a>(
    alloc: Global,
    sentences: &mut Vec<Sentence>,
    draft: &mut Draft<'a>,
    number: u32,
    text: &'a str,
) -> Result<(), ReadDocFault>
    ensures ok { let line : Line = record { number = number; text = text.now } in
        OnOk result (Steps line sentences.old.items draft.old sentences.new.items draft.new) }
    ensures bad { let line : Line = record { number = number; text = text.now } in
        IfErr result (λ e. IfBad e (λ f. step_fault line draft.old ≡ Some f)) }
{
    if text.is_empty() {
        return end_sentence(alloc, sentences, draft);
    }
    draft.line(number, text)
}

/// The sentences of a text.
fn read_text(alloc: Global, text: &str) -> Result<Vec<Sentence>, ReadDocFault>
    requires { length text.now ≤ DOCUMENT_BYTES }
    ensures ok { IfOk result (λ v. AreRead (blocks_of text.now) v.items) }
    ensures bad { IfErr result (λ e. IfBad e (λ f. blocks_fault (blocks_of text.now) ≡ Some f)) }
{
    let mut sentences = Vec::new(alloc);
    let mut draft = Draft::new(alloc);
    let mut number = 1u32;
    for line in text.lines() {
        take_line(alloc, &mut sentences, &mut draft, number, line)?;
        number += 1;
    }
    end_sentence(alloc, &mut sentences, &mut draft)?;
    Ok(sentences)
}

/// The sentences of a document.
fn read_sentences(alloc: Global, bytes: &[u8]) -> Result<Vec<Sentence>, ReadDocFault>
    ensures ok { IfOk result (λ v. AreSentences bytes.now v.items) }
    ensures bad { IfErr result (λ e. IfBad e (λ f. doc_fault bytes.now ≡ Some f)) }
{
    if DOCUMENT_BYTES < bytes.len() {
        return Err(ReadDocFault::Bad(ConlluFault {
            line: 1,
            kind: ConlluKind::TooLong,
        }));
    }
    let text = text_of(after_mark(bytes))?;
    let sentences = read_text(alloc, text)?;
    if sentences.is_empty() {
        return Err(ReadDocFault::Bad(ConlluFault {
            line: 1,
            kind: ConlluKind::Empty,
        }));
    }
    Ok(sentences)
}

/// Reads a document in CoNLL-U: bytes of at most 1 MiB in UTF-8, whose lines each end with LF or
/// CRLF, or with the bytes. A byte order mark at the very beginning is skipped. A line that begins
/// with `#` is a comment, an empty line ends a sentence, and every other line has ten columns
/// between tabs. Of these ID, FORM, LEMMA, UPOS, XPOS, HEAD, DEPREL and MISC are read; range lines
/// and empty nodes give nothing.
///
/// `Bad` carries the first fault. Faults are tested for the whole first (`TooLong`, `NotUtf8`),
/// then sentence by sentence, in each line by line and at its end the heads (`HeadRange`), and at
/// last that there is a sentence (`Empty`).
pub fn read_doc(alloc: Global, name: &str, bytes: &[u8]) -> Result<Doc, ReadDocFault>
    ensures reads { IfOk result (λ doc. Reads name.now bytes.now doc) }
    ensures document { IfOk result (λ doc. document_of name.now bytes.now ≡ Some doc) }
    ensures bad { IfErr result (λ e. IfBad e (λ f. doc_fault bytes.now ≡ Some f)) }
{
    let sentences = read_sentences(alloc, bytes)?;
    let name = Text::from_str(alloc, name)?;
    Ok(Doc {
        name,
        size: bytes.len() as u32,
        sentences: List::from_vec(sentences),
    })
}
