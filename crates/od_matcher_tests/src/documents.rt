//! Documents in CoNLL-U, as numbers of their tables.
ghost use Rattle.std.specs.Prelude.{◌≡◌, IfOk};
ghost use Rattle.std.specs.Arc.{arc_value};
ghost use Rattle.od_text.specs.Lists.{Each};

use od_conllu::read_doc;
use od_extraction::mention::{Labelled, Span};
use od_postings::IndexedDoc;
use od_text::list::List;
use od_text::text::{NoMemory, Text};
use std::alloc::Global;

/// The document that a text is.
pub fn indexed(alloc: Global, text: &str) -> Result<IndexedDoc, NoMemory>
    ensures { IfOk result (λ d. Each (λ s. s.table ≡ arc_value d.table) d.sentences.items) }
{
    let Ok(doc) = read_doc(alloc, "d", text.as_bytes()) else {
        return Err(NoMemory);
    };
    let indexed = IndexedDoc::build(alloc, &doc)?;
    Ok(indexed)
}

/// A sentence of the words between blanks. Each of them but the first depends on the one before it.
pub fn chain_of(alloc: Global, words: &str) -> Result<String, NoMemory> {
    let mut text = String::new(alloc);
    let mut head = 0u32;
    for word in words.split(' ') {
        let id = head.saturating_add(1);
        let line = format!(in alloc; "{id}\t{word}\t{word}\tX\tX\t_\t{head}\tdep\t_\t_\n")?;
        text.push_str(line.as_str())?;
        head = id;
    }
    Ok(text)
}

/// A word so many times, with blanks between, and then another one.
pub fn many(alloc: Global, word: &str, times: u32, last: &str) -> Result<String, NoMemory> {
    let mut words = String::new(alloc);
    for _k in 0..times {
        words.push_str(word)?;
        words.push(' ')?;
    }
    words.push_str(last)?;
    Ok(words)
}

/// A label, and the span that has it.
pub type LabelRow = (&'static str, u32, u32);

/// Spans with labels.
pub fn labelled(alloc: Global, rows: &[LabelRow]) -> Result<List<Labelled>, NoMemory> {
    let mut labelled = List::new(alloc);
    for (label, start, end) in rows {
        labelled.push(Labelled {
            label: Text::from_str(alloc, label)?,
            span: Span {
                start: *start,
                end: *end,
            },
        })?;
    }
    Ok(labelled)
}
