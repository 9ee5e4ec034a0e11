// Word lines without a fault.
ghost use Rattle.std.specs.Prelude.{◌≡◌, ◌<◌, ◌≤◌, Some, None, IfOk, IfErr};
ghost use Rattle.od_document.specs.Columns.{governor_of};
ghost use Rattle.od_document.specs.Faults.{word_fault, fault_at};
ghost use Rattle.od_conllu.specs.Seen.{columns_seen};

use crate::column::governor;
use crate::line_columns::LineColumns;
use od_document::conllu::{ConlluFault, ConlluKind};
use od_document::limits::SENTENCE_TOKENS;

/// A word line without a fault.
#[derive(Debug, Drop)]
pub struct WordLine<'a> {
    /// The number of the line, from 1.
    pub line: u32,
    /// The number that HEAD names, 0 for none.
    pub head: u32,
    pub columns: LineColumns<'a>,
    pub ghost named: { governor_of columns.head.now ≡ Some head },
}

/// The number that HEAD names, where the word may stand behind `count` words of its sentence.
fn word_head(count: u32, id: u32, columns: &LineColumns<'_>) -> Result<u32, ConlluKind>
    requires { count ≤ SENTENCE_TOKENS }
    ensures ok { IfOk result (λ head. word_fault count id (columns_seen columns.now) ≡ None) }
    ensures head { IfOk result (λ head. governor_of columns.now.head.now ≡ Some head) }
    ensures bad { IfErr result (λ kind.
        word_fault count id (columns_seen columns.now) ≡ Some kind) }
{
    if id != count + 1 {
        return Err(ConlluKind::IdOrder);
    }
    if SENTENCE_TOKENS <= count {
        return Err(ConlluKind::TooManyTokens);
    }
    if columns.form.is_empty() {
        return Err(ConlluKind::EmptyForm);
    }
    match governor(columns.head) {
        Some(head) => Ok(head),
        None => Err(ConlluKind::BadHead),
    }
}

/// The word line of this number that has `count` words before it in its sentence.
pub fn word_line(
    line: u32,
    count: u32,
    id: u32,
    columns: LineColumns<'_>,
) -> Result<WordLine<'_>, ConlluFault>
    requires { count ≤ SENTENCE_TOKENS }
    ensures ok { IfOk result (λ word. word_fault count id (columns_seen columns.entry) ≡ None) }
    ensures few { IfOk result (λ word. count < SENTENCE_TOKENS) }
    ensures word { IfOk result (λ word. (word.line ≡ line) × (word.columns ≡ columns.entry)) }
    ensures bad { IfErr result (λ f.
        fault_at line (word_fault count id (columns_seen columns.entry)) ≡ Some f) }
{
    match word_head(count, id, &columns) {
        Ok(head) => Ok(WordLine {
            line,
            head,
            columns,
        }),
        Err(kind) => Err(ConlluFault { line, kind }),
    }
}
