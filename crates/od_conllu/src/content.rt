// What a line holds.
ghost use Rattle.std.specs.Prelude.{◌≡◌, ◌<◌, length};
ghost use Rattle.od_document.specs.Words.{content_of};
ghost use Rattle.od_conllu.specs.Lines.{content_seen};

use crate::column::{is_range_or_empty_node, word_id};
use crate::line_columns::{LineColumns, line_columns};
use od_document::conllu::ConlluKind;

/// What a line that is not empty holds.
#[derive(Clone, Copy, Debug)]
pub enum Content<'a> {
    /// A comment, a range line or an empty node.
    NoWord,
    /// A word with its ID.
    Word(u32, LineColumns<'a>),
    /// No line of CoNLL-U.
    Wrong(ConlluKind),
}

/// What a line that is not empty holds.
pub fn line_content(text: &str) -> Content<'_>
    requires { 0 < length text.now }
    ensures { content_of text.now ≡ content_seen result }
{
    if text.as_bytes()[0] == b'#' {
        return Content::NoWord;
    }
    let Some(columns) = line_columns(text) else {
        return Content::Wrong(ConlluKind::Columns);
    };
    let Some(id) = word_id(columns.id) else {
        if is_range_or_empty_node(columns.id) {
            return Content::NoWord;
        }
        return Content::Wrong(ConlluKind::BadId);
    };
    Content::Word(id, columns)
}
