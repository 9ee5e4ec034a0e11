//! Documents.
ghost use Rattle.std.specs.Prelude.{◌<◌, ◌≤◌, length};
ghost use Rattle.od_document.specs.Size.{size_in_parts};
ghost use Rattle.od_document.specs.declared.limits.TheConstants.{DOCUMENT_BYTES};

use crate::sentence::Sentence;
use od_text::list::List;
use od_text::text::Text;

/// A document that was read: its name, the number of bytes that it was read from, at most 1 MiB,
/// and its sentences, at least one. Its sentences, tokens and edges together are at most `size`.
#[derive(Debug, Drop)]
pub struct Doc {
    pub name: Text,
    pub size: u32,
    pub sentences: List<Sentence>,
    pub ghost some: { 0 < length sentences },
    pub ghost small: { size ≤ DOCUMENT_BYTES },
    pub ghost parts: { size_in_parts sentences ≤ size },
}
