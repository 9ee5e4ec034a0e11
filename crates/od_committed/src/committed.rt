//! Documents as they are kept: as segments.
ghost use Rattle.std.specs.Prelude.{◌≡◌, ◌∷◌, [], slice_get, option_map, IfOk};
ghost use Rattle.std.specs.Arc.{arc_value};
ghost use Rattle.od_index.specs.Segments.{StandsFor};

use od_document::doc::Doc;
use od_postings::IdSentence;
use od_segment::{Segment, Steps};
use od_text::text::{Copied, NoMemory, Text};
use std::alloc::Global;
use std::marker::Model;
use std::snapshot::Snapshot;
use std::sync::Arc;
use std::sync::ledger::Ledger;

/// A document that was committed: its name, and its segment. The document as it was read is given
/// up; its words are those of the segment.
#[derive(Drop)]
pub struct Committed {
    name: Text,
    segment: Arc<Segment, Global>,
    doc: Snapshot<Doc>,
}

impl Model for Committed {
    ghost use Rattle.std.specs.Arc.{arc_value};
    ghost use Rattle.od_document.specs.declared.doc.Doc.{Doc};
    ghost use Rattle.od_committed.specs.Kept.{Keeps};

    ghost Value = { Doc };

    ghost view = { λ c. c.doc.value };

    ghost invariant = { λ c. Keeps c.doc.value c.name (arc_value c.segment) };
}

impl Committed {
    /// A document as it is kept.
    ///
    /// # Errors
    ///
    /// `NoMemory` where memory is refused.
    pub fn new(alloc: Global, doc: Doc) -> Result<Committed, NoMemory>
        ensures { IfOk result (λ committed. committed ≡ doc) }
    {
        let name = doc.name.copy(alloc)?;
        let segment = Segment::build(alloc, &doc)?;
        let segment = Arc::new(alloc, segment)?;
        Ok(Committed {
            name,
            segment,
            doc: Snapshot::of(&doc),
        })
    }

    /// The document's name.
    pub fn name(&self) -> &Text
        ensures { result.now ≡ self.now.name }
    {
        &self.name
    }

    /// The document's segment, which others may hold too.
    pub fn segment(&self) -> &Arc<Segment, Global>
        ensures { StandsFor (self.now ∷ []) (arc_value result.now) }
    {
        &self.segment
    }

    /// Opens a sentence, which counts one step. Sentences are numbered from 0; there may be none of
    /// the number.
    pub fn sentence<L: Ledger>(&self, number: u32, steps: &mut Steps<L>) -> Option<&IdSentence>
        ensures { option_map (λ words. words.now.sentence) result
            ≡ slice_get self.now.sentences number }
    {
        if number < self.segment.size() {
            Some(self.segment.visit(number, steps))
        } else {
            None
        }
    }
}
