//! Segments.
ghost use Rattle.std.specs.Prelude.{◌≡◌, ◌<◌, ◌+◌, ◌^◌, ◌∷◌, [], length, map, slice_get, Some, IfOk, IsSomeAnd};
ghost use Rattle.std.specs.Arc.{arc_value};
ghost use Rattle.od_document.specs.Size.{size_in_parts};
ghost use Rattle.od_index.specs.Postings.{posting_lists};
ghost use Rattle.od_index.specs.Segments.{StandsFor};
ghost use Rattle.od_index.specs.Sites.{sentences_in};
ghost use Rattle.od_posted.specs.Entries.{IsServedBy};
ghost use Rattle.od_text.specs.Lists.{Each};
ghost use Rattle.od_segment.specs.Placed.{site_of, numbered, AreOver, AreServed, AreWithin};

use crate::steps::Steps;
use od_document::doc::Doc;
use od_packed::lists::PackedLists;
use od_posted::posting_lists;
use od_postings::{IdSentence, IndexedDoc, TermTable};
use od_text::text::NoMemory;
use std::alloc::Global;
use std::marker::Model;
use std::sync::Arc;
use std::sync::atomic::{AtomicU64, Ordering};
use std::sync::ledger::Ledger;

/// A sentence as numbers, and where it stands: its document within the segment, and its number
/// within that document, both from 0.
#[derive(Drop)]
pub(crate) struct Placed {
    pub(crate) document: u32,
    pub(crate) number: u32,
    pub(crate) words: IdSentence,
}

/// Documents as numbers: the table has each different text of a field once, the sentences are
/// numbers of that table, and each term of it has its posting list.
#[derive(Drop)]
pub struct Segment {
    table: Arc<TermTable, Global>,
    documents: u32,
    sentences: Vec<Placed>,
    lists: PackedLists,
    opened: AtomicU64,
}

impl Model for Segment {
    ghost use Rattle.std.specs.Prelude.{map};
    ghost use Rattle.std.specs.Arc.{arc_value};
    ghost use Rattle.od_index.specs.Segments.{Stored};
    ghost use Rattle.od_text.specs.Lists.{Each};
    ghost use Rattle.od_segment.specs.Placed.{site_of, IsSegment};

    ghost Value = { Stored };

    ghost view = { λ s. record {
      documents = s.documents;
      sites = map site_of s.sentences.items;
      table = arc_value s.table;
    } };

    ghost invariant = { λ s. IsSegment s.documents s.sentences.items (arc_value s.table) s.lists };
}

/// The sentences of the first document of a segment, where they stand.
fn place_all(
    alloc: Global,
    sentences: Vec<IdSentence>,
    _table: &Arc<TermTable, Global>,
) -> Result<Vec<Placed>, NoMemory>
    requires few { length sentences.items < 2 ^ 32 }
    requires over { Each (λ s. s.table ≡ arc_value _table.now) sentences.items }
    ensures sites { IfOk result (λ placed.
        map site_of placed.items ≡ numbered (map (λ s. s.sentence) sentences.items)) }
    ensures over { IfOk result (λ placed. AreOver (arc_value _table.now) placed.items) }
    ensures within { IfOk result (λ placed. AreWithin 1 placed.items) }
    ensures count { IfOk result (λ placed. length placed.items ≡ length sentences.items) }
{
    let mut placed = Vec::with_capacity(alloc, sentences.len())?;
    for words in sentences {
        let number = placed.len() as u32;
        placed.push(Placed {
            document: 0,
            number,
            words,
        })?;
    }
    Ok(placed)
}

/// The posting lists of the terms of a table over sentences, packed. The sentences, their tokens
/// and their edges are fewer than 2^32 together, so that each list is short enough.
fn post_all(
    alloc: Global,
    table: &TermTable,
    sentences: &[IdSentence],
) -> Result<PackedLists, NoMemory>
    requires small { size_in_parts (map (λ s. s.sentence) sentences.now) < 2 ^ 32 }
    requires served { Each (IsServedBy table.now) sentences.now }
    ensures { IfOk result (λ lists.
        lists ≡ posting_lists table.now (map (λ s. s.sentence) sentences.now)) }
{
    let lists = posting_lists(alloc, table, sentences)?;
    let packed = PackedLists::of(alloc, &lists)?;
    Ok(packed)
}

impl Segment {
    /// The segment of one document.
    ///
    /// # Errors
    ///
    /// `NoMemory` where memory is refused.
    pub fn build(alloc: Global, doc: &Doc) -> Result<Segment, NoMemory>
        ensures { IfOk result (StandsFor (doc.now ∷ [])) }
    {
        let IndexedDoc { table, sentences } = IndexedDoc::build(alloc, doc)?;
        let lists = post_all(alloc, &table, &sentences)?;
        let sentences = place_all(alloc, sentences, &table)?;
        Ok(Segment {
            table,
            documents: 1,
            sentences,
            lists,
            opened: AtomicU64::new(0),
        })
    }

    /// The number of its documents.
    pub fn documents(&self) -> u32
        ensures { result ≡ self.now.documents }
    {
        self.documents
    }

    /// The number of its sentences.
    pub fn size(&self) -> u32
        ensures { result ≡ length self.now.sites }
    {
        self.sentences.len() as u32
    }

    /// Where a sentence stands: its document within the segment, and its number within that
    /// document. The sentences are numbered from 0, below `size`.
    pub fn place(&self, index: u32) -> (u32, u32)
        requires { index < length self.now.sites }
        ensures site { IsSomeAnd (slice_get self.now.sites index)
            (λ site. (site.document ≡ result.0) × (site.number ≡ result.1)) }
        ensures within { result.0 < self.now.documents }
    {
        let placed = &self.sentences[index as usize];
        (placed.document, placed.number)
    }

    /// The table of its texts.
    pub fn table(&self) -> &TermTable
        ensures { result.now ≡ self.now.table }
    {
        &self.table
    }

    /// The posting lists of the terms of its table, by their numbers, over its sentences. The table
    /// has every term of each sentence.
    pub fn lists(&self) -> &PackedLists
        ensures lists { result.now ≡ posting_lists self.now.table (sentences_in self.now.sites) }
        ensures served { AreServed self.now.table self.now.sites }
    {
        &self.lists
    }

    /// Opens a sentence, which counts one step. There is no other way to a sentence.
    pub fn visit<L: Ledger>(&self, index: u32, steps: &mut Steps<L>) -> &IdSentence
        requires { index < length self.now.sites }
        ensures words { IsSomeAnd (slice_get self.now.sites index)
            (λ site. site.words ≡ result.now.sentence) }
        ensures table { result.now.table ≡ self.now.table }
        ensures step { steps.new ≡ steps.old + 1 }
    {
        steps.tick();
        self.opened.fetch_add(1, Ordering::Relaxed);
        &self.sentences[index as usize].words
    }

    /// How many sentences were opened, whatever counter counted them. It is there for tests: other
    /// threads raise it at any time, and it wraps.
    pub fn opened(&self) -> u64 {
        self.opened.load(Ordering::Relaxed)
    }
}
