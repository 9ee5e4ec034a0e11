//! The laws of tables, postings and segments, which hold of every document.
//!
//! A law is what a function here ensures; the function itself does nothing.
ghost use Rattle.od_index.specs.Laws.{OneTable, TableIsComputed, EachIsNumbered, OneNumber, TableIsShort, TablesJoin, TableServes, SitesJoin, PostingsJoin, EdgesJoin, PostingsAscend, EdgePostingsJoin, OneEdgePosting, EdgePostingIsComputed, OneListOfLabels, LabelsAreComputed, OneListOfEdges, OneSegment, SegmentIsComputed, SegmentIsSmall, TilesHaveAll, SizesSum, FirstAreSeen, EachPlaceHasSite, TilesGrow, MergedStands, TilesMerge, PostingsMerge, EdgePostingsMerge};

/// Some terms have exactly one table.
pub fn table_is_unique()
    ensures one { OneTable }
    ensures computed { TableIsComputed }
{}

/// In a table each of its terms has exactly one number.
pub fn terms_are_numbered()
    ensures each { EachIsNumbered }
    ensures one { OneNumber }
{}

/// A table is no longer than its terms. The table of two tables is that of the terms of both,
/// and a table of sentences has the terms of each of them.
pub fn tables_join()
    ensures short { TableIsShort }
    ensures join { TablesJoin }
    ensures serves { TableServes }
{}

/// The sentences of documents, and then those of others, which stand as many documents later.
pub fn sites_join()
    ensures { SitesJoin }
{}

/// Posting lists of sentences and of others after them: the second part comes as many sentences later.
pub fn postings_join()
    ensures terms { PostingsJoin }
    ensures edges { EdgesJoin }
{}

/// Posting lists ascend, and those of a label over two lists of sentences make the one over both.
pub fn postings_ascend()
    ensures terms { PostingsAscend }
    ensures edges { EdgePostingsJoin }
{}

/// A label has exactly one posting list.
pub fn edge_posting_is_unique()
    ensures one { OneEdgePosting }
    ensures computed { EdgePostingIsComputed }
{}

/// Sentences have exactly one ascending list of labels, and one with the posting list of each.
pub fn labels_are_unique()
    ensures one { OneListOfLabels }
    ensures computed { LabelsAreComputed }
    ensures edges { OneListOfEdges }
{}

/// Documents have exactly one segment.
pub fn segment_is_unique()
    ensures one { OneSegment }
    ensures computed { SegmentIsComputed }
{}

/// For each byte of its documents a segment has at most one document, one sentence and 7 terms.
pub fn segments_are_small()
    ensures { SegmentIsSmall }
{}

/// Segments that tile documents have each of their sentences once, in order;
/// what is seen of the segments are the sentences of the first documents.
pub fn tiles_have_all()
    ensures all { TilesHaveAll }
    ensures sizes { SizesSum }
    ensures seen { FirstAreSeen }
{}

/// The places of segments are those of their sentences, in order.
pub fn places_have_sites()
    ensures { EachPlaceHasSite }
{}

/// A segment may be added behind the others, and neighbours may be merged: they tile the documents.
pub fn tiles_change()
    ensures grow { TilesGrow }
    ensures merged { MergedStands }
    ensures merge { TilesMerge }
{}

/// The posting lists of two segments merged: the second's sentences come behind the first's.
pub fn postings_merge()
    ensures terms { PostingsMerge }
    ensures edges { EdgePostingsMerge }
{}
