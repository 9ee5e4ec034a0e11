//! Laws of the definitions on documents, each the contract of a function that does nothing.
ghost use Rattle.od_document.specs.Columns.{ReadsNumbers};
ghost use Rattle.od_document.specs.Laws.{IsDocumentOrFault, ReadsOnce};
ghost use Rattle.od_document.specs.Laws.{BuildsDocuments, DistinctDiffer};

/// Any bytes are a document or have a first fault, and never both.
pub fn document_or_fault()
    ensures { IsDocumentOrFault }
{}

/// Some bytes are one document at most.
pub fn reads_once()
    ensures { ReadsOnce }
{}

/// The document of some bytes is what they are read as, and none exactly where they have a fault.
pub fn builds_documents()
    ensures { BuildsDocuments }
{}

/// A text is a number exactly where it is what is written for one below a million.
pub fn reads_numbers()
    ensures { ReadsNumbers }
{}

/// No two of distinct edges are equal.
pub fn distinct_differ()
    ensures { DistinctDiffer }
{}
