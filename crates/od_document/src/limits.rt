//! Limits of documents.

/// The most bytes of a document, 1 MiB.
pub const DOCUMENT_BYTES: usize = 1048576;

/// The most tokens of a sentence.
pub const SENTENCE_TOKENS: u32 = 2000;

/// The most edges of a sentence.
pub const SENTENCE_EDGES: u32 = 1048576;

/// The numbers of nodes, in ID and HEAD, are below this, so they have six digits at most.
pub const NODE_NUMBERS: u32 = 1000000;
