//! Sentences.
ghost use Rattle.std.specs.Prelude.{◌<◌, ◌≤◌, length};
ghost use Rattle.od_document.specs.Edges.{EndsWithin, AreDistinct};
ghost use Rattle.od_document.specs.declared.limits.TheConstants.{SENTENCE_TOKENS, SENTENCE_EDGES};

use crate::token::{Edge, Token};
use od_text::list::List;

/// The tokens of a sentence, 1 to 2,000, and its edges, at most 2^20, in the order of their
/// dependents.
#[derive(Debug, Drop)]
pub struct Sentence {
    pub tokens: List<Token>,
    pub edges: List<Edge>,
    pub ghost some: { 0 < length tokens },
    pub ghost few: { length tokens ≤ SENTENCE_TOKENS },
    pub ghost few_edges: { length edges ≤ SENTENCE_EDGES },
    pub ghost ends: { EndsWithin (length tokens) edges },
    pub ghost distinct: { AreDistinct edges },
}
