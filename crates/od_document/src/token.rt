//! The words of a sentence and the relations between them.
use od_text::text::Text;

/// One word of a sentence.
#[derive(Debug, Drop)]
pub struct Token {
    /// FORM.
    pub word: Text,
    /// FORM after Unicode's default case folding.
    pub norm: Text,
    /// LEMMA; none where the column is `_` or empty, as in the columns below.
    pub lemma: Option<Text>,
    /// UPOS.
    pub upos: Option<Text>,
    /// XPOS.
    pub tag: Option<Text>,
    /// The value of the first item of MISC whose key is `Entity`.
    pub entity: Option<Text>,
    /// The value of the first item of MISC whose key is `Chunk`.
    pub chunk: Option<Text>,
}

/// A dependency relation between two tokens of a sentence, numbered from 0.
#[derive(Debug, Drop)]
pub struct Edge {
    pub governor: u32,
    pub dependent: u32,
    /// DEPREL.
    pub label: Text,
}
