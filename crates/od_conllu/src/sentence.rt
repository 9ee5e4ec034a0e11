// The sentence that word lines give.
ghost use Rattle.std.specs.Prelude.{◌≡◌, ◌<◌, ◌≤◌, ◌++◌, Some, None, IfOk, OnOk, length, map};
ghost use Rattle.od_document.specs.Columns.{misc_value};
ghost use Rattle.od_document.specs.Words.{token_of, edge_of, edges_from};
ghost use Rattle.od_document.specs.Faults.{heads_fault};
ghost use Rattle.od_document.specs.Reading.{shown, tokens_and_edges};
ghost use Rattle.od_conllu.specs.Lines.{word_seen};

use crate::column::{fold, label, value};
use crate::line_columns::misc_item;
use crate::word_line::WordLine;
use od_document::conllu::{ConlluFault, ConlluKind};
use od_document::limits::SENTENCE_TOKENS;
use od_document::sentence::Sentence;
use od_document::token::{Edge, Token};
use od_text::list::List;
use od_text::text::{NoMemory, Text};
use std::alloc::Global;

/// The value that MISC has for this key.
fn misc_text(alloc: Global, key: &str, misc: &str) -> Result<Option<Text>, NoMemory>
    ensures { IfOk result (λ v. v ≡ misc_value key.now misc.now) }
{
    match misc_item(key, misc) {
        None => Ok(None),
        Some(text) => Ok(Some(Text::from_str(alloc, text)?)),
    }
}

/// The token that a word line gives.
fn token(alloc: Global, word: &WordLine<'_>) -> Result<Token, NoMemory>
    ensures { IfOk result (λ t. t ≡ token_of (word_seen word.now)) }
{
    let columns = &word.columns;
    Ok(Token {
        word: Text::from_str(alloc, columns.form)?,
        norm: fold(alloc, columns.form)?,
        lemma: value(alloc, columns.lemma)?,
        upos: value(alloc, columns.upos)?,
        tag: value(alloc, columns.xpos)?,
        entity: misc_text(alloc, "Entity", columns.misc)?,
        chunk: misc_text(alloc, "Chunk", columns.misc)?,
    })
}

/// The tokens that word lines give.
fn tokens(alloc: Global, words: &[WordLine<'_>]) -> Result<Vec<Token>, NoMemory>
    ensures { IfOk result (λ v. v.items ≡ map token_of (map word_seen words.now)) }
{
    let mut tokens = Vec::with_capacity(alloc, words.len())?;
    for word in words {
        tokens.push(token(alloc, word)?)?;
    }
    Ok(tokens)
}

/// Adds the edge of the token at this place, where its HEAD names a word.
fn push_edge(
    alloc: Global,
    edges: &mut Vec<Edge>,
    place: u32,
    word: &WordLine<'_>,
) -> Result<(), NoMemory>
    ensures { let more = edge_of place (word_seen word.now) in
        OnOk result (edges.new.items ≡ edges.old.items ++ more) }
{
    if word.head == 0 {
        return Ok(());
    }
    let label = label(alloc, word.columns.deprel)?;
    edges.push(Edge {
        governor: word.head - 1,
        dependent: place,
        label,
    })?;
    Ok(())
}

/// The edges that word lines give.
fn edges(alloc: Global, words: &[WordLine<'_>]) -> Result<Vec<Edge>, NoMemory>
    requires { length words.now ≤ SENTENCE_TOKENS }
    ensures { IfOk result (λ v. v.items ≡ edges_from 0 (map word_seen words.now)) }
{
    let mut edges = Vec::new(alloc);
    let mut place = 0;
    for word in words {
        push_edge(alloc, &mut edges, place, word)?;
        place += 1;
    }
    Ok(edges)
}

/// That a HEAD is greater than the number of words, at the first word of which it is.
pub fn head_fault(words: &[WordLine<'_>]) -> Option<ConlluFault>
    ensures { result ≡ heads_fault (length words.now) (map word_seen words.now) }
{
    let count = words.len();
    for word in words {
        if count < word.head as usize {
            return Some(ConlluFault {
                line: word.line,
                kind: ConlluKind::HeadRange,
            });
        }
    }
    None
}

/// The sentence that word lines give, whose heads are in range.
pub fn sentence(alloc: Global, words: &[WordLine<'_>]) -> Result<Sentence, NoMemory>
    requires some { 0 < length words.now }
    requires few { length words.now ≤ SENTENCE_TOKENS }
    requires heads { heads_fault (length words.now) (map word_seen words.now) ≡ None }
    ensures { IfOk result (λ s. shown s ≡ tokens_and_edges (map word_seen words.now)) }
{
    let tokens = tokens(alloc, words)?;
    let edges = edges(alloc, words)?;
    Ok(Sentence {
        tokens: List::from_vec(tokens),
        edges: List::from_vec(edges),
    })
}
