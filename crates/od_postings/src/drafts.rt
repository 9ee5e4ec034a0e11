//! Sentences as numbers of the terms that came.
ghost use Rattle.std.specs.Prelude.{◌≡◌, ◌+◌, ◌*◌, ◌<◌, ◌≤◌, ◌^◌, length, map, flat_map, IfOk, OnOk};
ghost use Rattle.od_document.specs.Reading.{shown};
ghost use Rattle.od_document.specs.Size.{sentence_parts, size_in_parts};
ghost use Rattle.od_index.specs.Terms.{token_terms, edge_terms, sentence_terms, terms_of};
ghost use Rattle.od_postings.specs.Arrivals.{Adds, drafted, DraftFits};
ghost use Rattle.od_postings.specs.Numbers.{token_of, edge_of, tokens_of, edges_of, TokenFits, EdgeFits};
ghost use Rattle.od_text.specs.Lists.{Each};

use crate::arrivals::Arrivals;
use crate::numbers::{EdgeNumbers, TokenNumbers};
use od_document::sentence::Sentence;
use od_document::token::{Edge, Token};
use od_pattern::pattern::Field;
use od_text::text::NoMemory;
use std::alloc::Global;

/// The tokens and the edges of a sentence, as numbers.
#[derive(Debug, Drop)]
pub(crate) struct Draft {
    pub(crate) tokens: Vec<TokenNumbers>,
    pub(crate) edges: Vec<EdgeNumbers>,
}

/// A token as numbers of what came.
fn draft_token<'a>(arrivals: &mut Arrivals<'a>, token: &'a Token) -> Result<TokenNumbers, NoMemory>
    requires { length arrivals.old + 7 < 2 ^ 32 }
    ensures is { IfOk result (λ t. token_of arrivals.new t ≡ token.now) }
    ensures fits { IfOk result (TokenFits arrivals.new) }
    ensures adds { OnOk result (Adds (token_terms token.now) arrivals.old arrivals.new) }
    ensures few { OnOk result (length arrivals.new ≤ length arrivals.old + 7) }
{
    let word = arrivals.arrive(Field::Word, token.word.get())?;
    let norm = arrivals.arrive(Field::Norm, token.norm.get())?;
    let lemma = arrivals.arrive_option(Field::Lemma, &token.lemma)?;
    let upos = arrivals.arrive_option(Field::Upos, &token.upos)?;
    let tag = arrivals.arrive_option(Field::Tag, &token.tag)?;
    let entity = arrivals.arrive_option(Field::Entity, &token.entity)?;
    let chunk = arrivals.arrive_option(Field::Chunk, &token.chunk)?;
    Ok(TokenNumbers {
        word,
        norm,
        lemma,
        upos,
        tag,
        entity,
        chunk,
    })
}

/// An edge with the number of its label, which comes as an incoming one and as an outgoing one.
fn draft_edge<'a>(arrivals: &mut Arrivals<'a>, edge: &'a Edge) -> Result<EdgeNumbers, NoMemory>
    requires { length arrivals.old + 2 < 2 ^ 32 }
    ensures is { IfOk result (λ e. edge_of arrivals.new e ≡ edge.now) }
    ensures fits { IfOk result (EdgeFits arrivals.new) }
    ensures adds { OnOk result (Adds (edge_terms edge.now) arrivals.old arrivals.new) }
    ensures few { OnOk result (length arrivals.new ≤ length arrivals.old + 2) }
{
    let label = arrivals.arrive(Field::Incoming, edge.label.get())?;
    arrivals.arrive(Field::Outgoing, edge.label.get())?;
    Ok(EdgeNumbers {
        governor: edge.governor,
        dependent: edge.dependent,
        label,
    })
}

/// The tokens as numbers of what came.
fn draft_tokens<'a>(
    alloc: Global,
    arrivals: &mut Arrivals<'a>,
    tokens: &'a [Token],
) -> Result<Vec<TokenNumbers>, NoMemory>
    requires { length arrivals.old + 7 * length tokens.now < 2 ^ 32 }
    ensures is { IfOk result (λ v. tokens_of arrivals.new v.items ≡ tokens.now) }
    ensures fits { IfOk result (λ v. Each (TokenFits arrivals.new) v.items) }
    ensures adds { OnOk result (Adds (flat_map token_terms tokens.now) arrivals.old arrivals.new) }
    ensures few { OnOk result (length arrivals.new
        ≤ length arrivals.old + 7 * length tokens.now) }
{
    let mut numbers = Vec::with_capacity(alloc, tokens.len())?;
    for token in tokens {
        let drafted = draft_token(arrivals, token)?;
        numbers.push(drafted).unwrap();
    }
    Ok(numbers)
}

/// The edges as numbers of what came.
fn draft_edges<'a>(
    alloc: Global,
    arrivals: &mut Arrivals<'a>,
    edges: &'a [Edge],
) -> Result<Vec<EdgeNumbers>, NoMemory>
    requires { length arrivals.old + 2 * length edges.now < 2 ^ 32 }
    ensures is { IfOk result (λ v. edges_of arrivals.new v.items ≡ edges.now) }
    ensures fits { IfOk result (λ v. Each (EdgeFits arrivals.new) v.items) }
    ensures adds { OnOk result (Adds (flat_map edge_terms edges.now) arrivals.old arrivals.new) }
    ensures few { OnOk result (length arrivals.new
        ≤ length arrivals.old + 2 * length edges.now) }
{
    let mut numbers = Vec::with_capacity(alloc, edges.len())?;
    for edge in edges {
        let drafted = draft_edge(arrivals, edge)?;
        numbers.push(drafted).unwrap();
    }
    Ok(numbers)
}

/// A sentence as numbers of what came.
fn draft_sentence<'a>(
    alloc: Global,
    arrivals: &mut Arrivals<'a>,
    sentence: &'a Sentence,
) -> Result<Draft, NoMemory>
    requires { length arrivals.old + 7 * sentence_parts sentence.now < 2 ^ 32 }
    ensures is { IfOk result (λ d. drafted arrivals.new d ≡ shown sentence.now) }
    ensures fits { IfOk result (DraftFits arrivals.new) }
    ensures adds { OnOk result (Adds (sentence_terms sentence.now) arrivals.old arrivals.new) }
    ensures few { OnOk result (length arrivals.new
        ≤ length arrivals.old + 7 * sentence_parts sentence.now) }
{
    let tokens = draft_tokens(alloc, arrivals, sentence.tokens.get())?;
    let edges = draft_edges(alloc, arrivals, sentence.edges.get())?;
    Ok(Draft { tokens, edges })
}

/// Sentences as numbers of what came.
pub(crate) fn draft_all<'a>(
    alloc: Global,
    arrivals: &mut Arrivals<'a>,
    sentences: &'a [Sentence],
) -> Result<Vec<Draft>, NoMemory>
    requires { length arrivals.old + 7 * size_in_parts sentences.now < 2 ^ 32 }
    ensures is { IfOk result (λ v. map (drafted arrivals.new) v.items ≡ map shown sentences.now) }
    ensures fits { IfOk result (λ v. Each (DraftFits arrivals.new) v.items) }
    ensures adds { OnOk result (Adds (terms_of sentences.now) arrivals.old arrivals.new) }
    ensures few { OnOk result (length arrivals.new
        ≤ length arrivals.old + 7 * size_in_parts sentences.now) }
{
    let mut drafts = Vec::with_capacity(alloc, sentences.len())?;
    for sentence in sentences {
        let draft = draft_sentence(alloc, arrivals, sentence)?;
        drafts.push(draft).unwrap();
    }
    Ok(drafts)
}
