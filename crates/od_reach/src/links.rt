//! The edges at each token of a sentence.
ghost use Rattle.std.specs.Prelude.{◌≡◌, ℕ, ◌+◌, ◌<◌, ◌++◌, ◌∷◌, [], length, vec_len, set, slice_get, slice_index_or, IfOk, IsSomeAnd, OnOk, replicate};
ghost use Rattle.od_reach.specs.Links.{AreLinks, AreNumbersAt, end_of};
ghost use Rattle.od_matching.specs.Matching.Reach.{nodes};

use od_postings::IdSentence;
use od_text::list::List;
use od_text::text::NoMemory;
use std::alloc::Global;

/// The edges of a sentence, grouped by the tokens that they begin at.
#[derive(Drop)]
pub struct Links {
    /// For each token the numbers of the edges of which it is the governor, ascending.
    pub(crate) along: Vec<List<u32>>,
    /// For each token the numbers of the edges of which it is the dependent, ascending.
    pub(crate) against: Vec<List<u32>>,
}

impl Links {
    /// No edges, for a rule that has no path. It takes no memory.
    pub fn none(alloc: Global) -> Links {
        Links {
            along: Vec::new(alloc),
            against: Vec::new(alloc),
        }
    }
}

/// One end of an edge: its governor, or its dependent.
pub(crate) fn end_at(sentence: &IdSentence, place: u32, governor: bool) -> u32
    requires { place < length sentence.now.sentence.edges }
    ensures end { IsSomeAnd (slice_get sentence.now.sentence.edges place)
        (λ edge. end_of governor edge ≡ result) }
    ensures within { result < nodes sentence.now.sentence }
{
    let ends = sentence.edge(place);
    if governor { ends.0 } else { ends.1 }
}

/// So many lists without a number.
fn empty_lists(alloc: Global, count: usize) -> Result<Vec<List<u32>>, NoMemory>
    ensures { IfOk result (λ lists. lists.items ≡ replicate count []) }
{
    let mut lists = Vec::with_capacity(alloc, count)?;
    for _k in 0..count {
        lists.push(List::new(alloc)).unwrap();
    }
    Ok(lists)
}

/// One number more in the list of a token.
fn note(lists: &mut Vec<List<u32>>, token: usize, number: u32) -> Result<(), NoMemory>
    requires { token < vec_len lists.old }
    ensures items { OnOk result (lists.new.items
        ≡ set lists.old.items token (slice_index_or lists.old.items token [] ++ number ∷ [])) }
    ensures long { vec_len lists.new ≡ vec_len lists.old }
{
    lists[token].push(number)
}

/// The numbers of the edges, grouped by the tokens that are their governors, or their dependents.
fn numbers_by_token(
    alloc: Global,
    sentence: &IdSentence,
    governor: bool,
) -> Result<Vec<List<u32>>, NoMemory>
    ensures { IfOk result (λ lists. AreNumbersAt (end_of governor)
        sentence.now.sentence (length sentence.now.sentence.edges) lists.items) }
{
    let mut lists = empty_lists(alloc, sentence.len() as usize)?;
    for place in 0..sentence.edge_count() {
        let token = end_at(sentence, place, governor) as usize;
        note(&mut lists, token, place)?;
    }
    Ok(lists)
}

/// The edges of a sentence by their tokens. It costs the tokens and the edges, and is made once a
/// sentence.
///
/// # Errors
///
/// `NoMemory` where memory is refused.
pub fn links_of(alloc: Global, sentence: &IdSentence) -> Result<Links, NoMemory>
    ensures { IfOk result (λ links. AreLinks sentence.now.sentence links) }
{
    let along = numbers_by_token(alloc, sentence, true)?;
    let against = numbers_by_token(alloc, sentence, false)?;
    Ok(Links { along, against })
}
