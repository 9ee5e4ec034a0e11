//! The edges at each token of a sentence.
ghost use Rattle.std.specs.Prelude.{◌≡◌, ◌<◌, length, slice_get, slice_index, slice_set, IfOk, IsSomeAnd};
ghost use Rattle.od_posted.specs.Chains.{AreChainsOf, end_of};

use od_postings::IdSentence;
use od_text::text::NoMemory;
use std::alloc::Global;

/// An end of an edge.
#[derive(Clone, Copy, Debug)]
pub(crate) enum End {
    Dependent,
    Governor,
}

/// The edges of a sentence, grouped by the tokens at one of their ends: for each token the first of
/// its edges, and for each edge the next one of its token. The number of edges stands where there
/// is none.
#[derive(Drop)]
pub(crate) struct Chains {
    pub(crate) end: End,
    pub(crate) firsts: Vec<u32>,
    pub(crate) nexts: Vec<u32>,
}

/// The token at an end of an edge.
fn end_at(sentence: &IdSentence, end: End, place: u32) -> u32
    requires { place < length sentence.now.sentence.edges }
    ensures end { IsSomeAnd (slice_get sentence.now.sentence.edges place)
        (λ edge. end_of end edge ≡ result) }
    ensures within { result < length sentence.now.sentence.tokens }
{
    let edge = sentence.edge(place);
    match end {
        End::Dependent => edge.1,
        End::Governor => edge.0,
    }
}

/// Puts an edge before the others of its token.
fn link(firsts: &mut Vec<u32>, nexts: &mut Vec<u32>, token: usize, place: u32)
    requires token { token < length firsts.old.items }
    requires place { place < length nexts.old.items }
    ensures nexts { nexts.new.items
        ≡ slice_set nexts.old.items place (slice_index firsts.old.items token) }
    ensures firsts { firsts.new.items ≡ slice_set firsts.old.items token place }
{
    nexts[place as usize] = firsts[token];
    firsts[token] = place;
}

impl Chains {
    /// The edges of a sentence by one of their ends. It is linear in the tokens and the edges.
    pub(crate) fn of(alloc: Global, sentence: &IdSentence, end: End) -> Result<Chains, NoMemory>
        ensures chains { IfOk result (AreChainsOf sentence.now.sentence) }
        ensures end { IfOk result (λ chains. chains.end ≡ end) }
    {
        let count = sentence.edge_count();
        let mut firsts = vec![in alloc; count; sentence.len() as usize]?;
        let mut nexts = vec![in alloc; count; count as usize]?;
        for passed in 0..count {
            let place = count - 1 - passed;
            let token = end_at(sentence, end, place) as usize;
            link(&mut firsts, &mut nexts, token, place);
        }
        Ok(Chains { end, firsts, nexts })
    }

    /// The place of the first edge of a token.
    pub(crate) fn first(&self, token: u32) -> u32
        requires { token < length self.now.firsts.items }
        ensures { result ≡ slice_index self.now.firsts.items token }
    {
        self.firsts[token as usize]
    }

    /// The place of the edge behind an edge.
    pub(crate) fn next(&self, place: u32) -> u32
        requires { place < length self.now.nexts.items }
        ensures { result ≡ slice_index self.now.nexts.items place }
    {
        self.nexts[place as usize]
    }
}
