//! Numbers in place of others, each found at a place of an array.
ghost use Rattle.std.specs.Prelude.{◌≡◌, ◌+◌, ◌<◌, ◌^◌, slice_get, Some, IsSomeAnd, IfSome, IfOk, take};
ghost use Rattle.std.specs.List.{AllZip};
ghost use Rattle.od_index.specs.Sentences.{HasTerms};
ghost use Rattle.od_postings.specs.Arrivals.{Renumbers, HasNew, IsNew, IsNewOption, HasNewToken, IsNewToken, HasNewEdge, IsNewEdge};
ghost use Rattle.od_postings.specs.Seen.{terms_seen};
ghost use Rattle.od_text.specs.Lists.{Each};

use crate::collect::Seen;
use crate::numbers::{EdgeNumbers, TokenNumbers, known};
use crate::optional::OptionalNumber;
use crate::table::TermTable;
use od_text::text::NoMemory;
use std::alloc::Global;

/// The number in place of another one.
fn renumber(numbers: &[u32], number: u32) -> u32
    requires { HasNew numbers.now number }
    ensures is { IsNew numbers.now number result }
    ensures small { result + 1 < 2 ^ 32 }
{
    numbers[number as usize]
}

/// The same where there is one.
fn renumber_option(numbers: &[u32], number: &OptionalNumber) -> OptionalNumber
    requires { IfSome number.now (HasNew numbers.now) }
    ensures { IsNewOption numbers.now number.now result }
{
    match number.get() {
        None => OptionalNumber::none(),
        Some(number) => OptionalNumber::some(renumber(numbers, number)),
    }
}

/// A token with numbers in place of others.
fn renumber_token(numbers: &[u32], token: &TokenNumbers) -> TokenNumbers
    requires { HasNewToken numbers.now token.now }
    ensures { IsNewToken numbers.now token.now result }
{
    TokenNumbers {
        word: renumber(numbers, token.word),
        norm: renumber(numbers, token.norm),
        lemma: renumber_option(numbers, &token.lemma),
        upos: renumber_option(numbers, &token.upos),
        tag: renumber_option(numbers, &token.tag),
        entity: renumber_option(numbers, &token.entity),
        chunk: renumber_option(numbers, &token.chunk),
    }
}

/// An edge with a number in place of another one.
fn renumber_edge(numbers: &[u32], edge: &EdgeNumbers) -> EdgeNumbers
    requires { HasNewEdge numbers.now edge.now }
    ensures { IsNewEdge numbers.now edge.now result }
{
    EdgeNumbers {
        governor: edge.governor,
        dependent: edge.dependent,
        label: renumber(numbers, edge.label),
    }
}

/// Tokens with numbers in place of others.
pub(crate) fn renumber_tokens(
    alloc: Global,
    numbers: &[u32],
    tokens: &[TokenNumbers],
) -> Result<Vec<TokenNumbers>, NoMemory>
    requires { Each (HasNewToken numbers.now) tokens.now }
    ensures { IfOk result (λ v. AllZip (IsNewToken numbers.now) tokens.now v.items) }
{
    let mut renumbered = Vec::with_capacity(alloc, tokens.len())?;
    for token in tokens {
        renumbered.push(renumber_token(numbers, token)).unwrap();
    }
    Ok(renumbered)
}

/// Edges with numbers in place of others.
pub(crate) fn renumber_edges(
    alloc: Global,
    numbers: &[u32],
    edges: &[EdgeNumbers],
) -> Result<Vec<EdgeNumbers>, NoMemory>
    requires { Each (HasNewEdge numbers.now) edges.now }
    ensures { IfOk result (λ v. AllZip (IsNewEdge numbers.now) edges.now v.items) }
{
    let mut renumbered = Vec::with_capacity(alloc, edges.len())?;
    for edge in edges {
        renumbered.push(renumber_edge(numbers, edge)).unwrap();
    }
    Ok(renumbered)
}

/// The numbers of terms in a table that has them, in their order.
pub(crate) fn numbers_in(
    alloc: Global,
    terms: &[Seen<'_>],
    table: &TermTable,
) -> Result<Vec<u32>, NoMemory>
    requires { HasTerms table.now (terms_seen terms.now) }
    ensures { IfOk result (λ v. Renumbers (terms_seen terms.now) table.now v.items) }
{
    let mut numbers = Vec::with_capacity(alloc, terms.len())?;
    for term in terms {
        numbers.push(known(table, term.0, term.1)).unwrap();
    }
    Ok(numbers)
}

/// The numbers of an old table's terms in a table that has them, in their order.
pub(crate) fn numbers_of(
    alloc: Global,
    old: &TermTable,
    table: &TermTable,
) -> Result<Vec<u32>, NoMemory>
    requires { HasTerms table.now old.now }
    ensures { IfOk result (λ v. Renumbers old.now table.now v.items) }
{
    let mut numbers = Vec::with_capacity(alloc, old.len() as usize)?;
    for number in 0..old.len() {
        let term = old.text(number);
        numbers.push(known(table, term.0, term.1))?;
    }
    Ok(numbers)
}
