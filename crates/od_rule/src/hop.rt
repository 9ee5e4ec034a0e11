//! What a hop finds on a sentence.
ghost use Rattle.std.specs.Prelude.{◌≡◌, ℕ, ◌<◌, ◌∷◌, [], List as Seq, length, Err, IfOk, IsTrue, None, Some};
ghost use Rattle.od_asked.specs.Asked.{asked_hop};
ghost use Rattle.od_asked.specs.Tables.{columns_of};
ghost use Rattle.od_machine.specs.Spans.{IsSpanIndex};
ghost use Rattle.od_matching.specs.Matching.Hops.{most_found, hop_count, hop_lists, last_of};
ghost use Rattle.od_reach.specs.Links.{AreLinks};
ghost use Rattle.od_pattern.specs.declared.rule.Body.TheVariants.{Basic};
ghost use Rattle.od_rule.specs.Codes.{IsCodeOf};
ghost use Rattle.od_trails.specs.declared.fault.MatchFault.TheVariants as fault;

use crate::code::RuleCode;
use crate::scans::scan_each;
use od_asked::columns::Columns;
use od_extraction::mention::{Labelled, Match};
use od_machine::scan::Scanner;
use od_machine::spans::SpanIndex;
use od_pairing::pairs::{Pairs, pair};
use od_pattern::rule::Hop;
use od_postings::IdSentence;
use od_reach::links::{Links, links_of};
use od_reach::moves::Move;
use od_text::list::List;
use od_text::text::NoMemory;
use od_trails::fault::MatchFault;
use std::alloc::Global;

/// Whether the first part matches nowhere.
fn starts_nowhere(scans: &[List<Match>]) -> bool
    ensures { IsTrue result → (rest : Seq (Seq Match)) × (scans.now ≡ [] ∷ rest) }
{
    match scans.first() {
        Some(first) => first.get().is_empty(),
        None => false,
    }
}

/// The edges of a sentence by their tokens, where there is a path to walk.
fn links_for(alloc: Global, moves: &[List<Move>], words: &IdSentence) -> Result<Links, NoMemory>
    ensures { IfOk result (λ links. 0 < length moves.now
        → AreLinks words.now.sentence links) }
{
    if moves.is_empty() {
        return Ok(Links::none(alloc));
    }
    links_of(alloc, words)
}

/// The pairs of a hop on a sentence. The index is that of the state's labelled spans there.
///
/// # Errors
///
/// `Crowded` with the first length above 10,000 of a list after one of the hop's paths, where the
/// last list is not empty, and `NoMemory` where memory is refused.
pub(crate) fn find_hop(
    alloc: Global,
    scanner: &mut Scanner,
    index: &SpanIndex,
    hop: &Hop,
    code: &RuleCode,
    words: &IdSentence,
    columns: &Columns,
    local: &[Labelled],
) -> Result<Pairs, MatchFault>
    requires code { IsCodeOf (Basic hop.now) code.now }
    requires columns { columns.now.rows ≡ columns_of words.now.sentence (asked_hop hop.now) }
    requires index { IsSpanIndex local.now index.now }
    ensures few { IfOk result (λ _.
        hop_count most_found (hop_lists hop.now words.now.sentence local.now) ≡ None) }
    ensures found { IfOk result (λ pairs.
        last_of (hop_lists hop.now words.now.sentence local.now) ≡ pairs) }
    ensures crowded { (n : ℕ) → result ≡ Err (fault.Crowded n)
        → hop_count most_found (hop_lists hop.now words.now.sentence local.now) ≡ Some n }
{
    let programs = code.programs.get();
    let scans = match scan_each(alloc, scanner, programs, words, columns, local, index) {
        Ok(scans) => scans,
        Err(NoMemory) => return Err(MatchFault::NoMemory),
    };
    if starts_nowhere(scans.get()) {
        return Ok(Pairs::none(alloc));
    }
    let moves = code.moves.get();
    let links = match links_for(alloc, moves, words) {
        Ok(links) => links,
        Err(NoMemory) => return Err(MatchFault::NoMemory),
    };
    match pair(alloc, moves, words, &links, columns, scans) {
        Ok(pairs) => Ok(pairs),
        Err(fault) => Err(fault),
    }
}
