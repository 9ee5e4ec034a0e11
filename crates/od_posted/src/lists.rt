//! Posting lists of sentences.
ghost use Rattle.std.specs.Prelude.{◌≡◌, ◌<◌, ◌^◌, length, map, IfOk};
ghost use Rattle.od_index.specs.Postings.{posting_lists};
ghost use Rattle.od_posted.specs.Entries.{AreEntries, IsServedBy};
ghost use Rattle.od_posted.specs.Turned.{AreTurned};
ghost use Rattle.od_text.specs.Lists.{Each};

use crate::entries::{Entry, put_sentence};
use crate::numbered::Numbered;
use crate::turned::Turned;
use od_group::grouping::grouped;
use od_postings::{IdSentence, TermTable};
use od_text::list::List;
use od_text::text::NoMemory;
use std::alloc::Global;

/// The entries of sentences, one after another.
fn entries_of(
    alloc: Global,
    _table: &TermTable,
    turned: &Turned,
    sentences: &[IdSentence],
) -> Result<Vec<Entry>, NoMemory>
    requires few { length sentences.now < 2 ^ 32 }
    requires served { Each (IsServedBy _table.now) sentences.now }
    requires labels { AreTurned _table.now turned.now.first turned.now.numbers.items }
    ensures { IfOk result (λ entries.
        AreEntries _table.now (map (λ s. s.sentence) sentences.now) entries.items) }
{
    let mut entries = Vec::new(alloc);
    for (place, sentence) in sentences.iter().enumerate() {
        let at = Numbered::new(place as u32, sentence, turned);
        put_sentence(alloc, &mut entries, &at)?;
    }
    Ok(entries)
}

/// The posting lists of the terms of a table, by their numbers, over sentences that are numbers of
/// it. The table has every term of each sentence, and there are fewer than 2^32 of them. It is
/// linear in their tokens and edges and in the terms of the table.
///
/// # Errors
///
/// `NoMemory` where memory is refused.
pub fn posting_lists(
    alloc: Global,
    table: &TermTable,
    sentences: &[IdSentence],
) -> Result<Vec<List<(u32, u32)>>, NoMemory>
    requires few { length sentences.now < 2 ^ 32 }
    requires served { Each (IsServedBy table.now) sentences.now }
    ensures { IfOk result (λ lists.
        lists.items ≡ posting_lists table.now (map (λ s. s.sentence) sentences.now)) }
{
    let turned = Turned::of(alloc, table)?;
    let entries = entries_of(alloc, table, &turned, sentences)?;
    let lists = grouped(alloc, &entries, table.len() as usize)?;
    Ok(lists)
}
