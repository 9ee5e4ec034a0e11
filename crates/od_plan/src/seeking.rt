//! Of all sentences of a segment those that are wanted.
ghost use Rattle.std.specs.Prelude.{◌≡◌, ◌<◌, filter, length, IfOk};
ghost use Rattle.std.specs.List.{list_all, list_any, range_with_len};
ghost use Rattle.od_plan.specs.Found.{is_posted, wanted_at};
ghost use Rattle.od_search.specs.Posted.{has_posting};

use crate::keeping::{either, kept_of_all};
use crate::labels::keep_label;
use crate::searched::Searched;
use crate::wanted::Wanted;
use od_cursor::cursor::Cursor;
use od_packed::lists::PackedLists;
use od_text::text::NoMemory;
use std::alloc::Global;

/// All numbers below a size.
pub(crate) fn every(alloc: Global, size: u32) -> Result<Vec<u32>, NoMemory>
    ensures { IfOk result (λ all. all.items ≡ range_with_len 0 size) }
{
    let mut all = Vec::with_capacity(alloc, size as usize)?;
    for sentence in 0..size {
        all.push(sentence)?;
    }
    Ok(all)
}

/// The sentences below a size that stand in the list: its pairs are walked over, and each sentence
/// is taken once.
pub(crate) fn below<C: Cursor>(
    alloc: Global,
    cursor: &mut C,
    size: u32,
) -> Result<Vec<u32>, NoMemory>
    ensures { IfOk result (λ found.
        found.items ≡ filter (has_posting (C.rest cursor.old)) (range_with_len 0 size)) }
{
    let mut found = Vec::new(alloc);
    let mut next = 0;
    while next < size {
        cursor.skip_to(next);
        match cursor.at() {
            None => return Ok(found),
            Some((sentence, _)) => {
                if sentence >= size {
                    return Ok(found);
                }
                found.push(sentence)?;
                next = sentence + 1;
            }
        }
    }
    Ok(found)
}

/// The sentences below a size at which the term of a number stands.
fn all_with(
    alloc: Global,
    lists: &PackedLists,
    number: u32,
    size: u32,
) -> Result<Vec<u32>, NoMemory>
    ensures { IfOk result (λ found.
        found.items ≡ filter (is_posted lists.now number) (range_with_len 0 size)) }
{
    match lists.cursor(number) {
        None => Ok(Vec::new(alloc)),
        Some(cursor) => {
            let mut cursor = cursor;
            below(alloc, &mut cursor, size)
        }
    }
}

/// Those at which the term of one of the numbers stands.
fn all_with_one(
    alloc: Global,
    lists: &PackedLists,
    numbers: &[u32],
    size: u32,
) -> Result<Vec<u32>, NoMemory>
    ensures { IfOk result (λ found. found.items
        ≡ filter (λ i. list_any (λ n. is_posted lists.now n i) numbers.now) (range_with_len 0 size)) }
{
    let mut found = Vec::new(alloc);
    for number in numbers {
        let more = all_with(alloc, lists, *number, size)?;
        found = either(alloc, &found, &more)?;
    }
    Ok(found)
}

/// About how many postings the list of a number has.
fn postings(lists: &PackedLists, number: u32) -> usize {
    match lists.cursor(number) {
        None => 0,
        Some(cursor) => cursor.left(),
    }
}

/// About how many postings are walked over for what is wanted, in a segment of so many sentences.
#[cycle(cost)]
fn cost(wanted: &Wanted, lists: &PackedLists, size: usize) -> usize {
    match wanted {
        Wanted::Nowhere => 0,
        Wanted::Everywhere | Wanted::Label(_) => size,
        Wanted::Term(number) => postings(lists, *number),
        Wanted::OneOf(numbers) => {
            let mut sum: usize = 0;
            for number in numbers.get() {
                sum = sum.saturating_add(postings(lists, *number));
            }
            sum
        }
        Wanted::All(parts) => {
            let mut least = size;
            for part in parts.get() {
                least = least.min(cost(part, lists, size));
            }
            least
        }
        Wanted::Any(parts) => {
            let mut sum: usize = 0;
            for part in parts.get() {
                sum = sum.saturating_add(cost(part, lists, size));
            }
            sum
        }
    }
}

/// The place of the part that costs least.
fn cheapest(parts: &[Wanted], lists: &PackedLists, size: usize) -> usize
    requires { 0 < length parts.now }
    ensures { result < length parts.now }
{
    let mut place = 0;
    let mut least = usize::MAX;
    for at in 0..parts.len() {
        let cost = cost(&parts[at], lists, size);
        if cost < least {
            place = at;
            least = cost;
        }
    }
    place
}

/// All sentences of a segment that are wanted, ascending.
///
/// Of several parts that must all be wanted, the cheapest is walked over, and the others are asked
/// for what it leaves.
///
/// # Errors
///
/// `NoMemory` where memory is refused.
#[cycle(seek)]
pub fn all_of(alloc: Global, wanted: &Wanted, searched: &Searched) -> Result<Vec<u32>, NoMemory>
    ensures { IfOk result (λ found. found.items ≡ filter (wanted_at searched.now wanted.now)
        (range_with_len 0 (length searched.now.segment.now.sites))) }
{
    let lists = searched.segment.lists();
    let size = searched.segment.size();
    match wanted {
        Wanted::Nowhere => Ok(Vec::new(alloc)),
        Wanted::Everywhere => every(alloc, size),
        Wanted::Term(number) => all_with(alloc, lists, *number, size),
        Wanted::OneOf(numbers) => all_with_one(alloc, lists, numbers.get(), size),
        Wanted::Label(name) => {
            let all = every(alloc, size)?;
            keep_label(alloc, searched, name, &all)
        }
        Wanted::All(parts) => all_of_all(alloc, parts.get(), searched),
        Wanted::Any(parts) => all_of_any(alloc, parts.get(), searched),
    }
}

/// Those that are wanted by all of the parts.
#[cycle(seek)]
fn all_of_all(alloc: Global, parts: &[Wanted], searched: &Searched) -> Result<Vec<u32>, NoMemory>
    ensures { IfOk result (λ found. found.items
        ≡ filter (λ i. list_all (λ w. wanted_at searched.now w i) parts.now)
        (range_with_len 0 (length searched.now.segment.now.sites))) }
{
    if parts.is_empty() {
        return every(alloc, searched.segment.size());
    }
    let place = cheapest(
        parts,
        searched.segment.lists(),
        searched.segment.size() as usize,
    );
    let first = all_of(alloc, &parts[place], searched)?;
    kept_of_all(alloc, parts, searched, &first)
}

/// Those that are wanted by one of the parts.
#[cycle(seek)]
fn all_of_any(alloc: Global, parts: &[Wanted], searched: &Searched) -> Result<Vec<u32>, NoMemory>
    ensures { IfOk result (λ found. found.items
        ≡ filter (λ i. list_any (λ w. wanted_at searched.now w i) parts.now)
        (range_with_len 0 (length searched.now.segment.now.sites))) }
{
    let mut found = Vec::new(alloc);
    for part in parts {
        let more = all_of(alloc, part, searched)?;
        found = either(alloc, &found, &more)?;
    }
    Ok(found)
}
