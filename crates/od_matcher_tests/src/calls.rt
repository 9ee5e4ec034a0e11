//! Calls that no rule makes, and types whose values cross threads.
ghost use Rattle.std.specs.Prelude.{◌≡◌};

use crate::documents::indexed;
use crate::hops::CIRCLE;
use od_asked::columns::Columns;
use od_constraint::{Resolved, ResolvedLabel};
use od_pattern::path::Path;
use od_postings::IdSentence;
use od_reach::links::Links;
use od_reach::reaching::reach;
use od_text::list::List;
use od_text::text::NoMemory;
use std::alloc::Global;
use std::test::Fail;

fn needs_send<T: Send>(_value: &T) {}

fn needs_sync<T: Sync>(_value: &T) {}

/// What was resolved crosses threads, and so do links.
fn cross_threads(resolved: &Resolved, label: &ResolvedLabel, links: &Links) {
    needs_send(resolved);
    needs_sync(resolved);
    needs_send(label);
    needs_sync(label);
    needs_send(links);
    needs_sync(links);
}

/// A mark for each sign: a plus is one.
fn marks(alloc: Global, signs: &str) -> Result<Vec<bool>, NoMemory> {
    let mut marks = Vec::new(alloc);
    for sign in signs.as_bytes() {
        marks.push(*sign == b'+')?;
    }
    Ok(marks)
}

fn signs(alloc: Global, marks: &[bool]) -> Result<String, NoMemory> {
    let mut signs = String::new(alloc);
    for mark in marks {
        signs.push(if *mark { '+' } else { '-' })?;
    }
    Ok(signs)
}

/// Where `>>`, which asks for nothing, leads from the marked words, if there is a mark for each.
#[tactic(auto, unfolding(od_asked::specs::Asked::asked_path))]
fn reached(alloc: Global, sentence: &IdSentence, from: &str) -> Result<String, NoMemory> {
    let columns = Columns {
        rows: List::new(alloc),
    };
    let from = marks(alloc, from)?;
    if from.len() != sentence.len() as usize {
        return Ok(String::new(alloc));
    }
    let path = Path::Along(None);
    let found = reach(alloc, &path, sentence, &columns, &from)?;
    signs(alloc, &found)
}

/// From all marked words at once.
#[test]
fn a_path_is_followed_with_its_own_table(rt: HostRuntime) -> Result<(), Fail> {
    let alloc = rt.alloc();
    let doc = indexed(alloc, CIRCLE)?;
    let sentence = doc.sentences.first().ok_or("no sentence")?;
    let found = reached(alloc, sentence, "+--+-")?;
    assert_eq!(rt; found.as_str(), "-+--+");
    Ok(())
}
