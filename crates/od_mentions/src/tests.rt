//! Mentions of two documents, added, looked up and taken back.
use crate::State;
use od_extraction::mention::{Mention, Part};
use od_text::list::List;
use od_text::text::{NoMemory, Text};
use std::alloc::Global;
use std::test::Fail;

fn needs_send<T: Send>(_value: &T) {}

fn needs_sync<T: Sync>(_value: &T) {}

/// States cross threads.
fn cross_threads(state: &State) {
    needs_send(state);
    needs_sync(state);
}

/// A mention of one token, with one part.
fn mention(alloc: Global, document: u32, sentence: u32, label: &str) -> Result<Mention, NoMemory> {
    let mut parts = List::new(alloc);
    parts.push(Part {
        name: Text::from_str(alloc, "subject")?,
        label: None,
        start: 0,
        end: 1,
    })?;
    Ok(Mention {
        document,
        sentence,
        start: 2,
        end: 3,
        label: Text::from_str(alloc, label)?,
        rule: Text::from_str(alloc, "barks")?,
        parts,
    })
}

/// Whether the mention was added.
fn add(
    alloc: Global,
    state: &mut State,
    document: u32,
    sentence: u32,
    label: &str,
) -> Result<bool, NoMemory> {
    let mention = mention(alloc, document, sentence, label)?;
    if state.weight() > 100 || mention.parts.len() > 1 {
        return Err(NoMemory);
    }
    state.add(alloc, mention)
}

/// Six additions, one of which is a repeat.
fn filled(alloc: Global) -> Result<(State, u32), NoMemory> {
    let mut state = State::new(alloc);
    let mut added = 0u32;
    for (document, sentence, label) in [
        (1, 0, "Dog"),
        (0, 2, "Dog"),
        (0, 2, "Cat"),
        (1, 0, "Dog"),
        (0, 1, "Dog"),
        (0, 2, "Bird"),
    ] {
        if add(alloc, &mut state, document, sentence, label)? {
            added = added.wrapping_add(1);
        }
    }
    Ok((state, added))
}

/// The labels of a sentence's mentions among the first ones.
fn labels(
    alloc: Global,
    state: &State,
    count: usize,
    document: u32,
    sentence: u32,
) -> Result<Vec<&str>, NoMemory> {
    let mut labels = Vec::new(alloc);
    if count <= state.len() {
        for mention in state.of_sentence_before(alloc, count, document, sentence)? {
            labels.push(mention.label.get())?;
        }
    }
    Ok(labels)
}

#[test]
fn mentions_are_found_until_they_are_taken_back(rt: HostRuntime) -> Result<(), Fail> {
    let alloc = rt.alloc();
    let (mut state, added) = filled(alloc)?;
    assert_eq!(rt; (added, state.len(), state.weight()), (5, 5, 10));
    assert_eq!(rt;
        labels(alloc, &state, 5, 0, 2)?.as_slice(),
        ["Dog", "Cat", "Bird"].as_slice()
    );
    assert_eq!(rt;
        labels(alloc, &state, 3, 0, 2)?.as_slice(),
        ["Dog", "Cat"].as_slice()
    );
    assert_eq!(rt; state.of_sentence(alloc, 0, 2)?.len(), 3);
    let dogs = state.sentences_with(alloc, "Dog")?;
    assert_eq!(rt; dogs.as_slice(), [(0, 1), (0, 2), (1, 0)].as_slice());
    let bird = mention(alloc, 0, 2, "Bird")?;
    assert!(rt; state.holds(&bird));
    state.cut(2);
    assert!(rt; !state.holds(&bird));
    assert_eq!(rt; (state.get().len(), state.weight()), (2, 4));
    let dogs = state.sentences_with(alloc, "Dog")?;
    assert_eq!(rt; dogs.as_slice(), [(0, 2), (1, 0)].as_slice());
    assert!(rt; add(alloc, &mut state, 0, 2, "Bird")?);
    assert_eq!(rt;
        labels(alloc, &state, 3, 0, 2)?.as_slice(),
        ["Dog", "Bird"].as_slice()
    );
    assert_eq!(rt; state.into_list().len(), 3);
    Ok(())
}
