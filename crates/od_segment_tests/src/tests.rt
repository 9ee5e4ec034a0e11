//! The posting lists of documents, pair by pair.
ghost use Rattle.std.specs.Prelude.{◌≡◌, ◌+◌, ◌≤◌, IfOk};
ghost use Rattle.od_document.specs.Size.{sentence_parts};

use od_cursor::cursor::Cursor;
use od_document::doc::Doc;
use od_document::sentence::Sentence;
use od_document::token::{Edge, Token};
use od_segment::Segment;
use od_text::list::List;
use od_text::text::{NoMemory, Text};
use std::alloc::Global;
use std::test::Fail;

fn token(alloc: Global, word: &str, norm: &str) -> Result<Token, NoMemory> {
    Ok(Token {
        word: Text::from_str(alloc, word)?,
        norm: Text::from_str(alloc, norm)?,
        lemma: None,
        upos: None,
        tag: None,
        entity: None,
        chunk: None,
    })
}

/// `Dogs chase dogs`, whose verb governs both others by one label.
fn around_a_verb(alloc: Global) -> Result<Sentence, NoMemory>
    ensures { IfOk result (λ s. sentence_parts s ≡ 6) }
{
    let mut tokens = List::new(alloc);
    tokens.push(token(alloc, "Dogs", "dogs")?)?;
    tokens.push(token(alloc, "chase", "chase")?)?;
    tokens.push(token(alloc, "dogs", "dogs")?)?;
    let mut edges = List::new(alloc);
    edges.push(Edge {
        governor: 1,
        dependent: 0,
        label: Text::from_str(alloc, "dep")?,
    })?;
    edges.push(Edge {
        governor: 1,
        dependent: 2,
        label: Text::from_str(alloc, "dep")?,
    })?;
    Ok(Sentence { tokens, edges })
}

/// `dog`, 65 times.
fn many_times(alloc: Global) -> Result<Sentence, NoMemory>
    ensures { IfOk result (λ s. sentence_parts s ≡ 66) }
{
    let mut tokens = List::new(alloc);
    for _place in 0..65usize {
        tokens.push(token(alloc, "dog", "dog")?)?;
    }
    Ok(Sentence {
        tokens,
        edges: List::new(alloc),
    })
}

/// `dogs`, alone.
fn alone(alloc: Global) -> Result<Sentence, NoMemory>
    ensures { IfOk result (λ s. sentence_parts s ≡ 2) }
{
    let mut tokens = List::new(alloc);
    tokens.push(token(alloc, "dogs", "dogs")?)?;
    Ok(Sentence {
        tokens,
        edges: List::new(alloc),
    })
}

/// The segment of two sentences.
fn segment_of(alloc: Global, first: Sentence, second: Sentence) -> Result<Segment, NoMemory>
    requires { sentence_parts first + sentence_parts second ≤ 100 }
{
    let mut sentences = List::new(alloc);
    sentences.push(first)?;
    sentences.push(second)?;
    let doc = Doc {
        name: Text::from_str(alloc, "d")?,
        size: 100,
        sentences,
    };
    Segment::build(alloc, &doc)
}

/// The rest of a cursor's list.
fn collect<C: Cursor>(alloc: Global, cursor: &mut C) -> Result<Vec<(u32, u32)>, NoMemory> {
    let mut pairs = Vec::new(alloc);
    let mut first = cursor.at();
    while let Some(pair) = first {
        pairs.push(pair)?;
        cursor.next();
        first = cursor.at();
    }
    Ok(pairs)
}

/// The posting list of a number, or none.
fn list(alloc: Global, segment: &Segment, number: u32) -> Result<Vec<(u32, u32)>, NoMemory> {
    match segment.lists().cursor(number) {
        Some(mut cursor) => collect(alloc, &mut cursor),
        None => Ok(Vec::new(alloc)),
    }
}

/// The terms of both sentences in the order of their numbers, and where each stands: a sentence and
/// a token. The verb governs twice by its label, and stands once in that list.
fn lists() -> [(&'static str, &'static [(u32, u32)]); 7] {
    [
        ("word Dogs", &[(0, 0)]),
        ("word chase", &[(0, 1)]),
        ("word dogs", &[(0, 2), (1, 0)]),
        ("norm chase", &[(0, 1)]),
        ("norm dogs", &[(0, 0), (0, 2), (1, 0)]),
        ("incoming dep", &[(0, 0), (0, 2)]),
        ("outgoing dep", &[(0, 1)]),
    ]
}

#[test]
fn each_term_has_the_tokens_at_which_it_stands(rt: HostRuntime) -> Result<(), Fail> {
    let alloc = rt.alloc();
    let segment = segment_of(alloc, around_a_verb(alloc)?, alone(alloc)?)?;
    let mut number = 0u32;
    for (term, pairs) in lists() {
        let found = list(alloc, &segment, number)?;
        assert_eq!(rt; found.as_slice(), pairs, "{term}");
        number = number.wrapping_add(1);
    }
    assert_eq!(rt; segment.table().len(), number);
    assert!(rt; segment.lists().cursor(number).is_none());
    Ok(())
}

#[test]
fn a_list_of_more_than_one_block_is_walked(rt: HostRuntime) -> Result<(), Fail> {
    let alloc = rt.alloc();
    let segment = segment_of(alloc, many_times(alloc)?, alone(alloc)?)?;
    // The word dog stands before the word dogs.
    let pairs = list(alloc, &segment, 0)?;
    assert_eq!(rt; pairs.len(), 65);
    for (place, pair) in pairs.iter().enumerate() {
        assert_eq!(rt; (pair.0, pair.1 as usize), (0, place));
    }
    Ok(())
}
