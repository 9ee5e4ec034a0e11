//! How many steps the machine takes.
ghost use Rattle.std.specs.Prelude.{◌≤◌, ◌<◌, ◌^◌, length};
ghost use Rattle.od_document.specs.declared.limits.TheConstants.{SENTENCE_TOKENS};

use od_asked::columns::Columns;
use od_document::limits::SENTENCE_TOKENS;
use od_language::pattern_fault::PatternFault;
use od_machine::compile::compile;
use od_machine::scan::{Scanner, scan};
use od_machine::spans::SpanIndex;
use od_surface::parse_surface;
use od_text::list::List;
use od_text::text::NoMemory;
use std::alloc::Global;
use std::test::Fail;

/// A row that is the same at each token.
fn row(alloc: Global, holds: bool, tokens: u32) -> Result<List<bool>, NoMemory> {
    let mut truths = List::new(alloc);
    for _k in 0..tokens {
        truths.push(holds)?;
    }
    Ok(truths)
}

/// A row for each sign: what has a plus holds at each token, and what has a minus at none.
fn table(alloc: Global, signs: &str, tokens: u32) -> Result<Columns, NoMemory> {
    let mut rows = List::new(alloc);
    for sign in signs.as_bytes() {
        rows.push(row(alloc, *sign == b'+', tokens)?)?;
    }
    Ok(Columns { rows })
}

/// How many steps a scan takes of so many tokens, and how many matches it finds.
fn counts(
    alloc: Global,
    pattern: &str,
    signs: &str,
    tokens: u32,
) -> Result<(usize, usize), PatternFault>
    requires short { length pattern.now < 2 ^ 20 }
    requires few { tokens ≤ SENTENCE_TOKENS }
{
    let surface = parse_surface(alloc, pattern)?;
    let program = compile(alloc, &surface)?;
    let columns = table(alloc, signs, tokens)?;
    let index = SpanIndex::new(alloc);
    let mut scanner = Scanner::new(alloc);
    let found = scanner.scan(alloc, &program, tokens, &columns, 0, &[], &index)?;
    let alone = scan(alloc, &program, tokens, &columns, &[])?;
    if alone.len() != found.len() {
        return Err(PatternFault::NoMemory);
    }
    Ok((scanner.steps(), found.len()))
}

/// Patterns, where their words stand, and the steps over 2,000 tokens with the matches.
///
/// Of the 5 instructions of the first pattern 3 are reached at the first place and at the end, and
/// each once at the others (one of them with and without a token taken, the last one never). Of
/// the 11 of the second one 7 and 9, and 11. The third one's first token never stands; where its
/// last one never does, each start takes up all three instructions but for the end, and the last
/// start has a place for two of them.
const STEPS: [(&str, &str, usize, usize); 4] = [
    ("a*? b", "+-", 3 + 5 * 1999 + 3, 0),
    ("(a|a)* b", "++-", 7 + 11 * 1999 + 9, 0),
    ("b a a", "-++", 2000, 0),
    ("a a b", "++-", 3 * 1999 + 2, 0),
];

#[test]
fn no_state_is_taken_up_twice_and_a_first_test_that_fails_is_all(
    rt: HostRuntime,
) -> Result<(), Fail> {
    let alloc = rt.alloc();
    for (pattern, signs, steps, matches) in &STEPS {
        assert!(rt; pattern.len() < 1000, "{pattern} is short");
        let found = counts(alloc, pattern, signs, SENTENCE_TOKENS)?;
        assert_eq!(rt; found, (*steps, *matches), "of {pattern}");
    }
    Ok(())
}
