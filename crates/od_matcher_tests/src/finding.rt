//! What the first rule of a grammar finds in a document. A mention is written as its span, and
//! behind it each of its parts with its name; a bar stands between two sentences. Of more than 50
//! mentions of a sentence their number is written.
ghost use Rattle.std.specs.Prelude.{◌≡◌, ◌∷◌, List as Seq, IfSome};
ghost use Rattle.std.specs.Arc.{arc_value};
ghost use Rattle.od_asked.specs.Asked.{asked_rule};
ghost use Rattle.od_asked.specs.Expressions.{expressions_of};
ghost use Rattle.od_constraint.specs.Runners.{AreOwn, HaveAll};
ghost use Rattle.od_pattern.specs.declared.rule.Rule.{Rule as Asked};
ghost use Rattle.od_rule.specs.Codes.{IsCodeOf};
ghost use Rattle.od_text.specs.Lists.{Each};

use crate::documents::indexed;
use od_columns::{ResolvedRule, columns_on, resolve_rule};
use od_constraint::Runners;
use od_extraction::mention::{Labelled, Mention};
use od_grammar::{Built, build};
use od_io::{RegexMaker, Runner};
use od_pattern::grammar::GrammarKind;
use od_pattern::rule::Rule;
use od_postings::{IdSentence, IndexedDoc};
use od_rule::code::RuleCode;
use od_rule::finder::Finder;
use od_rule::mentions::mentions_left;
use od_text::text::NoMemory;
use od_trails::fault::MatchFault;
use std::alloc::Global;

/// The most mentions of a sentence that are written out.
const MOST_WRITTEN: usize = 50;

/// One piece more.
fn push(piece: &str, letters: &mut String) -> Result<(), NoMemory> {
    letters.push_str(piece)?;
    Ok(())
}

/// A mention in letters.
fn write(alloc: Global, mention: &Mention, letters: &mut String) -> Result<(), NoMemory> {
    let span = format!(in alloc; "{}-{}", mention.start, mention.end)?;
    letters.push_str(span.as_str())?;
    for part in mention.parts.get() {
        let name = part.name.get();
        let piece = format!(in alloc; " {name} {}-{}", part.start, part.end)?;
        letters.push_str(piece.as_str())?;
    }
    Ok(())
}

/// The mentions of a sentence in letters.
fn write_all(alloc: Global, mentions: &[Mention], letters: &mut String) -> Result<(), NoMemory> {
    if mentions.len() > MOST_WRITTEN {
        let count = mentions.len();
        let number = format!(in alloc; "{count} mentions")?;
        letters.push_str(number.as_str())?;
        return Ok(());
    }
    let mut gap = "";
    for mention in mentions {
        letters.push_str(gap)?;
        write(alloc, mention, letters)?;
        gap = ", ";
    }
    Ok(())
}

/// A rule made ready for the sentences of a table.
#[derive(Clone, Copy)]
struct Ready<'a> {
    rule: &'a Rule,
    code: &'a RuleCode,
    resolved: &'a ResolvedRule,
}

/// What a rule finds on a sentence.
fn find_on(
    alloc: Global,
    finder: &mut Finder,
    ready: &Ready,
    words: &IdSentence,
    local: &[Labelled],
    letters: &mut String,
) -> Result<(), MatchFault>
    requires code { IsCodeOf ready.now.rule.now.body ready.now.code.now }
    requires asked { ready.now.resolved.now.asked ≡ asked_rule ready.now.rule.now }
    requires table { ready.now.resolved.now.table ≡ words.now.table }
{
    let columns = columns_on(alloc, ready.resolved, words)?;
    let found = finder.find(alloc, ready.rule, ready.code, words, &columns, local)?;
    let mentions = mentions_left(alloc, ready.rule, 0, 0, found)?;
    write_all(alloc, mentions.get(), letters)?;
    Ok(())
}

/// What a rule finds on sentences, in room that is kept from one to the next.
fn find_all(
    alloc: Global,
    ready: &Ready,
    sentences: &[IdSentence],
    local: &[Labelled],
) -> Result<String, MatchFault>
    requires code { IsCodeOf ready.now.rule.now.body ready.now.code.now }
    requires asked { ready.now.resolved.now.asked ≡ asked_rule ready.now.rule.now }
    requires over { Each (λ s. s.table ≡ ready.now.resolved.now.table) sentences.now }
{
    let mut finder = Finder::new(alloc);
    let mut letters = String::new(alloc);
    let mut gap = "";
    for words in sentences {
        push(gap, &mut letters)?;
        find_on(alloc, &mut finder, ready, words, local, &mut letters)?;
        gap = " | ";
    }
    Ok(letters)
}

/// What a rule finds in a document, with runners of its expressions.
fn find_in<R: Runner>(
    alloc: Global,
    rule: &Rule,
    runners: &mut Runners<R>,
    doc: &IndexedDoc,
    local: &[Labelled],
) -> Result<String, MatchFault>
    requires own { AreOwn R.pattern runners.old }
    requires has { HaveAll runners.old (expressions_of (asked_rule rule.now)) }
    requires over { Each (λ s. s.table ≡ arc_value doc.now.table) doc.now.sentences.items }
{
    let code = RuleCode::make(alloc, rule)?;
    let resolved = resolve_rule(alloc, rule, &doc.table, runners)?;
    let ready = Ready {
        rule,
        code: &code,
        resolved: &resolved,
    };
    let letters = find_all(alloc, &ready, &doc.sentences, local)?;
    Ok(letters)
}

/// The first rule.
pub fn first(rules: &[Rule]) -> Option<&Rule>
    ensures { IfSome result (λ rule. (more : Seq Asked) × (rules.now ≡ rule.now ∷ more)) }
{
    match rules {
        [] => None,
        [rule, ..] => Some(rule),
    }
}

/// What was found, or how many there are where they are too many.
fn shown(alloc: Global, found: Result<String, MatchFault>) -> Result<String, NoMemory> {
    match found {
        Ok(letters) => Ok(letters),
        Err(MatchFault::Crowded { count }) => Ok(format!(in alloc; "crowded by {count}")?),
        Err(MatchFault::NoMemory) => Err(NoMemory),
    }
}

/// What the first rule of a grammar finds in a document, where the state has labelled spans in each
/// sentence.
pub fn found(
    alloc: Global,
    kind: GrammarKind,
    grammar: &str,
    document: &str,
    local: &[Labelled],
) -> Result<String, NoMemory> {
    let doc = indexed(alloc, document)?;
    let mut maker = RegexMaker::new(alloc);
    let built = match build(alloc, kind, grammar, 64, &mut maker) {
        Ok(built) => built,
        Err(fault) => return Ok(format!(in alloc; "{fault:?}")?),
    };
    let Built { rules, mut runners } = built;
    match first(rules.rules()) {
        Some(rule) => shown(alloc, find_in(alloc, rule, &mut runners, &doc, local)),
        None => Ok(String::from_str(alloc, "no rule")?),
    }
}

/// A query, and what it finds.
pub type Row = (&'static str, &'static str);

/// The queries that find something else in a document than what stands beside them, with that.
pub fn misfits(alloc: Global, document: &str, rows: &[Row]) -> Result<String, NoMemory> {
    let mut misfits = String::new(alloc);
    for (query, expected) in rows {
        let found = found(alloc, GrammarKind::Query, query, document, &[])?;
        if found.as_str() != *expected {
            let line = format!(in alloc; "{query}: {found}\n")?;
            misfits.push_str(line.as_str())?;
        }
    }
    Ok(misfits)
}
