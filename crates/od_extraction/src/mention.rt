//! Mentions, and what a round gives.
ghost use Rattle.std.specs.Prelude.{◌≡◌, ◌↔◌, IsTrue, length};

use od_text::list::List;
use od_text::text::{Copied, NoMemory, Text, copy_option, same_option};
use std::alloc::Global;

/// What the mentions of a session may weigh together: each weighs one and the number of its parts.
pub const SESSION_WEIGHT: u64 = 100_000;

/// The most elements of a list after one of a hop's parts, and the most mentions of an event rule on
/// a sentence.
pub const MOST_FOUND: u64 = 10_000;

/// The tokens of a sentence from a start to an end that is not included, numbered from 0.
#[derive(Clone, Copy, Debug, PartialEq, Eq)]
pub struct Span {
    pub start: u32,
    pub end: u32,
}

/// A span with a label, as the state has it on a sentence.
#[derive(Debug, Drop)]
pub struct Labelled {
    pub label: Text,
    pub span: Span,
}

/// A named span of a mention's sentence: a capture, or an argument. It may have no token.
#[derive(Debug, Drop)]
pub struct Part {
    pub name: Text,
    /// An argument's label, where its rule gives it one; a capture has none.
    pub label: Option<Text>,
    pub start: u32,
    pub end: u32,
}

/// What a pattern matched: the tokens that it took, at least one, and its captures in the order in which they begin.
#[derive(Debug, Drop)]
pub struct Match {
    pub span: Span,
    pub captures: List<Part>,
}

/// What a rule found: documents, the sentences of each and the tokens of each sentence are numbered from 0, the end is not included.
#[derive(Debug, Drop)]
pub struct Mention {
    pub document: u32,
    pub sentence: u32,
    pub start: u32,
    pub end: u32,
    /// The label of the rule.
    pub label: Text,
    /// The name of the rule.
    pub rule: Text,
    /// The captures in the order in which they begin, then the arguments in the order of the rule.
    pub parts: List<Part>,
}

/// What a round gives: the new mentions in their order, or why it is refused.
#[derive(Debug, Drop)]
pub enum RoundResult {
    /// The mentions that it adds.
    Found(List<Mention>),
    /// A rule, numbered from 1, gives too many mentions on a sentence: the first count above 10,000.
    Crowded {
        rule: u32,
        document: u32,
        sentence: u32,
        count: u64,
    },
    /// With one mention more the session would weigh so much, which is above 100,000.
    TooMany {
        weight: u64,
    },
}

impl Part {
    /// Whether two parts agree in all fields.
    pub fn same(&self, other: &Part) -> bool
        ensures { IsTrue result ↔ (self.now ≡ other.now) }
    {
        self.start == other.start
            && self.end == other.end
            && self.name.same(&other.name)
            && same_option(&self.label, &other.label)
    }
}

impl Copied for Part {
    fn copy(&self, alloc: Global) -> Result<Part, NoMemory> {
        Ok(Part {
            name: self.name.copy(alloc)?,
            label: copy_option(alloc, &self.label)?,
            start: self.start,
            end: self.end,
        })
    }
}

/// Whether two rows of parts agree, part by part.
pub fn same_parts(left: &[Part], right: &[Part]) -> bool
    ensures { IsTrue result ↔ (left.now ≡ right.now) }
{
    match left {
        [] => right.is_empty(),
        [first, rest @ ..] => match right {
            [] => false,
            [other, others @ ..] => first.same(other) && same_parts(rest, others),
        },
    }
}

impl Mention {
    /// Whether two mentions agree in all fields.
    pub fn same(&self, other: &Mention) -> bool
        ensures { IsTrue result ↔ (self.now ≡ other.now) }
    {
        self.document == other.document
            && self.sentence == other.sentence
            && self.start == other.start
            && self.end == other.end
            && self.label.same(&other.label)
            && self.rule.same(&other.rule)
            && same_parts(self.parts.get(), other.parts.get())
    }
}

impl Copied for Mention {
    fn copy(&self, alloc: Global) -> Result<Mention, NoMemory> {
        Ok(Mention {
            document: self.document,
            sentence: self.sentence,
            start: self.start,
            end: self.end,
            label: self.label.copy(alloc)?,
            rule: self.rule.copy(alloc)?,
            parts: self.parts.copy(alloc)?,
        })
    }
}
