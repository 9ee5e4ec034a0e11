//! Rules: a pattern, or an event with a trigger and arguments.
use crate::path::Path;
use crate::pattern::Surface;
use od_text::list::List;
use od_text::text::Text;

/// A further part of a pattern: the path that leads to it, and its surface.
#[derive(Debug, Drop)]
pub struct HopPart {
    pub path: Path,
    pub surface: Surface,
}

/// A surface pattern, then any number of parts that dependency paths lead to.
#[derive(Debug, Drop)]
pub struct Hop {
    pub first: Surface,
    pub rest: List<HopPart>,
}

/// The quantifier of an argument.
#[derive(Clone, Copy, Debug, PartialEq, Eq)]
pub enum Many {
    /// One of the candidates, of which there must be one.
    One,
    /// One of the candidates, or nothing where there is none.
    Optional,
    /// All candidates together, which may be none.
    All,
    /// All candidates together, of which there must be one.
    AllOne,
}

/// An argument of an event rule.
#[derive(Debug, Drop)]
pub struct Argument {
    pub name: Text,
    /// With a label the candidates are spans of mentions that have it; without one they are single tokens.
    pub label: Option<Text>,
    pub many: Many,
    /// How the candidates are reached from the tokens of the trigger.
    pub path: Path,
}

/// A trigger and its arguments.
#[derive(Debug, Drop)]
pub struct EventRule {
    pub trigger: Surface,
    pub arguments: List<Argument>,
}

/// What a rule looks for.
#[derive(Debug, Drop)]
pub enum Body {
    /// Each last match, with the captures on the way to it.
    Basic(Hop),
    /// Each match of a trigger, with arguments around it.
    Event(EventRule),
}

/// The rounds, numbered from 1, in which a rule is run: from the first to the last, or without end.
#[derive(Clone, Copy, Debug, PartialEq, Eq)]
pub struct Priority {
    pub first: u32,
    pub last: Option<u32>,
}

/// A rule of a grammar.
#[derive(Debug, Drop)]
pub struct Rule {
    pub name: Text,
    /// The label of its mentions.
    pub label: Text,
    pub priority: Priority,
    pub body: Body,
}
