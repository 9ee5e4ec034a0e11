//! Grammars and the heads of a script that name them.
use crate::rule::Rule;
use od_text::list::List;
use od_text::text::Text;

/// A rule file, or one query.
#[derive(Clone, Copy, Debug, PartialEq, Eq)]
pub enum GrammarKind {
    RuleFile,
    Query,
}

/// The rules of a grammar, in the order of its text.
#[derive(Debug, Drop)]
pub struct Grammar {
    pub kind: GrammarKind,
    pub text: Text,
    pub rules: List<Rule>,
}

/// A grammar as a script names it.
#[derive(Debug, Drop)]
pub struct Head {
    pub name: Text,
    pub kind: GrammarKind,
    /// The rule file, or the query's pattern.
    pub text: Text,
}
