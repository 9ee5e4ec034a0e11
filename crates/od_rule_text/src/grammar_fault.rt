//! Why a grammar is refused.
ghost use Rattle.std.specs.Prelude.{◌≡◌};
ghost use Rattle.od_rule_text.specs.Grammars.{limit_of};

use crate::limits::{
    GRAMMAR_BYTES, GRAMMAR_EXPRESSIONS, GRAMMAR_RULES, GRAMMAR_VARS, PATTERN_BYTES,
};
use crate::rule_file::YamlKind;
use od_language::pattern_fault::PatternKind;
use od_text::text::{NoMemory, Text};

/// What a grammar may have too much of.
#[derive(Clone, Copy, Debug, PartialEq, Eq)]
pub enum GrammarLimit {
    /// The bytes of its text.
    GrammarBytes,
    /// Its rules.
    Rules,
    /// Its variables.
    Vars,
    /// The bytes of a pattern whose variables are replaced.
    PatternBytes,
    /// Its different regular expressions: more than there is room for in its script.
    Regexes,
}

impl GrammarLimit {
    /// The limit itself, which is allowed.
    pub fn limit(self) -> u32
        ensures { result ≡ limit_of self }
    {
        match self {
            GrammarLimit::GrammarBytes => GRAMMAR_BYTES,
            GrammarLimit::Rules => GRAMMAR_RULES,
            GrammarLimit::Vars => GRAMMAR_VARS,
            GrammarLimit::PatternBytes => PATTERN_BYTES,
            GrammarLimit::Regexes => GRAMMAR_EXPRESSIONS,
        }
    }
}

/// Why a grammar is refused, in the order of testing; memory may be refused at any place.
///
/// Rules are tested one after another, each by all tests up to that of its pattern.
/// Unknown labels, regular expressions without room and those that were refused come after all rules.
/// Rules are numbered from 1; a query is rule 1.
#[derive(Debug, Drop)]
pub enum GrammarFault {
    /// More of something than its limit.
    Limit {
        which: GrammarLimit,
        limit: u32,
    },
    /// The first fault of the rule file, with its line, numbered from 1.
    Yaml {
        line: u32,
        kind: YamlKind,
    },
    /// A key other than name, label, type, priority and pattern.
    UnknownKey {
        rule: u32,
    },
    /// No name, label, type or pattern.
    MissingKey {
        rule: u32,
    },
    /// A name that is empty or has more than 64 bytes.
    BadName {
        rule: u32,
    },
    /// The name of an earlier rule.
    SameName {
        rule: u32,
    },
    /// A label that is no identifier.
    BadLabel {
        rule: u32,
    },
    /// A type that is neither `basic` nor `event`.
    BadType {
        rule: u32,
    },
    /// A priority that is not `n`, `n-m` or `n+` with 1 <= n <= m <= 100.
    BadPriority {
        rule: u32,
    },
    /// A variable that is not there, in the pattern or in a variable that it reaches.
    UnknownVar {
        rule: u32,
    },
    /// The first variable that is reached again within its own expansion.
    VarCycle {
        var: Text,
    },
    /// The first fault of the pattern whose variables are replaced; `at` is its place there, in bytes from 0.
    Pattern {
        rule: u32,
        at: u32,
        kind: PatternKind,
    },
    /// A label, behind `@` or of an argument, that is the label of no rule.
    UnknownLabel {
        rule: u32,
    },
    /// A regular expression that its maker refused: its number by first appearance in the grammar,
    /// from 1, and the rule of that appearance.
    RegexRefused {
        rule: u32,
        number: u32,
    },
    /// Memory was refused.
    NoMemory,
}

impl From<NoMemory> for GrammarFault {
    ghost use Rattle.od_rule_text.specs.declared.grammar_fault.GrammarFault.TheVariants as fault;

    ghost from_gives = { λ _ result. result ≡ fault.NoMemory };

    fn from(_refused: NoMemory) -> GrammarFault {
        GrammarFault::NoMemory
    }
}
