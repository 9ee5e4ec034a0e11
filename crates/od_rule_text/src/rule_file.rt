//! Rule files: what their text holds, and what can be wrong with it.
ghost use Rattle.std.specs.Prelude.{◌≡◌};

use od_text::list::List;
use od_text::text::{NoMemory, Text};

/// A key, and the text of the scalar behind it.
#[derive(Debug, Drop)]
pub struct KeyText {
    /// An identifier.
    pub key: Text,
    /// The text without its quotes, escapes, indentation or comment.
    pub value: Text,
}

/// The entries of a rule file, in the order of its text.
#[derive(Debug, Drop)]
pub struct RuleFile {
    /// The entries under `vars:`, whose keys differ.
    pub vars: List<KeyText>,
    /// The entries of each item under `rules:`: at least one each, whose keys differ.
    pub rules: List<List<KeyText>>,
}

/// The kinds of faults of a rule file, in the order in which one line is tested.
#[derive(Clone, Copy, Debug, PartialEq, Eq)]
pub enum YamlKind {
    /// A tab in the indentation.
    Tab,
    /// A column at which no line may stand there.
    Indent,
    /// Under `rules:`, a line in the place of an item that does not begin with `- `.
    Item,
    /// No key with `:` and a space behind it, or no entry may begin there.
    BadKey,
    /// A key for the second time in its item or under `vars:`, or a second `vars:` or `rules:`.
    SameKey,
    /// No scalar stands behind the key.
    BadScalar,
    /// No `rules:`, or no item under it: the line of `rules:`, or 1. Tested last.
    NoRules,
}

/// The first fault of a rule file with its line, numbered from 1, or that memory was refused.
#[derive(Clone, Copy, Debug, PartialEq, Eq)]
pub enum YamlFault {
    Bad { line: u32, kind: YamlKind },
    NoMemory,
}

impl From<NoMemory> for YamlFault {
    ghost use Rattle.od_rule_text.specs.declared.rule_file.YamlFault.TheVariants as fault;

    ghost from_gives = { λ _ result. result ≡ fault.NoMemory };

    fn from(_refused: NoMemory) -> YamlFault {
        YamlFault::NoMemory
    }
}
