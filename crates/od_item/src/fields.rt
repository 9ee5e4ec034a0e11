//! The texts of an item for the keys of a rule.
ghost use Rattle.std.specs.Prelude.{◌≡◌, option_copied};
ghost use Rattle.std.specs.Option.{option_map};
ghost use Rattle.od_rule_text.specs.Items as items;
ghost use Rattle.od_rule_text.specs.Priorities.{rule_priority};
ghost use Rattle.od_item.specs.Shown.{shown, shown_type};

use crate::entries::value_of;
use crate::priority::read_priority;
use od_pattern::rule::Priority;
use od_rule_text::limits::RULE_NAME_BYTES;
use od_rule_text::rule_file::KeyText;
use od_text::text::Text;

/// The texts of an item for the keys of a rule.
#[derive(Clone, Copy, Debug)]
pub(crate) struct Fields<'a> {
    pub name: &'a Text,
    pub label: &'a Text,
    pub type_text: &'a Text,
    pub priority: Option<&'a Text>,
    pub pattern: &'a Text,
}

/// The types of rules.
#[derive(Clone, Copy, Debug, PartialEq, Eq)]
pub(crate) enum RuleType {
    Basic,
    Event,
}

/// The texts of an item, of which all but the priority must be there.
pub(crate) fn fields_of(item: &[KeyText]) -> Option<Fields<'_>>
    ensures { items.fields_of item.now ≡ option_map shown result }
{
    Some(Fields {
        name: value_of(item, "name")?,
        label: value_of(item, "label")?,
        type_text: value_of(item, "type")?,
        priority: value_of(item, "priority"),
        pattern: value_of(item, "pattern")?,
    })
}

/// Whether a rule may have this name.
pub(crate) fn is_rule_name(name: &str) -> bool
    ensures { result ≡ items.is_rule_name name.now }
{
    1 <= name.len() && name.len() <= RULE_NAME_BYTES as usize
}

/// The type that a text names.
pub(crate) fn type_of(text: &str) -> Option<RuleType>
    ensures { option_map shown_type result ≡ items.type_of text.now }
{
    match text {
        "basic" => Some(RuleType::Basic),
        "event" => Some(RuleType::Event),
        _ => None,
    }
}

/// The priority of a rule: `1+` where none is written.
pub(crate) fn rule_priority(text: Option<&Text>) -> Option<Priority>
    ensures { result ≡ rule_priority (option_copied text.entry) }
{
    match text {
        Some(text) => read_priority(text.get()),
        None => Some(Priority {
            first: 1,
            last: None,
        }),
    }
}
