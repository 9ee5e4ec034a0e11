//! The entries of an item, by their keys.
ghost use Rattle.std.specs.Prelude.{◌≡◌, option_copied};
ghost use Rattle.std.specs.List.{find};
ghost use Rattle.od_rule_text.specs.Expansion.{is_named};
ghost use Rattle.od_rule_text.specs.Items.{rule_keys, has_rule_keys, value_of};
ghost use Rattle.od_rule_text.specs.Texts.{is_among};

use od_rule_text::rule_file::KeyText;
use od_text::text::Text;

/// Whether it is a key of a rule.
fn is_rule_key(key: &str) -> bool
    ensures { result ≡ is_among rule_keys key.now }
{
    "name" == key || "label" == key || "type" == key || "priority" == key || "pattern" == key
}

/// Whether all keys are those of a rule.
pub(crate) fn has_rule_keys(item: &[KeyText]) -> bool
    ensures { result ≡ has_rule_keys item.now }
{
    item.iter().all(|entry| is_rule_key(entry.key.get()))
}

/// Whether an entry has this key.
fn is_named(key: &str, entry: &KeyText) -> bool
    ensures { result ≡ is_named key.now entry.now }
{
    entry.key.get() == key
}

/// The first entry of a key.
fn entry_of<'a>(item: &'a [KeyText], key: &str) -> Option<&'a KeyText>
    ensures { option_copied result ≡ find (is_named key.now) item.now }
{
    item.iter().find(|entry| is_named(key, entry))
}

/// The text of a key, where it is there.
pub(crate) fn value_of<'a>(item: &'a [KeyText], key: &str) -> Option<&'a Text>
    ensures { option_copied result ≡ value_of key.now item.now }
{
    match entry_of(item, key) {
        Some(entry) => Some(&entry.value),
        None => None,
    }
}
