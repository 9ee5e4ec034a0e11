//! Entries in a row, whose keys are looked up in a map.
ghost use Rattle.std.specs.Prelude.{◌≡◌, ◌++◌, ◌∷◌, [], false, OnOk};
ghost use Rattle.od_rule_text.specs.RuleFiles.{has_key};

use od_names::names::Names;
use od_rule_text::rule_file::KeyText;
use od_text::list::List;
use od_text::text::{NoMemory, Text};
use std::alloc::Global;
use std::marker::Model;

/// Entries in the order in which they came, each with another key.
#[derive(Drop)]
pub(crate) struct Entries {
    entries: Vec<KeyText>,
    keys: Names,
}

impl Model for Entries {
    ghost use Rattle.std.specs.Prelude.{◌≡◌, List, map};
    ghost use Rattle.od_rule_text.specs.declared.rule_file.KeyText.{KeyText};

    ghost Value = { List KeyText };

    ghost view = { λ e. e.entries.items };

    ghost invariant = { λ e. e.keys ≡ map (λ (entry : KeyText). entry.key) e.entries.items };
}

impl Entries {
    /// No entry.
    pub(crate) fn new(alloc: Global) -> Entries
        ensures { result ≡ [] }
    {
        Entries {
            entries: Vec::new(alloc),
            keys: Names::new(alloc),
        }
    }

    /// Whether an entry has this key.
    pub(crate) fn has(&self, key: &Text) -> bool
        ensures { result ≡ has_key key.now self.now }
    {
        self.keys.place(key).is_some()
    }

    /// One more entry at the end, whose key is new.
    pub(crate) fn push(&mut self, alloc: Global, entry: KeyText) -> Result<(), NoMemory>
        requires { has_key entry.key self.old ≡ false }
        ensures { OnOk result (self.new ≡ self.old ++ entry ∷ []) }
    {
        self.entries.reserve(1)?;
        self.keys.push(alloc, &entry.key)?;
        self.entries.push_reserved(entry);
        Ok(())
    }

    /// The entries without the look-up.
    pub(crate) fn close(self) -> List<KeyText>
        ensures { result ≡ self }
    {
        let Entries { entries, .. } = self;
        List::from_vec(entries)
    }
}
