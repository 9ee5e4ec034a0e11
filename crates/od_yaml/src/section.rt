//! Where statements may stand, and what an entry is there.
ghost use Rattle.std.specs.Prelude.{◌≡◌};
ghost use Rattle.std.specs.Option.{option_map};
ghost use Rattle.od_rule_text.specs.RuleFiles.{fits, fits_item, heading};
ghost use Rattle.od_yaml.specs.Sections.{section_shown};

/// A section of a rule file.
#[derive(Clone, Copy, Debug, PartialEq, Eq)]
pub(crate) enum Section {
    Vars,
    Rules,
}

/// What an entry is.
#[derive(Clone, Copy, Debug, PartialEq, Eq)]
pub(crate) enum Role {
    Variable,
    /// The first entry of an item.
    FirstKey,
    /// A further entry of the last item.
    FurtherKey,
}

/// The section that a statement begins: `vars:` or `rules:` at column 0.
pub(crate) fn heading(column: usize, text: &str) -> Option<Section>
    ensures { heading column text.now ≡ option_map section_shown result }
{
    if column != 0 {
        return None;
    }
    match text {
        "vars:" => Some(Section::Vars),
        "rules:" => Some(Section::Rules),
        _ => None,
    }
}

/// Whether a column is this one, where it is known.
pub(crate) fn fits(known: Option<usize>, column: usize) -> bool
    ensures { result ≡ fits known column }
{
    match known {
        None => true,
        Some(c) => column == c,
    }
}

/// Whether a column is that of the items or of their keys, where it is known.
pub(crate) fn fits_item(known: Option<usize>, column: usize) -> bool
    ensures { result ≡ fits_item known column }
{
    match known {
        None => true,
        Some(c) => column == c || (2 <= column && column - 2 == c),
    }
}
