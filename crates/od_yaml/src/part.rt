//! Parts of texts.
ghost use Rattle.std.specs.Prelude.{◌≡◌, ◌<◌, take, drop};
ghost use Rattle.std.specs.Option.{option_map};
ghost use Rattle.std.specs.Str.{IsCharBoundary};
ghost use Rattle.od_text.specs.Cuts.{both, split_once};
ghost use Rattle.od_rule_text.specs.Texts.{begins_with};

/// What stands from a place on.
pub(crate) fn text_from(text: &str, at: usize) -> &str
    requires { IsCharBoundary text.now at }
    ensures { result.now ≡ drop at text.now }
{
    &text[at..]
}

/// What stands before a place.
pub(crate) fn text_to(text: &str, at: usize) -> &str
    requires { IsCharBoundary text.now at }
    ensures { result.now ≡ take at text.now }
{
    &text[..at]
}

/// The text before the first separator and the text behind it, where there is one.
pub(crate) fn cut(text: &str, separator: char) -> Option<(&str, &str)>
    requires { separator < 128 }
    ensures { split_once separator text.now ≡ option_map both result }
{
    text.split_once(separator)
}

/// Whether a text begins with this byte.
pub(crate) fn begins_with(text: &[u8], c: u8) -> bool
    ensures { result ≡ begins_with c text.now }
{
    match text {
        [] => false,
        [first, ..] => *first == c,
    }
}
