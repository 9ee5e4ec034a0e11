//! Lines, one at a time.
ghost use Rattle.std.specs.Prelude.{◌≡◌};
ghost use Rattle.std.specs.Str.Lines.{strip_carriage_return};
ghost use Rattle.od_yaml.specs.Lines.{IsNextLine};

use crate::part::{cut, text_from};

/// The line without the carriage return at its end.
fn strip_return(line: &str) -> &str
    ensures { result.now ≡ strip_carriage_return line.now }
{
    match line.strip_suffix('\r') {
        Some(front) => front,
        None => line,
    }
}

/// The first line of a text, without what ends it, and the text of the others.
pub(crate) fn next_line(text: &str) -> Option<(&str, &str)>
    ensures { IsNextLine text.now result }
{
    if text.is_empty() {
        return None;
    }
    match cut(text, '\n') {
        Some((line, rest)) => Some((strip_return(line), rest)),
        None => Some((text, text_from(text, text.len()))),
    }
}
