//! The lines of an event pattern, and the two parts of a line.
ghost use Rattle.std.specs.Prelude.{◌≡◌, ◌+◌, ◌^◌, ◌<◌, length, MatchOption, IfSome};
ghost use Rattle.std.specs.List.{list_all};
ghost use Rattle.std.specs.Char.{is_whitespace};
ghost use Rattle.std.specs.Option.{option_map};
ghost use Rattle.std.specs.Str.{chars as chars_in};
ghost use Rattle.od_syntax.specs.Events.{cut_from};
ghost use Rattle.od_event_text.specs.Parts.{ends, own_of, IsCutAt, IsFirstLine, IsNextLine, IsParted};

/// A part of a pattern's text, which begins at a place of the whole.
#[derive(Clone, Copy, Debug)]
pub struct Part<'a> {
    /// The place of its first byte, in bytes from 0.
    pub at: u32,
    pub text: &'a str,
}

/// The text before the first such character and that behind it, where there is one.
fn cut(text: &str, separator: char) -> Option<(&str, &str)>
    requires { separator < 128 }
    ensures { IsCutAt separator text.now result }
{
    text.split_once(separator)
}

/// Whether a text is of white space alone.
fn is_blank(text: &str) -> bool
    ensures { result ≡ list_all is_whitespace (chars_in text.now) }
{
    text.trim_start().is_empty()
}

/// The first line, and what stands behind its line feed.
fn first_line(rest: Part<'_>) -> (Part<'_>, Part<'_>)
    requires some { 0 < length rest.text.now }
    requires room { ends rest < 2 ^ 32 }
    ensures { IsFirstLine rest.entry result.0 result.1 }
{
    match cut(rest.text, '\n') {
        Some((text, more)) => {
            let to = rest.at + text.len() as u32 + 1;
            (Part { at: rest.at, text }, Part { at: to, text: more })
        }
        None => {
            let to = rest.at + rest.text.len() as u32;
            (rest, Part { at: to, text: "" })
        }
    }
}

/// The first line that is not of white space alone, and what stands behind it.
pub fn next_line(all: Part<'_>) -> Option<(Part<'_>, Part<'_>)>
    requires { ends all < 2 ^ 32 }
    ensures { IsNextLine all.entry result }
{
    let mut rest = all;
    while !rest.text.is_empty() {
        let (line, more) = first_line(rest);
        if !is_blank(line.text) {
            return Some((line, more));
        }
        rest = more;
    }
    None
}

/// A line in two at its first `=`: the head, and the text behind.
pub fn cut_line(line: Part<'_>) -> Option<(&str, Part<'_>)>
    requires { ends line < 2 ^ 32 }
    ensures { IsParted line.entry result }
{
    match cut(line.text, '=') {
        Some((head, text)) => {
            let at = line.at + head.len() as u32 + 1;
            Some((head, Part { at, text }))
        }
        None => None,
    }
}
