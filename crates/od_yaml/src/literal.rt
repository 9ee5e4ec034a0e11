//! Literal scalars: the lines below a key.
ghost use Rattle.std.specs.Prelude.{◌≡◌, ◌^◌, ◌<◌, ◌++◌, ◌∷◌, [], ℕ, List as Seq, length, min, IfOk, OnOk, string_bytes};
ghost use Rattle.std.specs.Str.Lines.{lines};
ghost use Rattle.od_rule_text.specs.Scalars.{first_indentation, is_literal_line, unindented};
ghost use Rattle.od_yaml.specs.Literals.{said_with, joined_text, chomped, EndsWithFeed};
ghost use Rattle.od_yaml.specs.Literals.{IsMark, IsNextOwn, IsTaken, IsLiteral};

use crate::below::{Below, nothing_below};
use crate::blank::{indentation, is_blank_line};
use crate::line::next_line;
use crate::part::text_from;
use crate::quoted::push_text;
use od_text::text::{NoMemory, Text};
use std::alloc::Global;

/// What a literal does with the line feed of its last line.
#[derive(Clone, Copy, Debug, PartialEq, Eq)]
pub(crate) enum Chomping {
    /// It stays: `|`.
    Clip,
    /// It is taken off: `|-`.
    Strip,
}

/// A scalar's text, and the lines below its key that belong to it.
#[derive(Drop)]
pub(crate) struct Scalar<'a> {
    pub text: Text,
    pub below: Below<'a>,
}

/// What the lines of a literal say so far. Blank lines are held back until another line follows.
#[derive(Drop)]
struct LiteralText {
    text: String,
    held: String,
}

/// The text of the lines that were taken, before its last line feed is chomped.
#[derive(Drop)]
struct Taken<'a> {
    text: String,
    below: Below<'a>,
}

/// Whether the rest of a key's line is the mark of a literal, and of which.
pub(crate) fn literal_mark(rest: &str) -> Option<Chomping>
    ensures { IsMark rest.now result }
{
    match rest {
        "|" => Some(Chomping::Clip),
        "|-" => Some(Chomping::Strip),
        _ => None,
    }
}

/// The indentation of the first line that is not blank, 0 where there is none.
fn first_indentation(text: &str) -> usize
    ensures { result ≡ first_indentation (lines text.now) }
{
    let mut rest = text;
    while let Some((line, more)) = next_line(rest) {
        if !is_blank_line(line) {
            return indentation(line.as_bytes());
        }
        rest = more;
    }
    0
}

/// A line without this indentation, or without the spaces of a shorter one.
fn unindented(line: &str, n: usize) -> &str
    ensures { result.now ≡ unindented n line.now }
{
    let at = n.min(indentation(line.as_bytes()));
    text_from(line, at)
}

/// One line more, without its indentation and with a line feed.
fn push_line(text: &mut String, line: &str, n: usize) -> Result<(), NoMemory>
    ensures { OnOk result
        (string_bytes text.new ≡ string_bytes text.old ++ unindented n line.now ++ 10 ∷ []) }
{
    push_text(text, unindented(line, n))?;
    push_text(text, "\n")
}

/// Whether a line is blank, or indented at least so far.
fn is_literal_line(line: &str, n: usize) -> bool
    ensures { result ≡ is_literal_line n line.now }
{
    is_blank_line(line) || n <= indentation(line.as_bytes())
}

impl LiteralText {
    /// No line.
    fn new(alloc: Global) -> LiteralText
        ensures { (n : ℕ) (ws : Seq (Seq ℕ)) → said_with n result ws ≡ joined_text n ws }
    {
        LiteralText {
            text: String::new(alloc),
            held: String::new(alloc),
        }
    }

    /// One line more.
    fn push(&mut self, line: &str, n: usize) -> Result<(), NoMemory>
        ensures { OnOk result ((ws : Seq (Seq ℕ)) →
            said_with n self.old (line.now ∷ ws) ≡ said_with n self.new ws) }
    {
        if is_blank_line(line) {
            return push_line(&mut self.held, line, n);
        }
        push_text(&mut self.text, self.held.as_str())?;
        self.held.clear();
        push_line(&mut self.text, line, n)
    }
}

/// The first line of a text and the text behind it, where the line belongs to a literal of this
/// indentation.
fn next_own_line(text: &str, n: usize) -> Option<(&str, &str)>
    ensures { IsNextOwn n text.now result }
{
    let (line, rest) = next_line(text)?;
    if is_literal_line(line, n) {
        Some((line, rest))
    } else {
        None
    }
}

/// The lines from the front on that belong to a literal of this indentation.
fn take_lines<'a>(alloc: Global, n: usize, text: &'a str) -> Result<Taken<'a>, NoMemory>
    requires { length text.now < 2 ^ 32 }
    ensures { IfOk result (IsTaken n text.now) }
{
    let mut said = LiteralText::new(alloc);
    let mut rest = text;
    let mut lines: u32 = 0;
    while let Some((line, more)) = next_own_line(rest, n) {
        said.push(line, n)?;
        lines += 1;
        rest = more;
    }
    Ok(Taken {
        text: said.text,
        below: Below { lines, rest },
    })
}

/// The text of lines, whose last line feed stays or is taken off.
fn chomped(mut text: String, chomping: Chomping) -> Text
    requires { EndsWithFeed (string_bytes text) }
    ensures { result ≡ chomped chomping (string_bytes text) }
{
    match chomping {
        Chomping::Clip => Text::from_string(text),
        Chomping::Strip => {
            let _feed = text.pop();
            Text::from_string(text)
        }
    }
}

/// The literal below a key at this column.
pub(crate) fn literal<'a>(
    alloc: Global,
    column: usize,
    chomping: Chomping,
    more: &'a str,
) -> Result<Scalar<'a>, NoMemory>
    requires { length more.now < 2 ^ 32 }
    ensures { IfOk result (IsLiteral column chomping more.now) }
{
    let n = first_indentation(more);
    if n <= column {
        return Ok(Scalar {
            text: Text::new(alloc),
            below: nothing_below(more),
        });
    }
    let Taken { text, below } = take_lines(alloc, n, more)?;
    Ok(Scalar {
        text: chomped(text, chomping),
        below,
    })
}
