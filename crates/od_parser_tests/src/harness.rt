//! Parsers, what they tell of a text, and the rows of a table that they tell otherwise.
ghost use Rattle.std.specs.Prelude.{◌<◌, ◌^◌, length};

use od_event_text::parse_event;
use od_hop::{hop_at, parse_hop};
use od_language::lexeme::LexFault;
use od_language::pattern_fault::PatternFault;
use od_lex::{lex, parse_constraint, tokens};
use od_path::{parse_path, parse_steps, path_of_text};
use od_surface::parse_surface;
use od_text::text::NoMemory;
use std::alloc::Global;

/// Where texts begin that are read as a part of a longer one.
const BEHIND: u32 = 10;

/// What reads a text, and the measure of what it reads.
#[derive(Clone, Copy, Debug)]
pub enum Parser {
    /// The lexemes of a text: how many.
    Lexemes,
    /// The constraint at the front: its lexemes.
    Constraint,
    /// The path at the front: its lexemes.
    Path,
    /// The steps at the front: their lexemes.
    Steps,
    /// The path that a text at place 10 is: its size.
    PathBehind,
    /// The surface pattern that a text is: one.
    Surface,
    /// The hop that a text is: its surfaces.
    Hop,
    /// The hop that a text at place 10 is: its size.
    HopBehind,
    /// The event pattern that a text is: its arguments.
    Event,
}

/// What a parser tells of a text.
#[derive(Clone, Copy, Debug)]
pub enum Told {
    Measure(usize),
    Split(LexFault),
    Refused(PatternFault),
    /// No text of these tables is so long.
    TooLong,
}

fn lexemes(alloc: Global, text: &str) -> Result<usize, LexFault>
    requires { length text.now < 2 ^ 20 }
{
    Ok(tokens(alloc, text)?.len())
}

fn constraint(alloc: Global, text: &str) -> Result<usize, PatternFault>
    requires { length text.now < 2 ^ 20 }
{
    let read = lex(alloc, text)?;
    Ok(parse_constraint(alloc, &read.lexemes, 0)?.1)
}

fn path(alloc: Global, text: &str) -> Result<usize, PatternFault>
    requires { length text.now < 2 ^ 20 }
{
    let read = lex(alloc, text)?;
    Ok(parse_path(alloc, &read.lexemes, 0)?.1)
}

fn steps(alloc: Global, text: &str) -> Result<usize, PatternFault>
    requires { length text.now < 2 ^ 20 }
{
    let read = lex(alloc, text)?;
    Ok(parse_steps(alloc, &read.lexemes, 0)?.1)
}

fn path_behind(alloc: Global, text: &str) -> Result<usize, PatternFault>
    requires { length text.now < 2 ^ 20 }
{
    Ok(path_of_text(alloc, text, BEHIND)?.size)
}

fn surface(alloc: Global, text: &str) -> Result<usize, PatternFault>
    requires { length text.now < 2 ^ 20 }
{
    let _surface = parse_surface(alloc, text)?;
    Ok(1)
}

fn hop(alloc: Global, text: &str) -> Result<usize, PatternFault>
    requires { length text.now < 2 ^ 20 }
{
    let hop = parse_hop(alloc, text)?;
    Ok(hop.rest.len().saturating_add(1))
}

fn hop_behind(alloc: Global, text: &str) -> Result<usize, PatternFault>
    requires { length text.now < 2 ^ 20 }
{
    Ok(hop_at(alloc, text, BEHIND)?.size as usize)
}

fn event(alloc: Global, text: &str) -> Result<usize, PatternFault>
    requires { length text.now < 2 ^ 20 }
{
    Ok(parse_event(alloc, text)?.arguments.len())
}

fn split(found: Result<usize, LexFault>) -> Told {
    match found {
        Ok(measure) => Told::Measure(measure),
        Err(fault) => Told::Split(fault),
    }
}

fn read(found: Result<usize, PatternFault>) -> Told {
    match found {
        Ok(measure) => Told::Measure(measure),
        Err(fault) => Told::Refused(fault),
    }
}

/// What a parser tells of a text.
pub fn tell(alloc: Global, parser: Parser, text: &str) -> Told {
    if text.len() > 100_000 {
        return Told::TooLong;
    }
    match parser {
        Parser::Lexemes => split(lexemes(alloc, text)),
        Parser::Constraint => read(constraint(alloc, text)),
        Parser::Path => read(path(alloc, text)),
        Parser::Steps => read(steps(alloc, text)),
        Parser::PathBehind => read(path_behind(alloc, text)),
        Parser::Surface => read(surface(alloc, text)),
        Parser::Hop => read(hop(alloc, text)),
        Parser::HopBehind => read(hop_behind(alloc, text)),
        Parser::Event => read(event(alloc, text)),
    }
}

/// It in letters: a number, or a fault with its place.
pub fn letters(alloc: Global, told: Told) -> Result<String, NoMemory> {
    match told {
        Told::Measure(measure) => Ok(format!(in alloc; "{measure}")?),
        Told::Split(fault) => Ok(format!(in alloc; "{fault:?}")?),
        Told::Refused(PatternFault::Bad { at, kind }) => {
            Ok(format!(in alloc; "{kind:?} at {at}")?)
        }
        Told::Refused(PatternFault::NoMemory) | Told::TooLong => Err(NoMemory),
    }
}

/// A text, and what a parser tells of it.
pub type Row = (&'static str, &'static str);

/// The texts of which the parser tells something else than what stands beside them, with that.
pub fn misfits(alloc: Global, parser: Parser, rows: &[Row]) -> Result<String, NoMemory> {
    let mut misfits = String::new(alloc);
    for (text, expected) in rows {
        let found = letters(alloc, tell(alloc, parser, text))?;
        if found.as_str() != *expected {
            let line = format!(in alloc; "{parser:?} of {text:?}: {found}\n")?;
            misfits.push_str(line.as_str())?;
        }
    }
    Ok(misfits)
}

/// What stands before a piece, the piece and how often it stands there, what stands behind, and what
/// a parser tells of the whole.
pub type LongRow = (&'static str, &'static str, u32, &'static str, &'static str);

/// The whole text.
pub fn whole(alloc: Global, row: &LongRow) -> Result<String, NoMemory> {
    let (before, piece, times, behind, _) = *row;
    let mut text = String::from_str(alloc, before)?;
    for _k in 0..times {
        text.push_str(piece)?;
    }
    text.push_str(behind)?;
    Ok(text)
}

/// The same of texts that are long.
pub fn long_misfits(alloc: Global, parser: Parser, rows: &[LongRow]) -> Result<String, NoMemory> {
    let mut misfits = String::new(alloc);
    for row in rows {
        let text = whole(alloc, row)?;
        let found = letters(alloc, tell(alloc, parser, text.as_str()))?;
        let (before, piece, times, behind, expected) = *row;
        if found.as_str() != expected {
            let line = format!(in alloc;
                "{parser:?} of {before:?}, {times} times {piece:?}, {behind:?}: {found}\n"
            )?;
            misfits.push_str(line.as_str())?;
        }
    }
    Ok(misfits)
}
