//! What a line says, borrowed from it.
ghost use Rattle.std.specs.Prelude.{◌≡◌, List as Seq, ℕ, IfOk};
ghost use Rattle.od_text.specs.Cuts.{split_once};
ghost use Rattle.od_order.specs.Statements as said;
ghost use Rattle.od_order.specs.Statements.{words_of, Statement, alone, naming, counting, opening, querying, query_parts, statement_of, begins_order};
ghost use Rattle.od_script.specs.Said.{AreWords, shown, asked_order, is_order, Says};

use crate::words::{Words, cut_space, is_name, number};
use od_command::history::Command;
use od_order::keyword::Keyword;
use od_order::script::Order;
use od_order::script_kind::ScriptKind;
use od_text::text::{NoMemory, Text};
use std::alloc::Global;

/// An order that stands whole on its line.
#[derive(Clone, Copy, Debug)]
pub(crate) enum Asked<'a> {
    Open {
        session: &'a str,
        grammar: &'a str,
        /// In rounds.
        limit: u32,
    },
    Step(&'a str),
    Run(&'a str),
    Resume(&'a str),
    Print(&'a str),
    Release(&'a str),
    Settle,
}

/// What a line says. A count is of the lines behind it that belong to it.
#[derive(Clone, Copy, Debug)]
pub(crate) enum Said<'a> {
    Rules { name: &'a str, count: u32 },
    Query { name: &'a str, pattern: &'a str },
    Client,
    Document { name: &'a str, count: u32 },
    Order(Asked<'a>),
}

/// A keyword alone.
fn alone(words: Words<'_>) -> Result<(), ScriptKind>
    ensures { (says : Statement) (all : Seq (Seq ℕ)) → AreWords all words.entry
        → Says (alone says all) (λ _. says) result }
{
    match words {
        Words::One(_) => Ok(()),
        _ => Err(ScriptKind::Shape),
    }
}

/// The name behind a keyword.
fn naming<'a>(words: Words<'a>) -> Result<&'a str, ScriptKind>
    ensures { (says : Seq ℕ → Statement) (all : Seq (Seq ℕ)) → AreWords all words.entry
        → Says (naming says all) (λ name. says name.now) result }
{
    let Words::Two(_, name) = words else {
        return Err(ScriptKind::Shape);
    };
    if !is_name(name) {
        return Err(ScriptKind::BadName);
    }
    Ok(name)
}

/// The name and the number behind a keyword.
fn counting<'a>(words: Words<'a>) -> Result<(&'a str, u32), ScriptKind>
    ensures { (says : Seq ℕ → ℕ → Statement) (all : Seq (Seq ℕ)) → AreWords all words.entry
        → Says (counting says all) (λ p. says p.0.now p.1) result }
{
    let Words::Three(_, name, count) = words else {
        return Err(ScriptKind::Shape);
    };
    if !is_name(name) {
        return Err(ScriptKind::BadName);
    }
    match number(count) {
        Some(count) => Ok((name, count)),
        None => Err(ScriptKind::BadNumber),
    }
}

/// The session, the grammar and the limit behind `open`.
fn opening<'a>(words: Words<'a>) -> Result<Asked<'a>, ScriptKind>
    ensures { (all : Seq (Seq ℕ)) → AreWords all words.entry
        → Says (opening all) (λ asked. said.order (asked_order asked)) result }
{
    let Words::Four(_, session, grammar, limit) = words else {
        return Err(ScriptKind::Shape);
    };
    if !is_name(session) || !is_name(grammar) {
        return Err(ScriptKind::BadName);
    }
    match number(limit) {
        Some(limit) => Ok(Asked::Open {
            session,
            grammar,
            limit,
        }),
        None => Err(ScriptKind::BadNumber),
    }
}

/// The name and the pattern behind `query`.
fn querying(text: &str) -> Result<(&str, &str), ScriptKind>
    ensures { Says (querying (query_parts (split_once 32 text.now)))
        (λ p. said.query p.0.now p.1.now) result }
{
    let Some((_, rest)) = cut_space(text) else {
        return Err(ScriptKind::Shape);
    };
    let Some((name, pattern)) = cut_space(rest) else {
        return Err(ScriptKind::Shape);
    };
    if !is_name(name) {
        return Err(ScriptKind::BadName);
    }
    Ok((name, pattern))
}

/// What a line says that begins with a keyword.
pub(crate) fn statement_of<'a>(
    keyword: Keyword,
    words: Words<'a>,
    text: &'a str,
) -> Result<Said<'a>, ScriptKind>
    requires { AreWords (words_of text.now) words }
    ensures says { Says (statement_of keyword text.now) shown result }
    ensures order { IfOk result (λ said. is_order said ≡ begins_order keyword) }
{
    match keyword {
        Keyword::Grammar => {
            let (name, count) = counting(words)?;
            Ok(Said::Rules { name, count })
        }
        Keyword::Query => {
            let (name, pattern) = querying(text)?;
            Ok(Said::Query { name, pattern })
        }
        Keyword::Client => {
            alone(words)?;
            Ok(Said::Client)
        }
        Keyword::Doc => {
            let (name, count) = counting(words)?;
            Ok(Said::Document { name, count })
        }
        Keyword::Open => Ok(Said::Order(opening(words)?)),
        Keyword::Step => Ok(Said::Order(Asked::Step(naming(words)?))),
        Keyword::Run => Ok(Said::Order(Asked::Run(naming(words)?))),
        Keyword::Resume => Ok(Said::Order(Asked::Resume(naming(words)?))),
        Keyword::Print => Ok(Said::Order(Asked::Print(naming(words)?))),
        Keyword::Release => Ok(Said::Order(Asked::Release(naming(words)?))),
        Keyword::Settle => {
            alone(words)?;
            Ok(Said::Order(Asked::Settle))
        }
    }
}

/// The order that is asked, with its own names.
pub(crate) fn order_of(alloc: Global, asked: Asked<'_>) -> Result<Order, NoMemory>
    ensures { IfOk result (λ order. order ≡ asked_order asked.entry) }
{
    let command = match asked {
        Asked::Open {
            session,
            grammar,
            limit,
        } => Command::OpenSession {
            name: Text::from_str(alloc, session)?,
            grammar: Text::from_str(alloc, grammar)?,
            limit,
        },
        Asked::Step(name) => Command::Step {
            name: Text::from_str(alloc, name)?,
        },
        Asked::Run(name) => return Ok(Order::Run(Text::from_str(alloc, name)?)),
        Asked::Resume(name) => Command::Resume {
            name: Text::from_str(alloc, name)?,
        },
        Asked::Print(name) => Command::Print {
            name: Text::from_str(alloc, name)?,
        },
        Asked::Release(name) => Command::Release {
            name: Text::from_str(alloc, name)?,
        },
        Asked::Settle => Command::Settle,
    };
    Ok(Order::One(command))
}
