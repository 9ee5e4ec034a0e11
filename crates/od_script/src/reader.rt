//! What the lines of a script have said so far.
ghost use Rattle.std.specs.Prelude.{◌≡◌, ◌+◌, ◌<◌, ◌^◌, length, true, false, IfOk, IfErr};
ghost use Rattle.od_order.specs.Lines.{has_bad_byte, lines_before_bad_byte};
ghost use Rattle.od_order.specs.Scripts.{Reading};
ghost use Rattle.od_order.specs.declared.script.Script.{Script as SpecScript};
ghost use Rattle.od_script.specs.Readers.{Takes, TakesAlone};

use crate::lines::{block, line_text, says_nothing};
use crate::script::ScriptFault;
use crate::statement::{Asked, Said, order_of, statement_of};
use crate::words::{keyword_in, words_of};
use od_command::history::Command;
use od_names::names::Names;
use od_order::keyword::Keyword;
use od_order::script::{CLIENTS, HEADS, ORDERS, Order, Script};
use od_order::script_kind::ScriptKind;
use od_pattern::grammar::{GrammarKind, Head};
use od_text::list::List;
use od_text::text::{Bytes, NoMemory, Text};
use std::alloc::Global;
use std::marker::Model;
use std::str::from_utf8;

/// The grammars and the clients' orders that were read. A grammar is found by its name, and the orders are
/// counted.
#[derive(Drop)]
pub(crate) struct Reader {
    heads: Vec<Head>,
    names: Names,
    clients: Vec<List<Order>>,
    orders: usize,
}

impl Model for Reader {
    ghost use Rattle.od_order.specs.declared.script.Script.{Script};
    ghost use Rattle.od_script.specs.Readers.{IsCounted};

    ghost Value = { Script };

    ghost view = { λ r. record { heads = r.heads.items; clients = r.clients.items } };

    ghost invariant = { λ r. IsCounted r.heads.items r.names r.clients.items r.orders };
}

/// A fault of a line.
fn bad(line: u32, kind: ScriptKind) -> ScriptFault
    ensures { result ≡ ScriptFault.Bad line kind }
{
    ScriptFault::Bad { line, kind }
}

/// The lines of a rule file that stand behind a line as a text, or a fault at the first of them that is none.
fn block_text(number: u32, block: &[u8]) -> Result<&str, ScriptFault>
    requires { number + length block.now + 1 < 2 ^ 32 }
    ensures text { IfOk result (λ text. text.now ≡ block.now) }
    ensures ok { IfOk result (λ text. has_bad_byte block.now ≡ false) }
    ensures bad { IfErr result (λ _. has_bad_byte block.now ≡ true) }
    ensures fault { IfErr result (λ fault. fault ≡ ScriptFault.Bad
        (number + 1 + lines_before_bad_byte block.now) ScriptKind.NotUtf8) }
{
    match from_utf8(block) {
        Ok(text) => Ok(text),
        Err(error) => {
            let before = &block[..error.valid_up_to()];
            let ended = before.iter().filter(|b| **b == b'\n').count();
            Err(bad(number + 1 + ended as u32, ScriptKind::NotUtf8))
        }
    }
}

/// What was taken of a line without a block: all behind it is left.
fn without_block(taken: Result<(), ScriptFault>, behind: &[u8]) -> Result<(u32, &[u8]), ScriptFault>
    ensures { (reading : Reading) (new : SpecScript) → TakesAlone reading new taken
        → Takes reading new behind.now 0 result }
{
    match taken {
        Ok(()) => Ok((0, behind)),
        Err(fault) => Err(fault),
    }
}

impl Reader {
    ghost use Rattle.std.specs.Prelude.{◌≡◌, ◌+◌, ◌<◌, ◌^◌, ◌++◌, [], ◌∷◌, List as Seq, ℕ, Ok, true, false, length, nat_le, OnOk};
    ghost use Rattle.od_order.specs.Lines.{line_text};
    ghost use Rattle.od_order.specs.Scripts.{nothing_said, has_client, has_head, order_count, with_order, with_head, misplaced, take_statement, take_keyword, take_line};
    ghost use Rattle.od_order.specs.Statements as said;
    ghost use Rattle.od_order.specs.Statements.{block_behind, block_with, block_count, keyword_in};
    ghost use Rattle.od_order.specs.declared.script.TheConstants.{ORDERS};
    ghost use Rattle.od_script.specs.Readers.{line_at};
    ghost use Rattle.od_script.specs.Said.{shown, asked_order, is_order};

    /// Nothing was said.
    pub(crate) fn new(alloc: Global) -> Reader
        ensures { result ≡ nothing_said }
    {
        Reader {
            heads: Vec::new(alloc),
            names: Names::new(alloc),
            clients: Vec::new(alloc),
            orders: 0,
        }
    }

    /// The script.
    pub(crate) fn close(self) -> Script
        ensures { result ≡ self }
    {
        let Reader { heads, clients, .. } = self;
        Script {
            heads: List::from_vec(heads),
            clients: List::from_vec(clients),
        }
    }

    /// Whether a head has this name.
    fn has_head(&self, name: &Text) -> bool
        ensures { result ≡ has_head name.now self.now.heads }
    {
        self.names.place(name).is_some()
    }

    /// Why a keyword may not stand here.
    fn misplaced(&self, keyword: Keyword) -> Option<ScriptKind>
        ensures { result ≡ misplaced self.now keyword }
    {
        let begun = !self.clients.is_empty();
        match keyword {
            Keyword::Grammar | Keyword::Query => begun.then_some(ScriptKind::LateHead),
            Keyword::Client => None,
            _ => (!begun).then_some(ScriptKind::NoClient),
        }
    }

    /// One more head, whose name is new.
    fn push_head(&mut self, alloc: Global, head: Head) -> Result<(), NoMemory>
        requires { has_head head.name self.old.heads ≡ false }
        ensures { OnOk result (self.new ≡ with_head self.old head) }
    {
        self.heads.reserve(1)?;
        self.names.push(alloc, &head.name)?;
        self.heads.push_reserved(head);
        Ok(())
    }

    /// One more order of the last client.
    fn push_order(&mut self, order: Order) -> Result<(), NoMemory>
        requires begun { has_client self.old ≡ true }
        requires room { nat_le ORDERS (order_count self.old.clients) ≡ false }
        ensures { OnOk result
            (self.new ≡ record self.old { clients = with_order order self.old.clients }) }
    {
        let last = self.clients.len() - 1;
        let orders = &mut self.clients[last];
        orders.push(order)?;
        self.orders += 1;
        Ok(())
    }

    /// One more client, who has no order yet.
    fn push_client(&mut self, alloc: Global) -> Result<(), NoMemory>
        ensures { OnOk result
            (self.new ≡ record self.old { clients = self.old.clients ++ [] ∷ [] }) }
    {
        self.clients.push(List::new(alloc))?;
        Ok(())
    }

    /// With a rule file, the lines that follow.
    fn take_rules<'a>(
        &mut self,
        alloc: Global,
        number: u32,
        name: &str,
        count: u32,
        behind: &'a [u8],
    ) -> Result<(u32, &'a [u8]), ScriptFault>
        requires { number + length behind.now + 1 < 2 ^ 32 }
        ensures { (line : Seq ℕ) → Takes (take_statement self.old (line_at number line behind.now)
            (said.rules name.now count)) self.new behind.now count result }
    {
        let name = Text::from_str(alloc, name)?;
        if self.has_head(&name) {
            return Err(bad(number, ScriptKind::SameHead));
        }
        let Some((text, more)) = block(behind, count) else {
            return Err(bad(number, ScriptKind::ShortBlock));
        };
        if HEADS <= self.heads.len() {
            return Err(bad(number, ScriptKind::TooMany));
        }
        let text = Text::from_str(alloc, block_text(number, text)?)?;
        let kind = GrammarKind::RuleFile;
        self.push_head(alloc, Head { name, kind, text })?;
        Ok((count, more))
    }

    /// With a query.
    fn take_query(
        &mut self,
        alloc: Global,
        number: u32,
        name: &str,
        pattern: &str,
    ) -> Result<(), ScriptFault>
        ensures { (line : Seq ℕ) (behind : Seq ℕ) → TakesAlone (take_statement self.old
            (line_at number line behind) (said.query name.now pattern.now)) self.new result }
    {
        let name = Text::from_str(alloc, name)?;
        if self.has_head(&name) {
            return Err(bad(number, ScriptKind::SameHead));
        }
        if HEADS <= self.heads.len() {
            return Err(bad(number, ScriptKind::TooMany));
        }
        let text = Text::from_str(alloc, pattern)?;
        let kind = GrammarKind::Query;
        self.push_head(alloc, Head { name, kind, text })?;
        Ok(())
    }

    /// With the next client.
    fn take_client(&mut self, alloc: Global, number: u32) -> Result<(), ScriptFault>
        ensures { (line : Seq ℕ) (behind : Seq ℕ) → TakesAlone (take_statement self.old
            (line_at number line behind) said.client) self.new result }
    {
        if CLIENTS <= self.clients.len() {
            return Err(bad(number, ScriptKind::TooMany));
        }
        self.push_client(alloc)?;
        Ok(())
    }

    /// With a document, the lines that follow.
    fn take_document<'a>(
        &mut self,
        alloc: Global,
        number: u32,
        name: &str,
        count: u32,
        behind: &'a [u8],
    ) -> Result<(u32, &'a [u8]), ScriptFault>
        requires { has_client self.old ≡ true }
        ensures { (line : Seq ℕ) → Takes (take_statement self.old (line_at number line behind.now)
            (said.document name.now count)) self.new behind.now count result }
    {
        let Some((body, more)) = block(behind, count) else {
            return Err(bad(number, ScriptKind::ShortBlock));
        };
        if ORDERS <= self.orders {
            return Err(bad(number, ScriptKind::TooMany));
        }
        let name = Text::from_str(alloc, name)?;
        let body = Bytes::from_slice(alloc, body)?;
        self.push_order(Order::One(Command::AddDoc { name, body }))?;
        Ok((count, more))
    }

    /// With an order that stands whole on its line.
    fn take_order(
        &mut self,
        alloc: Global,
        number: u32,
        asked: Asked<'_>,
    ) -> Result<(), ScriptFault>
        requires { has_client self.old ≡ true }
        ensures { (line : Seq ℕ) (behind : Seq ℕ) → TakesAlone (take_statement self.old
            (line_at number line behind) (said.order (asked_order asked.entry))) self.new result }
    {
        if ORDERS <= self.orders {
            return Err(bad(number, ScriptKind::TooMany));
        }
        let order = order_of(alloc, asked)?;
        self.push_order(order)?;
        Ok(())
    }

    /// With what a line says. Gives how many lines behind it belong to it, and the bytes behind these.
    fn take_statement<'a>(
        &mut self,
        alloc: Global,
        number: u32,
        said: Said<'_>,
        behind: &'a [u8],
    ) -> Result<(u32, &'a [u8]), ScriptFault>
        requires room { number + length behind.now + 1 < 2 ^ 32 }
        requires begun { is_order said ≡ true → has_client self.old ≡ true }
        ensures { (line : Seq ℕ) → Takes (take_statement self.old (line_at number line behind.now)
            (shown said.entry)) self.new behind.now (block_count (Ok (shown said.entry))) result }
    {
        match said {
            Said::Rules { name, count } => self.take_rules(alloc, number, name, count, behind),
            Said::Document { name, count } => {
                self.take_document(alloc, number, name, count, behind)
            }
            Said::Query { name, pattern } => {
                without_block(self.take_query(alloc, number, name, pattern), behind)
            }
            Said::Client => without_block(self.take_client(alloc, number), behind),
            Said::Order(asked) => without_block(self.take_order(alloc, number, asked), behind),
        }
    }

    /// With the text of a line that says something.
    fn take_text<'a>(
        &mut self,
        alloc: Global,
        number: u32,
        text: &str,
        behind: &'a [u8],
    ) -> Result<(u32, &'a [u8]), ScriptFault>
        requires { number + length behind.now + 1 < 2 ^ 32 }
        ensures { (line : Seq ℕ) → line_text line ≡ text.now
            → Takes (take_keyword self.old (line_at number line behind.now) (keyword_in text.now))
            self.new behind.now (block_with text.now (keyword_in text.now)) result }
    {
        let words = words_of(text);
        let Some(keyword) = keyword_in(words) else {
            return Err(bad(number, ScriptKind::BadWord));
        };
        if let Some(kind) = self.misplaced(keyword) {
            return Err(bad(number, kind));
        }
        match statement_of(keyword, words, text) {
            Ok(said) => self.take_statement(alloc, number, said, behind),
            Err(kind) => Err(bad(number, kind)),
        }
    }

    /// With one line more, its block included. Gives how many lines behind it belong to it, and the bytes
    /// behind these; or its first fault.
    pub(crate) fn take_line<'a>(
        &mut self,
        alloc: Global,
        number: u32,
        line: &[u8],
        behind: &'a [u8],
    ) -> Result<(u32, &'a [u8]), ScriptFault>
        requires { number + length behind.now + 1 < 2 ^ 32 }
        ensures { Takes (take_line self.old (line_at number line.now behind.now)) self.new behind.now
            (block_behind (line_text line.now)) result }
    {
        let Ok(line) = from_utf8(line) else {
            return Err(bad(number, ScriptKind::NotUtf8));
        };
        let text = line_text(line);
        if says_nothing(text) {
            return Ok((0, behind));
        }
        self.take_text(alloc, number, text, behind)
    }
}
