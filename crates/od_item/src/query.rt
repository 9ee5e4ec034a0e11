//! Queries as rules.
ghost use Rattle.std.specs.Prelude.{◌≡◌, IfOk, IfErr, Ok, []};
ghost use Rattle.od_rule_text.specs.Grammars as grammars;
ghost use Rattle.od_item.specs.Faults.{IsRuleFault};
ghost use Rattle.od_grammars.specs.Grammars.{patterns};

use crate::rule::read_rule;
use od_expansion::Expander;
use od_names::names::Names;
use od_pattern::rule::Rule;
use od_rule_text::grammar_fault::GrammarFault;
use od_rule_text::rule_file::KeyText;
use od_text::list::List;
use od_text::text::{NoMemory, Text};
use std::alloc::Global;

/// An entry.
fn entry(alloc: Global, key: &str, value: &str) -> Result<KeyText, NoMemory>
    ensures { IfOk result (λ e. e ≡ grammars.entry key.now value.now) }
{
    Ok(KeyText {
        key: Text::from_str(alloc, key)?,
        value: Text::from_str(alloc, value)?,
    })
}

/// The entries of a query.
fn query_entries(alloc: Global, text: &str) -> Result<List<KeyText>, NoMemory>
    ensures { IfOk result (λ entries. entries ≡ grammars.query_entries text.now) }
{
    let mut entries = List::new(alloc);
    entries.push(entry(alloc, "name", "query")?)?;
    entries.push(entry(alloc, "label", "Query")?)?;
    entries.push(entry(alloc, "type", "basic")?)?;
    entries.push(entry(alloc, "pattern", text)?)?;
    Ok(entries)
}

/// Without variables.
fn no_variables(alloc: Global) -> Result<Expander, NoMemory>
    ensures { IfOk result (λ expander. expander ≡ []) }
{
    Expander::new(alloc, List::new(alloc))
}

/// A query as the one rule that it is, of the number 1: its name is `query`, its label `Query`, and
/// its text a hop, without variables. Or its first fault. Memory may be refused at any place.
pub fn read_query(alloc: Global, text: &str) -> Result<Rule, GrammarFault>
    ensures ok { IfOk result (λ rule.
        grammars.rule_of patterns [] 1 [] (grammars.query_entries text.now) ≡ Ok rule) }
    ensures err { IfErr result (IsRuleFault [] 1 [] (grammars.query_entries text.now)) }
{
    let entries = query_entries(alloc, text)?;
    let mut expander = no_variables(alloc)?;
    let names = Names::new(alloc);
    read_rule(alloc, &mut expander, 1, &names, entries.get())
}
