//! The rules that a grammar's text says, one after another.
ghost use Rattle.std.specs.Prelude.{◌≡◌, ◌≤◌, ◌<◌, ◌^◌, ◌++◌, ◌∷◌, [], Ok, Err, length, IfOk, IfErr};
ghost use Rattle.od_expansion.specs.Rest.{AreDistinct};
ghost use Rattle.od_grammar.specs.Telling.{Tells};
ghost use Rattle.od_grammars.specs.Grammars.{patterns};
ghost use Rattle.od_rule_text.specs.Grammars.{file_rules, query_entries, rule_of};
ghost use Rattle.od_rule_text.specs.Grammars.{rules_of, text_rules};
ghost use Rattle.od_rule_text.specs.RuleFiles.{rule_file_of};

use crate::limit::{is_passed, limit_fault};
use od_expansion::Expander;
use od_item::{read_query, read_rule};
use od_names::names::Names;
use od_pattern::grammar::GrammarKind;
use od_pattern::rule::Rule;
use od_rule_text::grammar_fault::{GrammarFault, GrammarLimit};
use od_rule_text::rule_file::{KeyText, RuleFile, YamlFault};
use od_text::list::List;
use od_yaml::read_rules_file;
use std::alloc::Global;

/// The rule of an item; its name becomes one of the names of earlier rules.
fn take_item(
    alloc: Global,
    expander: &mut Expander,
    number: u32,
    names: &mut Names,
    item: &[KeyText],
) -> Result<Rule, GrammarFault>
    ensures ok { IfOk result (λ rule.
        rule_of patterns expander.old number names.old item.now ≡ Ok rule) }
    ensures names { IfOk result (λ rule. names.new ≡ names.old ++ rule.name ∷ []) }
    ensures err { IfErr result (Tells (λ f.
        rule_of patterns expander.old number names.old item.now ≡ Err f)) }
    ensures same { expander.new ≡ expander.old }
{
    match read_rule(alloc, expander, number, names, item) {
        Ok(rule) => match names.push(alloc, &rule.name) {
            Ok(()) => Ok(rule),
            Err(_) => Err(GrammarFault::NoMemory),
        },
        Err(fault) => Err(fault),
    }
}

/// The rules of items in their order, up to the first fault.
fn read_items(
    alloc: Global,
    expander: &mut Expander,
    items: &[List<KeyText>],
) -> Result<List<Rule>, GrammarFault>
    requires { length items.now < 2 ^ 32 }
    ensures ok { IfOk result (λ rules.
        rules_of patterns expander.old 1 [] items.now ≡ Ok rules) }
    ensures many { IfOk result (λ rules. length rules ≡ length items.now) }
    ensures err { IfErr result (Tells (λ f.
        rules_of patterns expander.old 1 [] items.now ≡ Err f)) }
{
    let mut rules = List::new(alloc);
    let mut names = Names::new(alloc);
    let mut passed: u32 = 0;
    for item in items {
        match take_item(alloc, expander, passed + 1, &mut names, item.get()) {
            Ok(rule) => rules.push(rule)?,
            Err(fault) => return Err(fault),
        }
        passed += 1;
    }
    Ok(rules)
}

/// The rules of a rule file, of which and of whose variables there may be too many.
fn read_file(alloc: Global, file: RuleFile) -> Result<List<Rule>, GrammarFault>
    requires { AreDistinct file.vars }
    ensures ok { IfOk result (λ rules. file_rules patterns (Ok file) ≡ Ok rules) }
    ensures few { IfOk result (λ rules. length rules < 2 ^ 32) }
    ensures err { IfErr result (Tells (λ f. file_rules patterns (Ok file) ≡ Err f)) }
{
    let RuleFile { vars, rules } = file;
    if is_passed(GrammarLimit::Rules, rules.len()) {
        return Err(limit_fault(GrammarLimit::Rules));
    }
    if is_passed(GrammarLimit::Vars, vars.len()) {
        return Err(limit_fault(GrammarLimit::Vars));
    }
    let mut expander = Expander::new(alloc, vars)?;
    read_items(alloc, &mut expander, rules.get())
}

/// The rules of a rule file's text.
fn read_file_text(alloc: Global, text: &str) -> Result<List<Rule>, GrammarFault>
    requires { length text.now < 2 ^ 32 }
    ensures ok { IfOk result (λ rules. file_rules patterns (rule_file_of text.now) ≡ Ok rules) }
    ensures few { IfOk result (λ rules. length rules < 2 ^ 32) }
    ensures err { IfErr result (Tells (λ f. file_rules patterns (rule_file_of text.now) ≡ Err f)) }
{
    match read_rules_file(alloc, text) {
        Ok(file) => read_file(alloc, file),
        Err(YamlFault::Bad { line, kind }) => Err(GrammarFault::Yaml { line, kind }),
        Err(YamlFault::NoMemory) => Err(GrammarFault::NoMemory),
    }
}

/// The one rule of a query.
fn read_query_text(alloc: Global, text: &str) -> Result<List<Rule>, GrammarFault>
    ensures ok { IfOk result (λ rules.
        rules_of patterns [] 1 [] (query_entries text.now ∷ []) ≡ Ok rules) }
    ensures few { IfOk result (λ rules. length rules < 2 ^ 32) }
    ensures err { IfErr result (Tells (λ f.
        rules_of patterns [] 1 [] (query_entries text.now ∷ []) ≡ Err f)) }
{
    match read_query(alloc, text) {
        Ok(rule) => {
            let mut rules = List::new(alloc);
            rules.push(rule)?;
            Ok(rules)
        }
        Err(fault) => Err(fault),
    }
}

/// The rules that a text of fewer than 2^32 bytes says, or the first fault of any of them.
pub(crate) fn read_rules(
    alloc: Global,
    kind: GrammarKind,
    text: &str,
) -> Result<List<Rule>, GrammarFault>
    requires { length text.now < 2 ^ 32 }
    ensures ok { IfOk result (λ rules. text_rules patterns kind text.now ≡ Ok rules) }
    ensures few { IfOk result (λ rules. length rules < 2 ^ 32) }
    ensures err { IfErr result (Tells (λ f. text_rules patterns kind text.now ≡ Err f)) }
{
    match kind {
        GrammarKind::RuleFile => read_file_text(alloc, text),
        GrammarKind::Query => read_query_text(alloc, text),
    }
}
