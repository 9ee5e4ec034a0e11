//! One item of a rule file as a rule.
ghost use Rattle.std.specs.Prelude.{◌≡◌, ◌≤◌, IfOk, IfErr, Ok, Some, length};
ghost use Rattle.std.specs.Option.{option_map};
ghost use Rattle.od_rule_text.specs.declared.limits.TheConstants.{PATTERN_BYTES};
ghost use Rattle.od_rule_text.specs.Expansion.{expanded};
ghost use Rattle.od_rule_text.specs.Grammars as grammars;
ghost use Rattle.od_rule_text.specs.Items as items;
ghost use Rattle.od_rule_text.specs.Priorities.{rule_priority};
ghost use Rattle.od_rule_text.specs.Texts.{is_among};
ghost use Rattle.od_item.specs.Answers.{TellsRule};
ghost use Rattle.od_item.specs.Faults.{IsRuleFault};
ghost use Rattle.od_grammars.specs.Grammars.{patterns};
ghost use Rattle.od_item.specs.Shown.{shown, shown_type};

use crate::body::body_of;
use crate::entries::has_rule_keys;
use crate::fault::passed;
use crate::fields::{Fields, RuleType, fields_of, is_rule_name, rule_priority, type_of};
use crate::identifier::is_identifier;
use od_expansion::{Expander, ExpansionFault};
use od_language::pattern_fault::PatternFault;
use od_names::names::Names;
use od_pattern::rule::{Body, Priority, Rule};
use od_rule_text::grammar_fault::{GrammarFault, GrammarLimit};
use od_rule_text::rule_file::KeyText;
use od_text::text::{Copied, NoMemory, Text};
use std::alloc::Global;

/// A rule of these fields.
fn rule_with(
    alloc: Global,
    fields: Fields<'_>,
    priority: Priority,
    body: Body,
) -> Result<Rule, NoMemory>
    ensures { IfOk result (λ rule. (rule.name ≡ fields.entry.name.now)
        × (rule.label ≡ fields.entry.label.now)
        × (rule.priority ≡ priority) × (rule.body ≡ body)) }
{
    Ok(Rule {
        name: fields.name.copy(alloc)?,
        label: fields.label.copy(alloc)?,
        priority,
        body,
    })
}

/// The rule whose pattern has this text.
fn with_text(
    alloc: Global,
    number: u32,
    fields: Fields<'_>,
    rule_type: RuleType,
    priority: Priority,
    text: &Text,
) -> Result<Rule, GrammarFault>
    requires { length text.now ≤ PATTERN_BYTES }
    ensures { TellsRule result (grammars.with_body number (shown fields.entry) priority
        (grammars.body_of patterns (shown_type rule_type) text.now)) }
{
    match body_of(alloc, rule_type, text.get()) {
        Ok(body) => match rule_with(alloc, fields, priority, body) {
            Ok(rule) => Ok(rule),
            Err(NoMemory) => Err(GrammarFault::NoMemory),
        },
        Err(PatternFault::Bad { at, kind }) => Err(GrammarFault::Pattern {
            rule: number,
            at,
            kind,
        }),
        Err(PatternFault::NoMemory) => Err(GrammarFault::NoMemory),
    }
}

/// The rule whose pattern is expanded now.
fn with_pattern(
    alloc: Global,
    expander: &mut Expander,
    number: u32,
    fields: Fields<'_>,
    rule_type: RuleType,
    priority: Priority,
) -> Result<Rule, GrammarFault>
    ensures tells { TellsRule result (grammars.with_text patterns number (shown fields.entry)
        (shown_type rule_type) priority (expanded expander.old fields.entry.pattern.now)) }
    ensures same { expander.new ≡ expander.old }
{
    match expander.expand(alloc, fields.pattern) {
        Ok(text) => with_text(alloc, number, fields, rule_type, priority, &text),
        Err(ExpansionFault::UnknownVar) => Err(GrammarFault::UnknownVar { rule: number }),
        Err(ExpansionFault::VarCycle { var }) => Err(GrammarFault::VarCycle { var }),
        Err(ExpansionFault::TooLong) => Err(passed(GrammarLimit::PatternBytes)),
        Err(ExpansionFault::NoMemory) => Err(GrammarFault::NoMemory),
    }
}

/// The rule of this type.
fn with_type(
    alloc: Global,
    expander: &mut Expander,
    number: u32,
    fields: Fields<'_>,
    rule_type: RuleType,
) -> Result<Rule, GrammarFault>
    ensures tells { TellsRule result (grammars.with_type patterns expander.old number
        (shown fields.entry) (Some (shown_type rule_type))) }
    ensures same { expander.new ≡ expander.old }
{
    match rule_priority(fields.priority) {
        Some(priority) => with_pattern(alloc, expander, number, fields, rule_type, priority),
        None => Err(GrammarFault::BadPriority { rule: number }),
    }
}

/// The rule of these fields, whose name and label are right.
fn with_label(
    alloc: Global,
    expander: &mut Expander,
    number: u32,
    fields: Fields<'_>,
) -> Result<Rule, GrammarFault>
    ensures tells { TellsRule result (grammars.with_type patterns expander.old number
        (shown fields.entry) (items.type_of fields.entry.type_text.now)) }
    ensures same { expander.new ≡ expander.old }
{
    match type_of(fields.type_text.get()) {
        Some(rule_type) => with_type(alloc, expander, number, fields, rule_type),
        None => Err(GrammarFault::BadType { rule: number }),
    }
}

/// Whether an earlier rule has this name.
fn is_known(names: &Names, name: &Text) -> bool
    ensures { result ≡ is_among names.now name.now }
{
    names.place(name).is_some()
}

/// The rule of these fields.
fn with_fields(
    alloc: Global,
    expander: &mut Expander,
    number: u32,
    names: &Names,
    fields: Fields<'_>,
) -> Result<Rule, GrammarFault>
    ensures tells { TellsRule result (grammars.with_fields patterns expander.old number names.now
        (Some (shown fields.entry))) }
    ensures same { expander.new ≡ expander.old }
{
    if !is_rule_name(fields.name.get()) {
        return Err(GrammarFault::BadName { rule: number });
    }
    if is_known(names, fields.name) {
        return Err(GrammarFault::SameName { rule: number });
    }
    if !is_identifier(fields.label.get().as_bytes()) {
        return Err(GrammarFault::BadLabel { rule: number });
    }
    with_label(alloc, expander, number, fields)
}

/// The answer of `read_rule`.
fn rule_of(
    alloc: Global,
    expander: &mut Expander,
    number: u32,
    names: &Names,
    item: &[KeyText],
) -> Result<Rule, GrammarFault>
    ensures tells { TellsRule result
        (grammars.rule_of patterns expander.old number names.now item.now) }
    ensures same { expander.new ≡ expander.old }
{
    if !has_rule_keys(item) {
        return Err(GrammarFault::UnknownKey { rule: number });
    }
    match fields_of(item) {
        Some(fields) => with_fields(alloc, expander, number, names, fields),
        None => Err(GrammarFault::MissingKey { rule: number }),
    }
}

/// The rule that an item of a rule file says, or its first fault. `number` is its number from 1,
/// `names` are those of the earlier rules, and the expander has the variables of the file.
///
/// The tests come in this order: keys that no rule has, keys that are missing, the name, that no
/// earlier rule has it, the label, the type, the priority, the variables of the pattern, its length
/// once they are replaced, and the first fault of the text that it is then. That text is a hop, or
/// in a rule of the type `event` an event pattern. A fault of it has its place in bytes from 0.
/// Memory may be refused at any place.
pub fn read_rule(
    alloc: Global,
    expander: &mut Expander,
    number: u32,
    names: &Names,
    item: &[KeyText],
) -> Result<Rule, GrammarFault>
    ensures ok { IfOk result (λ rule.
        grammars.rule_of patterns expander.old number names.now item.now ≡ Ok rule) }
    ensures err { IfErr result (IsRuleFault expander.old number names.now item.now) }
    ensures same { expander.new ≡ expander.old }
{
    rule_of(alloc, expander, number, names, item)
}
