//! A grammar built from its text.
ghost use Rattle.std.specs.Prelude.{◌≡◌, Ok, IfOk, IfErr, OnOk};
ghost use Rattle.od_asked.specs.Asked.{asked_rule};
ghost use Rattle.od_asked.specs.Expressions.{expressions_of as asked_expressions};
ghost use Rattle.od_constraint.specs.Runners.{AreOwn, HaveAll, patterns_of};
ghost use Rattle.od_grammar.specs.Faults.{IsBuildFault, refused_since};
ghost use Rattle.od_grammars.specs.Grammars.{grammar_read};
ghost use Rattle.od_rule_text.specs.Expressions.{body_expressions, expressions_of};
ghost use Rattle.od_session.specs.Grammars.{RefusedAsTold};
ghost use Rattle.od_text.specs.Lists.{Each};

use crate::limit::{is_passed, limit_fault};
use crate::reading::read_rules;
use crate::runners::make_runners;
use od_constraint::Runners;
use od_io::PatternMaker;
use od_pattern::grammar::GrammarKind;
use od_rule::compiled::ReadyRules;
use od_rule_text::grammar_fault::{GrammarFault, GrammarLimit};
use std::alloc::Global;

/// A grammar made ready: its rules, and a runner of each of its regular expressions.
#[derive(Drop)]
pub struct Built<R> {
    /// In the order of the text.
    pub rules: ReadyRules,
    /// By first appearance in the text.
    pub runners: Runners<R>,
}

/// The grammar that a text is, with room for so many different regular expressions.
///
/// # Errors
///
/// The first fault in this order: more bytes than a grammar may have, the rule file's, too many
/// rules, too many variables, those of the rules one after another, a label that is that of no
/// rule, more different expressions than there is room for, the first expression that the maker
/// refuses.
/// Where a fault is told, the maker refused nothing, or the one expression that the fault tells. As
/// the code stands, each expression is made once, in the order of first appearance, and none behind
/// one that was refused; no clause says this. `NoMemory` may come at any place.
pub fn build<M: PatternMaker>(
    alloc: Global,
    kind: GrammarKind,
    text: &str,
    room: u32,
    maker: &mut M,
) -> Result<Built<M::Runner>, GrammarFault>
where
    M::Runner: Drop,
    ensures ok { IfOk result (λ built. grammar_read kind text.now room
        ≡ Ok (record { kind = kind; text = text.now; rules = built.rules })) }
    ensures own { IfOk result (λ built. AreOwn M.Runner.pattern built.runners) }
    ensures runners { IfOk result (λ built.
        patterns_of built.runners ≡ expressions_of body_expressions built.rules) }
    ensures has { IfOk result (λ built. Each
        (λ rule. HaveAll built.runners (asked_expressions (asked_rule rule))) built.rules) }
    ensures none_refused { OnOk result (M.refused maker.new ≡ M.refused maker.old) }
    ensures err { IfErr result
        (IsBuildFault (M.refused maker.old) (M.refused maker.new) kind text.now room) }
    ensures told { IfErr result (λ f.
        RefusedAsTold f (refused_since (M.refused maker.old) (M.refused maker.new))) }
{
    if is_passed(GrammarLimit::GrammarBytes, text.len()) {
        return Err(limit_fault(GrammarLimit::GrammarBytes));
    }
    let rules = match read_rules(alloc, kind, text) {
        Ok(rules) => rules,
        Err(fault) => return Err(fault),
    };
    let runners = match make_runners(alloc, rules.get(), room, maker) {
        Ok(runners) => runners,
        Err(fault) => return Err(fault),
    };
    let rules = ReadyRules::make(alloc, rules)?;
    Ok(Built { rules, runners })
}
