//! What the rules of a grammar have as a whole: labels that are known, and runners of expressions.
ghost use Rattle.std.specs.Prelude.{◌≡◌, ◌<◌, ◌^◌, None, Some, length, IfOk, IfErr, OnOk};
ghost use Rattle.std.specs.Option.{option_or};
ghost use Rattle.od_constraint.specs.Runners.{AreOwn, patterns_of};
ghost use Rattle.od_grammar.specs.Faults.{accepts_all_but, refused_since};
ghost use Rattle.od_grammars.specs.Grammars.{patterns};
ghost use Rattle.od_grammar.specs.Telling.{Tells};
ghost use Rattle.od_rule_text.specs.Expressions.{body_expressions, expressions_of};
ghost use Rattle.od_rule_text.specs.Expressions.{first_appearances};
ghost use Rattle.od_rule_text.specs.Grammars.{refusal, whole_fault};
ghost use Rattle.od_session.specs.Grammars.{RefusedAsTold};

use crate::expressions::first_uses;
use crate::labels::check_labels;
use crate::limit::limit_fault;
use crate::making::make_all;
use od_constraint::Runners;
use od_io::PatternMaker;
use od_pattern::rule::Rule;
use od_rule_text::grammar_fault::{GrammarFault, GrammarLimit};
use std::alloc::Global;

/// The runners of the different expressions of rules, or the first fault of the rules as a whole.
pub(crate) fn make_runners<M: PatternMaker>(
    alloc: Global,
    rules: &[Rule],
    room: u32,
    maker: &mut M,
) -> Result<Runners<M::Runner>, GrammarFault>
where
    M::Runner: Drop,
    requires { length rules.now < 2 ^ 32 }
    ensures none { OnOk result (whole_fault patterns room rules.now ≡ None) }
    ensures own { IfOk result (AreOwn M.Runner.pattern) }
    ensures patterns { IfOk result (λ runners.
        patterns_of runners ≡ expressions_of body_expressions rules.now) }
    ensures none_refused { OnOk result (M.refused maker.new ≡ M.refused maker.old) }
    ensures err { IfErr result (Tells (λ f. option_or (whole_fault patterns room rules.now)
        (refusal (accepts_all_but (refused_since (M.refused maker.old) (M.refused maker.new)))
        1 (first_appearances body_expressions rules.now)) ≡ Some f)) }
    ensures told { IfErr result (λ f.
        RefusedAsTold f (refused_since (M.refused maker.old) (M.refused maker.new))) }
{
    match check_labels(alloc, rules) {
        Ok(()) => {}
        Err(fault) => return Err(fault),
    }
    let found = first_uses(alloc, rules)?;
    if (room as usize) < found.len() {
        return Err(limit_fault(GrammarLimit::Regexes));
    }
    make_all(alloc, &found, maker)
}
