//! The runners of the different regular expressions of a grammar.
ghost use Rattle.std.specs.Prelude.{◌≡◌, ◌<◌, ◌^◌, ◌++◌, ◌∷◌, [], Some, length, map, IfOk, IfErr, IsErrOf, OnOk};
ghost use Rattle.od_constraint.specs.Runners.{AreOwn, patterns_of};
ghost use Rattle.od_grammar.specs.Faults.{accepts_all_but, refused_since};
ghost use Rattle.od_grammar.specs.Telling.{Tells};
ghost use Rattle.od_grammar.specs.Uses.{AreNew, uses};
ghost use Rattle.od_rule_text.specs.Grammars.{refusal};
ghost use Rattle.od_session.specs.Grammars.{RefusedAsTold};

use crate::expressions::Use;
use od_constraint::Runners;
use od_io::{MakeFault, PatternMaker};
use od_rule_text::grammar_fault::GrammarFault;
use od_text::text::{Copied, NoMemory, Text};
use std::alloc::Global;

/// One more expression with its runner.
fn keep<R: Drop>(
    alloc: Global,
    expression: &Text,
    runner: R,
    runners: &mut Runners<R>,
) -> Result<(), NoMemory>
    ensures { OnOk result (runners.new ≡ runners.old ++ (expression.now, runner) ∷ []) }
{
    let pattern = expression.copy(alloc)?;
    runners.push(pattern, runner)?;
    Ok(())
}

/// Makes the runner of one more expression.
fn add<M: PatternMaker>(
    alloc: Global,
    expression: &Text,
    maker: &mut M,
    runners: &mut Runners<M::Runner>,
) -> Result<(), MakeFault>
where
    M::Runner: Drop,
    requires { AreOwn M.Runner.pattern runners.old }
    ensures own { OnOk result (AreOwn M.Runner.pattern runners.new) }
    ensures patterns { OnOk result
        (patterns_of runners.new ≡ patterns_of runners.old ++ expression.now ∷ []) }
    ensures none_refused { OnOk result (M.refused maker.new ≡ M.refused maker.old) }
    ensures refused { IsErrOf result MakeFault.Refused
        → M.refused maker.new ≡ M.refused maker.old ++ expression.now ∷ [] }
    ensures memory { IsErrOf result MakeFault.NoMemory → M.refused maker.new ≡ M.refused maker.old }
{
    match maker.make(alloc, expression.get()) {
        Ok(runner) => match keep(alloc, expression, runner, runners) {
            Ok(()) => Ok(()),
            Err(NoMemory) => Err(MakeFault::NoMemory),
        },
        Err(fault) => Err(fault),
    }
}

/// A runner of each of the expressions, which differ, in their order. Behind the first one that the
/// maker refuses none is made.
pub(crate) fn make_all<M: PatternMaker>(
    alloc: Global,
    found: &[Use],
    maker: &mut M,
) -> Result<Runners<M::Runner>, GrammarFault>
where
    M::Runner: Drop,
    requires few { length found.now < 2 ^ 32 }
    requires new { AreNew [] (uses found.now) }
    ensures own { IfOk result (AreOwn M.Runner.pattern) }
    ensures patterns { IfOk result (λ runners.
        patterns_of runners ≡ map (λ a. a.expression) (uses found.now)) }
    ensures none_refused { OnOk result (M.refused maker.new ≡ M.refused maker.old) }
    ensures err { IfErr result (Tells (λ f.
        refusal (accepts_all_but (refused_since (M.refused maker.old) (M.refused maker.new)))
        1 (uses found.now) ≡ Some f)) }
    ensures told { IfErr result (λ f.
        RefusedAsTold f (refused_since (M.refused maker.old) (M.refused maker.new))) }
{
    let mut runners = Runners::new(alloc);
    let mut made: u32 = 0;
    for one in found {
        match add(alloc, one.expression, maker, &mut runners) {
            Ok(()) => made += 1,
            Err(MakeFault::Refused) => {
                return Err(GrammarFault::RegexRefused {
                    rule: one.rule,
                    number: made + 1,
                });
            }
            Err(MakeFault::NoMemory) => return Err(GrammarFault::NoMemory),
        }
    }
    Ok(runners)
}
