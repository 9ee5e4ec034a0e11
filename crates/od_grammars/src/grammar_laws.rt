//! The laws of grammars, which hold of every text.
//!
//! A law is what a function here ensures; the function itself does nothing.
ghost use Rattle.od_grammars.specs.Bodies.{BodiesAreComputed, RulesAreMeant};
ghost use Rattle.od_grammars.specs.Examples.{FileExamples, QueryExamples, FaultExamples};
ghost use Rattle.od_grammars.specs.PatternFaults.{RuleFaultsAreMeant, QueryFaultsAreMeant};
ghost use Rattle.od_grammars.specs.SameExpressions.{ExpressionsAreAsked};

/// The text of a rule's pattern, once its variables are replaced, has exactly one value or exactly one
/// first fault, and never both: that which grammars are read with.
#[tactic(auto, using(crate::proofs::Bodies::bodies_are_computed))]
pub fn bodies_are_computed()
    ensures { BodiesAreComputed }
{}

/// A grammar has a rule for each item of its rule file, in the order of the file, and the body of each
/// is that hop or that event pattern which the text of its pattern is.
#[tactic(auto, using(crate::proofs::Bodies::rules_are_meant))]
pub fn rules_are_meant()
    ensures { RulesAreMeant }
{}

/// Where the first fault of a grammar is that of a pattern, it tells the number of its rule, from 1,
/// and the first fault of the pattern's text once its variables are replaced; a query is rule 1.
pub fn pattern_faults_are_meant()
    ensures rules { RuleFaultsAreMeant }
    ensures queries { QueryFaultsAreMeant }
{}

/// The regular expressions of a rule are those of what it asks of a sentence, in the same order.
#[tactic(auto, using(crate::proofs::SameExpressions::expressions_are_asked))]
pub fn expressions_are_asked()
    ensures { ExpressionsAreAsked }
{}

/// Worked cases.
pub fn cases_are_computed()
    ensures files { FileExamples }
    ensures queries { QueryExamples }
    ensures faults { FaultExamples }
{}
