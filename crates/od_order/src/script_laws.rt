//! The laws of scripts, which hold of all bytes.
//!
//! A law is what a function here ensures; the function itself does nothing.
ghost use Rattle.od_order.specs.Cases.{ScriptCases, FaultCases};
ghost use Rattle.od_order.specs.Laws.{ScriptsAreFew};

/// A script that is read has no more grammars, clients and orders than it may have, and no two grammars of one name.
#[tactic(auto, using(crate::proofs::Few::scripts_are_few))]
pub fn scripts_are_few()
    ensures { ScriptsAreFew }
{}

/// Worked cases: scripts as they are read, and the first fault of others.
pub fn cases_are_computed()
    ensures scripts { ScriptCases }
    ensures faults { FaultCases }
{}
