//! The laws of the grammars, which hold of every text.
//!
//! A law is what a function here ensures; the function itself does nothing.
ghost use Rattle.od_syntax.specs.EventVerdicts.{EventsAreComputed};
ghost use Rattle.od_syntax.specs.Examples.{SurfaceExamples, HopExamples, PathExamples, EventExamples, StepsExamples};
ghost use Rattle.od_syntax.specs.HopVerdicts.{HopsAreComputed, HopTextsAreComputed, HopTextsHaveOneAnswer};
ghost use Rattle.od_syntax.specs.OneRule.{OneSurfaceRule, OneHopRule};
ghost use Rattle.od_syntax.specs.StepsAnswer.{StepsHaveOneAnswer};
ghost use Rattle.od_syntax.specs.Verdicts.{SurfacesAreComputed, SurfaceTextsAreComputed, PathsAreComputed};

/// A text is a surface pattern of exactly one value or has exactly one first fault, and never both: that which is computed.
#[tactic(auto, using(crate::proofs::Verdicts::surfaces_are_computed, crate::proofs::Verdicts::surface_texts_are_computed))]
pub fn surfaces_are_computed()
    ensures anywhere { SurfacesAreComputed }
    ensures texts { SurfaceTextsAreComputed }
{}

/// The same of paths.
#[tactic(auto, using(crate::proofs::Verdicts::paths_are_computed))]
pub fn paths_are_computed()
    ensures { PathsAreComputed }
{}

/// The same of hops.
pub fn hops_are_computed()
    ensures anywhere { HopsAreComputed }
    ensures texts { HopTextsAreComputed }
    ensures one_answer { HopTextsHaveOneAnswer }
{}

/// The same of event patterns.
#[tactic(auto, using(crate::proofs::Events::events_are_computed))]
pub fn events_are_computed()
    ensures { EventsAreComputed }
{}

/// The lexemes of a hop begin with steps of exactly one value, or have exactly one first fault.
pub fn steps_have_one_answer()
    ensures { StepsHaveOneAnswer }
{}

/// Of the rules that one lexeme of a surface pattern or of a hop breaks, one is named.
#[tactic(auto, using(crate::proofs::OneRule::one_surface_rule, crate::proofs::OneRule::one_hop_rule))]
pub fn one_rule_is_broken()
    ensures surfaces { OneSurfaceRule }
    ensures hops { OneHopRule }
{}

/// Worked cases.
pub fn cases_are_computed()
    ensures surfaces { SurfaceExamples }
    ensures hops { HopExamples }
    ensures paths { PathExamples }
    ensures events { EventExamples }
    ensures steps { StepsExamples }
{}
