//! The laws of lexemes, which hold of every text.
//!
//! A law is what a function here ensures; the function itself does nothing.
ghost use Rattle.od_language.specs.Lexed.{LexemesAreComputed};

/// Each text is split into lexemes in exactly one way, and that is the one that is computed.
#[tactic(auto, using(crate::proofs::Lexing::Readings::lexemes_are_computed))]
pub fn lexemes_are_computed()
    ensures { LexemesAreComputed }
{}
