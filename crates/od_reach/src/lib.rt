//! Where dependency paths lead from tokens of a sentence that is numbers of a table. A path is
//! written out as moves once; a walk over the tokens and edges then takes up each move at each
//! token at most once, also where edges go in a circle.
#![tactic(auto)]

pub mod compile;
pub mod links;
pub mod moves;
pub mod reaching;
pub mod walk;
