//! What event rules find in a sentence, given the matches of their triggers. From each of these the
//! paths of the arguments are walked, and each choice among what they lead to makes a match of the
//! rule. All of them are counted before the first one is made, and then made one at a time.
#![tactic(auto)]

mod candidates;
mod choices;
mod counting;
pub mod matches;
mod options;
pub mod spans;
