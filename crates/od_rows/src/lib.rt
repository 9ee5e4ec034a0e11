//! What the rows of a store say: which are well formed, the object that they are, and what a
//! history makes of them.
#![tactic(auto)]

pub mod row_laws;
