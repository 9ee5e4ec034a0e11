//! Output lines, as definitions: the JSON object of an entry, and that of a printed mention.
#![tactic(auto)]
