//! The output lines. Each is one JSON object on a line of its own: no space between its parts, its
//! keys in the order of their bytes, and an LF at its end.
mod entry;
mod members;
mod mention;
mod names;
mod refusal;
mod words;

pub use entry::entry_line;
pub use mention::session_lines;
