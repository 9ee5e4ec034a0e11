//! The outside: sources and sinks of bytes, in memory and the standard ones, with what is read
//! whole and written whole; makers of regular expressions, and what runs them.
#![tactic(auto)]

mod count;
mod fail_maker;
mod makers;
mod memory_sink;
mod memory_source;
mod regex_maker;
mod standard;
mod streams;
mod whole;

pub use fail_maker::FailMaker;
pub use makers::{MakeFault, PatternMaker, Runner};
pub use memory_sink::MemSink;
pub use memory_source::MemSource;
pub use regex_maker::{RegexMaker, RegexRunner};
pub use standard::{StdSink, StdSource};
pub use streams::{Failed, Sink, Source};
pub use whole::{ReadAll, read_all, write_whole};
