//! Where a history goes on from.
use od_pattern::grammar::Head;
use od_row::rows::Rows;
use od_text::list::List;
use od_text::text::Bytes;

/// A grammar that was accepted, as a script names it.
#[derive(Debug, Drop)]
pub struct Known {
    pub head: Head,
    /// The greatest first round of its rules. Rounds are numbered from 1.
    pub greatest_first: u32,
}

/// How a desk was when it was loaded. No turn changes it.
#[derive(Debug, Drop)]
pub struct Origin {
    /// What its store kept.
    pub rows: Rows,
    /// The grammars that sessions may name.
    pub heads: List<Known>,
    /// The bytes that the sink had taken, where it tells them.
    pub sent: Option<Bytes>,
    /// How many calls of the store had failed.
    pub keeper_faults: u64,
    /// How many writes to the sink had failed.
    pub sink_faults: u64,
}
