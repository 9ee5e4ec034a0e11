//! The moves of a path.

/// One move of a path, which is made from a token. The moves of a path are numbered from 0; behind
/// the last one the path's end is reached. Rows are those of a table of truths.
#[derive(Clone, Copy, Debug, Drop)]
pub enum Move {
    /// Over an edge from its governor to its dependent; where there is a row, it must hold at the
    /// edge.
    Along(Option<u32>),
    /// Over an edge from its dependent to its governor, likewise.
    Against(Option<u32>),
    /// Stays at the token; the row must hold there.
    Stay(u32),
    /// Goes on here, and also past so many moves.
    Fork(u32),
    /// Goes on past so many moves.
    Skip(u32),
    /// Goes on so many moves back.
    Back(u32),
    /// No way leads on.
    Fail,
}

/// A move that is still to be made, and the token that it is made from.
#[derive(Clone, Copy, Drop)]
pub(crate) struct Spot {
    pub pc: usize,
    pub at: usize,
}
