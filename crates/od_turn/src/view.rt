//! What a seat at the table of the lock knows. Values of these types stand in proofs alone.
use od_mark::mark::Mark;
use od_mark::origin::Origin;
use od_text::list::List;

/// What one pass stands for.
pub struct PassView {
    /// The caller's number, from 1.
    pub number: u64,
    /// Where the history goes on from.
    pub origin: Origin,
    /// The marks that the caller has seen.
    pub seen: List<Mark>,
}

/// How far a seat is on its way to a turn. Tickets are counted from 0, and here without a bound.
pub enum Stage {
    /// It has no ticket.
    Idle,
    /// It drew this ticket, and waits.
    Waiting(u64),
    /// Its ticket is served. These marks were there when the turn began; once the word of the count
    /// was raised, those that are there now.
    InTurn(u64, List<Mark>),
}

/// What a seat knows. The first seat begins with all passes, and each of the others has one.
pub struct SeatView {
    pub passes: List<PassView>,
    pub stage: Stage,
}
