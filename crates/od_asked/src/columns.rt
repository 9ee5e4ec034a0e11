//! Tables of truths.
use od_text::list::List;

/// The truths on one sentence of what patterns ask, in the order of their text: one row for each constraint
/// with a truth for each token, and one row for each value of a step's label with a truth for each edge.
#[derive(Debug, Drop)]
pub struct Columns {
    pub rows: List<List<bool>>,
}
