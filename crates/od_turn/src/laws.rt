//! A law of the definitions, the contract of a function that does nothing.
ghost use Rattle.od_turn.specs.Laws.{OwnMarksStay};

/// Where marks go on with those of others, a caller's own marks are those that it has seen.
pub fn own_marks_stay()
    ensures { OwnMarksStay }
{}
