//! Laws of the definitions on marks, each the contract of a function that does nothing.
ghost use Rattle.od_mark.specs.Laws.{HistoriesJoin};

/// The history of marks that go on is the history of the first, and then that of the others.
pub fn histories_join()
    ensures { HistoriesJoin }
{}
