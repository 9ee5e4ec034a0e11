//! Laws of the definitions on what is asked, each the contract of a function that does nothing.
ghost use Rattle.od_asked.specs.Laws.{AsksInOrder, NoFieldWithoutToken, OneTableSplits, OwnTableFits};

/// The table that is made for what is asked fits it from row 0 on.
pub fn own_table_fits()
    ensures { OwnTableFits }
{}

/// A table fits two lists one after the other exactly where it fits the first, and behind it the second.
pub fn table_splits()
    ensures { OneTableSplits }
{}

/// A pattern or a path asks what its parts ask, in their order.
pub fn asks_in_order()
    ensures { AsksInOrder }
{}

/// No field has a fitting text where there is no token.
pub fn no_field_without_token()
    ensures { NoFieldWithoutToken }
{}
