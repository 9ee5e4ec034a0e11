//! Laws of stored bytes, each the contract of a function that does nothing.
ghost use Rattle.od_stored.specs.Examples.{StoredExamples};
ghost use Rattle.od_stored.specs.Laws.{NoListBeginsAnother, PlacesFaults, ReadsListsBack};
ghost use Rattle.od_stored.specs.Laws.{ReadsNumbersBack, ReadsPairsBack, WritesListsAsRead};
ghost use Rattle.od_stored.specs.Laws.{WritesNumbersAsRead, WritesPairsAsRead};
ghost use Rattle.od_stored.specs.PairExamples.{PairExamples};

/// A number that is written is read again, whatever stands behind it.
pub fn reads_numbers_back()
    ensures { ReadsNumbersBack }
{}

/// A number that is read is written so: each number has one form.
pub fn writes_numbers_as_read()
    ensures { WritesNumbersAsRead }
{}

/// A list of mentions that is written is read again.
pub fn reads_lists_back()
    ensures { ReadsListsBack }
{}

/// A list of mentions that is read is written so: each list has one spelling.
pub fn writes_lists_as_read()
    ensures { WritesListsAsRead }
{}

/// Bytes are those of one list at most, and the bytes of a list begin those of no other.
pub fn no_list_begins_another()
    ensures { NoListBeginsAnother }
{}

/// Strictly ascending pairs that are packed are read again.
pub fn reads_pairs_back()
    ensures { ReadsPairsBack }
{}

/// Pairs that are read are packed so: each list has one form, and only ascending ones have one.
pub fn writes_pairs_as_read()
    ensures { WritesPairsAsRead }
{}

/// A first fault lies at one of the bytes, or, where they end within an item, at their length.
pub fn places_faults()
    ensures { PlacesFaults }
{}

/// The worked cases: lists and their bytes, and bytes with their first faults.
pub fn stored_examples()
    ensures { StoredExamples }
{}

/// The worked cases of packed pairs, and of bytes with their first faults.
pub fn pair_examples()
    ensures { PairExamples }
{}
