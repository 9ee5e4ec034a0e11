//! What holds of scripts that are written.
//!
//! A law is what a function here ensures; the function itself does nothing.
ghost use Rattle.od_script.specs.WrittenCases.{WrittenCases};

/// Worked cases: the bytes that scripts are written as.
pub fn cases_are_computed()
    ensures { WrittenCases }
{}
