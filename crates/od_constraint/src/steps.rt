//! The steps of a constraint.
use od_pattern::pattern::Field;

/// A part of a constraint: an operator, or a test of a field, whose hits stand at a place.
#[derive(Clone, Copy, Debug)]
pub(crate) enum Step {
    Any,
    Is(Field, usize),
    Not,
    And,
    Or,
}
