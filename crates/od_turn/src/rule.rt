//! The rule of the table: what holds of its words, its slot and the seats between any two steps.
//!
//! - The tickets that are out are the numbers from the one served to the next one drawn, each at one
//!   seat. The words keep their last 64 bits; at most as many tickets are out as there are passes,
//!   fewer than 2^32, so no two tickets that are out look alike.
//! - At most one seat is in turn: the one whose ticket is served. While one is, the slot is out with
//!   it, and else a value is in the slot.
//! - There is one list of marks. Its length is the count, a value in the slot stands for it, and each
//!   pass has seen a beginning of it, past which the marks name other callers.
//! - Each number from 1 to that of the passes is the number of one pass. Each mark past those of the
//!   first value names such a number. All passes, and a value in the slot, have one origin.
use crate::counted::Counted;
use crate::view::SeatView;
use atomic_table::TableRule;
use std::marker::PhantomData;
use std::snapshot::Snapshot;

/// What the table is told when it is made.
#[derive(Drop)]
pub struct Opening<V> {
    /// The number of passes.
    pub callers: u64,
    /// The value at the beginning.
    pub first: Snapshot<V>,
}

/// The rule of a turn lock over a value of this type.
pub struct TurnRule<V> {
    of: PhantomData<V>,
}

impl<V: Counted> TableRule<Option<V>, SeatView, Opening<V>> for TurnRule<V> {
    ghost use Rattle.od_turn.specs.Rule.{IsOrderly, first_view};

    ghost holds = { λ k. IsOrderly V.marks V.origin k.callers (V.origin k.first.value) (V.marks k.first.value) };

    ghost first = { λ k. first_view (V.origin k.first.value) (V.marks k.first.value) k.callers };
}
