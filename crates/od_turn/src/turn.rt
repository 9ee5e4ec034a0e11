//! A turn: what a caller has between taking the value and giving it back.
ghost use Rattle.std.specs.Prelude.{◌≡◌, length};
ghost use Rattle.od_turn.specs.Passes.{held_marks, IsTurn};

use crate::view::SeatView;
use atomic_table::Seat;

/// The value while its caller is in turn. It cannot be dropped: `Turnstile::give` takes it back on
/// every path, so nothing between `take` and `give` leaves early. Others wait for as long as it lasts.
pub struct Turn<V> {
    pub(crate) seat: Seat<Option<V>, SeatView>,
    pub(crate) value: V,
    /// How many marks were there when the turn began.
    pub(crate) count: u64,
    ghost shape: { IsTurn seat.me },
    ghost counted: { count ≡ length (held_marks seat.me) },
}

impl<V> Turn<V> {
    ghost use Rattle.std.specs.Borrow.{sem};
    ghost use Rattle.od_turn.specs.Lending.{LendsValue};

    /// The value.
    pub fn value(&self) -> &V
        ensures { result.now ≡ self.now.value }
    {
        &self.value
    }

    /// The value, to be changed.
    pub fn value_mut(&mut self) -> &mut V
        ensures* writes_back { sem 𝓛 (LendsValue V.row self.entry result) }
        ensures value { result.now ≡ self.old.value }
    {
        &mut self.value
    }
}
