//! A caller's pass.
ghost use Rattle.std.specs.Prelude.{◌≡◌};

use crate::view::SeatView;
use atomic_table::Badge;

/// A caller's pass through the lock that it was made with. It stands for the marks that the caller
/// has seen. It may go to another thread, and cannot be copied.
#[derive(Drop)]
pub struct Pass {
    /// The place at the table; blank while the pass is in a turn.
    pub(crate) badge: Badge<SeatView>,
    pub(crate) number: u32,
    /// How many marks the caller has seen.
    pub(crate) known: u64,
}

impl Pass {
    pub(crate) fn new(badge: Badge<SeatView>, number: u32, known: u64) -> Pass
        ensures { (result.badge ≡ badge) × (result.number ≡ number) × (result.known ≡ known) }
    {
        Pass {
            badge,
            number,
            known,
        }
    }

    /// The caller's number, from 1. No other pass of the lock has it.
    pub fn number(&self) -> u32
        ensures { result ≡ self.now.number }
    {
        self.number
    }
}
