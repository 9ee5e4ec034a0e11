//! Why what a rule finds on a sentence is refused.
ghost use Rattle.std.specs.Prelude.{◌≡◌};

use od_text::text::NoMemory;

/// Why what a rule finds on a sentence is refused.
#[derive(Clone, Copy, Debug, PartialEq, Eq)]
pub enum MatchFault {
    /// There are too many: the first count above 10,000, of the elements of a list after one
    /// of a hop's parts, or of an event's mentions on the sentence.
    Crowded { count: u64 },
    /// Memory was refused.
    NoMemory,
}

impl From<NoMemory> for MatchFault {
    ghost use Rattle.od_trails.specs.declared.fault.MatchFault.TheVariants as fault;

    ghost from_gives = { λ _ result. result ≡ fault.NoMemory };

    fn from(_refused: NoMemory) -> MatchFault {
        MatchFault::NoMemory
    }
}
