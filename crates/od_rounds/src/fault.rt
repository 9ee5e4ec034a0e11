//! Why a round is refused.
use od_text::text::NoMemory;

/// Why a round is refused.
#[derive(Clone, Copy, Debug, PartialEq, Eq)]
pub enum RoundFault {
    /// A rule, numbered from 1, finds too much on a sentence: the first count above 10,000. The
    /// document is numbered from 0 over the view, the sentence from 0 in its document.
    Crowded {
        rule: u32,
        document: u32,
        sentence: u32,
        count: u64,
    },
    /// With one mention more the session would weigh so much, which is above 100,000.
    TooMany {
        weight: u64,
    },
    /// Memory was refused.
    NoMemory,
}

impl From<NoMemory> for RoundFault {
    ghost use Rattle.std.specs.Prelude.{◌≡◌};
    ghost use Rattle.od_rounds.specs.declared.fault.RoundFault.TheVariants as fault;

    ghost from_gives = { λ _ result. result ≡ fault.NoMemory };

    fn from(_refused: NoMemory) -> RoundFault {
        RoundFault::NoMemory
    }
}
