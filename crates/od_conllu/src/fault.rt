ghost use Rattle.std.specs.Prelude.{◌≡◌};

use od_document::conllu::ConlluFault;
use od_text::text::NoMemory;
use std::alloc::AllocFailed;

/// Why a document was not read.
#[derive(Clone, Copy, Debug, PartialEq, Eq)]
pub enum ReadDocFault {
    /// The bytes are no document; their first fault.
    Bad(ConlluFault),
    /// Memory was refused.
    NoMemory,
}

impl From<ConlluFault> for ReadDocFault {
    ghost use Rattle.od_conllu.specs.declared.fault.ReadDocFault.TheVariants.{Bad};

    ghost from_gives = { λ fault result. result ≡ Bad fault };

    fn from(fault: ConlluFault) -> ReadDocFault {
        ReadDocFault::Bad(fault)
    }
}

impl From<NoMemory> for ReadDocFault {
    ghost use Rattle.od_conllu.specs.declared.fault.ReadDocFault.TheVariants as fault;

    ghost from_gives = { λ _ result. result ≡ fault.NoMemory };

    fn from(_refused: NoMemory) -> ReadDocFault {
        ReadDocFault::NoMemory
    }
}

impl<T: Drop> From<AllocFailed<T>> for ReadDocFault {
    ghost use Rattle.od_conllu.specs.declared.fault.ReadDocFault.TheVariants as fault;

    ghost from_gives = { λ _ result. result ≡ fault.NoMemory };

    fn from(_refused: AllocFailed<T>) -> ReadDocFault {
        ReadDocFault::NoMemory
    }
}
