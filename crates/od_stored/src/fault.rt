//! Why bytes are no value. Places are offsets in bytes, from 0.
ghost use Rattle.std.specs.Prelude.{◌≡◌};

use od_text::text::NoMemory;

/// Why no number stands at the front of some bytes.
#[derive(Clone, Copy, Debug, PartialEq, Eq)]
pub enum NumberFault {
    /// The bytes end within the number.
    Ends,
    /// The number is not in its shortest form, or is 2^32 or greater.
    Wrong,
}

/// Why bytes are no list of mentions: their first fault, at the first byte of the item concerned.
#[derive(Clone, Copy, Debug, PartialEq, Eq)]
pub enum CodecFault {
    /// The bytes end within an item; the place is their length.
    Short { at: u64 },
    /// The version is not 1, or a label's byte is neither 0 nor 1.
    BadTag { at: u64 },
    /// A number is not in its shortest form, or is 2^32 or greater.
    BadNumber { at: u64 },
    /// A text is not UTF-8; the place is that of its length.
    BadText { at: u64 },
    /// A mention's span has no token, or a part's span ends before it starts;
    /// the place is that of the number at which the span ends.
    BadSpan { at: u64 },
    /// Bytes are left over; the place is that of the first of them.
    Trailing { at: u64 },
    /// Memory was refused.
    NoMemory,
}

/// Why bytes are no packed pairs: their first fault.
#[derive(Clone, Copy, Debug, PartialEq, Eq)]
pub enum PackFault {
    /// The bytes end within an item; the place is their length.
    Truncated { at: u64 },
    /// The bytes are not the one form of a strictly ascending list. The place is the first byte of
    /// a number that is not in its shortest form, leads past 2^32 - 1 or does not ascend from the
    /// block before, of a block's length that is not its body's, or of the bytes left over.
    NotCanonical { at: u64 },
    /// Memory was refused.
    NoMemory,
}

impl From<NoMemory> for CodecFault {
    ghost use Rattle.od_stored.specs.declared.fault.CodecFault.TheVariants as fault;

    ghost from_gives = { λ _ result. result ≡ fault.NoMemory };

    fn from(_refused: NoMemory) -> CodecFault {
        CodecFault::NoMemory
    }
}

impl From<NoMemory> for PackFault {
    ghost use Rattle.od_stored.specs.declared.fault.PackFault.TheVariants as fault;

    ghost from_gives = { λ _ result. result ≡ fault.NoMemory };

    fn from(_refused: NoMemory) -> PackFault {
        PackFault::NoMemory
    }
}
