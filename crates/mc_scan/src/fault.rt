// Why a source is refused.

use mc_tree::fault::{Code, Fault};
use mc_tree::place::Place;
use mc_word::bytes::Memory;
use std::alloc::{AllocError, AllocFailed};
use thiserror::Error;

/// Why a source is refused: its first lexical fault with its place, or want of memory.
#[derive(Clone, Copy, PartialEq, Eq, Debug, Error)]
pub enum ScanFault {
    /// The byte is no blank, and begins no token and no comment.
    #[error("bad byte")]
    BadByte(Place),
    /// The number or the character that begins there is past its greatest value.
    #[error("number too large")]
    NumberTooLarge(Place),
    /// The comment that begins there has no end.
    #[error("open comment")]
    OpenComment(Place),
    /// The text whose opening quote stands there is not closed before the source ends, or before
    /// a byte that is not printable.
    #[error("open text")]
    OpenText(Place),
    #[error("memory")]
    Memory,
}

impl ScanFault {
    ghost use Rattle.std.specs.Prelude.{◌≡◌};
    ghost use Rattle.mc_scan.specs.Refusals.{fault_of};

    /// The fault of the source; none for want of memory.
    pub fn fault(self) -> Option<Fault>
        ensures { result ≡ fault_of self }
    {
        match self {
            ScanFault::BadByte(place) => Some(Fault {
                code: Code::BadByte,
                place,
            }),
            ScanFault::NumberTooLarge(place) => Some(Fault {
                code: Code::NumberTooLarge,
                place,
            }),
            ScanFault::OpenComment(place) => Some(Fault {
                code: Code::OpenComment,
                place,
            }),
            ScanFault::OpenText(place) => Some(Fault {
                code: Code::OpenText,
                place,
            }),
            ScanFault::Memory => None,
        }
    }
}

impl From<Memory> for ScanFault {
    ghost use Rattle.mc_scan.specs.declared.fault.ScanFault.TheVariants.{Memory};
    ghost use Rattle.std.specs.Prelude.{◌≡◌};

    ghost from_gives = { λ _ fault. fault ≡ Memory };

    fn from(_error: Memory) -> ScanFault {
        ScanFault::Memory
    }
}

impl From<AllocError> for ScanFault {
    ghost use Rattle.mc_scan.specs.declared.fault.ScanFault.TheVariants.{Memory};
    ghost use Rattle.std.specs.Prelude.{◌≡◌};

    ghost from_gives = { λ _ fault. fault ≡ Memory };

    fn from(_error: AllocError) -> ScanFault {
        ScanFault::Memory
    }
}

impl<T: Drop> From<AllocFailed<T>> for ScanFault {
    ghost use Rattle.mc_scan.specs.declared.fault.ScanFault.TheVariants.{Memory};
    ghost use Rattle.std.specs.Prelude.{◌≡◌};

    ghost from_gives = { λ _ fault. fault ≡ Memory };

    fn from(_error: AllocFailed<T>) -> ScanFault {
        ScanFault::Memory
    }
}
