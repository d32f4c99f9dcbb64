// Why bytes are no image.

use mc_word::bytes::Memory;
use std::alloc::{AllocError, AllocFailed};
use thiserror::Error;

/// Why bytes are refused: their first fault from the left, or want of memory. Places count bytes from 0. The
/// format is DEC's absolute loader format; the faults, their order and their places are this project's own.
#[derive(Clone, Copy, PartialEq, Eq, Debug, Error)]
pub enum ImageFault {
    /// Between blocks the byte there is neither 000 nor 001, or it stands behind a 001 and is not 000.
    #[error("bad header")]
    BadHeader(usize),
    /// The block that begins there is not all there.
    #[error("truncated")]
    Truncated(usize),
    /// The count of the block that begins there is less than 6.
    #[error("bad count")]
    BadCount(usize),
    /// The bytes of the block that begins there do not sum to 0 modulo 256.
    #[error("bad sum")]
    BadSum(usize),
    /// Data of the block that begins there pass 157777 octal.
    #[error("out of memory range")]
    OutOfMemoryRange(usize),
    /// The data of the block that begins there overlap those of an earlier block.
    #[error("overlap")]
    Overlap(usize),
    /// The bytes end without a start block, or the start address is odd.
    #[error("no start")]
    NoStart,
    /// The byte there stands behind the start block and is not 000.
    #[error("trailing")]
    Trailing(usize),
    #[error("memory")]
    Memory,
}

impl From<Memory> for ImageFault {
    ghost use Rattle.mc_image.specs.declared.fault.ImageFault.TheVariants.{Memory};
    ghost use Rattle.std.specs.Prelude.{◌≡◌};

    ghost from_gives = { λ _ fault. fault ≡ Memory };

    fn from(_error: Memory) -> ImageFault {
        ImageFault::Memory
    }
}

impl From<AllocError> for ImageFault {
    ghost use Rattle.mc_image.specs.declared.fault.ImageFault.TheVariants.{Memory};
    ghost use Rattle.std.specs.Prelude.{◌≡◌};

    ghost from_gives = { λ _ fault. fault ≡ Memory };

    fn from(_error: AllocError) -> ImageFault {
        ImageFault::Memory
    }
}

impl<T: Drop> From<AllocFailed<T>> for ImageFault {
    ghost use Rattle.mc_image.specs.declared.fault.ImageFault.TheVariants.{Memory};
    ghost use Rattle.std.specs.Prelude.{◌≡◌};

    ghost from_gives = { λ _ fault. fault ≡ Memory };

    fn from(_error: AllocFailed<T>) -> ImageFault {
        ImageFault::Memory
    }
}
